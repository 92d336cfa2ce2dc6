//! The text of a line.
ghost use Rattle.std.specs.Prelude.{◌≡◌, ◌++◌, OnOk};
ghost use Rattle.resolvo_pool.specs.Texts.{IsAppended};
ghost use Rattle.reports.specs.LineTexts.{text_of_line, text_of_need, text_of_said, text_of_why};
ghost use Rattle.reports.specs.LineTexts.{text_of_missing, text_of_request};

use crate::condition_text::write_if;
use crate::line::Line;
use crate::missing::{write_empty, write_missing};
use crate::versions::write_versions;
use crate::words::{write_name, write_requirement, write_set, write_string};
use resolvo_ids::{StoreError, StringId};
use resolvo_pool::{ConditionalRequirement, DependencyProvider, Interner};
use solutions::Reason;

type Done = Result<(), StoreError>;

/// Appends what a line says: of whom, and what.
pub(crate) fn write_line<P: DependencyProvider>(
    provider: &P,
    line: &Line<P::NameId, P::SolvableId, P::Alloc>,
    text: &mut String<P::Alloc>,
) -> Done
    ensures { OnOk result (IsAppended text.old text.new
        (text_of_line
        (P.universe provider.now) (P.texts provider.now) P.SolvableId.eq (P.answers provider.now) line.now)) }
{
    write_versions(provider, &line.versions, text)?;
    write_said(provider, line.reason, text)
}

/// Appends what is said, behind of whom.
fn write_said<P: DependencyProvider>(
    provider: &P,
    reason: Reason<P::NameId, P::SolvableId>,
    text: &mut String<P::Alloc>,
) -> Done
    ensures { OnOk result (IsAppended text.old text.new
        (text_of_said
        (P.universe provider.now) (P.texts provider.now) (P.answers provider.now) reason)) }
{
    match reason {
        Reason::Needs(parent, need) => {
            text.push_str(request_of(parent))?;
            write_need(provider, need, text)?;
            write_empty(provider, need.requirement, text)
        }
        Reason::Lacks(parent, need) => {
            text.push_str(request_of(parent))?;
            write_lack(provider, need, text)
        }
        Reason::Limits(_, set) => {
            text.push_str(" allows only ")?;
            write_set(provider, set, text)
        }
        Reason::Unknown(_, string) => write_why(
            provider,
            " has unknown dependencies: ",
            string,
            text,
        ),
        Reason::Excluded(_, string) => write_why(provider, " is excluded: ", string, text),
        Reason::Locked(_) => Ok(text.push_str(" is locked: no other version may be picked")?),
        Reason::OneVersion(name) => {
            text.push_str("at most one version of ")?;
            write_name(provider, name, text)
        }
    }
}

/// Who needs something, if no version does.
fn request_of<S: Copy>(parent: Option<S>) -> &'static str
    ensures { result.now ≡ text_of_request parent }
{
    match parent {
        Some(_) => "",
        None => "request",
    }
}

/// Appends what is needed, and when.
fn write_need<I: Interner>(
    interner: &I,
    need: ConditionalRequirement,
    text: &mut String<I::Alloc>,
) -> Done
    ensures { OnOk result (IsAppended text.old text.new
        (text_of_need (I.universe interner.now) (I.texts interner.now) need)) }
{
    text.push_str(" needs ")?;
    write_requirement(interner, need.requirement, text)?;
    write_if(interner, need.condition, text)
}

/// Appends what is needed, and why there is no candidate.
fn write_lack<P: DependencyProvider>(
    provider: &P,
    need: ConditionalRequirement,
    text: &mut String<P::Alloc>,
) -> Done
    ensures { OnOk result (IsAppended text.old text.new
        (text_of_need (P.universe provider.now) (P.texts provider.now) need
        ++ text_of_missing (P.universe provider.now) (P.texts provider.now) (P.answers provider.now)
        need.requirement)) }
{
    let requirement = need.requirement;
    write_need(provider, need, text)?;
    write_missing(provider, requirement, text)
}

/// Appends what is said, and the string that says why.
fn write_why<I: Interner>(
    interner: &I,
    said: &str,
    string: StringId,
    text: &mut String<I::Alloc>,
) -> Done
    ensures { OnOk result (IsAppended text.old text.new
        (text_of_why (I.universe interner.now) (I.texts interner.now) said.now string)) }
{
    text.push_str(said)?;
    write_string(interner, string, text)
}
