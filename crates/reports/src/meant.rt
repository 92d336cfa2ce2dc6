//! Which package is meant by one that there isn't.
ghost use Rattle.std.specs.Prelude.{◌≡◌, true, OnOk};
ghost use Rattle.resolvo_pool.specs.Texts.{IsAppended};
ghost use Rattle.reports.specs.Nearest.{text_of_meant, text_of_meant_by, text_of_meant_set, text_of_meant_sets};
ghost use Rattle.reports.specs.Nearest.{nearest, text_of_question};
ghost use Rattle.reports.specs.Words.{text_of_name};

use crate::nearest_name::{has_versions, nearest, text_of};
use crate::words::write_name;
use resolvo_ids::{StoreError, VersionSetId};
use resolvo_pool::{DependencyProvider, Interner, Requirement};
use solutions::Reason;

type Done = Result<(), StoreError>;

/// Appends for each package that a reason needs, and that there isn't, which one of the names is meant.
pub(crate) fn write_meant<P: DependencyProvider>(
    provider: &P,
    names: &[P::NameId],
    reason: Reason<P::NameId, P::SolvableId>,
    text: &mut String<P::Alloc>,
) -> Done
    ensures { OnOk result (IsAppended text.old text.new (text_of_meant
        (P.universe provider.now) (P.texts provider.now) (P.answers provider.now) names.now reason)) }
{
    match reason {
        Reason::Needs(_, need) | Reason::Lacks(_, need) => {
            write_meant_by(provider, names, need.requirement, text)
        }
        _ => Ok(()),
    }
}

fn write_meant_by<P: DependencyProvider>(
    provider: &P,
    names: &[P::NameId],
    requirement: Requirement,
    text: &mut String<P::Alloc>,
) -> Done
    ensures { OnOk result (IsAppended text.old text.new (text_of_meant_by
        (P.universe provider.now) (P.texts provider.now) (P.answers provider.now) names.now requirement)) }
{
    match requirement {
        Requirement::Single(set) if provider.knows_version_set(set) => {
            write_meant_sets(provider, names, &[set], text)
        }
        Requirement::Union(union) if provider.knows_union(union) => {
            write_meant_sets(provider, names, provider.version_sets_in_union(union), text)
        }
        _ => Ok(()),
    }
}

fn write_meant_sets<P: DependencyProvider>(
    provider: &P,
    names: &[P::NameId],
    sets: &[VersionSetId],
    text: &mut String<P::Alloc>,
) -> Done
    ensures { OnOk result (IsAppended text.old text.new (text_of_meant_sets
        (P.universe provider.now) (P.texts provider.now) (P.answers provider.now) names.now sets.now)) }
{
    for set in sets {
        write_meant_set(provider, names, *set, text)?;
    }
    Ok(())
}

/// Appends which one of the names is meant by the version set's package, if that has no versions.
fn write_meant_set<P: DependencyProvider>(
    provider: &P,
    names: &[P::NameId],
    set: VersionSetId,
    text: &mut String<P::Alloc>,
) -> Done
    ensures { OnOk result (IsAppended text.old text.new (text_of_meant_set
        (P.universe provider.now) (P.texts provider.now) (P.answers provider.now) names.now set)) }
{
    if !provider.knows_version_set(set) {
        return Ok(());
    }
    let name = provider.version_set_name(set);
    if has_versions(*text.allocator(), provider, name)? {
        return Ok(());
    }
    write_nearest(provider, names, name, text)
}

/// Appends which one of the names is meant by this name.
fn write_nearest<P: DependencyProvider>(
    provider: &P,
    names: &[P::NameId],
    name: P::NameId,
    text: &mut String<P::Alloc>,
) -> Done
    ensures { let universe = P.universe provider.now in let texts = P.texts provider.now in
        OnOk result (IsAppended text.old text.new (text_of_question universe texts
        (nearest universe texts (P.answers provider.now) names.now (text_of_name universe texts name)))) }
{
    let alloc = *text.allocator();
    let own = text_of(alloc, provider, name)?;
    let found = nearest(alloc, provider, names, own.as_str())?;
    write_question(provider, found, text)
}

/// Appends the question whether this package is meant.
fn write_question<P: DependencyProvider>(
    provider: &P,
    name: Option<P::NameId>,
    text: &mut String<P::Alloc>,
) -> Done
    ensures { OnOk result (IsAppended text.old text.new
        (text_of_question (P.universe provider.now) (P.texts provider.now) name)) }
{
    let Some(name) = name else {
        return Ok(());
    };
    text.push_str("; is ")?;
    write_name(provider, name, text)?;
    Ok(text.push_str(" meant?")?)
}
