//! Why there is no solution, in an index's words.
ghost use Rattle.std.specs.Prelude.{◌≡◌, true, OnOk};
ghost use Rattle.resolvo_pool.specs.Texts.{IsAppended};
ghost use Rattle.example_answers.specs.Answers.{lines_of};
ghost use Rattle.example_answers.specs.Reasons.{text_of_name, text_of_solvable, text_of_requirement, text_of_set};
ghost use Rattle.example_answers.specs.Reasons.{text_of_parts, text_of_condition, text_of_parent, text_of_need};
ghost use Rattle.example_answers.specs.Reasons.{text_of_reason, text_of_unknown};

use picking::Reason;
use resolvo_ids::{ConditionId, StoreError, VersionSetId};
use resolvo_pool::{Condition, ConditionalRequirement, Interner, Requirement};

type Done = Result<(), StoreError>;

/// Appends a line for each reason. If no solvable needs something, the request does.
pub(crate) fn write_reasons<I: Interner>(
    interner: &I,
    reasons: &[Reason<I::NameId, I::SolvableId>],
    text: &mut String<I::Alloc>,
) -> Done
    ensures { OnOk result (IsAppended text.old text.new
        (lines_of (text_of_reason (I.universe interner.now) (I.texts interner.now)) reasons.now)) }
{
    for reason in reasons {
        write_reason(interner, *reason, text)?;
        text.push_str("\n")?;
    }
    Ok(())
}

/// Appends a reason, without an end of line.
pub fn write_reason<I: Interner>(
    interner: &I,
    reason: Reason<I::NameId, I::SolvableId>,
    text: &mut String<I::Alloc>,
) -> Done
    ensures { OnOk result (IsAppended text.old text.new
        (text_of_reason (I.universe interner.now) (I.texts interner.now) reason)) }
{
    match reason {
        Reason::Needs(parent, conditional) => { write_need(interner, parent, conditional, text) }
        Reason::Lacks(parent, conditional) => {
            write_need(interner, parent, conditional, text)?;
            Ok(text.push_str(", and there is none")?)
        }
        Reason::Limits(solvable, set) => {
            write_solvable(interner, solvable, text)?;
            text.push_str(" limits ")?;
            write_set(interner, set, text)
        }
        Reason::Unknown(solvable, _) => write_unknown(interner, solvable, text),
        Reason::Excluded(solvable, _) => {
            write_solvable(interner, solvable, text)?;
            Ok(text.push_str(" is excluded")?)
        }
        Reason::Locked(solvable) => {
            write_solvable(interner, solvable, text)?;
            Ok(text.push_str(" is locked")?)
        }
        Reason::OneVersion(name) => {
            text.push_str("one version of ")?;
            write_name(interner, name, text)
        }
    }
}

/// Appends that it is unknown what a solvable needs.
fn write_unknown<I: Interner>(
    interner: &I,
    solvable: I::SolvableId,
    text: &mut String<I::Alloc>,
) -> Done
    ensures { OnOk result (IsAppended text.old text.new
        (text_of_unknown (I.universe interner.now) (I.texts interner.now) solvable)) }
{
    text.push_str("what ")?;
    write_solvable(interner, solvable, text)?;
    Ok(text.push_str(" needs is unknown")?)
}

/// Appends who needs what.
pub(crate) fn write_need<I: Interner>(
    interner: &I,
    parent: Option<I::SolvableId>,
    conditional: ConditionalRequirement,
    text: &mut String<I::Alloc>,
) -> Done
    ensures { OnOk result (IsAppended text.old text.new
        (text_of_need (I.universe interner.now) (I.texts interner.now) parent conditional)) }
{
    write_parent(interner, parent, text)?;
    text.push_str(" needs ")?;
    write_requirement(interner, conditional.requirement, text)?;
    write_condition(interner, conditional.condition, text)
}

/// Appends who needs something.
fn write_parent<I: Interner>(
    interner: &I,
    parent: Option<I::SolvableId>,
    text: &mut String<I::Alloc>,
) -> Done
    ensures { OnOk result (IsAppended text.old text.new
        (text_of_parent (I.universe interner.now) (I.texts interner.now) parent)) }
{
    match parent {
        Some(solvable) => write_solvable(interner, solvable, text),
        None => Ok(text.push_str("request")?),
    }
}

fn write_requirement<I: Interner>(
    interner: &I,
    requirement: Requirement,
    text: &mut String<I::Alloc>,
) -> Done
    ensures { OnOk result (IsAppended text.old text.new
        (text_of_requirement (I.universe interner.now) (I.texts interner.now) requirement)) }
{
    match requirement {
        Requirement::Single(set) if interner.knows_version_set(set) => {
            requirement.display(interner, text)
        }
        Requirement::Union(union) if interner.knows_union(union) => {
            requirement.display(interner, text)
        }
        _ => Ok(()),
    }
}

/// Appends a condition. One that joins others isn't spelled out.
fn write_condition<I: Interner>(
    interner: &I,
    condition: Option<ConditionId>,
    text: &mut String<I::Alloc>,
) -> Done
    ensures { OnOk result (IsAppended text.old text.new
        (text_of_condition (I.universe interner.now) (I.texts interner.now) condition)) }
{
    match condition {
        Some(condition) if interner.knows_condition(condition) => {
            write_parts(interner, interner.resolve_condition(condition), text)
        }
        _ => Ok(()),
    }
}

/// Appends what a condition is made of.
fn write_parts<I: Interner>(interner: &I, condition: Condition, text: &mut String<I::Alloc>) -> Done
    ensures { OnOk result (IsAppended text.old text.new
        (text_of_parts (I.universe interner.now) (I.texts interner.now) condition)) }
{
    match condition {
        Condition::Requirement(set) => {
            text.push_str(" if ")?;
            write_set(interner, set, text)
        }
        Condition::Binary(_, _, _) => Ok(text.push_str(" under a condition")?),
    }
}

/// Appends a version set, behind the name of its package. Nothing is appended for one that isn't known.
pub fn write_set<I: Interner>(interner: &I, set: VersionSetId, text: &mut String<I::Alloc>) -> Done
    ensures { OnOk result (IsAppended text.old text.new
        (text_of_set (I.universe interner.now) (I.texts interner.now) set)) }
{
    write_requirement(interner, Requirement::Single(set), text)
}

/// Appends a solvable as the interner displays it. Nothing is appended for one that isn't known.
pub fn write_solvable<I: Interner>(
    interner: &I,
    solvable: I::SolvableId,
    text: &mut String<I::Alloc>,
) -> Done
    ensures { OnOk result (IsAppended text.old text.new
        (text_of_solvable (I.universe interner.now) (I.texts interner.now) solvable)) }
{
    if interner.knows_solvable(solvable) {
        interner.display_solvable(solvable, text)?;
    }
    Ok(())
}

/// Appends a name as the interner displays it. Nothing is appended for one that isn't known.
pub fn write_name<I: Interner>(interner: &I, name: I::NameId, text: &mut String<I::Alloc>) -> Done
    ensures { OnOk result (IsAppended text.old text.new
        (text_of_name (I.universe interner.now) (I.texts interner.now) name)) }
{
    if interner.knows_name(name) {
        interner.display_name(name, text)?;
    }
    Ok(())
}
