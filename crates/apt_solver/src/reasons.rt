//! Why there is no solution, as the lines of a message. What isn't known is left out.
use picking::Reason;
use resolvo_ids::{StoreError, StringId};
use resolvo_pool::{ConditionalRequirement, Interner, Requirement};

type Done = Result<(), StoreError>;

/// Appends a line for each reason.
pub(crate) fn write_reasons<I: Interner>(
    interner: &I,
    reasons: &[Reason<I::NameId, I::SolvableId>],
    text: &mut String<I::Alloc>,
) -> Done {
    for reason in reasons {
        text.push_str("\n")?;
        write_reason(interner, *reason, text)?;
    }
    Ok(())
}

/// Appends a reason.
fn write_reason<I: Interner>(
    interner: &I,
    reason: Reason<I::NameId, I::SolvableId>,
    text: &mut String<I::Alloc>,
) -> Done {
    match reason {
        Reason::Needs(parent, need) => write_need(interner, parent, need, text),
        Reason::Lacks(parent, need) => {
            write_need(interner, parent, need, text)?;
            Ok(text.push_str(", which can't be picked")?)
        }
        Reason::Limits(solvable, set) => {
            write_solvable(interner, solvable, text)?;
            text.push_str(" conflicts with ")?;
            write_requirement(interner, Requirement::Single(set), text)
        }
        Reason::Unknown(solvable, string) | Reason::Excluded(solvable, string) => {
            write_solvable(interner, solvable, text)?;
            text.push_str(": ")?;
            write_string(interner, string, text)
        }
        Reason::Locked(solvable) => {
            write_solvable(interner, solvable, text)?;
            Ok(text.push_str(" is held")?)
        }
        Reason::OneVersion(name) => {
            text.push_str("at most one version of ")?;
            write_name(interner, name, text)
        }
    }
}

/// Appends who needs what.
fn write_need<I: Interner>(
    interner: &I,
    parent: Option<I::SolvableId>,
    need: ConditionalRequirement,
    text: &mut String<I::Alloc>,
) -> Done {
    match parent {
        Some(solvable) => {
            write_solvable(interner, solvable, text)?;
            text.push_str(" needs ")?;
        }
        None => text.push_str("requested: ")?,
    }
    write_requirement(interner, need.requirement, text)
}

fn write_requirement<I: Interner>(
    interner: &I,
    requirement: Requirement,
    text: &mut String<I::Alloc>,
) -> Done {
    match requirement {
        Requirement::Single(set) if interner.knows_version_set(set) => {
            requirement.display(interner, text)
        }
        Requirement::Union(union) if interner.knows_union(union) => {
            requirement.display(interner, text)
        }
        _ => Ok(()),
    }
}

fn write_solvable<I: Interner>(
    interner: &I,
    solvable: I::SolvableId,
    text: &mut String<I::Alloc>,
) -> Done {
    if interner.knows_solvable(solvable) {
        interner.display_solvable(solvable, text)?;
    }
    Ok(())
}

fn write_name<I: Interner>(interner: &I, name: I::NameId, text: &mut String<I::Alloc>) -> Done {
    if interner.knows_name(name) {
        interner.display_name(name, text)?;
    }
    Ok(())
}

fn write_string<I: Interner>(interner: &I, string: StringId, text: &mut String<I::Alloc>) -> Done {
    if interner.knows_string(string) {
        interner.display_string(string, text)?;
    }
    Ok(())
}
