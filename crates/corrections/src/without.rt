//! A request without some of its requirements, and which of the others are in conflict.
ghost use Rattle.std.specs.Prelude.{◌≡◌, true, false, IfOk};
ghost use Rattle.corrections.specs.Corrections.{AreNamedMarked, IsNamed, IsNamedBy};
ghost use Rattle.corrections.specs.Marks.{is_marked, kept};

use crate::marks::is_marked;
use resolvo_ids::StoreError;
use resolvo_pool::ConditionalRequirement;
use solutions::Reason;
use std::alloc::Allocator;

/// The requirements that aren't left out.
pub(crate) fn kept<A: Allocator>(
    alloc: A,
    requested: &[ConditionalRequirement],
    left_out: &[bool],
) -> Result<Vec<ConditionalRequirement, A>, StoreError>
    ensures { IfOk result (λ rest. rest.items ≡ kept left_out.now requested.now) }
{
    let mut rest = Vec::new(alloc);
    for (place, conditional) in requested.iter().enumerate() {
        if !is_marked(left_out, place) {
            rest.push(*conditional)?;
        }
    }
    Ok(rest)
}

/// Marks the requirements that the reasons name, of those that aren't left out.
pub(crate) fn named<N, S, A: Allocator>(
    alloc: A,
    requested: &[ConditionalRequirement],
    left_out: &[bool],
    reasons: &[Reason<N, S>],
) -> Result<Vec<bool, A>, StoreError>
    ensures { IfOk result (λ marks. AreNamedMarked requested.now left_out.now reasons.now marks.items) }
{
    let mut marks = Vec::new(alloc);
    for (place, conditional) in requested.iter().enumerate() {
        marks.push(is_in_conflict(left_out, place, reasons, *conditional))?;
    }
    Ok(marks)
}

/// Whether the requirement at a place isn't left out, and one of the reasons names it.
fn is_in_conflict<N, S>(
    left_out: &[bool],
    place: usize,
    reasons: &[Reason<N, S>],
    conditional: ConditionalRequirement,
) -> bool
    ensures { is_marked left_out.now place ≡ false → IsNamed reasons.now conditional → result ≡ true }
{
    !is_marked(left_out, place) && is_named(reasons, &conditional)
}

/// Whether one of the reasons names the requirement.
fn is_named<N, S>(reasons: &[Reason<N, S>], conditional: &ConditionalRequirement) -> bool
    ensures { IsNamed reasons.now conditional.now → result ≡ true }
{
    for reason in reasons {
        if is_named_by(reason, conditional) {
            return true;
        }
    }
    false
}

/// Whether a reason says that the request has this requirement.
fn is_named_by<N, S>(reason: &Reason<N, S>, conditional: &ConditionalRequirement) -> bool
    ensures { IsNamedBy conditional.now reason.now → result ≡ true }
{
    match reason {
        Reason::Needs(None, other) => other == conditional,
        Reason::Lacks(None, other) => other == conditional,
        _ => false,
    }
}
