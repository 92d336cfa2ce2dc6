//! Whether a clause's condition is met.
ghost use Rattle.std.specs.Prelude.{◌≡◌, ◌<◌, [], length, Some, IfSome};
ghost use Rattle.resolvo_queue.specs.Types.{condition_literals, stored_in, values_in};
ghost use Rattle.resolvo_queue.specs.Scan.{are_literals_false};

use clauses::Disjunction;
use decisions::{DecisionMap, Literal};
use id_storage::Arena;
use std::alloc::Allocator;
use typed_ids::{DenseIndex, DisjunctionId};

/// The literals of a condition. Without one there are none.
pub(crate) fn condition_of<'d, A: Allocator + Copy>(
    condition: &Option<DisjunctionId>,
    disjunctions: &'d Arena<DisjunctionId, Disjunction<A>, A>,
) -> &'d [Literal]
    requires { IfSome condition.now (λ d. d < length disjunctions.now) }
    ensures { result.now ≡ condition_literals (stored_in [] [] disjunctions.now) condition.now }
{
    match condition {
        None => &[],
        Some(disjunction) => disjunctions[*disjunction].literals.as_slice(),
    }
}

/// Whether a condition holds: all its literals are false. Without one there are none.
pub(crate) fn condition_holds<A: Allocator + Copy>(
    condition: Option<DisjunctionId>,
    disjunctions: &Arena<DisjunctionId, Disjunction<A>, A>,
    map: &DecisionMap<A>,
) -> bool
    requires { IfSome condition (λ d. d < length disjunctions.now) }
    ensures { result ≡ are_literals_false (values_in map.now)
        (condition_literals (stored_in [] [] disjunctions.now) condition) }
{
    are_false(condition_of(&condition, disjunctions), map)
}

/// Whether the condition of a disjunction with an index holds. Where there is no disjunction, there are no literals.
pub(crate) fn is_met<A: Allocator + Copy>(
    disjunction: u32,
    disjunctions: &Arena<DisjunctionId, Disjunction<A>, A>,
    map: &DecisionMap<A>,
) -> bool
    ensures { result ≡ are_literals_false (values_in map.now)
        (condition_literals (stored_in [] [] disjunctions.now) (Some disjunction)) }
{
    let index = disjunction as usize;
    if index >= disjunctions.len() {
        return true;
    }
    condition_holds(Some(DisjunctionId::from_index(index)), disjunctions, map)
}

/// Whether all literals are false.
fn are_false<A: Allocator + Copy>(literals: &[Literal], map: &DecisionMap<A>) -> bool
    ensures { result ≡ are_literals_false (values_in map.now) literals.now }
{
    literals
        .iter()
        .all(|literal| literal.eval(map) == Some(false))
}
