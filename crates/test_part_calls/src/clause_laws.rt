//! Laws of clauses, whatever they refer to.
ghost use Rattle.std.specs.Prelude.{IfOk};
ghost use Rattle.clauses.specs.Laws.{FirstWatchesAreTwo};
ghost use Rattle.clauses.specs.Stored.{stored_in};
ghost use Rattle.test_part_calls.specs.Truth.{RequiresSays};

use clauses::{Clause, Disjunction};
use decisions::Literal;
use id_storage::Arena;
use providers::RequirementMap;
use std::alloc::Allocator;
use typed_ids::{DisjunctionId, LearntClauseId, StoreError, VariableId};

/// A new clause watches two different ones of its literals, or nothing.
pub fn first_watches_are_two<N>()
    ensures { FirstWatchesAreTwo N }
{}

/// The literals of a clause. If it requires: whatever truth values the variables have, one of the literals is true
/// exactly if the parent is false, a literal of the condition is true, or a candidate is true.
pub fn literals_of_required<N: Copy, A: Allocator + Copy>(
    clause: &Clause<N>,
    alloc: A,
    learnt: &Arena<LearntClauseId, Vec<Literal, A>, A>,
    lists: &RequirementMap<Vec<Vec<VariableId, A>, A>, A>,
    disjunctions: &Arena<DisjunctionId, Disjunction<A>, A>,
) -> Result<Vec<Literal, A>, StoreError>
    ensures { IfOk result (λ literals. RequiresSays
        (stored_in learnt.now lists.now disjunctions.now) clause.now literals.items) }
{
    clause.literals(alloc, learnt, lists, disjunctions)
}
