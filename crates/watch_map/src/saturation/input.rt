//! The input of a saturation.
ghost use Rattle.std.specs.Prelude.{◌≡◌, ◌≤◌, ◌<◌, ◌^◌, slice_get};

use crate::stored_clause::StoredClause;
use clauses::{Clause, Disjunction};
use decisions::Literal;
use id_storage::Arena;
use providers::RequirementMap;
use std::alloc::Allocator;
use typed_ids::{ClauseId, DenseIndex, DisjunctionId, LearntClauseId, VariableId};

/// All clauses, what they refer to by ids, and the level of the entries that they imply.
#[derive(Drop)]
pub(crate) struct SaturationInput<'a, N: Copy, A: Allocator + Copy> {
    pub(crate) clauses: &'a [StoredClause<N>],
    /// Those that watch nothing, ascending.
    pub(crate) unwatched: &'a [ClauseId],
    pub(crate) learnt: &'a Arena<LearntClauseId, Vec<Literal, A>, A>,
    /// The candidates of each loaded requirement.
    pub(crate) lists: &'a RequirementMap<Vec<Vec<VariableId, A>, A>, A>,
    pub(crate) disjunctions: &'a Arena<DisjunctionId, Disjunction<A>, A>,
    pub(crate) level: u32,
    ghost at_least: { 1 ≤ level },
    ghost below: { level < 2 ^ 31 },
}

/// The clause of this id, if there is one.
#[inline(always)]
pub(crate) fn clause_at<N: Copy, A: Allocator + Copy>(
    input: &SaturationInput<N, A>,
    id: ClauseId,
) -> Option<Clause<N>>
    ensures { result ≡ slice_get input.now.clauses.now id }
{
    let stored = input.clauses.get(id.to_index())?;
    Some(stored.clause())
}
