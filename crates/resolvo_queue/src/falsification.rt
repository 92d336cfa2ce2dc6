//! The scan for a clause that can't be met any more.
ghost use Rattle.std.specs.Prelude.{◌≡◌, ◌<◌, ◌&&◌, length, option_map, IfSome};
ghost use Rattle.decisions.specs.Decisions.{values_in};
ghost use Rattle.resolvo_queue.specs.Falsified.{FindsFirst, comes_first, is_falsified_in, refs_of};
ghost use Rattle.resolvo_queue.specs.Pick.Questions.{CanInspectAll};
ghost use Rattle.resolvo_queue.specs.References.{IsWalkable};

use crate::questions::FalsifiedQuestion;
use crate::tracked_clause::TrackedClause;
use providers::Interner;
use std::alloc::Allocator;
use typed_ids::ClauseId;

/// The first falsified clause of the scan: the falsified one with the least position.
pub(crate) fn falsified_clause<I: Interner, A: Allocator + Copy>(
    clauses: &[TrackedClause],
    question: &FalsifiedQuestion<'_, I, A>,
) -> Option<TrackedClause>
    requires inspectable { CanInspectAll (refs_of I.universe question.now) clauses.now }
    ensures { let refs = refs_of I.universe question.now in
        FindsFirst clauses.now (is_falsified_in refs (values_in question.now.map.now)) result }
{
    let mut first: Option<TrackedClause> = None;
    for clause in clauses {
        if is_earlier(clause, &first, question) {
            first = Some(*clause);
        }
    }
    first
}

/// The id of a clause, if there is one.
pub(crate) fn id_of(clause: Option<TrackedClause>) -> Option<ClauseId>
    ensures { result ≡ option_map (λ c. c.clause_id) clause }
{
    match clause {
        Some(clause) => Some(clause.clause_id),
        None => None,
    }
}

/// Whether a clause is falsified, and stands before the one that was found, if there is one.
pub(crate) fn is_earlier<I: Interner, A: Allocator + Copy>(
    clause: &TrackedClause,
    found: &Option<TrackedClause>,
    question: &FalsifiedQuestion<'_, I, A>,
) -> bool
    requires condition { IfSome clause.now.condition (λ d. d < length question.now.disjunctions.now) }
    requires walkable { IsWalkable (I.universe question.now.interner.now) question.now.lists.now
        clause.now.requirement }
    ensures { let refs = refs_of I.universe question.now in
        result ≡ (comes_first clause.now found.now &&
        is_falsified_in refs (values_in question.now.map.now) clause.now) }
{
    comes_first(clause, found) && question.is_falsified(clause)
}

/// Whether a clause stands before another one in the scan, if there is one.
fn comes_first(clause: &TrackedClause, other: &Option<TrackedClause>) -> bool
    ensures { result ≡ comes_first clause.now other.now }
{
    match other {
        Some(other) => clause.position < other.position,
        None => true,
    }
}
