//! The registered clauses, and which of them may be eligible.
ghost use Rattle.std.specs.Prelude.{[], ◌≡◌, false};
ghost use Rattle.resolvo_queue.specs.Parts.{is_empty_queue};

use crate::clause_index::ClauseIndex;
use crate::lists_by_variable::ListsByVariable;
use crate::noted_conditions::NotedConditions;
use crate::queued_clauses::QueuedClauses;
use crate::requirements::Requirements;
use crate::row_reader::Occurrences;
use decisions::Decision;
use std::alloc::Allocator;

/// The registered clauses, what is known of their requirements, and which clauses may be eligible.
#[derive(Drop)]
pub(crate) struct TrackedClauses<A: Allocator + Copy> {
    pub(crate) index: ClauseIndex<A>,
    pub(crate) queued: QueuedClauses<A>,
    /// The conditions whose clauses may be eligible and not be queued: a decision looks at them first.
    pub(crate) noted: NotedConditions<A>,
    pub(crate) requirements: Requirements<A>,
    pub(crate) occurrences: Occurrences<A>,
    /// Whether a decision looks only at hot clauses behind the first eligible one.
    pub(crate) only_hot: bool,
    /// The trail of the last sync.
    pub(crate) trail: Vec<Decision, A>,
    /// Whether the last sync was refused. The next one then looks at everything.
    pub(crate) must_start_anew: bool,
}

impl<A: Allocator + Copy> TrackedClauses<A> {
    /// No clause. Takes no memory.
    pub(crate) fn new(alloc: A) -> Self
        ensures clauses { result.index.clauses.items ≡ [] }
        ensures by_parent { result.index.by_parent ≡ [] }
        ensures newest_under { result.index.newest_under.items ≡ [] }
        ensures trail { result.trail.items ≡ [] }
        ensures anew { result.must_start_anew ≡ false }
        ensures requirements { result.requirements ≡ [] }
        ensures listed { result.occurrences.listed ≡ [] }
        ensures by_variable { result.occurrences.by_variable ≡ [] }
        ensures queued { is_empty_queue result.queued }
    {
        TrackedClauses {
            index: ClauseIndex {
                clauses: Vec::new(alloc),
                by_parent: ListsByVariable::new(alloc),
                newest_under: Vec::new(alloc),
                conditions: ListsByVariable::new(alloc),
            },
            queued: QueuedClauses::new(alloc),
            noted: NotedConditions::new(alloc),
            requirements: Requirements::new(alloc),
            occurrences: Occurrences::new(alloc),
            only_hot: true,
            trail: Vec::new(alloc),
            must_start_anew: false,
        }
    }
}
