//! The command that assigns what clauses force: `Saturate`.
ghost use Rattle.std.specs.Prelude.{◌≡◌, None, Ok};

use crate::abstract_store::Abstract;
use crate::store::ClauseStore;
use decisions::DecisionTracker;
use providers::DependencyProvider;
use typed_ids::{ClauseId, StoreError};

impl<D: DependencyProvider + Drop> ClauseStore<D> {
    ghost use Rattle.resolvo_store.specs.Command.{Saturate};
    ghost use Rattle.resolvo_store.specs.Answers.{conflict, replied};
    ghost use Rattle.resolvo_store.specs.Outcome.{falsified_clause};
    ghost use Rattle.resolvo_store.specs.Saturating.{HasSettled};

    /// Unit propagation: gives values, at the level, to the variables whose values unit clauses imply, until no clause
    /// is unit, or until a clause is false, which is the answer: a conflict. If it answers none, no clause is false or
    /// unit. A refusal of memory takes nothing back.
    pub fn saturate(&mut self, level: u32) -> Result<Option<ClauseId>, StoreError>
        ensures step { ⟦<D as Abstract>⟧.step self.old (Saturate level) (replied conflict result) self.new }
        ensures settled { result ≡ Ok None → HasSettled (⟦<D as Abstract>⟧.store self.new) }
        ensures unfalsified { result ≡ Ok None → falsified_clause (⟦<D as Abstract>⟧.store self.new) ≡ None }
        ensures provider { self.new.provider ≡ self.old.provider }
        ensures queue_state { self.new.queue_state ≡ self.old.queue_state }
    {
        if !DecisionTracker::<D::Alloc>::level_in_range(level) {
            return Err(StoreError::LevelOutOfRange);
        }
        let (lists, disjunctions) = (&self.loaded, &self.disjunctions);
        self.clauses.saturate(lists, disjunctions, &mut self.trail, &mut self.marks, level)
    }
}
