//! The commands that change the trail: `Assign`, `UndoLast`, `UndoUntil` and `Unpropagated`.
ghost use Rattle.std.specs.Prelude.{◌≡◌, None};

use crate::abstract_store::Abstract;
use crate::answers::Assignment;
use crate::store::ClauseStore;
use decisions::{AddFault, Decision, DecisionTracker};
use providers::DependencyProvider;
use typed_ids::{DenseIndex, StoreError};

impl<D: DependencyProvider + Drop> ClauseStore<D> {
    ghost use Rattle.resolvo_store.specs.Answers.{assignment, replied, undone};
    ghost use Rattle.resolvo_store.specs.Command.{UndoLast, UndoUntil, Unpropagated, Next, Undone};
    ghost use Rattle.resolvo_store.specs.Walks.{taken_back};
    ghost use Rattle.resolvo_store.specs.Answers.{assigning};

    /// Gives a variable a value, derived from a clause, at a level.
    pub fn assign(&mut self, decision: Decision, level: u32) -> Result<Assignment, StoreError>
        ensures step { ⟦<D as Abstract>⟧.step self.old (assigning decision level) (replied assignment result) self.new }
        ensures provider { self.new.provider ≡ self.old.provider }
        ensures queue_state { self.new.queue_state ≡ self.old.queue_state }
    {
        if decision.variable.to_index() >= self.variables.count()
            || decision.derived_from.to_index() >= self.clauses.len()
        {
            return Err(StoreError::UnknownId);
        }
        if !DecisionTracker::<D::Alloc>::level_in_range(level) {
            return Err(StoreError::LevelOutOfRange);
        }
        match self.trail.try_add_decision(decision, level) {
            Ok(true) => Ok(Assignment::New),
            Ok(false) => Ok(Assignment::Already),
            Err(AddFault::Clash) => Ok(Assignment::Clash),
            Err(AddFault::Store(e)) => Err(e),
        }
    }

    /// Takes the newest assignment back, and answers it with the level of the one before it, 0 if there is none.
    pub fn undo_last(&mut self) -> Result<(Decision, u32), StoreError>
        ensures step { ⟦<D as Abstract>⟧.step self.old UndoLast (replied undone result) self.new }
        ensures provider { self.new.provider ≡ self.old.provider }
        ensures queue_state { self.new.queue_state ≡
            taken_back (⟦<D as Abstract>⟧.store self.new).trail self.old.queue_state }
    {
        if self.trail.assignments().is_empty() {
            return Err(StoreError::EmptyTrail);
        }
        self.falsified.uncount_newest(&self.trail);
        let last = self.trail.undo_last();
        self.marks.cut_to(&self.trail);
        Ok(last)
    }

    /// Takes back the assignments at the end of the trail whose levels are above this one.
    pub fn undo_until(&mut self, level: u32)
        ensures step { ⟦<D as Abstract>⟧.step self.old (UndoUntil level) (Undone None) self.new }
        ensures provider { self.new.provider ≡ self.old.provider }
        ensures queue_state { self.new.queue_state ≡
            taken_back (⟦<D as Abstract>⟧.store self.new).trail self.old.queue_state }
    {
        self.falsified.uncount_above(&self.trail, level);
        self.trail.undo_until(level);
        self.marks.cut_to(&self.trail);
    }

    /// Hands out the next assignment to propagate: the oldest one that wasn't handed out yet.
    pub fn next_unpropagated(&mut self) -> Option<Decision>
        ensures step { ⟦<D as Abstract>⟧.step self.old Unpropagated (Next result) self.new }
        ensures provider { self.new.provider ≡ self.old.provider }
        ensures queue_state { self.new.queue_state ≡ self.old.queue_state }
    {
        self.trail.next_unpropagated()
    }
}
