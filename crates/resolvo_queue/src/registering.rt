//! Putting a clause to those that are there.
ghost use Rattle.std.specs.Prelude.{◌≡◌, ◌<◌, ◌≤◌, ◌-◌, ◌^◌, length, OnOk, OnErr, IfErr};
ghost use Rattle.typed_ids.specs.declared.error.StoreError.TheVariants.{OutOfMemory};
ghost use Rattle.resolvo_queue.specs.Parts.Tracking.{IsAsBefore, IsInOrder, Registers, tracking_of};
ghost use Rattle.resolvo_queue.specs.WalkCounts.{OwesFirst, owed_in};

use crate::clause_index::{enter_condition, renew_newest};
use crate::requires_clause::RequiresClause;
use crate::tracked_clause::TrackedClause;
use crate::tracked_clauses::TrackedClauses;
use decisions::Literal;
use std::alloc::Allocator;
use typed_ids::StoreError;

impl<A: Allocator + Copy> TrackedClauses<A> {
    /// Puts a clause after those that are there, and queues nothing. Refused, the clause isn't there; its requirement
    /// may have a record then, and its number may stand in lists, which harms nothing.
    pub(crate) fn register(
        &mut self,
        clause: &RequiresClause,
        literals: &[Literal],
        is_hot: bool,
    ) -> Result<(), StoreError>
        requires order { IsInOrder (tracking_of self.old) }
        requires few { length self.old.index.clauses.items < 2 ^ 32 - 1 }
        ensures ok { OnOk result (Registers clause.now is_hot literals.now (tracking_of self.old)
            (tracking_of self.new)) }
        ensures err { OnErr result (IsAsBefore (tracking_of self.old) (tracking_of self.new)) }
        ensures owes { OwesFirst clause.now.requirement self.old.requirements self.new.requirements }
        ensures owes_one { OnOk result (1 ≤ owed_in self.new.requirements clause.now.requirement) }
        ensures same { (self.new.only_hot ≡ self.old.only_hot) × (self.new.trail ≡ self.old.trail)
            × (self.new.must_start_anew ≡ self.old.must_start_anew) }
        ensures memory { IfErr result (λ e. e ≡ OutOfMemory) }
    {
        let number = self.index.clauses.len() as u32;
        let place = self.requirements.enter_clause(clause.requirement, number)?;
        let earlier = enter_condition(
            &mut self.index.newest_under,
            &mut self.index.conditions,
            clause.condition,
            literals,
        )?;
        self.index.clauses.reserve(1)?;
        let tracked = TrackedClause {
            parent: clause.parent,
            requirement: clause.requirement,
            record: place,
            condition: clause.condition,
            clause_id: clause.clause_id,
            earlier,
            position: self.index.next_position(clause.parent),
            is_hot,
        };
        self.index.by_parent.push(clause.parent, number)?;
        renew_newest(&mut self.index.newest_under, clause.condition, number + 1);
        self.index.clauses.push_reserved(tracked);
        Ok(())
    }
}
