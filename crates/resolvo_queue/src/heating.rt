//! Clauses that become hot.
ghost use Rattle.std.specs.Prelude.{◌≡◌, ℕ, Some, true, slice_get, IsTrue, IsOk, OnOk, IfErr};
ghost use Rattle.typed_ids.specs.declared.error.StoreError.TheVariants.{OutOfMemory};
ghost use Rattle.resolvo_queue.specs.Parts.ByName.{StandsUnder};
ghost use Rattle.resolvo_queue.specs.Parts.Tracking.{Heats, tracking_of};
ghost use Rattle.resolvo_queue.specs.declared.tracked_clause.TrackedClause.{TrackedClause as ATrackedClause};

use crate::clauses_by_name::ClausesByName;
use crate::tracked_clauses::TrackedClauses;
use id_maps::SolverId;
use std::alloc::Allocator;
use typed_ids::StoreError;

impl<A: Allocator + Copy> TrackedClauses<A> {
    /// Makes the clauses hot that have a name. Refused, some of them may be, which harms nothing.
    pub(crate) fn heat_clauses<N: SolverId<A>>(
        &mut self,
        by_name: &ClausesByName<N, A>,
        name: N,
    ) -> Result<(), StoreError>
        ensures heats { Heats (tracking_of self.old) (tracking_of self.new) }
        ensures hot { OnOk result ((n : ℕ) (c : ATrackedClause) → StandsUnder N.Slots.value_at by_name.now name n →
            slice_get self.new.index.clauses.items n ≡ Some c → c.is_hot ≡ true) }
        ensures too_large { IsTrue (N.Slots.is_too_large name) → IsOk result }
        ensures same { (self.new.only_hot ≡ self.old.only_hot) × (self.new.trail ≡ self.old.trail)
            × (self.new.must_start_anew ≡ self.old.must_start_anew) }
        ensures memory { IfErr result (λ e. e ≡ OutOfMemory) }
    {
        let mut next = by_name.newest(name);
        while let Some(place) = next {
            let Some(entry) = by_name.entry(place) else {
                return Ok(());
            };
            self.heat_number(entry.number)?;
            next = entry.earlier;
        }
        Ok(())
    }

    /// Makes the clause with a number hot. A number past the end stands for no clause.
    fn heat_number(&mut self, number: u32) -> Result<(), StoreError>
        ensures heats { Heats (tracking_of self.old) (tracking_of self.new) }
        ensures hot { OnOk result ((c : ATrackedClause) → slice_get self.new.index.clauses.items number ≡ Some c →
            c.is_hot ≡ true) }
        ensures same { (self.new.only_hot ≡ self.old.only_hot) × (self.new.trail ≡ self.old.trail)
            × (self.new.must_start_anew ≡ self.old.must_start_anew) }
        ensures memory { IfErr result (λ e. e ≡ OutOfMemory) }
    {
        let place = number as usize;
        if place >= self.index.clauses.len() {
            return Ok(());
        }
        let clause = &mut self.index.clauses[place];
        self.queued.heat(clause)
    }
}
