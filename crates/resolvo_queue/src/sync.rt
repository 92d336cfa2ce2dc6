//! Bringing a queue up to date with a trail.
ghost use Rattle.std.specs.Prelude.{◌≡◌, ℕ, List, ◌≤◌, ◌++◌, ◌↔◌, true, false, length, take, drop, map, IsTrue, OnOk};
ghost use Rattle.std.specs.Prelude.{OnErr, IfErr};
ghost use Rattle.resolvo_queue.specs.Types.{OutOfMemory, values_in};
ghost use Rattle.resolvo_queue.specs.Occurrences.{listing};
ghost use Rattle.resolvo_queue.specs.Parts.{GrowsBy, HaveNumbers, IsOfClause};
ghost use Rattle.resolvo_queue.specs.Routing.{OnlyForgets, Unrouted, changed_between};
ghost use Rattle.resolvo_queue.specs.Routing.Synced.{SyncsTracked};

use crate::routing::{Routing, route_all};
use crate::tracked_clauses::TrackedClauses;
use crate::waking::wake_from;
use decisions::{Decision, DecisionMap};
use std::alloc::Allocator;
use typed_ids::StoreError;

/// Makes the copy of a trail that is right below the floor a copy of all.
fn copy_behind<A: Allocator>(
    copy: &mut Vec<Decision, A>,
    floor: usize,
    trail: &[Decision],
) -> Result<(), StoreError>
    requires { floor ≤ length trail.now }
    ensures ok { OnOk result (copy.new.items ≡ take floor copy.old.items ++ drop floor trail.now) }
    ensures memory { IfErr result (λ e. e ≡ OutOfMemory) }
{
    copy.truncate(floor);
    match copy.extend_from_slice(&trail[floor..]) {
        Ok(()) => Ok(()),
        Err(_) => Err(StoreError::OutOfMemory),
    }
}

impl<A: Allocator + Copy> TrackedClauses<A> {
    /// Whether the trail of the last sync ends at the floor, and so does this one.
    fn is_whole_at(&self, floor: usize, trail: &[Decision]) -> bool
        ensures { IsTrue result ↔ ((floor ≡ length self.now.trail.items) × (floor ≡ length trail.now)) }
    {
        floor == self.trail.len() && floor == trail.len()
    }

    /// Routes what has changed since the last sync: the variables of the entries that were taken back, and of those
    /// that are new. One that was both pushed and taken back in between has no effect. Where nothing has changed,
    /// nothing is done.
    fn route_changes(
        &mut self,
        woken: usize,
        floor: usize,
        trail: &[Decision],
        map: &DecisionMap<A>,
    ) -> Result<(), StoreError>
        requires numbers { HaveNumbers self.old.index.clauses.items }
        requires woken { woken ≤ length self.old.index.clauses.items }
        requires floor { floor ≤ length trail.now }
        requires old_floor { floor ≤ length self.old.trail.items }
        ensures same { (self.new.index ≡ self.old.index) × (self.new.occurrences ≡ self.old.occurrences)
            × (self.new.only_hot ≡ self.old.only_hot) × (self.new.must_start_anew ≡ self.old.must_start_anew) }
        ensures only { OnlyForgets self.old.requirements self.new.requirements }
        ensures others { Unrouted (listing self.old.occurrences)
            (changed_between floor self.old.trail.items trail.now) self.old.requirements self.new.requirements }
        ensures grows { GrowsBy (IsOfClause self.old.index.clauses.items) self.old.queued self.new.queued }
        ensures synced { OnOk result (SyncsTracked woken false (values_in map.now)
            (changed_between floor self.old.trail.items trail.now) self.old self.new) }
        ensures trail { OnOk result (self.new.trail.items ≡ take floor self.old.trail.items ++ drop floor trail.now) }
        ensures memory { IfErr result (λ e. e ≡ OutOfMemory) }
    {
        if self.is_whole_at(floor, trail) {
            return Ok(());
        }
        let index = &self.index;
        let routing = Routing {
            clauses: &index.clauses[..woken],
            index,
            occurrences: &self.occurrences,
            map,
        };
        let before = &self.trail[floor..];
        route_all(
            &mut self.queued,
            &mut self.noted,
            &mut self.requirements,
            before,
            &routing,
        )?;
        let now = &trail[floor..];
        route_all(
            &mut self.queued,
            &mut self.noted,
            &mut self.requirements,
            now,
            &routing,
        )?;
        copy_behind(&mut self.trail, floor, trail)
    }

    /// Forgets all that is known, and queues all clauses whose parent is true.
    fn start_anew(&mut self, trail: &[Decision], map: &DecisionMap<A>) -> Result<(), StoreError>
        requires numbers { HaveNumbers self.old.index.clauses.items }
        ensures same { (self.new.index ≡ self.old.index) × (self.new.occurrences ≡ self.old.occurrences)
            × (self.new.only_hot ≡ self.old.only_hot) × (self.new.must_start_anew ≡ self.old.must_start_anew) }
        ensures only { OnlyForgets self.old.requirements self.new.requirements }
        ensures grows { GrowsBy (IsOfClause self.old.index.clauses.items) self.old.queued self.new.queued }
        ensures synced { OnOk result ((woken : ℕ) (routed : List ℕ) →
            SyncsTracked woken true (values_in map.now) routed self.old self.new) }
        ensures trail { OnOk result (self.new.trail.items ≡ trail.now) }
        ensures memory { IfErr result (λ e. e ≡ OutOfMemory) }
    {
        self.requirements.forget_everything();
        wake_from(&mut self.queued, self.index.clauses.as_slice(), 0, map)?;
        copy_behind(&mut self.trail, 0, trail)
    }

    /// Brings the queue from the trail of the last sync to this one. A refusal is remembered, and the next sync then
    /// looks at everything.
    pub(crate) fn sync(
        &mut self,
        woken: usize,
        floor: usize,
        trail: &[Decision],
        map: &DecisionMap<A>,
    ) -> Result<(), StoreError>
        requires numbers { HaveNumbers self.old.index.clauses.items }
        requires woken { woken ≤ length self.old.index.clauses.items }
        requires floor { floor ≤ length trail.now }
        requires old_floor { floor ≤ length self.old.trail.items }
        requires agrees { self.old.must_start_anew ≡ false → take floor self.old.trail.items ≡ take floor trail.now }
        ensures same { (self.new.index ≡ self.old.index) × (self.new.occurrences ≡ self.old.occurrences)
            × (self.new.only_hot ≡ self.old.only_hot) }
        ensures only { OnlyForgets self.old.requirements self.new.requirements }
        ensures others { self.old.must_start_anew ≡ false → Unrouted (listing self.old.occurrences)
            (changed_between floor self.old.trail.items trail.now) self.old.requirements self.new.requirements }
        ensures grows { GrowsBy (IsOfClause self.old.index.clauses.items) self.old.queued self.new.queued }
        ensures synced { OnOk result (SyncsTracked woken self.old.must_start_anew (values_in map.now)
            (changed_between floor self.old.trail.items trail.now) self.old self.new) }
        ensures trail { OnOk result (self.new.trail.items ≡ trail.now) }
        ensures debt { OnOk result (self.new.must_start_anew ≡ false) }
        ensures refused { OnErr result (self.new.must_start_anew ≡ true) }
        ensures memory { IfErr result (λ e. e ≡ OutOfMemory) }
    {
        let synced = if self.must_start_anew {
            self.start_anew(trail, map)
        } else {
            self.route_changes(woken, floor, trail, map)
        };
        self.must_start_anew = synced.is_err();
        synced
    }
}
