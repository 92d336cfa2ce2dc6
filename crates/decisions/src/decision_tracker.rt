//! The trail: the decisions made so far, in order, each at a level.
//!
//! A search tries a value for a variable at the next level, and adds what follows from it at the same level. At a
//! conflict it takes back the newest decisions, down to some level. So decisions lie on a stack, and a [`DecisionMap`]
//! beside it answers for one variable in constant time.
//!
//! Beside them it keeps two numbers. The place is how many of the entries the search has propagated. The floor is how
//! few entries there were at the least since the floor was last taken: a copy of the trail that was made then is still
//! the same below the floor.
//!
//! The stack holds the decisions, the map has their levels. A contract sees them as a `Trail`: a list of entries, each
//! a decision with its level, with the place and the floor. It speaks of it by the words of `specs/Trail`: `val`,
//! `level_of` and `clause_of` read the entries, `AddsEntry` is what adding answers and leaves, and `undo_last`,
//! `undo_until`, `propagated` and `floor_taken` are what the other calls leave. Every trail keeps to `IsTrail`: each
//! variable at most once, and levels from 1 to below 2^31; and to `IsWithin`: neither number is above that of the
//! entries.
ghost use Rattle.std.specs.Prelude.{◌≡◌, ◌<◌, ◌≤◌, ◌^◌, ◌↔◌, ◌-◌, Some, None, length, take, map, option_map};
ghost use Rattle.std.specs.Prelude.{IsTrue, OnOk, OnErr, IfErr, vec_len, vec_capacity};
ghost use Rattle.typed_ids.specs.declared.error.StoreError.TheVariants.{OutOfMemory};
ghost use Rattle.decisions.specs.Decisions.{values_in, level_in};
ghost use Rattle.decisions.specs.Tracker.{entries_of, IsTracked};
ghost use Rattle.decisions.specs.Trail.{top_level, entries_until};

use crate::decision::Decision;
use crate::decision_map::DecisionMap;
use std::alloc::Allocator;
use std::marker::Model;
use typed_ids::{ClauseId, SameClone, SameValue, StoreError, VariableId};

/// Why a decision wasn't added.
#[derive(Clone, Copy, Debug, PartialEq, Eq)]
pub enum AddFault {
    /// The variable has the other value.
    Clash,
    /// There was no room for it.
    Store(StoreError),
}

impl SameClone for AddFault {
    ghost use Rattle.std.proofs.Common.{rules};

    ghost clone_is_same = { λ a b h. Prim.search rules };
}

impl SameValue for AddFault {
    ghost use Rattle.std.proofs.Common.{rules};

    ghost same = { λ a b h. Prim.search rules };
}

/// The decisions in the order in which they were made, beside a map that answers for one variable in constant time.
#[derive(Drop)]
pub struct DecisionTracker<A: Allocator + Copy> {
    map: DecisionMap<A>,
    stack: Vec<Decision, A>,
    propagate_index: usize,
    sync_floor: usize,
}

impl<A: Allocator + Copy> Model for DecisionTracker<A> {
    ghost use Rattle.std.specs.Prelude.{◌≤◌, length};
    ghost use Rattle.decisions.specs.Trail.{Trail};
    ghost use Rattle.decisions.specs.Tracker.{entries_of, IsTracked};

    ghost Value = { Trail };

    ghost view = { λ t. record {
      entries = entries_of t.map t.stack.items;
      place = t.propagate_index;
      floor = t.sync_floor;
    } };

    ghost invariant = { λ t. IsTracked t.map t.stack.items
        × (t.propagate_index ≤ length t.stack.items) × (t.sync_floor ≤ length t.stack.items) };
}

impl<A: Allocator + Copy> DecisionTracker<A> {
    ghost use Rattle.decisions.specs.Trail.{val, level_of, clause_of, newest, top_level, next_entry};
    ghost use Rattle.decisions.specs.Trail.{empty_trail, undo_last, undo_until, propagated, floor_taken};
    ghost use Rattle.decisions.specs.Trail.{AddsEntry, IsTrail, IsWithin, pushed};

    /// The empty trail. Takes no memory.
    pub fn new(alloc: A) -> Self
        ensures { result ≡ empty_trail }
    {
        DecisionTracker {
            map: DecisionMap::new(alloc),
            stack: Vec::new(alloc),
            propagate_index: 0,
            sync_floor: 0,
        }
    }

    /// Makes the trail empty. Takes no memory, and time only for what it takes back.
    pub fn clear(&mut self)
        ensures { self.new ≡ empty_trail }
    {
        self.undo_until(0);
    }

    /// The value of the variable, if it has one.
    pub fn assigned_value(&self, variable: VariableId) -> Option<bool>
        ensures { result ≡ val self.now.entries variable }
    {
        self.map.value(variable)
    }

    /// The values and levels of all variables.
    pub fn map(&self) -> &DecisionMap<A>
        ensures values { values_in result.now ≡ val self.now.entries }
        ensures levels { level_in result.now ≡ level_of self.now.entries }
    {
        &self.map
    }

    /// The decisions, the oldest first.
    pub fn assignments(&self) -> &[Decision]
        ensures decisions { result.now ≡ map (λ e. e.decision) self.now.entries }
        ensures trail { IsTrail self.now.entries }
        ensures within { IsWithin self.now }
    {
        self.stack.as_slice()
    }

    /// The level at which the variable got its value, 0 if it has none.
    pub fn level(&self, variable: VariableId) -> u32
        ensures { result ≡ level_of self.now.entries variable }
    {
        self.map.level(variable)
    }

    /// The clause that gave the variable its value, if it has one. Reads the decisions up to that of the variable.
    pub fn find_clause_for_assignment(&self, variable: VariableId) -> Option<ClauseId>
        ensures { result ≡ clause_of self.now.entries variable }
    {
        let mut decisions = self.stack.iter();
        match decisions.find(|decision| decision.variable == variable) {
            Some(decision) => Some(decision.derived_from),
            None => None,
        }
    }

    /// Whether a decision can be made at this level.
    pub fn level_in_range(level: u32) -> bool
        ensures { IsTrue result ↔ ((1 ≤ level) × (level < 2 ^ 31)) }
    {
        1 <= level && level < 1 << 31
    }

    /// Makes a decision, if its variable has no value yet. `Ok(false)` means that it had this value before; its level
    /// and the clause that gave it then stay. [`DecisionTracker::level_in_range`] is the test of what the call asks.
    pub fn try_add_decision(&mut self, decision: Decision, level: u32) -> Result<bool, AddFault>
        requires { (1 ≤ level) × (level < 2 ^ 31) }
        ensures { AddsEntry (val self.old.entries decision.variable) self.old
            (record { decision = decision; level = level }) result self.new }
    {
        match self.assigned_value(decision.variable) {
            Some(value) if value == decision.value => Ok(false),
            Some(_) => Err(AddFault::Clash),
            None => match self.push(decision, level) {
                Ok(()) => Ok(true),
                Err(error) => Err(AddFault::Store(error)),
            },
        }
    }

    /// Makes a decision about a variable without a value: what [`DecisionTracker::try_add_decision`] does of one,
    /// without a look at its value.
    pub fn push(&mut self, decision: Decision, level: u32) -> Result<(), StoreError>
        requires level { (1 ≤ level) × (level < 2 ^ 31) }
        requires undecided { val self.old.entries decision.variable ≡ None }
        ensures ok { OnOk result
            (self.new ≡ pushed self.old (record { decision = decision; level = level })) }
        ensures err { OnErr result (self.new ≡ self.old) }
        ensures memory { IfErr result (λ e. e ≡ OutOfMemory) }
    {
        make_room(&mut self.stack)?;
        self.map.set(decision.variable, decision.value, level)?;
        self.stack.push_reserved(decision);
        Ok(())
    }

    /// Takes back the newest decision, of which there must be one: [`DecisionTracker::assignments`] has it last.
    /// Answers the decision, and the level of the one that is the newest then, 0 if none is left. Takes no memory, and
    /// constant time.
    pub fn undo_last(&mut self) -> (Decision, u32)
        requires { 0 < length self.old.entries }
        ensures decision { Some result.0 ≡ option_map (λ e. e.decision) (newest self.old.entries) }
        ensures level { result.1 ≡ top_level self.new.entries }
        ensures trail { self.new ≡ undo_last self.old }
    {
        let newest = self.stack[self.stack.len() - 1];
        self.drop_newest();
        (newest, self.top_level())
    }

    /// Takes back the newest decisions until one is at this level or below; level 0 clears the trail. Takes no
    /// memory, and time only for what it takes back.
    pub fn undo_until(&mut self, level: u32)
        ensures kept { self.new ≡ undo_until level self.old }
        ensures cleared { level ≡ 0 → self.new ≡ empty_trail }
    {
        drop_above(&mut self.map, &mut self.stack, level);
        let left = self.stack.len();
        self.propagate_index = self.propagate_index.min(left);
        self.sync_floor = self.sync_floor.min(left);
    }

    /// The oldest decision that the search hasn't propagated yet, which counts as propagated from now on; none if it
    /// has propagated all. Takes no memory.
    pub fn next_unpropagated(&mut self) -> Option<Decision>
        ensures decision { result ≡ option_map (λ e. e.decision) (next_entry self.old) }
        ensures trail { self.new ≡ propagated self.old }
        ensures within { IsWithin self.old }
    {
        let decision = *self.stack.get(self.propagate_index)?;
        self.propagate_index += 1;
        Some(decision)
    }

    /// What [`DecisionTracker::take_sync_floor`] would answer. The floor stays as it is.
    pub fn sync_floor(&self) -> usize
        ensures floor { result ≡ self.now.floor }
        ensures within { IsWithin self.now }
    {
        self.sync_floor
    }

    /// How few decisions there were at the least since this was last asked, or since the trail was new. A copy of the
    /// trail from then differs from it at or after this place alone. Takes no memory.
    pub fn take_sync_floor(&mut self) -> usize
        ensures floor { result ≡ self.old.floor }
        ensures trail { self.new ≡ floor_taken self.old }
        ensures within { IsWithin self.old }
    {
        let floor = self.sync_floor;
        self.sync_floor = self.stack.len();
        floor
    }

    /// The level of the newest decision, 0 if there is none.
    fn top_level(&self) -> u32
        ensures { result ≡ top_level self.now.entries }
    {
        top_level(&self.map, &self.stack)
    }

    /// Takes back the newest decision, if there is one.
    fn drop_newest(&mut self)
        ensures { self.new ≡ undo_last self.old }
    {
        drop_newest(&mut self.map, &mut self.stack);
        let len = self.stack.len();
        self.propagate_index = self.propagate_index.min(len);
        self.sync_floor = self.sync_floor.min(len);
    }
}

/// Takes back the newest decisions while they are above this level.
fn drop_above<A: Allocator + Copy>(
    map: &mut DecisionMap<A>,
    stack: &mut Vec<Decision, A>,
    level: u32,
)
    requires tracked { IsTracked map.old stack.old.items }
    ensures tracked { IsTracked map.new stack.new.items }
    ensures kept { entries_of map.new stack.new.items ≡ entries_until level (entries_of map.old stack.old.items) }
    ensures within { top_level (entries_of map.new stack.new.items) ≤ level }
{
    let kept = reset_above(map, stack, level);
    stack.truncate(kept);
}

/// Resets the variables of the newest decisions while these are above this level. Answers how many decisions are left.
fn reset_above<A: Allocator + Copy>(
    map: &mut DecisionMap<A>,
    stack: &[Decision],
    level: u32,
) -> usize
    requires tracked { IsTracked map.old stack.now }
    ensures tracked { IsTracked map.new (take result stack.now) }
    ensures kept { entries_of map.new (take result stack.now) ≡ entries_until level (entries_of map.old stack.now) }
    ensures within { top_level (entries_of map.new (take result stack.now)) ≤ level }
{
    let mut left = stack.len();
    while left > 0 {
        if !map.reset_above(stack[left - 1].variable, level) {
            return left;
        }
        left -= 1;
    }
    0
}

/// Takes the memory that one decision more needs.
fn make_room<A: Allocator + Copy>(stack: &mut Vec<Decision, A>) -> Result<(), StoreError>
    ensures items { stack.new.items ≡ stack.old.items }
    ensures room { OnOk result (vec_len stack.new < vec_capacity stack.new) }
    ensures memory { IfErr result (λ e. e ≡ OutOfMemory) }
{
    if stack.len() < stack.capacity() {
        return Ok(());
    }
    grow(stack)
}

/// What [`make_room`] does where there is no room: apart, so that where there is some no call is made.
#[inline(never)]
fn grow<A: Allocator + Copy>(stack: &mut Vec<Decision, A>) -> Result<(), StoreError>
    ensures items { stack.new.items ≡ stack.old.items }
    ensures room { OnOk result (vec_len stack.new < vec_capacity stack.new) }
    ensures memory { IfErr result (λ e. e ≡ OutOfMemory) }
{
    stack.reserve(1)?;
    Ok(())
}

/// The level of the newest decision, 0 if there is none.
fn top_level<A: Allocator + Copy>(map: &DecisionMap<A>, stack: &[Decision]) -> u32
    ensures { result ≡ top_level (entries_of map.now stack.now) }
{
    match stack.last() {
        Some(decision) => map.level(decision.variable),
        None => 0,
    }
}

/// Takes back the newest decision, if there is one.
fn drop_newest<A: Allocator + Copy>(map: &mut DecisionMap<A>, stack: &mut Vec<Decision, A>)
    requires tracked { IsTracked map.old stack.old.items }
    ensures tracked { IsTracked map.new stack.new.items }
    ensures entries { entries_of map.new stack.new.items
        ≡ take (length stack.old.items - 1) (entries_of map.old stack.old.items) }
{
    if let Some(decision) = stack.last() {
        map.reset(decision.variable);
        stack.pop();
    }
}
