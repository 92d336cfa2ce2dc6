//! Trackers, each found by the name of a package.
ghost use Rattle.std.specs.Prelude.{◌≡◌, ◌++◌, is_some, nat_eq, true, false, IfSome, Some, None};
ghost use Rattle.std.specs.Prelude.{IfNone, IsTrue, IsOk, OnOk, IfOk, OnErr, IfErr, Err};
ghost use Rattle.std.specs.Map.{lookup};
ghost use Rattle.typed_ids.specs.Refusals.{IsGrowthRefusal};
ghost use Rattle.typed_ids.specs.declared.error.StoreError.TheVariants.{IdSpace, OutOfMemory};
ghost use Rattle.id_storage.specs.StoredAnswers.{place_of};
ghost use Rattle.at_most_once.specs.AtMostOne.{empty, HasRoom, is_tracked, needs_helper, clauses_for, with_variable};
ghost use Rattle.at_most_once.specs.NameTrackers.{tracker_of, with_tracked, HasRoomFor, KeepsRoomFor, lacks_tracker};

use crate::tracker::AtMostOnceTracker;
use id_maps::{IdMap, Slot, SolverId};
use std::alloc::Allocator;
use std::marker::Model;
use typed_ids::{StoreError, VariableId};

/// For each name the variables of which at most one may be true, and their helpers. No clause is kept.
///
/// A name has a tracker from the first room on that is made for it, and all names without one share the empty one.
#[derive(Drop)]
pub struct NameTrackers<N: SolverId<A>, A: Allocator + Copy> {
    /// The place of each name's tracker.
    places: N::Slots,
    /// The trackers with their names, in the order in which they came. One is changed where it stands.
    list: Vec<(N, AtMostOnceTracker<VariableId, A>), A>,
}

/// The names that have trackers, with what these track and the room in them.
impl<N: SolverId<A>, A: Allocator + Copy> Model for NameTrackers<N, A> {
    ghost use Rattle.std.specs.Prelude.{ℕ, ◌^◌, List};
    ghost use Rattle.id_storage.specs.StoredAnswers.{AreStored};
    ghost use Rattle.at_most_once.specs.AtMostOne.{TrackerState};

    ghost Value = { List (N × TrackerState ℕ) };

    ghost view = { λ t. t.list.items };

    ghost invariant = { λ t. AreStored N.eq N.is_id (2 ^ 32) (N.Slots.value_at t.places) t.list.items };
}

impl<N: SolverId<A>, A: Allocator + Copy> NameTrackers<N, A> {
    /// Nothing is tracked. Takes no memory.
    pub fn new(alloc: A) -> Self
        ensures { tracker_of N.eq result ≡ (λ name. empty) }
    {
        NameTrackers {
            places: <N::Slots as IdMap<N, Slot, A>>::new(alloc),
            list: Vec::new(alloc),
        }
    }

    /// Whether the variable is tracked under the name. Two look-ups.
    pub fn is_tracked(&self, name: N, variable: VariableId) -> bool
        ensures { result ≡ is_tracked nat_eq (tracker_of N.eq self.now name) variable }
    {
        match self.tracker(name) {
            Some(tracker) => tracker.is_tracked(&variable),
            None => false,
        }
    }

    /// Whether the addition of the variable under the name needs a helper more. At most two look-ups.
    pub fn needs_helper(&self, name: N, variable: VariableId) -> bool
        ensures { result ≡ needs_helper nat_eq (tracker_of N.eq self.now name) variable }
    {
        match self.tracker(name) {
            Some(tracker) => tracker.needs_helper(&variable),
            None => false,
        }
    }

    /// Appends the clauses of the variable's addition under the name, with the helper that is given with it: none of
    /// one that is tracked. Takes time and memory for these alone.
    pub fn clauses_for(
        &self,
        name: N,
        variable: VariableId,
        helper: Option<VariableId>,
        clauses: &mut Vec<(VariableId, VariableId, bool), A>,
    ) -> Result<(), StoreError>
        ensures ok { OnOk result (clauses.new.items ≡
            clauses.old.items ++ clauses_for nat_eq (tracker_of N.eq self.now name) helper variable) }
        ensures err { OnErr result (clauses.new.items ≡ clauses.old.items) }
        ensures memory { IfErr result (λ e. e ≡ OutOfMemory) }
    {
        match self.tracker(name) {
            Some(tracker) => tracker.clauses_for(&variable, helper, clauses),
            None => {
                let tracker = AtMostOnceTracker::new(*self.list.allocator());
                tracker.clauses_for(&variable, helper, clauses)
            }
        }
    }

    /// Makes room for one more variable under the name, and for a helper where one comes with it: then
    /// [`NameTrackers::add_reserved`] may add them. Nothing is tracked by it, and room that is there is kept.
    pub fn make_room(&mut self, name: N, with_helper: bool) -> Result<(), StoreError>
        ensures same { tracker_of N.eq self.new ≡ tracker_of N.eq self.old }
        ensures room { OnOk result (HasRoomFor N.eq self.new name with_helper) }
        ensures succeeds { HasRoomFor N.eq self.old name with_helper → IsOk result }
        ensures keeps { (other : N) → KeepsRoomFor N.eq other self.old self.new }
        ensures refused { IfErr result
            (IsGrowthRefusal (lacks_tracker (N.Slots.is_too_large name) N.are_many (tracker_of N.eq self.old name))) }
        ensures too_large { IsTrue (N.Slots.is_too_large name) → result ≡ Err IdSpace }
    {
        let place = self.reach(name)?;
        self.list[place].1.make_room(with_helper)
    }

    /// Tracks a variable under the name, for which there is room, with the helper that is given with it. One that is
    /// tracked changes nothing. Takes no memory.
    pub fn add_reserved(&mut self, name: N, variable: VariableId, helper: Option<VariableId>)
        requires { HasRoomFor N.eq self.old name (is_some helper) }
        ensures added { tracker_of N.eq self.new ≡ with_tracked N.eq name variable helper (tracker_of N.eq self.old) }
        ensures keeps { (other : N) → N.eq other name ≡ false → KeepsRoomFor N.eq other self.old self.new }
    {
        match self.places.get(name).number() {
            Some(place) => track(&mut self.list[place as usize].1, variable, helper),
            None => unreachable!(),
        }
    }

    /// The place of the name's tracker, which comes if there was none. One look-up where there was one.
    fn reach(&mut self, name: N) -> Result<usize, StoreError>
        ensures same { tracker_of N.eq self.new ≡ tracker_of N.eq self.old }
        ensures place { IfOk result (λ place. place_of N.eq self.new name ≡ Some place) }
        ensures known { is_some (lookup (N.eq name) self.old) ≡ true → IsOk result }
        ensures keeps { (other : N) → KeepsRoomFor N.eq other self.old self.new }
        ensures refused { IfErr result
            (IsGrowthRefusal (lacks_tracker (N.Slots.is_too_large name) N.are_many (tracker_of N.eq self.old name))) }
        ensures too_large { IsTrue (N.Slots.is_too_large name) → result ≡ Err IdSpace }
    {
        match self.places.get(name).number() {
            Some(place) => Ok(place as usize),
            None => self.start(name),
        }
    }

    /// Gives the name a tracker, which it lacks, and answers its place.
    fn start(&mut self, name: N) -> Result<usize, StoreError>
        requires { lookup (N.eq name) self.old ≡ None }
        ensures same { tracker_of N.eq self.new ≡ tracker_of N.eq self.old }
        ensures place { IfOk result (λ place. place_of N.eq self.new name ≡ Some place) }
        ensures keeps { (other : N) → KeepsRoomFor N.eq other self.old self.new }
        ensures refused { IfErr result
            (IsGrowthRefusal (lacks_tracker (N.Slots.is_too_large name) N.are_many (tracker_of N.eq self.old name))) }
        ensures too_large { IsTrue (N.Slots.is_too_large name) → result ≡ Err IdSpace }
    {
        name.attest();
        let place = self.list.len();
        if place > u32::MAX as usize {
            return Err(StoreError::IdSpace);
        }
        let alloc = *self.list.allocator();
        self.places.make_room(name)?;
        self.list.reserve(1)?;
        self.list
            .push_reserved((name, AtMostOnceTracker::new(alloc)));
        self.places.put(name, Slot::new(Some(place as u32)));
        Ok(place)
    }

    /// The tracker of a name, where it has one.
    fn tracker(&self, name: N) -> Option<&AtMostOnceTracker<VariableId, A>>
        ensures some { IfSome result (λ tracker. tracker_of N.eq self.now name ≡ tracker.now.tracker) }
        ensures none { IfNone result (tracker_of N.eq self.now name ≡ empty) }
    {
        match self.places.get(name).number() {
            Some(place) => Some(&self.list[place as usize].1),
            None => None,
        }
    }
}

/// Tracks a variable for which there is room.
fn track<A: Allocator + Copy>(
    tracker: &mut AtMostOnceTracker<VariableId, A>,
    variable: VariableId,
    helper: Option<VariableId>,
)
    requires { HasRoom tracker.old (is_some helper) }
    ensures { tracker.new.tracker ≡ with_variable nat_eq tracker.old.tracker helper variable }
{
    tracker.add_reserved(variable, helper);
}
