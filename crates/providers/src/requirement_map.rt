//! Maps that are kept by requirements.
ghost use Rattle.std.specs.Prelude.{◌≡◌, ◌<◌, ◌^◌, [], Some, None, IsTrue, IsOk, IsSome, IfSome, OnOk};
ghost use Rattle.std.specs.Prelude.{OnErr, IfOk, IfErr, length, slice_get, vec_len, vec_capacity};
ghost use Rattle.std.specs.Option.{option_copied, option_copied_mut, MatchOption, ForNone};
ghost use Rattle.std.specs.List.{position_or_len};
ghost use Rattle.std.specs.Map.{keys_of, values_of, lookup};
ghost use Rattle.typed_ids.specs.declared.error.StoreError.TheVariants.{OutOfMemory};
ghost use Rattle.typed_ids.specs.TotalMaps.{SameValues};
ghost use Rattle.id_storage.specs.StoredAnswers.{place_of};
ghost use Rattle.providers.specs.RequirementMap.{with_entry};
ghost use Rattle.providers.specs.RequirementSlots.{place_in, has_slot_for};
ghost use Rattle.providers.specs.Requirement.{same_requirement};

use crate::requirement::Requirement;
use crate::requirement_slots::RequirementSlots;
use std::alloc::{Allocator, Global};
use std::marker::Model;
use std::mem;
use std::ops::Index;
use typed_ids::{InsertError, StoreError};

/// A map from requirements to values. A contract sees its entries in the order of insertion.
///
/// A requirement's value is found by two accesses, with no hash. The map has a slot of 8 bytes for each version set,
/// and for each union, up to the largest that has a value.
#[derive(Drop)]
pub struct RequirementMap<V, A: Allocator = Global> {
    /// The place of each requirement's entry.
    places: RequirementSlots<A>,
    entries: Vec<(Requirement, V), A>,
}

impl<V, A: Allocator> Model for RequirementMap<V, A> {
    ghost use Rattle.std.specs.Prelude.{List};
    ghost use Rattle.providers.specs.declared.requirement.Requirement.{Requirement};
    ghost use Rattle.providers.specs.RequirementMap.{ArePlaced};
    ghost use Rattle.providers.specs.RequirementSlots.{place_in};

    ghost Value = { List (Requirement × V) };

    ghost view = { λ m. m.entries.items };

    ghost invariant = { λ m. ArePlaced (place_in m.places) m.entries.items };
}

impl<V: Drop, A: Allocator + Copy> RequirementMap<V, A> {
    ghost use Rattle.std.specs.Borrow.{sem};
    ghost use Rattle.providers.specs.RequirementMapLends.{lends_at, lends_value, lends_inserted};

    /// The empty map. Takes no memory.
    pub fn new(alloc: A) -> Self
        ensures { result ≡ [] }
    {
        RequirementMap {
            places: RequirementSlots::new(alloc),
            entries: Vec::new(alloc),
        }
    }

    /// The place of the requirement's entry, if it has one.
    fn place(&self, requirement: Requirement) -> Option<usize>
        ensures place { result ≡ place_of same_requirement self.now requirement }
        ensures within { IfSome result (λ place. place < length self.now) }
    {
        match self.places.place(requirement) {
            Some(place) => Some(place as usize),
            None => None,
        }
    }

    /// The requirement's value.
    pub fn get(&self, requirement: Requirement) -> Option<&V>
        ensures { option_copied result ≡ lookup (same_requirement requirement) self.now }
    {
        match self.place(requirement) {
            Some(place) => Some(&self.entries[place].1),
            None => None,
        }
    }

    /// The value in a place, to be changed.
    fn value_mut(&mut self, place: usize) -> &mut V
        requires { place < length self.old }
        ensures* writes_back { sem 𝓛 (lends_at V.row A.row A.Allocator self.entry place result) }
        ensures value { slice_get (values_of self.old) place ≡ Some result.now }
    {
        let entry = &mut self.entries[place];
        &mut entry.1
    }

    /// The requirement's value, to be changed. Takes no memory.
    pub fn get_mut(&mut self, requirement: Requirement) -> Option<&mut V>
        ensures* writes_back { sem 𝓛 (lends_value V.row A.row A.Allocator self.entry requirement result) }
        ensures value { option_copied_mut result ≡ lookup (same_requirement requirement) self.old }
    {
        match self.place(requirement) {
            Some(place) => Some(self.value_mut(place)),
            None => None,
        }
    }

    /// Gives the requirement a value, and answers the earlier one. A requirement that has a value already takes no
    /// memory; its entry keeps its place. A refusal hands the value back.
    pub fn insert(
        &mut self,
        requirement: Requirement,
        value: V,
    ) -> Result<Option<V>, InsertError<V>>
        ensures earlier { IfOk result (λ earlier. earlier ≡ lookup (same_requirement requirement) self.old) }
        ensures ok { OnOk result (self.new ≡ with_entry self.old requirement value) }
        ensures err { IfErr result (λ refused. (refused.value ≡ value) × (self.new ≡ self.old)) }
        ensures memory { IfErr result (λ refused. refused.error ≡ OutOfMemory) }
        ensures known { IsSome (lookup (same_requirement requirement) self.old) → IsOk result }
    {
        match self.place(requirement) {
            Some(place) => Ok(Some(mem::replace(self.value_mut(place), value))),
            None => self.add(requirement, value),
        }
    }

    /// Gives a requirement a value that has none. A refusal hands the value back.
    fn add(&mut self, requirement: Requirement, value: V) -> Result<Option<V>, InsertError<V>>
        requires { lookup (same_requirement requirement) self.old ≡ None }
        ensures earlier { IfOk result (λ earlier. earlier ≡ lookup (same_requirement requirement) self.old) }
        ensures ok { OnOk result (self.new ≡ with_entry self.old requirement value) }
        ensures err { IfErr result (λ refused. (refused.value ≡ value) × (self.new ≡ self.old)) }
        ensures memory { IfErr result (λ refused. refused.error ≡ OutOfMemory) }
    {
        match make_room(&mut self.places, &mut self.entries, requirement) {
            Ok(place) => {
                self.entries.push_reserved((requirement, value));
                self.places.put(requirement, place);
                Ok(None)
            }
            Err(error) => Err(InsertError { error, value }),
        }
    }

    /// Gives a requirement that has no value what `default` answers, and answers the place of its entry. Room is taken
    /// before `default` is called, and nothing is refused after.
    fn add_default<F: FnOnce() -> V>(
        &mut self,
        requirement: Requirement,
        default: F,
    ) -> Result<usize, StoreError>
        requires new { lookup (same_requirement requirement) self.old ≡ None }
        requires callable { F.pre default }
        ensures place { IfOk result (λ place. place ≡
            position_or_len (same_requirement requirement) (keys_of self.old)) }
        ensures ok { OnOk result ((value : V) × (self.new ≡ with_entry self.old requirement value)
            × MatchOption (lookup (same_requirement requirement) self.old)
            (F.post default value) (λ earlier. value ≡ earlier)) }
        ensures err { OnErr result (self.new ≡ self.old) }
        ensures memory { IfErr result (λ e. e ≡ OutOfMemory) }
    {
        let place = make_room(&mut self.places, &mut self.entries, requirement)?;
        self.entries.push_reserved((requirement, default()));
        self.places.put(requirement, place);
        Ok(place as usize)
    }

    /// The place of the requirement's entry. A requirement without one is first given what `default` answers: room is
    /// taken before it is called, and nothing is refused after.
    fn place_with<F: FnOnce() -> V>(
        &mut self,
        requirement: Requirement,
        default: F,
    ) -> Result<usize, StoreError>
        requires { ForNone (lookup (same_requirement requirement) self.old) (F.pre default) }
        ensures place { IfOk result (λ place. place ≡
            position_or_len (same_requirement requirement) (keys_of self.old)) }
        ensures ok { OnOk result ((value : V) × (self.new ≡ with_entry self.old requirement value)
            × MatchOption (lookup (same_requirement requirement) self.old)
            (F.post default value) (λ earlier. value ≡ earlier)) }
        ensures err { OnErr result (self.new ≡ self.old) }
        ensures memory { IfErr result (λ e. e ≡ OutOfMemory) }
        ensures known { IsSome (lookup (same_requirement requirement) self.old) → IsOk result }
    {
        match self.place(requirement) {
            Some(place) => Ok(place),
            None => self.add_default(requirement, default),
        }
    }

    /// The requirement's value, to be changed. A requirement without one is first given what `default` answers, which
    /// isn't called otherwise, nor by a refusal. A requirement that has a value already takes no memory.
    pub fn get_or_insert_with<F: FnOnce() -> V>(
        &mut self,
        requirement: Requirement,
        default: F,
    ) -> Result<&mut V, StoreError>
        requires { ForNone (lookup (same_requirement requirement) self.old) (F.pre default) }
        ensures* writes_back { sem 𝓛 (lends_inserted V.row A.row A.Allocator self.entry requirement result) }
        ensures value { IfOk result (λ r. MatchOption (lookup (same_requirement requirement) self.old)
            (F.post default r.now) (λ value. r.now ≡ value)) }
        ensures memory { IfErr result (λ e. e ≡ OutOfMemory) }
        ensures known { IsSome (lookup (same_requirement requirement) self.old) → IsOk result }
    {
        let place = self.place_with(requirement, default)?;
        Ok(self.value_mut(place))
    }
}

/// Makes room for one entry more, and for its place, which it answers.
fn make_room<V, A: Allocator + Copy>(
    places: &mut RequirementSlots<A>,
    entries: &mut Vec<(Requirement, V), A>,
    requirement: Requirement,
) -> Result<u32, StoreError>
    ensures place { IfOk result (λ place. place ≡ length entries.old.items) }
    ensures small { IfOk result (λ place. place < 2 ^ 32) }
    ensures slot { OnOk result (IsTrue (has_slot_for places.new requirement)) }
    ensures room { OnOk result (vec_len entries.new < vec_capacity entries.new) }
    ensures places { SameValues (place_in places.old) (place_in places.new) }
    ensures entries { entries.new.items ≡ entries.old.items }
    ensures memory { IfErr result (λ e. e ≡ OutOfMemory) }
{
    let place = entries.len();
    if place > u32::MAX as usize {
        return Err(StoreError::OutOfMemory);
    }
    places.make_room(requirement)?;
    entries.reserve(1)?;
    Ok(place as u32)
}

/// The value of a requirement that has one.
impl<V: Drop, A: Allocator + Copy> Index<Requirement> for RequirementMap<V, A> {
    type Output = V;

    ghost can_index = { λ map requirement. IsSome (lookup (same_requirement requirement) map) };

    ghost index_gives = { λ map requirement value. lookup (same_requirement requirement) map ≡ Some value };

    fn index(&self, requirement: Requirement) -> &V {
        self.get(requirement).unwrap()
    }
}
