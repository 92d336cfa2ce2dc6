//! The places of entries, found by their requirements.
//!
//! The ids of version sets and of unions are dense ([`DenseIndex`]): so a table for each kind finds a place by one
//! access, with no hash and no search.
ghost use Rattle.std.specs.Prelude.{◌≡◌, None, Some, IsTrue, OnOk, IfErr, slice_index_or};
ghost use Rattle.typed_ids.specs.declared.error.StoreError.TheVariants.{OutOfMemory};
ghost use Rattle.typed_ids.specs.TotalMaps.{IsUpdate, SameValues, kept};
ghost use Rattle.providers.specs.declared.requirement.Requirement.{Requirement as ARequirement};
ghost use Rattle.providers.specs.RequirementSlots.{place_in, has_slot_for, has_slot, SameSlots};

use crate::requirement::Requirement;
use id_maps::{IdMap, Slot};
use std::alloc::Allocator;
use std::marker::Model;
use typed_ids::{DenseIndex, StoreError, VersionSetId, VersionSetUnionId};

/// A place for each requirement that has one: a table of version sets, and one of unions.
#[derive(Drop)]
pub(crate) struct RequirementSlots<A: Allocator> {
    sets: Vec<Slot, A>,
    unions: Vec<Slot, A>,
}

/// The tables: contracts say what place they have at a requirement.
impl<A: Allocator> Model for RequirementSlots<A> {
    ghost use Rattle.providers.specs.RequirementSlots.{Tables};

    ghost Value = { Tables };

    ghost view = { λ x. record {
      sets = x.sets.items;
      unions = x.unions.items;
    } };
}

impl<A: Allocator + Copy> RequirementSlots<A> {
    /// No places. Takes no memory.
    pub(crate) fn new(alloc: A) -> Self
        ensures { (requirement : ARequirement) → place_in result requirement ≡ None }
    {
        RequirementSlots {
            sets: IdMap::<VersionSetId, Slot, A>::new(alloc),
            unions: IdMap::<VersionSetUnionId, Slot, A>::new(alloc),
        }
    }

    /// The requirement's place, if it has one: one look-up.
    pub(crate) fn place(&self, requirement: Requirement) -> Option<u32>
        ensures { result ≡ place_in self.now requirement }
    {
        match requirement {
            Requirement::Single(set) => find(&self.sets, set),
            Requirement::Union(union) => find(&self.unions, union),
        }
    }

    /// Takes the memory that a place for the requirement needs.
    pub(crate) fn make_room(&mut self, requirement: Requirement) -> Result<(), StoreError>
        ensures room { OnOk result (IsTrue (has_slot_for self.new requirement)) }
        ensures same { SameValues (place_in self.old) (place_in self.new) }
        ensures memory { IfErr result (λ e. e ≡ OutOfMemory) }
    {
        match requirement {
            Requirement::Single(set) => grow(&mut self.sets, set),
            Requirement::Union(union) => grow(&mut self.unions, union),
        }
    }

    /// Gives the requirement a place. Takes no memory.
    pub(crate) fn put(&mut self, requirement: Requirement, place: u32)
        requires { IsTrue (has_slot_for self.old requirement) }
        ensures { IsUpdate (place_in self.old) requirement (Some place) (place_in self.new) }
    {
        let slot = Slot::new(Some(place));
        match requirement {
            Requirement::Single(set) => IdMap::<VersionSetId, Slot, A>::put(
                &mut self.sets,
                set,
                slot,
            ),
            Requirement::Union(union) => {
                IdMap::<VersionSetUnionId, Slot, A>::put(&mut self.unions, union, slot)
            }
        }
    }
}

/// The place in a table at an id.
fn find<K: DenseIndex, A: Allocator + Copy>(table: &Vec<Slot, A>, id: K) -> Option<u32>
    ensures { result ≡ slice_index_or (kept K.limit table.now.items) (K.index_of id) None }
{
    IdMap::<K, Slot, A>::get(table, id).number()
}

/// Takes the memory that a table needs for an id. There is none for more than 2^40 ids.
fn grow<K: DenseIndex, A: Allocator + Copy>(
    table: &mut Vec<Slot, A>,
    id: K,
) -> Result<(), StoreError>
    ensures room { OnOk result (IsTrue (has_slot table.new.items (K.index_of id))) }
    ensures same { SameSlots K.limit K.index_of table.old.items table.new.items }
    ensures memory { IfErr result (λ e. e ≡ OutOfMemory) }
{
    match IdMap::<K, Slot, A>::make_room(table, id) {
        Ok(()) => Ok(()),
        Err(_) => Err(StoreError::OutOfMemory),
    }
}
