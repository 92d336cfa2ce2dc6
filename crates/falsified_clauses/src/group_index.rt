//! The numbers of groups, found by their keys.
ghost use Rattle.std.specs.Prelude.{◌≡◌, None, Some, IsTrue, OnOk, IfErr, slice_index_or};
ghost use Rattle.typed_ids.specs.declared.error.StoreError.TheVariants.{OutOfMemory};
ghost use Rattle.typed_ids.specs.TotalMaps.{IsUpdate, SameValues, kept};
ghost use Rattle.falsified_clauses.specs.declared.group_key.GroupKey.{GroupKey as AKey};
ghost use Rattle.falsified_clauses.specs.GroupIndex.{number_of, has_room_for, has_place, SameSlots};

use crate::group_key::GroupKey;
use id_maps::{IdMap, Slot};
use providers::Requirement;
use std::alloc::Allocator;
use std::marker::Model;
use typed_ids::{
    DenseIndex, DisjunctionId, StoreError, VariableId, VersionSetId, VersionSetUnionId,
};

/// The numbers of groups by their keys: a table for each kind of id that keys are made of.
#[derive(Drop)]
pub(crate) struct GroupIndex<A: Allocator + Copy> {
    parents: Vec<Slot, A>,
    conditions: Vec<Slot, A>,
    sets: Vec<Slot, A>,
    unions: Vec<Slot, A>,
}

/// The tables: contracts say what number they have at a key.
impl<A: Allocator + Copy> Model for GroupIndex<A> {
    ghost use Rattle.falsified_clauses.specs.GroupIndex.{Tables};

    ghost Value = { Tables };

    ghost view = { λ x. record {
      parents = x.parents.items;
      conditions = x.conditions.items;
      sets = x.sets.items;
      unions = x.unions.items;
    } };
}

impl<A: Allocator + Copy> GroupIndex<A> {
    /// No numbers. Takes no memory.
    pub(crate) fn new(alloc: A) -> Self
        ensures { (key : AKey) → number_of result key ≡ None }
    {
        GroupIndex {
            parents: IdMap::<VariableId, Slot, A>::new(alloc),
            conditions: IdMap::<DisjunctionId, Slot, A>::new(alloc),
            sets: IdMap::<VersionSetId, Slot, A>::new(alloc),
            unions: IdMap::<VersionSetUnionId, Slot, A>::new(alloc),
        }
    }

    /// The number of a key's group, if there is one: one look-up.
    pub(crate) fn number(&self, key: GroupKey) -> Option<u32>
        ensures { result ≡ number_of self.now key }
    {
        match key {
            GroupKey::Parent(parent) => find(&self.parents, parent),
            GroupKey::Condition(disjunction) => find(&self.conditions, disjunction),
            GroupKey::Rows(requirement) => match requirement {
                Requirement::Single(set) => find(&self.sets, set),
                Requirement::Union(union) => find(&self.unions, union),
            },
        }
    }

    /// Takes the memory that a number for the key needs.
    pub(crate) fn make_room(&mut self, key: GroupKey) -> Result<(), StoreError>
        ensures room { OnOk result (IsTrue (has_room_for self.new key)) }
        ensures same { SameValues (number_of self.old) (number_of self.new) }
        ensures memory { IfErr result (λ e. e ≡ OutOfMemory) }
    {
        match key {
            GroupKey::Parent(parent) => grow(&mut self.parents, parent),
            GroupKey::Condition(disjunction) => grow(&mut self.conditions, disjunction),
            GroupKey::Rows(requirement) => match requirement {
                Requirement::Single(set) => grow(&mut self.sets, set),
                Requirement::Union(union) => grow(&mut self.unions, union),
            },
        }
    }

    /// Gives the key's group a number. Takes no memory.
    pub(crate) fn put(&mut self, key: GroupKey, number: u32)
        requires { IsTrue (has_room_for self.old key) }
        ensures { IsUpdate (number_of self.old) key (Some number) (number_of self.new) }
    {
        let slot = Slot::new(Some(number));
        match key {
            GroupKey::Parent(parent) => IdMap::<VariableId, Slot, A>::put(
                &mut self.parents,
                parent,
                slot,
            ),
            GroupKey::Condition(disjunction) => {
                IdMap::<DisjunctionId, Slot, A>::put(&mut self.conditions, disjunction, slot)
            }
            GroupKey::Rows(requirement) => match requirement {
                Requirement::Single(set) => IdMap::<VersionSetId, Slot, A>::put(
                    &mut self.sets,
                    set,
                    slot,
                ),
                Requirement::Union(union) => {
                    IdMap::<VersionSetUnionId, Slot, A>::put(&mut self.unions, union, slot)
                }
            },
        }
    }
}

/// The number in a table at an id.
fn find<K: DenseIndex, A: Allocator + Copy>(table: &Vec<Slot, A>, id: K) -> Option<u32>
    ensures { result ≡ slice_index_or (kept K.limit table.now.items) (K.index_of id) None }
{
    IdMap::<K, Slot, A>::get(table, id).number()
}

/// Takes the memory that a table needs for an id. There is none for more than 2^40 ids.
fn grow<K: DenseIndex, A: Allocator + Copy>(
    table: &mut Vec<Slot, A>,
    id: K,
) -> Result<(), StoreError>
    ensures room { OnOk result (IsTrue (has_place table.new.items (K.index_of id))) }
    ensures same { SameSlots K.limit K.index_of table.old.items table.new.items }
    ensures memory { IfErr result (λ e. e ≡ OutOfMemory) }
{
    match IdMap::<K, Slot, A>::make_room(table, id) {
        Ok(()) => Ok(()),
        Err(_) => Err(StoreError::OutOfMemory),
    }
}
