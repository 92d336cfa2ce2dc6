//! Where an ecosystem keeps what its ids stand for.
//!
//! A pool is six lists: strings, the names of packages, solvables, version sets, unions and conditions. An id is a
//! place in its list, counted from 0: a `resolve_` call reads one entry, and a `knows_` call compares with the list's
//! length.
//!
//! Strings, names, version sets of one package and conditions are kept once. An equal one that comes later gets the id
//! of the first, which alone is kept; so two of these ids are equal exactly if what they stand for is. Solvables and
//! unions get a new id each time.
//!
//! Entries are added at the end, and none is changed or taken out: an id stands for the same as long as the pool lives.
//! A call that adds one asks that its parts be there already, as the name of a version set or the operands of a
//! condition. So the whole pool is made of what is in it, which each such call promises (`IsSound`).
//!
//! A refused call leaves the pool as it was, and hands back the string, name, payload or version set that it was given.
//! It tells whether the list is full, at 2^32 entries (2^32 - 1 conditions), or memory was wanted. An equal value that
//! is there is answered in any case, and takes no memory.
//!
//! What is kept once is found by its hash, which is made without a seed. A call hashes its value once, and compares it
//! with those of the same hash. Room is taken as the lists grow, and given back when the pool is dropped.
ghost use Rattle.std.specs.Prelude.{◌≡◌, ◌<◌, ◌^◌, ◌-◌, ◌∷◌, false, length, nat_lt, slice_get, bytes_eq, string_bytes};
ghost use Rattle.std.specs.Prelude.{option_map, IsTrue, IsOk, IfOk, OnOk, IfErr, OnErr, IsErrAnd};
ghost use Rattle.std.specs.List.{position};
ghost use Rattle.id_storage.specs.Arena.{pairs_from};
ghost use Rattle.typed_ids.specs.declared.error.StoreError.TheVariants.{IdSpace};
ghost use Rattle.typed_ids.specs.Refusals.{IsGrowthRefusal, are_ids_out};
ghost use Rattle.package_pool.specs.Interned.{has_same, interned, interned_place};
ghost use Rattle.package_pool.specs.Pool.{nothing, IsSound, IsMadeBelow, AreSetsHere, same_set, same_condition};
ghost use Rattle.package_pool.specs.Pool.{with_string, with_name, with_solvable, with_version_set, with_union};
ghost use Rattle.package_pool.specs.Pool.{with_condition};

use crate::interned::intern;
use crate::solvable::Solvable;
use crate::unions::Unions;
use crate::version_set::VersionSet;
use id_storage::{Arena, ArenaIter};
use indexmap::{Equivalent, IndexSet};
use providers::Condition;
use std::alloc::{Allocator, Global};
use std::hash::{BuildHasherDefault, FoldHasher, Hash};
use std::marker::Model;
use typed_ids::{
    ConditionId, DenseIndex, InsertError, NameId, SolvableId, StoreError, StringId, VersionSetId,
    VersionSetUnionId,
};

/// The strings, names, solvables, version sets, unions and conditions of an ecosystem, each by its id.
///
/// What is in a pool stays in it, and keeps its id.
#[derive(Drop)]
pub struct Pool<VS: VersionSet, N: Eq + Hash = String, A: Allocator = Global> {
    strings: IndexSet<String<A>, BuildHasherDefault<FoldHasher>, A>,
    names: IndexSet<N, BuildHasherDefault<FoldHasher>, A>,
    solvables: Arena<SolvableId, Solvable<VS::V>, A>,
    version_sets: IndexSet<(NameId, VS), BuildHasherDefault<FoldHasher>, A>,
    unions: Unions<A>,
    conditions: IndexSet<Condition, BuildHasherDefault<FoldHasher>, A>,
}

/// The six lists.
impl<VS: VersionSet, N: Eq + Hash, A: Allocator> Model for Pool<VS, N, A> {
    ghost use Rattle.package_pool.specs.Pool.{Lists, IsSound};

    ghost Value = { Lists N VS VS.V };

    ghost use Rattle.package_pool.specs.PoolView.{lists_in};

    ghost view = { lists_in };

    ghost invariant = { λ p. IsSound (lists_in p) };
}

impl<VS: VersionSet, N: Eq + Hash, A: Allocator + Copy> Pool<VS, N, A> {
    /// The pool without anything in it. Takes no memory.
    pub fn new(alloc: A) -> Self
        ensures empty { result ≡ nothing }
        ensures sound { IsSound result }
    {
        Pool {
            strings: IndexSet::new(alloc),
            names: IndexSet::new(alloc),
            solvables: Arena::new(alloc),
            version_sets: IndexSet::new(alloc),
            unions: Unions::new(alloc),
            conditions: IndexSet::new(alloc),
        }
    }

    /// Every pool is made of what is in it: so a clause of the caller can say so of this one. Costs nothing.
    pub fn tell_sound(&self)
        ensures { IsSound self.now }
    {
        let _ = &self.names;
    }

    /// Whether the string is of this pool.
    pub fn knows_string(&self, string: StringId) -> bool
        ensures { result ≡ nat_lt string.0 (length self.now.strings) }
    {
        string.to_index() < self.strings.len()
    }

    /// Whether the name is of this pool.
    pub fn knows_name(&self, name: NameId) -> bool
        ensures { result ≡ nat_lt name (length self.now.names) }
    {
        name.to_index() < self.names.len()
    }

    /// Whether the solvable is of this pool.
    pub fn knows_solvable(&self, solvable: SolvableId) -> bool
        ensures { result ≡ nat_lt solvable (length self.now.solvables) }
    {
        solvable.to_index() < self.solvables.len()
    }

    /// Whether the version set is of this pool.
    pub fn knows_version_set(&self, set: VersionSetId) -> bool
        ensures { result ≡ nat_lt set.0 (length self.now.version_sets) }
    {
        set.to_index() < self.version_sets.len()
    }

    /// Whether the union is of this pool.
    pub fn knows_union(&self, union: VersionSetUnionId) -> bool
        ensures { result ≡ nat_lt union.0 (length self.now.unions) }
    {
        union.to_index() < self.unions.len()
    }

    /// Whether the condition is of this pool.
    pub fn knows_condition(&self, condition: ConditionId) -> bool
        ensures { result ≡ nat_lt condition (length self.now.conditions) }
    {
        condition.to_index() < self.conditions.len()
    }

    /// The string of this id.
    pub fn resolve_string(&self, string: StringId) -> &str
        requires { string.0 < length self.now.strings }
        ensures { slice_get self.now.strings string.0 ≡ Some result.now }
    {
        self.strings.as_slice()[string.to_index()].as_str()
    }

    /// The name of this id: of equal ones the one that came first.
    pub fn resolve_package_name(&self, name: NameId) -> &N
        requires { name < length self.now.names }
        ensures { slice_get self.now.names name ≡ Some result.now }
    {
        &self.names.as_slice()[name.to_index()]
    }

    /// The id of a name, if an equal one is in the pool.
    pub fn lookup_package_name(&self, name: &N) -> Option<NameId>
        ensures { result ≡ position (N.eq name.now) self.now.names }
    {
        self.find_package_name(name)
    }

    /// The id of a name that this stands for, if it is in the pool: of names that are strings, a `&str` asks for one
    /// with no `String` made.
    pub fn find_package_name<Q: Equivalent<N>>(&self, name: Q) -> Option<NameId>
        ensures { result ≡ position (Q.equivalent name) self.now.names }
    {
        let index = self.names.get_index_of(name)?;
        Some(NameId::from_index(index))
    }

    /// The solvable of this id.
    pub fn resolve_solvable(&self, solvable: SolvableId) -> &Solvable<VS::V>
        requires { solvable < length self.now.solvables }
        ensures value { slice_get self.now.solvables solvable ≡ Some result.now }
        ensures known { result.now.name < length self.now.names }
    {
        &self.solvables[solvable]
    }

    /// All solvables with their ids, in the order of the ids.
    pub fn iter_solvables(&self) -> ArenaIter<'_, SolvableId, Solvable<VS::V>>
        ensures { result ≡ pairs_from (λ n. n) 0 self.now.solvables }
    {
        self.solvables.iter()
    }

    /// The version set of this id: of equal ones the one that came first.
    pub fn resolve_version_set(&self, set: VersionSetId) -> &VS
        requires { set.0 < length self.now.version_sets }
        ensures { option_map (λ s. s.1) (slice_get self.now.version_sets set.0) ≡ Some result.now }
    {
        let (_, kept) = &self.version_sets.as_slice()[set.to_index()];
        kept
    }

    /// The package whose versions the set holds.
    pub fn resolve_version_set_package_name(&self, set: VersionSetId) -> NameId
        requires { set.0 < length self.now.version_sets }
        ensures value { option_map (λ s. s.0) (slice_get self.now.version_sets set.0) ≡ Some result }
        ensures known { result < length self.now.names }
    {
        let (name, _) = &self.version_sets.as_slice()[set.to_index()];
        *name
    }

    /// The version sets of this union, in order.
    pub fn resolve_version_set_union(&self, union: VersionSetUnionId) -> &[VersionSetId]
        requires { union.0 < length self.now.unions }
        ensures value { slice_get self.now.unions union.0 ≡ Some result.now }
        ensures known { AreSetsHere self.now result.now }
    {
        self.unions.resolve(union)
    }

    /// The condition of this id.
    pub fn resolve_condition(&self, condition: ConditionId) -> &Condition
        requires { condition < length self.now.conditions }
        ensures value { slice_get self.now.conditions condition ≡ Some result.now }
        ensures known { IsMadeBelow self.now condition result.now }
    {
        &self.conditions.as_slice()[condition.to_index()]
    }
}

/// What comes into a pool: equal strings, names, version sets of one package and conditions once, solvables and unions
/// each time. Each takes memory where there is no room left, and after a refusal the pool is as it was.
impl<VS: VersionSet + Drop, N: Eq + Hash + Drop, A: Allocator + Copy> Pool<VS, N, A> {
    /// The id of a string, which comes into the pool if it isn't there.
    pub fn intern_string(&mut self, text: String<A>) -> Result<StringId, InsertError<String<A>>>
        ensures id { IfOk result (λ id. id.0 ≡ interned_place bytes_eq self.old.strings (string_bytes text)) }
        ensures ok { OnOk result (self.new ≡ with_string self.old (string_bytes text)) }
        ensures here { IfOk result (λ id. id.0 < length self.new.strings) }
        ensures err { OnErr result (self.new ≡ self.old) }
        ensures sound { IsSound self.new }
        ensures value_returned { IfErr result (λ refusal. refusal.value ≡ text) }
        ensures refused { IfErr result (λ refusal.
            IsGrowthRefusal (are_ids_out (2 ^ 32) (length self.old.strings)) refusal.error) }
        ensures known { IsTrue (has_same bytes_eq self.old.strings (string_bytes text)) → IsOk result }
        ensures ids_out { IsTrue (are_ids_out (2 ^ 32) (length self.old.strings)) →
            has_same bytes_eq self.old.strings (string_bytes text) ≡ false →
            IsErrAnd result (λ refusal. refusal.error ≡ IdSpace) }
    {
        intern(&mut self.strings, text)
    }

    /// The id of a name, which comes into the pool if no equal one is there.
    pub fn intern_package_name(&mut self, name: N) -> Result<NameId, InsertError<N>>
        ensures id { IfOk result (λ id. id ≡ interned_place N.eq self.old.names name) }
        ensures ok { OnOk result (self.new ≡ with_name self.old N.eq name) }
        ensures here { IfOk result (λ id. id < length self.new.names) }
        ensures err { OnErr result (self.new ≡ self.old) }
        ensures sound { IsSound self.new }
        ensures value_returned { IfErr result (λ refusal. refusal.value ≡ name) }
        ensures refused { IfErr result (λ refusal.
            IsGrowthRefusal (are_ids_out (2 ^ 32) (length self.old.names)) refusal.error) }
        ensures known { IsTrue (has_same N.eq self.old.names name) → IsOk result }
        ensures ids_out { IsTrue (are_ids_out (2 ^ 32) (length self.old.names)) →
            has_same N.eq self.old.names name ≡ false →
            IsErrAnd result (λ refusal. refusal.error ≡ IdSpace) }
    {
        intern(&mut self.names, name)
    }

    /// Adds a solvable of a package, which gets a new id each time.
    pub fn intern_solvable(
        &mut self,
        name: NameId,
        payload: VS::V,
    ) -> Result<SolvableId, InsertError<VS::V>>
        requires { name < length self.old.names }
        ensures id { IfOk result (λ id. id ≡ length self.old.solvables) }
        ensures ok { OnOk result (self.new ≡ with_solvable self.old (record { name = name; payload = payload })) }
        ensures here { IfOk result (λ id. id < length self.new.solvables) }
        ensures err { OnErr result (self.new ≡ self.old) }
        ensures sound { IsSound self.new }
        ensures value_returned { IfErr result (λ refusal. refusal.value ≡ payload) }
        ensures refused { IfErr result (λ refusal.
            IsGrowthRefusal (are_ids_out (2 ^ 32) (length self.old.solvables)) refusal.error) }
        ensures ids_out { IsTrue (are_ids_out (2 ^ 32) (length self.old.solvables)) →
            IsErrAnd result (λ refusal. refusal.error ≡ IdSpace) }
    {
        self.solvables
            .alloc(Solvable { name, payload })
            .map_err(|refusal| InsertError {
                error: refusal.error,
                value: refusal.value.payload,
            })
    }

    /// The id of a version set of a package, which comes into the pool if no equal one of this package is there.
    pub fn intern_version_set(
        &mut self,
        name: NameId,
        set: VS,
    ) -> Result<VersionSetId, InsertError<VS>>
        requires { name < length self.old.names }
        ensures id { IfOk result (λ id. id.0 ≡ interned_place (same_set VS.eq) self.old.version_sets (name, set)) }
        ensures ok { OnOk result (self.new ≡ with_version_set self.old VS.eq name set) }
        ensures here { IfOk result (λ id. id.0 < length self.new.version_sets) }
        ensures err { OnErr result (self.new ≡ self.old) }
        ensures sound { IsSound self.new }
        ensures value_returned { IfErr result (λ refusal. refusal.value ≡ set) }
        ensures refused { IfErr result (λ refusal.
            IsGrowthRefusal (are_ids_out (2 ^ 32) (length self.old.version_sets)) refusal.error) }
        ensures known { IsTrue (has_same (same_set VS.eq) self.old.version_sets (name, set)) → IsOk result }
        ensures ids_out { IsTrue (are_ids_out (2 ^ 32) (length self.old.version_sets)) →
            has_same (same_set VS.eq) self.old.version_sets (name, set) ≡ false →
            IsErrAnd result (λ refusal. refusal.error ≡ IdSpace) }
    {
        intern(&mut self.version_sets, (name, set)).map_err(|refusal| InsertError {
            error: refusal.error,
            value: refusal.value.1,
        })
    }

    /// Adds a union of version sets, which gets a new id each time.
    pub fn intern_version_set_union(
        &mut self,
        first: VersionSetId,
        others: &[VersionSetId],
    ) -> Result<VersionSetUnionId, StoreError>
        requires { AreSetsHere self.old (first ∷ others.now) }
        ensures id { IfOk result (λ id. id.0 ≡ length self.old.unions) }
        ensures ok { OnOk result (self.new ≡ with_union self.old (first ∷ others.now)) }
        ensures here { IfOk result (λ id. id.0 < length self.new.unions) }
        ensures err { OnErr result (self.new ≡ self.old) }
        ensures sound { IsSound self.new }
        ensures refused { IfErr result (IsGrowthRefusal (are_ids_out (2 ^ 32) (length self.old.unions))) }
        ensures ids_out { IsTrue (are_ids_out (2 ^ 32) (length self.old.unions)) → result ≡ Err IdSpace }
    {
        self.unions.add(first, others)
    }

    /// The id of a condition, which comes into the pool if it isn't there.
    pub fn intern_condition(&mut self, condition: Condition) -> Result<ConditionId, StoreError>
        requires { IsMadeBelow self.old (length self.old.conditions) condition }
        ensures id { IfOk result (λ id. id ≡ interned_place same_condition self.old.conditions condition) }
        ensures ok { OnOk result (self.new ≡ with_condition self.old condition) }
        ensures here { IfOk result (λ id. id < length self.new.conditions) }
        ensures err { OnErr result (self.new ≡ self.old) }
        ensures sound { IsSound self.new }
        ensures refused { IfErr result (IsGrowthRefusal (are_ids_out (2 ^ 32 - 1) (length self.old.conditions))) }
        ensures known { IsTrue (has_same same_condition self.old.conditions condition) → IsOk result }
        ensures ids_out { IsTrue (are_ids_out (2 ^ 32 - 1) (length self.old.conditions)) →
            has_same same_condition self.old.conditions condition ≡ false → result ≡ Err IdSpace }
    {
        Ok(intern(&mut self.conditions, condition)?)
    }
}
