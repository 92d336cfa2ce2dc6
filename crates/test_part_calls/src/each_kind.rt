//! The kinds of a pool.
ghost use Rattle.std.specs.Prelude.{◌<◌, ℕ, List, [], ◌∷◌, false, length, bytes_eq, string_bytes, Some, None};
ghost use Rattle.std.proofs.Common.{rules};
ghost use Rattle.providers.specs.declared.condition.Condition.{Condition as ConditionValue};
ghost use Rattle.typed_ids.specs.declared.version_set_id.VersionSetId.{VersionSetId as SetId};
ghost use Rattle.package_pool.specs.declared.solvable.Solvable.{Solvable as SolvableValue};
ghost use Rattle.package_pool.specs.Pool.{IsMadeBelow, AreSetsHere, same_set, same_condition};
ghost use Rattle.package_pool.proofs.LaterLemmas.{name_still, sets_still, operands_still};
ghost use Rattle.test_part_calls.specs.SameLaws.{same_text, same_sets, same_conditions, never_same};

use crate::kinds::{Kind, Seen};
use package_pool::{Pool, Solvable, VersionSet};
use providers::Condition;
use std::alloc::Allocator;
use std::hash::Hash;
use typed_ids::{
    ConditionId, NameId, SolvableId, StoreError, StringId, VersionSetId, VersionSetUnionId,
};

/// Strings.
pub struct Strings;

impl<VS: VersionSet + Drop, N: Eq + Hash + Drop, A: Allocator + Copy> Kind<VS, N, A> for Strings {
    type Value = String<A>;

    type Id = StringId;

    type Part = u8;

    ghost Entry = { List ℕ };

    ghost kept = { λ p. p.strings };

    ghost entry = { λ text. string_bytes text };

    ghost place = { λ id. id.0 };

    ghost is_one = { bytes_eq };

    ghost parts = { λ text. text };

    ghost package_of = { λ text. None };

    ghost may_come = { λ p text. Unit {0} };

    ghost laws = { same_text };

    ghost same_id = { λ a b h. Prim.search rules };

    ghost lasts = { λ p q h. h.strings };

    ghost may_still = { λ p q h text come. come };

    fn are_one(first: &String<A>, second: &String<A>) -> bool {
        first == second
    }

    fn intern(pool: &mut Pool<VS, N, A>, value: String<A>) -> Result<StringId, StoreError> {
        Ok(pool.intern_string(value)?)
    }

    fn resolve<'p>(pool: &'p Pool<VS, N, A>, id: StringId) -> Seen<'p, u8> {
        Seen::Row(pool.resolve_string(id).as_bytes())
    }

    fn package(_pool: &Pool<VS, N, A>, _id: StringId) -> Option<NameId> {
        None
    }
}

/// The names of packages.
pub struct Names;

impl<VS: VersionSet + Drop, N: Eq + Hash + Drop, A: Allocator + Copy> Kind<VS, N, A> for Names {
    type Value = N;

    type Id = NameId;

    type Part = N;

    ghost Entry = { N };

    ghost kept = { λ p. p.names };

    ghost entry = { λ name. name };

    ghost place = { λ id. id };

    ghost is_one = { N.eq };

    ghost parts = { λ name. name ∷ [] };

    ghost package_of = { λ name. None };

    ghost may_come = { λ p name. Unit {0} };

    ghost laws = { N.PartialEq.laws };

    ghost same_id = { λ a b h. h };

    ghost lasts = { λ p q h. h.names };

    ghost may_still = { λ p q h name come. come };

    fn are_one(first: &N, second: &N) -> bool {
        first == second
    }

    fn intern(pool: &mut Pool<VS, N, A>, value: N) -> Result<NameId, StoreError> {
        Ok(pool.intern_package_name(value)?)
    }

    fn resolve<'p>(pool: &'p Pool<VS, N, A>, id: NameId) -> Seen<'p, N> {
        Seen::One(pool.resolve_package_name(id))
    }

    fn package(_pool: &Pool<VS, N, A>, _id: NameId) -> Option<NameId> {
        None
    }
}

/// Version sets, each of a package.
pub struct VersionSets;

impl<VS: VersionSet + Drop, N: Eq + Hash + Drop, A: Allocator + Copy> Kind<VS, N, A>
    for VersionSets {
    type Value = (NameId, VS);

    type Id = VersionSetId;

    type Part = VS;

    ghost Entry = { ℕ × VS };

    ghost kept = { λ p. p.version_sets };

    ghost entry = { λ set. set };

    ghost place = { λ id. id.0 };

    ghost is_one = { same_set VS.eq };

    ghost parts = { λ set. set.1 ∷ [] };

    ghost package_of = { λ set. Some set.0 };

    ghost may_come = { λ p set. set.0 < length p.names };

    ghost laws = { same_sets VS.eq VS.PartialEq.laws };

    ghost same_id = { λ a b h. Prim.search rules };

    ghost lasts = { λ p q h. h.version_sets };

    ghost may_still = { λ p q h set come. name_still p q h set.0 come };

    fn are_one(first: &(NameId, VS), second: &(NameId, VS)) -> bool {
        first == second
    }

    fn intern(pool: &mut Pool<VS, N, A>, value: (NameId, VS)) -> Result<VersionSetId, StoreError> {
        let (name, set) = value;
        Ok(pool.intern_version_set(name, set)?)
    }

    fn resolve<'p>(pool: &'p Pool<VS, N, A>, id: VersionSetId) -> Seen<'p, VS> {
        Seen::One(pool.resolve_version_set(id))
    }

    fn package(pool: &Pool<VS, N, A>, id: VersionSetId) -> Option<NameId> {
        Some(pool.resolve_version_set_package_name(id))
    }
}

/// Conditions.
pub struct Conditions;

impl<VS: VersionSet + Drop, N: Eq + Hash + Drop, A: Allocator + Copy> Kind<VS, N, A>
    for Conditions {
    type Value = Condition;

    type Id = ConditionId;

    type Part = Condition;

    ghost Entry = { ConditionValue };

    ghost kept = { λ p. p.conditions };

    ghost entry = { λ condition. condition };

    ghost place = { λ id. id };

    ghost is_one = { same_condition };

    ghost parts = { λ condition. condition ∷ [] };

    ghost package_of = { λ condition. None };

    ghost may_come = { λ p condition. IsMadeBelow p (length p.conditions) condition };

    ghost laws = { same_conditions };

    ghost same_id = { λ a b h. h };

    ghost lasts = { λ p q h. h.conditions };

    ghost may_still = { λ p q h condition come. operands_still p q h condition come };

    fn are_one(first: &Condition, second: &Condition) -> bool {
        first == second
    }

    fn intern(pool: &mut Pool<VS, N, A>, value: Condition) -> Result<ConditionId, StoreError> {
        pool.intern_condition(value)
    }

    fn resolve<'p>(pool: &'p Pool<VS, N, A>, id: ConditionId) -> Seen<'p, Condition> {
        Seen::One(pool.resolve_condition(id))
    }

    fn package(_pool: &Pool<VS, N, A>, _id: ConditionId) -> Option<NameId> {
        None
    }
}

/// Solvables: no two are one.
pub struct Solvables;

impl<VS: VersionSet + Drop, N: Eq + Hash + Drop, A: Allocator + Copy> Kind<VS, N, A> for Solvables
where
    VS::V: Drop,
{
    type Value = Solvable<VS::V>;

    type Id = SolvableId;

    type Part = VS::V;

    ghost Entry = { SolvableValue VS.V };

    ghost kept = { λ p. p.solvables };

    ghost entry = { λ solvable. solvable };

    ghost place = { λ id. id };

    ghost is_one = { λ a b. false };

    ghost parts = { λ solvable. solvable.payload ∷ [] };

    ghost package_of = { λ solvable. Some solvable.name };

    ghost may_come = { λ p solvable. solvable.name < length p.names };

    ghost laws = { never_same };

    ghost same_id = { λ a b h. h };

    ghost lasts = { λ p q h. h.solvables };

    ghost may_still = { λ p q h solvable come. name_still p q h solvable.name come };

    fn are_one(_first: &Solvable<VS::V>, _second: &Solvable<VS::V>) -> bool {
        false
    }

    #[tactic(auto, using(crate::proofs::NewEachTime::comes_to_end))]
    fn intern(pool: &mut Pool<VS, N, A>, value: Solvable<VS::V>) -> Result<SolvableId, StoreError> {
        let Solvable { name, payload } = value;
        Ok(pool.intern_solvable(name, payload)?)
    }

    fn resolve<'p>(pool: &'p Pool<VS, N, A>, id: SolvableId) -> Seen<'p, VS::V> {
        Seen::One(&pool.resolve_solvable(id).payload)
    }

    fn package(pool: &Pool<VS, N, A>, id: SolvableId) -> Option<NameId> {
        Some(pool.resolve_solvable(id).name)
    }
}

/// Unions, each of a first version set and others: no two are one.
pub struct Unions;

impl<VS: VersionSet + Drop, N: Eq + Hash + Drop, A: Allocator + Copy> Kind<VS, N, A> for Unions {
    type Value = (VersionSetId, Vec<VersionSetId, A>);

    type Id = VersionSetUnionId;

    type Part = VersionSetId;

    ghost Entry = { List SetId };

    ghost kept = { λ p. p.unions };

    ghost entry = { λ sets. sets.0 ∷ sets.1.items };

    ghost place = { λ id. id.0 };

    ghost is_one = { λ a b. false };

    ghost parts = { λ sets. sets };

    ghost package_of = { λ sets. None };

    ghost may_come = { λ p sets. AreSetsHere p (sets.0 ∷ sets.1.items) };

    ghost laws = { never_same };

    ghost same_id = { λ a b h. Prim.search rules };

    ghost lasts = { λ p q h. h.unions };

    ghost may_still = { λ p q h sets come. sets_still p q h (sets.0 ∷ sets.1.items) come };

    fn are_one(
        _first: &(VersionSetId, Vec<VersionSetId, A>),
        _second: &(VersionSetId, Vec<VersionSetId, A>),
    ) -> bool {
        false
    }

    #[tactic(auto, using(crate::proofs::NewEachTime::comes_to_end))]
    fn intern(
        pool: &mut Pool<VS, N, A>,
        value: (VersionSetId, Vec<VersionSetId, A>),
    ) -> Result<VersionSetUnionId, StoreError> {
        let (first, others) = value;
        pool.intern_version_set_union(first, &others)
    }

    fn resolve<'p>(pool: &'p Pool<VS, N, A>, id: VersionSetUnionId) -> Seen<'p, VersionSetId> {
        Seen::Row(pool.resolve_version_set_union(id))
    }

    fn package(_pool: &Pool<VS, N, A>, _id: VersionSetUnionId) -> Option<NameId> {
        None
    }
}
