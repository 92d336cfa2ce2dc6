//! A caller that is generic in what a pool keeps.
ghost use Rattle.std.specs.Prelude.{◌≡◌, ◌<◌, true, length, slice_get, Some, IfOk, OnOk};
ghost use Rattle.package_pool.specs.Interned.{first_same, interned_place};
ghost use Rattle.test_part_calls.specs.Kinds.{parts_of};

use crate::kinds::{Kind, Seen};
use package_pool::{Pool, VersionSet};
use std::alloc::Allocator;
use std::hash::Hash;
use typed_ids::{NameId, StoreError};

/// What is seen of two values that are one to a pool: their ids, and what the first one's stands for.
#[derive(Drop)]
pub struct Twice<'p, I, T> {
    pub first: I,
    pub second: I,
    pub seen: Seen<'p, T>,
    pub package: Option<NameId>,
}

/// Two values come into a pool that are one to it, and a value of any kind after them. The ids of the two are the same,
/// and it stands for the first equal value.
pub fn interned_twice<'p, VS, N, A, K, L>(
    pool: &'p mut Pool<VS, N, A>,
    first: K::Value,
    second: K::Value,
    later: L::Value,
) -> Result<Twice<'p, K::Id, K::Part>, StoreError>
where
    VS: VersionSet + Drop,
    N: Eq + Hash + Drop,
    A: Allocator + Copy,
    K: Kind<VS, N, A>,
    L: Kind<VS, N, A>,
    requires one { K.is_one (K.entry first) (K.entry second) ≡ true }
    requires first { K.may_come pool.old first }
    requires second { K.may_come pool.old second }
    requires later { L.may_come pool.old later }
    ensures same { IfOk result (λ twice. twice.first ≡ twice.second) }
    ensures seen { IfOk result (λ twice.
        parts_of twice.seen ≡ K.parts (first_same K.is_one (K.kept pool.old) (K.entry first))) }
    ensures package { IfOk result (λ twice.
        twice.package ≡ K.package_of (first_same K.is_one (K.kept pool.old) (K.entry first))) }
{
    let id = first_comes::<VS, N, A, K, L>(pool, first, &second, &later)?;
    let again = second_comes::<VS, N, A, K, L>(pool, id, second, &later)?;
    later_comes::<VS, N, A, K, L>(pool, id, later)?;
    Ok(Twice {
        first: id,
        second: again,
        seen: K::resolve(pool, id),
        package: K::package(pool, id),
    })
}

// Each call has a function of its own, since a proof spells out each goal with all that was called before it.

/// The first value comes: its id stands for the first equal value, and is the one that the second will get. The others
/// may still come.
fn first_comes<VS, N, A, K, L>(
    pool: &mut Pool<VS, N, A>,
    first: K::Value,
    second: &K::Value,
    later: &L::Value,
) -> Result<K::Id, StoreError>
where
    VS: VersionSet + Drop,
    N: Eq + Hash + Drop,
    A: Allocator + Copy,
    K: Kind<VS, N, A>,
    L: Kind<VS, N, A>,
    requires one { K.is_one (K.entry first) (K.entry second.now) ≡ true }
    requires first { K.may_come pool.old first }
    requires second { K.may_come pool.old second.now }
    requires later { L.may_come pool.old later.now }
    ensures within { IfOk result (λ id. K.place id < length (K.kept pool.new)) }
    ensures here { IfOk result (λ id.
        slice_get (K.kept pool.new) (K.place id) ≡ Some (first_same K.is_one (K.kept pool.old) (K.entry first))) }
    ensures again { IfOk result (λ id. interned_place K.is_one (K.kept pool.new) (K.entry second.now) ≡ K.place id) }
    ensures second { OnOk result (K.may_come pool.new second.now) }
    ensures later { OnOk result (L.may_come pool.new later.now) }
{
    let id = K::intern(pool, first)?;
    Ok(id)
}

/// A value comes that gets this id, and changes nothing that is there. The last one may still come.
fn second_comes<VS, N, A, K, L>(
    pool: &mut Pool<VS, N, A>,
    id: K::Id,
    second: K::Value,
    later: &L::Value,
) -> Result<K::Id, StoreError>
where
    VS: VersionSet + Drop,
    N: Eq + Hash + Drop,
    A: Allocator + Copy,
    K: Kind<VS, N, A>,
    L: Kind<VS, N, A>,
    requires within { K.place id < length (K.kept pool.old) }
    requires again { interned_place K.is_one (K.kept pool.old) (K.entry second) ≡ K.place id }
    requires second { K.may_come pool.old second }
    requires later { L.may_come pool.old later.now }
    ensures same { IfOk result (λ again. id ≡ again) }
    ensures within { OnOk result (K.place id < length (K.kept pool.new)) }
    ensures here { OnOk result (slice_get (K.kept pool.new) (K.place id) ≡ slice_get (K.kept pool.old) (K.place id)) }
    ensures later { OnOk result (L.may_come pool.new later.now) }
{
    let again = K::intern(pool, second)?;
    Ok(again)
}

/// A value of any kind comes, and changes nothing that this id stands for.
fn later_comes<VS, N, A, K, L>(
    pool: &mut Pool<VS, N, A>,
    id: K::Id,
    later: L::Value,
) -> Result<(), StoreError>
where
    VS: VersionSet + Drop,
    N: Eq + Hash + Drop,
    A: Allocator + Copy,
    K: Kind<VS, N, A>,
    L: Kind<VS, N, A>,
    requires within { K.place id < length (K.kept pool.old) }
    requires later { L.may_come pool.old later }
    ensures within { OnOk result (K.place id < length (K.kept pool.new)) }
    ensures here { OnOk result (slice_get (K.kept pool.new) (K.place id) ≡ slice_get (K.kept pool.old) (K.place id)) }
{
    L::intern(pool, later)?;
    Ok(())
}
