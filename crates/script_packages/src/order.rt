//! The order of preference: a higher version comes first, and of one version the solvable with the lower number.
ghost use Rattle.std.specs.Prelude.{◌≡◌, ◌≤◌, IfOk, OnOk, OnErr, IsPermutation, IsSorted, length, map};
ghost use Rattle.script_packages.specs.Order.{version_at, preference, best_first};
ghost use Rattle.script_packages.specs.Order.{with_version, versioned_preference, rises, rises_from};

use crate::packages::VersionRange;
use package_pool::Pool;
use std::alloc::{AllocError, Global};
use std::cmp::Ordering;
use std::marker::Model;
use typed_ids::{DenseIndex, SolvableId};

/// The version of a solvable; 0 where there is no such solvable.
pub(crate) fn version_at(pool: &Pool<VersionRange>, solvable: SolvableId) -> u32
    ensures { result ≡ version_at pool.now.solvables solvable }
{
    if pool.knows_solvable(solvable) {
        pool.resolve_solvable(solvable).payload
    } else {
        0
    }
}

/// Which of two solvables stands first: `Less` where the first is preferred.
fn preference(pool: &Pool<VersionRange>, one: SolvableId, other: SolvableId) -> Ordering
    ensures { result ≡ preference pool.now.solvables one other }
{
    let (version, than) = (version_at(pool, one), version_at(pool, other));
    than.cmp(&version).then(one.cmp(&other))
}

/// Up to this number of solvables are put in order where they are; of more each version is looked up once beforehand.
const FEW: usize = 3;

/// Up to this number of solvables are sorted with no memory of the heap.
const SHORT: usize = 64;

/// A solvable with its version, in one number: 2^32 times how far its version is below the largest one, and its own
/// number. So what stands first is less, and a sort compares numbers.
#[derive(Clone, Copy)]
struct Rank {
    number: u64,
}

/// The solvable with its version.
impl Model for Rank {
    ghost use Rattle.std.specs.Prelude.{◌<◌, ◌^◌, ℕ};
    ghost use Rattle.std.proofs.Common.{ap};
    ghost use Rattle.script_packages.specs.Order.{Versioned, of_rank, rank_of, rank_comes_back};

    ghost Value = { Versioned };

    ghost view = { λ r. of_rank r.number };

    ghost invariant = { λ r. r.number < 2 ^ 64 };

    ghost inverse = { λ v. record { number = rank_of v } };

    ghost inverse_ok = { λ r h. ap (λ (n : ℕ). record { number = n }) (rank_comes_back r.number h) };
}

impl Rank {
    /// The rank of a solvable with this version.
    fn new(version: u32, solvable: SolvableId) -> Rank
        ensures { result ≡ record { version = version; solvable = solvable } }
    {
        let below = u64::from(u32::MAX - version);
        Rank {
            number: (below << 32) | solvable.to_index() as u64,
        }
    }

    /// The solvable.
    fn solvable(self) -> SolvableId
        ensures { result ≡ self.solvable }
    {
        SolvableId::from_index((self.number % (1 << 32)) as usize)
    }
}

/// Puts solvables in order, the best first. Mostly the lowest version is listed first, and then the list is turned
/// round. Else it takes time n log n with their number, and memory where they are many; where that is refused, it does
/// without.
pub(crate) fn sort_best_first(
    alloc: Global,
    pool: &Pool<VersionRange>,
    solvables: &mut [SolvableId],
)
    ensures order { solvables.new ≡ best_first pool.now.solvables solvables.old }
    ensures sorted { IsSorted (preference pool.now.solvables) solvables.new }
{
    if rises(pool, solvables) {
        solvables.reverse();
    } else if solvables.len() <= FEW {
        sort_in_place(pool, solvables);
    } else if solvables.len() <= SHORT {
        sort_short(pool, solvables);
    } else if sort_looked_up(alloc, pool, solvables).is_err() {
        sort_in_place(pool, solvables);
    }
}

/// Whether the version of each solvable is above that of the one before it.
fn rises(pool: &Pool<VersionRange>, solvables: &[SolvableId]) -> bool
    ensures { result ≡ rises pool.now.solvables solvables.now }
{
    match solvables {
        [first, others @ ..] => rises_from(pool, version_at(pool, *first), others),
        [] => true,
    }
}

/// Whether the version of each solvable is above that of the one before it, and of the first above this one.
fn rises_from(pool: &Pool<VersionRange>, version: u32, solvables: &[SolvableId]) -> bool
    ensures { result ≡ rises_from pool.now.solvables version solvables.now }
{
    let mut before = version;
    for solvable in solvables {
        let next = version_at(pool, *solvable);
        if next <= before {
            return false;
        }
        before = next;
    }
    true
}

/// Puts solvables in order, and looks up the versions of each two that it compares.
fn sort_in_place(pool: &Pool<VersionRange>, solvables: &mut [SolvableId])
    ensures order { solvables.new ≡ best_first pool.now.solvables solvables.old }
    ensures sorted { IsSorted (preference pool.now.solvables) solvables.new }
{
    solvables.sort_unstable_by(|one, other| preference(pool, *one, *other));
}

/// Puts not too many solvables in order, and looks up each version once. Takes no memory.
fn sort_short(pool: &Pool<VersionRange>, solvables: &mut [SolvableId])
    requires { length solvables.old ≤ 64 }
    ensures order { solvables.new ≡ best_first pool.now.solvables solvables.old }
    ensures sorted { IsSorted (preference pool.now.solvables) solvables.new }
{
    let none = Rank { number: 0 };
    let mut places = [none; SHORT];
    let list = &mut places[..solvables.len()];
    look_up(pool, solvables, list);
    sort_versioned(list);
    put(list, solvables);
}

/// Puts solvables in a list, each with its version.
fn look_up(pool: &Pool<VersionRange>, solvables: &[SolvableId], list: &mut [Rank])
    requires { length list.old ≡ length solvables.now }
    ensures { list.new ≡ map (with_version pool.now.solvables) solvables.now }
{
    for i in 0..solvables.len() {
        list[i] = with_version(pool, solvables[i]);
    }
}

/// A solvable with its version.
fn with_version(pool: &Pool<VersionRange>, solvable: SolvableId) -> Rank
    ensures { result ≡ with_version pool.now.solvables solvable }
{
    Rank::new(version_at(pool, solvable), solvable)
}

/// Puts solvables in order, and looks up each version once.
fn sort_looked_up(
    alloc: Global,
    pool: &Pool<VersionRange>,
    solvables: &mut [SolvableId],
) -> Result<(), AllocError>
    ensures ok { OnOk result ((solvables.new ≡ best_first pool.now.solvables solvables.old)
        × IsSorted (preference pool.now.solvables) solvables.new) }
    ensures err { OnErr result (solvables.new ≡ solvables.old) }
{
    let mut list = with_versions(alloc, pool, solvables)?;
    sort_versioned(&mut list);
    put(&list, solvables);
    Ok(())
}

/// Solvables, each with its version.
fn with_versions(
    alloc: Global,
    pool: &Pool<VersionRange>,
    solvables: &[SolvableId],
) -> Result<Vec<Rank>, AllocError>
    ensures { IfOk result (λ list. list.items ≡ map (with_version pool.now.solvables) solvables.now) }
{
    let mut list = Vec::with_capacity(alloc, solvables.len())?;
    for solvable in solvables {
        list.push(with_version(pool, *solvable))?;
    }
    Ok(list)
}

/// Puts solvables with their versions in order, the best first.
fn sort_versioned(list: &mut [Rank])
    ensures permutation { IsPermutation list.old list.new }
    ensures sorted { IsSorted versioned_preference list.new }
{
    list.sort_unstable_by(|one, other| versioned_preference(one, other));
}

/// Which of two solvables stands first.
#[inline(always)]
fn versioned_preference(one: &Rank, other: &Rank) -> Ordering
    ensures { result ≡ versioned_preference one.now other.now }
{
    one.number.cmp(&other.number)
}

/// Puts the solvables of a list in the places of as many others.
fn put(list: &[Rank], solvables: &mut [SolvableId])
    requires { length list.now ≡ length solvables.old }
    ensures { solvables.new ≡ map (λ v. v.solvable) list.now }
{
    for i in 0..solvables.len() {
        solvables[i] = list[i].solvable();
    }
}
