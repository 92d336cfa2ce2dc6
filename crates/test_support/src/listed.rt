//! What is listed, by numbers, and what is found in it.
ghost use Rattle.std.specs.Prelude.{◌≡◌, ◌≤◌, ◌^◌, true, All, map, length, nat_lt, IfOk, IfErr};
ghost use Rattle.typed_ids.specs.declared.error.StoreError.TheVariants.{OutOfMemory};
ghost use Rattle.providers.specs.Provider.{filtered};
ghost use Rattle.test_support.specs.Listed.{places_of, version_at, union_at, are_known, is_within};

use crate::numbered::Numbered;
use std::alloc::Allocator;
use typed_ids::{StoreError, VersionSetId, VersionSetUnionId};

/// A solvable: a version of a package. Its number is its place in the list.
#[derive(Clone, Copy)]
pub struct Package {
    /// The number of the package's name.
    pub name: u32,
    /// The version, a plain number.
    pub version: u32,
}

/// The versions of a package from `low` to below `high`. A version set's id is its place in the list.
#[derive(Clone, Copy)]
pub struct VersionRange {
    /// The number of the package's name.
    pub name: u32,
    /// The first version in the range.
    pub low: u32,
    /// The first version past the range.
    pub high: u32,
}

/// Packages, version sets and unions in lists.
#[derive(Drop)]
pub struct Listed<A: Allocator> {
    /// The solvables, whose numbers are their places in the list.
    pub packages: Vec<Package, A>,
    /// The version sets, whose ids are their places in the list.
    pub ranges: Vec<VersionRange, A>,
    /// The version sets of each union, whose id is its place in the list. It is known if all of them are.
    pub unions: Vec<Vec<VersionSetId, A>, A>,
    /// The number of the favored solvable, of whichever package.
    pub favored: Option<u32>,
    ghost few: { length packages.items ≤ 2 ^ 32 },
}

/// The version sets of a union; none where there is no such union.
pub(crate) fn sets_at<A: Allocator>(
    unions: &[Vec<VersionSetId, A>],
    union: VersionSetUnionId,
) -> &[VersionSetId]
    ensures { result.now ≡ union_at (map (λ l. l.items) unions.now) union }
{
    match unions.get(union.0 as usize) {
        Some(sets) => sets.as_slice(),
        None => &[],
    }
}

/// Whether all of the version sets are among the first `count`.
pub(crate) fn all_below(sets: &[VersionSetId], count: usize) -> bool
    ensures { result ≡ are_known count sets.now }
{
    sets.iter().all(|set| (set.0 as usize) < count)
}

/// The solvables of a name.
pub(crate) fn named<S: Numbered, A: Allocator>(
    alloc: A,
    packages: &[Package],
    name: u32,
) -> Result<Vec<S, A>, StoreError>
    requires { length packages.now ≤ 2 ^ 32 }
    ensures ok { IfOk result (λ found. found.items ≡ map S.id_of (places_of name 0 packages.now)) }
    ensures err { IfErr result (λ e. e ≡ OutOfMemory) }
{
    let mut found = Vec::new(alloc);
    for (i, package) in packages.iter().enumerate() {
        if package.name == name {
            found.push(S::numbered(i as u32))?;
        }
    }
    Ok(found)
}

/// The solvables whose versions are in the range, or, if `inverse`, the others.
pub(crate) fn within<S: Numbered, A: Allocator>(
    alloc: A,
    packages: &[Package],
    candidates: &[S],
    range: VersionRange,
    inverse: bool,
) -> Result<Vec<S, A>, StoreError>
    requires { All (λ s. nat_lt (S.number_of s) (length packages.now) ≡ true) candidates.now }
    ensures ok { IfOk result (λ found. found.items ≡
        filtered (λ s. is_within range (version_at packages.now (S.number_of s))) inverse candidates.now) }
    ensures err { IfErr result (λ e. e ≡ OutOfMemory) }
{
    let mut found = Vec::new(alloc);
    for solvable in candidates {
        let version = packages[solvable.number() as usize].version;
        if (range.low <= version && version < range.high) != inverse {
            found.push(*solvable)?;
        }
    }
    Ok(found)
}
