//! What a pool keeps, kind by kind, behind one trait: a caller over it knows what the pool promises of every kind.
ghost use Rattle.std.specs.Prelude.{◌≡◌, ◌<◌, ℕ, Bool, List, length, slice_get, option_map, Option, Some, IfOk, OnOk};
ghost use Rattle.std.specs.Cmp.{IsPartialEquivalence};
ghost use Rattle.package_pool.specs.Interned.{interned, interned_place};
ghost use Rattle.package_pool.specs.Pool.{Lists, IsExtended, IsLater};
ghost use Rattle.test_part_calls.specs.Kinds.{parts_of};

use package_pool::{Pool, VersionSet};
use std::alloc::Allocator;
use std::hash::Hash;
use typed_ids::{NameId, StoreError};

/// What is read by an id: one value, or values in a row, as the bytes of a string.
#[derive(Drop)]
pub enum Seen<'p, T> {
    One(&'p T),
    Row(&'p [T]),
}

/// A kind of what a pool keeps: strings, names, solvables, version sets, unions or conditions. A value that came in has
/// an id, which is a place in the kind's list.
pub trait Kind<VS: VersionSet, N: Eq + Hash, A: Allocator> {
    /// What comes in.
    type Value: Drop;

    /// What stands for it.
    type Id: Copy;

    /// What is read of it.
    type Part;

    /// What is kept of it.
    ghost Entry: { Type 0 };

    /// The kind's list.
    ghost kept: { Lists N VS VS.V → List Entry };

    ghost entry: { Self.Value → Entry };

    ghost place: { Self.Id → ℕ };

    /// Whether a value that comes is one that is there.
    ghost is_one: { Entry → Entry → Bool };

    ghost parts: { Entry → List Self.Part };

    ghost package_of: { Entry → Option ℕ };

    /// What the value is made of is in the pool.
    ghost may_come: { Lists N VS VS.V → Self.Value → Type 0 };

    /// Whether the two are one to a pool.
    fn are_one(first: &Self::Value, second: &Self::Value) -> bool
        ensures { result ≡ is_one (entry first.now) (entry second.now) };

    /// The id of a value, which comes into the pool unless one that is the same to the pool is there.
    fn intern(pool: &mut Pool<VS, N, A>, value: Self::Value) -> Result<Self::Id, StoreError>
        requires { may_come pool.old value }
        ensures id { IfOk result (λ id. place id ≡ interned_place is_one (kept pool.old) (entry value)) }
        ensures ok { OnOk result (kept pool.new ≡ interned is_one (kept pool.old) (entry value)) }
        ensures later { IsLater pool.old pool.new };

    /// What stands at the place of this id.
    fn resolve<'p>(pool: &'p Pool<VS, N, A>, id: Self::Id) -> Seen<'p, Self::Part>
        requires { place id < length (kept pool.now) }
        ensures { option_map parts (slice_get (kept pool.now) (place id)) ≡ Some (parts_of result) };

    /// The package that it is of, if its kind has one.
    fn package(pool: &Pool<VS, N, A>, id: Self::Id) -> Option<NameId>
        requires { place id < length (kept pool.now) }
        ensures { option_map package_of (slice_get (kept pool.now) (place id)) ≡ Some result };

    ghost laws: { IsPartialEquivalence is_one };

    ghost same_id: { (a b : Self.Id) → place a ≡ place b → a ≡ b };

    /// Where no entry is changed or taken out, none of this kind is.
    ghost lasts: { (p q : Lists N VS VS.V) → IsLater p q → IsExtended (kept p) (kept q) };

    ghost may_still: { (p q : Lists N VS VS.V) → IsLater p q → (v : Self.Value) → may_come p v → may_come q v };
}
