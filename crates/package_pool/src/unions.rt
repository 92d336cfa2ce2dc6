//! The unions of a pool, each a short list of version sets.
ghost use Rattle.std.specs.Prelude.{◌≡◌, ◌<◌, ◌^◌, [], ◌∷◌, ◌++◌, length, slice_get};
ghost use Rattle.std.specs.Prelude.{IsTrue, IsOk, IfOk, OnOk, IfErr, OnErr};
ghost use Rattle.typed_ids.specs.declared.error.StoreError.TheVariants.{IdSpace};
ghost use Rattle.typed_ids.specs.Refusals.{IsGrowthRefusal, are_ids_out};

use smallvec::SmallVec;
use std::alloc::{AllocError, Allocator};
use std::marker::Model;
use std::mem::ManuallyDrop;
use typed_ids::{
    DenseIndex, StoreError, VersionSetId, VersionSetUnionId, fits_in_memory, type_fits,
};

/// How many version sets a union holds in itself. It takes the same 32 bytes with one to four.
const IN_PLACE: usize = 4;

/// The unions, by their ids.
#[derive(Drop)]
pub(crate) struct Unions<A: Allocator> {
    unions: Vec<Union<A>, A>,
}

/// The version sets of each union.
impl<A: Allocator> Model for Unions<A> {
    ghost use Rattle.std.specs.Prelude.{List};
    ghost use Rattle.typed_ids.specs.declared.version_set_id.VersionSetId.{VersionSetId};

    ghost Value = { List (List VersionSetId) };

    ghost view = { λ u. u.unions.items };
}

impl<A: Allocator + Copy> Unions<A> {
    /// No unions. Takes no memory.
    pub(crate) fn new(alloc: A) -> Self
        ensures { result ≡ [] }
    {
        Unions {
            unions: Vec::new(alloc),
        }
    }

    /// How many unions there are.
    pub(crate) fn len(&self) -> usize
        ensures { result ≡ length self.now }
    {
        self.unions.len()
    }

    /// The version sets of this union, in order.
    pub(crate) fn resolve(&self, union: VersionSetUnionId) -> &[VersionSetId]
        requires { union.0 < length self.now }
        ensures { slice_get self.now union.0 ≡ Some result.now }
    {
        type_fits(&self.unions);
        let union = &self.unions[union.to_index()];
        union.sets.as_slice()
    }

    /// Adds a union of these version sets, and answers its id. Takes memory if the list of unions is full, or if the
    /// union has more version sets than it holds in itself.
    pub(crate) fn add(
        &mut self,
        first: VersionSetId,
        others: &[VersionSetId],
    ) -> Result<VersionSetUnionId, StoreError>
        ensures id { IfOk result (λ id. id.0 ≡ length self.old) }
        ensures ok { OnOk result (self.new ≡ self.old ++ (first ∷ others.now) ∷ []) }
        ensures here { IfOk result (λ id. id.0 < length self.new) }
        ensures err { OnErr result (self.new ≡ self.old) }
        ensures refused { IfErr result (IsGrowthRefusal (are_ids_out (2 ^ 32) (length self.old))) }
        ensures ids_out { IsTrue (are_ids_out (2 ^ 32) (length self.old)) → result ≡ Err IdSpace }
    {
        let index = self.unions.len();
        if !VersionSetUnionId::in_range(index) {
            return Err(StoreError::IdSpace);
        }
        let union = Union::new(*self.unions.allocator(), first, others)?;
        self.unions.push(union)?;
        Ok(VersionSetUnionId::from_index(index))
    }
}

/// The version sets of one union, in order: up to [`IN_PLACE`] in the union itself, more in memory of their own.
///
/// To use or drop a `SmallVec`, its type must be known to fit in memory. No proof knows this while the allocator's type
/// is open, but [`fits_in_memory`] and [`type_fits`] tell it at no cost. A derived `Drop` can't ask them. So the list
/// lies in a `ManuallyDrop`, and the union drops it by hand.
struct Union<A: Allocator> {
    sets: ManuallyDrop<SmallVec<VersionSetId, IN_PLACE, A>>,
}

/// The version sets.
impl<A: Allocator> Model for Union<A> {
    ghost use Rattle.std.specs.Prelude.{List};
    ghost use Rattle.std.specs.Mem.{manually_drop_value};
    ghost use Rattle.typed_ids.specs.declared.version_set_id.VersionSetId.{VersionSetId};

    ghost Value = { List VersionSetId };

    ghost view = { λ u. (manually_drop_value u.sets).items };
}

impl<A: Allocator + Copy> Union<A> {
    /// The union of these version sets.
    fn new(alloc: A, first: VersionSetId, others: &[VersionSetId]) -> Result<Self, AllocError>
        ensures { IfOk result (λ union. union ≡ first ∷ others.now) }
    {
        // Never taken.
        if !fits_in_memory::<SmallVec<VersionSetId, IN_PLACE, A>>() {
            return Err(AllocError);
        }
        let sets = short_list(alloc, first, others)?;
        Ok(Union {
            sets: ManuallyDrop::new(sets),
        })
    }
}

impl<A: Allocator> Drop for Union<A> {
    fn drop(self) {
        let Union { sets } = self;
        // Always taken.
        if fits_in_memory::<SmallVec<VersionSetId, IN_PLACE, A>>() {
            let _dropped = ManuallyDrop::into_inner(sets);
        }
    }
}

/// The list of these version sets. Takes memory if there are more than [`IN_PLACE`].
fn short_list<A: Allocator + Copy>(
    alloc: A,
    first: VersionSetId,
    others: &[VersionSetId],
) -> Result<SmallVec<VersionSetId, IN_PLACE, A>, AllocError>
    ensures ok { IfOk result (λ sets. sets.items ≡ first ∷ others.now) }
    ensures in_place { length others.now < IN_PLACE → IsOk result }
{
    let mut sets = SmallVec::with_capacity(alloc, others.len() + 1)?;
    sets.push(first)?;
    sets.extend_from_slice(others)?;
    Ok(sets)
}
