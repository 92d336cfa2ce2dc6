//! Callers of the law that ids of 32 bits are few.
ghost use Rattle.std.specs.Prelude.{◌≡◌, false};

use id_maps::SolverId;
use std::alloc::Global;
use typed_ids::{NameId, NameTag, SparseId};

/// The names of the common type can't be more than 2^32, and each value of it is one.
pub fn names_are_few(name: NameId)
    ensures few { ⟦<NameId as SolverId<Global>>⟧.are_many ≡ false }
    ensures is_id { ⟦<NameId as SolverId<Global>>⟧.is_id name }
{
    <NameId as SolverId<Global>>::attest(name);
}

/// The same of sparse names of 32 bits.
pub fn sparse_names_are_few(name: SparseId<NameTag>)
    ensures few { ⟦<SparseId<NameTag> as SolverId<Global>>⟧.are_many ≡ false }
    ensures is_id { ⟦<SparseId<NameTag> as SolverId<Global>>⟧.is_id name }
{
    <SparseId<NameTag> as SolverId<Global>>::attest(name);
}
