//! A caller that is generic in the set.
ghost use Rattle.std.specs.Prelude.{◌≡◌, ◌≢◌, true, false, IfOk, IfErr};
ghost use Rattle.typed_ids.specs.Refusals.{IsGrowthRefusal};

use id_maps::IdSet;
use std::alloc::Allocator;
use typed_ids::StoreError;

/// What a set says of two keys, of which one is put in twice.
#[derive(Clone, Copy, Debug, PartialEq, Eq)]
pub struct SetAnswers {
    pub has_before: bool,
    pub is_new: bool,
    pub is_new_again: bool,
    pub has_key: bool,
    pub has_other: bool,
}

/// Puts the key into a new set, twice.
pub fn set_answers<K: Copy, A: Allocator + Copy, T: IdSet<K, A>>(
    alloc: A,
    key: K,
    other: K,
) -> Result<SetAnswers, StoreError>
    requires { other ≢ key }
    ensures answers { IfOk result (λ answers. answers ≡ record {
      has_before = false;
      is_new = true;
      is_new_again = false;
      has_key = true;
      has_other = false;
    }) }
    ensures refused { IfErr result (IsGrowthRefusal (T.is_too_large key)) }
{
    let mut set = T::new(alloc);
    let has_before = set.contains(key);
    let is_new = set.insert(key)?;
    let is_new_again = set.insert(key)?;
    Ok(SetAnswers {
        has_before,
        is_new,
        is_new_again,
        has_key: set.contains(key),
        has_other: set.contains(other),
    })
}
