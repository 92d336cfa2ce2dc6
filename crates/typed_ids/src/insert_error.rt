//! What a refused insertion hands back.
use crate::error::StoreError;
use crate::same_clone::SameClone;
use crate::same_value::SameValue;
use thiserror::Error;

/// A refused insertion: why, and the value that was to be kept, which is kept nowhere.
#[derive(Clone, Copy, Debug, Drop, PartialEq, Eq, Error)]
#[error("{error}")]
pub struct InsertError<V> {
    /// Why.
    pub error: StoreError,
    /// The value.
    pub value: V,
}

impl<V: Drop> From<InsertError<V>> for StoreError {
    ghost use Rattle.std.specs.Prelude.{◌≡◌};

    ghost from_gives = { λ refused e. e ≡ refused.error };

    fn from(refused: InsertError<V>) -> StoreError {
        refused.error
    }
}

impl<V: SameClone> SameClone for InsertError<V> {
    ghost use Rattle.std.proofs.Common.{rules};

    ghost clone_is_same = { λ a b h. Prim.search rules };
}

impl<V: SameValue> SameValue for InsertError<V> {
    ghost use Rattle.std.proofs.Common.{rules};

    ghost same = { λ a b h. Prim.search rules };
}
