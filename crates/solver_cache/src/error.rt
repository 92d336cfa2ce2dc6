//! Why a question to a cache isn't answered.
ghost use Rattle.std.specs.Prelude.{◌≡◌};

use std::alloc::{AllocError, AllocFailed};
use typed_ids::{SameClone, SameValue, StoreError};

/// A question that isn't answered.
#[derive(Clone, Copy, Debug, Drop, PartialEq, Eq)]
pub enum CacheError<C> {
    /// It was refused, for want of memory or of ids.
    Store(StoreError),
    /// The provider asked to stop, and handed this over.
    Cancelled(C),
}

impl<C> From<StoreError> for CacheError<C> {
    ghost use Rattle.solver_cache.specs.declared.error.CacheError.TheVariants.{Store};

    ghost from_gives = { λ refused e. e ≡ Store refused };

    fn from(refused: StoreError) -> CacheError<C> {
        CacheError::Store(refused)
    }
}

/// Want of memory; so `?` passes on what the allocator refused.
impl<C> From<AllocError> for CacheError<C> {
    ghost use Rattle.solver_cache.specs.declared.error.CacheError.TheVariants.{Store};
    ghost use Rattle.typed_ids.specs.declared.error.StoreError.TheVariants.{OutOfMemory};

    ghost from_gives = { λ refused e. e ≡ Store OutOfMemory };

    fn from(_refused: AllocError) -> CacheError<C> {
        CacheError::Store(StoreError::OutOfMemory)
    }
}

/// Want of memory; what wasn't stored is dropped.
impl<C, T: Drop> From<AllocFailed<T>> for CacheError<C> {
    ghost use Rattle.solver_cache.specs.declared.error.CacheError.TheVariants.{Store};
    ghost use Rattle.typed_ids.specs.declared.error.StoreError.TheVariants.{OutOfMemory};

    ghost from_gives = { λ refused e. e ≡ Store OutOfMemory };

    fn from(_refused: AllocFailed<T>) -> CacheError<C> {
        CacheError::Store(StoreError::OutOfMemory)
    }
}

/// The refusal that stands for it. What the provider handed over is dropped.
impl<C: Drop> From<CacheError<C>> for StoreError {
    ghost use Rattle.solver_cache.specs.Questions.{refusal_of};

    ghost from_gives = { λ unanswered e. e ≡ refusal_of unanswered };

    fn from(unanswered: CacheError<C>) -> StoreError {
        match unanswered {
            CacheError::Store(refused) => refused,
            CacheError::Cancelled(_) => StoreError::Cancelled,
        }
    }
}

impl<C: SameValue> SameValue for CacheError<C> {
    ghost use Rattle.std.proofs.Common.{rules};

    ghost same = { λ a b h. Prim.search rules };
}

impl<C: SameClone> SameClone for CacheError<C> {
    ghost use Rattle.std.proofs.Common.{rules};

    ghost clone_is_same = { λ a b h. Prim.search rules };
}
