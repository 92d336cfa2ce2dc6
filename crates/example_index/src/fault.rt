//! Why there is no index.
ghost use Rattle.std.specs.Prelude.{◌≡◌};
ghost use Rattle.resolvo_ids.specs.Types.StoreError.TheVariants.{OutOfMemory};
ghost use Rattle.example_index.specs.declared.fault.IndexFault.TheVariants.{Refused};

use resolvo_ids::StoreError;
use std::alloc::{AllocError, AllocFailed};
use thiserror::Error;

/// Why there is no index of some lines.
#[derive(Clone, Copy, Debug, PartialEq, Eq, Error)]
pub enum IndexFault {
    /// The line of this number isn't in the format.
    #[error("line {0} unreadable")]
    Unreadable(u64),
    /// Memory was refused, or no id is left.
    #[error("{0}")]
    Refused(StoreError),
}

/// So `?` passes on what the pool refused.
impl From<StoreError> for IndexFault {
    ghost from_gives = { λ refused fault. fault ≡ Refused refused };

    fn from(refused: StoreError) -> Self {
        IndexFault::Refused(refused)
    }
}

/// Want of memory; so `?` passes on what the allocator refused.
impl From<AllocError> for IndexFault {
    ghost from_gives = { λ _ fault. fault ≡ Refused OutOfMemory };

    fn from(_refused: AllocError) -> Self {
        IndexFault::Refused(StoreError::OutOfMemory)
    }
}

/// Want of memory; what wasn't stored is dropped.
impl<T: Drop> From<AllocFailed<T>> for IndexFault {
    ghost from_gives = { λ _ fault. fault ≡ Refused OutOfMemory };

    fn from(_refused: AllocFailed<T>) -> Self {
        IndexFault::Refused(StoreError::OutOfMemory)
    }
}
