//! Why a call is refused.
ghost use Rattle.std.specs.Prelude.{◌≡◌};
ghost use Rattle.typed_ids.specs.declared.error.StoreError.TheVariants.{OutOfMemory};

use crate::same_clone::SameClone;
use crate::same_value::SameValue;
use std::alloc::{AllocError, AllocFailed};
use thiserror::Error;

/// A refusal. What was refused left the value that it was asked of as it was, where nothing else is said.
#[derive(Clone, Copy, Debug, PartialEq, Eq, Error)]
pub enum StoreError {
    /// The allocator refused a growth.
    #[error("out of memory")]
    OutOfMemory,
    /// The range of an id type, the 2^40 indexes of dense storage or the 2^40 rows of a requirement are used up.
    #[error("no id is left")]
    IdSpace,
    /// An id that this store or its provider doesn't know.
    #[error("unknown id")]
    UnknownId,
    /// A level outside 1 to 2147483647.
    #[error("level out of range")]
    LevelOutOfRange,
    /// A requirement that wasn't loaded.
    #[error("requirement not loaded")]
    NotLoaded,
    /// A condition's literal is the negative one of the clause's parent.
    #[error("the condition negates the parent")]
    NegatesParent,
    /// A watch that the clause doesn't have, has already, or can't have.
    #[error("the watch can't be moved so")]
    BadWatch,
    /// A learnt clause without literals, or with a last literal that equals its first.
    #[error("not a learnt clause")]
    BadLearnt,
    /// There is no decision on the trail.
    #[error("the trail is empty")]
    EmptyTrail,
    /// A fraction above one, or without a denominator.
    #[error("not a fraction of at most one")]
    BadFraction,
    /// The queue holds as many clauses as it can.
    #[error("too many clauses")]
    TooManyClauses,
    /// The provider asked to stop.
    #[error("cancelled")]
    Cancelled,
}

impl StoreError {
    ghost use Rattle.typed_ids.specs.Refusals.{code_of};

    /// The number that stands for the refusal in replies: 1 to 12, in the order of the variants.
    pub fn code(&self) -> u32
        ensures { result ≡ code_of self.now }
    {
        match self {
            StoreError::OutOfMemory => 1,
            StoreError::IdSpace => 2,
            StoreError::UnknownId => 3,
            StoreError::LevelOutOfRange => 4,
            StoreError::NotLoaded => 5,
            StoreError::NegatesParent => 6,
            StoreError::BadWatch => 7,
            StoreError::BadLearnt => 8,
            StoreError::EmptyTrail => 9,
            StoreError::BadFraction => 10,
            StoreError::TooManyClauses => 11,
            StoreError::Cancelled => 12,
        }
    }
}

/// Want of memory; so `?` passes on what the allocator refused.
impl From<AllocError> for StoreError {
    ghost from_gives = { λ _ e. e ≡ OutOfMemory };

    fn from(_refused: AllocError) -> StoreError {
        StoreError::OutOfMemory
    }
}

/// Want of memory; what wasn't stored is dropped.
impl<T: Drop> From<AllocFailed<T>> for StoreError {
    ghost from_gives = { λ _ e. e ≡ OutOfMemory };

    fn from(_refused: AllocFailed<T>) -> StoreError {
        StoreError::OutOfMemory
    }
}

impl SameClone for StoreError {
    ghost use Rattle.std.proofs.Common.{rules};

    ghost clone_is_same = { λ a b h. Prim.search rules };
}

impl SameValue for StoreError {
    ghost use Rattle.std.proofs.Common.{rules};

    ghost same = { λ a b h. Prim.search rules };
}
