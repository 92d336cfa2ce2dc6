//! How a script can end.
ghost use Rattle.std.specs.Prelude.{◌≡◌};
ghost use Rattle.script_text.specs.Status.{status_of};
ghost use Rattle.script_text.specs.declared.fault.LineFault.TheVariants as OfLine;
ghost use Rattle.script_text.specs.declared.fault.ScriptFault.TheVariants as OfScript;

use std::alloc::{AllocError, AllocFailed};
use thiserror::Error;
use typed_ids::{SameClone, SameValue};

/// Why a script was left before its end.
#[derive(Clone, Copy, Debug, PartialEq, Eq, Error)]
pub enum ScriptFault {
    /// This line isn't in the format. Lines are counted from 1.
    #[error("line {0} is unreadable")]
    Unreadable(u64),
    /// A read or a write failed.
    #[error("a read or a write failed")]
    Device,
    /// Memory was refused outside a command, or the catalogue has more ids than there are.
    #[error("out of memory")]
    Memory,
}

/// Why a line was left before its end.
#[derive(Clone, Copy, Debug, PartialEq, Eq)]
pub enum LineFault {
    /// It isn't in the format.
    Unreadable,
    /// Memory was refused, or ids ran out.
    Memory,
}

impl LineFault {
    ghost use Rattle.script_text.specs.Status.{fault_at};

    /// The fault of the script whose line of this number is faulty.
    pub fn at(self, number: u64) -> ScriptFault
        ensures { result ≡ fault_at number self }
    {
        match self {
            LineFault::Unreadable => ScriptFault::Unreadable(number),
            LineFault::Memory => ScriptFault::Memory,
        }
    }
}

/// Want of memory; so `?` passes on what the allocator refused.
impl From<AllocError> for LineFault {
    ghost from_gives = { λ _ e. e ≡ OfLine.Memory };

    fn from(_refused: AllocError) -> LineFault {
        LineFault::Memory
    }
}

/// Want of memory; what wasn't stored is dropped.
impl<T: Drop> From<AllocFailed<T>> for LineFault {
    ghost from_gives = { λ _ e. e ≡ OfLine.Memory };

    fn from(_refused: AllocFailed<T>) -> LineFault {
        LineFault::Memory
    }
}

/// Want of memory; so `?` passes on what the allocator refused.
impl From<AllocError> for ScriptFault {
    ghost from_gives = { λ _ e. e ≡ OfScript.Memory };

    fn from(_refused: AllocError) -> ScriptFault {
        ScriptFault::Memory
    }
}

/// Want of memory; what wasn't stored is dropped.
impl<T: Drop> From<AllocFailed<T>> for ScriptFault {
    ghost from_gives = { λ _ e. e ≡ OfScript.Memory };

    fn from(_refused: AllocFailed<T>) -> ScriptFault {
        ScriptFault::Memory
    }
}

/// The exit status of a script: 0 to its end, 1 at an unreadable line, 2 where a read or a write failed, 3 for want of
/// memory.
pub fn status(ended: &Result<(), ScriptFault>) -> u8
    ensures { result ≡ status_of ended.now }
{
    match ended {
        Ok(()) => 0,
        Err(ScriptFault::Unreadable(_)) => 1,
        Err(ScriptFault::Device) => 2,
        Err(ScriptFault::Memory) => 3,
    }
}

impl SameValue for ScriptFault {
    ghost use Rattle.std.proofs.Common.{rules};

    ghost same = { λ a b h. Prim.search rules };
}

impl SameClone for ScriptFault {
    ghost use Rattle.std.proofs.Common.{rules};

    ghost clone_is_same = { λ a b h. Prim.search rules };
}

impl SameValue for LineFault {
    ghost use Rattle.std.proofs.Common.{rules};

    ghost same = { λ a b h. Prim.search rules };
}

impl SameClone for LineFault {
    ghost use Rattle.std.proofs.Common.{rules};

    ghost clone_is_same = { λ a b h. Prim.search rules };
}
