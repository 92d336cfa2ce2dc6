//! Why a scenario can't be read.
ghost use Rattle.std.specs.Prelude.{◌≡◌, Some};
ghost use Rattle.debian_scenario.specs.FaultTexts.{fault_text};
ghost use Rattle.debian_scenario.specs.declared.fault.ReadError.TheVariants.{OutOfMemory};

use crate::key::Key;
use std::alloc::AllocFailed;
use std::fmt;

/// What is wrong with a stanza.
#[derive(Clone, Copy)]
pub enum StanzaFault {
    /// A field has no colon.
    NoColon,
    /// There are two fields of this name.
    Twice(Key),
    /// There is no field of this name.
    Missing(Key),
    /// The field has no value that it may have.
    Unreadable(Key),
}

/// What is wrong with a scenario: why its first stanza that can't be read can't.
#[derive(Clone, Copy)]
pub enum ScenarioFault {
    /// It is the request.
    Request(StanzaFault),
    /// It is a package; the number counts the packages before it.
    Package(usize, StanzaFault),
}

/// Why no scenario was read.
#[derive(Clone, Copy)]
pub enum ReadError {
    /// The allocator refused memory.
    OutOfMemory,
    Faulty(ScenarioFault),
}

/// Want of memory; what wasn't stored is dropped.
impl<T: Drop> From<AllocFailed<T>> for ReadError {
    ghost from_gives = { λ _ e. e ≡ OutOfMemory };

    fn from(_refused: AllocFailed<T>) -> ReadError {
        ReadError::OutOfMemory
    }
}

/// As `no field Version`.
impl fmt::Display for StanzaFault {
    ghost output = { λ fault. Some (fault_text fault) };

    fn fmt<W: fmt::Write>(&self, f: &mut fmt::Formatter<W>) -> fmt::Result {
        match self {
            StanzaFault::NoColon => f.write_str("a field without a colon"),
            StanzaFault::Twice(key) => write!(f, "two fields {key}"),
            StanzaFault::Missing(key) => write!(f, "no field {key}"),
            StanzaFault::Unreadable(key) => write!(f, "the field {key} can't be read"),
        }
    }
}
