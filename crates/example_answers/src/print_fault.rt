//! Why printing ended early.
ghost use Rattle.std.specs.Prelude.{◌≡◌};
ghost use Rattle.example_answers.specs.declared.print_fault.PrintFault.TheVariants.{Device, Memory};

use std::alloc::AllocError;
use std::io;
use thiserror::Error;

/// Why not all answers of an input are printed.
#[derive(Debug, Drop, Error)]
pub enum PrintFault {
    /// Memory was refused for the lines of an input, or for the text of an answer.
    #[error(transparent)]
    Memory(AllocError),
    /// A write or a flush failed.
    #[error(transparent)]
    Device(io::Error),
}

/// So `?` passes on a refusal of the allocator.
impl From<AllocError> for PrintFault {
    ghost from_gives = { λ refused fault. fault ≡ Memory refused };

    fn from(refused: AllocError) -> Self {
        PrintFault::Memory(refused)
    }
}

/// So `?` passes on the fault of a device.
impl From<io::Error> for PrintFault {
    ghost from_gives = { λ e fault. fault ≡ Device e };

    fn from(e: io::Error) -> Self {
        PrintFault::Device(e)
    }
}
