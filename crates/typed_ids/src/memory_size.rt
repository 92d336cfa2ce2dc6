//! Types whose values fit in memory.
//!
//! A list that holds its first values in itself, as a `SmallVec` does, asks its callers that its type takes less than
//! 2^63 bytes: the type holds an array, and an allocator that is left open. A caller learns it here, at no cost.
ghost use Rattle.std.specs.Prelude.{◌<◌, length, IsTrue};
ghost use Rattle.std.specs.Mem.{FitsInMemory};

use std::mem::{self, ManuallyDrop};

/// Whether values of this type fit in memory. True of each type, and known when a program is compiled: a branch on it
/// costs nothing.
pub fn fits_in_memory<T>() -> bool
    ensures { IsTrue result → FitsInMemory T.row }
{
    let none: Option<ManuallyDrop<T>> = None;
    mem::size_of_val(&none) <= isize::MAX as usize
}

/// Tells a proof that values of this type fit in memory, since one lies in a slice. Does nothing.
pub fn type_fits<T>(values: &[T])
    requires { 0 < length values.now }
    ensures { FitsInMemory T.row }
{
    let _ = values.len();
}
