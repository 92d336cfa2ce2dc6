//! What a script is read from, and what its answer is written to.
//!
//! Each reader and each writer is such a device. A device of one's own can say more: which of its calls failed.
ghost use Rattle.std.specs.Prelude.{◌≡◌, ◌≢◌, ◌<◌, ℕ, List, Option, ⊤, IfOk, IfErr, OnOk, OnErr};
ghost use Rattle.std.specs.declared.io.ErrorKind.TheVariants.{Interrupted};
ghost use Rattle.std.specs.Io.{ReadsAtMost, WritesAtMost};
ghost use Rattle.std.specs.Io.KnownBytes.{Keeps, ReadConsumes, WriteAppends};
ghost use Rattle.std.specs.IoError.{error_kind};

use std::io;
use std::io::{Read, Write};

/// What a script is read from.
pub trait Source {
    /// The bytes that reads will give from here on, where they are known.
    ghost remaining: { Self → Option (List ℕ) };

    /// A read that doesn't fail leads from the one state to the other. One that is interrupted doesn't fail.
    ghost reads: { Self → Self → Type 0 };

    /// A read that fails leads from the one state to the other.
    ghost fails: { Self → Self → Type 0 };

    /// Reads some bytes, none only at the end or where there is no room.
    fn read(&mut self, buf: &mut [u8]) -> io::Result<usize>
        ensures bound { ReadsAtMost result buf.new }
        ensures bytes { ReadConsumes (remaining self.old) (remaining self.new) result buf.new }
        ensures reads { OnOk result (reads self.old self.new) }
        ensures interrupted { IfErr result (λ e. error_kind e ≡ Interrupted → reads self.old self.new) }
        ensures fails { IfErr result (λ e. error_kind e ≢ Interrupted → fails self.old self.new) };
}

/// Of any reader nothing is known of its failures.
impl<R: Read> Source for R {
    ghost remaining = { R.remaining };

    ghost reads = { λ _ _. ⊤ };

    ghost fails = { λ _ _. ⊤ };

    fn read(&mut self, buf: &mut [u8]) -> io::Result<usize> {
        Read::read(self, buf)
    }
}

/// What the answer to a script is written to.
pub trait Sink {
    /// The bytes that it holds, where they are known.
    ghost contents: { Self → Option (List ℕ) };

    /// A write or a flush that doesn't fail leads from the one state to the other. A write that is interrupted doesn't
    /// fail.
    ghost writes: { Self → Self → Type 0 };

    /// A write or a flush that fails leads from the one state to the other. A write that takes no byte of some fails.
    ghost fails: { Self → Self → Type 0 };

    /// Writes some bytes of these.
    fn write(&mut self, buf: &[u8]) -> io::Result<usize>
        ensures bound { WritesAtMost result buf.now }
        ensures bytes { WriteAppends (contents self.old) (contents self.new) result buf.now }
        ensures writes { IfOk result (λ n. 0 < n → writes self.old self.new) }
        ensures nothing { IfOk result (λ n. n ≡ 0 → fails self.old self.new) }
        ensures interrupted { IfErr result (λ e. error_kind e ≡ Interrupted → writes self.old self.new) }
        ensures fails { IfErr result (λ e. error_kind e ≢ Interrupted → fails self.old self.new) };

    /// Hands on what is held back.
    fn flush(&mut self) -> io::Result<()>
        ensures bytes { Keeps (contents self.old) (contents self.new) }
        ensures writes { OnOk result (writes self.old self.new) }
        ensures fails { OnErr result (fails self.old self.new) };
}

/// Of any writer nothing is known of its failures.
impl<W: Write> Sink for W {
    ghost contents = { W.contents };

    ghost writes = { λ _ _. ⊤ };

    ghost fails = { λ _ _. ⊤ };

    fn write(&mut self, buf: &[u8]) -> io::Result<usize> {
        Write::write(self, buf)
    }

    fn flush(&mut self) -> io::Result<()> {
        Write::flush(self)
    }
}
