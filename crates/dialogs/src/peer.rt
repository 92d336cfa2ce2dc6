//! Who a dialogue is held with.
ghost use Rattle.std.specs.Prelude.{◌≡◌};

use script_text::{Sink, Source};
use std::io;

/// Who a dialogue is held with: lines are read of it, and answers are written to it. What it does with the ones says
/// nothing of the others.
pub trait Peer: Source + Sink {
    /// A read leaves what was written.
    ghost read_keeps: { (s t : Self) → Self.reads s t → Self.contents t ≡ Self.contents s };

    /// So does one that fails.
    ghost failed_read_keeps: { (s t : Self) → Self.Source.fails s t → Self.contents t ≡ Self.contents s };

    /// A write or a flush leaves what will be read.
    ghost write_keeps: { (s t : Self) → Self.writes s t → Self.remaining t ≡ Self.remaining s };
}

/// Two ends of a talk: a reader of what is said, and a writer of what is answered.
#[derive(Drop)]
pub struct Pipe<R, W> {
    pub reader: R,
    pub writer: W,
}

impl<R: Source, W: Sink> Source for Pipe<R, W> {
    ghost remaining = { λ p. R.remaining p.reader };

    ghost reads = { λ s t. R.reads s.reader t.reader × (t.writer ≡ s.writer) };

    ghost fails = { λ s t. R.fails s.reader t.reader × (t.writer ≡ s.writer) };

    fn read(&mut self, buf: &mut [u8]) -> io::Result<usize> {
        self.reader.read(buf)
    }
}

impl<R: Source, W: Sink> Sink for Pipe<R, W> {
    ghost contents = { λ p. W.contents p.writer };

    ghost writes = { λ s t. W.writes s.writer t.writer × (t.reader ≡ s.reader) };

    ghost fails = { λ s t. W.fails s.writer t.writer × (t.reader ≡ s.reader) };

    fn write(&mut self, buf: &[u8]) -> io::Result<usize> {
        self.writer.write(buf)
    }

    fn flush(&mut self) -> io::Result<()> {
        self.writer.flush()
    }
}

impl<R: Source, W: Sink> Peer for Pipe<R, W> {
    ghost use Rattle.std.proofs.Common.{ap};

    ghost read_keeps = { λ s t h. ap W.contents h.1 };

    ghost failed_read_keeps = { λ s t h. ap W.contents h.1 };

    ghost write_keeps = { λ s t h. ap R.remaining h.1 };
}
