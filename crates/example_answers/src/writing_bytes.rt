//! Text that is written whole.
ghost use Rattle.std.specs.Prelude.{◌≡◌, ◌≤◌, length, take, IfOk, OnErr, OnOk, MatchResult};
ghost use Rattle.std.specs.Io.KnownBytes.{Appends, Keeps};
ghost use Rattle.script_text.specs.Devices.{WritingEnds};
ghost use Rattle.script_text.specs.Output.{TakesSome};

use script_text::Sink;
use std::io;
use std::io::ErrorKind;

/// Writes these bytes. A write that was interrupted is tried again.
pub(crate) fn write_bytes<W: Sink>(bytes: &[u8], writer: &mut W) -> io::Result<()>
    ensures ok { OnOk result (Appends (W.contents writer.old) (W.contents writer.new) bytes.now) }
    ensures failed { OnErr result (TakesSome (W.contents writer.old) bytes.now (W.contents writer.new)) }
    ensures ends { WritingEnds W.writes W.fails writer.old result writer.new }
{
    let mut rest = bytes;
    for _ in 0..u64::MAX {
        if rest.is_empty() {
            return Ok(());
        }
        let taken = write_some(rest, writer)?;
        rest = &rest[taken..];
    }
    Err(io::Error::from(ErrorKind::Interrupted))
}

/// One write; how many bytes it took, none if it was interrupted.
fn write_some<W: Sink>(bytes: &[u8], writer: &mut W) -> io::Result<usize>
    ensures bound { IfOk result (λ n. n ≤ length bytes.now) }
    ensures bytes { MatchResult result (λ n. Appends (W.contents writer.old) (W.contents writer.new) (take n bytes.now))
        (λ _. Keeps (W.contents writer.old) (W.contents writer.new)) }
    ensures once { MatchResult result (λ _. W.writes writer.old writer.new) (λ _. W.fails writer.old writer.new) }
{
    match writer.write(bytes) {
        Ok(0) => Err(io::Error::new(ErrorKind::WriteZero, "failed to write whole buffer")),
        Ok(count) => Ok(count),
        Err(fault) => match fault.kind() {
            ErrorKind::Interrupted => Ok(0),
            _ => Err(fault),
        },
    }
}
