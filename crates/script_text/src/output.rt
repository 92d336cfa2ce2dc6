//! Output, which is written in large pieces.
ghost use Rattle.std.specs.Prelude.{◌≡◌, ◌≤◌, [], take, length, IfOk, OnOk, OnErr, IfErr, MatchResult};
ghost use Rattle.std.specs.Io.KnownBytes.{Appends, Keeps};
ghost use Rattle.script_text.specs.declared.fault.ScriptFault.TheVariants.{Device};
ghost use Rattle.script_text.specs.Devices.{WritingEnds};
ghost use Rattle.script_text.specs.Output.{HandsOn, TakesSome, Writes};

use crate::device::Sink;
use crate::fault::ScriptFault;
use std::io::ErrorKind;

/// From this many bytes on, what waits is written.
const PIECE: usize = 65536;

/// Writes what waits, once that is much.
#[inline(always)]
pub fn write_much<W: Sink>(waiting: &mut Vec<u8>, writer: &mut W) -> Result<(), ScriptFault>
    ensures ok { OnOk result
        (Writes (W.contents writer.old) waiting.old.items (W.contents writer.new) waiting.new.items []) }
    ensures handed { OnOk result
        (HandsOn (W.contents writer.old) waiting.old.items (W.contents writer.new) waiting.new.items []) }
    ensures err { IfErr result (λ e. e ≡ Device) }
    ensures failed { OnErr result (TakesSome (W.contents writer.old) waiting.old.items (W.contents writer.new)) }
    ensures ends { WritingEnds W.writes W.fails writer.old result writer.new }
{
    if waiting.len() < PIECE {
        return Ok(());
    }
    write_waiting(waiting, writer)
}

/// Writes what waits.
#[inline(always)]
fn write_waiting<W: Sink>(waiting: &mut Vec<u8>, writer: &mut W) -> Result<(), ScriptFault>
    ensures ok { OnOk result
        (Writes (W.contents writer.old) waiting.old.items (W.contents writer.new) waiting.new.items []) }
    ensures handed { OnOk result
        (HandsOn (W.contents writer.old) waiting.old.items (W.contents writer.new) waiting.new.items []) }
    ensures empty { OnOk result (waiting.new.items ≡ []) }
    ensures err { IfErr result (λ e. e ≡ Device) }
    ensures failed { OnErr result (TakesSome (W.contents writer.old) waiting.old.items (W.contents writer.new)) }
    ensures ends { WritingEnds W.writes W.fails writer.old result writer.new }
{
    write_bytes(waiting, writer)?;
    waiting.clear();
    Ok(())
}

/// Writes all that waits, and flushes the writer.
pub fn write_rest<W: Sink>(waiting: &mut Vec<u8>, writer: &mut W) -> Result<(), ScriptFault>
    ensures ok { OnOk result
        (Writes (W.contents writer.old) waiting.old.items (W.contents writer.new) waiting.new.items []) }
    ensures handed { OnOk result
        (HandsOn (W.contents writer.old) waiting.old.items (W.contents writer.new) waiting.new.items []) }
    ensures empty { OnOk result (waiting.new.items ≡ []) }
    ensures err { IfErr result (λ e. e ≡ Device) }
    ensures failed { OnErr result (TakesSome (W.contents writer.old) waiting.old.items (W.contents writer.new)) }
    ensures ends { WritingEnds W.writes W.fails writer.old result writer.new }
{
    write_waiting(waiting, writer)?;
    match writer.flush() {
        Ok(()) => Ok(()),
        Err(_) => Err(ScriptFault::Device),
    }
}

/// Writes these bytes. A write that was interrupted is tried again.
#[inline(never)]
fn write_bytes<W: Sink>(bytes: &[u8], writer: &mut W) -> Result<(), ScriptFault>
    ensures ok { OnOk result (Appends (W.contents writer.old) (W.contents writer.new) bytes.now) }
    ensures err { IfErr result (λ e. e ≡ Device) }
    ensures failed { OnErr result (TakesSome (W.contents writer.old) bytes.now (W.contents writer.new)) }
    ensures ends { WritingEnds W.writes W.fails writer.old result writer.new }
{
    let mut rest = bytes;
    for _ in 0..u64::MAX {
        if rest.is_empty() {
            return Ok(());
        }
        let taken = write_some(rest, writer)?;
        rest = &rest[taken..];
    }
    Err(ScriptFault::Device)
}

/// One write; how many bytes it took, none where it was interrupted.
fn write_some<W: Sink>(bytes: &[u8], writer: &mut W) -> Result<usize, ScriptFault>
    ensures bound { IfOk result (λ n. n ≤ length bytes.now) }
    ensures bytes { MatchResult result (λ n. Appends (W.contents writer.old) (W.contents writer.new) (take n bytes.now))
        (λ _. Keeps (W.contents writer.old) (W.contents writer.new)) }
    ensures err { IfErr result (λ e. e ≡ Device) }
    ensures once { MatchResult result (λ _. W.writes writer.old writer.new) (λ _. W.fails writer.old writer.new) }
{
    match writer.write(bytes) {
        Ok(0) => Err(ScriptFault::Device),
        Ok(count) => Ok(count),
        Err(e) => match e.kind() {
            ErrorKind::Interrupted => Ok(0),
            _ => Err(ScriptFault::Device),
        },
    }
}
