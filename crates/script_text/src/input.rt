//! The input, read whole.
ghost use Rattle.std.specs.Prelude.{◌≡◌, ◌≢◌, ◌⊎◌, ◌++◌, ◌^◌, ◌<◌, List, ℕ, true, IfOk, IfErr, IfSome, OnOk, length};
ghost use Rattle.std.specs.Io.KnownBytes.{Consumes, IsAtEnd};
ghost use Rattle.script_text.specs.Devices.{ReadingEnds};
ghost use Rattle.script_text.specs.Reading.{ReadOnce};
ghost use Rattle.script_text.specs.declared.fault.ScriptFault.TheVariants.{Device, Memory};

use crate::device::Source;
use crate::fault::ScriptFault;
use std::alloc::Global;
use std::io::ErrorKind;

/// How many reads a reader has to end in.
const MOST_READS: u64 = 1 << 32;

/// The number of bytes that are read at once.
const PIECE: usize = 65536;

/// All bytes of the reader, to its end. A read that was interrupted is tried again. A reader that hasn't ended after
/// 2^32 reads counts as one that fails. A read that fails for want of memory is a device's failure.
pub fn read_whole<S: Source>(alloc: Global, reader: &mut S) -> Result<Vec<u8>, ScriptFault>
    ensures ok { IfOk result (λ input. IfSome (S.remaining reader.old) (λ bytes. input.items ≡ bytes)) }
    ensures err { IfErr result (λ e. (e ≡ Device) ⊎ (e ≡ Memory)) }
    ensures ends { ReadingEnds S.reads S.fails (2 ^ 32) reader.old result reader.new }
{
    read_within(alloc, reader, MOST_READS)
}

/// All bytes of the reader, to its end, as [`read_whole`] reads them, but in `reads` reads at most. That which meets
/// the end is one of them, and so is one that was interrupted.
pub fn read_within<S: Source>(
    alloc: Global,
    reader: &mut S,
    reads: u64,
) -> Result<Vec<u8>, ScriptFault>
    ensures ok { IfOk result (λ input. IfSome (S.remaining reader.old) (λ bytes. input.items ≡ bytes)) }
    ensures err { IfErr result (λ e. (e ≡ Device) ⊎ (e ≡ Memory)) }
    ensures ends { ReadingEnds S.reads S.fails reads reader.old result reader.new }
{
    let mut piece = Vec::new(alloc);
    piece.resize(PIECE, 0)?;
    let mut input = Vec::new(alloc);
    read_pieces(reader, &mut piece, &mut input, reads)?;
    Ok(input)
}

/// Reads the reader to its end, piece by piece, in `reads` reads at most.
fn read_pieces<S: Source>(
    reader: &mut S,
    piece: &mut [u8],
    input: &mut Vec<u8>,
    reads: u64,
) -> Result<(), ScriptFault>
    requires { 0 < length piece.old }
    ensures ok { OnOk result (IfSome (S.remaining reader.old) (λ bytes. input.new.items ≡ input.old.items ++ bytes)) }
    ensures err { IfErr result (λ e. (e ≡ Device) ⊎ (e ≡ Memory)) }
    ensures ends { ReadingEnds S.reads S.fails reads reader.old result reader.new }
{
    for _ in 0..reads {
        match read_piece(reader, piece, input) {
            Ok(false) => {}
            Ok(true) => return Ok(()),
            Err(fault) => return Err(fault),
        }
    }
    Err(ScriptFault::Device)
}

/// One read, whose bytes are put after those before it; whether it met the end. One that was interrupted gives none. At
/// most the length of the piece is read.
pub fn read_piece<S: Source>(
    reader: &mut S,
    piece: &mut [u8],
    input: &mut Vec<u8>,
) -> Result<bool, ScriptFault>
    requires { 0 < length piece.old }
    ensures bytes { OnOk result ((bytes : List ℕ) × Consumes (S.remaining reader.old) (S.remaining reader.new) bytes
        × (input.new.items ≡ input.old.items ++ bytes)) }
    ensures end { result ≡ Ok true → IsAtEnd (S.remaining reader.new) }
    ensures read { ReadOnce S.reads S.fails reader.old result reader.new }
{
    match reader.read(piece) {
        Ok(count) => {
            input.extend_from_slice(&piece[..count])?;
            Ok(count == 0)
        }
        Err(e) => match e.kind() {
            ErrorKind::Interrupted => Ok(false),
            _ => Err(ScriptFault::Device),
        },
    }
}
