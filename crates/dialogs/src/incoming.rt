//! Lines of a reader, as they come.
ghost use Rattle.std.specs.Prelude.{◌≡◌, ◌<◌, ◌≤◌, true, false, [], take, drop, length};
ghost use Rattle.std.specs.Prelude.{IfOk, IfErr, OnOk, MatchOption};
ghost use Rattle.std.specs.Io.KnownBytes.{IsAtEnd};
ghost use Rattle.script_text.specs.declared.fault.ScriptFault.TheVariants.{Memory};
ghost use Rattle.dialogs.specs.LineReads.{HasNoFeed, IsFed, NextLine, NextLineFails};

use script_text::{ScriptFault, Source, read_piece};
use std::alloc::Global;
use std::mem;

/// How many reads a line has to come in.
const MOST_READS: u64 = 1 << 32;

/// The number of bytes that are read at once.
const PIECE: usize = 4096;

/// What was read of a reader, and isn't taken yet.
#[derive(Drop)]
pub(crate) struct Incoming {
    pub(crate) held: Vec<u8>,
    /// Whether the reader has ended.
    pub(crate) is_whole: bool,
    /// Room for what a read gives.
    piece: Vec<u8>,
    ghost room: { 0 < length piece.items },
}

impl Incoming {
    pub(crate) fn new(alloc: Global) -> Result<Incoming, ScriptFault>
        ensures ok { IfOk result (λ incoming. (incoming.held.items ≡ []) × (incoming.is_whole ≡ false)) }
        ensures err { IfErr result (λ e. e ≡ Memory) }
    {
        let mut piece = Vec::new(alloc);
        piece.resize(PIECE, 0)?;
        Ok(Incoming {
            held: Vec::new(alloc),
            is_whole: false,
            piece,
        })
    }

    /// Takes the next line, its end with it, and reads on until one is held. Once the reader has ended that is what is
    /// left, a line without its end or nothing, and nothing more is read. A reader that gives no line in 2^32 reads
    /// counts as one that fails.
    pub(crate) fn next_line<S: Source>(&mut self, reader: &mut S) -> Result<Vec<u8>, ScriptFault>
        requires { self.old.is_whole ≡ true → IsAtEnd (S.remaining reader.old) }
        ensures ok { IfOk result (λ line. NextLine S.remaining S.reads S.fails self.old.is_whole reader.old
            self.old.held.items line.items self.new.is_whole reader.new self.new.held.items) }
        ensures whole { OnOk result (self.new.is_whole ≡ true → IsAtEnd (S.remaining reader.new)) }
        ensures err { IfErr result (λ e. NextLineFails S.remaining S.reads S.fails self.old.is_whole reader.old
            self.old.held.items e reader.new) }
    {
        let mut looked = 0;
        for _ in 0..MOST_READS {
            if let Some(end) = line_end(&self.held, looked) {
                return self.take(end);
            }
            looked = self.held.len();
            if self.is_whole {
                return self.take(looked);
            }
            self.is_whole = read_piece(reader, &mut self.piece, &mut self.held)?;
        }
        Err(ScriptFault::Device)
    }

    /// Takes this many bytes.
    fn take(&mut self, count: usize) -> Result<Vec<u8>, ScriptFault>
        requires { count ≤ length self.old.held.items }
        ensures ok { IfOk result (λ line. (line.items ≡ take count self.old.held.items)
            × (self.new.held.items ≡ drop count self.old.held.items)) }
        ensures err { IfErr result (λ e. e ≡ Memory) }
        ensures whole { self.new.is_whole ≡ self.old.is_whole }
    {
        let rest = self.held.split_off(count)?;
        Ok(mem::replace(&mut self.held, rest))
    }
}

/// Where the first line ends, behind its line feed, if it has one. There is none among the first `looked` bytes.
fn line_end(text: &[u8], looked: usize) -> Option<usize>
    requires few { looked ≤ length text.now }
    requires none { HasNoFeed (take looked text.now) }
    ensures { MatchOption result (HasNoFeed text.now) (λ end. (end ≤ length text.now) × IsFed (take end text.now)) }
{
    for i in looked..text.len() {
        if text[i] == b'\n' {
            return Some(i + 1);
        }
    }
    None
}
