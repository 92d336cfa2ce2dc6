//! What prints answers.
ghost use Rattle.std.specs.Prelude.{◌≡◌, ◌++◌, true, false, string_bytes, OnErr, OnOk};
ghost use Rattle.std.specs.Io.KnownBytes.{Appends};
ghost use Rattle.script_text.specs.Devices.{WritingEnds};
ghost use Rattle.script_text.specs.Output.{TakesSome};
ghost use Rattle.example_answers.specs.Printed.{gap};

use crate::index_answer::AnswerText;
use crate::writing_bytes::write_bytes;
use script_text::Sink;
use std::io;

/// Prints answers, with an empty line before each but the first.
#[derive(Drop)]
pub struct Printer<W: Sink> {
    pub(crate) writer: W,
    /// Whether nothing is printed yet. After an error it may be anything.
    is_first: bool,
}

impl<W: Sink> Printer<W> {
    /// A printer that writes to this writer.
    pub fn new(writer: W) -> Self
        ensures writer { result.writer ≡ writer }
        ensures first { result.is_first ≡ true }
    {
        Printer {
            writer,
            is_first: true,
        }
    }

    /// Prints an answer.
    pub(crate) fn print(&mut self, answered: &AnswerText) -> io::Result<()>
        ensures ok { OnOk result (Appends (W.contents self.old.writer) (W.contents self.new.writer)
            (gap self.old.is_first ++ string_bytes answered.now.text)) }
        ensures failed { OnErr result (TakesSome (W.contents self.old.writer)
            (gap self.old.is_first ++ string_bytes answered.now.text) (W.contents self.new.writer)) }
        ensures first { OnOk result (self.new.is_first ≡ false) }
        ensures ends { WritingEnds W.writes W.fails self.old.writer result self.new.writer }
    {
        write_bytes(gap(self.is_first).as_bytes(), &mut self.writer)?;
        self.is_first = false;
        write_bytes(answered.text.as_bytes(), &mut self.writer)
    }

    /// Ends the last line, if something is printed: for answers that are lines without their ends.
    pub fn end_line(&mut self) -> io::Result<()>
        ensures ok { OnOk result (Appends (W.contents self.old.writer) (W.contents self.new.writer)
            (gap self.old.is_first)) }
        ensures failed { OnErr result (TakesSome (W.contents self.old.writer) (gap self.old.is_first)
            (W.contents self.new.writer)) }
    {
        let end = gap(self.is_first);
        write_bytes(end.as_bytes(), &mut self.writer)?;
        self.writer.flush()
    }
}

/// What is before an answer.
fn gap(is_first: bool) -> &'static str
    ensures { result.now ≡ gap is_first }
{
    if is_first { "" } else { "\n" }
}
