//! The answers of an input's indexes, printed in turn.
ghost use Rattle.std.specs.Prelude.{◌≡◌, map, OnOk};
ghost use Rattle.index_text.specs.Indexes.{indexes_of};
ghost use Rattle.index_text.specs.PlainLines.{plain_lines};
ghost use Rattle.example_answers.specs.Printed.{Prints, PrintingEnds, is_first_after};

use crate::answering::Answering;
use crate::outcome::Outcome;
use crate::print_fault::PrintFault;
use crate::printer::Printer;
use index_text::Line;
use script_text::Sink;
use std::alloc::Global;

/// Answers each index of an input in turn, and prints the answers. Its own answer is the worst outcome.
pub fn print_in_turn<A: Answering, W: Sink>(
    alloc: Global,
    input: &[u8],
    answering: &mut A,
    printer: &mut Printer<W>,
) -> Result<Outcome, PrintFault>
    ensures prints { Prints A.answers printer.old.is_first (indexes_of input.now)
        (W.contents printer.old.writer) result (W.contents printer.new.writer) }
    ensures first { OnOk result (printer.new.is_first ≡ is_first_after printer.old.is_first (indexes_of input.now)) }
    ensures ends { PrintingEnds W.writes W.fails printer.old.writer result printer.new.writer }
{
    let indexes = index_text::split(alloc, input)?;
    let worst = print_indexes(alloc, &indexes, answering, printer)?;
    printer.writer.flush()?;
    Ok(worst)
}

/// Answers these indexes, and prints the answers.
fn print_indexes<A: Answering, W: Sink>(
    alloc: Global,
    indexes: &[Vec<Line<'_>>],
    answering: &mut A,
    printer: &mut Printer<W>,
) -> Result<Outcome, PrintFault>
    ensures prints { Prints A.answers printer.old.is_first (map plain_lines indexes.now)
        (W.contents printer.old.writer) result (W.contents printer.new.writer) }
    ensures first { OnOk result
        (printer.new.is_first ≡ is_first_after printer.old.is_first (map plain_lines indexes.now)) }
    ensures ends { PrintingEnds W.writes W.fails printer.old.writer result printer.new.writer }
{
    let mut worst = Outcome::Picked;
    for lines in indexes {
        let answered = answering.answer(alloc, lines)?;
        printer.print(&answered)?;
        worst = worst.worse(answered.outcome);
    }
    Ok(worst)
}
