//! The answers of an input.
ghost use Rattle.std.specs.Prelude.{◌≡◌, OnOk};
ghost use Rattle.index_text.specs.Indexes.{indexes_of};
ghost use Rattle.example_answers.specs.Answers.{AnswersLines};
ghost use Rattle.example_answers.specs.Printed.{Prints, PrintingEnds, is_first_after};

use crate::answering::Answering;
use crate::in_turn::print_in_turn;
use crate::index_answer::{AnswerText, answer};
use crate::outcome::Outcome;
use crate::print_fault::PrintFault;
use crate::printer::Printer;
use example_index::SmallIndex;
use index_text::Line;
use resolvo_pool::{Interner, ProviderFunctions};
use script_text::Sink;
use std::alloc::{AllocError, Global};

/// The search for the best solution, in no more steps than these.
#[derive(Drop)]
struct Search {
    steps: u64,
}

impl Answering for Search {
    ghost answers = { AnswersLines ⟦<SmallIndex as ProviderFunctions>⟧.functions ⟦<SmallIndex as Interner>⟧.texts };

    fn answer(&mut self, alloc: Global, lines: &[Line<'_>]) -> Result<AnswerText, AllocError> {
        answer(alloc, lines, self.steps)
    }
}

/// Answers each index of an input in turn, each in no more steps than these, and prints the answers. Its own answer is
/// the worst outcome.
pub fn answer_all<W: Sink>(
    alloc: Global,
    input: &[u8],
    steps: u64,
    printer: &mut Printer<W>,
) -> Result<Outcome, PrintFault>
    ensures prints { Prints
        (AnswersLines ⟦<SmallIndex as ProviderFunctions>⟧.functions ⟦<SmallIndex as Interner>⟧.texts)
        printer.old.is_first (indexes_of input.now)
        (W.contents printer.old.writer) result (W.contents printer.new.writer) }
    ensures first { OnOk result (printer.new.is_first ≡ is_first_after printer.old.is_first (indexes_of input.now)) }
    ensures ends { PrintingEnds W.writes W.fails printer.old.writer result printer.new.writer }
{
    print_in_turn(alloc, input, &mut Search { steps }, printer)
}
