//! Messages on standard error: why a line is unreadable, and notes on an index.
ghost use Rattle.example_answers.specs.Answers.{AnswersLines};
ghost use Rattle.example_answers.specs.Explained.{ExplainsLines};

use example_answers::{AnswerText, Answering, answer_with_notes, explain_with_notes};
use example_index::SmallIndex;
use index_text::{Line, diagnose};
use resolvo_pool::{Interner, ProviderFunctions};
use std::alloc::{AllocError, Global};

/// Answers indexes by the search for the best solution, and writes messages about them to standard error.
#[derive(Drop)]
pub struct Remarking<'r, 'n, R: Eprint> {
    rt: &'r R,
    /// How many steps a search makes at most.
    steps: u64,
    /// What the input is called.
    name: &'n str,
}

impl<'r, 'n, R: Eprint> Remarking<'r, 'n, R> {
    /// Answers the indexes of the input with this name.
    pub fn new(rt: &'r R, steps: u64, name: &'n str) -> Self {
        Remarking { rt, steps, name }
    }

    /// Writes the messages that go with this answer to the index of these lines.
    fn say(&self, alloc: Global, lines: &[Line<'_>], answered: &AnswerText, notes: &String) {
        say_fault(self.rt, alloc, self.name, lines, answered.unreadable);
        say_notes(self.rt, self.name, lines, notes);
    }
}

impl<R: Eprint> Answering for Remarking<'_, '_, R> {
    ghost answers = { AnswersLines ⟦<SmallIndex as ProviderFunctions>⟧.functions ⟦<SmallIndex as Interner>⟧.texts };

    fn answer(&mut self, alloc: Global, lines: &[Line<'_>]) -> Result<AnswerText, AllocError> {
        let mut notes = String::new(alloc);
        let answered = answer_with_notes(alloc, lines, self.steps, &mut notes)?;
        self.say(alloc, lines, &answered, &notes);
        Ok(answered)
    }
}

/// The same, with explanations in the answers.
#[derive(Drop)]
pub struct Explaining<'r, 'n, R: Eprint>(pub Remarking<'r, 'n, R>);

impl<R: Eprint> Answering for Explaining<'_, '_, R> {
    ghost answers = { ExplainsLines ⟦<SmallIndex as ProviderFunctions>⟧.functions ⟦<SmallIndex as Interner>⟧.texts };

    fn answer(&mut self, alloc: Global, lines: &[Line<'_>]) -> Result<AnswerText, AllocError> {
        let mut notes = String::new(alloc);
        let answered = explain_with_notes(alloc, lines, self.0.steps, &mut notes)?;
        self.0.say(alloc, lines, &answered, &notes);
        Ok(answered)
    }
}

/// Writes why a line is unreadable. Nothing is written if memory is refused or standard error fails.
fn say_fault(
    rt: &impl Eprint,
    alloc: Global,
    name: &str,
    lines: &[Line<'_>],
    unreadable: Option<u64>,
) {
    if let Some(number) = unreadable {
        if let Ok(fault) = fault(alloc, name, lines, number) {
            let _ = eprint!(rt; "{fault}");
        }
    }
}

/// Writes the notes on the index of these lines. A failure of standard error is ignored.
fn say_notes(rt: &impl Eprint, name: &str, lines: &[Line<'_>], notes: &String) {
    let first = lines.first().map_or(1, |line| line.number);
    for note in notes.as_str().lines() {
        let _ = eprintln!(rt; "{name}:{first}: note: {note}");
    }
}

/// The message on the line with this number: where it is unreadable, and what was expected there. Empty if it is
/// readable.
fn fault(alloc: Global, name: &str, lines: &[Line<'_>], number: u64) -> Result<String, AllocError> {
    match diagnose(alloc, lines, number)? {
        Some(fault) => {
            let (column, expected) = (fault.column, fault.expected);
            format!(in alloc; "{name}:{number}:{column}: {expected}\n")
        }
        None => Ok(String::new(alloc)),
    }
}
