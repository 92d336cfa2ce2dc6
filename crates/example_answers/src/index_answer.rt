//! An index and its answer.
ghost use Rattle.std.specs.Prelude.{◌≡◌, ℕ, Result, IfOk, IsErr, None, map, string_bytes};
ghost use Rattle.index_text.specs.Index.{IndexText, index_of};
ghost use Rattle.index_text.specs.PlainLines.{plain_line, plain_lines};
ghost use Rattle.resolvo_pool.specs.Texts.{IsContinued, IsSameText};
ghost use Rattle.example_answers.specs.Answers.{AnswersIndex, AnswersLines, AnswersText, IsAnswerOf};
ghost use Rattle.example_answers.specs.Answers.{first_number, index_in, index_of_one, refused_text};
ghost use Rattle.example_answers.specs.Faults.{IsFault, SaysFault, unreadable_in};

use crate::outcome::Outcome;
use crate::refusal::words_of;
use crate::writing::write_answer;
use example_index::{IndexFault, SmallIndex};
use index_text::Line;
use resolvo_ids::StoreError;
use resolvo_pool::{Interner, ProviderFunctions};
use std::alloc::{AllocError, Global};

/// What became of an index, and the text that says so.
#[derive(Debug, Drop)]
pub struct AnswerText {
    pub outcome: Outcome,
    pub text: String,
    /// The number of the line that can't be read, if that is why there is no answer.
    pub unreadable: Option<u64>,
}

/// Answers the index of a text, in no more steps than these. A text without an index is unreadable at its first line,
/// one that has several at the line where the second begins.
pub fn answer_text(alloc: Global, text: &[u8], steps: u64) -> Result<AnswerText, AllocError>
    ensures answers { IfOk result (λ answered. AnswersText
        ⟦<SmallIndex as ProviderFunctions>⟧.functions ⟦<SmallIndex as Interner>⟧.texts text.now
        answered.outcome (string_bytes answered.text)) }
    ensures unreadable { IfOk result (λ answered. answered.unreadable ≡
        unreadable_in (index_in text.now) answered.outcome) }
{
    match index_text::split(alloc, text) {
        Ok(indexes) => answer_one(alloc, &indexes, steps),
        Err(_) => Ok(AnswerText {
            outcome: Outcome::GaveUp,
            text: refused_text(alloc, StoreError::OutOfMemory)?,
            unreadable: None,
        }),
    }
}

/// Answers the one index of a text.
fn answer_one(
    alloc: Global,
    indexes: &[Vec<Line<'_>>],
    steps: u64,
) -> Result<AnswerText, AllocError>
    ensures answers { IfOk result (λ answered. IsAnswerOf
        ⟦<SmallIndex as ProviderFunctions>⟧.functions ⟦<SmallIndex as Interner>⟧.texts
        (index_of_one (map plain_lines indexes.now))
        answered.outcome (string_bytes answered.text)) }
    ensures unreadable { IfOk result (λ answered. answered.unreadable ≡
        unreadable_in (index_of_one (map plain_lines indexes.now)) answered.outcome) }
{
    match indexes {
        [] => answer_fault(alloc, IndexFault::Unreadable(1)),
        [lines] => answer(alloc, lines, steps),
        [_, next, ..] => answer_fault(alloc, IndexFault::Unreadable(first_number(next))),
    }
}

/// The number of the first line, and 1 if there is none.
pub fn first_number(lines: &[Line<'_>]) -> u64
    ensures { result ≡ first_number (map plain_line lines.now) }
{
    match lines {
        [] => 1,
        [line, ..] => line.number,
    }
}

/// Answers the index of these lines, in no more steps than these.
pub fn answer(alloc: Global, lines: &[Line<'_>], steps: u64) -> Result<AnswerText, AllocError>
    ensures answers { IfOk result (λ answered. AnswersLines
        ⟦<SmallIndex as ProviderFunctions>⟧.functions ⟦<SmallIndex as Interner>⟧.texts (map plain_line lines.now)
        answered.outcome (string_bytes answered.text)) }
    ensures unreadable { IfOk result (λ answered. answered.unreadable ≡
        unreadable_in (index_of (map plain_line lines.now)) answered.outcome) }
{
    match example_index::read(alloc, lines) {
        Ok(index) => answer_index(alloc, &index, steps),
        Err(fault) => answer_fault(alloc, fault),
    }
}

/// The same; and if there is an index, it appends notes on it, a line each, as far as there is memory: version sets
/// that no version is in.
pub fn answer_with_notes(
    alloc: Global,
    lines: &[Line<'_>],
    steps: u64,
    notes: &mut String,
) -> Result<AnswerText, AllocError>
    ensures answers { IfOk result (λ answered. AnswersLines
        ⟦<SmallIndex as ProviderFunctions>⟧.functions ⟦<SmallIndex as Interner>⟧.texts (map plain_line lines.now)
        answered.outcome (string_bytes answered.text)) }
    ensures unreadable { IfOk result (λ answered. answered.unreadable ≡
        unreadable_in (index_of (map plain_line lines.now)) answered.outcome) }
    ensures notes { IsContinued notes.old notes.new }
    ensures no_new_notes { IsErr (index_of (map plain_line lines.now)) → IsSameText notes.old notes.new }
{
    match example_index::read(alloc, lines) {
        Ok(index) => {
            write_notes(alloc, &index, notes);
            answer_index(alloc, &index, steps)
        }
        Err(fault) => answer_fault(alloc, fault),
    }
}

/// Answers the request of an index.
fn answer_index(alloc: Global, index: &SmallIndex, steps: u64) -> Result<AnswerText, AllocError>
    ensures answers { IfOk result (λ answered. AnswersIndex
        ⟦<SmallIndex as ProviderFunctions>⟧.functions ⟦<SmallIndex as Interner>⟧.texts index.now
        answered.outcome (string_bytes answered.text)) }
    ensures unreadable { IfOk result (λ answered. answered.unreadable ≡ None) }
{
    let mut text = String::new(alloc);
    match write_answer(alloc, index, index.request(), steps, &mut text) {
        Ok(outcome) => Ok(AnswerText {
            outcome,
            text,
            unreadable: None,
        }),
        Err(refused) => answer_fault(alloc, IndexFault::Refused(refused)),
    }
}

/// Says why there is no answer.
pub(crate) fn answer_fault(alloc: Global, fault: IndexFault) -> Result<AnswerText, AllocError>
    ensures says { IfOk result (λ answered. SaysFault fault answered.outcome (string_bytes answered.text)) }
    ensures unreadable { IfOk result (λ answered. (said : Result IndexText ℕ) → IsFault said fault →
        answered.unreadable ≡ unreadable_in said answered.outcome) }
{
    match fault {
        IndexFault::Unreadable(number) => Ok(AnswerText {
            outcome: Outcome::Unreadable,
            text: format!(in alloc; "line {number} unreadable\n")?,
            unreadable: Some(number),
        }),
        IndexFault::Refused(refused) => Ok(AnswerText {
            outcome: Outcome::GaveUp,
            text: refused_text(alloc, refused)?,
            unreadable: None,
        }),
    }
}

/// Says that memory or ids were refused.
fn refused_text(alloc: Global, refused: StoreError) -> Result<String, AllocError>
    ensures { IfOk result (λ text. string_bytes text ≡ refused_text refused) }
{
    let words = words_of(refused);
    format!(in alloc; "gave up: {words}\n")
}

/// Appends notes on an index, as far as there is memory.
pub(crate) fn write_notes(alloc: Global, index: &SmallIndex, notes: &mut String)
    ensures { IsContinued notes.old notes.new }
{
    if let Ok(sets) = index.empty_sets(alloc) {
        let _ = index.write_notes(alloc, &sets, notes);
    }
}
