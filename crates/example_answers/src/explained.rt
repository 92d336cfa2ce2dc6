//! An index and its answer with explanations.
ghost use Rattle.std.specs.Prelude.{◌≡◌, IfOk, IsErr, None, map, string_bytes};
ghost use Rattle.index_text.specs.Index.{index_of};
ghost use Rattle.index_text.specs.PlainLines.{plain_line};
ghost use Rattle.resolvo_pool.specs.Texts.{IsContinued, IsSameText};
ghost use Rattle.example_answers.specs.Explained.{ExplainsIndex, ExplainsLines};
ghost use Rattle.example_answers.specs.Faults.{unreadable_in};

use crate::index_answer::{AnswerText, answer_fault, write_notes};
use crate::names::names_of;
use crate::why::write_explained;
use example_index::{IndexFault, SmallIndex};
use index_text::Line;
use resolvo_pool::{Interner, ProviderFunctions};
use std::alloc::{AllocError, Global};

/// Answers the index of these lines, in at most `steps` steps: says why each version is picked, or reports why there is
/// no solution. If there is an index, it appends notes on it, as `answer_with_notes` does.
pub fn explain_with_notes(
    alloc: Global,
    lines: &[Line<'_>],
    steps: u64,
    notes: &mut String,
) -> Result<AnswerText, AllocError>
    ensures answers { IfOk result (λ answered. ExplainsLines
        ⟦<SmallIndex as ProviderFunctions>⟧.functions ⟦<SmallIndex as Interner>⟧.texts (map plain_line lines.now)
        answered.outcome (string_bytes answered.text)) }
    ensures unreadable { IfOk result (λ answered. answered.unreadable ≡
        unreadable_in (index_of (map plain_line lines.now)) answered.outcome) }
    ensures notes { IsContinued notes.old notes.new }
    ensures no_new_notes { IsErr (index_of (map plain_line lines.now)) → IsSameText notes.old notes.new }
{
    match example_index::read(alloc, lines) {
        Ok(index) => {
            write_notes(alloc, &index, notes);
            explain_index(alloc, &index, steps)
        }
        Err(fault) => answer_fault(alloc, fault),
    }
}

/// Answers the request of an index.
fn explain_index(alloc: Global, index: &SmallIndex, steps: u64) -> Result<AnswerText, AllocError>
    ensures answers { IfOk result (λ answered. ExplainsIndex
        ⟦<SmallIndex as ProviderFunctions>⟧.functions ⟦<SmallIndex as Interner>⟧.texts index.now
        answered.outcome (string_bytes answered.text)) }
    ensures unreadable { IfOk result (λ answered. answered.unreadable ≡ None) }
{
    let names = names_of(alloc, index)?;
    let mut text = String::new(alloc);
    match write_explained(index, &names, index.request(), steps, &mut text) {
        Ok(outcome) => Ok(AnswerText {
            outcome,
            text,
            unreadable: None,
        }),
        Err(refused) => answer_fault(alloc, IndexFault::Refused(refused)),
    }
}
