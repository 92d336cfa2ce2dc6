//! What is said of indexes.
use crate::reasons::write_reasons;
use example_answers::{Outcome, answer_with_notes, append_graph, explain_with_notes};
use example_index::{IndexFault, SmallIndex};
use index_text::{Line, diagnose};
use resolvo_ids::{DenseIndex, NameId, StoreError};
use resolvo_pool::Interner;
use std::alloc::{AllocError, Global};

/// More than any search here uses up.
pub(crate) const STEPS: u64 = 1 << 20;

/// Writes what is said of each index of a text, with an empty line between two.
pub(crate) fn write_indexes(
    alloc: Global,
    input: &[u8],
    text: &mut String,
) -> Result<(), IndexFault> {
    let indexes = index_text::split(alloc, input)?;
    for (place, lines) in indexes.iter().enumerate() {
        if place > 0 {
            text.push_str("\n")?;
        }
        write_lines(alloc, lines, text)?;
    }
    Ok(())
}

/// Writes what is said of the index of these lines.
fn write_lines(alloc: Global, lines: &[Line<'_>], text: &mut String) -> Result<(), IndexFault> {
    match example_index::read(alloc, lines) {
        Ok(index) => {
            write_index(alloc, &index, text)?;
            drop(index);
            Ok(write_answer(alloc, lines, text)?)
        }
        Err(IndexFault::Unreadable(number)) => Ok(write_fault(alloc, lines, number, text)?),
        Err(refused) => Err(refused),
    }
}

/// Writes why an index has no solution, and how much of its request to keep.
fn write_index(alloc: Global, index: &SmallIndex, text: &mut String) -> Result<(), StoreError> {
    let names = names_of(alloc, index)?;
    write_reasons(alloc, index, &names, index.request(), text)
}

/// All names of an index. They stand for the numbers from 0 on.
fn names_of(alloc: Global, index: &SmallIndex) -> Result<Vec<NameId>, StoreError> {
    let mut names = Vec::new(alloc);
    for place in 0..u32::MAX as usize {
        let name = NameId::from_index(place);
        if !index.knows_name(name) {
            break;
        }
        names.push(name)?;
    }
    Ok(names)
}

/// Writes the notes on an index, its answer with explanations, and, if there is no solution, the graph.
fn write_answer(alloc: Global, lines: &[Line<'_>], text: &mut String) -> Result<(), AllocError> {
    let mut notes = String::new(alloc);
    drop(answer_with_notes(alloc, lines, STEPS, &mut notes)?);
    text.push_str(&notes)?;
    let explained = explain_with_notes(alloc, lines, STEPS, &mut notes)?;
    text.push_str(&explained.text)?;
    match explained.outcome {
        Outcome::NoSolution => append_graph(alloc, lines, STEPS, text),
        _ => Ok(()),
    }
}

/// Writes where the line of this number is unreadable, and what was expected there.
fn write_fault(
    alloc: Global,
    lines: &[Line<'_>],
    number: u64,
    text: &mut String,
) -> Result<(), AllocError> {
    match diagnose(alloc, lines, number)? {
        Some(fault) => {
            let (column, expected) = (fault.column, fault.expected);
            text.push_str(&format!(in alloc; "{number}:{column}: {expected}\n")?)
        }
        None => text.push_str("no fault\n"),
    }
}
