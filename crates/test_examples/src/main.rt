//! The worked examples: scripts with their answers, as files. Standard input has the examples, each of which is a
//! heading, a line that begins with `== `, and below it a script. What is printed is each heading with the script's
//! answer below it, and a line that tells the exit status where it isn't 0.
//!
//! Each script is also read and written by devices that are slow, or full (`devices`), and by such as fail at a call,
//! at each in turn (`failing`): what is answered otherwise by them than it is to be is printed too. Last come answers
//! to scripts that are long (`long`).
#![tactic(auto)]

mod devices;
mod failing;
mod long;

use crate::devices::{answered, push_unlike};
use crate::failing::push_unlike as push_unlike_failing;
use crate::long::push_long;
use script_text::{ScriptFault, read_whole, write_rest};
use std::alloc::{AllocError, Global};
use std::io;
use std::io::{Read, Write};
use std::process::ExitCode;

fn main(rt: HostRuntime) -> ExitCode {
    match answer_all(rt.alloc(), &mut rt.reader(), &mut io::writer(&rt)) {
        Ok(()) => ExitCode::SUCCESS,
        Err(_) => ExitCode::FAILURE,
    }
}

/// Answers each example of the reader.
fn answer_all<R: Read, W: Write>(
    alloc: Global,
    reader: &mut R,
    writer: &mut W,
) -> Result<(), ScriptFault> {
    let text = read_whole(alloc, reader)?;
    let mut answers = Vec::new(alloc);
    push_answers(alloc, &text, &mut answers)?;
    push_long(alloc, &mut answers)?;
    write_rest(&mut answers, writer)
}

fn push_answers(alloc: Global, text: &[u8], answers: &mut Vec<u8>) -> Result<(), AllocError> {
    let mut rest = text;
    // A heading has one byte at least.
    for _ in 0..text.len() {
        let Some((heading, below)) = next_line(rest) else {
            return Ok(());
        };
        let (script, others) = until_heading(below);
        rest = others;
        answers.extend_from_slice(heading)?;
        push_answer(alloc, script, answers)?;
    }
    Ok(())
}

/// The first line with its line feed, and what comes behind it.
fn next_line(text: &[u8]) -> Option<(&[u8], &[u8])> {
    if text.is_empty() {
        return None;
    }
    let end = match text.iter().position(|byte| *byte == b'\n') {
        Some(place) => place + 1,
        None => text.len(),
    };
    Some(text.split_at(end))
}

/// The lines before the next heading, and what comes from it on.
fn until_heading(text: &[u8]) -> (&[u8], &[u8]) {
    for place in 0..text.len() {
        if is_heading(text, place) {
            return text.split_at(place);
        }
    }
    (text, &[])
}

/// Whether a heading begins at this place.
fn is_heading(text: &[u8], place: usize) -> bool {
    let is_first = match place.checked_sub(1) {
        Some(before) => text.get(before) == Some(&b'\n'),
        None => true,
    };
    match text.get(place..) {
        Some(rest) => is_first && rest.starts_with(b"== "),
        None => false,
    }
}

/// Puts the answer of a script after those before it, and what devices were answered otherwise.
fn push_answer(alloc: Global, script: &[u8], answers: &mut Vec<u8>) -> Result<(), AllocError> {
    let mut reader = script;
    let (answer, number) = answered(alloc, &mut reader);
    answers.extend_from_slice(&answer)?;
    if number > 0 {
        answers.extend_from_slice(b"exit ")?;
        answers.push(b'0'.saturating_add(number))?;
        answers.push(b'\n')?;
    }
    push_unlike(alloc, script, (&answer, number), answers)?;
    push_unlike_failing(alloc, script, (&answer, number), answers)
}
