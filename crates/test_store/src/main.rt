//! Trials of clause stores, and of the caches that they stand on. Standard input has trials one after the other: a line
//! `trial` with its number and the ways in which it is played, and below it a script whose names are numbers. What is
//! printed is, under the same line, what a store answered; and where a way of playing it told something else, that too.
//!
//! A store counts what its provider is asked, and its provider may stop it (`test_support`). Each trial is played by
//! steps and in one run, by dense ids and by sparse ones; and by steps under each setting of `Standard`, and both by
//! turns. The ways, and what is done besides, are
//!
//! - `first`, `second`, `after`, `other`, `always`: the provider stops, at its first question alone, at its second, at
//!   each but the first, at every other one, at each;
//! - `few`: it is played once more in memory that refuses a request at every few commands, undos and decisions among
//!   them;
//! - `each`: and once more for each request of each command, which is refused: beside a twin to which that command
//!   isn't given; what a refused `saturate` leaves is looked at before it is given again;
//! - `over`: where `each` stands too, a command that was refused by steps isn't given again but passed over, once more
//!   for each request.
//!
//! A trial with the word `texts` prints the texts of its clauses; one with the word `cache` has questions to a cache in
//! place of commands (`cache`).
#![tactic(auto)]

mod answers;
mod cache;
mod each;
mod few;
mod free;
mod given;
mod implied;
mod listed;
mod obeys;
mod played;
mod task;
mod trial;

use crate::trial::push_answers;
use script_text::{ScriptFault, read_whole, write_rest};
use std::alloc::Global;
use std::io;
use std::io::{Read, Write};
use std::process::ExitCode;

fn main(rt: HostRuntime) -> ExitCode {
    match try_all(rt.alloc(), &mut rt.reader(), &mut io::writer(&rt)) {
        Ok(()) => ExitCode::SUCCESS,
        Err(_) => ExitCode::FAILURE,
    }
}

/// Plays each trial of the reader.
fn try_all<R: Read, W: Write>(
    alloc: Global,
    reader: &mut R,
    writer: &mut W,
) -> Result<(), ScriptFault> {
    let text = read_whole(alloc, reader)?;
    let mut waiting = Vec::new(alloc);
    match push_answers(alloc, &text, &mut waiting) {
        Ok(()) => write_rest(&mut waiting, writer),
        Err(_) => Err(ScriptFault::Memory),
    }
}
