//! A solver for apt: an external one of EDSP, whose answers are checked before they are given.
//!
//! It reads a scenario from standard input, and answers on standard output what is installed and what is removed, or an
//! error with the reasons (`answering`). `finding` makes a provider of the scenario (`debian_provider`), and searches
//! for the solution that is the best by apt's wishes (`solving`, `wishes`, `recommending`). What it finds are packages.
//! `ordering` brings them into an order in which each comes after its cause. Checks over the stanzas confirm that they
//! are an answer (`debian_directory`), have causes (`causes`), and change no version in vain (`versions`).
//! `difference` says how they differ from what is installed. So that an answer is one doesn't rest on the search. That
//! there is none, or none that keeps more, rests on the provider, which leaves out nothing that an answer may have,
//! and on the check of what the search refutes. The exit status is 0 in both cases; it is 1 if standard input or
//! output fails, or memory ends.
#![tactic(auto)]

mod answering;
mod causes;
mod difference;
mod errors;
mod finding;
mod ordering;
mod reasons;
mod recommending;
mod solving;
mod versions;
mod wishes;

use answering::answer;
use anyhow::{Result, anyhow};
use std::io::{self, Read, Write};

fn main(rt: HostRuntime) -> Result<()> {
    let alloc = rt.alloc();
    let mut text = Vec::new(alloc);
    if let Err(fault) = rt.reader().read_to_end(&mut text) {
        return Err(anyhow!("standard input: {fault}"));
    }
    let said = answer(alloc, &text)?;
    match io::writer(&rt).write_all(&said) {
        Ok(()) => Ok(()),
        Err(fault) => Err(anyhow!("standard output: {fault}")),
    }
}
