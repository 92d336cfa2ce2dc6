//! An example: a program that picks versions, by the search of `picking`.
//!
//! It reads indexes from standard input, or from the files that its command line names (`options`), in the format of
//! `index_text`. For each it prints `request:`, and below it a solution of what is requested, with a line for each
//! version that is picked. If there is no solution, the lines below `request:` are `none`, and one for each reason.
//! If it gives up, or a line is unreadable, it says so, and goes on with the next index. A file that can't be read is
//! named on standard error. The exit status is the worst outcome's: [`Outcome`] has the numbers. With `--why` it
//! also says why each version is picked, and reports why there is no solution; with `--json` each answer is a JSON
//! object on one line (`example_json`). `--dot` and `--certificate` each write a file on indexes without a solution.
#![tactic(auto)]

mod options;
mod output;
mod records;
mod remarks;

ghost use Rattle.std.specs.Prelude.{◌≡◌};
ghost use Rattle.std.specs.Process.{exit_status};
ghost use Rattle.example_answers.specs.Status.{status_of};

use anyhow::{Result, anyhow};
use example_answers::{Outcome, PrintFault};
use example_json::JsonAnswers;
use options::Options;
use output::Output;
use remarks::{Explaining, Remarking};
use std::alloc::Global;
use std::io::{Read, Write};
use std::process::ExitCode;
use std::rt::{Files, Runtime};
use std::{fs, io};

/// A text, and what it is called.
#[derive(Clone, Copy)]
struct Input<'n, 't> {
    name: &'n str,
    bytes: &'t [u8],
}

fn main(rt: HostRuntime) -> ExitCode {
    match obey(&rt) {
        Ok(worst) => exit_code(worst),
        Err(fault) => {
            let _ = eprintln!(rt; "{fault}");
            exit_code(Outcome::Failed)
        }
    }
}

/// The exit code of a program whose worst outcome is this one.
fn exit_code(worst: Outcome) -> ExitCode
    ensures { exit_status result ≡ status_of worst }
{
    ExitCode::from(worst.status())
}

/// Does what the command line says. Returns the worst outcome.
fn obey(rt: &(impl Runtime + AllocGlobal)) -> Result<Outcome> {
    let alloc = rt.alloc();
    let words = std::env::args(rt).map_err(|fault| anyhow!("command line: {fault}"))?;
    let words: Vec<String> = words.collect(alloc)?;
    match options::read(alloc, words.as_slice()) {
        Ok(options) => answer_inputs(rt, alloc, &options),
        Err(fault) => say(rt, alloc, &fault),
    }
}

/// Prints the help or the version, if the command line asks for one; otherwise the first line of its error, to standard
/// error.
fn say(rt: &(impl Print + Eprint), alloc: Global, fault: &clap::Error) -> Result<Outcome> {
    if !fault.use_stderr() {
        fault.print(rt)?;
        return Ok(Outcome::Picked);
    }
    let text = format!(in alloc; "{fault}")?;
    eprintln!(rt; "{}", text.as_str().lines().next().unwrap_or(""))?;
    Ok(Outcome::Failed)
}

/// Answers what is in the files, or in standard input if there is none. A file that can't be read is named on standard
/// error, and the next one is answered. Returns the worst outcome.
fn answer_inputs(
    rt: &(impl Runtime + AllocGlobal),
    alloc: Global,
    options: &Options<'_>,
) -> Result<Outcome> {
    let mut worst = Outcome::Picked;
    let mut output = Output::new(alloc, options, io::writer(rt));
    if options.files.is_empty() {
        let mut bytes = Vec::new(alloc);
        if let Err(fault) = rt.reader().read_to_end(&mut bytes) {
            return Err(anyhow!("standard input: {fault}"));
        }
        let input = Input {
            name: "standard input",
            bytes: &bytes,
        };
        worst = answer_input(rt, alloc, input, options, &mut output)?;
    }
    for file in &options.files {
        match fs::read(rt, *file) {
            Ok(bytes) => {
                let input = Input {
                    name: *file,
                    bytes: &bytes,
                };
                worst = worst.worse(answer_input(rt, alloc, input, options, &mut output)?);
            }
            Err(fault) => {
                eprintln!(rt; "{file:?}: {fault}")?;
                worst = Outcome::Failed;
            }
        }
    }
    output.end(rt, options)?;
    Ok(worst)
}

/// Answers each index of an input on standard output. Returns the worst outcome.
fn answer_input<W: Write>(
    rt: &impl Eprint,
    alloc: Global,
    input: Input<'_, '_>,
    options: &Options<'_>,
    output: &mut Output<'_, W>,
) -> Result<Outcome> {
    let steps = options.steps;
    let remarking = Remarking::new(rt, steps, input.name);
    let printed = if options.json {
        let answers = JsonAnswers::new(input.name, steps);
        output.print(alloc, input.bytes, answers, steps)
    } else if options.why {
        output.print(alloc, input.bytes, Explaining(remarking), steps)
    } else {
        output.print(alloc, input.bytes, remarking, steps)
    };
    match printed {
        Ok(worst) => Ok(worst),
        Err(PrintFault::Memory(refused)) => Err(anyhow!("{refused}")),
        Err(PrintFault::Device(fault)) => Err(anyhow!("standard output: {fault}")),
    }
}
