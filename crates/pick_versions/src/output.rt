//! What the program writes: answers on standard output, and records to files.
use crate::options::Options;
use crate::records::{Recording, Records};
use anyhow::{Result, anyhow};
use example_answers::{Answering, Outcome, PrintFault, Printer, print_in_turn};
use std::alloc::Global;
use std::io::Write;
use std::rt::Files;

/// Answers, and records.
#[derive(Drop)]
pub struct Output<'o, W: Write> {
    printer: Printer<W>,
    records: Records<'o>,
}

impl<'o, W: Write> Output<'o, W> {
    /// Nothing yet.
    pub fn new(alloc: Global, options: &Options<'o>, writer: W) -> Self {
        Output {
            printer: Printer::new(writer),
            records: Records::new(alloc, options),
        }
    }

    /// Prints the answer of each index of an input, and records why there is no solution. Returns the worst outcome.
    pub fn print<A: Answering + Drop>(
        &mut self,
        alloc: Global,
        input: &[u8],
        answering: A,
        steps: u64,
    ) -> Result<Outcome, PrintFault> {
        let mut recording = Recording {
            answering,
            steps,
            records: &mut self.records,
        };
        print_in_turn(alloc, input, &mut recording, &mut self.printer)
    }

    /// Ends the last line of JSON, and writes the files.
    pub fn end(&mut self, rt: &impl Files, options: &Options<'_>) -> Result<()> {
        if options.json {
            if let Err(fault) = self.printer.end_line() {
                return Err(anyhow!("standard output: {fault}"));
            }
        }
        self.records.write(rt)
    }
}
