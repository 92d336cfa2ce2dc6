//! What is recorded of indexes without a solution, for files.
ghost use Rattle.std.specs.Prelude.{◌≡◌, [], IfOk, OnOk, map, option_map, string_bytes};
ghost use Rattle.index_text.specs.PlainLines.{plain_line};
ghost use Rattle.example_answers.specs.Shown.{ShowsLines};
ghost use Rattle.example_certificates.specs.Certificates.{CertifiesLines};
ghost use Rattle.pick_versions.specs.Records.{IsAdded, IsRecorded};

use crate::options::Options;
use anyhow::{Result, anyhow};
use example_answers::{AnswerText, Answering, Outcome, append_graph};
use example_certificates::append_certificate;
use example_index::SmallIndex;
use index_text::Line;
use resolvo_pool::{Interner, ProviderFunctions};
use std::alloc::{AllocError, Global};
use std::fs;
use std::rt::Files;

/// A file, and the text that it is to have so far.
#[derive(Drop)]
struct Record<'o> {
    file: &'o str,
    text: String,
}

impl<'o> Record<'o> {
    /// Nothing yet.
    fn new(alloc: Global, file: &'o str) -> Self
        ensures file { result.file ≡ file.entry }
        ensures text { string_bytes result.text ≡ [] }
    {
        Record {
            file,
            text: String::new(alloc),
        }
    }

    /// Writes the file.
    fn write(&self, rt: &impl Files) -> Result<()> {
        match fs::write(rt, self.file, self.text.as_str()) {
            Ok(()) => Ok(()),
            Err(fault) => Err(anyhow!("{:?}: {fault}", self.file)),
        }
    }
}

/// What is recorded, if it is asked for.
#[derive(Drop)]
pub struct Records<'o> {
    graphs: Option<Record<'o>>,
    certificates: Option<Record<'o>>,
}

impl<'o> Records<'o> {
    /// Nothing yet, of what is asked for.
    pub fn new(alloc: Global, options: &Options<'o>) -> Self
        ensures graphs { option_map (λ kept. kept.file) result.graphs ≡ options.now.dot }
        ensures certificates { option_map (λ kept. kept.file) result.certificates ≡ options.now.certificate }
    {
        Records {
            graphs: options.dot.map(|file| Record::new(alloc, file)),
            certificates: options.certificate.map(|file| Record::new(alloc, file)),
        }
    }

    /// Writes the files.
    pub fn write(&self, rt: &impl Files) -> Result<()> {
        if let Some(graphs) = &self.graphs {
            graphs.write(rt)?;
        }
        if let Some(certificates) = &self.certificates {
            certificates.write(rt)?;
        }
        Ok(())
    }

    /// Records why the index of these lines has no solution.
    fn add(&mut self, alloc: Global, lines: &[Line<'_>], steps: u64) -> Result<(), AllocError>
        ensures graphs { OnOk result (IsAdded self.old.graphs self.new.graphs (ShowsLines
            ⟦<SmallIndex as ProviderFunctions>⟧.functions ⟦<SmallIndex as Interner>⟧.texts
            (map plain_line lines.now))) }
        ensures certificates { OnOk result (IsAdded self.old.certificates self.new.certificates (CertifiesLines
            ⟦<SmallIndex as ProviderFunctions>⟧.functions ⟦<SmallIndex as Interner>⟧.texts
            (map plain_line lines.now))) }
    {
        if let Some(graphs) = &mut self.graphs {
            append_graph(alloc, lines, steps, &mut graphs.text)?;
        }
        if let Some(certificates) = &mut self.certificates {
            append_certificate(alloc, lines, steps, &mut certificates.text)?;
        }
        Ok(())
    }
}

/// Another implementation's answers; and why indexes have no solution is recorded.
#[derive(Drop)]
pub struct Recording<'r, 'o, A: Answering> {
    pub answering: A,
    /// How many steps a search makes at most.
    pub steps: u64,
    pub records: &'r mut Records<'o>,
}

impl<A: Answering> Answering for Recording<'_, '_, A> {
    ghost answers = { A.answers };

    fn answer(&mut self, alloc: Global, lines: &[Line<'_>]) -> Result<AnswerText, AllocError>
        ensures answers { IfOk result (λ answered.
            A.answers (map plain_line lines.now) answered.outcome (string_bytes answered.text)) }
        ensures graphs { IfOk result (λ answered. IsRecorded answered.outcome self.old.records.now.graphs
            self.new.records.now.graphs (ShowsLines ⟦<SmallIndex as ProviderFunctions>⟧.functions
            ⟦<SmallIndex as Interner>⟧.texts (map plain_line lines.now))) }
        ensures certificates { IfOk result (λ answered. IsRecorded answered.outcome
            self.old.records.now.certificates self.new.records.now.certificates (CertifiesLines
            ⟦<SmallIndex as ProviderFunctions>⟧.functions ⟦<SmallIndex as Interner>⟧.texts
            (map plain_line lines.now))) }
    {
        let answered = self.answering.answer(alloc, lines)?;
        if answered.outcome == Outcome::NoSolution {
            self.records.add(alloc, lines, self.steps)?;
        }
        Ok(answered)
    }
}
