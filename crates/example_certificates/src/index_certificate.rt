//! The certificate of an index.
ghost use Rattle.std.specs.Prelude.{◌≡◌, OnOk, map};
ghost use Rattle.index_text.specs.PlainLines.{plain_line};
ghost use Rattle.resolvo_pool.specs.Texts.{IsContinuedBy};
ghost use Rattle.example_answers.specs.Answers.{first_number};
ghost use Rattle.example_certificates.specs.Certificates.{CertifiesLines, CertifiesRequest};

use crate::certifying::certificate;
use example_index::SmallIndex;
use index_text::Line;
use resolvo_pool::{Interner, ProviderFunctions};
use std::alloc::{AllocError, Global};

/// Appends a certificate that the index of these lines has no solution, if a search in no more steps than these answers
/// that it has none. An error says that it answers otherwise, or that memory was refused.
pub fn append_certificate(
    alloc: Global,
    lines: &[Line<'_>],
    steps: u64,
    certificates: &mut String,
) -> Result<(), AllocError>
    ensures { OnOk result (IsContinuedBy certificates.old certificates.new (CertifiesLines
        ⟦<SmallIndex as ProviderFunctions>⟧.functions ⟦<SmallIndex as Interner>⟧.texts (map plain_line lines.now))) }
{
    let Ok(index) = example_index::read(alloc, lines) else {
        return Err(AllocError);
    };
    append_of_request(alloc, &index, steps, first_number(lines), certificates)
}

/// Appends a certificate that the request of an index, which is in this line, has no solution.
fn append_of_request(
    alloc: Global,
    index: &SmallIndex,
    steps: u64,
    line: u64,
    certificates: &mut String,
) -> Result<(), AllocError>
    ensures { OnOk result (IsContinuedBy certificates.old certificates.new (CertifiesRequest
        ⟦<SmallIndex as ProviderFunctions>⟧.functions ⟦<SmallIndex as Interner>⟧.texts line index.now)) }
{
    match certificate(alloc, index, index.request(), steps, line) {
        Ok(Some(text)) => {
            certificates.push_str(&text)?;
            Ok(())
        }
        _ => Err(AllocError),
    }
}

/// The number of the first line.
fn first_number(lines: &[Line<'_>]) -> u64
    ensures { result ≡ first_number (map plain_line lines.now) }
{
    match lines {
        [] => 1,
        [line, ..] => line.number,
    }
}
