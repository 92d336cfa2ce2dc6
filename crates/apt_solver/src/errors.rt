//! That there is no answer, or why none is given, as apt reads it.
ghost use Rattle.std.specs.Prelude.{◌≡◌, ◌++◌, IfOk, OnOk};
ghost use Rattle.apt_solver.specs.Errors as spec;

use debian_scenario::{ReadError, ScenarioFault};
use std::alloc::{AllocError, Global};

/// The stanza that no packages are an answer, with the reasons.
pub(crate) fn none_text(alloc: Global, reasons: &str) -> Result<Vec<u8>, AllocError>
    ensures { IfOk result (λ said. said.items ≡ spec.none_text reasons.now) }
{
    error_text(alloc, "there is no solution", reasons)
}

/// The stanza of a scenario that isn't answered, and why.
pub(crate) fn fault_text(alloc: Global, fault: &str) -> Result<Vec<u8>, AllocError>
    ensures { IfOk result (λ said. said.items ≡ spec.not_answered fault.now) }
{
    error_text(alloc, "not answered: ", fault)
}

/// The stanza of an error, whose message has two parts. A line feed of it begins a further line, and ends no field.
fn error_text(alloc: Global, kind: &str, rest: &str) -> Result<Vec<u8>, AllocError>
    ensures { IfOk result (λ said. said.items ≡ spec.error_text kind.now rest.now) }
{
    let mut said = Vec::new(alloc);
    said.extend_from_slice(b"Error: apt_solver\nMessage: ")?;
    write_lines(kind.as_bytes(), &mut said)?;
    write_lines(rest.as_bytes(), &mut said)?;
    said.extend_from_slice(b"\n\n")?;
    Ok(said)
}

/// Writes a text, with a blank behind each line feed.
fn write_lines(text: &[u8], said: &mut Vec<u8>) -> Result<(), AllocError>
    ensures { OnOk result (said.new.items ≡ said.old.items ++ spec.lines_text text.now) }
{
    for byte in text {
        said.push(*byte)?;
        if *byte == b'\n' {
            said.push(b' ')?;
        }
    }
    Ok(())
}

/// The stanza of a scenario that can't be read.
pub(crate) fn unread_text(alloc: Global, error: ReadError) -> Result<Vec<u8>, AllocError>
    ensures { IfOk result (λ said. said.items ≡ spec.unread_text error) }
{
    match error {
        ReadError::OutOfMemory => fault_text(alloc, "out of memory"),
        ReadError::Faulty(ScenarioFault::Request(fault)) => {
            let why = format!(in alloc; "the request of the scenario: {fault}")?;
            fault_text(alloc, &why)
        }
        ReadError::Faulty(ScenarioFault::Package(before, fault)) => {
            let why = format!(in alloc; "package {before} of the scenario: {fault}")?;
            fault_text(alloc, &why)
        }
    }
}
