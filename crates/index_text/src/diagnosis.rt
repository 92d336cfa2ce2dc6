//! Why a line is unreadable.
ghost use Rattle.std.specs.Prelude.{◌≡◌, false, not, IfOk, IfSome, is_some, map, option_and_then, option_map};
ghost use Rattle.script_text.specs.Lines.{IsPrinted};
ghost use Rattle.index_text.specs.Diagnoses.{IsPlace, IsPlaceIn, is_first, is_new, is_readable, line_of, line_in};
ghost use Rattle.index_text.specs.Expected.{IsTold, expected_in, expected_of_line, in_format};
ghost use Rattle.index_text.specs.Indexes.{words_in};
ghost use Rattle.index_text.specs.Lines.{request_said, version_said};
ghost use Rattle.index_text.specs.PlainLines.{plain_line};
ghost use Rattle.index_text.specs.Printed.{first_line};
ghost use Rattle.index_text.specs.PlainFormats.{plain_format};

use crate::earlier::earlier_line;
use crate::expected::Expected;
use crate::line::Line;
use crate::place::LineKind;
use crate::raw::raw_line;
use crate::reader::Reader;
use crate::stop::line_stop;
use crate::words::without_blanks;
use std::alloc::{AllocError, Global};

/// What is wrong with a line: a column, counted from 1 in bytes, and what was expected there. The column is that of the
/// first byte that isn't printed; else that of the first word that can't stand there, or the one behind the line's end.
/// If the version has a line already, it is that of the first word.
#[derive(Clone, Copy, PartialEq, Eq)]
pub struct Diagnosis {
    pub column: usize,
    pub expected: Expected,
}

/// Why the line of this number is unreadable, among the lines of its index; none if it is read, or isn't there.
pub fn diagnose(
    alloc: Global,
    lines: &[Line<'_>],
    number: u64,
) -> Result<Option<Diagnosis>, AllocError>
    ensures none { IfOk result (λ fault. not (is_some fault) ≡ is_readable number (map plain_line lines.now)) }
    ensures place { IfOk result (λ fault. IfSome fault (IsPlaceIn (line_of number lines.now))) }
    ensures told { IfOk result (λ fault. IfSome fault (IsTold number (map plain_line lines.now))) }
{
    let Some(line) = line_of(lines, number) else {
        return Ok(None);
    };
    let mut reader = Reader::new(alloc, lines)?;
    if is_first(lines, number) {
        request_fault(&mut reader, line)
    } else {
        version_fault(&mut reader, lines, number, line)
    }
}

/// The first line of this number.
fn line_of<'l, 't>(lines: &'l [Line<'t>], number: u64) -> Option<&'l Line<'t>>
    ensures is { option_map (λ line. line.now) result ≡ line_of number lines.now }
    ensures plain { option_map (λ line. plain_line line.now) result ≡ line_in number (map plain_line lines.now) }
{
    for line in lines {
        if line.number == number {
            return Some(line);
        }
    }
    None
}

/// Whether no line is before the line of this number.
fn is_first(lines: &[Line<'_>], number: u64) -> bool
    ensures { result ≡ is_first number (map plain_line lines.now) }
{
    match lines {
        [] => true,
        [first, ..] => number <= first.number,
    }
}

/// Why a line is no request; none if it is one.
fn request_fault<'t>(
    reader: &mut Reader<'t>,
    line: &Line<'t>,
) -> Result<Option<Diagnosis>, AllocError>
    ensures none { IfOk result (λ fault. not (is_some fault) ≡
        is_some (option_and_then (request_said (plain_format reader.old.format)) (plain_line line.now).words)) }
    ensures place { IfOk result (λ fault. IfSome fault (IsPlace (first_line line.now.text.now))) }
    ensures told { IfOk result (λ fault. IfSome fault (λ d. d.expected ≡ in_format (plain_format reader.old.format)
        (expected_in (plain_format reader.old.format) LineKind.Request (plain_line line.now).words))) }
{
    if reader.request(line)?.is_some() {
        return Ok(None);
    }
    Ok(Some(stop_of(reader, raw_line(line.text), LineKind::Request)?))
}

/// Why a line is no version that has no line before; none if it is one.
fn version_fault<'t>(
    reader: &mut Reader<'t>,
    lines: &[Line<'_>],
    number: u64,
    line: &Line<'t>,
) -> Result<Option<Diagnosis>, AllocError>
    ensures none { IfOk result (λ fault. not (is_some fault) ≡
        is_new (plain_format reader.old.format) number (map plain_line lines.now)
        (option_and_then (version_said (plain_format reader.old.format)) (plain_line line.now).words)) }
    ensures place { IfOk result (λ fault. IfSome fault (IsPlace (first_line line.now.text.now))) }
    ensures told { IfOk result (λ fault. IfSome fault (λ d. d.expected ≡ expected_of_line
        (plain_format reader.old.format) number (map plain_line lines.now) (plain_line line.now).words)) }
{
    let bytes = raw_line(line.text);
    let Some(version) = reader.version(line)? else {
        return Ok(Some(stop_of(reader, bytes, LineKind::Version)?));
    };
    let earlier = earlier_line(reader.alloc, &reader.format, lines, number, &version)?;
    Ok(earlier_fault(bytes, earlier))
}

/// Why a version can't have this line: it has one before.
fn earlier_fault(line: &[u8], earlier: Option<u64>) -> Option<Diagnosis>
    requires { IsPrinted line.now }
    ensures some { is_some result ≡ is_some earlier }
    ensures place { IfSome result (IsPlace line.now) }
    ensures told { option_map (λ d. d.expected) result ≡ option_map (λ n. Expected.DuplicateOf n) earlier }
{
    let earlier = earlier?;
    Some(Diagnosis {
        column: line.len() - without_blanks(line).len() + 1,
        expected: Expected::DuplicateOf(earlier),
    })
}

/// The diagnosis of a line that can't be read as one of this kind.
fn stop_of(reader: &Reader<'_>, line: &[u8], kind: LineKind) -> Result<Diagnosis, AllocError>
    ensures place { IfOk result (IsPlace line.now) }
    ensures told { IfOk result (λ d. d.expected ≡ in_format (plain_format reader.now.format)
        (expected_in (plain_format reader.now.format) kind (words_in line.now))) }
{
    let stop = line_stop(reader.alloc, &reader.format, line, kind)?;
    Ok(Diagnosis {
        column: line.len() - stop.left + 1,
        expected: stop.expected.in_format(&reader.format),
    })
}
