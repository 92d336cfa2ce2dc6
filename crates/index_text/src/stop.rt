//! The first word of a line that can't stand there.
ghost use Rattle.std.specs.Prelude.{◌≡◌, ◌≤◌, ◌+◌, not, false, length, drop, IfOk, IfSome, Some, is_some};
ghost use Rattle.std.specs.List.{list_all, prefix_len};
ghost use Rattle.script_text.specs.Lines.{IsPrinted, is_printed};
ghost use Rattle.script_text.specs.Words.{words as words_of};
ghost use Rattle.index_text.specs.Expected.{expected_from, expected_in, expected_of};
ghost use Rattle.index_text.specs.Expected.{expected_of_request, expected_of_version};
ghost use Rattle.index_text.specs.Indexes.{words_in};
ghost use Rattle.index_text.specs.Lines.{behind_format};
ghost use Rattle.index_text.specs.PlainFormats.{plain_format};

use crate::expected::Expected;
use crate::format::VersionFormat;
use crate::overlong::{MOST_WORDS, surplus_length};
use crate::place::{LineKind, Place};
use crate::words::without_blanks;
use script_text::{is_word, next_word, text_of};
use std::alloc::{AllocError, Global};

/// A word of a line, or its end, at which something else was expected.
#[derive(Clone, Copy)]
pub(crate) struct Stop {
    /// How many bytes the line has from there on.
    pub(crate) left: usize,
    pub(crate) expected: Expected,
}

/// Where a line that can't be read stops being a line of this kind.
pub(crate) fn line_stop(
    alloc: Global,
    format: &VersionFormat,
    line: &[u8],
    kind: LineKind,
) -> Result<Stop, AllocError>
    ensures within { IfOk result (λ stop. stop.left ≤ length line.now) }
    ensures unprinted { IfOk result (λ stop. list_all is_printed line.now ≡ false
        → stop.left + prefix_len is_printed line.now ≡ length line.now) }
    ensures expected { IfOk result (λ stop.
        stop.expected ≡ expected_in (plain_format format.now) kind (words_in line.now)) }
{
    if let Some(left) = unprinted_length(line) {
        let expected = Expected::PrintedByte;
        return Ok(Stop { left, expected });
    }
    printed_stop(alloc, format, line, kind)
}

/// Where a printed line stops being a line of this kind: at the first word that is too many, if there is one.
#[tactic(auto, using(crate::proofs::StopLemmas::surplus))]
fn printed_stop(
    alloc: Global,
    format: &VersionFormat,
    line: &[u8],
    kind: LineKind,
) -> Result<Stop, AllocError>
    requires { IsPrinted line.now }
    ensures within { IfOk result (λ stop. stop.left ≤ length line.now) }
    ensures expected { IfOk result (λ stop.
        stop.expected ≡ expected_in (plain_format format.now) kind (Some (words_of line.now))) }
{
    match surplus_length(line, MOST_WORDS) {
        Some(left) => {
            let expected = Expected::LineEnd;
            Ok(Stop { left, expected })
        }
        None => kind_stop(alloc, format, line, kind),
    }
}

/// The same, however many words there are.
fn kind_stop(
    alloc: Global,
    format: &VersionFormat,
    line: &[u8],
    kind: LineKind,
) -> Result<Stop, AllocError>
    requires { IsPrinted line.now }
    ensures within { IfOk result (λ stop. stop.left ≤ length line.now) }
    ensures expected { IfOk result (λ stop.
        stop.expected ≡ expected_of (plain_format format.now) kind (words_of line.now)) }
{
    let text = without_blanks(line);
    match kind {
        LineKind::Request => request_stop(alloc, format, text),
        LineKind::Version => version_stop(alloc, format, text),
    }
}

/// Where words stop being a request.
fn request_stop(alloc: Global, format: &VersionFormat, text: &[u8]) -> Result<Stop, AllocError>
    requires { IsPrinted text.now }
    ensures within { IfOk result (λ stop. stop.left ≤ length text.now) }
    ensures expected { IfOk result (λ stop.
        stop.expected ≡ expected_of_request (plain_format format.now) (words_of text.now)) }
{
    let (left, expected) = (text.len(), Expected::RequestFirst);
    let Some((word, rest)) = next_word(text) else {
        return Ok(Stop { left, expected });
    };
    if !is_word(word, b"request") {
        return Ok(Stop { left, expected });
    }
    let rest = behind_format(format, rest);
    entries_stop(alloc, format, rest, LineKind::Request)
}

/// What is behind `semver`, if versions are written so.
fn behind_format<'t>(format: &VersionFormat, text: &'t [u8]) -> &'t [u8]
    ensures shorter { length result.now ≤ length text.now }
    ensures printed { IsPrinted text.now → IsPrinted result.now }
    ensures words { words_of result.now ≡ behind_format (plain_format format.now) (words_of text.now) }
{
    match format {
        VersionFormat::Numbers => text,
        VersionFormat::Semver(_) => behind_word(text),
    }
}

/// What is behind the first word, if there is one.
fn behind_word(text: &[u8]) -> &[u8]
    ensures shorter { length result.now ≤ length text.now }
    ensures printed { IsPrinted text.now → IsPrinted result.now }
    ensures words { words_of result.now ≡ drop 1 (words_of text.now) }
{
    match next_word(text) {
        Some((_, rest)) => rest,
        None => text,
    }
}

/// Where words stop being a version.
fn version_stop(alloc: Global, format: &VersionFormat, text: &[u8]) -> Result<Stop, AllocError>
    requires { IsPrinted text.now }
    ensures within { IfOk result (λ stop. stop.left ≤ length text.now) }
    ensures expected { IfOk result (λ stop.
        stop.expected ≡ expected_of_version (plain_format format.now) (words_of text.now)) }
{
    let Some((_, rest)) = next_word(text) else {
        let (left, expected) = (0, Expected::Name);
        return Ok(Stop { left, expected });
    };
    let rest = without_blanks(rest);
    let (left, expected) = (rest.len(), Expected::Version);
    let Some((word, entries)) = next_word(rest) else {
        return Ok(Stop { left, expected });
    };
    match format.number(alloc, word)? {
        Some(_) => entries_stop(alloc, format, entries, LineKind::Version),
        None => Ok(Stop { left, expected }),
    }
}

/// Where words stop being entries.
#[tactic(auto, using(crate::proofs::StopLemmas::goes_on, crate::proofs::StopLemmas::stops))]
fn entries_stop(
    alloc: Global,
    format: &VersionFormat,
    words: &[u8],
    kind: LineKind,
) -> Result<Stop, AllocError>
    requires { IsPrinted words.now }
    ensures within { IfOk result (λ stop. stop.left ≤ length words.now) }
    ensures expected { IfOk result (λ stop.
        stop.expected ≡ expected_from (plain_format format.now) kind Place.First (words_of words.now)) }
{
    let mut place = Place::First;
    let mut text = without_blanks(words);
    while let Some((word, rest)) = next_word(text) {
        match place.behind(alloc, format, text_of(word), kind)? {
            Ok(next) => place = next,
            Err(expected) => {
                let left = text.len();
                return Ok(Stop { left, expected });
            }
        }
        text = without_blanks(rest);
    }
    let (left, expected) = (0, place.expected(kind));
    Ok(Stop { left, expected })
}

/// How many bytes a line has from the first one on that isn't printed; none if all are printed.
#[tactic(auto, using(crate::proofs::Printed::all_printed, crate::proofs::Printed::some_unprinted))]
fn unprinted_length(line: &[u8]) -> Option<usize>
    ensures printed { list_all is_printed line.now ≡ not (is_some result) }
    ensures left { IfSome result (λ left. left + prefix_len is_printed line.now ≡ length line.now) }
{
    let printed = printed_length(line);
    if printed < line.len() {
        Some(line.len() - printed)
    } else {
        None
    }
}

/// How many printed bytes a line begins with.
fn printed_length(line: &[u8]) -> usize
    ensures { result ≡ prefix_len is_printed line.now }
{
    for (i, byte) in line.iter().enumerate() {
        if !matches!(*byte, b' '..=b'~') {
            return i;
        }
    }
    line.len()
}
