//! Lines of a text.
ghost use Rattle.std.specs.Prelude.{◌≡◌, ◌<◌, ◌∷◌, take, length, IfSome, ◌⊎◌};
ghost use Rattle.std.specs.List.{list_all};
ghost use Rattle.script_text.specs.Lines.{lines, lines_from, without_return, is_printed};

use crate::printed::{is_printed, printed_length};

/// The first line of a text, and what is after it.
#[derive(Clone, Copy)]
pub(crate) struct FirstLine<'a> {
    pub(crate) line: &'a [u8],
    /// Whether all bytes of the line are printed.
    pub(crate) is_printed: bool,
    pub(crate) rest: &'a [u8],
}

/// The first line of a text. Up to the first byte that isn't printed it is looked at once, and mostly that byte ends
/// it.
#[inline(always)]
pub(crate) fn first_line(text: &[u8]) -> FirstLine<'_>
    requires { 0 < length text.now }
    ensures first { lines text.now ≡ result.line.now ∷ lines result.rest.now }
    ensures begins { result.line.now ≡ take (length result.line.now) text.now }
    ensures printed { result.is_printed ≡ list_all is_printed result.line.now }
    ensures shorter { length result.rest.now < length text.now }
{
    let (line, after) = text.split_at(printed_length(text));
    match after_end(after) {
        Some(rest) => FirstLine {
            line,
            is_printed: true,
            rest,
        },
        None => other_line(text),
    }
}

/// What is after a line's end, where the text begins with one.
#[inline(always)]
fn after_end(text: &[u8]) -> Option<&[u8]>
    ensures { IfSome result (λ rest. (text.now ≡ 10 ∷ rest.now) ⊎ (text.now ≡ 13 ∷ 10 ∷ rest.now)) }
{
    match text {
        [b'\n', rest @ ..] => Some(rest),
        [b'\r', b'\n', rest @ ..] => Some(rest),
        _ => None,
    }
}

/// The first line of a text, if it isn't printed, or ends with the text.
#[inline(always)]
fn other_line(text: &[u8]) -> FirstLine<'_>
    requires { 0 < length text.now }
    ensures first { lines text.now ≡ result.line.now ∷ lines result.rest.now }
    ensures begins { result.line.now ≡ take (length result.line.now) text.now }
    ensures printed { result.is_printed ≡ list_all is_printed result.line.now }
    ensures shorter { length result.rest.now < length text.now }
{
    let (line, rest) = split_line(text);
    let line = without_return(line);
    FirstLine {
        line,
        is_printed: is_printed(line),
        rest,
    }
}

/// The bytes up to the first line feed or the end, and those after it.
#[inline(never)]
fn split_line(text: &[u8]) -> (&[u8], &[u8])
    requires { 0 < length text.now }
    ensures first { lines text.now ≡ without_return result.0.now ∷ lines result.1.now }
    ensures begins { result.0.now ≡ take (length result.0.now) text.now }
    ensures shorter { length result.1.now < length text.now }
{
    for (i, byte) in text.iter().enumerate() {
        if *byte == b'\n' {
            return (&text[..i], &text[i + 1..]);
        }
    }
    (text, &text[text.len()..])
}

/// A line but for the carriage return at its end.
fn without_return(line: &[u8]) -> &[u8]
    ensures without { result.now ≡ without_return line.now }
    ensures begins { result.now ≡ take (length result.now) line.now }
{
    match line {
        [before @ .., b'\r'] => before,
        _ => line,
    }
}
