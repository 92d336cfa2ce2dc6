//! Words, and the parts between some of them.
ghost use Rattle.std.specs.Prelude.{◌≡◌, ◌<◌, ◌≤◌, ◌≢◌, [], ◌∷◌, length, slice_get, OnOk, IfSome, MatchOption};
ghost use Rattle.std.specs.List.{slice_split};
ghost use Rattle.std.specs.Str.{bytes_eq};
ghost use Rattle.script_text.specs.Lines.{IsPrinted};
ghost use Rattle.script_text.specs.Words.{words as words_of, ArePrinted};
ghost use Rattle.index_text.specs.Sets.{texts, parts_behind};

use crate::word_length::word_length;
use script_text::{is_word, text_of};
use std::alloc::AllocError;

/// The words of a line, in place of what the vector has.
pub(crate) fn split_words<'t>(found: &mut Vec<&'t str>, line: &'t [u8]) -> Result<(), AllocError>
    requires { IsPrinted line.now }
    ensures { OnOk result (texts found.new.items ≡ words_of line.now) }
{
    found.clear();
    let mut rest = line;
    while let Some((word, others)) = next_word(rest) {
        found.push(text_of(word))?;
        rest = others;
    }
    Ok(())
}

/// The first word of a line, and what is behind it; none if no word is left.
#[inline(always)]
#[tactic(auto, using(script_text::proofs::Printing::printed_parts))]
fn next_word(line: &[u8]) -> Option<(&[u8], &[u8])>
    ensures first { MatchOption result (words_of line.now ≡ []) (λ r. words_of line.now ≡ r.0.now ∷ words_of r.1.now) }
    ensures shorter { IfSome result (λ r. length r.1.now < length line.now) }
    ensures printed { IsPrinted line.now → IfSome result (λ r. ArePrinted r.0.now r.1.now) }
{
    let text = without_blanks(line);
    if text.is_empty() {
        return None;
    }
    Some(text.split_at(word_length(text)))
}

/// A line from its first word on.
#[inline(always)]
pub(crate) fn without_blanks(line: &[u8]) -> &[u8]
    ensures words { words_of result.now ≡ words_of line.now }
    ensures begins { IfSome (slice_get result.now 0) (λ b. b ≢ 32) }
    ensures shorter { length result.now ≤ length line.now }
    ensures printed { IsPrinted line.now → IsPrinted result.now }
{
    let mut text = line;
    while let [b' ', rest @ ..] = text {
        text = rest;
    }
    text
}

/// The words before the first `between`, and those behind it; none if there is no such word.
pub(crate) fn first_part<'w, 't>(
    words: &'w [&'t str],
    between: &[u8],
) -> (&'w [&'t str], Option<&'w [&'t str]>)
    ensures parts { slice_split (bytes_eq between.now) (texts words.now) ≡
        texts result.0.now ∷ parts_behind (bytes_eq between.now) result.1 }
    ensures shorter { IfSome result.1 (λ rest. length rest.now < length words.now) }
{
    for (i, word) in words.iter().enumerate() {
        if is_word(between, word.as_bytes()) {
            return (&words[..i], Some(&words[i + 1..]));
        }
    }
    (words, None)
}
