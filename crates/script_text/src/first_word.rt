//! The first word of a line, which is looked for in sixteen bytes at once.
ghost use Rattle.std.specs.Prelude.{◌≡◌, ◌<◌, ◌≤◌, ◌⊎◌, [], ◌∷◌, take, length, MatchOption, IfSome};
ghost use Rattle.std.specs.List.{prefix_len};
ghost use Rattle.script_text.specs.Lines.{IsPrinted};
ghost use Rattle.script_text.specs.Words.{words, is_graphic, ArePrinted};

use crate::sixteen::length_in_sixteen;
use crate::word::next_word;
use std::simd::prelude::*;

/// The first word of a printed line with which a text begins, and what is after it; none where the line has no word.
/// Where the text goes on after the line, bytes behind it may be looked at too.
#[inline(always)]
pub(crate) fn first_word<'a>(line: &'a [u8], text: &[u8]) -> Option<(&'a [u8], &'a [u8])>
    requires begins { line.now ≡ take (length line.now) text.now }
    requires printed { IsPrinted line.now }
    ensures first { MatchOption result (words line.now ≡ []) (λ r. words line.now ≡ r.0.now ∷ words r.1.now) }
    ensures printed { IfSome result (λ r. ArePrinted r.0.now r.1.now) }
{
    let length = short_length(text).min(line.len());
    if length == 0 {
        return next_word(line);
    }
    let (word, rest) = line.split_at(length);
    Some((word, after_blank(rest)))
}

/// What is after the blank with which a text begins, or all of it, so that the next word is found at once.
#[inline(always)]
fn after_blank(text: &[u8]) -> &[u8]
    ensures words { words result.now ≡ words text.now }
    ensures printed { IsPrinted text.now → IsPrinted result.now }
{
    match text {
        [b' ', rest @ ..] => rest,
        _ => text,
    }
}

/// How many bytes a text has before its first blank or control character, or what isn't ASCII, where that is one of the
/// first sixteen; 0 where none is.
#[inline(always)]
fn short_length(text: &[u8]) -> usize
    ensures { (result ≡ 0) ⊎ ((result ≡ prefix_len is_graphic (take 16 text.now)) × (result < 16)
        × (16 ≤ length text.now)) }
{
    if text.len() < 16 {
        return 0;
    }
    length_in_sixteen(u8x16::from_slice(text), b'!').unwrap_or(0)
}
