//! Words that are read as numbers.
ghost use Rattle.std.specs.Prelude.{◌≡◌, ◌<◌, ◌≤◌, [], ◌∷◌, length, MatchOption, ◌≢◌, slice_get, IfSome};
ghost use Rattle.std.specs.Prelude.{Some};
ghost use Rattle.script_text.specs.Numbers.{number_of};
ghost use Rattle.script_text.specs.Words.{words};

use crate::decimal::number;
use crate::word::{split_word, without_blanks};

/// This many digits have a value below 2^64 whatever they are.
const SHORT: usize = 19;

/// A word, and the number that it writes, if it writes one.
#[derive(Clone, Copy)]
pub struct NumberWord<'a> {
    pub word: &'a [u8],
    pub number: Option<u64>,
}

/// A short number with which a text begins: its value, its word, and what is after the word and its blank.
#[derive(Clone, Copy)]
struct ShortNumber<'a> {
    value: u64,
    word: &'a [u8],
    rest: &'a [u8],
}

/// The first word of a line with the number that it writes, and what is after it; none where no word is left. A word
/// of fewer than twenty digits is read once.
#[inline(always)]
pub fn next_number(line: &[u8]) -> Option<(NumberWord<'_>, &[u8])>
    ensures first { MatchOption result (words line.now ≡ []) (λ r. words line.now ≡ r.0.word.now ∷ words r.1.now) }
    ensures number { IfSome result (λ r. r.0.number ≡ number_of r.0.word.now) }
    ensures shorter { MatchOption result (words line.now ≡ []) (λ r. length r.1.now < length line.now) }
{
    let text = without_blanks(line);
    if text.is_empty() {
        return None;
    }
    Some(split_number(text))
}

/// The first word of a line as a mark, which is its first byte, and the word behind that, perhaps an empty one, with
/// the number that it writes; and what is after it; none where no word is left.
#[inline(always)]
pub fn next_marked(line: &[u8]) -> Option<(u8, NumberWord<'_>, &[u8])>
    ensures first { MatchOption result (words line.now ≡ [])
        (λ r. words line.now ≡ (r.0 ∷ r.1.word.now) ∷ words r.2.now) }
    ensures number { IfSome result (λ r. r.1.number ≡ number_of r.1.word.now) }
    ensures shorter { MatchOption result (words line.now ≡ []) (λ r. length r.2.now < length line.now) }
{
    match without_blanks(line) {
        [] => None,
        [mark, text @ ..] => Some(split_marked(*mark, text)),
    }
}

/// A mark, the word with its number directly behind it, and what is after that.
#[inline(always)]
fn split_marked(mark: u8, text: &[u8]) -> (u8, NumberWord<'_>, &[u8])
    requires { mark ≢ 32 }
    ensures first { words (mark ∷ text.now) ≡ (result.0 ∷ result.1.word.now) ∷ words result.2.now }
    ensures number { result.1.number ≡ number_of result.1.word.now }
    ensures shorter { length result.2.now ≤ length text.now }
{
    match text {
        [] => mark_alone(mark, text),
        [b' ', ..] => mark_alone(mark, text),
        _ => mark_before_word(mark, text),
    }
}

/// The same of a mark that is a word by itself.
#[inline(always)]
fn mark_alone(mark: u8, text: &[u8]) -> (u8, NumberWord<'_>, &[u8])
    requires mark { mark ≢ 32 }
    requires ends { IfSome (slice_get text.now 0) (λ b. b ≡ 32) }
    ensures first { words (mark ∷ text.now) ≡ (result.0 ∷ result.1.word.now) ∷ words result.2.now }
    ensures number { result.1.number ≡ number_of result.1.word.now }
    ensures shorter { length result.2.now ≤ length text.now }
{
    let (word, rest) = text.split_at(0);
    (mark, NumberWord { word, number: None }, rest)
}

/// The same of a mark with a word directly behind it.
#[inline(always)]
fn mark_before_word(mark: u8, text: &[u8]) -> (u8, NumberWord<'_>, &[u8])
    requires mark { mark ≢ 32 }
    requires some { 0 < length text.now }
    requires begins { IfSome (slice_get text.now 0) (λ b. b ≢ 32) }
    ensures first { words (mark ∷ text.now) ≡ (result.0 ∷ result.1.word.now) ∷ words result.2.now }
    ensures number { result.1.number ≡ number_of result.1.word.now }
    ensures shorter { length result.2.now ≤ length text.now }
{
    let (word, rest) = split_number(text);
    (mark, word, rest)
}

/// The first word of a text with its number, and what is after it.
#[inline(always)]
fn split_number(text: &[u8]) -> (NumberWord<'_>, &[u8])
    requires some { 0 < length text.now }
    requires begins { IfSome (slice_get text.now 0) (λ b. b ≢ 32) }
    ensures first { words text.now ≡ result.0.word.now ∷ words result.1.now }
    ensures number { result.0.number ≡ number_of result.0.word.now }
    ensures shorter { length result.1.now < length text.now }
{
    match short_number(text) {
        Some(short) => {
            let (word, number) = (short.word, Some(short.value));
            (NumberWord { word, number }, short.rest)
        }
        None => other_word(text),
    }
}

/// The number with which a text begins, if it is its first word, and of no more than nineteen digits.
#[inline(always)]
fn short_number(text: &[u8]) -> Option<ShortNumber<'_>>
    requires { IfSome (slice_get text.now 0) (λ b. b ≢ 32) }
    ensures first { IfSome result (λ short. words text.now ≡ short.word.now ∷ words short.rest.now) }
    ensures number { IfSome result (λ short. number_of short.word.now ≡ Some short.value) }
    ensures shorter { IfSome result (λ short. length short.rest.now < length text.now) }
{
    let mut value = 0u64;
    for (i, byte) in text.iter().enumerate() {
        if byte.is_ascii_digit() {
            value = value.wrapping_mul(10).wrapping_add(u64::from(*byte - b'0'));
        } else if *byte == b' ' && i <= SHORT {
            let (word, rest) = (&text[..i], &text[i + 1..]);
            return Some(ShortNumber { value, word, rest });
        } else {
            return None;
        }
    }
    if text.is_empty() || text.len() > SHORT {
        return None;
    }
    let (word, rest) = text.split_at(text.len());
    Some(ShortNumber { value, word, rest })
}

/// The first word of a text with its number, and what is after it, where the word isn't of digits alone, or is long.
#[inline(always)]
fn other_word(text: &[u8]) -> (NumberWord<'_>, &[u8])
    requires some { 0 < length text.now }
    requires begins { IfSome (slice_get text.now 0) (λ b. b ≢ 32) }
    ensures first { words text.now ≡ result.0.word.now ∷ words result.1.now }
    ensures number { result.0.number ≡ number_of result.0.word.now }
    ensures shorter { length result.1.now < length text.now }
{
    let (word, rest) = split_word(text);
    let number = other_number(word);
    (NumberWord { word, number }, rest)
}

/// The number of such a word, if it writes one. It has a call of its own, so that a short number costs none.
#[inline(never)]
fn other_number(word: &[u8]) -> Option<u64>
    ensures { result ≡ number_of word.now }
{
    number(word)
}
