//! Words of a line.
ghost use Rattle.std.specs.Prelude.{◌≡◌, ◌<◌, ◌≤◌, [], ◌∷◌, ◌++◌, length, MatchOption, Some, ◌≢◌};
ghost use Rattle.std.specs.Prelude.{slice_get, IfSome};
ghost use Rattle.std.specs.Str.{bytes_eq};
ghost use Rattle.script_text.specs.Lines.{IsPrinted};
ghost use Rattle.script_text.specs.Words.{words, words_from, begun_word, ArePrinted};

use std::str;

/// The first word of a line, and what is after it; none where no word is left.
#[inline(always)]
pub fn next_word(line: &[u8]) -> Option<(&[u8], &[u8])>
    ensures first { MatchOption result (words line.now ≡ []) (λ r. words line.now ≡ r.0.now ∷ words r.1.now) }
    ensures shorter { MatchOption result (words line.now ≡ []) (λ r. length r.1.now < length line.now) }
    ensures printed { IsPrinted line.now → IfSome result (λ r. ArePrinted r.0.now r.1.now) }
{
    let text = without_blanks(line);
    if text.is_empty() {
        return None;
    }
    Some(split_word(text))
}

/// Whether a word reads so. Where the text is fixed, its bytes are compared one by one with no call.
#[inline(always)]
pub fn is_word(word: &[u8], text: &[u8]) -> bool
    ensures { result ≡ bytes_eq word.now text.now }
{
    if word.len() != text.len() {
        return false;
    }
    for (i, byte) in text.iter().enumerate() {
        if word[i] != *byte {
            return false;
        }
    }
    true
}

/// A line from its first word on.
#[inline(always)]
pub(crate) fn without_blanks(line: &[u8]) -> &[u8]
    ensures words { words result.now ≡ words line.now }
    ensures begins { IfSome (slice_get result.now 0) (λ b. b ≢ 32) }
    ensures shorter { length result.now ≤ length line.now }
    ensures printed { IsPrinted line.now → IsPrinted result.now }
{
    match line {
        [b' ', ..] => without_some_blanks(line),
        _ => line,
    }
}

/// The same of a line that begins with a blank, which is seldom: mostly one blank stands between two words.
#[inline(never)]
fn without_some_blanks(line: &[u8]) -> &[u8]
    ensures words { words result.now ≡ words line.now }
    ensures begins { IfSome (slice_get result.now 0) (λ b. b ≢ 32) }
    ensures shorter { length result.now ≤ length line.now }
    ensures printed { IsPrinted line.now → IsPrinted result.now }
{
    let mut text = line;
    while let [b' ', rest @ ..] = text {
        text = rest;
    }
    text
}

/// The bytes up to the first blank or the end, and those after the blank.
#[inline(always)]
#[tactic(auto, using(crate::proofs::Printing::printed_parts))]
pub(crate) fn split_word(text: &[u8]) -> (&[u8], &[u8])
    requires some { 0 < length text.now }
    requires begins { IfSome (slice_get text.now 0) (λ b. b ≢ 32) }
    ensures first { words text.now ≡ result.0.now ∷ words result.1.now }
    ensures shorter { length result.1.now < length text.now }
    ensures printed { IsPrinted text.now → ArePrinted result.0.now result.1.now }
{
    for (i, byte) in text.iter().enumerate() {
        if *byte == b' ' {
            return (&text[..i], &text[i + 1..]);
        }
    }
    (text, &text[text.len()..])
}

/// A printed word as text.
#[tactic(auto, using(crate::proofs::Printing::printed_utf8))]
pub fn text_of(word: &[u8]) -> &str
    requires { IsPrinted word.now }
    ensures { result.now ≡ word.now }
{
    // SAFETY: printed bytes are ASCII
    unsafe { str::from_utf8_unchecked(word) }
}
