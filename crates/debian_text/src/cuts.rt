//! Parts of a text.
ghost use Rattle.std.specs.Char.{is_ascii_whitespace};
ghost use Rattle.std.specs.List.{list_all, list_any, position};
ghost use Rattle.std.specs.Prelude.{◌≡◌, ◌<◌, ◌==◌, length, option_map, IfSome};
ghost use Rattle.debian_text.specs.Words.{cut_at, is_of_version, trimmed, version_of, word_of};

/// What is before the first such byte, and what is behind it; none if there is no such byte.
pub(crate) fn cut_at(text: &[u8], byte: u8) -> Option<(&[u8], &[u8])>
    ensures { option_map (λ r. (r.0.now, r.1.now)) result ≡ cut_at byte text.now }
{
    let Some(place) = place_of(text, byte) else {
        return None;
    };
    Some((&text[..place], &text[place + 1..]))
}

/// The place of the first such byte.
fn place_of(text: &[u8], byte: u8) -> Option<usize>
    ensures place { result ≡ position (λ b. b == byte) text.now }
    ensures within { IfSome result (λ place. place < length text.now) }
{
    text.iter().position(|b| *b == byte)
}

/// A text without white space at its ends.
pub fn trimmed(text: &[u8]) -> &[u8]
    ensures { result.now ≡ trimmed text.now }
{
    text.trim_ascii()
}

/// The only word of a text; none if it has no word, or several.
pub fn word(text: &[u8]) -> Option<&[u8]>
    ensures { option_map (λ r. r.now) result ≡ word_of text.now }
{
    let word = trimmed(text);
    if word.is_empty() || has_space(word) {
        None
    } else {
        Some(word)
    }
}

/// Whether a text has white space.
fn has_space(text: &[u8]) -> bool
    ensures { result ≡ list_any is_ascii_whitespace text.now }
{
    text.iter().any(|b| b.is_ascii_whitespace())
}

/// The version that a text says: its only word, if it has no characters but those of versions.
pub fn version(text: &[u8]) -> Option<&[u8]>
    ensures { option_map (λ r. r.now) result ≡ version_of text.now }
{
    let Some(version) = word(text) else {
        return None;
    };
    if is_version(version) {
        Some(version)
    } else {
        None
    }
}

/// Whether a text has no characters but those of versions.
fn is_version(text: &[u8]) -> bool
    ensures { result ≡ list_all is_of_version text.now }
{
    text.iter().all(|b| is_of_version(*b))
}

/// Whether a version may have the character.
fn is_of_version(byte: u8) -> bool
    ensures { result ≡ is_of_version byte }
{
    byte.is_ascii_alphanumeric()
        || byte == b'+'
        || byte == b'-'
        || byte == b'.'
        || byte == b':'
        || byte == b'~'
}
