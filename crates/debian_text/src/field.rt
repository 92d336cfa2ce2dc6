//! Fields of a text.
ghost use Rattle.std.specs.Prelude.{◌≡◌, ◌<◌, ◌∷◌, [], length, option_map, MatchOption};
ghost use Rattle.debian_text.specs.Fields.{fields, goes_on};
ghost use Rattle.debian_text.specs.Words.{cut_at};

use crate::cuts::cut_at;

/// The first field of a text, and what is behind its line feed; none if the text is empty. An empty field is the empty
/// line that ends a stanza.
pub fn next_field(text: &[u8]) -> Option<(&[u8], &[u8])>
    ensures first { MatchOption result (fields text.now ≡ []) (λ r. fields text.now ≡ r.0.now ∷ fields r.1.now) }
    ensures shorter { MatchOption result (text.now ≡ []) (λ r. length r.1.now < length text.now) }
{
    if text.is_empty() {
        return None;
    }
    'bytes: for (i, byte) in text.iter().enumerate() {
        if *byte == b'\n' && !goes_on(&text[i + 1..]) {
            return Some((&text[..i], &text[i + 1..]));
        }
    }
    Some((text, &text[text.len()..]))
}

/// Whether these bytes go on with the line before.
fn goes_on(text: &[u8]) -> bool
    ensures { result ≡ goes_on text.now }
{
    matches!(text, [b' ' | b'\t', ..])
}

/// The name of a field, and its value; none if it has no colon.
pub fn named_value(field: &[u8]) -> Option<(&[u8], &[u8])>
    ensures { option_map (λ r. (r.0.now, r.1.now)) result ≡ cut_at 58 field.now }
{
    cut_at(field, b':')
}
