//! How far a text is printed.
ghost use Rattle.std.specs.Prelude.{◌≡◌};
ghost use Rattle.std.specs.List.{list_all, prefix_len};
ghost use Rattle.script_text.specs.Lines.{is_printed};

use crate::sixteen::length_in_sixteen;
use std::simd::prelude::*;

/// How many bytes of ASCII's printed characters and blanks a text begins with. Sixteen bytes are looked at in one step,
/// and the last ones, where there are no sixteen, one by one.
#[inline(always)]
pub(crate) fn printed_length(text: &[u8]) -> usize
    ensures { result ≡ prefix_len is_printed text.now }
{
    let mut length = 0;
    while 16 <= text.len() - length {
        if let Some(found) = length_in_sixteen(u8x16::from_slice(&text[length..]), b' ') {
            return length + found;
        }
        length += 16;
    }
    length + printed_by_one(&text[length..])
}

fn printed_by_one(text: &[u8]) -> usize
    ensures { result ≡ prefix_len is_printed text.now }
{
    for (i, byte) in text.iter().enumerate() {
        if !matches!(*byte, b' '..=b'~') {
            return i;
        }
    }
    text.len()
}

/// Whether all bytes of a line are those of ASCII's printed characters and the blank.
#[inline(never)]
pub(crate) fn is_printed(line: &[u8]) -> bool
    ensures { result ≡ list_all is_printed line.now }
{
    printed_length(line) == line.len()
}
