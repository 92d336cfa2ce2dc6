//! The length of a word, whose end is looked for in sixteen bytes at once.
ghost use Rattle.std.specs.Prelude.{◌≡◌, ◌==◌, ◌<◌, map, MatchOption};
ghost use Rattle.std.specs.List.{position_or_len};
ghost use Rattle.std.specs.Simd.Lanes.{mask_l};

use std::simd::prelude::*;

/// How many bytes of a text come before its first blank. Sixteen bytes are looked at in one step, and the last ones,
/// where there are no sixteen, one by one.
#[inline(always)]
pub(crate) fn word_length(text: &[u8]) -> usize
    ensures { result ≡ position_or_len (λ byte. byte == 32) text.now }
{
    let mut length = 0;
    while 16 <= text.len() - length {
        if let Some(found) = length_in_sixteen(u8x16::from_slice(&text[length..])) {
            return length + found;
        }
        length += 16;
    }
    length + length_by_one(&text[length..])
}

/// How many of sixteen bytes come before the first blank; none where there is no blank.
#[inline(always)]
fn length_in_sixteen(bytes: u8x16) -> Option<usize>
    ensures { MatchOption result (position_or_len (λ byte. byte == 32) bytes ≡ 16)
        (λ length. (length ≡ position_or_len (λ byte. byte == 32) bytes) × (length < 16)) }
{
    let blanks = blank_bits(bytes);
    if blanks == 0 {
        None
    } else {
        Some(blanks.trailing_zeros() as usize)
    }
}

/// A bit for each byte, the lowest for the first: whether it is a blank.
#[inline(always)]
fn blank_bits(bytes: u8x16) -> u64
    ensures { result ≡ mask_l (map (λ byte. byte == 32) bytes) }
{
    bytes.simd_eq(u8x16::splat(b' ')).to_bitmask()
}

fn length_by_one(text: &[u8]) -> usize
    ensures { result ≡ position_or_len (λ byte. byte == 32) text.now }
{
    for (i, byte) in text.iter().enumerate() {
        if *byte == b' ' {
            return i;
        }
    }
    text.len()
}
