//! Sixteen bytes of a text, which are looked at in one step.
ghost use Rattle.std.specs.Prelude.{◌≡◌, ◌<◌, ◌≤◌, map, not, MatchOption};
ghost use Rattle.std.specs.List.{prefix_len};
ghost use Rattle.std.specs.Simd.Lanes.{mask_l};
ghost use Rattle.script_text.specs.Lines.{is_from};

use std::simd::prelude::*;

/// How many of sixteen bytes come before one that isn't a character from `first` to the tilde; none where there is no
/// such byte.
#[inline(always)]
pub(crate) fn length_in_sixteen(bytes: u8x16, first: u8) -> Option<usize>
    requires { first ≤ 126 }
    ensures { MatchOption result (prefix_len (is_from first) bytes ≡ 16)
        (λ length. (length ≡ prefix_len (is_from first) bytes) × (length < 16)) }
{
    let others = other_bits(bytes, first);
    if others == 0 {
        None
    } else {
        Some(others.trailing_zeros() as usize)
    }
}

/// A bit for each byte, the lowest for the first: whether it isn't such a character. Counted from `first`, and round by
/// 256 below it, such a byte is above the tilde.
#[inline(always)]
fn other_bits(bytes: u8x16, first: u8) -> u64
    requires { first ≤ 126 }
    ensures { result ≡ mask_l (map (λ b. not (is_from first b)) bytes) }
{
    let above_first = bytes - u8x16::splat(first);
    above_first.simd_gt(u8x16::splat(b'~' - first)).to_bitmask()
}
