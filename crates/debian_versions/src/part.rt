//! Upstream versions and revisions.
ghost use Rattle.std.specs.Prelude.{◌≡◌};
ghost use Rattle.debian_versions.specs.Order.{part_cmp};
ghost use Rattle.debian_versions.specs.Steps.{front_rank};

use crate::number::{compare_numbers, number_len};
use std::cmp::Ordering;

/// The rank of the end of a run of characters: above `~`, and below all other characters.
const END: u16 = 1;

/// Compares two upstream versions, or two revisions: by runs of characters and numbers in turn.
pub(crate) fn compare_parts(a: &[u8], b: &[u8]) -> Ordering
    ensures { result ≡ part_cmp a.now b.now }
{
    let mut x = a;
    let mut y = b;
    'runs: while !x.is_empty() || !y.is_empty() {
        let (p, q) = (front_rank(x), front_rank(y));
        if p != q {
            return p.cmp(&q);
        }
        if p != END {
            x = &x[1..];
            y = &y[1..];
            continue;
        }
        let (n, m) = (number_len(x), number_len(y));
        let ordering = compare_numbers(&x[..n], &y[..m]);
        if ordering != Ordering::Equal {
            return ordering;
        }
        x = &x[n..];
        y = &y[m..];
    }
    Ordering::Equal
}

/// The rank of the first character; that of the end, if a digit is first, or nothing.
fn front_rank(text: &[u8]) -> u16
    ensures { result ≡ front_rank text.now }
{
    match text {
        [] | [b'0'..=b'9', ..] => END,
        [b'~', ..] => 0,
        [first, ..] if first.is_ascii_alphabetic() => u16::from(*first),
        [first, ..] => u16::from(*first) + 256,
    }
}
