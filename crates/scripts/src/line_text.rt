//! Lines of several numbers, which are put together before they are put after a text: so room is made once a line.
ghost use Rattle.std.specs.Prelude.{◌≡◌, ◌++◌, ◌+◌, ◌≤◌, decimal, length, take};

use crate::digit_pairs::pair;

/// How many bytes the longest line has: five numbers of at most twenty digits, a text before each, and its end.
pub(crate) const LONGEST: usize = 136;

/// Puts a text and a number at a place of a line. Answers the place behind them.
#[inline(always)]
pub(crate) fn put_field(line: &mut [u8; LONGEST], at: usize, name: &[u8], number: usize) -> usize
    requires { at + length name.now + 20 ≤ 136 }
    ensures end { result ≤ at + length name.now + 20 }
    ensures line { take result line.new ≡ take at line.old ++ (name.now ++ decimal number) }
{
    let at = put(line, at, name);
    put_number(line, at, number as u64)
}

/// Puts a text at a place of a line. Answers the place behind it.
#[inline(always)]
pub(crate) fn put(line: &mut [u8; LONGEST], at: usize, text: &[u8]) -> usize
    requires { at + length text.now ≤ 136 }
    ensures end { result ≡ at + length text.now }
    ensures line { take result line.new ≡ take at line.old ++ text.now }
{
    let end = at + text.len();
    line[at..end].copy_from_slice(text);
    end
}

/// Puts a number; one of one digit, as most are, with no call.
#[inline(always)]
fn put_number(line: &mut [u8; LONGEST], at: usize, number: u64) -> usize
    requires { at + length (decimal number) ≤ 136 }
    ensures end { result ≡ at + length (decimal number) }
    ensures line { take result line.new ≡ take at line.old ++ decimal number }
{
    if number < 10 {
        put(line, at, &[b'0' + number as u8])
    } else {
        put_digits(line, at, number)
    }
}

/// Puts a number of any length.
#[inline(never)]
fn put_digits(line: &mut [u8; LONGEST], at: usize, number: u64) -> usize
    requires { at + length (decimal number) ≤ 136 }
    ensures end { result ≡ at + length (decimal number) }
    ensures line { take result line.new ≡ take at line.old ++ decimal number }
{
    if number < 10 {
        put(line, at, &[b'0' + number as u8])
    } else if number < 100 {
        put(line, at, &pair(number))
    } else {
        let at = put_digits(line, at, number / 100);
        put(line, at, &pair(number % 100))
    }
}
