//! Numbers of any length, as digits.
ghost use Rattle.std.specs.Char.{is_ascii_digit};
ghost use Rattle.std.specs.List.{list_all, prefix_len};
ghost use Rattle.std.specs.Ordering.{nat_cmp};
ghost use Rattle.std.specs.Prelude.{◌≡◌, ◌≤◌, length, true};
ghost use Rattle.std.specs.Str.Parse.{digits_value};
ghost use Rattle.debian_versions.specs.Steps.{strip_zeros};

use std::cmp::Ordering;

/// How many digits a text begins with.
pub(crate) fn number_len(text: &[u8]) -> usize
    ensures value { result ≡ prefix_len is_ascii_digit text.now }
    ensures fits { result ≤ length text.now }
{
    'bytes: for (i, byte) in text.iter().enumerate() {
        if !byte.is_ascii_digit() {
            return i;
        }
    }
    text.len()
}

/// Compares two numbers. Of two without leading zeros the longer one is the larger one.
pub(crate) fn compare_numbers(a: &[u8], b: &[u8]) -> Ordering
    requires left { list_all is_ascii_digit a.now ≡ true }
    requires right { list_all is_ascii_digit b.now ≡ true }
    ensures { result ≡ nat_cmp (digits_value 10 a.now) (digits_value 10 b.now) }
{
    let (x, y) = (without_zeros(a), without_zeros(b));
    x.len().cmp(&y.len()).then(x.cmp(y))
}

/// Digits without the zeros at their beginning.
#[tactic(auto, unfolding(crate::specs::Steps::strip_zeros))]
fn without_zeros(digits: &[u8]) -> &[u8]
    ensures { result.now ≡ strip_zeros digits.now }
{
    let mut rest = digits;
    'zeros: while let [b'0', others @ ..] = rest {
        rest = others;
    }
    rest
}
