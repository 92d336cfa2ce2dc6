//! Numbers of a script.
ghost use Rattle.std.specs.Prelude.{◌≡◌, ◌<◌, ◌*◌, ◌+◌, ◌^◌, length, IfSome};
ghost use Rattle.script_text.specs.Numbers.{number_of, value_from, with_digit};

/// How many digits a number has at most.
const MOST_DIGITS: usize = 20;

/// The number that a word writes: one to twenty decimal digits, and a value below 2^64.
#[inline(always)]
pub fn number(word: &[u8]) -> Option<u64>
    ensures { result ≡ number_of word.now }
{
    if word.is_empty() || word.len() > MOST_DIGITS {
        return None;
    }
    if word.len() < MOST_DIGITS {
        short_value(word)
    } else {
        value(word)
    }
}

/// The value of fewer than twenty decimal digits, which is below 2^64 whatever they are.
#[inline(always)]
fn short_value(digits: &[u8]) -> Option<u64>
    requires { length digits.now < 20 }
    ensures { result ≡ value_from 0 digits.now }
{
    let mut value = 0u64;
    for digit in digits {
        value = with_short_digit(value, *digit)?;
    }
    Some(value)
}

/// The value with one more decimal digit after it, of twenty at most.
#[inline(always)]
fn with_short_digit(value: u64, digit: u8) -> Option<u64>
    requires { value < 10 ^ 18 }
    ensures value { result ≡ with_digit value digit }
    ensures bound { IfSome result (λ n. n < 10 * (value + 1)) }
{
    match digit {
        b'0'..=b'9' => Some(10 * value + u64::from(digit - b'0')),
        _ => None,
    }
}

/// The value of decimal digits, where it is below 2^64.
#[inline(never)]
fn value(digits: &[u8]) -> Option<u64>
    ensures { result ≡ value_from 0 digits.now }
{
    let mut value = 0u64;
    for digit in digits {
        value = with_digit(value, *digit)?;
    }
    Some(value)
}

/// The value with one more decimal digit after it.
fn with_digit(value: u64, digit: u8) -> Option<u64>
    ensures { result ≡ with_digit value digit }
{
    if !digit.is_ascii_digit() {
        return None;
    }
    value.checked_mul(10)?.checked_add(u64::from(digit - b'0'))
}
