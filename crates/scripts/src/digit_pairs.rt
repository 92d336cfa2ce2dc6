//! The digits of numbers, two at a time.
ghost use Rattle.std.specs.Prelude.{◌≡◌, ◌++◌, ◌/◌, ◌%◌, ◌<◌};
ghost use Rattle.scripts.specs.Replies.{digit_pair};

/// The numbers below 100 in turn, with two digits each.
static PAIRS: [u8; 200] =
    *b"0001020304050607080910111213141516171819202122232425262728293031323334353637383940414243444546474849\
5051525354555657585960616263646566676869707172737475767778798081828384858687888990919293949596979899";

/// The four digits of a number below 10000.
#[inline(always)]
pub(crate) fn four(number: u64) -> [u8; 4]
    requires { number < 10000 }
    ensures { result ≡ digit_pair (number / 100) ++ digit_pair (number % 100) }
{
    let [thousands, hundreds] = pair(number / 100);
    let [tens, ones] = pair(number % 100);
    [thousands, hundreds, tens, ones]
}

/// The two digits of a number below 100.
#[inline(always)]
pub(crate) fn pair(number: u64) -> [u8; 2]
    requires { number < 100 }
    ensures { result ≡ digit_pair number }
{
    let at = 2 * number as usize;
    [PAIRS[at], PAIRS[at + 1]]
}
