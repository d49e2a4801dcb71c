//! How far exponents are apart.
ghost use Rattle.std.specs.Prelude.{◌≡◌, ◌<◌, pos, ◌+ℤ◌, ◌-ℤ◌, ◌*ℤ◌};
ghost use Rattle.simd_json_number.specs.Clamped.{clamped, limit, IsWithin};
ghost use Rattle.simd_json_number.specs.Numbers.{integer};
ghost use Rattle.simd_json_parts.specs.Integers.{number_of};

use crate::digits::{Digits, count_digits};
use crate::literal::has_minus;

// 2 ^ 80, more than literals have digits.
const LIMIT: i128 = 0x1_0000_0000_0000_0000_0000;

// How far one integer is above another, each of a sign and digits: at most `LIMIT`, at least
// `-LIMIT`.
pub(crate) fn difference(left: &[u8], right: &[u8]) -> i128
    ensures value { result ≡ clamped (integer left.now -ℤ integer right.now) }
    ensures within { IsWithin limit result }
{
    let left_count = count_digits(left);
    let right_count = count_digits(right);
    let places = left_count.max(right_count);
    let mut left_digits = Digits {
        zeros: places - left_count,
        bytes: left,
    };
    let mut right_digits = Digits {
        zeros: places - right_count,
        bytes: right,
    };
    let mut difference = 0;
    let mut place = 0;
    while place < places {
        let left_digit = signed(has_minus(left), left_digits.next());
        let right_digit = signed(has_minus(right), right_digits.next());
        difference = next_difference(difference, left_digit, right_digit);
        place += 1;
    }
    difference
}

// The difference with one digit more of each.
fn next_difference(difference: i128, left_digit: i128, right_digit: i128) -> i128
    requires within { IsWithin limit difference }
    requires left { IsWithin (pos 9) left_digit }
    requires right { IsWithin (pos 9) right_digit }
    ensures { result ≡ clamped (pos 10 *ℤ difference +ℤ left_digit -ℤ right_digit) }
{
    let next = 10 * difference + left_digit - right_digit;
    if next > LIMIT {
        return LIMIT;
    }
    if next < -LIMIT {
        return -LIMIT;
    }
    next
}

// A digit of a number with a sign.
fn signed(is_negative: bool, digit: u8) -> i128
    requires { digit < 10 }
    ensures value { result ≡ number_of is_negative digit }
    ensures within { IsWithin (pos 9) result }
{
    let digit = i128::from(digit);
    if is_negative { -digit } else { digit }
}
