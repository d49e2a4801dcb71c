//! Numbers without their signs.
ghost use Rattle.std.specs.Prelude.{◌≡◌, ◌^◌, ◌<◌, length};
ghost use Rattle.simd_json_number.specs.Magnitudes.{compare_magnitudes, first_apart};
ghost use Rattle.simd_json_number.specs.Numbers.{digits};
ghost use Rattle.simd_json_number.specs.Padded.{compare_first};

use crate::digits::{Digits, count_digits};
use crate::exponent::difference;
use crate::literal::LiteralParts;
use std::cmp::Ordering;

pub(crate) fn compare_magnitudes(left: &LiteralParts<'_>, right: &LiteralParts<'_>) -> Ordering
    ensures { result ≡ compare_magnitudes left.now right.now }
{
    if left.significant.is_empty() && right.significant.is_empty() {
        return Ordering::Equal;
    }
    if left.significant.is_empty() {
        return Ordering::Less;
    }
    if right.significant.is_empty() {
        return Ordering::Greater;
    }
    compare_significant(left, right)
}

// Where neither is 0: the first digit with the greater power of ten decides, and if there is none
// the digits do.
fn compare_significant(left: &LiteralParts<'_>, right: &LiteralParts<'_>) -> Ordering
    requires left { 0 < length left.now.significant.now }
    requires right { 0 < length right.now.significant.now }
    ensures { result ≡ compare_magnitudes left.now right.now }
{
    let left_count = count_digits(left.significant);
    let right_count = count_digits(right.significant);
    let apart = first_apart(left, left_count, right, right_count);
    if apart > 0 {
        return Ordering::Greater;
    }
    if apart < 0 {
        return Ordering::Less;
    }
    compare_digits(
        left.significant,
        right.significant,
        left_count.max(right_count),
    )
}

// By how much the power of ten of one's first digit is greater, within limits.
fn first_apart(
    left: &LiteralParts<'_>,
    left_count: usize,
    right: &LiteralParts<'_>,
    right_count: usize,
) -> i128
    ensures value { result ≡ first_apart left.now left_count right.now right_count }
    ensures left { length (digits left.now.fraction.now) < 2 ^ 64 }
    ensures right { length (digits right.now.fraction.now) < 2 ^ 64 }
{
    let left_height = left_count as i128 - count_digits(left.fraction) as i128;
    let right_height = right_count as i128 - count_digits(right.fraction) as i128;
    difference(left.exponent, right.exponent) + left_height - right_height
}

// The first of `count` digits that differ decide.
fn compare_digits(left: &[u8], right: &[u8], count: usize) -> Ordering
    ensures { result ≡ compare_first count (digits left.now) (digits right.now) }
{
    let mut left_digits = Digits {
        zeros: 0,
        bytes: left,
    };
    let mut right_digits = Digits {
        zeros: 0,
        bytes: right,
    };
    let mut places = count;
    while places > 0 {
        let left_digit = left_digits.next();
        let right_digit = right_digits.next();
        if left_digit != right_digit {
            return left_digit.cmp(&right_digit);
        }
        places -= 1;
    }
    Ordering::Equal
}
