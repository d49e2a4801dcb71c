//! Integers (RFC 9535, section 2.3.3.1): no leading zero, and exact as floating-point numbers.
ghost use Rattle.std.specs.Prelude.{◌≡◌, ◌<◌, ◌≤◌, ◌^◌, ◌++◌, ◌∷◌, ℕ, List, length, IfOk};
ghost use Rattle.std.specs.Prelude.{encode_utf8, neg_ℤ, pos};
ghost use Rattle.std.specs.Char.{digit_value};
ghost use Rattle.simd_json_query.specs.Choices.{Optional};
ghost use Rattle.simd_json_query.specs.Steps.{Integer, Natural};

use crate::text::PathExpected;
use crate::text::cursor::{Stop, after, next};

// The greatest magnitude.
const MAX: u64 = (1 << 53) - 1;

// An integer, if one is there, and what is after it.
pub(super) fn optional(rest: &str) -> Result<(Option<i64>, &str), Stop>
    ensures integer { IfOk result (λ r. Optional r.0 rest.now r.1.now) }
    ensures shorter { IfOk result (λ r. length r.1.now ≤ length rest.now) }
{
    if !begins_integer(rest) {
        return Ok((None, rest));
    }
    let (value, others) = integer(rest)?;
    Ok((Some(value), others))
}

pub(super) fn begins_integer(rest: &str) -> bool {
    match next(rest) {
        Some((first, _)) => first == '-' || first.is_ascii_digit(),
        None => false,
    }
}

fn integer(rest: &str) -> Result<(i64, &str), Stop>
    ensures integer { IfOk result (λ r. Integer r.0 rest.now r.1.now) }
    ensures shorter { IfOk result (λ r. length r.1.now ≤ length rest.now) }
{
    if let Some(others) = after(rest, '0') {
        return Ok((0, others));
    }
    if let Some(digits) = after(rest, '-') {
        let (value, others) = positive(digits, rest)?;
        return Ok((negated(value), others));
    }
    let (value, others) = positive(rest, rest)?;
    Ok((value as i64, others))
}

fn negated(value: u64) -> i64
    requires { value < 2 ^ 53 }
    ensures { result ≡ neg_ℤ (pos value) }
{
    -(value as i64)
}

// A number above zero. Where it is too great, that is said of the `whole` integer.
fn positive<'t>(rest: &'t str, whole: &str) -> Result<(u64, &'t str), Stop>
    ensures some { IfOk result (λ r. 0 < r.0) }
    ensures few { IfOk result (λ r. r.0 < 2 ^ 53) }
    ensures number { IfOk result (λ r. Natural r.0 rest.now r.1.now) }
    ensures shorter { IfOk result (λ r. length r.1.now ≤ length rest.now) }
{
    let Some((first, others)) = next(rest) else {
        return Err(Stop::at(rest, PathExpected::Digit));
    };
    match first.to_digit(10) {
        Some(digit) if digit > 0 => more_digits(first, digit, others, whole),
        _ => Err(Stop::at(rest, PathExpected::Digit)),
    }
}

// The number of the first digit and those that follow.
fn more_digits<'t>(
    first: char,
    digit: u32,
    others: &'t str,
    whole: &str,
) -> Result<(u64, &'t str), Stop>
    requires digit { digit_value first ≡ digit }
    requires some { 0 < digit }
    requires few { digit < 10 }
    ensures some { IfOk result (λ r. 0 < r.0) }
    ensures few { IfOk result (λ r. r.0 < 2 ^ 53) }
    ensures number { (text : List ℕ) → text ≡ encode_utf8 first ++ others.now
        → IfOk result (λ r. Natural r.0 text r.1.now) }
    ensures shorter { IfOk result (λ r. length r.1.now ≤ length others.now) }
{
    let mut value = digit as u64;
    let mut left = others;
    'digits: while let Some((next, behind)) = next(left) {
        let Some(digit) = next.to_digit(10) else {
            return Ok((value, left));
        };
        value = value * 10 + digit as u64;
        if value > MAX {
            return Err(Stop::at(whole, PathExpected::SmallerInteger));
        }
        left = behind;
    }
    Ok((value, left))
}
