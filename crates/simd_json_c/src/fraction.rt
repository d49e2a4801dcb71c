//! Literals with digits before and after a point and no exponent, as most numbers with a fraction
//! are.
ghost use Rattle.std.specs.Prelude.{◌≡◌, ◌+◌, ◌≤◌, ◌<◌, ◌^◌, ℕ, List, length, take, drop, IfSome};
ghost use Rattle.std.specs.Prelude.{Some};
ghost use Rattle.std.specs.Char.{is_ascii_digit};
ghost use Rattle.std.specs.Float.{binary64};
ghost use Rattle.std.specs.Float.Parse.{parse_float};
ghost use Rattle.std.specs.List.{prefix_len};
ghost use Rattle.std.specs.Str.Parse.{AllDigits, digits_value};
ghost use Rattle.simd_json_scalars.specs.DigitRuns.{AreEightBytes, word_of};
ghost use Rattle.simd_json_c.specs.Doubles.{IsFixedPoint, IsNumber};

use core::dec2flt::ten_to;
use simd_json_parts::charutils::byte_or_space;
use simd_json_scalars::numberparse::{digit_word, digits_len, is_integer, value_of_digits};

// The float nearest to at most nineteen digits: up to eight before a point and sixteen after it.
#[inline(always)]
pub(crate) fn short_fraction(literal: &[u8]) -> Option<f64>
    ensures { IfSome result (λ x. IsNumber literal.now
        × (parse_float binary64 literal.now ≡ Some x)) }
{
    let minus = byte_or_space(literal, 0) == b'-';
    let (number, places) = fixed_point(&literal[minus as usize..])?;
    Some(fast_float::from_parts(minus, number, -(places as i64)))
}

// The number without its point, and how many digits are after the point.
#[inline(always)]
fn fixed_point(bytes: &[u8]) -> Option<(u64, usize)>
    ensures parts { IfSome result (λ r. IsFixedPoint bytes.now r.0 r.1) }
    ensures few { IfSome result (λ r. r.1 ≤ 16) }
{
    let (whole, point) = leading_digits(bytes);
    if point == 0 || point + 1 >= bytes.len() || bytes[point] != b'.' || bytes.len() > 20 {
        return None;
    }
    if bytes[0] == b'0' && point > 1 {
        return None;
    }
    let places = bytes.len() - point - 1;
    if places > 16 {
        return None;
    }
    let behind = digits_after(bytes, point + 1)?;
    Some((whole * ten_to(places as u64) + behind, places))
}

// The number that up to eight digits at the front spell, and how many they are.
#[inline(always)]
fn leading_digits(bytes: &[u8]) -> (u64, usize)
    ensures run { result.1 ≤ prefix_len is_ascii_digit bytes.now }
    ensures most { result.1 ≤ 8 }
    ensures value { result.0 ≡ digits_value 10 (take result.1 bytes.now) }
{
    if bytes.len() < 8 {
        return few_digits(bytes);
    }
    let word = digit_word(bytes, 0);
    let len = digits_len(word);
    if len == 0 {
        return (0, 0);
    }
    (value_of_digits(word, len), len)
}

// The same of at most seven bytes.
#[inline(always)]
fn few_digits(bytes: &[u8]) -> (u64, usize)
    requires { length bytes.now < 8 }
    ensures run { result.1 ≤ prefix_len is_ascii_digit bytes.now }
    ensures value { result.0 ≡ digits_value 10 (take result.1 bytes.now) }
{
    let mut number = 0;
    let mut len = 0;
    while len < bytes.len() && is_integer(bytes[len]) {
        number = number * 10 + (bytes[len] - b'0') as u64;
        len += 1;
    }
    (number, len)
}

// The number that the bytes from an index on spell, at most sixteen, if all are digits.
#[inline(always)]
fn digits_after(bytes: &[u8], from: usize) -> Option<u64>
    requires { (from < length bytes.now) × (length bytes.now ≤ from + 16) }
    ensures { IfSome result (λ n. AllDigits 10 (drop from bytes.now)
        × (n ≡ digits_value 10 (drop from bytes.now))) }
{
    let len = bytes.len() - from;
    if bytes.len() < 8 {
        let (number, read) = few_digits(&bytes[from..]);
        return if read == len { Some(number) } else { None };
    }
    let last = digit_word(bytes, bytes.len() - 8);
    if len <= 8 {
        return digits_behind(last, 8 - len);
    }
    let first = digit_word(bytes, from);
    if digits_len(first) < len - 8 {
        return None;
    }
    let low = digits_behind(last, 0)?;
    Some(value_of_digits(first, len - 8) * 100_000_000 + low)
}

// The number that the bytes of a word behind its first `skipped` spell, if all are digits.
#[inline(always)]
fn digits_behind(word: u64, skipped: usize) -> Option<u64>
    requires { skipped < 8 }
    ensures fits { IfSome result (λ n. n < 2 ^ 32) }
    ensures value { (b : List ℕ) → AreEightBytes b → word ≡ word_of b
        → IfSome result (λ n. AllDigits 10 (drop skipped b)
        × (n ≡ digits_value 10 (drop skipped b))) }
{
    // Zeros come in at the end, which are digits here.
    let behind = word >> (8 * skipped);
    if digits_len(behind) < 8 {
        return None;
    }
    Some(value_of_digits(behind, 8 - skipped))
}
