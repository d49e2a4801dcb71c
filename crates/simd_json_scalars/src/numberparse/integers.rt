//! Integers: the magnitude of one of at most 19 bytes, and longer ones, or where they leave the
//! range.
ghost use Rattle.std.specs.Prelude.{◌≡◌, ◌+◌, ◌++◌, ◌≤◌, ◌<◌, ℕ, List, length, take, drop};
ghost use Rattle.std.specs.Prelude.{false, nat_le};
ghost use Rattle.std.specs.Prelude.{MatchResult, IsTrue};
ghost use Rattle.std.specs.Str.Parse.{AllDigits, digits_value};
ghost use Rattle.simd_json_parts.specs.Bytes.{byte_at, is_terminator};
ghost use Rattle.simd_json_parts.specs.Integers.{max_magnitude, max_magnitude_64, integer_node};
ghost use Rattle.simd_json_scalars.specs.NumberRead.{IsNumberAt};
ghost use Rattle.simd_json_scalars.specs.NumeralRead.{IsIntegerLiteral, IsNumeralAt};
ghost use Rattle.simd_json_parts.specs.Numbers.{integer_literal};
ghost use Rattle.simd_json_parts.specs.Patterns.{Matches};
ghost use Rattle.simd_json_scalars.specs.declared.numberparse.Number.TheVariants.{Integer, Invalid};

use super::Numeral;
use simd_json_parts::charutils::byte_or_space;
use simd_json_parts::node::StaticNode;

// A literal before a terminator or the end. At most 19 bytes fit 64 bits, whatever their sign.
#[inline(always)]
pub(super) fn integer(literal: &[u8]) -> Numeral
    requires { Matches integer_literal literal.now }
    ensures { (b : List ℕ) (i : ℕ) (rest : List ℕ) → drop i b ≡ literal.now ++ rest
        → IsTrue (is_terminator (byte_at rest 0)) → IsNumeralAt b i result }
{
    if literal.len() > 19 {
        return Numeral::Long(literal.len());
    }
    let minus = byte_or_space(literal, 0) == b'-';
    Numeral::Integer(short_magnitude(&literal[minus as usize..]))
}

/// Reads the integer at the front of `bytes` whose literal has `len` bytes: returns its node or, if
/// it is out of range, the offset of the error from the first byte.
#[cold]
#[inline(never)]
pub fn parse_long(bytes: &[u8], len: usize) -> Result<StaticNode, usize>
    requires { IsIntegerLiteral bytes.now len }
    ensures { (b : List ℕ) (i : ℕ) → drop i b ≡ bytes.now → MatchResult result
        (λ node. IsNumberAt b i (Integer node len)) (λ offset. IsNumberAt b i (Invalid offset)) }
{
    long_integer(&bytes[..len])
}

// A literal of any length before a terminator or the end.
fn long_integer(literal: &[u8]) -> Result<StaticNode, usize>
    requires { Matches integer_literal literal.now }
    ensures { (b : List ℕ) (i : ℕ) (rest : List ℕ) → drop i b ≡ literal.now ++ rest
        → IsTrue (is_terminator (byte_at rest 0)) → MatchResult result
        (λ node. IsNumberAt b i (Integer node (length literal.now)))
        (λ offset. IsNumberAt b i (Invalid offset)) }
{
    let minus = byte_or_space(literal, 0) == b'-';
    let start = minus as usize;
    match long_magnitude(&literal[start..]) {
        Ok(value) if is_in_range(minus, value) => Ok(wide_node(minus, value)),
        Ok(_) => Err(literal.len()),
        Err(offset) => Err(start + offset),
    }
}

/// The node of the integer of this magnitude, negative if `minus`. Requires that it fits 64
/// bits.
#[inline]
pub fn integer_node(minus: bool, magnitude: u64) -> StaticNode
    requires { magnitude ≤ max_magnitude_64 minus }
    ensures { result ≡ integer_node minus magnitude }
{
    if !minus {
        StaticNode::U64(magnitude)
    } else if magnitude < 1 << 63 {
        StaticNode::I64(-(magnitude as i64))
    } else {
        // The least integer has no positive counterpart.
        StaticNode::I64(i64::MIN)
    }
}

// The same of any magnitude in range: of a kind of 64 bits where these hold it, else of 128.
fn wide_node(minus: bool, magnitude: u128) -> StaticNode
    requires { magnitude ≤ max_magnitude minus }
    ensures { result ≡ integer_node minus magnitude }
{
    let most = if minus { 1 << 63 } else { u64::MAX as u128 };
    if magnitude <= most {
        integer_node(minus, magnitude as u64)
    } else if !minus {
        StaticNode::U128(magnitude)
    } else if magnitude < 1 << 127 {
        StaticNode::I128(-(magnitude as i128))
    } else {
        // The least integer has no positive counterpart.
        StaticNode::I128(i128::MIN)
    }
}

// The least integer has no positive counterpart.
fn is_in_range(minus: bool, magnitude: u128) -> bool
    ensures { result ≡ nat_le magnitude (max_magnitude minus) }
{
    const LEAST: u128 = 1 << 127;
    !minus || magnitude <= LEAST
}

// Nineteen digits stay below 2^64.
#[inline(always)]
fn short_magnitude(digits: &[u8]) -> u64
    requires digits { AllDigits 10 digits.now }
    requires short { length digits.now ≤ 19 }
    ensures { result ≡ digits_value 10 digits.now }
{
    let mut value = 0;
    for digit in digits {
        value = value * 10 + (*digit - b'0') as u64;
    }
    value
}

// Thirty-eight stay below 2^128: two runs of nineteen, joined by one multiplication.
fn wide_magnitude(digits: &[u8]) -> u128
    requires digits { AllDigits 10 digits.now }
    requires short { length digits.now ≤ 38 }
    ensures { result ≡ digits_value 10 digits.now }
{
    let first = digits.len().min(19);
    let high = short_magnitude(&digits[..first]);
    let power = 10u64.pow((digits.len() - first) as u32);
    let low = short_magnitude(&digits[first..]);
    high as u128 * power as u128 + low as u128
}

// The value, or the index of the first digit with which it exceeds 2^128 - 1.
fn long_magnitude(digits: &[u8]) -> Result<u128, usize>
    requires { AllDigits 10 digits.now }
    ensures { MatchResult result (λ value. value ≡ digits_value 10 digits.now)
        (λ at. (at < length digits.now)
        × (digits_value 10 (take at digits.now) ≤ max_magnitude false)
        × (max_magnitude false < digits_value 10 (take (at + 1) digits.now))) }
{
    let first = digits.len().min(38);
    let mut value = wide_magnitude(&digits[..first]);
    for at in first..digits.len() {
        let digit = (digits[at] - b'0') as u128;
        if value > (u128::MAX - digit) / 10 {
            return Err(at);
        }
        value = value * 10 + digit;
    }
    Ok(value)
}
