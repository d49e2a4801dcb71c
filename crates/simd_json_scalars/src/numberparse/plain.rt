//! Reads a number byte by byte: at the end of an input, long numbers and most invalid ones.
ghost use Rattle.std.specs.Prelude.{◌≡◌, ◌+◌, ◌==◌, ◌≤◌, ℕ, List, length, take, drop};
ghost use Rattle.std.specs.Prelude.{if◌then◌else◌};
ghost use Rattle.std.specs.Char.{is_ascii_digit};
ghost use Rattle.std.specs.List.{prefix_len};
ghost use Rattle.simd_json_parts.specs.Bytes.{byte_at};
ghost use Rattle.simd_json_parts.specs.Derivatives.{longest_prefix, matches};
ghost use Rattle.simd_json_parts.specs.Numbers.{frac, exp};
ghost use Rattle.simd_json_scalars.specs.NumeralRead.{IsNumeralAt};
ghost use Rattle.simd_json_parts.specs.Patterns.{optional, ◌then◌};

use super::integers::integer;
use super::{Numeral, is_integer};
use simd_json_parts::charutils::{byte_or_space, is_structural_or_whitespace};

// The number at the front.
#[cold]
#[inline(never)]
pub(super) fn parse_plainly(bytes: &[u8]) -> Numeral
    ensures { (b : List ℕ) (i : ℕ) → drop i b ≡ bytes.now → IsNumeralAt b i result }
{
    let start = if byte_or_space(bytes, 0) == b'-' {
        1
    } else {
        0
    };
    let whole = int_end(bytes, start);
    if whole == start {
        return Numeral::Invalid(start);
    }
    match literal_end(bytes, whole) {
        Err(offset) => Numeral::Invalid(offset),
        Ok(end) => {
            if !is_structural_or_whitespace(byte_or_space(bytes, end)) {
                Numeral::Invalid(end)
            } else if end == whole {
                integer(&bytes[..end])
            } else {
                Numeral::Decimal(end)
            }
        }
    }
}

fn digits_end(bytes: &[u8], from: usize) -> usize
    requires { from ≤ length bytes.now }
    ensures value { result ≡ from + prefix_len is_ascii_digit (drop from bytes.now) }
    ensures bound { result ≤ length bytes.now }
{
    let mut end = from;
    while end < bytes.len() && is_integer(bytes[end]) {
        end += 1;
    }
    end
}

// The end of the integer part: `from` itself if there are no digits. A leading zero is the whole of
// it.
pub(super) fn int_end(bytes: &[u8], from: usize) -> usize
    requires { from ≤ length bytes.now }
    ensures value { result ≡ (if byte_at bytes.now from == 48 then from + 1
        else from + prefix_len is_ascii_digit (drop from bytes.now)) }
    ensures bound { result ≤ length bytes.now }
{
    if byte_or_space(bytes, from) == b'0' {
        from + 1
    } else {
        digits_end(bytes, from)
    }
}

// The end of the fraction and the exponent, each of which may be absent; `Err` is where one breaks
// off.
fn literal_end(bytes: &[u8], from: usize) -> Result<usize, usize>
    requires { from ≤ length bytes.now }
    ensures { let n = longest_prefix (optional frac then optional exp) (drop from bytes.now) in
        result ≡ (if matches (optional frac then optional exp) (take n (drop from bytes.now))
        then Ok (from + n) else Err (from + n)) }
{
    if byte_or_space(bytes, from) != b'.' {
        return exponent_end(bytes, from);
    }
    let digits = from + 1;
    let end = digits_end(bytes, digits);
    if end == digits {
        Err(end)
    } else {
        exponent_end(bytes, end)
    }
}

// The end of the exponent, likewise.
pub(super) fn exponent_end(bytes: &[u8], from: usize) -> Result<usize, usize>
    requires { from ≤ length bytes.now }
    ensures { let n = longest_prefix (optional exp) (drop from bytes.now) in
        result ≡ (if matches (optional exp) (take n (drop from bytes.now))
        then Ok (from + n) else Err (from + n)) }
{
    if !matches!(byte_or_space(bytes, from), b'e' | b'E') {
        return Ok(from);
    }
    let sign = from + 1;
    let digits = if matches!(byte_or_space(bytes, sign), b'+' | b'-') {
        sign + 1
    } else {
        sign
    };
    let end = digits_end(bytes, digits);
    if end == digits { Err(end) } else { Ok(end) }
}
