//! Numbers, `true`, `false` and `null` at the front of bytes.
ghost use Rattle.std.specs.Prelude.{◌≡◌, ◌==◌, ◌||◌, ◌&&◌, ℕ, List, length, drop, nat_eq};
ghost use Rattle.std.specs.Char.{is_ascii_digit};
ghost use Rattle.std.specs.List.{starts_with};
ghost use Rattle.simd_json_parts.specs.Bytes.{byte_at, is_terminator, minus_sign};
ghost use Rattle.simd_json_scalars.specs.NumeralRead.{IsNumeralAt};

use crate::numberparse::{Numeral, is_integer, parse_numeral, parse_short};
use simd_json_parts::charutils::{byte_or_space, is_structural_or_whitespace};

/// Returns whether a number may begin with the byte.
#[inline(always)]
pub fn begins_number(c: u8) -> bool
    ensures { result ≡ ((c == minus_sign) || is_ascii_digit c) }
{
    c == b'-' || is_integer(c)
}

/// Reads the number at the front, and returns its value, its literal or where it is rejected.
#[inline(always)]
pub fn numeral(bytes: &[u8]) -> Numeral
    ensures { (b : List ℕ) (i : ℕ) → drop i b ≡ bytes.now → IsNumeralAt b i result }
{
    match parse_short(bytes) {
        Some(numeral) => numeral,
        None => parse_numeral(bytes),
    }
}

/// Returns whether the letters are at the front, and after them a byte that may follow a scalar.
#[inline(always)]
pub fn spells(bytes: &[u8], letters: &[u8]) -> bool
    ensures { result ≡ (starts_with nat_eq bytes.now letters.now
        && is_terminator (byte_at bytes.now (length letters.now))) }
{
    bytes.starts_with(letters) && is_structural_or_whitespace(byte_or_space(bytes, letters.len()))
}
