//! Reads a number by one vector of 32 bytes.
ghost use Rattle.std.specs.Prelude.{◌≡◌, ◌+◌, ◌≤◌, ◌<◌, ◌&&◌, ℕ, List, length, take, drop, map};
ghost use Rattle.std.specs.Prelude.{if◌then◌else◌, IfSome, true};
ghost use Rattle.std.specs.Char.{is_ascii_digit};
ghost use Rattle.std.specs.List.{prefix_len};
ghost use Rattle.std.specs.Simd.Lanes.{mask_l};
ghost use Rattle.simd_json_parts.specs.Bytes.{byte_at, is_terminator};
ghost use Rattle.simd_json_parts.specs.Derivatives.{longest_prefix, matches};
ghost use Rattle.simd_json_scalars.specs.DigitRuns.{is_no_digit};
ghost use Rattle.simd_json_scalars.specs.NumeralRead.{IsNumeralAt};
ghost use Rattle.simd_json_parts.specs.Numbers.{exp};
ghost use Rattle.simd_json_parts.specs.Patterns.{optional};
ghost use Rattle.simd_json_scalars.specs.declared.numberparse.Numeral.TheVariants.{Decimal};
ghost use Rattle.simd_json_scalars.specs.declared.numberparse.Numeral.TheVariants.{Invalid};

use super::Numeral;
use super::integers::integer;
use super::plain::{exponent_end, parse_plainly};
use simd_json_parts::charutils::{byte_or_space, is_structural_or_whitespace};
use std::simd::prelude::*;

// The number at the front of 32 bytes or more, read byte by byte if the first 32 do not show the
// whole.
#[inline(never)]
pub(super) fn parse_by_look(bytes: &[u8]) -> Numeral
    requires { 32 ≤ length bytes.now }
    ensures { (b : List ℕ) (i : ℕ) → drop i b ≡ bytes.now → IsNumeralAt b i result }
{
    let stops = non_digits(u8x32::from_slice(bytes));
    let start = if bytes[0] == b'-' { 1 } else { 0 };
    let whole = run_end(stops, start);
    if whole >= 32 || whole == start || (bytes[start] == b'0' && whole != start + 1) {
        return parse_plainly(bytes);
    }
    let end = if bytes[whole] == b'.' {
        run_end(stops, whole + 1)
    } else {
        whole
    };
    if end >= 32 || end == whole + 1 {
        return parse_plainly(bytes);
    }
    if is_structural_or_whitespace(bytes[end]) {
        return if end == whole {
            integer(&bytes[..end])
        } else {
            Numeral::Decimal(end)
        };
    }
    parse_exponent(bytes, end)
}

// The end of the decimal whose point has this index, if digits and a terminator are among the first
// 32 bytes.
#[inline(always)]
pub(super) fn fraction_end(bytes: &[u8], point: usize) -> Option<usize>
    requires { (32 ≤ length bytes.now) × (point < 32) }
    ensures { IfSome result (λ end.
        (end ≡ point + 1 + prefix_len is_ascii_digit (drop (point + 1) bytes.now))
        × (point + 1 < end) × (end < length bytes.now)
        × (is_terminator (byte_at bytes.now end) ≡ true)) }
{
    let stops = non_digits(u8x32::from_slice(bytes));
    let end = run_end(stops, point + 1);
    if end >= 32 || end == point + 1 || !is_structural_or_whitespace(bytes[end]) {
        return None;
    }
    Some(end)
}

// A number whose integer part, with or without a fraction, ends at `from`, not before a terminator:
// it has an exponent, or is invalid.
#[cold]
#[inline(never)]
fn parse_exponent(bytes: &[u8], from: usize) -> Numeral
    requires { from ≤ length bytes.now }
    ensures { let n = longest_prefix (optional exp) (drop from bytes.now) in
        result ≡ (if matches (optional exp) (take n (drop from bytes.now))
        && is_terminator (byte_at bytes.now (from + n))
        then Decimal (from + n) else Invalid (from + n)) }
{
    match exponent_end(bytes, from) {
        Ok(end) if is_structural_or_whitespace(byte_or_space(bytes, end)) => Numeral::Decimal(end),
        Ok(end) | Err(end) => Numeral::Invalid(end),
    }
}

// A bit for each byte, set if it is not a digit.
#[inline]
fn non_digits(bytes: u8x32) -> u64
    ensures { result ≡ mask_l (map is_no_digit bytes) }
{
    (bytes - u8x32::splat(b'0'))
        .simd_ge(u8x32::splat(10))
        .to_bitmask()
}

// The end of the digits from an index on, if it is among the first 32 bytes.
#[inline]
fn run_end(stops: u64, from: usize) -> usize
    requires { from ≤ 32 }
    ensures { (b : List ℕ) → 32 ≤ length b → stops ≡ mask_l (map is_no_digit (take 32 b))
        → result < 32 → result ≡ from + prefix_len is_ascii_digit (drop from b) }
{
    from + (stops >> from).trailing_zeros() as usize
}
