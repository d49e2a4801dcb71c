//! Reads integers of one to nineteen digits by words of eight bytes, with no loop.
ghost use Rattle.std.specs.Prelude.{◌≡◌, ◌+◌, ◌^◌, ◌≤◌, ◌<◌, ℕ, List, length, take, drop, IfSome};
ghost use Rattle.std.specs.Char.{is_ascii_digit};
ghost use Rattle.std.specs.List.{prefix_len};
ghost use Rattle.std.specs.Str.Parse.{digits_value};
ghost use Rattle.simd_json_scalars.specs.DigitRuns.{AreEightBytes, word_of};
ghost use Rattle.simd_json_scalars.specs.NumeralRead.{IsNumeralAt};

use super::Numeral;
use super::look::{fraction_end, parse_by_look};
use simd_json_parts::charutils::is_structural_or_whitespace;

/// Reads a short number at the front: an integer of one to eight digits, or a decimal with as many
/// before its point that ends within 32 bytes. Returns `None` for any other, which
/// [`parse_numeral`] reads, and if fewer than 32 bytes are left.
///
/// Inlined, and without a loop. [`parse_numeral`] is not inlined and is marked as rare, so that
/// LLVM keeps the state of the caller's loop in registers, and saves it only at that call.
///
/// [`parse_numeral`]: super::parse_numeral
#[inline(always)]
pub fn parse_short(bytes: &[u8]) -> Option<Numeral>
    ensures { (b : List ℕ) (i : ℕ) → drop i b ≡ bytes.now → IfSome result (IsNumeralAt b i) }
{
    if bytes.len() < 32 {
        return None;
    }
    let start = (bytes[0] == b'-') as usize;
    let word = digit_word(bytes, start);
    let len = digits_len(word);
    if len == 0 || (len != 1 && word % 256 == 0) {
        return None;
    }
    let end = start + len;
    if bytes[end] == b'.' {
        let end = fraction_end(bytes, end)?;
        return Some(Numeral::Decimal(end));
    }
    if !is_structural_or_whitespace(bytes[end]) {
        return None;
    }
    Some(Numeral::Integer(value_of_digits(word, len)))
}

// The number at the front, if eight bytes do not show the whole. Two words show an integer of nine
// to sixteen digits: the second is read again from where its last eight digits begin.
#[inline]
pub(super) fn parse_longer(bytes: &[u8]) -> Numeral
    requires { 32 ≤ length bytes.now }
    ensures { (b : List ℕ) (i : ℕ) → drop i b ≡ bytes.now → IsNumeralAt b i result }
{
    let start = (bytes[0] == b'-') as usize;
    let first = digit_word(bytes, start);
    if digits_len(first) < 8 || first % 256 == 0 {
        return parse_by_look(bytes);
    }
    let more = digits_len(digit_word(bytes, start + 8));
    let end = start + 8 + more;
    if more == 0 || !is_structural_or_whitespace(bytes[end]) {
        return if bytes[end].is_ascii_digit() {
            parse_longest(bytes)
        } else {
            parse_by_look(bytes)
        };
    }
    let low = value_of_digits(digit_word(bytes, end - 8), 8);
    Numeral::Integer(value_of_digits(first, more) * 100_000_000 + low)
}

// The number at the front, if sixteen bytes do not show the whole. Three words show an integer of
// 17 digits or more whose literal has at most 19 bytes, so that it fits 64 bits: the last two are
// read again from where its last sixteen digits begin. Not inlined: its registers would slow
// `parse_longer`.
#[inline(never)]
fn parse_longest(bytes: &[u8]) -> Numeral
    requires { 32 ≤ length bytes.now }
    ensures { (b : List ℕ) (i : ℕ) → drop i b ≡ bytes.now → IsNumeralAt b i result }
{
    let start = (bytes[0] == b'-') as usize;
    let first = digit_word(bytes, start);
    let second = digit_word(bytes, start + 8);
    let more = digits_len(digit_word(bytes, start + 16));
    let end = start + 16 + more;
    if more == 0
        || end > 19
        || first % 256 == 0
        || digits_len(first) < 8
        || digits_len(second) < 8
        || !is_structural_or_whitespace(bytes[end])
    {
        return parse_by_look(bytes);
    }
    let high = value_of_digits(first, more);
    let middle = value_of_digits(digit_word(bytes, end - 16), 8);
    let low = value_of_digits(digit_word(bytes, end - 8), 8);
    Numeral::Integer((high * 100_000_000 + middle) * 100_000_000 + low)
}

/// Returns the eight bytes from index `at` on as a word, the first lowest. A digit becomes its
/// value, any other byte 10 or more.
#[inline(always)]
pub fn digit_word(bytes: &[u8], at: usize) -> u64
    requires { at + 8 ≤ length bytes.now }
    ensures word { result ≡ word_of (take 8 (drop at bytes.now)) }
    ensures bytes { AreEightBytes (take 8 (drop at bytes.now)) }
{
    u64::from_le_bytes([
        bytes[at],
        bytes[at + 1],
        bytes[at + 2],
        bytes[at + 3],
        bytes[at + 4],
        bytes[at + 5],
        bytes[at + 6],
        bytes[at + 7],
    ]) ^ 0x3030_3030_3030_3030
}

/// Returns the number of digits before the first other byte of a [`digit_word`], or eight.
// No digit carries into the byte after it, so the lowest bit is that of the first byte of 10 or
// more.
#[inline(always)]
pub fn digits_len(word: u64) -> usize
    ensures most { result ≤ 8 }
    ensures run { (b : List ℕ) → AreEightBytes b → word ≡ word_of b
        → result ≡ prefix_len is_ascii_digit b }
{
    let stops = (word.wrapping_add(0x7676_7676_7676_7676) | word) & 0x8080_8080_8080_8080;
    stops.trailing_zeros() as usize / 8
}

/// Returns the number that the first `len` bytes of a [`digit_word`] spell, if all are digits.
// They are moved up behind zeros and joined to pairs; two multiplications add the pairs, each times
// its power of 100, in the upper half, as in simdjson after J. Lee, "Fast numeric string to int".
#[inline(always)]
pub fn value_of_digits(word: u64, len: usize) -> u64
    requires some { 0 < len }
    requires most { len ≤ 8 }
    ensures fits { result < 2 ^ 32 }
    ensures value { (b : List ℕ) → AreEightBytes b → word ≡ word_of b
        → len ≤ prefix_len is_ascii_digit b
        → result ≡ digits_value 10 (take len b) }
{
    let digits = word << (64 - 8 * len);
    let pairs = digits.wrapping_mul(10).wrapping_add(digits >> 8);
    let odd = (pairs & 0x0000_00ff_0000_00ff).wrapping_mul(100 + (1_000_000 << 32));
    let even = ((pairs >> 16) & 0x0000_00ff_0000_00ff).wrapping_mul(1 + (10_000 << 32));
    odd.wrapping_add(even) >> 32
}
