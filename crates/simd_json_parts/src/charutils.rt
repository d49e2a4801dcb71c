//! Classes of bytes (RFC 8259, section 2), hexadecimal digits, and characters as UTF-8 (RFC 3629,
//! section 3).
ghost use Rattle.std.specs.Prelude.{◌≡◌, ◌≤◌, ◌++◌, if◌then◌else◌, not, length, drop, slice_index};
ghost use Rattle.std.specs.Prelude.{encode_utf8};
ghost use Rattle.std.specs.Char.{len_utf8, is_digit, digit_value};
ghost use Rattle.std.specs.List.{list_all};
ghost use Rattle.simd_json_parts.specs.Bytes.{is_terminator, is_whitespace, byte_at};
ghost use Rattle.simd_json_parts.specs.Strings.{hex_value};

/// Whether the byte is structural, `[ ] { } : ,`, or whitespace: space, tab, line feed or carriage
/// return.
///
/// A number, `true`, `false` and `null` end only before such a byte.
#[inline]
pub fn is_structural_or_whitespace(c: u8) -> bool
    ensures { result ≡ is_terminator c }
{
    TERMINATORS[c as usize]
}

/// Whether the byte is neither structural nor whitespace: the opposite of
/// [`is_structural_or_whitespace`].
pub fn is_not_structural_or_whitespace(c: u8) -> bool
    ensures { result ≡ not (is_terminator c) }
{
    !is_structural_or_whitespace(c)
}

/// Whether the byte is whitespace: space, tab, line feed or carriage return (RFC 8259, section 2).
#[inline]
pub fn is_whitespace(c: u8) -> bool
    ensures { result ≡ is_whitespace c }
{
    matches!(c, b' ' | b'\t' | b'\n' | b'\r')
}

/// Whether the bytes are whitespace alone, or none.
pub fn is_blank(bytes: &[u8]) -> bool
    ensures { result ≡ list_all is_whitespace bytes.now }
{
    bytes.iter().all(|byte| is_whitespace(*byte))
}

/// The byte at an index, or a space past the end, where a number, `true`, `false` and `null` may
/// end.
#[inline]
pub fn byte_or_space(bytes: &[u8], i: usize) -> u8
    ensures { result ≡ byte_at bytes.now i }
{
    if i < bytes.len() { bytes[i] } else { b' ' }
}

/// The number that four hexadecimal digits of either case spell, or `None` if one is not a digit.
///
/// One test of the sum shows whether all four are digits.
#[inline]
pub fn hex_to_u32_nocheck(digits: [u8; 4]) -> Option<u32>
    ensures { result ≡ hex_value (slice_index digits 0) (slice_index digits 1)
        (slice_index digits 2) (slice_index digits 3) }
{
    let value = digit_or_none(digits[0]) * 4096
        + digit_or_none(digits[1]) * 256
        + digit_or_none(digits[2]) * 16
        + digit_or_none(digits[3]);
    if value < NONE { Some(value) } else { None }
}

/// Writes the character's UTF-8 at the front of `bytes`, and returns its number of bytes.
#[inline]
pub fn codepoint_to_utf8(cp: char, bytes: &mut [u8]) -> usize
    requires { len_utf8 cp ≤ length bytes.old }
    ensures written { bytes.new ≡ encode_utf8 cp ++ drop result bytes.old }
    ensures len { result ≡ len_utf8 cp }
{
    let code = cp as u32;
    if code < 0x80 {
        bytes[0] = code as u8;
        1
    } else if code < 0x800 {
        bytes[0] = (192 + code / 64) as u8;
        bytes[1] = (128 + code % 64) as u8;
        2
    } else if code < 0x10000 {
        bytes[0] = (224 + code / 4096) as u8;
        bytes[1] = (128 + code / 64 % 64) as u8;
        bytes[2] = (128 + code % 64) as u8;
        3
    } else {
        bytes[0] = (240 + code / 262144) as u8;
        bytes[1] = (128 + code / 4096 % 64) as u8;
        bytes[2] = (128 + code / 64 % 64) as u8;
        bytes[3] = (128 + code % 64) as u8;
        4
    }
}

// For each byte from 0 on, whether it is structural or whitespace.
const TERMINATORS: [bool; 256] = [
    NO, NO, NO, NO, NO, NO, NO, NO, NO, YES, YES, NO, NO, YES, NO, NO, NO, NO, NO, NO, NO, NO, NO,
    NO, NO, NO, NO, NO, NO, NO, NO, NO, YES, NO, NO, NO, NO, NO, NO, NO, NO, NO, NO, NO, YES, NO,
    NO, NO, NO, NO, NO, NO, NO, NO, NO, NO, NO, NO, YES, NO, NO, NO, NO, NO, NO, NO, NO, NO, NO,
    NO, NO, NO, NO, NO, NO, NO, NO, NO, NO, NO, NO, NO, NO, NO, NO, NO, NO, NO, NO, NO, NO, YES,
    NO, YES, NO, NO, NO, NO, NO, NO, NO, NO, NO, NO, NO, NO, NO, NO, NO, NO, NO, NO, NO, NO, NO,
    NO, NO, NO, NO, NO, NO, NO, NO, YES, NO, YES, NO, NO, NO, NO, NO, NO, NO, NO, NO, NO, NO, NO,
    NO, NO, NO, NO, NO, NO, NO, NO, NO, NO, NO, NO, NO, NO, NO, NO, NO, NO, NO, NO, NO, NO, NO, NO,
    NO, NO, NO, NO, NO, NO, NO, NO, NO, NO, NO, NO, NO, NO, NO, NO, NO, NO, NO, NO, NO, NO, NO, NO,
    NO, NO, NO, NO, NO, NO, NO, NO, NO, NO, NO, NO, NO, NO, NO, NO, NO, NO, NO, NO, NO, NO, NO, NO,
    NO, NO, NO, NO, NO, NO, NO, NO, NO, NO, NO, NO, NO, NO, NO, NO, NO, NO, NO, NO, NO, NO, NO, NO,
    NO, NO, NO, NO, NO, NO, NO, NO, NO, NO, NO, NO, NO, NO, NO, NO, NO, NO, NO, NO, NO, NO,
];

const YES: bool = true;

const NO: bool = false;

// The value of a byte that is not a hexadecimal digit: more than four digits can spell.
const NONE: u32 = 0x10000;

// The value of each byte as a hexadecimal digit.
const DIGITS: [u32; 256] = [
    NONE, NONE, NONE, NONE, NONE, NONE, NONE, NONE, NONE, NONE, NONE, NONE, NONE, NONE, NONE, NONE,
    NONE, NONE, NONE, NONE, NONE, NONE, NONE, NONE, NONE, NONE, NONE, NONE, NONE, NONE, NONE, NONE,
    NONE, NONE, NONE, NONE, NONE, NONE, NONE, NONE, NONE, NONE, NONE, NONE, NONE, NONE, NONE, NONE,
    0, 1, 2, 3, 4, 5, 6, 7, 8, 9, NONE, NONE, NONE, NONE, NONE, NONE, NONE, 10, 11, 12, 13, 14, 15,
    NONE, NONE, NONE, NONE, NONE, NONE, NONE, NONE, NONE, NONE, NONE, NONE, NONE, NONE, NONE, NONE,
    NONE, NONE, NONE, NONE, NONE, NONE, NONE, NONE, NONE, NONE, 10, 11, 12, 13, 14, 15, NONE, NONE,
    NONE, NONE, NONE, NONE, NONE, NONE, NONE, NONE, NONE, NONE, NONE, NONE, NONE, NONE, NONE, NONE,
    NONE, NONE, NONE, NONE, NONE, NONE, NONE, NONE, NONE, NONE, NONE, NONE, NONE, NONE, NONE, NONE,
    NONE, NONE, NONE, NONE, NONE, NONE, NONE, NONE, NONE, NONE, NONE, NONE, NONE, NONE, NONE, NONE,
    NONE, NONE, NONE, NONE, NONE, NONE, NONE, NONE, NONE, NONE, NONE, NONE, NONE, NONE, NONE, NONE,
    NONE, NONE, NONE, NONE, NONE, NONE, NONE, NONE, NONE, NONE, NONE, NONE, NONE, NONE, NONE, NONE,
    NONE, NONE, NONE, NONE, NONE, NONE, NONE, NONE, NONE, NONE, NONE, NONE, NONE, NONE, NONE, NONE,
    NONE, NONE, NONE, NONE, NONE, NONE, NONE, NONE, NONE, NONE, NONE, NONE, NONE, NONE, NONE, NONE,
    NONE, NONE, NONE, NONE, NONE, NONE, NONE, NONE, NONE, NONE, NONE, NONE, NONE, NONE, NONE, NONE,
    NONE, NONE, NONE, NONE, NONE, NONE, NONE, NONE, NONE, NONE, NONE, NONE, NONE, NONE, NONE, NONE,
    NONE, NONE, NONE, NONE, NONE, NONE, NONE,
];

#[inline]
fn digit_or_none(c: u8) -> u32
    ensures value { result ≡ (if is_digit c 16 then digit_value c else 0x10000) }
    ensures bound { result ≤ 0x10000 }
{
    DIGITS[c as usize]
}
