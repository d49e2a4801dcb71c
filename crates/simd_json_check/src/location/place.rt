//! The byte that an error is at, its line and its column.
ghost use Rattle.std.specs.Prelude.{◌≡◌, ◌-◌, not, length};
ghost use Rattle.std.specs.List.{suffix_len};
ghost use Rattle.std.specs.Str.Lossy.{utf8_valid_len};
ghost use Rattle.simd_json_check.specs.Locations.{begins_character, column_of, file_line};
ghost use Rattle.simd_json_check.specs.Locations.{is_line_feed, line_at, place_of, whole_place};

use super::scan::bad_string;
use simd_json_parts::error::{Error, ErrorType};
use std::str::from_utf8;

#[tactic(auto, unfolding(crate::specs::Locations::place_of))]
pub(super) fn byte_of(input: &[u8], error: &Error) -> usize
    ensures { result ≡ place_of input.now error.now }
{
    match error.character() {
        None => whole_place(input, error.index(), error.error()),
        Some(_) => error.index(),
    }
}

// Of an error without a character.
fn whole_place(input: &[u8], i: usize, kind: &ErrorType) -> usize
    ensures { result ≡ whole_place input.now i kind.now }
{
    match kind {
        ErrorType::InputTooLarge => u32::MAX as usize,
        ErrorType::InvalidUtf8 => valid_len(input),
        ErrorType::Syntax => bad_string(input),
        ErrorType::Eof => input.len(),
        _ => i,
    }
}

// How many bytes at the front are UTF-8.
pub(super) fn valid_len(input: &[u8]) -> usize
    ensures { result ≡ utf8_valid_len input.now }
{
    match from_utf8(input) {
        Ok(_) => input.len(),
        Err(e) => e.valid_up_to(),
    }
}

pub(super) fn line(input: &[u8], byte: usize) -> usize
    ensures { result ≡ line_at input.now byte }
{
    let before = &input[..byte.min(input.len())];
    before.iter().filter(|c| **c == b'\n').count() + 1
}

// The line of a file of a line of a text that begins in its line `first`.
pub(super) fn file_line(first: usize, line: usize) -> usize
    ensures { result ≡ file_line first line }
{
    first.saturating_add(line.saturating_sub(1))
}

pub(super) fn column(input: &[u8], byte: usize) -> usize
    ensures { result ≡ column_of input.now byte }
{
    let before = &input[..byte.min(input.len())];
    let line = &before[line_start(before)..];
    line.iter().filter(|c| begins_character(**c)).count() + 1
}

// The index after the last line feed, or 0.
fn line_start(bytes: &[u8]) -> usize
    ensures { result ≡ length bytes.now - suffix_len (λ c. not (is_line_feed c)) bytes.now }
{
    let mut start = bytes.len();
    while start > 0 && bytes[start - 1] != b'\n' {
        start -= 1;
    }
    start
}

// Whether the byte is not a later one of its character (RFC 3629, section 3).
fn begins_character(byte: u8) -> bool
    ensures { result ≡ begins_character byte }
{
    !matches!(byte, 0x80..=0xbf)
}
