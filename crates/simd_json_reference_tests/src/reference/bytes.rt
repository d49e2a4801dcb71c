//! Bytes by their index, and the classes that JSON knows.

use simd_json::{Error, ErrorType};

// The byte at an index; past the end a space.
pub(crate) fn at(bytes: &[u8], i: usize) -> u8 {
    bytes.get(i).copied().unwrap_or(b' ')
}

pub(super) fn is_whitespace(byte: u8) -> bool {
    matches!(byte, b' ' | b'\t' | b'\n' | b'\r')
}

pub(super) fn is_structural(byte: u8) -> bool {
    matches!(byte, b'[' | b']' | b'{' | b'}' | b':' | b',')
}

pub(super) fn is_digit(byte: u8) -> bool {
    byte.is_ascii_digit()
}

// Whether a number or a word may end before the byte at an index.
pub(super) fn is_end(bytes: &[u8], i: usize) -> bool {
    is_whitespace(at(bytes, i)) || is_structural(at(bytes, i))
}

// An error with the byte at its index.
pub(super) fn fault(bytes: &[u8], i: usize, kind: ErrorType) -> Error {
    Error::new(i, Some(char::from(at(bytes, i))), kind)
}
