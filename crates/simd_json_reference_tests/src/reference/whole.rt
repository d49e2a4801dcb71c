//! Rules of the input as a whole, each index by itself: its encoding, its quotes, its structural
//! indexes.
use super::bytes::{at, is_structural, is_whitespace};
use simd_json::{ErrorType, Result};
use std::alloc::Global;

fn is_tail(byte: u8) -> bool {
    matches!(byte, 0x80..=0xbf)
}

// How many bytes the character at an index has (RFC 3629, section 4), if they are one.
fn character_len(bytes: &[u8], i: usize) -> Option<usize> {
    let len = match (at(bytes, i), at(bytes, i.saturating_add(1))) {
        (0x00..=0x7f, _) => return Some(1),
        (0xc2..=0xdf, 0x80..=0xbf) => 2,
        (0xe0, 0xa0..=0xbf)
        | (0xe1..=0xec, 0x80..=0xbf)
        | (0xed, 0x80..=0x9f)
        | (0xee..=0xef, 0x80..=0xbf) => 3,
        (0xf0, 0x90..=0xbf) | (0xf1..=0xf3, 0x80..=0xbf) | (0xf4, 0x80..=0x8f) => 4,
        _ => return None,
    };
    let third = is_tail(at(bytes, i.saturating_add(2)));
    let fourth = is_tail(at(bytes, i.saturating_add(3)));
    ((len < 3 || third) && (len < 4 || fourth)).then_some(len)
}

fn is_utf8(bytes: &[u8]) -> bool {
    let mut next = 0usize;
    for i in 0..bytes.len() {
        if i == next {
            let Some(len) = character_len(bytes, i) else {
                return false;
            };
            next = i.saturating_add(len);
        }
    }
    true
}

// How many backslashes stand right before an index.
fn backslashes_before(bytes: &[u8], i: usize) -> usize {
    let mut run = 0usize;
    for byte in bytes.iter().take(i) {
        run = if *byte == b'\\' {
            run.saturating_add(1)
        } else {
            0
        };
    }
    run
}

fn is_real_quote(bytes: &[u8], i: usize) -> bool {
    at(bytes, i) == b'"' && backslashes_before(bytes, i) % 2 == 0
}

// How many real quotes there are before an index.
fn real_quotes_before(bytes: &[u8], end: usize) -> usize {
    let mut quotes = 0usize;
    for i in 0..end {
        if is_real_quote(bytes, i) {
            quotes = quotes.saturating_add(1);
        }
    }
    quotes
}

// From an opening quote on, up to before its closing one.
fn is_inside(bytes: &[u8], i: usize) -> bool {
    real_quotes_before(bytes, i.saturating_add(1)) % 2 == 1
}

// Whether a token may begin at an index because of the byte before it.
fn is_after_token(bytes: &[u8], i: usize) -> bool {
    let Some(before) = i.checked_sub(1) else {
        return true;
    };
    let byte = at(bytes, before);
    is_whitespace(byte)
        || (is_structural(byte) && !is_inside(bytes, before))
        || is_real_quote(bytes, before)
}

fn is_position(bytes: &[u8], i: usize) -> bool {
    let byte = at(bytes, i);
    if is_real_quote(bytes, i) {
        return is_inside(bytes, i);
    }
    let begins = is_structural(byte) || (!is_whitespace(byte) && is_after_token(bytes, i));
    begins && !is_inside(bytes, i)
}

// The structural indexes.
pub(super) fn positions(alloc: Global, bytes: &[u8]) -> Result<Vec<u32>> {
    let mut positions = Vec::new(alloc);
    for (index, i) in (0..bytes.len()).zip(0..=u32::MAX) {
        if is_position(bytes, index) {
            positions.push(i)?;
        }
    }
    Ok(positions)
}

fn has_control_inside(bytes: &[u8]) -> bool {
    for (i, byte) in bytes.iter().enumerate() {
        if *byte < 0x20 && is_inside(bytes, i) {
            return true;
        }
    }
    false
}

// The first error of the whole, in the stated order; each is at index 0, without a character.
pub(super) fn whole_fault(bytes: &[u8], has_position: bool) -> Option<ErrorType> {
    if !is_utf8(bytes) {
        return Some(ErrorType::InvalidUtf8);
    }
    if real_quotes_before(bytes, bytes.len()) % 2 == 1 {
        return Some(ErrorType::Syntax);
    }
    if !has_position {
        return Some(ErrorType::Eof);
    }
    has_control_inside(bytes).then_some(ErrorType::Syntax)
}
