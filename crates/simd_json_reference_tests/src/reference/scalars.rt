//! Words and numbers, one byte after another.
use super::Item;
use super::bytes::{at, fault, is_digit, is_end};
use simd_json::{Error, ErrorType, Result};

// Whether a word is at an index and ends there.
fn is_word(bytes: &[u8], start: usize, word: &[u8]) -> bool {
    for (k, letter) in word.iter().enumerate() {
        if at(bytes, start.saturating_add(k)) != *letter {
            return false;
        }
    }
    is_end(bytes, start.saturating_add(word.len()))
}

// `true`, `false` or `null`: what it is and the index after it.
pub(super) fn word(bytes: &[u8], start: usize) -> Result<(Item, usize)> {
    let (word, item, kind) = match at(bytes, start) {
        b't' => (
            b"true".as_slice(),
            Item::Truth(true),
            ErrorType::ExpectedTrue,
        ),
        b'f' => (
            b"false".as_slice(),
            Item::Truth(false),
            ErrorType::ExpectedFalse,
        ),
        _ => (b"null".as_slice(), Item::Null, ErrorType::ExpectedNull),
    };
    if !is_word(bytes, start, word) {
        return Err(fault(bytes, start, kind));
    }
    Ok((item, start.saturating_add(word.len())))
}

fn invalid(bytes: &[u8], i: usize) -> Error {
    fault(bytes, i, ErrorType::InvalidNumber)
}

// The index after one digit or more.
fn after_digits(bytes: &[u8], start: usize) -> Result<usize> {
    if !is_digit(at(bytes, start)) {
        return Err(invalid(bytes, start));
    }
    for i in start..bytes.len() {
        if !is_digit(at(bytes, i)) {
            return Ok(i);
        }
    }
    Ok(bytes.len())
}

fn after_one_of(bytes: &[u8], start: usize, these: &[u8]) -> usize {
    if these.contains(&at(bytes, start)) {
        start.saturating_add(1)
    } else {
        start
    }
}

// The index after `-`, if it is there, and `0` or digits that begin otherwise.
fn after_integer(bytes: &[u8], start: usize) -> Result<usize> {
    let digits = after_one_of(bytes, start, b"-");
    match after_one_of(bytes, digits, b"0") {
        end if end > digits => Ok(end),
        _ => after_digits(bytes, digits),
    }
}

// The index after a fraction and an exponent, where they are there.
fn after_decimals(bytes: &[u8], start: usize) -> Result<usize> {
    let mut end = start;
    let fraction = after_one_of(bytes, end, b".");
    if fraction > end {
        end = after_digits(bytes, fraction)?;
    }
    let exponent = after_one_of(bytes, end, b"eE");
    if exponent > end {
        end = after_digits(bytes, after_one_of(bytes, exponent, b"+-"))?;
    }
    Ok(end)
}

// The index after an integer and the index after the number.
pub(super) fn number_ends(bytes: &[u8], start: usize) -> Result<(usize, usize)> {
    let integer = after_integer(bytes, start)?;
    let end = after_decimals(bytes, integer)?;
    if !is_end(bytes, end) {
        return Err(invalid(bytes, end));
    }
    Ok((integer, end))
}

// The integer between two indexes, within 128 bits.
pub(super) fn integer(bytes: &[u8], start: usize, end: usize) -> Result<Item> {
    let is_negative = at(bytes, start) == b'-';
    let mut magnitude = 0u128;
    for i in after_one_of(bytes, start, b"-")..end {
        let digit = u128::from(at(bytes, i).saturating_sub(b'0'));
        let Some(more) = magnitude
            .checked_mul(10)
            .and_then(|tens| tens.checked_add(digit))
        else {
            return Err(invalid(bytes, i));
        };
        magnitude = more;
    }
    if is_negative && magnitude > i128::MIN.unsigned_abs() {
        return Err(invalid(bytes, end));
    }
    Ok(Item::Integer {
        is_negative,
        magnitude,
    })
}
