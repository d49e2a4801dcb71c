//! The content of a string, one byte or one escape after another.
use super::bytes::at;
use simd_json::{Error, ErrorType, Result};

fn hex_digit(byte: u8) -> Option<u32> {
    match byte {
        b'0'..=b'9' => Some(u32::from(byte.saturating_sub(b'0'))),
        b'a'..=b'f' => Some(u32::from(byte.saturating_sub(b'a')).saturating_add(10)),
        b'A'..=b'F' => Some(u32::from(byte.saturating_sub(b'A')).saturating_add(10)),
        _ => None,
    }
}

// The code unit of a `\u` escape at an index, if there is one.
fn code_unit(bytes: &[u8], i: usize) -> Option<u32> {
    if at(bytes, i) != b'\\' || at(bytes, i.saturating_add(1)) != b'u' {
        return None;
    }
    let mut unit = 0u32;
    for k in 2..6usize {
        let digit = hex_digit(at(bytes, i.saturating_add(k)))?;
        unit = unit.saturating_mul(16).saturating_add(digit);
    }
    Some(unit)
}

// The character of one `\u` escape or of a pair of them, and how many bytes are read.
fn escaped_character(bytes: &[u8], i: usize) -> Option<(u32, usize)> {
    match (code_unit(bytes, i)?, code_unit(bytes, i.saturating_add(6))) {
        (high @ 0xd800..=0xdbff, Some(low @ 0xdc00..=0xdfff)) => {
            let upper = high.saturating_sub(0xd800).saturating_mul(0x400);
            let lower = low.saturating_sub(0xdc00);
            Some((upper.saturating_add(lower).saturating_add(0x1_0000), 12))
        }
        (0xd800..=0xdfff, _) => None,
        (unit, _) => Some((unit, 6)),
    }
}

// The byte after the first that has six bits more of a character.
fn tail(bits: u32) -> u8 {
    0x80 | (bits % 0x40) as u8
}

// Writes a character as UTF-8 (RFC 3629, section 3).
fn push_character(text: &mut Vec<u8>, c: u32) -> Result<()> {
    if c < 0x80 {
        text.push((c % 0x80) as u8)?;
        return Ok(());
    }
    if c < 0x800 {
        text.push(0xc0 | (c / 0x40 % 0x20) as u8)?;
    } else {
        if c < 0x1_0000 {
            text.push(0xe0 | (c / 0x1000 % 0x10) as u8)?;
        } else {
            text.push(0xf0 | (c / 0x4_0000 % 0x08) as u8)?;
            text.push(tail(c / 0x1000))?;
        }
        text.push(tail(c / 0x40))?;
    }
    text.push(tail(c))?;
    Ok(())
}

// Reads the escape at an index. Returns the index after it.
fn escape(bytes: &[u8], i: usize, text: &mut Vec<u8>) -> Result<usize> {
    let letter = at(bytes, i.saturating_add(1));
    let byte = match letter {
        b'"' | b'\\' | b'/' => letter,
        b'b' => 0x08,
        b'f' => 0x0c,
        b'n' => b'\n',
        b'r' => b'\r',
        b't' => b'\t',
        b'u' => return unicode_escape(bytes, i, text),
        _ => {
            let kind = ErrorType::InvalidEscape;
            return Err(Error::new(i, Some(char::from(letter)), kind));
        }
    };
    text.push(byte)?;
    Ok(i.saturating_add(2))
}

fn unicode_escape(bytes: &[u8], i: usize, text: &mut Vec<u8>) -> Result<usize> {
    let Some((character, len)) = escaped_character(bytes, i) else {
        let kind = ErrorType::InvalidUnicodeCodepoint;
        return Err(Error::new(i, Some('u'), kind));
    };
    push_character(text, character)?;
    Ok(i.saturating_add(len))
}

// Reads what follows an opening quote. Returns the index after the closing quote.
pub(super) fn content(bytes: &[u8], start: usize, text: &mut Vec<u8>) -> Result<usize> {
    let mut next = start;
    for _ in 0..bytes.len() {
        match at(bytes, next) {
            b'"' => break,
            b'\\' => next = escape(bytes, next, text)?,
            byte => {
                text.push(byte)?;
                next = next.saturating_add(1);
            }
        }
    }
    Ok(next.saturating_add(1))
}
