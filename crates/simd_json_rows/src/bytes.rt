//! Bytes as a row has them: `%XX` is a byte, `%(N:TEXT)` a text `N` times.
use anyhow::{Context, Result};
use std::alloc::{AllocError, Global};

/// The bytes that an input denotes.
pub fn decoded(alloc: Global, input: &str) -> Result<Vec<u8>> {
    let mut bytes = Vec::new(alloc);
    let mut is_first = true;
    for part in input.split("%(") {
        if is_first {
            push_text(&mut bytes, part)?;
            is_first = false;
        } else {
            let (repeated, rest) = part.split_once(")").context("`%(` has no `)`")?;
            push_repeated(&mut bytes, repeated)?;
            push_text(&mut bytes, rest)?;
        }
    }
    Ok(bytes)
}

// `N:TEXT`
fn push_repeated(bytes: &mut Vec<u8>, repeated: &str) -> Result<()> {
    let (count, text) = repeated.split_once(":").context("`%(` has no `:`")?;
    for _ in 0..count.parse::<usize>()? {
        push_text(bytes, text)?;
    }
    Ok(())
}

// A text with a byte for each `%XX`.
fn push_text(bytes: &mut Vec<u8>, text: &str) -> Result<()> {
    let mut is_first = true;
    for part in text.split("%") {
        if is_first {
            bytes.extend_from_slice(part.as_bytes())?;
            is_first = false;
        } else {
            let (digits, rest) = part.split_at_checked(2).context("`%` has no two digits")?;
            bytes.push(u8::from_str_radix(digits, 16)?)?;
            bytes.extend_from_slice(rest.as_bytes())?;
        }
    }
    Ok(())
}

/// A result with `%XX` for what would not be seen in a line, and for `%`.
pub fn encoded(alloc: Global, text: &str) -> Result<String, AllocError> {
    let mut encoded = String::new(alloc);
    for character in text.chars() {
        if character < ' ' || character == '\u{7f}' || character == '%' {
            let byte = u32::from(character);
            encoded.push_str(format!(in alloc; "%{byte:02X}")?.as_str())?;
        } else {
            encoded.push(character)?;
        }
    }
    Ok(encoded)
}
