//! All short inputs of a few bytes, against a slow reading by the definition in words.
use super::*;

// The definition in words, byte by byte. After the end every byte is a space.
fn byte_at(text: &[u8], i: usize) -> u8 {
    text.get(i).copied().unwrap_or(b' ')
}

fn is_real_quote(text: &[u8], i: usize) -> bool {
    if byte_at(text, i) != b'"' {
        return false;
    }
    let mut is_even = true;
    for j in (0..i).rev() {
        if byte_at(text, j) != b'\\' {
            break;
        }
        is_even = !is_even;
    }
    is_even
}

fn is_whitespace_at(text: &[u8], i: usize) -> bool {
    b" \t\n\r".contains(&byte_at(text, i))
}

fn is_structural_at(text: &[u8], i: usize) -> bool {
    b"[]{}:,".contains(&byte_at(text, i))
}

fn ends_token(text: &[u8], i: usize, is_inside: bool) -> bool {
    is_whitespace_at(text, i) || is_real_quote(text, i) || (is_structural_at(text, i) && !is_inside)
}

// A structural character outside, an opening quote, or the first byte of another token. No
// whitespace is one of these.
fn starts_token(text: &[u8], i: usize, was_inside: bool, is_inside: bool) -> bool {
    if is_whitespace_at(text, i) {
        return false;
    }
    if is_real_quote(text, i) || is_inside {
        return is_real_quote(text, i) && is_inside;
    }
    is_structural_at(text, i) || i == 0 || ends_token(text, i - 1, was_inside)
}

// The spaces in front are not read: none is a position, or changes what is after it.
pub(super) fn found_slowly(alloc: Global, text: &[u8], spaces: u8) -> Result<(Vec<u32>, Vec<u32>)> {
    if str::from_utf8(text).is_err() {
        return Err(Error::generic(ErrorType::InvalidUtf8));
    }
    let mut positions = Vec::new(alloc);
    let mut blocks = Vec::new(alloc);
    let mut has_control = false;
    let mut was_inside = false;
    let mut index = u32::from(spaces);
    for i in usize::from(spaces)..text.len() {
        let is_inside = was_inside != is_real_quote(text, i);
        if is_inside && byte_at(text, i) < 0x20 {
            has_control = true;
        }
        if starts_token(text, i, was_inside, is_inside) {
            positions.push(index).map_err(AllocError::from)?;
        }
        was_inside = is_inside;
        index = index.saturating_add(1);
    }
    if was_inside || has_control {
        return Err(Error::generic(ErrorType::Syntax));
    }
    if positions.is_empty() {
        return Err(Error::generic(ErrorType::Eof));
    }
    let mut number = 0u32;
    for block in text.chunks(64) {
        if block.contains(&b'\\') {
            blocks.push(number).map_err(AllocError::from)?;
        }
        number = number.saturating_add(1);
    }
    Ok((positions, blocks))
}

#[test]
fn agrees_with_a_slow_reading(rt: HostRuntime) {
    let alphabet = [b'\\', b'"', b'a', b' ', b',', b'\n'];
    for n in 0..1296usize {
        let text = [
            b' ',
            b' ',
            b' ',
            alphabet[n % 6],
            alphabet[n / 6 % 6],
            alphabet[n / 36 % 6],
            alphabet[n / 216 % 6],
        ];
        for start in [0, 3] {
            let text = &text[start..];
            let slowly = found_slowly(rt.alloc(), text, 0);
            assert_eq!(rt; found(rt.alloc(), text), slowly, "{text:?}");
        }
    }
}

// The same round the end of a block: all inputs of five bytes after 58 to 66 spaces.
#[test]
fn agrees_with_a_slow_reading_across_blocks(rt: HostRuntime) {
    let alphabet = [b'\\', b'"', b'a', b' ', b',', b'\n'];
    let mut text = [b' '; 71];
    for spaces in 58..67u8 {
        let start = usize::from(spaces);
        for n in 0..7776usize {
            text[start] = alphabet[n % 6];
            text[start + 1] = alphabet[n / 6 % 6];
            text[start + 2] = alphabet[n / 36 % 6];
            text[start + 3] = alphabet[n / 216 % 6];
            text[start + 4] = alphabet[n / 1296 % 6];
            let text = &text[..start + 5];
            let slowly = found_slowly(rt.alloc(), text, spaces);
            assert_eq!(rt; found(rt.alloc(), text), slowly, "{text:?}");
        }
        text[start] = b' ';
    }
}
