//! The text of a line around a place, and a caret under it.
ghost use Rattle.std.specs.Prelude.{◌≡◌, ◌≤◌, ◌++◌, IfOk, OnOk, drop, length, string_bytes, take};
ghost use Rattle.std.specs.List.{after_last, position_or_len};
ghost use Rattle.jcheck.specs.Excerpts.{caret, characters, end_text, excerpt};
ghost use Rattle.jcheck.specs.Excerpts.{first_characters, front_text, last_characters, lossy_text};
ghost use Rattle.jcheck.specs.Excerpts.{visible};
ghost use Rattle.simd_json_check.specs.Locations.{begins_character, is_line_feed};

use std::alloc::{AllocError, Global};
use unicode_width::UnicodeWidthStr;

/// How the text around a place is shown.
#[derive(Clone, Copy)]
pub struct Style {
    /// How many characters of a line are shown at most.
    pub width: usize,
    /// Whether the caret is bold and red.
    pub is_colored: bool,
}

/// Returns a line with the characters around a byte of the input that are in its line, and a line
/// with a caret under that byte. At most `style.width` characters are shown, and half of them
/// before the byte; where the line is cut, `…` is the first or the last of them, if there is room
/// for it. Control characters are shown as spaces, a byte order mark by its number, and what is not
/// UTF-8 as U+FFFD.
///
/// Returns an error if an allocation fails.
pub fn excerpt(alloc: Global, input: &[u8], byte: usize, style: Style) -> Result<String, AllocError>
    ensures { IfOk result (λ text. string_bytes text ≡ excerpt style input.now byte) }
{
    let Style { width, is_colored } = style;
    let (before, after) = input.split_at(byte.min(input.len()));
    let (_, line) = before.split_at(line_start(before));
    let (rest, _) = after.split_at(line_end(after));
    let indent = characters(line).min(width / 2);
    let end = end_text(alloc, line, width / 2)?;
    let front = front_text(alloc, rest, width.saturating_sub(indent))?;
    let spaces = " ".repeat(alloc, end.as_str().width())?;
    let caret = caret(is_colored);
    format!(in alloc; "{end}{front}\n{spaces}{caret}\n")
}

// Bold and red, if it is coloured.
fn caret(is_colored: bool) -> &'static str
    ensures { result.now ≡ caret is_colored }
{
    if is_colored { "\x1b[1;31m^\x1b[m" } else { "^" }
}

// The end of a text, in at most `most` characters.
fn end_text(alloc: Global, bytes: &[u8], most: usize) -> Result<String, AllocError>
    ensures { IfOk result (λ text. string_bytes text ≡ end_text most bytes.now) }
{
    let Some(kept) = most.checked_sub(1) else {
        return Ok(String::new(alloc));
    };
    if characters(bytes) <= most {
        return shown(alloc, bytes);
    }
    let (_, end) = bytes.split_at(step_back(bytes, kept));
    let end = shown(alloc, end)?;
    format!(in alloc; "\u{2026}{end}")
}

// The beginning of a text, in at most `most` characters.
fn front_text(alloc: Global, bytes: &[u8], most: usize) -> Result<String, AllocError>
    ensures { IfOk result (λ text. string_bytes text ≡ front_text most bytes.now) }
{
    let Some(kept) = most.checked_sub(1) else {
        return Ok(String::new(alloc));
    };
    if characters(bytes) <= most {
        return shown(alloc, bytes);
    }
    let (front, _) = bytes.split_at(step_on(bytes, kept));
    let front = shown(alloc, front)?;
    format!(in alloc; "{front}\u{2026}")
}

// The index after which `most` characters are left, or 0 if there are fewer.
fn step_back(bytes: &[u8], most: usize) -> usize
    ensures left { drop result bytes.now ≡ last_characters most bytes.now }
    ensures bound { result ≤ length bytes.now }
{
    let mut start = bytes.len();
    let mut count = 0usize;
    while start > 0 && count < most {
        start -= 1;
        if begins_character(bytes[start]) {
            count += 1;
        }
    }
    start
}

// The index before which `most` characters are, or all if there are fewer.
fn step_on(bytes: &[u8], most: usize) -> usize
    ensures passed { take result bytes.now ≡ first_characters most bytes.now }
    ensures bound { result ≤ length bytes.now }
{
    let mut end = 0usize;
    let mut left = most;
    while end < bytes.len() {
        if begins_character(bytes[end]) {
            if left == 0 {
                break;
            }
            left -= 1;
        }
        end += 1;
    }
    end
}

// The index after the last line feed, or 0.
fn line_start(bytes: &[u8]) -> usize
    ensures start { drop result bytes.now ≡ after_last is_line_feed bytes.now }
    ensures bound { result ≤ length bytes.now }
{
    let mut start = bytes.len();
    while start > 0 && bytes[start - 1] != b'\n' {
        start -= 1;
    }
    start
}

// The index of the first line feed, or the length.
fn line_end(bytes: &[u8]) -> usize
    ensures end { result ≡ position_or_len is_line_feed bytes.now }
    ensures bound { result ≤ length bytes.now }
{
    let mut end = 0;
    while end < bytes.len() && bytes[end] != b'\n' {
        end += 1;
    }
    end
}

fn characters(bytes: &[u8]) -> usize
    ensures { result ≡ characters bytes.now }
{
    bytes.iter().filter(|c| begins_character(**c)).count()
}

// Whether the byte is not a later one of its character (RFC 3629, section 3).
fn begins_character(byte: u8) -> bool
    ensures { result ≡ begins_character byte }
{
    !matches!(byte, 0x80..=0xbf)
}

// The text of the bytes, all of it visible.
fn shown(alloc: Global, bytes: &[u8]) -> Result<String, AllocError>
    ensures { IfOk result (λ text. string_bytes text ≡ lossy_text bytes.now) }
{
    let lossy = String::from_utf8_lossy(alloc, bytes)?;
    let mut text = String::new(alloc);
    for c in lossy.as_str().chars() {
        push_visible(&mut text, c)?;
    }
    Ok(text)
}

// A control character is shown as a space, and a byte order mark by its number.
fn push_visible(text: &mut String, c: char) -> Result<(), AllocError>
    ensures { OnOk result (string_bytes text.new ≡ string_bytes text.old ++ visible c) }
{
    if c.is_control() {
        text.push(' ')
    } else if c == '\u{feff}' {
        text.push_str("<U+FEFF>")
    } else {
        text.push(c)
    }
}
