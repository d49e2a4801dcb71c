//! Strings by the thousand, beside a plain reader that writes into other memory.
use super::read;
use std::test::Fail;

// What the definition says of a string, read plainly: its end, or the index and the letter of its
// first bad escape.
#[derive(Clone, Copy, Debug, Drop)]
enum Expected {
    ParsedString(usize),
    Bad(usize, u8),
}

fn byte_or_space(bytes: &[u8], i: usize) -> u8 {
    match bytes.get(i) {
        Some(c) => *c,
        None => b' ',
    }
}

// First the closing quote, then one character after another, into other memory.
fn reference(bytes: &[u8], string: &mut Vec<u8>) -> std::result::Result<Expected, Fail> {
    let mut end = 1;
    let mut is_escaped = false;
    for i in 1..bytes.len() {
        end = i;
        let c = byte_or_space(bytes, i);
        if c == b'"' && !is_escaped {
            break;
        }
        is_escaped = c == b'\\' && !is_escaped;
    }
    let mut skip = 0;
    for i in 1..end {
        let c = byte_or_space(bytes, i);
        if skip > 0 {
            skip -= 1;
        } else if c != b'\\' {
            string.push(c)?;
        } else {
            match bytes.get(i..end).and_then(piece) {
                Some((character, more)) => {
                    let mut buffer = [0; 4];
                    string.extend_from_slice(character.encode_utf8(&mut buffer).as_bytes())?;
                    skip = more;
                }
                None => return Ok(Expected::Bad(i, byte_or_space(bytes, i + 1))),
            }
        }
    }
    Ok(Expected::ParsedString(end))
}

// The character of the escape at the front, and how many bytes of it follow the backslash.
fn piece(content: &[u8]) -> Option<(char, usize)> {
    let simple: [(u8, char); 8] = [
        (b'"', '"'),
        (b'\\', '\\'),
        (b'/', '/'),
        (b'b', '\u{8}'),
        (b'f', '\u{c}'),
        (b'n', '\n'),
        (b'r', '\r'),
        (b't', '\t'),
    ];
    for (letter, character) in &simple {
        if *content.get(1)? == *letter {
            return Some((*character, 1));
        }
    }
    let first = number(content)?;
    if let Some(character) = char::from_u32(first) {
        return Some((character, 5));
    }
    let second = number(content.get(6..)?)?;
    if first >= 0xdc00 || !matches!(second, 0xdc00..=0xdfff) {
        return None;
    }
    let character = char::from_u32(0x10000 + ((first & 0x3ff) << 10) + (second & 0x3ff))?;
    Some((character, 11))
}

fn number(content: &[u8]) -> Option<u32> {
    if content.get(..2)? != b"\\u".as_slice() {
        return None;
    }
    let mut value: u32 = 0;
    for c in content.get(2..6)? {
        value = value.wrapping_mul(16) | (*c as char).to_digit(16)?;
    }
    Some(value)
}

// Whether the reader of strings returns what the reference does; the bytes are rewritten.
fn agrees(rt: &HostRuntime, bytes: &mut Vec<u8>) -> std::result::Result<bool, Fail> {
    let mut string = Vec::new(rt.alloc());
    let expected = reference(bytes.as_slice(), &mut string)?;
    let copy = bytes.clone()?;
    Ok(match (read(bytes.as_mut_slice()), expected) {
        (Some(Ok(read)), Expected::ParsedString(end)) => {
            read.string.as_bytes() == string.as_slice()
                && read.len == end.wrapping_add(1)
                && copy.get(read.len..) == Some(&*read.rest)
        }
        (Some(Err(bad)), Expected::Bad(index, letter)) => {
            bad.offset == index && bad.letter == letter
        }
        _ => false,
    })
}

#[test]
fn every_string_of_up_to_five_pieces_is_read(rt: HostRuntime) -> std::result::Result<(), Fail> {
    let pieces = [
        "", "a", "\u{e9}", "\\n", "\\\"", "\\\\", "\\u00E9", "\\ud83d", "\\uDE00", "\\x",
    ];
    for n in 0..100_000 {
        let mut bytes = Vec::new(rt.alloc());
        bytes.push(b'"')?;
        let mut rest = n;
        for _ in 0..5 {
            if let Some(piece) = pieces.get(rest % 10) {
                bytes.extend_from_slice(piece.as_bytes())?;
            }
            rest /= 10;
        }
        bytes.extend_from_slice(b"\"x\"")?;
        assert!(rt; agrees(&rt, &mut bytes)?, "{n}");
    }
    Ok(())
}

#[test]
fn every_escaped_byte_is_read(rt: HostRuntime) -> std::result::Result<(), Fail> {
    for letter in 0..=0x7ff {
        let mut bytes = Vec::new(rt.alloc());
        bytes.extend_from_slice(b"\"a\\")?;
        if let Some(character) = char::from_u32(letter) {
            let mut buffer = [0; 4];
            bytes.extend_from_slice(character.encode_utf8(&mut buffer).as_bytes())?;
        }
        bytes.extend_from_slice(b"1234\\n\" ")?;
        assert!(rt; agrees(&rt, &mut bytes)?, "{letter}");
    }
    Ok(())
}

#[test]
fn every_pair_of_boundary_numbers_is_read(rt: HostRuntime) -> std::result::Result<(), Fail> {
    let numbers = [
        "0000", "001f", "007F", "0080", "07ff", "0800", "D7ff", "d800", "dBFF", "dc00", "Dfff",
        "e000", "FFFF", "12", "g000", "000G",
    ];
    for first in &numbers {
        for second in &numbers {
            for between in &["", "\\n", "a"] {
                let mut bytes = Vec::new(rt.alloc());
                bytes.extend_from_slice(b"\"\\u")?;
                bytes.extend_from_slice(first.as_bytes())?;
                bytes.extend_from_slice(between.as_bytes())?;
                bytes.extend_from_slice(b"\\u")?;
                bytes.extend_from_slice(second.as_bytes())?;
                bytes.extend_from_slice(b"\"")?;
                assert!(rt; agrees(&rt, &mut bytes)?, "{first} {between} {second}");
            }
        }
    }
    Ok(())
}

#[test]
fn every_run_of_backslashes_is_read_at_every_offset(
    rt: HostRuntime,
) -> std::result::Result<(), Fail> {
    for spaces in 0..128 {
        for backslashes in 0..131 {
            let mut bytes = Vec::new(rt.alloc());
            bytes.push(b'"')?;
            for _ in 0..spaces {
                bytes.push(b' ')?;
            }
            for _ in 0..backslashes {
                bytes.push(b'\\')?;
            }
            bytes.extend_from_slice(b"\"ab\",")?;
            assert!(rt; agrees(&rt, &mut bytes)?, "{spaces} {backslashes}");
        }
    }
    Ok(())
}

#[test]
fn strings_end_at_every_offset(rt: HostRuntime) -> std::result::Result<(), Fail> {
    for prefix in 0..70 {
        for back in 0..70 {
            let mut bytes = Vec::new(rt.alloc());
            bytes.push(b'"')?;
            for _ in 0..prefix {
                bytes.push(b'a')?;
            }
            bytes.extend_from_slice(b"\\t")?;
            for _ in 0..back {
                bytes.push(b'b')?;
            }
            bytes.push(b'"')?;
            for _ in 0..prefix {
                bytes.push(b'c')?;
            }
            assert!(rt; agrees(&rt, &mut bytes)?, "{prefix} {back}");
        }
    }
    Ok(())
}

// A run of letters of which those next to each other differ.
fn push_letters(bytes: &mut Vec<u8>, count: usize) -> std::result::Result<(), Fail> {
    for letter in (b'a'..=b'z').cycle().take(count) {
        bytes.push(letter)?;
    }
    Ok(())
}

// Runs of up to 70 bytes, moved down by as much as each kind of escape leaves free.
#[test]
fn runs_between_escapes_are_moved(rt: HostRuntime) -> std::result::Result<(), Fail> {
    for escape in &["\\n", "\\u00e9", "\\u20ac", "\\ud83d\\ude00"] {
        for first in &[0usize, 20, 31, 32, 33] {
            for run in 0..=70usize {
                let mut bytes = Vec::new(rt.alloc());
                bytes.push(b'"')?;
                push_letters(&mut bytes, *first)?;
                for _ in 0..3 {
                    bytes.extend_from_slice(escape.as_bytes())?;
                    push_letters(&mut bytes, run)?;
                }
                bytes.push(b'"')?;
                push_letters(&mut bytes, *first)?;
                assert!(rt; agrees(&rt, &mut bytes)?, "{escape} {first} {run}");
            }
        }
    }
    Ok(())
}
