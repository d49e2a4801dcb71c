mod exhaustive;

use simd_json_scalars::stringparse::{BadEscape, ParsedString, parse_str};
use std::test::Fail;

// Whether a string is at the front, up to its closing quote.
fn is_closed(bytes: &[u8]) -> bool {
    if bytes.len() == 0 || bytes[0] != b'"' {
        return false;
    }
    let mut is_escaped = false;
    let mut i = 1;
    while i < bytes.len() {
        if (bytes[i] == b'"') & !is_escaped {
            return true;
        }
        is_escaped = (bytes[i] == b'\\') & !is_escaped;
        i += 1;
    }
    false
}

fn read<'de>(bytes: &'de mut [u8]) -> Option<std::result::Result<ParsedString<'de>, BadEscape>> {
    if !is_closed(bytes) || str::from_utf8(bytes).is_err() {
        return None;
    }
    Some(parse_str(bytes))
}

#[test]
fn a_string_is_read(rt: HostRuntime) {
    let mut bytes = *b"\"a\\n\\u00e9\\ud83d\\ude00b\",1";
    match read(&mut bytes) {
        Some(Ok(read)) => {
            assert_eq!(rt; read.string, "a\n\u{e9}\u{1f600}b");
            assert_eq!(rt; read.len, 24);
            assert_eq!(rt; &*read.rest, b",1".as_slice());
        }
        _ => assert!(rt; false),
    }
}

const STRINGS: [(&[u8], &str); 18] = [
    (b"\"snot\"", "snot"),
    (b"\"\"", ""),
    (b"\"{\\\"arg\\\":\\\"test\\\"}\"", "{\"arg\":\"test\"}"),
    (b"\"\\u000e\"", "\u{e}"),
    (b"\"\\u00E9\\u20ac\"", "\u{e9}\u{20ac}"),
    (b"\"\\/\"", "/"),
    (b"\"x\\u0041\"", "xA"),
    (b"\"\\\"\"", "\""),
    (b"\"\\ud83d\\ude00\"", "\u{1f600}"),
    (b"\"\\ud83d\\ude00\\ud83d\\ude00\"", "\u{1f600}\u{1f600}"),
    (b"\"\\u00e9\\\\\",\"\\n\"", "\u{e9}\\"),
    (b"\"\\n\",\"end\"]", "\n"),
    (b"\"end\"]", "end"),
    (b"\"\\u0061\":\"b\"", "a"),
    (b"\"b\",\"c\":\"\\\"d\\\"\"}", "b"),
    (b"\"c\":\"\\\"d\\\"\"}", "c"),
    (b"\"\\\"d\\\"\"}", "\"d\""),
    (b"\"hello\\nworld\"}", "hello\nworld"),
];

const FAULTS: [(&[u8], usize, u8); 8] = [
    (b"\"\\ud800\"", 1, b'u'),
    (b"\"\\ude00\"", 1, b'u'),
    (b"\"a\\ud83dx\"", 2, b'u'),
    (b"\"\\uD83D\\u0041\"", 1, b'u'),
    (b"\"\\u12\"", 1, b'u'),
    (b"\"\\q\"", 1, b'q'),
    (b"\"\\\xc3\xa9\"", 1, 0xc3),
    (b"\"\\ud83d\",\"b\":01}", 1, b'u'),
];

#[test]
fn known_strings_are_read(rt: HostRuntime) -> std::result::Result<(), Fail> {
    for (input, string) in &STRINGS {
        let mut bytes = Vec::from_slice(rt.alloc(), input)?;
        match read(bytes.as_mut_slice()) {
            Some(Ok(read)) => assert_eq!(rt; read.string, *string),
            _ => assert!(rt; false, "{input:?}"),
        }
    }
    Ok(())
}

#[test]
fn known_faults_are_reported(rt: HostRuntime) -> std::result::Result<(), Fail> {
    for (input, offset, letter) in &FAULTS {
        let mut bytes = Vec::from_slice(rt.alloc(), input)?;
        let wanted = BadEscape {
            offset: *offset,
            letter: *letter,
        };
        match read(bytes.as_mut_slice()) {
            Some(Err(bad)) => assert_eq!(rt; bad, wanted),
            _ => assert!(rt; false, "{input:?}"),
        }
    }
    Ok(())
}

#[test]
fn bad_escapes_are_reported_at_their_backslash(rt: HostRuntime) {
    let mut bytes = *b"\"ab\\n\\q\\u\"";
    match read(&mut bytes) {
        Some(Err(bad)) => assert_eq!(rt;
            bad,
            BadEscape {
                offset: 5,
                letter: b'q'
            }
        ),
        _ => assert!(rt; false),
    }
    let mut bytes = *b"\"\\n\\ud800\\u0041\"";
    match read(&mut bytes) {
        Some(Err(bad)) => assert_eq!(rt;
            bad,
            BadEscape {
                offset: 3,
                letter: b'u'
            }
        ),
        _ => assert!(rt; false),
    }
}
