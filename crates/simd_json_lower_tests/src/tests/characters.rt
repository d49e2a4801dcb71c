use simd_json_parts::charutils::{
    byte_or_space, codepoint_to_utf8, hex_to_u32_nocheck, is_blank,
    is_not_structural_or_whitespace, is_structural_or_whitespace, is_whitespace,
};
use std::process::Abort;

#[test]
fn ten_bytes_are_structural_or_whitespace(rt: HostRuntime) {
    for c in 0..=u8::MAX {
        let is_listed = b"[]{}:, \t\n\r".contains(&c);
        assert_eq!(rt; is_structural_or_whitespace(c), is_listed, "{c:?}");
        assert_eq!(rt; is_not_structural_or_whitespace(c), !is_listed, "{c:?}");
    }
}

#[test]
fn four_bytes_are_whitespace(rt: HostRuntime) {
    for c in 0..=u8::MAX {
        let is_listed = b" \t\n\r".contains(&c);
        assert_eq!(rt; is_whitespace(c), is_listed, "{c:?}");
        assert_eq!(rt; is_blank(&[b' ', c, b'\n']), is_listed, "{c:?}");
    }
    assert!(rt; is_blank(b""));
}

#[test]
fn the_end_reads_as_a_space(rt: HostRuntime) {
    assert_eq!(rt; byte_or_space(b"1,", 0), b'1');
    assert_eq!(rt; byte_or_space(b"1,", 1), b',');
    assert_eq!(rt; byte_or_space(b"1,", 2), b' ');
    assert_eq!(rt; byte_or_space(b"", usize::MAX), b' ');
}

#[test]
fn four_hexadecimal_digits_have_a_number(rt: HostRuntime) {
    assert_eq!(rt; hex_to_u32_nocheck(*b"0000"), Some(0));
    assert_eq!(rt; hex_to_u32_nocheck(*b"12aF"), Some(0x12af));
    assert_eq!(rt; hex_to_u32_nocheck(*b"ffff"), Some(0xffff));
    for c in 0..=u8::MAX {
        assert_digit(&rt, c, [c, b'0', b'0', b'1'], 12, 1);
        assert_digit(&rt, c, [b'F', c, b'0', b'0'], 8, 0xf000);
        assert_digit(&rt, c, [b'0', b'a', c, b'0'], 4, 0xa00);
        assert_digit(&rt, c, [b'0', b'0', b'f', c], 0, 0xf0);
    }
}

// The number of digits, of which one shifted to its place and the others make it.
fn assert_digit(rt: &impl Abort, c: u8, digits: [u8; 4], place: u32, others: u32) {
    let wanted = match (c as char).to_digit(16) {
        Some(digit) => Some(digit.wrapping_shl(place) | others),
        None => None,
    };
    assert_eq!(rt; hex_to_u32_nocheck(digits), wanted, "{c:?}");
}

#[test]
fn characters_are_written_as_utf8(rt: HostRuntime) {
    for code in [
        0, 0x7f, 0x80, 0x7ff, 0x800, 0xd7ff, 0xe000, 0xffff, 0x10000, 0x10ffff,
    ] {
        if let Some(c) = char::from_u32(code) {
            let mut expected = [0; 4];
            let len = c.encode_utf8(&mut expected).len();
            let mut bytes = [0; 4];
            assert_eq!(rt; codepoint_to_utf8(c, &mut bytes), len);
            assert_eq!(rt; bytes, expected);
        }
    }
}
