// The accessors beside those of a tape.
use super::MEMORY;
use simd_json::{Tape, tape, to_tape};
use simd_json_ondemand::{Document, Index, Value};
use std::process::Abort;

pub(super) const SCALARS: &[&[u8]] = &[
    b"null",
    b" true ",
    b"\tfalse\n",
    b"0",
    b"-0",
    b"1",
    b"-1",
    b"127",
    b"128",
    b"-128",
    b"-129",
    b"255",
    b"256",
    b"32767",
    b"32768",
    b"-32768",
    b"-32769",
    b"65535",
    b"65536",
    b"2147483647",
    b"2147483648",
    b"-2147483648",
    b"-2147483649",
    b"4294967295",
    b"4294967296",
    b"9223372036854775807",
    b"9223372036854775808",
    b"-9223372036854775808",
    b"-9223372036854775809",
    b"18446744073709551615",
    b"18446744073709551616",
    b"170141183460469231731687303715884105727",
    b"170141183460469231731687303715884105728",
    b"-170141183460469231731687303715884105728",
    b"340282366920938463463374607431768211455",
    b"0.5",
    b"-1e3",
    b"12345678901234567890123.4E-5",
    b"1234567                                 ",
    b"12345678901234567                       ",
    b"1.5                                     ",
    b"-0                                      ",
    b"\"\"",
    b"\"a\" ",
    b"\"caf\xc3\xa9\"",
    b"\"a\\n\\u00e9\\ud83d\\ude00\\\"b\\\\\"",
    b"\"\\\\\"",
    b"\"a long string without an escape, of more than 32 bytes\"",
    b"\"a long string, with its only escape behind 32 bytes\\t\" ",
    b"[]",
    b"[1]",
    b"{}",
    b"{\"a\":\"b\"}",
];

pub(super) fn assert_integers(
    rt: &impl Abort,
    value: Value<'_>,
    wanted: tape::Value<'_, '_>,
    case: &[u8],
) {
    assert_eq!(rt; value.as_i8(), wanted.as_i8(), "{case:?}");
    assert_eq!(rt; value.as_i16(), wanted.as_i16(), "{case:?}");
    assert_eq!(rt; value.as_i32(), wanted.as_i32(), "{case:?}");
    assert_eq!(rt; value.as_i64(), wanted.as_i64(), "{case:?}");
    assert_eq!(rt; value.as_i128(), wanted.as_i128(), "{case:?}");
    assert_eq!(rt; value.as_u8(), wanted.as_u8(), "{case:?}");
    assert_eq!(rt; value.as_u16(), wanted.as_u16(), "{case:?}");
    assert_eq!(rt; value.as_u32(), wanted.as_u32(), "{case:?}");
    assert_eq!(rt; value.as_u64(), wanted.as_u64(), "{case:?}");
    assert_eq!(rt; value.as_u128(), wanted.as_u128(), "{case:?}");
    assert_eq!(rt; value.as_usize(), wanted.as_usize(), "{case:?}");
}

pub(super) fn assert_others(
    rt: &impl Abort,
    value: Value<'_>,
    wanted: tape::Value<'_, '_>,
    case: &[u8],
) {
    assert_eq!(rt; value.value_type(), Some(wanted.value_type()), "{case:?}");
    assert_eq!(rt; value.is_array(), wanted.is_array(), "{case:?}");
    assert_eq!(rt; value.is_object(), wanted.is_object(), "{case:?}");
    assert_eq!(rt; value.as_null(), wanted.as_null(), "{case:?}");
    assert_eq!(rt; value.as_bool(), wanted.as_bool(), "{case:?}");
    assert_eq!(rt; value.as_decimal(), wanted.as_decimal(), "{case:?}");
}

pub(super) fn assert_string(
    rt: &impl Abort,
    value: Value<'_>,
    wanted: tape::Value<'_, '_>,
    buffer: &mut Vec<u8>,
    case: &[u8],
) {
    if let Some(string) = value.as_str() {
        assert_eq!(rt; Some(string), wanted.as_str(), "{case:?}");
    }
    let decoded = value.decode(buffer).expect(rt, MEMORY);
    assert_eq!(rt; decoded, wanted.as_str(), "{case:?}");
}

#[test]
fn scalars_are_those_of_a_tape(rt: HostRuntime) {
    let mut index = Index::new(rt.alloc(), 64).expect(&rt, MEMORY);
    let mut buffer = Vec::new(rt.alloc());
    for input in SCALARS {
        let mut copy = Vec::from_slice(rt.alloc(), input).expect(&rt, MEMORY);
        let tape: Tape<'_> = to_tape(rt.alloc(), &mut copy).expect(&rt, "it is a document");
        assert!(rt; !tape.is_empty());
        let document = Document::scan(&mut index, input).expect(&rt, "it is a document");
        let (value, wanted) = (document.as_value(), tape.as_value());
        assert_integers(&rt, value, wanted, input);
        assert_others(&rt, value, wanted, input);
        assert_string(&rt, value, wanted, &mut buffer, input);
    }
}
