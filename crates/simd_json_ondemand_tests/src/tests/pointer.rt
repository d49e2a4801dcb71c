// JSON Pointers (RFC 6901), beside those of a tape.
use super::MEMORY;
use simd_json::{Tape, to_tape};
use simd_json_ondemand::{Document, Expected, Got, Index, Pointer, ValueType};

// The document of RFC 6901, section 5, but for the array, which has integers.
const SECTION_5: &[u8] = b"{\"foo\":[20,21],\"\":0,\"a/b\":1,\"c%d\":2,\"e^f\":3,\"g|h\":4,\
    \"i\\\\j\":5,\"k\\\"l\":6,\" \":7,\"m~n\":8}";

// The same keys as others may write them, of which some are equal.
const ESCAPED: &[u8] = b" { \"a\\/b\" : 1 , \"m\\u007en\" : 8 , \"\\u0061\\u002fb\" : 2 , \
    \"~1\" : 3 , \"\\/\" : 4 , \"~\\u0030\" : 5 , \"example.com\\/a\\/key\" : 6 , \
    \"\\u00e9\\ud83d\\ude00~\" : [ { \"x\" : 9 } , [ ] , null , 10 ] , \"\\q\" : 11 , \
    \"q\" : 12 } ";

// A document and a pointer, and the integer that it names.
const POINTERS: &[(&[u8], &str, Option<u64>)] = &[
    (SECTION_5, "/foo/0", Some(20)),
    (SECTION_5, "/foo/1", Some(21)),
    (SECTION_5, "/", Some(0)),
    (SECTION_5, "/a~1b", Some(1)),
    (SECTION_5, "/c%d", Some(2)),
    (SECTION_5, "/e^f", Some(3)),
    (SECTION_5, "/g|h", Some(4)),
    (SECTION_5, "/i\\j", Some(5)),
    (SECTION_5, "/k\"l", Some(6)),
    (SECTION_5, "/ ", Some(7)),
    (SECTION_5, "/m~0n", Some(8)),
    (SECTION_5, "/foo/2", None),
    (SECTION_5, "/foo/00", None),
    (SECTION_5, "/foo/01", None),
    (SECTION_5, "/foo/-", None),
    (SECTION_5, "/foo/", None),
    (SECTION_5, "/foo/+1", None),
    (SECTION_5, "/foo/18446744073709551616", None),
    (SECTION_5, "/foo/0/", None),
    (SECTION_5, "/a~1b/0", None),
    (SECTION_5, "/a/b", None),
    (SECTION_5, "/a~b", None),
    (SECTION_5, "/a~1b~", None),
    (SECTION_5, "/m~01n", None),
    (SECTION_5, "/m~n", None),
    (SECTION_5, "/m~2n", None),
    (SECTION_5, "foo/0", None),
    (SECTION_5, "//", None),
    (b"7", "", Some(7)),
    (b"7", "/", None),
    (b"[[1,2],[3,[4]]]", "/1/1/0", Some(4)),
    (b"{\"a\":{\"a\":{\"~a\":1},\"b\":2}}", "/a/a/~0a", Some(1)),
    (b"{\"a\":{\"a\":{\"~a\":1},\"b\":2}}", "/a/~0a", None),
    // Of equal keys the first.
    (b"{\"/\":1,\"/\":2}", "/~1", Some(1)),
    (b"{\"b\":1,\"b\":2}", "/b", Some(1)),
];

// Those of which a key is not read by a parse of the whole: an escape of it is invalid.
const OTHERS: &[(&str, Option<u64>)] = &[
    ("/a~1b", Some(1)),
    ("/m~0n", Some(8)),
    ("/~01", Some(3)),
    ("/~1", Some(4)),
    ("/~00", Some(5)),
    ("/example.com~1a~1key", Some(6)),
    ("/example.com~1a~1keys", None),
    ("/example.com~1a~1ke", None),
    ("/\u{e9}\u{1f600}~0/0/x", Some(9)),
    ("/\u{e9}\u{1f600}~0/3", Some(10)),
    ("/\u{e9}\u{1f600}~1/3", None),
    ("/q", Some(12)),
    ("/~0q", None),
];

#[test]
fn pointers_name_what_they_do_in_a_tape(rt: HostRuntime) {
    let mut index = Index::new(rt.alloc(), 0).expect(&rt, MEMORY);
    for (input, pointer, wanted) in POINTERS {
        let root = Document::scan(&mut index, input)
            .expect(&rt, "it is a document")
            .as_value();
        assert_eq!(rt;
            root.pointer(pointer).and_then(|v| v.as_u64()),
            *wanted,
            "{pointer:?}"
        );
        let split = Pointer::<4>::new(pointer).and_then(|p| root.at(&p));
        assert_eq!(rt; split.and_then(|v| v.as_u64()), *wanted, "{pointer:?}");
        let mut copy = Vec::from_slice(rt.alloc(), input).expect(&rt, MEMORY);
        let tape: Tape<'_> = to_tape(rt.alloc(), &mut copy).expect(&rt, "it is a document");
        assert!(rt; !tape.is_empty());
        let other = tape.as_value().pointer(pointer).and_then(|v| v.as_u64());
        assert_eq!(rt; other, *wanted, "{pointer:?}");
        let tried = root.try_pointer(pointer).unwrap_or(None);
        assert_eq!(rt; tried.and_then(|v| v.as_u64()), *wanted, "{pointer:?}");
    }
}

#[test]
fn keys_with_escapes_are_named(rt: HostRuntime) {
    let mut index = Index::new(rt.alloc(), 0).expect(&rt, MEMORY);
    let root = Document::scan(&mut index, ESCAPED)
        .expect(&rt, "it is scanned")
        .as_value();
    for (pointer, wanted) in OTHERS {
        assert_eq!(rt;
            root.pointer(pointer).and_then(|v| v.as_u64()),
            *wanted,
            "{pointer:?}"
        );
        let split = Pointer::<4>::new(pointer).and_then(|p| root.at(&p));
        assert_eq!(rt; split.and_then(|v| v.as_u64()), *wanted, "{pointer:?}");
    }
}

type Tried = Result<Option<u64>, (usize, Expected, Got)>;

const UNSIGNED: Got = Got::Value(ValueType::U64);

// An input, a pointer, and the integer that it names, or where the walk to it stops.
const TRIED: &[(&[u8], &str, Tried)] = &[
    (b"{\"a\":[1,{\"b/c\":2}]}", "/a/1/b~1c", Ok(Some(2))),
    (b"{\"a\":[1,{\"b/c\":2}]}", "/a/0", Ok(Some(1))),
    (b"3", "", Ok(Some(3))),
    // nothing is there
    (b"{\"a\":[1,{\"b/c\":2}]}", "/a/1/b", Ok(None)),
    (b"{\"a\":[1,{\"b/c\":2}]}", "/a/1/b~0c", Ok(None)),
    (b"{\"a\":[1,{\"b/c\":2}]}", "/a/2", Ok(None)),
    (b"{\"a\":[1]}", "/b", Ok(None)),
    // malformed, and no index
    (b"{\"a\":[1]}", "a", Ok(None)),
    (b"{\"a\":[1]}", "/~2", Ok(None)),
    (b"{\"a\":[1]}", "/a/-", Ok(None)),
    (b"{\"a\":[1", "/a/01", Ok(None)),
    (b"{\"a\":[1", "/a/18446744073709551616", Ok(None)),
    (b"{\"a\" 1", "/~2", Ok(None)),
    // a walk stops
    (b"{\"a\":[1 2]}", "/a/0", Ok(Some(1))),
    (
        b"{\"a\":[1 2]}",
        "/a/1",
        Err((8, Expected::CommaOrBracket, UNSIGNED)),
    ),
    (
        b"{\"a\":[1 2]}",
        "/a/9/x",
        Err((8, Expected::CommaOrBracket, UNSIGNED)),
    ),
    (b"{\"a\":[", "/a/0", Err((6, Expected::Value, Got::End))),
    (
        b"{\"a\":{\"b\" 1}}",
        "/a/b",
        Err((10, Expected::Colon, UNSIGNED)),
    ),
    (
        b"{\"a\":{\"b\" 1}}",
        "/a/~1",
        Err((10, Expected::Colon, UNSIGNED)),
    ),
    (b"[{\"\\q\":1,\"/\":2,x}]", "/0/~1", Ok(Some(2))),
    (
        b"[{\"\\q\":1,\"/\":2,x}]",
        "/0/q",
        Err((15, Expected::Key, Got::Other)),
    ),
    (b"{", "/a", Err((1, Expected::Key, Got::End))),
    // a value that is no container is on the way
    (
        b"{\"a\":1}",
        "/a/b",
        Err((5, Expected::Container, UNSIGNED)),
    ),
    (b"[x]", "/0", Err((1, Expected::Value, Got::Other))),
    (b"[tru]", "/0/0", Err((1, Expected::Container, Got::Other))),
];

#[test]
fn a_missing_value_is_no_fault(rt: HostRuntime) {
    let mut index = Index::new(rt.alloc(), 100).expect(&rt, MEMORY);
    for (input, pointer, wanted) in TRIED {
        let root = Document::scan(&mut index, input)
            .expect(&rt, "it is scanned")
            .as_value();
        let integer = match root.try_pointer(pointer) {
            Ok(found) => Ok(found.and_then(|v| v.as_u64())),
            Err(e) => Err((e.index, e.expected, e.got)),
        };
        assert_eq!(rt; integer, *wanted, "{pointer:?}");
    }
}
