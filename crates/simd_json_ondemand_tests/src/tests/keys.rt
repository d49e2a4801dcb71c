// Look-up by key, beside that of a tape.
use super::MEMORY;
use simd_json::{Tape, to_tape};
use simd_json_ondemand::{Document, Index};

// An object and a key, and the integer that is the value of the first member with that key.
const LOOKUPS: &[(&[u8], &str, Option<u64>)] = &[
    (b"{}", "a", None),
    (b"{}", "", None),
    (b"{\"a\":1}", "a", Some(1)),
    (b"{\"a\":1}", "b", None),
    (b"{\"a\":1}", "", None),
    (b"{\"a\":1}", "ab", None),
    (b"{\"ab\":1}", "a", None),
    (b"{\"\":1,\"a\":2}", "", Some(1)),
    (b" { \"b\" : [ ] , \"a\" : 2 } ", "a", Some(2)),
    // The first of equal keys.
    (b"{\"a\":1,\"a\":2}", "a", Some(1)),
    (b"{\"b\":1,\"\\u0061\":2,\"a\":3}", "a", Some(2)),
    // A member of a nested object is none of the object.
    (b"{\"x\":{\"a\":1},\"a\":2}", "a", Some(2)),
    (b"{\"x\":{\"a\":1}}", "a", None),
    (
        b"{\"x\":[{\"a\":1},{\"a\":{\"a\":2}}],\"a\":3}",
        "a",
        Some(3),
    ),
    (b"{\"a\":{\"b\":1},\"b\":2}", "b", Some(2)),
    // A value is no key.
    (b"{\"b\":\"a\",\"c\":3}", "a", None),
    // Prefixes of one another, of 7, 8, 9 and 40 bytes.
    (SEVEN_FIRST, "1234567", Some(7)),
    (SEVEN_FIRST, "12345678", Some(8)),
    (SEVEN_FIRST, "123456789", Some(9)),
    (SEVEN_FIRST, FORTY, Some(40)),
    (FORTY_FIRST, "1234567", Some(7)),
    (FORTY_FIRST, "12345678", Some(8)),
    (FORTY_FIRST, "123456789", Some(9)),
    (FORTY_FIRST, FORTY, Some(40)),
    (FORTY_FIRST, "123456", None),
    (FORTY_FIRST, "1234567890", None),
    (FORTY_FIRST, "1234567x", None),
    (FORTY_FIRST, "12345678x", None),
    (FORTY_FIRST, "x2345678", None),
    // With escapes in the input.
    (b"{\"\\u0061\":1}", "a", Some(1)),
    (b"{\"\\u0061\":1}", "\\u0061", None),
    (b"{\"\\u0061\":1}", "b", None),
    (b"{\"\\u0061b\":1,\"a\":2}", "a", Some(2)),
    (b"{\"123456\\u0037\":1}", "1234567", Some(1)),
    (b"{\"1234567\\u0038\":1}", "12345678", Some(1)),
    (b"{\"12345678\\u0039\":1}", "123456789", Some(1)),
    (b"{\"12345678\\u0039\":1}", "12345678", None),
    (b"{\"12345678\\u0039\":1}", "12345678x", None),
    (
        b"{\"\\n\\t\\u00e9\\ud83d\\ude00!\":1}",
        "\n\t\u{e9}\u{1f600}!",
        Some(1),
    ),
    (
        b"{\"\\n\\t\\u00e9\\ud83d\\ude00!\":1}",
        "\n\t\u{e9}\u{1f601}!",
        None,
    ),
    (b"{\"caf\xc3\xa9\":1}", "caf\u{e9}", Some(1)),
    // With quotes and backslashes in the key.
    (b"{\"\\\"\":1}", "\"", Some(1)),
    (b"{\"a\\\"b\":1}", "a\"b", Some(1)),
    (b"{\"a\\\\b\":1}", "a\\b", Some(1)),
    (b"{\"a\\\\n\":1}", "a\\n", Some(1)),
    (b"{\"a\\n\":1}", "a\\n", None),
    (b"{\"a\\n\":1}", "a\n", Some(1)),
    (b"{\"a\":1,\"b\":2}", "a\":1,", None),
    (b"{\"12345678\":1,\"b\":2}", "12345678\":1,", None),
    (b"{\"\\u005cu005c\":1,\"b\":2}", "\\u005c", Some(1)),
    (
        b"{\"\\\\\\\\\\\\\\\\12345\":1,\"b\":2}",
        "\\\\\\\\12345",
        Some(1),
    ),
    // Of other kinds.
    (b"[{\"a\":1}]", "a", None),
    (b"\"a\"", "a", None),
    (b"1", "a", None),
];

const FORTY: &str = "1234567890123456789012345678901234567890";

const SEVEN_FIRST: &[u8] = b"{\"1234567\":7,\"12345678\":8,\"123456789\":9,\
    \"1234567890123456789012345678901234567890\":40}";

const FORTY_FIRST: &[u8] = b"{\"1234567890123456789012345678901234567890\":40,\
    \"123456789\":9,\"12345678\":8,\"1234567\":7}";

// Near the end of the input, and before many more bytes.
#[test]
fn values_are_found_by_key(rt: HostRuntime) {
    let mut index = Index::new(rt.alloc(), 100).expect(&rt, MEMORY);
    for (input, key, wanted) in LOOKUPS {
        for spaces in [b"".as_slice(), b"                "] {
            let mut bytes = Vec::from_slice(rt.alloc(), input).expect(&rt, MEMORY);
            bytes.extend_from_slice(spaces).expect(&rt, MEMORY);
            let root = Document::scan(&mut index, &bytes)
                .expect(&rt, "it is a document")
                .as_value();
            assert_eq!(rt; root.get(key).and_then(|v| v.as_u64()), *wanted, "{key:?}");
            let tape: Tape<'_> = to_tape(rt.alloc(), &mut bytes).expect(&rt, "it is a document");
            assert!(rt; !tape.is_empty());
            let other = tape.as_value().get(key).and_then(|v| v.as_u64());
            assert_eq!(rt; other, *wanted, "{key:?}");
        }
    }
}

#[test]
fn a_search_goes_on_behind_what_it_found(rt: HostRuntime) {
    let mut index = Index::new(rt.alloc(), 0).expect(&rt, MEMORY);
    let root = Document::scan(
        &mut index,
        b"{\"a\":1,\"b\":{\"a\":2},\"\\u0061\":3,\"c\":4}",
    )
    .expect(&rt, "it is a document")
    .as_value();
    let mut members = root.as_object().expect(&rt, "it is an object");
    assert!(rt; members.find("z").is_none());
    assert_eq!(rt; members.find("a").and_then(|v| v.as_u64()), Some(1));
    assert_eq!(rt; members.find("a").and_then(|v| v.as_u64()), Some(3));
    assert!(rt; members.find("z").is_none());
    let last = members.next().expect(&rt, "a member is left");
    assert_eq!(rt; last.0.as_str(), Some("c"));
    assert!(rt; members.next().is_none());
    assert_eq!(rt; members.find("c").and_then(|v| v.as_u64()), Some(4));
    assert!(rt; members.next().is_none());
}

// Four members, of which two have the same key.
const MEMBERS: &[u8] = b"{\"a\":1,\"b\":{\"a\":2},\"a\":3,\"c\":4}";

// After so many members: the key that is looked for, the integer that is found, and the key after
// it.
const ROUND: &[(usize, &str, Option<u64>, Option<&str>)] = &[
    (0, "a", Some(1), Some("b")),
    (1, "a", Some(3), Some("c")),
    (2, "a", Some(3), Some("c")),
    (3, "a", Some(1), Some("b")),
    (4, "a", Some(1), Some("b")),
    (4, "c", Some(4), None),
    (2, "b", None, Some("a")),
    (0, "z", None, Some("a")),
    (2, "z", None, Some("a")),
    (4, "z", None, None),
];

#[test]
fn a_search_goes_once_round(rt: HostRuntime) {
    let mut index = Index::new(rt.alloc(), 0).expect(&rt, MEMORY);
    let root = Document::scan(&mut index, MEMBERS)
        .expect(&rt, "it is a document")
        .as_value();
    for (steps, key, wanted, next) in ROUND {
        for passes in [false, true] {
            let mut members = root.as_object().expect(&rt, "it is an object");
            for _ in 0..*steps {
                let (_, value) = members.next().expect(&rt, "a member is left");
                if let Some(inner) = value.as_object() {
                    if passes {
                        members.pass(inner.end());
                    }
                }
            }
            let mut tried = members;
            let found = members.find(key).and_then(|v| v.as_u64());
            assert_eq!(rt; found, *wanted, "{steps:?}, {key:?}");
            assert_eq!(rt;
                members.next().and_then(|m| m.0.as_str()),
                *next,
                "{steps:?}, {key:?}"
            );
            let found = tried.try_find(key).expect(&rt, "no walk stops");
            assert_eq!(rt;
                found.and_then(|v| v.as_u64()),
                *wanted,
                "{steps:?}, {key:?}"
            );
            assert_eq!(rt;
                tried.next().and_then(|m| m.0.as_str()),
                *next,
                "{steps:?}, {key:?}"
            );
        }
    }
}

// A key with a bad escape is none, and the members end where the walk stops.
#[test]
fn other_bytes_are_searched_up_to_a_stop(rt: HostRuntime) {
    let mut index = Index::new(rt.alloc(), 0).expect(&rt, MEMORY);
    let cases: [(&[u8], &str, Option<u64>); 11] = [
        (b"{\"\\q\":1,\"a\":2}", "q", None),
        (b"{\"\\q\":1,\"a\":2}", "a", Some(2)),
        (b"{\"a\\ud800\":1,\"a\":2}", "a", Some(2)),
        (b"{\"b\":1 \"a\":2}", "a", None),
        (b"{\"b\":1,\"a\":2", "a", Some(2)),
        (b"{\"a\"", "a", None),
        (b"{1:2,\"a\":3}", "a", None),
        (b"{\"a\" 1 2}", "a", None),
        (b"{\"a\",1}", "a", None),
        (b"{\"b\":,\"a\":2}", "a", None),
        (b"{\"b\":1,\"a\":}", "a", None),
    ];
    for (input, key, wanted) in cases {
        let root = Document::scan(&mut index, input)
            .expect(&rt, "it is scanned")
            .as_value();
        assert_eq!(rt; root.get(key).and_then(|v| v.as_u64()), wanted, "{input:?}");
    }
}
