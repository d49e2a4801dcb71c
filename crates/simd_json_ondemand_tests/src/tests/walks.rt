// Walks that stop, and where.
use super::MEMORY;
use super::check::DOCUMENTS;
use simd_json_ondemand::{Checker, Document, Expected, Got, Index, Unexpected, Value, ValueType};
use std::process::Abort;

type Tried = Result<Option<u64>, (usize, Expected, Got)>;

const UNSIGNED: Got = Got::Value(ValueType::U64);

// An input, a key, and the integer that it has, or where the search for it stops.
const KEYS: &[(&[u8], &str, Tried)] = &[
    (b"{}", "a", Ok(None)),
    (b" { \"a\" : 1 } ", "b", Ok(None)),
    (b"{\"a\":1 \"b\":2}", "a", Ok(Some(1))),
    (
        b"{\"a\":1 \"b\":2}",
        "b",
        Err((7, Expected::CommaOrBrace, Got::Value(ValueType::String))),
    ),
    (b"{\"a\" 1}", "a", Err((5, Expected::Colon, UNSIGNED))),
    (b"{\"a\":}", "a", Err((5, Expected::Value, Got::Other))),
    (
        b"{\"a\":x,\"b\":2}",
        "b",
        Err((5, Expected::Value, Got::Other)),
    ),
    (b"{\"a\":", "a", Err((5, Expected::Value, Got::End))),
    (b"{\"a\"", "b", Err((4, Expected::Colon, Got::End))),
    (b"{", "a", Err((1, Expected::Key, Got::End))),
    (b"{\"a\":1", "b", Err((6, Expected::CommaOrBrace, Got::End))),
    (
        b"{\"a\":1]",
        "b",
        Err((6, Expected::CommaOrBrace, Got::Other)),
    ),
    (b"{\"a\":1,}", "b", Err((7, Expected::Key, Got::Other))),
    (b"{\"a\":1,", "b", Err((7, Expected::Key, Got::End))),
    (b"{1:2}", "1", Err((1, Expected::Key, UNSIGNED))),
    // what is nested in a value is passed over by its brackets
    (b"{\"a\":[1 {\"b\"}],\"b\":2}", "b", Ok(Some(2))),
    (b"{\"\\u0061\":1", "a", Ok(Some(1))),
    // a value of another kind
    (
        b"[1]",
        "a",
        Err((
            0,
            Expected::Kind(ValueType::Object),
            Got::Value(ValueType::Array),
        )),
    ),
    (
        b" 1 2",
        "a",
        Err((1, Expected::Kind(ValueType::Object), UNSIGNED)),
    ),
    (
        b"x",
        "a",
        Err((0, Expected::Kind(ValueType::Object), Got::Other)),
    ),
    (
        b"{\"a\":-1}",
        "a",
        Err((
            5,
            Expected::Kind(ValueType::U64),
            Got::Value(ValueType::I64),
        )),
    ),
    (
        b"{\"a\":tru}",
        "a",
        Err((5, Expected::Kind(ValueType::U64), Got::Other)),
    ),
];

// The same of an index.
const INDEXES: &[(&[u8], usize, Tried)] = &[
    (b"[]", 0, Ok(None)),
    (b" [1,2] ", 1, Ok(Some(2))),
    (b" [1,2] ", 2, Ok(None)),
    (b"[1 2]", 0, Ok(Some(1))),
    (b"[1 2]", 1, Err((3, Expected::CommaOrBracket, UNSIGNED))),
    (b"[1,2", 1, Ok(Some(2))),
    (b"[1,2", 2, Err((4, Expected::CommaOrBracket, Got::End))),
    (b"[1:2]", 1, Err((2, Expected::CommaOrBracket, Got::Other))),
    (b"[1}", 1, Err((2, Expected::CommaOrBracket, Got::Other))),
    (b"[1,]", 1, Err((3, Expected::Value, Got::Other))),
    (b"[1,", 1, Err((3, Expected::Value, Got::End))),
    (b"[,1]", 0, Err((1, Expected::Value, Got::Other))),
    (b"[", 0, Err((1, Expected::Value, Got::End))),
    (
        b"[[1,2],{\"a\":3} 4]",
        2,
        Err((15, Expected::CommaOrBracket, UNSIGNED)),
    ),
    (b"[[1 2],{\"a\" 3},4]", 2, Ok(Some(4))),
    (
        b"{}",
        0,
        Err((
            0,
            Expected::Kind(ValueType::Array),
            Got::Value(ValueType::Object),
        )),
    ),
];

fn integer(found: Result<Option<Value<'_>>, Unexpected>) -> Tried {
    let integer = match found {
        Ok(Some(value)) => value.try_as_u64().map(|n| Some(n)),
        Ok(None) => Ok(None),
        Err(e) => Err(e),
    };
    integer.map_err(|e| (e.index, e.expected, e.got))
}

// What the other form returns is what is there, if anything.
#[test]
fn a_missing_item_is_no_fault(rt: HostRuntime) {
    let mut index = Index::new(rt.alloc(), 100).expect(&rt, MEMORY);
    for (input, key, wanted) in KEYS {
        let root = Document::scan(&mut index, input)
            .expect(&rt, "it is scanned")
            .as_value();
        assert_eq!(rt; integer(root.try_get(key)), *wanted, "{input:?}");
        let found = root.get(key).and_then(|value| value.as_u64());
        assert_eq!(rt; found, wanted.ok().unwrap_or(None), "{input:?}");
    }
    for (input, i, wanted) in INDEXES {
        let root = Document::scan(&mut index, input)
            .expect(&rt, "it is scanned")
            .as_value();
        assert_eq!(rt; integer(root.try_get_idx(*i)), *wanted, "{input:?}");
        let found = root.get_idx(*i).and_then(|value| value.as_u64());
        assert_eq!(rt; found, wanted.ok().unwrap_or(None), "{input:?}");
    }
}

// What comes is what comes from the iterators, and then the end.
fn walk(rt: &impl Abort, root: Value<'_>, input: &[u8]) {
    if let Some(array) = root.as_array() {
        let mut walk = root.try_as_array().expect(rt, "it is an array");
        for element in array {
            let next = walk.try_next().expect(rt, "it is a document");
            assert_eq!(rt;
                next.and_then(|v| v.value_type()),
                element.value_type(),
                "{input:?}"
            );
        }
        assert!(rt; walk.try_next().is_ok_and(|next| next.is_none()));
    }
    if let Some(object) = root.as_object() {
        let mut walk = root.try_as_object().expect(rt, "it is an object");
        for (key, value) in object {
            let next = walk.try_next().expect(rt, "it is a document");
            assert_eq!(rt; next.and_then(|m| m.0.raw()), key.raw(), "{input:?}");
            assert_eq!(rt;
                next.and_then(|m| m.1.value_type()),
                value.value_type(),
                "{input:?}"
            );
        }
        assert!(rt; walk.try_next().is_ok_and(|next| next.is_none()));
    }
}

// Documents, and what is one after one of its bytes is replaced.
#[test]
fn walks_of_documents_do_not_stop(rt: HostRuntime) {
    let mut checker = Checker::empty(rt.alloc());
    let mut index = Index::new(rt.alloc(), 0).expect(&rt, MEMORY);
    for document in DOCUMENTS {
        for i in 0..document.len() {
            for byte in *b"\"\\[]{}:, 1-.e" {
                let mut changed = Vec::from_slice(rt.alloc(), document).expect(&rt, MEMORY);
                if let Some(place) = changed.get_mut(i) {
                    *place = byte;
                }
                if checker.check(&changed, 64).is_ok() {
                    let root = Document::scan(&mut index, &changed).expect(&rt, "it is a document");
                    walk(&rt, root.as_value(), &changed);
                }
            }
        }
        let root = Document::scan(&mut index, document).expect(&rt, "it is a document");
        walk(&rt, root.as_value(), document);
    }
}

// The kind that an accessor of the value expects, where it expects another.
fn rejections(value: Value<'_>) -> [Option<Expected>; 5] {
    [
        value.try_as_bool().err().map(|e| e.expected),
        value.try_as_i64().err().map(|e| e.expected),
        value.try_as_u64().err().map(|e| e.expected),
        value.try_as_decimal().err().map(|e| e.expected),
        value.try_as_str().err().map(|e| e.expected),
    ]
}

#[test]
fn scalars_of_another_kind_are_rejected(rt: HostRuntime) {
    let mut index = Index::new(rt.alloc(), 0).expect(&rt, MEMORY);
    let kinds = [
        Some(Expected::Kind(ValueType::Bool)),
        Some(Expected::Kind(ValueType::I64)),
        Some(Expected::Kind(ValueType::U64)),
        Some(Expected::Kind(ValueType::Decimal)),
        Some(Expected::Kind(ValueType::String)),
    ];
    let [b, i, u, d, s] = kinds;
    for (input, wanted) in [
        (b"true".as_slice(), [None, i, u, d, s]),
        (b"-1", [b, None, u, d, s]),
        (b"1", [b, None, None, d, s]),
        (b"9223372036854775808", [b, i, None, d, s]),
        (b"1.5", [b, i, u, None, s]),
        (b"\"a\"", [b, i, u, d, None]),
        (b"\"\\n\"", [b, i, u, d, Some(Expected::PlainString)]),
        (b"null", kinds),
        (b"[1]", kinds),
        (b"x", kinds),
    ] {
        let root = Document::scan(&mut index, input)
            .expect(&rt, "it is scanned")
            .as_value();
        assert_eq!(rt; rejections(root), wanted, "{input:?}");
    }
}

#[test]
fn errors_are_printed_in_words(rt: HostRuntime) {
    let mut index = Index::new(rt.alloc(), 0).expect(&rt, MEMORY);
    for (input, wanted) in [
        (
            b"{\"a\" 1}".as_slice(),
            "expected a colon, found an unsigned integer at byte 5",
        ),
        (
            b"{\"b\":1 \"a\":2}",
            "expected a comma or }, found a string at byte 7",
        ),
        (
            b"{\"b\":1,",
            "expected a key, found the end of the input at byte 7",
        ),
        (b"{\"a\":}", "expected a value, found no value at byte 5"),
        (b" [1]", "expected an object, found an array at byte 1"),
    ] {
        let root = Document::scan(&mut index, input)
            .expect(&rt, "it is scanned")
            .as_value();
        let e = root
            .try_get("a")
            .err()
            .expect(&rt, "it is no object with the key");
        let printed = e.to_string(rt.alloc()).expect(&rt, MEMORY);
        assert_eq!(rt; printed.as_str(), wanted, "{input:?}");
    }
}
