// Inputs that are no documents.
use super::MEMORY;
use simd_json_ondemand::{Document, Error, ErrorType, Index, ValueType};

#[test]
fn errors_of_the_whole_input_are_found(rt: HostRuntime) {
    let mut index = Index::new(rt.alloc(), 0).expect(&rt, MEMORY);
    for (input, kind) in [
        (b"".as_slice(), ErrorType::Eof),
        (b" \t\r\n", ErrorType::Eof),
        (b"\"a", ErrorType::Syntax),
        (b"\"\\\"", ErrorType::Syntax),
        (b"\"\x1f\"", ErrorType::Syntax),
        (b"\"\xff\"", ErrorType::InvalidUtf8),
    ] {
        match Document::scan(&mut index, input) {
            Ok(_) => assert!(rt; false),
            Err(e) => assert_eq!(rt; e, Error::generic(kind), "{input:?}"),
        }
    }
}

// Of tokens that are no value, or that do not end.
#[test]
fn literals_are_whole(rt: HostRuntime) {
    let mut index = Index::new(rt.alloc(), 0).expect(&rt, MEMORY);
    for input in [
        b"tru".as_slice(),
        b"truex",
        b"true\"\"",
        b"nul",
        b"nullx",
        b"falsey",
        b"12a",
        b"-",
        b"01",
        b"1.",
        b"1.5e",
        b"1x                                      ",
        b"12345678901234567x                      ",
        b"340282366920938463463374607431768211456",
        b"-170141183460469231731687303715884105729",
        b",",
        b":",
        b"]",
        b"}",
        b"x",
    ] {
        let value = Document::scan(&mut index, input)
            .expect(&rt, "the strings are closed")
            .as_value();
        assert_eq!(rt; value.value_type(), None, "{input:?}");
        assert_eq!(rt; value.as_null(), None, "{input:?}");
        assert_eq!(rt; value.as_bool(), None, "{input:?}");
        assert_eq!(rt; value.as_i128(), None, "{input:?}");
        assert_eq!(rt; value.as_u128(), None, "{input:?}");
        assert_eq!(rt; value.as_decimal(), None, "{input:?}");
        assert_eq!(rt; value.as_f64(), None, "{input:?}");
        assert_eq!(rt; value.as_str(), None, "{input:?}");
    }
}

// What is not visited is not checked, and an escape is checked where the string is decoded.
#[test]
fn what_is_not_visited_is_not_checked(rt: HostRuntime) {
    let mut index = Index::new(rt.alloc(), 0).expect(&rt, MEMORY);
    let mut buffer = Vec::new(rt.alloc());
    let value = Document::scan(&mut index, b"1 2")
        .expect(&rt, "there are no strings")
        .as_value();
    assert_eq!(rt; value.as_u64(), Some(1));
    let value = Document::scan(&mut index, b"\"\\q\"")
        .expect(&rt, "it is closed")
        .as_value();
    assert_eq!(rt; value.value_type(), Some(ValueType::String));
    assert_eq!(rt; value.as_str(), None);
    let decoded = value.decode(&mut buffer).expect(&rt, MEMORY);
    assert_eq!(rt; decoded, None);
}

// As they are written, with quotes and escapes.
#[test]
fn literals_are_raw(rt: HostRuntime) {
    let mut index = Index::new(rt.alloc(), 0).expect(&rt, MEMORY);
    for (input, raw) in [
        (b" true ".as_slice(), Some(b"true".as_slice())),
        (b"false", Some(b"false")),
        (b"\tnull\n", Some(b"null")),
        (b" -0 ", Some(b"-0")),
        (b"12345678901234567890123", Some(b"12345678901234567890123")),
        (b"-12.50e+1 ", Some(b"-12.50e+1")),
        (b" \"\" ", Some(b"\"\"")),
        (b"\"a\\n\\\"\" ", Some(b"\"a\\n\\\"\"")),
        (b"\"\\q\"", Some(b"\"\\q\"")),
        (b" [ 1 , [2]] ", Some(b"[ 1 , [2]]")),
        (b"{\"a]\": []}", Some(b"{\"a]\": []}")),
        (b"[1,2}", Some(b"[1,2}")),
        (b"[[1]", Some(b"[[1]")),
        (b"[[1],", None),
        (b"{", None),
        (b"tru", None),
        (b"-", None),
        (b",", None),
    ] {
        let value = Document::scan(&mut index, input)
            .expect(&rt, "the strings are closed")
            .as_value();
        assert_eq!(rt; value.raw(), raw, "{input:?}");
    }
}
