// Errors: a parse's kind, index and character; of a mismatch the kind, the path and the text.
use crate::tests::types::{Command, Either, Folder, Message, Placed, Shape, Tweet};
use crate::tests::{MEMORY, bytes_of, read_owned_from};
use serde::DeserializeOwned;
use simd_json::{ErrorType, to_tape};
use simd_json_serde::{Mismatch, MismatchKind, ReadError};
use std::alloc::Global;
use std::collections::BTreeMap;
use std::process::Abort;

#[test]
fn parse_errors_are_those_of_the_parse(rt: HostRuntime) {
    let alloc = rt.alloc();
    for text in "\n{\"a\":[1,]}\n[1\ntru\n\"\\x\"\n1.\n{}1\n[\"\n{1:2}".lines() {
        let wanted = to_tape(alloc, &mut bytes_of(&rt, alloc, text)).err();
        assert_eq!(rt; parse_error(&rt, alloc, text), wanted, "{text}");
    }
    let found = parse_error(&rt, alloc, "{\"a\":[1,]}");
    let found = found.expect(&rt, "it is no document");
    assert_eq!(rt; (found.index(), found.character()), (8, Some(']')));
    assert!(rt; *found.error() == ErrorType::InternalError, "its kind");
    let found = found.to_string(alloc).expect(&rt, MEMORY);
    assert_eq!(rt; found.as_str(), "InternalError at character 8 (']')");
}

fn parse_error(rt: &impl Abort, alloc: Global, text: &str) -> Option<simd_json::Error> {
    match read_owned_from::<u8>(rt, alloc, text) {
        Err(ReadError::Parse(e)) => Some(e),
        Err(ReadError::Mismatch(_e)) => None,
        Ok(_value) => None,
    }
}

fn mismatch<T: DeserializeOwned>(rt: &impl Abort, alloc: Global, text: &str) -> Mismatch {
    let error = match read_owned_from::<T>(rt, alloc, text) {
        Err(ReadError::Mismatch(e)) => Some(e),
        Err(ReadError::Parse(_e)) => None,
        Ok(_value) => None,
    };
    error.expect(rt, "it does not fit")
}

// Reads the first part of each line, and compares what is printed of the mismatch with the second.
fn assert_words<T: DeserializeOwned>(rt: &impl Abort, alloc: Global, lines: &str) {
    for line in lines.lines() {
        let (text, wanted) = line.split_once(" @ ").expect(rt, "it has both");
        let found = mismatch::<T>(rt, alloc, text)
            .to_string(alloc)
            .expect(rt, MEMORY);
        assert_eq!(rt; found.as_str(), wanted, "{line}");
    }
}

const OF_MAPS: &str = r#"1 @ expected an object, found an integer
{"a":{}} @ /a: expected an array, found an object
{"":[],"~/":[[]]} @ /~0~1/0: expected an integer, found an array
{"a":[1,256]} @ /a/1: the value does not fit the type
{"a":[1,-1]} @ /a/1: the value does not fit the type
{"a":[1.0]} @ /a/0: expected an integer, found a decimal
{"a":[null]} @ /a/0: expected an integer, found null"#;

const OF_PAIRS: &str = r#"[[1,2],[1,2,3]] @ /1: the array has another length
[[1,2],[1]] @ /1: the array has another length
[[1,2],[]] @ /1: the array has another length"#;

#[test]
fn mismatches_name_the_kinds(rt: HostRuntime) {
    let alloc = rt.alloc();
    let e = mismatch::<BTreeMap<String, Vec<u8>>>(&rt, alloc, r#"{"a":[],"b":[1,"x"]}"#);
    assert_eq!(rt; e.path(), "/b/1");
    assert!(rt;
        matches!(e.kind(), MismatchKind::InvalidType { .. }),
        "its kind"
    );
    assert_words::<BTreeMap<String, Vec<u8>>>(&rt, alloc, OF_MAPS);
    let keys = r#"{"1":null,"x":null} @ /x: expected an integer, found a string
{"1":null,"2":3} @ /2: the value does not fit the type"#;
    assert_words::<BTreeMap<u8, ()>>(&rt, alloc, keys);
    let third = "[1,2.5,true] @ /2: expected a number, found a boolean";
    assert_words::<Vec<f64>>(&rt, alloc, third);
    assert_words::<Vec<(u8, u8)>>(&rt, alloc, OF_PAIRS);
    assert_words::<Vec<[u8; 2]>>(&rt, alloc, OF_PAIRS);
    let no_character = r#"["a","ab"] @ /1: the value does not fit the type"#;
    assert_words::<Vec<char>>(&rt, alloc, no_character);
}

const OF_TWEETS: &str = r#"[{"id":1,"text":"","name":"a"}] @ /0: missing field `screen_name`
[{"id":1,"text":"","handle":"a","place":{"x":1}}] @ /0/place: missing field `y`
[{"id":"1"}] @ /0/id: expected an integer, found a string
[{"id":1,"z":[[]],"id":2}] @ /0/id: duplicate field `id`
[{"id":1},[]] @ /0: missing field `text`
[{}] @ /0: missing field `id`"#;

#[test]
fn mismatches_name_the_fields(rt: HostRuntime) {
    let alloc = rt.alloc();
    assert_words::<Vec<Tweet>>(&rt, alloc, OF_TWEETS);
    let tweet = r#"{"z":[{"a":[]}]} @ missing field `id`
{} @ missing field `id`"#;
    assert_words::<Tweet>(&rt, alloc, tweet);
    let folders = r#"[{"size":1,"folders":[]},{"b":[2],"size":1}] @ /1/b: unknown field
[{"size":1,"folders":[{"size":[]}]}] @ /0/folders/0/size: expected an integer, found an array"#;
    assert_words::<Vec<Folder>>(&rt, alloc, folders);
    let placed = r#"[{"id":1,"x":2,"y":"3"}] @ /0/y: expected an integer, found a string
[{"y":1,"z":[{"x":1}],"id":1}] @ /0: missing field `x`
[{"x":1,"id":1,"x":2,"y":3}] @ /0/x: duplicate field `x`
[[]] @ /0: expected an object, found an array"#;
    assert_words::<Vec<Placed>>(&rt, alloc, placed);
}

#[test]
fn mismatches_of_enums_have_a_path(rt: HostRuntime) {
    let alloc = rt.alloc();
    let shapes = r#"["Dot",{"Square":1}] @ /1/Square: unknown variant
["Dot",{"Circle":{"radius":"1"}}] @ /1/Circle/radius: expected a number, found a string
[{"Line":[1,[2]]}] @ /0/Line/1: expected an integer, found an array
[{"Line":[1]}] @ /0/Line: the array has another length
[{"Dot":null,"Line":[1,2]}] @ /0/Line: the value does not fit the type"#;
    assert_words::<Vec<Shape>>(&rt, alloc, shapes);
    let commands = r#"[{"kind":"stop"},{"kind":"fly"}] @ /1: unknown variant
[{"x":1,"y":"a","kind":"move_to"}] @ /0/y: expected an integer, found a string
[{"x":1}] @ /0: missing field `kind`
[{"x":[{"y":1}],"kind":"move_to","y":2}] @ /0/x: expected an integer, found an array
[{"kind":"stop","x":1,"kind":"stop"}] @ /0/kind: duplicate field `kind`
[{"kind":1}] @ /0/kind: expected a string, found an integer"#;
    assert_words::<Vec<Command>>(&rt, alloc, commands);
    let messages = r#"[{"c":1,"t":"Text"}] @ /0/c: expected a string, found an integer
[{"t":"Point","c":{"x":256}}] @ /0/c/x: the value does not fit the type
[{"t":"Text","z":{"c":1}}] @ /0: missing field `c`
[{"c":1}] @ /0: missing field `t`
[{"c":"a","t":"Text","c":"b"}] @ /0/c: duplicate field `c`"#;
    assert_words::<Vec<Message>>(&rt, alloc, messages);
    let either = r#"[1,[2],"a",{"b":[1]}] @ /3: the value does not fit the type"#;
    assert_words::<Vec<Either>>(&rt, alloc, either);
}
