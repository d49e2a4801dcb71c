// Strings that are borrowed, with and without escapes, and reads into kept memory.
use crate::tests::types::{Folder, Line};
use crate::tests::{MEMORY, bytes_of, read_owned_from};
use serde::Deserialize;
use simd_json::{Buffers, Tape, to_tape};
use simd_json_serde::{
    ReadError, Scratch, borrowed_str, from_slice_mut, from_slice_mut_owned,
    from_slice_mut_owned_with, from_slice_mut_with, from_tape, from_value,
};
use std::alloc::Global;
use std::borrow::CowStr;
use std::collections::BTreeMap;
use std::process::Abort;

const LINE: &str = r#"{"level":"in\"fo","ignored":{"a":[1,2,{}]},
    "status":200,"path":"\/a\u00e9","took":0.25}"#;

fn assert_line(rt: &impl Abort, line: &Line<'_>) {
    assert_eq!(rt; line.level, "in\"fo");
    assert_eq!(rt; line.status, 200);
    assert!(rt; matches!(line.path, CowStr::Borrowed("/aé")), "a path");
    assert_eq!(rt; line.took, Some(0.25));
}

#[test]
fn strings_with_escapes_are_borrowed(rt: HostRuntime) {
    let alloc = rt.alloc();
    // `serde_json` borrows no string with an escape.
    let theirs = serde_json::from_str::<Line<'_>>(alloc, LINE);
    assert!(rt; theirs.is_err(), "{}", LINE);
    let mut input = bytes_of(&rt, alloc, LINE);
    let line: Result<Line<'_>, ReadError> = from_slice_mut(alloc, &mut input);
    assert_line(&rt, &line.ok().expect(&rt, "it is a line"));
    let mut input = bytes_of(&rt, alloc, r#""\u0041b""#);
    let bytes: Result<&[u8], ReadError> = from_slice_mut(alloc, &mut input);
    assert_eq!(rt; bytes.ok(), Some(b"Ab".as_slice()));
}

// A text may follow one with an escape, be empty, or be the last.
#[test]
fn borrowed_strings_are_decoded(rt: HostRuntime) {
    let alloc = rt.alloc();
    let text = r#"{"\u0061b":"","c\"":"\ud83d\ude00x","":"é\n","é\u00e9":"a"}"#;
    let mut input = bytes_of(&rt, alloc, text);
    let read: Result<BTreeMap<&str, &str>, ReadError> = from_slice_mut(alloc, &mut input);
    let map = read.ok().expect(&rt, "it is a map");
    assert_eq!(rt; map.len(), 4);
    for (key, value) in [("ab", ""), ("c\"", "\u{1F600}x"), ("", "é\n"), ("éé", "a")] {
        assert_eq!(rt; map.get(key), Some(&value), "{key}");
    }
}

const PAIRS: [u8; 50] = *br#"[["a\n","\u00e9\ud83d\ude00"],["",""],["x\\","/"]]"#;

// More than 64 bytes, which are tested for UTF-8 in another way than fewer.
const LONG: &str = r#"[["€
","€€€€€€€€€€€€€€€€€€€€€€€€😀é"]]"#;

#[derive(Drop, Deserialize)]
struct Pair<'a>(&'a str, #[serde(deserialize_with = borrowed_str)] &'a str);

// With each byte in turn in the place of each other one.
#[test]
fn borrowed_mutants_are_as_owned(rt: HostRuntime) {
    let alloc = rt.alloc();
    for at in 0..PAIRS.len() {
        for byte in *b"\"\\u,[]{}1 n\x00\xff" {
            let mut mutant = PAIRS;
            if let Some(place) = mutant.get_mut(at) {
                *place = byte;
            }
            assert_as_owned(&rt, alloc, &mutant);
        }
    }
    assert_as_owned(&rt, alloc, LONG.as_bytes());
}

// What is borrowed of a text is what a type of its own strings holds, and so is the error.
fn assert_as_owned(rt: &impl Abort, alloc: Global, text: &[u8]) {
    let mut input = Vec::from_slice(alloc, text).expect(rt, MEMORY);
    let owned: Result<Vec<(String, String)>, ReadError> = from_slice_mut_owned(alloc, &mut input);
    let mut input = Vec::from_slice(alloc, text).expect(rt, MEMORY);
    let borrowed: Result<Vec<Pair<'_>>, ReadError> = from_slice_mut(alloc, &mut input);
    match (borrowed, owned) {
        (Ok(borrowed), Ok(owned)) => {
            assert_eq!(rt; borrowed.len(), owned.len());
            for (pair, (first, second)) in borrowed.iter().zip(&owned) {
                assert_eq!(rt; (pair.0, pair.1), (first.as_str(), second.as_str()));
            }
        }
        (Err(borrowed), Err(owned)) => {
            let borrowed = borrowed.to_string(alloc).expect(rt, MEMORY);
            let owned = owned.to_string(alloc).expect(rt, MEMORY);
            assert_eq!(rt; borrowed.as_str(), owned.as_str());
        }
        _ => assert!(rt; false, "one of them is an error"),
    }
}

#[test]
fn memory_is_kept(rt: HostRuntime) {
    let alloc = rt.alloc();
    let mut buffers = Buffers::new(alloc, 0).expect(&rt, MEMORY);
    let mut scratch = Scratch::new(alloc);
    for _ in 0..3 {
        let mut input = bytes_of(&rt, alloc, LINE);
        let line: Result<Line<'_>, ReadError> = from_slice_mut_with(
            &mut input,
            &mut buffers,
            &mut scratch,
        );
        // What is kept serves the next read while the line is still borrowed.
        let mut other = bytes_of(&rt, alloc, "{\"level\":");
        let none: Result<Line<'_>, ReadError> = from_slice_mut_with(
            &mut other,
            &mut buffers,
            &mut scratch,
        );
        assert!(rt; none.is_err(), "no document");
        let mut other = bytes_of(&rt, alloc, "[[1],[2,[3]]]");
        let list: Result<Vec<u8>, ReadError> = from_slice_mut_owned_with(
            &mut other,
            &mut buffers,
            &mut scratch,
        );
        assert!(rt; list.is_err(), "no list of numbers");
        let mut other = bytes_of(&rt, alloc, "[1,2,3]");
        let list: Result<Vec<u8>, ReadError> = from_slice_mut_owned_with(
            &mut other,
            &mut buffers,
            &mut scratch,
        );
        let list = list.ok().expect(&rt, "it is a list");
        assert_eq!(rt; list.as_slice(), [1, 2, 3].as_slice());
        assert_line(&rt, &line.ok().expect(&rt, "it is a line"));
    }
}

#[test]
fn values_of_a_tape_are_read(rt: HostRuntime) {
    let alloc = rt.alloc();
    let mut input = bytes_of(&rt, alloc, r#"{"a":[{"b":[1,2]},7],"c":true}"#);
    let tape = to_tape(alloc, &mut input)
        .ok()
        .expect(&rt, "it is a document");
    let list = tape.as_value().pointer("/a/0/b").expect(&rt, "it is there");
    let read: Result<(u8, u8), ReadError> = from_value(alloc, &list);
    assert_eq!(rt; read.ok(), Some((1, 2)));
    let seven = tape.as_value().pointer("/a/1").expect(&rt, "it is there");
    let read: Result<u64, ReadError> = from_value(alloc, &seven);
    assert_eq!(rt; read.ok(), Some(7));
    let read: Result<u64, ReadError> = from_tape(alloc, &tape);
    assert!(rt; read.is_err(), "no number");
    let empty: Result<u64, ReadError> = from_tape(alloc, &Tape::empty(alloc));
    assert!(rt; empty.is_err(), "no value");
}

// A recursive type has a limit below that of the parse.
#[test]
fn recursive_types_have_a_limit(rt: HostRuntime) {
    let alloc = rt.alloc();
    assert!(rt; is_read_at_depth(&rt, alloc, 100), "100 levels");
    assert!(rt; is_read_at_depth(&rt, alloc, 250), "250 levels");
    assert!(rt; !is_read_at_depth(&rt, alloc, 300), "300 levels");
}

fn is_read_at_depth(rt: &impl Abort, alloc: Global, depth: usize) -> bool {
    let mut text = String::new(alloc);
    for _ in 0..depth {
        text.push_str("{\"size\":1,\"folders\":[")
            .expect(rt, MEMORY);
    }
    for _ in 0..depth {
        text.push_str("]}").expect(rt, MEMORY);
    }
    let read: Result<Folder, ReadError> = read_owned_from(rt, alloc, &text);
    read.is_ok()
}
