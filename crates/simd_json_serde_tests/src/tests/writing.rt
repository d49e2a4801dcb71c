// Values are written by `simd_json_serde` and by `serde_json`, and read again.
use crate::tests::types::{Command, Message, Placed, Shape};
use crate::tests::{MEMORY, read_owned_from};
use serde::{Described, DeserializeOwned, Serialize, Serializer};
use simd_json::{ErrorType, to_tape};
use simd_json_serde::{
    WriteError, to_string, to_string_pretty, to_vec, to_vec_pretty, to_writer, to_writer_pretty,
};
use std::alloc::Global;
use std::collections::BTreeMap;
use std::fmt::Display;
use std::io::{ErrorKind, Write};
use std::process::Abort;
use std::{fmt, io};

// Each line is a value. Both crates write the same bytes, compact and pretty, which are those of
// the tape, and are read as the value.
fn assert_written<T: DeserializeOwned + Serialize + PartialEq>(
    rt: &impl Abort,
    alloc: Global,
    lines: &str,
) {
    for line in lines.lines() {
        let value: T = read_owned_from(rt, alloc, line).ok().expect(rt, MEMORY);
        let compact = to_string(alloc, &value).ok().expect(rt, MEMORY);
        let theirs = serde_json::to_string(alloc, &value).ok().expect(rt, MEMORY);
        assert_eq!(rt; compact.as_str(), theirs.as_str(), "{line}");
        let pretty = to_string_pretty(alloc, &value).ok().expect(rt, MEMORY);
        let theirs = serde_json::to_string_pretty(alloc, &value)
            .ok()
            .expect(rt, MEMORY);
        assert_eq!(rt; pretty.as_str(), theirs.as_str(), "{line}");
        assert_encoded(rt, alloc, &compact, &pretty);
        let again: T = read_owned_from(rt, alloc, &compact).ok().expect(rt, MEMORY);
        assert!(rt; again == value, "{line}");
    }
}

// The texts are those of the tape.
fn assert_encoded(rt: &impl Abort, alloc: Global, compact: &str, pretty: &str) {
    let mut input = Vec::from_slice(alloc, compact.as_bytes()).expect(rt, MEMORY);
    let tape = to_tape(alloc, &mut input).ok().expect(rt, MEMORY);
    let encoded = tape.as_value().encode(alloc).ok().expect(rt, MEMORY);
    assert_eq!(rt; encoded.as_str(), compact);
    let encoded = tape.as_value().encode_pp(alloc).ok().expect(rt, MEMORY);
    assert_eq!(rt; encoded.as_str(), pretty);
}

#[test]
fn derived_types_are_written(rt: HostRuntime) {
    let alloc = rt.alloc();
    assert_written::<Placed>(&rt, alloc, r#"{"id":1,"x":2,"y":-3}"#);
    let shapes = r#""Dot"
{"Line":[1,2]}
{"Circle":{"radius":1.5}}
{"Named":"n\n\"\\\u0001\u007f\u00e9\ud83d\ude00"}"#;
    assert_written::<Shape>(&rt, alloc, shapes);
    assert_written::<Vec<Option<Shape>>>(
        &rt,
        alloc,
        "[]\n[null]\n[\"Dot\",null,{\"Line\":[0,255]}]",
    );
    let commands = r#"{"kind":"stop"}
{"kind":"move_to","x":1,"y":-2}"#;
    assert_written::<Command>(&rt, alloc, commands);
    let messages = r#"{"t":"Ping"}
{"t":"Text","c":"a"}
{"t":"Point","c":{"x":7}}"#;
    assert_written::<Message>(&rt, alloc, messages);
}

#[test]
fn scalars_and_keys_are_written(rt: HostRuntime) {
    let alloc = rt.alloc();
    assert_written::<i64>(&rt, alloc, "0\n-1\n-9223372036854775808");
    assert_written::<u64>(&rt, alloc, "18446744073709551615");
    assert_written::<i128>(&rt, alloc, "-170141183460469231731687303715884105728");
    assert_written::<u128>(&rt, alloc, "340282366920938463463374607431768211455");
    assert_written::<f64>(
        &rt,
        alloc,
        "0.0\n-0.5\n0.1\n1e-7\n1e300\n123456789012345680\n5e-324",
    );
    assert_written::<f32>(&rt, alloc, "0.1\n1e-30\n16777216");
    assert_written::<(char, bool, ())>(&rt, alloc, "[\"\\u00e9\",true,null]\n[\"\\n\",false,null]");
    assert_written::<BTreeMap<i32, Vec<u8>>>(&rt, alloc, r#"{"-3":[],"0":[4,5]}"#);
    assert_written::<BTreeMap<bool, ()>>(&rt, alloc, r#"{"false":null,"true":null}"#);
    assert_written::<BTreeMap<String, f64>>(&rt, alloc, "{}\n{\"\":1.0,\"\\\"\":2.5}");
}

// A version, which is written as it prints.
#[derive(Drop)]
struct Version {
    major: u8,
    minor: u8,
}

impl Display for Version {
    fn fmt<W: fmt::Write>(&self, f: &mut fmt::Formatter<W>) -> fmt::Result {
        write!(f, "\"{}\".{}", self.major, self.minor)
    }
}

impl Described for Version {}

impl Serialize for Version {
    fn serialize<S: Serializer>(&self, out: &mut S) -> Result<(), S::Error> {
        out.collect_str(self)
    }
}

#[test]
fn printed_values_are_strings(rt: HostRuntime) {
    let alloc = rt.alloc();
    let version = Version {
        major: 12,
        minor: 0,
    };
    let text = to_string(alloc, &version).ok().expect(&rt, MEMORY);
    assert_eq!(rt; text.as_str(), r#""\"12\".0""#);
}

#[derive(Drop, Serialize)]
struct Flat<T> {
    id: u8,
    #[serde(flatten)]
    inner: T,
    last: bool,
}

fn assert_flat<T: Serialize + Drop>(rt: &impl Abort, alloc: Global, inner: T, wanted: &str) {
    let flat = Flat {
        id: 1,
        inner,
        last: true,
    };
    let text = to_string(alloc, &flat).ok().expect(rt, MEMORY);
    assert_eq!(rt; text.as_str(), wanted);
}

// The members of an object, also of one in it, or nothing.
#[test]
fn objects_are_flattened(rt: HostRuntime) {
    let alloc = rt.alloc();
    let mut map = BTreeMap::new(alloc);
    assert_flat(&rt, alloc, &map, r#"{"id":1,"last":true}"#);
    let inserted: Result<_, _> = map.insert(-7i8, ("a", [1.5]));
    assert!(rt; inserted.is_ok(), "{}", MEMORY);
    assert_flat(&rt, alloc, &map, r#"{"id":1,"-7":["a",[1.5]],"last":true}"#);
    assert_flat(
        &rt,
        alloc,
        Some(&map),
        r#"{"id":1,"-7":["a",[1.5]],"last":true}"#,
    );
    assert_flat(&rt, alloc, (), r#"{"id":1,"last":true}"#);
    let inner = Flat {
        id: 2,
        inner: &map,
        last: false,
    };
    let wanted = r#"{"id":1,"id":2,"-7":["a",[1.5]],"last":false,"last":true}"#;
    assert_flat(&rt, alloc, inner, wanted);
    let flat = Flat {
        id: 1,
        inner: [2u8],
        last: true,
    };
    let text = to_vec(alloc, &flat);
    assert!(rt; matches!(text, Err(WriteError::Value(_))), "no object");
}

#[test]
fn floats_without_a_literal_are_null(rt: HostRuntime) {
    let alloc = rt.alloc();
    for float in [f64::NAN, f64::INFINITY, f64::NEG_INFINITY] {
        let text = to_string(alloc, &[1.5, float]).ok().expect(&rt, MEMORY);
        assert_eq!(rt; text.as_str(), "[1.5,null]");
    }
}

// Its steps are those of no JSON text.
#[derive(Drop)]
struct Unclosed;

impl Described for Unclosed {}

impl Serialize for Unclosed {
    fn serialize<S: Serializer>(&self, out: &mut S) -> Result<(), S::Error> {
        out.begin_seq(None)
    }
}

#[test]
fn what_has_no_text_is_an_error(rt: HostRuntime) {
    let alloc = rt.alloc();
    let text = to_vec(alloc, &Unclosed);
    let error = text.err().expect(&rt, "no document");
    assert!(rt; matches!(error, WriteError::Text(_)), "no document");
    let text = error.to_string(alloc).expect(&rt, MEMORY);
    assert_eq!(rt; text.as_str(), "Syntax at character 0 ('[')");
    let mut map = BTreeMap::new(alloc);
    let inserted: Result<_, _> = map.insert((1u8, 2u8), true);
    assert!(rt; inserted.is_ok(), "{}", MEMORY);
    let text = to_vec_pretty(alloc, &map);
    assert!(rt; matches!(text, Err(WriteError::Value(_))), "no key");
    let mut written = Narrow {
        left: 100,
        text: Vec::new(alloc),
    };
    let result = to_writer(alloc, &mut written, &map);
    assert!(rt; matches!(result, Err(WriteError::Value(_))), "no key");
    assert!(rt; written.text.is_empty(), "nothing is written");
}

// Takes so many bytes, one at a time, and then fails.
#[derive(Drop)]
struct Narrow {
    left: usize,
    text: Vec<u8>,
}

impl Write for Narrow {
    fn write(&mut self, bytes: &[u8]) -> io::Result<usize> {
        if self.left == 0 {
            return Err(io::Error::from(ErrorKind::BrokenPipe));
        }
        self.left -= 1;
        let Some(byte) = bytes.first() else {
            return Ok(0);
        };
        match self.text.extend_from_slice(&[*byte]) {
            Ok(()) => Ok(1),
            Err(_) => Err(io::Error::from(ErrorKind::OutOfMemory)),
        }
    }

    fn flush(&mut self) -> io::Result<()> {
        Ok(())
    }
}

#[test]
fn each_write_may_fail(rt: HostRuntime) {
    let alloc = rt.alloc();
    let value = ([1u8, 2], "a", ());
    let compact = "[[1,2],\"a\",null]";
    let pretty = "[\n  [\n    1,\n    2\n  ],\n  \"a\",\n  null\n]";
    for left in 0..compact.len() {
        let mut out = Narrow {
            left,
            text: Vec::new(alloc),
        };
        let result = to_writer(alloc, &mut out, &value);
        assert!(rt; matches!(result, Err(WriteError::Io(_))), "a writer failed");
        assert_eq!(rt; Some(out.text.as_slice()), compact.as_bytes().get(..left));
    }
    let mut out = Narrow {
        left: 100,
        text: Vec::new(alloc),
    };
    assert!(rt; to_writer(alloc, &mut out, &value).is_ok(), "it is written");
    assert_eq!(rt; out.text.as_slice(), compact.as_bytes());
    let mut out = Narrow {
        left: 100,
        text: Vec::new(alloc),
    };
    assert!(rt;
        to_writer_pretty(alloc, &mut out, &value).is_ok(),
        "it is written"
    );
    assert_eq!(rt; out.text.as_slice(), pretty.as_bytes());
}

// By hand, `rt try --test --fail-alloc N` for each N, where the other tests may fail.
#[test]
fn failed_allocations_of_a_text_are_errors(rt: HostRuntime) {
    let alloc = rt.alloc();
    match to_string_pretty(alloc, &[Some("a"), None]) {
        Ok(text) => assert_eq!(rt; text.as_str(), "[\n  \"a\",\n  null\n]"),
        Err(WriteError::Value(e)) => assert!(rt; e.is_memory(), "of memory"),
        Err(WriteError::Text(e)) => {
            assert_eq!(rt; *e.error(), ErrorType::OutOfMemory);
        }
        Err(WriteError::Io(_)) => assert!(rt; false, "nothing is written"),
    }
}
