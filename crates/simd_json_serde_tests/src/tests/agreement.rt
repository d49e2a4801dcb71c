// The same types are read by `simd_json_serde` and by `serde_json`.
use crate::tests::types::{Command, Either, Folder, Message, Placed, Shape, Tweet, Wide};
use crate::tests::{MEMORY, takes_all};
use serde::{Deserialize, DeserializeOwned};
use simd_json::Buffers;
use simd_json_serde::{Scratch, from_slice_mut_owned_with};
use std::alloc::Global;
use std::collections::BTreeMap;
use std::process::Abort;

const TWEETS: &str = r#"[{"meta":[1,{"y":[]}],"id":505874924095815681,
"text":"@a \n\u524d\ud83d\ude00 \"q\"","screen_name":"ay","place":{"x":1,"z":null,"y":-2},
"indices":[[1,2],[3,4]]},{"id":1,"text":"","handle":"h","place":null}]"#;

const WIDE: &str = r#"[[-128,-32768,-2147483648,-9223372036854775808],
[-170141183460469231731687303715884105728,340282366920938463463374607431768211455,1.1,
12345678901234567890123],["\u00e9",true,null,18446744073709551615],[1,2,3]]"#;

// How many of the lines are values. Both readers return the same for each, or both an error.
fn values_in<'a, T: DeserializeOwned + Deserialize<'a> + PartialEq>(
    rt: &impl Abort,
    alloc: Global,
    lines: &'a str,
) -> usize {
    values_beside::<T>(rt, alloc, lines, lines)
}

// The same, where the other reader is given lines of its own.
fn values_beside<'a, T: DeserializeOwned + Deserialize<'a> + PartialEq>(
    rt: &impl Abort,
    alloc: Global,
    lines: &str,
    their_lines: &'a str,
) -> usize {
    let mut values = 0usize;
    let mut input = Vec::new(alloc);
    let mut buffers = Buffers::new(alloc, 0).expect(rt, MEMORY);
    let mut scratch = Scratch::new(alloc);
    for (line, their_line) in lines.lines().zip(their_lines.lines()) {
        input.clear();
        input.extend_from_slice(line.as_bytes()).expect(rt, MEMORY);
        let ours = from_slice_mut_owned_with::<T>(&mut input, &mut buffers, &mut scratch);
        let theirs: Result<T, serde_json::Error> = serde_json::from_str(alloc, their_line);
        if ours.is_ok() {
            values = values.saturating_add(1);
        }
        let agrees = match (ours, theirs) {
            (Ok(ours), Ok(theirs)) => ours == theirs,
            (Err(_), Err(_)) => true,
            _ => false,
        };
        assert!(rt; agrees, "{line}");
    }
    values
}

// The lines with 0 for each value `-0`, which is an integer here, and a float there.
fn without_minus_zero(rt: &impl Abort, alloc: Global, lines: &str) -> String {
    let mut text = String::new(alloc);
    let mut before = '\n';
    for (at, c) in lines.char_indices() {
        let rest = lines.get(at..).unwrap_or("");
        if !(matches!(before, '\n' | '[' | ',' | ':') && begins_with_minus_zero(rest)) {
            text.push(c).expect(rt, MEMORY);
        }
        before = c;
    }
    text
}

fn begins_with_minus_zero(text: &str) -> bool {
    let Some(after) = text.strip_prefix("-0") else {
        return false;
    };
    matches!(after.chars().next(), None | Some('\n' | ']' | '}' | ','))
}

#[test]
fn structs_agree(rt: HostRuntime) {
    let alloc = rt.alloc();
    let tweets = one_line(&rt, alloc, TWEETS);
    assert_eq!(rt; values_in::<Vec<Tweet>>(&rt, alloc, &tweets), 1);
    let folders = r#"{"size":1,"folders":[]}
{"size":1,"folders":[{"size":2,"folders":[{"folders":[],"size":3}]}]}
[1,[[2,[]]]]
{"size":1,"folders":[{"size":2}]}
{"size":1,"folders":[],"more":2}
{"size":256,"folders":[]}
{"size":1,"folders":[],"size":1}
[1]
[1,[],2]
[]
{}"#;
    assert_eq!(rt; values_in::<Folder>(&rt, alloc, folders), 3);
    let placed = r#"{"id":1,"x":2,"z":[0],"y":-3}
{"id":1,"x":2}
{"id":1,"x":2,"y":200}"#;
    assert_eq!(rt; values_in::<Placed>(&rt, alloc, placed), 1);
}

// Of each enum the values come first.
const ENUMS: &str = r#""Dot"
{"Line":[1,2]}
{"Circle":{"radius":1.5}}
{"Circle":{"radius":2}}
{"Named":"n\n"}
{"Dot":null}
{"kind":"move_to","x":1,"y":-2}
{"y":-2,"x":1,"more":[[{}],{"a":{"b":[]}}],"kind":"move_to"}
{"kind":"stop","more":[]}
{"t":"Ping"}
{"t":"Text","c":"a"}
{"c":{"x":7},"t":"Point"}
[1,true]
"t"
1
-1
[1,2]
[]
{"Line":[1,2,3]}
{"Line":[1]}
{"Circle":{"radius":1e999}}
{"Circle":{}}
{"Named":1}
{"Square":1}
{"Dot":null,"Dot":null}
{"kind":"fly"}
{"x":1}
{"t":"Text"}
[1,true,2]
1.5
null
{}"#;

#[test]
fn enums_agree(rt: HostRuntime) {
    let alloc = rt.alloc();
    assert_eq!(rt; values_in::<Shape>(&rt, alloc, ENUMS), 6);
    assert_eq!(rt; values_in::<Option<Shape>>(&rt, alloc, ENUMS), 7);
    assert_eq!(rt; values_in::<Command>(&rt, alloc, ENUMS), 3);
    assert_eq!(rt; values_in::<Message>(&rt, alloc, ENUMS), 3);
    assert_eq!(rt; values_in::<Either>(&rt, alloc, ENUMS), 7);
}

const KEYS: &str = r#"{"1":[2],"-3":[],"0":[4,5]}
{}
{"01":[]}
{"1.0":[]}
{"a":[]}
{"+1":[]}"#;

const SCALARS: &str = r#"0.1
1e23
9007199254740993
-5
127
128
255
256
18446744073709551615
18446744073709551616
1e400
123456789012345678901234567890
[1,"x",null]
"x"
-0
-0.0
-1
[-0,"x",null]"#;

#[test]
fn maps_tuples_and_numbers_agree(rt: HostRuntime) {
    let alloc = rt.alloc();
    assert_eq!(rt; values_in::<BTreeMap<i32, Vec<u8>>>(&rt, alloc, KEYS), 2);
    assert_eq!(rt; values_in::<BTreeMap<String, Vec<u8>>>(&rt, alloc, KEYS), 6);
    let wide = one_line(&rt, alloc, WIDE);
    assert_eq!(rt; values_in::<Wide>(&rt, alloc, &wide), 1);
    let theirs = without_minus_zero(&rt, alloc, SCALARS);
    assert_eq!(rt; values_beside::<f64>(&rt, alloc, SCALARS, &theirs), 14);
    assert_eq!(rt; values_beside::<f32>(&rt, alloc, SCALARS, &theirs), 14);
    assert_eq!(rt; values_beside::<i8>(&rt, alloc, SCALARS, &theirs), 4);
    assert_eq!(rt; values_beside::<u8>(&rt, alloc, SCALARS, &theirs), 4);
    assert_eq!(rt; values_beside::<i64>(&rt, alloc, SCALARS, &theirs), 8);
    assert_eq!(rt; values_beside::<u128>(&rt, alloc, SCALARS, &theirs), 9);
    assert_eq!(rt; values_beside::<char>(&rt, alloc, SCALARS, &theirs), 1);
    assert_eq!(rt;
        values_beside::<serde_json::Value>(&rt, alloc, SCALARS, &theirs),
        17
    );
    assert_eq!(rt;
        values_beside::<(u8, String, Option<bool>)>(&rt, alloc, SCALARS, &theirs),
        2
    );
}

// 106,240 texts, or the 8,448 with the change at each thirteenth place. A reader written in Python
// from RFC 8259 and the types counts as many values.
#[test]
fn mutants_agree(rt: HostRuntime) {
    let alloc = rt.alloc();
    let (step, tweet_values, wide_values) = if takes_all(&rt) {
        (1, 8_811, 1_677)
    } else {
        (13, 659, 129)
    };
    let tweets = one_line(&rt, alloc, TWEETS);
    let tweets = mutants_of(&rt, alloc, &tweets, step);
    let theirs = without_minus_zero(&rt, alloc, &tweets);
    assert_eq!(rt;
        values_beside::<Vec<Tweet>>(&rt, alloc, &tweets, &theirs),
        tweet_values
    );
    let wide = one_line(&rt, alloc, WIDE);
    let wide = mutants_of(&rt, alloc, &wide, step);
    let theirs = without_minus_zero(&rt, alloc, &wide);
    assert_eq!(rt;
        values_beside::<Wide>(&rt, alloc, &wide, &theirs),
        wide_values
    );
}

fn one_line(rt: &impl Abort, alloc: Global, lines: &str) -> String {
    let mut text = String::new(alloc);
    for line in lines.lines() {
        text.push_str(line).expect(rt, MEMORY);
    }
    text
}

// A line for each text with a character of ASCII put before one of its own, or in the place of one:
// before the first and in its place, and so on by steps.
fn mutants_of(rt: &impl Abort, alloc: Global, text: &str, step: usize) -> String {
    let mut lines = String::new(alloc);
    for at in (0..text.len()).step_by(step) {
        for byte in 0..128u8 {
            push_mutant(rt, &mut lines, text, at, byte, at);
            push_mutant(rt, &mut lines, text, at, byte, at.saturating_add(1));
        }
    }
    lines
}

fn push_mutant(rt: &impl Abort, lines: &mut String, text: &str, at: usize, byte: u8, rest: usize) {
    lines
        .push_str(text.get(..at).unwrap_or(""))
        .expect(rt, MEMORY);
    lines.push(char::from(byte)).expect(rt, MEMORY);
    lines
        .push_str(text.get(rest..).unwrap_or(""))
        .expect(rt, MEMORY);
    lines.push('\n').expect(rt, MEMORY);
}
