// Types that go back to a place in the input, as those with a tag do, over borrowed strings.
use crate::tests::{MEMORY, bytes_of};
use serde::Deserialize;
use simd_json::Buffers;
use simd_json_serde::{ReadError, Scratch, from_slice_mut, from_slice_mut_with};
use std::alloc::Global;
use std::process::Abort;

#[derive(Drop, PartialEq, Deserialize)]
#[serde(untagged)]
enum Any<'a> {
    Number(u64),
    Text(&'a str),
    Pair(&'a str, &'a str),
    Named { name: &'a str, on: Option<bool> },
    List(Vec<&'a str>),
}

#[derive(Drop, PartialEq, Deserialize)]
struct Named<'a> {
    name: &'a str,
    on: Option<bool>,
}

#[derive(Drop, PartialEq, Deserialize)]
#[serde(tag = "type")]
enum Event<'a> {
    Key { key: &'a str },
    #[serde(rename = "n/a")]
    Missing,
    Wrapped(Named<'a>),
}

#[derive(Drop, PartialEq, Deserialize)]
#[serde(tag = "t", content = "c")]
enum Adjacent<'a> {
    Unit,
    Text(&'a str),
    Pair(u8, &'a str),
    Fields { name: &'a str },
}

#[derive(Drop, PartialEq, Deserialize)]
struct Flat<'a> {
    id: u8,
    #[serde(flatten)]
    named: Named<'a>,
    #[serde(flatten)]
    event: Event<'a>,
}

// Each text with escapes, and without. `serde_json` borrows from the second alone.
const ROWS: [(&str, &str); 17] = [
    (
        r#"{"n\u0061me":"\u0061\/b","on":true}"#,
        r#"{"name":"a/b","on":true}"#,
    ),
    (r#"["\ud83d\ude00","\u00e9"]"#, r#"["😀","é"]"#),
    (r#"["","\u0041",""]"#, r#"["","A",""]"#),
    (r#""\u0061""#, r#""a""#),
    ("7", "7"),
    (
        r#"{"key":"\u0061","type":"\u004bey"}"#,
        r#"{"key":"a","type":"Key"}"#,
    ),
    (
        r#"{"\u0074ype":"n\/a","more":[{"type":"\u004bey"}]}"#,
        r#"{"type":"n/a","more":[{"type":"Key"}]}"#,
    ),
    (
        r#"{"name":"\u0062","on":null,"type":"Wrapped"}"#,
        r#"{"name":"b","on":null,"type":"Wrapped"}"#,
    ),
    (
        r#"{"\u0063":"\u0061","t":"Text"}"#,
        r#"{"c":"a","t":"Text"}"#,
    ),
    (
        r#"{"c":[7,"\u0061"],"t":"P\u0061ir"}"#,
        r#"{"c":[7,"a"],"t":"Pair"}"#,
    ),
    (
        r#"{"t":"Fields","c":{"n\u0061me":"\u0061"}}"#,
        r#"{"t":"Fields","c":{"name":"a"}}"#,
    ),
    (r#"{"t":"Un\u0069t"}"#, r#"{"t":"Unit"}"#),
    (
        r#"{"key":"\u0061","name":"\u0062","type":"Key","id":1}"#,
        r#"{"key":"a","name":"b","type":"Key","id":1}"#,
    ),
    (
        r#"{"type":"Wrapped","id":1,"name":"\u0062"}"#,
        r#"{"type":"Wrapped","id":1,"name":"b"}"#,
    ),
    (
        r#"{"name":5,"key":"\u0061","type":"Key"}"#,
        r#"{"name":5,"key":"a","type":"Key"}"#,
    ),
    (
        r#"{"type":"K\u0065y","key":"a","key":"\u0062"}"#,
        r#"{"type":"Key","key":"a","key":"b"}"#,
    ),
    (
        r#"{"type":"Ke\u0079s","key":"a"}"#,
        r#"{"type":"Keys","key":"a"}"#,
    ),
];

// Whether the text is a value. It is what `serde_json` reads of the other one, or both fail.
fn is_value<'a, T: Deserialize<'a> + PartialEq>(
    rt: &impl Abort,
    alloc: Global,
    input: &'a mut [u8],
    plain: &'a str,
    buffers: &mut Buffers<Global>,
    scratch: &mut Scratch,
) -> bool {
    let ours: Result<T, ReadError> = from_slice_mut_with(input, buffers, scratch);
    let theirs: Result<T, serde_json::Error> = serde_json::from_str(alloc, plain);
    match (ours, theirs) {
        (Ok(ours), Ok(theirs)) => {
            assert!(rt; ours == theirs, "{plain}");
            true
        }
        (Err(_), Err(_)) => false,
        _ => {
            assert!(rt; false, "{plain}");
            false
        }
    }
}

#[test]
fn strings_of_all_taggings_are_borrowed(rt: HostRuntime) {
    let alloc = rt.alloc();
    let mut buffers = Buffers::new(alloc, 0).expect(&rt, MEMORY);
    let mut scratch = Scratch::new(alloc);
    let (buffers, scratch) = (&mut buffers, &mut scratch);
    let (mut any, mut events, mut adjacent, mut flat) = (0u8, 0u8, 0u8, 0u8);
    for (text, plain) in ROWS {
        let mut input = bytes_of(&rt, alloc, text);
        any += u8::from(is_value::<Any<'_>>(&rt, alloc, &mut input, plain, buffers, scratch));
        let mut input = bytes_of(&rt, alloc, text);
        events += u8::from(is_value::<Event<'_>>(&rt, alloc, &mut input, plain, buffers, scratch));
        let mut input = bytes_of(&rt, alloc, text);
        adjacent += u8::from(is_value::<Adjacent<'_>>(
            &rt, alloc, &mut input, plain, buffers, scratch,
        ));
        let mut input = bytes_of(&rt, alloc, text);
        flat += u8::from(is_value::<Flat<'_>>(&rt, alloc, &mut input, plain, buffers, scratch));
    }
    assert_eq!(rt; (any, events, adjacent, flat), (8, 6, 4, 1));
}

// The string is the end of the input but for its quote.
#[test]
fn strings_of_each_length_are_borrowed(rt: HostRuntime) {
    let alloc = rt.alloc();
    for len in 0..=130usize {
        for (tail, decoded) in [("", ""), ("\\u00e9", "é"), ("\\\\", "\\"), ("😀", "😀")] {
            let mut wanted = String::new(alloc);
            for _ in 0..len {
                wanted.push('x').expect(&rt, MEMORY);
            }
            let mut input = bytes_of(&rt, alloc, "\"");
            input
                .extend_from_slice(wanted.as_bytes())
                .expect(&rt, MEMORY);
            input.extend_from_slice(tail.as_bytes()).expect(&rt, MEMORY);
            input.extend_from_slice(b"\"").expect(&rt, MEMORY);
            wanted.push_str(decoded).expect(&rt, MEMORY);
            let text: Result<&str, ReadError> = from_slice_mut(alloc, &mut input);
            assert_eq!(rt; text.ok(), Some(wanted.as_str()));
        }
    }
}
