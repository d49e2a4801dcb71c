use simd_json_parts::node::{Node, StaticNode};
use simd_json_print::document::{Layout, put};
use simd_json_print::text::{Target, Text};
use std::alloc::Global;
use std::io::{self, ErrorKind, Write};
use std::process::Abort;
use std::test::Fail;

// ` [ "ab\n" , { "a name of more than thirty-two letters" : -12 } , [] ] `
const NODES: [Node<'static>; 6] = [
    Node::Array { len: 3, count: 5 },
    Node::String("ab\n"),
    Node::Object { len: 1, count: 2 },
    Node::String("a name of more than thirty-two letters"),
    Node::Static(StaticNode::I64(-12)),
    Node::Array { len: 0, count: 0 },
];

const COMPACT: &str = "[\"ab\\n\",{\"a name of more than thirty-two letters\":-12},[]]";

const PRETTY: &str =
    "[\n  \"ab\\n\",\n  {\n    \"a name of more than thirty-two letters\": -12\n  },\n  []\n]";

const STRING: &str =
    "seventeen letters\n\"\u{e9}\\ and\u{1f}a line of more than thirty-two letters/";

const QUOTED: &str =
    "\"seventeen letters\\n\\\"\u{e9}\\\\ and\\u001fa line of more than thirty-two letters/\"";

const LETTERS: &[u8] = b"thirty-three letters and no escape";

// As many letters are collected first, so that each text is cut at another place.
fn put_all<const SIZE: usize>(mut text: Text<'_, Vec<u8>, SIZE>, letters: usize) -> io::Result<()> {
    for _ in 0..letters {
        text.put(b"x");
    }
    put_strings(&mut text);
    put(&mut text, &NODES, Layout::Compact, &mut []);
    put(&mut text, &NODES, Layout::Pretty, &mut []);
    text.finish()
}

fn put_strings<const SIZE: usize>(text: &mut Text<'_, Vec<u8>, SIZE>) {
    text.put_string(b"\"", STRING, b"\"");
    text.put_string(b", ", "short", b": ");
    text.put_between(b"<", b"\"a few\"", b">");
    text.put_between(b"\\", LETTERS, b"\n");
    text.put_between(LETTERS, b"", LETTERS);
}

#[test]
fn texts_are_whole_wherever_they_are_cut(rt: HostRuntime) -> std::result::Result<(), Fail> {
    for letters in 0..65 {
        let mut wanted = Vec::new(rt.alloc());
        for _ in 0..letters {
            wanted.push(b'x')?;
        }
        wanted.extend_from_slice(QUOTED.as_bytes())?;
        wanted.extend_from_slice(b", short: ")?;
        wanted.extend_from_slice(b"<\"a few\">\\thirty-three letters and no escape\n")?;
        wanted.extend_from_slice(b"thirty-three letters and no escape")?;
        wanted.extend_from_slice(b"thirty-three letters and no escape")?;
        wanted.extend_from_slice(COMPACT.as_bytes())?;
        wanted.extend_from_slice(PRETTY.as_bytes())?;
        let mut out = Vec::new(rt.alloc());
        put_all(Text::<Vec<u8>, 1>::new(&mut out), letters)?;
        assert_eq!(rt; out.as_slice(), wanted.as_slice());
        let mut out = Vec::new(rt.alloc());
        put_all(Text::<Vec<u8>, 2>::new(&mut out), letters)?;
        assert_eq!(rt; out.as_slice(), wanted.as_slice());
        let mut out = Vec::new(rt.alloc());
        put_all(Text::<Vec<u8>, 16>::new(&mut out), letters)?;
        assert_eq!(rt; out.as_slice(), wanted.as_slice());
        let mut out = Vec::new(rt.alloc());
        put_all(Text::<Vec<u8>, 40>::new(&mut out), letters)?;
        assert_eq!(rt; out.as_slice(), wanted.as_slice());
        let mut out = Vec::new(rt.alloc());
        put_all(Text::<Vec<u8>, 64>::new(&mut out), letters)?;
        assert_eq!(rt; out.as_slice(), wanted.as_slice());
    }
    Ok(())
}

// A string of each length up to 100, with a quote at each of its places and at none, between what
// stands around it.
#[test]
fn strings_stand_between_what_is_around_them(rt: HostRuntime) -> std::result::Result<(), Fail> {
    for len in 0..100usize {
        for at in 0..=len {
            let mut string = String::new(rt.alloc());
            let mut wanted = Vec::from_slice(rt.alloc(), b"{\"")?;
            for i in 0..len {
                string.push(if i == at { '"' } else { 'b' })?;
                wanted.extend_from_slice(if i == at { b"\\\"" } else { b"b" })?;
            }
            wanted.extend_from_slice(b"\":")?;
            let mut out = Vec::new(rt.alloc());
            let mut text = Text::<Vec<u8>, 48>::new(&mut out);
            text.put_string(b"{\"", &string, b"\":");
            text.finish()?;
            assert_eq!(rt; out.as_slice(), wanted.as_slice());
        }
    }
    Ok(())
}

fn put_one<const SIZE: usize>(
    mut text: Text<'_, Vec<u8>, SIZE>,
    value: StaticNode,
) -> io::Result<()> {
    text.put_static(b"I64 ", value, b": ");
    text.finish()
}

// Where there is capacity for the text at once, and where there is none.
fn assert_static(
    rt: &impl Abort,
    alloc: Global,
    value: StaticNode,
    text: &[u8],
) -> std::result::Result<(), Fail> {
    let mut wanted = Vec::from_slice(alloc, b"I64 ")?;
    wanted.extend_from_slice(text)?;
    wanted.extend_from_slice(b": ")?;
    let wanted = wanted.as_slice();
    let mut out = Vec::new(alloc);
    put_one(Text::<Vec<u8>, 1>::new(&mut out), value)?;
    assert_eq!(rt; out.as_slice(), wanted);
    let mut out = Vec::new(alloc);
    put_one(Text::<Vec<u8>, 33>::new(&mut out), value)?;
    assert_eq!(rt; out.as_slice(), wanted);
    let mut out = Vec::new(alloc);
    put_one(Text::<Vec<u8>, 34>::new(&mut out), value)?;
    assert_eq!(rt; out.as_slice(), wanted);
    let mut out = Vec::new(alloc);
    put_one(Text::<Vec<u8>, 64>::new(&mut out), value)?;
    assert_eq!(rt; out.as_slice(), wanted);
    Ok(())
}

// The least and the greatest number of each number of digits.
#[test]
fn numbers_have_their_digits(rt: HostRuntime) -> std::result::Result<(), Fail> {
    let mut least = Vec::from_slice(rt.alloc(), b"1")?;
    let mut greatest = Vec::from_slice(rt.alloc(), b"9")?;
    let mut power = 1u64;
    assert_static(&rt, rt.alloc(), StaticNode::U64(0), b"0")?;
    assert_static(&rt, rt.alloc(), StaticNode::U64(1), b"1")?;
    for _ in 0..19 {
        power = power.wrapping_mul(10);
        least.push(b'0')?;
        let below = StaticNode::U64(power.wrapping_sub(1));
        assert_static(&rt, rt.alloc(), below, greatest.as_slice())?;
        assert_static(&rt, rt.alloc(), StaticNode::U64(power), least.as_slice())?;
        greatest.push(b'9')?;
    }
    Ok(())
}

// The greatest and the least of each kind, and values that are not numbers.
#[test]
fn values_have_their_texts(rt: HostRuntime) -> std::result::Result<(), Fail> {
    let rows: [(StaticNode, &[u8]); 9] = [
        (StaticNode::U64(u64::MAX), b"18446744073709551615"),
        (StaticNode::I64(i64::MIN), b"-9223372036854775808"),
        (StaticNode::I64(i64::MAX), b"9223372036854775807"),
        (StaticNode::I64(-1), b"-1"),
        (
            StaticNode::U128(u128::MAX),
            b"340282366920938463463374607431768211455",
        ),
        (
            StaticNode::I128(i128::MIN),
            b"-170141183460469231731687303715884105728",
        ),
        (StaticNode::Bool(true), b"true"),
        (StaticNode::Bool(false), b"false"),
        (StaticNode::Null, b"null"),
    ];
    for (value, text) in rows.iter() {
        assert_static(&rt, rt.alloc(), *value, text)?;
    }
    Ok(())
}

// Fails at its first call, and would take all at the next one.
#[derive(Drop)]
struct Once {
    calls: usize,
}

impl Write for Once {
    fn write(&mut self, buf: &[u8]) -> io::Result<usize> {
        self.calls = self.calls.saturating_add(1);
        if self.calls == 1 {
            return Err(io::Error::from(ErrorKind::Interrupted));
        }
        Ok(buf.len())
    }

    fn flush(&mut self) -> io::Result<()> {
        Ok(())
    }
}

// Whether it fails at the end, or before, and then more is put.
#[test]
fn a_writer_that_fails_is_called_no_more(rt: HostRuntime) {
    for times in [1, 5, 6, 20] {
        let mut writer = Once { calls: 0 };
        let mut text = Text::<Once, 16>::new(&mut writer);
        for _ in 0..times {
            text.put(b"few");
            text.put_string(b"", "a string of more than sixteen bytes", b"");
            text.put_static(b"", StaticNode::U64(7), b"");
            text.put_between(b"", b"", b"");
        }
        let fault = text.finish().err();
        assert_eq!(rt;
            fault.map(|fault| fault.kind()),
            Some(ErrorKind::Interrupted)
        );
        assert_eq!(rt; writer.calls, 1);
    }
    let mut writer = Once { calls: 0 };
    let mut text = Text::<Once, 16>::new(&mut writer);
    text.put(b"few");
    assert!(rt; !text.has_failed());
    assert!(rt; text.finish().is_err());
    assert_eq!(rt; writer.calls, 1);
}
