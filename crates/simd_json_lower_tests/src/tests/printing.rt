use crate::tests::takes_all;
use linked_list_allocator::LocalHeap;
use simd_json_parts::node::{Node, StaticNode};
use simd_json_print::document::{Layout, Level, append, append_quoted, put, write, write_quoted};
use simd_json_print::text::Text;
use std::alloc::{AllocError, Global};
use std::io::{self, ErrorKind, Write};
use std::test::Fail;

// ` { "k\u0009" : [ -0 , 1E5 , "é" ] , "" : {} } `
const NODES: [Node<'static>; 8] = [
    Node::Object { len: 2, count: 7 },
    Node::String("k\t"),
    Node::Array { len: 3, count: 3 },
    Node::Static(StaticNode::I64(0)),
    Node::Decimal("1E5"),
    Node::String("\u{e9}"),
    Node::String(""),
    Node::Object { len: 0, count: 0 },
];

const COMPACT: &str = "{\"k\\t\":[0,1E5,\"\u{e9}\"],\"\":{}}";

const PRETTY: &str = "{\n  \"k\\t\": [\n    0,\n    1E5,\n    \"\u{e9}\"\n  ],\n  \"\": {}\n}";

#[test]
fn documents_are_appended(rt: HostRuntime) -> std::result::Result<(), Fail> {
    let mut levels = Vec::new(rt.alloc());
    let mut compact = Vec::new(rt.alloc());
    append(&mut compact, &NODES, Layout::Compact, &mut levels)?;
    assert_eq!(rt; compact.as_slice(), COMPACT.as_bytes());
    let mut pretty = Vec::new(rt.alloc());
    append(&mut pretty, &NODES, Layout::Pretty, &mut levels)?;
    assert_eq!(rt; pretty.as_slice(), PRETTY.as_bytes());
    Ok(())
}

// A text longer than the buffer, and the containers that are empty.
#[test]
fn long_and_empty_texts_are_written(rt: HostRuntime) -> std::result::Result<(), Fail> {
    let mut nodes = Vec::new(rt.alloc());
    nodes.push(Node::Array {
        len: 1000,
        count: 1000,
    })?;
    for _ in 0..1000 {
        nodes.push(Node::String("abcdef"))?;
    }
    let array = [Node::Array { len: 0, count: 0 }];
    let object = [Node::Object { len: 0, count: 0 }];
    let rows: [(&[Node<'_>], usize, &[u8]); 3] = [
        (nodes.as_slice(), 9001, b"[\"abcdef\",\"abcdef\""),
        (&array, 2, b"[]"),
        (&object, 2, b"{}"),
    ];
    for (nodes, len, front) in rows.iter() {
        let mut appended = Vec::new(rt.alloc());
        append(
            &mut appended,
            nodes,
            Layout::Compact,
            &mut Vec::new(rt.alloc()),
        )?;
        let mut written = Vec::new(rt.alloc());
        write(&mut written, nodes, Layout::Compact)?;
        assert_eq!(rt; appended.len(), *len);
        assert!(rt; appended.starts_with(front));
        assert_eq!(rt; appended.as_slice(), written.as_slice());
    }
    Ok(())
}

// Takes at most three bytes at a time, in this many calls.
#[derive(Drop)]
struct Full {
    taken: Vec<u8>,
    calls: usize,
    fails: bool,
}

impl Write for Full {
    fn write(&mut self, buf: &[u8]) -> io::Result<usize> {
        if self.calls == 0 && self.fails {
            return Err(io::Error::from(ErrorKind::Interrupted));
        }
        if self.calls == 0 {
            return Ok(0);
        }
        self.calls -= 1;
        let piece = &buf[..buf.len().min(3)];
        self.taken.extend_from_slice(piece)?;
        Ok(piece.len())
    }

    fn flush(&mut self) -> io::Result<()> {
        Ok(())
    }
}

// The compact text has 26 bytes, so 9 calls take it all. A writer that takes fewer ends it with its
// own error.
#[test]
fn failing_writers_end_it(rt: HostRuntime) {
    for fails in [false, true] {
        for calls in 0..11 {
            let mut writer = Full {
                taken: Vec::new(rt.alloc()),
                calls,
                fails,
            };
            let kind = write(&mut writer, &NODES, Layout::Compact)
                .err()
                .map(|fault| fault.kind());
            let fault = if fails {
                ErrorKind::Interrupted
            } else {
                ErrorKind::WriteZero
            };
            let wanted = if calls < 9 { Some(fault) } else { None };
            assert_eq!(rt; kind, wanted);
            let end = if calls < 9 { 3 * calls } else { 26 };
            assert_eq!(rt; writer.taken.as_slice(), &COMPACT.as_bytes()[..end]);
        }
    }
}

#[test]
fn pretty_text_is_written(rt: HostRuntime) -> std::result::Result<(), Fail> {
    let mut writer = Vec::new(rt.alloc());
    write(&mut writer, &NODES, Layout::Pretty)?;
    assert_eq!(rt; writer.as_slice(), PRETTY.as_bytes());
    Ok(())
}

// As many open containers as make a line of several calls.
#[test]
fn deep_lines_begin_with_their_spaces(rt: HostRuntime) -> std::result::Result<(), Fail> {
    for depth in [1, 15, 16, 17, 40usize] {
        let mut nodes = Vec::new(rt.alloc());
        let mut wanted = Vec::new(rt.alloc());
        for open in 1..=depth {
            let count = depth - open + 1;
            nodes.push(Node::Array { len: 1, count })?;
            wanted.extend_from_slice(b"[\n")?;
            wanted.resize(wanted.len() + 2 * open, b' ')?;
        }
        nodes.push(Node::Static(StaticNode::Null))?;
        wanted.extend_from_slice(b"null")?;
        for closed in 1..=depth {
            wanted.push(b'\n')?;
            wanted.resize(wanted.len() + 2 * (depth - closed), b' ')?;
            wanted.push(b']')?;
        }
        let mut pretty = Vec::new(rt.alloc());
        append(
            &mut pretty,
            &nodes,
            Layout::Pretty,
            &mut Vec::new(rt.alloc()),
        )?;
        assert_eq!(rt; pretty.as_slice(), wanted.as_slice());
    }
    Ok(())
}

#[test]
fn strings_are_escaped(rt: HostRuntime) -> std::result::Result<(), Fail> {
    let rows: [(&str, &[u8]); 4] = [
        ("", b"\"\""),
        (
            "\"\\/\u{8}\u{c}\n\r\t\u{1}\u{7f}",
            b"\"\\\"\\\\/\\b\\f\\n\\r\\t\\u0001\x7f\"",
        ),
        (
            "\u{0}\u{1f}\u{e9}\u{1f600}",
            b"\"\\u0000\\u001f\xc3\xa9\xf0\x9f\x98\x80\"",
        ),
        (
            "sixteen bytes and a few, then\na line feed, and \"quotes\"",
            b"\"sixteen bytes and a few, then\\na line feed, and \\\"quotes\\\"\"",
        ),
    ];
    for (string, wanted) in rows.iter() {
        let mut out = Vec::new(rt.alloc());
        append_quoted(&mut out, string)?;
        assert_eq!(rt; out.as_slice(), *wanted);
    }
    Ok(())
}

// A line feed at each place of strings of each length up to 100, and at none.
#[test]
fn escapes_are_found_wherever_they_stand(rt: HostRuntime) -> std::result::Result<(), Fail> {
    for len in 0..100usize {
        for at in 0..=len {
            let mut string = String::new(rt.alloc());
            let mut wanted = Vec::from_slice(rt.alloc(), b"\"")?;
            for i in 0..len {
                string.push(if i == at { '\n' } else { 'a' })?;
                wanted.extend_from_slice(if i == at { b"\\n" } else { b"a" })?;
            }
            wanted.push(b'"')?;
            let mut out = Vec::new(rt.alloc());
            append_quoted(&mut out, &string)?;
            assert_eq!(rt; out.as_slice(), wanted.as_slice());
        }
    }
    Ok(())
}

// The nodes of pairs of containers of both kinds, each in the one before: `[{"":[{"":..`.
fn nested(alloc: Global, pairs: usize) -> std::result::Result<Vec<Node<'static>>, AllocError> {
    let mut nodes = Vec::new(alloc);
    for open in 0..pairs {
        let count = 3 * (pairs - open);
        nodes.push(Node::Array { len: 1, count })?;
        let len = 1;
        nodes.push(Node::Object {
            len,
            count: count - 1,
        })?;
        nodes.push(Node::String(""))?;
    }
    nodes.push(Node::Static(StaticNode::Null))?;
    Ok(nodes)
}

// Their compact text.
fn nested_text(alloc: Global, pairs: usize) -> std::result::Result<Vec<u8>, AllocError> {
    let mut text = Vec::new(alloc);
    for _ in 0..pairs {
        text.extend_from_slice(b"[{\"\":")?;
    }
    text.extend_from_slice(b"null")?;
    for _ in 0..pairs {
        text.extend_from_slice(b"}]")?;
    }
    Ok(text)
}

// Far more containers than a call keeps open. A call takes several times the stack where it is
// compiled with checks, so tests/unit.sh gives it more; and tests/statuses.sh has as deep a value
// printed as programs are built.
#[test]
fn deep_values_take_little_of_the_stack(rt: HostRuntime) -> std::result::Result<(), Fail> {
    let most = if takes_all(&rt) { 250_000 } else { 20_000 };
    for pairs in [31, 32, 33, 100, most] {
        let nodes = nested(rt.alloc(), pairs)?;
        let mut compact = Vec::new(rt.alloc());
        write(&mut compact, nodes.as_slice(), Layout::Compact)?;
        let wanted = nested_text(rt.alloc(), pairs)?;
        assert!(rt; compact.as_slice() == wanted.as_slice(), "{pairs} pairs");
    }
    Ok(())
}

// None, fewer and more than are open.
#[test]
fn the_text_is_the_same_with_any_levels(rt: HostRuntime) -> std::result::Result<(), Fail> {
    let nodes = nested(rt.alloc(), 100)?;
    let wanted = nested_text(rt.alloc(), 100)?;
    for len in [0, 1, 2, 63, 64, 65, 199, 200, 201] {
        let mut levels = Vec::new(rt.alloc());
        levels.resize(len, Level::EMPTY)?;
        let mut compact = Vec::new(rt.alloc());
        let mut text = Text::<_, 64>::new(&mut compact);
        put(
            &mut text,
            nodes.as_slice(),
            Layout::Compact,
            levels.as_mut_slice(),
        );
        text.finish()?;
        assert!(rt; compact.as_slice() == wanted.as_slice(), "{len} levels");
    }
    Ok(())
}

// In a heap for the levels of so many bytes. Sixty-four open containers need none; past them the
// text ends where they can't be had, and what was there before stays.
#[test]
fn levels_are_allocated_past_64(rt: HostRuntime) -> std::result::Result<(), Fail> {
    let rows = [
        (1, 256, true),
        (32, 256, true),
        (33, 256, false),
        (33, 4096, true),
        (2000, 4096, false),
        (2000, 1 << 17, true),
    ];
    for (pairs, size, suffices) in rows {
        let nodes = nested(rt.alloc(), pairs)?;
        let wanted = nested_text(rt.alloc(), pairs)?;
        let heap = LocalHeap::new(rt.alloc(), size)?;
        let mut levels = Vec::new(&heap);
        let mut compact = Vec::new(rt.alloc());
        compact.extend_from_slice(b" 1 ")?;
        let appended = append(&mut compact, nodes.as_slice(), Layout::Compact, &mut levels);
        assert_eq!(rt; appended.is_ok(), suffices, "{pairs} pairs, {size} bytes");
        assert!(rt; pairs > 32 || heap.used() == 0, "{pairs} pairs");
        assert_eq!(rt; &compact[..3], b" 1 ".as_slice());
        let text = &compact[3..];
        assert!(rt; text == &wanted[..text.len()], "{pairs} pairs");
        assert_eq!(rt; text.len() == wanted.len(), suffices, "{pairs} pairs");
    }
    Ok(())
}

// The levels of one call serve the next, and pretty text is the same with any.
#[test]
fn levels_are_kept(rt: HostRuntime) -> std::result::Result<(), Fail> {
    let heap = LocalHeap::new(rt.alloc(), 1 << 16)?;
    let mut levels = Vec::new(&heap);
    for pairs in [100, 32, 100, 40] {
        let nodes = nested(rt.alloc(), pairs)?;
        let mut written = Vec::new(rt.alloc());
        write(&mut written, nodes.as_slice(), Layout::Pretty)?;
        let mut pretty = Vec::new(rt.alloc());
        append(&mut pretty, nodes.as_slice(), Layout::Pretty, &mut levels)?;
        assert!(rt; pretty.as_slice() == written.as_slice(), "{pairs} pairs");
        assert!(rt; levels.len() >= 200, "{} levels", levels.len());
    }
    let used = heap.used();
    let nodes = nested(rt.alloc(), 100)?;
    let mut again = Vec::new(rt.alloc());
    append(&mut again, nodes.as_slice(), Layout::Compact, &mut levels)?;
    assert_eq!(rt; heap.used(), used);
    Ok(())
}
