// Nodes whose texts stay in the input: the same as a tape's, at their places.
ghost use Rattle.std.specs.Prelude.{ℕ, List};
ghost use Rattle.simd_json_parts.specs.Limits.{max_length};
ghost use Rattle.simd_json_stages.specs.Placed.{Placed};
ghost use base.Fml.{ftrue};

use crate::tests::memory::{MEMORY, ballast};
use crate::tests::{Tested, text};
use linked_list_allocator::LocalHeap;
use simd_json::{
    Buffers, Container, Error, ErrorType, Node, SpanSink, StaticNode, fill_spans, to_tape,
};
use std::marker::Model;
use std::process::Abort;

// A node without its text, and where that lies.
#[derive(Clone, Copy, Debug, Drop, PartialEq)]
struct Span {
    node: Node<'static>,
    at: usize,
    len: usize,
}

// A list of spans that grows. The ghost record of what it was given says what it holds.
#[derive(Drop)]
pub(super) struct SpanList {
    list: Vec<Span>,
    noted: Noted,
}

#[derive(Drop)]
struct Noted {
    ghost note: { List Placed },
}

impl Model for Noted {
    ghost also_owns = { λ _. ftrue };
}

impl SpanList {
    fn put(&mut self, node: Node<'static>, at: usize, len: usize) {
        let _ = self.list.push(Span { node, at, len });
    }
}

impl SpanSink for SpanList {
    ghost placed = { λ s. s.noted.note };

    ghost node_room = { λ _. max_length };

    ghost Lender = { ℕ };

    ghost lender = { λ _. 0 };

    fn len(&self) -> usize {
        self.list.len()
    }

    fn push_string(&mut self, at: usize, string: &str) {
        self.put(Node::String(""), at, string.len());
    }

    fn push_decimal(&mut self, at: usize, literal: &str) {
        self.put(Node::Decimal(""), at, literal.len());
    }

    fn push_wide(&mut self, at: usize, literal: &str, value: StaticNode) {
        self.put(Node::Static(value), at, literal.len());
    }

    fn push_static(&mut self, value: StaticNode) {
        self.put(Node::Static(value), 0, 0);
    }

    fn push_header(&mut self, container: Container) {
        match container {
            Container::Array => self.put(Node::Array { len: 0, count: 0 }, 0, 0),
            Container::Object => self.put(Node::Object { len: 0, count: 0 }, 0, 0),
        }
    }

    fn set_counts(&mut self, header: usize, container: Container, len: usize, count: usize) {
        self.list[header].node = match container {
            Container::Array => Node::Array { len, count },
            Container::Object => Node::Object { len, count },
        };
    }
}

pub(super) fn empty_list(rt: &impl AllocGlobal) -> SpanList {
    SpanList {
        list: Vec::new(rt.alloc()),
        noted: Noted {},
    }
}

// Whether a span has the text of a node at its place, or else is that node.
fn is_node(input: &[u8], span: &Span, node: &Node<'_>) -> bool {
    let there = input.get(span.at..span.at.saturating_add(span.len));
    match node {
        Node::String(string) => {
            span.node == Node::String("") && there == Some(string.as_bytes())
        }
        Node::Decimal(literal) => {
            span.node == Node::Decimal("") && there == Some(literal.as_bytes())
        }
        other => span.node == *other,
    }
}

fn assert_as_tape(rt: &(impl AllocGlobal + Abort), input: &[u8]) -> Tested {
    let mut kept = Vec::from_slice(rt.alloc(), input)?;
    let mut lent = Vec::from_slice(rt.alloc(), input)?;
    let mut buffers = Buffers::with_max_depth(rt.alloc(), 0, 4)?;
    let mut sink = empty_list(rt);
    let found = fill_spans(kept.as_mut_slice(), &mut buffers, &mut sink);
    match to_tape(rt.alloc(), lent.as_mut_slice()) {
        Ok(tape) => {
            assert_eq!(rt; found, Ok(()), "{input:?}");
            assert_eq!(rt; sink.list.len(), tape.nodes().len(), "{input:?}");
            for (span, node) in sink.list.iter().zip(tape.nodes()) {
                assert!(rt;
                    is_node(kept.as_slice(), span, node),
                    "{input:?}, {span:?}, {node:?}"
                );
            }
        }
        Err(error) => assert_eq!(rt; found, Err(error), "{input:?}"),
    }
    Ok(())
}

// Inputs without a backslash and with some, whose last token is a bracket or not, near their end
// and far from it.
const INPUTS: [&[u8]; 14] = [
    b"",
    b"\"\"",
    b" \"a\\u0041\\n\" ",
    b"1.50",
    b"-12345678901234567890123",
    b"[]",
    b"{\"key\":[1,2.5,\"\",{}],\"k\\\\ey\":null}",
    b"[\"caf\\u00e9\",\"caf\xc3\xa9\",\"\\ud83d\\ude00\", 1e3 ,true]",
    b"{\"\\u0061\":\"\\\"\" , \"b\":-0}",
    b"[\"one\",\"\\q\"]",
    b"[\"one\",\"\\ud800\"]",
    b"[\"one\",1 2]",
    b"[\"one\"",
    b"[\"\xff\"]",
];

#[test]
fn spans_are_the_nodes_of_a_tape(rt: HostRuntime) -> Tested {
    for input in &INPUTS {
        assert_as_tape(&rt, input)?;
    }
    for piece in [
        b"\"plain text\", 1.5,".as_slice(),
        b"\"a\\tb\",".as_slice(),
        b"\"0123456789abcdef0123456789abcdef0123456789abcdef0123456789abcdef\\n\",".as_slice(),
        b"{\"id\":7,\"name\":\"\\u0041\"},".as_slice(),
    ] {
        let many = text(rt.alloc(), b"[\"first\",", piece, 40, b"\"last\\\\\",0.5]")?;
        assert_as_tape(&rt, many.as_slice())?;
    }
    Ok(())
}

// After an error the texts of what was read before it lie in the input.
#[test]
fn texts_before_an_error_lie_in_the_input(rt: HostRuntime) -> Tested {
    let mut input = *b"[\"\\u0041B\",1.5,\"\\q\"]";
    let mut buffers = Buffers::new(rt.alloc(), 0)?;
    let mut sink = empty_list(&rt);
    let found = fill_spans(&mut input, &mut buffers, &mut sink);
    assert_eq!(rt;
        found,
        Err(Error::new(16, Some('q'), ErrorType::InvalidEscape))
    );
    assert_eq!(rt; sink.list.len(), 3);
    let (string, decimal) = (sink.list[1], sink.list[2]);
    assert_eq!(rt; (string.at, string.len), (2, 2));
    assert_eq!(rt; &input[2..4], b"AB".as_slice());
    assert_eq!(rt; (decimal.at, decimal.len), (11, 3));
    assert_eq!(rt; &input[11..14], b"1.5".as_slice());
    Ok(())
}

// Integers beyond 64 bits have their literal, others none.
#[test]
fn long_integers_lie_in_the_input(rt: HostRuntime) -> Tested {
    let mut input = *b"[-9223372036854775809, 18446744073709551616,-9223372036854775808,\
        18446744073709551615]";
    let mut buffers = Buffers::new(rt.alloc(), 0)?;
    let mut sink = empty_list(&rt);
    assert_eq!(rt; fill_spans(&mut input, &mut buffers, &mut sink), Ok(()));
    let expected = [
        Span {
            node: Node::Static(StaticNode::I128(-9223372036854775809)),
            at: 1,
            len: 20,
        },
        Span {
            node: Node::Static(StaticNode::U128(18446744073709551616)),
            at: 23,
            len: 20,
        },
        Span {
            node: Node::Static(StaticNode::I64(i64::MIN)),
            at: 0,
            len: 0,
        },
        Span {
            node: Node::Static(StaticNode::U64(u64::MAX)),
            at: 0,
            len: 0,
        },
    ];
    assert_eq!(rt; &sink.list[1..], expected.as_slice());
    Ok(())
}

// Without memory for the lists of a parse nothing is read; with capacity none is taken.
#[test]
fn spans_find_no_memory(rt: HostRuntime) {
    let heap = LocalHeap::new(rt.alloc(), 1 << 16).expect(&rt, MEMORY);
    let mut buffers = Buffers::empty(&heap, 2);
    let full = ballast(&rt, &heap, 0);
    let mut sink = empty_list(&rt);
    let mut input = *b"[\"a\\nb\"]";
    let found = fill_spans(&mut input, &mut buffers, &mut sink);
    assert_eq!(rt; found, Err(Error::generic(ErrorType::OutOfMemory)));
    assert_eq!(rt; (&input, sink.list.len()), (b"[\"a\\nb\"]", 0));
    drop(full);
    buffers.reserve(8).expect(&rt, MEMORY);
    let _full = ballast(&rt, &heap, 0);
    assert_eq!(rt; fill_spans(&mut input, &mut buffers, &mut sink), Ok(()));
    assert_eq!(rt; &input[2..5], b"a\nb".as_slice());
}
