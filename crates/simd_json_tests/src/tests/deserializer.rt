// The deserializer's steps over the nodes.
use crate::tests::Tested;
use simd_json::{Buffers, Deserializer, Error, ErrorType, Node, StaticNode, Tape, to_tape};
use std::process::Abort;

const NODES: [Node<'static>; 3] = [
    Node::Array { len: 2, count: 2 },
    Node::Static(StaticNode::U64(1)),
    Node::Static(StaticNode::U64(2)),
];

// Each node is given once, in preorder; so it is again after a restart.
#[test]
fn nodes_are_given_in_order(rt: HostRuntime) -> Tested {
    let mut input = *b"[1,2]";
    let mut steps = Deserializer::from_slice(rt.alloc(), &mut input)?;
    for _ in 0..2 {
        for node in &NODES {
            assert!(rt; !steps.is_at_end());
            assert_eq!(rt; steps.next_(), *node);
        }
        assert!(rt; steps.is_at_end());
        steps.restart();
    }
    Ok(())
}

// The value is the whole one wherever the position is.
#[test]
fn the_value_is_whole_at_every_position(rt: HostRuntime) -> Tested {
    let mut input = *b"[7]";
    let mut steps = Deserializer::from_slice(rt.alloc(), &mut input)?;
    assert!(rt; steps.as_value().is_array());
    assert!(rt; !steps.is_at_end());
    steps.next_();
    assert!(rt; steps.as_value().is_array());
    assert!(rt; !steps.is_at_end());
    assert_eq!(rt; steps.next_(), Node::Static(StaticNode::U64(7)));
    assert!(rt; steps.is_at_end() && steps.as_value().is_array());
    steps.restart();
    assert!(rt; !steps.is_at_end() && steps.as_value().is_array());
    Ok(())
}

#[test]
fn tapes_are_handed_on(rt: HostRuntime) -> Tested {
    let mut none = Deserializer::from_tape(Tape::null(rt.alloc())?.reset());
    assert!(rt; none.is_at_end());
    none.restart();
    assert!(rt; none.is_at_end());
    assert_eq!(rt; none.into_tape().nodes(), [].as_slice());
    let mut input = *b"[1,2]";
    let mut steps = Deserializer::from_tape(to_tape(rt.alloc(), &mut input)?);
    assert!(rt; !steps.is_at_end());
    assert_eq!(rt; steps.next_(), NODES[0]);
    assert!(rt; format!(in rt.alloc(); "{steps:?}")?.starts_with("Deserializer"));
    assert_eq!(rt; steps.into_tape().nodes(), NODES.as_slice());
    Ok(())
}

// An input, the printed text of its error, and the class of that: io, eof, syntax or data.
type Rejected = (&'static [u8], &'static str, [bool; 4]);

const REJECTED: [Rejected; 6] = [
    (b"", "Eof at character 0", [false, true, false, false]),
    (
        b" \t\r\n",
        "Eof at character 0",
        [false, true, false, false],
    ),
    (
        b"-170141183460469231731687303715884105729",
        "InvalidNumber at character 40 (' ')",
        [false, false, true, false],
    ),
    (
        b"time",
        "ExpectedTrue at character 0 ('t')",
        [false, false, false, true],
    ),
    (
        b"[1 2]",
        "ExpectedArrayContent at character 3 ('2')",
        [false, false, true, false],
    ),
    (
        b"[\xff]",
        "InvalidUtf8 at character 0",
        [false, false, true, false],
    ),
];

fn assert_rejected(rt: &(impl AllocGlobal + Abort), row: &Rejected) -> Tested {
    let (input, text, classes) = *row;
    let mut read = Vec::from_slice(rt.alloc(), input)?;
    let Err(e) = Deserializer::from_slice(rt.alloc(), read.as_mut_slice()) else {
        panic!(rt; "{text}");
    };
    assert_eq!(rt; e.to_string(rt.alloc())?.as_str(), text);
    assert_eq!(rt;
        [e.is_io(), e.is_eof(), e.is_syntax(), e.is_data()],
        classes,
        "{text:?}"
    );
    Ok(())
}

#[test]
fn rejections_are_printed_and_classed(rt: HostRuntime) -> Tested {
    for row in &REJECTED {
        assert_rejected(&rt, row)?;
    }
    Ok(())
}

// Limit and structural indexes are those of the buffers.
#[test]
fn buffers_are_used_again(rt: HostRuntime) -> Tested {
    let deep = Error::new(1, Some('['), ErrorType::DepthLimitExceeded);
    let rows: [(&[u8], Option<Error>, &[u32]); 4] = [
        (b"[1,2]", None, &[0, 1, 2, 3, 4]),
        (b"[[]]", Some(deep), &[0, 1, 2, 3]),
        (b"\"", Some(Error::generic(ErrorType::Syntax)), &[]),
        (b" [1,2]", None, &[1, 2, 3, 4, 5]),
    ];
    let mut buffers = Buffers::with_max_depth(rt.alloc(), 0, 1)?;
    for (input, fault, positions) in &rows {
        let mut read = Vec::from_slice(rt.alloc(), input)?;
        let steps = Deserializer::from_slice_with_buffers(read.as_mut_slice(), &mut buffers);
        assert_eq!(rt; buffers.structural_indexes(), *positions, "{input:?}");
        match steps {
            Ok(steps) => assert_eq!(rt; steps.into_tape().nodes(), NODES.as_slice()),
            Err(e) => assert_eq!(rt; Some(&e), fault.as_ref()),
        }
    }
    Ok(())
}
