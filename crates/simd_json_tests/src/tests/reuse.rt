// Buffers and a tape that are used again.
use crate::tests::Tested;
use simd_json::{Buffers, Node, StaticNode, Tape, fill_tape};
use std::process::Abort;

// An odd run of backslashes leaves a string open.
const ODD: &[u8] =
    b"\"\\\\\\\\\\\\\\\\\\\\\\\\\\\\\\\\\\\\\\\\\\\\\\\\\\\\\\\\\\\\\\\\\\\\\\\\\\\\\\\\\
    \\\\\\\\\\\\\\\\\\\\\\\\\\\\\\\\\\\\\\\\\\\\\\\\\\\"";

// Inputs that leave buffers and a tape in different states; what each is parsed as is in
// tests/vectors/depth.txt.
const INPUTS: [&[u8]; 10] = [
    b"[[1]]", b"[[[1]]]", b"[\"", b"[1,2]", b"[", b"", b"[\xff]", b"\\\"", b"\\\"\"", ODD,
];

// What buffers and tape held does not matter: after each of them, each has the error, the nodes and
// the structural indexes that it has over new ones.
#[test]
fn what_was_parsed_before_does_not_matter(rt: HostRuntime) -> Tested {
    let mut used = Buffers::with_max_depth(rt.alloc(), 0, 2)?;
    for before in &INPUTS {
        for input in &INPUTS {
            assert_as_new(&rt, before, input, &mut used)?;
        }
    }
    Ok(())
}

fn assert_as_new(
    rt: &(impl AllocGlobal + Abort),
    before: &[u8],
    input: &[u8],
    used: &mut Buffers,
) -> Tested {
    let mut alone = Vec::from_slice(rt.alloc(), input)?;
    let mut new = Buffers::with_max_depth(rt.alloc(), 0, 2)?;
    let mut wanted = Tape::null(rt.alloc())?;
    let error = fill_tape(alone.as_mut_slice(), &mut new, &mut wanted).err();
    let mut first = Vec::from_slice(rt.alloc(), before)?;
    let mut second = Vec::from_slice(rt.alloc(), input)?;
    let mut tape = Tape::null(rt.alloc())?;
    let _ = fill_tape(first.as_mut_slice(), used, &mut tape);
    let found = fill_tape(second.as_mut_slice(), used, &mut tape).err();
    assert_eq!(rt; found, error, "{before:?}, {input:?}");
    assert_eq!(rt; tape.nodes(), wanted.nodes(), "{before:?}, {input:?}");
    assert_eq!(rt;
        used.structural_indexes(),
        new.structural_indexes(),
        "{before:?}, {input:?}"
    );
    Ok(())
}

#[test]
fn a_tape_is_null_and_then_reset(rt: HostRuntime) -> Tested {
    let null = Tape::null(rt.alloc())?;
    assert_eq!(rt; null.nodes(), [Node::Static(StaticNode::Null)].as_slice());
    assert!(rt; format!(in rt.alloc(); "{null:?}")?.starts_with("Tape"));
    let mut input = *b"[1]";
    let mut tape = null.reset();
    assert!(rt; tape.is_empty());
    assert!(rt; Tape::empty(rt.alloc()).is_empty());
    let mut buffers = Buffers::new(rt.alloc(), 3)?;
    fill_tape(&mut input, &mut buffers, &mut tape)?;
    assert_eq!(rt; tape.nodes().len(), 2);
    assert_eq!(rt; tape.reset().nodes().len(), 0);
    Ok(())
}
