ghost use Rattle.std.specs.Prelude.{◌≡◌};

use simd_json_parts::error::Result;
use simd_json_parts::node::Node;
use simd_json_stages::stage1::{BlockStage1Parse, Stage1Parse};
use simd_json_stages::stage2::{Original, Scanned, StackState, build_tape, nodes_enough};
use std::alloc::Global;
use std::marker::Brand;
use std::test::Fail;

mod atoms;
mod capacity;

// The tape of an input, by the first stage, in a list with capacity for just as many nodes as are
// enough.
fn tape_of<'de>(alloc: Global, input: &'de mut [u8], max_depth: usize) -> Result<Vec<Node<'de>>> {
    list_of::<Brand>(alloc, input, max_depth)
}

// The same, where `K` names the bytes of the input.
fn list_of<'de, K: Original>(
    alloc: Global,
    input: &'de mut [u8],
    max_depth: usize,
) -> Result<Vec<Node<'de>>>
    requires { input.old ≡ K.bytes }
{
    let mut indexes = Vec::new(alloc);
    let mut blocks = Vec::new(alloc);
    let found = BlockStage1Parse::find_structural_bits(input, &mut indexes, &mut blocks)?;
    let scanned = Scanned {
        structural_indexes: &indexes[..found.positions],
        escape_blocks: &blocks[..found.escape_blocks],
    };
    let mut stack = Vec::new(alloc);
    stack.resize(found.positions.min(max_depth), StackState::EMPTY)?;
    let mut nodes = Vec::new(alloc);
    nodes.reserve_exact(nodes_enough(found.positions, max_depth))?;
    let stack = stack.as_mut_slice();
    build_tape::<K, Node<'de>, Global>(input, scanned, stack, &mut [], &mut nodes, max_depth)?;
    Ok(nodes)
}

// A string with an escape and one without, before, round and after the ends of blocks.
#[test]
fn builds_strings_across_blocks(rt: HostRuntime) -> std::result::Result<(), Fail> {
    for len in 0..200usize {
        let mut input = Vec::new(rt.alloc());
        let mut first = Vec::new(rt.alloc());
        let mut second = Vec::new(rt.alloc());
        input.extend_from_slice(b"[\"")?;
        for _ in 0..len {
            input.push(b'a')?;
            first.push(b'a')?;
            second.push(b'b')?;
        }
        input.extend_from_slice(b"\\n\" , \"")?;
        first.push(b'\n')?;
        input.extend_from_slice(second.as_slice())?;
        input.extend_from_slice(b"\"]")?;
        let nodes = tape_of(rt.alloc(), input.as_mut_slice(), 1)?;
        let strings = [first, second];
        assert!(rt; nodes.len() == 3, "{len:?}");
        for (i, wanted) in strings.iter().enumerate() {
            match nodes.get(i.wrapping_add(1)) {
                Some(Node::String(string)) => {
                    assert!(rt; string.as_bytes() == wanted.as_slice(), "{len:?}");
                }
                _ => panic!(rt; "{len}"),
            }
        }
    }
    Ok(())
}
