use super::tape_of;
use simd_json_stages::stage2::nodes_enough;
use std::test::Fail;

// By input, number of structural indexes and depth limit: how many nodes are enough, and how many
// of them the tape takes, unless the input is rejected. `[[[[1` is, with its fifth node written.
#[test]
fn so_many_nodes_are_enough(rt: HostRuntime) -> std::result::Result<(), Fail> {
    let rows = [
        ("1", 1, 0, 1, Some(1)),
        ("1", 1, 1024, 1, Some(1)),
        ("[]", 2, 0, 1, None),
        ("[]", 2, 1, 2, Some(1)),
        ("[1]", 3, 1, 2, Some(2)),
        ("[1]", 3, 1024, 3, Some(2)),
        ("[1,2,3]", 7, 0, 4, None),
        ("[1,2,3]", 7, 1, 4, Some(4)),
        ("[1,2,3]", 7, 1024, 7, Some(4)),
        ("{\"a\":1}", 5, 1, 3, Some(3)),
        ("{\"a\":[2,{}]}", 10, 3, 7, Some(5)),
        ("[[", 2, 0, 1, None),
        ("[[", 2, 1, 2, None),
        ("[[[[", 4, 0, 2, None),
        ("[[[[", 4, 1, 3, None),
        ("[[[[", 4, 2, 3, None),
        ("[[[[", 4, 1024, 4, None),
        ("[[[[1", 5, 4, 5, None),
        ("[[[[1]]]]", 9, 4, 7, Some(5)),
    ];
    for (source, positions, max_depth, enough, wanted) in rows {
        let nodes = nodes_enough(positions, max_depth);
        assert!(rt; nodes == enough, "{source:?} within {max_depth}");
        let mut input = source.as_bytes().to_vec(rt.alloc())?;
        let answer = tape_of(rt.alloc(), input.as_mut_slice(), max_depth);
        let used = answer.ok().map(|nodes| nodes.len());
        assert!(rt; used == wanted, "{source:?} within {max_depth}");
    }
    Ok(())
}
