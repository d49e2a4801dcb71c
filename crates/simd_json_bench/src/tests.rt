use super::*;
use std::process::Abort;
use std::test::Fail;

type Tested = std::result::Result<(), Fail>;

#[test]
fn nodes_are_counted(rt: HostRuntime) -> Tested {
    let mut text = *b"{\"a\":[1,2.5,\"\\n\"]}";
    assert_eq!(rt; simd_json_bench_parse(rt.alloc(), &mut text), 6);
    let mut rejected = *b"[1,]";
    assert_eq!(rt; simd_json_bench_parse(rt.alloc(), &mut rejected), -1);
    Ok(())
}

#[test]
fn texts_lie_at_strides(rt: HostRuntime) -> Tested {
    let mut texts = *b"[1,2]...[3,4]...[5,6].";
    assert_eq!(rt; simd_json_bench_scan_all(rt.alloc(), &texts, 8, 5), 10);
    assert_eq!(rt; simd_json_bench_parse_all(rt.alloc(), &mut texts, 8, 5), 6);
    let mut rejected = *b"[1,2]...[3 4]...";
    assert_eq!(rt;
        simd_json_bench_parse_all(rt.alloc(), &mut rejected, 8, 5),
        -1
    );
    let mut open = *b"[\"2]\"...[\"4].....";
    assert_eq!(rt; simd_json_bench_scan_all(rt.alloc(), &open, 8, 5), -1);
    assert_eq!(rt; simd_json_bench_parse_all(rt.alloc(), &mut open, 0, 5), 0);
    Ok(())
}

#[test]
fn a_query_selects_what_loops_find(rt: HostRuntime) -> Tested {
    let text = b"{\"performances\":[{\"prices\":[{\"amount\":2},{\"amount\":3}]}],\"amount\":5}";
    for (task, wanted) in [(8, 5 * 32), (9, 10 * 32)] {
        let mut input = *text;
        let len = input.len();
        let by_hand = simd_json_bench_tape(rt.alloc(), &mut input, len, len, task);
        assert_eq!(rt; by_hand, wanted);
        let mut input = *text;
        let by_path = simd_json_bench_path(rt.alloc(), &mut input, len, len, task);
        assert_eq!(rt; by_path, wanted);
    }
    Ok(())
}
