// How many containers may be open at a time.
use crate::tests::{Tested, run_over};
use jtape::{Mode, status};
use simd_json::DEFAULT_MAX_DEPTH;
use std::test::Fail;

// So many opening brackets, and as many that close.
fn nested(rt: &impl AllocGlobal, depth: usize) -> std::result::Result<Vec<u8>, Fail> {
    let mut input = Vec::new(rt.alloc());
    input.resize(depth, b'[')?;
    input.resize(depth.saturating_mul(2), b']')?;
    Ok(input)
}

#[test]
fn depth_is_limited(rt: HostRuntime) -> Tested {
    let input = nested(&rt, 1024)?;
    let shallow = run_over(&rt, Mode::Tape, DEFAULT_MAX_DEPTH, input.as_slice());
    assert_eq!(rt; status(&shallow.answer), 0);
    let written = shallow.writer.into_inner();
    assert!(rt; written.starts_with(b"Array 1 1023\nArray 1 1022\n"));
    for depth in [1025, 1_000_000] {
        let input = nested(&rt, depth)?;
        let deep = run_over(&rt, Mode::Tape, DEFAULT_MAX_DEPTH, input.as_slice());
        assert_eq!(rt; status(&deep.answer), 1);
        assert_eq!(rt; deep.writer.into_inner().len(), 0);
    }
    Ok(())
}

#[test]
fn depth_is_as_asked(rt: HostRuntime) -> Tested {
    let input = nested(&rt, 1025)?;
    let deep = run_over(&rt, Mode::Tape, 1025, input.as_slice());
    assert_eq!(rt; status(&deep.answer), 0);
    Ok(())
}
