// Allocations that fail: each heap is larger than the one before it, so that another one fails, and
// then none.
use crate::tests::ends::Slow;
use crate::tests::{Ran, Tested, run_from};
use jtape::{Mode, RunFault};
use linked_list_allocator::LocalHeap;
use simd_json::{DEFAULT_MAX_DEPTH, Error, ErrorType};
use std::process::Abort;
use std::test::Fail;

const LONG: &[u8] = b"[1,\"\\n\",[2,3,4],5,6,7,8,9,10,11,12,13,14,15,16,1.5]";

// An allocation of the input, of the structural indexes and the tape, or of the output fails, and
// nothing is written.
#[test]
fn each_growth_fails(rt: HostRuntime) -> Tested {
    let rows: [(Mode, &[u8], &[u8]); 4] = [
        (
            Mode::Tape,
            b"Array 16 19\nU64 1\nString \"\\n\"\nArray 3 3\nU64 2\n",
            b"U64 16\nDecimal 1.5\n",
        ),
        (Mode::Positions, b"0\n1\n2\n3\n7\n8\n9\n", b"\n46\n47\n50\n"),
        (Mode::Compact, LONG, b",16,1.5]\n"),
        (
            Mode::Pretty,
            b"[\n  1,\n  \"\\n\",\n  [\n    2,\n    3,\n    4\n  ],\n  5,\n",
            b"\n  16,\n  1.5\n]\n",
        ),
    ];
    for (mode, start, end) in rows {
        let (failed, printed) = run_in_heaps(&rt, mode, start, end)?;
        assert!(rt; failed > 20, "{failed:?}");
        assert!(rt; printed > 20, "{printed:?}");
    }
    Ok(())
}

const HEAP: usize = 16_384;

// How often an allocation failed, and how often none did, where others left more and more of a
// heap. The output begins and ends with these. Once the others gave back what they had, a run over
// the same heap prints all.
fn run_in_heaps(
    rt: &(impl AllocGlobal + Abort),
    mode: Mode,
    start: &[u8],
    end: &[u8],
) -> std::result::Result<(u32, u32), Fail> {
    let (mut failed, mut printed) = (0u32, 0u32);
    for units in 0..200usize {
        let heap = LocalHeap::new(rt.alloc(), HEAP)?;
        let left = 128 + units * 32;
        let others = Vec::<u8, &LocalHeap>::with_capacity(&heap, HEAP.saturating_sub(left))?;
        let used = heap.used();
        if assert_whole_or_silent(rt, run_slowly(rt, mode, &heap), start, end) {
            printed = printed.saturating_add(1);
        } else {
            failed = failed.saturating_add(1);
        }
        assert_eq!(rt; heap.used(), used);
        drop(others);
        let again = run_slowly(rt, mode, &heap);
        assert!(rt; assert_whole_or_silent(rt, again, start, end));
    }
    Ok((failed, printed))
}

fn run_slowly<'i>(rt: &impl AllocGlobal, mode: Mode, heap: &LocalHeap) -> Ran<Slow<'i>, Vec<u8>> {
    let reader = Slow {
        rest: LONG,
        fails: false,
    };
    run_from(heap, mode, DEFAULT_MAX_DEPTH, reader, Vec::new(rt.alloc()))
}

// Whether all is printed. Otherwise memory was lacking.
fn assert_whole_or_silent(
    rt: &impl Abort,
    ran: Ran<Slow<'_>, Vec<u8>>,
    start: &[u8],
    end: &[u8],
) -> bool {
    assert!(rt; !ran.reader.failed() && !ran.writer.failed());
    let written = ran.writer.into_inner();
    if ran.answer.is_ok() {
        assert_eq!(rt; ran.answer, Ok(true));
        assert!(rt; ran.reader.ended());
        assert!(rt; written.starts_with(start) && written.ends_with(end));
        true
    } else {
        let memory = Error::generic(ErrorType::OutOfMemory);
        assert_eq!(rt; ran.answer, Err(RunFault::Refused(memory)));
        assert_eq!(rt; written.len(), 0);
        false
    }
}

// A list as the writer: its growth fails at one of its writes, and then at none. What was there
// stays in front, and a beginning of the lines after it.
#[test]
fn lists_that_cannot_grow_hold_a_beginning(rt: HostRuntime) -> Tested {
    let mut input = Vec::from_slice(rt.alloc(), b"[")?;
    let mut lines = Vec::from_slice(rt.alloc(), b"so far\nArray 10000 12000\n")?;
    for _ in 0..2000 {
        input.extend_from_slice(b"true,\"a\\n\",1.5,{},[[]],")?;
        lines.extend_from_slice(b"Bool true\nString \"a\\n\"\nDecimal 1.5\n")?;
        lines.extend_from_slice(b"Object 0 0\nArray 1 1\nArray 0 0\n")?;
    }
    input.pop();
    input.push(b']')?;
    let (mut failed, mut begun, mut written) = (0u32, 0u32, 0u32);
    for units in 0..20usize {
        let heap = LocalHeap::new(rt.alloc(), 96 + units * 40_000)?;
        let held = Vec::from_slice(&heap, b"so far\n")?;
        let ran = run_from(
            rt.alloc(),
            Mode::Tape,
            DEFAULT_MAX_DEPTH,
            input.as_slice(),
            held,
        );
        let out = ran.writer.into_inner();
        if ran.answer.is_ok() {
            assert_eq!(rt; out.as_slice(), lines.as_slice());
            written = written.saturating_add(1);
        } else {
            assert_eq!(rt; ran.answer, Err(RunFault::Write));
            assert!(rt; out.starts_with(b"so far\n") && lines.starts_with(out.as_slice()));
            failed = failed.saturating_add(1);
            begun = begun.saturating_add(if out.len() > 7 { 1 } else { 0 });
        }
    }
    assert!(rt; failed > 3, "{failed:?}");
    assert!(rt; begun > 3, "{begun:?}");
    assert!(rt; written > 3, "{written:?}");
    Ok(())
}
