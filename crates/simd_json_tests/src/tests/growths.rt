// Growths that fail, each in turn.
use crate::tests::memory::{MEMORY, ballast};
use linked_list_allocator::LocalHeap;
use simd_json::{
    Buffers, Deserializer, Error, ErrorType, Result, Tape, fill_tape, fill_tape_padded, reserve,
    to_tape, to_tape_with_buffers,
};
use std::alloc::Allocator;
use std::process::Abort;

fn parse_fresh(heap: &LocalHeap, input: &mut [u8]) -> Result<usize> {
    Ok(to_tape(heap, input)?.nodes().len())
}

fn step_fresh(heap: &LocalHeap, input: &mut [u8]) -> Result<usize> {
    let steps = Deserializer::from_slice(heap, input)?;
    Ok(steps.into_tape().nodes().len())
}

fn step_over_buffers(heap: &LocalHeap, input: &mut [u8]) -> Result<usize> {
    let mut buffers = Buffers::with_max_depth(heap, 0, 8)?;
    let steps = Deserializer::from_slice_with_buffers(input, &mut buffers)?;
    Ok(steps.into_tape().nodes().len())
}

fn make_buffers(heap: &LocalHeap) -> Result<usize> {
    let _buffers = Buffers::new(heap, 100)?;
    Ok(13)
}

fn make_shallow_buffers(heap: &LocalHeap) -> Result<usize> {
    let _buffers = Buffers::with_max_depth(heap, 100, 4)?;
    Ok(13)
}

fn reserve_buffers(heap: &LocalHeap) -> Result<usize> {
    Buffers::with_max_depth(heap, 0, 1000)?.reserve(100)?;
    Ok(13)
}

fn reserve_both(heap: &LocalHeap) -> Result<usize> {
    let mut buffers = Buffers::with_max_depth(heap, 0, 8)?;
    let mut tape = Tape::null(heap)?;
    reserve(40, &mut buffers, &mut tape)?;
    Ok(tape.nodes().len().saturating_add(12))
}

// A call that takes memory of the heap, by its number; how many nodes it leaves, 13 where it leaves
// none.
fn call(number: u32, heap: &LocalHeap, input: &mut [u8]) -> Result<usize> {
    match number {
        0 => parse_fresh(heap, input),
        1 => make_buffers(heap),
        2 => make_shallow_buffers(heap),
        3 => Ok(Tape::null(heap)?.nodes().len().saturating_add(12)),
        4 => step_fresh(heap, input),
        5 => step_over_buffers(heap, input),
        6 => reserve_buffers(heap),
        _ => reserve_both(heap),
    }
}

// Whether a growth of the call fails with this many bytes left. If so, it returns `OutOfMemory`;
// with memory the same call returns what it usually does.
fn has_call_failed(
    rt: &(impl AllocGlobal + Abort),
    number: u32,
    input: &[u8],
    left: usize,
) -> bool {
    let mut first = Vec::from_slice(rt.alloc(), input).expect(rt, MEMORY);
    let mut again = Vec::from_slice(rt.alloc(), input).expect(rt, MEMORY);
    let heap = LocalHeap::new(rt.alloc(), 1 << 13).expect(rt, MEMORY);
    let full = ballast(rt, &heap, left);
    let answer = call(number, &heap, first.as_mut_slice());
    drop(full);
    assert_eq!(rt; heap.used(), 0);
    assert_eq!(rt;
        call(number, &heap, again.as_mut_slice()),
        Ok(13),
        "{number:?}"
    );
    is_out_of_memory(rt, number, answer, 13)
}

// Whether an allocation of a call failed; otherwise it returned this many nodes.
fn is_out_of_memory(rt: &impl Abort, number: u32, answer: Result<usize>, nodes: usize) -> bool {
    let has_failed = answer.is_err();
    let wanted = if has_failed {
        Err(Error::generic(ErrorType::OutOfMemory))
    } else {
        Ok(nodes)
    };
    assert_eq!(rt; answer, wanted, "{number:?}");
    has_failed
}

// Each heap leaves more free memory than the one before it, so that another growth fails, and then
// none.
fn fails_growths(rt: &(impl AllocGlobal + Abort), input: &[u8]) {
    for number in 0..8 {
        let mut failed = 0u32;
        for units in 0..200 {
            if has_call_failed(rt, number, input, units * 16) {
                failed = failed.saturating_add(1);
            }
        }
        assert!(rt; failed > 0, "{number:?}");
        assert!(rt; failed < 200, "{number:?}");
    }
}

#[test]
fn each_growth_fails(rt: HostRuntime) {
    fails_growths(&rt, b"[[1,2],[3,[4]],5,6,7,8,9]");
}

// The list of blocks grows too.
#[test]
fn each_growth_with_escapes_fails(rt: HostRuntime) {
    fails_growths(&rt, b"[[1,\"\\n\"],{\"\\u0061\":[4]},5,6,7,8,9]");
}

// A parse over buffers and a tape of the heap, which hold another document.
fn parse<'de, A: Allocator + Copy, B: Allocator>(
    form: u32,
    input: &'de mut [u8],
    buffers: &mut Buffers<A>,
    tape: &mut Tape<'de, B>,
) -> Result<usize> {
    match form {
        0 => fill_tape(input, buffers, tape)?,
        1 => {
            let len = input.len().saturating_sub(64);
            fill_tape_padded(input, len, buffers, tape)?;
        }
        _ => {
            let len = input.len().saturating_sub(64);
            return Ok(
                to_tape_with_buffers(&mut input[..len], buffers)?
                    .nodes()
                    .len(),
            );
        }
    }
    Ok(tape.nodes().len())
}

const LARGER: &[u8] = b"[[1,2],{\"\\u0061\":[4]},5,6,7,8,9,10,11]";

// An input with spaces after it, up to 128 bytes.
fn padded(rt: &(impl AllocGlobal + Abort), input: &[u8]) -> Vec<u8> {
    let mut text = Vec::from_slice(rt.alloc(), input).expect(rt, MEMORY);
    text.resize(128, b' ').expect(rt, MEMORY);
    text
}

// A parse after another one, with this many bytes left in the heap; whether a growth failed. Where
// one did, nothing is listed, and the tape is empty. The same buffers and tape serve once there is
// memory.
fn has_failed(rt: &(impl AllocGlobal + Abort), form: u32, left: usize) -> bool {
    let (mut first, mut second) = (padded(rt, b"[\"\\n\"]"), padded(rt, LARGER));
    let mut third = padded(rt, LARGER);
    let heap = LocalHeap::new(rt.alloc(), 1 << 13).expect(rt, MEMORY);
    let mut buffers = Buffers::new(&heap, 0).expect(rt, MEMORY);
    let mut tape = Tape::null(&heap).expect(rt, MEMORY);
    let full = ballast(rt, &heap, 4096);
    let answer = parse(form, first.as_mut_slice(), &mut buffers, &mut tape);
    drop(full);
    assert_eq!(rt; answer, Ok(2), "{form:?}");
    assert_eq!(rt; buffers.structural_indexes().len(), 3, "{form:?}");
    let full = ballast(rt, &heap, left);
    let answer = parse(form, second.as_mut_slice(), &mut buffers, &mut tape);
    drop(full);
    let has_failed = is_out_of_memory(rt, form, answer, 15);
    let positions = if has_failed { 0 } else { 29 };
    assert_eq!(rt; buffers.structural_indexes().len(), positions, "{form:?}");
    assert!(rt; !has_failed || form == 2 || tape.is_empty(), "{form:?}");
    let full = ballast(rt, &heap, 4096);
    let answer = parse(form, third.as_mut_slice(), &mut buffers, &mut tape);
    drop(full);
    assert_eq!(rt; answer, Ok(15), "{form:?}");
    assert_eq!(rt; buffers.structural_indexes().len(), 29, "{form:?}");
    has_failed
}

#[test]
fn failed_parses_list_nothing(rt: HostRuntime) {
    for form in 0..3 {
        let mut failed = 0u32;
        for units in 0..200 {
            if has_failed(&rt, form, units * 16) {
                failed = failed.saturating_add(1);
            }
        }
        assert!(rt; failed > 5, "{form:?}");
        assert!(rt; failed < 195, "{form:?}");
    }
}
