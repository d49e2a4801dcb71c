//! By what they test.
use jtape::{Answer, Mode, Port, run};
use simd_json::DEFAULT_MAX_DEPTH;
use std::alloc::Allocator;
use std::io::{Read, Write};
use std::test::Fail;

mod depth;
mod ends;
mod failures;
mod growths;
mod known;
mod lines;
mod words;

type Tested = std::result::Result<(), Fail>;

const OF_DOCUMENTS: [Mode; 4] = [Mode::Tape, Mode::Positions, Mode::Compact, Mode::Pretty];

const ALL: [Mode; 5] = [
    Mode::Tape,
    Mode::Positions,
    Mode::Compact,
    Mode::Pretty,
    Mode::Lines,
];

// What a run returned, and its ports.
#[derive(Drop)]
struct Ran<R, W> {
    answer: Answer,
    reader: Port<R>,
    writer: Port<W>,
}

fn run_from<A: Allocator + Copy, R: Read, W: Write>(
    alloc: A,
    mode: Mode,
    depth: usize,
    reader: R,
    writer: W,
) -> Ran<R, W> {
    let mut reader = Port::new(reader);
    let mut writer = Port::new(writer);
    let answer = run(alloc, mode, depth, &mut reader, &mut writer);
    Ran {
        answer,
        reader,
        writer,
    }
}

fn run_over<'b>(
    rt: &impl AllocGlobal,
    mode: Mode,
    depth: usize,
    input: &'b [u8],
) -> Ran<&'b [u8], Vec<u8>> {
    run_from(rt.alloc(), mode, depth, input, Vec::new(rt.alloc()))
}
