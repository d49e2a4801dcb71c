//! What a program in C calls to time the parser: a text with new buffers, and many texts with
//! buffers that are kept.
//!
//! A text is a pointer and a length. A [`Global`] takes no bytes, so C passes nothing for it:
//!
//! ```c
//! int64_t simd_json_bench_parse(uint8_t *text, size_t len);
//! int64_t simd_json_bench_parse_all(uint8_t *texts, size_t size, size_t stride, size_t len);
//! int64_t simd_json_bench_scan_all(const uint8_t *texts, size_t size, size_t stride, size_t len);
//! uint64_t simd_json_bench_tape(uint8_t *texts, size_t size, size_t stride, size_t len,
//!                               uint32_t task);
//! uint64_t simd_json_bench_path(uint8_t *texts, size_t size, size_t stride, size_t len,
//!                               uint32_t task);
//! uint64_t simd_json_bench_find(const uint8_t *texts, size_t size, size_t stride, size_t len,
//!                               uint32_t task);
//! uint64_t simd_json_bench_check(const uint8_t *texts, size_t size, size_t stride, size_t len,
//!                                uint32_t task);
//! uint64_t simd_json_bench_tape_lines(uint8_t *lines, size_t size);
//! uint64_t simd_json_bench_find_lines(const uint8_t *lines, size_t size);
//! uint64_t simd_json_bench_check_lines(const uint8_t *lines, size_t size);
//! ```
//!
//! The first three return a count, -1 if a text was rejected, or -2 if an allocation failed or the
//! count is too great. All but the first take texts of `len` bytes, one at the front of each whole
//! `stride` of `texts`, or lines that end with a line feed.
//!
//! The others do a task by a kept tape, by a query over one, on demand, and on demand after a check; `tasks` lists them.
//! They return 2^64 - 1 if a text was rejected or has not what the task asks for.
#![tactic(auto)]

ghost use Rattle.std.specs.Prelude.{◌≡◌, ◌≢◌, ℕ, pos, Ok, Err};
ghost use Rattle.simd_json_bench.specs.Reported.{HasFault, HasNodes, rejected};
ghost use Rattle.simd_json_parts.specs.declared.error.Error.{Error};
ghost use Rattle.simd_json_parts.specs.declared.error.ErrorType.{ErrorType};

use simd_json::{Buffers, ErrorType, Result, Tape, fill_tape, to_tape};
use simd_json_stages::stage1::{BlockStage1Parse, Stage1Parse};
use std::alloc::Global;

mod tasks;
#[cfg(test)]
mod tests;

const REJECTED: i64 = -1;

const UNKNOWN: i64 = -2;

fn reported(count: Result<usize>) -> i64
    ensures count { (n : ℕ) → result ≡ pos n → count ≡ Ok n }
    ensures rejected { result ≡ rejected → (e : Error) × (count ≡ Err e)
        × (e.error ≢ ErrorType.OutOfMemory) }
{
    match count {
        Ok(count) => i64::try_from(count).unwrap_or(UNKNOWN),
        Err(e) if *e.error() == ErrorType::OutOfMemory => UNKNOWN,
        Err(_) => REJECTED,
    }
}

/// Reads a text with new buffers. Returns the number of its nodes.
#[unsafe(no_mangle)]
pub extern "C" fn simd_json_bench_parse(alloc: Global, text: &mut [u8]) -> i64
    ensures nodes { (n : ℕ) → result ≡ pos n → HasNodes text.old n }
    ensures rejected { result ≡ rejected → HasFault text.old }
{
    reported(to_tape(alloc, text).map(|tape| tape.nodes().len()))
}

/// Reads texts with one pair of buffers and one tape. Returns the number of their nodes.
#[unsafe(no_mangle)]
pub extern "C" fn simd_json_bench_parse_all(
    alloc: Global,
    texts: &mut [u8],
    stride: usize,
    len: usize,
) -> i64 {
    reported(parse_all(alloc, texts, stride, len))
}

fn parse_all(alloc: Global, texts: &mut [u8], stride: usize, len: usize) -> Result<usize> {
    let mut buffers = Buffers::new(alloc, len)?;
    let mut tape = Tape::null(alloc)?;
    let mut nodes = 0usize;
    for slot in texts.chunks_exact_mut(stride.max(1)) {
        if let Some(text) = slot.get_mut(..len) {
            fill_tape(text, &mut buffers, &mut tape)?;
            nodes = nodes.saturating_add(tape.nodes().len());
        }
    }
    Ok(nodes)
}

/// The first stage alone, with lists that are kept. Returns the number of structural indexes.
#[unsafe(no_mangle)]
pub extern "C" fn simd_json_bench_scan_all(
    alloc: Global,
    texts: &[u8],
    stride: usize,
    len: usize,
) -> i64 {
    reported(scan_all(alloc, texts, stride, len))
}

fn scan_all(alloc: Global, texts: &[u8], stride: usize, len: usize) -> Result<usize> {
    let mut positions = Vec::new(alloc);
    let mut escape_blocks = Vec::new(alloc);
    let mut count = 0usize;
    for slot in texts.chunks_exact(stride.max(1)) {
        if let Some(text) = slot.get(..len) {
            let found = BlockStage1Parse::find_structural_bits(
                text,
                &mut positions,
                &mut escape_blocks,
            )?;
            count = count.saturating_add(found.positions);
        }
    }
    Ok(count)
}

/// Does a task by one kept tape. Returns what it says of all texts together.
#[unsafe(no_mangle)]
pub extern "C" fn simd_json_bench_tape(
    alloc: Global,
    texts: &mut [u8],
    stride: usize,
    len: usize,
    task: u32,
) -> u64 {
    tasks::tape::of_texts(alloc, texts, stride, len, task).unwrap_or(tasks::NONE)
}

/// The same by a query over a tape.
#[unsafe(no_mangle)]
pub extern "C" fn simd_json_bench_path(
    alloc: Global,
    texts: &mut [u8],
    stride: usize,
    len: usize,
    task: u32,
) -> u64 {
    tasks::path::of_texts(alloc, texts, stride, len, task).unwrap_or(tasks::NONE)
}

/// The same on demand.
#[unsafe(no_mangle)]
pub extern "C" fn simd_json_bench_find(
    alloc: Global,
    texts: &[u8],
    stride: usize,
    len: usize,
    task: u32,
) -> u64 {
    tasks::on_demand::of_texts(alloc, texts, stride, len, task, false).unwrap_or(tasks::NONE)
}

/// The same on demand, after a check of each text.
#[unsafe(no_mangle)]
pub extern "C" fn simd_json_bench_check(
    alloc: Global,
    texts: &[u8],
    stride: usize,
    len: usize,
    task: u32,
) -> u64 {
    tasks::on_demand::of_texts(alloc, texts, stride, len, task, true).unwrap_or(tasks::NONE)
}

/// Counts lines by their level by one kept tape, and adds the status of errors.
#[unsafe(no_mangle)]
pub extern "C" fn simd_json_bench_tape_lines(alloc: Global, lines: &mut [u8]) -> u64 {
    tasks::tape::of_lines(alloc, lines).unwrap_or(tasks::NONE)
}

/// The same on demand.
#[unsafe(no_mangle)]
pub extern "C" fn simd_json_bench_find_lines(alloc: Global, lines: &[u8]) -> u64 {
    tasks::on_demand::of_lines(alloc, lines, false).unwrap_or(tasks::NONE)
}

/// The same on demand, after a check of each line.
#[unsafe(no_mangle)]
pub extern "C" fn simd_json_bench_check_lines(alloc: Global, lines: &[u8]) -> u64 {
    tasks::on_demand::of_lines(alloc, lines, true).unwrap_or(tasks::NONE)
}
