//! The scan of a whole input: the order in which the steps of the first stage are applied.
//!
//! Its whole blocks of 64 bytes come first, in windows of 128 blocks: before each window the lists
//! get memory for all that it may hold, and after it its encoding is checked. What is left, fewer
//! than 64 bytes, is scanned as a block that is filled up with spaces, so that the input needs no
//! padding, as it does in simdjson. Inputs of fewer than eight whole blocks take a shorter path.
//!
//! A block passes two steps, whose states are kept apart, since all blocks of a group take the
//! first step before one takes the second: it is classified, and listed if it holds a backslash,
//! and its structural indexes are written. Control bytes inside strings are collected in a word,
//! which is tested once, at the end.
ghost use Rattle.std.specs.Prelude.{◌≡◌, ◌+◌, ◌*◌, ◌/◌, ◌^◌, ◌<◌, ◌≤◌, ◌⊎◌};
ghost use Rattle.std.specs.Prelude.{ℕ, List, length, drop, IfOk, IfErr, IsTrue};
ghost use Rattle.std.specs.Int.{from_bool};
ghost use Rattle.std.specs.Simd.{first_chunks};
ghost use Rattle.simd_json_parts.specs.Limits.{max_length};
ghost use Rattle.simd_json_stages.specs.Blocks.{AreClassified, AreParts, IsClassified};
ghost use Rattle.simd_json_stages.specs.Blocks.{IsControl, IsPlaced, IsScanned};
ghost use Rattle.simd_json_stages.specs.Carries.{IsChecked, is_escaped_at};
ghost use Rattle.simd_json_stages.specs.Scans.{IsBadEncoding, IsFound, LacksListMemory};

mod groups;
mod windows;

use super::encoding::check_window;
use super::lists::{grow, list_block, write, write_exactly};
use super::words::{Carry, Classified, Parts, classify, classify_last, find_parts, find_starts};
use super::{BLOCK_LEN, Found};
use groups::GROUP;
use simd_json_parts::error::Result;
use std::alloc::Allocator;
use windows::{WINDOW, Window, capacity_for, scan_few, scan_window};

// The state of the first step after some blocks.
#[derive(Clone, Copy, Drop)]
struct Classifying {
    // 1 if the first byte of the next block is escaped, else 0
    escaped: u64,
    // not 0 if a byte of the current window is not ASCII
    high: u64,
    // how many entries of the list of blocks with a backslash are in use
    listed: usize,
}

impl Classifying {
    // Returns the state after block number `block`, in which `found` was found, and lists the block
    // if it holds a backslash.
    #[inline(always)]
    fn with_block(self, found: Classified, block: usize, escape_blocks: &mut [u32]) -> Classifying
        requires short { block < 2 ^ 32 }
        requires capacity { IsTrue found.has_backslash → self.listed < length escape_blocks.old }
        ensures few { result.listed ≤ self.listed + 1 }
        ensures ascii { result.high ≡ 0 → (self.high ≡ 0) × (found.high ≡ 0) }
        ensures classified { (b : List ℕ) → AreClassified b (BLOCK_LEN * block) found
            → IsClassified b block self escape_blocks.old
            → IsClassified b (block + 1) result escape_blocks.new }
    {
        Classifying {
            escaped: found.next,
            high: self.high | found.high,
            listed: list_block(
                escape_blocks,
                self.listed,
                block as u32,
                found.has_backslash,
            ),
        }
    }
}

// The state of the second step after some blocks.
#[derive(Clone, Copy, Drop)]
struct Placing {
    // what the last block hands to the next
    carry: Carry,
    // not 0 if some block has a control byte inside a string
    bad: u64,
    // how many entries of the list of structural indexes are in use
    used: usize,
}

impl Placing {
    // Writes the structural indexes of block number `block`, and returns the state after it.
    #[inline(always)]
    fn place_block(
        self,
        parts: Parts,
        control: u64,
        block: usize,
        structural_indexes: &mut [u32],
    ) -> Placing
        requires short { BLOCK_LEN * (block + 1) ≤ 2 ^ 32 }
        requires capacity { self.used + BLOCK_LEN ≤ length structural_indexes.old }
        ensures few { result.used ≤ self.used + BLOCK_LEN }
        ensures placed { (b : List ℕ) → AreParts b (BLOCK_LEN * block) parts
            → IsControl b (BLOCK_LEN * block) control → IsPlaced b block self structural_indexes.old
            → IsPlaced b (block + 1) result structural_indexes.new }
    {
        let placed = find_starts(parts, control, self.carry);
        let base = (BLOCK_LEN * block) as u32;
        Placing {
            carry: placed.carry,
            bad: self.bad | placed.bad,
            used: write(structural_indexes, self.used, base, placed.starts),
        }
    }
}

// The state of a scan after some whole blocks.
#[derive(Clone, Copy, Drop)]
pub(super) struct ScanState {
    // of the first step
    classifying: Classifying,
    // of the second
    placing: Placing,
}

// The state before the first block.
const START: ScanState = ScanState {
    classifying: Classifying {
        escaped: 0,
        high: 0,
        listed: 0,
    },
    placing: Placing {
        carry: Carry {
            inside: 0,
            plain: 0,
        },
        bad: 0,
        used: 0,
    },
};

// Scans the whole blocks. Returns the state after them, and how many bytes of the input are known
// to be UTF-8 then.
#[inline(always)]
pub(super) fn scan_blocks<A: Allocator>(
    input: &[u8],
    blocks: &[[u8; 64]],
    structural_indexes: &mut Vec<u32, A>,
    escape_blocks: &mut Vec<u32, A>,
) -> Result<(ScanState, usize)>
    requires size { length input.now ≤ max_length }
    requires blocks { blocks.now ≡ first_chunks 64 (length input.now / 64) input.now }
    requires len { length blocks.now ≡ length input.now / 64 }
    ensures scanned { IfOk result (λ r. IsScanned input.now (length input.now / 64) r.0
        structural_indexes.new.items escape_blocks.new.items) }
    ensures checked { IfOk result (λ r. IsChecked input.now r.1) }
    ensures fault { IfErr result (λ e. IsBadEncoding input.now e
        ⊎ LacksListMemory input.now e structural_indexes.old.items escape_blocks.old.items) }
    ensures longer { (length structural_indexes.old.items ≤ length structural_indexes.new.items)
        × (length escape_blocks.old.items ≤ length escape_blocks.new.items) }
{
    if !blocks.is_empty() && blocks.len() < GROUP {
        return scan_short(input, blocks, structural_indexes, escape_blocks);
    }
    let mut done = START;
    let mut checked = 0;
    let mut first = 0;
    while first < blocks.len() {
        let end = first + (blocks.len() - first).min(WINDOW);
        let window = Window { first, end };
        checked = capacity_for(
            input,
            blocks,
            checked,
            window,
            done,
            structural_indexes,
            escape_blocks,
        )?;
        done.classifying.high = 0;
        done = scan_window(
            blocks,
            window,
            structural_indexes.as_mut_slice(),
            escape_blocks.as_mut_slice(),
            done,
        );
        let is_ascii = done.classifying.high == 0;
        checked = check_window(input, checked, BLOCK_LEN * first, BLOCK_LEN * end, is_ascii)?;
        first = end;
    }
    Ok((done, checked))
}

// The same for fewer blocks than a group has: one window without a loop over windows, so that LLVM
// keeps the state in registers.
#[inline(always)]
fn scan_short<A: Allocator>(
    input: &[u8],
    blocks: &[[u8; 64]],
    structural_indexes: &mut Vec<u32, A>,
    escape_blocks: &mut Vec<u32, A>,
) -> Result<(ScanState, usize)>
    requires size { length input.now ≤ max_length }
    requires blocks { blocks.now ≡ first_chunks 64 (length input.now / 64) input.now }
    requires len { length blocks.now ≡ length input.now / 64 }
    requires some { 0 < length blocks.now }
    ensures scanned { IfOk result (λ r. IsScanned input.now (length input.now / 64) r.0
        structural_indexes.new.items escape_blocks.new.items) }
    ensures checked { IfOk result (λ r. IsChecked input.now r.1) }
    ensures fault { IfErr result (λ e. IsBadEncoding input.now e
        ⊎ LacksListMemory input.now e structural_indexes.old.items escape_blocks.old.items) }
    ensures longer { (length structural_indexes.old.items ≤ length structural_indexes.new.items)
        × (length escape_blocks.old.items ≤ length escape_blocks.new.items) }
{
    let end = blocks.len();
    let window = Window { first: 0, end };
    let checked = capacity_for(
        input,
        blocks,
        0,
        window,
        START,
        structural_indexes,
        escape_blocks,
    )?;
    let done = scan_few(
        blocks,
        window,
        structural_indexes.as_mut_slice(),
        escape_blocks.as_mut_slice(),
        START,
    );
    let is_ascii = done.classifying.high == 0;
    let checked = check_window(input, checked, 0, BLOCK_LEN * end, is_ascii)?;
    Ok((done, checked))
}

// Classifies the block of the bytes after the whole blocks, `rest`, followed by spaces. If the
// input has at least 64 bytes, its last 64 are read in place: vectors that read a copy would wait
// until its pieces are stored.
#[inline(always)]
fn classify_rest(input: &[u8], rest: &[u8], before: u64) -> Classified
    requires rest { rest.now ≡ drop (length input.now / 64 * 64) input.now }
    requires before { before ≡ from_bool (is_escaped_at input.now (64 * (length input.now / 64))) }
    ensures { AreClassified input.now (64 * (length input.now / 64)) result }
{
    match input.last_chunk::<64>() {
        Some(last) => classify_last(last, rest.len(), before),
        None => {
            let mut block = [b' '; 64];
            block[..rest.len()].copy_from_slice(rest);
            classify(&block, before)
        }
    }
}

// Scans the bytes after the whole blocks, `rest`, as a block that is filled up with spaces. Returns
// whether some string of the input is left open or holds a control byte, and how many structural
// indexes and blocks with a backslash the input has.
#[inline(always)]
pub(super) fn scan_rest<A: Allocator>(
    input: &[u8],
    rest: &[u8],
    done: ScanState,
    checked: usize,
    structural_indexes: &mut Vec<u32, A>,
    escape_blocks: &mut Vec<u32, A>,
) -> Result<(bool, Found)>
    requires size { length input.now ≤ max_length }
    requires rest { rest.now ≡ drop (length input.now / 64 * 64) input.now }
    requires len { length rest.now < 64 }
    requires scanned { IsScanned input.now (length input.now / 64) done
        structural_indexes.old.items escape_blocks.old.items }
    requires checked { IsChecked input.now checked }
    ensures found { IfOk result (λ r. IsFound input.now r.0 r.1
        structural_indexes.new.items escape_blocks.new.items) }
    ensures fault { IfErr result (λ e. IsBadEncoding input.now e
        ⊎ LacksListMemory input.now e structural_indexes.old.items escape_blocks.old.items) }
    ensures longer { (length structural_indexes.old.items ≤ length structural_indexes.new.items)
        × (length escape_blocks.old.items ≤ length escape_blocks.new.items) }
{
    let block = input.len() / BLOCK_LEN;
    let classified = classify_rest(input, rest, done.classifying.escaped);
    let is_ascii = classified.high == 0;
    check_window(input, checked, BLOCK_LEN * block, input.len(), is_ascii)?;
    let parts = find_parts(
        classified.space_or_quote,
        classified.op_or_quote,
        classified.control,
        classified.escaped,
    );
    let placed = find_starts(parts, classified.control, done.placing.carry);
    let used = done.placing.used;
    let positions = used + placed.starts.count_ones() as usize;
    grow(structural_indexes, positions, positions, input.len())?;
    let base = (BLOCK_LEN * block) as u32;
    write_exactly(structural_indexes.as_mut_slice(), used, base, placed.starts);
    let mut listed = done.classifying.listed;
    if classified.has_backslash {
        let max_blocks = input.len().div_ceil(BLOCK_LEN);
        grow(escape_blocks, listed + 1, 16, max_blocks)?;
        escape_blocks[listed] = block as u32;
        listed += 1;
    }
    let is_open = placed.carry.inside != 0;
    let has_control = (done.placing.bad | placed.bad) != 0;
    let found = Found {
        positions,
        escape_blocks: listed,
    };
    Ok((is_open | has_control, found))
}
