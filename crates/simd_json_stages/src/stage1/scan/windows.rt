//! Windows of up to 128 blocks, which are 8 KiB: memory for all that a window may hold, and its
//! scan.
//!
//! Within a window no store needs a test of capacity, and nothing is tested for UTF-8; both are
//! done between windows, while the bytes are still in the cache. Groups of eight blocks come first,
//! and what is left of a window is scanned block by block.
ghost use Rattle.std.specs.Prelude.{◌≡◌, ◌+◌, ◌-◌, ◌*◌, ◌<◌, ◌≤◌, ◌⊎◌};
ghost use Rattle.std.specs.Prelude.{length, take, IfOk, IfErr, IsFalse};
ghost use Rattle.simd_json_parts.specs.Limits.{max_length};
ghost use Rattle.simd_json_stages.specs.Blocks.{CanList, HaveNoBackslash};
ghost use Rattle.simd_json_stages.specs.BlockScans.{CanScan, Scans};
ghost use Rattle.simd_json_stages.specs.Carries.{IsChecked};
ghost use Rattle.simd_json_stages.specs.Scans.{IsBadEncoding, LacksListMemory};

use super::ScanState;
use super::groups::{GROUP, scan_groups};
use crate::stage1::BLOCK_LEN;
use crate::stage1::classes::backslashes;
use crate::stage1::encoding::check_rest;
use crate::stage1::lists::grow;
use crate::stage1::words::{classify, find_parts};
use simd_json_parts::error::Result;
use std::alloc::Allocator;

// The number of blocks between two checks of encoding and capacity: 8 KiB.
pub(super) const WINDOW: usize = 128;

// Some blocks in a row.
#[derive(Clone, Copy, Drop)]
pub(super) struct Window {
    // the number of its first block
    pub(super) first: usize,
    // the number of the block after its last one
    pub(super) end: usize,
}

// Scans the blocks of a window one at a time.
#[inline(always)]
pub(super) fn scan_few(
    blocks: &[[u8; 64]],
    window: Window,
    structural_indexes: &mut [u32],
    escape_blocks: &mut [u32],
    before: ScanState,
) -> ScanState
    requires { CanScan blocks.now window.first window.end before
        structural_indexes.old escape_blocks.old }
    ensures { Scans blocks.now window.first window.end before result
        structural_indexes.old escape_blocks.old structural_indexes.new escape_blocks.new }
{
    let mut classifying = before.classifying;
    let mut placing = before.placing;
    let mut i = window.first;
    while i < window.end {
        let found = classify(&blocks[i], classifying.escaped);
        classifying = classifying.with_block(found, i, escape_blocks);
        let parts = find_parts(
            found.space_or_quote,
            found.op_or_quote,
            found.control,
            found.escaped,
        );
        placing = placing.place_block(parts, found.control, i, structural_indexes);
        i += 1;
    }
    ScanState {
        classifying,
        placing,
    }
}

// Scans the blocks of a window, whole groups first.
#[inline(always)]
pub(super) fn scan_window(
    blocks: &[[u8; 64]],
    window: Window,
    structural_indexes: &mut [u32],
    escape_blocks: &mut [u32],
    before: ScanState,
) -> ScanState
    requires { CanScan blocks.now window.first window.end before
        structural_indexes.old escape_blocks.old }
    ensures { Scans blocks.now window.first window.end before result
        structural_indexes.old escape_blocks.old structural_indexes.new escape_blocks.new }
{
    let mut done = before;
    let middle = window.end - (window.end - window.first) % GROUP;
    let groups = Window {
        end: middle,
        ..window
    };
    let rest = Window {
        first: middle,
        ..window
    };
    if window.first < middle {
        done = scan_groups(blocks, groups, structural_indexes, escape_blocks, done);
    }
    scan_few(blocks, rest, structural_indexes, escape_blocks, done)
}

// Whether a block of the window holds a backslash.
#[inline(never)]
fn have_backslash(blocks: &[[u8; 64]], window: Window) -> bool
    requires within { (window.first ≤ window.end) × (window.end ≤ length blocks.now) }
    ensures none { IsFalse result → HaveNoBackslash blocks.now window.first window.end }
{
    let mut i = window.first;
    while i < window.end {
        if backslashes(&blocks[i]) != 0 {
            return true;
        }
        i += 1;
    }
    false
}

// Makes room in the lists for all that a window may hold. Before a list grows, the whole input is
// checked to be UTF-8. Returns how many bytes are known to be.
//
// The list of structural indexes grows to a guess from how many there were so far. If the lists are
// new, and the input is one window without a backslash, the list of blocks stays empty, which saves
// an allocation.
#[inline(always)]
pub(super) fn capacity_for<A: Allocator>(
    input: &[u8],
    blocks: &[[u8; 64]],
    checked: usize,
    window: Window,
    done: ScanState,
    structural_indexes: &mut Vec<u32, A>,
    escape_blocks: &mut Vec<u32, A>,
) -> Result<usize>
    requires size { length input.now ≤ max_length }
    requires within { (window.first < window.end) × (window.end ≤ length blocks.now) }
    requires blocks { BLOCK_LEN * length blocks.now ≤ length input.now }
    requires checked { IsChecked input.now checked }
    requires used { (done.placing.used ≤ BLOCK_LEN * window.first)
        × (done.classifying.listed ≤ window.first) }
    ensures checked { IfOk result (IsChecked input.now) }
    ensures capacity { IfOk result (λ to. done.placing.used
        + BLOCK_LEN * (window.end - window.first) ≤ length structural_indexes.new.items) }
    ensures block_capacity { IfOk result (λ to. CanList blocks.now window.first window.end
        done.classifying.listed (length escape_blocks.new.items)) }
    ensures kept { (take (length structural_indexes.old.items) structural_indexes.new.items
        ≡ structural_indexes.old.items)
        × (take (length escape_blocks.old.items) escape_blocks.new.items
        ≡ escape_blocks.old.items) }
    ensures longer { (length structural_indexes.old.items ≤ length structural_indexes.new.items)
        × (length escape_blocks.old.items ≤ length escape_blocks.new.items) }
    ensures fault { IfErr result (λ e. IsBadEncoding input.now e
        ⊎ LacksListMemory input.now e structural_indexes.old.items escape_blocks.old.items) }
{
    let count = window.end - window.first;
    let positions = done.placing.used + BLOCK_LEN * count;
    let listed = done.classifying.listed + count;
    let lacks_positions = structural_indexes.len() < positions;
    if !lacks_positions && listed <= escape_blocks.len() {
        return Ok(checked);
    }
    let checked = check_rest(input, checked)?;
    let max_blocks = input.len().div_ceil(BLOCK_LEN);
    let guess = (done.placing.used / window.first.max(1) + 1)
        .saturating_mul(max_blocks)
        .saturating_add(BLOCK_LEN * WINDOW);
    grow(structural_indexes, positions, guess, input.len())?;
    let is_last = window.end == blocks.len();
    if !lacks_positions || !is_last || have_backslash(blocks, window) {
        grow(escape_blocks, listed, 2 * WINDOW, max_blocks)?;
    }
    Ok(checked)
}
