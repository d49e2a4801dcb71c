//! Whether each backslash of an input begins an escape (RFC 8259, section 7). Only the blocks that
//! hold one are read.
ghost use Rattle.std.specs.Prelude.{◌≡◌, ◌≤◌, length, map, IsTrue, IfSome};
ghost use Rattle.std.specs.Simd.Lanes.{mask_l};
ghost use Rattle.simd_json_check.specs.Whole.{AreAllPieces, IsBackslashOrEnd, PassesFrom};
ghost use Rattle.simd_json_check.specs.Whole.{is_backslash};
ghost use Rattle.simd_json_stages.specs.EscapeBlocks.{backslash_blocks};
ghost use Rattle.simd_json_stages.specs.EscapesAhead.{PlainFrom};

use memchr::memchr;
use simd_json_scalars::stringparse::escape;
use simd_json_stages::stage1::BLOCK_LEN;
use std::simd::prelude::*;

// Whether each escape is valid: a backslash in a string begins one, and one outside strings is no
// token. `blocks` are the blocks that hold a backslash.
pub(crate) fn are_escapes_valid(input: &[u8], blocks: &[u32]) -> bool
    requires { blocks.now ≡ backslash_blocks input.now }
    ensures { IsTrue result → AreAllPieces input.now }
{
    let mut at = 0;
    for block in blocks {
        let start = BLOCK_LEN * (*block as usize);
        match escapes_end(input, at.max(start), start + BLOCK_LEN) {
            Some(end) => at = end,
            None => return false,
        }
    }
    true
}

// Where the last of the escapes ends that begin from here on and before `to`, or `to`, whichever is
// later; none if an escape is not valid.
fn escapes_end(input: &[u8], from: usize, to: usize) -> Option<usize>
    ensures { IfSome result (λ end. (from ≤ end) × PassesFrom input.now from end
        × PlainFrom input.now end to) }
{
    let mut at = from;
    let end = to.min(input.len());
    while at < end {
        at = backslash_or_end(input, at, end);
        if at == end {
            return Some(end);
        }
        if input.len() - at < 2 {
            return None;
        }
        let (_character, more) = escape(&input[at..])?;
        at += 1 + more;
    }
    Some(at)
}

// The index of the next backslash, or the end: 32 bytes at a time.
#[inline(always)]
fn backslash_or_end(input: &[u8], from: usize, end: usize) -> usize
    requires { (from ≤ end) × (end ≤ length input.now) }
    ensures { IsBackslashOrEnd input.now from end result }
{
    let mut at = from;
    while input.len() - at >= LANES {
        let found = backslashes(u8x32::from_slice(&input[at..]));
        if found != 0 {
            return end.min(at + found.trailing_zeros() as usize);
        }
        at += LANES;
        if at >= end {
            return end;
        }
    }
    backslash_or_end_slowly(input, at, end)
}

// How many bytes are compared at a time.
const LANES: usize = 32;

// A bit for each byte, set if it is a backslash.
#[inline(always)]
fn backslashes(bytes: u8x32) -> u64
    ensures { result ≡ mask_l (map is_backslash bytes) }
{
    bytes.simd_eq(u8x32::splat(b'\\')).to_bitmask()
}

// Finds it where fewer than 32 bytes are left.
#[cold]
fn backslash_or_end_slowly(input: &[u8], from: usize, end: usize) -> usize
    requires { (from ≤ end) × (end ≤ length input.now) }
    ensures { IsBackslashOrEnd input.now from end result }
{
    match memchr(b'\\', &input[from..end]) {
        Some(run) => from + run,
        None => end,
    }
}
