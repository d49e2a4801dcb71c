//! The backslashes of an input, by a walk along the blocks that hold one, beside the walk through
//! its tokens.
//!
//! A string has no escape if it ends before the next backslash. It is not read at all: its closing
//! quote is the last quote before the next structural index, since only whitespace lies between.
ghost use Rattle.std.specs.Prelude.{◌≡◌, ◌≤◌, ◌<◌, ◌+◌, ◌*◌, ◌^◌};
ghost use Rattle.std.specs.Prelude.{ℕ, List, length, slice_index, drop, IfSome};
ghost use Rattle.simd_json_parts.specs.StringAt.{closing_quote};
ghost use Rattle.simd_json_stages.specs.EscapesAhead.{AreAhead, ArePassed, PlainFrom};
ghost use Rattle.simd_json_stages.specs.Inputs.{HasQuoted, IsStringBefore};

use crate::stage1::BLOCK_LEN;
use memchr::memchr;
use std::simd::prelude::*;

// A walk along the backslashes, beside the walk through the input.
#[derive(Clone, Copy, Drop)]
pub(crate) struct Escapes<'a> {
    // the numbers of the blocks of 64 bytes that hold a backslash, ascending
    pub(crate) blocks: &'a [u32],
    // the place in `blocks` of the first one that was not passed
    pub(crate) next: usize,
    // an index: from where the walk is up to it there is no backslash
    pub(crate) mark: usize,
}

impl<'a> Escapes<'a> {
    // The walk before its first step. `blocks` are the numbers of the blocks with a backslash.
    #[inline(always)]
    pub(super) fn new(blocks: &'a [u32]) -> Escapes<'a>
        ensures { result ≡ record { blocks = blocks.entry; next = 0; mark = 0 } }
    {
        Escapes {
            blocks,
            next: 0,
            mark: 0,
        }
    }

    // The walk, come to the first backslash from index `at` on. `rest` is the input from there on.
    // Returns `None`, without a search, if fewer than 32 bytes are left, so the last strings may be
    // decoded although they have no escape. The same if one of the next 32 bytes is a backslash: if
    // escapes are dense, decoding finds the next one at less cost than the walk.
    //
    // The callers compare the mark and store only a walk that went on: with a walk and a flag that
    // are always returned and stored, some texts cost 3 % more instructions.
    #[inline(always)]
    pub(super) fn ahead(self, rest: &[u8], at: usize) -> Option<Escapes<'a>>
        requires { at + length rest.now < 2 ^ 64 }
        ensures { IfSome result (λ walk. (b : List ℕ) → drop at b ≡ rest.now
            → AreAhead b self.entry at → AreAhead b walk at) }
    {
        if rest.len() < 32 {
            return None;
        }
        let backslashes = u8x32::from_slice(rest).simd_eq(u8x32::splat(b'\\'));
        if backslashes.to_bitmask() != 0 {
            return None;
        }
        let Escapes { blocks, next, .. } = self;
        let (next, mark) = next_backslash(blocks, next, at, rest);
        Some(Escapes { blocks, next, mark })
    }
}

// The place in `blocks` of the first one, from `next` on, that does not lie before index `at`, and
// the index of the first backslash from `at` on, or the greatest number if none is left. `rest` is
// the input from index `at` on. Not inlined. It takes slices and numbers, not the `Escapes`: what
// is passed by reference to such a call is kept in memory.
#[inline(never)]
fn next_backslash(blocks: &[u32], next: usize, at: usize, rest: &[u8]) -> (usize, usize)
    requires { at + length rest.now < 2 ^ 64 }
    ensures { (b : List ℕ) → drop at b ≡ rest.now → ArePassed b blocks.now next at
        → ArePassed b blocks.now result.0 at × PlainFrom b at result.1 }
{
    let next = passed(blocks, next, at);
    let from = start(blocks, next).max(at).min(at + rest.len());
    match memchr(b'\\', &rest[from - at..]) {
        Some(plain) => (next, from + plain),
        None => (next, usize::MAX),
    }
}

// The place in `blocks` of the first one, from `next` on, that does not lie before index `at`.
fn passed(blocks: &[u32], next: usize, at: usize) -> usize
    ensures { (b : List ℕ) → ArePassed b blocks.now next at → ArePassed b blocks.now result at }
{
    let mut next = next;
    while next < blocks.len() && blocks[next] as usize * BLOCK_LEN + BLOCK_LEN <= at {
        next += 1;
    }
    next
}

// The index at which the block at place `next` of the list begins, or the greatest number if the
// list has no such place.
#[inline(always)]
fn start(blocks: &[u32], next: usize) -> usize
    ensures { next < length blocks.now → result ≡ 64 * slice_index blocks.now next }
{
    match blocks.get(next) {
        Some(block) => *block as usize * BLOCK_LEN,
        None => usize::MAX,
    }
}

// The index of the last quote before index `end`, which closes the string whose opening quote has
// index `at`. Usually it is right before `end`. That is tested before the loop, which is slower.
// `rest` is the input from index `base` on: a slice from `at` on takes registers that the loops
// over numbers need.
#[inline(always)]
pub(super) fn last_quote(rest: &[u8], base: usize, at: usize, end: usize) -> usize
    requires { HasQuoted (λ b i. (drop base b ≡ rest.now) × (base ≤ i)) at end }
    ensures { (b : List ℕ) → drop base b ≡ rest.now → IsStringBefore b at end
        → result ≡ closing_quote b at }
{
    let mut last = end - 1;
    if rest[last - base] == b'"' {
        return last;
    }
    'back: while rest[last - base] != b'"' {
        last -= 1;
    }
    last
}
