//! The two lists that the first stage writes, of structural indexes and of blocks with a backslash:
//! their memory, and the stores into them.
//!
//! **Memory.** simdjson allocates for the worst case, an index for each byte, before it scans. Here
//! a list grows with what is found, by half or by what is guessed from the input so far. A list is
//! kept filled, since stores go to entries below its length: a step ahead of what is found, so that
//! entries are filled shortly before they are overwritten.
//!
//! **Stores.** From the word of a block to indexes in the list is the index extraction of G.
//! Langdale and D. Lemire, "Parsing Gigabytes of JSON per Second", VLDB Journal 28 (2019), section
//! 3.1. The lowest set bit is found by `trailing_zeros` and cleared, several times in a row whether
//! there are as many bits or not: stores beyond the last bit are overwritten by those of the next
//! block. Then the only branches are on how many bits a word has. simdjson stores eight at a time;
//! here it is four, and a word with more than 16 bits is finished one by one.
ghost use Rattle.std.specs.Prelude.{◌≡◌, ◌+◌, ◌^◌, ◌<◌, ◌≤◌, ◌++◌, [], ◌∷◌, ℕ, List, length, take};
ghost use Rattle.std.specs.Prelude.{if◌then◌else◌, IsTrue, IfErr, OnErr, OnOk, max};
ghost use Rattle.std.specs.Vec.{vec_capacity};
ghost use Rattle.std.specs.Int.{from_bool};
ghost use Rattle.std.specs.Int.RustNames.{count_ones};
ghost use Rattle.simd_json_parts.specs.Faults.{whole_fault};
ghost use Rattle.simd_json_parts.specs.declared.error.ErrorType.{ErrorType};
ghost use Rattle.simd_json_stages.specs.Words.{set_bits};
ghost use Rattle.simd_json_stages.specs.Stored.{IsStored};

use simd_json_parts::error::Result;
use std::alloc::{AllocError, Allocator};

// How many entries more than are needed a list is filled with: they are still in the cache when
// they are overwritten.
const STEP: usize = 32_768;

// The rare part of `grow`, which is not inlined: reserves memory if needed, and fills it.
#[inline(never)]
fn reserve_and_fill<A: Allocator>(
    list: &mut Vec<u32, A>,
    need: usize,
    guess: usize,
    max_len: usize,
) -> Result<()>
    requires { (length list.old.items < need) × (need ≤ max_len) }
    ensures kept { take (length list.old.items) list.new.items ≡ list.old.items }
    ensures capacity { OnOk result (need ≤ length list.new.items) }
    ensures longer { length list.old.items ≤ length list.new.items }
    ensures fault { IfErr result (λ e. e ≡ whole_fault ErrorType.OutOfMemory) }
{
    if list.capacity() < need {
        let half_more = list.capacity().saturating_add(list.capacity() / 2);
        let len = guess.max(half_more).min(max_len).max(need);
        list.reserve_exact(len - list.len())?;
    }
    let len = need.saturating_add(STEP).min(list.capacity()).min(max_len);
    list.resize(len, 0)?;
    Ok(())
}

// Makes a list at least `need` long, and longer by a step, but at most `max_len` long. If its
// capacity is less than `need`, it gets half as much again, or `guess` if that is more. It keeps
// what it held, also when allocation fails. A list that is used again is mostly long enough, so
// that test is compiled into each caller.
#[inline(always)]
pub(super) fn grow<A: Allocator>(
    list: &mut Vec<u32, A>,
    need: usize,
    guess: usize,
    max_len: usize,
) -> Result<()>
    requires { need ≤ max_len }
    ensures kept { take (length list.old.items) list.new.items ≡ list.old.items }
    ensures capacity { OnOk result (need ≤ length list.new.items) }
    ensures longer { length list.old.items ≤ length list.new.items }
    ensures fault { IfErr result (λ e. (e ≡ whole_fault ErrorType.OutOfMemory)
        × (length list.old.items < max_len)) }
{
    if need <= list.len() {
        return Ok(());
    }
    reserve_and_fill(list, need, guess, max_len)
}

/// Makes a list at least `len` long, with this filler. What it held stays. If an allocation fails
/// the list is unchanged.
pub fn lengthen<T: Copy, A: Allocator>(
    list: &mut Vec<T, A>,
    len: usize,
    filler: T,
) -> std::result::Result<(), AllocError>
    ensures kept { take (length list.old.items) list.new.items ≡ list.old.items }
    ensures longer { OnOk result (length list.new.items ≡ max (length list.old.items) len) }
    ensures failed { OnErr result ((list.new.items ≡ list.old.items)
        × (length list.old.items < len) × (vec_capacity list.old < len)) }
    ensures capacity { vec_capacity list.old ≤ vec_capacity list.new }
{
    if list.len() < len {
        list.resize(len, filler)?;
    }
    Ok(())
}

// Stores the index of the lowest bit as entry `at`, and returns the other bits. `base` is the index
// of the block's first byte. If no bit is set, the stored value is unspecified.
#[inline(always)]
fn store_lowest(structural_indexes: &mut [u32], at: usize, base: u32, bits: u64) -> u64
    requires capacity { at < length structural_indexes.old }
    requires base { base + 64 ≤ 2 ^ 32 }
    ensures { (before : List ℕ) (used : ℕ) (all : List ℕ) (k : ℕ) → at ≡ used + k
        → IsStored before used all k base structural_indexes.old bits
        → IsStored before used all (k + 1) base structural_indexes.new result }
{
    structural_indexes[at] = base.wrapping_add(bits.trailing_zeros());
    bits & bits.wrapping_sub(1)
}

// `store_lowest` four times, without a branch.
#[inline(always)]
fn store_four(structural_indexes: &mut [u32], at: usize, base: u32, bits: u64) -> u64
    requires capacity { at + 4 ≤ length structural_indexes.old }
    requires base { base + 64 ≤ 2 ^ 32 }
    ensures { (before : List ℕ) (used : ℕ) (all : List ℕ) (k : ℕ) → at ≡ used + k
        → IsStored before used all k base structural_indexes.old bits
        → IsStored before used all (k + 4) base structural_indexes.new result }
{
    let bits = store_lowest(structural_indexes, at, base, bits);
    let bits = store_lowest(structural_indexes, at + 1, base, bits);
    let bits = store_lowest(structural_indexes, at + 2, base, bits);
    store_lowest(structural_indexes, at + 3, base, bits)
}

// Appends the indexes of a word's bits to the `used` entries in use, and returns how many are in
// use then. Up to four entries after these may be overwritten.
#[inline(always)]
pub(super) fn write(structural_indexes: &mut [u32], used: usize, base: u32, bits: u64) -> usize
    requires capacity { used + 64 ≤ length structural_indexes.old }
    requires base { base + 64 ≤ 2 ^ 32 }
    ensures written { take result structural_indexes.new
        ≡ take used structural_indexes.old ++ set_bits 64 base bits }
    ensures count { result ≤ used + 64 }
{
    let count = bits.count_ones() as usize;
    let rest = store_four(structural_indexes, used, base, bits);
    if count <= 4 {
        return used + count;
    }
    let rest = store_four(structural_indexes, used + 4, base, rest);
    if count <= 8 {
        return used + count;
    }
    let rest = store_four(structural_indexes, used + 8, base, rest);
    if count <= 12 {
        return used + count;
    }
    let rest = store_four(structural_indexes, used + 12, base, rest);
    if count <= 16 {
        return used + count;
    }
    write_exactly(structural_indexes, used + 16, base, rest)
}

// Like `write`, but one by one, and no other entry is overwritten.
#[inline(always)]
pub(super) fn write_exactly(
    structural_indexes: &mut [u32],
    used: usize,
    base: u32,
    bits: u64,
) -> usize
    requires capacity { used + count_ones bits ≤ length structural_indexes.old }
    requires base { base + 64 ≤ 2 ^ 32 }
    ensures written { take result structural_indexes.new
        ≡ take used structural_indexes.old ++ set_bits 64 base bits }
    ensures count { result ≡ used + count_ones bits }
{
    let mut rest = bits;
    let mut end = used;
    while rest != 0 {
        rest = store_lowest(structural_indexes, end, base, rest);
        end += 1;
    }
    end
}

// Appends the number of a block to the `used` entries in use if the block holds a backslash.
// Returns how many are in use then.
#[inline(always)]
pub(super) fn list_block(
    escape_blocks: &mut [u32],
    used: usize,
    block: u32,
    has_backslash: bool,
) -> usize
    requires capacity { IsTrue has_backslash → used < length escape_blocks.old }
    ensures listed { take result escape_blocks.new
        ≡ (if has_backslash then take used escape_blocks.old ++ block ∷ []
        else take used escape_blocks.old) }
    ensures count { result ≡ used + from_bool has_backslash }
{
    if has_backslash {
        escape_blocks[used] = block;
        return used + 1;
    }
    used
}
