//! Skips values by counting brackets, eight structural indexes at a time. Only the first bytes of
//! tokens are read, and nothing is asked of them but which are brackets.
ghost use Rattle.std.specs.Prelude.{◌≡◌, ◌+◌, ◌^◌, ◌<◌, ◌≤◌, List, ℕ, length, take, drop, map};
ghost use Rattle.std.specs.Prelude.{MatchOption};
ghost use Rattle.std.specs.Simd.Lanes.{mask_l};
ghost use Rattle.simd_json_ondemand.specs.Closing.{AreWithin, closed_at, first_bytes};
ghost use Rattle.simd_json_parts.specs.Bytes.{is_closing, is_opening};
ghost use Rattle.simd_json_ondemand.specs.Closing.{open_through, span};

use std::simd::prelude::*;

// How many structural indexes a group has.
const GROUP: usize = 8;

// The first bytes of the group of tokens from here on.
#[inline(always)]
fn group(input: &[u8], indexes: &[u32], at: usize) -> u8x8
    requires within { AreWithin input.now indexes.now }
    requires at { at + 8 ≤ length indexes.now }
    ensures { result ≡ first_bytes input.now (take 8 (drop at indexes.now)) }
{
    u8x8::from_array([
        input[indexes[at] as usize],
        input[indexes[at + 1] as usize],
        input[indexes[at + 2] as usize],
        input[indexes[at + 3] as usize],
        input[indexes[at + 4] as usize],
        input[indexes[at + 5] as usize],
        input[indexes[at + 6] as usize],
        input[indexes[at + 7] as usize],
    ])
}

// A bit for each opening bracket among eight bytes. `[` and `{` are one byte with `| 0x20`.
#[inline(always)]
fn opening(bytes: u8x8) -> u64
    ensures { result ≡ mask_l (map is_opening bytes) }
{
    (bytes | u8x8::splat(0x20))
        .simd_eq(u8x8::splat(b'{'))
        .to_bitmask()
}

// A bit for each closing bracket.
#[inline(always)]
fn closing(bytes: u8x8) -> u64
    ensures { result ≡ mask_l (map is_closing bytes) }
{
    (bytes | u8x8::splat(0x20))
        .simd_eq(u8x8::splat(b'}'))
        .to_bitmask()
}

// The number of the first structural index after the container that is open here is closed, or how
// many there are.
#[inline(never)]
pub(crate) fn close(input: &[u8], indexes: &[u32], at: usize) -> usize
    requires within { AreWithin input.now indexes.now }
    requires at { at ≤ length indexes.now }
    ensures closed { result ≡ at + closed_at 1 (first_bytes input.now (drop at indexes.now)) }
    ensures forward { (at ≤ result) × (result ≤ length indexes.now) }
{
    let mut depth = 1usize;
    let mut end = at;
    while indexes.len() - end >= GROUP {
        let bytes = group(input, indexes, end);
        let opens = opening(bytes);
        let closes = closing(bytes);
        let count = closes.count_ones() as usize;
        if count >= depth {
            if let Some(last) = closing_bit(opens, closes, depth) {
                return end + last + 1;
            }
        }
        depth = depth + opens.count_ones() as usize - count;
        end += GROUP;
    }
    close_slowly(input, indexes, end, depth)
}

// Does this for a cursor that is mostly at the bracket already.
#[inline(always)]
pub(crate) fn close_here(input: &[u8], indexes: &[u32], at: usize) -> usize
    requires within { AreWithin input.now indexes.now }
    requires at { at ≤ length indexes.now }
    ensures closed { result ≡ at + closed_at 1 (first_bytes input.now (drop at indexes.now)) }
    ensures forward { (at ≤ result) × (result ≤ length indexes.now) }
{
    if at < indexes.len() && input[indexes[at] as usize] | 0x20 == b'}' {
        return at + 1;
    }
    close(input, indexes, at)
}

// The number of the bit of the bracket that closes the outermost of `levels` open containers, if
// there is one.
#[inline(always)]
fn closing_bit(opens: u64, closes: u64, levels: usize) -> Option<usize>
    requires { (0 < levels) × (levels < 2 ^ 63) }
    ensures { (cs : List ℕ) → length cs ≡ 8 → opens ≡ mask_l (map is_opening cs)
        → closes ≡ mask_l (map is_closing cs)
        → MatchOption result (0 < open_through levels cs)
        (λ k. (closed_at levels cs ≡ k + 1) × (open_through levels cs ≡ 0)) }
{
    let mut rest = closes;
    let mut left = levels;
    while rest != 0 {
        let lowest = rest & rest.wrapping_neg();
        let before = (opens & lowest.wrapping_sub(1)).count_ones() as usize;
        left = left.wrapping_sub(1);
        if left.wrapping_add(before) == 0 {
            return Some(rest.trailing_zeros() as usize);
        }
        rest &= rest.wrapping_sub(1);
    }
    None
}

// Like `close`, one by one, where `open` containers are open.
#[inline(never)]
fn close_slowly(input: &[u8], indexes: &[u32], at: usize, levels: usize) -> usize
    requires within { AreWithin input.now indexes.now }
    requires at { at ≤ length indexes.now }
    requires opened { (0 < levels) × (levels ≤ at + 1) }
    ensures closed { result ≡ at + closed_at levels (first_bytes input.now (drop at indexes.now)) }
    ensures forward { (at ≤ result) × (result ≤ length indexes.now) }
{
    let mut depth = levels;
    let mut end = at;
    while end < indexes.len() {
        let byte = input[indexes[end] as usize] | 0x20;
        end += 1;
        if byte == b'}' {
            depth -= 1;
            if depth == 0 {
                return end;
            }
        }
        depth += usize::from(byte == b'{');
    }
    end
}

// The number of the first structural index after the value at this one.
#[inline(always)]
pub(crate) fn skip(input: &[u8], indexes: &[u32], at: usize) -> usize
    requires within { AreWithin input.now indexes.now }
    requires at { at < length indexes.now }
    ensures passed { result ≡ at + span input.now (drop at indexes.now) }
    ensures forward { (at < result) × (result ≤ length indexes.now) }
{
    if input[indexes[at] as usize] | 0x20 == b'{' {
        return close(input, indexes, at + 1);
    }
    at + 1
}
