//! The classes of the 64 bytes of a block, as words with a bit for each byte: the vectorized
//! classification of G. Langdale and D. Lemire, "Parsing Gigabytes of JSON per Second", VLDB
//! Journal 28 (2019), section 3.1.
//!
//! The paper looks up both halves of a byte and joins the results. Here, as in later versions of
//! simdjson, the low half alone is looked up, in a table with the one byte of the class that has
//! it, and the result is compared with the byte. Unlike there, the quote is in both tables: bytes
//! of both classes are quotes, and two comparisons tell three classes apart. A third one finds
//! control bytes. Bit `i` of a word is that of byte `i`.
ghost use Rattle.std.specs.Prelude.{◌≡◌, ◌==◌, ◌<◌, ℕ, map, slice_index};
ghost use Rattle.std.specs.List.{list_any};
ghost use Rattle.std.specs.Simd.Lanes.{mask_l};
ghost use Rattle.simd_json_parts.specs.Bytes.{backslash, is_control};
ghost use Rattle.simd_json_stages.specs.Classes.{is_space_or_quote, is_op_or_quote};
ghost use Rattle.simd_json_stages.specs.Words.{HasBits};

use std::simd::prelude::*;

// Indexed by the low half of a byte: the whitespace or quote with that low half. Elsewhere a byte
// with another low half (100, 17, 113, 2, 112 as in simdjson), which no byte that is looked up
// there equals. A table for each of the two 16-byte lanes of a vector.
const SPACE_OR_QUOTE: [u8; 32] = [
    b' ', 100, b'"', 100, 17, 100, 113, 2, 100, b'\t', b'\n', 112, 100, b'\r', 100, 100, b' ', 100,
    b'"', 100, 17, 100, 113, 2, 100, b'\t', b'\n', 112, 100, b'\r', 100, 100,
];
// The same of a quote or structural character, compared with the byte `| 0x20`, which makes `[` and
// `{` one, and `]` and `}`. Elsewhere 0, which no byte `| 0x20` equals.
const OP_OR_QUOTE: [u8; 32] = [
    0, 0, b'"', 0, 0, 0, 0, 0, 0, 0, b':', b'{', b',', b'}', 0, 0, 0, 0, b'"', 0, 0, 0, 0, 0, 0, 0,
    b':', b'{', b',', b'}', 0, 0,
];

// What `classes` finds in the 64 bytes of a block.
#[derive(Clone, Copy, Drop)]
pub(super) struct ClassWords {
    // a bit for each byte that is whitespace or a quote
    pub(super) space_or_quote: u64,
    // a bit for each structural character and quote, and for 0x02, 0x0C and 0x1A, which `control`
    // tells apart
    pub(super) op_or_quote: u64,
    // a bit for each byte below 0x20
    pub(super) control: u64,
    // not 0 if a byte is not ASCII; which one is not said
    pub(super) high: u64,
    // whether one of the bytes is a backslash
    pub(super) has_backslash: bool,
}

// For each of 32 bytes a bit of the first word if it is whitespace or a quote, and of the second if
// it is a structural character or a quote, or 0x02, 0x0C or 0x1A.
#[inline(always)]
fn look_up(v: u8x32) -> (u64, u64)
    ensures space_or_quote { result.0 ≡ mask_l (map is_space_or_quote v) }
    ensures op_or_quote { result.1 ≡ mask_l (map is_op_or_quote v) }
{
    let low_half = v & u8x32::splat(15);
    let spaces = u8x32::from_array(SPACE_OR_QUOTE).swizzle_dyn_within::<16>(low_half);
    let ops = u8x32::from_array(OP_OR_QUOTE).swizzle_dyn_within::<16>(low_half);
    (
        v.simd_eq(spaces).to_bitmask(),
        (v | u8x32::splat(0x20)).simd_eq(ops).to_bitmask(),
    )
}

// The classes of the bytes of a block, 32 at a time.
#[inline(always)]
pub(super) fn classes(bytes: &[u8; 64]) -> ClassWords
    ensures space_or_quote { HasBits result.space_or_quote
        (λ i. is_space_or_quote (slice_index bytes.now i)) }
    ensures op_or_quote { HasBits result.op_or_quote
        (λ i. is_op_or_quote (slice_index bytes.now i)) }
    ensures control { HasBits result.control (λ i. is_control (slice_index bytes.now i)) }
    ensures ascii { result.high ≡ 0 → (i : ℕ) → i < 64 → slice_index bytes.now i < 128 }
    ensures escapes { result.has_backslash ≡ list_any (λ x. x == backslash) bytes.now }
{
    let low = u8x32::from_slice(&bytes[..32]);
    let high = u8x32::from_slice(&bytes[32..]);
    let (low_spaces, low_ops) = look_up(low);
    let (high_spaces, high_ops) = look_up(high);
    let space = u8x32::splat(0x20);
    let backslash = u8x32::splat(b'\\');
    ClassWords {
        space_or_quote: low_spaces | (high_spaces << 32),
        op_or_quote: low_ops | (high_ops << 32),
        control: low.simd_lt(space).to_bitmask() | (high.simd_lt(space).to_bitmask() << 32),
        high: (low | high).simd_ge(u8x32::splat(0x80)).to_bitmask(),
        has_backslash: (low.simd_eq(backslash) | high.simd_eq(backslash)).to_bitmask() != 0,
    }
}

// A bit for each backslash.
#[inline(always)]
pub(super) fn backslashes(bytes: &[u8; 64]) -> u64
    ensures { HasBits result (λ i. slice_index bytes.now i == backslash) }
{
    let low = u8x32::from_slice(&bytes[..32]);
    let high = u8x32::from_slice(&bytes[32..]);
    let backslash = u8x32::splat(b'\\');
    low.simd_eq(backslash).to_bitmask() | (high.simd_eq(backslash).to_bitmask() << 32)
}
