//! Whether structural indexes are those of a value that does not exceed a depth limit. Nothing is
//! kept of it, and one error is as good as another.
ghost use Rattle.std.specs.Prelude.{◌≡◌, ◌<◌, ◌≤◌, ℕ, List, length, drop, slice_index};
ghost use Rattle.std.specs.Prelude.{IfSome, IsTrue, Some};
ghost use Rattle.simd_json_check.specs.Scalars.{scalar_of};
ghost use Rattle.simd_json_check.specs.Scanned.{IsWholeScan};
ghost use Rattle.simd_json_check.specs.Whole.{AreStringsRead, IsElements, IsMembers, IsValue};
ghost use Rattle.simd_json_parts.specs.Bytes.{byte_at};
ghost use Rattle.simd_json_parts.specs.Document.{Document};
ghost use Rattle.simd_json_parts.specs.Tokens.{form_at};

use simd_json_scalars::front::{begins_number, numeral, spells};
use simd_json_scalars::numberparse::{Numeral, parse_long};

// The first byte of the token with this structural index.
#[inline(always)]
#[tactic(auto, using(crate::proofs::Scans::within))]
fn first_byte(input: &[u8], indexes: &[u32], at: usize) -> u8
    requires scanned { IsWholeScan input.now indexes.now }
    requires at { at < length indexes.now }
    ensures { result ≡ byte_at input.now (slice_index indexes.now at) }
{
    input[indexes[at] as usize]
}

// The input from that token on.
#[inline(always)]
#[tactic(auto, using(crate::proofs::Scans::within))]
fn from_token<'i>(input: &'i [u8], indexes: &[u32], at: usize) -> &'i [u8]
    requires scanned { IsWholeScan input.now indexes.now }
    requires at { at < length indexes.now }
    ensures bytes { result.now ≡ drop (slice_index indexes.now at) input.now }
    ensures some { 0 < length result.now }
{
    let at = indexes[at] as usize;
    &input[at..]
}

// Returns the number of the structural index after the value here, in which at most `levels`
// containers are open at a time; `None` if there is none.
#[inline(always)]
#[cycle(nested)]
pub(crate) fn value_end(input: &[u8], indexes: &[u32], at: usize, levels: usize) -> Option<usize>
    requires scanned { IsWholeScan input.now indexes.now }
    requires at { at < length indexes.now }
    requires strings { AreStringsRead input.now indexes.now }
    ensures value { IfSome result (IsValue input.now indexes.now levels at) }
    ensures bounds { IfSome result (λ end. (at < end) × (end ≤ length indexes.now)) }
{
    let byte = first_byte(input, indexes, at);
    if byte == b'"' {
        return Some(at + 1);
    }
    if byte == b'{' {
        if levels == 0 {
            return None;
        }
        return object_end(input, indexes, at + 1, levels - 1);
    }
    if byte == b'[' {
        if levels == 0 {
            return None;
        }
        return array_end(input, indexes, at + 1, levels - 1);
    }
    if is_scalar(from_token(input, indexes, at)) {
        Some(at + 1)
    } else {
        None
    }
}

// Returns the number after the elements from here on and the bracket that closes them.
#[inline(never)]
#[cycle(nested)]
fn array_end(input: &[u8], indexes: &[u32], start: usize, levels: usize) -> Option<usize>
    requires scanned { IsWholeScan input.now indexes.now }
    requires start { start ≤ length indexes.now }
    requires strings { AreStringsRead input.now indexes.now }
    ensures elements { IfSome result (IsElements input.now indexes.now levels start) }
    ensures bounds { IfSome result (λ end. (start < end) × (end ≤ length indexes.now)) }
{
    let len = indexes.len();
    if start == len {
        return None;
    }
    if first_byte(input, indexes, start) == b']' {
        return Some(start + 1);
    }
    let mut at = start;
    while at < len {
        let after = value_end(input, indexes, at, levels)?;
        if after == len {
            return None;
        }
        let byte = first_byte(input, indexes, after);
        at = after + 1;
        if byte == b']' {
            return Some(at);
        }
        if byte != b',' {
            return None;
        }
    }
    None
}

// Returns the number after the members from here on and the brace that closes them.
#[inline(never)]
#[cycle(nested)]
fn object_end(input: &[u8], indexes: &[u32], start: usize, levels: usize) -> Option<usize>
    requires scanned { IsWholeScan input.now indexes.now }
    requires start { start ≤ length indexes.now }
    requires strings { AreStringsRead input.now indexes.now }
    ensures members { IfSome result (IsMembers input.now indexes.now levels start) }
    ensures bounds { IfSome result (λ end. (start < end) × (end ≤ length indexes.now)) }
{
    let len = indexes.len();
    if start == len {
        return None;
    }
    if first_byte(input, indexes, start) == b'}' {
        return Some(start + 1);
    }
    let mut at = start;
    while len - at > 3 {
        if first_byte(input, indexes, at) != b'"' || first_byte(input, indexes, at + 1) != b':' {
            return None;
        }
        let after = value_end(input, indexes, at + 2, levels)?;
        if after == len {
            return None;
        }
        let byte = first_byte(input, indexes, after);
        at = after + 1;
        if byte == b'}' {
            return Some(at);
        }
        if byte != b',' {
            return None;
        }
    }
    None
}

// Whether a number, `true`, `false` or `null` is at the front.
#[inline(always)]
fn is_scalar(bytes: &[u8]) -> bool
    requires { 0 < length bytes.now }
    ensures { IsTrue result → (b : List ℕ) (i : ℕ) → drop i b ≡ bytes.now
        → (d : Document) × (scalar_of (form_at b i) ≡ Some d) }
{
    let first = bytes[0];
    if begins_number(first) {
        return match numeral(bytes) {
            Numeral::Integer(_) => true,
            Numeral::Decimal(_) => true,
            Numeral::Long(len) => parse_long(bytes, len).is_ok(),
            Numeral::Invalid(_) => false,
        };
    }
    if first == b'n' {
        return spells(bytes, b"null");
    }
    spells(bytes, b"true") || spells(bytes, b"false")
}
