//! Compares strings of the input with a key, or with a reference token of a JSON Pointer, as they
//! are written: nothing is decoded into memory.
ghost use Rattle.std.specs.Prelude.{◌≡◌, ◌<◌, ◌≤◌, ◌+◌, ◌++◌, ℕ, List, length, get_or, IsTrue};
ghost use Rattle.std.specs.Prelude.{MatchOption, Some, is_some, map, option_map, true};
ghost use Rattle.std.specs.Simd.Lanes.{mask_l};
ghost use Rattle.simd_json_ondemand.specs.Keys.{is_key};
ghost use Rattle.simd_json_ondemand.specs.WantedKey.{AgreesTo, IsWanted, key_of, read_string};
ghost use Rattle.simd_json_parts.specs.Bytes.{byte_at, quote};
ghost use Rattle.simd_json_parts.specs.StringAt.{closing_quote, escape_at, string_at};
ghost use Rattle.simd_json_scalars.specs.StringContent.{is_plain, is_stop};

use crate::strings::plain_end;
use simd_json_parts::charutils::codepoint_to_utf8;
use simd_json_parts::pointer::strip_decoded;
use simd_json_scalars::stringparse::escape;
use std::simd::prelude::*;

/// A key, and its first eight bytes as they are compared, with quotes after its end.
#[derive(Clone, Copy)]
pub(crate) struct WantedKey<'k> {
    pub(crate) key: &'k [u8],
    pub(crate) first: [u8; 8],
    // Whether its first eight bytes have neither a quote nor a backslash. A key that has one is
    // written with an escape.
    pub(crate) is_plain: bool,
    ghost made: { IsWanted key.now first is_plain },
}

impl<'k> WantedKey<'k> {
    ghost use Rattle.simd_json_ondemand.specs.Keys.{is_key};
    ghost use Rattle.simd_json_ondemand.specs.WantedKey.{read_string};

    #[inline(always)]
    pub(crate) fn new(key: &'k str) -> WantedKey<'k>
        ensures { result.key.now ≡ key.now }
    {
        WantedKey::of(key.as_bytes())
    }

    #[inline(always)]
    pub(crate) fn of(key: &'k [u8]) -> WantedKey<'k>
        ensures { result.key.now ≡ key.now }
    {
        let first = first_eight(key);
        WantedKey {
            key,
            first,
            is_plain: is_plain_up_to(first, key.len()),
        }
    }

    // Whether the string whose opening quote is the first byte is the key. The first byte that
    // differs decides, but for a backslash.
    #[inline(always)]
    pub(crate) fn is_at(self, bytes: &[u8]) -> bool
        requires opening { byte_at bytes.now 0 ≡ quote }
        requires closing { closing_quote bytes.now 0 < length bytes.now }
        ensures { result ≡ is_key self.entry.key.now (read_string (string_at bytes.now 0)) }
    {
        if !self.is_plain || bytes.len() < 9 {
            return is_written::<false>(bytes, self.key);
        }
        let same = common(u8x8::from_slice(&bytes[1..]), self.first);
        if same < 8 && same <= self.key.len() {
            return bytes[1 + same] == b'\\' && is_written::<false>(bytes, self.key);
        }
        self.key.len() < 8 || is_written::<false>(bytes, self.key)
    }
}

// Whether the bytes before an index have neither a quote nor a backslash.
#[inline(always)]
fn is_plain_up_to(bytes: [u8; 8], end: usize) -> bool
    requires { length bytes ≡ 8 }
    ensures { IsTrue result → (k : ℕ) → k < 8 → k < end → is_plain (get_or bytes k 0) ≡ true }
{
    let stops = stops(u8x8::from_array(bytes));
    stops == 0 || end <= stops.trailing_zeros() as usize
}

// A bit for each byte, set if it is a quote or a backslash.
#[inline(always)]
fn stops(bytes: u8x8) -> u64
    ensures { result ≡ mask_l (map is_stop bytes) }
{
    (bytes.simd_eq(u8x8::splat(b'"')) | bytes.simd_eq(u8x8::splat(b'\\'))).to_bitmask()
}

// The number of the first byte that differs, or 8.
#[inline(always)]
fn common(bytes: u8x8, others: [u8; 8]) -> usize
    requires { length others ≡ 8 }
    ensures { AgreesTo bytes others result }
{
    let differ = bytes.simd_ne(u8x8::from_array(others)).to_bitmask();
    if differ == 0 {
        return 8;
    }
    differ.trailing_zeros() as usize
}

// The first eight bytes, and quotes after the end.
#[inline(always)]
fn first_eight(key: &[u8]) -> [u8; 8]
    ensures lanes { (k : ℕ) → k < 8 → get_or result k 0 ≡ get_or key.now k quote }
    ensures size { length result ≡ 8 }
{
    [
        byte_or_quote(key, 0),
        byte_or_quote(key, 1),
        byte_or_quote(key, 2),
        byte_or_quote(key, 3),
        byte_or_quote(key, 4),
        byte_or_quote(key, 5),
        byte_or_quote(key, 6),
        byte_or_quote(key, 7),
    ]
}

#[inline(always)]
fn byte_or_quote(key: &[u8], k: usize) -> u8
    ensures { result ≡ get_or key.now k quote }
{
    if k < key.len() { key[k] } else { b'"' }
}

// Whether the string whose opening quote is the first byte is the key, or the key that a reference
// token is: runs of plain bytes, and the characters of escapes, are taken off it.
#[inline(never)]
pub(crate) fn is_written<const TOKEN: bool>(bytes: &[u8], key: &[u8]) -> bool
    requires opening { byte_at bytes.now 0 ≡ quote }
    requires closing { closing_quote bytes.now 0 < length bytes.now }
    requires formed { is_some (key_of TOKEN key.now) ≡ true }
    ensures { (k : List ℕ) → key_of TOKEN key.now ≡ Some k
        → result ≡ is_key k (read_string (string_at bytes.now 0)) }
{
    let mut from = 1;
    let mut left = key;
    loop {
        let end = plain_end(bytes, from);
        let Some(rest) = strip::<TOKEN>(left, &bytes[from..end]) else {
            return false;
        };
        if bytes[end] == b'"' {
            return rest.is_empty();
        }
        let Some((rest, more)) = after_escape::<TOKEN>(&bytes[end..], rest) else {
            return false;
        };
        left = rest;
        from = end + 1 + more;
    }
}

// What is left of the key after the character of the escape at the front, and how many bytes of the
// escape follow the backslash.
#[cold]
#[inline(never)]
fn after_escape<'k, const TOKEN: bool>(bytes: &[u8], key: &'k [u8]) -> Option<(&'k [u8], usize)>
    requires { 2 ≤ length bytes.now }
    ensures { MatchOption result
        ((p : List ℕ × ℕ) (k : List ℕ) → escape_at bytes.now ≡ Some p
        → key_of TOKEN key.now ≡ Some (p.0 ++ k) → ⊥)
        (λ r. (s : List ℕ) × (escape_at bytes.now ≡ Some (s, r.1))
        × (key_of TOKEN key.now ≡ option_map (λ k. s ++ k) (key_of TOKEN r.0.now))) }
{
    let (character, more) = escape(bytes)?;
    let mut utf8 = [0; 4];
    let len = codepoint_to_utf8(character, &mut utf8);
    let rest = strip::<TOKEN>(key, &utf8[..len])?;
    Some((rest, more))
}

// What is left of the key after its front, if it begins with that.
#[inline(always)]
fn strip<'k, const TOKEN: bool>(key: &'k [u8], front: &[u8]) -> Option<&'k [u8]>
    ensures { MatchOption result
        ((k : List ℕ) → key_of TOKEN key.now ≡ Some (front.now ++ k) → ⊥)
        (λ rest. key_of TOKEN key.now
        ≡ option_map (λ k. front.now ++ k) (key_of TOKEN rest.now)) }
{
    if TOKEN {
        strip_decoded(key, front)
    } else {
        key.strip_prefix(front)
    }
}
