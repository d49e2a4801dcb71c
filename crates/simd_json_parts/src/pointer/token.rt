//! The reference tokens of a JSON Pointer (RFC 6901, section 3): where each ends.
ghost use Rattle.std.specs.Prelude.{◌≡◌, ◌≢◌, ◌≤◌, ◌<◌, ◌+◌, ◌↔◌};
ghost use Rattle.std.specs.Prelude.{IsTrue, MatchOption};
ghost use Rattle.std.specs.Prelude.{length, map, slice_index, true};
ghost use Rattle.std.specs.List.{prefix_len, slice_range};
ghost use Rattle.std.specs.Simd.Lanes.{chunk, mask_l};
ghost use Rattle.simd_json_parts.specs.Followed.{IsPlain, IsTokenAt, is_either, is_neither};
ghost use Rattle.simd_json_parts.specs.Pointed.{tilde};
ghost use Rattle.simd_json_parts.specs.Bytes.{slash};

use std::simd::prelude::*;

/// Where a reference token ends, and whether it is known to have no `~`.
#[derive(Clone, Copy, Debug)]
pub struct Token {
    /// The index of the byte after it: the `/` of the next token, or the end of the pointer.
    pub end: usize,
    /// Whether it has no `~`, so that it is the key itself.
    pub is_plain: bool,
}

/// The reference token whose `/` is the byte at an index of a pointer (RFC 6901, section 3).
///
/// Returns `None` where no `/` is there, or the pointer ends.
#[inline(always)]
pub fn next_token(pointer: &[u8], at: usize) -> Option<Token>
    ensures { MatchOption result (at < length pointer.now → slice_index pointer.now at ≢ slash)
        (λ t. IsTokenAt pointer.now at t.end
        × (t.is_plain ≡ true → IsPlain (slice_range pointer.now (at + 1) t.end))) }
{
    if at >= pointer.len() || pointer[at] != b'/' {
        return None;
    }
    let rest = &pointer[at + 1..];
    let front = front_len(rest, b'/', b'~');
    if is_tilde_at(rest, front) {
        return Some(Token {
            end: at + 1 + front_len(rest, b'/', b'/'),
            is_plain: false,
        });
    }
    Some(Token {
        end: at + 1 + front,
        is_plain: true,
    })
}

fn is_tilde_at(bytes: &[u8], at: usize) -> bool
    ensures { IsTrue result ↔ ((at < length bytes.now) × (slice_index bytes.now at ≡ tilde)) }
{
    at < bytes.len() && bytes[at] == b'~'
}

/// Whether there is no `~` in a reference token, so that it is the key itself.
#[inline(always)]
pub fn is_plain(token: &[u8]) -> bool
    ensures { IsTrue result ↔ IsPlain token.now }
{
    front_len(token, b'~', b'~') == token.len()
}

// How many bytes are in front of the first that is one of two.
#[inline(always)]
pub(super) fn front_len(bytes: &[u8], one: u8, other: u8) -> usize
    ensures { result ≡ prefix_len (is_neither one other) bytes.now }
{
    let len = bytes.len();
    if len >= 16 {
        front_len_by::<16>(bytes, one, other)
    } else if len >= 8 {
        front_len_by::<8>(bytes, one, other)
    } else if len >= 4 {
        front_len_by::<4>(bytes, one, other)
    } else if len >= 1 {
        front_len_by::<1>(bytes, one, other)
    } else {
        0
    }
}

// The same, N bytes at a time, and then the last N, which overlap those before.
#[inline(always)]
fn front_len_by<const N: usize>(bytes: &[u8], one: u8, other: u8) -> usize
    requires vector { (0 < N) × (N ≤ 16) }
    requires within { N ≤ length bytes.now }
    ensures { result ≡ prefix_len (is_neither one other) bytes.now }
{
    let mut done = 0;
    while bytes.len() - done > N {
        let stops = stops::<N>(bytes, done, one, other);
        if stops != 0 {
            return done + stops.trailing_zeros() as usize;
        }
        done += N;
    }
    let last = bytes.len() - N;
    let stops = stops::<N>(bytes, last, one, other);
    if stops != 0 {
        return last + stops.trailing_zeros() as usize;
    }
    bytes.len()
}

// A bit for each of N bytes from an index on, whether it is one of two.
#[inline(always)]
fn stops<const N: usize>(bytes: &[u8], from: usize, one: u8, other: u8) -> u64
    requires vector { N ≤ 32 }
    requires within { from + N ≤ length bytes.now }
    ensures { result ≡ mask_l (map (is_either one other) (chunk from N bytes.now)) }
{
    let lanes = Simd::<u8, N>::from_slice(&bytes[from..]);
    (lanes.simd_eq(Simd::<u8, N>::splat(one))
        | lanes.simd_eq(Simd::<u8, N>::splat(other))).to_bitmask()
}
