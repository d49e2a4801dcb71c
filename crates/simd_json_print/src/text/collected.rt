//! The bytes that are collected for a target, and how they are stored: any bytes, strings that are
//! tested on the way, and numbers in decimal.
ghost use Rattle.std.specs.Prelude.{◌≡◌, ◌+◌, ◌<◌, ◌≤◌, ◌++◌, [], cond, flat_map, length, map};
ghost use Rattle.std.specs.Prelude.{drop, take, IsFalse, IsTrue, List, ℕ};
ghost use Rattle.std.specs.Fmt.{decimal};
ghost use Rattle.std.specs.Simd.Lanes.{mask_l};
ghost use Rattle.simd_json_parts.specs.Printed.{escaped_byte};
ghost use Rattle.simd_json_print.specs.Unescaped.{needs_escape};

use itoa::write_digits;
use std::marker::Model;
use std::simd::prelude::*;

// How many bytes are stored without a call.
const FEW: usize = 32;

// The greatest number of digits.
const DIGITS: usize = 20;

// The greatest length of `front` and `back` on the fast path.
const MARKS: usize = 8;

// The bytes that are not written yet, at most `SIZE`.
#[derive(Drop)]
pub(super) struct Collected<const SIZE: usize> {
    bytes: [u8; SIZE],
    used: usize,
}

impl<const SIZE: usize> Model for Collected<SIZE> {
    ghost Value = { List ℕ };

    ghost view = { λ p. take p.used p.bytes };

    ghost invariant = { λ p. p.used ≤ SIZE };
}

impl<const SIZE: usize> Collected<SIZE> {
    pub(super) fn new() -> Collected<SIZE>
        ensures { result ≡ [] }
    {
        Collected {
            bytes: [0; SIZE],
            used: 0,
        }
    }

    // Appends bytes if they fit.
    #[inline(always)]
    pub(super) fn collect(&mut self, bytes: &[u8]) -> bool
        ensures collected { IsTrue result → self.new ≡ self.old ++ bytes.now }
        ensures kept { IsFalse result → self.new ≡ self.old }
    {
        if bytes.len() > SIZE - self.used {
            return false;
        }
        store_bytes(&mut self.bytes, self.used, bytes);
        self.used += bytes.len();
        true
    }

    // Whether the fast path applies: at most `FEW` bytes, short `front` and `back`, and capacity
    // for all.
    #[inline(always)]
    fn holds(&self, front: &[u8], len: usize, back: &[u8]) -> bool
        ensures few { IsTrue result → len ≤ 32 }
        ensures fits { IsTrue result
            → length self.now + (length front.now + len + length back.now) ≤ SIZE }
    {
        if len > FEW || front.len() > MARKS || back.len() > MARKS {
            return false;
        }
        front.len() + len + back.len() <= SIZE - self.used
    }

    // Appends a few bytes between `front` and `back` if they fit; those of a string only if none
    // needs an escape. They are tested as they are stored, and count only then.
    #[inline(always)]
    pub(super) fn collect_few(
        &mut self,
        front: &[u8],
        bytes: &[u8],
        back: &[u8],
        is_string: bool,
    ) -> bool
        ensures collected { IsTrue result → self.new ≡ self.old ++ (front.now
            ++ (cond is_string (flat_map escaped_byte bytes.now) bytes.now ++ back.now)) }
        ensures kept { IsFalse result → self.new ≡ self.old }
    {
        if !self.holds(front, bytes.len(), back) {
            return false;
        }
        store_bytes(&mut self.bytes, self.used, front);
        let start = self.used + front.len();
        let is_plain = store_few(&mut self.bytes, start, bytes);
        store_bytes(&mut self.bytes, start + bytes.len(), back);
        if is_string && !is_plain {
            return false;
        }
        self.used += front.len() + bytes.len() + back.len();
        true
    }

    // Appends a number in decimal after its sign, likewise.
    #[inline(always)]
    pub(super) fn collect_decimal(
        &mut self,
        front: &[u8],
        minus: &[u8],
        number: u64,
        back: &[u8],
    ) -> bool
        ensures collected { IsTrue result → self.new
            ≡ self.old ++ (front.now ++ ((minus.now ++ decimal number) ++ back.now)) }
        ensures kept { IsFalse result → self.new ≡ self.old }
    {
        if minus.len() > MARKS || !self.holds(front, MARKS + DIGITS, back) {
            return false;
        }
        store_bytes(&mut self.bytes, self.used, front);
        let start = self.used + front.len();
        store_bytes(&mut self.bytes, start, minus);
        let end = store_digits(&mut self.bytes, start + minus.len(), number);
        store_bytes(&mut self.bytes, end, back);
        self.used = end + back.len();
        true
    }

    // Appends the bytes before the first that needs an escape, as far as they fit, and returns
    // their number.
    #[inline(always)]
    pub(super) fn collect_run(&mut self, string: &[u8]) -> usize
        ensures within { result ≤ length string.now }
        ensures collected { self.new ≡ self.old ++ flat_map escaped_byte (take result string.now) }
    {
        let len = string.len().min(SIZE - self.used);
        let run = &string[..len];
        let count = if len >= 32 {
            store_vectors::<32>(&mut self.bytes, self.used, run)
        } else if len >= 8 {
            store_vectors::<8>(&mut self.bytes, self.used, run)
        } else if len >= 1 {
            store_vectors::<1>(&mut self.bytes, self.used, run)
        } else {
            0
        };
        self.used += count;
        count
    }

    #[inline(always)]
    pub(super) fn as_slice(&self) -> &[u8]
        ensures { result.now ≡ self.now }
    {
        &self.bytes[..self.used]
    }

    pub(super) fn clear(&mut self)
        ensures { self.new ≡ [] }
    {
        self.used = 0;
    }

    // Makes the buffer full, so that nothing fits any more.
    pub(super) fn close(&mut self) {
        self.used = SIZE;
    }
}

/// Copies bytes into a slice from index `at` on: at most 32 by vectors, without a call.
#[inline(always)]
pub fn store_bytes(all: &mut [u8], at: usize, bytes: &[u8])
    requires { at + length bytes.now ≤ length all.old }
    ensures stored { take (at + length bytes.now) all.new ≡ take at all.old ++ bytes.now }
    ensures behind { drop (at + length bytes.now) all.new ≡ drop (at + length bytes.now) all.old }
    ensures size { length all.new ≡ length all.old }
{
    if bytes.len() <= FEW {
        store_few(all, at, bytes);
    } else {
        store_many(all, at, bytes);
    }
}

// Any number of bytes, by a call.
#[inline(never)]
fn store_many(all: &mut [u8], at: usize, bytes: &[u8])
    requires { at + length bytes.now ≤ length all.old }
    ensures stored { take (at + length bytes.now) all.new ≡ take at all.old ++ bytes.now }
    ensures behind { drop (at + length bytes.now) all.new ≡ drop (at + length bytes.now) all.old }
    ensures size { length all.new ≡ length all.old }
{
    all[at..at + bytes.len()].copy_from_slice(bytes);
}

// Stores at most 32 bytes. Returns whether none needs an escape.
#[inline(always)]
fn store_few(all: &mut [u8], at: usize, bytes: &[u8]) -> bool
    requires few { length bytes.now ≤ 32 }
    requires room { at + length bytes.now ≤ length all.old }
    ensures stored { take (at + length bytes.now) all.new ≡ take at all.old ++ bytes.now }
    ensures behind { drop (at + length bytes.now) all.new ≡ drop (at + length bytes.now) all.old }
    ensures size { length all.new ≡ length all.old }
    ensures plain { IsTrue result → flat_map escaped_byte bytes.now ≡ bytes.now }
{
    let len = bytes.len();
    if len >= 16 {
        store_ends::<16>(all, at, bytes)
    } else if len >= 8 {
        store_ends::<8>(all, at, bytes)
    } else if len >= 4 {
        store_ends::<4>(all, at, bytes)
    } else if len >= 2 {
        store_ends::<2>(all, at, bytes)
    } else if len == 1 {
        store_ends::<1>(all, at, bytes)
    } else {
        true
    }
}

// Stores the first N bytes and the last N, which may overlap.
#[inline(always)]
fn store_ends<const N: usize>(all: &mut [u8], at: usize, bytes: &[u8]) -> bool
    requires few { N ≤ 64 }
    requires ends { (N ≤ length bytes.now) × (length bytes.now ≤ N + N) }
    requires room { at + length bytes.now ≤ length all.old }
    ensures stored { take (at + length bytes.now) all.new ≡ take at all.old ++ bytes.now }
    ensures behind { drop (at + length bytes.now) all.new ≡ drop (at + length bytes.now) all.old }
    ensures size { length all.new ≡ length all.old }
    ensures plain { IsTrue result → flat_map escaped_byte bytes.now ≡ bytes.now }
{
    let last = bytes.len() - N;
    let front = store_marked::<N>(all, at, bytes, 0);
    let back = store_marked::<N>(all, at + last, bytes, last);
    (front == 0) & (back == 0)
}

// Stores N bytes from an index on. Returns a bit for each, set if it needs an escape.
#[inline(always)]
fn store_marked<const N: usize>(all: &mut [u8], at: usize, bytes: &[u8], from: usize) -> u64
    requires few { N ≤ 64 }
    requires some { from + N ≤ length bytes.now }
    requires room { at + N ≤ length all.old }
    ensures stored { take (at + N) all.new ≡ take at all.old ++ take N (drop from bytes.now) }
    ensures behind { drop (at + N) all.new ≡ drop (at + N) all.old }
    ensures size { length all.new ≡ length all.old }
    ensures escapes { result ≡ mask_l (map needs_escape (take N (drop from bytes.now))) }
{
    let vector = Simd::<u8, N>::from_slice(&bytes[from..]);
    vector.copy_to_slice(&mut all[at..]);
    let escapes = vector.simd_eq(Simd::<u8, N>::splat(b'"'))
        | vector.simd_eq(Simd::<u8, N>::splat(b'\\'))
        | vector.simd_lt(Simd::<u8, N>::splat(0x20));
    escapes.to_bitmask()
}

// Stores bytes, of which there are at least N, up to the first that needs an escape, and returns
// their number: N at a time, and then the last N, which may overlap those before. An escape ends
// the loop and does not shorten a step, so that no vector waits for the mask of the one before.
#[inline(always)]
fn store_vectors<const N: usize>(all: &mut [u8], at: usize, bytes: &[u8]) -> usize
    requires few { (0 < N) × (N ≤ 64) }
    requires some { N ≤ length bytes.now }
    requires room { at + length bytes.now ≤ length all.old }
    ensures within { result ≤ length bytes.now }
    ensures stored { take (at + result) all.new ≡ take at all.old ++ take result bytes.now }
    ensures size { length all.new ≡ length all.old }
    ensures plain { flat_map escaped_byte (take result bytes.now) ≡ take result bytes.now }
{
    let mut done = 0;
    while bytes.len() - done > N {
        let escapes = store_marked::<N>(all, at + done, bytes, done);
        if escapes != 0 {
            return done + escapes.trailing_zeros() as usize;
        }
        done += N;
    }
    let last = bytes.len() - N;
    let escapes = store_marked::<N>(all, at + last, bytes, last);
    if escapes != 0 {
        return last + escapes.trailing_zeros() as usize;
    }
    bytes.len()
}

// Stores the digits of a number. Returns their end.
#[inline(always)]
fn store_digits(all: &mut [u8], at: usize, number: u64) -> usize
    requires room { at + 20 ≤ length all.old }
    ensures end { result ≡ at + length (decimal number) }
    ensures few { result ≤ at + 20 }
    ensures stored { take result all.new ≡ take at all.old ++ decimal number }
    ensures size { length all.new ≡ length all.old }
{
    if number < 10 {
        all[at] = b'0' + number as u8;
        return at + 1;
    }
    let end = at + number.ilog10() as usize + 1;
    write_digits(number, all, end);
    end
}
