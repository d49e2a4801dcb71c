//! The input that the machine reads, and the strings and numbers that nodes share with it.
//!
//! An input without a backslash whose last token is a closing bracket is borrowed whole. In any
//! other, strings are decoded in place, since no escape is shorter than the UTF-8 of its character:
//! what has been read is split off the front of the bytes that are left, for good, so that a string
//! that was decoded is never read again. simdjson copies each string to a buffer instead (section
//! 3.2 of the paper that `stage2` names).
//!
//! A string that ends before the next backslash (see `escapes`) is shared without a look at its
//! bytes.
ghost use Rattle.std.specs.Prelude.{◌≡◌, ◌≤◌, ◌<◌, ◌+◌, ◌-◌, ◌*◌, ◌^◌};
ghost use Rattle.std.specs.Prelude.{ℕ, List, [], suc, length, slice_index, take, drop};
ghost use Rattle.std.specs.Prelude.{MatchResult, Ok, Err, IsTrue, IsFalse, true, false};
ghost use Rattle.simd_json_parts.specs.Bytes.{quote, byte_at};
ghost use Rattle.simd_json_parts.specs.StringAt.{closing_quote, string_at, escape_fault};
ghost use Rattle.simd_json_scalars.specs.StringRead.{IsStringAt};
ghost use Rattle.simd_json_stages.specs.EscapeBlocks.{backslash_blocks};
ghost use Rattle.simd_json_stages.specs.EscapesAhead.{AreAhead, ArePassed, PlainFrom};
ghost use Rattle.simd_json_stages.specs.Inputs.{HasBytes, HasPlain, HasQuoted, HasQuotedSomewhere};
ghost use Rattle.simd_json_stages.specs.Inputs.{HasString, IsStringBefore, Reads};

use super::escapes::{Escapes, last_quote};
use simd_json_scalars::stringparse::{BadEscape, parse_str};
use std::marker::Brand;

/// The bytes of an input as they were given, before strings are decoded in place: a type that names
/// them in contracts. It has no values, and at run time it is nothing.
///
/// Functions that parse are generic over it, and require that the input is `K.bytes`. A caller
/// passes [`Brand`], and its proof picks the bytes at that call.
pub trait Original {
    // The bytes.
    ghost bytes: { List ℕ };
}

impl Original for Brand {
    ghost bytes = { [] };
}

// The input, or what is left of it. All indexes are of bytes of the whole input.
#[derive(Drop)]
pub(crate) struct Unread<'m, 'de> {
    // whether the input is borrowed whole: then it has no backslash
    pub(crate) is_plain: bool,
    // the whole input if `is_plain`, else empty
    pub(crate) shared: &'de [u8],
    // if not `is_plain`, the bytes that are left, for reading and writing; else empty
    pub(crate) rest: &'de mut [u8],
    // the index of the first byte of `rest`
    pub(crate) at: usize,
    // the walk along the backslashes in `rest`
    pub(crate) escapes: Escapes<'m>,
    // the index of the end of the input, from which lengths are computed
    pub(crate) end: usize,
}

impl<'m, 'de> Unread<'m, 'de> {
    // Borrows whole an input without a backslash.
    #[inline(always)]
    pub(crate) fn plain(input: &'de [u8]) -> Unread<'static, 'de>
        ensures { (b : List ℕ) → input.now ≡ b → PlainFrom b 0 (length b) → Reads b result 0 }
    {
        Unread {
            is_plain: true,
            shared: input,
            rest: &mut [],
            at: 0,
            escapes: Escapes::new(&[]),
            end: input.len(),
        }
    }

    // Borrows an input for writing. `escape_blocks` are the numbers of its blocks with a backslash.
    #[inline(always)]
    pub(crate) fn with_escapes(input: &'de mut [u8], escape_blocks: &'m [u32]) -> Unread<'m, 'de>
        ensures { (b : List ℕ) → input.old ≡ b → escape_blocks.now ≡ backslash_blocks b
            → Reads b result 0 }
    {
        let end = input.len();
        Unread {
            is_plain: false,
            shared: &[],
            rest: input,
            at: 0,
            escapes: Escapes::new(escape_blocks),
            end,
        }
    }

    // All bytes from index i on.
    #[inline(always)]
    pub(crate) fn from(&self, i: usize) -> &[u8]
        requires { HasBytes (λ b. Reads b self.now) i 0 }
        ensures { (b : List ℕ) → Reads b self.now i → result.now ≡ drop i b }
    {
        if self.is_plain {
            return &self.shared[i..];
        }
        &self.rest[i - self.at..self.end - self.at]
    }

    // Returns the `len` bytes from index i on as a string, and splits off all up to its end.
    #[inline(always)]
    pub(crate) fn share(&mut self, i: usize, len: usize) -> &'de str
        requires { HasString (λ b. Reads b self.old) i len }
        ensures string { (b : List ℕ) → Reads b self.old i → result.now ≡ take len (drop i b) }
        ensures rest { (b : List ℕ) → Reads b self.old i → Reads b self.new (i + len) }
    {
        if self.is_plain {
            let shared = self.shared;
            return unsafe { str::from_utf8_unchecked(&shared[i..i + len]) };
        }
        let start = i - self.at;
        let prefix = self.split(i + len);
        unsafe { str::from_utf8_unchecked(&prefix[start..]) }
    }

    // Splits off the bytes up to index i.
    #[inline(always)]
    fn split(&mut self, i: usize) -> &'de mut [u8]
        requires ahead { self.old.at ≤ i }
        requires within { i ≤ self.old.at + length self.old.rest.now }
        ensures prefix { result.now ≡ take (i - self.old.at) self.old.rest.now }
        ensures rest { self.new.rest.now ≡ drop (i - self.old.at) self.old.rest.now }
        ensures at { self.new.at ≡ i }
        ensures shared { (self.new.shared ≡ self.old.shared)
            × (self.new.is_plain ≡ self.old.is_plain) }
        ensures escapes { self.new.escapes ≡ self.old.escapes }
        ensures end { self.new.end ≡ self.old.end }
    {
        let (prefix, rest) = std::mem::take(&mut self.rest).split_at_mut(i - self.at);
        self.rest = rest;
        self.at = i;
        prefix
    }

    // Whether the string from index `at` may have an escape before index `end`.
    #[inline(always)]
    pub(crate) fn may_have_escape(&mut self, at: usize, end: usize) -> bool
        requires { HasBytes (λ b. Reads b self.old) at 0 }
        ensures reads { (b : List ℕ) → Reads b self.old at → Reads b self.new at }
        ensures plain { IsFalse result → (b : List ℕ) → Reads b self.old at → PlainFrom b at end }
        ensures lent { IsTrue result → IsFalse self.new.is_plain }
    {
        if self.is_plain || end <= self.escapes.mark {
            return false;
        }
        if self.escapes.mark < at {
            match self.escapes.ahead(self.from(at), at) {
                Some(escapes) => self.escapes = escapes,
                None => return true,
            }
        }
        self.escapes.mark < end
    }

    // Shares the string whose opening quote has index `at`, and which has no escape. It is closed
    // before index `end`.
    #[inline(always)]
    pub(crate) fn share_string(&mut self, at: usize, end: usize) -> &'de str
        requires { HasPlain (λ b. Reads b self.old) at end }
        ensures { (b : List ℕ) → Reads b self.old at → IsStringBefore b at end → PlainFrom b at end
            → (string_at b at ≡ Ok (result.now, suc (closing_quote b at)))
            × Reads b self.new (suc (closing_quote b at)) }
    {
        let closing = self.closing(at, end);
        self.share(at + 1, closing - (at + 1))
    }

    // The index of the closing quote of the string from index `at`, which is closed before `end`.
    #[inline(always)]
    fn closing(&self, at: usize, end: usize) -> usize
        requires { HasQuoted (λ b. Reads b self.now) at end }
        ensures { (b : List ℕ) → Reads b self.now at → IsStringBefore b at end
            → result ≡ closing_quote b at }
    {
        if self.is_plain {
            return last_quote(self.shared, 0, at, end);
        }
        last_quote(self.rest, self.at, at, end)
    }

    // Decodes in place the string whose opening quote has index `at`. Returns it, or its first
    // invalid escape. `parse_str` is not inlined. It takes the bytes and not `self`, since what is
    // passed by reference to such a call is kept in memory.
    #[inline(always)]
    pub(crate) fn parse_string(&mut self, at: usize) -> Result<&'de str, BadEscape>
        requires lent { IsFalse self.old.is_plain }
        requires quoted { HasQuotedSomewhere (λ b. Reads b self.old) at }
        ensures { (b : List ℕ) (end : ℕ) → Reads b self.old at → IsStringBefore b at end
            → MatchResult result
            (λ string. (string_at b at ≡ Ok (string.now, suc (closing_quote b at)))
            × Reads b self.new (suc (closing_quote b at)))
            (λ bad. string_at b at ≡ Err (escape_fault (at + bad.offset) bad.letter)) }
    {
        let _ = self.split(at);
        let (unread, _) = std::mem::take(&mut self.rest).split_at_mut(self.end - at);
        let string = parse_str(unread)?;
        self.at = at + string.len;
        self.rest = string.rest;
        Ok(string.string)
    }
}
