//! Strings: borrowed from the input where they have no escape, else decoded into a buffer.
ghost use Rattle.std.specs.Prelude.{◌≡◌, ◌≤◌, ◌<◌, ◌+◌, length, drop, OnOk, IfErr, ◌⊎◌, Some, None};
ghost use Rattle.std.specs.Prelude.{MatchOption, IfOk, IsTrue, false, option_map};
ghost use Rattle.std.specs.Vec.{vec_capacity};
ghost use Rattle.std.specs.List.{prefix_len};
ghost use Rattle.simd_json_stages.specs.Capacities.{IsOutOfMemory};
ghost use Rattle.simd_json_parts.specs.Bytes.{byte_at, quote};
ghost use Rattle.simd_json_parts.specs.StringAt.{closing_quote};
ghost use Rattle.simd_json_scalars.specs.StringContent.{is_plain};
ghost use Rattle.simd_json_parts.specs.Accessors as accessors;

use crate::value::Value;
use memchr::memchr2;
use simd_json_parts::error::Result;
use simd_json_scalars::stringparse::parse_str;
use std::alloc::Allocator;

impl<'d> Value<'d> {
    ghost use Rattle.simd_json_ondemand.specs.Docs.{HasEscape, as_standing, between_quotes, index_of};
    ghost use Rattle.simd_json_ondemand.specs.Docs.{string_len};
    ghost use Rattle.simd_json_ondemand.specs.Docs.{text};

    /// Returns the string, if it has no escape, else `None`. [`decode`](Value::decode) returns any
    /// string.
    #[inline(always)]
    pub fn as_str(self) -> Option<&'d str>
        ensures { MatchOption result
            ((as_standing accessors.str self.entry ≡ None) ⊎ HasEscape self.entry)
            (λ s. as_standing accessors.str self.entry ≡ Some s.now) }
    {
        if self.first() != b'"' {
            return None;
        }
        self.plain()
    }

    // The string that opens here, if it has no escape.
    #[inline(always)]
    fn plain(self) -> Option<&'d str>
        requires { byte_at (text self.document) (index_of self) ≡ quote }
        ensures { MatchOption result (HasEscape self.entry)
            (λ s. as_standing accessors.str self.entry ≡ Some s.now) }
    {
        let bytes = self.bytes();
        let end = plain_end(bytes, 1);
        if bytes[end] != b'"' {
            return None;
        }
        Some(unsafe { str::from_utf8_unchecked(&bytes[1..end]) })
    }

    /// Returns whether the string has an escape. If not, the bytes between its quotes are the
    /// string. Of a value that is no string it returns `false`.
    #[inline(always)]
    pub fn has_escape(self) -> bool
        ensures escape { IsTrue result → HasEscape self.entry }
        ensures plain { byte_at (text self.entry.document) (index_of self.entry) ≡ quote
            → result ≡ false
            → as_standing accessors.str self.entry ≡ Some (between_quotes self.entry) }
    {
        if self.first() != b'"' {
            return false;
        }
        let bytes = self.bytes();
        bytes[plain_end(bytes, 1)] != b'"'
    }

    /// Returns the string, or `None`. One that has an escape is decoded into the buffer, whose
    /// contents are overwritten; another is borrowed from the input.
    ///
    /// Returns `OutOfMemory` if a string with an escape has more bytes, as it is written and with
    /// its quotes, than the buffer's capacity, and the buffer cannot grow.
    ///
    /// ```
    /// use simd_json_ondemand::{Document, Index, Result};
    ///
    /// fn name_len(rt: &impl AllocGlobal, input: &[u8]) -> Result<Option<usize>> {
    ///     let mut index = Index::new(rt.alloc(), input.len())?;
    ///     let mut buffer = Vec::new(rt.alloc());
    ///     let root = Document::scan(&mut index, input)?.as_value();
    ///     match root.decode(&mut buffer)? {
    ///         Some(name) => Ok(Some(name.len())),
    ///         None => Ok(None),
    ///     }
    /// }
    /// ```
    pub fn decode<'s, A: Allocator>(self, buffer: &'s mut Vec<u8, A>) -> Result<Option<&'s str>>
    where
        'd: 's,
        ensures string { IfOk result (λ string.
            option_map (λ s. s.now) string ≡ as_standing accessors.str self.entry) }
        ensures fault { IfErr result (λ e. IsOutOfMemory e × HasEscape self.entry
            × (vec_capacity buffer.old < string_len self.entry)) }
    {
        if self.first() != b'"' {
            return Ok(None);
        }
        if let Some(string) = self.plain() {
            return Ok(Some(string));
        }
        let bytes = self.bytes();
        let end = closing(bytes);
        copy(&bytes[..end + 1], buffer)?;
        match parse_str(buffer.as_mut_slice()) {
            Ok(parsed) => Ok(Some(parsed.string)),
            Err(_) => Ok(None),
        }
    }
}

// The index of the next quote or backslash, or the length.
#[inline(always)]
pub(crate) fn plain_end(bytes: &[u8], from: usize) -> usize
    requires { from ≤ length bytes.now }
    ensures value { result ≡ from + prefix_len is_plain (drop from bytes.now) }
    ensures bound { result ≤ length bytes.now }
{
    match memchr2(b'"', b'\\', &bytes[from..]) {
        Some(at) => from + at,
        None => bytes.len(),
    }
}

// The index of the closing quote of the string whose opening quote is the first byte.
pub(crate) fn closing(bytes: &[u8]) -> usize
    requires opening { byte_at bytes.now 0 ≡ quote }
    requires closing { closing_quote bytes.now 0 < length bytes.now }
    ensures value { result ≡ closing_quote bytes.now 0 }
    ensures quote { byte_at bytes.now result ≡ quote }
{
    let mut end = plain_end(bytes, 1);
    while bytes[end] == b'\\' {
        end = plain_end(bytes, end + 2);
    }
    end
}

// Makes the buffer hold these bytes alone.
fn copy<A: Allocator>(bytes: &[u8], buffer: &mut Vec<u8, A>) -> Result<()>
    ensures copied { OnOk result (buffer.new.items ≡ bytes.now) }
    ensures fault { IfErr result (λ e. IsOutOfMemory e
        × (vec_capacity buffer.old < length bytes.now)) }
{
    buffer.clear();
    buffer.extend_from_slice(bytes)?;
    Ok(())
}
