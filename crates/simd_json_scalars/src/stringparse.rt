//! Reads one string, decoded in the bytes it was written in, or one escape (RFC 8259, section 7).
ghost use Rattle.std.specs.Prelude.{◌≡◌, ◌≤◌, ◌<◌, ◌+◌, ℕ, List, length, drop, map, MatchResult};
ghost use Rattle.std.specs.Prelude.{IfOk, IsUtf8, false};
ghost use Rattle.std.specs.List.{prefix_len, copy_within};
ghost use Rattle.std.specs.Simd.Lanes.{mask_l};
ghost use Rattle.simd_json_parts.specs.Bytes.{quote, byte_at};
ghost use Rattle.simd_json_parts.specs.StringAt.{closing_quote};
ghost use Rattle.simd_json_scalars.specs.StringContent.{is_plain, is_stop};
ghost use Rattle.simd_json_scalars.specs.StringDecoded.{IsOpen, IsDecoded, IsLeft};
ghost use Rattle.simd_json_scalars.specs.StringRead.{IsStringAt, IsStringIn};

mod escapes;

pub use escapes::escape;
use escapes::unescape_one;
use std::simd::prelude::*;

/// A string, split off the front of the unread bytes.
// In a `Result` its first number shares its place with an error's byte, so the references stay
// whole.
#[derive(Debug, Drop)]
pub struct ParsedString<'de> {
    /// The number of bytes that it was written in, with both quotes.
    pub len: usize,
    /// The decoded string, in the bytes that it was written in.
    pub string: &'de str,
    /// The bytes after its closing quote, unchanged.
    pub rest: &'de mut [u8],
}

/// The first invalid escape.
#[derive(Clone, Copy, Debug, Drop, PartialEq, Eq)]
pub struct BadEscape {
    /// The byte after the backslash. If it is `u`, the escape is malformed or a lone surrogate.
    pub letter: u8,
    /// The offset of the backslash from the opening quote.
    pub offset: usize,
}

/// A string, decoded in the bytes that it was written in, where it begins after the opening quote.
#[derive(Clone, Copy, Debug, Drop, PartialEq, Eq)]
pub struct DecodedString {
    /// The number of bytes that it was written in, with both quotes.
    pub len: usize,
    /// The index after its last byte, as decoded.
    pub end: usize,
}

/// Decodes in place the string whose opening quote is the first of the unread bytes (RFC 8259,
/// section 7).
///
/// Returns where the string lies now and how many bytes it was written in, or the first invalid
/// escape. Requires UTF-8 and a closing quote. A string without an escape stays as it is; after the
/// first escape its characters are moved down, and nothing is written ahead of what has been read.
/// The bytes after its closing quote are unchanged; after an error only the length is known.
///
/// From `"caf\u00e9", 1` the bytes 1 to 6 are `café`, which was written in 11; in `"\q"` the escape
/// at offset 1 is invalid.
#[inline(never)]
pub fn decode_str(unread: &mut [u8]) -> Result<DecodedString, BadEscape>
    requires opening { byte_at unread.old 0 ≡ quote }
    requires closing { closing_quote unread.old 0 < length unread.old }
    requires utf8 { IsUtf8 unread.old }
    ensures string { (b : List ℕ) (i : ℕ) → drop i b ≡ unread.old
        → IsStringIn b i unread.new result }
    ensures within { IfOk result (λ string. (1 ≤ string.end) × (string.end < string.len)
        × (string.len ≤ length unread.new)) }
{
    decode(unread)
}

/// Reads the string whose opening quote is the first of the unread bytes, decoded in place as by
/// [`decode_str`], and splits it off.
///
/// Returns the string, the number of bytes that it was written in, and the bytes after its closing
/// quote; or the first invalid escape. Requires UTF-8 and a closing quote.
///
/// From `"caf\u00e9", 1` the string is `café`, of 11 bytes, and `, 1` is left; in `"\q"` the escape
/// at offset 1 is invalid.
#[inline(never)]
pub fn parse_str<'de>(unread: &'de mut [u8]) -> Result<ParsedString<'de>, BadEscape>
    requires opening { byte_at unread.old 0 ≡ quote }
    requires closing { closing_quote unread.old 0 < length unread.old }
    requires utf8 { IsUtf8 unread.old }
    ensures { (b : List ℕ) (i : ℕ) → drop i b ≡ unread.old → IsStringAt b i result }
{
    let DecodedString { len, end } = match decode(unread) {
        Ok(decoded) => decoded,
        Err(bad) => return Err(bad),
    };
    let (prefix, rest) = unread.split_at_mut(len);
    let string = unsafe { str::from_utf8_unchecked(&prefix[1..end]) };
    Ok(ParsedString { len, string, rest })
}

// Inlined, with the loop over escapes: it is part of both calls above, and neither pays for the
// other.
#[inline(always)]
fn decode(unread: &mut [u8]) -> Result<DecodedString, BadEscape>
    requires opening { byte_at unread.old 0 ≡ quote }
    requires closing { closing_quote unread.old 0 < length unread.old }
    requires utf8 { IsUtf8 unread.old }
    ensures string { (b : List ℕ) (i : ℕ) → drop i b ≡ unread.old
        → IsStringIn b i unread.new result }
    ensures within { IfOk result (λ string. (1 ≤ string.end) × (string.end < string.len)
        × (string.len ≤ length unread.new)) }
{
    let plain = plain_end(unread, 1);
    match unescape(unread, plain) {
        Ok(ends) => Ok(DecodedString {
            len: ends.read + 1,
            end: ends.written,
        }),
        Err(bad) => Err(bad),
    }
}

// The ends of what is read, and of the string that is written.
#[derive(Clone, Copy, Debug, Drop, PartialEq, Eq)]
struct Ends {
    read: usize,
    written: usize,
}

// Decodes the rest of a string in place, from its first backslash, if it has one, up to its closing
// quote.
#[inline(always)]
fn unescape(unread: &mut [u8], from: usize) -> Result<Ends, BadEscape>
    requires goes_on { IsOpen unread.old from }
    requires stops { is_plain (byte_at unread.old from) ≡ false }
    ensures { MatchResult result
        (λ ends. IsDecoded unread.old from from unread.new ends.read ends.written
        × (byte_at unread.old ends.read ≡ quote))
        (λ bad. IsLeft unread.old from bad) }
{
    let mut ends = Ends {
        read: from,
        written: from,
    };
    while unread[ends.read] == b'\\' {
        match unescape_one(unread, ends) {
            Some(next) => ends = next,
            None => {
                return Err(BadEscape {
                    letter: unread[ends.read + 1],
                    offset: ends.read,
                });
            }
        }
        // Another escape may follow at once.
        if unread[ends.read] != b'\\' {
            ends = move_plain(unread, ends.read, ends.written);
        }
    }
    Ok(ends)
}

// Runs of bytes between escapes: their ends are found, and they are moved down.

// Moves the bytes up to the next quote or backslash down, 32 at a time, while it is looked for.
#[inline(always)]
fn move_plain(bytes: &mut [u8], from: usize, to: usize) -> Ends
    requires goes_on { IsOpen bytes.old from }
    requires order { to ≤ from }
    ensures { IsDecoded bytes.old from to bytes.new result.read result.written
        × (is_plain (byte_at bytes.new result.read) ≡ false) }
{
    let mut done = 0;
    while bytes.len() - (from + done) >= 32 {
        let lanes = u8x32::from_slice(&bytes[from + done..]);
        let stops = stops(lanes);
        if stops != 0 {
            let end = from + done + stops.trailing_zeros() as usize;
            move_few(bytes, from + done, end, to + done);
            return Ends {
                read: end,
                written: to + (end - from),
            };
        }
        lanes.copy_to_slice(&mut bytes[to + done..]);
        done += 32;
    }
    let end = plain_end_slowly(bytes, from + done);
    move_few(bytes, from + done, end, to + done);
    Ends {
        read: end,
        written: to + (end - from),
    }
}

// Moves at most 32 bytes, from `from` to `end`, down to an index: 16 or more as the first 16 and
// the last 16, 8 or more as the first 8 and the last 8.
#[inline]
fn move_few(bytes: &mut [u8], from: usize, end: usize, to: usize)
    requires { (to ≤ from) × (from ≤ end) × (end ≤ length bytes.old) × (end ≤ from + 32) }
    ensures { bytes.new ≡ copy_within bytes.old from end to }
{
    let len = end - from;
    if len < 8 {
        bytes.copy_within(from..end, to);
    } else if len < 16 {
        let first = u8x8::from_slice(&bytes[from..]);
        let last = u8x8::from_slice(&bytes[end - 8..]);
        first.copy_to_slice(&mut bytes[to..]);
        last.copy_to_slice(&mut bytes[to + (len - 8)..]);
    } else {
        let first = u8x16::from_slice(&bytes[from..]);
        let last = u8x16::from_slice(&bytes[end - 16..]);
        first.copy_to_slice(&mut bytes[to..]);
        last.copy_to_slice(&mut bytes[to + (len - 16)..]);
    }
}

// The next quote or backslash, 32 bytes at a time.
#[inline]
fn plain_end(bytes: &[u8], from: usize) -> usize
    requires { IsOpen bytes.now from }
    ensures { (result < length bytes.now) × IsDecoded bytes.now from from bytes.now result result
        × (is_plain (byte_at bytes.now result) ≡ false) }
{
    let mut end = from;
    while bytes.len() - end >= 32 {
        let stops = stops(u8x32::from_slice(&bytes[end..]));
        if stops != 0 {
            return end + stops.trailing_zeros() as usize;
        }
        end += 32;
    }
    plain_end_slowly(bytes, end)
}

// A bit for each byte, set if it is a quote or a backslash.
#[inline]
fn stops(bytes: u8x32) -> u64
    ensures { result ≡ mask_l (map is_stop bytes) }
{
    (bytes.simd_eq(u8x32::splat(b'"')) | bytes.simd_eq(u8x32::splat(b'\\'))).to_bitmask()
}

fn plain_end_slowly(bytes: &[u8], from: usize) -> usize
    requires { from + prefix_len is_plain (drop from bytes.now) < length bytes.now }
    ensures { result ≡ from + prefix_len is_plain (drop from bytes.now) }
{
    let mut end = from;
    while bytes[end] != b'"' && bytes[end] != b'\\' {
        end += 1;
    }
    end
}
