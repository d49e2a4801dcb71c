//! One escape: its character, and decoded in place (RFC 8259, section 7).
ghost use Rattle.std.specs.Prelude.{◌≡◌, ◌≤◌, ◌<◌, length, drop, encode_utf8, Some, None};
ghost use Rattle.std.specs.Prelude.{MatchOption, IfSome};
ghost use Rattle.std.specs.Char.{len_utf8};
ghost use Rattle.simd_json_parts.specs.Bytes.{backslash, byte_at};
ghost use Rattle.simd_json_parts.specs.StringAt.{code_unit_at, unicode_piece, escape_at};
ghost use Rattle.simd_json_scalars.specs.StringDecoded.{IsOpen, IsDecoded};

use super::Ends;
use simd_json_parts::charutils::{codepoint_to_utf8, hex_to_u32_nocheck};

// Decodes the escape at the backslash where reading has arrived.
#[inline(always)]
pub(super) fn unescape_one(unread: &mut [u8], ends: Ends) -> Option<Ends>
    requires goes_on { IsOpen unread.old ends.read }
    requires backslash { byte_at unread.old ends.read ≡ backslash }
    requires order { ends.written ≤ ends.read }
    ensures { MatchOption result
        ((escape_at (drop ends.read unread.old) ≡ None) × (unread.new ≡ unread.old))
        (λ next. IsDecoded unread.old ends.read ends.written unread.new next.read next.written
        × (ends.read < next.read)) }
{
    let (character, more) = escape(&unread[ends.read..])?;
    let len = codepoint_to_utf8(character, &mut unread[ends.written..]);
    let read = ends.read + 1 + more;
    let written = ends.written + len;
    Some(Ends { read, written })
}

/// The character of the escape whose backslash is the first byte, and how many bytes of it follow
/// the backslash (RFC 8259, section 7).
///
/// Returns `None` where the bytes after the backslash are no escape: another letter, fewer than
/// four hexadecimal digits after `u`, or the code unit of a surrogate that is not in a pair.
/// Requires two bytes at least.
///
/// Of `\n` it returns a line feed and 1, of `\u00e9` an `é` and 5, and of `\ud83d\ude00` the
/// character of the pair and 11.
// The table comes first, since most escapes have one letter.
#[inline(always)]
pub fn escape(bytes: &[u8]) -> Option<(char, usize)>
    requires { 2 ≤ length bytes.now }
    ensures value { MatchOption result (escape_at bytes.now ≡ None)
        (λ e. escape_at bytes.now ≡ Some (encode_utf8 e.0, e.1)) }
    ensures shorter { IfSome result (λ e. len_utf8 e.0 ≤ e.1) }
{
    let character = ESCAPED[bytes[1] as usize];
    if character != 0 {
        return Some((character as char, 1));
    }
    if bytes[1] == b'u' {
        return unicode_escape(bytes);
    }
    None
}

// The character of each letter after a backslash, or 0; backspace is 8, form feed 12. A look-up
// costs less than the indirect jump of a `match`.
const ESCAPED: [u8; 256] = [
    0, 0, 0, 0, 0, 0, 0, 0, 0, 0, 0, 0, 0, 0, 0, 0, 0, 0, 0, 0, 0, 0, 0, 0, 0, 0, 0, 0, 0, 0, 0, 0,
    0, 0, b'"', 0, 0, 0, 0, 0, 0, 0, 0, 0, 0, 0, 0, b'/', 0, 0, 0, 0, 0, 0, 0, 0, 0, 0, 0, 0, 0, 0,
    0, 0, 0, 0, 0, 0, 0, 0, 0, 0, 0, 0, 0, 0, 0, 0, 0, 0, 0, 0, 0, 0, 0, 0, 0, 0, 0, 0, 0, 0,
    b'\\', 0, 0, 0, 0, 0, 8, 0, 0, 0, 12, 0, 0, 0, 0, 0, 0, 0, b'\n', 0, 0, 0, b'\r', 0, b'\t', 0,
    0, 0, 0, 0, 0, 0, 0, 0, 0, 0, 0, 0, 0, 0, 0, 0, 0, 0, 0, 0, 0, 0, 0, 0, 0, 0, 0, 0, 0, 0, 0, 0,
    0, 0, 0, 0, 0, 0, 0, 0, 0, 0, 0, 0, 0, 0, 0, 0, 0, 0, 0, 0, 0, 0, 0, 0, 0, 0, 0, 0, 0, 0, 0, 0,
    0, 0, 0, 0, 0, 0, 0, 0, 0, 0, 0, 0, 0, 0, 0, 0, 0, 0, 0, 0, 0, 0, 0, 0, 0, 0, 0, 0, 0, 0, 0, 0,
    0, 0, 0, 0, 0, 0, 0, 0, 0, 0, 0, 0, 0, 0, 0, 0, 0, 0, 0, 0, 0, 0, 0, 0, 0, 0, 0, 0, 0, 0, 0, 0,
    0, 0, 0, 0, 0, 0, 0, 0, 0, 0,
];

// A code unit, or a high and a low surrogate.
#[inline(always)]
fn unicode_escape(bytes: &[u8]) -> Option<(char, usize)>
    ensures value { let piece =
        unicode_piece (code_unit_at bytes.now) (code_unit_at (drop 6 bytes.now)) in
        MatchOption result (piece ≡ None) (λ e. piece ≡ Some (encode_utf8 e.0, e.1)) }
    ensures shorter { IfSome result (λ e. len_utf8 e.0 ≤ e.1) }
{
    let first = code_unit(bytes)?;
    if !matches!(first, 0xd800..=0xdbff) {
        let character = char::from_u32(first)?;
        return Some((character, 5));
    }
    let second = code_unit(&bytes[6..])?;
    if !matches!(second, 0xdc00..=0xdfff) {
        return None;
    }
    let character = char::from_u32(0x10000 + (first - 0xd800) * 1024 + (second - 0xdc00))?;
    Some((character, 11))
}

// The code unit of a `\u` escape at the front.
#[inline(always)]
fn code_unit(bytes: &[u8]) -> Option<u32>
    ensures value { result ≡ code_unit_at bytes.now }
    ensures bounds { IfSome result (λ u. (u < 65536) × (6 ≤ length bytes.now)) }
{
    if bytes.len() < 6 || bytes[0] != b'\\' || bytes[1] != b'u' {
        return None;
    }
    hex_to_u32_nocheck([bytes[2], bytes[3], bytes[4], bytes[5]])
}
