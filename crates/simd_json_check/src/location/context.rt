//! The reason of an error, from the bytes around it.
ghost use Rattle.std.specs.Prelude.{◌≡◌, drop, if◌then◌else◌};
ghost use Rattle.simd_json_check.specs.Locations.{bad_string, is_control_inside};
ghost use Rattle.simd_json_check.specs.Reasons.{byte_before, closes_root, ends_range};
ghost use Rattle.simd_json_check.specs.Reasons.{expects_value};
ghost use Rattle.simd_json_check.specs.Reasons.{has_hex_digits, is_byte_order_mark, object_reason};
ghost use Rattle.simd_json_check.specs.Reasons.{reason_of};
ghost use Rattle.simd_json_check.specs.Reasons.{token_reason, value_reason, whole_reason};
ghost use Rattle.simd_json_parts.specs.Bytes.{byte_at};
ghost use Rattle.simd_json_check.specs.declared.location.reason.Reason.TheVariants as reasons;

use super::place::valid_len;
use super::reason::Reason;
use super::scan::bad_string;
use simd_json_parts::charutils::{byte_or_space, is_structural_or_whitespace, is_whitespace};
use simd_json_parts::error::{Error, ErrorType};

#[tactic(auto, unfolding(crate::specs::Reasons::reason_of))]
pub(super) fn reason_for(input: &[u8], error: &Error) -> Reason
    ensures { result ≡ reason_of input.now error.now }
{
    match error.character() {
        None => whole_reason(input, error.error()),
        Some(_) => token_reason(input, error.index(), error.error()),
    }
}

// The reason of an error without a character.
fn whole_reason(input: &[u8], kind: &ErrorType) -> Reason
    ensures { result ≡ whole_reason input.now kind.now }
{
    match kind {
        ErrorType::InputTooLarge => Reason::TooLarge,
        ErrorType::InsufficientPadding => Reason::TooLittlePadding,
        ErrorType::OutOfMemory => Reason::OutOfMemory,
        ErrorType::InvalidUtf8 => Reason::NotUtf8(byte_or_space(input, valid_len(input))),
        ErrorType::Syntax => string_reason(input),
        ErrorType::Eof => Reason::Blank,
        _ => Reason::Other,
    }
}

// The reason of an error with a character, by the bytes around its index.
fn token_reason(input: &[u8], i: usize, kind: &ErrorType) -> Reason
    ensures { result ≡ token_reason input.now i kind.now }
{
    let found = byte_or_space(input, i);
    match kind {
        ErrorType::InternalError => value_reason(input, i),
        ErrorType::ExpectedArrayContent => Reason::ExpectedElementEnd(found),
        ErrorType::ExpectedObjectContent => object_reason(input, i),
        ErrorType::ExpectedObjectKey => Reason::ExpectedKey(found),
        ErrorType::ExpectedObjectColon => Reason::ExpectedColon(found),
        ErrorType::Syntax => Reason::EndOfInput,
        ErrorType::TrailingData => Reason::MoreText,
        ErrorType::DepthLimitExceeded => Reason::TooDeep,
        ErrorType::ExpectedTrue => Reason::ExpectedTrue,
        ErrorType::ExpectedFalse => Reason::ExpectedFalse,
        ErrorType::ExpectedNull => Reason::ExpectedNull,
        ErrorType::InvalidNumber => number_reason(input, i),
        ErrorType::InvalidEscape => Reason::UnknownEscape(byte_or_space(from(input, i), 1)),
        ErrorType::InvalidUnicodeCodepoint => unicode_reason(from(input, i)),
        _ => Reason::Other,
    }
}

// The reason of a bad string: it holds a control byte, or is left open.
fn string_reason(input: &[u8]) -> Reason
    ensures { result ≡ (if is_control_inside input.now (bad_string input.now)
        then reasons.ControlCharacter (byte_at input.now (bad_string input.now))
        else reasons.OpenString) }
{
    let byte = byte_or_space(input, bad_string(input));
    if byte < 0x20 {
        Reason::ControlCharacter(byte)
    } else {
        Reason::OpenString
    }
}

// Where a value is expected, or more text follows the root.
fn value_reason(input: &[u8], i: usize) -> Reason
    ensures { result ≡ value_reason input.now i }
{
    if is_byte_order_mark(input, i) {
        Reason::ByteOrderMark
    } else if closes_root(input, i) {
        Reason::MoreText
    } else {
        Reason::ExpectedValue(byte_or_space(input, i))
    }
}

fn is_byte_order_mark(input: &[u8], i: usize) -> bool
    ensures { result ≡ is_byte_order_mark input.now i }
{
    i == 0
        && byte_or_space(input, 0) == 0xef
        && byte_or_space(input, 1) == 0xbb
        && byte_or_space(input, 2) == 0xbf
}

fn closes_root(input: &[u8], i: usize) -> bool
    ensures { result ≡ closes_root input.now i }
{
    let found = byte_or_space(input, i);
    (found == b']' || found == b'}') && !expects_value(byte_before(input, i), found)
}

// Whether a value is expected after a byte, where `found` is found.
fn expects_value(before: Option<u8>, found: u8) -> bool
    ensures { result ≡ expects_value before found }
{
    match before {
        None => true,
        Some(before) => before == b',' || before == b':' || (before == b'[' && found != b']'),
    }
}

// The reason of a token in an object that is neither a key nor its end.
fn object_reason(input: &[u8], i: usize) -> Reason
    ensures { result ≡ object_reason (byte_before input.now i) (byte_at input.now i) }
{
    let found = byte_or_space(input, i);
    match byte_before(input, i) {
        Some(b'{') => Reason::ExpectedFirstKey(found),
        _ => Reason::ExpectedMemberEnd(found),
    }
}

// The reason of a number that is rejected at index i.
fn number_reason(input: &[u8], i: usize) -> Reason
    ensures { result ≡ (if ends_range input.now i then reasons.IntegerOutOfRange
        else reasons.MalformedNumber) }
{
    if ends_range(input, i) {
        Reason::IntegerOutOfRange
    } else {
        Reason::MalformedNumber
    }
}

// Whether an integer passes its range at index i: after two digits, at another or at the number's
// end.
fn ends_range(input: &[u8], i: usize) -> bool
    ensures { result ≡ ends_range input.now i }
{
    let found = byte_or_space(input, i);
    2 <= i
        && byte_or_space(input, i - 2).is_ascii_digit()
        && byte_or_space(input, i - 1).is_ascii_digit()
        && (found.is_ascii_digit() || is_structural_or_whitespace(found))
}

// The reason of a bad `\u` escape at the front of the text.
fn unicode_reason(text: &[u8]) -> Reason
    ensures { result ≡ (if has_hex_digits text.now then reasons.LoneSurrogate
        else reasons.MalformedUnicodeEscape) }
{
    let is_digit = |k: usize| char::from(byte_or_space(text, k)).is_digit(16);
    if is_digit(2) && is_digit(3) && is_digit(4) && is_digit(5) {
        Reason::LoneSurrogate
    } else {
        Reason::MalformedUnicodeEscape
    }
}

// The last byte before index i that is not whitespace.
fn byte_before(input: &[u8], i: usize) -> Option<u8>
    ensures { result ≡ byte_before input.now i }
{
    let mut end = i.min(input.len());
    while end > 0 {
        end -= 1;
        if !is_whitespace(input[end]) {
            return Some(input[end]);
        }
    }
    None
}

// The bytes from an index on.
fn from(bytes: &[u8], i: usize) -> &[u8]
    ensures { result.now ≡ drop i bytes.now }
{
    if i < bytes.len() { &bytes[i..] } else { &[] }
}
