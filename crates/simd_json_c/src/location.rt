//! Where an input is rejected and why, for people.
ghost use Rattle.std.specs.Prelude.{◌≡◌, IfErr, IfOk, string_bytes};
ghost use Rattle.simd_json_stages.specs.Capacities.{IsOutOfMemory};
ghost use Rattle.simd_json_check.specs.Messages.{message_text};
ghost use Rattle.simd_json_c.specs.Located.{IsLocated, error_with, kind_with, position_of};

use crate::print::lend_text;
use crate::status;
use crate::status::{ErrorPlace, OK, TRAILING_DATA, number};
use simd_json::{Error, ErrorType, Result};
use simd_json_check::{Location, Reason};
use std::alloc::Global;

/// A place in an input, for people.
#[repr(C)]
#[derive(Clone, Copy, Drop)]
pub struct InputPosition {
    /// The byte offset.
    pub byte: usize,
    /// The line: from 1, by line feeds.
    pub line: usize,
    /// The column: from 1, in characters.
    pub column: usize,
    /// The status of the error's kind as people are shown it.
    pub status: i32,
}

// The kind of error with a status, or `None` if it is no error of an input.
fn kind_with(status: i32) -> Option<ErrorType>
    ensures { result ≡ kind_with status }
{
    let kind = match status {
        status::OUT_OF_MEMORY => ErrorType::OutOfMemory,
        status::INPUT_TOO_LARGE => ErrorType::InputTooLarge,
        status::INVALID_UTF8 => ErrorType::InvalidUtf8,
        status::SYNTAX => ErrorType::Syntax,
        status::EOF => ErrorType::Eof,
        status::INTERNAL_ERROR => ErrorType::InternalError,
        status::EXPECTED_ARRAY_CONTENT => ErrorType::ExpectedArrayContent,
        status::EXPECTED_OBJECT_CONTENT => ErrorType::ExpectedObjectContent,
        status::EXPECTED_OBJECT_KEY => ErrorType::ExpectedObjectKey,
        status::EXPECTED_OBJECT_COLON => ErrorType::ExpectedObjectColon,
        status::TRAILING_DATA => ErrorType::TrailingData,
        status::DEPTH_LIMIT_EXCEEDED => ErrorType::DepthLimitExceeded,
        status::EXPECTED_TRUE => ErrorType::ExpectedTrue,
        status::EXPECTED_FALSE => ErrorType::ExpectedFalse,
        status::EXPECTED_NULL => ErrorType::ExpectedNull,
        status::INVALID_NUMBER => ErrorType::InvalidNumber,
        status::INVALID_ESCAPE => ErrorType::InvalidEscape,
        status::INVALID_UNICODE_CODEPOINT => ErrorType::InvalidUnicodeCodepoint,
        _ => return None,
    };
    Some(kind)
}

// The error with a status and a place. A character past 255 is none.
fn error_with(status: i32, place: ErrorPlace) -> Option<Error>
    ensures { result ≡ error_with status place }
{
    let kind = kind_with(status)?;
    if place.character < 256 {
        let character = char::from(place.character as u8);
        return Some(Error::new(place.index, Some(character), kind));
    }
    Some(Error::new(place.index, None, kind))
}

pub(crate) fn position_of(location: &Location) -> InputPosition
    ensures { result ≡ position_of location.now }
{
    InputPosition {
        byte: location.byte(),
        line: location.line(),
        column: location.column(),
        status: match location.reason() {
            Reason::MoreText => TRAILING_DATA,
            _ => number(location.error().error()),
        },
    }
}

// The reason in words.
fn words(alloc: Global, location: &Location) -> Result<String>
    ensures text { IfOk result (λ text. string_bytes text
        ≡ message_text location.now.reason location.now.opening) }
    ensures memory { IfErr result IsOutOfMemory }
{
    let message = location.message();
    Ok(format!(in alloc; "{message}")?)
}

/// Writes the place of an error, for people, and its reason in words to the caller's memory.
#[unsafe(no_mangle)]
pub extern "C" fn simd_json_location(
    alloc: Global,
    input: &[u8],
    first: usize,
    status: i32,
    place: &ErrorPlace,
    position: &mut InputPosition,
    out: &mut [u8],
    needed: &mut usize,
) -> i32
    ensures { IsLocated input.now first (error_with status place.now) result position.new
        needed.old needed.new out.old out.new }
{
    let Some(error) = error_with(status, *place) else {
        *position = InputPosition {
            byte: 0,
            line: 0,
            column: 0,
            status: OK,
        };
        *needed = 0;
        return OK;
    };
    let location = Location::new(input, error).in_file(first);
    *position = position_of(&location);
    let mut none = ErrorPlace::NONE;
    lend_text(words(alloc, &location), out, needed, &mut none)
}
