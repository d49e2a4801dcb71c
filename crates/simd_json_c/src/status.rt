//! The errors that a program in C gets, and the names of statuses and kinds of node.
ghost use Rattle.std.specs.Prelude.{◌≡◌, pos, Some, MatchResult};
ghost use Rattle.std.specs.Result.{result_err};
ghost use Rattle.simd_json_c.specs.Statuses.{kind_status, error_place, error_status};
ghost use Rattle.simd_json_c.specs.Calls.{IsNamed};
ghost use Rattle.simd_json_c.specs.Names.{kind_name, status_name};

use simd_json::{Error, ErrorType, Result};
use simd_json_print::text::store_bytes;

/// Where an input is rejected.
#[repr(C)]
#[derive(Clone, Copy, Drop)]
pub struct ErrorPlace {
    /// The byte offset of the error; 0 if there is no place.
    pub index: usize,
    /// The byte there, or `u32::MAX` if there is none.
    pub character: u32,
}

impl ErrorPlace {
    // Where there is no place.
    pub(crate) const NONE: ErrorPlace = ErrorPlace {
        index: 0,
        character: u32::MAX,
    };
}

// The statuses, with the header's names and numbers (tests/c.sh compares them).
pub(crate) const OK: i32 = 0;

pub(crate) const OUT_OF_MEMORY: i32 = 1;

pub(crate) const INPUT_TOO_LARGE: i32 = 2;

pub(crate) const INVALID_UTF8: i32 = 3;

pub(crate) const SYNTAX: i32 = 4;

pub(crate) const EOF: i32 = 5;

pub(crate) const INTERNAL_ERROR: i32 = 6;

pub(crate) const EXPECTED_ARRAY_CONTENT: i32 = 7;

pub(crate) const EXPECTED_OBJECT_CONTENT: i32 = 8;

pub(crate) const EXPECTED_OBJECT_KEY: i32 = 9;

pub(crate) const EXPECTED_OBJECT_COLON: i32 = 10;

pub(crate) const TRAILING_DATA: i32 = 11;

pub(crate) const DEPTH_LIMIT_EXCEEDED: i32 = 12;

pub(crate) const EXPECTED_TRUE: i32 = 13;

pub(crate) const EXPECTED_FALSE: i32 = 14;

pub(crate) const EXPECTED_NULL: i32 = 15;

pub(crate) const INVALID_NUMBER: i32 = 16;

pub(crate) const INVALID_ESCAPE: i32 = 17;

pub(crate) const INVALID_UNICODE_CODEPOINT: i32 = 18;

pub(crate) const TOO_LITTLE_ROOM: i32 = 19;

pub(crate) const PARSER_CLOSED: i32 = 20;

pub(crate) const NO_VALUE: i32 = 21;

pub(crate) const INVALID_POINTER: i32 = 22;

// Each kind of error that a parse returns has its own number.
pub(crate) fn number(kind: &ErrorType) -> i32
    ensures { result ≡ pos (kind_status kind.now) }
{
    match kind {
        ErrorType::OutOfMemory => OUT_OF_MEMORY,
        ErrorType::InputTooLarge => INPUT_TOO_LARGE,
        ErrorType::InvalidUtf8 => INVALID_UTF8,
        ErrorType::Syntax => SYNTAX,
        ErrorType::Eof => EOF,
        ErrorType::InternalError => INTERNAL_ERROR,
        ErrorType::ExpectedArrayContent => EXPECTED_ARRAY_CONTENT,
        ErrorType::ExpectedObjectContent => EXPECTED_OBJECT_CONTENT,
        ErrorType::ExpectedObjectKey => EXPECTED_OBJECT_KEY,
        ErrorType::ExpectedObjectColon => EXPECTED_OBJECT_COLON,
        ErrorType::TrailingData => TRAILING_DATA,
        ErrorType::DepthLimitExceeded => DEPTH_LIMIT_EXCEEDED,
        ErrorType::ExpectedTrue => EXPECTED_TRUE,
        ErrorType::ExpectedFalse => EXPECTED_FALSE,
        ErrorType::ExpectedNull => EXPECTED_NULL,
        ErrorType::InvalidNumber => INVALID_NUMBER,
        ErrorType::InvalidEscape => INVALID_ESCAPE,
        ErrorType::InvalidUnicodeCodepoint => INVALID_UNICODE_CODEPOINT,
        _ => 99,
    }
}

// The status and the place of an error.
pub(crate) fn rejected(e: Error, place: &mut ErrorPlace) -> i32
    ensures status { result ≡ error_status (Some e) }
    ensures place { place.new ≡ error_place (Some e) }
{
    *place = ErrorPlace {
        index: e.index(),
        character: e.character().map_or(u32::MAX, |c| c as u32),
    };
    number(e.error())
}

// The status of a call, and its place.
pub(crate) fn reported(outcome: Result<i32>, place: &mut ErrorPlace) -> i32
    ensures place { place.new ≡ error_place (result_err outcome) }
    ensures status { MatchResult outcome (λ status. result ≡ status)
        (λ e. result ≡ error_status (Some e)) }
{
    match outcome {
        Ok(status) => {
            *place = ErrorPlace::NONE;
            status
        }
        Err(e) => rejected(e, place),
    }
}

fn name_of_status(status: i32) -> &'static [u8]
    ensures { result.now ≡ status_name status }
{
    match status {
        OK => b"Ok",
        OUT_OF_MEMORY => b"OutOfMemory",
        INPUT_TOO_LARGE => b"InputTooLarge",
        INVALID_UTF8 => b"InvalidUtf8",
        SYNTAX => b"Syntax",
        EOF => b"Eof",
        INTERNAL_ERROR => b"InternalError",
        EXPECTED_ARRAY_CONTENT => b"ExpectedArrayContent",
        EXPECTED_OBJECT_CONTENT => b"ExpectedObjectContent",
        EXPECTED_OBJECT_KEY => b"ExpectedObjectKey",
        EXPECTED_OBJECT_COLON => b"ExpectedObjectColon",
        TRAILING_DATA => b"TrailingData",
        DEPTH_LIMIT_EXCEEDED => b"DepthLimitExceeded",
        EXPECTED_TRUE => b"ExpectedTrue",
        EXPECTED_FALSE => b"ExpectedFalse",
        EXPECTED_NULL => b"ExpectedNull",
        INVALID_NUMBER => b"InvalidNumber",
        INVALID_ESCAPE => b"InvalidEscape",
        INVALID_UNICODE_CODEPOINT => b"InvalidUnicodeCodepoint",
        TOO_LITTLE_ROOM => b"TooLittleRoom",
        PARSER_CLOSED => b"ParserClosed",
        NO_VALUE => b"NoValue",
        INVALID_POINTER => b"InvalidPointer",
        _ => b"",
    }
}

fn name_of_kind(kind: u32) -> &'static [u8]
    ensures { result.now ≡ kind_name kind }
{
    match kind {
        0 => b"Null",
        1 => b"Bool",
        2 => b"I64",
        3 => b"U64",
        4 => b"I128",
        5 => b"U128",
        6 => b"Decimal",
        7 => b"String",
        8 => b"Array",
        9 => b"Object",
        _ => b"",
    }
}

// Copies a name if there is room for it, and returns its length.
fn lend_name(name: &[u8], out: &mut [u8]) -> usize
    ensures { IsNamed name.now result out.old out.new }
{
    if name.len() <= out.len() {
        store_bytes(out, 0, name);
    }
    name.len()
}

/// Writes the name of a status to the caller's memory.
#[unsafe(no_mangle)]
pub extern "C" fn simd_json_status_name(status: i32, out: &mut [u8]) -> usize
    ensures { IsNamed (status_name status) result out.old out.new }
{
    lend_name(name_of_status(status), out)
}

/// Writes the name of a kind of node to the caller's memory.
#[unsafe(no_mangle)]
pub extern "C" fn simd_json_kind_name(kind: u32, out: &mut [u8]) -> usize
    ensures { IsNamed (kind_name kind) result out.old out.new }
{
    lend_name(name_of_kind(kind), out)
}
