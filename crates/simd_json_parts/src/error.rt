//! Why a parse rejects an input, and where.
ghost use Rattle.std.specs.Prelude.{◌≡◌};
ghost use Rattle.simd_json_parts.specs.Faults.{error_of, whole_fault};

use crate::node::ValueType;
use std::alloc::{AllocError, AllocFailed};

mod classes;
mod display;

/// A result whose error is this crate's.
pub type Result<T> = std::result::Result<T, Error>;

/// The kinds of error.
///
/// A parse returns, for an input as a whole, `InsufficientPadding`, `InputTooLarge`, `InvalidUtf8`,
/// `Syntax`, `Eof` or `OutOfMemory`; at a token, `InternalError`, `ExpectedArrayContent`,
/// `ExpectedObjectContent`, `ExpectedObjectKey`, `ExpectedObjectColon`, `Syntax`, `TrailingData`,
/// `DepthLimitExceeded`, `ExpectedTrue`, `ExpectedFalse`, `ExpectedNull`, `InvalidNumber`,
/// `InvalidEscape` or `InvalidUnicodeCodepoint`. The other kinds are kept for the names of the Rust
/// crate: no parse returns them.
///
/// Two are equal if they are the same kind with equal fields.
#[derive(Debug, Drop, PartialEq, Eq)]
pub enum ErrorType {
    /// A value of another kind was expected: the expected kind and the value's, if known.
    Unexpected(Option<ValueType>, Option<ValueType>),
    /// The input has more than 4,294,967,295 bytes.
    InputTooLarge,
    /// Fewer than 64 bytes follow the document in the padded form.
    InsufficientPadding,
    /// An allocation failed.
    OutOfMemory,
    /// The key of a map is of a type that cannot be a key.
    BadKeyType,
    /// An array was expected.
    ExpectedArray,
    /// A `,` was expected in an array.
    ExpectedArrayComma,
    /// A truth value was expected.
    ExpectedBoolean,
    /// An enum was expected.
    ExpectedEnum,
    /// A float was expected.
    ExpectedFloat,
    /// An integer was expected.
    ExpectedInteger,
    /// A map was expected.
    ExpectedMap,
    /// A `:` was expected after a key.
    ExpectedObjectColon,
    /// A `,` was expected in a map.
    ExpectedMapComma,
    /// The end of a map was expected.
    ExpectedMapEnd,
    /// `null` was expected.
    ExpectedNull,
    /// `true` was expected.
    ExpectedTrue,
    /// `false` was expected.
    ExpectedFalse,
    /// A number was expected.
    ExpectedNumber,
    /// A signed number was expected.
    ExpectedSigned,
    /// A string was expected.
    ExpectedString,
    /// An unsigned number was expected.
    ExpectedUnsigned,
    /// A value was expected, or there is input after the root container.
    InternalError,
    /// A backslash in a string is not followed by the letter of an escape (RFC 8259, section 7).
    InvalidEscape,
    /// The exponent of a number is malformed.
    InvalidExponent,
    /// Malformed number, or integer out of range (RFC 8259, section 6).
    InvalidNumber,
    /// The input is not UTF-8 (RFC 3629).
    InvalidUtf8,
    /// Malformed `\u` escape.
    InvalidUnicodeEscape,
    /// A `\u` escape is malformed, or a lone surrogate (RFC 8259, section 7).
    InvalidUnicodeCodepoint,
    /// The key of an object is not a string.
    KeyMustBeAString,
    /// No structural character was found.
    NoStructure,
    /// The parser failed.
    Parser,
    /// The input has no token: it is empty, or only whitespace.
    Eof,
    /// A message of a serializer or a deserializer.
    Serde(String),
    /// A string has no end or contains a byte below 0x20, or the input ends where a token is
    /// expected.
    Syntax,
    /// There is input after the root scalar.
    TrailingData,
    /// A character was not expected.
    UnexpectedCharacter,
    /// A string has no end.
    UnterminatedString,
    /// A `,` or a `]` was expected after an element.
    ExpectedArrayContent,
    /// A key or a `}` was expected at the start of an object, or a `,` or a `}` after a member.
    ExpectedObjectContent,
    /// A key was expected after a `,` in an object.
    ExpectedObjectKey,
    /// A buffer of limited size is full.
    Overflow,
    /// A container was opened while as many were open as the limit allows.
    DepthLimitExceeded,
    /// The processor has no instructions that the parser needs.
    SimdUnsupported,
}

/// An error: its kind, and where it is in the input.
///
/// Each error has exactly one of four classes: [`is_io`](Error::is_io), [`is_eof`](Error::is_eof),
/// [`is_syntax`](Error::is_syntax) and [`is_data`](Error::is_data).
#[derive(Debug, Drop, PartialEq, Eq)]
pub struct Error {
    index: usize,
    character: Option<char>,
    error: ErrorType,
}

impl Error {
    /// An error of this kind at this byte offset of the input, with the character there.
    pub fn new(index: usize, character: Option<char>, error: ErrorType) -> Error
        ensures { result ≡ error_of index character error }
    {
        Error {
            index,
            character,
            error,
        }
    }

    /// An error of this kind of the whole input: index 0, no character.
    pub fn generic(error: ErrorType) -> Error
        ensures { result ≡ whole_fault error }
    {
        Error::new(0, None, error)
    }

    /// The byte offset of the error, from 0; 0 if the error is of the whole input.
    pub fn index(&self) -> usize
        ensures { result ≡ self.now.index }
    {
        self.index
    }

    /// The byte at that offset, as a code point, or `None` if the error is of the whole input.
    pub fn character(&self) -> Option<char>
        ensures { result ≡ self.now.character }
    {
        self.character
    }

    /// The kind of the error.
    pub fn error(&self) -> &ErrorType
        ensures { result.now ≡ self.now.error }
    {
        &self.error
    }
}

impl From<AllocError> for Error {
    ghost use Rattle.std.specs.Prelude.{◌≡◌};
    ghost use Rattle.simd_json_parts.specs.Faults.{whole_fault};
    ghost use Rattle.simd_json_parts.specs.declared.error.ErrorType.TheVariants.{OutOfMemory};

    ghost from_gives = { λ _ e. e ≡ whole_fault OutOfMemory };

    fn from(_failed: AllocError) -> Error {
        Error::generic(ErrorType::OutOfMemory)
    }
}

impl<T: Drop> From<AllocFailed<T>> for Error {
    ghost use Rattle.std.specs.Prelude.{◌≡◌};
    ghost use Rattle.simd_json_parts.specs.Faults.{whole_fault};
    ghost use Rattle.simd_json_parts.specs.declared.error.ErrorType.TheVariants.{OutOfMemory};

    ghost from_gives = { λ _ e. e ≡ whole_fault OutOfMemory };

    fn from(_failed: AllocFailed<T>) -> Error {
        Error::from(AllocError)
    }
}

impl std::error::Error for Error {}
