//! The four classes of errors.
ghost use Rattle.std.specs.Prelude.{◌≡◌, ◌↔◌, IsTrue};
ghost use Rattle.simd_json_parts.specs.ErrorKinds.{class_of, io, eof, syntax, shape};

use super::{Error, ErrorType};

impl Error {
    /// Whether an allocation failed, or the input is too large or its padding is missing.
    pub fn is_io(&self) -> bool
        ensures { IsTrue result ↔ (class_of self.now.error ≡ io) }
    {
        matches!(
            self.error,
            ErrorType::InputTooLarge | ErrorType::InsufficientPadding | ErrorType::OutOfMemory
        )
    }

    /// Whether the input ended before its first token: `Eof`.
    pub fn is_eof(&self) -> bool
        ensures { IsTrue result ↔ (class_of self.now.error ≡ eof) }
    {
        matches!(self.error, ErrorType::Eof)
    }

    /// Whether a value is not of the expected shape. Of a parse: `ExpectedTrue`, `ExpectedFalse`,
    /// `ExpectedNull` or `DepthLimitExceeded`.
    pub fn is_data(&self) -> bool
        ensures { IsTrue result ↔ (class_of self.now.error ≡ shape) }
    {
        matches!(
            self.error,
            ErrorType::Unexpected(_, _)
                | ErrorType::ExpectedArray
                | ErrorType::ExpectedBoolean
                | ErrorType::ExpectedEnum
                | ErrorType::ExpectedFloat
                | ErrorType::ExpectedInteger
                | ErrorType::ExpectedMap
                | ErrorType::ExpectedNull
                | ErrorType::ExpectedTrue
                | ErrorType::ExpectedFalse
                | ErrorType::ExpectedNumber
                | ErrorType::ExpectedSigned
                | ErrorType::ExpectedString
                | ErrorType::ExpectedUnsigned
                | ErrorType::Serde(_)
                | ErrorType::DepthLimitExceeded
        )
    }

    /// Whether the input is not a JSON text for another reason: all other kinds.
    pub fn is_syntax(&self) -> bool
        ensures { IsTrue result ↔ (class_of self.now.error ≡ syntax) }
    {
        matches!(
            self.error,
            ErrorType::InternalError
                | ErrorType::BadKeyType
                | ErrorType::ExpectedArrayComma
                | ErrorType::ExpectedObjectColon
                | ErrorType::ExpectedMapComma
                | ErrorType::ExpectedMapEnd
                | ErrorType::InvalidEscape
                | ErrorType::InvalidExponent
                | ErrorType::InvalidNumber
                | ErrorType::InvalidUtf8
                | ErrorType::InvalidUnicodeEscape
                | ErrorType::InvalidUnicodeCodepoint
                | ErrorType::KeyMustBeAString
                | ErrorType::NoStructure
                | ErrorType::Parser
                | ErrorType::Syntax
                | ErrorType::TrailingData
                | ErrorType::UnexpectedCharacter
                | ErrorType::UnterminatedString
                | ErrorType::ExpectedArrayContent
                | ErrorType::ExpectedObjectContent
                | ErrorType::ExpectedObjectKey
                | ErrorType::Overflow
                | ErrorType::SimdUnsupported
        )
    }
}
