//! The printed text of an error, of its kind, and of the kind of a value.
ghost use Rattle.std.specs.Prelude.{◌≡◌};
ghost use Rattle.simd_json_parts.specs.ErrorKinds.{expected_words};

use crate::error::{Error, ErrorType};
use crate::node::{TryTypeError, ValueType};
use std::fmt;

impl fmt::Display for ValueType {
    ghost use Rattle.std.specs.Prelude.{Some};
    ghost use Rattle.simd_json_parts.specs.ErrorKinds.{type_name};

    ghost output = { λ kind. Some (type_name kind) };

    fn fmt<W: fmt::Write>(&self, f: &mut fmt::Formatter<W>) -> fmt::Result {
        f.write_str(match self {
            ValueType::Null => "Null",
            ValueType::Bool => "Bool",
            ValueType::String => "String",
            ValueType::I64 => "I64",
            ValueType::U64 => "U64",
            ValueType::I128 => "I128",
            ValueType::U128 => "U128",
            ValueType::Decimal => "Decimal",
            ValueType::Array => "Array",
            ValueType::Object => "Object",
        })
    }
}

// A kind of value that may be unknown.
#[derive(Drop)]
struct Known(Option<ValueType>);

impl fmt::Display for Known {
    ghost use Rattle.std.specs.Prelude.{Some};
    ghost use Rattle.simd_json_parts.specs.ErrorKinds.{optional_name};

    ghost output = { λ kind. Some (optional_name kind.0) };

    fn fmt<W: fmt::Write>(&self, f: &mut fmt::Formatter<W>) -> fmt::Result {
        match self.0 {
            None => write!(f, "None"),
            Some(kind) => write!(f, "Some({kind})"),
        }
    }
}

impl fmt::Display for ErrorType {
    ghost use Rattle.std.specs.Prelude.{Some};
    ghost use Rattle.simd_json_parts.specs.ErrorKinds.{kind_text};

    ghost output = { λ kind. Some (kind_text kind) };

    fn fmt<W: fmt::Write>(&self, f: &mut fmt::Formatter<W>) -> fmt::Result {
        let name = match self {
            ErrorType::Unexpected(expected, got) => {
                return write!(f, "Unexpected({}, {})", Known(*expected), Known(*got));
            }
            ErrorType::Serde(message) => return write!(f, "Serde({message})"),
            ErrorType::InputTooLarge => "InputTooLarge",
            ErrorType::InsufficientPadding => "InsufficientPadding",
            ErrorType::OutOfMemory => "OutOfMemory",
            ErrorType::BadKeyType => "BadKeyType",
            ErrorType::ExpectedArray => "ExpectedArray",
            ErrorType::ExpectedArrayComma => "ExpectedArrayComma",
            ErrorType::ExpectedBoolean => "ExpectedBoolean",
            ErrorType::ExpectedEnum => "ExpectedEnum",
            ErrorType::ExpectedFloat => "ExpectedFloat",
            ErrorType::ExpectedInteger => "ExpectedInteger",
            ErrorType::ExpectedMap => "ExpectedMap",
            ErrorType::ExpectedObjectColon => "ExpectedObjectColon",
            ErrorType::ExpectedMapComma => "ExpectedMapComma",
            ErrorType::ExpectedMapEnd => "ExpectedMapEnd",
            ErrorType::ExpectedNull => "ExpectedNull",
            ErrorType::ExpectedTrue => "ExpectedTrue",
            ErrorType::ExpectedFalse => "ExpectedFalse",
            ErrorType::ExpectedNumber => "ExpectedNumber",
            ErrorType::ExpectedSigned => "ExpectedSigned",
            ErrorType::ExpectedString => "ExpectedString",
            ErrorType::ExpectedUnsigned => "ExpectedUnsigned",
            ErrorType::InternalError => "InternalError",
            ErrorType::InvalidEscape => "InvalidEscape",
            ErrorType::InvalidExponent => "InvalidExponent",
            ErrorType::InvalidNumber => "InvalidNumber",
            ErrorType::InvalidUtf8 => "InvalidUtf8",
            ErrorType::InvalidUnicodeEscape => "InvalidUnicodeEscape",
            ErrorType::InvalidUnicodeCodepoint => "InvalidUnicodeCodepoint",
            ErrorType::KeyMustBeAString => "KeyMustBeAString",
            ErrorType::NoStructure => "NoStructure",
            ErrorType::Parser => "Parser",
            ErrorType::Eof => "Eof",
            ErrorType::Syntax => "Syntax",
            ErrorType::TrailingData => "TrailingData",
            ErrorType::UnexpectedCharacter => "UnexpectedCharacter",
            ErrorType::UnterminatedString => "UnterminatedString",
            ErrorType::ExpectedArrayContent => "ExpectedArrayContent",
            ErrorType::ExpectedObjectContent => "ExpectedObjectContent",
            ErrorType::ExpectedObjectKey => "ExpectedObjectKey",
            ErrorType::Overflow => "Overflow",
            ErrorType::DepthLimitExceeded => "DepthLimitExceeded",
            ErrorType::SimdUnsupported => "SimdUnsupported",
        };
        f.write_str(name)
    }
}

impl fmt::Display for Error {
    ghost use Rattle.std.specs.Prelude.{Some};
    ghost use Rattle.simd_json_parts.specs.ErrorKinds.{error_text};

    ghost output = { λ e. Some (error_text e) };

    fn fmt<W: fmt::Write>(&self, f: &mut fmt::Formatter<W>) -> fmt::Result {
        let kind = &self.error;
        let index = self.index;
        match self.character {
            None => write!(f, "{kind} at character {index}"),
            Some(character) => write!(f, "{kind} at character {index} ('{character}')"),
        }
    }
}

impl fmt::Display for TryTypeError {
    ghost use Rattle.std.specs.Prelude.{Some};
    ghost use Rattle.simd_json_parts.specs.ErrorKinds.{mismatch_text};

    ghost output = { λ e. Some (mismatch_text e) };

    fn fmt<W: fmt::Write>(&self, f: &mut fmt::Formatter<W>) -> fmt::Result {
        let expected = expected_words(self.expected);
        let got = self.got.words();
        write!(f, "expected {expected}, found {got}")
    }
}

// The expected kind: an integer has to fit its type.
fn expected_words(kind: ValueType) -> &'static str
    ensures { result.now ≡ expected_words kind }
{
    match kind {
        ValueType::I64 | ValueType::I128 => "an integer that fits",
        ValueType::U64 => "an unsigned integer that fits",
        ValueType::U128 => "an unsigned integer",
        _ => kind.words(),
    }
}
