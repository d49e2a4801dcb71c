//! The error of the `try_` forms: where a walk stopped, and what was expected there.
ghost use Rattle.std.specs.Prelude.{Some};

use simd_json_parts::node::ValueType;
use std::fmt;

/// What a `try_` form expected of the next token.
#[derive(Clone, Copy, Debug, Drop, PartialEq, Eq)]
pub enum Expected {
    /// A value of this kind. An integer has to fit its type.
    Kind(ValueType),
    /// A string without an escape, which can be borrowed.
    PlainString,
    /// An array or an object.
    Container,
    /// A value: an element of an array, or what a key has.
    Value,
    /// The key of a member.
    Key,
    /// The colon after a key.
    Colon,
    /// A comma after an element, or the closing bracket of the array.
    CommaOrBracket,
    /// A comma after a member, or the closing brace of the object.
    CommaOrBrace,
}

/// What is in its place.
#[derive(Clone, Copy, Debug, Drop, PartialEq, Eq)]
pub enum Got {
    /// A value of this kind. Of an array, an object or a string only the first byte was read.
    Value(ValueType),
    /// A token that is no value.
    Other,
    /// Nothing: the input ends.
    End,
}

/// Where a `try_` form stopped, and what it expected there.
///
/// It prints in words, as `expected a colon, found an unsigned integer at byte 5`.
#[derive(Clone, Copy, Debug, Drop, PartialEq, Eq)]
pub struct Unexpected {
    /// The byte index in the input at which the walk stopped: that of a token, or, where none is
    /// left, the length of the input.
    pub index: usize,
    /// What was expected there.
    pub expected: Expected,
    /// What is there.
    pub got: Got,
}

impl fmt::Display for Expected {
    ghost use Rattle.simd_json_ondemand.specs.Unexpected.{expected_text};

    ghost output = { λ expected. Some (expected_text expected) };

    fn fmt<W: fmt::Write>(&self, f: &mut fmt::Formatter<W>) -> fmt::Result {
        f.write_str(match self {
            Expected::Kind(ValueType::I64 | ValueType::I128) => "an integer that fits",
            Expected::Kind(ValueType::U64) => "an unsigned integer that fits",
            Expected::Kind(ValueType::U128) => "an unsigned integer",
            Expected::Kind(kind) => kind.words(),
            Expected::PlainString => "a string without an escape",
            Expected::Container => "an array or an object",
            Expected::Value => "a value",
            Expected::Key => "a key",
            Expected::Colon => "a colon",
            Expected::CommaOrBracket => "a comma or ]",
            Expected::CommaOrBrace => "a comma or }",
        })
    }
}

impl fmt::Display for Got {
    ghost use Rattle.simd_json_ondemand.specs.Unexpected.{found_in_words};

    ghost output = { λ found. Some (found_in_words found) };

    fn fmt<W: fmt::Write>(&self, f: &mut fmt::Formatter<W>) -> fmt::Result {
        f.write_str(match self {
            Got::Value(kind) => kind.words(),
            Got::Other => "no value",
            Got::End => "the end of the input",
        })
    }
}

impl fmt::Display for Unexpected {
    ghost use Rattle.simd_json_ondemand.specs.Unexpected.{unexpected_text};

    ghost output = { λ e. Some (unexpected_text e) };

    fn fmt<W: fmt::Write>(&self, f: &mut fmt::Formatter<W>) -> fmt::Result {
        let expected = self.expected;
        let got = self.got;
        let index = self.index;
        write!(f, "expected {expected}, found {got} at byte {index}")
    }
}

impl std::error::Error for Unexpected {}
