//! A number, and the order of numbers.
ghost use Rattle.std.specs.Ordering.{int_cmp};
ghost use Rattle.std.specs.Prelude.{◌≡◌};
ghost use Rattle.simd_json_number.specs.Magnitudes.{value};
ghost use Rattle.simd_json_number.specs.Numbers.{compare};
ghost use Rattle.simd_json_parts.specs.Integers.{number_of};

use crate::literal::LiteralParts;
use crate::magnitude::compare_magnitudes;
use itoa::Buffer;
use std::cmp::Ordering;

/// A number of a JSON text.
#[derive(Clone, Copy, Debug)]
pub enum Number<'text> {
    /// An integer.
    Integer {
        /// Whether it is below zero. That of 0 does not matter.
        is_negative: bool,
        /// Its distance from zero.
        magnitude: u128,
    },
    /// A literal. In a text that is none, what is neither a digit, nor the first `e`, `E` or point,
    /// nor a `-` at the beginning or after the `e`, is skipped.
    Literal(&'text str),
}

impl<'text> Number<'text> {
    ghost use Rattle.simd_json_number.specs.Magnitudes.{value};
    ghost use Rattle.simd_json_number.specs.Meanings.{number};
    ghost use Rattle.simd_json_number.specs.Numbers.{compare};

    /// How the values of two numbers compare.
    pub fn compare(&self, other: &Number<'_>) -> Ordering
        ensures { result ≡ compare (number self.now) (number other.now) }
    {
        if let Number::Integer {
            is_negative,
            magnitude,
        } = self
            && let Number::Integer {
                is_negative: other_is_negative,
                magnitude: other_magnitude,
            } = other
        {
            return compare_integers(
                *is_negative,
                *magnitude,
                *other_is_negative,
                *other_magnitude,
            );
        }
        let mut buffer = Buffer::new();
        let mut other_buffer = Buffer::new();
        compare_literals(
            &self.literal(&mut buffer),
            &other.literal(&mut other_buffer),
        )
    }

    // The literal, where the buffer has room for that of an integer.
    fn literal<'all>(&'all self, buffer: &'all mut Buffer) -> LiteralParts<'all>
        ensures { value result ≡ number self.now }
    {
        match self {
            Number::Integer {
                is_negative,
                magnitude,
            } => LiteralParts::of(buffer.format(*magnitude).as_bytes()).with_sign(*is_negative),
            Number::Literal(text) => LiteralParts::of(text.as_bytes()),
        }
    }
}

fn compare_integers(
    is_negative: bool,
    magnitude: u128,
    other_is_negative: bool,
    other_magnitude: u128,
) -> Ordering
    ensures { result
        ≡ int_cmp (number_of is_negative magnitude) (number_of other_is_negative other_magnitude) }
{
    match (
        is_negative && magnitude > 0,
        other_is_negative && other_magnitude > 0,
    ) {
        (false, false) => magnitude.cmp(&other_magnitude),
        (false, true) => Ordering::Greater,
        (true, false) => Ordering::Less,
        (true, true) => other_magnitude.cmp(&magnitude),
    }
}

fn compare_literals(left: &LiteralParts<'_>, right: &LiteralParts<'_>) -> Ordering
    ensures { result ≡ compare (value left.now) (value right.now) }
{
    match (left.is_negative, right.is_negative) {
        (false, false) => compare_magnitudes(left, right),
        (false, true) => Ordering::Greater,
        (true, false) => Ordering::Less,
        (true, true) => compare_magnitudes(right, left),
    }
}
