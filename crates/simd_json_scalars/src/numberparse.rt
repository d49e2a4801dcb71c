//! Reads one number (RFC 8259, section 6).
ghost use Rattle.std.specs.Prelude.{◌≡◌, ℕ, List, drop};
ghost use Rattle.std.specs.Char.{is_ascii_digit};
ghost use Rattle.simd_json_scalars.specs.NumberRead.{IsNumberAt};
ghost use Rattle.simd_json_scalars.specs.NumeralRead.{IsNumeralAt};

use crate::numberparse::plain::{int_end, parse_plainly};
use crate::numberparse::short::parse_longer;
use simd_json_parts::charutils::byte_or_space;
use simd_json_parts::node::StaticNode;

mod integers;
mod look;
mod plain;
mod short;

pub use integers::{integer_node, parse_long};
pub use short::{digit_word, digits_len, parse_short, value_of_digits};

/// The front of some bytes, read as a number.
#[derive(Clone, Copy, Debug, Drop, PartialEq, Eq)]
pub enum Number {
    /// An integer, as a node, and the length of its literal.
    Integer(StaticNode, usize),
    /// A number with a fraction or an exponent: the length of its literal.
    Decimal(usize),
    /// Not a number, or an integer out of range: the offset of the error from the first byte.
    Invalid(usize),
}

/// A number without its sign, small enough for two registers. Integers of more than 19 bytes are
/// left to [`parse_long`], so that others need no 128-bit arithmetic.
#[derive(Clone, Copy, Debug, Drop, PartialEq, Eq)]
pub enum Numeral {
    /// An integer of this magnitude, which 64 bits hold; [`integer_node`] makes its node.
    Integer(u64),
    /// A longer integer, in range or not: the length of its literal, which [`parse_long`] reads.
    Long(usize),
    /// A number with a fraction or an exponent: the length of its literal.
    Decimal(usize),
    /// Not a number, or an integer out of range: the offset of the error from the first byte.
    Invalid(usize),
}

/// Whether the byte is a decimal digit.
pub fn is_integer(c: u8) -> bool
    ensures { result ≡ is_ascii_digit c }
{
    c.is_ascii_digit()
}

/// Reads the number at the front of `bytes`, the rest of an input. A number ends before a
/// structural character, whitespace or the end.
pub fn parse_number(bytes: &[u8]) -> Number
    ensures { (b : List ℕ) (i : ℕ) → drop i b ≡ bytes.now → IsNumberAt b i result }
{
    match parse_numeral(bytes) {
        Numeral::Integer(magnitude) => {
            let minus = byte_or_space(bytes, 0) == b'-';
            let len = int_end(bytes, minus as usize);
            Number::Integer(integer_node(minus, magnitude), len)
        }
        Numeral::Long(len) => match parse_long(bytes, len) {
            Ok(node) => Number::Integer(node, len),
            Err(offset) => Number::Invalid(offset),
        },
        Numeral::Decimal(len) => Number::Decimal(len),
        Numeral::Invalid(offset) => Number::Invalid(offset),
    }
}

/// Reads the same number, without an integer's node and length: a caller that continues at the next
/// token needs neither.
#[cold]
#[inline(never)]
pub fn parse_numeral(bytes: &[u8]) -> Numeral
    ensures { (b : List ℕ) (i : ℕ) → drop i b ≡ bytes.now → IsNumeralAt b i result }
{
    if bytes.len() < 32 {
        return parse_plainly(bytes);
    }
    parse_longer(bytes)
}
