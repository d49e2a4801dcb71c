//! The typed accessors: the value as a Rust type, where it is a string or a scalar.
//!
//! Each contract is of what is at the value's structural index, so it holds for any input; a law
//! says that where a document begins there, it is what the same accessor of a tape returns.
use crate::numbers::{fraction, number_len};
use crate::strings::closing;
use crate::value::Value;
use simd_json_parts::node::{StaticNode, ValueType};
use simd_json_scalars::front::{begins_number, numeral, spells};
use simd_json_scalars::numberparse::{Numeral, integer_node, parse_long};

impl<'d> Value<'d> {
    ghost use Rattle.std.specs.Prelude.{◌≡◌, ◌==◌, Some, None, false};
    ghost use Rattle.std.specs.Prelude.{option_and_then, option_map, is_some, IfSome, MatchOption};
    ghost use Rattle.std.specs.Float.{binary64};
    ghost use Rattle.fast_float.specs.Parse.{parse_float};
    ghost use Rattle.simd_json_ondemand.specs.Docs.{text, index_of, kind};
    ghost use Rattle.simd_json_ondemand.specs.Docs.{standing, as_standing, literal, number};
    ghost use Rattle.simd_json_ondemand.specs.Numerals.{IsNumeralRead, IsNoNumber, IsLiteralLen};
    ghost use Rattle.simd_json_ondemand.specs.Standing.{IsInteger};
    ghost use Rattle.simd_json_parts.specs.Accessors as accessors;
    ghost use Rattle.simd_json_parts.specs.Views.{as_integer, value_type};
    ghost use Rattle.simd_json_parts.specs.Bytes.{byte_at, quote};

    /// Returns `Some` if the value is null, else `None`.
    #[inline(always)]
    pub fn as_null(self) -> Option<()>
        ensures { result ≡ as_standing accessors.null self.entry }
    {
        if spells(self.bytes(), b"null") {
            Some(())
        } else {
            None
        }
    }

    /// Returns the truth value, or `None`.
    #[inline(always)]
    pub fn as_bool(self) -> Option<bool>
        ensures { result ≡ as_standing accessors.bool self.entry }
    {
        let bytes = self.bytes();
        if spells(bytes, b"true") {
            Some(true)
        } else if spells(bytes, b"false") {
            Some(false)
        } else {
            None
        }
    }

    // Reads the number here, if one begins here.
    #[inline(always)]
    fn numeral(self) -> Option<Numeral>
        ensures { MatchOption result (IsNoNumber (standing self.entry))
            (IsNumeralRead (text self.entry.document) (index_of self.entry)) }
    {
        if begins_number(self.first()) {
            Some(numeral(self.bytes()))
        } else {
            None
        }
    }

    // The integer, as a node.
    #[inline(always)]
    fn integer(self) -> Option<StaticNode>
        ensures { MatchOption result (option_and_then as_integer (standing self.entry) ≡ None)
            (λ node. IsInteger node (standing self.entry)) }
    {
        match self.numeral() {
            Some(Numeral::Integer(magnitude)) => {
                Some(integer_node(self.first() == b'-', magnitude))
            }
            Some(Numeral::Long(len)) => match parse_long(self.bytes(), len) {
                Ok(node) => Some(node),
                Err(_) => None,
            },
            Some(Numeral::Decimal(_)) | Some(Numeral::Invalid(_)) | None => None,
        }
    }

    /// Returns the integer as the node that a tape has of it, or `None` if the value is no integer
    /// of 128 bits.
    #[inline(always)]
    pub fn as_integer(self) -> Option<StaticNode>
        ensures { MatchOption result (option_and_then as_integer (standing self.entry) ≡ None)
            (λ node. IsInteger node (standing self.entry)) }
    {
        self.integer()
    }

    /// Returns the integer, if it fits `i8`, else `None`.
    #[inline(always)]
    pub fn as_i8(self) -> Option<i8>
        ensures { result ≡ as_standing accessors.i8 self.entry }
    {
        i8::try_from(self.as_i64()?).ok()
    }

    /// Returns the integer, if it fits `i16`, else `None`.
    #[inline(always)]
    pub fn as_i16(self) -> Option<i16>
        ensures { result ≡ as_standing accessors.i16 self.entry }
    {
        i16::try_from(self.as_i64()?).ok()
    }

    /// Returns the integer, if it fits `i32`, else `None`.
    #[inline(always)]
    pub fn as_i32(self) -> Option<i32>
        ensures { result ≡ as_standing accessors.i32 self.entry }
    {
        i32::try_from(self.as_i64()?).ok()
    }

    /// Returns the integer, if it fits `i64`, else `None`.
    #[inline(always)]
    pub fn as_i64(self) -> Option<i64>
        ensures { result ≡ as_standing accessors.i64 self.entry }
    {
        match self.integer()? {
            StaticNode::I64(number) => Some(number),
            StaticNode::U64(number) => i64::try_from(number).ok(),
            _ => None,
        }
    }

    /// Returns the integer, if it fits `i128`, else `None`.
    #[inline(always)]
    pub fn as_i128(self) -> Option<i128>
        ensures { result ≡ as_standing accessors.i128 self.entry }
    {
        match self.integer()? {
            StaticNode::I64(number) => Some(i128::from(number)),
            StaticNode::U64(number) => Some(i128::from(number)),
            StaticNode::I128(number) => Some(number),
            StaticNode::U128(number) => i128::try_from(number).ok(),
            _ => None,
        }
    }

    /// Returns the integer, if it fits `u8`, else `None`.
    #[inline(always)]
    pub fn as_u8(self) -> Option<u8>
        ensures { result ≡ as_standing accessors.u8 self.entry }
    {
        u8::try_from(self.as_u64()?).ok()
    }

    /// Returns the integer, if it fits `u16`, else `None`.
    #[inline(always)]
    pub fn as_u16(self) -> Option<u16>
        ensures { result ≡ as_standing accessors.u16 self.entry }
    {
        u16::try_from(self.as_u64()?).ok()
    }

    /// Returns the integer, if it fits `u32`, else `None`.
    #[inline(always)]
    pub fn as_u32(self) -> Option<u32>
        ensures { result ≡ as_standing accessors.u32 self.entry }
    {
        u32::try_from(self.as_u64()?).ok()
    }

    /// Returns the integer, if it fits `u64`, else `None`.
    #[inline(always)]
    pub fn as_u64(self) -> Option<u64>
        ensures { result ≡ as_standing accessors.u64 self.entry }
    {
        match self.integer()? {
            StaticNode::I64(number) => u64::try_from(number).ok(),
            StaticNode::U64(number) => Some(number),
            _ => None,
        }
    }

    /// Returns the integer, if it is not negative, else `None`.
    #[inline(always)]
    pub fn as_u128(self) -> Option<u128>
        ensures { result ≡ as_standing accessors.u128 self.entry }
    {
        match self.integer()? {
            StaticNode::I64(number) => u128::try_from(number).ok(),
            StaticNode::U64(number) => Some(u128::from(number)),
            StaticNode::I128(number) => u128::try_from(number).ok(),
            StaticNode::U128(number) => Some(number),
            _ => None,
        }
    }

    /// Returns the integer, if it fits `usize`, else `None`.
    #[inline(always)]
    pub fn as_usize(self) -> Option<usize>
        ensures { result ≡ as_standing accessors.usize self.entry }
    {
        usize::try_from(self.as_u64()?).ok()
    }

    /// Returns the literal of a number with a fraction or an exponent, as it is written, or `None`.
    #[inline(always)]
    pub fn as_decimal(self) -> Option<&'d str>
        ensures { option_map (λ s. s.now) result ≡ as_standing accessors.decimal self.entry }
    {
        match self.numeral() {
            Some(Numeral::Decimal(len)) => {
                let literal = &self.bytes()[..len];
                Some(unsafe { str::from_utf8_unchecked(literal) })
            }
            Some(Numeral::Long(_)) => None,
            Some(Numeral::Integer(_)) => None,
            Some(Numeral::Invalid(_)) => None,
            None => None,
        }
    }

    /// Returns the `f64` nearest to the number, an integer or one with a fraction or an exponent,
    /// or `None` if the value is no number. Of two that are equally near it is the one with the
    /// even significand.
    ///
    /// A number beyond the range of `f64` gives an infinity of its sign, as `1e400` does, and one
    /// that is too near zero gives a zero of its sign.
    #[inline(always)]
    pub fn as_f64(self) -> Option<f64>
        ensures nearest { result ≡ option_and_then (parse_float binary64) (number self.entry) }
        ensures some { is_some result ≡ is_some (number self.entry) }
    {
        match self.fraction() {
            Some(number) => Some(number),
            None => fast_float::parse(self.number()?).ok(),
        }
    }

    // The float nearest to the number here, if it has a fraction and no exponent.
    #[inline(always)]
    fn fraction(self) -> Option<f64>
        ensures { IfSome result (λ x.
            option_and_then (parse_float binary64) (number self.entry) ≡ Some x) }
    {
        if begins_number(self.first()) {
            fraction(self.bytes())
        } else {
            None
        }
    }

    // The literal of the number here, if one begins here.
    #[inline(always)]
    fn number(self) -> Option<&'d [u8]>
        ensures { option_map (λ bytes. bytes.now) result ≡ number self.entry }
    {
        if begins_number(self.first()) {
            self.literal()
        } else {
            None
        }
    }

    // The bytes of the string or the scalar here, if one is.
    #[inline(always)]
    pub(crate) fn literal(self) -> Option<&'d [u8]>
        ensures { option_map (λ bytes. bytes.now) result ≡ literal self.entry }
    {
        match self.literal_len() {
            Some(len) => Some(&self.bytes()[..len]),
            None => None,
        }
    }

    // How many bytes that is.
    #[inline(always)]
    fn literal_len(self) -> Option<usize>
        ensures { IsLiteralLen (text self.entry.document) (index_of self.entry) result }
    {
        let first = self.first();
        let bytes = self.bytes();
        if first == b'"' {
            return Some(closing(bytes) + 1);
        }
        if begins_number(first) {
            return number_len(bytes);
        }
        if spells(bytes, b"null") {
            return Some(4);
        }
        if spells(bytes, b"true") {
            return Some(4);
        }
        if spells(bytes, b"false") {
            return Some(5);
        }
        None
    }

    /// Returns the kind of the value, or `None` where no value begins: a number, `true`, `false` or
    /// `null` is read for it, a string, an array or an object is not.
    pub fn value_type(self) -> Option<ValueType>
        ensures { result ≡ kind self.entry }
    {
        let first = self.first();
        if first == b'[' {
            return Some(ValueType::Array);
        }
        if first == b'{' {
            return Some(ValueType::Object);
        }
        if first == b'"' {
            return Some(ValueType::String);
        }
        self.scalar_type()
    }

    // The kind of the scalar here, which is no string.
    #[inline(always)]
    fn scalar_type(self) -> Option<ValueType>
        requires { (byte_at (text self.document) (index_of self) == quote) ≡ false }
        ensures { result ≡ option_map value_type (standing self.entry) }
    {
        if self.as_null().is_some() {
            return Some(ValueType::Null);
        }
        if self.as_bool().is_some() {
            return Some(ValueType::Bool);
        }
        if self.as_decimal().is_some() {
            return Some(ValueType::Decimal);
        }
        match self.integer() {
            Some(node) => Some(node.value_type()),
            None => None,
        }
    }
}
