//! The typed accessors: the value as a Rust type. [`Value`] has their table.

mod containers;
mod keyed;

use crate::value::tape::Value;
use simd_json_parts::node::{Node, StaticNode, TryTypeError, ValueType};

impl<'tape, 'input> Value<'tape, 'input> {
    ghost use Rattle.std.specs.Prelude.{◌≡◌, ok_or, option_map};
    ghost use Rattle.simd_json.specs.Viewed.{doc};
    ghost use Rattle.simd_json_parts.specs.Accessors as accessors;
    ghost use Rattle.simd_json_parts.specs.Accessors.{as_t, try_as_t};
    ghost use Rattle.simd_json_parts.specs.Views.{mismatch, ok_map};

    /// `Some` if the value is null, else `None`.
    pub fn as_null(&self) -> Option<()>
        ensures { result ≡ as_t accessors.null (doc self.now) }
    {
        match self.node() {
            Node::Static(StaticNode::Null) => Some(()),
            _ => None,
        }
    }

    /// The truth value, or `None`.
    pub fn as_bool(&self) -> Option<bool>
        ensures { result ≡ as_t accessors.bool (doc self.now) }
    {
        match self.node() {
            Node::Static(StaticNode::Bool(value)) => Some(value),
            _ => None,
        }
    }

    /// The integer, if it fits `i8`, else `None`.
    pub fn as_i8(&self) -> Option<i8>
        ensures { result ≡ as_t accessors.i8 (doc self.now) }
    {
        i8::try_from(self.as_i128()?).ok()
    }

    /// The integer, if it fits `i16`, else `None`.
    pub fn as_i16(&self) -> Option<i16>
        ensures { result ≡ as_t accessors.i16 (doc self.now) }
    {
        i16::try_from(self.as_i128()?).ok()
    }

    /// The integer, if it fits `i32`, else `None`.
    pub fn as_i32(&self) -> Option<i32>
        ensures { result ≡ as_t accessors.i32 (doc self.now) }
    {
        i32::try_from(self.as_i128()?).ok()
    }

    /// The integer, if it fits `i64`, else `None`.
    pub fn as_i64(&self) -> Option<i64>
        ensures { result ≡ as_t accessors.i64 (doc self.now) }
    {
        i64::try_from(self.as_i128()?).ok()
    }

    /// The integer, if it fits `i128`, else `None`.
    pub fn as_i128(&self) -> Option<i128>
        ensures { result ≡ as_t accessors.i128 (doc self.now) }
    {
        match self.node() {
            Node::Static(StaticNode::I64(number)) => Some(i128::from(number)),
            Node::Static(StaticNode::U64(number)) => Some(i128::from(number)),
            Node::Static(StaticNode::I128(number)) => Some(number),
            Node::Static(StaticNode::U128(number)) => i128::try_from(number).ok(),
            _ => None,
        }
    }

    /// The integer, if it fits `u8`, else `None`.
    pub fn as_u8(&self) -> Option<u8>
        ensures { result ≡ as_t accessors.u8 (doc self.now) }
    {
        u8::try_from(self.as_i128()?).ok()
    }

    /// The integer, if it fits `u16`, else `None`.
    pub fn as_u16(&self) -> Option<u16>
        ensures { result ≡ as_t accessors.u16 (doc self.now) }
    {
        u16::try_from(self.as_i128()?).ok()
    }

    /// The integer, if it fits `u32`, else `None`.
    pub fn as_u32(&self) -> Option<u32>
        ensures { result ≡ as_t accessors.u32 (doc self.now) }
    {
        u32::try_from(self.as_i128()?).ok()
    }

    /// The integer, if it fits `u64`, else `None`.
    ///
    /// ```
    /// use simd_json::tape::Value;
    ///
    /// fn total(numbers: &Value<'_, '_>) -> Option<u64> {
    ///     let array = numbers.as_array()?;
    ///     let mut total = 0u64;
    ///     for value in &array {
    ///         total = total.checked_add(value.as_u64()?)?;
    ///     }
    ///     Some(total)
    /// }
    /// ```
    pub fn as_u64(&self) -> Option<u64>
        ensures { result ≡ as_t accessors.u64 (doc self.now) }
    {
        u64::try_from(self.as_i128()?).ok()
    }

    /// The integer, if it is not negative, else `None`.
    pub fn as_u128(&self) -> Option<u128>
        ensures { result ≡ as_t accessors.u128 (doc self.now) }
    {
        match self.node() {
            Node::Static(StaticNode::I64(number)) => u128::try_from(number).ok(),
            Node::Static(StaticNode::U64(number)) => Some(u128::from(number)),
            Node::Static(StaticNode::I128(number)) => u128::try_from(number).ok(),
            Node::Static(StaticNode::U128(number)) => Some(number),
            _ => None,
        }
    }

    /// The integer, if it fits `usize`, else `None`.
    pub fn as_usize(&self) -> Option<usize>
        ensures { result ≡ as_t accessors.usize (doc self.now) }
    {
        usize::try_from(self.as_i128()?).ok()
    }

    /// The string, which lives as long as the input, or `None`.
    pub fn as_str(&self) -> Option<&'input str>
        ensures { option_map (λ s. s.now) result ≡ as_t accessors.str (doc self.now) }
    {
        match self.node() {
            Node::String(value) => Some(value),
            _ => None,
        }
    }

    /// The literal of a number with a fraction or an exponent, as it is written, or `None`.
    pub fn as_decimal(&self) -> Option<&'input str>
        ensures { option_map (λ s. s.now) result ≡ as_t accessors.decimal (doc self.now) }
    {
        match self.node() {
            Node::Decimal(literal) => Some(literal),
            _ => None,
        }
    }

    // The result of an accessor, with the error that names the kind that it expects.
    fn or_mismatch<T>(&self, answer: Option<T>, expected: ValueType) -> Result<T, TryTypeError>
        ensures { result ≡ ok_or answer (mismatch expected (doc self.now)) }
    {
        match answer {
            Some(value) => Ok(value),
            None => Err(TryTypeError {
                expected,
                got: self.value_type(),
            }),
        }
    }

    /// `Ok` if the value is null, else an error that expects `Null`.
    pub fn try_as_null(&self) -> Result<(), TryTypeError>
        ensures { result ≡ try_as_t accessors.null (doc self.now) }
    {
        self.or_mismatch(self.as_null(), ValueType::Null)
    }

    /// The truth value, or an error that expects `Bool`.
    pub fn try_as_bool(&self) -> Result<bool, TryTypeError>
        ensures { result ≡ try_as_t accessors.bool (doc self.now) }
    {
        self.or_mismatch(self.as_bool(), ValueType::Bool)
    }

    /// The integer, if it fits `i8`, else an error that expects `I64`.
    pub fn try_as_i8(&self) -> Result<i8, TryTypeError>
        ensures { result ≡ try_as_t accessors.i8 (doc self.now) }
    {
        self.or_mismatch(self.as_i8(), ValueType::I64)
    }

    /// The integer, if it fits `i16`, else an error that expects `I64`.
    pub fn try_as_i16(&self) -> Result<i16, TryTypeError>
        ensures { result ≡ try_as_t accessors.i16 (doc self.now) }
    {
        self.or_mismatch(self.as_i16(), ValueType::I64)
    }

    /// The integer, if it fits `i32`, else an error that expects `I64`.
    pub fn try_as_i32(&self) -> Result<i32, TryTypeError>
        ensures { result ≡ try_as_t accessors.i32 (doc self.now) }
    {
        self.or_mismatch(self.as_i32(), ValueType::I64)
    }

    /// The integer, if it fits `i64`, else an error that expects `I64`.
    pub fn try_as_i64(&self) -> Result<i64, TryTypeError>
        ensures { result ≡ try_as_t accessors.i64 (doc self.now) }
    {
        self.or_mismatch(self.as_i64(), ValueType::I64)
    }

    /// The integer, if it fits `i128`, else an error that expects `I128`.
    pub fn try_as_i128(&self) -> Result<i128, TryTypeError>
        ensures { result ≡ try_as_t accessors.i128 (doc self.now) }
    {
        self.or_mismatch(self.as_i128(), ValueType::I128)
    }

    /// The integer, if it fits `u8`, else an error that expects `U64`.
    pub fn try_as_u8(&self) -> Result<u8, TryTypeError>
        ensures { result ≡ try_as_t accessors.u8 (doc self.now) }
    {
        self.or_mismatch(self.as_u8(), ValueType::U64)
    }

    /// The integer, if it fits `u16`, else an error that expects `U64`.
    pub fn try_as_u16(&self) -> Result<u16, TryTypeError>
        ensures { result ≡ try_as_t accessors.u16 (doc self.now) }
    {
        self.or_mismatch(self.as_u16(), ValueType::U64)
    }

    /// The integer, if it fits `u32`, else an error that expects `U64`.
    pub fn try_as_u32(&self) -> Result<u32, TryTypeError>
        ensures { result ≡ try_as_t accessors.u32 (doc self.now) }
    {
        self.or_mismatch(self.as_u32(), ValueType::U64)
    }

    /// The integer, if it fits `u64`, else an error that expects `U64`.
    pub fn try_as_u64(&self) -> Result<u64, TryTypeError>
        ensures { result ≡ try_as_t accessors.u64 (doc self.now) }
    {
        self.or_mismatch(self.as_u64(), ValueType::U64)
    }

    /// The integer, if it is not negative, else an error that expects `U128`.
    pub fn try_as_u128(&self) -> Result<u128, TryTypeError>
        ensures { result ≡ try_as_t accessors.u128 (doc self.now) }
    {
        self.or_mismatch(self.as_u128(), ValueType::U128)
    }

    /// The integer, if it fits `usize`, else an error that expects `U64`.
    pub fn try_as_usize(&self) -> Result<usize, TryTypeError>
        ensures { result ≡ try_as_t accessors.usize (doc self.now) }
    {
        self.or_mismatch(self.as_usize(), ValueType::U64)
    }

    /// The string, or an error that expects `String`.
    pub fn try_as_str(&self) -> Result<&'input str, TryTypeError>
        ensures { ok_map (λ s. s.now) result ≡ try_as_t accessors.str (doc self.now) }
    {
        self.or_mismatch(self.as_str(), ValueType::String)
    }

    /// The literal of a decimal, or an error that expects `Decimal`.
    pub fn try_as_decimal(&self) -> Result<&'input str, TryTypeError>
        ensures { ok_map (λ s. s.now) result ≡ try_as_t accessors.decimal (doc self.now) }
    {
        self.or_mismatch(self.as_decimal(), ValueType::Decimal)
    }
}
