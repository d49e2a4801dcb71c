//! Comparisons of values.
ghost use Rattle.std.specs.Cmp.{on_per, partial_equiv_from_equiv, on_equiv};
ghost use Rattle.std.specs.Ordering.{on, int_eq};
ghost use Rattle.simd_json_theorems.proofs.Documents.Equality.{IsEquivalence-equal};
ghost use Rattle.simd_json_parts.specs.Equality.{equal};
ghost use Rattle.std.specs.Prelude.{◌≡◌, nat_eq, bytes_eq, is_some};
ghost use Rattle.std.specs.Bool.{beq};
ghost use Rattle.simd_json_parts.specs.Accessors.{as_t, eq_t};
ghost use Rattle.simd_json_parts.specs.Accessors as accessors;

mod map;

use crate::value::tape::Value;

/// Two values are equal if they have the same shape and order and the same truth values, their
/// integers the same numbers whatever their kinds, and their decimals, strings and keys the same
/// bytes.
impl PartialEq for Value<'_, '_> {
    ghost use Rattle.simd_json.specs.Viewed.{doc};

    ghost eq = { on doc equal };

    ghost laws = { on_per doc (partial_equiv_from_equiv IsEquivalence-equal) };

    fn eq(&self, other: &Self) -> bool {
        self.nodes() == other.nodes()
    }
}

/// Equality of values is an equivalence.
impl Eq for Value<'_, '_> {
    ghost use Rattle.simd_json.specs.Viewed.{doc};

    ghost laws = { on_equiv doc IsEquivalence-equal };
}

impl<'tape, 'input> Value<'tape, 'input> {
    ghost use Rattle.simd_json.specs.Viewed.{doc};

    /// Whether the value is null; `false` for any other kind.
    pub fn eq_null(&self) -> bool
        ensures { result ≡ is_some (as_t accessors.null (doc self.now)) }
    {
        self.as_null().is_some()
    }

    /// Whether the value is that truth value; `false` for any other kind.
    pub fn eq_bool(&self, other: bool) -> bool
        ensures { result ≡ eq_t beq accessors.bool other (doc self.now) }
    {
        self.as_bool() == Some(other)
    }

    /// Whether the value is that string, with its escapes decoded; `false` for any other kind.
    ///
    /// ```
    /// use simd_json::tape::Value;
    ///
    /// fn is_answer(value: &Value<'_, '_>) -> bool {
    ///     value.eq_u64(42) || value.eq_str("42")
    /// }
    /// ```
    pub fn eq_str(&self, other: &str) -> bool
        ensures { result ≡ eq_t bytes_eq accessors.str other.now (doc self.now) }
    {
        self.as_str() == Some(other)
    }

    /// Whether the value is an integer with that number, of whatever kind.
    pub fn eq_i8(&self, other: i8) -> bool
        ensures { result ≡ eq_t int_eq accessors.i8 other (doc self.now) }
    {
        self.as_i8() == Some(other)
    }

    /// Whether the value is an integer with that number, of whatever kind.
    pub fn eq_i16(&self, other: i16) -> bool
        ensures { result ≡ eq_t int_eq accessors.i16 other (doc self.now) }
    {
        self.as_i16() == Some(other)
    }

    /// Whether the value is an integer with that number, of whatever kind.
    pub fn eq_i32(&self, other: i32) -> bool
        ensures { result ≡ eq_t int_eq accessors.i32 other (doc self.now) }
    {
        self.as_i32() == Some(other)
    }

    /// Whether the value is an integer with that number, of whatever kind.
    pub fn eq_i64(&self, other: i64) -> bool
        ensures { result ≡ eq_t int_eq accessors.i64 other (doc self.now) }
    {
        self.as_i64() == Some(other)
    }

    /// Whether the value is an integer with that number, of whatever kind.
    pub fn eq_i128(&self, other: i128) -> bool
        ensures { result ≡ eq_t int_eq accessors.i128 other (doc self.now) }
    {
        self.as_i128() == Some(other)
    }

    /// Whether the value is an integer with that number, of whatever kind.
    pub fn eq_u8(&self, other: u8) -> bool
        ensures { result ≡ eq_t nat_eq accessors.u8 other (doc self.now) }
    {
        self.as_u8() == Some(other)
    }

    /// Whether the value is an integer with that number, of whatever kind.
    pub fn eq_u16(&self, other: u16) -> bool
        ensures { result ≡ eq_t nat_eq accessors.u16 other (doc self.now) }
    {
        self.as_u16() == Some(other)
    }

    /// Whether the value is an integer with that number, of whatever kind.
    pub fn eq_u32(&self, other: u32) -> bool
        ensures { result ≡ eq_t nat_eq accessors.u32 other (doc self.now) }
    {
        self.as_u32() == Some(other)
    }

    /// Whether the value is an integer with that number, of whatever kind.
    pub fn eq_u64(&self, other: u64) -> bool
        ensures { result ≡ eq_t nat_eq accessors.u64 other (doc self.now) }
    {
        self.as_u64() == Some(other)
    }

    /// Whether the value is an integer with that number, of whatever kind.
    pub fn eq_u128(&self, other: u128) -> bool
        ensures { result ≡ eq_t nat_eq accessors.u128 other (doc self.now) }
    {
        self.as_u128() == Some(other)
    }

    /// Whether the value is an integer with that number, of whatever kind.
    pub fn eq_usize(&self, other: usize) -> bool
        ensures { result ≡ eq_t nat_eq accessors.usize other (doc self.now) }
    {
        self.as_usize() == Some(other)
    }
}
