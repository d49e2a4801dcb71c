//! `get_T` and `try_get_T`: the first value with a key, as a `T`.
use crate::value::tape::Value;
use simd_json_parts::node::TryTypeError;

impl<'tape, 'input> Value<'tape, 'input> {
    ghost use Rattle.std.specs.Prelude.{◌≡◌, option_map};
    ghost use Rattle.simd_json_parts.specs.Views.{ok_map};
    ghost use Rattle.simd_json.specs.Viewed.{doc};
    ghost use Rattle.simd_json_parts.specs.Accessors as accessors;
    ghost use Rattle.simd_json_parts.specs.Accessors.{get_t, try_get_t};

    /// The truth value at the key, or `None`.
    pub fn get_bool(&self, k: &str) -> Option<bool>
        ensures { result ≡ get_t accessors.bool k.now (doc self.now) }
    {
        self.get(k)?.as_bool()
    }

    /// The integer at the key, if it fits `i8`, else `None`.
    pub fn get_i8(&self, k: &str) -> Option<i8>
        ensures { result ≡ get_t accessors.i8 k.now (doc self.now) }
    {
        self.get(k)?.as_i8()
    }

    /// The integer at the key, if it fits `i16`, else `None`.
    pub fn get_i16(&self, k: &str) -> Option<i16>
        ensures { result ≡ get_t accessors.i16 k.now (doc self.now) }
    {
        self.get(k)?.as_i16()
    }

    /// The integer at the key, if it fits `i32`, else `None`.
    pub fn get_i32(&self, k: &str) -> Option<i32>
        ensures { result ≡ get_t accessors.i32 k.now (doc self.now) }
    {
        self.get(k)?.as_i32()
    }

    /// The integer at the key, if it fits `i64`, else `None`.
    pub fn get_i64(&self, k: &str) -> Option<i64>
        ensures { result ≡ get_t accessors.i64 k.now (doc self.now) }
    {
        self.get(k)?.as_i64()
    }

    /// The integer at the key, if it fits `i128`, else `None`.
    pub fn get_i128(&self, k: &str) -> Option<i128>
        ensures { result ≡ get_t accessors.i128 k.now (doc self.now) }
    {
        self.get(k)?.as_i128()
    }

    /// The integer at the key, if it fits `u8`, else `None`.
    pub fn get_u8(&self, k: &str) -> Option<u8>
        ensures { result ≡ get_t accessors.u8 k.now (doc self.now) }
    {
        self.get(k)?.as_u8()
    }

    /// The integer at the key, if it fits `u16`, else `None`.
    pub fn get_u16(&self, k: &str) -> Option<u16>
        ensures { result ≡ get_t accessors.u16 k.now (doc self.now) }
    {
        self.get(k)?.as_u16()
    }

    /// The integer at the key, if it fits `u32`, else `None`.
    pub fn get_u32(&self, k: &str) -> Option<u32>
        ensures { result ≡ get_t accessors.u32 k.now (doc self.now) }
    {
        self.get(k)?.as_u32()
    }

    /// The integer at the key, if it fits `u64`, else `None`.
    pub fn get_u64(&self, k: &str) -> Option<u64>
        ensures { result ≡ get_t accessors.u64 k.now (doc self.now) }
    {
        self.get(k)?.as_u64()
    }

    /// The integer at the key, if it is not negative, else `None`.
    pub fn get_u128(&self, k: &str) -> Option<u128>
        ensures { result ≡ get_t accessors.u128 k.now (doc self.now) }
    {
        self.get(k)?.as_u128()
    }

    /// The integer at the key, if it fits `usize`, else `None`.
    pub fn get_usize(&self, k: &str) -> Option<usize>
        ensures { result ≡ get_t accessors.usize k.now (doc self.now) }
    {
        self.get(k)?.as_usize()
    }

    /// The string at the key, or `None`.
    pub fn get_str(&self, k: &str) -> Option<&'input str>
        ensures { option_map (λ s. s.now) result ≡ get_t accessors.str k.now (doc self.now) }
    {
        self.get(k)?.as_str()
    }

    /// The literal of the decimal at the key, or `None`.
    pub fn get_decimal(&self, k: &str) -> Option<&'input str>
        ensures { option_map (λ s. s.now) result ≡ get_t accessors.decimal k.now (doc self.now) }
    {
        self.get(k)?.as_decimal()
    }

    /// The truth value at the key, or an error; `None` if the key is missing.
    pub fn try_get_bool(&self, k: &str) -> Result<Option<bool>, TryTypeError>
        ensures { result ≡ try_get_t accessors.bool k.now (doc self.now) }
    {
        self.try_get(k)?
            .map(|value| value.try_as_bool())
            .transpose()
    }

    /// The integer at the key, if it fits `i8`, else an error; `None` if the key is missing.
    pub fn try_get_i8(&self, k: &str) -> Result<Option<i8>, TryTypeError>
        ensures { result ≡ try_get_t accessors.i8 k.now (doc self.now) }
    {
        self.try_get(k)?.map(|value| value.try_as_i8()).transpose()
    }

    /// The integer at the key, if it fits `i16`, else an error; `None` if the key is missing.
    pub fn try_get_i16(&self, k: &str) -> Result<Option<i16>, TryTypeError>
        ensures { result ≡ try_get_t accessors.i16 k.now (doc self.now) }
    {
        self.try_get(k)?.map(|value| value.try_as_i16()).transpose()
    }

    /// The integer at the key, if it fits `i32`, else an error; `None` if the key is missing.
    pub fn try_get_i32(&self, k: &str) -> Result<Option<i32>, TryTypeError>
        ensures { result ≡ try_get_t accessors.i32 k.now (doc self.now) }
    {
        self.try_get(k)?.map(|value| value.try_as_i32()).transpose()
    }

    /// The integer at the key, if it fits `i64`, else an error; `None` if the key is missing.
    pub fn try_get_i64(&self, k: &str) -> Result<Option<i64>, TryTypeError>
        ensures { result ≡ try_get_t accessors.i64 k.now (doc self.now) }
    {
        self.try_get(k)?.map(|value| value.try_as_i64()).transpose()
    }

    /// The integer at the key, if it fits `i128`, else an error; `None` if the key is missing.
    pub fn try_get_i128(&self, k: &str) -> Result<Option<i128>, TryTypeError>
        ensures { result ≡ try_get_t accessors.i128 k.now (doc self.now) }
    {
        self.try_get(k)?
            .map(|value| value.try_as_i128())
            .transpose()
    }

    /// The integer at the key, if it fits `u8`, else an error; `None` if the key is missing.
    pub fn try_get_u8(&self, k: &str) -> Result<Option<u8>, TryTypeError>
        ensures { result ≡ try_get_t accessors.u8 k.now (doc self.now) }
    {
        self.try_get(k)?.map(|value| value.try_as_u8()).transpose()
    }

    /// The integer at the key, if it fits `u16`, else an error; `None` if the key is missing.
    ///
    /// ```
    /// use simd_json::TryTypeError;
    /// use simd_json::tape::Value;
    ///
    /// fn port(settings: &Value<'_, '_>) -> Result<Option<u16>, TryTypeError> {
    ///     settings.try_get_u16("port")
    /// }
    /// ```
    pub fn try_get_u16(&self, k: &str) -> Result<Option<u16>, TryTypeError>
        ensures { result ≡ try_get_t accessors.u16 k.now (doc self.now) }
    {
        self.try_get(k)?.map(|value| value.try_as_u16()).transpose()
    }

    /// The integer at the key, if it fits `u32`, else an error; `None` if the key is missing.
    pub fn try_get_u32(&self, k: &str) -> Result<Option<u32>, TryTypeError>
        ensures { result ≡ try_get_t accessors.u32 k.now (doc self.now) }
    {
        self.try_get(k)?.map(|value| value.try_as_u32()).transpose()
    }

    /// The integer at the key, if it fits `u64`, else an error; `None` if the key is missing.
    pub fn try_get_u64(&self, k: &str) -> Result<Option<u64>, TryTypeError>
        ensures { result ≡ try_get_t accessors.u64 k.now (doc self.now) }
    {
        self.try_get(k)?.map(|value| value.try_as_u64()).transpose()
    }

    /// The integer at the key, if it is not negative, else an error; `None` if the key is missing.
    pub fn try_get_u128(&self, k: &str) -> Result<Option<u128>, TryTypeError>
        ensures { result ≡ try_get_t accessors.u128 k.now (doc self.now) }
    {
        self.try_get(k)?
            .map(|value| value.try_as_u128())
            .transpose()
    }

    /// The integer at the key, if it fits `usize`, else an error; `None` if the key is missing.
    pub fn try_get_usize(&self, k: &str) -> Result<Option<usize>, TryTypeError>
        ensures { result ≡ try_get_t accessors.usize k.now (doc self.now) }
    {
        self.try_get(k)?
            .map(|value| value.try_as_usize())
            .transpose()
    }

    /// The string at the key, or an error; `None` if the key is missing.
    pub fn try_get_str(&self, k: &str) -> Result<Option<&'input str>, TryTypeError>
        ensures { ok_map (option_map (λ s. s.now)) result
            ≡ try_get_t accessors.str k.now (doc self.now) }
    {
        self.try_get(k)?.map(|value| value.try_as_str()).transpose()
    }

    /// The literal of the decimal at the key, or an error; `None` if the key is missing.
    pub fn try_get_decimal(&self, k: &str) -> Result<Option<&'input str>, TryTypeError>
        ensures { ok_map (option_map (λ s. s.now)) result
            ≡ try_get_t accessors.decimal k.now (doc self.now) }
    {
        self.try_get(k)?
            .map(|value| value.try_as_decimal())
            .transpose()
    }
}
