//! Accessors of strings, arrays and objects, and look-up with errors.
use crate::value::tape::{Array, Object, Value};
use simd_json_parts::node::{TryTypeError, ValueType};

impl<'tape, 'input> Value<'tape, 'input> {
    ghost use Rattle.std.specs.Prelude.{◌≡◌, option_map};
    ghost use Rattle.simd_json.specs.Answered.{items, entries};
    ghost use Rattle.simd_json_parts.specs.Views.{ok_map};
    ghost use Rattle.simd_json.specs.Viewed.{doc};
    ghost use Rattle.simd_json_parts.specs.Accessors as accessors;
    ghost use Rattle.simd_json_parts.specs.Accessors.{as_t, try_as_t, get_t, try_get_t};
    ghost use Rattle.simd_json_parts.specs.Views as views;

    /// The same as [`as_str`](Value::as_str).
    pub fn into_string(self) -> Option<&'input str>
        ensures { option_map (λ s. s.now) result ≡ as_t accessors.str (doc self.entry) }
    {
        self.as_str()
    }

    /// The same as [`try_as_str`](Value::try_as_str).
    pub fn try_into_string(self) -> Result<&'input str, TryTypeError>
        ensures { ok_map (λ s. s.now) result ≡ try_as_t accessors.str (doc self.entry) }
    {
        self.try_as_str()
    }

    /// The value as an array, or an error that expects `Array`.
    pub fn try_as_array(&self) -> Result<Array<'tape, 'input>, TryTypeError>
        ensures { ok_map items result ≡ try_as_t accessors.array (doc self.now) }
    {
        self.or_mismatch(self.as_array(), ValueType::Array)
    }

    /// The value as an object, or an error that expects `Object`.
    pub fn try_as_object(&self) -> Result<Object<'tape, 'input>, TryTypeError>
        ensures { ok_map entries result ≡ try_as_t accessors.object (doc self.now) }
    {
        self.or_mismatch(self.as_object(), ValueType::Object)
    }

    /// The first value with the key, or `None` where the key is missing. Linear time, as
    /// [`get`](Value::get).
    ///
    /// Returns an error that expects `Object` where the value is not an object.
    pub fn try_get(&self, k: &str) -> Result<Option<Value<'tape, 'input>>, TryTypeError>
        ensures { ok_map (option_map doc) result ≡ views.try_get k.now (doc self.now) }
    {
        self.or_mismatch(self.as_object(), ValueType::Object)?;
        Ok(self.get(k))
    }

    /// The value at an index, or `None` where it is past the end. Linear time, as
    /// [`get_idx`](Value::get_idx).
    ///
    /// Returns an error that expects `Array` where the value is not an array.
    pub fn try_get_idx(&self, i: usize) -> Result<Option<Value<'tape, 'input>>, TryTypeError>
        ensures { ok_map (option_map doc) result ≡ views.try_get_idx i (doc self.now) }
    {
        self.or_mismatch(self.as_array(), ValueType::Array)?;
        Ok(self.get_idx(i))
    }

    /// The first value with the key as an array, or `None` where it is not one, the key is missing
    /// or the value is not an object.
    pub fn get_array(&self, k: &str) -> Option<Array<'tape, 'input>>
        ensures { option_map items result ≡ get_t accessors.array k.now (doc self.now) }
    {
        self.get(k)?.as_array()
    }

    /// The first value with the key as an object, or `None` where it is not one, the key is missing
    /// or the value is not an object.
    pub fn get_object(&self, k: &str) -> Option<Object<'tape, 'input>>
        ensures { option_map entries result ≡ get_t accessors.object k.now (doc self.now) }
    {
        self.get(k)?.as_object()
    }

    /// The first value with the key as an array, or `None` where the key is missing.
    ///
    /// Returns an error that expects `Object` where the value is not an object, and one that
    /// expects `Array` where the first value with the key is not an array.
    pub fn try_get_array(&self, k: &str) -> Result<Option<Array<'tape, 'input>>, TryTypeError>
        ensures { ok_map (option_map items) result
            ≡ try_get_t accessors.array k.now (doc self.now) }
    {
        self.try_get(k)?
            .map(|value| value.try_as_array())
            .transpose()
    }

    /// The first value with the key as an object, or `None` where the key is missing.
    ///
    /// Returns an error that expects `Object` where the value or the first value with the key is
    /// not an object.
    pub fn try_get_object(&self, k: &str) -> Result<Option<Object<'tape, 'input>>, TryTypeError>
        ensures { ok_map (option_map entries) result
            ≡ try_get_t accessors.object k.now (doc self.now) }
    {
        self.try_get(k)?
            .map(|value| value.try_as_object())
            .transpose()
    }
}
