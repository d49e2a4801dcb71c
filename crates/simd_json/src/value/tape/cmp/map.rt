//! Comparison of an object with a map.
ghost use Rattle.std.specs.HashMap.{get_by_text, values, hash_map_len};
ghost use Rattle.std.specs.Prelude.{◌≡◌, Bool};
ghost use Rattle.simd_json.specs.MapCompared.{MayCompare, Says};
ghost use Rattle.simd_json.specs.Viewed.{pairs};
ghost use Rattle.simd_json_parts.specs.Document.{Document};
ghost use Rattle.simd_json_parts.specs.MapEquality.{are_in, has_distinct_names, equals_map};

use crate::value::tape::{Object, Value};
use std::collections::HashMap;
use std::hash::BuildHasher;

impl<'tape, 'input> Value<'tape, 'input> {
    ghost use Rattle.simd_json.specs.MapCompared.{MayCompareTo, Says};
    ghost use Rattle.simd_json.specs.Viewed.{doc};

    /// Whether the value is an object with the map's keys and equal values: it has as many pairs as
    /// the map, its keys are distinct, each is in the map, and `same` returns `true` for the map's
    /// value and the object's.
    ///
    /// Allocates nothing. Each key is looked up once. If all of that holds, each key is compared
    /// with those after it, so time grows with the square of the number of pairs; keys that differ
    /// in length are not read.
    ///
    /// ```
    /// use simd_json::tape::Value;
    /// use std::collections::HashMap;
    ///
    /// fn has_wanted(value: &Value, wanted: &HashMap<String, u64>) -> bool {
    ///     value.eq_map(wanted, |number, value| value.eq_u64(*number))
    /// }
    /// ```
    pub fn eq_map<T, S: BuildHasher, F: Fn(&T, &Value<'_, 'input>) -> bool>(
        &self,
        other: &HashMap<String, T, S>,
        same: F,
    ) -> bool
        requires { MayCompareTo F.Fn same (values other.now) (doc self.now) }
        ensures { (says : T → Document → Bool) → Says F.Fn same says
            → result ≡ equals_map (get_by_text other.now) (hash_map_len other.now) says
            (doc self.now) }
    {
        let Some(object) = self.as_object() else {
            return false;
        };
        if object.len() != other.len() || !is_in(object, other, same) {
            return false;
        }
        has_distinct_keys(object)
    }
}

// Whether each key is in the map, with the same value.
fn is_in<'tape, 'input, T, S: BuildHasher, F: Fn(&T, &Value<'_, 'input>) -> bool>(
    object: Object<'tape, 'input>,
    map: &HashMap<String, T, S>,
    same: F,
) -> bool
    requires { MayCompare F.Fn same (values map.now) (pairs object) }
    ensures { (says : T → Document → Bool) → Says F.Fn same says
        → result ≡ are_in (get_by_text map.now) says (pairs object.entry) }
{
    let mut left = object;
    while let Some((key, value, others)) = left.split_first() {
        let Some(wanted) = map.get(key) else {
            return false;
        };
        if !ask(&same, wanted, &value) {
            return false;
        }
        left = others;
    }
    true
}

// Calls `same`. A function of its own, so that the call's condition can be stated.
fn ask<'input, T, F: Fn(&T, &Value<'_, 'input>) -> bool>(
    same: &F,
    wanted: &T,
    value: &Value<'_, 'input>,
) -> bool
    requires { F.pre same.now wanted value }
    ensures { F.post same.now wanted.entry value.entry result }
{
    same(wanted, value)
}

// Whether no key occurs twice.
fn has_distinct_keys(object: Object<'_, '_>) -> bool
    ensures { result ≡ has_distinct_names (pairs object.entry) }
{
    let mut left = object;
    while let Some((key, _, others)) = left.split_first() {
        if others.get(key).is_some() {
            return false;
        }
        left = others;
    }
    true
}
