//! Values that are equal (RFC 9535, section 2.3.5.2.2).
ghost use Rattle.std.specs.List.{list_all, list_any};
ghost use Rattle.std.specs.Prelude.{◌≡◌, Some, None, bytes_eq, is_some, take};
ghost use Rattle.simd_json.specs.Iterated.{elements_left, keys_left};
ghost use Rattle.simd_json.specs.Viewed.{doc, pairs};
ghost use Rattle.simd_json_parts.specs.Views.{first_with, keys};
ghost use Rattle.simd_json_path.specs.Comparisons.{both, primitive, same_at, same_lists};
ghost use Rattle.simd_json_path.specs.Comparisons.{same_primitives, same_to};
ghost use Rattle.simd_json_path.specs.Operands.{scalar_value};

use crate::scalar::Scalar;
use simd_json::tape::{Object, Value, array, object};

// Whether two values are equal, down to `levels` levels: it recurses over these.
#[cycle(same)]
pub(crate) fn same_to(left: Value<'_, '_>, right: Value<'_, '_>, levels: usize) -> bool
    ensures { result ≡ same_to levels (doc left.entry) (doc right.entry) }
{
    match Scalar::of(left) {
        Some(scalar) => is_same_scalar(scalar, right),
        None => same_containers(left, right, levels),
    }
}

fn is_same_scalar(left: Scalar<'_>, right: Value<'_, '_>) -> bool
    ensures { result ≡ both same_primitives (Some (scalar_value left.entry))
        (primitive (doc right.entry)) }
{
    match Scalar::of(right) {
        Some(right) => left.is_same(&right),
        None => false,
    }
}

#[cycle(same)]
fn same_containers(left: Value<'_, '_>, right: Value<'_, '_>, levels: usize) -> bool
    requires { primitive (doc left) ≡ None }
    ensures { result ≡ same_to levels (doc left.entry) (doc right.entry) }
{
    if levels == 0 {
        return left == right;
    }
    if let Some(left) = left.as_array() {
        let Some(right) = right.as_array() else {
            return false;
        };
        return same_elements(left.iter(), right.iter(), levels - 1);
    }
    let Some(left) = left.as_object() else {
        return false;
    };
    let Some(right) = right.as_object() else {
        return false;
    };
    same_pairs(left, right, levels - 1) && has_keys(left, right.keys())
}

#[cycle(same)]
fn same_elements(left: array::Iter<'_, '_>, right: array::Iter<'_, '_>, levels: usize) -> bool
    ensures { result
        ≡ same_lists (same_to levels) (elements_left left.entry) (elements_left right.entry) }
{
    let mut left_elements = left;
    let mut right_elements = right;
    while let Some(element) = left_elements.next() {
        let Some(other) = right_elements.next() else {
            return false;
        };
        if !same_to(element, other, levels) {
            return false;
        }
    }
    right_elements.next().is_none()
}

// Whether each key of one object has the same value in both. A key that occurs once more is passed
// over.
#[cycle(same)]
fn same_pairs(left: Object<'_, '_>, right: Object<'_, '_>, levels: usize) -> bool
    ensures { result
        ≡ list_all (same_at (same_to levels) (pairs left.entry) (pairs right.entry))
        (keys (pairs left.entry)) }
{
    let len = left.len();
    let mut keys = left.keys();
    let mut passed = 0;
    while passed < len {
        let Some(key) = keys.next() else {
            return true;
        };
        if !is_among(key, left.keys(), passed) && !same_value(left, right, key, levels) {
            return false;
        }
        passed += 1;
    }
    true
}

#[cycle(same)]
fn same_value(left: Object<'_, '_>, right: Object<'_, '_>, key: &str, levels: usize) -> bool
    ensures { result ≡ same_at (same_to levels) (pairs left.entry) (pairs right.entry) key.now }
{
    match (left.get(key), right.get(key)) {
        (Some(value), Some(other)) => same_to(value, other, levels),
        (None, None) => true,
        _ => false,
    }
}

// Whether a key is one of the first `count` keys.
fn is_among(key: &str, keys: object::Keys<'_, '_>, count: usize) -> bool
    ensures { result
        ≡ list_any (λ other. bytes_eq other key.now) (take count (keys_left keys.entry)) }
{
    let mut others = keys;
    let mut left = count;
    while left > 0 {
        let Some(other) = others.next() else {
            return false;
        };
        if other == key {
            return true;
        }
        left -= 1;
    }
    false
}

// Whether an object has all these keys.
fn has_keys(object: Object<'_, '_>, keys: object::Keys<'_, '_>) -> bool
    ensures { result
        ≡ list_all (λ key. is_some (first_with key (pairs object.entry))) (keys_left keys.entry) }
{
    let mut left = keys;
    while let Some(key) = left.next() {
        if object.get(key).is_none() {
            return false;
        }
    }
    true
}
