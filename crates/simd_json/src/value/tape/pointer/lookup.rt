//! The value that a reference token names in another (RFC 6901, section 4): a member by its key, an
//! element by its index.
ghost use Rattle.std.specs.Prelude.{◌≡◌, ◌-◌, ◌↔◌, IsTrue, Some, length, option_map, true};
ghost use Rattle.std.specs.List.{count_by};
ghost use Rattle.std.specs.Result.{result_ok};
ghost use Rattle.simd_json_parts.specs.Followed.{IsPlain, is_tilde};
ghost use Rattle.simd_json_parts.specs.Pointed.{array_index, element_at, member_at, named};
ghost use Rattle.simd_json_parts.specs.Pointed.{unescaped};
ghost use Rattle.simd_json.specs.Viewed.{doc, docs, pairs};

use crate::value::tape::{Array, Object, Value};
use simd_json_parts::pointer::{is_key, key_len, read_index};

// The value that a token names in another.
#[inline(always)]
pub(super) fn child<'tape, 'input>(
    value: Value<'tape, 'input>,
    token: &str,
    is_plain: bool,
) -> Option<Value<'tape, 'input>>
    requires { is_plain ≡ true → IsPlain token.now }
    ensures { option_map doc result ≡ result_ok (named token.now (doc value.entry)) }
{
    if let Some(array) = value.as_array() {
        return element(array, token);
    }
    member(value.as_object()?, token, is_plain)
}

// The value of the first pair with the key that a token is.
#[inline(always)]
fn member<'tape, 'input>(
    object: Object<'tape, 'input>,
    token: &str,
    is_plain: bool,
) -> Option<Value<'tape, 'input>>
    requires { is_plain ≡ true → IsPlain token.now }
    ensures { option_map doc result
        ≡ result_ok (member_at (pairs object.entry) (unescaped token.now)) }
{
    if is_plain {
        return object.find(token);
    }
    let bytes = token.as_bytes();
    let len = key_len(bytes);
    for (key, value) in object.iter() {
        if is_named(bytes, len, key.as_bytes()) {
            return Some(value);
        }
    }
    None
}

// Whether the token, decoded, is the key. Only keys of the right length are compared.
#[inline(always)]
fn is_named(token: &[u8], len: usize, key: &[u8]) -> bool
    requires { len ≡ length token.now - count_by is_tilde token.now }
    ensures { IsTrue result ↔ (unescaped token.now ≡ Some key.now) }
{
    key.len() == len && is_key(token, key)
}

// The element whose index the token is.
#[inline(always)]
fn element<'tape, 'input>(array: Array<'tape, 'input>, token: &str) -> Option<Value<'tape, 'input>>
    ensures { option_map doc result
        ≡ result_ok (element_at (docs array.entry) (array_index token.now)) }
{
    array.get(read_index(token)?)
}
