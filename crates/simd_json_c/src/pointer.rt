//! Keys and JSON Pointers (RFC 6901) in the nodes of a tape in the caller's memory.
//!
//! The nodes may be anything: an index is tested before a node or a text is read there. What is
//! proved of the result is proved for nodes that list a document.
ghost use Rattle.std.specs.Prelude.{◌≡◌, ◌≤◌, ◌<◌, ◌+◌, ◌-◌, ◌↔◌, ℕ, List, [], length, take};
ghost use Rattle.std.specs.Prelude.{IfSome, IsTrue, Option, Some, drop, option_and_then, slice_get};
ghost use Rattle.std.specs.Prelude.{true, unwrap_or};
ghost use Rattle.std.specs.Result.{result_ok};
ghost use Rattle.simd_json_parts.specs.Document.{Document, Elements, Members, elements, members};
ghost use Rattle.simd_json_parts.specs.Followed.{IsPlain, fits_64};
ghost use Rattle.simd_json_parts.specs.Listing.{elements_listing, listing, members_listing};
ghost use Rattle.simd_json_parts.specs.Pointed.{array_index, element_at, member_at, named};
ghost use Rattle.simd_json_parts.specs.Pointed.{is_pointer, pointed};
ghost use Rattle.simd_json_parts.specs.Views.{get};
ghost use Rattle.simd_json_c.specs.Placed.{AreAt, IsFound, IsValueAt, before_element};
ghost use Rattle.simd_json_c.specs.Placed.{before_get, before_member, before_named};
ghost use Rattle.simd_json_c.specs.Placed.{before_pointed, found_index, token_key};
ghost use Rattle.simd_json_c.specs.Statuses.{missing_status};

use crate::cells::Cell;
use crate::status::{INVALID_POINTER, NO_VALUE};
use simd_json_parts::pointer::{is_index, is_key, is_well_formed, next_token, read_index};

// The kinds of the two headers.
const ARRAY: u32 = 8;

const OBJECT: u32 = 9;

// What is returned if there is no such node.
const NO_NODE: usize = usize::MAX;

/// Returns the index of the value of the first pair with a key in the object at index `object`.
#[unsafe(no_mangle)]
pub extern "C" fn simd_json_get(nodes: &[Cell], text: &[u8], object: usize, key: &[u8]) -> usize
    ensures named { (d : Document) → IsValueAt nodes.now text.now object d
        → IsFound nodes.now text.now (found_index result) (object + before_get key.now d)
        (get key.now d) }
    ensures within { IfSome (found_index result) (λ i. i < length nodes.now) }
{
    index_or_none(nodes, keyed(nodes, text, object, key))
}

/// Whether the bytes are a JSON Pointer (RFC 6901, section 3): empty, or a `/` before each
/// reference token, and `0` or `1` after each `~`.
#[unsafe(no_mangle)]
pub extern "C" fn simd_json_is_pointer(pointer: &[u8]) -> bool
    ensures { result ≡ is_pointer pointer.now }
{
    let mut followed = 0;
    while let Some(token) = next_token(pointer, followed) {
        if !is_well_formed(&pointer[followed + 1..token.end]) {
            return false;
        }
        followed = token.end;
    }
    followed == pointer.len()
}

// Why a pointer names no value.
#[cold]
pub(crate) fn missing(pointer: &[u8]) -> i32
    ensures { result ≡ missing_status pointer.now }
{
    if simd_json_is_pointer(pointer) {
        NO_VALUE
    } else {
        INVALID_POINTER
    }
}

/// Returns the index of the node that a pointer names beneath the node at index `from`.
#[unsafe(no_mangle)]
pub extern "C" fn simd_json_pointer(
    nodes: &[Cell],
    text: &[u8],
    from: usize,
    pointer: &[u8],
) -> usize
    ensures named { (d : Document) → IsValueAt nodes.now text.now from d
        → IsFound nodes.now text.now (found_index result) (from + before_pointed pointer.now d)
        (result_ok (pointed pointer.now d)) }
    ensures within { IfSome (found_index result) (λ i. i < length nodes.now) }
{
    index_or_none(nodes, walk(nodes, text, from, pointer))
}

// The index of a node, or `NO_NODE`.
fn index_or_none(nodes: &[Cell], found: Option<usize>) -> usize
    ensures named { (text : List ℕ) (place : ℕ) (value : Option Document)
        → IsFound nodes.now text found place value
        → IsFound nodes.now text (found_index result) place value }
    ensures within { IfSome (found_index result) (λ i. i < length nodes.now) }
{
    match found {
        Some(found) if found < nodes.len() => found,
        _ => NO_NODE,
    }
}

// The index that a pointer leads to.
fn walk(nodes: &[Cell], text: &[u8], from: usize, pointer: &[u8]) -> Option<usize>
    ensures { (d : Document) → IsValueAt nodes.now text.now from d
        → IsFound nodes.now text.now result (from + before_pointed pointer.now d)
        (result_ok (pointed pointer.now d)) }
{
    let mut reached = from;
    let mut followed = 0;
    while let Some(token) = next_token(pointer, followed) {
        let name = &pointer[followed + 1..token.end];
        reached = child(nodes, text, reached, name, token.is_plain)?;
        followed = token.end;
    }
    if followed < pointer.len() {
        return None;
    }
    Some(reached)
}

// The index of the value of the first pair with a key in the value at index `at`.
fn keyed(nodes: &[Cell], text: &[u8], at: usize, key: &[u8]) -> Option<usize>
    ensures { (d : Document) → IsValueAt nodes.now text.now at d
        → IsFound nodes.now text.now result (at + before_get key.now d) (get key.now d) }
{
    if at >= nodes.len() {
        return None;
    }
    let node = nodes[at];
    if node.kind != OBJECT {
        return None;
    }
    member(nodes, text, at + 1, node.len as usize, key, true)
}

// The index of the value that a token names in the value at index `at`.
fn child(nodes: &[Cell], text: &[u8], at: usize, token: &[u8], is_plain: bool) -> Option<usize>
    requires { is_plain ≡ true → IsPlain token.now }
    ensures { (d : Document) → IsValueAt nodes.now text.now at d
        → IsFound nodes.now text.now result (at + before_named token.now d)
        (result_ok (named token.now d)) }
{
    if at >= nodes.len() {
        return None;
    }
    let node = nodes[at];
    if node.kind == ARRAY {
        return element(nodes, at + 1, node.len as usize, token);
    }
    if node.kind == OBJECT {
        return member(nodes, text, at + 1, node.len as usize, token, is_plain);
    }
    None
}

// The index of the element that a token names among the `len` from index `first` on.
fn element(nodes: &[Cell], first: usize, len: usize, token: &[u8]) -> Option<usize>
    ensures { (text : List ℕ) (ds : Elements) → AreAt nodes.now text first (elements_listing ds)
        → len ≡ length (elements ds) → IsFound nodes.now text result
        (first + before_element ds (unwrap_or (array_index token.now) 0))
        (result_ok (element_at ds (array_index token.now))) }
{
    let index = number_of(token)?;
    if index >= len {
        return None;
    }
    nth(nodes, first, index)
}

// The index that a token is, as `read_index` reads it.
fn number_of(token: &[u8]) -> Option<usize>
    ensures { result ≡ option_and_then fits_64 (array_index token.now) }
{
    if !is_index(token) {
        return None;
    }
    match str::from_utf8(token) {
        Ok(digits) => read_index(digits),
        Err(_) => None,
    }
}

// The index of an element, of which there are enough.
fn nth(nodes: &[Cell], first: usize, index: usize) -> Option<usize>
    ensures { (text : List ℕ) (ds : Elements) → AreAt nodes.now text first (elements_listing ds)
        → index < length (elements ds)
        → IsFound nodes.now text result (first + before_element ds index)
        (slice_get (elements ds) index) }
{
    let mut at = first;
    for passed in 0..index {
        at = after(nodes, at)?;
    }
    Some(at)
}

// The index of the value of the first of `len` pairs, from index `first` on, with the key that a
// token is: as it stands, or with its escapes decoded.
fn member(
    nodes: &[Cell],
    text: &[u8],
    first: usize,
    len: usize,
    token: &[u8],
    is_plain: bool,
) -> Option<usize>
    ensures { (ms : Members) → AreAt nodes.now text.now first (members_listing ms)
        → len ≡ length (members ms) → IsFound nodes.now text.now result
        (first + before_member ms (unwrap_or (token_key is_plain token.now) []))
        (result_ok (member_at ms (token_key is_plain token.now))) }
{
    let mut at = first;
    for passed in 0..len {
        if at >= nodes.len() {
            return None;
        }
        let key = nodes[at];
        if is_named(token, is_plain, text_at(text, key.value, key.len as usize)) {
            return Some(at + 1);
        }
        at = after(nodes, at + 1)?;
    }
    None
}

// Whether a key is the one that a token is.
#[inline(always)]
fn is_named(token: &[u8], is_plain: bool, key: &[u8]) -> bool
    ensures { IsTrue result ↔ (token_key is_plain token.now ≡ Some key.now) }
{
    if is_plain {
        token == key
    } else {
        is_key(token, key)
    }
}

// The index after the value at index `at`.
pub(crate) fn after(nodes: &[Cell], at: usize) -> Option<usize>
    ensures { (text : List ℕ) (d : Document) → IsValueAt nodes.now text at d
        → result ≡ Some (at + length (listing d)) }
{
    if at >= nodes.len() {
        return None;
    }
    let beneath = beneath(nodes[at]);
    if beneath >= (nodes.len() - at) as u64 {
        return None;
    }
    Some(at + 1 + beneath as usize)
}

// How many nodes lie beneath a node.
fn beneath(node: Cell) -> u64
    ensures header { 8 ≤ node.kind → result ≡ node.value }
    ensures other { node.kind < 8 → result ≡ 0 }
{
    if node.kind >= ARRAY { node.value } else { 0 }
}

// The `len` bytes of text from index `start` on, or none if it has not so many.
pub(crate) fn text_at(text: &[u8], start: u64, len: usize) -> &[u8]
    ensures { len ≤ length text.now - start → result.now ≡ take len (drop start text.now) }
{
    if start > text.len() as u64 || len > text.len() - start as usize {
        return &[];
    }
    let start = start as usize;
    &text[start..start + len]
}
