//! Tokens: scalars, keys and line breaks.
ghost use Rattle.simd_json_parts.specs.Bytes.{comma, left_brace, left_bracket, quote, space};
ghost use Rattle.simd_json_parts.specs.Nodes.{item_of, string_item};
ghost use Rattle.simd_json_parts.specs.Printed.{quoted, new_line, line, after_name};
ghost use Rattle.std.specs.Prelude.{◌≡◌, ◌++◌, ◌∷◌, ◌*◌, ℕ, List, [], cond, replicate};
ghost use Rattle.simd_json_print.specs.Layout.{leaf_text};
ghost use Rattle.simd_json_print.specs.Texts.{Adds, AddsSome};

use crate::text::{Target, Text};
use simd_json_parts::node::Node;

// A line feed and the spaces of 16 open containers.
const LINE: &[u8] = b"\n                                ";

/// Puts a scalar, or an empty container. Not inlined: the walk is smaller so.
#[inline(never)]
pub(crate) fn put_leaf<T: Target, const SIZE: usize>(out: &mut Text<'_, T, SIZE>, node: &Node<'_>)
    ensures { Adds T.state out.old out.new (leaf_text (item_of node.now)) }
{
    if let Node::String(string) = *node {
        out.put_string(b"\"", string, b"\"");
    } else if let Node::Static(value) = *node {
        out.put_static(b"", value, b"");
    } else if let Node::Decimal(literal) = *node {
        out.put_between(b"", literal.as_bytes(), b"");
    } else if let Node::Array { .. } = *node {
        out.put(b"[]");
    } else {
        out.put(b"{}");
    }
}

/// Puts the key of a member with the bracket or comma before it, in pretty text a new line, and the
/// colon after it. Compact text takes one call.
#[inline(never)]
pub(crate) fn put_name<T: Target, const SIZE: usize, const PRETTY: bool>(
    out: &mut Text<'_, T, SIZE>,
    is_first: bool,
    depth: usize,
    node: &Node<'_>,
)
    ensures kept { AddsSome T.state out.old out.new }
    ensures given { (k : List ℕ) → item_of node.now ≡ string_item k
        → Adds T.state out.old out.new
        (cond is_first left_brace comma ∷ (line PRETTY depth ++ (quoted k ++ after_name PRETTY))) }
{
    if let Node::String(name) = *node {
        let front = front_of(is_first, true);
        if PRETTY {
            out.put(&front[..1]);
            put_new_line(out, depth);
            out.put_string(b"\"", name, b"\": ");
        } else {
            out.put_string(front, name, b"\":");
        }
    }
}

/// Puts a leaf of an array with the bracket or comma before it. Compact text takes one call.
#[inline(never)]
pub(crate) fn put_element<T: Target, const SIZE: usize, const PRETTY: bool>(
    out: &mut Text<'_, T, SIZE>,
    is_first: bool,
    depth: usize,
    node: &Node<'_>,
)
    ensures { Adds T.state out.old out.new
        (cond is_first left_bracket comma ∷ (line PRETTY depth ++ leaf_text (item_of node.now))) }
{
    let front = front_of(is_first, false);
    if PRETTY {
        out.put(&front[..1]);
        put_new_line(out, depth);
        return put_leaf(out, node);
    }
    if let Node::String(string) = *node {
        out.put_string(front, string, b"\"");
    } else if let Node::Decimal(literal) = *node {
        out.put_between(&front[..1], literal.as_bytes(), b"");
    } else if let Node::Static(value) = *node {
        out.put_static(&front[..1], value, b"");
    } else if let Node::Array { .. } = *node {
        out.put_between(&front[..1], b"[]", b"");
    } else {
        out.put_between(&front[..1], b"{}", b"");
    }
}

/// The text before a member or an element, and a quote: the bracket before the first one, a comma
/// before others.
#[inline(always)]
pub(crate) fn front_of(is_first: bool, is_object: bool) -> &'static [u8]
    ensures { result.now
        ≡ cond is_first (cond is_object left_brace left_bracket) comma ∷ quote ∷ [] }
{
    if !is_first {
        b",\""
    } else if is_object {
        b"{\""
    } else {
        b"[\""
    }
}

/// Puts a line feed, and two spaces for each open container; one call if fewer than 16 are open.
/// Not inlined, as [`put_leaf`].
#[inline(never)]
pub(crate) fn put_new_line<T: Target, const SIZE: usize>(out: &mut Text<'_, T, SIZE>, depth: usize)
    ensures { Adds T.state out.old out.new (new_line depth) }
{
    out.put(&LINE[..1 + 2 * (depth % 16)]);
    if depth >= 16 {
        put_spaces(out, depth / 16);
    }
}

// The spaces of `times` times 16 containers.
#[inline(never)]
fn put_spaces<T: Target, const SIZE: usize>(out: &mut Text<'_, T, SIZE>, times: usize)
    ensures { Adds T.state out.old out.new
        (replicate (32 * times) space) }
{
    for _ in 0..times {
        out.put(&LINE[1..]);
    }
}
