//! The one walk over the nodes of a document that prints it.
//!
//! It keeps a level for each container that is open, in a slice, and stops at a container for which
//! there is no level. [`put_value`] then prints that container, with levels of its own on the
//! stack.
ghost use Rattle.std.specs.Prelude.{◌≡◌, ◌+◌, ◌-◌, ◌<◌, ◌≤◌, ◌⊎◌, ◌^◌, List, IsFalse, IsTrue};
ghost use Rattle.std.specs.Prelude.{get_or, length, map, set, []};
ghost use Rattle.simd_json_parts.specs.Nodes.{item_of};
ghost use Rattle.simd_json_parts.specs.Printed.{text};
ghost use Rattle.simd_json_print.specs.Frames.{IsAtValue, IsBetween, IsDeep, IsFurther, IsNext};
ghost use Rattle.simd_json_print.specs.Frames.{is_object_item, no_level};
ghost use Rattle.simd_json_print.specs.Texts.{IsPrinted, Leads};
ghost use Rattle.simd_json_print.specs.declared.document.walk.Level.{Level};

use crate::document::scalar::{front_of, put_element, put_leaf, put_name, put_new_line};
use crate::text::{Target, Text};
use simd_json_parts::node::Node;

/// For how many open containers a call has levels of its own, on the stack.
pub(crate) const FEW: usize = 64;

/// What is kept of an open container.
#[derive(Clone, Copy, Drop)]
pub struct Level {
    // how many nodes are left when it ends
    end: u32,
    is_object: bool,
}

impl Level {
    ghost use Rattle.std.specs.Prelude.{◌≡◌};

    /// A level of no container, to fill a list with.
    pub const EMPTY: Level = Level {
        end: 0,
        is_object: false,
    };

    // How many nodes are left when the container ends.
    #[inline(always)]
    fn end(self) -> usize
        ensures { result ≡ self.end }
    {
        self.end as usize
    }
}

/// Nodes that are not printed yet.
#[derive(Clone, Copy)]
pub(crate) struct Unprinted<'tape, 'input> {
    pub(crate) nodes: &'tape [Node<'input>],
}

impl Unprinted<'_, '_> {
    // None of them.
    fn none(self) -> Self
        ensures { result.nodes.now ≡ [] }
    {
        let (nodes, _) = self.nodes.split_at(0);
        Unprinted { nodes }
    }
}

/// Puts the value of the nodes, inside `depth` open containers, with levels on the stack. An open
/// container takes about 11 bytes of stack, and no memory.
#[cycle(value)]
pub(crate) fn put_value<T: Target, const SIZE: usize, const PRETTY: bool>(
    out: &mut Text<'_, T, SIZE>,
    nodes: &[Node<'_>],
    depth: usize,
)
    requires { depth + length nodes.now < 2 ^ 64 }
    ensures { IsPrinted T.state out.old out.new (map item_of nodes.now) (λ d. text PRETTY d depth) }
{
    let mut few = [Level::EMPTY; FEW];
    put_value_within::<T, SIZE, PRETTY>(out, nodes, depth, &mut few);
}

/// Puts the value of the nodes, inside `depth` open containers, with these levels. What is nested
/// deeper is put by [`put_value`].
#[cycle(value)]
pub(crate) fn put_value_within<T: Target, const SIZE: usize, const PRETTY: bool>(
    out: &mut Text<'_, T, SIZE>,
    nodes: &[Node<'_>],
    depth: usize,
    levels: &mut [Level],
)
    requires { depth + length nodes.now < 2 ^ 64 }
    ensures { IsPrinted T.state out.old out.new (map item_of nodes.now) (λ d. text PRETTY d depth) }
{
    if levels.is_empty() {
        return put_value::<T, SIZE, PRETTY>(out, nodes, depth);
    }
    let mut used = 0;
    let mut value = Unprinted { nodes };
    while !value.nodes.is_empty() {
        let deep = put_from::<T, SIZE, PRETTY>(out, levels, &mut used, depth, value);
        if deep.nodes.is_empty() {
            return;
        }
        let (first, rest) = deep.nodes.split_at(1);
        let count = first[0].count().min(rest.len());
        let (nodes, others) = deep.nodes.split_at(count + 1);
        put_value::<T, SIZE, PRETTY>(out, nodes, depth + used);
        let left = Unprinted { nodes: others };
        value = put_up_to_value::<T, SIZE, PRETTY>(out, levels, &mut used, depth, left, false);
    }
}

/// Puts a value and all that follows it, up to the end or to a container for which there is no
/// level. Returns the nodes from that container on. The first `used` levels are in use.
pub(crate) fn put_from<'tape, 'input, T: Target, const SIZE: usize, const PRETTY: bool>(
    out: &mut Text<'_, T, SIZE>,
    levels: &mut [Level],
    used: &mut usize,
    depth: usize,
    value: Unprinted<'tape, 'input>,
) -> Unprinted<'tape, 'input>
    requires nested { used.old ≤ length levels.old }
    requires room { depth + used.old + length value.nodes.now < 2 ^ 64 }
    ensures further { IsFurther levels.old used.old (length value.entry.nodes.now)
        levels.new used.new (length result.nodes.now) }
    ensures deep { IsDeep levels.new used.new (map item_of result.nodes.now) }
    ensures put { Leads T.state out.old out.new
        (IsAtValue PRETTY depth levels.old used.old (map item_of value.entry.nodes.now))
        (IsNext PRETTY depth levels.new used.new (map item_of result.nodes.now)) }
{
    let mut value = value;
    while !value.nodes.is_empty() {
        let (first, rest) = value.nodes.split_at(1);
        let count = first[0].count().min(rest.len());
        if count == 0 {
            put_leaf(out, &first[0]);
        } else if !begin(levels, used, &first[0], rest.len() - count) {
            return value;
        }
        let left = Unprinted { nodes: rest };
        value = put_up_to_value::<T, SIZE, PRETTY>(out, levels, used, depth, left, count != 0);
    }
    value
}

// Takes the next level for a container after which `end` nodes are left. Returns whether there is
// one; else nothing changes.
#[inline(always)]
fn begin(levels: &mut [Level], used: &mut usize, header: &Node<'_>, end: usize) -> bool
    requires { used.old ≤ length levels.old }
    ensures begun { IsTrue result → (used.old < length levels.old) × (used.new ≡ used.old + 1)
        × (levels.new ≡ set levels.old used.old
        (record { end = end; is_object = is_object_item (item_of header.now) })) }
    ensures kept { IsFalse result → (used.new ≡ used.old) × (levels.new ≡ levels.old)
        × ((length levels.old ≤ used.old) ⊎ (2 ^ 32 ≤ end)) }
{
    if *used == levels.len() || end > u32::MAX as usize {
        return false;
    }
    let is_object = matches!(header, Node::Object { .. });
    levels[*used] = Level {
        end: end as u32,
        is_object,
    };
    *used += 1;
    true
}

/// Puts the text before the next value, with the ends of containers before it. Returns the nodes
/// from the value on, and none at the end.
#[inline(always)]
pub(crate) fn put_up_to_value<'tape, 'input, T: Target, const SIZE: usize, const PRETTY: bool>(
    out: &mut Text<'_, T, SIZE>,
    levels: &[Level],
    used: &mut usize,
    depth: usize,
    nodes: Unprinted<'tape, 'input>,
    is_first: bool,
) -> Unprinted<'tape, 'input>
    requires nested { used.old ≤ length levels.now }
    requires room { depth + used.old < 2 ^ 64 }
    ensures nested { used.new ≤ used.old }
    ensures within { length result.nodes.now ≤ length nodes.entry.nodes.now }
    ensures put { Leads T.state out.old out.new
        (IsBetween PRETTY depth levels.now used.old is_first (map item_of nodes.entry.nodes.now))
        (IsNext PRETTY depth levels.now used.new (map item_of result.nodes.now)) }
{
    let mut left = nodes;
    let mut is_first = is_first;
    while *used > 0 {
        if out.has_failed() {
            return left.none();
        }
        let innermost = levels[*used - 1];
        let (others, is_still_first) = put_elements::<T, SIZE, PRETTY>(
            out, innermost, *used, is_first, depth, left,
        );
        if others.nodes.len() > innermost.end() {
            return put_before::<T, SIZE, PRETTY>(
                out,
                innermost,
                *used,
                is_still_first,
                depth,
                others,
            );
        }
        *used -= 1;
        if PRETTY {
            put_new_line(out, depth + *used);
        }
        out.put(if innermost.is_object { b"}" } else { b"]" });
        left = others;
        is_first = false;
    }
    left.none()
}

// Puts the elements of an array up to its end or the first container that is not empty. Returns the
// nodes that are left, and whether nothing of the array is printed.
#[inline(always)]
fn put_elements<'tape, 'input, T: Target, const SIZE: usize, const PRETTY: bool>(
    out: &mut Text<'_, T, SIZE>,
    innermost: Level,
    used: usize,
    is_first: bool,
    depth: usize,
    nodes: Unprinted<'tape, 'input>,
) -> (Unprinted<'tape, 'input>, bool)
    requires nested { 0 < used }
    requires room { depth + used < 2 ^ 64 }
    ensures within { length result.0.nodes.now ≤ length nodes.entry.nodes.now }
    ensures put { (levels : List Level) → get_or levels (used - 1) no_level ≡ innermost
        → Leads T.state out.old out.new
        (IsBetween PRETTY depth levels used is_first (map item_of nodes.entry.nodes.now))
        (IsBetween PRETTY depth levels used result.1 (map item_of result.0.nodes.now)) }
{
    if innermost.is_object {
        return (nodes, is_first);
    }
    let mut left = nodes;
    let mut is_still_first = is_first;
    while left.nodes.len() > innermost.end() {
        let (first, nodes) = left.nodes.split_at(1);
        if first[0].count() != 0 {
            return (left, is_still_first);
        }
        put_element::<T, SIZE, PRETTY>(out, is_still_first, depth + used, &first[0]);
        left = Unprinted { nodes };
        is_still_first = false;
    }
    (left, is_still_first)
}

// Puts the text before a value: a bracket or a comma, in pretty text a new line, and in an object
// the key. Returns the nodes from the value on.
#[inline(always)]
fn put_before<'tape, 'input, T: Target, const SIZE: usize, const PRETTY: bool>(
    out: &mut Text<'_, T, SIZE>,
    innermost: Level,
    used: usize,
    is_first: bool,
    depth: usize,
    left: Unprinted<'tape, 'input>,
) -> Unprinted<'tape, 'input>
    requires nested { 0 < used }
    requires room { depth + used < 2 ^ 64 }
    requires some { innermost.end < length left.nodes.now }
    ensures within { length result.nodes.now ≤ length left.entry.nodes.now }
    ensures put { (levels : List Level) → get_or levels (used - 1) no_level ≡ innermost
        → Leads T.state out.old out.new
        (IsBetween PRETTY depth levels used is_first (map item_of left.entry.nodes.now))
        (IsAtValue PRETTY depth levels used (map item_of result.nodes.now)) }
{
    if innermost.is_object {
        let (names, values) = left.nodes.split_at(1);
        put_name::<T, SIZE, PRETTY>(out, is_first, depth + used, &names[0]);
        return Unprinted { nodes: values };
    }
    out.put(&front_of(is_first, false)[..1]);
    if PRETTY {
        put_new_line(out, depth + used);
    }
    left
}
