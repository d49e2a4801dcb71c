//! The JSON Pointer (RFC 6901) of a value, found from one of its nodes.
ghost use Rattle.std.specs.Prelude.{◌≡◌, ◌≤◌, ◌<◌, ◌+◌, ◌-◌, ◌^◌, ℕ, [], ◌++◌, length, IfOk};
ghost use Rattle.std.specs.Prelude.{MatchOption, OnOk, is_some, option_and_then, option_map};
ghost use Rattle.std.specs.Prelude.{slice_get, string_bytes};
ghost use Rattle.simd_json_parts.specs.Document.{Document, Elements, Members};
ghost use Rattle.simd_json_parts.specs.Listing.{elements_listing, listing, members_listing};
ghost use Rattle.simd_json_parts.specs.Nodes.{item_of};
ghost use Rattle.simd_json_serde.specs.Ahead.{array_count, string_text};
ghost use Rattle.simd_json_serde.specs.Nodes.{items_of};
ghost use Rattle.simd_json_serde.specs.Paths.{BeginAt, IsStep, elements_way, token_character};
ghost use Rattle.simd_json_serde.specs.Paths.{index_token, key_token, members_way, way};

use crate::error::StepFault;
use crate::nodes::Nodes;
use simd_json::Node;
use std::alloc::AllocError;

// Appends the pointer to the node of a fault.
pub(crate) fn append_path(
    nodes: Nodes<'_, '_>,
    fault: &StepFault,
    path: &mut String,
) -> Result<(), AllocError>
    ensures { OnOk result ((d : Document) → items_of nodes.entry ≡ listing d → string_bytes path.new
        ≡ string_bytes path.old ++ way d fault.now.depth fault.now.node) }
{
    let mut at = 0;
    for passed in 0..fault.depth {
        let Some(child) = append_token(nodes, at, fault.node, path)? else {
            return Ok(());
        };
        at = child;
    }
    Ok(())
}

// Appends the reference token of the child that has a node, and returns its first node. Returns
// `None` where the value at `at` has no such child.
fn append_token(
    nodes: Nodes<'_, '_>,
    at: usize,
    node: usize,
    path: &mut String,
) -> Result<Option<usize>, AllocError>
    ensures { IfOk result (λ child. (d : Document) → BeginAt (items_of nodes.entry) at (listing d)
        → IsStep (items_of nodes.entry) node d at (string_bytes path.old)
        (string_bytes path.new) child) }
{
    if at >= node {
        return Ok(None);
    }
    let Some(value) = nodes.get(at) else {
        return Ok(None);
    };
    let end = after(nodes, at);
    if is_array(&value) {
        let Some((index, element)) = element_around(nodes, at + 1, end, node) else {
            return Ok(None);
        };
        append_index(path, index)?;
        return Ok(Some(element));
    }
    let Some((key, value)) = member_around(nodes, at + 1, end, node) else {
        return Ok(None);
    };
    append_key(path, key)?;
    Ok(Some(value))
}

fn is_array(node: &Node<'_>) -> bool
    ensures { result ≡ is_some (array_count (item_of node.now)) }
{
    matches!(node, Node::Array { .. })
}

// The element that has a node, of those from `first` to `end`: its index, and its first node.
fn element_around(
    nodes: Nodes<'_, '_>,
    first: usize,
    end: usize,
    node: usize,
) -> Option<(usize, usize)>
    ensures { (ds : Elements) → BeginAt (items_of nodes.entry) first (elements_listing ds)
        → end ≡ first + length (elements_listing ds) → first ≤ node
        → MatchOption result ((depth : ℕ) → elements_way ds 0 depth (node - first) ≡ [])
        (λ r. (d : Document) × BeginAt (items_of nodes.entry) r.1 (listing d)
        × ((depth : ℕ) → elements_way ds 0 depth (node - first)
        ≡ index_token r.0 ++ way d depth (node - r.1))) }
{
    let mut element = first;
    let mut index = 0;
    while element < end {
        let next = after(nodes, element);
        if node < next {
            return Some((index, element));
        }
        element = next;
        index += 1;
    }
    None
}

// The member that has a node, of those from `first` to `end`: its key, and the first node of its
// value.
fn member_around<'i>(
    nodes: Nodes<'_, 'i>,
    first: usize,
    end: usize,
    node: usize,
) -> Option<(&'i str, usize)>
    ensures { (ms : Members) → BeginAt (items_of nodes.entry) first (members_listing ms)
        → end ≡ first + length (members_listing ms) → first ≤ node
        → MatchOption result ((depth : ℕ) → members_way ms depth (node - first) ≡ [])
        (λ r. (d : Document) × BeginAt (items_of nodes.entry) r.1 (listing d)
        × ((depth : ℕ) → members_way ms depth (node - first)
        ≡ key_token r.0.now ++ way d depth (node - r.1))) }
{
    let mut key = first;
    while key < end {
        let next = after(nodes, key + 1);
        if node < next {
            let Some(text) = string_at(nodes, key) else {
                return None;
            };
            return Some((text, key + 1));
        }
        key = next;
    }
    None
}

fn string_at<'i>(nodes: Nodes<'_, 'i>, at: usize) -> Option<&'i str>
    ensures { option_map (λ s. s.now) result
        ≡ option_and_then string_text (slice_get (items_of nodes.entry) at) }
{
    match nodes.get(at) {
        Some(Node::String(text)) => Some(text),
        _ => None,
    }
}

// The node after a value.
fn after(nodes: Nodes<'_, '_>, at: usize) -> usize
    ensures value { (d : Document) → BeginAt (items_of nodes.entry) at (listing d)
        → result ≡ at + length (listing d) }
    ensures further { at < 2 ^ 64 - 1 → at < result }
    ensures later { at ≤ result }
{
    let Some(node) = nodes.get(at) else {
        return at.saturating_add(1);
    };
    let count = node.count();
    if count >= nodes.len().saturating_sub(at) {
        return at.saturating_add(1);
    }
    at + 1 + count
}

fn append_index(path: &mut String, index: usize) -> Result<(), AllocError>
    ensures { OnOk result (string_bytes path.new
        ≡ string_bytes path.old ++ index_token index) }
{
    let mut digits = itoa::Buffer::new();
    path.push('/')?;
    path.push_str(digits.format(index))
}

fn append_key(path: &mut String, key: &str) -> Result<(), AllocError>
    ensures { OnOk result (string_bytes path.new
        ≡ string_bytes path.old ++ key_token key.now) }
{
    path.push('/')?;
    for c in key.chars() {
        append_escaped(path, c)?;
    }
    Ok(())
}

// With `~0` for `~`, and `~1` for `/`.
fn append_escaped(path: &mut String, c: char) -> Result<(), AllocError>
    ensures { OnOk result (string_bytes path.new
        ≡ string_bytes path.old ++ token_character c) }
{
    match c {
        '~' => path.push_str("~0"),
        '/' => path.push_str("~1"),
        _ => path.push(c),
    }
}
