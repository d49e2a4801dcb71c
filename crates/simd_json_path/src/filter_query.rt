//! The nodes that a filter's query selects (RFC 9535, section 2.3.5), without frames.
ghost use Rattle.std.specs.Prelude.{◌≡◌, ◌-◌, ◌^◌, ◌∷◌, [], length, min, option_map};
ghost use Rattle.simd_json.specs.Viewed.{doc};
ghost use Rattle.simd_json_path.specs.Filters.{any, only, queried};
ghost use Rattle.simd_json_path.specs.Nodes.{by_all, chosen_by, followed, nodes};
ghost use Rattle.simd_json_path.specs.SliceNodes.{children_left};
ghost use Rattle.simd_json_path.specs.NthNode.{nth_document, nth_of};

use crate::children::Children;
use crate::filter::{follow, selected_node};
use crate::selector_nodes::chosen;
use simd_json::tape::Value;
use simd_json_query::{Choice, Query, Segment, Step};
use std::ops::ControlFlow;

// Whether a query selects a node.
pub(crate) fn exists(query: &Query<'_>, root: Value<'_, '_>, node: Value<'_, '_>) -> bool
    ensures { result ≡ any (queried (doc root.entry) query.now (doc node.entry)) }
{
    let Some(start) = selected_node(&query.start, root, node) else {
        return false;
    };
    if query.segments.is_empty() {
        return true;
    }
    nth_from(query.segments, start, 0).is_break()
}

// How many nodes a query selects, or `usize::MAX` where there are more.
pub(crate) fn count(query: &Query<'_>, root: Value<'_, '_>, node: Value<'_, '_>) -> usize
    ensures { result
        ≡ min (length (queried (doc root.entry) query.now (doc node.entry))) (2 ^ 64 - 1) }
{
    match nth(query, root, node, usize::MAX) {
        ControlFlow::Break(_) => usize::MAX,
        ControlFlow::Continue(left) => usize::MAX - left,
    }
}

// The only node that a query selects.
pub(crate) fn only<'tape, 'input>(
    query: &Query<'_>,
    root: Value<'tape, 'input>,
    node: Value<'tape, 'input>,
) -> Option<Value<'tape, 'input>>
    ensures { option_map doc result
        ≡ only (queried (doc root.entry) query.now (doc node.entry)) }
{
    let first = nth(query, root, node, 0).break_value()?;
    if nth(query, root, node, 1).is_break() {
        return None;
    }
    Some(first)
}

// The node at an index of those that a query selects, or how much the index exceeds their number.
fn nth<'tape, 'input>(
    query: &Query<'_>,
    root: Value<'tape, 'input>,
    node: Value<'tape, 'input>,
    index: usize,
) -> ControlFlow<Value<'tape, 'input>, usize>
    ensures { nth_document result
        ≡ nth_of (queried (doc root.entry) query.now (doc node.entry)) index }
{
    match selected_node(&query.start, root, node) {
        Some(start) => nth_from(query.segments, start, index),
        None => ControlFlow::Continue(index),
    }
}

// The same of those that segments select of a node. It recurses over the segments.
#[cycle(nth)]
fn nth_from<'tape, 'input>(
    segments: &[Segment<'_, Choice<'_>>],
    node: Value<'tape, 'input>,
    index: usize,
) -> ControlFlow<Value<'tape, 'input>, usize>
    ensures { nth_document result
        ≡ nth_of (nodes chosen_by segments.now (doc node.entry ∷ [])) index }
{
    let Some((first, others)) = segments.split_first() else {
        return match index.checked_sub(1) {
            Some(left) => ControlFlow::Continue(left),
            None => ControlFlow::Break(node),
        };
    };
    if !first.is_descendant {
        return nth_by(first.selectors, first.steps, others, node, index);
    }
    let mut containers = node.containers();
    let mut left = index;
    while let Some(container) = containers.next() {
        left = nth_by(first.selectors, first.steps, others, container, left)?;
    }
    ControlFlow::Continue(left)
}

// The same of those that they select where steps lead from what selectors select of a node.
#[cycle(nth)]
fn nth_by<'tape, 'input>(
    selectors: &[Choice<'_>],
    steps: &[Step<'_>],
    others: &[Segment<'_, Choice<'_>>],
    node: Value<'tape, 'input>,
    index: usize,
) -> ControlFlow<Value<'tape, 'input>, usize>
    ensures { nth_document result
        ≡ nth_of (nodes chosen_by others.now
        (followed steps.now (by_all chosen_by selectors.now (doc node.entry)))) index }
{
    let mut left = index;
    for choice in selectors {
        left = nth_among(others, chosen(choice, node), steps, left)?;
    }
    ControlFlow::Continue(left)
}

// The same of those that they select where steps lead from children.
#[cycle(nth)]
fn nth_among<'tape, 'input>(
    segments: &[Segment<'_, Choice<'_>>],
    children: Children<'tape, 'input>,
    steps: &[Step<'_>],
    index: usize,
) -> ControlFlow<Value<'tape, 'input>, usize>
    ensures { nth_document result
        ≡ nth_of (nodes chosen_by segments.now
        (followed steps.now (children_left children.entry))) index }
{
    let mut children = children;
    let mut left = index;
    while let Some(child) = children.next() {
        if let Some(reached) = follow(steps, child) {
            left = nth_from(segments, reached, left)?;
        }
    }
    ControlFlow::Continue(left)
}
