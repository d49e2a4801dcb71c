//! The values that a query selects, each with where it is (RFC 9535, section 2.7).
ghost use Rattle.std.specs.Prelude.{◌≡◌, ◌++◌, ◌∷◌, [], OnOk, flat_map, map};
ghost use Rattle.simd_json.specs.Viewed.{doc};
ghost use Rattle.simd_json_path.specs.Locations.{along, below, by_segment, located_from};
ghost use Rattle.simd_json_path.specs.Locations.{nodes_from};
ghost use Rattle.simd_json_path.specs.PlacedNodes.{found, node_of, placed_nodes_left, texts};
ghost use Rattle.simd_json_path.specs.PlacedNodes.{way_of};

use crate::location::{Location, Node, Place, append_location};
use crate::placed::{PlacedChildren, PlacedNodes, step_to};
use simd_json::tape::Value;
use simd_json_query::{Segment, Step};
use std::alloc::AllocError;

/// A value that a query selects, and where it is.
#[derive(Debug, Drop)]
pub struct Located<'tape, 'input> {
    /// The normalized path: `$['orders'][0]['price']`. As a query it selects the value alone,
    /// unless an object on the way has two members of one name.
    pub path: String,
    /// The value.
    pub value: Value<'tape, 'input>,
}

// What segments select of a node, in a query that is applied to `root`. It recurses over segments
// and steps, and in a descendant segment over what is nested in the node.
#[cycle(locate)]
pub(crate) fn locate_from<'path, 'tape, 'input>(
    segments: &'path [Segment<'path>],
    root: Value<'tape, 'input>,
    node: &Node<'_, 'path, 'tape, 'input>,
    located: &mut Vec<Located<'tape, 'input>>,
) -> Result<(), AllocError>
    ensures { OnOk result (found located.new.items ≡ found located.old.items
        ++ texts (located_from (doc root.entry) segments.now (node_of node.now))) }
{
    let Some((first, others)) = segments.split_first() else {
        return push(node, located);
    };
    if first.is_descendant {
        // The recursion ends, since their number is bounded.
        let _nodes = node.value.nodes();
        return locate_beneath(first, others, root, node, located);
    }
    locate_by(first, others, root, node, located)
}

// What a segment's selectors and then other segments select of a node and of all nodes beneath it.
#[cycle(locate)]
fn locate_beneath<'path, 'tape, 'input>(
    segment: &'path Segment<'path>,
    others: &'path [Segment<'path>],
    root: Value<'tape, 'input>,
    node: &Node<'_, 'path, 'tape, 'input>,
    located: &mut Vec<Located<'tape, 'input>>,
) -> Result<(), AllocError>
    ensures { OnOk result (found located.new.items ≡ found located.old.items
        ++ texts (flat_map
        (by_segment (doc root.entry) (located_from (doc root.entry) others.now) segment.now)
        (nodes_from (way_of node.now.location) (doc node.now.value)))) }
{
    locate_by(segment, others, root, node, located)?;
    let mut children: PlacedChildren<'path, 'tape, 'input> = PlacedChildren::of(node.value);
    'children: while let Some((place, value)) = children.next() {
        let child = Node {
            location: Location::Child(&node.location, place),
            value,
        };
        locate_beneath(segment, others, root, &child, located)?;
    }
    Ok(())
}

// The same of a node alone.
#[cycle(locate)]
fn locate_by<'path, 'tape, 'input>(
    segment: &'path Segment<'path>,
    others: &'path [Segment<'path>],
    root: Value<'tape, 'input>,
    node: &Node<'_, 'path, 'tape, 'input>,
    located: &mut Vec<Located<'tape, 'input>>,
) -> Result<(), AllocError>
    ensures { OnOk result (found located.new.items ≡ found located.old.items
        ++ texts (by_segment (doc root.entry) (located_from (doc root.entry) others.now)
        segment.now (node_of node.now))) }
{
    for selector in segment.selectors {
        let nodes = PlacedNodes::new(selector, node.value);
        locate_among(nodes, segment.steps, others, root, node, located)?;
    }
    Ok(())
}

// What other segments select where steps lead from children of a node.
#[cycle(locate)]
fn locate_among<'path, 'tape, 'input>(
    nodes: PlacedNodes<'path, 'tape, 'input>,
    steps: &'path [Step<'path>],
    others: &'path [Segment<'path>],
    root: Value<'tape, 'input>,
    node: &Node<'_, 'path, 'tape, 'input>,
    located: &mut Vec<Located<'tape, 'input>>,
) -> Result<(), AllocError>
    ensures { OnOk result (found located.new.items ≡ found located.old.items
        ++ texts (flat_map (along (located_from (doc root.entry) others.now) steps.now)
        (map (below (node_of node.now)) (placed_nodes_left (doc root.entry) nodes.entry)))) }
{
    let mut nodes = nodes;
    'nodes: while let Some((place, value)) = nodes.next(root) {
        let child = Node {
            location: Location::Child(&node.location, place),
            value,
        };
        locate_along(steps, others, root, &child, located)?;
    }
    Ok(())
}

// What other segments select where steps lead from a node.
#[cycle(locate)]
pub(crate) fn locate_along<'path, 'tape, 'input>(
    steps: &'path [Step<'path>],
    others: &'path [Segment<'path>],
    root: Value<'tape, 'input>,
    node: &Node<'_, 'path, 'tape, 'input>,
    located: &mut Vec<Located<'tape, 'input>>,
) -> Result<(), AllocError>
    ensures { OnOk result (found located.new.items ≡ found located.old.items
        ++ texts (along (located_from (doc root.entry) others.now) steps.now (node_of node.now))) }
{
    let Some((first, rest)) = steps.split_first() else {
        return locate_from(others, root, node, located);
    };
    let Some((place, value)) = step_to(first, node.value) else {
        return Ok(());
    };
    let child = Node {
        location: Location::Child(&node.location, place),
        value,
    };
    locate_along(rest, others, root, &child, located)
}

// Adds a node.
fn push<'tape, 'input>(
    node: &Node<'_, '_, 'tape, 'input>,
    located: &mut Vec<Located<'tape, 'input>>,
) -> Result<(), AllocError>
    ensures { OnOk result (found located.new.items
        ≡ found located.old.items ++ texts (node_of node.now ∷ [])) }
{
    let mut path = String::new(*located.allocator());
    append_location(&mut path, &node.location)?;
    located.push(Located {
        path,
        value: node.value,
    })?;
    Ok(())
}
