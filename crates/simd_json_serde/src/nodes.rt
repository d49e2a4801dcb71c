//! The nodes of a document: those of a tape, or those that a parse in place left.
ghost use Rattle.std.specs.Prelude.{◌≡◌, length, slice_get, option_and_then, option_map};
ghost use Rattle.simd_json_parts.specs.Nodes.{item_of};
ghost use Rattle.simd_json_serde.specs.Ahead.{decimal_text, natural, string_text};
ghost use Rattle.simd_json_serde.specs.Nodes.{items_of, start_of};

use crate::in_place::PlacedNodes;
use simd_json::{Node, StaticNode};

/// Where nodes are read from.
#[derive(Clone, Copy, Drop)]
pub(crate) enum Nodes<'n, 'i> {
    // of a tape
    Listed(&'n [Node<'i>]),
    // of a parse in place
    Placed(PlacedNodes<'n, 'i>),
}

impl<'n, 'i> Nodes<'n, 'i> {
    /// How many there are.
    #[inline(always)]
    pub(crate) fn len(&self) -> usize
        ensures { result ≡ length (items_of self.now) }
    {
        match self {
            Nodes::Listed(nodes) => nodes.len(),
            Nodes::Placed(placed) => placed.len(),
        }
    }

    /// The node with an index.
    #[inline(always)]
    pub(crate) fn get(&self, at: usize) -> Option<Node<'i>>
        ensures { option_map item_of result ≡ slice_get (items_of self.now) at }
    {
        match self {
            Nodes::Listed(nodes) => nodes.get(at).copied(),
            Nodes::Placed(placed) => placed.get(at),
        }
    }

    /// The text of the node with an index, if that is a string. Such calls, one for each kind that
    /// is common, build no [`Node`]: to build and match one takes longer than the rest of a step.
    #[inline(always)]
    pub(crate) fn string(&self, at: usize) -> Option<&'i str>
        ensures { option_map (λ s. s.now) result
            ≡ option_and_then string_text (slice_get (items_of self.now) at) }
    {
        match self {
            Nodes::Listed(nodes) => match nodes.get(at) {
                Some(Node::String(text)) => Some(*text),
                _ => None,
            },
            Nodes::Placed(placed) => placed.string(at),
        }
    }

    /// The integer of the node with an index, if that is one without a sign and of 64 bits.
    #[inline(always)]
    pub(crate) fn natural(&self, at: usize) -> Option<u64>
        ensures { result ≡ option_and_then natural (slice_get (items_of self.now) at) }
    {
        match self {
            Nodes::Listed(nodes) => match nodes.get(at) {
                Some(Node::Static(StaticNode::U64(n))) => Some(*n),
                _ => None,
            },
            Nodes::Placed(placed) => placed.natural(at),
        }
    }

    /// The literal of the node with an index, if that is a decimal.
    #[inline(always)]
    pub(crate) fn literal(&self, at: usize) -> Option<&'i str>
        ensures { option_map (λ s. s.now) result
            ≡ option_and_then decimal_text (slice_get (items_of self.now) at) }
    {
        match self {
            Nodes::Listed(nodes) => match nodes.get(at) {
                Some(Node::Decimal(literal)) => Some(*literal),
                _ => None,
            },
            Nodes::Placed(placed) => placed.literal(at),
        }
    }

    /// Where the text of a string begins in the input, if it lies there.
    #[inline(always)]
    pub(crate) fn start(&self, at: usize) -> Option<usize>
        ensures { result ≡ start_of self.now at }
    {
        match self {
            Nodes::Listed(_) => None,
            Nodes::Placed(placed) => placed.start(at),
        }
    }
}
