//! A parse in place, and the nodes that it left, beside the input. Their texts are decoded in the
//! caller's input, and stay there.
ghost use Rattle.std.specs.Prelude.{◌≡◌, ◌≤◌, ◌⊎◌, length, map, take, drop, slice_get, IfSome};
ghost use Rattle.std.specs.Prelude.{IfErr, OnOk, option_and_then, option_map};
ghost use Rattle.std.specs.List.{All};
ghost use Rattle.std.specs.Vec.{vec_capacity};
ghost use Rattle.simd_json.specs.Capacities.{KeepsCapacities, capacity};
ghost use Rattle.simd_json.specs.Parsed.{IsRejected};
ghost use Rattle.simd_json_stages.specs.Capacities.{IsOutOfMemory};
ghost use Rattle.simd_json_parts.specs.Nodes.{item_of};
ghost use Rattle.simd_json_serde.specs.Ahead.{decimal_text, natural, string_text};
ghost use Rattle.simd_json_serde.specs.KeptNodes.{IsPlacedIn, IsTextAt, LiesWithin, item_in};
ghost use Rattle.simd_json_serde.specs.KeptNodes.{string_start};

use crate::kept_node::KeptNode;
use simd_json::{Buffers, Node, Result, StaticNode, keep_spans};
use std::alloc::{AllocError, Global};

// Reads a document, and keeps its nodes in place of those that the list held. After an error it
// holds any.
pub(crate) fn parse_in_place(
    input: &mut [u8],
    buffers: &mut Buffers<Global>,
    nodes: &mut Vec<KeptNode>,
) -> Result<()>
    ensures parsed { OnOk result
        (IsPlacedIn input.old buffers.old.limit input.new nodes.new.items) }
    ensures rejected { IfErr result (λ e. IsRejected input.old buffers.old.limit e
        ⊎ IsOutOfMemory e) }
    ensures memory { length input.old ≤ capacity buffers.old
        → length input.old ≤ vec_capacity nodes.old
        → IfErr result (λ e. IsOutOfMemory e → ⊥) }
    ensures kept { (buffers.new.limit ≡ buffers.old.limit)
        × KeepsCapacities buffers.old buffers.new }
    ensures nodes { vec_capacity nodes.old ≤ vec_capacity nodes.new }
{
    nodes.clear();
    if keep_spans(input, buffers, nodes)? {
        Ok(())
    } else {
        Err(AllocError.into())
    }
}

/// The nodes that a parse in place left, and the input, in which their texts lie.
#[derive(Clone, Copy, Drop)]
pub(crate) struct PlacedNodes<'n, 'i> {
    pub(crate) nodes: &'n [KeptNode],
    pub(crate) input: &'i [u8],
    ghost lie: { All (LiesWithin input.now) nodes.now },
}

impl<'n, 'i> PlacedNodes<'n, 'i> {
    pub(crate) fn new(nodes: &'n [KeptNode], input: &'i [u8]) -> PlacedNodes<'n, 'i>
        requires { All (LiesWithin input.now) nodes.now }
        ensures { (result.nodes.now ≡ nodes.now) × (result.input.now ≡ input.now) }
    {
        PlacedNodes { nodes, input }
    }

    #[inline(always)]
    pub(crate) fn len(&self) -> usize
        ensures { result ≡ length self.now.nodes.now }
    {
        self.nodes.len()
    }

    #[inline(always)]
    fn kept(&self, at: usize) -> Option<KeptNode>
        ensures found { result ≡ slice_get self.now.nodes.now at }
        ensures lies { IfSome result (LiesWithin self.now.input.now) }
    {
        self.nodes.get(at).copied()
    }

    #[inline(always)]
    pub(crate) fn get(&self, at: usize) -> Option<Node<'i>>
        ensures { option_map item_of result
            ≡ slice_get (map (item_in self.now.input.now) self.now.nodes.now) at }
    {
        match self.kept(at) {
            Some(node) => Some(node_in(self.input, node)),
            None => None,
        }
    }

    #[inline(always)]
    pub(crate) fn string(&self, at: usize) -> Option<&'i str>
        ensures { option_map (λ s. s.now) result
            ≡ option_and_then string_text
            (slice_get (map (item_in self.now.input.now) self.now.nodes.now) at) }
    {
        match self.kept(at) {
            Some(KeptNode::String { at, len }) => Some(text_at(self.input, at, len)),
            _ => None,
        }
    }

    #[inline(always)]
    pub(crate) fn natural(&self, at: usize) -> Option<u64>
        ensures { result ≡ option_and_then natural
            (slice_get (map (item_in self.now.input.now) self.now.nodes.now) at) }
    {
        match self.kept(at) {
            Some(KeptNode::U64(n)) => Some(n),
            _ => None,
        }
    }

    #[inline(always)]
    pub(crate) fn literal(&self, at: usize) -> Option<&'i str>
        ensures { option_map (λ s. s.now) result
            ≡ option_and_then decimal_text
            (slice_get (map (item_in self.now.input.now) self.now.nodes.now) at) }
    {
        match self.kept(at) {
            Some(KeptNode::Decimal { at, len }) => Some(text_at(self.input, at, len)),
            _ => None,
        }
    }

    #[inline(always)]
    pub(crate) fn start(&self, at: usize) -> Option<usize>
        ensures { result ≡ option_and_then string_start (slice_get self.now.nodes.now at) }
    {
        match self.kept(at) {
            Some(KeptNode::String { at, .. }) => Some(at),
            _ => None,
        }
    }
}

// The node with its text.
#[inline(always)]
fn node_in<'i>(input: &'i [u8], node: KeptNode) -> Node<'i>
    requires { LiesWithin input.now node }
    ensures { item_of result ≡ item_in input.now node }
{
    match node {
        KeptNode::String { at, len } => Node::String(text_at(input, at, len)),
        KeptNode::Decimal { at, len } => Node::Decimal(text_at(input, at, len)),
        KeptNode::Array { len, count } => Node::Array { len, count },
        KeptNode::Object { len, count } => Node::Object { len, count },
        KeptNode::Null => Node::Static(StaticNode::Null),
        KeptNode::Bool(b) => Node::Static(StaticNode::Bool(b)),
        KeptNode::I64(n) => Node::Static(StaticNode::I64(n)),
        KeptNode::U64(n) => Node::Static(StaticNode::U64(n)),
        KeptNode::I128(n) => Node::Static(StaticNode::I128(n)),
        KeptNode::U128(n) => Node::Static(StaticNode::U128(n)),
    }
}

// The text of `len` bytes from index `at` on.
#[inline(always)]
fn text_at<'i>(input: &'i [u8], at: usize, len: usize) -> &'i str
    requires { IsTextAt input.now at len }
    ensures { result.now ≡ take len (drop at input.now) }
{
    unsafe { str::from_utf8_unchecked(&input[at..at + len]) }
}
