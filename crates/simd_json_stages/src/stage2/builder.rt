//! What the machine reads and writes: an input, and a destination for the nodes of its document.
//!
//! The machine names a text by its place in the input, and the builder shares it and hands it on:
//! so how strings and numbers are kept is the builder's choice alone.
ghost use Rattle.std.specs.Prelude.{◌≡◌, ◌<◌, ◌≤◌, ◌+◌, ◌^◌, true, false, ℕ, List, [], ◌∷◌};
ghost use Rattle.std.specs.Prelude.{◌++◌, length, map, get_or, slice_set, take, drop, Err};
ghost use Rattle.std.specs.Prelude.{MatchResult, vec_capacity};
ghost use Rattle.simd_json_parts.specs.Bytes.{byte_at};
ghost use Rattle.simd_json_parts.specs.Nodes.{Item, item_of, static_item, decimal_item};
ghost use Rattle.simd_json_parts.specs.StringAt.{string_at, escape_fault};
ghost use Rattle.simd_json_stages.specs.Building.{header_of, is_header};
ghost use Rattle.simd_json_stages.specs.Inputs.{HasBytes, HasInteger, HasQuoted, HasString};
ghost use Rattle.simd_json_stages.specs.Inputs.{IsStringBefore, Reads};
ghost use Rattle.simd_json_stages.specs.Placed.{is_long};
ghost use Rattle.simd_json_stages.specs.Put.{IsStringPut};
ghost use Rattle.simd_json_stages.specs.ReadsLater.{reads-kept};

use super::input::Unread;
use super::stack::Container;
use simd_json_parts::node::{Node, StaticNode};
use simd_json_scalars::stringparse::BadEscape;
use std::alloc::Allocator;
use std::result::Result;

// An input that is read from the front, and the nodes that were made of it. All indexes are of
// bytes of the whole input. `TapeBuilder` keeps the nodes, and `SpanBuilder` hands them to a sink.
pub(crate) trait Builder {
    // All bytes of an input from an index on can be read.
    ghost reads: { List ℕ → Self → ℕ → Type 0 };

    // The nodes that were appended, in order.
    ghost held_nodes: { Self → List Item };

    // How many nodes it can hold in all.
    ghost node_room: { Self → ℕ };

    // The type of the names of what it borrows.
    ghost Lender: { Type 0 };

    // What it borrows, by name. No call changes that, so that after a parse the owner of the
    // borrowed memory knows what was written there.
    ghost lender: { Self → Self.Lender };

    // The byte at index i.
    fn byte(&self, i: usize) -> u8
        requires { HasBytes (λ b. reads b self.now) i 1 }
        ensures { (b : List ℕ) → reads b self.now i → result ≡ byte_at b i };

    // All bytes from index i on.
    fn from(&self, i: usize) -> &[u8]
        requires { HasBytes (λ b. reads b self.now) i 0 }
        ensures bytes { (b : List ℕ) → reads b self.now i → result.now ≡ drop i b }
        ensures fits { i + length result.now < 2 ^ 64 };

    // How many nodes were appended.
    fn len(&self) -> usize
        ensures { result ≡ length (held_nodes self.now) };

    // Appends the string whose opening quote has index `at`, and which is closed before index
    // `end`, or returns its first invalid escape.
    fn push_string(&mut self, at: usize, end: usize) -> Result<(), BadEscape>
        requires room { length (held_nodes self.old) < node_room self.old }
        requires quoted { HasQuoted (λ b. reads b self.old) at end }
        ensures lender { lender self.new ≡ lender self.old }
        ensures room { node_room self.new ≡ node_room self.old }
        ensures put { (b : List ℕ) → reads b self.old at → IsStringBefore b at end
            → MatchResult result
            (λ _. IsStringPut b at (held_nodes self.old) (held_nodes self.new) (reads b self.new))
            (λ bad. string_at b at ≡ Err (escape_fault (at + bad.offset) bad.letter)) };

    // Appends a number as its literal, the `len` bytes from index `at` on.
    fn push_decimal(&mut self, at: usize, len: usize)
        requires room { length (held_nodes self.old) < node_room self.old }
        requires literal { HasString (λ b. reads b self.old) at len }
        ensures lender { lender self.new ≡ lender self.old }
        ensures room { node_room self.new ≡ node_room self.old }
        ensures put { (b : List ℕ) → reads b self.old at → held_nodes self.new
            ≡ held_nodes self.old ++ decimal_item (take len (drop at b)) ∷ [] }
        ensures reads { (b : List ℕ) → reads b self.old at → reads b self.new (at + len) };

    // Appends an integer of any length, whose literal is the `len` bytes from index `at` on.
    fn push_integer(&mut self, at: usize, len: usize, value: StaticNode)
        requires room { length (held_nodes self.old) < node_room self.old }
        requires literal { HasInteger (λ b. reads b self.old) at len value }
        ensures lender { lender self.new ≡ lender self.old }
        ensures room { node_room self.new ≡ node_room self.old }
        ensures put { held_nodes self.new ≡ held_nodes self.old ++ static_item value ∷ [] }
        ensures reads { (b : List ℕ) → reads b self.old at → reads b self.new (at + len) };

    // Appends a null, a boolean or an integer of 64 bits.
    fn push_static(&mut self, value: StaticNode)
        requires room { length (held_nodes self.old) < node_room self.old }
        requires short { is_long value ≡ false }
        ensures lender { lender self.new ≡ lender self.old }
        ensures room { node_room self.new ≡ node_room self.old }
        ensures put { held_nodes self.new ≡ held_nodes self.old ++ static_item value ∷ [] }
        ensures reads { (b : List ℕ) (i : ℕ) → reads b self.old i → reads b self.new i };

    // Appends the header of a container, with counts of 0.
    fn push_header(&mut self, container: Container)
        requires { length (held_nodes self.old) < node_room self.old }
        ensures lender { lender self.new ≡ lender self.old }
        ensures room { node_room self.new ≡ node_room self.old }
        ensures put { held_nodes self.new ≡ held_nodes self.old ++ header_of container 0 0 ∷ [] }
        ensures reads { (b : List ℕ) (i : ℕ) → reads b self.old i → reads b self.new i };

    // Sets the counts of the header at index `header` among the nodes.
    fn set_counts(&mut self, header: usize, container: Container, len: usize, count: usize)
        requires within { header < length (held_nodes self.old) }
        requires header { is_header (get_or (held_nodes self.old) header
            (static_item StaticNode.Null)) ≡ true }
        ensures lender { lender self.new ≡ lender self.old }
        ensures room { node_room self.new ≡ node_room self.old }
        ensures patched { held_nodes self.new
            ≡ slice_set (held_nodes self.old) header (header_of container len count) }
        ensures reads { (b : List ℕ) (i : ℕ) → reads b self.old i → reads b self.new i };

    // What can be read from one index on can be from a later one.
    ghost later: { (b : List ℕ) (s : Self) (i j : ℕ) → reads b s i → i ≤ j → reads b s j };
}

/// What a list of nodes holds: a [`Node`], or a form of the caller's own that is made of one.
pub trait FromNode<'de>: Copy {
    // The node that it was made of.
    ghost item: { Self → Item };

    /// Makes it of a node.
    fn from_node(node: Node<'de>) -> Self
        ensures { item result ≡ item_of node.entry };
}

impl<'de> FromNode<'de> for Node<'de> {
    ghost item = { item_of };

    #[inline(always)]
    fn from_node(node: Node<'de>) -> Node<'de> {
        node
    }
}

// The tape that is built: a list of nodes, with room for as many as it has capacity for, and the
// input, which strings and numbers share. No call allocates.
#[derive(Drop)]
pub(super) struct TapeBuilder<'n, 'i, 'm, 'de, N, A: Allocator> {
    pub(super) input: &'i mut Unread<'m, 'de>,
    pub(super) list: &'n mut Vec<N, A>,
}

impl<'n, 'i, 'm, 'de, N: FromNode<'de>, A: Allocator> Builder
    for TapeBuilder<'n, 'i, 'm, 'de, N, A> {
    ghost reads = { λ b s i. Reads b s.input.now i };

    ghost held_nodes = { λ s. map N.item s.list.now.items };

    ghost node_room = { λ s. vec_capacity s.list.now };

    ghost Lender = { ℕ };

    ghost lender = { λ s. s.list.ghost_name };

    #[inline(always)]
    fn byte(&self, i: usize) -> u8 {
        if self.input.is_plain {
            return self.input.shared[i];
        }
        self.input.rest[i - self.input.at]
    }

    #[inline(always)]
    fn from(&self, i: usize) -> &[u8] {
        self.input.from(i)
    }

    #[inline(always)]
    fn len(&self) -> usize {
        self.list.len()
    }

    #[inline(always)]
    fn push_string(&mut self, at: usize, end: usize) -> Result<(), BadEscape> {
        let may_have_escape = self.input.may_have_escape(at, end);
        if !may_have_escape {
            let string = self.input.share_string(at, end);
            self.list.push_reserved(N::from_node(Node::String(string)));
            return Ok(());
        }
        match self.input.parse_string(at) {
            Ok(string) => self.list.push_reserved(N::from_node(Node::String(string))),
            Err(bad) => return Err(bad),
        }
        Ok(())
    }

    #[inline(always)]
    fn push_decimal(&mut self, at: usize, len: usize) {
        let literal = self.input.share(at, len);
        self.list
            .push_reserved(N::from_node(Node::Decimal(literal)));
    }

    #[inline(always)]
    fn push_integer(&mut self, at: usize, len: usize, value: StaticNode) {
        self.list.push_reserved(N::from_node(Node::Static(value)));
    }

    #[inline(always)]
    fn push_static(&mut self, value: StaticNode) {
        self.list.push_reserved(N::from_node(Node::Static(value)));
    }

    #[inline(always)]
    fn push_header(&mut self, container: Container) {
        self.list
            .push_reserved(N::from_node(container.header(0, 0)));
    }

    #[inline(always)]
    fn set_counts(&mut self, header: usize, container: Container, len: usize, count: usize) {
        self.list[header] = N::from_node(container.header(len, count));
    }

    ghost later = { λ b s i j. reads-kept b s.input.now i j };
}
