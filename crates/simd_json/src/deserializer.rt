//! Steps through the nodes of a tape, one after another.
ghost use Rattle.std.specs.Prelude.{◌≡◌, ◌≢◌, ◌<◌, ◌↔◌, ◌+◌, [], ℕ, List, length, slice_get};
ghost use Rattle.std.specs.Prelude.{IsFalse, IfOk, Some};
ghost use Rattle.std.specs.Result.{result_err};
ghost use Rattle.simd_json_parts.specs.Views.{ok_map};
ghost use Rattle.simd_json.specs.Capacities.{KeepsCapacities};
ghost use Rattle.simd_json_stages.specs.Capacities.{default_max_depth};
ghost use Rattle.simd_json.specs.Parsed.{IsParse, nodes_of};
ghost use Rattle.simd_json.specs.Steps.{Stepped, steps_from};
ghost use Rattle.simd_json.specs.Viewed.{doc};
ghost use Rattle.simd_json_parts.specs.Listing.{listing};
ghost use Rattle.simd_json_parts.specs.Nodes.{item_of};

use crate::buffers::Buffers;
use crate::parse::{to_tape, to_tape_with_buffers};
use crate::tape::{Tape, Value};
use simd_json_parts::error::Result;
use simd_json_parts::node::Node;
use std::alloc::{Allocator, Global};
use std::marker::Model;

/// A tape and a position on it: [`next_`](Deserializer::next_) returns one node after another, in
/// preorder.
///
/// A new or [restarted](Deserializer::restart) one is at the first node, or
/// [at the end](Deserializer::is_at_end) if its tape is empty.
#[derive(Debug, Drop)]
pub struct Deserializer<'de, A: Allocator = Global> {
    tape: Tape<'de, A>,
    position: usize,
}

impl<'de, A: Allocator> Model for Deserializer<'de, A> {
    ghost use Rattle.simd_json.specs.Steps.{Stepped};

    ghost Value = { Stepped };

    ghost view = { λ d. record { tape = d.tape; position = d.position } };
}

impl<'de, A: Allocator + Copy> Deserializer<'de, A> {
    /// Reads a document as [`to_tape`] does, with the same errors, and starts at its first node.
    ///
    /// ```
    /// use simd_json::{Deserializer, Node};
    ///
    /// // The strings of a document, keys too.
    /// fn count_strings(rt: &impl AllocGlobal) -> simd_json::Result<usize> {
    ///     let mut input = *b"{\"name\":\"tape\",\"sizes\":[1,[2,3],4]}";
    ///     let mut nodes = Deserializer::from_slice(rt.alloc(), &mut input)?;
    ///     let mut strings = 0usize;
    ///     for _ in 0..u64::MAX {
    ///         if nodes.is_at_end() {
    ///             break;
    ///         }
    ///         if let Node::String(_) = nodes.next_() {
    ///             strings = strings.saturating_add(1);
    ///         }
    ///     }
    ///     Ok(strings)
    /// }
    /// ```
    pub fn from_slice(a: A, input: &'de mut [u8]) -> Result<Deserializer<'de, A>>
        ensures parse { (listed : List ℕ) × IsParse input.old default_max_depth 0
            (result_err result) (nodes_of (ok_map (λ d. d.tape) result)) listed }
        ensures some { IfOk result (λ d. d.tape.nodes ≢ []) }
        ensures start { IfOk result (λ d. d.position ≡ 0) }
    {
        Ok(Deserializer::from_tape(to_tape(a, input)?))
    }

    /// Reads a document as [`to_tape_with_buffers`] does, with the same errors and effects on the
    /// buffers, and starts at its first node. The tape takes its memory from the allocator of the
    /// buffers.
    pub fn from_slice_with_buffers(
        input: &'de mut [u8],
        buffers: &mut Buffers<A>,
    ) -> Result<Deserializer<'de, A>>
        ensures parse { IsParse input.old buffers.old.limit 0
            (result_err result) (nodes_of (ok_map (λ d. d.tape) result)) buffers.new.index.listed }
        ensures some { IfOk result (λ d. d.tape.nodes ≢ []) }
        ensures start { IfOk result (λ d. d.position ≡ 0) }
        ensures limit { buffers.new.limit ≡ buffers.old.limit }
        ensures capacities { KeepsCapacities buffers.old buffers.new }
    {
        Ok(Deserializer::from_tape(to_tape_with_buffers(input, buffers)?))
    }
}

impl<'de, A: Allocator> Deserializer<'de, A> {
    /// Starts at the first node of the tape.
    pub fn from_tape(tape: Tape<'de, A>) -> Deserializer<'de, A>
        ensures { result ≡ steps_from tape.entry }
    {
        Deserializer { tape, position: 0 }
    }

    /// Returns the tape, whatever the position.
    pub fn into_tape(self) -> Tape<'de, A>
        ensures { result ≡ self.entry.tape }
    {
        let Deserializer { tape, .. } = self;
        tape
    }

    /// The document of the tape, whatever the position. Requires that the tape is not empty.
    pub fn as_value(&self) -> Value<'_, 'de>
        requires { self.now.tape.nodes ≢ [] }
        ensures { listing (doc result) ≡ self.now.tape.nodes }
    {
        self.tape.as_value()
    }

    /// Goes back to the first node.
    pub fn restart(&mut self)
        ensures { self.new ≡ steps_from self.old.tape }
    {
        self.position = 0;
    }

    /// Returns the node at the position and advances. Requires that the end is not reached.
    pub fn next_(&mut self) -> Node<'de>
        requires { self.old.position < length self.old.tape.nodes }
        ensures node { slice_get self.old.tape.nodes self.old.position ≡ Some (item_of result) }
        ensures step { self.new ≡ record self.old { position = self.old.position + 1 } }
    {
        let node = self.tape.nodes()[self.position];
        self.position += 1;
        node
    }

    /// Whether all nodes have been returned.
    pub fn is_at_end(&self) -> bool
        ensures { IsFalse result ↔ (self.now.position < length self.now.tape.nodes) }
    {
        self.position >= self.tape.nodes().len()
    }
}
