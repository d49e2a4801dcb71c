//! Nodes of a form of the caller's own, kept in a list. Their texts stay in the input.
ghost use Rattle.std.specs.Prelude.{◌≡◌, ◌≤◌, ◌<◌, ◌+◌, ◌++◌, ℕ, true, false, List, [], ◌∷◌};
ghost use Rattle.std.specs.Prelude.{length, map, IfOk, IsTrue, IsFalse, slice_set};
ghost use Rattle.std.specs.Result.{result_err};
ghost use Rattle.std.specs.Vec.{vec_capacity};
ghost use Rattle.simd_json.specs.Capacities.{KeepsCapacities, capacity};
ghost use Rattle.simd_json.specs.KeptSpans.{AreFormed, IsNoted, Loan};
ghost use Rattle.simd_json.specs.Parsed.{IsParseResult};
ghost use Rattle.simd_json_parts.specs.Limits.{max_length};
ghost use Rattle.simd_json_parts.specs.Nodes.{static_item, string_item, decimal_item};
ghost use Rattle.simd_json_stages.specs.Building.{header_of};
ghost use Rattle.simd_json_stages.specs.Placed.{Placed, is_long, placed_at, textless};

use crate::buffers::Buffers;
use crate::spans::fill_spans;
use simd_json_parts::error::Result;
use simd_json_parts::node::StaticNode;
use simd_json_stages::stage2::{Container, Noted, SpanSink};
use std::alloc::Allocator;

/// A node of a form of the caller's own, which [`keep_spans`] keeps. It is made of where its text
/// lies in the input after the parse, a byte index and a number of bytes. Here it is that alone:
///
/// ```
/// ghost use Rattle.std.specs.Prelude.{length};
/// use simd_json::{Container, SpanNode, StaticNode};
///
/// /// Where a text lies; where there is none, 0 bytes at 0.
/// #[derive(Clone, Copy, Drop)]
/// pub struct Place {
///     pub at: usize,
///     pub len: usize,
/// }
///
/// impl SpanNode for Place {
///     ghost form = { λ p. record { at = p.at; len = length p.text } };
///
///     fn string(at: usize, len: usize) -> Place {
///         Place { at, len }
///     }
///     fn decimal(at: usize, len: usize) -> Place {
///         Place { at, len }
///     }
///     fn wide_integer(at: usize, len: usize, _value: StaticNode) -> Place {
///         Place { at, len }
///     }
///     fn short_scalar(_value: StaticNode) -> Place {
///         Place { at: 0, len: 0 }
///     }
///     fn header(_container: Container, _len: usize, _count: usize) -> Place {
///         Place { at: 0, len: 0 }
///     }
/// }
/// ```
pub trait SpanNode: Copy {
    // The node of what a sink is given.
    ghost form: { Placed → Self };

    /// A string or a key: where its decoded text lies.
    fn string(at: usize, len: usize) -> Self
        ensures { (text : List ℕ) → length text ≡ len
            → result ≡ form (placed_at at text (string_item text)) };

    /// A number with a fraction or an exponent: where its literal lies.
    fn decimal(at: usize, len: usize) -> Self
        ensures { (text : List ℕ) → length text ≡ len
            → result ≡ form (placed_at at text (decimal_item text)) };

    /// An integer that needs 128 bits: where its literal lies, and its value.
    fn wide_integer(at: usize, len: usize, value: StaticNode) -> Self
        requires { is_long value ≡ true }
        ensures { (text : List ℕ) → length text ≡ len
            → result ≡ form (placed_at at text (static_item value)) };

    /// A null, a boolean or an integer of 64 bits.
    fn short_scalar(value: StaticNode) -> Self
        requires { is_long value ≡ false }
        ensures { result ≡ form (textless (static_item value)) };

    /// The header of a container with `len` members, and `count` nodes beneath it.
    fn header(container: Container, len: usize, count: usize) -> Self
        ensures { result ≡ form (textless (header_of container len count)) };
}

/// Reads a document as [`fill_spans`] does, and keeps its nodes in an empty list. Returns whether
/// all are kept: `false` where the list had to grow, and could not.
///
/// The errors are those of [`to_tape`](crate::to_tape). After one, and where not all are kept, the
/// list may hold nodes. No capacity is given up.
pub fn keep_spans<N: SpanNode, A: Allocator>(
    s: &mut [u8],
    buffers: &mut Buffers<A>,
    nodes: &mut Vec<N>,
) -> Result<bool>
    requires empty { nodes.old.items ≡ [] }
    ensures read { (ps : List Placed) × IsParseResult s.old buffers.old.limit
        (capacity buffers.old) (result_err result) (map (λ p. p.item) ps)
        × IfOk result (λ are_kept. (IsTrue are_kept → AreFormed N.form ps s.new nodes.new.items)
        × (IsFalse are_kept → vec_capacity nodes.old < length ps)) }
    ensures kept { (buffers.new.limit ≡ buffers.old.limit)
        × KeepsCapacities buffers.old buffers.new }
    ensures nodes { vec_capacity nodes.old ≤ vec_capacity nodes.new }
{
    let noted = Noted::of(&&*nodes);
    // Most documents have fewer nodes. If there is no memory for as many, less may do.
    let _ = nodes.reserve(s.len() / 8);
    let mut sink = KeptSink {
        nodes,
        lost: 0,
        noted,
    };
    fill_spans(s, buffers, &mut sink)?;
    Ok(sink.lost == 0)
}

// Nodes in memory that grows with them, as long as allocations succeed.
#[derive(Drop)]
struct KeptSink<'t, N: SpanNode> {
    nodes: &'t mut Vec<N>,
    // how many nodes were appended and are not kept, from the first that could not be on
    lost: usize,
    // the ghost record of the nodes, kept or not
    noted: Noted,
    ghost counted: { length nodes.now.items + lost ≡ length noted.note.placed },
    ghost few: { length noted.note.placed ≤ max_length },
    ghost kept: { lost ≡ 0 → nodes.now.items ≡ map N.form noted.note.placed },
    ghost full: { 0 < lost → vec_capacity nodes.now ≤ length nodes.now.items },
    ghost capacity: { noted.note.node_capacity ≤ vec_capacity nodes.now },
}

impl<N: SpanNode> KeptSink<'_, N> {
    #[inline(always)]
    fn put(&mut self, node: N, noted: Noted)
        requires room { length self.old.noted.note.placed < max_length }
        requires one { IsNoted N.form self.old.noted.note noted.note node }
        ensures note { self.new.noted.note ≡ noted.note }
        ensures nodes { self.new.nodes.ghost_name ≡ self.old.nodes.ghost_name }
    {
        keep_node(&mut self.lost, self.nodes, node);
        self.noted = noted;
    }
}

impl<N: SpanNode> SpanSink for KeptSink<'_, N> {
    ghost placed = { λ s. s.noted.note.placed };

    ghost node_room = { λ _. max_length };

    ghost Lender = { Loan };

    ghost lender = { λ s. record {
      nodes = s.nodes.ghost_name;
      node_capacity = s.noted.note.node_capacity;
    } };

    #[inline(always)]
    fn len(&self) -> usize {
        self.nodes.len() + self.lost
    }

    #[inline(always)]
    fn push_string(&mut self, at: usize, string: &str) {
        let noted = Noted::of(&(&self.noted, at, string));
        self.put(N::string(at, string.len()), noted);
    }

    #[inline(always)]
    fn push_decimal(&mut self, at: usize, literal: &str) {
        let noted = Noted::of(&(&self.noted, at, literal));
        self.put(N::decimal(at, literal.len()), noted);
    }

    #[inline(always)]
    fn push_wide(&mut self, at: usize, literal: &str, value: StaticNode) {
        let noted = Noted::of(&(&self.noted, at, literal, value));
        self.put(N::wide_integer(at, literal.len(), value), noted);
    }

    #[inline(always)]
    fn push_static(&mut self, value: StaticNode) {
        let noted = Noted::of(&(&self.noted, value));
        self.put(N::short_scalar(value), noted);
    }

    #[inline(always)]
    fn push_header(&mut self, container: Container) {
        let noted = Noted::of(&(&self.noted, container));
        self.put(N::header(container, 0, 0), noted);
    }

    #[inline(always)]
    fn set_counts(&mut self, header: usize, container: Container, len: usize, count: usize) {
        set_node(self.nodes, header, N::header(container, len, count));
        self.noted = Noted::of(&(&self.noted, header, container, len, count));
    }
}

// Appends a node if none before it is lost; else that one is lost, too. If there is memory for it,
// nothing is called.
#[inline(always)]
fn keep_node<N: Copy>(lost: &mut usize, nodes: &mut Vec<N>, node: N)
    requires few { lost.old < max_length }
    requires full { 0 < lost.old → vec_capacity nodes.old ≤ length nodes.old.items }
    ensures kept { lost.new ≡ 0
        → (lost.old ≡ 0) × (nodes.new.items ≡ nodes.old.items ++ node ∷ []) }
    ensures lost { 0 < lost.new
        → (lost.new ≡ lost.old + 1) × (nodes.new.items ≡ nodes.old.items) }
    ensures full { 0 < lost.new → vec_capacity nodes.new ≤ length nodes.new.items }
    ensures capacity { vec_capacity nodes.old ≤ vec_capacity nodes.new }
{
    if nodes.len() == nodes.capacity() && !has_grown(lost, nodes) {
        return;
    }
    nodes.push_reserved(node);
}

// Whether a full list has memory for one more node; else that one is lost. The node is not passed:
// what is passed by reference to a call that is not inlined is kept in memory, and a node that is
// stored there in parts and loaded whole waits for its stores.
#[cold]
#[inline(never)]
fn has_grown<N: Copy>(lost: &mut usize, nodes: &mut Vec<N>) -> bool
    requires few { lost.old < max_length }
    requires full { vec_capacity nodes.old ≤ length nodes.old.items }
    ensures grown { IsTrue result → (lost.old ≡ 0) × (lost.new ≡ 0)
        × (length nodes.new.items < vec_capacity nodes.new) }
    ensures lost { IsFalse result → (lost.new ≡ lost.old + 1)
        × (vec_capacity nodes.new ≤ length nodes.new.items) }
    ensures items { nodes.new.items ≡ nodes.old.items }
    ensures capacity { vec_capacity nodes.old ≤ vec_capacity nodes.new }
{
    if *lost > 0 || nodes.reserve(1).is_err() {
        *lost += 1;
        return false;
    }
    true
}

// Writes a node at index `at` if there is one.
#[inline(always)]
fn set_node<N: Copy>(nodes: &mut Vec<N>, at: usize, node: N)
    ensures set { at < length nodes.old.items
        → nodes.new.items ≡ slice_set nodes.old.items at node }
    ensures len { length nodes.new.items ≡ length nodes.old.items }
    ensures capacity { vec_capacity nodes.new ≡ vec_capacity nodes.old }
{
    if at < nodes.len() {
        nodes[at] = node;
    }
}
