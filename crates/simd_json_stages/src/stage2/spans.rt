//! Nodes whose texts stay in the input: strings are decoded in place, and a sink of the caller's
//! choice gets each with the byte index where it begins.
//!
//! Such a sink borrows nothing of the input. So after a parse the input is the caller's again, and
//! what it holds is known: each text at its place.
ghost use Rattle.std.specs.Prelude.{◌≡◌, ◌<◌, ◌≤◌, ◌+◌, true, false, ℕ, List, [], ◌∷◌, ◌++◌};
ghost use Rattle.std.specs.Prelude.{length, get_or, slice_set, map, take, drop, IsFalse, IsUtf8};
ghost use Rattle.std.specs.Prelude.{MatchResult};
ghost use Rattle.std.specs.List.{All};
ghost use Rattle.simd_json_parts.specs.Bytes.{quote, byte_at};
ghost use Rattle.simd_json_parts.specs.Nodes.{Item, static_item, string_item, decimal_item};
ghost use Rattle.simd_json_parts.specs.StringAt.{closing_quote, string_at, escape_fault};
ghost use Rattle.simd_json_stages.specs.Building.{header_of, is_header};
ghost use Rattle.simd_json_stages.specs.EscapesAhead.{PlainFrom};
ghost use Rattle.simd_json_stages.specs.Inputs.{HasBytes, HasQuoted, IsStringBefore};
ghost use Rattle.simd_json_stages.specs.Members.{HasCapacity, IsTape};
ghost use Rattle.simd_json_stages.specs.Placed.{AreLaid, IsDecodedTo, IsTextOf, LiesIn, Placed};
ghost use Rattle.simd_json_stages.specs.Placed.{ReadsInPlace, is_long, placed_at, textless};
ghost use Rattle.simd_json_stages.specs.Progresses.{IsForCopy};
ghost use Rattle.simd_json_stages.specs.Put.{SameSink};
ghost use Rattle.simd_json_stages.specs.ReadsLater.{ahead-later};
ghost use Rattle.simd_json_stages.specs.Scans.{IsScanOf};
ghost use Rattle.std.proofs.Common.{arith};

use super::Scanned;
use super::builder::Builder;
use super::escapes::{Escapes, last_quote};
use super::fault::Fault;
use super::input::Original;
use super::machine::{ANY, PLAIN, build};
use super::progress::Route;
use super::stack::{Container, StackState};
use simd_json_parts::node::StaticNode;
use simd_json_scalars::stringparse::{BadEscape, decode_str};
use std::result::Result;

/// A destination for the nodes of a document, in a form of the caller's own. It gets each text and
/// the byte index in the input where that begins, and keeps no reference to it.
///
/// The second stage appends each node by the call for its kind, in preorder: the header of a
/// container, then its members; of a member of an object the key, which is a string, and then its
/// value. When a container that is not empty closes, it sets the counts of its header.
///
/// After the parse each text lies in the input at that index, so the owner of the input can borrow
/// it from there: a string with its escapes decoded, or the literal of a number with a fraction or
/// an exponent, or of an integer that needs 128 bits.
///
/// The ghost items say for contracts what a sink holds: `placed` is the list of the nodes that were
/// appended, each with its text and where that begins, `node_room` how many it can hold in all, and
/// `lender` names what it borrows. A sink with nodes of another form needs a proof that ties them
/// to `placed`. One that hands all nodes on to another sink has the other's items, as this one,
/// which keeps the place of the longest string:
///
/// ```
/// use simd_json_parts::node::StaticNode;
/// use simd_json_stages::stage2::{Container, SpanSink};
///
/// #[derive(Drop)]
/// pub struct LongestString<S> {
///     pub at: usize,
///     pub len: usize,
///     pub nodes: S,
/// }
///
/// impl<S: SpanSink> SpanSink for LongestString<S> {
///     ghost placed = { λ s. S.placed s.nodes };
///     ghost node_room = { λ s. S.node_room s.nodes };
///     ghost Lender = { S.Lender };
///     ghost lender = { λ s. S.lender s.nodes };
///
///     fn push_string(&mut self, at: usize, string: &str) {
///         if string.len() > self.len {
///             self.at = at;
///             self.len = string.len();
///         }
///         self.nodes.push_string(at, string);
///     }
///     fn push_decimal(&mut self, at: usize, literal: &str) {
///         self.nodes.push_decimal(at, literal);
///     }
///     fn push_wide(&mut self, at: usize, literal: &str, value: StaticNode) {
///         self.nodes.push_wide(at, literal, value);
///     }
///     fn push_static(&mut self, value: StaticNode) {
///         self.nodes.push_static(value);
///     }
///     fn push_header(&mut self, container: Container) {
///         self.nodes.push_header(container);
///     }
///     fn set_counts(&mut self, header: usize, container: Container, len: usize, count: usize) {
///         self.nodes.set_counts(header, container, len, count);
///     }
///     fn len(&self) -> usize {
///         self.nodes.len()
///     }
/// }
/// ```
pub trait SpanSink {
    // The nodes that were appended, in order, each with the byte index where its text begins.
    ghost placed: { Self → List Placed };

    // How many nodes it can hold in all.
    ghost node_room: { Self → ℕ };

    // The type of the names of what it borrows.
    ghost Lender: { Type 0 };

    // What it borrows, by name. No call changes that, so that after a parse the owner of the
    // borrowed memory knows what was written there.
    ghost lender: { Self → Self.Lender };

    /// Returns how many nodes were appended.
    fn len(&self) -> usize
        ensures { result ≡ length (placed self.now) };

    /// Appends a string or a key: its decoded text, which begins at byte `at` of the input.
    fn push_string(&mut self, at: usize, string: &str)
        requires { length (placed self.old) < node_room self.old }
        ensures lender { lender self.new ≡ lender self.old }
        ensures room { node_room self.new ≡ node_room self.old }
        ensures put { placed self.new
            ≡ placed self.old ++ placed_at at string.now (string_item string.now) ∷ [] };

    /// Appends a number with a fraction or an exponent: its literal, which begins at byte `at`.
    fn push_decimal(&mut self, at: usize, literal: &str)
        requires { length (placed self.old) < node_room self.old }
        ensures lender { lender self.new ≡ lender self.old }
        ensures room { node_room self.new ≡ node_room self.old }
        ensures put { placed self.new
            ≡ placed self.old ++ placed_at at literal.now (decimal_item literal.now) ∷ [] };

    /// Appends an integer that needs 128 bits: its literal, which begins at byte `at`, and its
    /// value.
    fn push_wide(&mut self, at: usize, literal: &str, value: StaticNode)
        requires room { length (placed self.old) < node_room self.old }
        requires long { is_long value ≡ true }
        requires literal { IsTextOf (static_item value) literal.now }
        ensures lender { lender self.new ≡ lender self.old }
        ensures room { node_room self.new ≡ node_room self.old }
        ensures put { placed self.new
            ≡ placed self.old ++ placed_at at literal.now (static_item value) ∷ [] };

    /// Appends a null, a boolean or an integer of 64 bits.
    fn push_static(&mut self, value: StaticNode)
        requires room { length (placed self.old) < node_room self.old }
        requires short { is_long value ≡ false }
        ensures lender { lender self.new ≡ lender self.old }
        ensures room { node_room self.new ≡ node_room self.old }
        ensures put { placed self.new
            ≡ placed self.old ++ textless (static_item value) ∷ [] };

    /// Appends the header of a container, with counts of 0.
    fn push_header(&mut self, container: Container)
        requires { length (placed self.old) < node_room self.old }
        ensures lender { lender self.new ≡ lender self.old }
        ensures room { node_room self.new ≡ node_room self.old }
        ensures put { placed self.new
            ≡ placed self.old ++ textless (header_of container 0 0) ∷ [] };

    /// Sets the counts of the header at index `header` among the nodes, when its container closes:
    /// it has `len` members, and `count` nodes beneath it. It is not called for an empty container.
    fn set_counts(&mut self, header: usize, container: Container, len: usize, count: usize)
        requires within { header < length (placed self.old) }
        requires header { is_header (get_or (map (λ p. p.item) (placed self.old)) header
            (static_item StaticNode.Null)) ≡ true }
        ensures lender { lender self.new ≡ lender self.old }
        ensures room { node_room self.new ≡ node_room self.old }
        ensures patched { placed self.new ≡ slice_set (placed self.old) header
            (textless (header_of container len count)) };
}

// Appends the nodes of the tokens at the structural indexes to a sink, as `build_copy` does.
#[inline(always)]
pub(super) fn build_spans_copy<K: Original, S: SpanSink, const COPY: usize>(
    input: &mut [u8],
    scanned: Scanned<'_>,
    stack: &mut [StackState],
    nodes: &mut S,
    max_depth: usize,
) -> Result<(), Fault>
    requires input { input.old ≡ K.bytes }
    requires scanned { IsScanOf K.bytes scanned }
    requires copy { IsForCopy COPY K.bytes scanned.structural_indexes.now }
    requires capacities { HasCapacity scanned.structural_indexes.now max_depth stack.old
        (S.node_room nodes.old) }
    requires empty { S.placed nodes.old ≡ [] }
    ensures sink { SameSink S.node_room S.lender nodes.old nodes.new }
    ensures tape { IsTape K.bytes scanned.entry.structural_indexes.now max_depth
        (map (λ p. p.item) (S.placed nodes.new)) result }
    ensures texts { All (LiesIn input.new) (S.placed nodes.new) }
{
    let end = input.len();
    let mut in_place = SpanBuilder {
        bytes: input,
        at: 0,
        is_plain: COPY == PLAIN,
        escapes: Escapes::new(scanned.escape_blocks),
        nodes,
    };
    let route = Route {
        indexes: scanned.structural_indexes,
        end,
        ends_closed: COPY != ANY,
        max_depth,
    };
    build::<K, SpanBuilder<'_, '_, '_, S>, COPY>(&mut in_place, route, stack)
}

// The input, held whole, and a sink. Each text is handed on where it lies, and no byte before index
// `at` is written any more.
#[derive(Drop)]
pub(super) struct SpanBuilder<'n, 'm, 'b, S: SpanSink> {
    pub(super) bytes: &'b mut [u8],
    // an index up to which all texts end; only proofs need it
    pub(super) at: usize,
    // whether the input has no backslash
    pub(super) is_plain: bool,
    // the walk along the backslashes
    pub(super) escapes: Escapes<'m>,
    pub(super) nodes: &'n mut S,
    ghost laid: { AreLaid bytes.now at (S.placed nodes.now) },
}

impl<'n, 'm, 'b, S: SpanSink> SpanBuilder<'n, 'm, 'b, S> {
    // The walk along the backslashes, come to index `at`, and whether the string from there on may
    // have an escape before index `end`.
    #[inline(always)]
    fn escapes_ahead(&self, at: usize, end: usize) -> (Escapes<'m>, bool)
        requires { HasBytes (λ b. ReadsInPlace b self.now.bytes.now self.now.at self.now.is_plain
            self.now.escapes) at 0 }
        ensures reads { (b : List ℕ) → ReadsInPlace b self.now.bytes.now self.now.at
            self.now.is_plain self.now.escapes at → ReadsInPlace b self.now.bytes.now self.now.at
            self.now.is_plain result.0 at }
        ensures plain { IsFalse result.1 → (b : List ℕ) → ReadsInPlace b self.now.bytes.now
            self.now.at self.now.is_plain self.now.escapes at → PlainFrom b at end }
    {
        if self.is_plain || end <= self.escapes.mark {
            return (self.escapes, false);
        }
        if at <= self.escapes.mark {
            return (self.escapes, true);
        }
        match self.escapes.ahead(&self.bytes[at..], at) {
            Some(escapes) => (escapes, escapes.mark < end),
            None => (self.escapes, true),
        }
    }

    // The index of the closing quote of the string from index `at`, which is closed before `end`.
    #[inline(always)]
    fn closing(&self, at: usize, end: usize) -> usize
        requires { HasQuoted (λ b i. drop i b ≡ drop i self.now.bytes.now) at end }
        ensures { (b : List ℕ) → drop at b ≡ drop at self.now.bytes.now → IsStringBefore b at end
            → result ≡ closing_quote b at }
    {
        last_quote(&self.bytes[at..], at, at, end)
    }
}

// Appends the `len` bytes from index `at` on as a string. It takes both as references of its own:
// what is lent of a field loses its value in proofs.
#[inline(always)]
fn hand_string<S: SpanSink>(nodes: &mut S, bytes: &mut [u8], at: usize, len: usize)
    requires room { length (S.placed nodes.old) < S.node_room nodes.old }
    requires within { at + len ≤ length bytes.old }
    requires utf8 { IsUtf8 (take len (drop at bytes.old)) }
    ensures sink { SameSink S.node_room S.lender nodes.old nodes.new }
    ensures bytes { bytes.new ≡ bytes.old }
    ensures put { S.placed nodes.new ≡ S.placed nodes.old ++ placed_at at
        (take len (drop at bytes.old)) (string_item (take len (drop at bytes.old))) ∷ [] }
{
    let string = unsafe { str::from_utf8_unchecked(&bytes[at..at + len]) };
    nodes.push_string(at, string);
}

// The same as a decimal.
#[inline(always)]
fn hand_decimal<S: SpanSink>(nodes: &mut S, bytes: &mut [u8], at: usize, len: usize)
    requires room { length (S.placed nodes.old) < S.node_room nodes.old }
    requires within { at + len ≤ length bytes.old }
    requires utf8 { IsUtf8 (take len (drop at bytes.old)) }
    ensures sink { SameSink S.node_room S.lender nodes.old nodes.new }
    ensures bytes { bytes.new ≡ bytes.old }
    ensures put { S.placed nodes.new ≡ S.placed nodes.old ++ placed_at at
        (take len (drop at bytes.old)) (decimal_item (take len (drop at bytes.old))) ∷ [] }
{
    let literal = unsafe { str::from_utf8_unchecked(&bytes[at..at + len]) };
    nodes.push_decimal(at, literal);
}

// The same as an integer of 128 bits. It is rare, so not inlined, and takes these references and
// not the builder, since what is passed by reference to such a call is kept in memory.
#[cold]
#[inline(never)]
fn hand_long<S: SpanSink>(nodes: &mut S, bytes: &mut [u8], at: usize, len: usize, value: StaticNode)
    requires room { length (S.placed nodes.old) < S.node_room nodes.old }
    requires within { at + len ≤ length bytes.old }
    requires utf8 { IsUtf8 (take len (drop at bytes.old)) }
    requires long { is_long value ≡ true }
    requires literal { IsTextOf (static_item value) (take len (drop at bytes.old)) }
    ensures sink { SameSink S.node_room S.lender nodes.old nodes.new }
    ensures bytes { bytes.new ≡ bytes.old }
    ensures put { S.placed nodes.new ≡ S.placed nodes.old
        ++ placed_at at (take len (drop at bytes.old)) (static_item value) ∷ [] }
{
    let literal = unsafe { str::from_utf8_unchecked(&bytes[at..at + len]) };
    nodes.push_wide(at, literal, value);
}

// Whether 64 bits do not hold an integer.
fn is_long(value: &StaticNode) -> bool
    ensures { result ≡ is_long value.now }
{
    matches!(value, StaticNode::I128(_) | StaticNode::U128(_))
}

// Decodes in place the string whose opening quote has index `at`, and appends it. Returns the index
// after its closing quote, or its first invalid escape. One call: between the two the invariant of
// `SpanBuilder` does not hold.
#[inline(always)]
fn decode_to<S: SpanSink>(nodes: &mut S, bytes: &mut [u8], at: usize) -> Result<usize, BadEscape>
    requires room { length (S.placed nodes.old) < S.node_room nodes.old }
    requires within { at < length bytes.old }
    requires opening { byte_at (drop at bytes.old) 0 ≡ quote }
    requires closing { closing_quote (drop at bytes.old) 0 < length (drop at bytes.old) }
    requires utf8 { IsUtf8 (drop at bytes.old) }
    ensures sink { SameSink S.node_room S.lender nodes.old nodes.new }
    ensures before { take at bytes.new ≡ take at bytes.old }
    ensures decoded { (b : List ℕ) → drop at b ≡ drop at bytes.old → MatchResult result
        (IsDecodedTo b at (S.placed nodes.old) (S.placed nodes.new) bytes.new)
        (λ bad. (S.placed nodes.new ≡ S.placed nodes.old)
        × (string_at b at ≡ Err (escape_fault (at + bad.offset) bad.letter))) }
{
    match decode_str(&mut bytes[at..]) {
        Ok(decoded) => {
            hand_string(nodes, bytes, at + 1, decoded.end - 1);
            Ok(at + decoded.len)
        }
        Err(bad) => Err(bad),
    }
}

impl<'n, 'm, 'b, S: SpanSink> Builder for SpanBuilder<'n, 'm, 'b, S> {
    ghost reads = { λ b s i. ReadsInPlace b s.bytes.now s.at s.is_plain s.escapes i };

    ghost held_nodes = { λ s. map (λ p. p.item) (S.placed s.nodes.now) };

    ghost node_room = { λ s. S.node_room s.nodes.now };

    ghost Lender = { ℕ × ℕ × S.Lender };

    ghost lender = { λ s. (s.bytes.ghost_name, s.nodes.ghost_name, S.lender s.nodes.now) };

    #[inline(always)]
    fn byte(&self, i: usize) -> u8 {
        self.bytes[i]
    }

    #[inline(always)]
    fn from(&self, i: usize) -> &[u8] {
        &self.bytes[i..]
    }

    #[inline(always)]
    fn len(&self) -> usize {
        self.nodes.len()
    }

    #[inline(always)]
    fn push_string(&mut self, at: usize, end: usize) -> Result<(), BadEscape> {
        let (escapes, may_have_escape) = self.escapes_ahead(at, end);
        self.escapes = escapes;
        if !may_have_escape {
            let closing = self.closing(at, end);
            self.at = closing;
            hand_string(self.nodes, self.bytes, at + 1, closing - (at + 1));
            return Ok(());
        }
        match decode_to(self.nodes, self.bytes, at) {
            Ok(after) => self.at = after,
            Err(bad) => return Err(bad),
        }
        Ok(())
    }

    #[inline(always)]
    fn push_decimal(&mut self, at: usize, len: usize) {
        self.at = at + len;
        hand_decimal(self.nodes, self.bytes, at, len);
    }

    #[inline(always)]
    fn push_integer(&mut self, at: usize, len: usize, value: StaticNode) {
        if is_long(&value) {
            self.at = at + len;
            hand_long(self.nodes, self.bytes, at, len, value);
        } else {
            self.nodes.push_static(value);
        }
    }

    #[inline(always)]
    fn push_static(&mut self, value: StaticNode) {
        self.nodes.push_static(value);
    }

    #[inline(always)]
    fn push_header(&mut self, container: Container) {
        self.nodes.push_header(container);
    }

    #[inline(always)]
    fn set_counts(&mut self, header: usize, container: Container, len: usize, count: usize) {
        self.nodes.set_counts(header, container, len, count);
    }

    ghost later = { λ b s i j h l. record {
      fits = h.fits;
      size = h.size;
      rest = h.rest;
      before = Prim.search (arith, h.before, l);
      plain = λ t k f e. h.plain t k (Prim.search (arith, f, l)) e;
      ahead = λ t. ahead-later b s.escapes i (h.ahead t) j l;
    } };
}
