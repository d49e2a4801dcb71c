//! The stack of the open containers.
//!
//! As in simdjson, nesting is kept in a list and not in calls, so that a deep input can't exhaust
//! the program's stack. What is known of the innermost container is in `Progress`; an entry is
//! written when a container opens in it, and read when that one closes.
ghost use Rattle.std.specs.Prelude.{◌≡◌, ◌<◌, ◌≤◌, ◌+◌, ◌-◌, true, ℕ, List, length, get_or};
ghost use Rattle.simd_json_parts.specs.Nodes.{item_of, static_item};
ghost use Rattle.simd_json_stages.specs.Building.{closer, header_of, is_header, content_kind};
ghost use Rattle.simd_json_stages.specs.Building.{patch, top};
ghost use Rattle.simd_json_stages.specs.Put.{SameSink};

use super::builder::Builder;
use super::fault::FaultKind;
use super::progress::Progress;
use simd_json_parts::node::{Node, StaticNode};

/// The two kinds of containers. The second stage passes it to the calls of a
/// [`SpanSink`](super::SpanSink).
#[derive(Clone, Copy, Debug, Drop)]
pub enum Container {
    /// An array, `[..]`: its members are its elements.
    Array,
    /// An object, `{..}`: its members are pairs of a key and a value.
    Object,
}

impl Container {
    // Its closing bracket.
    #[inline(always)]
    pub(super) fn closer(self) -> u8
        ensures { result ≡ closer self }
    {
        match self {
            Container::Array => b']',
            Container::Object => b'}',
        }
    }

    // The header of one with `len` members and `count` nodes beneath it.
    #[inline(always)]
    pub(super) fn header<'de>(self, len: usize, count: usize) -> Node<'de>
        ensures { item_of result ≡ header_of self len count }
    {
        match self {
            Container::Array => Node::Array { len, count },
            Container::Object => Node::Object { len, count },
        }
    }

    // What is wrong with a token after a member that is neither a comma nor the closing bracket.
    pub(super) fn content_kind(self) -> FaultKind
        ensures { result ≡ content_kind self }
    {
        match self {
            Container::Array => FaultKind::ExpectedArrayContent,
            Container::Object => FaultKind::ExpectedObjectContent,
        }
    }
}

/// What is kept of an open container and its parent: an entry of the stack that
/// [`build_tape`](super::build_tape) works with. The caller makes the stack of
/// [`EMPTY`](StackState::EMPTY) entries; the second stage writes them.
#[derive(Clone, Copy, Debug, Drop)]
pub struct StackState {
    /// The index of the container's header among the nodes.
    pub header: usize,
    /// The kind of its parent; of the root `Array`.
    pub outer: Container,
    /// The number of members of its parent that were read before it; of the root 0.
    pub len: usize,
}

impl StackState {
    /// An entry of no container, to fill a stack with.
    pub const EMPTY: StackState = StackState {
        header: 0,
        outer: Container::Array,
        len: 0,
    };
}

// Closes the innermost container at the last token: sets the counts of its header, and counts it as
// one more member of its parent. Returns the progress in the parent.
#[inline(always)]
pub(super) fn close<B: Builder>(
    stack: &[StackState],
    builder: &mut B,
    p: Progress,
    container: Container,
) -> Progress
    requires depth { (0 < p.depth) × (p.depth ≤ length stack.now) }
    requires header { (top stack.now p.depth).header < length (B.held_nodes builder.old) }
    requires headed { is_header (get_or (B.held_nodes builder.old) (top stack.now p.depth).header
        (static_item StaticNode.Null)) ≡ true }
    requires len { (top stack.now p.depth).len < length (B.held_nodes builder.old) }
    requires container { container ≡ p.container }
    ensures progress { result ≡ record p {
      depth = p.depth - 1;
      container = (top stack.now p.depth).outer;
      len = (top stack.now p.depth).len + 1;
    } }
    ensures nodes { B.held_nodes builder.new
        ≡ patch (B.held_nodes builder.old) (top stack.now p.depth) p }
    ensures sink { SameSink B.node_room B.lender builder.old builder.new }
    ensures reads { (b : List ℕ) (i : ℕ) → B.reads b builder.old i → B.reads b builder.new i }
{
    let frame = stack[p.depth - 1];
    let beneath = builder.len() - frame.header - 1;
    builder.set_counts(frame.header, container, p.len, beneath);
    Progress {
        depth: p.depth - 1,
        container: frame.outer,
        len: frame.len + 1,
        ..p
    }
}
