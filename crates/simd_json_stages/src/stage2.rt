//! The second stage: from structural indexes to nodes.
//!
//! As in G. Langdale and D. Lemire, "Parsing Gigabytes of JSON per Second", VLDB Journal 28 (2019),
//! section 3.2, a state machine goes from one structural index to the next, with a stack of the
//! open containers. The way of a parse:
//!
//! ```text
//! build_tape           chooses one of three copies of the machine by the input
//! └ build_copy         joins the input and the list to a builder
//!   └ build            the root's first token, and then a loop round the next three
//!     ├ next_member    closes containers, up to the next member or the end of the root
//!     ├ elements       reads elements of an array   ┐ up to a container that opens
//!     └ members        reads members of an object   ┘ in it, or to its end
//!       ├ read_key     a key and its colon, in an object
//!       ├ read_value   a scalar, or the opening bracket of a container
//!       │ └ push_string, push_scalar, push_number, push_header    append a node
//!       └ after_member a comma, or the closing bracket: set_counts of its header
//! ```
//!
//! `build_spans` does the same for a sink that gets the index where each text begins (`spans`).
//!
//! Beside `machine`, `progress` holds how far it is, `stack` the open containers, `builder` what it
//! reads and writes: an `input` and a list of nodes. `scalar` reads the values of one node, and
//! `fault` is how it rejects a token.
//!
//! Where it differs from simdjson: nodes go to a list, or to a sink of the caller's choice, not to
//! words of a tape; strings are not copied into a buffer, but shared with the input, and decoded in
//! place if they have escapes; a string that ends before the next backslash is not read at all,
//! since its closing quote is the last one before the next structural index; a number with a
//! fraction or an exponent is kept as its literal.
ghost use Rattle.std.specs.Prelude.{◌≡◌, ◌≤◌, [], length, map, min, max, Err, OnOk};
ghost use Rattle.std.specs.Prelude.{IfErr, vec_capacity};
ghost use Rattle.std.specs.List.{All};
ghost use Rattle.simd_json_parts.specs.Descent.{descent};
ghost use Rattle.simd_json_stages.specs.Building.{IsWritten};
ghost use Rattle.simd_json_stages.specs.NodesEnough.{nodes_enough};
ghost use Rattle.simd_json_stages.specs.Placed.{LiesIn};
ghost use Rattle.simd_json_stages.specs.Progresses.{IsForCopy};
ghost use Rattle.simd_json_stages.specs.Rejections.{IsTokenFault};
ghost use Rattle.simd_json_stages.specs.Scans.{IsScanOf};

mod builder;
mod escapes;
mod fault;
mod input;
mod machine;
mod noted;
mod progress;
mod scalar;
mod spans;
mod stack;

pub use builder::FromNode;
pub use input::Original;
use machine::{ANY, CLOSED, PLAIN, build_copy};
pub use noted::Noted;
pub use scalar::{is_valid_false_atom, is_valid_null_atom, is_valid_true_atom};
use simd_json_parts::error::Result;
pub use spans::SpanSink;
use spans::build_spans_copy;
pub use stack::{Container, StackState};
use std::alloc::Allocator;

/// Returns how many nodes are enough for a tape of an input with `positions` structural indexes, if
/// at most `max_depth` containers are open at a time: one for each container that may be open, and
/// one for every other structural index that is left. Never more than `positions`.
#[tactic(auto, unfolding(crate::specs::NodesEnough::nodes_enough))]
pub fn nodes_enough(positions: usize, max_depth: usize) -> usize
    ensures enough { result ≡ nodes_enough positions max_depth }
    ensures few { result ≤ positions }
{
    let open = max_depth.min(positions.saturating_sub(1));
    open + (positions - open).div_ceil(2)
}

/// What the first stage found in an input: the entries in use of the two lists that
/// [`find_structural_bits`](crate::stage1::Stage1Parse::find_structural_bits) fills.
#[derive(Clone, Copy, Debug, Drop)]
pub struct Scanned<'s> {
    /// The structural indexes: byte indexes into the input, in ascending order.
    pub structural_indexes: &'s [u32],
    /// The blocks of 64 bytes that hold a backslash, by number and in ascending order: block `n`
    /// begins at byte `64 * n`.
    pub escape_blocks: &'s [u32],
}

/// Writes the nodes of an input to an empty list, which has capacity for as many as
/// [`nodes_enough`] returns for it. `stack` or else `few` is at least as long as `max_depth` or as
/// the list of structural indexes, whichever is less; what they hold does not matter.
///
/// The nodes are those of the document that the input is, in preorder. An error is that of the
/// first token that is rejected, with its index and character; it is never one of the whole input
/// and never `OutOfMemory`. After an error the list holds the nodes that were written before it.
///
/// The list holds each [`Node`](simd_json_parts::node::Node), or a form of the caller's own that is
/// made of it (see [`FromNode`]). `K` names the bytes of the input as they were given, for
/// contracts (see [`Original`]). A function that is generic over it is called with
/// [`Brand`](std::marker::Brand): a proof can't pick the bytes at a call with a bound that names a
/// lifetime.
#[inline(always)]
pub fn build_tape<'de, K: Original, N: FromNode<'de>, A: Allocator>(
    input: &'de mut [u8],
    scanned: Scanned<'_>,
    stack: &mut [StackState],
    few: &mut [StackState],
    list: &mut Vec<N, A>,
    max_depth: usize,
) -> Result<()>
    requires input { input.old ≡ K.bytes }
    requires scanned { IsScanOf K.bytes scanned }
    requires room { nodes_enough (length scanned.structural_indexes.now) max_depth
        ≤ vec_capacity list.old }
    requires stack { min (length scanned.structural_indexes.now) max_depth
        ≤ max (length stack.old) (length few.old) }
    requires empty { list.old.items ≡ [] }
    ensures room { vec_capacity list.new ≡ vec_capacity list.old }
    ensures few { OnOk result
        (length (map N.item list.new.items) ≤ length scanned.entry.structural_indexes.now) }
    ensures built { OnOk result (IsWritten K.bytes max_depth (map N.item list.new.items)) }
    ensures rejected { IfErr result (λ e. IsTokenFault e × (descent K.bytes max_depth ≡ Err e)) }
{
    let depth = scanned.structural_indexes.len().min(max_depth);
    let stack = stack_for(stack, few, depth);
    let copy = copy_for(input, scanned);
    let built = if copy == PLAIN {
        build_copy::<K, N, A, PLAIN>(input, scanned, stack, list, max_depth)
    } else if copy == CLOSED {
        build_copy::<K, N, A, CLOSED>(input, scanned, stack, list, max_depth)
    } else {
        build_copy::<K, N, A, ANY>(input, scanned, stack, list, max_depth)
    };
    match built {
        Ok(()) => Ok(()),
        Err(fault) => Err(fault.into_error()),
    }
}

/// Writes the nodes of an input to an empty sink, which has room for as many, as [`build_tape`]
/// writes them to a list: the same nodes, or the same error, over the same lists.
///
/// In any case the text of each node that was written lies in the input afterwards, at the byte
/// index that the sink was given with it. Other bytes of the input are unspecified.
#[inline(always)]
pub fn build_spans<K: Original, S: SpanSink>(
    input: &mut [u8],
    scanned: Scanned<'_>,
    stack: &mut [StackState],
    few: &mut [StackState],
    sink: &mut S,
    max_depth: usize,
) -> Result<()>
    requires input { input.old ≡ K.bytes }
    requires scanned { IsScanOf K.bytes scanned }
    requires room { nodes_enough (length scanned.structural_indexes.now) max_depth
        ≤ S.node_room sink.old }
    requires stack { min (length scanned.structural_indexes.now) max_depth
        ≤ max (length stack.old) (length few.old) }
    requires empty { S.placed sink.old ≡ [] }
    ensures room { S.node_room sink.new ≡ S.node_room sink.old }
    ensures lender { S.lender sink.new ≡ S.lender sink.old }
    ensures few { OnOk result
        (length (S.placed sink.new) ≤ length scanned.entry.structural_indexes.now) }
    ensures built { OnOk result
        (IsWritten K.bytes max_depth (map (λ p. p.item) (S.placed sink.new))) }
    ensures rejected { IfErr result (λ e. IsTokenFault e × (descent K.bytes max_depth ≡ Err e)) }
    ensures texts { All (LiesIn input.new) (S.placed sink.new) }
{
    let depth = scanned.structural_indexes.len().min(max_depth);
    let stack = stack_for(stack, few, depth);
    let copy = copy_for(input, scanned);
    let built = if copy == PLAIN {
        build_spans_copy::<K, S, PLAIN>(input, scanned, stack, sink, max_depth)
    } else if copy == CLOSED {
        build_spans_copy::<K, S, CLOSED>(input, scanned, stack, sink, max_depth)
    } else {
        build_spans_copy::<K, S, ANY>(input, scanned, stack, sink, max_depth)
    };
    match built {
        Ok(()) => Ok(()),
        Err(fault) => Err(fault.into_error()),
    }
}

// Returns the first of two stacks, or, if it is too short for so deep an input, the other.
#[inline(always)]
fn stack_for<'s>(
    stack: &'s mut [StackState],
    few: &'s mut [StackState],
    depth: usize,
) -> &'s mut [StackState]
    requires { depth ≤ max (length stack.old) (length few.old) }
    ensures { depth ≤ length result.now }
{
    if depth <= stack.len() { stack } else { few }
}

// Chooses the copy of the machine for an input.
#[inline(always)]
fn copy_for(input: &[u8], scanned: Scanned<'_>) -> usize
    requires { IsScanOf input.now scanned }
    ensures { IsForCopy result input.now scanned.entry.structural_indexes.now }
{
    let indexes = scanned.structural_indexes;
    let last = input[indexes[indexes.len() - 1] as usize];
    if last != b']' && last != b'}' {
        return ANY;
    }
    if scanned.escape_blocks.is_empty() {
        return PLAIN;
    }
    CLOSED
}
