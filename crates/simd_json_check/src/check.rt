//! The test of a whole input: along its structural indexes and, where that finds a fault, by the
//! second stage of a parse over a copy of the input, into a sink that keeps no node.
ghost use Rattle.std.specs.Prelude.{◌≡◌, ◌≤◌, ◌<◌, ◌⊎◌, ◌++◌, ◌∷◌, [], List, length};
ghost use Rattle.std.specs.Prelude.{Ok, Err, IsTrue, OnOk, IfErr, min, max};
ghost use Rattle.std.specs.Result.{result_err};
ghost use Rattle.std.specs.Vec.{vec_capacity};
ghost use Rattle.simd_json_check.specs.Checkers.{IsUnchecked, KeepsChecker, new_checker};
ghost use Rattle.simd_json_parts.specs.Answer.{answer};
ghost use Rattle.simd_json_parts.specs.Descent.{descent};
ghost use Rattle.simd_json_parts.specs.Document.{Document};
ghost use Rattle.simd_json_parts.specs.Limits.{max_length};
ghost use Rattle.simd_json_parts.specs.Positions.{positions};
ghost use Rattle.simd_json_stages.specs.Capacities.{LacksMemory, positions_after};
ghost use Rattle.simd_json_stages.specs.Placed.{Placed};
ghost use Rattle.simd_json_stages.specs.Scans.{IsScanOf};

use crate::escapes::are_escapes_valid;
use crate::nested::value_end;
use simd_json_parts::error::Result;
use simd_json_parts::node::StaticNode;
use simd_json_stages::stage1::lengthen;
use simd_json_stages::stage2::{
    Container, Noted, Original, Scanned, SpanSink, StackState, build_spans,
};
use simd_json_stages::{FEW_OPEN, Index};
use std::alloc::{Allocator, Global};
use std::marker::{Brand, Model};

/// The memory that checks use one after another: an index, and that of a second pass over an input
/// that is rejected or deeply nested.
///
/// Each list grows by what an input needs, and never shrinks. What it held before does not change a
/// result. See [`check`](Checker::check).
#[derive(Drop)]
pub struct Checker<A: Allocator = Global> {
    /// The structural indexes of the last input. To find them alone, call
    /// [`scan`](Index::scan) of it.
    pub index: Index<A>,
    // the copy of an input that the second pass parses, and its stack, in use only during a check
    copy: Vec<u8, A>,
    stack: Vec<StackState, A>,
}

impl<A: Allocator> Model for Checker<A> {
    ghost use Rattle.std.specs.Prelude.{length};
    ghost use Rattle.std.specs.Vec.{vec_capacity};
    ghost use Rattle.simd_json_check.specs.Checkers.{CheckerCapacities};

    ghost Value = { CheckerCapacities };

    ghost view = { λ c. record {
      index = c.index;
      copied = vec_capacity c.copy;
      opened = length c.stack.items;
    } };
}

impl<A: Allocator + Copy> Checker<A> {
    /// Returns a checker that holds no memory yet.
    pub fn empty(a: A) -> Checker<A>
        ensures { result ≡ new_checker }
    {
        Checker {
            index: Index::empty(a),
            copy: Vec::new(a),
            stack: Vec::new(a),
        }
    }
}

impl<A: Allocator> Checker<A> {
    /// Finds the structural indexes of an input, as [`scan`](Index::scan) does, and checks all of
    /// it: that it is one document (RFC 8259) with at most `max_depth` containers open at a time; 0
    /// allows scalars only.
    ///
    /// Returns the first error of a parse by `simd_json` within that depth limit, with its kind,
    /// index and character:
    ///
    /// - an error of the whole input, as [`scan`](Index::scan) returns it, or else
    /// - that of the first token that is rejected, from the left: because another is expected
    ///   (RFC 8259, sections 2, 4 and 5), because of its letters (section 3), as a number
    ///   (section 6), for an escape (section 7), or because it opens a container beyond the limit
    ///   (section 9)
    ///
    /// Returns `OutOfMemory` if an allocation fails: only if size and encoding are right, and only
    /// if there is no capacity for as many bytes as the input has. After an error without a
    /// character nothing is listed; otherwise the structural indexes of the input are.
    ///
    /// The input stays unchanged. A document with at most 64 containers open at a time is checked
    /// in place, without memory but for the structural indexes. For any other input the second
    /// stage of a parse runs, and keeps no node. A parse decodes strings in place, so it works on a
    /// copy of the input. It takes 24 bytes for each container that may be open (`max_depth`, or
    /// one for each structural index, whichever is less) if these are more than 64. The checker
    /// keeps the memory of both for the next check.
    ///
    /// ```
    /// use simd_json_check::{Checker, ErrorType, Result};
    ///
    /// // Whether the bytes are a JSON text.
    /// fn is_json(rt: &impl AllocGlobal, input: &[u8]) -> Result<bool> {
    ///     let mut checker = Checker::empty(rt.alloc());
    ///     match checker.check(input, 1024) {
    ///         Ok(()) => Ok(true),
    ///         Err(e) if *e.error() == ErrorType::OutOfMemory => Err(e),
    ///         Err(_) => Ok(false),
    ///     }
    /// }
    /// ```
    pub fn check(&mut self, input: &[u8], max_depth: usize) -> Result<()>
        ensures document { OnOk result ((d : Document) × (answer input.now max_depth ≡ Ok d)) }
        ensures listed { self.new.index.listed ≡ positions_after input.now (result_err result) }
        ensures kept { KeepsChecker self.old self.new }
        ensures fault { IfErr result (λ e. (answer input.now max_depth ≡ Err e)
            ⊎ IsUnchecked input.now max_depth self.old e) }
    {
        self.index.scan(input)?;
        let scanned = self.index.scanned();
        if is_document(input, scanned, max_depth) {
            return Ok(());
        }
        let parsed = parse_copy(&mut self.copy, &mut self.stack, input, scanned, max_depth);
        if let Err(e) = &parsed
            && e.character().is_none()
        {
            self.index.clear();
        }
        parsed
    }
}

// Whether an input whose structural indexes and blocks with a backslash are known is a document
// within the depth limit, and with at most `FEW_OPEN` containers open at a time: so deep the calls
// nest.
fn is_document(input: &[u8], scanned: Scanned<'_>, max_depth: usize) -> bool
    requires { IsScanOf input.now scanned }
    ensures { IsTrue result → (d : Document) × (answer input.now max_depth ≡ Ok d) }
{
    if !are_escapes_valid(input, scanned.escape_blocks) {
        return false;
    }
    let indexes = scanned.structural_indexes;
    match value_end(input, indexes, 0, max_depth.min(FEW_OPEN)) {
        Some(end) => end == indexes.len(),
        None => false,
    }
}

// Parses a copy of an input whose structural indexes and blocks with a backslash are known.
fn parse_copy<A: Allocator>(
    copy: &mut Vec<u8, A>,
    stack: &mut Vec<StackState, A>,
    input: &[u8],
    scanned: Scanned<'_>,
    max_depth: usize,
) -> Result<()>
    requires { IsScanOf input.now scanned }
    ensures document { OnOk result ((d : Document) × (answer input.now max_depth ≡ Ok d)) }
    ensures kept { (vec_capacity copy.old ≤ vec_capacity copy.new)
        × (length stack.old.items ≤ length stack.new.items) }
    ensures fault { IfErr result (λ e. (answer input.now max_depth ≡ Err e)
        ⊎ (LacksMemory input.now e × ((vec_capacity copy.old < length input.now)
        ⊎ (length stack.old.items < min (length input.now) max_depth)))) }
{
    copy.clear();
    copy.extend_from_slice(input)?;
    let open = scanned.structural_indexes.len().min(max_depth);
    if open > FEW_OPEN {
        lengthen(stack, open, StackState::EMPTY)?;
    }
    count_nodes::<Brand>(
        copy.as_mut_slice(),
        scanned,
        stack.as_mut_slice(),
        max_depth,
    )
}

// Runs the second stage, and keeps none of the nodes.
fn count_nodes<K: Original>(
    input: &mut [u8],
    scanned: Scanned<'_>,
    stack: &mut [StackState],
    max_depth: usize,
) -> Result<()>
    requires input { input.old ≡ K.bytes }
    requires scanned { IsScanOf K.bytes scanned }
    requires stack { min (length (positions K.bytes)) max_depth ≤ max (length stack.old) 64 }
    ensures document { OnOk result ((d : Document) × (descent K.bytes max_depth ≡ Ok d)) }
    ensures fault { IfErr result (λ e. descent K.bytes max_depth ≡ Err e) }
{
    let mut few = [StackState::EMPTY; FEW_OPEN];
    let mut sink = Counted {
        count: 0,
        noted: Noted::of(&()),
    };
    build_spans::<K, Counted>(input, scanned, stack, &mut few, &mut sink, max_depth)
}

// The counts of a sink without nodes.
#[derive(Drop)]
struct Counted {
    // how many nodes were appended
    count: usize,
    // the ghost record of the nodes
    noted: Noted,
    ghost counted: { count ≡ length noted.note.placed },
}

impl Counted {
    // Counts a node that the caller's proof chooses; `seen` makes its values available to that
    // proof.
    #[inline(always)]
    fn put<T>(&mut self, seen: &T)
        ghost node: { Placed }
        requires { length self.old.noted.note.placed < max_length }
        ensures { self.new.noted.note.placed ≡ self.old.noted.note.placed ++ node ∷ [] }
    {
        self.count += 1;
        self.noted = Noted::of(&(&self.noted, seen));
    }
}

impl SpanSink for Counted {
    ghost placed = { λ s. s.noted.note.placed };

    ghost node_room = { λ _. max_length };

    ghost Lender = { Unit {0} };

    ghost lender = { λ _. tt };

    #[inline(always)]
    fn len(&self) -> usize {
        self.count
    }

    #[inline(always)]
    fn push_string(&mut self, at: usize, string: &str) {
        self.put(&(at, string));
    }

    #[inline(always)]
    fn push_decimal(&mut self, at: usize, literal: &str) {
        self.put(&(at, literal));
    }

    #[inline(always)]
    fn push_wide(&mut self, at: usize, literal: &str, value: StaticNode) {
        self.put(&(at, literal, value));
    }

    #[inline(always)]
    fn push_static(&mut self, value: StaticNode) {
        self.put(&value);
    }

    #[inline(always)]
    fn push_header(&mut self, container: Container) {
        self.put(&container);
    }

    #[inline(always)]
    fn set_counts(&mut self, header: usize, container: Container, len: usize, count: usize) {
        self.noted = Noted::of(&(&self.noted, header, container, len, count));
    }
}
