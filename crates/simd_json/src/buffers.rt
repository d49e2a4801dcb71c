//! The memory that parses use one after another: what the first stage lists, and the stack of the
//! second.
ghost use Rattle.std.specs.Prelude.{◌≡◌, ◌≤◌, ◌<◌, ◌⊎◌, [], length, OnOk, OnErr, IfOk, IfErr, Some};
ghost use Rattle.simd_json.specs.Capacities.{HoldsScan, KeepsCapacities, ListsSame, capacity};
ghost use Rattle.simd_json.specs.Capacities.{new_buffers, with_room};
ghost use Rattle.simd_json_stages.specs.Capacities.{IsOutOfMemory, LacksMemory, capped};
ghost use Rattle.simd_json_stages.specs.Capacities.{default_max_depth};
ghost use Rattle.simd_json_parts.specs.InputFaults.{input_fault};

use crate::DEFAULT_MAX_DEPTH;
use simd_json_parts::error::Result;
use simd_json_stages::stage1::lengthen;
use simd_json_stages::stage2::StackState;
use simd_json_stages::{FEW_OPEN, Index};
use std::alloc::{Allocator, Global};
use std::marker::Model;

/// The memory that parses use one after another, and their depth limit: the lists of the structural
/// indexes and of the blocks that hold a backslash, and the stack of the open containers.
///
/// Each list grows by what an input needs, and never shrinks. What buffers held before does not
/// change a result.
#[derive(Drop)]
pub struct Buffers<A: Allocator = Global> {
    // the structural indexes, and the blocks that hold a backslash
    pub(crate) index: Index<A>,
    // the stack of the second stage, in use only during a parse
    pub(crate) stack: Vec<StackState, A>,
    // a stack for a few containers, in place of one that is too short, so that a parse of a short
    // input allocates none
    pub(crate) few: [StackState; FEW_OPEN],
    // how many containers may be open at a time
    pub(crate) max_depth: usize,
}

impl<A: Allocator> Model for Buffers<A> {
    ghost use Rattle.std.specs.Prelude.{length};
    ghost use Rattle.simd_json.specs.Capacities.{Capacities};

    ghost Value = { Capacities };

    ghost view = { λ b. record {
      index = b.index;
      limit = b.max_depth;
      stack_capacity = length b.stack.items;
    } };
}

impl<A: Allocator + Copy> Buffers<A> {
    /// Returns buffers with which at most [`DEFAULT_MAX_DEPTH`] containers may be open at a time.
    /// See [`with_max_depth`](Buffers::with_max_depth).
    pub fn new(a: A, input_len: usize) -> Result<Buffers<A>>
        ensures made { IfOk result
            (λ buffers. buffers ≡ new_buffers input_len default_max_depth) }
        ensures fault { IfErr result (λ e. IsOutOfMemory e × (0 < input_len)) }
    {
        Buffers::with_max_depth(a, input_len, DEFAULT_MAX_DEPTH)
    }

    /// Returns buffers with which at most `max_depth` containers may be open at a time; 0 allows
    /// scalars only.
    ///
    /// They list no structural index. They have capacity for those that an input of `input_len`
    /// bytes may have (more than 4,294,967,295 count as that number, the greatest size of an
    /// input), and none for open containers yet: the depth limit costs nothing before an input is
    /// as deep. `input_len` is a hint, and may be 0: a parse allocates what an input needs beyond
    /// it.
    ///
    /// Returns `OutOfMemory` if an allocation fails.
    pub fn with_max_depth(a: A, input_len: usize, max_depth: usize) -> Result<Buffers<A>>
        ensures made { IfOk result (λ buffers. buffers ≡ new_buffers input_len max_depth) }
        ensures fault { IfErr result (λ e. IsOutOfMemory e × (0 < input_len)) }
    {
        let mut buffers = Buffers::empty(a, max_depth);
        buffers.index.reserve(input_len)?;
        Ok(buffers)
    }

    /// Returns buffers with which at most `max_depth` containers may be open at a time, and which
    /// hold no memory yet. They list no structural index. A parse allocates what an input needs.
    ///
    /// ```
    /// use simd_json::{Buffers, to_tape_with_buffers};
    ///
    /// // Whether the bytes are read as a document with at most two containers open at a time.
    /// fn is_shallow(rt: &impl AllocGlobal, input: &mut [u8]) -> bool {
    ///     let mut buffers = Buffers::empty(rt.alloc(), 2);
    ///     to_tape_with_buffers(input, &mut buffers).is_ok()
    /// }
    /// ```
    pub fn empty(a: A, max_depth: usize) -> Buffers<A>
        ensures { result ≡ new_buffers 0 max_depth }
    {
        Buffers {
            index: Index::empty(a),
            stack: Vec::new(a),
            few: [StackState::EMPTY; FEW_OPEN],
            max_depth,
        }
    }
}

impl<A: Allocator> Buffers<A> {
    /// Returns the structural indexes of the input that was read last: the byte index of the
    /// opening quote of each string and, outside strings, of each structural character and of the
    /// first byte of each other token. In ascending order.
    ///
    /// Empty before the first parse, and after one that returned an error without a character.
    pub fn structural_indexes(&self) -> &[u32]
        ensures { result.now ≡ self.now.index.listed }
    {
        self.index.structural_indexes()
    }

    /// Returns how many containers may be open at a time.
    pub fn max_depth(&self) -> usize
        ensures { result ≡ self.now.limit }
    {
        self.max_depth
    }

    /// Reserves capacity for inputs of up to `input_len` bytes (more than 4,294,967,295 count as
    /// that number): for their structural indexes, and for as many open containers as they can have
    /// within the depth limit.
    ///
    /// With as much capacity on the tape, which [`reserve`](crate::reserve) sees to, no parse of
    /// such an input returns `OutOfMemory`, however many follow. The structural indexes that are
    /// listed stay.
    ///
    /// Returns `OutOfMemory` if an allocation fails; what capacity has been reserved by then stays.
    pub fn reserve(&mut self, input_len: usize) -> Result<()>
        ensures capacity { OnOk result (capped input_len ≤ capacity self.new) }
        ensures exact { OnOk result (self.new ≡ with_room (capped input_len) self.old) }
        ensures kept { KeepsCapacities self.old self.new }
        ensures same { ListsSame self.old self.new }
        ensures fault { IfErr result
            (λ e. IsOutOfMemory e × (capacity self.old < capped input_len)) }
    {
        self.index.reserve(input_len)?;
        let open = input_len.min(u32::MAX as usize).min(self.max_depth);
        lengthen(&mut self.stack, open, StackState::EMPTY)?;
        Ok(())
    }

    // Empties what is listed, and keeps its capacity.
    pub(crate) fn clear(&mut self)
        ensures { self.new ≡ record self.old {
          index = record self.old.index { listed = []; escapes = [] };
        } }
    {
        self.index.clear();
    }

    // Lists the structural indexes of the input and its blocks that hold a backslash, and reserves
    // capacity for the containers that they can open within the limit, if these are more than
    // `FEW_OPEN`. Returns the error of the whole input, or `OutOfMemory` if an allocation fails,
    // and lists nothing then.
    pub(crate) fn find_positions(&mut self, input: &[u8]) -> Result<()>
        ensures found { OnOk result (HoldsScan input.now self.new) }
        ensures empty { OnErr result (self.new.index.listed ≡ []) }
        ensures limit { self.new.limit ≡ self.old.limit }
        ensures kept { KeepsCapacities self.old self.new }
        ensures fault { IfErr result (λ e. (input_fault input.now ≡ Some e)
            ⊎ (LacksMemory input.now e × (capacity self.old < length input.now))) }
    {
        self.index.scan(input)?;
        let positions = self.index.scanned().structural_indexes.len();
        let open = positions.min(self.max_depth);
        if open > FEW_OPEN
            && let Err(e) = lengthen(&mut self.stack, open, StackState::EMPTY)
        {
            self.index.clear();
            return Err(e.into());
        }
        Ok(())
    }
}
