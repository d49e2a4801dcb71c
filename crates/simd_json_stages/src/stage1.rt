//! The first stage: from bytes to structural indexes, and to the blocks that hold a backslash.
//!
//! A structural index is the byte index of the opening quote of a string or, outside strings, of a
//! structural character or of the first byte of another token. They are found as in simdjson
//! (G. Langdale and D. Lemire, "Parsing Gigabytes of JSON per Second", VLDB Journal 28 (2019),
//! section 3.1): a block of 64 bytes becomes words with a bit for each byte, and the rest is
//! arithmetic on words. The modules, with the steps of that section:
//!
//! ```text
//! classes    64 bytes → a word for each class               vectorized classification
//! words      → the escaped bytes, by runs of backslashes    quoted substrings
//!            → the bytes inside strings, by prefix XOR      quoted substrings
//!            → the starts of tokens                         pseudo-structural characters
//! lists      a word → indexes in the list                   index extraction
//!            memory for the lists
//! encoding   UTF-8, a window at a time                      character encoding
//! scan       the order of all this: windows of 8 KiB, groups of eight blocks, what is left
//! ```
//!
//! Where it differs from simdjson: eight blocks are taken at a time, each step over all of them;
//! the prefix XOR is computed by shifts; the input needs no padding; the lists grow with what is
//! found; and blocks with a backslash are listed, so that stage 2 need not search most strings for
//! escapes. As there, an index is a `u32`.
ghost use Rattle.std.specs.Prelude.{◌≡◌, ◌≤◌, ◌<◌, ◌⊎◌, [], length, max, take, Some, None};
ghost use Rattle.std.specs.Prelude.{IfOk, IfErr, OnOk, OnErr};
ghost use Rattle.simd_json_parts.specs.InputFaults.{input_fault};
ghost use Rattle.simd_json_parts.specs.Positions.{positions};
ghost use Rattle.simd_json_stages.specs.Capacities.{IsNoShorter, IsOutOfMemory, IsScanError};
ghost use Rattle.simd_json_stages.specs.Capacities.{capacity, capped, new_index};
ghost use Rattle.simd_json_stages.specs.EscapeBlocks.{backslash_blocks, blocks_in};
ghost use Rattle.simd_json_stages.specs.Scans.{LacksListMemory};

use crate::stage2::Scanned;
pub use lists::lengthen;
use scan::{scan_blocks, scan_rest};
use simd_json_parts::error::{Error, ErrorType, Result};
use std::alloc::{Allocator, Global};
use std::marker::Model;

mod classes;
mod encoding;
mod lists;
mod scan;
mod words;

/// The number of bytes of a block. The last block of an input may have fewer.
pub const BLOCK_LEN: usize = 64;

/// How many entries of the two lists are in use, from their front. A call of
/// [`find_structural_bits`](Stage1Parse::find_structural_bits) returns it.
#[derive(Clone, Copy, Debug, PartialEq, Eq)]
pub struct Found {
    /// The number of structural indexes of the input.
    pub positions: usize,
    /// The number of its blocks of 64 bytes that hold a backslash.
    pub escape_blocks: usize,
}

/// The first stage of a parse: it finds the structural indexes of an input.
///
/// The trait states what every implementation must find. [`BlockStage1Parse`] is the one that
/// parses use.
pub trait Stage1Parse {
    /// Lists the structural indexes of `input` at the front of `structural_indexes`, each as a byte
    /// index into `input`. At the front of `escape_blocks` it lists the blocks of 64 bytes that
    /// hold a backslash, each by its number: block `n` begins at byte `64 * n`. A string that lies
    /// in other blocks has no escape.
    ///
    /// Both are ascending. Returns how many entries of each list are in use; what follows them is
    /// unspecified. A list that is too short grows with what is found, and some way ahead of it.
    ///
    /// Returns the error of the whole input, if it has one:
    ///
    /// - `InputTooLarge`: it has more than 4,294,967,295 bytes
    /// - `InvalidUtf8`: it is not UTF-8 (RFC 3629)
    /// - `Syntax`: a string is left open or holds a byte below 0x20 (RFC 8259, section 7)
    /// - `Eof`: it has no structural index
    ///
    /// Returns `OutOfMemory` if a list cannot grow. That is tried only after size and encoding have
    /// been checked, and only where `structural_indexes` has fewer entries than `input` has bytes,
    /// or `escape_blocks` fewer than `input` has blocks.
    ///
    /// After an error no entry of either list is in use, and their contents are unspecified. In any
    /// case they are no shorter than before.
    fn find_structural_bits<A: Allocator>(
        input: &[u8],
        structural_indexes: &mut Vec<u32, A>,
        escape_blocks: &mut Vec<u32, A>,
    ) -> Result<Found>
        ensures found { IfOk result (λ found.
            (found.positions ≤ length structural_indexes.new.items)
            × (take found.positions structural_indexes.new.items ≡ positions input.now)
            × (input_fault input.now ≡ None)) }
        ensures escapes { IfOk result (λ found.
            (found.escape_blocks ≤ length escape_blocks.new.items)
            × (take found.escape_blocks escape_blocks.new.items ≡ backslash_blocks input.now)) }
        ensures fault { IfErr result (λ e. (input_fault input.now ≡ Some e)
            ⊎ LacksListMemory input.now e structural_indexes.old.items escape_blocks.old.items) }
        ensures capacity { length structural_indexes.old.items
            ≤ length structural_indexes.new.items }
        ensures block_capacity { length escape_blocks.old.items ≤ length escape_blocks.new.items };
}

/// The first stage by blocks of 64 bytes: vectors of 32 bytes tell the classes of bytes apart, and
/// the rest is arithmetic on words of 64 bits.
pub struct BlockStage1Parse;

impl Stage1Parse for BlockStage1Parse {
    fn find_structural_bits<A: Allocator>(
        input: &[u8],
        structural_indexes: &mut Vec<u32, A>,
        escape_blocks: &mut Vec<u32, A>,
    ) -> Result<Found> {
        if input.len() > u32::MAX as usize {
            return Err(Error::generic(ErrorType::InputTooLarge));
        }
        let (blocks, rest) = input.as_chunks::<64>();
        let (done, checked) = scan_blocks(input, blocks, structural_indexes, escape_blocks)?;
        let (has_bad_string, found) = scan_rest(
            input,
            rest,
            done,
            checked,
            structural_indexes,
            escape_blocks,
        )?;
        if has_bad_string {
            return Err(Error::generic(ErrorType::Syntax));
        }
        if found.positions == 0 {
            return Err(Error::generic(ErrorType::Eof));
        }
        Ok(found)
    }
}

/// The structural indexes of one input after another, and the memory for them: four bytes for each,
/// and as many for each block of 64 bytes that holds a backslash.
///
/// It grows by what an input needs, and never shrinks. What it held before does not change a
/// result. See [`scan`](Index::scan).
#[derive(Drop)]
pub struct Index<A: Allocator = Global> {
    // structural indexes (byte indexes into the input), and entries not in use
    indexes: Vec<u32, A>,
    // numbers of blocks of 64 bytes that hold a backslash, and entries not in use
    escape_blocks: Vec<u32, A>,
    // how many of either are in use, from the front
    used: Found,
}

impl<A: Allocator> Model for Index<A> {
    ghost use Rattle.std.specs.Prelude.{◌≤◌, length};
    ghost use Rattle.simd_json_stages.specs.Capacities.{IndexCapacities, capacities_of};

    ghost Value = { IndexCapacities };

    ghost view = { λ i. capacities_of i.indexes.items i.used.positions i.escape_blocks.items
        i.used.escape_blocks };

    ghost invariant = { λ i. (i.used.positions ≤ length i.indexes.items)
        × (i.used.escape_blocks ≤ length i.escape_blocks.items) };
}

// No entry is in use.
const NONE: Found = Found {
    positions: 0,
    escape_blocks: 0,
};

impl<A: Allocator + Copy> Index<A> {
    /// Returns an index without capacity, which allocates nothing.
    pub fn empty(a: A) -> Index<A>
        ensures { result ≡ new_index 0 }
    {
        Index {
            indexes: Vec::new(a),
            escape_blocks: Vec::new(a),
            used: NONE,
        }
    }

    /// Returns an index with capacity for inputs of up to `input_len` bytes (more than
    /// 4,294,967,295 count as that number, the greatest size of an input). `input_len` is a hint,
    /// and may be 0: [`scan`](Index::scan) allocates what an input needs beyond it.
    ///
    /// Returns `OutOfMemory` if an allocation fails.
    pub fn new(a: A, input_len: usize) -> Result<Index<A>>
        ensures made { IfOk result (λ index. index ≡ new_index input_len) }
        ensures fault { IfErr result (λ e. IsOutOfMemory e × (0 < input_len)) }
    {
        let mut index = Index::empty(a);
        index.reserve(input_len)?;
        Ok(index)
    }
}

impl<A: Allocator> Index<A> {
    /// Reserves capacity for inputs of up to `input_len` bytes (more than 4,294,967,295 count as
    /// that number): after it [`scan`](Index::scan) never returns `OutOfMemory` for such an input,
    /// however many follow.
    ///
    /// What is listed stays. Returns `OutOfMemory` if an allocation fails; what has been reserved
    /// by then stays.
    pub fn reserve(&mut self, input_len: usize) -> Result<()>
        ensures reserved { OnOk result (capped input_len ≤ capacity self.new) }
        ensures exact { OnOk result (self.new ≡ record self.old {
          indexes = max self.old.indexes (capped input_len);
          blocks = max self.old.blocks (blocks_in (capped input_len));
        }) }
        ensures kept { IsNoShorter self.old self.new }
        ensures same { (self.new.listed ≡ self.old.listed)
            × (self.new.escapes ≡ self.old.escapes) }
        ensures fault { IfErr result (λ e. IsOutOfMemory e
            × (capacity self.old < capped input_len)) }
    {
        let len = input_len.min(u32::MAX as usize);
        lengthen(&mut self.indexes, len, 0)?;
        lengthen(&mut self.escape_blocks, len.div_ceil(BLOCK_LEN), 0)?;
        Ok(())
    }

    /// Finds the structural indexes of an input: the byte index of the opening quote of each string
    /// and, outside strings, of each structural character and of the first byte of each other
    /// token. The input is neither copied nor written.
    ///
    /// Returns the error of the whole input, as a parse does, at index 0 and without a character:
    ///
    /// - `InputTooLarge`: it has more than 4,294,967,295 bytes
    /// - `InvalidUtf8`: it is not UTF-8 (RFC 3629)
    /// - `Syntax`: a string is left open or holds a byte below 0x20 (RFC 8259, section 7)
    /// - `Eof`: it is empty or whitespace
    ///
    /// Returns `OutOfMemory` if an allocation fails: only if size and encoding are right, and only
    /// if there is no capacity for as many bytes as the input has. After an error nothing is
    /// listed.
    ///
    /// It does not test whether each token is where the grammar expects one.
    pub fn scan(&mut self, input: &[u8]) -> Result<()>
        ensures indexes { OnOk result (self.new.listed ≡ positions input.now) }
        ensures escapes { OnOk result (self.new.escapes ≡ backslash_blocks input.now) }
        ensures whole { OnOk result (input_fault input.now ≡ None) }
        ensures empty { OnErr result (self.new.listed ≡ []) }
        ensures kept { IsNoShorter self.old self.new }
        ensures fault { IfErr result (λ e. IsScanError input.now self.old e) }
    {
        self.used = NONE;
        self.used = BlockStage1Parse::find_structural_bits(
            input,
            &mut self.indexes,
            &mut self.escape_blocks,
        )?;
        Ok(())
    }

    /// Empties what is listed, and keeps the capacity.
    pub fn clear(&mut self)
        ensures { self.new ≡ record self.old { listed = []; escapes = [] } }
    {
        self.used = NONE;
    }

    /// Returns what is listed, as the second stage takes it.
    #[inline(always)]
    pub fn scanned(&self) -> Scanned<'_>
        ensures indexes { result.structural_indexes.now ≡ self.now.listed }
        ensures blocks { result.escape_blocks.now ≡ self.now.escapes }
    {
        Scanned {
            structural_indexes: &self.indexes[..self.used.positions],
            escape_blocks: &self.escape_blocks[..self.used.escape_blocks],
        }
    }

    /// Returns the structural indexes that are listed: those of the last input, or none if a scan
    /// returned an error.
    #[inline(always)]
    pub fn structural_indexes(&self) -> &[u32]
        ensures { result.now ≡ self.now.listed }
    {
        &self.indexes[..self.used.positions]
    }
}
