//! A document, and a value in it: places among the structural indexes.
ghost use Rattle.std.specs.Prelude.{◌≡◌, ◌<◌, length, ◌⊎◌, ℕ, Ok, Err, Some, None, IfOk, OnOk};
ghost use Rattle.std.specs.Prelude.{IfErr, slice_index, drop};
ghost use Rattle.simd_json_check.specs.Scanned.{IsWholeScan};
ghost use Rattle.simd_json_check.specs.Checkers.{IsUnchecked};
ghost use Rattle.simd_json_parts.specs.Answer.{answer};
ghost use Rattle.simd_json_parts.specs.InputFaults.{input_fault};
ghost use Rattle.simd_json_parts.specs.Positions.{positions};
ghost use Rattle.simd_json_stages.specs.Capacities.{IsScanError};
ghost use Rattle.simd_json_parts.specs.Bytes.{byte_at};
ghost use Rattle.simd_json_parts.specs.Tokens.{form_at};
ghost use Rattle.simd_json_parts.specs.Document as parts;

use simd_json_check::Checker;
use simd_json_parts::error::Result;
use simd_json_stages::Index;
use std::alloc::Allocator;

/// An input whose structural indexes are known. Whether it is a document of the grammar is tested
/// only where values are read.
#[derive(Clone, Copy, Debug)]
pub struct Document<'d> {
    pub(crate) input: &'d [u8],
    pub(crate) indexes: &'d [u32],
    ghost scanned: { IsWholeScan input.now indexes.now },
}

/// A value of a document, or what is found in the place of one.
#[derive(Clone, Copy, Debug)]
pub struct Value<'d> {
    pub(crate) document: Document<'d>,
    // how many structural indexes are before its first
    pub(crate) at: usize,
    ghost inside: { at < length document.indexes.now },
}

impl<'d> Document<'d> {
    ghost use Rattle.simd_json_ondemand.specs.Docs.{places, root, text};

    /// Finds the structural indexes of an input, as [`Index::scan`] does, and returns its document,
    /// which borrows both. The input is neither copied nor written.
    ///
    /// The errors are those of [`Index::scan`]: one of the input as a whole, or `OutOfMemory` if an
    /// allocation fails.
    ///
    /// Whether each token is where the grammar expects one is not tested here, but where values are
    /// read; [`check`](Document::check) tests it. If the input is a document that a parse accepts,
    /// at any depth limit, the root is that document.
    ///
    /// ```
    /// use simd_json_ondemand::{Document, Index, Result};
    ///
    /// fn sum(rt: &impl AllocGlobal, numbers: &[&[u8]]) -> Result<u64> {
    ///     let mut index = Index::new(rt.alloc(), 64)?;
    ///     let mut sum = 0u64;
    ///     for number in numbers {
    ///         let root = Document::scan(&mut index, number)?.as_value();
    ///         sum = sum.saturating_add(root.as_u64().unwrap_or(0));
    ///     }
    ///     Ok(sum)
    /// }
    /// ```
    pub fn scan<A: Allocator>(index: &'d mut Index<A>, input: &'d [u8]) -> Result<Document<'d>>
        ensures input { IfOk result (λ document. text document ≡ input.now) }
        ensures indexes { IfOk result (λ document. places document ≡ positions input.now) }
        ensures whole { OnOk result (input_fault input.now ≡ None) }
        ensures document { IfOk result (λ document. (d : parts.Document) (limit : ℕ)
            → answer input.now limit ≡ Ok d → root document ≡ Some d) }
        ensures fault { IfErr result (λ e. IsScanError input.now index.old e) }
    {
        index.scan(input)?;
        Ok(Document::new(index, input))
    }

    /// Checks all of an input, as [`Checker::check`] does: that it is one document (RFC 8259) with
    /// at most `max_depth` containers open at a time. So each call on the values of the document
    /// returns what the same call of `simd_json`'s tape returns.
    ///
    /// Returns the error of [`Checker::check`], the first of a parse by `simd_json` within that
    /// depth limit, with its kind, index and character; or `OutOfMemory` if an allocation fails.
    /// The input stays unchanged.
    ///
    /// ```
    /// use simd_json_ondemand::{Checker, Document, Result};
    ///
    /// // The value of a key in a document that is checked as a whole.
    /// fn get(rt: &impl AllocGlobal, input: &[u8], key: &str) -> Result<Option<u64>> {
    ///     let mut checker = Checker::empty(rt.alloc());
    ///     let document = Document::check(&mut checker, input, 1024)?;
    ///     Ok(document.as_value().get(key).and_then(|value| value.as_u64()))
    /// }
    /// ```
    pub fn check<A: Allocator>(
        checker: &'d mut Checker<A>,
        input: &'d [u8],
        max_depth: usize,
    ) -> Result<Document<'d>>
        ensures input { IfOk result (λ document. text document ≡ input.now) }
        ensures indexes { IfOk result (λ document. places document ≡ positions input.now) }
        ensures document { IfOk result (λ document. (d : parts.Document)
            × (answer input.now max_depth ≡ Ok d) × (root document ≡ Some d)) }
        ensures fault { IfErr result (λ e. (answer input.now max_depth ≡ Err e)
            ⊎ IsUnchecked input.now max_depth checker.old e) }
    {
        checker.check(input, max_depth)?;
        Ok(Document::new(&checker.index, input))
    }

    /// Returns the document of an input whose structural indexes an index lists: that of its last
    /// [`Index::scan`], if it returned no error.
    ///
    /// [`scan`](Document::scan) lets the document borrow the index, and its contract says nothing
    /// of the index afterwards. A caller that has reserved memory calls [`Index::scan`] and then
    /// this, and can prove that no later call fails for it.
    pub fn new<A: Allocator>(index: &'d Index<A>, input: &'d [u8]) -> Document<'d>
        requires indexes { index.now.listed ≡ positions input.now }
        requires whole { input_fault input.now ≡ None }
        ensures input { text result ≡ input.now }
        ensures indexes { places result ≡ positions input.now }
        ensures document { (d : parts.Document) (limit : ℕ) → answer input.now limit ≡ Ok d
            → root result ≡ Some d }
    {
        Document {
            input,
            indexes: index.structural_indexes(),
        }
    }
}

impl<'d> Document<'d> {
    ghost use Rattle.simd_json_ondemand.specs.Docs.{doc, form, root, text, places};
    ghost use Rattle.simd_json_ondemand.specs.Sites.{site};

    // The first byte of the token with this number.
    #[inline(always)]
    #[tactic(auto, using(simd_json_check::proofs::Scans::within))]
    pub(crate) fn byte(self, at: usize) -> u8
        requires { at < length (places self) }
        ensures { result ≡ byte_at (text self.entry) (slice_index (places self.entry) at) }
    {
        self.input[self.indexes[at] as usize]
    }

    /// Returns the root of the document: the value at the first structural index.
    #[inline(always)]
    #[tactic(auto, using(simd_json_check::proofs::Scans::some_position))]
    pub fn as_value(self) -> Value<'d>
        ensures document { doc result ≡ root self.entry }
        ensures place { site result ≡ (text self.entry, places self.entry) }
        ensures token { form result
            ≡ form_at (text self.entry) (slice_index (places self.entry) 0) }
    {
        Value {
            document: self,
            at: 0,
        }
    }
}

impl<'d> Value<'d> {
    ghost use Rattle.simd_json_ondemand.specs.Docs.{text, index_of, form};
    ghost use Rattle.simd_json_ondemand.specs.Standing.{opens_array, opens_object};

    // The input from the value's first byte on.
    #[inline(always)]
    #[tactic(auto, using(simd_json_check::proofs::Scans::within))]
    pub(crate) fn bytes(self) -> &'d [u8]
        ensures bytes { result.now ≡ drop (index_of self.entry) (text self.entry.document) }
        ensures some { 0 < length result.now }
    {
        let at = self.document.indexes[self.at] as usize;
        &self.document.input[at..]
    }

    // The value's first byte.
    #[inline(always)]
    #[tactic(auto, using(simd_json_check::proofs::Scans::within))]
    pub(crate) fn first(self) -> u8
        ensures { result ≡ byte_at (text self.entry.document) (index_of self.entry) }
    {
        self.document.input[self.document.indexes[self.at] as usize]
    }

    /// Returns the byte index in the input at which the value begins.
    #[inline(always)]
    pub fn index(self) -> usize
        ensures { result ≡ index_of self.entry }
    {
        self.document.indexes[self.at] as usize
    }

    /// Returns whether the value is an array.
    #[inline(always)]
    #[tactic(auto, using(crate::proofs::Standing::opens_array_byte))]
    pub fn is_array(self) -> bool
        ensures { result ≡ opens_array (form self.entry) }
    {
        self.first() == b'['
    }

    /// Returns whether the value is an object.
    #[inline(always)]
    #[tactic(auto, using(crate::proofs::Standing::opens_object_byte))]
    pub fn is_object(self) -> bool
        ensures { result ≡ opens_object (form self.entry) }
    {
        self.first() == b'{'
    }
}
