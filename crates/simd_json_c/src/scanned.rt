//! An input that a parser keeps, with its structural indexes.
ghost use Rattle.std.specs.Prelude.{◌≡◌, true, None, ℕ, pos, false, Ok, IfOk, IfErr, IsUtf8};
ghost use Rattle.std.specs.Prelude.{option_map, Some};
ghost use Rattle.simd_json_parts.specs.InputFaults.{input_fault};
ghost use Rattle.simd_json_parts.specs.Positions.{positions};
ghost use Rattle.std.specs.Result.{result_ok};
ghost use Rattle.simd_json_ondemand.specs.Docs.{doc};
ghost use Rattle.simd_json_ondemand.specs.Sites.{site};
ghost use Rattle.simd_json_parts.specs.Answer.{answer};
ghost use Rattle.simd_json_parts.specs.Pointed.{pointed};
ghost use Rattle.simd_json_parts.specs.Document as parts;

use simd_json::Result;
use simd_json_ondemand::{Document, Index, Value};
use std::alloc::Global;

/// An input in which values are found, or none.
#[derive(Drop)]
pub struct ScannedInput {
    // a copy of it
    pub(crate) bytes: Vec<u8>,
    // its structural indexes
    pub(crate) index: Index,
    // whether there is one
    pub(crate) is_scanned: bool,
    ghost scanned: { is_scanned ≡ true → (input_fault bytes.items ≡ None)
        × (index.listed ≡ positions bytes.items) },
}

impl ScannedInput {
    ghost use Rattle.simd_json_c.specs.Found.{site_named};
    ghost use Rattle.simd_json_c.specs.Indexed.{IsUnscanned};
    ghost use Rattle.simd_json_c.specs.Kept.{KeepsSource, source_capacity};

    // None, which holds no memory.
    pub(crate) fn new(alloc: Global) -> ScannedInput
        ensures { result.is_scanned ≡ false }
    {
        ScannedInput {
            bytes: Vec::new(alloc),
            index: Index::empty(alloc),
            is_scanned: false,
        }
    }

    // Keeps an input, in place of the one before, or none. Returns 0.
    pub(crate) fn keep(&mut self, input: &[u8]) -> Result<i32>
        ensures zero { IfOk result (λ status. status ≡ pos 0) }
        ensures kept { IfOk result (λ status. (input_fault input.now ≡ None)
            × (self.new.bytes.items ≡ input.now) × (self.new.is_scanned ≡ true)) }
        ensures fault { IfErr result (λ e. IsUnscanned (source_capacity self.old) input.now e
            × (self.new.is_scanned ≡ false)) }
        ensures capacity { KeepsSource self.old self.new }
    {
        self.is_scanned = false;
        self.bytes.clear();
        self.index.scan(input)?;
        self.bytes.extend_from_slice(input)?;
        self.is_scanned = true;
        Ok(0)
    }

    // The value that a pointer names in the input, if there is one and it is UTF-8.
    pub(crate) fn named(&self, pointer: &[u8]) -> Option<Value<'_>>
        ensures none { self.now.is_scanned ≡ false → result ≡ None }
        ensures unnamed { (IsUtf8 pointer.now → ⊥) → result ≡ None }
        ensures place { self.now.is_scanned ≡ true → IsUtf8 pointer.now
            → option_map site result ≡ site_named pointer.now self.now.bytes.items }
        ensures named { self.now.is_scanned ≡ true → IsUtf8 pointer.now
            → (d : parts.Document) (limit : ℕ) → answer self.now.bytes.items limit ≡ Ok d
            → option_map doc result
            ≡ option_map (λ e. Some e) (result_ok (pointed pointer.now d)) }
    {
        if !self.is_scanned {
            return None;
        }
        let pointer = str::from_utf8(pointer).ok()?;
        let document = Document::new(&self.index, &self.bytes);
        document.as_value().pointer(pointer)
    }
}
