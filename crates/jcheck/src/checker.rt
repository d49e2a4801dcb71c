//! Checks of documents one after another, over the memory of earlier ones.
ghost use Rattle.std.specs.Prelude.{◌≡◌, IfOk};
ghost use Rattle.simd_json_check.specs.Reasons.{found_in};

use simd_json_check::Location;
use std::alloc::{AllocError, Global};

/// The memory that checks use one after another, and how many containers may be open at a time.
#[derive(Drop)]
pub struct DocumentChecker {
    alloc: Global,
    checker: simd_json_check::Checker,
    depth: usize,
}

impl DocumentChecker {
    /// Returns a checker of documents with at most `depth` containers open at a time.
    pub fn new(alloc: Global, depth: usize) -> DocumentChecker
        ensures { result.depth ≡ depth }
    {
        DocumentChecker {
            alloc,
            checker: simd_json_check::Checker::empty(alloc),
            depth,
        }
    }

    // The allocator.
    pub(crate) fn alloc(&self) -> Global {
        self.alloc
    }

    /// Returns the place and the reason of the first error, or `None` if the input is a document.
    pub fn check(&mut self, input: &[u8]) -> Result<Option<Location>, AllocError>
        ensures found { IfOk result (λ found. found ≡ found_in input.now self.old.depth) }
        ensures depth { self.new.depth ≡ self.old.depth }
    {
        self.checker.locate(input, self.depth)
    }
}
