//! The two stages of a parse, as in simdjson: G. Langdale and D. Lemire, "Parsing Gigabytes of JSON
//! per Second", VLDB Journal 28 (2019), section 3.
//!
//! - [`stage1`] (section 3.1): from bytes to structural indexes, and to the blocks of 64 bytes that
//!   hold a backslash. An [`Index`] keeps the memory for both from one input to the next.
//! - [`stage2`] (section 3.2): from structural indexes to nodes.
//! - [`laws`]: theorems about this crate's definitions, each the contract of a function with an
//!   empty body.
#![tactic(auto)]

pub mod laws;
pub mod stage1;
pub mod stage2;

pub use stage1::Index;

/// How many containers may be open at a time, unless another limit is given.
pub const DEFAULT_MAX_DEPTH: usize = 1024;

/// For how many open containers there is a stack that is not allocated.
pub const FEW_OPEN: usize = 64;
