//! Whether an input is a JSON document (RFC 8259), and where it is wrong: no nodes are made, and
//! the input is shared and stays unchanged.
//!
//! # What to call
//!
//! | to | call |
//! |---|---|
//! | check inputs one after another, over the same memory | [`Checker::check`] |
//! | find line, column and reason of an error | [`Location`] |
//! | check, and find them | [`Checker::locate`] |
//! | check one input, and find them | [`locate`] |
//! | find structural indexes alone | [`Index::scan`], [`Index::structural_indexes`] |
//! | exclude `OutOfMemory` of `scan` for inputs up to a size | [`Index::reserve`] |
//!
//! # Errors
//!
//! An [`Error`] has a kind ([`ErrorType`]), a byte offset and the byte there. It is the first that
//! a parse by `simd_json` within the same depth limit returns. If an allocation fails,
//! `OutOfMemory` is returned: only for inputs of right size and encoding.
//!
//! # Costs
//!
//! An index takes four bytes for each structural index, and as many for each block of 64 bytes that
//! holds a backslash. A document with at most 64 containers open at a time is checked in place,
//! without further memory. Any other input is copied for a second pass, which checks deeper
//! documents too, and finds the error.
//!
//! # Example
//!
//! ```
//! use simd_json_check::{Checker, DEFAULT_MAX_DEPTH, ErrorType, Result};
//!
//! // How many of the lines are JSON texts.
//! fn count(rt: &impl AllocGlobal, lines: &[&[u8]]) -> Result<usize> {
//!     let mut checker = Checker::empty(rt.alloc());
//!     let mut texts = 0usize;
//!     for line in lines {
//!         match checker.check(line, DEFAULT_MAX_DEPTH) {
//!             Ok(()) => texts = texts.saturating_add(1),
//!             Err(e) if *e.error() == ErrorType::OutOfMemory => return Err(e),
//!             Err(_) => {}
//!         }
//!     }
//!     Ok(texts)
//! }
//! ```
#![tactic(auto)]

mod check;
mod escapes;
mod location;
mod nested;

pub use check::Checker;
pub use location::{Location, Message, Opened, Opening, Reason, ShownKind, locate};
pub use simd_json_parts::error::{Error, ErrorType, Result};
pub use simd_json_stages::{DEFAULT_MAX_DEPTH, Index};
