//! Whether texts are JSON documents, and where and why one is not, with the text around that place.
//!
//! - [`check_document`]: of an input that is one document.
//! - [`check_lines`]: of each line of what a reader gives.
//! - [`check_each`]: of files one after another; the worst that one of them [`Ended`] with.
//! - [`Failure`]: why a check ended before the end of its input.
//! - [`asked`]: what the program's arguments ask for; [`is_colored`]: whether the caret is red.
//!
//! ```
//! use jcheck::{DocumentChecker, Failure, Style, check_document};
//! use programs::Channel;
//!
//! fn report(rt: &impl AllocGlobal, json: &[u8]) -> Result<Vec<u8>, Failure> {
//!     let mut checker = DocumentChecker::new(rt.alloc(), 1024);
//!     let mut out = Channel::new(Vec::new(rt.alloc()));
//!     let style = Style { width: 80, is_colored: false };
//!     check_document(&mut checker, &mut out, "f", json, style)?;
//!     Ok(out.into_inner())
//! }
//! ```
//!
//! For `[1,x]` it returns three lines:
//!
//! ```text
//! f:1:4: expected a value, found `x` [InternalError at byte 3]
//! [1,x]
//!    ^
//! ```
//!
//! The program is a crate of its own, `jcheck_main`.
#![tactic(auto)]

mod checker;
mod excerpt;
mod failure;
mod lines;
mod options;
mod report;
mod terminal;

pub use checker::DocumentChecker;
pub use excerpt::{Style, excerpt as excerpt_at};
pub use failure::Failure;
pub use lines::check_lines;
pub use options::{Options, asked};
pub use report::{Ended, check_document, check_each, is_closed};
pub use terminal::is_colored;
