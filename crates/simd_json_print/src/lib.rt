//! The printed text of a tape.
//!
//! - [`document`]: the compact and the pretty text of a document, from its nodes, and a quoted
//!   string.
//! - [`text`]: buffered text output.
#![tactic(auto)]

pub mod document;
pub mod text;
