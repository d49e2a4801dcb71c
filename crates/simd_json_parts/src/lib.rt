//! The definitions that every contract of the workspace cites (`specs/`), and the types that its
//! crates share.
//!
//! - [`error`]: why a parse rejects an input, and where.
//! - [`node`]: the nodes of a tape.
//! - [`pointer`]: JSON Pointers (RFC 6901), but for the values that they name.
//! - [`charutils`]: classes of bytes, hexadecimal digits, characters as UTF-8.
#![tactic(auto)]

pub mod charutils;
pub mod error;
pub mod node;
pub mod pointer;
