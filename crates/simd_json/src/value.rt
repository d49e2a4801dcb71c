//! What a parse returns.

pub mod tape;

pub use tape::pointer;
