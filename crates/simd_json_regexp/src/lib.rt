//! Regular expressions of JSONPath: I-Regexp (RFC 9485), of which each text is matched in time that
//! grows with its length times that of the pattern, whatever the pattern, and without allocation.
//!
//! | RFC 9485 | here |
//! |---|---|
//! | characters, escapes, groups, `\|` | all; groups at most 100 deep |
//! | quantifiers `*`, `+`, `?`, `{n}`, `{n,}`, `{n,m}` | all |
//! | `.`, classes in brackets, `\p{..}` and `\P{..}` | all, by the categories of Unicode 18 |
//!
//! `^` and `$` are ordinary characters, and `[^]`, `[z-a]` and `{3,2}` are no patterns. A pattern
//! may have 512 characters, each as often as repetitions repeat it, and take [`MAX_NODES`].
//!
//! ```
//! use simd_json_regexp::{is_found, is_match};
//!
//! // Whether a path is one of an API, and a name is in upper case.
//! fn is_wanted(path: &str, name: &str) -> bool {
//!     is_found("/api/v[0-9]+", path) && is_match(r"\p{Lu}+", name)
//! }
//! ```
//!
//! # What is proved
//!
//! [`is_match`] and [`is_found`] return exactly what the definitions of `specs/` say: which pattern
//! a text is, and which texts it matches. [`laws`] states that these are the texts that the regular
//! expression describes, character by character. That a text is the pattern that RFC 9485's grammar
//! has is tested, not proved.
#![tactic(auto)]

mod braces;
mod brackets;
mod characters;
mod groups;
mod item;
pub mod laws;
mod marks;
mod matching;
mod node;
mod pattern;
mod sink;

pub use item::Item;
pub use node::{Kind, Node};
pub use pattern::{MAX_NODES, MAX_POSITIONS, Pattern, PatternError, is_found, is_match};
