//! JSONPath (RFC 9535): the values that a query selects of a [`Value`](simd_json::tape::Value).
//!
//! A [`Path`] is a query, which [`Path::new`] reads from text into an arena; or slices of segments,
//! selectors and tests, in constants or on the stack. [`Path::select`] is an iterator over what it
//! selects, in order, which allocates nothing and recurses in filters alone: it keeps its place in
//! [`Frame`]s that the caller lends.
//!
//! ```
//! use bumpalo::Bump;
//! use simd_json::tape::Value;
//! use simd_json_path::{Frame, Path};
//!
//! // The sum of the prices of all orders, or what failed.
//! fn total(rt: &impl AllocGlobal, value: &Value<'_, '_>) -> anyhow::Result<Option<u64>> {
//!     let arena = Bump::new(rt.alloc());
//!     let path = Path::new(&arena, "$.orders[*].items[*].price")?;
//!     let mut frames = [Frame::closed(); 2];
//!     let mut sum = Some(0u64);
//!     for price in path.select(value, &mut frames) {
//!         let price = price?.as_u64();
//!         sum = sum.and_then(|sum| sum.checked_add(price?));
//!     }
//!     Ok(sum)
//! }
//! ```
//!
//! # What is there
//!
//! | RFC 9535 | here |
//! |---|---|
//! | name, wildcard, index, slice selectors (2.3.1 to 2.3.4) | [`Choice`] |
//! | filter selectors (2.3.5): queries, comparisons, `!`, `&&`, `\|\|` | [`Selector`], [`Test`] |
//! | `length`, `count` and `value` (2.4) | [`Comparable`] |
//! | `match` and `search` (2.4) | [`Matcher`], [`Pattern`] |
//! | a filter by itself, of one value | [`Filter`], [`Filter::new`] |
//! | child and descendant segments (2.5) | [`Segment`] |
//! | a query's text | [`Path::new`] |
//! | normalized paths (2.7) | [`Path::locate`] |
//! | filters in a filter's query | not yet |
//!
//! The RFC leaves the order of an object's members open: here it is the text's. Of equal names a
//! name selects the first; wildcards and descendant segments visit all.
//!
//! Numbers are compared by their values, exactly, by
//! [`simd_json_number`](simd_json_number::Number); strings by their characters; arrays and objects
//! by what is in them, objects without order and of equal names by the first value. The comparison
//! recurses to at most 128 levels of arrays and objects; what is nested deeper is equal where it is
//! written in the same order with the same literals. Its time grows with the square of the number
//! of an object's members.
//!
//! The queries of a filter take no frames. Each is evaluated for each value that is tested, up to
//! its first node where the filter asks whether there is one, and up to the second for `value`. It
//! recurses once for each segment after the first steps. `count` returns at most `usize::MAX`.
//!
//! # Frames
//!
//! A frame is the memory for one segment. [`Path::frames`] returns how many a query takes: one for
//! each segment after the first steps, however deep the document is. With fewer nothing is
//! selected: the iterator returns [`TooFewFrames`], and ends.
//!
//! [`Path::first`], [`Path::all`] and [`Path::locate`] take no frames, but recurse.
//!
//! # What is proved
//!
//! [`Path::select`] returns exactly what the definitions of `specs/` select, each a section of the
//! RFC, in order, with duplicates; [`Path::all`] the same, [`Path::first`] the first of it, and
//! [`Path::locate`] each with its normalized path. [`laws`] states how many frames suffice, that
//! without an error nothing is left out, that what is located is what is selected, and that two
//! values of which one nests at most 128 levels are equal exactly where the RFC says so. Tested is
//! that a normalized path, read as a query, selects its value alone.
#![tactic(auto)]

mod back;
mod children;
mod collect;
mod filter;
mod filter_query;
mod frame;
mod frames;
pub mod laws;
mod located;
mod location;
mod operand;
mod path;
mod placed;
mod same;
mod scalar;
mod segment_nodes;
mod selected;
mod selector_nodes;
mod slice;

pub use filter::Filter;
pub use frame::Frame;
pub use located::Located;
pub use path::Path;
pub use selected::{Selected, TooFewFrames};
pub use simd_json_query::{
    Choice, Comparable, Comparison, Literal, Matcher, PathError, PathExpected, Pattern, Query,
    Segment, Selector, SingularQuery, Slice, Step, Test,
};
