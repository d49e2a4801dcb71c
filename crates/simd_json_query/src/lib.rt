//! A query of JSONPath (RFC 9535): its parts, and its text.
//!
//! | RFC 9535 | [`read`] |
//! |---|---|
//! | names, wildcards, indexes, slices (2.3.1 to 2.3.4), segments (2.5) | all |
//! | filters (2.3.5) | the existence of queries, comparisons, `!`, `&&`, `\|\|` and parentheses |
//! | the queries of filters | those that hold no filter |
//! | `length` (2.4.4) | of a singular query, a literal or a call |
//! | `count` (2.4.5), `value` (2.4.8) | of a query |
//! | `match` (2.4.6), `search` (2.4.7) | of what is compared; literals within the limits of [`Pattern`] |
//!
//! Parentheses and calls of `length` may be nested 100 deep, and a filter's query may have 100
//! segments beside those of one name or one index.
#![tactic(auto)]

mod filter;
mod query;
mod text;

pub use filter::{Comparable, Comparison, Literal, Matcher, Query, SingularQuery, Step, Test};
pub use query::{Choice, Segment, Selector, Slice};
pub use simd_json_regexp::Pattern;
pub use text::{PathError, PathExpected, QueryParts, read, read_filter};
