//! The values that JSON Pointers and JSONPaths select of each line of JSON Lines, or of documents.
//!
//! - [`run`]: writes rows of them for each line of a reader, or for its one document, and names
//!   what is rejected.
//! - [`write_header`]: writes the row of the queries before it.
//! - [`pick_each`]: a run for each file, and the greatest status. [`status_by_rows`]: by whether a
//!   row was written, too.
//! - [`asked`]: what the program's arguments ask for. [`Hint`]: what was meant where a text is no
//!   query.
//!
//! ```
//! use jpick::{Layout, Query, Wanted, run};
//! use programs::Channel;
//!
//! fn rows(rt: &impl AllocGlobal, lines: &[u8]) -> Vec<u8> {
//!     let wanted = Wanted {
//!         each: None,
//!         queries: &[Query::Pointer("/k")],
//!         filters: &[],
//!         layout: Layout::Tabs,
//!         is_raw: false,
//!         is_pretty: false,
//!         has_sorted_keys: false,
//!         needs_all: false,
//!         is_quiet: true,
//!         longest: 65_536,
//!         depth: 1024,
//!         is_document: false,
//!     };
//!     let mut reader = Channel::new(lines);
//!     let mut rows = Channel::new(Vec::new(rt.alloc()));
//!     let mut rejections = Channel::new(Vec::new(rt.alloc()));
//!     let _ = run(rt.alloc(), &wanted, "f", &mut reader, &mut rows, &mut rejections);
//!     rows.into_inner()
//! }
//! ```
//!
//! For the lines `{"k":[1, 2]}` and `{"k":"a"}` the rows are `[1,2]` and `"a"`.
//!
//! The program is a crate of its own, `jpick_main`.
#![tactic(auto)]

mod conditions;
mod fields;
mod files;
mod header;
mod hints;
mod lines;
mod options;
mod query;
mod rows;
mod runs;
mod sorted;

pub use fields::{Layout, Wanted};
pub use files::{pick_each, status_by_rows};
pub use header::write_header;
pub use hints::Hint;
pub use lines::Taken;
pub use options::{Options, Unasked, asked};
pub use query::Query;
pub use runs::run;
pub use sorted::{put_sorted, sorted_nodes};
