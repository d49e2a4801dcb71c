//! How many lines of JSON Lines have which values at keys or JSON Pointers.
//!
//! - [`run`]: counts the lines of each [`Input`], names rejected lines, and writes the report.
//! - [`asked`]: what the program's arguments ask for.
//!
//! ```
//! use programs::Channel;
//! use log_report::{Input, Selector, Wanted, run};
//!
//! fn report(rt: &impl AllocGlobal, lines: &[u8]) -> Vec<u8> {
//!     let wanted = Wanted {
//!         selectors: &[Selector::Key("level")],
//!         is_tsv: false,
//!         values: 1024,
//!         longest: 65_536,
//!     };
//!     let mut inputs = [Input {
//!         file: "",
//!         reader: Channel::new(lines),
//!     }];
//!     let mut report = Channel::new(Vec::new(rt.alloc()));
//!     let mut rejections = Channel::new(Vec::new(rt.alloc()));
//!     let _ = run(rt.alloc(), &wanted, &mut inputs, &mut report, &mut rejections);
//!     report.into_inner()
//! }
//! ```
//!
//! For the lines `{"level":1}`, `{"level":2}` and `{"level":2}` the report is `2 2` and `1 1`.
//!
//! The program is a crate of its own, `log_report_main`.
#![tactic(auto)]

mod lines;
mod options;
mod rows;
mod runs;

pub use options::{Options, asked};
pub use rows::{Selector, Wanted};
pub use runs::{Input, run};
