//! From the bytes of a reader to the lines of a writer: one JSON document, or JSON Lines, printed
//! in the form of a mode.
//!
//! [`run`] reads and writes through two [`Port`]s, which record what failed and what ended.
//! [`settings`] parses a program's arguments, and [`status`] is the exit status:
//!
//! ```
//! use jtape::{Answer, Mode, Port, run};
//!
//! fn compacted(rt: &impl AllocGlobal, json: &[u8]) -> (Answer, Vec<u8>) {
//!     let mut reader = Port::new(json);
//!     let mut writer = Port::new(Vec::new(rt.alloc()));
//!     let answer = run(rt.alloc(), Mode::Compact, 1024, &mut reader, &mut writer);
//!     (answer, writer.into_inner())
//! }
//! ```
//!
//! For ` [ 1, 2 ] ` it returns `Ok(true)`, and the bytes `[1,2]` and a line feed. `[1,]` is
//! rejected: it returns `Err(RunFault::Refused(e))` and no bytes; `e` is displayed as
//! `InternalError at character 3 (']')`.
//!
//! The program is a crate of its own, `jtape_main`, since a crate is either a library or a program.
//! [`requested`] parses its arguments, and [`exit_status`] is its status, also after a [`Failure`].
#![tactic(auto)]

mod output;
mod runs;
mod stream;
mod words;

pub use programs::Channel;
pub use runs::{Answer, Failure, Port, RunFault, exit_status, run, status};
pub use words::{Mode, number_named, requested, settings};
