//! What the programs share: ports, lines, arguments, failures, how a rejected text is named,
//! and how a program ends.
//!
//! - [`Channel`]: a reader or a writer that records why a call on it failed, and whether it ended.
//!   [`Source`]: a file or standard input, which records why it can't be read. [`Retrying`]: a
//!   writer. Both try again what a signal interrupts. [`read_all`]: all bytes of a reader.
//! - [`Lines`]: cuts what a reader gives into lines, in memory that does not depend on
//!   how many there are.
//! - [`shown`]: a text without control characters. [`tsv_escape`]: what is written for a byte in
//!   tab separated text.
//! - [`rejection_words`]: names a rejected text; [`put_name`] writes that after its file's name.
//! - [`Failure`]: why a run ended before the end of its input. [`ending`]: the exit status, and
//!   what failed; [`print_ending`] says so, and why.
//! - [`arguments`]: the words of the command line. [`words_status`], [`fault_status`],
//!   [`help_status`]: the exit status without them, where they are rejected, and after help.
//! - [`number`], [`is_given`], [`texts`]: what an argument has for a value. [`check_digits`],
//!   [`has_digits_alone`]: whether a number has digits alone. [`invalid_value`]: the error of a
//!   value that an argument does not take.
//!
//! ```
//! use programs::{Channel, Failure, read_all};
//!
//! // How many bytes a reader gives up to its end.
//! fn size(rt: &impl AllocGlobal, input: &[u8]) -> Result<usize, Failure> {
//!     Ok(read_all(rt.alloc(), &mut Channel::new(input))?.len())
//! }
//! ```
#![tactic(auto)]

mod channel;
mod command_line;
mod escapes;
mod failure;
mod lines;
mod rejection;
mod retry;
mod source;
mod tsv;
mod whole;

pub use channel::Channel;
pub use command_line::{
    arguments, check_digits, fault_status, has_digits_alone, help_status, invalid_value, is_given,
    number, texts, words_status,
};
pub use escapes::shown;
pub use failure::{Failure, ending, print_ending, put_name};
pub use lines::{Event, Lines};
pub use rejection::{Words, rejection_words};
pub use retry::Retrying;
pub use source::{Opener, Source};
pub use tsv::tsv_escape;
pub use whole::read_all;
