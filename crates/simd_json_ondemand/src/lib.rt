//! JSON values (RFC 8259) read on demand: along the structural indexes of an input, without a tape.
//!
//! [`Document::scan`] finds the structural indexes, as the first stage of a parse does. The values
//! of the [`Document`] that it returns are read where they are asked for, from the input, which is
//! shared and never written. What is not asked for is not read, and a value takes no memory but its
//! own five words.
//!
//! [`Value::get`] returns the value of the first member with a key. [`Object::find`] begins where
//! the search before it ended, and goes once round: keys that are asked for in the order of the
//! input take one pass, and others are found too. [`Object::pass`] moves to the end of a value
//! that another cursor has read. [`lines()`] returns the lines of JSON Lines, each a document of
//! its own.
//! [`Value::pointer`] follows a JSON Pointer (RFC 6901), and [`Value::at`] one that is split once;
//! [`Value::try_pointer`] says where the walk to the value stopped.
//!
//! # What is checked
//!
//! Of the whole input `scan` checks size, encoding, quotes and control bytes, with the errors of a
//! parse. All else is checked only where it is visited, as in simdjson's On-Demand:
//!
//! - If the input is a document that a parse accepts, each call returns what the same call of
//!   `simd_json`'s tape returns.
//! - If it is not, a call may return a value all the same: `1 2` has the root 1. A string or a
//!   scalar that is returned is always the whole literal at that place, followed by what must
//!   follow a scalar. The walk to it tests each token on its way, but not what is inside the values
//!   that it skips, and stops where the grammar has another token.
//!
//! Where the walk stops, an iteration by [`next`](Iterator::next) or
//! [`next_value`](Array::next_value) ends early without a word, and [`Value::get`] or
//! [`Value::pointer`] returns `None`, as for a missing value. The `try_` forms tell that: their
//! error, [`Unexpected`], names the place where the walk stopped, and what was expected there. Or
//! call [`Document::check`] in place of `scan`: it checks the whole input, as a parse does, and
//! returns the error of the parse. It keeps no node, and copies the input only if it finds a fault
//! or more than 64 nested containers.
//!
//! # Example
//!
//! ```
//! use simd_json_ondemand::{Unexpected, Value};
//!
//! // The status of a line of a log, as `{"level":"info","status":200}`.
//! fn status(line: Value<'_>) -> std::result::Result<Option<u64>, Unexpected> {
//!     match line.try_get("status")? {
//!         Some(status) => Ok(Some(status.try_as_u64()?)),
//!         None => Ok(None),
//!     }
//! }
//! ```
//!
//! - [`views`]: laws of what calls return, each the contract of a function with an empty body.
//! - [`laws`]: laws of the definitions, in the same form.
#![tactic(auto)]

mod accessors;
mod array;
mod end;
mod find;
mod key;
pub mod laws;
mod numbers;
mod object;
mod pointer;
mod prepared;
mod raw;
mod skip;
mod stream;
mod strings;
mod together;
mod tries;
mod unexpected;
mod value;
pub mod views;
mod walk;

pub use array::Array;
pub use end::End;
pub use object::Object;
pub use prepared::PreparedPointer;
pub use simd_json_check::Checker;
pub use simd_json_parts::error::{Error, ErrorType, Result};
pub use simd_json_parts::node::ValueType;
pub use simd_json_parts::pointer::Pointer;
pub use simd_json_stages::Index;
pub use stream::{InputLines, lines};
pub use unexpected::{Expected, Got, Unexpected};
pub use value::{Document, Value};
