//! Reads JSON (RFC 8259) as a *tape*: the nodes of one document in preorder, in one list. Strings
//! are borrowed from the input, which is borrowed mutably, since they are decoded in place.
//!
//! [`to_tape`] returns the tape, or the first error with its kind, index and character:
//!
//! ```
//! fn first_len(rt: &impl AllocGlobal) -> simd_json::Result<usize> {
//!     let mut input = *b"[1,[2,3],4]";
//!     let tape = simd_json::to_tape(rt.alloc(), &mut input)?;
//!     Ok(tape.nodes().len())
//! }
//! ```
//!
//! [`Tape::as_value`] is the document as a [`Value`](tape::Value), with calls for each Rust type:
//!
//! ```
//! // What is at the key `the_answer`, where it is an integer that fits.
//! fn the_answer(rt: &impl AllocGlobal) -> simd_json::Result<Option<u64>> {
//!     let mut input = *br#"{"the_answer": 42}"#;
//!     let tape = simd_json::to_tape(rt.alloc(), &mut input)?;
//!     Ok(tape.as_value().get_u64("the_answer"))
//! }
//! ```
//!
//! # What to call
//!
//! | to | call |
//! |---|---|
//! | read one input | [`to_tape`] |
//! | keep the lists of a parse, or set a depth limit | [`to_tape_with_buffers`], [`Buffers`] |
//! | keep the tape too | [`fill_tape`] |
//! | read each input into the same memory | [`refill_tape`] |
//! | read an input that [`INPUT_PADDING`] bytes follow | [`fill_tape_padded`] |
//! | exclude `OutOfMemory` for inputs up to a size | [`reserve`], before the parses |
//! | make nodes of your own, without a tape | [`fill_spans`] with a [`SpanSink`] |
//! | keep them in a list | [`keep_spans`] with a [`SpanNode`] |
//! | look at values | [`Value`](tape::Value), [`Array`](tape::Array), [`Object`](tape::Object) |
//! | visit all values | [`Value::descendants`](tape::Value::descendants) |
//! | visit all arrays and objects | [`Value::containers`](tape::Value::containers) |
//! | follow a JSON Pointer (RFC 6901) | [`Value::pointer`](tape::Value::pointer), [`Pointer`] |
//! | step through the nodes | [`Deserializer`], [`Tape::nodes`] |
//! | print a value | [`encode`](tape::Value::encode), [`write`](tape::Value::write) |
//! | print it with a line for each member | [`encode_pp`](tape::Value::encode_pp), `write_pp` |
//! | quote and escape a string | [`append_quoted`], [`write_quoted`] |
//!
//! # Errors
//!
//! An [`Error`] has a kind ([`ErrorType`]), a byte offset and the byte there. A parse returns the
//! first error of this order:
//!
//! 1. Of the input as a whole, at index 0 without a character: `InsufficientPadding`,
//!    `InputTooLarge`, `InvalidUtf8`, `Syntax` (a string has no end or contains a byte below 0x20),
//!    `Eof` (only whitespace).
//! 2. The first token from the left that is not expected or is malformed. [`to_tape`] lists the
//!    kinds.
//!
//! If an allocation fails, `OutOfMemory` is returned: only for inputs of right size and encoding.
//! Views return `None`, or a [`TryTypeError`] with the expected kind and the value's.
//!
//! `simd_json_check` finds the line, the column and the reason of an error. Without a tape it also
//! checks that an input is a document.
//!
//! # Costs
//!
//! - A node has 48 bytes. [`reserve`] takes about 28 bytes for each byte of input, and 48 for each
//!   container that may be open. No parse gives up capacity.
//! - `len`, and a step of `iter`, `keys` or `values`, take constant time. `get` passes over the
//!   members before the one that it returns, each in one step: visit all members with an iterator.
//! - Views allocate nothing, except `encode` and `encode_pp`. `write` and `write_pp` take about 11
//!   bytes of stack for each open container.
//!
//! # What is proved
//!
//! Each function's promise is its contract. [`laws`] states what all entry points share: a parse in
//! which no allocation fails returns the result of the definitions, whatever the buffers held.
#![tactic(auto)]

mod buffers;
mod deserializer;
mod kept;
pub mod laws;
mod parse;
mod spans;
pub mod value;

pub use buffers::Buffers;
pub use deserializer::Deserializer;
pub use kept::{SpanNode, keep_spans};
pub use parse::{fill_tape, fill_tape_padded, refill_tape, reserve, to_tape, to_tape_with_buffers};
pub use simd_json_parts::error::{Error, ErrorType, Result};
pub use simd_json_parts::node::{Node, StaticNode, TryTypeError, ValueType};
pub use simd_json_print::document::{append_quoted, write_quoted};
pub use simd_json_stages::DEFAULT_MAX_DEPTH;
pub use simd_json_stages::stage2::{Container, SpanSink};
pub use spans::fill_spans;
pub use value::pointer::{Pointer, PointerError, PointerExpected};
pub use value::tape;
pub use value::tape::Tape;

/// How many bytes [`fill_tape_padded`] needs after its document.
pub const INPUT_PADDING: usize = 64;
