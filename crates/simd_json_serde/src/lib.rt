//! Typed reading and writing: a type that derives `serde::Deserialize` is read from the tape of
//! [`simd_json`], and one that derives `serde::Serialize` is written. Name `simd_json_serde serde`
//! in your crate's line of `crates.txt`.
//!
//! ```
//! use serde::Deserialize;
//! use simd_json_serde::{ReadError, from_slice_mut};
//! use std::alloc::Global;
//!
//! #[derive(Drop, Deserialize)]
//! struct Line {
//!     level: String,
//!     status: u16,
//! }
//!
//! // The status of a line of a log, as `{"level":"info","status":200}`.
//! fn status(alloc: Global, input: &mut [u8]) -> Result<u16, ReadError> {
//!     let line: Line = from_slice_mut(alloc, input)?;
//!     Ok(line.status)
//! }
//! ```
//!
//! # What to call
//!
//! | to read | call |
//! |---|---|
//! | a type, from an input that is overwritten | [`from_slice_mut`] |
//! | a type that is only known to own all (`T: DeserializeOwned`) | [`from_slice_mut_owned`] |
//! | many inputs with the same memory | [`from_slice_mut_with`], .. with a [`Scratch`] |
//! | a field of type `&str`, where much of it is not ASCII | [`borrowed_str`] |
//! | a value of a tape, as one that `pointer` leads to | [`from_value`] |
//! | a whole tape | [`from_tape`] |
//! | nodes, by a `Deserialize` of your own | [`NodeReader`] |
//!
//! To write a type, call [`to_string`], [`to_vec`] or [`to_writer`], or a `_pretty` form. The
//! toolchain's `serde_json` makes the text: a float is written as the shortest literal that reads
//! as it, or as `null` if it is not finite. A key may be a string, a number or a truth value. Each
//! text is checked before it is returned: a `Serialize` that is written by hand may have its steps
//! in an order of which no JSON text comes.
//!
//! All that the derives read is read: structs, `Option`, `Vec`, tuples, maps, enums with or without
//! a tag, `flatten`, `default`, `rename`, `deny_unknown_fields`, recursive types. Integers of all
//! widths are exact, and a float is the nearest to the literal. A member without a field is passed
//! in one step, whatever is in it.
//!
//! # Errors
//!
//! [`ReadError::Parse`] is the parse's error, with its kind, index and character.
//! [`ReadError::Mismatch`] says how a document does not fit the type, and where, as
//! `/statuses/3/user/id: expected an integer, found a string`: the path is a JSON Pointer
//! (RFC 6901), found only after the read failed.
//!
//! # Costs
//!
//! - A read takes 32 bytes for each node, 8 for each container that is open, and what the type
//!   owns.
//! - A string is decoded in the input's own bytes, and borrowed from there: only a type that owns
//!   it copies it. So the input's bytes are not kept, and a type that borrows ends before the input
//!   is written again.
//! - `serde` tests the UTF-8 of each borrowed string again, by characters. To borrow took 0.95 to
//!   0.99 times as long as to own for lines of a log, 1.05 to 1.08 times for tweets, of which much
//!   is not ASCII, and by [`borrowed_str`] 0.97 to 1.01 times for these.
//! - A read of a tape, as [`from_value`], takes no memory for nodes.
//!
//! # Differences from `serde_json`
//!
//! - `-0` is an integer: as a float it is 0.0, and as an unsigned integer 0.
//! - An integer outside -2^127 to 2^128 - 1 is a parse error, also for a float.
//! - The depth limit is the parse's, 1,024 unless set; recursive types end at 256 levels of their
//!   own.
//! - An integer as a key may be written with escapes. A float is written as a key, and not read.
//!
//! # What is proved
//!
//! A value and a [`Mismatch`] are returned only if the input is a document of RFC 8259 within the
//! limits, and else the parse's first error (`IsTypedRead`). Each step of [`NodeReader`] returns
//! what the node that it takes says, and `skip` passes one value (`ReadsAs`, `PicksName`); where a
//! step fails, its error is of the next node (`IsOfNext`). A scalar is read exactly where the
//! accessor of `simd_json` has one. The path of a mismatch is the way to the node that its error is
//! of (`way`), and it prints this path and the words of its kind.
//!
//! A text that is written is a document (RFC 8259), compact or pretty, with the tokens of the
//! events that the value sends, in their order, where its `Serialize` says which it sends
//! (`IsPrinted`). The writer gets all of it, a beginning if it fails, and nothing of a value that
//! has no text (`WritesText`).
//!
//! Not proved, but tested beside `serde_json`: that a derived type is read as the document says,
//! and what it sends, since derives have no contract.
#![tactic(auto)]

mod error;
mod format;
mod in_place;
mod kept_node;
mod node_reader;
mod nodes;
mod numbers;
mod path;
mod reading;
mod write_error;
mod writing;

pub use error::{Mismatch, MismatchKind, ReadError, StepFault};
pub use node_reader::{Mark, NodeReader};
pub use reading::{
    Scratch, borrowed_str, from_slice_mut, from_slice_mut_owned, from_slice_mut_owned_with,
    from_slice_mut_with, from_tape, from_value,
};
pub use write_error::WriteError;
pub use writing::{
    to_string, to_string_pretty, to_vec, to_vec_pretty, to_writer, to_writer_pretty,
};
