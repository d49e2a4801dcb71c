//! JSON Pointer (RFC 6901): its reference tokens, the key or the index that each is, and where a
//! pointer stops.
//!
//! A pointer is empty, or a `/` is before each of its reference tokens. [`next_token`] finds where
//! the next one ends; [`Pointer`] is a pointer that is split once. In an object a token is a key
//! ([`is_key`], [`strip_decoded`]), in an array an index ([`read_index`]).
ghost use Rattle.std.specs.Prelude.{◌≡◌, ◌<◌, Err, None, drop, length};
ghost use Rattle.std.specs.Result.{result_ok};
ghost use Rattle.simd_json_parts.specs.Document.{Document};
ghost use Rattle.simd_json_parts.specs.Followed.{first_step};
ghost use Rattle.simd_json_parts.specs.Pointed.{pointed_from};
ghost use Rattle.simd_json_parts.specs.Views.{value_type};

mod index;
mod key;
mod lead;
mod split;
mod token;

use crate::node::ValueType;
pub use index::{is_index, read_index};
pub use key::{is_key, is_well_formed, key_len, strip_decoded};
pub use lead::{Parent, follow};
pub use split::Pointer;
use std::fmt;
pub use token::{Token, is_plain, next_token};

/// What a JSON Pointer lacks where it leads nowhere.
#[derive(Clone, Copy, Debug, Drop, PartialEq, Eq)]
pub enum PointerExpected {
    /// A `/`: the pointer is not empty and does not begin with one (RFC 6901, section 3).
    Slash,
    /// An array or an object: the value is another.
    Container,
    /// A `0` or a `1` after each `~` of the key (section 3).
    Escape,
    /// A pair of the object with the key.
    Key,
    /// An array index: `0`, or digits of which the first is not `0` (section 4). `-` is none.
    Index,
    /// An element of the array with the index, which is past the end.
    Element,
}

/// Where a JSON Pointer stops, and what it lacks there.
///
/// It prints in words, as `expected an array index, found an array at byte 2`.
#[derive(Clone, Copy, Debug, Drop, PartialEq, Eq)]
pub struct PointerError {
    /// How many bytes of the pointer were followed: they are a pointer to a value, and the
    /// reference token after them leads nowhere from there.
    pub index: usize,
    /// What the pointer lacks there.
    pub expected: PointerExpected,
    /// The kind of the value that was reached.
    pub got: ValueType,
}

impl fmt::Display for PointerExpected {
    ghost use Rattle.std.specs.Prelude.{Some};
    ghost use Rattle.simd_json_parts.specs.PointedText.{lacking_text};

    ghost output = { λ lacking. Some (lacking_text lacking) };

    fn fmt<W: fmt::Write>(&self, f: &mut fmt::Formatter<W>) -> fmt::Result {
        f.write_str(match self {
            PointerExpected::Slash => "a /",
            PointerExpected::Container => "an array or an object",
            PointerExpected::Escape => "0 or 1 after each ~",
            PointerExpected::Key => "a pair with the key",
            PointerExpected::Index => "an array index",
            PointerExpected::Element => "an element with the index",
        })
    }
}

// What is missing where a pointer stops.
#[derive(Drop)]
struct Missing(PointerError);

impl fmt::Display for Missing {
    ghost use Rattle.std.specs.Prelude.{Some};
    ghost use Rattle.simd_json_parts.specs.PointedText.{missing_text};

    ghost output = { λ missing. Some (missing_text missing.0) };

    fn fmt<W: fmt::Write>(&self, f: &mut fmt::Formatter<W>) -> fmt::Result {
        let expected = self.0.expected;
        let got = self.0.got.words();
        write!(f, "expected {expected}, found {got}")
    }
}

impl fmt::Display for PointerError {
    ghost use Rattle.std.specs.Prelude.{Some};
    ghost use Rattle.simd_json_parts.specs.PointedText.{stop_text};

    ghost output = { λ e. Some (stop_text e) };

    fn fmt<W: fmt::Write>(&self, f: &mut fmt::Formatter<W>) -> fmt::Result {
        let index = self.index;
        let missing = Missing(*self);
        write!(f, "{missing} at byte {index}")
    }
}

impl std::error::Error for PointerError {}

/// Where a pointer stops, and what it lacks there: its first `followed` bytes lead to a value of
/// the kind `got`, and the reference token after them leads nowhere from there.
///
/// Requires that the pointer has more bytes than these.
#[cold]
pub fn stop(pointer: &[u8], followed: usize, got: ValueType) -> PointerError
    requires { followed < length pointer.now }
    ensures { (d : Document) → value_type d ≡ got
        → result_ok (first_step (drop followed pointer.now) d) ≡ None
        → pointed_from followed (drop followed pointer.now) d ≡ Err result }
{
    PointerError {
        index: followed,
        expected: lack(pointer, followed, got),
        got,
    }
}

// What the pointer lacks at a value of the kind, from which it does not lead on.
fn lack(pointer: &[u8], followed: usize, got: ValueType) -> PointerExpected
    requires { followed < length pointer.now }
    ensures { (d : Document) → value_type d ≡ got
        → result_ok (first_step (drop followed pointer.now) d) ≡ None
        → first_step (drop followed pointer.now) d ≡ Err result }
{
    let Some(token) = next_token(pointer, followed) else {
        return PointerExpected::Slash;
    };
    let token = &pointer[followed + 1..token.end];
    match got {
        ValueType::Array if is_index(token) => PointerExpected::Element,
        ValueType::Array => PointerExpected::Index,
        ValueType::Object if is_well_formed(token) => PointerExpected::Key,
        ValueType::Object => PointerExpected::Escape,
        _ => PointerExpected::Container,
    }
}
