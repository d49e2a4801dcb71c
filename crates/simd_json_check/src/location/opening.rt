//! What an input leaves open at the place of its error.
ghost use Rattle.std.specs.Prelude.{◌≡◌};
ghost use Rattle.simd_json_check.specs.Openings.{opened_by, opening_at, opening_in, opening_of};

use super::place::{column, file_line, line};
use super::reason::Reason;
use super::scan::{open_bracket, open_quote};
use simd_json_parts::charutils::byte_or_space;

/// What an input leaves open at the place of its error.
#[derive(Debug, Clone, Copy, PartialEq, Eq)]
pub enum Opened {
    /// A string.
    String,
    /// An array.
    Array,
    /// An object.
    Object,
}

impl Opened {
    // What begins with this byte.
    fn by(byte: u8) -> Opened
        ensures { result ≡ opened_by byte }
    {
        match byte {
            b'[' => Opened::Array,
            b'{' => Opened::Object,
            _ => Opened::String,
        }
    }
}

/// What is open at the place of an error, and where it begins.
#[derive(Debug, Clone, Copy, PartialEq, Eq)]
pub struct Opening {
    /// What is open.
    pub opened: Opened,
    /// The line of its first byte: from 1, by line feeds.
    pub line: usize,
    /// The column of its first byte: from 1, in characters.
    pub column: usize,
}

impl Opening {
    // What begins at this byte.
    fn at(input: &[u8], byte: usize) -> Opening
        ensures { result ≡ opening_at input.now byte }
    {
        Opening {
            opened: Opened::by(byte_or_space(input, byte)),
            line: line(input, byte),
            column: column(input, byte),
        }
    }

    pub(super) fn in_file(self, first: usize) -> Opening
        ensures { result ≡ opening_in first self }
    {
        Opening {
            line: file_line(first, self.line),
            ..self
        }
    }
}

// The string that a control character at this byte is in; the container in which the input ends.
pub(super) fn opening_of(input: &[u8], byte: usize, reason: Reason) -> Option<Opening>
    ensures { result ≡ opening_of input.now byte reason }
{
    match reason {
        Reason::ControlCharacter(_) => {
            let quote = open_quote(&input[..byte.min(input.len())]);
            Some(Opening::at(input, quote))
        }
        Reason::EndOfInput => open_bracket(input).map(|bracket| Opening::at(input, bracket)),
        _ => None,
    }
}
