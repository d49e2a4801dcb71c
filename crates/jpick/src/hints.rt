//! What was meant by a text that is no query.
ghost use Rattle.std.specs.Prelude.{◌≡◌, drop};
ghost use Rattle.jpick.specs.Hints.{begins, begins_name, hint_of, name_meant, operand_meant};
ghost use Rattle.jpick.specs.Hints.{operator_meant, segment_meant};

use simd_json_path::{PathError, PathExpected};
use std::fmt;

/// What was meant where a text is no query, by who writes another language: it prints in words, as
/// `write == for =`.
#[derive(Clone, Copy, Debug, PartialEq, Eq)]
pub enum Hint {
    /// `==`.
    Equal,
    /// `&&`.
    And,
    /// `||`.
    Or,
    /// `!`.
    Not,
    /// Comparisons with `||` between them.
    In,
    /// A regular expression.
    Pattern,
    /// A member of the value that is tested, or a string.
    Name,
    /// A name that is no identifier.
    Quoted,
    /// A member of the value.
    Root,
    /// A further query.
    Further,
    /// A test of the line.
    Where,
}

impl Hint {
    /// Returns what was meant where a text has this error, if that is known.
    pub fn of(text: &str, error: PathError) -> Option<Hint>
        ensures { result ≡ hint_of error.expected error.index text.now }
    {
        let bytes = text.as_bytes();
        let (_, rest) = bytes.split_at(error.index.min(bytes.len()));
        match error.expected {
            PathExpected::Separator | PathExpected::End | PathExpected::Comparison => {
                operator_meant(rest)
            }
            PathExpected::Test | PathExpected::Denied | PathExpected::Comparable => {
                operand_meant(rest)
            }
            PathExpected::Segment | PathExpected::Member => segment_meant(error.index, rest),
            _ => None,
        }
    }
}

fn begins(rest: &[u8], word: &[u8]) -> bool
    ensures { result ≡ begins rest.now word.now }
{
    rest.starts_with(word)
}

// Where a test or its operand has ended.
fn operator_meant(rest: &[u8]) -> Option<Hint>
    ensures { result ≡ operator_meant rest.now }
{
    if begins(rest, b"=~") || begins(rest, b"like") || begins(rest, b"LIKE") {
        Some(Hint::Pattern)
    } else if begins(rest, b"=") {
        Some(Hint::Equal)
    } else if begins(rest, b"&") || begins(rest, b"and") || begins(rest, b"AND") {
        Some(Hint::And)
    } else if begins(rest, b"|") || begins(rest, b"or") || begins(rest, b"OR") {
        Some(Hint::Or)
    } else if begins(rest, b"in") || begins(rest, b"IN") {
        Some(Hint::In)
    } else if begins(rest, b"-") {
        Some(Hint::Quoted)
    } else {
        None
    }
}

// Where a test or an operand is to begin.
fn operand_meant(rest: &[u8]) -> Option<Hint>
    ensures { result ≡ operand_meant rest.now }
{
    if begins(rest, b"not ") || begins(rest, b"not(") || begins(rest, b"NOT ") {
        Some(Hint::Not)
    } else if begins(rest, b"=") {
        Some(Hint::Equal)
    } else {
        name_meant(rest)
    }
}

fn name_meant(rest: &[u8]) -> Option<Hint>
    ensures { result ≡ name_meant rest.now }
{
    match rest {
        [first, ..] if begins_name(*first) => Some(Hint::Name),
        _ => None,
    }
}

fn begins_name(byte: u8) -> bool
    ensures { result ≡ begins_name byte }
{
    byte == b'.' || byte == b'/' || byte == b'_' || byte.is_ascii_alphabetic()
}

// Where a segment is to begin, or the query to end, at this byte.
fn segment_meant(index: usize, rest: &[u8]) -> Option<Hint>
    ensures { result ≡ segment_meant index rest.now }
{
    match rest {
        [] => None,
        [_, ..] if index == 1 => Some(Hint::Root),
        [b',', ..] => Some(Hint::Further),
        [b'=' | b'<' | b'>' | b'!', ..] => Some(Hint::Where),
        [_, ..] => Some(Hint::Quoted),
    }
}

impl fmt::Display for Hint {
    fn fmt<W: fmt::Write>(&self, f: &mut fmt::Formatter<W>) -> fmt::Result {
        f.write_str(match self {
            Hint::Equal => "write == for equality",
            Hint::And => "write && for and",
            Hint::Or => "write || for or",
            Hint::Not => "write ! for not, as !(@.a == 1)",
            Hint::In => "write @.a == 1 || @.a == 2 for in",
            Hint::Pattern => "there are no regular expressions",
            Hint::Name => "write @.a for a member, and 'a' for a string",
            Hint::Quoted => "write ['a-b'] for a name with such characters",
            Hint::Root => "write $.a for a member",
            Hint::Further => "write --and before each further query",
            Hint::Where => "write --where '@.a == 1' for a test",
        })
    }
}
