//! The text of a query (RFC 9535, sections 2.1 to 2.5).
ghost use Rattle.std.specs.Prelude.{◌≤◌, length, IfErr, IfOk};
ghost use Rattle.simd_json_query.specs.Queries.{FilterText, Query};

use crate::filter::{Step, Test};
use crate::query::{Segment, Selector};
use bumpalo::Bump;
use std::alloc::Allocator;
use std::fmt;

mod choices;
mod comparables;
mod comparisons;
mod cursor;
mod filters;
mod integers;
mod literals;
mod names;
mod openings;
mod patterns;
mod plain;
mod queries;
mod segments;
mod selectors;
mod steps;
mod strings;
mod whole;

use cursor::Stop;

/// What a query's text lacks.
#[derive(Clone, Copy, Debug, Drop, PartialEq, Eq)]
pub enum PathExpected {
    /// `$`, with which each query begins.
    Root,
    /// `.` or `[`, with which a segment begins, or the end.
    Segment,
    /// A name without quotes, or `*`, after a `.`.
    Member,
    /// A name without quotes, `*` or `[`, after `..`.
    Descendants,
    /// A selector: a name in quotes, `*`, an index, a slice, or `?` and a test.
    Selector,
    /// `,` or `]` after a selector.
    Separator,
    /// A digit from 1 to 9, after a `-`.
    Digit,
    /// An integer between -(2^53 - 1) and 2^53 - 1.
    SmallerInteger,
    /// A character that may be in a string, or the quote at its end.
    Character,
    /// An escape that a string of these quotes may have, of a character.
    Escape,
    /// A test of a filter: a query, a comparison, `!` or `(`.
    Test,
    /// A query or `(`, after `!`.
    Denied,
    /// What a comparison compares: a literal, a query, or a call of `length`, `count` or `value`.
    Comparable,
    /// A comparison operator, after a literal or a call.
    Comparison,
    /// A query: the argument of `count` or `value`.
    Query,
    /// A query of at most one node, of names and indexes alone, where its value is compared or is
    /// the argument of `length`.
    SingularQuery,
    /// A selector that is no filter: the queries of a filter hold none here.
    WithoutFilter,
    /// Fewer segments in a filter's query: at most 100 of more than a name or an index.
    FewerSegments,
    /// `,` after the first argument of `match` or `search`.
    Comma,
    /// A smaller pattern: one of at most 512 characters, as often as they are repeated.
    SmallerPattern,
    /// A number, as JSON spells it.
    Number,
    /// `)`.
    Parenthesis,
    /// Fewer parentheses, one in the other: at most 100.
    LessNesting,
    /// `&&`, `||` or the end of a test.
    End,
    /// Memory: an allocation failed.
    Memory,
}

impl fmt::Display for PathExpected {
    fn fmt<W: fmt::Write>(&self, f: &mut fmt::Formatter<W>) -> fmt::Result {
        f.write_str(match self {
            PathExpected::Root => "$",
            PathExpected::Segment => ". or [ or the end",
            PathExpected::Member => "a name or *",
            PathExpected::Descendants => "a name, * or [",
            PathExpected::Selector => "a selector",
            PathExpected::Separator => ", or ]",
            PathExpected::Digit => "a digit from 1 to 9",
            PathExpected::SmallerInteger => "an integer of at most 2^53 - 1",
            PathExpected::Character => "a character or the closing quote",
            PathExpected::Escape => "an escape",
            PathExpected::Test => "a test",
            PathExpected::Denied => "a query or (",
            PathExpected::Comparable => "a literal, a query or a function",
            PathExpected::Comparison => "a comparison operator",
            PathExpected::Query => "a query",
            PathExpected::SingularQuery => "a query of at most one node",
            PathExpected::WithoutFilter => "a selector that is no filter",
            PathExpected::FewerSegments => "at most 100 segments",
            PathExpected::Comma => ",",
            PathExpected::SmallerPattern => "a smaller pattern",
            PathExpected::Number => "a number",
            PathExpected::Parenthesis => ")",
            PathExpected::LessNesting => "at most 100 nested parentheses",
            PathExpected::End => "&&, || or the end",
            PathExpected::Memory => "more memory",
        })
    }
}

/// Where a text is no query, and what it lacks there.
///
/// It prints in words, as `expected a selector at byte 4`.
#[derive(Clone, Copy, Debug, Drop, PartialEq, Eq)]
pub struct PathError {
    /// The index of a byte of the text, or its length.
    pub index: usize,
    /// What the text lacks there.
    pub expected: PathExpected,
}

impl fmt::Display for PathError {
    fn fmt<W: fmt::Write>(&self, f: &mut fmt::Formatter<W>) -> fmt::Result {
        let expected = self.expected;
        let index = self.index;
        write!(f, "expected {expected} at byte {index}")
    }
}

impl std::error::Error for PathError {}

/// The parts of a query: the steps with which it begins, and its segments.
pub type QueryParts<'path> = (
    &'path [Step<'path>],
    &'path [Segment<'path, Selector<'path>>],
);

// How deep parentheses may be nested.
const MAX_NESTING: usize = 100;

// How many segments a filter's query may have: what evaluates it recurses over them.
const MAX_SEGMENTS: usize = 100;

/// The query of a text, in an arena.
///
/// Returns where the text is no query, and what it lacks there, or `Memory` where an allocation
/// fails. Queries in filters hold no filter and at most 100 segments of more than a name or an
/// index. A compared query may have blanks in brackets too.
pub fn read<'path, A: Allocator>(
    arena: &'path Bump<A>,
    text: &str,
) -> Result<QueryParts<'path>, PathError>
    ensures query { IfOk result (λ r. Query r.0.now r.1.now text.now) }
    ensures index { IfErr result (λ e. e.index ≤ length text.now) }
{
    match whole::query(arena, text) {
        Ok(parts) => Ok(parts),
        Err(stop) => Err(stop.in_text(text)),
    }
}

/// The test of a text, in an arena: a logical expression, as `@.price < 10 && @.isbn`.
///
/// Returns where the text is no test, and what it lacks there, or `Memory` where an allocation
/// fails, as [`read`] does of a test in a query.
pub fn read_filter<'path, A: Allocator>(
    arena: &'path Bump<A>,
    text: &str,
) -> Result<&'path Test<'path>, PathError>
    ensures test { IfOk result (λ test. FilterText test.now text.now) }
    ensures index { IfErr result (λ e. e.index ≤ length text.now) }
{
    match whole::test(arena, text) {
        Ok(test) => Ok(test),
        Err(stop) => Err(stop.in_text(text)),
    }
}
