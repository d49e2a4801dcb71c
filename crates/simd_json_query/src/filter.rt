//! Filters (RFC 9535, section 2.3.5): tests of a node.
use crate::query::{Choice, Segment};
use simd_json_regexp::Pattern;

/// A step from a node to one of its children: a segment of one name or one index.
#[derive(Clone, Copy, Debug)]
pub enum Step<'path> {
    /// To the value of the member with a name; of equal names the first.
    Name(&'path str),
    /// To the element at an index; below zero it counts from the end.
    Index(i64),
}

/// A query that selects at most one node (section 2.3.5.1).
#[derive(Clone, Copy, Debug)]
pub enum SingularQuery<'path> {
    /// From the node that is tested: `@`.
    Relative(&'path [Step<'path>]),
    /// From the value that the whole query is applied to: `$`.
    Absolute(&'path [Step<'path>]),
}

/// A query in a filter (section 2.3.5.1), which holds no filter itself.
#[derive(Clone, Copy)]
pub struct Query<'path> {
    /// From where the first segment selects.
    pub start: SingularQuery<'path>,
    /// Each selects of the nodes that the one before it selected. Without any the query is
    /// singular. What [`read`](crate::read) returns has at most 100.
    pub segments: &'path [Segment<'path, Choice<'path>>],
}

/// A value that a filter spells (section 2.3.5.1).
#[derive(Clone, Copy, Debug)]
pub enum Literal<'path> {
    /// `null`, a value like others.
    Null,
    /// `true` or `false`.
    Bool(bool),
    /// A number: its text, as JSON spells it, or `-0`.
    Number(&'path str),
    /// The characters of a string.
    String(&'path str),
}

/// What a comparison compares (section 2.3.5.1): a value, or nothing.
#[derive(Clone, Copy)]
pub enum Comparable<'path> {
    /// A value that the filter spells.
    Literal(Literal<'path>),
    /// The value of the node that a query selects; nothing where it selects none.
    Query(SingularQuery<'path>),
    /// `length` (section 2.4.4): the number of a string's characters, of an array's elements or of
    /// an object's members; nothing of other values, and of nothing.
    Length(&'path Comparable<'path>),
    /// `count` (section 2.4.5): how many nodes a query selects.
    Count(Query<'path>),
    /// `value` (section 2.4.8): the value of the only node that a query selects; else nothing.
    Value(Query<'path>),
}

/// How two values are compared (section 2.3.5.2.2).
#[derive(Clone, Copy, Debug, PartialEq, Eq)]
pub enum Comparison {
    /// `==`.
    Equal,
    /// `!=`.
    NotEqual,
    /// `<`.
    Less,
    /// `<=`.
    LessOrEqual,
    /// `>`.
    Greater,
    /// `>=`.
    GreaterOrEqual,
}

/// The second argument of `match` or `search`: a regular expression (RFC 9485).
#[derive(Clone, Copy)]
pub enum Matcher<'path> {
    /// A literal that was read: what matches it as a whole matches, or in a call of `search` is
    /// found. A literal that is no pattern is the one that matches nothing.
    Literal(Pattern<'path>),
    /// In a call of `match` (section 2.4.6) a value, which is read for each node.
    Match(Comparable<'path>),
    /// In a call of `search` (section 2.4.7) a value, which is read for each node.
    Search(Comparable<'path>),
}

/// A test of a node: a logical expression (section 2.3.5.1).
///
/// Of `a && b && c` the right operand is `b && c`, and so with `||`: what evaluates a test can go
/// on with a right operand in a loop, and recurses no deeper than parentheses are nested.
#[derive(Clone, Copy)]
pub enum Test<'path> {
    /// The query selects a node, whatever its value.
    Exists(Query<'path>),
    /// A comparison of two values.
    Compare(Comparable<'path>, Comparison, Comparable<'path>),
    /// A string that a regular expression matches: `match` or `search`.
    Matches(Comparable<'path>, Matcher<'path>),
    /// The test fails.
    Not(&'path Test<'path>),
    /// Both pass.
    And(&'path Test<'path>, &'path Test<'path>),
    /// One of them passes, or both.
    Or(&'path Test<'path>, &'path Test<'path>),
}
