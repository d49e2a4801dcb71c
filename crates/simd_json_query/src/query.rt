//! A query (RFC 9535, section 2.1): segments, each with selectors.
use crate::filter::{Step, Test};

/// Elements of an array between two indexes (section 2.3.4); below zero an index counts from the
/// end.
#[derive(Clone, Copy, Debug)]
pub struct Slice {
    /// The first index; by default that of the first element, or of the last one where the step is
    /// below zero.
    pub start: Option<i64>,
    /// The index before which it ends; by default past the last element on the way.
    pub end: Option<i64>,
    /// How far it is from one element to the next, below zero back. 0 selects nothing.
    pub step: i64,
}

/// What selects children of a node by their names or places (sections 2.3.1 to 2.3.4).
#[derive(Clone, Copy, Debug)]
pub enum Choice<'path> {
    /// The value of a member of an object, by its name (section 2.3.1); of equal names the first.
    Name(&'path str),
    /// All elements of an array, the values of all members of an object (section 2.3.2).
    Wildcard,
    /// An element of an array, by its index (section 2.3.3); below zero it counts from the end.
    Index(i64),
    /// Elements of an array (section 2.3.4).
    Slice(Slice),
}

/// What selects children of a node (section 2.3).
#[derive(Clone, Copy)]
pub enum Selector<'path> {
    /// Those with a name or at places.
    Choice(Choice<'path>),
    /// Those that pass a test (section 2.3.5).
    Filter(&'path Test<'path>),
}

/// Selectors, of the children of a node or of the children of all its descendants too (section
/// 2.5), and steps. In a filter's query each selector is a [`Choice`].
#[derive(Clone, Copy)]
pub struct Segment<'path, S = Selector<'path>> {
    /// Each selects of each node that the segment visits, one selector after the other.
    pub selectors: &'path [S],
    /// Whether it visits all nodes beneath a node too, and not only the node itself.
    pub is_descendant: bool,
    /// Where it continues from each node that is selected: each is a child segment of one name or
    /// one index, and takes no frame.
    pub steps: &'path [Step<'path>],
}
