//! The parts of a regular expression, one after the other in a slice.
use crate::item::Item;

/// What a part of a regular expression is. Its own parts come after it in a slice, and are named by
/// how many nodes are between.
#[derive(Clone, Copy, Debug)]
pub enum Kind {
    /// The empty text.
    Empty,
    /// One character.
    One(Item),
    /// A character that one of so many nodes after this one allows.
    OneOf(u16),
    /// A character that none of so many nodes after this one allows.
    NoneOf(u16),
    /// One part, and then the other.
    Then(u16, u16),
    /// One of two parts.
    Or(u16, u16),
    /// A part any number of times.
    Many(u16),
}

/// A part of a regular expression.
#[derive(Clone, Copy, Debug)]
pub struct Node {
    /// What it is.
    pub kind: Kind,
    /// How many characters it has: each may be marked.
    pub size: u16,
    /// Whether it matches the empty text.
    pub takes_empty: bool,
}

impl Node {
    /// The empty text.
    pub const EMPTY: Node = Node {
        kind: Kind::Empty,
        size: 0,
        takes_empty: true,
    };

    ghost use Rattle.std.specs.Prelude.{◌≡◌};
    ghost use Rattle.simd_json_regexp.specs.Items.{node_allows};

    // Whether it is one character, which may be this one.
    pub(crate) fn allows(&self, c: char) -> bool
        ensures { result ≡ node_allows c self.now }
    {
        match self.kind {
            Kind::One(item) => item.allows(c),
            _ => false,
        }
    }
}
