//! What bytes say as JSON (RFC 8259), found slowly: each rule by itself, one byte after another. It
//! is there to be compared with the parser, and shares nothing with it but the names of the errors.
mod bytes;
mod descent;
mod scalars;
mod strings;
mod whole;

pub(crate) use bytes::at;
use descent::Descent;
use simd_json::{Error, Node, Result, StaticNode};
use std::alloc::Global;

// An entry of a tape. A string lies between two indexes of the decoded text, a decimal between two
// of the input.
#[derive(Clone, Copy, Debug, Drop)]
pub(crate) enum Item {
    Null,
    Truth(bool),
    Integer { is_negative: bool, magnitude: u128 },
    Decimal { start: usize, end: usize },
    String { start: usize, end: usize },
    Array { len: usize, count: usize },
    Object { len: usize, count: usize },
}

// The first error, if there is one, else the items; the structural indexes, except after an error
// of the whole.
#[derive(Drop)]
pub(crate) struct Answer {
    pub(crate) fault: Option<Error>,
    pub(crate) positions: Vec<u32>,
    items: Vec<Item>,
    text: Vec<u8>,
}

// What the bytes say, within a depth limit.
pub(crate) fn read(alloc: Global, bytes: &[u8], limit: usize) -> Result<Answer> {
    let positions = whole::positions(alloc, bytes)?;
    if let Some(kind) = whole::whole_fault(bytes, !positions.is_empty()) {
        return Ok(Answer {
            fault: Some(Error::generic(kind)),
            positions: Vec::new(alloc),
            items: Vec::new(alloc),
            text: Vec::new(alloc),
        });
    }
    let mut descent = Descent::new(alloc, bytes);
    let fault = descent.document(limit).err();
    if fault.is_some() {
        descent.items.clear();
    }
    Ok(Answer {
        fault,
        positions,
        items: descent.items,
        text: descent.text,
    })
}

impl Answer {
    // Whether nodes are those of the result, whose input is given.
    pub(crate) fn has_nodes(&self, bytes: &[u8], nodes: &[Node<'_>]) -> bool {
        nodes.len() == self.items.len()
            && nodes
                .iter()
                .zip(&self.items)
                .all(|(node, item)| self.is_node(bytes, node, *item))
    }

    fn is_node(&self, bytes: &[u8], node: &Node<'_>, item: Item) -> bool {
        match (*node, item) {
            (Node::Static(scalar), _) => is_static(scalar, item),
            (Node::Decimal(literal), Item::Decimal { start, end }) => {
                bytes.get(start..end) == Some(literal.as_bytes())
            }
            (Node::String(s), Item::String { start, end }) => {
                self.text.get(start..end) == Some(s.as_bytes())
            }
            (Node::Array { len: a, count: b }, Item::Array { len, count })
            | (Node::Object { len: a, count: b }, Item::Object { len, count }) => {
                a == len && b == count
            }
            _ => false,
        }
    }
}

fn is_static(node: StaticNode, item: Item) -> bool {
    match (node, item) {
        (StaticNode::Null, Item::Null) => true,
        (StaticNode::Bool(a), Item::Truth(b)) => a == b,
        (
            StaticNode::U64(n),
            Item::Integer {
                is_negative: false,
                magnitude,
            },
        ) => u128::from(n) == magnitude,
        (
            StaticNode::I64(n),
            Item::Integer {
                is_negative: true,
                magnitude,
            },
        ) => n <= 0 && u128::from(n.unsigned_abs()) == magnitude,
        (
            StaticNode::U128(n),
            Item::Integer {
                is_negative: false,
                magnitude,
            },
        ) => n > u128::from(u64::MAX) && n == magnitude,
        (
            StaticNode::I128(n),
            Item::Integer {
                is_negative: true,
                magnitude,
            },
        ) => n < i128::from(i64::MIN) && n.unsigned_abs() == magnitude,
        _ => false,
    }
}
