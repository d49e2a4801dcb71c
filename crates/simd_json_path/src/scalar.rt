//! Primitive values, compared (RFC 9535, section 2.3.5.2.2).
ghost use Rattle.std.specs.Prelude.{◌≡◌, pos, Some, option_map, false};
ghost use Rattle.simd_json_path.specs.Comparisons.{number};
ghost use Rattle.simd_json_path.specs.Operands.{scalar_value};
ghost use Rattle.simd_json.specs.Viewed.{doc};
ghost use Rattle.simd_json_parts.specs.Nodes.{item_of};

use simd_json::tape::Value;
use simd_json_number::Number;
use simd_json_parts::node::{Node, StaticNode};
use simd_json_query::Literal;
use std::cmp::Ordering;

// A value that is neither an array nor an object.
#[derive(Clone, Copy)]
pub(crate) enum Scalar<'text> {
    Null,
    Bool(bool),
    Number(Number<'text>),
    String(&'text str),
}

impl<'text> Scalar<'text> {
    ghost use Rattle.simd_json_parts.specs.Document.{integer};
    ghost use Rattle.simd_json_path.specs.Comparisons.{less_primitives, primitive, same_primitives};
    ghost use Rattle.simd_json_path.specs.Filters.{literal_value};
    ghost use Rattle.simd_json_path.specs.Operands.{item_primitive, scalar_value};

    pub(crate) fn of(value: Value<'_, 'text>) -> Option<Scalar<'text>>
        ensures { option_map scalar_value result ≡ primitive (doc value.entry) }
    {
        match value.nodes().first() {
            Some(node) => Scalar::of_node(*node),
            None => None,
        }
    }

    // Of a value that begins with the node.
    fn of_node(node: Node<'text>) -> Option<Scalar<'text>>
        ensures { option_map scalar_value result ≡ item_primitive (item_of node.entry) }
    {
        match node {
            Node::Static(StaticNode::Null) => Some(Scalar::Null),
            Node::Static(StaticNode::Bool(value)) => Some(Scalar::Bool(value)),
            Node::Static(StaticNode::I64(integer)) => Some(signed(i128::from(integer))),
            Node::Static(StaticNode::U64(integer)) => Some(unsigned(u128::from(integer))),
            Node::Static(StaticNode::I128(integer)) => Some(signed(integer)),
            Node::Static(StaticNode::U128(integer)) => Some(unsigned(integer)),
            Node::Decimal(literal) => Some(Scalar::Number(Number::Literal(literal))),
            Node::String(text) => Some(Scalar::String(text)),
            Node::Array { .. } => None,
            Node::Object { .. } => None,
        }
    }

    pub(crate) fn of_literal(literal: Literal<'text>) -> Scalar<'text>
        ensures { Some (scalar_value result) ≡ primitive (literal_value literal.entry) }
    {
        match literal {
            Literal::Null => Scalar::Null,
            Literal::Bool(value) => Scalar::Bool(value),
            Literal::Number(literal) => Scalar::Number(Number::Literal(literal)),
            Literal::String(text) => Scalar::String(text),
        }
    }

    pub(crate) fn of_count(count: usize) -> Scalar<'text>
        ensures { Some (scalar_value result) ≡ primitive (integer false count) }
    {
        unsigned(count as u128)
    }

    pub(crate) fn is_same(&self, other: &Scalar<'_>) -> bool
        ensures { result ≡ same_primitives (scalar_value self.now) (scalar_value other.now) }
    {
        match (self, other) {
            (Scalar::Null, Scalar::Null) => true,
            (Scalar::Bool(one), Scalar::Bool(other)) => one == other,
            (Scalar::Number(one), Scalar::Number(other)) => one.compare(other) == Ordering::Equal,
            (Scalar::String(one), Scalar::String(other)) => *one == *other,
            _ => false,
        }
    }

    pub(crate) fn is_less(&self, other: &Scalar<'_>) -> bool
        ensures { result ≡ less_primitives (scalar_value self.now) (scalar_value other.now) }
    {
        match (self, other) {
            (Scalar::Number(one), Scalar::Number(other)) => one.compare(other) == Ordering::Less,
            (Scalar::String(one), Scalar::String(other)) => *one < *other,
            _ => false,
        }
    }
}

fn signed<'text>(integer: i128) -> Scalar<'text>
    ensures { scalar_value result
        ≡ number (record { coefficient = integer; exponent = pos 0 }) }
{
    Scalar::Number(Number::Integer {
        is_negative: integer < 0,
        magnitude: integer.unsigned_abs(),
    })
}

fn unsigned<'text>(magnitude: u128) -> Scalar<'text>
    ensures { scalar_value result
        ≡ number (record { coefficient = pos magnitude; exponent = pos 0 }) }
{
    Scalar::Number(Number::Integer {
        is_negative: false,
        magnitude,
    })
}
