//! What a comparison compares (RFC 9535, section 2.3.5.1).
ghost use Rattle.std.specs.Prelude.{◌≡◌, Some, is_none, length, option_and_then, option_map};
ghost use Rattle.std.specs.Str.{chars};
ghost use Rattle.simd_json.specs.Viewed.{doc};
ghost use Rattle.simd_json_path.specs.Comparisons.{both, compares, equals, is_less, primitive};
ghost use Rattle.simd_json_path.specs.Comparisons.{same_primitives};
ghost use Rattle.simd_json_path.specs.Filters.{length_of, operand, text_of};
ghost use Rattle.simd_json_path.specs.Operands.{operand_value, scalar_value, string_read};

use crate::filter::selected_node;
use crate::filter_query::{count, only};
use crate::same::same_to;
use crate::scalar::Scalar;
use simd_json::tape::Value;
use simd_json_query::{Comparable, Comparison, Literal};

// A value, or nothing.
#[derive(Clone, Copy)]
pub(crate) enum Operand<'path, 'tape, 'input> {
    Nothing,
    Literal(Literal<'path>),
    Count(usize),
    Node(Value<'tape, 'input>),
}

// How many levels of arrays and objects are compared by their values: the comparison recurses, and
// the stack that it takes is bounded.
const LEVELS: usize = 128;

// What is compared, in a query that is applied to `root`. It recurses over calls of `length`.
pub(crate) fn operand_of<'path, 'tape, 'input>(
    comparable: &Comparable<'path>,
    root: Value<'tape, 'input>,
    node: Value<'tape, 'input>,
) -> Operand<'path, 'tape, 'input>
    ensures { operand_value result ≡ operand (doc root.entry) comparable.now (doc node.entry) }
{
    match comparable {
        Comparable::Literal(literal) => Operand::Literal(*literal),
        Comparable::Query(query) => one_or_nothing(selected_node(query, root, node)),
        Comparable::Length(argument) => length_of(operand_of(argument, root, node)),
        Comparable::Count(query) => Operand::Count(count(query, root, node)),
        Comparable::Value(query) => one_or_nothing(only(query, root, node)),
    }
}

fn one_or_nothing<'path, 'tape, 'input>(
    value: Option<Value<'tape, 'input>>,
) -> Operand<'path, 'tape, 'input>
    ensures { operand_value result ≡ option_map doc value.entry }
{
    match value {
        Some(value) => Operand::Node(value),
        None => Operand::Nothing,
    }
}

// How many characters, elements or members there are.
fn length_of<'path, 'tape, 'input>(
    operand: Operand<'path, 'tape, 'input>,
) -> Operand<'path, 'tape, 'input>
    ensures { operand_value result ≡ option_and_then length_of (operand_value operand.entry) }
{
    match operand {
        Operand::Literal(Literal::String(text)) => Operand::Count(characters(text)),
        Operand::Node(value) => length_of_value(value),
        _ => Operand::Nothing,
    }
}

fn length_of_value<'path, 'tape, 'input>(
    value: Value<'tape, 'input>,
) -> Operand<'path, 'tape, 'input>
    ensures { operand_value result ≡ length_of (doc value.entry) }
{
    if let Some(text) = value.as_str() {
        return Operand::Count(characters(text));
    }
    if let Some(array) = value.as_array() {
        return Operand::Count(array.len());
    }
    if let Some(object) = value.as_object() {
        return Operand::Count(object.len());
    }
    Operand::Nothing
}

// The string, if it is one.
pub(crate) fn text_of<'all>(operand: Operand<'all, '_, 'all>) -> Option<&'all str>
    ensures { option_map string_read result
        ≡ option_and_then text_of (operand_value operand.entry) }
{
    match operand {
        Operand::Literal(Literal::String(text)) => Some(text),
        Operand::Node(value) => value.as_str(),
        _ => None,
    }
}

fn characters(text: &str) -> usize
    ensures { result ≡ length (chars text.now) }
{
    text.chars().count()
}

pub(crate) fn compares(
    left: Operand<'_, '_, '_>,
    comparison: Comparison,
    right: Operand<'_, '_, '_>,
) -> bool
    ensures { result
        ≡ compares comparison (operand_value left.entry) (operand_value right.entry) }
{
    match comparison {
        Comparison::Equal => equals(left, right),
        Comparison::NotEqual => !equals(left, right),
        Comparison::Less => is_less(left, right),
        Comparison::LessOrEqual => is_less(left, right) || equals(left, right),
        Comparison::Greater => is_less(right, left),
        Comparison::GreaterOrEqual => is_less(right, left) || equals(left, right),
    }
}

fn equals(left: Operand<'_, '_, '_>, right: Operand<'_, '_, '_>) -> bool
    ensures { result ≡ equals (operand_value left.entry) (operand_value right.entry) }
{
    match left {
        Operand::Nothing => is_nothing(right),
        Operand::Literal(literal) => equals_scalar(Scalar::of_literal(literal), right),
        Operand::Count(count) => equals_scalar(Scalar::of_count(count), right),
        Operand::Node(value) => equals_node(value, right),
    }
}

fn is_nothing(operand: Operand<'_, '_, '_>) -> bool
    ensures { result ≡ is_none (operand_value operand.entry) }
{
    match operand {
        Operand::Nothing => true,
        Operand::Literal(_) => false,
        Operand::Count(_) => false,
        Operand::Node(_) => false,
    }
}

fn equals_scalar(left: Scalar<'_>, right: Operand<'_, '_, '_>) -> bool
    ensures { result ≡ both same_primitives (Some (scalar_value left.entry))
        (option_and_then primitive (operand_value right.entry)) }
{
    match scalar_of(right) {
        Some(right) => left.is_same(&right),
        None => false,
    }
}

fn equals_node(left: Value<'_, '_>, right: Operand<'_, '_, '_>) -> bool
    ensures { result ≡ equals (Some (doc left.entry)) (operand_value right.entry) }
{
    match right {
        Operand::Nothing => false,
        Operand::Literal(literal) => is_scalar(left, Scalar::of_literal(literal)),
        Operand::Count(count) => is_scalar(left, Scalar::of_count(count)),
        Operand::Node(right) => same_to(left, right, LEVELS),
    }
}

fn is_scalar(left: Value<'_, '_>, right: Scalar<'_>) -> bool
    ensures { result ≡ both same_primitives (primitive (doc left.entry))
        (Some (scalar_value right.entry)) }
{
    match Scalar::of(left) {
        Some(left) => left.is_same(&right),
        None => false,
    }
}

fn is_less(left: Operand<'_, '_, '_>, right: Operand<'_, '_, '_>) -> bool
    ensures { result ≡ is_less (operand_value left.entry) (operand_value right.entry) }
{
    let Some(left) = scalar_of(left) else {
        return false;
    };
    let Some(right) = scalar_of(right) else {
        return false;
    };
    left.is_less(&right)
}

// The primitive value, if it is one.
fn scalar_of<'all>(operand: Operand<'all, '_, 'all>) -> Option<Scalar<'all>>
    ensures { option_map scalar_value result
        ≡ option_and_then primitive (operand_value operand.entry) }
{
    match operand {
        Operand::Nothing => None,
        Operand::Literal(literal) => Some(Scalar::of_literal(literal)),
        Operand::Count(count) => Some(Scalar::of_count(count)),
        Operand::Node(value) => Scalar::of(value),
    }
}
