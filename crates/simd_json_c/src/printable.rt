//! The printer's nodes, made of those that a program in C passes. These may be anything: a text is
//! tested before it is read.
ghost use Rattle.std.specs.Prelude.{◌≡◌, ◌≤◌, ◌⊎◌, ◌==◌, ℕ, List, All, IfOk, length, map, not};
ghost use Rattle.std.specs.Int.{cast_signed, w64};
ghost use Rattle.simd_json_parts.specs.Document.{Document};
ghost use Rattle.simd_json_parts.specs.Listing.{listing};
ghost use Rattle.simd_json_parts.specs.Nodes.{Item, array_item, decimal_item, item_of};
ghost use Rattle.simd_json_parts.specs.Nodes.{object_item, static_item, string_item};
ghost use Rattle.simd_json_parts.specs.declared.node.StaticNode.{StaticNode};
ghost use Rattle.simd_json_parts.specs.declared.node.StaticNode.TheVariants as fixed;
ghost use Rattle.simd_json_c.specs.Placed.{AreFirst, IsValueAt};
ghost use Rattle.simd_json_c.specs.Printable.{IsPartAt, IsPrintable, IsStrAt};
ghost use Rattle.simd_json_c.specs.Printable.{IsWideAt, IsWideLiteral};

use crate::cells::Cell;
use crate::pointer::{after, text_at};
use simd_json::{Node, StaticNode};
use simd_json_scalars::numberparse::{Number, parse_number};
use std::alloc::{AllocError, Global};

// The nodes of the value at index `from`.
pub(crate) fn nodes_from<'t>(
    alloc: Global,
    cells: &[Cell],
    text: &'t [u8],
    from: usize,
) -> Result<Vec<Node<'t>>, AllocError>
    requires { from ≤ length cells.now }
    ensures { (d : Document) → IsValueAt cells.now text.now from d → All IsPrintable (listing d)
        → IfOk result (λ nodes. map item_of nodes.items ≡ listing d) }
{
    let rest = &cells[from..];
    match after(rest, 0) {
        Some(end) => {
            let end = end.min(rest.len());
            nodes_of(alloc, &rest[..end], text)
        }
        None => Ok(Vec::new(alloc)),
    }
}

fn nodes_of<'t>(alloc: Global, cells: &[Cell], text: &'t [u8]) -> Result<Vec<Node<'t>>, AllocError>
    ensures { (items : List Item) → AreFirst text.now items cells.now
        → length items ≡ length cells.now → All IsPrintable items
        → IfOk result (λ nodes. map item_of nodes.items ≡ items) }
{
    let mut nodes = Vec::with_capacity(alloc, cells.len())?;
    for at in 0..cells.len() {
        nodes.push(node_of(cells[at], text))?;
    }
    Ok(nodes)
}

fn node_of<'t>(cell: Cell, text: &'t [u8]) -> Node<'t>
    ensures null { cell.kind ≡ 0 → item_of result ≡ static_item fixed.Null }
    ensures truth { cell.kind ≡ 1
        → item_of result ≡ static_item (fixed.Bool (not (cell.value == 0))) }
    ensures signed { cell.kind ≡ 2
        → item_of result ≡ static_item (fixed.I64 (cast_signed w64 cell.value)) }
    ensures unsigned { cell.kind ≡ 3 → item_of result ≡ static_item (fixed.U64 cell.value) }
    ensures wide { (cell.kind ≡ 4) ⊎ (cell.kind ≡ 5) → (value : StaticNode)
        → IsWideAt text.now cell.value cell.len value → item_of result ≡ static_item value }
    ensures decimal { cell.kind ≡ 6 → (part : List ℕ) → IsStrAt text.now cell.value cell.len part
        → item_of result ≡ decimal_item part }
    ensures string { cell.kind ≡ 7 → (part : List ℕ) → IsStrAt text.now cell.value cell.len part
        → item_of result ≡ string_item part }
    ensures array { cell.kind ≡ 8 → item_of result ≡ array_item cell.len cell.value }
    ensures object { cell.kind ≡ 9 → item_of result ≡ object_item cell.len cell.value }
{
    match cell.kind {
        1 => Node::Static(StaticNode::Bool(cell.value != 0)),
        2 => Node::Static(StaticNode::I64(cell.value.cast_signed())),
        3 => Node::Static(StaticNode::U64(cell.value)),
        4 | 5 => Node::Static(integer_of(text_of(cell, text))),
        6 => Node::Decimal(str_of(cell, text)),
        7 => Node::String(str_of(cell, text)),
        8 => Node::Array {
            len: cell.len as usize,
            count: cell.value as usize,
        },
        9 => Node::Object {
            len: cell.len as usize,
            count: cell.value as usize,
        },
        _ => Node::Static(StaticNode::Null),
    }
}

// The text of a node, or none if it has no such text.
pub(crate) fn text_of<'t>(cell: Cell, text: &'t [u8]) -> &'t [u8]
    ensures { (part : List ℕ) → IsPartAt text.now cell.value cell.len part → result.now ≡ part }
{
    text_at(text, cell.value, cell.len as usize)
}

fn str_of<'t>(cell: Cell, text: &'t [u8]) -> &'t str
    ensures { (part : List ℕ) → IsStrAt text.now cell.value cell.len part → result.now ≡ part }
{
    str::from_utf8(text_of(cell, text)).unwrap_or("")
}

// The integer with this literal, or null if it is none.
fn integer_of(literal: &[u8]) -> StaticNode
    ensures { (value : StaticNode) → IsWideLiteral literal.now value → result ≡ value }
{
    match parse_number(literal) {
        Number::Integer(value, _) => value,
        _ => StaticNode::Null,
    }
}
