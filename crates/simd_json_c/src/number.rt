//! The number of a node, of whatever kind it is.
ghost use Rattle.std.specs.Prelude.{◌≡◌, ◌≤◌, ◌<◌, ◌⊎◌, ◌^◌, ◌∷◌, List, ℕ, length, pos};
ghost use Rattle.std.specs.Float.{binary64};
ghost use Rattle.std.specs.Int.{cast_signed, w64};
ghost use Rattle.simd_json_parts.specs.Nodes.{Item};
ghost use Rattle.simd_json_c.specs.Doubles.{IsDoublePut};
ghost use Rattle.simd_json_c.specs.Numbers.{IsInt64Put, IsNumberPut};
ghost use Rattle.simd_json_c.specs.Placed.{AreAt};
ghost use Rattle.simd_json_c.specs.Printable.{IsPartAt};
ghost use Rattle.simd_json_c.specs.Statuses.{invalid_number, no_value_status};
ghost use lib.Ieee.{of_int};

use crate::cells::Cell;
use crate::double::simd_json_double;
use crate::printable::text_of;
use crate::status::{INVALID_NUMBER, NO_VALUE, OK};
use std::num::{nearest_i64_to_f64, nearest_u64_to_f64};

/// Writes the double nearest to the number at index `at` of the nodes of a document.
#[unsafe(no_mangle)]
pub extern "C" fn simd_json_number(nodes: &[Cell], text: &[u8], at: usize, number: &mut f64) -> i32
    ensures none { length nodes.now ≤ at
        → (result ≡ no_value_status) × (number.new ≡ number.old) }
    ensures number { (item : Item) (rest : List Item) → AreAt nodes.now text.now at (item ∷ rest)
        → IsNumberPut item result number.old number.new }
{
    if at >= nodes.len() {
        return NO_VALUE;
    }
    put_number(nodes[at], text, number)
}

// Writes the double nearest to the number of a node, and returns the status.
fn put_number(node: Cell, text: &[u8], number: &mut f64) -> i32
    ensures signed { node.kind ≡ 2 → (result ≡ pos 0)
        × (number.new ≡ of_int binary64 (cast_signed w64 node.value)) }
    ensures unsigned { node.kind ≡ 3 → (result ≡ pos 0)
        × (number.new ≡ of_int binary64 (pos node.value)) }
    ensures literal { 4 ≤ node.kind → node.kind ≤ 6 → (part : List ℕ)
        → IsPartAt text.now node.value node.len part
        → IsDoublePut part result number.old number.new }
    ensures other { (node.kind < 2) ⊎ (6 < node.kind)
        → (result ≡ no_value_status) × (number.new ≡ number.old) }
{
    match node.kind {
        2 => *number = nearest_i64_to_f64(node.value.cast_signed()),
        3 => *number = nearest_u64_to_f64(node.value),
        4..=6 => return simd_json_double(text_of(node, text), number),
        _ => return NO_VALUE,
    }
    OK
}

/// Writes the integer at index `at` of the nodes of a document, if it has 64 bits with a sign.
#[unsafe(no_mangle)]
pub extern "C" fn simd_json_int64(nodes: &[Cell], at: usize, number: &mut i64) -> i32
    ensures none { length nodes.now ≤ at
        → (result ≡ no_value_status) × (number.new ≡ number.old) }
    ensures number { (text : List ℕ) (item : Item) (rest : List Item)
        → AreAt nodes.now text at (item ∷ rest)
        → IsInt64Put item result number.old number.new }
{
    if at >= nodes.len() {
        return NO_VALUE;
    }
    put_int64(nodes[at], number)
}

// Writes the integer of a node, if it has 64 bits with a sign, and returns the status.
fn put_int64(node: Cell, number: &mut i64) -> i32
    ensures signed { node.kind ≡ 2 → (result ≡ pos 0)
        × (number.new ≡ cast_signed w64 node.value) }
    ensures unsigned { node.kind ≡ 3 → node.value < 2 ^ 63 → (result ≡ pos 0)
        × (number.new ≡ pos node.value) }
    ensures great { node.kind ≡ 3 → 2 ^ 63 ≤ node.value
        → (result ≡ invalid_number) × (number.new ≡ number.old) }
    ensures literal { 4 ≤ node.kind → node.kind ≤ 6
        → (result ≡ invalid_number) × (number.new ≡ number.old) }
    ensures other { (node.kind < 2) ⊎ (6 < node.kind)
        → (result ≡ no_value_status) × (number.new ≡ number.old) }
{
    match node.kind {
        2 => *number = node.value.cast_signed(),
        3 if node.value < 1 << 63 => *number = node.value as i64,
        3..=6 => return INVALID_NUMBER,
        _ => return NO_VALUE,
    }
    OK
}
