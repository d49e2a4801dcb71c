//! The printed text of a document. If the room is too small, only the needed size is written, so a
//! text is made first and then copied.
ghost use Rattle.std.specs.Prelude.{◌≡◌, ◌≤◌, ◌⊎◌, ℕ, List, IfOk, IfErr, Some, length, map};
ghost use Rattle.std.specs.Prelude.{string_bytes};
ghost use Rattle.std.specs.Result.{result_err};
ghost use Rattle.std.specs.Vec.{vec_capacity};
ghost use Rattle.simd_json.specs.Viewed.{doc};
ghost use Rattle.simd_json_parts.specs.Document.{Document};
ghost use Rattle.simd_json_parts.specs.Listing.{listing};
ghost use Rattle.simd_json_parts.specs.Nodes.{item_of};
ghost use Rattle.simd_json_print.specs.Layout.{printed};
ghost use Rattle.simd_json_c.specs.Calls.{IsTextPut};
ghost use Rattle.simd_json_c.specs.Chosen.{IsChosenPut, IsPrintedWith, layout_of};
ghost use Rattle.simd_json_c.specs.Printable.{IsNodePrinted};
ghost use Rattle.simd_json_c.specs.Statuses.{error_place, error_status, out_of_memory};

use crate::cells::Cell;
use crate::parser::Parser;
use crate::pointer::missing;
use crate::printable::nodes_from;
use crate::status::{
    ErrorPlace, NO_VALUE, OUT_OF_MEMORY, PARSER_CLOSED, TOO_LITTLE_ROOM, reported,
};
use simd_json::tape::Value;
use simd_json::{Node, Result};
use simd_json_print::document::{Layout, Level, append};
use simd_json_print::text::store_bytes;
use std::alloc::Global;
use std::mem::replace;

// Copies the text if there is room for it, and returns the status; of an error its place, too.
pub(crate) fn lend_text(
    text: Result<String>,
    out: &mut [u8],
    needed: &mut usize,
    place: &mut ErrorPlace,
) -> i32
    ensures place { place.new ≡ error_place (result_err text) }
    ensures text { IfOk text (λ text.
        IsTextPut (string_bytes text) result needed.new out.old out.new) }
    ensures rejected { IfErr text (λ e. (result ≡ error_status (Some e))
        × (needed.new ≡ needed.old) × (out.new ≡ out.old)) }
{
    match text {
        Ok(text) => reported(Ok(put_text(text.as_bytes(), out, needed)), place),
        Err(e) => reported(Err(e), place),
    }
}

// Copies the text if there is room for it, and returns the status.
pub(crate) fn put_text(text: &[u8], out: &mut [u8], needed: &mut usize) -> i32
    ensures { IsTextPut text.now result needed.new out.old out.new }
{
    *needed = text.len();
    if text.len() > out.len() {
        return TOO_LITTLE_ROOM;
    }
    store_bytes(out, 0, text);
    0
}

// Copies the text of the value that a pointer names, which is made in `text` with these levels, if
// there is room for it, and returns the status.
#[tactic(auto, unfolding(crate::specs::Chosen::IsChosenPut))]
pub(crate) fn print_at(
    value: Value<'_, '_>,
    pointer: &str,
    layout: Layout,
    text: &mut Vec<u8>,
    levels: &mut Vec<Level>,
    out: &mut [u8],
    needed: &mut usize,
) -> i32
    ensures chosen { IsChosenPut (vec_capacity text.old) (length levels.old.items) layout
        pointer.now (doc value.entry) result needed.old needed.new out.old out.new }
    ensures capacity { vec_capacity text.old ≤ vec_capacity text.new }
    ensures levels { length levels.old.items ≤ length levels.new.items }
{
    text.clear();
    let Some(named) = value.pointer(pointer) else {
        return missing(pointer.as_bytes());
    };
    match append(text, named.nodes(), layout, levels) {
        Ok(()) => put_text(text, out, needed),
        Err(_) => OUT_OF_MEMORY,
    }
}

// The layout that a call names: compact if the number is 0, else pretty.
pub(crate) fn layout_of(number: u32) -> Layout
    ensures { result ≡ layout_of number }
{
    if number == 0 {
        Layout::Compact
    } else {
        Layout::Pretty
    }
}

/// Writes the text of the value at index `from` of the nodes of a document to the caller's memory:
/// compact if the layout is 0, else pretty.
#[unsafe(no_mangle)]
pub extern "C" fn simd_json_print(
    alloc: Global,
    nodes: &[Cell],
    text: &[u8],
    from: usize,
    layout: u32,
    out: &mut [u8],
    needed: &mut usize,
) -> i32
    ensures { IsNodePrinted nodes.now text.now from (layout_of layout) result needed.old needed.new
        out.old out.new }
{
    if from >= nodes.len() {
        return NO_VALUE;
    }
    match nodes_from(alloc, nodes, text, from) {
        Ok(nodes) => print_nodes(alloc, &nodes, layout_of(layout), out, needed),
        Err(_) => OUT_OF_MEMORY,
    }
}

// Copies the text of the value that the nodes list if there is room for it, and returns the status.
fn print_nodes(
    alloc: Global,
    nodes: &[Node<'_>],
    layout: Layout,
    out: &mut [u8],
    needed: &mut usize,
) -> i32
    ensures { ((result ≡ out_of_memory) × (needed.new ≡ needed.old) × (out.new ≡ out.old))
        ⊎ ((text : List ℕ) × IsTextPut text result needed.new out.old out.new
        × ((d : Document) → map item_of nodes.now ≡ listing d → text ≡ printed layout d)) }
{
    let Ok(mut text) = Vec::with_capacity(alloc, out.len()) else {
        return OUT_OF_MEMORY;
    };
    match append(&mut text, nodes, layout, &mut Vec::new(alloc)) {
        Ok(()) => put_text(&text, out, needed),
        Err(_) => OUT_OF_MEMORY,
    }
}

/// Writes the text of the value that a pointer names in a document to the caller's memory: compact
/// if the layout is 0, else pretty.
#[unsafe(no_mangle)]
pub extern "C" fn simd_json_parser_print(
    alloc: Global,
    parser: &mut Parser,
    input: &mut [u8],
    pointer: &[u8],
    layout: u32,
    out: &mut [u8],
    needed: &mut usize,
    place: &mut ErrorPlace,
) -> i32
    ensures { IsPrintedWith parser.old.held.value parser.new.held.value input.old
        (layout_of layout) pointer.now result place.new needed.old needed.new out.old out.new }
{
    match replace(parser, Parser::closed(alloc)).into_lists() {
        Some(mut lists) => {
            let outcome = lists.print_from(alloc, input, pointer, layout_of(layout), out, needed);
            *parser = Parser::open(lists);
            reported(outcome, place)
        }
        None => reported(Ok(PARSER_CLOSED), place),
    }
}
