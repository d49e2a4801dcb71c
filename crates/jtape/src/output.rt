//! From an input, read as one document, to its output: its text, or the lines of its tape or of its
//! structural indexes.
ghost use Rattle.std.specs.Prelude.{◌≡◌, ◌≢◌, ◌⊎◌, ◌++◌, ◌∷◌, [], true, List, ℕ, ℤ, map, take};
ghost use Rattle.std.specs.Prelude.{IfErr, OnErr, OnOk, Ok, false};
ghost use Rattle.std.specs.Io.KnownBytes.{Appends};
ghost use Rattle.jtape.specs.Lines.{header_text, lines, node_line, number_lines, typed_text};
ghost use Rattle.jtape.specs.Output.{document_output, mode_text, nothing_printed};
ghost use Rattle.jtape.specs.Runs.{lacks_memory};
ghost use Rattle.jtape.specs.declared.runs.RunFault.TheVariants as faults;
ghost use Rattle.simd_json_parts.specs.Bytes.{line_feed};
ghost use Rattle.simd_json_parts.specs.Document.{Document};
ghost use Rattle.simd_json_parts.specs.Listing.{listing};
ghost use Rattle.simd_json_parts.specs.Nodes.{item_of, static_item, string_item};
ghost use Rattle.simd_json_parts.specs.Positions.{positions};
ghost use Rattle.simd_json_parts.specs.declared.node.StaticNode.{StaticNode};
ghost use Rattle.simd_json_parts.specs.declared.node.StaticNode.TheVariants.{I64, U64};
ghost use Rattle.simd_json_print.specs.Texts.{Adds};

use crate::runs::RunFault;
use crate::words::Mode;
use programs::Channel;
use simd_json::{Buffers, Node, StaticNode, to_tape_with_buffers};
use simd_json_print::document::{Layout, Level, put};
use simd_json_print::text::{Target, Text};
use simd_json_stages::stage1::lengthen;
use std::alloc::Allocator;
use std::io::Write;

// How many bytes are collected for the writer.
pub(crate) const PIECE: usize = 65_536;

// Writes an input, read as one document, in the form of a mode, or a prefix of that if the writer
// fails; in mode `Lines` nothing. All memory is allocated before the first byte is written, so that
// nothing is written if an allocation fails.
pub(crate) fn write_output<A: Allocator + Copy, W: Write>(
    a: A,
    mode: Mode,
    depth: usize,
    input: &mut [u8],
    writer: &mut Channel<W>,
) -> Result<(), RunFault>
    requires { writer.old.failed ≡ false }
    ensures all { OnOk result ((writer.new.failed ≡ false)
        × ((document_output mode depth input.old).returned ≡ Ok true)
        × Appends (W.contents writer.old.inner) (W.contents writer.new.inner)
        (document_output mode depth input.old).bytes) }
    ensures rejected { IfErr result (λ fault. fault ≢ faults.Write → (writer.new ≡ writer.old)
        × ((fault ≡ lacks_memory)
        ⊎ (document_output mode depth input.old ≡ nothing_printed fault))) }
    ensures begun { IfErr result (λ fault. fault ≡ faults.Write → (writer.new.failed ≡ true)
        × ((count : ℕ) × Appends (W.contents writer.old.inner) (W.contents writer.new.inner)
        (take count (document_output mode depth input.old).bytes))) }
{
    let mut buffers = Buffers::empty(a, depth);
    let tape = to_tape_with_buffers(input, &mut buffers)?;
    let nodes = tape.nodes();
    let mut levels = Vec::new(a);
    if matches!(mode, Mode::Compact | Mode::Pretty) {
        lengthen(&mut levels, depth.min(nodes.len()), Level::EMPTY)?;
    }
    print(writer, mode, nodes, &buffers, &mut levels)
}

// Writes a document in the form of a mode, from its nodes and the buffers that list its structural
// indexes, with levels for what is open. A function of its own: compiled as one, the parse is
// slower.
#[inline(never)]
fn print<A: Allocator, W: Write>(
    writer: &mut Channel<W>,
    mode: Mode,
    nodes: &[Node<'_>],
    buffers: &Buffers<A>,
    levels: &mut [Level],
) -> Result<(), RunFault>
    requires { writer.old.failed ≡ false }
    ensures all { (d : Document) → (input : List ℕ)
        → map item_of nodes.now ≡ listing d → buffers.now.index.listed ≡ positions input
        → OnOk result (Appends (W.contents writer.old.inner) (W.contents writer.new.inner)
        (mode_text mode input d)) }
    ensures begun { (d : Document) → (input : List ℕ)
        → map item_of nodes.now ≡ listing d → buffers.now.index.listed ≡ positions input
        → OnErr result ((count : ℕ)
        × Appends (W.contents writer.old.inner) (W.contents writer.new.inner)
        (take count (mode_text mode input d))) }
    ensures sound { OnOk result (writer.new.failed ≡ false) }
    ensures fault { IfErr result (λ fault. (fault ≡ faults.Write) × (writer.new.failed ≡ true)) }
{
    let mut text = Text::<Channel<W>, PIECE>::new(writer);
    match mode {
        Mode::Tape => put_lines(&mut text, nodes),
        Mode::Positions => put_positions(&mut text, buffers.structural_indexes()),
        Mode::Compact => {
            put(&mut text, nodes, Layout::Compact, levels);
            text.put(b"\n");
        }
        Mode::Pretty => {
            put(&mut text, nodes, Layout::Pretty, levels);
            text.put(b"\n");
        }
        Mode::Lines => {}
    }
    match text.finish() {
        Ok(()) => Ok(()),
        Err(_) => Err(RunFault::Write),
    }
}

// Puts a line for each structural index.
fn put_positions<T: Target, const SIZE: usize>(text: &mut Text<'_, T, SIZE>, positions: &[u32])
    ensures { Adds T.state text.old text.new (number_lines positions.now) }
{
    for &position in positions {
        if text.has_failed() {
            return;
        }
        text.put_static(b"", StaticNode::U64(position as u64), b"\n");
    }
}

// Puts the lines of the nodes.
fn put_lines<T: Target, const SIZE: usize>(text: &mut Text<'_, T, SIZE>, nodes: &[Node<'_>])
    ensures { Adds T.state text.old text.new (lines (map item_of nodes.now)) }
{
    for node in nodes {
        if text.has_failed() {
            return;
        }
        put_line(text, node);
    }
}

// The kinds are tested one by one, by how often they come: a test costs less than the jump table
// that one function for all of them would get.
#[inline(always)]
fn put_line<T: Target, const SIZE: usize>(text: &mut Text<'_, T, SIZE>, node: &Node<'_>)
    ensures { Adds T.state text.old text.new (node_line (item_of node.now)) }
{
    if let Node::String(string) = *node {
        text.put_string(b"String \"", string, b"\"\n");
    } else if let Node::Static(value) = *node {
        put_static(text, value);
    } else {
        put_other(text, node);
    }
}

#[inline(never)]
fn put_static<T: Target, const SIZE: usize>(text: &mut Text<'_, T, SIZE>, value: StaticNode)
    ensures { Adds T.state text.old text.new (typed_text value ++ line_feed ∷ []) }
{
    if let StaticNode::U64(_) = value {
        text.put_static(b"U64 ", value, b"\n");
    } else if let StaticNode::I64(_) = value {
        text.put_static(b"I64 ", value, b"\n");
    } else {
        put_word(text, value);
    }
}

// Null, a truth value, or an integer that does not fit 64 bits.
#[inline(never)]
fn put_word<T: Target, const SIZE: usize>(text: &mut Text<'_, T, SIZE>, value: StaticNode)
    requires unsigned { (number : ℕ) → value ≢ U64 number }
    requires signed { (number : ℤ) → value ≢ I64 number }
    ensures { Adds T.state text.old text.new (typed_text value ++ line_feed ∷ []) }
{
    if let StaticNode::Bool(_) = value {
        text.put_static(b"Bool ", value, b"\n");
    } else if let StaticNode::U128(_) = value {
        text.put_static(b"U128 ", value, b"\n");
    } else if let StaticNode::I128(_) = value {
        text.put_static(b"I128 ", value, b"\n");
    } else {
        text.put(b"Null\n");
    }
}

// A header, or a decimal.
#[inline(never)]
fn put_other<T: Target, const SIZE: usize>(text: &mut Text<'_, T, SIZE>, node: &Node<'_>)
    requires unquoted { (string : List ℕ) → item_of node.now ≢ string_item string }
    requires varying { (value : StaticNode) → item_of node.now ≢ static_item value }
    ensures { Adds T.state text.old text.new (node_line (item_of node.now)) }
{
    if let Node::Object { len, count } = *node {
        put_header(text, b"Object ", len, count);
    } else if let Node::Array { len, count } = *node {
        put_header(text, b"Array ", len, count);
    } else if let Node::Decimal(literal) = *node {
        text.put_between(b"Decimal ", literal.as_bytes(), b"\n");
    }
}

// The kind is known where this is inlined, so no length is computed.
#[inline(always)]
fn put_header<T: Target, const SIZE: usize>(
    text: &mut Text<'_, T, SIZE>,
    kind: &[u8],
    len: usize,
    count: usize,
)
    ensures { Adds T.state text.old text.new (header_text kind.now len count ++ line_feed ∷ []) }
{
    text.put_static(kind, StaticNode::U64(len as u64), b" ");
    text.put_static(b"", StaticNode::U64(count as u64), b"\n");
}
