//! The printed text of a document, from its nodes: compact, or pretty with a line for each member.
//!
//! A level of 8 bytes is kept for each open container. [`append`] takes the same stack however deep
//! a document is nested: past 64 open containers it uses a list of levels, which grows. [`put`] and
//! [`write`] never allocate, and take about 11 bytes of the stack for each open container past the
//! levels that they get. That the stack suffices is not proved.
ghost use Rattle.std.specs.Prelude.{◌≡◌, ◌<◌, ◌≤◌, ◌⊎◌, ◌+◌, ◌++◌, ℕ, List, length, map, max, take};
ghost use Rattle.std.specs.Prelude.{MatchResult, OnErr, OnOk};
ghost use Rattle.std.specs.Vec.{vec_capacity};
ghost use Rattle.std.specs.Io.KnownBytes.{Appends};
ghost use Rattle.simd_json_parts.specs.Document.{Document};
ghost use Rattle.simd_json_parts.specs.Limits.{depth};
ghost use Rattle.simd_json_parts.specs.Listing.{listing};
ghost use Rattle.simd_json_parts.specs.Nodes.{item_of};
ghost use Rattle.simd_json_parts.specs.Printed.{quoted};
ghost use Rattle.simd_json_print.specs.Layout.{printed};
ghost use Rattle.simd_json_print.specs.Texts.{HasEnded, IsLonger, IsPrefix, IsPrinted};

mod growing;
mod levels;
mod scalar;
mod walk;

use crate::document::growing::Growing;
use crate::document::levels::put_growing;
pub use crate::document::walk::Level;
use crate::document::walk::put_value_within;
use crate::text::{Target, Text};
use simd_json_parts::node::Node;
use std::alloc::{AllocError, Allocator};
use std::io;
use std::io::Write;

// How many bytes are collected before they are written, or appended to a list, which grows once for
// all of them. The buffer is on the stack and first filled with zeros, which a small document pays
// for.
const PIECE: usize = 4096;

/// How a document is printed.
#[derive(Clone, Copy, Debug, Drop, PartialEq, Eq)]
pub enum Layout {
    /// Without whitespace between tokens.
    Compact,
    /// With each member on a line of its own, indented by two spaces for each open container, and
    /// `: ` between a key and its value.
    Pretty,
}

/// Puts the text of the document that the nodes list. An open container takes a level, and about 11
/// bytes of the stack where all levels are in use, or where there are none.
pub fn put<T: Target, const SIZE: usize>(
    out: &mut Text<'_, T, SIZE>,
    nodes: &[Node<'_>],
    layout: Layout,
    levels: &mut [Level],
)
    ensures { IsPrinted T.state out.old out.new (map item_of nodes.now) (printed layout) }
{
    match layout {
        Layout::Compact => put_value_within::<T, SIZE, false>(out, nodes, 0, levels),
        Layout::Pretty => put_value_within::<T, SIZE, true>(out, nodes, 0, levels),
    }
}

/// Appends the text of the document that the nodes list. Takes the same stack however deep it is
/// nested: past 64 open containers, all are kept in `levels`. The list grows where it is too short,
/// and can be kept from one call to the next.
///
/// Returns an error if an allocation fails, so only where `out` lacks the capacity, or where more
/// containers are open at a time than 64 and than there are levels. `out` then has its old
/// contents, and after them a prefix of the text.
pub fn append<A: Allocator, B: Allocator>(
    out: &mut Vec<u8, A>,
    nodes: &[Node<'_>],
    layout: Layout,
    levels: &mut Vec<Level, B>,
) -> std::result::Result<(), AllocError>
    ensures appended { (d : Document) → map item_of nodes.now ≡ listing d
        → OnOk result (out.new.items ≡ out.old.items ++ printed layout d) }
    ensures lacking { (d : Document) → map item_of nodes.now ≡ listing d → OnErr result
        ((vec_capacity out.old < length out.old.items + length (printed layout d))
        ⊎ (max 64 (length levels.old.items) < depth d)) }
    ensures begun { (d : Document) → map item_of nodes.now ≡ listing d → OnErr result
        ((count : ℕ) × (out.new.items ≡ out.old.items ++ take count (printed layout d))) }
    ensures kept { IsPrefix out.old.items out.new.items }
    ensures capacity { vec_capacity out.old ≤ vec_capacity out.new }
    ensures levels { length levels.old.items ≤ length levels.new.items }
{
    let capacity = out.capacity();
    let mut list = Growing {
        list: out,
        capacity,
        has_failed: false,
    };
    let (ended, put) = print::<Growing<'_, A>, B>(&mut list, nodes, layout, levels);
    put?;
    match ended {
        Ok(()) => Ok(()),
        Err(_) => Err(AllocError),
    }
}

// Writes the text of the document that the nodes list, or as much of it as there are levels for.
// Returns how the target ended, and whether there were.
fn print<T: Target, B: Allocator>(
    target: &mut T,
    nodes: &[Node<'_>],
    layout: Layout,
    levels: &mut Vec<Level, B>,
) -> (io::Result<()>, std::result::Result<(), AllocError>)
    ensures kept { (bytes : List ℕ)
        × HasEnded result.0 (T.state target.old) (T.state target.new) bytes }
    ensures given { (d : Document) → map item_of nodes.now ≡ listing d → MatchResult result.1
        (λ put. HasEnded result.0 (T.state target.old) (T.state target.new) (printed layout d))
        (λ fault. ((count : ℕ) × HasEnded result.0 (T.state target.old) (T.state target.new)
        (take count (printed layout d))) × (max 64 (length levels.old.items) < depth d)) }
    ensures longer { length levels.old.items ≤ length levels.new.items }
{
    let mut out = Text::<T, PIECE>::new(target);
    let put = match layout {
        Layout::Compact => put_growing::<T, PIECE, false, B>(&mut out, nodes, levels),
        Layout::Pretty => put_growing::<T, PIECE, true, B>(&mut out, nodes, levels),
    };
    (out.finish(), put)
}

/// Writes the text of the document that the nodes list.
///
/// Returns the writer's first error, or one of kind `WriteZero` if it writes 0 bytes of a non-empty
/// buffer. What was written by then is a prefix of the text. Allocates nothing, and takes about 11
/// bytes of stack for each open container.
pub fn write<W: Write>(writer: &mut W, nodes: &[Node<'_>], layout: Layout) -> io::Result<()>
    ensures written { (d : Document) → map item_of nodes.now ≡ listing d
        → OnOk result (Appends (W.contents writer.old) (W.contents writer.new) (printed layout d)) }
    ensures begun { (d : Document) → map item_of nodes.now ≡ listing d
        → OnErr result ((count : ℕ)
        × Appends (W.contents writer.old) (W.contents writer.new) (take count (printed layout d))) }
    ensures kept { IsLonger (W.contents writer.old) (W.contents writer.new) }
{
    let mut out = Text::<W, PIECE>::new(writer);
    put(&mut out, nodes, layout, &mut []);
    out.finish()
}

/// Appends a string as it is printed (RFC 8259, section 7): between quotes, with quotes,
/// backslashes and bytes below 0x20 escaped.
///
/// Returns an error if an allocation fails, so only where `out` lacks the capacity. `out` then has
/// its old contents, and after them a prefix of the string's text.
pub fn append_quoted<A: Allocator>(
    out: &mut Vec<u8, A>,
    string: &str,
) -> std::result::Result<(), AllocError>
    ensures appended { OnOk result (out.new.items ≡ out.old.items ++ quoted string.now) }
    ensures lacking { OnErr result
        (vec_capacity out.old < length out.old.items + length (quoted string.now)) }
    ensures begun { OnErr result
        ((count : ℕ) × (out.new.items ≡ out.old.items ++ take count (quoted string.now))) }
    ensures kept { IsPrefix out.old.items out.new.items }
    ensures capacity { vec_capacity out.old ≤ vec_capacity out.new }
{
    let capacity = out.capacity();
    let mut list = Growing {
        list: out,
        capacity,
        has_failed: false,
    };
    match print_quoted::<Growing<'_, A>>(&mut list, string) {
        Ok(()) => Ok(()),
        Err(_) => Err(AllocError),
    }
}

/// Writes a string as [`append_quoted`] appends it.
///
/// Returns the errors of [`write`]; what was written by then is a prefix of the string.
pub fn write_quoted<W: Write>(writer: &mut W, string: &str) -> io::Result<()>
    ensures written { OnOk result
        (Appends (W.contents writer.old) (W.contents writer.new) (quoted string.now)) }
    ensures begun { OnErr result ((count : ℕ) × Appends (W.contents writer.old)
        (W.contents writer.new) (take count (quoted string.now))) }
    ensures kept { IsLonger (W.contents writer.old) (W.contents writer.new) }
{
    print_quoted::<W>(writer, string)
}

// Writes a string between quotes.
fn print_quoted<T: Target>(target: &mut T, string: &str) -> io::Result<()>
    ensures { HasEnded result (T.state target.old) (T.state target.new) (quoted string.now) }
{
    let mut out = Text::<T, 256>::new(target);
    out.put_string(b"\"", string, b"\"");
    out.finish()
}
