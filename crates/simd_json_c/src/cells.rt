//! Nodes as a program in C gets them.
ghost use Rattle.std.specs.Prelude.{◌≡◌, ℕ, true};
ghost use Rattle.simd_json_stages.specs.Placed.{is_long};
ghost use Rattle.simd_json_c.specs.Cells.{cut, cut_of, cell_with, static_cell};

use simd_json::{Container, SpanNode, StaticNode};

/// A node of a tape.
#[repr(C)]
#[derive(Clone, Copy, Drop)]
pub struct Cell {
    /// What it is, by the header's numbers.
    pub kind: u32,
    /// The length of its text in bytes, or its number of members.
    pub len: u32,
    /// The place of its text in the input, the number of nodes beneath it, or its number.
    pub value: u64,
}

impl SpanNode for Cell {
    ghost form = { cut_of };

    #[inline(always)]
    fn string(at: usize, len: usize) -> Cell {
        cell_of(7, len, at)
    }

    #[inline(always)]
    fn decimal(at: usize, len: usize) -> Cell {
        cell_of(6, len, at)
    }

    #[inline(always)]
    fn wide_integer(at: usize, len: usize, value: StaticNode) -> Cell {
        cell_of(long_kind(value), len, at)
    }

    // Its kind is known where this is inlined, so the other cases disappear.
    #[inline(always)]
    fn short_scalar(value: StaticNode) -> Cell {
        let (kind, value) = match value {
            StaticNode::Bool(value) => (1, value as u64),
            StaticNode::I64(value) => (2, value.cast_unsigned()),
            StaticNode::U64(value) => (3, value),
            _ => (0, 0),
        };
        Cell {
            kind,
            len: 0,
            value,
        }
    }

    #[inline(always)]
    fn header(container: Container, len: usize, count: usize) -> Cell {
        match container {
            Container::Array => cell_of(8, len, count),
            Container::Object => cell_of(9, len, count),
        }
    }
}

// A node with so many bytes or members. Only 32 bits of the length are kept: no document needs
// more, since an input has fewer than 2^32 bytes.
#[inline(always)]
fn cell_of(kind: u32, len: usize, value: usize) -> Cell
    ensures { result ≡ cut (cell_with kind len value) }
{
    Cell {
        kind,
        len: (len % (1 << 32)) as u32,
        value: value as u64,
    }
}

// The kind of an integer of 128 bits.
fn long_kind(value: StaticNode) -> u32
    requires { is_long value ≡ true }
    ensures { (at len : ℕ) → static_cell at len value ≡ cell_with result len at }
{
    match value {
        StaticNode::I128(_) => 4,
        _ => 5,
    }
}
