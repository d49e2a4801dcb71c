//! Where a node was written in an input.
ghost use Rattle.std.specs.Prelude.{◌≡◌, slice_get};
ghost use Rattle.simd_json_c.specs.Located.{IsNodeLocated, begins_node, node_places, node_position};

use crate::location::{InputPosition, position_of};
use crate::status::{NO_VALUE, OK, OUT_OF_MEMORY};
use simd_json::{Error, ErrorType};
use simd_json_check::{Index, Location};
use simd_json_parts::charutils::byte_or_space;
use std::alloc::Global;

/// Writes the position in the input at which the node with this index begins.
#[unsafe(no_mangle)]
pub extern "C" fn simd_json_node_position(
    alloc: Global,
    input: &[u8],
    node: usize,
    position: &mut InputPosition,
) -> i32
    ensures { IsNodeLocated input.now node result position.old position.new }
{
    let mut index = Index::empty(alloc);
    if let Err(e) = index.scan(input) {
        return if *e.error() == ErrorType::OutOfMemory {
            OUT_OF_MEMORY
        } else {
            NO_VALUE
        };
    }
    match node_place(input, index.structural_indexes(), node) {
        Some(at) => {
            *position = position_at(input, at);
            OK
        }
        None => NO_VALUE,
    }
}

// The place of the node with this index: of the structural indexes at which a node begins.
fn node_place(input: &[u8], indexes: &[u32], node: usize) -> Option<usize>
    ensures { result ≡ slice_get (node_places input.now indexes.now) node }
{
    let mut left = node;
    for passed in 0..indexes.len() {
        let at = indexes[passed] as usize;
        if begins_node(byte_or_space(input, at)) {
            if left == 0 {
                return Some(at);
            }
            left -= 1;
        }
    }
    None
}

// Whether a token with this first byte is a node: all are but the characters between nodes, and
// after them.
fn begins_node(byte: u8) -> bool
    ensures { result ≡ begins_node byte }
{
    !matches!(byte, b':' | b',' | b']' | b'}')
}

// The position of a byte, as that of an error there.
fn position_at(input: &[u8], at: usize) -> InputPosition
    ensures { result ≡ node_position input.now at }
{
    let token = Error::new(at, Some(' '), ErrorType::InvalidNumber);
    InputPosition {
        status: OK,
        ..position_of(&Location::new(input, token))
    }
}
