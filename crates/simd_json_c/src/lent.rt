//! A parse whose nodes the parser keeps, and lends until the next call with it. Their texts are
//! decoded in the caller's input, and stay there.
ghost use Rattle.std.specs.Ptr.{as_mut_ptr};
ghost use Rattle.simd_json_c.specs.Lent.{IsParsedWith};

use crate::cells::Cell;
use crate::parser::Parser;
use crate::status::{ErrorPlace, PARSER_CLOSED, reported};
use std::alloc::Global;
use std::mem::replace;

/// What a parse lends.
#[repr(C)]
#[derive(Clone, Copy, Drop)]
pub struct Lent {
    /// The nodes.
    pub nodes: *const Cell,
    /// How many there are.
    pub nodes_len: usize,
    /// The input, in which the texts of strings and literals are.
    pub text: *const u8,
    /// How many bytes it has.
    pub text_len: usize,
}

/// Keeps the nodes of a document, and lends them until the next call with the parser. The texts of
/// its strings and literals are in the input afterwards.
#[unsafe(no_mangle)]
pub extern "C" fn simd_json_parser_parse(
    alloc: Global,
    parser: &mut Parser,
    input: &mut [u8],
    lent: &mut Lent,
    place: &mut ErrorPlace,
) -> i32
    ensures { IsParsedWith parser.old.held.value parser.new.held.value (as_mut_ptr input.entry)
        input.old input.new result place.new lent.old lent.new }
{
    match replace(parser, Parser::closed(alloc)).into_lists() {
        Some(mut lists) => {
            let outcome = lists.parse(input, lent);
            *parser = Parser::open(lists);
            reported(outcome, place)
        }
        None => reported(Ok(PARSER_CLOSED), place),
    }
}
