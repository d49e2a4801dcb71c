//! Values on demand: a parser keeps an input with its structural indexes, and JSON Pointers find
//! values there. No node is made, and only what lies on the way is read.
ghost use Rattle.std.specs.Prelude.{◌≡◌, ℕ, List, Some};
ghost use Rattle.simd_json_ondemand.specs.Docs.{doc};
ghost use Rattle.simd_json_ondemand.specs.Written.{written};
ghost use Rattle.simd_json_parts.specs.Document.{Document};
ghost use Rattle.simd_json_parts.specs.Views.{value_type};
ghost use Rattle.simd_json_c.specs.Found.{IsFoundIn, IsFoundWith, IsInputWith, IsPutAs};
ghost use Rattle.simd_json_c.specs.Found.{IsValuePut, kind_number};

use crate::parser::Parser;
use crate::pointer::missing;
use crate::print::put_text;
use crate::scanned::ScannedInput;
use crate::status::{ErrorPlace, NO_VALUE, PARSER_CLOSED, reported};
use simd_json_ondemand::views::kinds_are_those_of_documents;
use simd_json_ondemand::{Value, ValueType};
use std::alloc::Global;
use std::mem::replace;

/// A value that is found.
#[repr(C)]
#[derive(Clone, Copy, Drop)]
pub struct FoundValue {
    /// What it is, by the header's numbers.
    pub kind: u32,
    /// How many bytes it has as it is written.
    pub len: usize,
}

/// Keeps a copy of an input, and its structural indexes, until the next call of this function.
#[unsafe(no_mangle)]
pub extern "C" fn simd_json_parser_scan(
    alloc: Global,
    parser: &mut Parser,
    input: &[u8],
    place: &mut ErrorPlace,
) -> i32
    ensures { IsInputWith parser.old.held.value parser.new.held.value input.now result place.new }
{
    match replace(parser, Parser::closed(alloc)).into_lists() {
        Some(mut lists) => {
            let outcome = lists.source.keep(input);
            *parser = Parser::open(lists);
            reported(outcome, place)
        }
        None => reported(Ok(PARSER_CLOSED), place),
    }
}

/// Writes the value that a pointer names in the input that is kept, as it is written there, to the
/// caller's memory.
#[unsafe(no_mangle)]
pub extern "C" fn simd_json_parser_pointer(
    alloc: Global,
    parser: &mut Parser,
    pointer: &[u8],
    found: &mut FoundValue,
    out: &mut [u8],
) -> i32
    ensures { IsFoundWith parser.old.held.value parser.new.held.value pointer.now result
        found.old found.new out.old out.new }
{
    match replace(parser, Parser::closed(alloc)).into_lists() {
        Some(lists) => {
            let status = put_named(&lists.source, pointer, found, out);
            *parser = Parser::open(lists);
            status
        }
        None => PARSER_CLOSED,
    }
}

// Writes the value that a pointer names in an input, and returns the status.
fn put_named(source: &ScannedInput, pointer: &[u8], found: &mut FoundValue, out: &mut [u8]) -> i32
    ensures { IsFoundIn source.now pointer.now result found.old found.new out.old out.new }
{
    match source.named(pointer) {
        Some(value) => put_value(value, found, out),
        None => missing(pointer),
    }
}

// Writes the kind of a value, and its bytes as they are written if there is room for them, and
// returns the status.
fn put_value(value: Value<'_>, found: &mut FoundValue, out: &mut [u8]) -> i32
    ensures any { IsValuePut value.entry result found.old found.new out.old out.new }
    ensures document { (e : Document) → doc value.entry ≡ Some e
        → (bytes : List ℕ) × (written value.entry ≡ Some bytes)
        × IsPutAs (value_type e) bytes result found.new out.old out.new }
{
    // a law
    kinds_are_those_of_documents();
    let (Some(kind), Some(bytes)) = (value.value_type(), value.raw()) else {
        return NO_VALUE;
    };
    found.kind = number_of(kind);
    put_text(bytes, out, &mut found.len)
}

// The header's number of a kind.
pub(crate) fn number_of(kind: ValueType) -> u32
    ensures { result ≡ kind_number kind }
{
    match kind {
        ValueType::Null => 0,
        ValueType::Bool => 1,
        ValueType::I64 => 2,
        ValueType::U64 => 3,
        ValueType::I128 => 4,
        ValueType::U128 => 5,
        ValueType::Decimal => 6,
        ValueType::String => 7,
        ValueType::Array => 8,
        ValueType::Object => 9,
    }
}
