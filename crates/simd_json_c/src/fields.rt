//! Values of several JSON Pointers in one input: a parser keeps the pointers, and finds what they
//! name in one input after another. What is found is told by where it is in the caller's input.
ghost use Rattle.std.specs.Prelude.{◌≡◌, ◌≢◌, ◌≤◌, ◌<◌, ◌+◌, Some, length, map};
ghost use Rattle.std.specs.Prelude.{MatchOption};
ghost use Rattle.simd_json_parts.specs.Document.{Document};
ghost use Rattle.simd_json_ondemand.specs.Docs.{doc};
ghost use Rattle.simd_json_ondemand.specs.Prepared.{pointer_text};
ghost use Rattle.simd_json_c.specs.Fields.{AreFieldsFrom, IsAdded, IsAddedWith};
ghost use Rattle.simd_json_c.specs.Fields.{IsFieldOfSome, IsFieldsWith, IsWrittenField};
ghost use Rattle.simd_json_c.specs.Fields.{field_with, missing};

use crate::demand::number_of;
use crate::parser::Parser;
use crate::pointer::simd_json_is_pointer;
use crate::status::{ErrorPlace, INVALID_POINTER, OUT_OF_MEMORY, PARSER_CLOSED, reported};
use simd_json::StaticNode;
use simd_json_ondemand::views::kinds_are_those_of_documents;
use simd_json_ondemand::{PreparedPointer, Value, ValueType};
use std::alloc::Global;
use std::mem::replace;

/// A value that is found, where it is in the input.
#[repr(C)]
#[derive(Clone, Copy, Drop)]
pub struct Field {
    /// What it is, by the header's numbers.
    pub kind: u32,
    /// Of a string whether it has an escape: 0 or 1.
    pub has_escape: u32,
    /// How many bytes it has as it is written; 0 of a value that `value` holds.
    pub len: usize,
    /// Where these begin; or a truth value or an integer of 64 bits, as in a node.
    pub value: u64,
}

impl Field {
    // There is no such value.
    const MISSING: Field = Field {
        kind: 10,
        has_escape: 0,
        len: 0,
        value: 0,
    };
}

/// Adds a pointer to those whose values the parser finds together.
#[unsafe(no_mangle)]
pub extern "C" fn simd_json_parser_add(alloc: Global, parser: &mut Parser, pointer: &[u8]) -> i32
    ensures { IsAddedWith parser.old.held.value parser.new.held.value pointer.now result }
{
    match replace(parser, Parser::closed(alloc)).into_lists() {
        Some(mut lists) => {
            let status = add(alloc, &mut lists.wanted, pointer);
            *parser = Parser::open(lists);
            status
        }
        None => PARSER_CLOSED,
    }
}

fn add(alloc: Global, wanted: &mut Vec<PreparedPointer>, pointer: &[u8]) -> i32
    ensures { IsAdded (map pointer_text wanted.old.items) (map pointer_text wanted.new.items)
        pointer.now result }
{
    if !simd_json_is_pointer(pointer) {
        return INVALID_POINTER;
    }
    let Ok(pointer) = str::from_utf8(pointer) else {
        return INVALID_POINTER;
    };
    let Ok(prepared) = PreparedPointer::new(alloc, pointer) else {
        return OUT_OF_MEMORY;
    };
    match wanted.push(prepared) {
        Ok(()) => 0,
        Err(_) => OUT_OF_MEMORY,
    }
}

/// Finds the values that the parser's pointers name in an input, in the order in which they were
/// added, at most as many as there are fields.
#[unsafe(no_mangle)]
pub extern "C" fn simd_json_parser_pointers(
    alloc: Global,
    parser: &mut Parser,
    input: &[u8],
    fields: &mut [Field],
    place: &mut ErrorPlace,
) -> i32
    ensures { IsFieldsWith parser.old.held.value parser.new.held.value input.now result place.new
        fields.old fields.new }
{
    match replace(parser, Parser::closed(alloc)).into_lists() {
        Some(mut lists) => {
            let outcome = lists.find(input, fields);
            *parser = Parser::open(lists);
            reported(outcome, place)
        }
        None => reported(Ok(PARSER_CLOSED), place),
    }
}

// How many values are found in one walk.
const AT_ONCE: usize = 8;

// The values that pointers name, of as many as there are of both.
pub(crate) fn put_fields(root: Value<'_>, wanted: &[PreparedPointer], fields: &mut [Field])
    ensures { AreFieldsFrom root.entry wanted.now 0 (length wanted.now) fields.old fields.new }
{
    let count = wanted.len().min(fields.len());
    let mut done = 0;
    while done < count {
        let end = (done + AT_ONCE).min(count);
        put_some(root, wanted, done, end, fields);
        done = end;
    }
}

// Those from one number up to another.
fn put_some(
    root: Value<'_>,
    wanted: &[PreparedPointer],
    from: usize,
    to: usize,
    fields: &mut [Field],
)
    requires some { from < to }
    requires few { to ≤ from + 8 }
    requires wanted { to ≤ length wanted.now }
    requires fields { to ≤ length fields.old }
    ensures { AreFieldsFrom root.entry wanted.now from to fields.old fields.new }
{
    let mut found = [None; AT_ONCE];
    let (found, _) = found.split_at_mut(to - from);
    root.pointers(&wanted[from..to], found);
    for k in 0..found.len() {
        fields[from + k] = field_of(found[k]);
    }
}

// A value that is found, or none, as C gets it.
#[inline(always)]
fn field_of(found: Option<Value<'_>>) -> Field
    ensures { MatchOption found.entry (result ≡ missing) (λ v. IsFieldOfSome v result) }
{
    match found {
        Some(value) => some_field(value),
        None => Field::MISSING,
    }
}

#[inline(always)]
fn some_field(value: Value<'_>) -> Field
    ensures { IsFieldOfSome value.entry result }
{
    // a law
    kinds_are_those_of_documents();
    match value.as_integer() {
        Some(node) => match node {
            StaticNode::I64(number) => number_field(2, number.cast_unsigned()),
            StaticNode::U64(number) => number_field(3, number),
            _ => written_field(value),
        },
        None => written_field(value),
    }
}

// A value that is its number.
#[inline(always)]
fn number_field(kind: u32, value: u64) -> Field
    ensures { result ≡ field_with kind 0 value }
{
    Field {
        kind,
        has_escape: 0,
        len: 0,
        value,
    }
}

// Another value than an integer of 64 bits.
fn written_field(value: Value<'_>) -> Field
    ensures any { IsWrittenField value.entry result }
    ensures found { (e : Document) → doc value.entry ≡ Some e → result.kind ≢ missing.kind }
{
    // a law
    kinds_are_those_of_documents();
    let (Some(kind), Some(bytes)) = (value.value_type(), value.raw()) else {
        return Field::MISSING;
    };
    let at = value.index() as u64;
    match kind {
        ValueType::Null => number_field(0, 0),
        ValueType::Bool => number_field(1, u64::from(value.as_bool().unwrap_or(false))),
        ValueType::String => Field {
            kind: 7,
            has_escape: u32::from(value.has_escape()),
            len: bytes.len(),
            value: at,
        },
        _ => Field {
            kind: number_of(kind),
            has_escape: 0,
            len: bytes.len(),
            value: at,
        },
    }
}
