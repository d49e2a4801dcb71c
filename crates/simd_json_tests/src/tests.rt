ghost use Rattle.std.specs.Prelude.{◌≢◌, []};

use simd_json::tape::{Array, Object};
use simd_json::{Tape, to_tape};
use std::alloc::Global;
use std::process::Abort;
use std::test::Fail;

mod accessors;
mod descendants;
mod deserializer;
mod examples;
mod growths;
mod locations;
mod maps;
mod memory;
mod pointer;
mod printing;
mod reading;
mod reuse;
mod shapes;
mod spans;
mod values;
mod views;

type Tested = std::result::Result<(), Fail>;

// The tape of a document.
fn tape_of<'de>(rt: &(impl AllocGlobal + Abort), input: &'de mut [u8]) -> Tape<'de>
    ensures { result.nodes ≢ [] }
{
    let tape = to_tape(rt.alloc(), input).expect(rt, "it is a document");
    assert!(rt; !tape.is_empty());
    tape
}

// A text a number of times, between two others.
fn text(
    alloc: Global,
    before: &[u8],
    piece: &[u8],
    count: usize,
    after: &[u8],
) -> std::result::Result<Vec<u8>, Fail> {
    let mut text = Vec::from_slice(alloc, before)?;
    for _ in 0..count {
        text.extend_from_slice(piece)?;
    }
    text.extend_from_slice(after)?;
    Ok(text)
}

// How many members there are in a container that is there.
fn array_len(array: Option<Array<'_, '_>>) -> Option<usize> {
    match array {
        Some(array) => Some(array.len()),
        None => None,
    }
}

fn object_len(object: Option<Object<'_, '_>>) -> Option<usize> {
    match object {
        Some(object) => Some(object.len()),
        None => None,
    }
}
