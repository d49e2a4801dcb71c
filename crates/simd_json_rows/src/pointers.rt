//! Values that JSON Pointers lead to.
use crate::printing::text;
use anyhow::{Result, bail};
use simd_json::tape::Value;
use simd_json::{Pointer, to_tape};
use std::alloc::Global;

/// The compact text of the value that a pointer leads to, by each look-up, or where it stops.
pub fn pointed(alloc: Global, document: &[u8], pointer: &str) -> Result<String> {
    let mut copy = Vec::from_slice(alloc, document)?;
    let tape = to_tape(alloc, copy.as_mut_slice())?;
    let value = tape.as_value();
    let found = value.pointer(pointer);
    if found != at_split(value, pointer) {
        bail!("`{pointer}` leads elsewhere when it is split");
    }
    match value.try_pointer(pointer) {
        Ok(there) if found == Some(there) => text(alloc, &there, false),
        Err(stop) if found.is_none() => Ok(format!(in alloc; "! {stop}")?),
        _ => bail!("`{pointer}` leads elsewhere when it is tried"),
    }
}

fn at_split<'tape, 'input>(
    value: Value<'tape, 'input>,
    pointer: &str,
) -> Option<Value<'tape, 'input>> {
    let split = Pointer::<8>::new(pointer)?;
    value.at(&split)
}
