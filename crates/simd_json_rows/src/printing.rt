//! Printed texts.
use crate::listing;
use anyhow::{Result, bail};
use simd_json::tape::Value;
use simd_json::{Buffers, to_tape, to_tape_with_buffers};
use std::alloc::Global;

/// The printed text, as it is encoded and as it is written, or the error.
pub fn printed(alloc: Global, input: &[u8], is_pretty: bool) -> Result<String> {
    let mut copy = Vec::from_slice(alloc, input)?;
    match to_tape(alloc, copy.as_mut_slice()) {
        Ok(tape) => text(alloc, &tape.as_value(), is_pretty),
        Err(error) => listing::error(alloc, &error),
    }
}

/// The text of a value, as it is encoded and as it is written.
pub fn text(alloc: Global, value: &Value<'_, '_>, is_pretty: bool) -> Result<String> {
    let mut written = Vec::new(alloc);
    let encoded = if is_pretty {
        value.write_pp(&mut written)?;
        value.encode_pp(alloc)?
    } else {
        value.write(&mut written)?;
        value.encode(alloc)?
    };
    if encoded.as_bytes() != written.as_slice() {
        bail!("a value is encoded as {encoded} and written otherwise");
    }
    Ok(encoded)
}

/// Fails unless both texts of a document are parsed as an equal value.
pub fn assert_read_again(alloc: Global, input: &[u8], limit: usize) -> Result<()> {
    let mut copy = Vec::from_slice(alloc, input)?;
    let mut buffers = Buffers::empty(alloc, limit);
    let Ok(tape) = to_tape_with_buffers(copy.as_mut_slice(), &mut buffers) else {
        return Ok(());
    };
    let value = tape.as_value();
    for is_pretty in [false, true] {
        let mut printed = text(alloc, &value, is_pretty)?.into_bytes();
        let again = to_tape_with_buffers(printed.as_mut_slice(), &mut buffers)?;
        if again.as_value() != value {
            bail!("a printed document is parsed as another value");
        }
    }
    Ok(())
}
