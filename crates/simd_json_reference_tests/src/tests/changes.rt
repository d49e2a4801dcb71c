// Inputs that are cut short, and inputs of which one byte is another.
use crate::tests::{Kept, Tested, compare, inputs, takes_all};
use std::process::Abort;

#[test]
fn prefixes_are_answered_as_by_the_reference(rt: HostRuntime) -> Tested {
    let mut kept = Kept::new(rt.alloc())?;
    for input in inputs() {
        for len in 0..=input.len() {
            compare(&rt, input.get(..len).unwrap_or(input), &mut kept)?;
        }
    }
    Ok(())
}

// What a byte becomes where not all inputs are taken.
const FEW: &[u8] = b"\"\\],0\xc3";

// Each byte of an input in turn becomes each of these.
fn compare_changed(
    rt: &(impl AllocGlobal + Abort),
    input: &[u8],
    bytes: &[u8],
    kept: &mut Kept,
) -> Tested {
    for i in 0..input.len() {
        let mut changed = Vec::from_slice(rt.alloc(), input)?;
        for byte in bytes {
            if let Some(place) = changed.get_mut(i) {
                *place = *byte;
            }
            compare(rt, &changed, kept)?;
        }
    }
    Ok(())
}

#[test]
fn changed_bytes_are_answered_as_by_the_reference(rt: HostRuntime) -> Tested {
    let mut all = [0; 256];
    for (place, byte) in all.iter_mut().zip(0..=u8::MAX) {
        *place = byte;
    }
    let bytes = if takes_all(&rt) { all.as_slice() } else { FEW };
    let mut kept = Kept::new(rt.alloc())?;
    for input in inputs() {
        compare_changed(&rt, input, bytes, &mut kept)?;
    }
    Ok(())
}
