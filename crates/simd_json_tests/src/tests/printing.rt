// Printing where an allocation or a writer fails; worked texts are in tests/vectors/printing.txt.
use crate::tests::Tested;
use linked_list_allocator::LocalHeap;
use simd_json::tape::Value;
use simd_json::{Error, ErrorType, to_tape};
use std::io::{self, ErrorKind, Write};
use std::process::Abort;
use std::test::Fail;

const LARGE_COMPACT: &str = "[\"0123456789012345678901234567890123456789\",[[[1,2,3,4,5,6,7,8]]]]";

const LARGE_PRETTY: &str =
    "[\n  \"0123456789012345678901234567890123456789\",\n  [\n    [\n      [\n        1,\n\
    \x20       2,\n        3,\n        4,\n        5,\n        6,\n        7,\n        8\n\
    \x20     ]\n    ]\n  ]\n]";

fn text_of<'h>(
    value: &Value<'_, '_>,
    is_pretty: bool,
    heap: &'h LocalHeap,
) -> simd_json::Result<String<&'h LocalHeap>> {
    if is_pretty {
        value.encode_pp(heap)
    } else {
        value.encode(heap)
    }
}

const HEAP: usize = 8192;

// Whether an allocation of the text fails where others left so many bytes of a heap, or somewhat
// less. Once these gave back what they had, the call succeeds over the same heap.
fn fails_within(
    rt: &(impl AllocGlobal + Abort),
    value: &Value<'_, '_>,
    is_pretty: bool,
    left: usize,
) -> std::result::Result<bool, Fail> {
    let whole = if is_pretty {
        LARGE_PRETTY
    } else {
        LARGE_COMPACT
    };
    let heap = LocalHeap::new(rt.alloc(), HEAP)?;
    let others = Vec::<u8, &LocalHeap>::with_capacity(&heap, HEAP.saturating_sub(left))?;
    let used = heap.used();
    let fails = match text_of(value, is_pretty, &heap) {
        Ok(text) => {
            assert_eq!(rt; text.as_str(), whole, "{left:?}");
            false
        }
        Err(e) => {
            assert_eq!(rt; e, Error::generic(ErrorType::OutOfMemory), "{left:?}");
            true
        }
    };
    assert_eq!(rt; heap.used(), used, "{left:?}");
    drop(others);
    let again = text_of(value, is_pretty, &heap)?;
    assert_eq!(rt; again.as_str(), whole, "{left:?}");
    Ok(fails)
}

// Another allocation fails where more is left, and then none.
#[test]
fn each_allocation_fails(rt: HostRuntime) -> Tested {
    let mut input = *b"[\"0123456789012345678901234567890123456789\",[[[1,2,3,4,5,6,7,8]]]]";
    let tape = to_tape(rt.alloc(), &mut input)?;
    assert!(rt; !tape.is_empty());
    for is_pretty in [false, true] {
        let mut failed = 0u32;
        for units in 0..48 {
            if fails_within(&rt, &tape.as_value(), is_pretty, 32 + units * 16)? {
                failed = failed.saturating_add(1);
            }
        }
        assert!(rt; failed > 0 && failed < 48, "{is_pretty}, {failed}");
    }
    Ok(())
}

// Takes at most three bytes a call and a few in all, and then none or fails.
#[derive(Drop)]
struct Full {
    taken: Vec<u8>,
    capacity: usize,
    fails: bool,
}

impl Write for Full {
    fn write(&mut self, buf: &[u8]) -> io::Result<usize> {
        if self.capacity == 0 && self.fails {
            return Err(io::Error::from(ErrorKind::Interrupted));
        }
        let piece = &buf[..buf.len().min(self.capacity).min(3)];
        self.taken.extend_from_slice(piece)?;
        self.capacity -= piece.len();
        Ok(piece.len())
    }

    fn flush(&mut self) -> io::Result<()> {
        Ok(())
    }
}

// A writer that takes `capacity` bytes in all ends a longer text with an error, and took a prefix.
fn assert_ended(
    rt: &(impl AllocGlobal + Abort),
    value: &Value<'_, '_>,
    is_pretty: bool,
    capacity: usize,
    fails: bool,
) {
    let mut writer = Full {
        taken: Vec::new(rt.alloc()),
        capacity,
        fails,
    };
    let (written, text) = if is_pretty {
        (value.write_pp(&mut writer), PRETTY)
    } else {
        (value.write(&mut writer), COMPACT)
    };
    let wanted = if capacity >= text.len() {
        None
    } else if fails {
        Some(ErrorKind::Interrupted)
    } else {
        Some(ErrorKind::WriteZero)
    };
    assert_eq!(rt; written.err().map(|e| e.kind()), wanted, "{capacity:?}");
    assert_eq!(rt; writer.taken.as_slice(), &text[..capacity.min(text.len())]);
}

const COMPACT: &[u8] = b"{\"a\":[1,\"x\"]}";

const PRETTY: &[u8] = b"{\n  \"a\": [\n    1,\n    \"x\"\n  ]\n}";

#[test]
fn failing_writers_end_a_text(rt: HostRuntime) -> Tested {
    let mut input = *b"{\"a\":[1,\"x\"]}";
    let tape = to_tape(rt.alloc(), &mut input)?;
    for is_pretty in [false, true] {
        for capacity in 0..40 {
            assert_ended(&rt, &tape.as_value(), is_pretty, capacity, false);
            assert_ended(&rt, &tape.as_value(), is_pretty, capacity, true);
        }
    }
    Ok(())
}
