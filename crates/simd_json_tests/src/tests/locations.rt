// Places of errors that no row has; worked ones are in tests/vectors/places.txt.
use crate::tests::memory::{MEMORY, ballast};
use linked_list_allocator::LocalHeap;
use simd_json_check::{Error, ErrorType, Location, Reason, locate};
use std::alloc::{AllocError, Allocator};
use std::process::Abort;

// A kind that no input of `locate` has.
fn assert_reason(
    rt: &(impl AllocGlobal + Abort),
    kind: ErrorType,
    byte: usize,
    reason: Reason,
    text: &str,
) {
    let location = Location::new(b"1", Error::generic(kind));
    assert_eq!(rt; location.byte(), byte, "{text:?}");
    assert_eq!(rt; location.reason(), reason, "{text:?}");
    assert_eq!(rt;
        reason.to_string(rt.alloc()).expect(rt, MEMORY).as_str(),
        text
    );
}

#[test]
fn other_kinds_have_reasons(rt: HostRuntime) {
    let text = "more than 4294967295 bytes";
    assert_reason(
        &rt,
        ErrorType::InputTooLarge,
        4_294_967_295,
        Reason::TooLarge,
        text,
    );
    let text = "fewer than 64 bytes after the document";
    assert_reason(
        &rt,
        ErrorType::InsufficientPadding,
        0,
        Reason::TooLittlePadding,
        text,
    );
    let text = "out of memory";
    assert_reason(&rt, ErrorType::OutOfMemory, 0, Reason::OutOfMemory, text);
    let text = "an error of another kind";
    assert_reason(&rt, ErrorType::ExpectedMap, 0, Reason::Other, text);
}

// So many arrays one inside another, with a 1 in the innermost; `closed` of them are closed.
fn nested(rt: &(impl AllocGlobal + Abort), count: usize, closed: usize) -> Vec<u8> {
    let mut text = Vec::new(rt.alloc());
    for _ in 0..count {
        text.push(b'[').expect(rt, MEMORY);
    }
    text.push(b'1').expect(rt, MEMORY);
    for _ in 0..closed {
        text.push(b']').expect(rt, MEMORY);
    }
    text
}

// At which byte an input is rejected, and why.
fn place<A: Allocator + Copy>(
    alloc: A,
    input: &[u8],
    depth: usize,
) -> Result<Option<(usize, Reason)>, AllocError> {
    match locate(alloc, input, depth)? {
        Some(location) => Ok(Some((location.byte(), location.reason()))),
        None => Ok(None),
    }
}

// On either side of the 64 containers for which a parse has a stack without an allocation.
#[test]
fn places_in_deep_inputs(rt: HostRuntime) {
    for count in [1, 63, 64, 65, 128, 129, 1024] {
        let text = nested(&rt, count, count);
        assert_eq!(rt;
            place(rt.alloc(), text.as_slice(), 1024),
            Ok(None),
            "{count:?}"
        );
        let shallow = count - 1;
        let too_deep = Ok(Some((shallow, Reason::TooDeep)));
        assert_eq!(rt;
            place(rt.alloc(), text.as_slice(), shallow),
            too_deep,
            "{count:?}"
        );
        let open = nested(&rt, count, shallow);
        let end = Ok(Some((count + shallow, Reason::EndOfInput)));
        assert_eq!(rt; place(rt.alloc(), open.as_slice(), 1024), end, "{count:?}");
    }
}

// Each heap leaves more memory than the one before it, so that another allocation fails, and then
// none. Where one fails this is the error, and no place is returned; all memory is given back.
// Returns whether one fails: an input that is not UTF-8 takes no memory.
fn may_fail(
    rt: &(impl AllocGlobal + Abort),
    input: &[u8],
    wanted: Option<(usize, Reason)>,
) -> bool {
    let heap = LocalHeap::new(rt.alloc(), 1 << 13).expect(rt, MEMORY);
    let mut failed = 0u32;
    for units in 0..200 {
        let full = ballast(rt, &heap, units * 16);
        let found = place(&heap, input, 8);
        drop(full);
        assert_eq!(rt; heap.used(), 0, "{units:?}");
        if found.is_err() {
            failed = failed.saturating_add(1);
        } else {
            assert_eq!(rt; found, Ok(wanted), "{units:?}");
        }
    }
    assert!(rt; failed < 200, "{input:?}");
    assert_eq!(rt; place(&heap, input, 8), Ok(wanted), "{input:?}");
    failed > 0
}

#[test]
fn each_allocation_fails(rt: HostRuntime) {
    let document = b"[[1,\"\\n\"],{\"\\u0061\":[4]},5,6,7,8,9]";
    assert!(rt; may_fail(&rt, document, None));
    let end = Some((20, Reason::ExpectedElementEnd(b'5')));
    assert!(rt; may_fail(&rt, b"[[1],{\"\\u0061\":[4]} 5,6,7,8,9]", end));
    let deep = Some((8, Reason::TooDeep));
    assert!(rt; may_fail(&rt, b"[[[[[[[[[1,2]]]]]]]]]", deep));
    let byte = Some((5, Reason::NotUtf8(0xff)));
    assert!(rt; !may_fail(&rt, b"[1,2,\xff]", byte));
}
