// Reservations, and allocations that fail.
use super::MEMORY;
use linked_list_allocator::LocalHeap;
use simd_json_ondemand::{Document, Error, ErrorType, Index};
use std::process::Abort;

// Takes all free memory of the heap but this many bytes in one block.
pub(super) fn ballast<'h>(
    rt: &(impl AllocGlobal + Abort),
    heap: &'h LocalHeap,
    left: usize,
) -> Vec<Vec<u8, &'h LocalHeap>> {
    let spare = Vec::<u8, &LocalHeap>::with_capacity(heap, left).expect(rt, MEMORY);
    let mut pieces = Vec::new(rt.alloc());
    let mut size = 32_768;
    for _ in 0..16 {
        for _ in 0..4 {
            if let Ok(piece) = Vec::with_capacity(heap, size) {
                pieces.push(piece).expect(rt, MEMORY);
            }
        }
        size /= 2;
    }
    drop(spare);
    pieces
}

const LINES: [&[u8]; 3] = [b"[1,\"a\\n\",{}]", b"12", b"\"\\\\\\\\\\\\\\\\\""];

// With capacity for their bytes, inputs follow one another while every allocation fails.
#[test]
fn reserved_indexes_take_no_memory(rt: HostRuntime) {
    let heap = LocalHeap::new(rt.alloc(), 1 << 16).expect(&rt, MEMORY);
    let mut index = Index::new(&heap, 0).expect(&rt, MEMORY);
    index.reserve(16).expect(&rt, MEMORY);
    let _ballast = ballast(&rt, &heap, 0);
    let used = heap.used();
    for _ in 0..100 {
        for line in LINES {
            let found = Document::scan(&mut index, line).is_ok();
            assert!(rt; found);
            assert_eq!(rt; index.scan(line), Ok(()));
        }
    }
    assert_eq!(rt; heap.used(), used);
}

#[test]
fn allocations_fail(rt: HostRuntime) {
    let heap = LocalHeap::new(rt.alloc(), 1 << 16).expect(&rt, MEMORY);
    let mut index = Index::new(&heap, 0).expect(&rt, MEMORY);
    let mut buffer: Vec<u8, &LocalHeap> = Vec::new(&heap);
    let mut global = Index::new(rt.alloc(), 16).expect(&rt, MEMORY);
    let _ballast = ballast(&rt, &heap, 0);
    let wanted = Error::generic(ErrorType::OutOfMemory);
    match Document::scan(&mut index, b"[1]") {
        Ok(_) => assert!(rt; false),
        Err(e) => assert_eq!(rt; e, wanted),
    }
    let wanted = Err(Error::generic(ErrorType::OutOfMemory));
    assert_eq!(rt; index.reserve(1 << 20), wanted);
    let value = Document::scan(&mut global, b"\"\\n\"")
        .expect(&rt, "it is a document")
        .as_value();
    match value.decode(&mut buffer) {
        Ok(_) => assert!(rt; false),
        Err(e) => assert_eq!(rt; e, Error::generic(ErrorType::OutOfMemory)),
    }
    match Index::new(&heap, 64) {
        Ok(_) => assert!(rt; false),
        Err(e) => assert_eq!(rt; e, Error::generic(ErrorType::OutOfMemory)),
    }
}
