//! What a checker lists after one input and the next, and the examples of `simd_json_check`.
use linked_list_allocator::LocalHeap;
use simd_json_check::{
    Checker, DEFAULT_MAX_DEPTH, Error, ErrorType, Location, Reason, Result, locate,
};
use std::alloc::AllocError;

const MEMORY: &str = "the test has memory";

fn count(rt: &impl AllocGlobal, lines: &[&[u8]]) -> Result<usize> {
    let mut checker = Checker::empty(rt.alloc());
    let mut texts = 0usize;
    for line in lines {
        match checker.check(line, DEFAULT_MAX_DEPTH) {
            Ok(()) => texts = texts.saturating_add(1),
            Err(e) if *e.error() == ErrorType::OutOfMemory => return Err(e),
            Err(_) => {}
        }
    }
    Ok(texts)
}

fn line_of_error(rt: &impl AllocGlobal) -> Option<usize> {
    let input = b"[1,\n2,]";
    let mut checker = Checker::empty(rt.alloc());
    let error = checker.check(input, DEFAULT_MAX_DEPTH).err()?;
    Some(Location::new(input, error).line())
}

fn line_that_is_located(rt: &impl AllocGlobal) -> std::result::Result<Option<usize>, AllocError> {
    let location = locate(rt.alloc(), b"[1,\n2,]", 1024)?;
    Ok(location.map(|location| location.line()))
}

#[test]
fn examples_run(rt: HostRuntime) {
    let texts = count(&rt, &[b"1", b"[", b"\"a\"", b"1 2", b" {} "]).expect(&rt, MEMORY);
    assert_eq!(rt; texts, 3);
    assert_eq!(rt; line_of_error(&rt), Some(2));
    assert_eq!(rt; line_that_is_located(&rt).expect(&rt, MEMORY), Some(2));
}

#[test]
fn a_checker_lists_the_last_input(rt: HostRuntime) {
    let mut checker = Checker::empty(rt.alloc());
    assert_eq!(rt; checker.index.structural_indexes(), [0u32; 0].as_slice());
    assert_eq!(rt; checker.check(b"[1, \"]\"]", 1), Ok(()));
    assert_eq!(rt;
        checker.index.structural_indexes(),
        [0u32, 1, 2, 4, 7].as_slice()
    );
    // An error of a token comes after they are found, one of the whole input before.
    let deep = Error::new(1, Some('['), ErrorType::DepthLimitExceeded);
    assert_eq!(rt; checker.check(b"[[]]", 1), Err(deep));
    assert_eq!(rt;
        checker.index.structural_indexes(),
        [0u32, 1, 2, 3].as_slice()
    );
    assert_eq!(rt;
        checker.index.scan(b"\""),
        Err(Error::generic(ErrorType::Syntax))
    );
    assert_eq!(rt; checker.index.structural_indexes(), [0u32; 0].as_slice());
    assert_eq!(rt; checker.index.scan(b" ]"), Ok(()));
    assert_eq!(rt; checker.index.structural_indexes(), [1u32].as_slice());
}

// The copy of a rejected input finds no memory: nothing is listed, as after an error of the whole.
#[test]
fn nothing_is_listed_without_memory(rt: HostRuntime) {
    let heap = LocalHeap::new(rt.alloc(), 1 << 12).expect(&rt, MEMORY);
    let mut checker = Checker::empty(&heap);
    checker.index.reserve(1000).expect(&rt, MEMORY);
    let mut input = [b' '; 1000];
    input[999] = b']';
    let lacking = Error::generic(ErrorType::OutOfMemory);
    assert_eq!(rt; checker.check(&input, 1), Err(lacking));
    assert_eq!(rt; checker.index.structural_indexes(), [0u32; 0].as_slice());
    assert_eq!(rt; checker.index.scan(&input), Ok(()));
    assert_eq!(rt; checker.index.structural_indexes(), [999u32].as_slice());
}

#[test]
fn a_location_has_place_and_reason(rt: HostRuntime) {
    let found = locate(rt.alloc(), b"{\n \"\xc3\xa9\" 1}", 1024).expect(&rt, MEMORY);
    let place = found.map(|location| (location.byte(), location.line(), location.column()));
    assert_eq!(rt; place, Some((8, 2, 6)));
    let found = locate(rt.alloc(), b"{\"a\" 1}", 1024).expect(&rt, MEMORY);
    let reason = found.map(|location| location.reason());
    assert_eq!(rt; reason, Some(Reason::ExpectedColon(b'1')));
    assert_eq!(rt;
        locate(rt.alloc(), b"[]", 0).is_ok_and(|found| found.is_some()),
        true
    );
    assert_eq!(rt;
        locate(rt.alloc(), b"0", 0).is_ok_and(|found| found.is_none()),
        true
    );
}
