// The test of a whole input, beside a parse.
use super::MEMORY;
use super::tape::SCALARS;
use linked_list_allocator::LocalHeap;
use simd_json::{Buffers, to_tape_with_buffers};
use simd_json_ondemand::{Checker, Document, Error, ErrorType, Index, Result};
use std::process::Abort;

pub(super) const DOCUMENTS: &[&[u8]] = &[
    b"[1,\"a\\n\",{\"\\u0061\":[true,{}],\"b\":-2.5e3}]",
    b" { \"a\" : null , \"a\" : [ [ ] , \"\\ud83d\\ude00\" ] } ",
    b"\"caf\xc3\xa9 \\\"\\\\\"",
    b"-12.5e3",
];

// The error of a parse, if it has one.
fn parsed(rt: &(impl AllocGlobal + Abort), input: &[u8], max_depth: usize) -> Option<Error> {
    let mut copy = Vec::from_slice(rt.alloc(), input).expect(rt, MEMORY);
    let mut buffers = Buffers::with_max_depth(rt.alloc(), 0, max_depth).expect(rt, MEMORY);
    to_tape_with_buffers(&mut copy, &mut buffers).err()
}

// The error of a check is that of a parse, and the input stays as it is. Returns the error.
pub(super) fn checked(
    rt: &(impl AllocGlobal + Abort),
    checker: &mut Checker,
    input: &[u8],
    max_depth: usize,
) -> Option<Error> {
    let before = Vec::from_slice(rt.alloc(), input).expect(rt, MEMORY);
    let error = checker.check(input, max_depth).err();
    assert_eq!(rt; input, before.as_slice());
    assert_eq!(rt; &error, &parsed(rt, input, max_depth), "{input:?}");
    error
}

#[test]
fn documents_are_accepted(rt: HostRuntime) {
    let mut checker = Checker::empty(rt.alloc());
    let mut other = Index::new(rt.alloc(), 0).expect(&rt, MEMORY);
    for documents in [SCALARS, DOCUMENTS] {
        for input in documents {
            assert_eq!(rt; checked(&rt, &mut checker, input, 1024), None, "{input:?}");
            let document = Document::check(&mut checker, input, 1024).expect(
                &rt,
                "it is a document",
            );
            let wanted = Document::scan(&mut other, input).expect(&rt, "it is scanned");
            let (value, wanted) = (document.as_value(), wanted.as_value());
            assert_eq!(rt; value.value_type(), wanted.value_type(), "{input:?}");
            assert_eq!(rt; value.raw(), wanted.raw(), "{input:?}");
        }
    }
}

#[test]
fn errors_of_the_whole_input_are_those_of_a_parse(rt: HostRuntime) {
    let mut checker = Checker::empty(rt.alloc());
    for (input, kind) in [
        (b"".as_slice(), ErrorType::Eof),
        (b" \t\r\n", ErrorType::Eof),
        (b"[\"a", ErrorType::Syntax),
        (b"[\"\x1f\"]", ErrorType::Syntax),
        (b"[\"\xff\"]", ErrorType::InvalidUtf8),
        (b"[\xed\xa0\x80]", ErrorType::InvalidUtf8),
    ] {
        let error = checked(&rt, &mut checker, input, 1024).expect(&rt, "it is rejected");
        assert_eq!(rt; error.error(), &kind, "{input:?}");
    }
}

#[test]
fn errors_of_structure_are_those_of_a_parse(rt: HostRuntime) {
    let mut checker = Checker::empty(rt.alloc());
    for (input, kind) in [
        (b"[1,2".as_slice(), ErrorType::Syntax),
        (b"{\"a\":", ErrorType::Syntax),
        (b"]", ErrorType::InternalError),
        (b"[1,]", ErrorType::InternalError),
        (b"[1 2]", ErrorType::ExpectedArrayContent),
        (b"[[],{}}", ErrorType::ExpectedArrayContent),
        (b"{1:2}", ErrorType::ExpectedObjectContent),
        (b"{\"a\":1]", ErrorType::ExpectedObjectContent),
        (b"{\"a\":1,}", ErrorType::ExpectedObjectKey),
        (b"{\"a\":1,2:3}", ErrorType::ExpectedObjectKey),
        (b"{\"a\" 1}", ErrorType::ExpectedObjectColon),
        (b"{\"a\",1}", ErrorType::ExpectedObjectColon),
        (b"1 2", ErrorType::TrailingData),
        (b"\"\\n\" \"\"", ErrorType::TrailingData),
    ] {
        let error = checked(&rt, &mut checker, input, 1024).expect(&rt, "it is rejected");
        assert_eq!(rt; error.error(), &kind, "{input:?}");
    }
}

#[test]
fn errors_of_scalars_are_those_of_a_parse(rt: HostRuntime) {
    let mut checker = Checker::empty(rt.alloc());
    for (input, kind) in [
        (b"[tru]".as_slice(), ErrorType::ExpectedTrue),
        (b"truex", ErrorType::ExpectedTrue),
        (b"[fals]", ErrorType::ExpectedFalse),
        (b"falsey", ErrorType::ExpectedFalse),
        (b"[nul]", ErrorType::ExpectedNull),
        (b"nullx", ErrorType::ExpectedNull),
        (b"[01]", ErrorType::InvalidNumber),
        (b"[1.]", ErrorType::InvalidNumber),
        (
            b"[340282366920938463463374607431768211456]",
            ErrorType::InvalidNumber,
        ),
        (b"[\"\\q\"]", ErrorType::InvalidEscape),
        (b"{\"a\\n\\x\":1}", ErrorType::InvalidEscape),
        (b"[\"\\u12\"]", ErrorType::InvalidUnicodeCodepoint),
        (b"[\"\\ud83d\"]", ErrorType::InvalidUnicodeCodepoint),
    ] {
        let error = checked(&rt, &mut checker, input, 1024).expect(&rt, "it is rejected");
        assert_eq!(rt; error.error(), &kind, "{input:?}");
    }
}

// An escape after so many plain bytes, in the first block of 64 bytes or across its end.
#[test]
fn escapes_are_checked_in_each_block(rt: HostRuntime) {
    let mut checker = Checker::empty(rt.alloc());
    for (escape, wanted) in [
        (r"\n\/", None),
        (r"\u00e9\ud83d\ude00\\", None),
        (r"\q", Some(ErrorType::InvalidEscape)),
        (r"\n\x", Some(ErrorType::InvalidEscape)),
        (r"\u12g4", Some(ErrorType::InvalidUnicodeCodepoint)),
        (r"\ud83d\n", Some(ErrorType::InvalidUnicodeCodepoint)),
        (r"\\\ude00", Some(ErrorType::InvalidUnicodeCodepoint)),
    ] {
        for plain in 0..130 {
            let mut input = Vec::from_slice(rt.alloc(), b"[\"").expect(&rt, MEMORY);
            input.resize(plain + 2, b'a').expect(&rt, MEMORY);
            input
                .extend_from_slice(escape.as_bytes())
                .expect(&rt, MEMORY);
            input.extend_from_slice(b"\"]").expect(&rt, MEMORY);
            let error = checked(&rt, &mut checker, &input, 1024);
            assert_eq!(rt;
                error.as_ref().map(|e| e.error()),
                wanted.as_ref(),
                "{escape:?}, {plain:?}"
            );
        }
    }
}

// Each beginning of a document, and each of its bytes replaced by each of several.
#[test]
fn changed_documents_are_checked_as_they_are_parsed(rt: HostRuntime) {
    let mut checker = Checker::empty(rt.alloc());
    let mut rejected = 0_usize;
    for document in DOCUMENTS {
        let mut changed = Vec::from_slice(rt.alloc(), document).expect(&rt, MEMORY);
        for i in 0..document.len() {
            for byte in *b"\"\\[]{}:, 1-.etfnu\x01\xff" {
                changed[i] = byte;
                if checked(&rt, &mut checker, &changed, 4).is_some() {
                    rejected = rejected.saturating_add(1);
                }
            }
            changed[i] = document[i];
            checked(&rt, &mut checker, &document[..i], 4);
        }
    }
    assert!(rt; rejected > 1000);
}

// Arrays in one another, with fewer and with more levels than have a stack that is not allocated.
#[test]
fn depth_is_limited(rt: HostRuntime) {
    let mut checker = Checker::empty(rt.alloc());
    for depth in [0, 1, 2, 63, 64, 65, 66, 200] {
        let mut input = Vec::new(rt.alloc());
        input.resize(depth, b'[').expect(&rt, MEMORY);
        input.push(b'1').expect(&rt, MEMORY);
        input
            .resize(depth.saturating_mul(2).saturating_add(1), b']')
            .expect(&rt, MEMORY);
        for limit in [0, 1, 2, 63, 64, 65, 66, 1024, usize::MAX] {
            let error = checked(&rt, &mut checker, &input, limit);
            let deep = Error::new(limit, Some('['), ErrorType::DepthLimitExceeded);
            let wanted = if depth > limit { Some(deep) } else { None };
            assert_eq!(rt; error, wanted, "{depth:?} within {limit:?}");
        }
    }
}

// What a check of so many nested arrays returns where the heap has so many bytes left.
fn checked_with(rt: &(impl AllocGlobal + Abort), depth: usize, left: usize) -> Result<()> {
    let mut input = Vec::new(rt.alloc());
    input.resize(depth, b'[').expect(rt, MEMORY);
    input
        .resize(depth.saturating_mul(2), b']')
        .expect(rt, MEMORY);
    let heap = LocalHeap::new(rt.alloc(), 1 << 16).expect(rt, MEMORY);
    let mut checker = Checker::empty(&heap);
    checker.index.reserve(input.len()).expect(rt, MEMORY);
    let full = super::memory::ballast(rt, &heap, left);
    let answer = checker.check(&input, 1024);
    if answer.is_ok() {
        checks_again(rt, &mut checker, &input, &heap);
    }
    drop(full);
    assert_eq!(rt; checker.check(&input, 1024).is_ok(), true);
    checks_again(rt, &mut checker, &input, &heap);
    answer
}

// What a check has taken is kept: the same input is checked once more without an allocation.
fn checks_again<'h>(
    rt: &(impl AllocGlobal + Abort),
    checker: &mut Checker<&'h LocalHeap>,
    input: &[u8],
    heap: &LocalHeap,
) {
    let used = heap.used();
    assert_eq!(rt; checker.check(input, 1024).is_ok(), true);
    assert_eq!(rt; heap.used(), used);
}

// With 70 nested arrays the copy takes 140 bytes, and the stack 24 for each of 140 structural
// indexes. With 64 there is neither.
#[test]
fn memory_is_taken_for_a_copy_and_a_stack(rt: HostRuntime) {
    for left in [0, 100, 200, 1000, 3000] {
        let wanted = Err(Error::generic(ErrorType::OutOfMemory));
        assert_eq!(rt; checked_with(&rt, 70, left), wanted, "{left:?}");
    }
    assert_eq!(rt; checked_with(&rt, 70, 4000), Ok(()));
    assert_eq!(rt; checked_with(&rt, 64, 0), Ok(()));
}
