// Each read returns its value or an error of memory, also where an allocation fails: by hand,
// `rt try --test --fail-alloc N` for each N, where the other tests may fail, and these at `SETUP`.
use crate::tests::types::{Folder, Line, Tweet};
use simd_json::{Buffers, ErrorType};
use simd_json_serde::{
    MismatchKind, ReadError, Scratch, from_slice_mut, from_slice_mut_owned, from_slice_mut_with,
};
use std::process::Abort;

const SETUP: &str = "what is kept was made";

fn assert_read_or_of_memory<T>(rt: &impl Abort, what: &str, read: &Result<T, ReadError>) {
    let is_read = match read {
        Ok(_) => true,
        Err(ReadError::Parse(e)) => *e.error() == ErrorType::OutOfMemory,
        Err(ReadError::Mismatch(e)) => e.kind() == MismatchKind::OutOfMemory,
    };
    assert!(rt; is_read, "{what}");
}

#[test]
fn failed_allocations_are_errors(rt: HostRuntime) {
    let alloc = rt.alloc();
    let mut input = *br#"[{"id":1,"text":"a","handle":"b","place":{"x":0,"y":1}}]"#;
    let owned: Result<Vec<Tweet>, ReadError> = from_slice_mut_owned(alloc, &mut input);
    assert_read_or_of_memory(&rt, "owned", &owned);
    let mut input = *br#"[["a",1.5],["\n",2],["",3]]"#;
    let borrowed: Result<Vec<(&str, f64)>, ReadError> = from_slice_mut(alloc, &mut input);
    assert_read_or_of_memory(&rt, "borrowed", &borrowed);
    let mut input = *br#"{"b":{},"a":"x"}"#;
    let misfit: Result<Folder, ReadError> = from_slice_mut_owned(alloc, &mut input);
    assert!(rt; misfit.is_err(), "a misfit");
    let mut scratch = Scratch::new(alloc);
    let mut buffers = Buffers::new(alloc, 0).expect(&rt, SETUP);
    for _ in 0..2 {
        let mut input = *br#"{"level":"\u0041","status":200,"path":"\/a","z":[{}]}"#;
        let line: Result<Line<'_>, ReadError> = from_slice_mut_with(
            &mut input,
            &mut buffers,
            &mut scratch,
        );
        assert_read_or_of_memory(&rt, "kept", &line);
    }
}

// A line owns nothing, so after the reservation nothing is allocated.
#[test]
fn reserved_reads_need_no_memory(rt: HostRuntime) {
    let alloc = rt.alloc();
    let text = br#"{"level":"\u0041","status":200,"path":"\/a","z":[[[[[]]]]]}"#;
    let mut scratch = Scratch::new(alloc);
    let mut buffers = Buffers::new(alloc, 0).expect(&rt, SETUP);
    buffers.reserve(text.len()).expect(&rt, SETUP);
    scratch.reserve(text.len()).expect(&rt, SETUP);
    for _ in 0..2 {
        let mut input = *text;
        let line: Result<Line<'_>, ReadError> = from_slice_mut_with(
            &mut input,
            &mut buffers,
            &mut scratch,
        );
        assert!(rt; line.is_ok(), "there is memory");
    }
}
