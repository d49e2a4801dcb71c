use serde::DeserializeOwned;
use simd_json_serde::{ReadError, from_slice_mut_owned};
use std::alloc::Global;
use std::fs;
use std::process::Abort;
use std::rt::Files;

mod agreement;
mod borrowing;
mod errors;
mod examples;
mod memory;
mod scalars;
mod taggings;
mod types;
mod writing;

const MEMORY: &str = "there is memory";

// Whether long tests take all of their inputs, and not a few: where the tests' folder has a file
// `long`, as before a release (`make test-long`).
fn takes_all(rt: &(impl Files + Abort)) -> bool {
    fs::exists(rt, "long").expect(rt, "the folder can be read")
}

fn bytes_of(rt: &impl Abort, alloc: Global, text: &str) -> Vec<u8> {
    Vec::from_slice(alloc, text.as_bytes()).expect(rt, MEMORY)
}

fn read_owned_from<T: DeserializeOwned>(
    rt: &impl Abort,
    alloc: Global,
    text: &str,
) -> Result<T, ReadError> {
    from_slice_mut_owned(alloc, &mut bytes_of(rt, alloc, text))
}
