//! By what they test.
use std::fs;
use std::process::Abort;
use std::rt::Files;

mod arrays;
mod check;
mod examples;
mod floats;
mod keys;
mod memory;
mod mutants;
mod objects;
mod other;
mod pass;
mod pointer;
mod pointers;
mod stream;
mod tape;
mod walks;

// Why a test goes on: the allocations that are not to fail.
const MEMORY: &str = "there is memory";

// Whether long tests take all of their inputs, and not a few: where the tests' folder has a file
// `long`, as before a release (`make test-long`).
fn takes_all(rt: &(impl Files + Abort)) -> bool {
    fs::exists(rt, "long").expect(rt, "the folder can be read")
}
