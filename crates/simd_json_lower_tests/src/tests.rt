//! By what they test.
use std::fs;
use std::process::Abort;
use std::rt::Files;

mod characters;
mod checks;
mod errors;
mod nodes;
mod numbers;
mod printing;
mod stage1;
mod stage2;
mod strings;
mod text;

// Whether long tests take all of their inputs, and not a few: where the tests' folder has a file
// `long`, as before a release (`make test-long`).
fn takes_all(rt: &(impl Files + Abort)) -> bool {
    fs::exists(rt, "long").expect(rt, "the folder can be read")
}
