//! Tests of `simd_json_serde` through public calls alone: the same types are read and written by it
//! and by `serde_json`. Other crates need nothing of it.
#![tactic(auto)]

#[cfg(test)]
mod tests;
