//! Tests of `simd_json` through public calls alone. Worked inputs are rows in `tests/vectors`.
//! Other crates need nothing of it.
#![tactic(auto)]

#[cfg(test)]
mod tests;
