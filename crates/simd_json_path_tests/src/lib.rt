//! Tests of `simd_json_path` through public calls alone. Other crates need nothing of it.
#![tactic(auto)]

#[cfg(test)]
mod tests;
