//! Tests of `simd_json_ondemand` through public calls alone, beside the tape of `simd_json`. Other
//! crates need nothing of it.
#![tactic(auto)]

#[cfg(test)]
mod tests;
