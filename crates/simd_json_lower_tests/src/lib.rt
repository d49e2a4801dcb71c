//! Tests of the crates below `simd_json`, through public calls alone. They are apart from these,
//! which would else be proved a second time with them. Other crates need nothing of it.
#![tactic(auto)]

#[cfg(test)]
mod tests;
