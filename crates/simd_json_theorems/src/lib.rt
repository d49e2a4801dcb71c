//! Theorems about the definitions of `simd_json_parts`: [`laws`], each the contract of a function
//! with an empty body. No code needs them; what a parse promises is proved from them.
#![tactic(auto)]

pub mod laws;
