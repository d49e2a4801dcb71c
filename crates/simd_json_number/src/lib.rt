//! Numbers of JSON texts (RFC 8259, section 6), compared by their values: `1`, `1.0` and `10e-1`
//! are equal. Integers of 128 bits, and literals of any length with any exponent, are compared
//! exactly, without floating point and without allocation.
//!
//! ```
//! use simd_json_number::Number;
//! use std::cmp::Ordering;
//!
//! // 10 ^ 99999999999999999999 is more than the greatest integer of 128 bits.
//! fn is_more() -> bool {
//!     let integer = Number::Integer {
//!         is_negative: false,
//!         magnitude: u128::MAX,
//!     };
//!     Number::Literal("0.1e100000000000000000000").compare(&integer) == Ordering::Greater
//! }
//! ```
#![tactic(auto)]

mod digits;
mod exponent;
mod literal;
mod magnitude;
mod number;

pub use number::Number;
