//! The readers of one scalar.
//!
//! - [`numberparse`]: reads one number.
//! - [`stringparse`]: reads one string, or one escape.
//! - [`front`]: readers for those who do not know yet which scalar begins there.
#![tactic(auto)]

pub mod front;
pub mod numberparse;
pub mod stringparse;
