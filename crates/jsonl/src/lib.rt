//! The values of JSON Lines. [`Records`] parses the texts of lines, one after another, in memory
//! that is reserved once: each is a [`Record`].
#![tactic(auto)]

mod records;

pub use records::{Record, Records};
