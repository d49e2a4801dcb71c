//! Tests of the library `jtape`, through public calls alone. Other crates need nothing of it.
#![tactic(auto)]

#[cfg(test)]
mod tests;
