//! Tests of the libraries of the programs, `jcheck`, `jpick` and `log_report`, through public calls
//! alone. Other crates need nothing of it.
#![tactic(auto)]

#[cfg(test)]
mod tests;
