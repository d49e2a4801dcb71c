//! The parser beside a slow reference, which is written apart from it: prefixes, changed bytes, all
//! short lists of tokens, and mutations. Other crates need nothing of it.
#![tactic(auto)]

#[cfg(test)]
mod reference;
#[cfg(test)]
mod tests;
