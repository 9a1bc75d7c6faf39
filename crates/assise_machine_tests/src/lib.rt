//! Tests of `assise_machine`.
#![tactic(auto)]

#[cfg(test)]
mod tests;
