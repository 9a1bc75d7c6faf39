//! Tests of `assise_history`: legal histories, and illegal ones.
#![tactic(auto)]

#[cfg(test)]
mod tests;
