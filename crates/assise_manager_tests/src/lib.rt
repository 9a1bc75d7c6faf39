//! Tests of `assise_manager`.
#![tactic(auto)]

#[cfg(test)]
mod refused;
#[cfg(test)]
mod tests;
