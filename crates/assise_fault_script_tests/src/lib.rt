//! Tests of `assise_fault_script`: what scripts say.
#![tactic(auto)]

#[cfg(test)]
mod tests;
