//! Tests of `assise_seq_tree`: worked examples of the calls.
#![tactic(auto)]

#[cfg(test)]
mod tests;
