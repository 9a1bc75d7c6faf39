//! Tests of `assise_chain`: what a node sends is taken in while there is memory.
#![tactic(auto)]

#[cfg(test)]
mod tests;
