//! Tests of `assise_area`: which inodes are hot, step by step.
#![tactic(auto)]

#[cfg(test)]
mod tests;
