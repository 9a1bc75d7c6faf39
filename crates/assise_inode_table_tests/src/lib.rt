//! Tests of `assise_inode_table`: effects are made while there is memory.
#![tactic(auto)]

#[cfg(test)]
mod tests;
