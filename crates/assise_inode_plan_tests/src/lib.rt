//! Tests of `assise_inode_plan`: a call of each kind is planned while there is memory.
#![tactic(auto)]

#[cfg(test)]
mod tests;
