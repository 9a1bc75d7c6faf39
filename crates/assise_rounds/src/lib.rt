//! What a cluster that nobody else works on does between the tries of a call: rounds of all its nodes, calls that are tried until they
//! are answered, and nodes that come back (Assise, OSDI 2020, section 3). And the tree that a node gives alone.
#![tactic(auto)]

pub mod attempts;
pub mod laws;
pub mod returning;
pub mod rounds;
pub mod trees;
pub mod trying;
