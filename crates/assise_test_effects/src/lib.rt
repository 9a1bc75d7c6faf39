//! Effects and inodes as the tests write them: made from text, and printed as text.
#![tactic(auto)]

pub mod effects;
pub mod inodes;
