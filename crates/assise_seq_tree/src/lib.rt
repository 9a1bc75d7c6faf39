//! The plain sequential tree of files and directories, and what each call answers.
#![tactic(auto)]

pub mod answer;
pub mod contents;
pub mod laws;
mod lines;
mod renaming;
pub mod sameness;
pub mod traversal;
pub mod tree;
