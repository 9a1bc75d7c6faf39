//! The inodes of a node, some of them hot and the others cold.
#![tactic(auto)]

pub mod area;
mod cooling;
mod moves;
mod parts;
mod settled;
