//! Inodes by their numbers, what effects make of them, and which tree they spell.
#![tactic(auto)]

mod blocks;
pub mod changes;
pub mod directory;
pub mod file_bytes;
pub mod inode;
pub mod inodes;
pub mod laws;
pub mod numbers;
mod piece;
mod shared_blocks;
pub mod store;
pub mod table;
pub mod whole;
