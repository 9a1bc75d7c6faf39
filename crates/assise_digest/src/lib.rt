//! A node's region: its inodes, and the logs that it received, which are digested into them.
#![tactic(auto)]

pub mod laws;
mod numbers;
pub mod overlay;
mod pending;
mod received;
pub mod region;
mod spelled;
