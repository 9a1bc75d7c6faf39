//! Leases on two levels: a client asks its node, and a node the cluster manager.
#![tactic(auto)]

pub mod acquired;
mod both_levels;
pub mod laws;
mod lease_levels;
pub mod lease_tree;
mod levels;
pub mod request;
