//! Who holds which inode: one level of leases, of clients and of nodes, and the revokers that clients store.
#![tactic(auto)]

pub mod asking;
pub mod client_table;
pub mod holders;
pub mod lease;
mod lease_map;
pub mod node_table;
pub mod revoker;
pub mod views;
