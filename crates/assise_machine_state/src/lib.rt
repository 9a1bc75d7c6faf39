//! The machine's state: what nodes have, what is known of clients, who holds which inode, which nodes are full, and what
//! happened. Each level is a value of its own.
#![tactic(auto)]

pub mod client;
pub mod client_view;
pub mod clients;
pub mod dropping;
pub mod nodes;
pub mod noting;
pub mod seen_clients;
pub mod seen_failures;
pub mod seen_nodes;
pub mod sound;
pub mod state;
pub mod touching;
