//! The members of a cluster: which nodes are full, which are down or come back, in which epoch, and which inodes a node that
//! comes back may lack.
#![tactic(auto)]

pub mod laws;
pub mod level;
pub mod members;
pub(crate) mod node;
pub mod phase;
pub(crate) mod stale_set;
pub(crate) mod written_list;
