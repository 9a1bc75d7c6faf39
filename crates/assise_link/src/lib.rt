//! What carries frames from node to node: links, and the way of a frame over one (van Renesse and Schneider, chain replication,
//! OSDI 2004, section 2).
#![tactic(auto)]

pub mod carrying;
mod faults;
pub mod hostile;
pub mod link;
pub mod test_link;
