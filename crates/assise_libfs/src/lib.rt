//! LibFS: what a program calls. A client makes calls on a state that threads take in turn, and each call waits for its leases, and an
//! sync for its replication, while other threads go on (Assise, OSDI 2020, section 3).
#![tactic(auto)]

pub mod cluster;
pub mod libfs;
pub mod served;
mod turns;
pub mod waited;
