//! A cluster that has lived long is replaced by a new one with the same tree: its history, which is kept in memory, goes with it, and
//! clients are numbered anew.
#![tactic(auto)]

mod calls;
mod filling;
pub mod renewal;
pub mod renewal_fault;
mod replicated;
mod settling;
mod trees;
