//! Laws of the machine: what holds of its nodes with their areas and logs, of its clients and of the calls that are kept,
//! and what each step of it keeps. Each function does nothing: its contract is the law.
#![tactic(auto)]

pub mod chances;
pub mod reading;
pub mod replication;
pub mod runs;
pub mod steps;
