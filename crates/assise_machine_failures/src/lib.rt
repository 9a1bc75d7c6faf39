//! Failures of nodes, and nodes that come back: each leads from one state in which all holds to the next.
#![tactic(auto)]

pub mod back;
mod copies;
mod cutting;
pub mod fail;
mod failure;
pub mod join;
mod listing;
pub mod refill;
