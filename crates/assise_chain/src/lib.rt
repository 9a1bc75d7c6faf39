//! A chain of nodes along which the records of a head's log go: who passes them to whom, what is sent, what is taken in,
//! and how far all have come. Nothing here is sent.
#![tactic(auto)]

pub mod acceptance;
pub mod laws;
pub mod messages;
pub mod order;
pub mod replicated;
