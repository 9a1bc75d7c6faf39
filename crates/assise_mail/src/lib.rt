//! A mail store over LibFS: messages that are there whole or not at all, and stay.
#![tactic(auto)]

pub mod due_call;
pub mod fault;
pub mod laws;
pub mod store;
