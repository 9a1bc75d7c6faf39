//! A cluster for one caller who orders its calls: nobody else works on it, so all its nodes make rounds between the tries of a call.
#![tactic(auto)]

pub mod cut_kind;
pub mod files;
pub mod laws;
pub mod redo;
