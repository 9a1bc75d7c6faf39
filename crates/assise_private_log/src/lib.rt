//! A client's private log: a ring of records, numbered without a gap.
#![tactic(auto)]

mod group;
pub mod laws;
pub mod log;
pub mod log_view;
pub mod records;
