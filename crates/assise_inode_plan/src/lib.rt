//! What a call over leased inodes answers and changes, before anything is changed.
#![tactic(auto)]

mod creation;
mod ending;
mod file_changes;
pub mod laws;
pub mod plan;
mod queries;
mod removal;
mod renaming;
pub mod view;
mod walk;
