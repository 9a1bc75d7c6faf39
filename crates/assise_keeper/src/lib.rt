//! One state that threads take in turn, and passes that know what each thread has seen of its history.
#![tactic(auto)]

pub mod event_count;
pub mod held;
pub mod keeper;
pub mod pass;
mod steps;
pub mod view;
pub mod worker_pass;
