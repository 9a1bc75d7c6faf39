//! A cluster of full, failed and returning nodes: each of its calls is one event, and a run takes any list of events.
#![tactic(auto)]

pub mod answer;
pub mod cluster;
mod delivery;
mod digesting;
pub mod event;
mod faults;
pub mod headline;
pub mod hot;
pub mod laws;
mod progress;
mod raising;
pub mod run;
mod sending;

pub use assise_machine_calls::turn;
