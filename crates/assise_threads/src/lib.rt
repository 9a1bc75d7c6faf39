//! Runs a script with a thread for each client (Assise, OSDI 2020, section 3).
#![tactic(auto)]

mod crew;
pub mod engine;
mod lists;
mod main_thread;
mod meeting;
mod outcomes;
mod stretch;
mod takes;
