//! The console: a script is read, run on a cluster, and its answers are printed.
#![tactic(auto)]

pub mod commands;
pub mod console;
pub mod engine;
pub mod fault;
pub mod laws;
mod numbered;
pub mod options;
pub mod response;
pub mod stock;
mod text;
