//! Scripts of commands: what each line says, or the first fault of the first faulty line.
#![tactic(auto)]

mod calls;
pub mod command;
mod data;
pub mod fault;
mod keywords;
mod line;
mod number;
pub mod parse;
mod recent_paths;
mod words;
