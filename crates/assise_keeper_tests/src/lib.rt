//! Tests of `assise_keeper`, over a book of calls.
#![tactic(auto)]

pub mod book;
pub mod client;
#[cfg(test)]
mod tests;
pub mod threads;
