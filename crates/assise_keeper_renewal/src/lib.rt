//! A cluster that threads take in turn is renewed, once they are done with it.
#![tactic(auto)]

pub mod renewal;
