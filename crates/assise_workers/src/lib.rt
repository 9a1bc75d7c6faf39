//! What goes on at the nodes while clients make calls: each node replicates and digests on threads of its own (Assise, OSDI 2020,
//! section 3; Strata, SOSP 2017, section 3.3), and lists of calls run to their end beside that, or do it themselves.
#![tactic(auto)]

pub mod digesting;
pub mod gate;
pub mod helping;
mod idle;
mod letter;
pub mod nodes;
pub mod replicated;
pub mod replicating;
pub mod running;
pub mod serving;
pub mod worker;
