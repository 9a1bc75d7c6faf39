//! Laws of the machine as one: one state, and one relation of its events with their answers, by which the history is legal,
//! failures take only what wasn't synced, and each full node alone has the tree of what is replicated. Each function does
//! nothing: its contract is the law.
#![tactic(auto)]

pub mod answers;
pub mod chances;
pub mod clients;
pub mod dsyncs;
pub mod failures;
pub mod headline;
pub mod nodes;
pub mod reachable;
