//! The machine's history and its state. Whatever happens, the history is legal, the calls of the machine's state are
//! those of the history that are kept, what was synced stays, and a failure lists the first lost call of each client
//! that loses any. Each function does nothing: its contract is the law.
#![tactic(auto)]

pub mod coming;
pub mod entries;
pub mod losses;
pub mod numbers;
pub mod traces;
