//! Laws of the machine's nodes that fail and return: which full nodes, and which inodes, the manager has for them, and what each
//! step makes of it. Each function does nothing: its contract is the law.
#![tactic(auto)]

pub mod chances;
pub mod failures;
pub mod moves;
pub mod returns;
pub mod staleness;
