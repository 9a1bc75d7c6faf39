//! Calls of clients on the machine's state: each is shown to be the event that the laws mean, and so keeps the invariant between
//! events.
#![tactic(auto)]

mod asking;
pub mod calling;
mod commit;
pub mod crash;
pub mod faults;
pub mod opening;
mod own_logs;
pub mod release;
pub mod sync;
pub mod turn;
