//! Histories: what happened, which calls of it are kept, and whether it is legal.
#![tactic(auto)]

pub mod call;
pub mod check;
pub mod entry;
pub mod growing;
pub mod history;
pub mod kept;
pub mod laws;
mod payload;
mod played;
mod prefix;
pub mod replay;
