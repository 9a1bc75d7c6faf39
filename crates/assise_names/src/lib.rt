//! Paths, calls, replies and refusals: the words that every other crate speaks in.
#![tactic(auto)]

pub mod byte_string;
pub mod call;
pub mod durability;
pub mod limits;
pub mod mode;
pub mod name;
pub mod name_list;
pub mod path;
pub mod refusal;
pub mod reply;
mod text;
