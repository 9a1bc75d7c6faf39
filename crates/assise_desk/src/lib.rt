//! A desk: one place in a caller's memory at which requests are served, of which the cluster is one part. What crosses are numbers
//! and bytes.
#![tactic(auto)]

pub mod caller_desk;
pub mod desk_call;
pub mod desk_fault;
pub mod desk_request;
pub mod laws;
mod listings;
mod page;
mod queries;
mod reply_shown;
mod texts;
