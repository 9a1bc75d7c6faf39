//! Records of what calls do to inodes, and frames of records as bytes.
#![tactic(auto)]

pub mod decode;
pub mod effect;
mod effects;
pub mod encode;
pub mod fault;
mod fields;
pub mod frame;
pub mod laws;
pub mod record;
mod sizes;
