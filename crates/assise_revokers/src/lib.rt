//! The kinds of revokers that a script names: what each answers when a lease is asked for. No revoker is made here.
#![tactic(auto)]

pub mod kinds;
