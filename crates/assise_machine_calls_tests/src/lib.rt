//! Tests of `assise_machine_calls`.
#![tactic(auto)]

#[cfg(test)]
mod refused_calls;
#[cfg(test)]
mod seen;
#[cfg(test)]
mod steps;
#[cfg(test)]
mod told;
