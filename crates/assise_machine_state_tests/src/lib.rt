//! Tests of `assise_machine_state`: what is refused as out of memory.
#![tactic(auto)]

#[cfg(test)]
mod logs;
#[cfg(test)]
mod refused;
#[cfg(test)]
mod refused_logs;
#[cfg(test)]
mod seen;
