//! Tests of `assise_lease_tree`: leases are acquired and listed while there is memory.
#![tactic(auto)]

#[cfg(test)]
mod logs;
#[cfg(test)]
mod refused;
#[cfg(test)]
mod tests;
