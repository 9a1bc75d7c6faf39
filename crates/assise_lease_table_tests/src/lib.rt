//! Tests of `assise_lease_table` and of a stored revoker: leases are held and asked for while there is memory.
#![tactic(auto)]

#[cfg(test)]
mod asked;
#[cfg(test)]
mod kinds;
#[cfg(test)]
mod logs;
#[cfg(test)]
mod refused;
pub mod stored;
#[cfg(test)]
mod tests;
