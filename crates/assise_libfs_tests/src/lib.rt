//! Tests of `assise_libfs`, over a small state and over a cluster.
#![tactic(auto)]

#[cfg(test)]
mod calls;
#[cfg(test)]
mod ledger;
#[cfg(test)]
mod ledgers;
#[cfg(test)]
mod refused;
#[cfg(test)]
mod tests;
