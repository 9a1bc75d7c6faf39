//! Tests of `assise_digest`.
#![tactic(auto)]

#[cfg(test)]
mod refused;
#[cfg(test)]
mod regions;
#[cfg(test)]
mod tests;
