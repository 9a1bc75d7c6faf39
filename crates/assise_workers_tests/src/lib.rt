//! Tests of `assise_workers`, over clusters: that workers and clients get on, which no contract says.
#![tactic(auto)]

#[cfg(test)]
mod tests;
