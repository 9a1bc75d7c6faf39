//! Tests of `assise_link`: what a link of each kind answers, carry by carry, and that a frame goes as its bytes.
#![tactic(auto)]

#[cfg(test)]
mod noting;
#[cfg(test)]
mod tests;
