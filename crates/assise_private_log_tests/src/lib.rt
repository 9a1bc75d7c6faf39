//! Tests of `assise_private_log`: logs are filled, copied and regrouped while there is memory.
#![tactic(auto)]

#[cfg(test)]
mod refused;
#[cfg(test)]
mod tests;
