//! Tests of `assise_record`: frames byte by byte, which are read, copied and spelled again.
#![tactic(auto)]

#[cfg(test)]
mod tests;
