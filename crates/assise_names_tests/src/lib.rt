//! Tests of `assise_names`: calls and replies are made, copied and printed.
#![tactic(auto)]

#[cfg(test)]
mod tests;
