//! Tests of `assise_mail`: that messages are delivered, listed, read and removed while there is memory.
#![tactic(auto)]

#[cfg(test)]
mod tests;
