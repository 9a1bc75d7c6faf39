//! Tests of `assise_console` and `assise_threads`: scripts over memory, readers and writers that fail, and the command line.
#![tactic(auto)]

#[cfg(test)]
mod tests;
