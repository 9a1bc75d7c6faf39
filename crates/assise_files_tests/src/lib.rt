//! Tests of `assise_files` and `assise_desk`: requests as text, served at one desk.
#![tactic(auto)]

#[cfg(test)]
mod refused;
#[cfg(test)]
mod requests;
#[cfg(test)]
mod tests;
