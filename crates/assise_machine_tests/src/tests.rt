//! The tests, and what they share.
mod desk;
mod dice;
mod failing_anywhere;
mod faults;
mod frames;
mod hot;
mod lists;
mod refused;
mod scripts;
mod seen;
mod steps;
mod tasks;
mod trees;
