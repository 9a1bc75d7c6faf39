//! The tests, and what they share.
mod by_threads;
mod command_line;
mod failing;
mod failures;
mod faults;
mod links;
mod made;
mod rows;
mod scripts;
mod stock;
