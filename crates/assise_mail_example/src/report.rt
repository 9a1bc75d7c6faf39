//! What all threads saw, as text.

use crate::mailer::SURVIVOR;
use crate::members::FAILING;
use crate::messages::MESSAGES;
use crate::tally::ALL;
use std::fmt;
use std::fmt::{Display, Formatter};

/// The node at which each thread that delivered or read ended, all of which did what they had to.
#[derive(Clone, Copy)]
pub struct Report {
    pub writers: (u32, u32, u32),
    pub readers: (u32, u32),
}

impl Display for Report {
    fn fmt<W: fmt::Write>(&self, f: &mut Formatter<W>) -> fmt::Result {
        put_writer(f, 1, self.writers.0)?;
        put_writer(f, 2, self.writers.1)?;
        put_writer(f, 3, self.writers.2)?;
        put_reader(f, 1, self.readers.0)?;
        put_reader(f, 2, self.readers.1)?;
        write!(
            f,
            "node {FAILING} failed and came back: all {ALL} are at node {SURVIVOR}, and at node {FAILING}"
        )
    }
}

/// Writes the line of a thread that delivered.
fn put_writer<W: fmt::Write>(f: &mut Formatter<W>, writer: u32, node: u32) -> fmt::Result {
    writeln!(
        f,
        "writer {writer}: {MESSAGES} messages answered, the last at node {node}"
    )
}

/// Writes the line of a thread that read.
fn put_reader<W: fmt::Write>(f: &mut Formatter<W>, reader: u32, node: u32) -> fmt::Result {
    writeln!(
        f,
        "reader {reader}: {ALL} messages seen, each whole, the last at node {node}"
    )
}
