//! A mail store on two nodes: three threads deliver messages and two read them, while a node fails and comes back.
#![tactic(auto)]

mod crew;
mod mailer;
mod members;
mod messages;
mod office;
mod readers;
mod report;
mod tally;
mod writers;

use crate::office::run_office;
use std::io;

fn main(rt: HostRuntime) -> io::Result<()> {
    match run_office(&rt, rt.alloc()) {
        Ok(report) => println!(rt; "{report}"),
        Err(fault) => println!(rt; "{fault}"),
    }
}
