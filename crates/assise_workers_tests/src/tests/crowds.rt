//! Many clients.
use crate::tests::begun::revokers;
use crate::tests::runs::{Clients, answered};
use assise_machine::cluster::Cluster;
use assise_names::durability::Durability;
use assise_names::limits::MOST_NODES;
use assise_workers::gate::OpenGate;
use std::alloc::Global;
use std::sync::Wait;
use std::thread::Threads;

/// How many clients there are, and what each does: in lines `C` stands for its number.
#[derive(Clone, Copy)]
pub(crate) struct Crowd {
    pub(crate) nodes: u32,
    pub(crate) clients: u32,
    pub(crate) durability: Durability,
    /// What it does once.
    pub(crate) first: &'static str,
    /// What it does over and over, and how often.
    pub(crate) again: &'static str,
    pub(crate) times: u32,
}

/// Appends lines of a client.
fn put_lines(text: &mut String, lines: &str, client: u32) -> Option<()> {
    for letter in lines.chars() {
        if letter == 'C' {
            write!(text, "{client}").ok()?;
        } else {
            text.push(letter).ok()?;
        }
    }
    Some(())
}

/// The calls of all clients.
fn scripts_of(alloc: Global, crowd: &Crowd) -> Option<String> {
    let mut text = String::new(alloc);
    for client in 1..=crowd.clients {
        if client > 1 {
            text.push('\n').ok()?;
        }
        put_lines(&mut text, crowd.first, client)?;
        for _ in 0..crowd.times {
            put_lines(&mut text, crowd.again, client)?;
        }
    }
    Some(text)
}

/// How many calls of a crowd are answered on a new cluster, whose clients' logs have 64 records.
pub(crate) fn run_crowd<R: Threads + Wait + Sync>(
    rt: &R,
    alloc: Global,
    crowd: &Crowd,
) -> Option<usize> {
    if crowd.nodes < 1 || crowd.nodes > MOST_NODES {
        return None;
    }
    let scripts = scripts_of(alloc, crowd)?;
    let cluster = Cluster::new(alloc, crowd.nodes, 64, 64).ok()?;
    let clients = Clients {
        nodes: crowd.nodes,
        durability: crowd.durability,
        scripts: scripts.as_str(),
    };
    let mut revokers = revokers(alloc, crowd.clients)?;
    answered(rt, alloc, cluster, &mut revokers, &OpenGate, &clients)
}
