//! Clusters on which a client made calls before anything runs.
use assise_fault_script::command::Command;
use assise_fault_script::parse::parse;
use assise_lease_table::revoker::{CutFn, Revoker};
use assise_machine::cluster::Cluster;
use assise_names::call::Op;
use assise_names::durability::Durability;
use assise_revokers::kinds::least;
use std::alloc::Global;

/// The calls of lines `1 CALL`. None where a line has none, or memory runs out.
pub(crate) fn calls_in(alloc: Global, lines: &str) -> Option<Vec<Op>> {
    let script = format!(in alloc; "cluster 1 8 1\n{lines}").ok()?;
    let commands = parse(alloc, script.as_bytes()).ok()?;
    let mut calls = Vec::with_capacity(alloc, commands.len()).ok()?;
    for line in commands {
        if let Command::Call { client: _, op } = line.command {
            calls.push(op).ok()?;
        }
    }
    Some(calls)
}

/// Calls, each lent.
pub(crate) fn lent<'a>(alloc: Global, calls: &'a [Op]) -> Option<Vec<&'a Op>> {
    let mut lent = Vec::with_capacity(alloc, calls.len()).ok()?;
    for op in calls {
        lent.push(op).ok()?;
    }
    Some(lent)
}

/// A revoker of the least cut.
pub(crate) fn revoker(alloc: Global) -> Option<Revoker> {
    let cut: CutFn = Box::new(alloc, least).ok()?;
    Some(Revoker::new(cut))
}

/// `count` of them.
pub(crate) fn revokers(alloc: Global, count: u32) -> Option<Vec<Revoker>> {
    let mut revokers = Vec::new(alloc);
    for _ in 0..count {
        revokers.push(revoker(alloc)?).ok()?;
    }
    Some(revokers)
}

/// Client 1 is opened on node 1, makes the calls of lines, and waits for an fsync. None where memory runs out.
pub(crate) fn begin(alloc: Global, cluster: &mut Cluster, lines: &str) -> Option<()> {
    cluster
        .open(alloc, 1, revoker(alloc)?, Durability::Pessimistic)
        .ok()?;
    let calls = calls_in(alloc, lines)?;
    for op in calls.iter() {
        cluster.try_call(alloc, 1, op).ok()?;
    }
    cluster.try_fsync(1).ok()?;
    Some(())
}
