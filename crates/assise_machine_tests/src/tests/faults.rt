//! What is wrong with a cluster between steps.
use crate::tests::desk::{Cluster, Desk};
use crate::tests::scripts::WAITS;
use crate::tests::trees::put_tree;
use assise_digest::region::Region;
use assise_history::call::Call;
use assise_history::check::check;
use assise_history::kept::kept;
use assise_history::replay::replay;
use assise_names::limits::MOST_NODES;
use assise_names::refusal::Refusal;
use assise_rounds::trees::tree_at;
use std::alloc::Global;

/// More than the clients of any test.
const MANY: u32 = 17;

/// What is wrong behind the last step: as [`fault_between`], unless it came to nothing.
pub(crate) fn fault_behind(alloc: Global, desk: &mut Desk) -> Option<&'static str> {
    match desk.outcome.as_str() {
        WAITS | "Carried(Ok(0))" | "Digested(Ok(0))" | "Released(0)" | "Linked" => Some(""),
        _ => fault_between(alloc, desk),
    }
}

/// What is wrong between steps: the history isn't legal, or a full node has another tree than the replicated calls. None where
/// memory runs out.
fn fault_between(alloc: Global, desk: &mut Desk) -> Option<&'static str> {
    if !check(alloc, desk.cluster.history()).ok()? {
        return Some("the history isn't legal");
    }
    put_replicated(alloc, &desk.cluster, &mut desk.before)?;
    for node in 1..=desk.nodes {
        let full = put_tree_at(alloc, &desk.cluster, node, &mut desk.after)?;
        if full && desk.before.as_str() != desk.after.as_str() {
            return Some("a node has another tree than the replicated calls");
        }
    }
    Some("")
}

/// What is wrong once all nodes are back, and all is sent and digested: the same, or not all calls are replicated, and gone from
/// the logs.
pub(crate) fn fault_at_the_end(alloc: Global, desk: &mut Desk) -> Option<&'static str> {
    settle(alloc, desk)?;
    for client in 1..MANY {
        if !has_digested(&desk.cluster, desk.nodes, client) {
            return Some("not all is digested");
        }
    }
    fault_between(alloc, desk)
}

/// What is done once all nodes are back: they are raised and linked, and all clients sync.
const LAST: &str = "\
raise 1
raise 2
raise 3
raise 4
link 1 perfect
link 2 perfect
link 3 perfect
link 4 perfect
1 dsync
2 dsync
3 dsync
4 dsync
5 dsync
6 dsync
7 dsync
8 dsync
9 dsync
10 dsync
11 dsync
12 dsync
13 dsync
14 dsync
15 dsync
16 dsync
";

/// All nodes come back, all that is done last is, and all frames are sent and come, and are digested.
fn settle(alloc: Global, desk: &mut Desk) -> Option<()> {
    for node in 1..=desk.nodes {
        desk.bring_back(alloc, node)?;
    }
    for line in LAST.lines() {
        desk.make(alloc, line)?;
    }
    for _ in 0..4 {
        desk.make_round(alloc)?;
    }
    Some(())
}

/// Whether all that a client wrote is replicated, and has gone from the log of each of `nodes` full nodes.
fn has_digested(cluster: &Cluster, nodes: u32, client: u32) -> bool {
    let Ok(acked) = cluster.acked(client) else {
        return true;
    };
    for node in 1..=nodes {
        match cluster.region(node) {
            Ok(region) if is_empty_from(region, client as usize, acked) => (),
            _ => return false,
        }
    }
    true
}

/// Whether a client's log has no record, and goes on with this number.
fn is_empty_from(region: &Region, client: usize, number: u64) -> bool {
    if client == 0 || region.clients() < client {
        return false;
    }
    let log = region.log(client);
    log.first() == number && log.end() == number
}

/// Writes the tree of the kept calls that are replicated in place of a text. None where they are no run, or memory runs out.
fn put_replicated(alloc: Global, cluster: &Cluster, text: &mut String) -> Option<()> {
    let mut calls = kept(alloc, cluster.history()).ok()?;
    calls.retain(|call| is_replicated(cluster, call));
    let mut tree = replay(alloc, calls.as_slice()).ok()??;
    put_tree(alloc, &mut tree, text)
}

/// Whether a call comes before its client's first one that has a record which isn't replicated.
fn is_replicated(cluster: &Cluster, call: &Call) -> bool {
    let Ok(acked) = cluster.acked(call.client) else {
        return false;
    };
    for node in 1..=MOST_NODES {
        if let Ok(region) = cluster.region(node) {
            if let Some(first) = call_at(region, call.client as usize, acked) {
                return call.number < first;
            }
        }
    }
    true
}

/// The call of the record of a number in the log of a client.
fn call_at(region: &Region, client: usize, number: u64) -> Option<u64> {
    if client == 0 || region.clients() < client {
        return None;
    }
    let record = region.log(client).get(number)?;
    Some(record.call())
}

/// Writes the tree of a node in place of a text, if it is full. None where memory runs out.
fn put_tree_at(alloc: Global, cluster: &Cluster, node: u32, text: &mut String) -> Option<bool> {
    match tree_at(alloc, cluster, node) {
        Ok(mut tree) => {
            put_tree(alloc, &mut tree, text)?;
            Some(true)
        }
        Err(Refusal::OutOfMemory) => None,
        Err(_) => Some(false),
    }
}
