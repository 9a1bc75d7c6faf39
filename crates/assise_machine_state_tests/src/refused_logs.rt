//! Logs that are refused: each allocation of a run is refused in turn, and the call is made again.
use crate::logs::{append, begin_logs, digest, without_second};
use crate::seen::{has_node, is_quiet, logs_of};
use assise_machine_state::nodes::Nodes;
use assise_manager::members::Members;
use assise_names::refusal::Refusal;
use std::alloc::Global;

/// Begins the logs of two clients of node 1, and each once more where that is refused.
fn begins(alloc: Global) -> Result<bool, Refusal> {
    let members = without_second(alloc)?;
    let mut nodes = Nodes::new(alloc, 3, 4)?;
    let (none, one, both) = (
        ";;;",
        " 0..0..0;; 0..0..0;",
        " 0..0..0 0..0..0;; 0..0..0 0..0..0;",
    );
    Ok(
        begins_one(alloc, &mut nodes, &members, none, one)?
            && begins_one(alloc, &mut nodes, &members, one, both)?,
    )
}

/// Begins the logs of a client: whether they are what they were where that is refused, and what they are to be once it
/// isn't.
fn begins_one(
    alloc: Global,
    nodes: &mut Nodes,
    members: &Members,
    before: &str,
    after: &str,
) -> Result<bool, Refusal> {
    if begin_logs(alloc, nodes, members).is_err() {
        let there = logs_of(alloc, nodes)?;
        if there.as_str() != before || begin_logs(alloc, nodes, members).is_err() {
            return Ok(false);
        }
    }
    Ok(logs_of(alloc, nodes)?.as_str() == after)
}

/// Copies the first node's logs to the second, which has none, and once more where that is refused.
fn copies(alloc: Global) -> Result<bool, Refusal> {
    let members = without_second(alloc)?;
    let mut nodes = Nodes::new(alloc, 3, 4)?;
    fill(alloc, &mut nodes, &members).ok_or(Refusal::OutOfMemory)?;
    copies_to_second(alloc, &mut nodes)
}

/// Two clients of the first node have logs, of which the first is digested in part.
fn fill(alloc: Global, nodes: &mut Nodes, members: &Members) -> Option<()> {
    begin_logs(alloc, nodes, members).ok()?;
    for inode in 10..13 {
        append(alloc, nodes, 1, 1, inode)?;
    }
    digest(nodes, 1, 2)?;
    begin_logs(alloc, nodes, members).ok()?;
    append(alloc, nodes, 1, 2, 20)
}

fn copies_to_second(alloc: Global, nodes: &mut Nodes) -> Result<bool, Refusal> {
    if !copy_logs(alloc, nodes) {
        let none = " 0..2..3 0..0..1;; 0..0..0 0..0..0;";
        if logs_of(alloc, nodes)?.as_str() != none || !copy_logs(alloc, nodes) {
            return Ok(false);
        }
    }
    let copied = " 0..2..3 0..0..1; 0..2..3 0..0..1; 0..0..0 0..0..0;";
    Ok(logs_of(alloc, nodes)?.as_str() == copied)
}

/// Copies the first node's logs to the second, and says whether they were.
fn copy_logs(alloc: Global, nodes: &mut Nodes) -> bool {
    is_quiet(nodes, 2) && has_node(nodes, 1) && nodes.copy_logs(alloc, 2, 1).is_ok()
}

#[test]
fn a_client_whose_logs_are_refused_begins_none(rt: HostRuntime) {
    let ended = begins(rt.alloc());
    assert!(rt; matches!(ended, Ok(true) | Err(Refusal::OutOfMemory)));
}

#[test]
fn a_node_whose_copies_are_refused_gets_none(rt: HostRuntime) {
    let ended = copies(rt.alloc());
    assert!(rt; matches!(ended, Ok(true) | Err(Refusal::OutOfMemory)));
}
