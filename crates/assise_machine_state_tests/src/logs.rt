//! What is done to nodes with the logs of clients. What can't be done answers none.
ghost use Rattle.std.specs.Prelude.{◌≡◌, IfSome, true};
ghost use Rattle.assise_inode_table.specs.Whole.{CanBeMadeWhole};
ghost use Rattle.assise_machine_state.specs.NodeValues.{HasLog};

use crate::seen::has_node;
use assise_machine_state::nodes::Nodes;
use assise_manager::members::Members;
use assise_names::refusal::Refusal;
use assise_record::effect::Effect;
use assise_record::record::Record;
use std::alloc::Global;

/// Whether a node has a log of a client.
fn has_log(nodes: &Nodes, node: u32, client: u32) -> bool
    ensures { result ≡ true → HasLog nodes.now node client }
{
    has_node(nodes, node) && 0 < client && client as usize <= nodes.region(node).clients()
}

/// A record that makes a file.
fn record_of(alloc: Global, inode: u64) -> Option<Record>
    ensures whole { IfSome result (λ made. CanBeMadeWhole made.effects) }
{
    let effects = vec![in alloc; Effect::NewFile { inode }].ok()?;
    Some(Record::new(inode, effects))
}

/// A node takes a record of a client in, which makes a file.
pub(crate) fn append(
    alloc: Global,
    nodes: &mut Nodes,
    node: u32,
    client: u32,
    inode: u64,
) -> Option<()> {
    let added = record_of(alloc, inode)?;
    if !has_log(nodes, node, client) || nodes.log(node, client).end() == u64::MAX {
        return None;
    }
    nodes.append(node, client, added).ok()
}

/// A node digests `count` records of its only client.
pub(crate) fn digest(nodes: &mut Nodes, node: u32, count: usize) -> Option<()> {
    if !has_log(nodes, node, 1) || nodes.region(node).clients() != 1 {
        return None;
    }
    let digested = nodes.digest_some(node, 1, u64::MAX, count).ok()?;
    if digested == count { Some(()) } else { None }
}

/// All full nodes begin a log of the next client, who lives on node 1.
pub(crate) fn begin_logs(
    alloc: Global,
    nodes: &mut Nodes,
    members: &Members,
) -> Result<(), Refusal> {
    if nodes.len() > 8 {
        return Err(Refusal::Busy);
    }
    nodes.begin_logs(alloc, members, 1, 8)
}

/// Three nodes, of which the manager sees the second fail.
pub(crate) fn without_second(alloc: Global) -> Result<Members, Refusal> {
    let mut members = Members::new(alloc, 3)?;
    if members.epoch() == u64::MAX {
        return Err(Refusal::Busy);
    }
    members.fail(2, &[])?;
    Ok(members)
}
