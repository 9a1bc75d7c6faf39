//! Allocations that are refused, each in turn.
use crate::seen::{has_node, is_quiet};
use assise_inode_table::inode::Inode;
use assise_machine_state::clients::Clients;
use assise_machine_state::nodes::Nodes;
use assise_machine_state::sound::Sound;
use assise_names::durability::Durability;
use assise_names::limits::MOST_CLIENTS;
use assise_names::refusal::Refusal;
use std::alloc::{AllocError, Global};

/// A table of clients, with all that there may be.
fn opens(alloc: Global) -> Result<bool, Refusal> {
    let mut clients = Clients::new(alloc)?;
    for home in 1..=MOST_CLIENTS {
        if clients.len() < MOST_CLIENTS as usize {
            clients.open(home, Durability::Pessimistic);
        }
    }
    Ok(clients.len() == MOST_CLIENTS as usize)
}

/// Makes two nodes, and gives the second an inode.
fn refills(alloc: Global) -> Result<bool, Refusal> {
    let mut nodes = Nodes::new(alloc, 2, 4)?;
    if !is_quiet(&nodes, 2) {
        return Ok(false);
    }
    match nodes.refill_one(2, 9, Some(Inode::new_file(alloc))) {
        Ok(()) => Ok(!has_inode(&nodes, 1) && has_inode(&nodes, 2)),
        Err(AllocError) => Ok(!has_inode(&nodes, 1) && !has_inode(&nodes, 2)),
    }
}

/// Whether a node has the inode 9.
fn has_inode(nodes: &Nodes, node: u32) -> bool {
    has_node(nodes, node) && nodes.region(node).peek(9).is_some()
}

/// A sound state of three nodes.
fn begins(alloc: Global) -> Result<bool, Refusal> {
    let sound = Sound::new(alloc, 3, 8, 4)?;
    Ok(sound.history().entries().is_empty())
}

#[test]
fn a_table_of_clients_is_refused_or_has_room_for_all(rt: HostRuntime) {
    let ended = opens(rt.alloc());
    assert!(rt; matches!(ended, Ok(true) | Err(Refusal::OutOfMemory)));
}

#[test]
fn nodes_are_refused_or_made(rt: HostRuntime) {
    let ended = refills(rt.alloc());
    assert!(rt; matches!(ended, Ok(true) | Err(Refusal::OutOfMemory)));
}

#[test]
fn a_sound_state_is_refused_or_begins(rt: HostRuntime) {
    let ended = begins(rt.alloc());
    assert!(rt; matches!(ended, Ok(true) | Err(Refusal::OutOfMemory)));
}
