//! Allocations that are refused: `checks/allocations leases` refuses each in turn.
use crate::logs::OneLog;
use assise_lease_table::revoker::{CutFn, Revoker};
use assise_lease_tree::lease_tree::{LeaseTree, LeaseTreeOf};
use assise_names::mode::Mode;
use assise_private_log::log::Log;
use assise_revokers::kinds::least;
use std::alloc::Global;

/// What each client wants, one after another: leases are given, raised, asked for, and asked for again.
const WANTED: &[(u32, u64, Mode)] = &[
    (1, 7, Mode::Read),
    (2, 7, Mode::Read),
    (1, 8, Mode::Read),
    (1, 8, Mode::Write),
    (3, 7, Mode::Write),
    (3, 7, Mode::Write),
    (2, 8, Mode::Read),
];

/// Takes a client in on a node, if it isn't there.
fn enrol(alloc: Global, tree: &mut LeaseTree, client: u32, node: u32) -> Option<()> {
    if tree.node_of(client).is_some() {
        return None;
    }
    let cut: CutFn = Box::new(alloc, least).ok()?;
    tree.enrol(client, node, Revoker::new(cut)).ok()
}

/// How many leases inodes 7 and 8 have, and which serve of those that are raised or revoked.
fn held(tree: &LeaseTree) -> (usize, usize, bool, bool) {
    (
        tree.leases(7).len(),
        tree.leases(8).len(),
        tree.holds(2, 7, Mode::Read),
        tree.holds(1, 8, Mode::Write),
    )
}

/// Acquires all, and lists what wasn't asked for. None where memory ran out; false where a refused call changed leases.
fn acquire_all(tree: &mut LeaseTree, logs: &OneLog) -> Option<bool> {
    for &(client, inode, mode) in WANTED {
        tree.node_of(client)?;
        let before = held(tree);
        if tree.acquire(client, inode, mode, logs).is_err() {
            return if held(tree) == before {
                None
            } else {
                Some(false)
            };
        }
    }
    tree.unasked_of(1).ok()?;
    tree.unasked_below(2).ok()?;
    Some(true)
}

/// As [`acquire_all`], of three clients on two nodes.
pub(crate) fn acquires_or_leaves(alloc: Global) -> Option<bool> {
    let log = Log::new(alloc, 64).ok()?;
    let logs = OneLog { log };
    let mut tree: LeaseTree = LeaseTreeOf::new(alloc);
    enrol(alloc, &mut tree, 1, 1)?;
    enrol(alloc, &mut tree, 2, 1)?;
    enrol(alloc, &mut tree, 3, 2)?;
    acquire_all(&mut tree, &logs)
}

#[test]
fn a_refused_allocation_leaves_all_leases(rt: HostRuntime) {
    assert!(rt; acquires_or_leaves(rt.alloc()) != Some(false));
}
