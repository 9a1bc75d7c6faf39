//! Allocations that are refused: `checks/allocations leases` refuses each in turn.
use crate::logs::OneLog;
use assise_lease_table::client_table::{ClientTable, ClientTableOf};
use assise_lease_table::revoker::{CutFn, Revoker};
use assise_names::mode::Mode;
use assise_private_log::log::Log;
use assise_revokers::kinds::least;
use std::alloc::Global;

/// Takes a client in that isn't there.
fn enrol(alloc: Global, table: &mut ClientTable, client: u32) -> Option<()> {
    if table.is_enrolled(client) {
        return None;
    }
    let cut: CutFn = Box::new(alloc, least).ok()?;
    table.enrol(client, Revoker::new(cut)).ok()
}

/// Gives a client a lease to read inode 7, if it may hold it.
fn hold(table: &mut ClientTable, client: u32) -> Option<()> {
    if !table.may_hold(client, 7, Mode::Read) {
        return None;
    }
    table.hold(client, 7, Mode::Read).ok()
}

/// Whether inode 7 has `count` leases, `revoked` of them revoked.
fn is_held(table: &ClientTable, count: usize, revoked: usize) -> bool {
    let leases = table.leases(7);
    leases.len() == count && leases.iter().filter(|lease| lease.revoked).count() == revoked
}

/// Two clients read an inode, and a third asks for it: says whether both leases are revoked. None where memory ran out, and the
/// leases are as they were.
fn ask_two(table: &mut ClientTable, logs: &OneLog) -> Option<bool> {
    if hold(table, 1).is_none() {
        return if is_held(table, 0, 0) {
            None
        } else {
            Some(false)
        };
    }
    if hold(table, 2).is_none() {
        return if is_held(table, 1, 0) {
            None
        } else {
            Some(false)
        };
    }
    match table.ask(7, Mode::Write, 3, logs) {
        Ok(_) => Some(is_held(table, 2, 2)),
        Err(_) if is_held(table, 2, 0) => None,
        Err(_) => Some(false),
    }
}

/// As [`ask_two`], of a new table.
pub(crate) fn asks_or_leaves(alloc: Global) -> Option<bool> {
    let log = Log::new(alloc, 64).ok()?;
    let logs = OneLog { log };
    let mut table: ClientTable = ClientTableOf::new(alloc);
    for client in 1..4 {
        enrol(alloc, &mut table, client)?;
    }
    ask_two(&mut table, &logs)
}

#[test]
fn a_refused_allocation_leaves_all_leases(rt: HostRuntime) {
    assert!(rt; asks_or_leaves(rt.alloc()) != Some(false));
}
