//! Leases are held and asked for, and a revoker is stored, while there is memory.
use crate::refused::asks_or_leaves;
use crate::stored::stored_cut;
use assise_lease_table::node_table::NodeTable;
use assise_names::mode::Mode;
use assise_private_log::log::Log;
use std::alloc::Global;

/// Whether a node gets a lease.
fn node_holds(alloc: Global) -> bool {
    let mut table = NodeTable::new(alloc);
    table.may_hold(1, 7, Mode::Read) && table.hold(1, 7, Mode::Read).is_ok()
}

/// What a stored revoker answers of a log without records.
fn cut_of_nothing(alloc: Global) -> Option<u64> {
    let log = Log::new(alloc, 64).ok()?;
    stored_cut(alloc, log.view(), 7).ok()
}

#[test]
fn leases_are_held_and_asked_for(rt: HostRuntime) {
    assert!(rt; asks_or_leaves(rt.alloc()) == Some(true));
    assert!(rt; node_holds(rt.alloc()));
    assert!(rt; cut_of_nothing(rt.alloc()) == Some(0));
}
