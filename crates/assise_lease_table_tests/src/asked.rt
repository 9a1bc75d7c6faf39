//! Whose revokers an asking calls, and how often.
use crate::logs::OneLog;
use assise_lease_table::client_table::ClientTableOf;
use assise_lease_table::revoker::Revokes;
use assise_names::mode::Mode;
use assise_private_log::log::Log;
use assise_private_log::log_view::LogView;
use assise_revokers::kinds::least;
use std::alloc::Global;
use std::sync::Arc;
use std::sync::atomic::{AtomicU32, Ordering};

/// Answers the least cut, and counts how often it is called.
#[derive(Drop)]
struct Counting {
    calls: Arc<AtomicU32>,
}

impl Revokes for Counting {
    ghost use Rattle.assise_revokers.specs.Kinds.{IsLeast};

    ghost answers = { λ _ log inode cut. IsLeast log inode cut };

    fn cut(&self, view: &LogView, inode: u64) -> u64 {
        self.calls.fetch_add(1, Ordering::SeqCst);
        least(view, inode)
    }
}

/// Takes a client in, and gives it a lease to read an inode.
fn hold(
    table: &mut ClientTableOf<Counting>,
    client: u32,
    inode: u64,
    calls: Arc<AtomicU32>,
) -> Option<()> {
    if table.is_enrolled(client) {
        return None;
    }
    table.enrol(client, Counting { calls }).ok()?;
    if !table.may_hold(client, inode, Mode::Read) {
        return None;
    }
    table.hold(client, inode, Mode::Read).ok()
}

/// How often the revokers were called of clients 1 and 2, which read inode 7, and of client 3, which reads inode 8, once client 4 has
/// asked for inode 7 `times` times.
fn calls_of(alloc: Global, times: u32) -> Option<[u32; 3]> {
    let logs = OneLog {
        log: Log::new(alloc, 64).ok()?,
    };
    let first = Arc::new(alloc, AtomicU32::new(0)).ok()?;
    let second = Arc::new(alloc, AtomicU32::new(0)).ok()?;
    let third = Arc::new(alloc, AtomicU32::new(0)).ok()?;
    let mut table = ClientTableOf::new(alloc);
    hold(&mut table, 1, 7, first.clone().ok()?)?;
    hold(&mut table, 2, 7, second.clone().ok()?)?;
    hold(&mut table, 3, 8, third.clone().ok()?)?;
    for _ in 0..times {
        table.ask(7, Mode::Write, 4, &logs).ok()?;
    }
    Some([first, second, third].map(|calls| calls.load(Ordering::SeqCst)))
}

#[test]
fn each_holder_is_asked_once_and_nobody_else(rt: HostRuntime) {
    assert_eq!(rt; calls_of(rt.alloc(), 1), Some([1, 1, 0]));
    assert_eq!(rt; calls_of(rt.alloc(), 2), Some([1, 1, 0]));
}
