//! What contracts can't say: that workers and clients get on, and that none is held up by another's frame.
mod begun;
mod crowds;
mod gates;
mod held;
mod refused;
mod renewed;
mod runs;

use crate::tests::begun::{begin, revokers};
use crate::tests::crowds::{Crowd, run_crowd};
use crate::tests::gates::{AllAtOnce, UntilAnswered};
use crate::tests::held::stat_beside_fsync;
use crate::tests::renewed::renewed_once;
use crate::tests::runs::{Clients, answered};
use assise_machine::cluster::Cluster;
use assise_names::durability::Durability;
use assise_names::reply::Reply;
use assise_rounds::rounds::round;
use std::alloc::Global;
use std::sync::atomic::{AtomicBool, AtomicU64, Ordering};

/// Two clients on two nodes, with few calls.
const FEW: Crowd = Crowd {
    nodes: 2,
    clients: 2,
    durability: Durability::Pessimistic,
    first: "1 create /fC\n1 create /s\n",
    again: "1 write /s 0 tC\n1 read /s 0 99\n1 rename /s /rC\n1 rename /rC /s\n1 fsync\n",
    times: 1,
};

/// Four clients on two nodes, each with a file of its own; eight on four nodes, which share one and move it to and fro; and four
/// optimistic ones on two nodes, which share one.
const CROWDS: [(Crowd, usize); 3] = [
    (
        Crowd {
            clients: 4,
            again: "1 write /fC 0 tC\n1 read /fC 0 99\n1 write /fC 1 tC\n1 read /fC 0 99\n1 fsync\n",
            times: 12,
            ..FEW
        },
        248,
    ),
    (
        Crowd {
            nodes: 4,
            clients: 8,
            times: 12,
            ..FEW
        },
        496,
    ),
    (
        Crowd {
            clients: 4,
            durability: Durability::Optimistic,
            again: "1 write /s 0 tC\n1 read /s 0 99\n1 rename /s /rC\n1 rename /rC /s\n1 dsync\n",
            times: 12,
            ..FEW
        },
        248,
    ),
];

#[test]
fn calls_of_many_threads_are_answered(rt: HostRuntime) {
    for &(crowd, count) in &CROWDS {
        assert_eq!(rt; run_crowd(&rt, rt.alloc(), &crowd), Some(count));
    }
}

#[test]
fn a_thousand_runs_come_to_their_end(rt: HostRuntime) {
    for _ in 0..1000 {
        assert_eq!(rt; run_crowd(&rt, rt.alloc(), &FEW), Some(14));
    }
}

/// A cluster of two nodes, at both of which there is a file in each of two directories. Nobody has a lease.
fn with_two_files(alloc: Global) -> Option<Cluster> {
    let mut cluster = Cluster::new(alloc, 2, 64, 64).ok()?;
    begin(
        alloc,
        &mut cluster,
        "1 mkdir /a\n1 mkdir /b\n1 create /a/f\n1 create /b/g\n",
    )?;
    cluster.crash(1).ok()?;
    round(alloc, &mut cluster);
    Some(cluster)
}

/// A client on each of two nodes writes its own file and syncs.
const SYNCS: Clients<'_> = Clients {
    nodes: 2,
    durability: Durability::Pessimistic,
    scripts: "1 write /a/f 0 tw\n1 fsync\n\n1 write /b/g 0 tw\n1 fsync\n",
};

#[test]
fn fsync_waits_while_others_go_on(rt: HostRuntime) {
    let gate = UntilAnswered {
        held: AtomicBool::new(false),
        answered: AtomicBool::new(false),
        came: AtomicBool::new(false),
        synced: AtomicBool::new(false),
    };
    let cluster = with_two_files(rt.alloc()).expect(&rt, "no memory");
    let mut revokers = revokers(rt.alloc(), 2).expect(&rt, "no memory");
    let replies = stat_beside_fsync(&rt, rt.alloc(), cluster, &mut revokers, &gate);
    assert_eq!(rt; replies, Some((Some(Reply::Done), Some(Reply::File(1)))));
    assert!(rt; gate.came.load(Ordering::SeqCst));
}

#[test]
fn all_at_once(rt: HostRuntime) {
    let gate = AllAtOnce {
        frames: AtomicU64::new(0),
        digest: AtomicBool::new(false),
        freed: AtomicU64::new(0),
    };
    let cluster = with_two_files(rt.alloc()).expect(&rt, "no memory");
    let mut revokers = revokers(rt.alloc(), 2).expect(&rt, "no memory");
    let count = answered(&rt, rt.alloc(), cluster, &mut revokers, &gate, &SYNCS);
    assert_eq!(rt; count, Some(4));
    assert_eq!(rt; gate.freed.load(Ordering::SeqCst), 2);
}

#[test]
fn what_was_made_is_there_in_a_renewed_cluster(rt: HostRuntime) {
    let replies = renewed_once(&rt, rt.alloc());
    assert_eq!(rt; replies, Some((Reply::Done, Reply::File(4))));
}
