//! Turns of workers, where each allocation of a run is refused in turn: what a turn doesn't do as out of memory the next one does.
ghost use Rattle.assise_keeper.specs.Passes.{IsPassOf};

use crate::tests::begun::begin;
use assise_keeper::keeper::Keeper;
use assise_keeper::pass::Pass;
use assise_link::link::PerfectLink;
use assise_machine::cluster::Cluster;
use assise_workers::gate::OpenGate;
use assise_workers::worker::Worker;
use std::alloc::Global;
use std::sync::Wait;

/// Workers of two nodes have each of their turns twice.
fn work<R: Wait>(rt: &R, alloc: Global, keeper: &Keeper<Cluster>, main: &mut Pass<Cluster>)
    requires { IsPassOf keeper.now main.old }
{
    let mut worker = Worker::new(keeper, main);
    let mut link = PerfectLink::new();
    for _ in 0..2 {
        worker.replicate_turn(rt, alloc, 1, &mut link, &OpenGate);
    }
    for _ in 0..2 {
        worker.digest_turn(rt, alloc, 1, &OpenGate);
        worker.digest_turn(rt, alloc, 2, &OpenGate);
    }
}

/// Whether a node has digested the client's record.
fn has_digested(cluster: &Cluster, node: u32) -> bool {
    match cluster.region(node) {
        Ok(region) => region.clients() == 1 && region.digested(1) == 1,
        Err(_) => false,
    }
}

/// Whether turns do all. None where memory runs out before them.
fn turns<R: Wait>(rt: &R, alloc: Global) -> Option<bool> {
    let mut cluster = Cluster::new(alloc, 2, 8, 4).ok()?;
    begin(alloc, &mut cluster, "1 create /f\n")?;
    let (keeper, mut main) = Keeper::new(alloc, cluster).ok()?;
    work(rt, alloc, &keeper, &mut main);
    let cluster = keeper.close()?;
    Some(has_digested(&cluster, 1) && has_digested(&cluster, 2))
}

#[test]
fn what_a_turn_lacks_memory_for_the_next_one_does(rt: HostRuntime) {
    if let Some(done) = turns(&rt, rt.alloc()) {
        assert!(rt; done);
    }
}
