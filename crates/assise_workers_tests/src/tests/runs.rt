//! Clients in threads of their own, beside the workers of all nodes.
ghost use Rattle.std.specs.Prelude.{◌≡◌};
ghost use Rattle.assise_keeper.specs.Clients.{MayOpenClients};
ghost use Rattle.assise_keeper.specs.Passes.{IsPassOf, opens};

use crate::tests::begun::{calls_in, lent};
use assise_keeper::keeper::Keeper;
use assise_keeper::pass::Pass;
use assise_lease_table::revoker::Revoker;
use assise_libfs::libfs::LibFs;
use assise_machine::cluster::Cluster;
use assise_names::call::Op;
use assise_names::durability::Durability;
use assise_workers::gate::Gate;
use assise_workers::nodes::workers_up_to;
use assise_workers::running::run_cluster;
use assise_workers::serving::{ClientEnd, ClientList};
use std::alloc::Global;
use std::sync::Wait;
use std::thread::Threads;

/// The turns of a call: more than any call of the tests takes.
pub(crate) const TURNS: u32 = 1_000_000;

/// The clients of a run.
#[derive(Clone, Copy)]
pub(crate) struct Clients<'a> {
    /// The nodes, on which they are opened in turn.
    pub(crate) nodes: u32,
    /// How they are opened.
    pub(crate) durability: Durability,
    /// The calls of each, as lines, with an empty line between two clients.
    pub(crate) scripts: &'a str,
}

/// The calls of all clients. None where a line has none, or memory runs out.
fn calls_of_all(alloc: Global, scripts: &str) -> Option<Vec<Vec<Op>>> {
    let mut all = Vec::new(alloc);
    for lines in scripts.split("\n\n") {
        all.push(calls_in(alloc, lines)?).ok()?;
    }
    Some(all)
}

/// Opens a client on a node, with a revoker and its calls.
fn list_of<'a, R: Wait>(
    rt: &R,
    alloc: Global,
    keeper: &'a Keeper<Cluster>,
    main: &mut Pass<Cluster>,
    node: u32,
    revoker: Revoker,
    durability: Durability,
    calls: &'a [Op],
) -> Option<ClientList<'a, Cluster>>
    requires { IsPassOf keeper.now main.old × MayOpenClients (opens main.old) }
    ensures { IsPassOf keeper.now main.new × MayOpenClients (opens main.new) }
{
    let pass = keeper.split_sharing(main);
    let calls = lent(alloc, calls)?;
    let libfs = LibFs::open(rt, alloc, keeper, pass, node, revoker, durability, TURNS).ok()?;
    ClientList::new(alloc, libfs, calls).ok()
}

/// Opens all clients.
fn lists_of<'a, R: Wait>(
    rt: &R,
    alloc: Global,
    keeper: &'a Keeper<Cluster>,
    main: &mut Pass<Cluster>,
    revokers: &mut Vec<Revoker>,
    clients: &Clients<'_>,
    calls: &'a [Vec<Op>],
) -> Option<Vec<ClientList<'a, Cluster>>>
    requires { IsPassOf keeper.now main.old × MayOpenClients (opens main.old) }
    ensures { IsPassOf keeper.now main.new × MayOpenClients (opens main.new) }
{
    let mut lists = Vec::new(alloc);
    let mut node = 0_u32;
    for own in calls {
        node = if node < clients.nodes { node + 1 } else { 1 };
        let (revoker, durability) = (revokers.pop()?, clients.durability);
        let own = own.as_slice();
        let list = list_of(rt, alloc, keeper, main, node, revoker, durability, own)?;
        lists.push(list).ok()?;
    }
    Some(lists)
}

/// How many calls were answered.
fn count_answered(ends: &[ClientEnd<'_, Cluster>]) -> usize {
    let mut count = 0usize;
    for end in ends {
        for reply in end.replies.iter() {
            count = count.saturating_add(usize::from(reply.is_ok()));
        }
    }
    count
}

fn serve<'a, G: Gate, R: Threads + Wait + Sync>(
    rt: &'a R,
    alloc: Global,
    keeper: &'a Keeper<Cluster>,
    main: &mut Pass<Cluster>,
    revokers: &mut Vec<Revoker>,
    gate: &'a G,
    clients: &Clients<'_>,
    calls: &'a [Vec<Op>],
) -> Option<usize>
    requires { IsPassOf keeper.now main.old × MayOpenClients (opens main.old) }
{
    let nodes = workers_up_to(alloc, keeper, main, clients.nodes).ok()?;
    let lists = lists_of(rt, alloc, keeper, main, revokers, clients, calls)?;
    let ends = run_cluster(rt, alloc, nodes, gate, lists).ok()?;
    Some(count_answered(ends.as_slice()))
}

/// The clients, each with one of the revokers, make their calls on a cluster: how many calls are answered. None where memory runs out.
pub(crate) fn answered<G: Gate, R: Threads + Wait + Sync>(
    rt: &R,
    alloc: Global,
    cluster: Cluster,
    revokers: &mut Vec<Revoker>,
    gate: &G,
    clients: &Clients<'_>,
) -> Option<usize> {
    let calls = calls_of_all(alloc, clients.scripts)?;
    let (keeper, mut main) = Keeper::new(alloc, cluster).ok()?;
    let calls = calls.as_slice();
    let count = serve(
        rt, alloc, &keeper, &mut main, revokers, gate, clients, calls,
    );
    keeper.close()?;
    count
}
