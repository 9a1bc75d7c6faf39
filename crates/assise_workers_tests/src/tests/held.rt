//! What goes on while a frame is held: two clients on two nodes.
ghost use Rattle.std.specs.Prelude.{◌≡◌};
ghost use Rattle.assise_keeper.specs.Clients.{MayOpenClients};
ghost use Rattle.assise_keeper.specs.Passes.{IsPassOf, opens};

use crate::tests::gates::UntilAnswered;
use crate::tests::runs::TURNS;
use assise_keeper::keeper::Keeper;
use assise_keeper::pass::Pass;
use assise_lease_table::revoker::Revoker;
use assise_libfs::libfs::LibFs;
use assise_libfs::served::Served;
use assise_machine::cluster::Cluster;
use assise_names::byte_string::ByteString;
use assise_names::durability::Durability;
use assise_names::path::Path;
use assise_names::reply::Reply;
use assise_workers::nodes::{NodeWorkers, tend, workers_up_to};
use assise_workers::replicated::Replicated;
use std::alloc::Global;
use std::sync::Wait;
use std::sync::atomic::{AtomicBool, Ordering};
use std::thread;
use std::thread::{Threads, join};

/// Opens a client on a node.
fn open<'a, R: Wait>(
    rt: &R,
    alloc: Global,
    keeper: &'a Keeper<Cluster>,
    main: &mut Pass<Cluster>,
    node: u32,
    revoker: Revoker,
) -> Option<LibFs<'a, Cluster>>
    requires { IsPassOf keeper.now main.old × MayOpenClients (opens main.old) }
    ensures { IsPassOf keeper.now main.new × MayOpenClients (opens main.new) }
{
    let pass = keeper.split_sharing(main);
    let durability = Durability::Pessimistic;
    LibFs::open(rt, alloc, keeper, pass, node, revoker, durability, TURNS).ok()
}

fn write<S: Served, R: Wait>(
    rt: &R,
    alloc: Global,
    libfs: &mut LibFs<'_, S>,
    path: &str,
) -> Option<Reply> {
    let path = Path::parse(alloc, path).ok()?;
    let bytes = ByteString::from_vec(vec![in alloc; b'w'].ok()?).ok()?;
    libfs.write(rt, alloc, path, 0, bytes).ok()
}

fn stat<S: Served, R: Wait>(
    rt: &R,
    alloc: Global,
    libfs: &mut LibFs<'_, S>,
    path: &str,
) -> Option<Reply> {
    let path = Path::parse(alloc, path).ok()?;
    libfs.stat(rt, alloc, path).ok()
}

/// The first client writes its file and syncs, and the workers may end then. What the fsync was answered.
fn sync_held<S: Served, R: Wait>(
    rt: &R,
    alloc: Global,
    libfs: &mut LibFs<'_, S>,
    synced: &AtomicBool,
) -> Option<Reply> {
    let written = write(rt, alloc, libfs, "/a/f");
    let reply = libfs.fsync(rt, alloc).ok();
    synced.store(true, Ordering::SeqCst);
    written.and(reply)
}

/// The second waits until a frame is held, and only then asks after its own file. What it was answered.
fn stat_once_held<S: Served, R: Wait>(
    rt: &R,
    alloc: Global,
    libfs: &mut LibFs<'_, S>,
    held: &AtomicBool,
    answered: &AtomicBool,
) -> Option<Reply> {
    for _ in rt.forever() {
        if held.load(Ordering::SeqCst) {
            break;
        }
        thread::yield_now();
    }
    let reply = stat(rt, alloc, libfs, "/b/g");
    answered.store(true, Ordering::SeqCst);
    reply
}

/// The same, while this thread does what the nodes do.
fn stat_tended<S: Served + Replicated + Send, R: Threads + Wait + Sync>(
    rt: &R,
    alloc: Global,
    libfs: &mut LibFs<'_, S>,
    nodes: &mut [NodeWorkers<'_, S>],
    gate: &UntilAnswered,
) -> Option<Reply> {
    let (held, answered) = (&gate.held, &gate.answered);
    let (reply, ()) = join(
        rt,
        || stat_once_held(rt, alloc, libfs, held, answered),
        || tend(rt, alloc, nodes, gate),
    );
    reply
}

/// What the fsync and the stat were answered, each on a thread of its own.
fn sync_beside_stat<S: Served + Replicated + Send, R: Threads + Wait + Sync>(
    rt: &R,
    alloc: Global,
    first: &mut LibFs<'_, S>,
    second: &mut LibFs<'_, S>,
    nodes: &mut [NodeWorkers<'_, S>],
    gate: &UntilAnswered,
) -> (Option<Reply>, Option<Reply>) {
    let synced = &gate.synced;
    join(
        rt,
        || sync_held(rt, alloc, first, synced),
        || stat_tended(rt, alloc, second, nodes, gate),
    )
}

/// The same of two clients on two nodes, of which the second has written its file, and the first has seen its own.
fn begin_and_sync<R: Threads + Wait + Sync>(
    rt: &R,
    alloc: Global,
    keeper: &Keeper<Cluster>,
    main: &mut Pass<Cluster>,
    revokers: &mut Vec<Revoker>,
    gate: &UntilAnswered,
) -> Option<(Option<Reply>, Option<Reply>)>
    requires { IsPassOf keeper.now main.old × MayOpenClients (opens main.old) }
{
    let mut nodes = workers_up_to(alloc, keeper, main, 2).ok()?;
    let mut first = open(rt, alloc, keeper, main, 1, revokers.pop()?)?;
    let mut second = open(rt, alloc, keeper, main, 2, revokers.pop()?)?;
    let begun = write(rt, alloc, &mut second, "/b/g").and(stat(rt, alloc, &mut first, "/a/f"));
    let nodes = nodes.as_mut_slice();
    let replies = sync_beside_stat(rt, alloc, &mut first, &mut second, nodes, gate);
    begun.and(Some(replies))
}

/// The same on a cluster with both files. None where memory runs out.
pub(crate) fn stat_beside_fsync<R: Threads + Wait + Sync>(
    rt: &R,
    alloc: Global,
    cluster: Cluster,
    revokers: &mut Vec<Revoker>,
    gate: &UntilAnswered,
) -> Option<(Option<Reply>, Option<Reply>)> {
    let (keeper, mut main) = Keeper::new(alloc, cluster).ok()?;
    let replies = begin_and_sync(rt, alloc, &keeper, &mut main, revokers, gate);
    keeper.close()?;
    replies
}
