//! What the main thread does to the cluster in one take.
ghost use Rattle.assise_machine.specs.Clusters.{machine};
ghost use Rattle.assise_rounds.specs.Traces.{Told};
ghost use Rattle.assise_threads.specs.Takes.{AddsNobodys};
ghost use Rattle.assise_threads.specs.Threads.{DoesTake};

use assise_console::commands::{
    begin_return, check, crash, digest, fail, join, raise, refill, release, set_hot, tree,
};
use assise_console::response::Response;
use assise_lease_table::revoker::Revokes;
use assise_machine::cluster::ClusterOf;
use std::alloc::Global;

/// A command that opens no client and makes no call, as far as it is done in one take.
#[derive(Clone, Copy)]
pub(crate) enum Take {
    /// A node digests.
    Digest(u64),
    /// Leases go that may.
    Release,
    /// How many inodes may be hot at a node is set.
    SetHot(u64, u64),
    /// A client crashes.
    Crash(u64),
    /// A node fails.
    Fail(u64),
    /// A node that is down begins to come back.
    BeginReturn(u64),
    /// A node that comes back gets one inode.
    Refill(u64),
    /// A node that comes back is full again.
    Join(u64),
    /// A node reads and sends version 2 of frames.
    Raise(u64),
    /// The tree of a node is read.
    Tree(u64),
    /// The history is looked through.
    Check,
}

/// Does it.
pub(crate) fn apply<C: Revokes + Drop>(
    alloc: Global,
    cluster: &mut ClusterOf<C>,
    take: Take,
) -> Response
    ensures does { (es : Told) × DoesTake take result (machine cluster.old) es (machine
        cluster.new) }
    ensures nobodys { AddsNobodys (machine cluster.old).history (machine cluster.new).history }
{
    match take {
        Take::Digest(node) => digest(alloc, cluster, node),
        Take::Release => release(cluster),
        Take::SetHot(node, capacity) => set_hot(cluster, node, capacity),
        Take::Crash(client) => crash(cluster, client),
        Take::Fail(node) => fail(alloc, cluster, node),
        Take::BeginReturn(node) => begin_return(cluster, node),
        Take::Refill(node) => refill(alloc, cluster, node),
        Take::Join(node) => join(alloc, cluster, node),
        Take::Raise(node) => raise(cluster, node),
        Take::Tree(node) => tree(alloc, cluster, node),
        Take::Check => check(alloc, cluster),
    }
}
