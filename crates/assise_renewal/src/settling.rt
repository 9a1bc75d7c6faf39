//! The calls of a cluster's clients are made safe.
ghost use Rattle.std.specs.Prelude.{◌≡◌};
ghost use Rattle.assise_machine.specs.Clusters.{machine};
ghost use Rattle.assise_renewal.specs.Led.{IsDsync, IsLedBy};
ghost use Rattle.assise_renewal.specs.Renewal.{tree_kept};

use crate::calls::make_call;
use crate::replicated::are_all_replicated;
use assise_lease_table::revoker::Revokes;
use assise_machine::cluster::ClusterOf;
use assise_names::call::Op;
use assise_names::limits::MOST_CLIENTS;
use assise_rounds::rounds::round;
use std::alloc::Global;

/// Makes all calls safe, if it can: unless they are replicated, each client makes a dsync, tried at most `turns` times, and at most
/// `turns` rounds follow, until there is nothing to do. The tree of the kept calls stays.
pub(crate) fn settle<C: Revokes + Drop>(alloc: Global, cluster: &mut ClusterOf<C>, turns: u32)
    ensures settles { IsLedBy IsDsync (machine cluster.old) (machine cluster.new) }
    ensures stays { tree_kept cluster.new ≡ tree_kept cluster.old }
{
    if are_all_replicated(cluster) {
        return;
    }
    sync_all(alloc, cluster, turns);
    rest(alloc, cluster, turns);
}

/// Each client makes a dsync. Those that may not call are refused it.
fn sync_all<C: Revokes + Drop>(alloc: Global, cluster: &mut ClusterOf<C>, turns: u32)
    ensures { IsLedBy IsDsync (machine cluster.old) (machine cluster.new) }
{
    for client in 0..MOST_CLIENTS {
        let _ = make_call(alloc, cluster, client + 1, &Op::Dsync, turns);
    }
}

/// Rounds until there is nothing to do, `turns` at most: a client that crashed makes no dsync.
fn rest<C: Revokes + Drop>(alloc: Global, cluster: &mut ClusterOf<C>, turns: u32)
    ensures { IsLedBy IsDsync (machine cluster.old) (machine cluster.new) }
{
    for _ in 0..turns {
        if !round(alloc, cluster) {
            return;
        }
    }
}
