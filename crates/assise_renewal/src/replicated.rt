//! Whether all calls of a cluster are replicated.
ghost use Rattle.std.specs.Prelude.{◌≡◌, IsTrue};
ghost use Rattle.assise_history.specs.Kept.{kept};
ghost use Rattle.assise_machine.specs.Headline.{history_of, replicated_calls};
ghost use Rattle.assise_renewal.specs.ReplicatedClients.{HasReplicatedAll};

use assise_lease_table::revoker::Revokes;
use assise_machine::cluster::ClusterOf;
use assise_machine::headline::headline;
use assise_names::limits::MOST_CLIENTS;

/// Whether each call that no failure took is replicated. It costs the nodes for each client.
pub(crate) fn are_all_replicated<C: Revokes + Drop>(cluster: &ClusterOf<C>) -> bool
    ensures { IsTrue result → replicated_calls cluster.now ≡ kept (history_of cluster.now) }
{
    headline(cluster);
    for client in 0..MOST_CLIENTS {
        if !has_replicated_all(cluster, client + 1) {
            return false;
        }
    }
    true
}

/// Whether all calls of a client are replicated. So it is where there is no such client.
fn has_replicated_all<C: Revokes + Drop>(cluster: &ClusterOf<C>, client: u32) -> bool
    ensures { IsTrue result → HasReplicatedAll cluster.now client }
{
    let Ok(known) = cluster.client(client) else {
        return true;
    };
    match cluster.replicated_to(client) {
        Ok(count) => known.next() <= count,
        Err(_) => false,
    }
}
