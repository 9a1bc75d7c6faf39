//! The tree of a cluster's replicated calls.
ghost use Rattle.std.specs.Prelude.{◌≡◌, IfOk};
ghost use Rattle.assise_seq_tree.specs.Tree.{opening};
ghost use Rattle.assise_history.specs.Kept.{tree_after};
ghost use Rattle.assise_machine.specs.Headline.{replicated_calls};

use assise_lease_table::revoker::Revokes;
use assise_machine::cluster::ClusterOf;
use assise_names::limits::MOST_NODES;
use assise_names::refusal::Refusal;
use assise_rounds::trees::tree_at;
use assise_seq_tree::tree::Tree;
use std::alloc::Global;

/// The tree of all replicated calls, which the lowest full node gives alone. It costs the tree. Refused with
/// [`Refusal::OutOfMemory`].
pub(crate) fn replicated_tree<C: Revokes + Drop>(
    alloc: Global,
    cluster: &ClusterOf<C>,
) -> Result<Tree, Refusal>
    ensures { IfOk result (λ tree. tree ≡ tree_after opening (replicated_calls cluster.now)) }
{
    for node in 0..MOST_NODES {
        if cluster.region(node + 1).is_ok() {
            return tree_at(alloc, cluster, node + 1);
        }
    }
    // It isn't reached: some node is up.
    Err(Refusal::Busy)
}
