//! The tree that one node's region gives.
ghost use Rattle.std.specs.Prelude.{◌≡◌, IfOk, IsOkUnless, Err, List, None, Some, ℕ};
ghost use Rattle.assise_names.specs.declared.refusal.Refusal.{Refusal as Refused};
ghost use Rattle.assise_names.specs.declared.refusal.Refusal.TheVariants.{OutOfMemory};
ghost use Rattle.assise_inode_table.specs.Spelled.{Spells};
ghost use Rattle.assise_digest.specs.Region.{alone as alone_there};
ghost use Rattle.assise_seq_tree.specs.Tree.{Tree as PlainTree, opening};
ghost use Rattle.assise_history.specs.Kept.{tree_after};
ghost use Rattle.assise_model_events.specs.Faults.{node_fault};
ghost use Rattle.assise_model_world.specs.World.{alone_at};
ghost use Rattle.assise_machine.specs.Clusters.{AreAcked, machine};
ghost use Rattle.assise_machine.specs.Headline.{replicated_calls};

use assise_digest::region::Region;
use assise_lease_table::revoker::Revokes;
use assise_machine::cluster::ClusterOf;
use assise_names::limits::MOST_CLIENTS;
use assise_names::refusal::Refusal;
use assise_seq_tree::tree::Tree;
use std::alloc::{AllocError, Global};

/// The tree that a full node's region alone gives: that of all replicated calls. Refused with [`Refusal::BadNode`],
/// [`Refusal::WrongPhase`] where the node isn't full, and [`Refusal::OutOfMemory`].
pub fn tree_at<C: Revokes + Drop>(
    alloc: Global,
    cluster: &ClusterOf<C>,
    node: u32,
) -> Result<Tree, Refusal>
    ensures fault { (e : Refused) → node_fault (machine cluster.now) node ≡ Some e →
        result ≡ Err e }
    ensures tree { IfOk result (λ tree. Spells (alone_at (machine cluster.now).world node) tree) }
    ensures replicated { IfOk result (λ tree. tree ≡ tree_after opening
        (replicated_calls cluster.now)) }
    ensures fine { IfOk result (λ tree. node_fault (machine cluster.now) node ≡ None) }
    ensures only_memory { node_fault (machine cluster.now) node ≡ None →
        IsOkUnless result OutOfMemory }
{
    let region = cluster.region(node)?;
    tree_of(alloc, cluster, region)
}

/// The tree that a region of a cluster alone gives.
fn tree_of<C: Revokes + Drop>(
    alloc: Global,
    cluster: &ClusterOf<C>,
    region: &Region,
) -> Result<Tree, Refusal>
    ghost tree: { PlainTree }
    requires spelled { (acked : List ℕ) → AreAcked (machine cluster.now).world acked →
        Spells (alone_there region.now acked) tree }
    ensures tree { IfOk result (λ found. found ≡ tree) }
    ensures only_memory { IsOkUnless result OutOfMemory }
{
    let acked = all_acked(alloc, cluster)?;
    region.rebuild(alloc, acked.as_slice())
}

/// For each client the number below which all full nodes have its records.
fn all_acked<C: Revokes + Drop>(
    alloc: Global,
    cluster: &ClusterOf<C>,
) -> Result<Vec<u64>, AllocError>
    ensures acked { IfOk result (λ acked. AreAcked (machine cluster.now).world acked.items) }
{
    let mut acked = Vec::new(alloc);
    for client in 0..MOST_CLIENTS {
        if let Ok(place) = cluster.acked(client + 1) {
            acked.push(place)?;
        }
    }
    Ok(acked)
}
