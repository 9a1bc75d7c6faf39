//! A cluster is replaced by a new one with the same tree.
ghost use Rattle.std.specs.Prelude.{◌≡◌, ◌<◌, ◌≤◌, IfOk, IsTrue};
ghost use Rattle.assise_names.specs.declared.limits.TheConstants.{MOST_NODES};
ghost use Rattle.assise_seq_tree.specs.Tree.{opening};
ghost use Rattle.assise_history.specs.Kept.{kept, tree_after};
ghost use Rattle.assise_machine.specs.Clusters.{machine};
ghost use Rattle.assise_machine.specs.Headline.{history_of, replicated_calls};
ghost use Rattle.assise_renewal.specs.Led.{IsDsync, IsLedBy};
ghost use Rattle.assise_renewal.specs.Renewal.{AreUp, IsBegunBy, IsOfOneClient, IsRenewed, tree_kept};

use crate::filling::fill;
use crate::renewal_fault::RenewalFault;
use crate::replicated::are_all_replicated;
use crate::settling::settle;
use crate::trees::replicated_tree;
use assise_lease_table::revoker::Revokes;
use assise_machine::cluster::ClusterOf;
use assise_machine::headline::headline;
use assise_names::durability::Durability;
use assise_names::refusal::Refusal;
use assise_seq_tree::sameness::is_same;
use assise_seq_tree::tree::Tree;
use std::alloc::Global;

/// How large a cluster is: its nodes, the most records of a client's log, and the most inodes that are hot at a node.
#[derive(Clone, Copy)]
pub struct Sizes {
    /// 1 to `MOST_NODES`.
    pub nodes: u32,
    /// 8 to 4,096.
    pub log: usize,
    /// 1 to 4,096.
    pub hot: usize,
}

/// A new cluster with the tree of all calls of an old one that no failure took. Its history begins anew: with client 1, which is open on
/// node 1, has this revoker and is pessimistic, and with the calls by which it made this tree, all of them replicated. Nobody else works
/// on either cluster; a call is tried at most `turns` times, over links that lose nothing.
///
/// First the old one's calls are made safe: where some aren't replicated each of its clients makes a dsync, with rounds. Nothing else
/// happens to it, also where the new one is refused: with [`Refusal::Busy`] where a call of the old one isn't replicated then, as where
/// what one node sends waits until another is raised; with [`Refusal::InodesSpent`] where there are more files and directories than one
/// client may make; and with [`Refusal::OutOfMemory`]: beside the old cluster it takes the new one and twice the tree. Where something lies
/// deeper than a path goes, which no call reaches, it is [`RenewalFault::TooDeep`].
pub fn renewed<C: Revokes + Drop>(
    alloc: Global,
    old: &mut ClusterOf<C>,
    sizes: Sizes,
    revoker: C,
    turns: u32,
) -> Result<ClusterOf<C>, RenewalFault>
    requires some_nodes { 0 < sizes.nodes }
    requires few_nodes { sizes.nodes ≤ MOST_NODES }
    requires least_log { 8 ≤ sizes.log }
    requires most_log { sizes.log ≤ 4096 }
    requires least_hot { 1 ≤ sizes.hot }
    requires most_hot { sizes.hot ≤ 4096 }
    ensures renewed { IfOk result (λ new. IsRenewed (tree_kept old.old) sizes new) }
    ensures settles { IsLedBy IsDsync (machine old.old) (machine old.new) }
    ensures stays { tree_kept old.new ≡ tree_kept old.old }
{
    let tree = safe_tree(alloc, old, turns)?;
    with_tree(alloc, &tree, sizes, revoker, turns)
}

/// The tree of all kept calls of a cluster, which are made safe first. Refused with [`Refusal::Busy`] where they can't be, and with
/// [`Refusal::OutOfMemory`].
fn safe_tree<C: Revokes + Drop>(
    alloc: Global,
    old: &mut ClusterOf<C>,
    turns: u32,
) -> Result<Tree, Refusal>
    ensures tree { IfOk result (λ tree. tree ≡ tree_kept old.new) }
    ensures settles { IsLedBy IsDsync (machine old.old) (machine old.new) }
    ensures stays { tree_kept old.new ≡ tree_kept old.old }
{
    settle(alloc, old, turns);
    if !are_all_replicated(old) {
        return Err(Refusal::Busy);
    }
    replicated_tree(alloc, old)
}

/// A cluster of one client, which made a tree: whether it did is seen, and else it is [`Refusal::Busy`].
fn with_tree<C: Revokes + Drop>(
    alloc: Global,
    tree: &Tree,
    sizes: Sizes,
    revoker: C,
    turns: u32,
) -> Result<ClusterOf<C>, RenewalFault>
    requires some_nodes { 0 < sizes.nodes }
    requires few_nodes { sizes.nodes ≤ MOST_NODES }
    requires least_log { 8 ≤ sizes.log }
    requires most_log { sizes.log ≤ 4096 }
    requires least_hot { 1 ≤ sizes.hot }
    requires most_hot { sizes.hot ≤ 4096 }
    ensures { IfOk result (λ new. IsRenewed tree.now sizes new) }
{
    let cluster = filled(alloc, tree, sizes, revoker, turns)?;
    headline(&cluster);
    if has_tree(alloc, &cluster, sizes.nodes, tree)? {
        Ok(cluster)
    } else {
        Err(RenewalFault::Refused(Refusal::Busy))
    }
}

/// A cluster of one client, which made what it could of a tree.
fn filled<C: Revokes + Drop>(
    alloc: Global,
    tree: &Tree,
    sizes: Sizes,
    revoker: C,
    turns: u32,
) -> Result<ClusterOf<C>, RenewalFault>
    requires some_nodes { 0 < sizes.nodes }
    requires few_nodes { sizes.nodes ≤ MOST_NODES }
    requires least_log { 8 ≤ sizes.log }
    requires most_log { sizes.log ≤ 4096 }
    requires least_hot { 1 ≤ sizes.hot }
    requires most_hot { sizes.hot ≤ 4096 }
    ensures begun { IfOk result (λ new. IsBegunBy sizes (machine new)) }
    ensures client { IfOk result (λ new. IsOfOneClient (history_of new)) }
{
    let mut cluster = ClusterOf::new(alloc, sizes.nodes, sizes.log, sizes.hot)?;
    match cluster.open(alloc, 1, revoker, Durability::Pessimistic) {
        Ok(_) => {}
        Err((refusal, _)) => return Err(RenewalFault::Refused(refusal)),
    }
    fill(alloc, &mut cluster, tree, turns)?;
    Ok(cluster)
}

/// Whether nodes 1 to `nodes` of a cluster are up, and all its calls are replicated and make this tree. Refused with
/// [`Refusal::OutOfMemory`].
fn has_tree<C: Revokes + Drop>(
    alloc: Global,
    cluster: &ClusterOf<C>,
    nodes: u32,
    tree: &Tree,
) -> Result<bool, Refusal>
    ensures up { IfOk result (λ yes. IsTrue yes → AreUp cluster.now nodes) }
    ensures safe { IfOk result (λ yes. IsTrue yes →
        replicated_calls cluster.now ≡ kept (history_of cluster.now)) }
    ensures tree { IfOk result (λ yes. IsTrue yes →
        tree_after opening (replicated_calls cluster.now) ≡ tree.now) }
{
    if !are_up(cluster, nodes) || !are_all_replicated(cluster) {
        return Ok(false);
    }
    let made = replicated_tree(alloc, cluster)?;
    Ok(is_same(alloc, &made, tree)?)
}

/// Whether nodes 1 to `nodes` are up.
fn are_up<C: Revokes + Drop>(cluster: &ClusterOf<C>, nodes: u32) -> bool
    ensures { IsTrue result → AreUp cluster.now nodes }
{
    for node in 0..nodes {
        if cluster.region(node + 1).is_err() {
            return false;
        }
    }
    true
}
