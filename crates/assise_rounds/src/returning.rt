//! How a node that failed comes back.
ghost use Rattle.std.specs.Prelude.{IfErr, OnOk};
ghost use Rattle.assise_machine.specs.Clusters.{machine};
ghost use Rattle.assise_rounds.specs.Traces.{Told};
ghost use Rattle.assise_rounds.specs.Returning.{ComesBack, IsFilled, StopsFilling};

use assise_lease_table::revoker::Revokes;
use assise_machine::cluster::ClusterOf;
use assise_names::refusal::Refusal;
use std::alloc::Global;

/// A node comes back: it begins to, gets each inode that it may lack, and joins. Where one of these is refused nothing follows, and
/// the node stays as it is then. Refused as [`ClusterOf::back`], [`ClusterOf::refill`] and [`ClusterOf::join`].
pub fn return_node<C: Revokes + Drop>(
    alloc: Global,
    cluster: &mut ClusterOf<C>,
    node: u32,
) -> Result<(), Refusal>
    ensures { (es : Told) × ComesBack node result (machine cluster.old) es (machine cluster.new) }
{
    let stale = cluster.back(node)?;
    fill(alloc, cluster, node, stale)?;
    cluster.join(alloc, node)
}

/// A node that comes back gets at most `stale` inodes that it may lack, until it lacks none. Refused as [`ClusterOf::refill`].
fn fill<C: Revokes + Drop>(
    alloc: Global,
    cluster: &mut ClusterOf<C>,
    node: u32,
    stale: usize,
) -> Result<(), Refusal>
    ensures ok { OnOk result ((es : Told) ×
        IsFilled stale node (machine cluster.old) es (machine cluster.new)) }
    ensures err { IfErr result (λ refusal. (es : Told) ×
        StopsFilling stale node refusal (machine cluster.old) es (machine cluster.new)) }
{
    for _ in 0..stale {
        match cluster.refill(alloc, node) {
            Ok(0) => return Ok(()),
            Ok(_) => {}
            Err(refusal) => return Err(refusal),
        }
    }
    Ok(())
}
