//! Commands that open no client and make no call, on a cluster alone.
#![tactic(auto, using(crate::proofs::OneCommand::names_none))]

ghost use Rattle.assise_model_events.specs.Events.{back, crash, digest, fail, join, raise, refill, release_ready};
ghost use Rattle.assise_machine.specs.Clusters.{machine};
ghost use Rattle.assise_rounds.specs.Traces.{Told};
ghost use Rattle.assise_console.specs.Steps.{IsVerdict, SetsHot, Shows};
ghost use Rattle.assise_console.specs.OneEvent.{IsOne, IsOneAt};

use crate::numbered::number_of;
use crate::response::Response;
use assise_history::check;
use assise_lease_table::revoker::Revokes;
use assise_machine::cluster::ClusterOf;
use assise_machine::hot::HotCapacity;
use assise_names::refusal::Refusal;
use assise_rounds::trees::tree_at;
use std::alloc::Global;

/// One digest of a node.
pub fn digest<C: Revokes + Drop>(alloc: Global, cluster: &mut ClusterOf<C>, node: u64) -> Response
    ensures { (es : Told) × IsOne (digest node) result (machine cluster.old) es (machine
        cluster.new) }
{
    let Some(node) = number_of(node) else {
        return Response::Refused(Refusal::BadNode);
    };
    match cluster.digest(alloc, node) {
        Ok(count) => Response::Digested(count),
        Err(refusal) => Response::Refused(refusal),
    }
}

/// The leases go that may.
pub fn release<C: Revokes + Drop>(cluster: &mut ClusterOf<C>) -> Response
    ensures { (es : Told) × IsOne release_ready result (machine cluster.old) es (machine
        cluster.new) }
{
    Response::Released(cluster.release_ready())
}

/// `capacity` inodes may be hot at a node, 1 to 4,096. Another number does nothing: no script has one.
pub fn set_hot<C: Revokes + Drop>(cluster: &mut ClusterOf<C>, node: u64, capacity: u64) -> Response
    ensures { (es : Told) × SetsHot node capacity result (machine cluster.old) es (machine
        cluster.new) }
{
    let Some(capacity) = HotCapacity::new(capacity as usize) else {
        return Response::Quiet;
    };
    let Some(node) = number_of(node) else {
        return Response::Refused(Refusal::BadNode);
    };
    match cluster.set_hot(node, capacity.get()) {
        Ok(()) => Response::HotSet(node),
        Err(refusal) => Response::Refused(refusal),
    }
}

/// A client crashes.
pub fn crash<C: Revokes + Drop>(cluster: &mut ClusterOf<C>, client: u64) -> Response
    ensures { (es : Told) × IsOneAt crash client result (machine cluster.old) es (machine
        cluster.new) }
{
    let Some(client) = number_of(client) else {
        return Response::Refused(Refusal::BadClient);
    };
    match cluster.crash(client) {
        Ok(()) => Response::Crashed(client),
        Err(refusal) => Response::Refused(refusal),
    }
}

/// A node fails.
pub fn fail<C: Revokes + Drop>(alloc: Global, cluster: &mut ClusterOf<C>, node: u64) -> Response
    ensures { (es : Told) × IsOneAt fail node result (machine cluster.old) es (machine
        cluster.new) }
{
    let Some(node) = number_of(node) else {
        return Response::Refused(Refusal::BadNode);
    };
    match cluster.fail(alloc, node) {
        Ok(losses) => Response::Failed(node, losses),
        Err(refusal) => Response::Refused(refusal),
    }
}

/// A node that was down begins to come back.
pub fn begin_return<C: Revokes + Drop>(cluster: &mut ClusterOf<C>, node: u64) -> Response
    ensures { (es : Told) × IsOneAt back node result (machine cluster.old) es (machine
        cluster.new) }
{
    let Some(node) = number_of(node) else {
        return Response::Refused(Refusal::BadNode);
    };
    match cluster.back(node) {
        Ok(stale) => Response::Began(node, stale),
        Err(refusal) => Response::Refused(refusal),
    }
}

/// A node that comes back gets one inode that it may lack.
pub fn refill<C: Revokes + Drop>(alloc: Global, cluster: &mut ClusterOf<C>, node: u64) -> Response
    ensures { (es : Told) × IsOneAt refill node result (machine cluster.old) es (machine
        cluster.new) }
{
    let Some(node) = number_of(node) else {
        return Response::Refused(Refusal::BadNode);
    };
    match cluster.refill(alloc, node) {
        Ok(stale) => Response::Left(stale),
        Err(refusal) => Response::Refused(refusal),
    }
}

/// A node that comes back and lacks no inode is full again.
pub fn join<C: Revokes + Drop>(alloc: Global, cluster: &mut ClusterOf<C>, node: u64) -> Response
    ensures { (es : Told) × IsOneAt join node result (machine cluster.old) es (machine
        cluster.new) }
{
    let Some(node) = number_of(node) else {
        return Response::Refused(Refusal::BadNode);
    };
    match cluster.join(alloc, node) {
        Ok(()) => Response::Returned(node),
        Err(refusal) => Response::Refused(refusal),
    }
}

/// A full node reads and sends version 2 of frames from here on.
pub fn raise<C: Revokes + Drop>(cluster: &mut ClusterOf<C>, node: u64) -> Response
    ensures { (es : Told) × IsOneAt raise node result (machine cluster.old) es (machine
        cluster.new) }
{
    let Some(node) = number_of(node) else {
        return Response::Refused(Refusal::BadNode);
    };
    match cluster.raise(node) {
        Ok(()) => Response::Raised(node),
        Err(refusal) => Response::Refused(refusal),
    }
}

/// The tree that a node's region alone gives.
pub fn tree<C: Revokes + Drop>(alloc: Global, cluster: &ClusterOf<C>, node: u64) -> Response
    ensures { Shows node result (machine cluster.now) }
{
    let Some(node) = number_of(node) else {
        return Response::Refused(Refusal::BadNode);
    };
    match tree_at(alloc, cluster, node) {
        Ok(tree) => Response::Tree(tree),
        Err(refusal) => Response::Refused(refusal),
    }
}

/// Whether the history of a cluster is legal. Refused with [`Refusal::OutOfMemory`] alone.
pub fn check<C: Revokes + Drop>(alloc: Global, cluster: &ClusterOf<C>) -> Response
    ensures { IsVerdict result (machine cluster.now) }
{
    match check::check(alloc, cluster.history()) {
        Ok(legal) => Response::Checked(legal),
        Err(refusal) => Response::Refused(refusal),
    }
}
