//! What a cluster does between the tries of a call: replicate turns, and rounds.
ghost use Rattle.std.specs.Prelude.{◌≡◌, ◌≤◌, IfErr, IfNone, IfOk, IfSome, Some, is_none, length, map};
ghost use Rattle.assise_names.specs.declared.refusal.Refusal.TheVariants.{BadNode};
ghost use Rattle.assise_names.specs.declared.limits.TheConstants.{MOST_NODES};
ghost use Rattle.assise_model_events.specs.Events.{refused, released};
ghost use Rattle.assise_model_events.specs.Faults.{node_fault};
ghost use Rattle.assise_model_events.specs.NodeEvents.{Releasing, Sending};
ghost use Rattle.assise_link.specs.Kinds.{perfect};
ghost use Rattle.assise_machine.specs.Clusters.{machine};
ghost use Rattle.assise_rounds.specs.Traces.{Told};
ghost use Rattle.assise_rounds.specs.NodeLinks.{FaithfulAt};
ghost use Rattle.assise_rounds.specs.Rounds.{AreCarried, DeliversOver, DigestsOnce, EachFull, Replicates, RoundsOnce, RoundsOver, TakesTurn, WithWork};

use assise_lease_table::revoker::Revokes;
use assise_link::carrying::carry_frame;
use assise_link::link::{Link, PerfectLink};
use assise_machine::cluster::ClusterOf;
use assise_names::limits::MOST_NODES;
use assise_names::refusal::Refusal;
use assise_record::frame::Frame;
use std::alloc::Global;
use std::array;

/// One replicate turn of a node: what it sends goes over its link to the nodes that it is for. It answers how many frames were taken
/// in. What the link loses, and what finds no memory on its way, is lost. Refused as [`ClusterOf::outgoing`], and nothing is sent then.
pub fn replicate<C: Revokes + Drop, L: Link>(
    alloc: Global,
    cluster: &mut ClusterOf<C>,
    link: &mut L,
    node: u32,
) -> Result<u64, Refusal>
    ensures ok { IfOk result (λ count. (es : Told) ×
        Replicates (L.kind link.old ≡ perfect) node count (machine cluster.old) es
        (machine cluster.new)) }
    ensures err { IfErr result (λ refusal.
        Sending (machine cluster.old) node (refused refusal) (machine cluster.new)) }
    ensures stays { L.kind link.new ≡ L.kind link.old }
{
    match cluster.outgoing(alloc, node) {
        Ok(frames) => Ok(deliver_all(alloc, cluster, link, frames)),
        Err(refusal) => Err(refusal),
    }
}

/// Frames go over a link to the nodes that they are for, one after another. It answers how many were taken in.
fn deliver_all<C: Revokes + Drop, L: Link>(
    alloc: Global,
    cluster: &mut ClusterOf<C>,
    link: &mut L,
    frames: Vec<(Frame, u32)>,
) -> u64
    ensures carried { AreCarried (L.kind link.old ≡ perfect) frames.items result
        (machine cluster.old) (machine cluster.new) }
    ensures stays { L.kind link.new ≡ L.kind link.old }
{
    let mut taken = 0;
    for (frame, next) in frames {
        if deliver(alloc, cluster, link, frame, next) {
            taken += 1;
        }
    }
    taken
}

/// A frame goes over a link to a node, which reads versions up to its level. Whether the node took in what came.
fn deliver<C: Revokes + Drop, L: Link>(
    alloc: Global,
    cluster: &mut ClusterOf<C>,
    link: &mut L,
    frame: Frame,
    node: u32,
) -> bool
    ensures delivers { DeliversOver (L.kind link.old ≡ perfect) frame node result
        (machine cluster.old) (machine cluster.new) }
    ensures stays { L.kind link.new ≡ L.kind link.old }
{
    let Ok(newest) = cluster.level(node) else {
        return false;
    };
    match carry_frame(alloc, link, newest, &frame) {
        Some(came) => cluster.deliver(came, node).is_ok(),
        None => false,
    }
}

/// One round over links that lose nothing and spoil nothing, as [`round_over`].
pub fn round<C: Revokes + Drop>(alloc: Global, cluster: &mut ClusterOf<C>) -> bool
    ensures { (es : Told) × RoundsOnce result (machine cluster.old) es (machine cluster.new) }
{
    let mut links: [PerfectLink; MOST_NODES as usize] = array::from_fn(|_| PerfectLink::new());
    round_over(alloc, cluster, &mut links)
}

/// One round: each full node sends what it has for others over its link, which is the one at the place before its number, each digests,
/// and leases go that may. What finds no memory in it ends nothing. It answers whether there was anything to do: a frame to send, a
/// record to digest, a lease to let go of, or something that found no memory.
pub fn round_over<C: Revokes + Drop, L: Link>(
    alloc: Global,
    cluster: &mut ClusterOf<C>,
    links: &mut [L],
) -> bool
    requires { MOST_NODES ≤ length links.old }
    ensures rounds { (es : Told) × RoundsOver (FaithfulAt (map L.kind links.old)) result
        (machine cluster.old) es (machine cluster.new) }
    ensures stay { map L.kind links.new ≡ map L.kind links.old }
{
    let mut busy = replicate_all(alloc, cluster, links);
    busy |= digest_all(alloc, cluster);
    busy |= release(cluster) != 0;
    busy
}

/// Each full node makes a replicate turn over its link, by ascending number. Whether there was anything to send.
fn replicate_all<C: Revokes + Drop, L: Link>(
    alloc: Global,
    cluster: &mut ClusterOf<C>,
    links: &mut [L],
) -> bool
    requires { MOST_NODES ≤ length links.old }
    ensures each { (es : Told) × WithWork (EachFull
        (λ n. TakesTurn (FaithfulAt (map L.kind links.old) n) n) MOST_NODES) result
        (machine cluster.old) es (machine cluster.new) }
    ensures stay { map L.kind links.new ≡ map L.kind links.old }
{
    let mut busy = false;
    for node in 1..=MOST_NODES {
        let Some(full) = is_full(cluster, node) else {
            return busy;
        };
        if full {
            busy |= take_turn(alloc, cluster, &mut links[node as usize - 1], node);
        }
    }
    busy
}

/// A node makes a replicate turn over a link. Whether there was anything to send, or no memory for it.
fn take_turn<C: Revokes + Drop, L: Link>(
    alloc: Global,
    cluster: &mut ClusterOf<C>,
    link: &mut L,
    node: u32,
) -> bool
    ensures turn { (es : Told) × WithWork (TakesTurn (L.kind link.old ≡ perfect) node) result
        (machine cluster.old) es (machine cluster.new) }
    ensures stays { L.kind link.new ≡ L.kind link.old }
{
    match cluster.outgoing(alloc, node) {
        Ok(frames) => {
            let busy = !frames.is_empty();
            deliver_all(alloc, cluster, link, frames);
            busy
        }
        Err(_) => true,
    }
}

/// Each full node digests once, by ascending number. Whether there was anything to digest.
fn digest_all<C: Revokes + Drop>(alloc: Global, cluster: &mut ClusterOf<C>) -> bool
    ensures { (es : Told) × WithWork (EachFull DigestsOnce MOST_NODES) result
        (machine cluster.old) es (machine cluster.new) }
{
    let mut busy = false;
    for node in 1..=MOST_NODES {
        let Some(full) = is_full(cluster, node) else {
            return busy;
        };
        if full {
            busy |= digest(alloc, cluster, node);
        }
    }
    busy
}

/// A node digests once. Whether there was anything to digest, or no memory for it.
fn digest<C: Revokes + Drop>(alloc: Global, cluster: &mut ClusterOf<C>, node: u32) -> bool
    ensures { (es : Told) × WithWork (DigestsOnce node) result
        (machine cluster.old) es (machine cluster.new) }
{
    match cluster.digest(alloc, node) {
        Ok(count) => count != 0,
        Err(_) => true,
    }
}

/// Leases go that may. It answers how many.
fn release<C: Revokes + Drop>(cluster: &mut ClusterOf<C>) -> usize
    ensures { Releasing (machine cluster.old) (released result) (machine cluster.new) }
{
    cluster.release_ready()
}

/// Whether a node is full. `None` where there is no such node, and so none of a greater number.
fn is_full<C: Revokes + Drop>(cluster: &ClusterOf<C>, node: u32) -> Option<bool>
    ensures full { IfSome result (λ full. full ≡ is_none (node_fault (machine cluster.now) node)) }
    ensures none { IfNone result (node_fault (machine cluster.now) node ≡ Some BadNode) }
{
    match cluster.region(node) {
        Ok(_) => Some(true),
        Err(Refusal::BadNode) => None,
        Err(_) => Some(false),
    }
}
