//! The workers of nodes.
ghost use Rattle.std.specs.Prelude.{◌≡◌, IfOk, map};
ghost use Rattle.assise_keeper.specs.Passes.{IsPassOf, client, last as last_of, opens, seen};
ghost use Rattle.assise_workers.specs.Working.{node_at, nodes_up_to};

use crate::gate::{Gate, Point};
use crate::idle::Idle;
use crate::replicated::Replicated;
use crate::worker::{TurnEnd, Worker};
use assise_history::growing::Growing;
use assise_keeper::keeper::Keeper;
use assise_keeper::pass::Pass;
use assise_link::link::PerfectLink;
use assise_names::refusal::Refusal;
use std::alloc::Global;
use std::sync::Wait;

/// The two workers of a node, and the link over which it sends.
#[derive(Drop)]
pub struct NodeWorkers<'a, S: Growing> {
    pub(crate) node: u32,
    pub(crate) replicator: Worker<'a, S>,
    pub(crate) digester: Worker<'a, S>,
    pub(crate) link: PerfectLink,
}

impl<'a, S: Replicated> NodeWorkers<'a, S> {
    ghost use Rattle.std.specs.Prelude.{◌≡◌};
    ghost use Rattle.assise_keeper.specs.Passes.{IsPassOf, client, last, opens, seen};
    ghost use Rattle.assise_workers.specs.Working.{node_at};

    /// The workers of a node, whose passes are split from another.
    pub fn new(keeper: &'a Keeper<S>, pass: &mut Pass<S>, node: u32) -> NodeWorkers<'a, S>
        requires { IsPassOf keeper.now pass.old }
        ensures free { IsPassOf keeper.now pass.new }
        ensures same { (seen pass.new ≡ seen pass.old) × (client pass.new ≡ client pass.old) }
        ensures right { opens pass.new ≡ opens pass.old }
        ensures last { last pass.new ≡ last pass.old }
        ensures node { node_at result ≡ node }
    {
        let replicator = Worker::new(keeper, pass);
        let digester = Worker::new(keeper, pass);
        NodeWorkers {
            node,
            replicator,
            digester,
            link: PerfectLink::new(),
        }
    }

    // One turn of each.
    fn turn<G: Gate, R: Wait>(&mut self, rt: &R, alloc: Global, gate: &G) -> TurnEnd {
        if !gate.pass(Point::Turn) {
            return TurnEnd::Stopped;
        }
        let sent = self
            .replicator
            .replicate_turn(rt, alloc, self.node, &mut self.link, gate);
        if sent == TurnEnd::Stopped {
            return sent;
        }
        sent.and(self.digester.digest_turn(rt, alloc, self.node, gate))
    }
}

/// The workers of nodes 1 to this, whose passes are split from another. Refused with [`Refusal::OutOfMemory`].
pub fn workers_up_to<'a, S: Replicated>(
    alloc: Global,
    keeper: &'a Keeper<S>,
    pass: &mut Pass<S>,
    last: u32,
) -> Result<Vec<NodeWorkers<'a, S>>, Refusal>
    requires { IsPassOf keeper.now pass.old }
    ensures free { IsPassOf keeper.now pass.new }
    ensures same { (seen pass.new ≡ seen pass.old) × (client pass.new ≡ client pass.old) }
    ensures right { opens pass.new ≡ opens pass.old }
    ensures kept { last_of pass.new ≡ last_of pass.old }
    ensures nodes { IfOk result (λ nodes. map node_at nodes.items ≡ nodes_up_to last) }
{
    let mut nodes = Vec::new(alloc);
    for node in 1..=last {
        nodes.push(NodeWorkers::new(keeper, pass, node))?;
    }
    Ok(nodes)
}

/// Does what the workers of these nodes do on one thread, a turn of each in turn, until the gate ends one: for a program that has no
/// thread to spare for each worker.
pub fn tend<S: Replicated, G: Gate, R: Wait>(
    rt: &R,
    alloc: Global,
    nodes: &mut [NodeWorkers<'_, S>],
    gate: &G,
) {
    let Some(first) = nodes.first() else {
        return;
    };
    let keeper = first.digester.keeper;
    let progress = keeper.progress();
    let mut idle = Idle::of_all();
    for _ in rt.forever() {
        let read = progress.read();
        let end = turn_of_each(rt, alloc, nodes, gate);
        keeper.wake_one();
        if !idle.rest(rt, progress, read, end) {
            return;
        }
    }
}

// One turn of each node's workers, and what all came to.
fn turn_of_each<S: Replicated, G: Gate, R: Wait>(
    rt: &R,
    alloc: Global,
    nodes: &mut [NodeWorkers<'_, S>],
    gate: &G,
) -> TurnEnd {
    let mut end = TurnEnd::Did(0);
    for workers in nodes.iter_mut() {
        end = end.and(workers.turn(rt, alloc, gate));
    }
    end
}
