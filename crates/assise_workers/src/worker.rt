//! A worker: a lent keeper, and a pass through which no entry is added.
ghost use Rattle.std.specs.Prelude.{◌≡◌};
ghost use Rattle.assise_keeper.specs.Passes.{IsPassOf};
ghost use Rattle.assise_workers.specs.Acting.{both_ends};
ghost use Rattle.assise_keeper.specs.Working.{pass_of};

use crate::replicated::Replicated;
use assise_history::growing::Growing;
use assise_keeper::keeper::Keeper;
use assise_keeper::pass::Pass;
use assise_keeper::worker_pass::WorkerPass;
use assise_names::refusal::Refusal;
use std::sync::Wait;

/// What a turn of a worker came to.
#[derive(Clone, Copy, PartialEq, Eq, Debug)]
pub enum TurnEnd {
    /// So much was done: frames were taken in, or records digested and leases let go of.
    Did(u64),
    /// The state refused it.
    Refused(Refusal),
    /// The gate ends the worker's loop.
    Stopped,
}

impl TurnEnd {
    /// Whether it did something.
    pub(crate) fn did_work(self) -> bool {
        match self {
            TurnEnd::Did(count) => count != 0,
            TurnEnd::Refused(_) | TurnEnd::Stopped => false,
        }
    }

    /// What two turns came to, one after the other.
    pub(crate) fn and(self, next: TurnEnd) -> TurnEnd
        ensures { result ≡ both_ends self next }
    {
        match (self, next) {
            (TurnEnd::Stopped, _) | (_, TurnEnd::Stopped) => TurnEnd::Stopped,
            (TurnEnd::Refused(_), _) => next,
            (_, TurnEnd::Refused(_)) => self,
            (TurnEnd::Did(first), TurnEnd::Did(second)) => {
                TurnEnd::Did(first.saturating_add(second))
            }
        }
    }
}

/// A worker of a state that threads take in turn. It adds no entry to the state's history.
#[derive(Drop)]
pub struct Worker<'a, S: Growing> {
    pub(crate) keeper: &'a Keeper<S>,
    pub(crate) pass: WorkerPass<S>,
    /// How often something had happened for which threads wait, when the worker was made.
    pub(crate) begun: u64,
    ghost ours: { IsPassOf keeper.now (pass_of pass) },
}

impl<'a, S: Replicated> Worker<'a, S> {
    ghost use Rattle.std.specs.Prelude.{◌≡◌, None};
    ghost use Rattle.assise_keeper.specs.Passes.{IsPassOf, client, last, opens, seen};
    ghost use Rattle.assise_workers.specs.Working.{keeper_at, seen_at};

    /// A worker with a pass that is split from another.
    pub fn new(keeper: &'a Keeper<S>, pass: &mut Pass<S>) -> Worker<'a, S>
        requires { IsPassOf keeper.now pass.old }
        ensures free { IsPassOf keeper.now pass.new }
        ensures same { (seen pass.new ≡ seen pass.old) × (client pass.new ≡ client pass.old) }
        ensures right { opens pass.new ≡ opens pass.old }
        ensures last { last pass.new ≡ last pass.old }
        ensures keeper { keeper_at result ≡ keeper.now }
        ensures seen { seen_at result ≡ seen pass.old }
    {
        Worker::of(keeper, keeper.split(pass))
    }

    /// A worker with a pass of its own, which has no client.
    pub(crate) fn of(keeper: &'a Keeper<S>, pass: Pass<S>) -> Worker<'a, S>
        requires { IsPassOf keeper.now pass × (client pass ≡ None) }
        ensures keeper { keeper_at result ≡ keeper.now }
        ensures seen { seen_at result ≡ seen pass }
    {
        let pass = WorkerPass::new(pass);
        let begun = keeper.progress().read();
        Worker {
            keeper,
            pass,
            begun,
        }
    }

    /// How many records more a client's log at a node has room for, as far as is known.
    pub(crate) fn spare<R: Wait>(&mut self, rt: &R, node: u32, client: u32) -> usize {
        let mut held = self.pass.take(rt, self.keeper);
        let spare = held.state().spare(node, client);
        self.pass.give(self.keeper, held);
        spare
    }
}
