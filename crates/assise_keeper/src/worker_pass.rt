//! The pass of a worker.
ghost use Rattle.std.specs.Prelude.{◌≡◌, None};
ghost use Rattle.assise_keeper.specs.Passes.{client};

use crate::held::Held;
use crate::keeper::Keeper;
use crate::pass::Pass;
use assise_history::growing::Growing;
use std::sync::Wait;

/// A pass without a client, through which nothing is added to the history: for threads that do what no client asked.
#[derive(Drop)]
pub struct WorkerPass<S> {
    pass: Pass<S>,
    ghost nobody: { client pass ≡ None },
}

impl<S: Growing> WorkerPass<S> {
    ghost use Rattle.std.specs.Prelude.{◌≡◌, None};
    ghost use Rattle.assise_keeper.specs.Clients.{Extends};
    ghost use Rattle.assise_keeper.specs.Passes.{seen, last, client, taken, state_taken, IsPassOf, IsHolding};
    ghost use Rattle.assise_keeper.specs.Rule.{IsLed};
    ghost use Rattle.assise_keeper.specs.Working.{pass_of};

    /// Makes a worker's pass of one that has no client.
    pub fn new(pass: Pass<S>) -> WorkerPass<S>
        requires { client pass ≡ None }
        ensures { pass_of result ≡ pass }
    {
        WorkerPass { pass }
    }

    /// Waits until the state is there, and takes it. Its history extends what the pass has seen.
    pub fn take<R: Wait>(&mut self, rt: &R, keeper: &Keeper<S>) -> Held<S>
        requires { IsPassOf keeper.now (pass_of self.old) }
        ensures holds { IsHolding keeper.now (pass_of self.new) }
        ensures taken { taken (pass_of self.new) ≡ S.history result }
        ensures state { state_taken (pass_of self.new) ≡ Some result }
        ensures same { seen (pass_of self.new) ≡ seen (pass_of self.old) }
        ensures led { IsLed S.leads (last (pass_of self.old)) (Some result) }
        ensures extends { Extends (S.history result) (seen (pass_of self.old)) }
    {
        keeper.take(rt, &mut self.pass)
    }

    /// Gives the state back with the history that was taken, and the pass has seen it. The state that was taken leads to it by work
    /// alone. It waits for nobody and takes no memory.
    pub fn give(&mut self, keeper: &Keeper<S>, held: Held<S>)
        requires holding { IsHolding keeper.now (pass_of self.old) }
        requires nothing_added { S.history held ≡ taken (pass_of self.old) }
        requires leads { IsLed S.leads (state_taken (pass_of self.old)) (Some held) }
        requires works { IsLed S.works (state_taken (pass_of self.old)) (Some held) }
        ensures free { IsPassOf keeper.now (pass_of self.new) }
        ensures seen { seen (pass_of self.new) ≡ S.history held }
        ensures last { last (pass_of self.new) ≡ Some held }
    {
        keeper.give(&mut self.pass, held);
    }
}
