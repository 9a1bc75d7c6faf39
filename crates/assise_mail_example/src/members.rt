//! A node fails, and comes back.
ghost use Rattle.std.specs.Prelude.{◌≡◌, ℕ, List, Option};
ghost use Rattle.assise_history.specs.Entries.{EntryValue};
ghost use Rattle.assise_keeper.specs.declared.view.Opens.{Opens};
ghost use Rattle.assise_keeper.specs.Clients.{MayGive};
ghost use Rattle.assise_keeper.specs.declared.view.Opens.TheVariants.{AmongOthers};
ghost use Rattle.assise_keeper.specs.Passes.{IsPassOf, opens};

use crate::tally::Tally;
use assise_history::growing::Growing;
use assise_keeper::keeper::Keeper;
use assise_keeper::pass::Pass;
use assise_lease_table::revoker::Revokes;
use assise_machine::cluster::ClusterOf;
use assise_names::refusal::Refusal;
use std::alloc::Global;
use std::sync::Wait;

/// The node that fails.
pub const FAILING: u32 = 1;

/// How many messages are answered before it does.
const BEFORE: u32 = 15;

/// How many are before it comes back.
const WHILE_DOWN: u32 = 30;

/// How often it is filled and tries to join.
const TRIES: u32 = 4_096;

/// What happens to the node.
#[derive(Clone, Copy)]
pub enum Change {
    Fails,
    BeginsToReturn,
    IsFilled,
    Joins,
}

/// A state one of whose nodes fails and comes back. A cluster is one.
pub trait Failing: Growing {
    /// Changes that node. It opens no client and answers no call.
    fn change(&mut self, alloc: Global, change: Change) -> Result<(), Refusal>
        ensures gives { (client : Option ℕ) (right : Opens) → MayGive client right
            (Self.Growing.history self.old) (Self.Growing.history self.new) }
        ensures leads { Self.Growing.leads self.old self.new };
}

impl<C: Revokes + Drop> Failing for ClusterOf<C> {
    fn change(&mut self, alloc: Global, change: Change) -> Result<(), Refusal> {
        match change {
            Change::Fails => self.fail(alloc, FAILING).map(|_| ()),
            Change::BeginsToReturn => self.back(FAILING).map(|_| ()),
            Change::IsFilled => self.refill(alloc, FAILING).map(|_| ()),
            Change::Joins => self.join(alloc, FAILING),
        }
    }
}

/// The thread at which the node fails and comes back.
#[derive(Drop)]
pub struct Operator<'a, S: Failing> {
    keeper: &'a Keeper<S>,
    pass: Pass<S>,
    ghost ours: { IsPassOf keeper.now pass },
    ghost right: { opens pass ≡ AmongOthers },
}

impl<'a, S: Failing> Operator<'a, S> {
    ghost use Rattle.std.specs.Prelude.{◌≡◌};
    ghost use Rattle.assise_keeper.specs.Clients.{MayOpenClients};
    ghost use Rattle.assise_keeper.specs.Passes.{IsPassOf, opens};

    /// With a pass of its own, which may do what is no work.
    pub fn new(keeper: &'a Keeper<S>, main: &mut Pass<S>) -> Operator<'a, S>
        requires { IsPassOf keeper.now main.old × MayOpenClients (opens main.old) }
        ensures { IsPassOf keeper.now main.new × MayOpenClients (opens main.new) }
    {
        let pass = keeper.split_sharing(main);
        Operator { keeper, pass }
    }

    /// The node fails once some messages were answered, and comes back once more were.
    pub fn fail_and_return<R: Wait>(
        &mut self,
        rt: &R,
        alloc: Global,
        tally: &Tally,
    ) -> Result<(), Refusal> {
        tally.wait_until_answered(rt, BEFORE);
        let failed = self.change(rt, alloc, Change::Fails);
        tally.note_failure();
        failed?;
        tally.wait_until_answered(rt, WHILE_DOWN);
        self.come_back(rt, alloc)
    }

    // The node comes back, and gets what it lacks until it is full.
    fn come_back<R: Wait>(&mut self, rt: &R, alloc: Global) -> Result<(), Refusal> {
        self.change(rt, alloc, Change::BeginsToReturn)?;
        for _ in 0..TRIES {
            self.change(rt, alloc, Change::IsFilled)?;
            match self.change(rt, alloc, Change::Joins) {
                Err(Refusal::Busy) => {}
                joined => return joined,
            }
        }
        Err(Refusal::Busy)
    }

    // Changes the node, while no other thread has the cluster.
    fn change<R: Wait>(&mut self, rt: &R, alloc: Global, change: Change) -> Result<(), Refusal> {
        let mut held = self.keeper.take(rt, &mut self.pass);
        let changed = held.state().change(alloc, change);
        self.keeper.give(&mut self.pass, held);
        changed
    }
}
