//! The threads, each with what it needs.
ghost use Rattle.std.specs.Prelude.{◌≡◌};
ghost use Rattle.assise_keeper.specs.Clients.{MayOpenClients};
ghost use Rattle.assise_keeper.specs.Passes.{IsPassOf, opens};

use crate::mailer::{Mailer, SURVIVOR};
use crate::members::{FAILING, Failing, Operator};
use crate::messages::{drafts, mailbox};
use assise_keeper::keeper::Keeper;
use assise_keeper::pass::Pass;
use assise_libfs::served::Served;
use assise_mail::fault::MailFault;
use assise_workers::nodes::{NodeWorkers, workers_up_to};
use assise_workers::replicated::Replicated;
use std::alloc::Global;
use std::sync::Wait;

/// The threads that deliver.
#[derive(Drop)]
pub struct Writers<'a, S: Served>
where
    S::Stored: Drop,
{
    pub first: Mailer<'a, S>,
    pub second: Mailer<'a, S>,
    pub third: Mailer<'a, S>,
}

impl<'a, S: Served> Writers<'a, S>
where
    S::Stored: Drop,
{
    ghost use Rattle.assise_keeper.specs.Clients.{MayOpenClients};
    ghost use Rattle.assise_keeper.specs.Passes.{IsPassOf, opens};

    /// With a client for each, two on the node that fails.
    fn new<R: Wait>(
        rt: &R,
        alloc: Global,
        keeper: &'a Keeper<S>,
        main: &mut Pass<S>,
        revokers: &mut Vec<S::Stored>,
    ) -> Result<Writers<'a, S>, MailFault>
        requires { IsPassOf keeper.now main.old × MayOpenClients (opens main.old) }
        ensures { IsPassOf keeper.now main.new × MayOpenClients (opens main.new) }
    {
        Ok(Writers {
            first: Mailer::new(rt, alloc, keeper, main, revokers, FAILING)?,
            second: Mailer::new(rt, alloc, keeper, main, revokers, FAILING)?,
            third: Mailer::new(rt, alloc, keeper, main, revokers, SURVIVOR)?,
        })
    }
}

/// The threads that read.
#[derive(Drop)]
pub struct Readers<'a, S: Served>
where
    S::Stored: Drop,
{
    pub first: Mailer<'a, S>,
    pub second: Mailer<'a, S>,
}

impl<'a, S: Served> Readers<'a, S>
where
    S::Stored: Drop,
{
    ghost use Rattle.assise_keeper.specs.Clients.{MayOpenClients};
    ghost use Rattle.assise_keeper.specs.Passes.{IsPassOf, opens};

    /// With a client for each, one on the node that fails.
    fn new<R: Wait>(
        rt: &R,
        alloc: Global,
        keeper: &'a Keeper<S>,
        main: &mut Pass<S>,
        revokers: &mut Vec<S::Stored>,
    ) -> Result<Readers<'a, S>, MailFault>
        requires { IsPassOf keeper.now main.old × MayOpenClients (opens main.old) }
        ensures { IsPassOf keeper.now main.new × MayOpenClients (opens main.new) }
    {
        Ok(Readers {
            first: Mailer::new(rt, alloc, keeper, main, revokers, FAILING)?,
            second: Mailer::new(rt, alloc, keeper, main, revokers, SURVIVOR)?,
        })
    }
}

/// All threads: those that deliver and read, the one at which a node fails, and the one that does what the nodes do.
#[derive(Drop)]
pub struct Crew<'a, S: Served + Replicated + Failing>
where
    S::Stored: Drop,
{
    pub writers: Writers<'a, S>,
    pub readers: Readers<'a, S>,
    pub operator: Operator<'a, S>,
    pub nodes: Vec<NodeWorkers<'a, S>>,
}

impl<'a, S: Served + Replicated + Failing> Crew<'a, S>
where
    S::Stored: Drop,
{
    ghost use Rattle.assise_keeper.specs.Clients.{MayOpenClients};
    ghost use Rattle.assise_keeper.specs.Passes.{IsPassOf, opens};

    /// With a client for each thread that delivers or reads.
    pub fn new<R: Wait>(
        rt: &R,
        alloc: Global,
        keeper: &'a Keeper<S>,
        main: &mut Pass<S>,
        revokers: &mut Vec<S::Stored>,
    ) -> Result<Crew<'a, S>, MailFault>
        requires { IsPassOf keeper.now main.old × MayOpenClients (opens main.old) }
        ensures { IsPassOf keeper.now main.new × MayOpenClients (opens main.new) }
    {
        let nodes = workers_up_to(alloc, keeper, main, SURVIVOR)?;
        let operator = Operator::new(keeper, main);
        let writers = Writers::new(rt, alloc, keeper, main, revokers)?;
        let readers = Readers::new(rt, alloc, keeper, main, revokers)?;
        Ok(Crew {
            writers,
            readers,
            operator,
            nodes,
        })
    }

    /// Makes the mailbox, and the directory of drafts.
    pub fn make_directories<R: Wait>(&mut self, rt: &R, alloc: Global) -> Result<(), MailFault> {
        let maker = &mut self.writers.first;
        let files = &mut maker.files;
        files.mkdir(rt, alloc, drafts(alloc)?)?;
        files.mkdir(rt, alloc, mailbox(alloc)?)?;
        Ok(())
    }
}
