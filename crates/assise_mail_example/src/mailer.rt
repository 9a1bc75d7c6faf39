//! A thread that delivers or reads, with its client.
ghost use Rattle.assise_keeper.specs.Clients.{MayOpenClients};
ghost use Rattle.assise_keeper.specs.Passes.{IsPassOf, opens};

use assise_keeper::keeper::Keeper;
use assise_keeper::pass::Pass;
use assise_libfs::libfs::LibFs;
use assise_libfs::served::Served;
use assise_mail::fault::MailFault;
use assise_names::durability::Durability;
use assise_names::refusal::Refusal;
use std::alloc::Global;
use std::sync::Wait;

/// The node that doesn't fail.
pub const SURVIVOR: u32 = 2;

/// The turns of a call.
const TURNS: u32 = 1_000_000;

/// A thread's client, and one on the node that doesn't fail, with which it goes on where the client's node fails.
#[derive(Drop)]
pub struct Mailer<'a, S: Served>
where
    S::Stored: Drop,
{
    pub files: LibFs<'a, S>,
    spare: Option<LibFs<'a, S>>,
}

/// Opens a client on a node, with one of the revokers, if there is one left.
fn open_files<'a, S: Served, R: Wait>(
    rt: &R,
    alloc: Global,
    keeper: &'a Keeper<S>,
    main: &mut Pass<S>,
    revokers: &mut Vec<S::Stored>,
    node: u32,
) -> Result<LibFs<'a, S>, MailFault>
where
    S::Stored: Drop,
    requires { IsPassOf keeper.now main.old × MayOpenClients (opens main.old) }
    ensures { IsPassOf keeper.now main.new × MayOpenClients (opens main.new) }
{
    let Some(revoker) = revokers.pop() else {
        return Err(MailFault::Refused(Refusal::BadClient));
    };
    let own = keeper.split_sharing(main);
    let durability = Durability::Pessimistic;
    match LibFs::open(rt, alloc, keeper, own, node, revoker, durability, TURNS) {
        Ok(files) => Ok(files),
        Err((refusal, _, _)) => Err(MailFault::Refused(refusal)),
    }
}

impl<'a, S: Served> Mailer<'a, S>
where
    S::Stored: Drop,
{
    ghost use Rattle.assise_keeper.specs.Clients.{MayOpenClients};
    ghost use Rattle.assise_keeper.specs.Passes.{IsPassOf, opens};

    /// With a client on a node, and one to spare, each of which has one of the revokers.
    pub fn new<R: Wait>(
        rt: &R,
        alloc: Global,
        keeper: &'a Keeper<S>,
        main: &mut Pass<S>,
        revokers: &mut Vec<S::Stored>,
        node: u32,
    ) -> Result<Mailer<'a, S>, MailFault>
        requires { IsPassOf keeper.now main.old × MayOpenClients (opens main.old) }
        ensures { IsPassOf keeper.now main.new × MayOpenClients (opens main.new) }
    {
        let files = open_files(rt, alloc, keeper, main, revokers, node)?;
        let spare = open_files(rt, alloc, keeper, main, revokers, SURVIVOR)?;
        Ok(Mailer {
            files,
            spare: Some(spare),
        })
    }

    /// Goes on with the client on the node that doesn't fail.
    pub fn go_on(&mut self) -> Result<(), MailFault> {
        let Some(spare) = self.spare.take() else {
            return Err(MailFault::Refused(Refusal::BadClient));
        };
        self.files = spare;
        Ok(())
    }
}
