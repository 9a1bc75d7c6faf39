//! The main thread: what it does with a pass of its own.
ghost use Rattle.std.specs.Prelude.{◌≡◌, ◌↔◌, IfOk, IsTrue, None, is_some, string_bytes, true};
ghost use Rattle.assise_console.specs.declared.response.Response.TheVariants.{Refused};
ghost use Rattle.assise_names.specs.declared.refusal.Refusal.TheVariants.{Busy};
ghost use Rattle.assise_history.specs.Text.{history_text};
ghost use Rattle.assise_keeper.specs.declared.view.Opens.TheVariants.{Alone};
ghost use Rattle.assise_keeper.specs.Passes.{IsPassOf, client as client_of_pass, last, opens, seen};
ghost use Rattle.assise_machine.specs.Clusters.{machine};
ghost use Rattle.assise_threads.specs.LastSeen.{machine_seen};
ghost use Rattle.assise_model_events.specs.Faults.{node_fault};
ghost use Rattle.assise_threads.specs.Lacking.{without_revoker};

use crate::meeting::meet_all;
use crate::takes::{Take, apply};
use assise_console::response::Response;
use assise_history::history::History;
use assise_keeper::keeper::Keeper;
use assise_keeper::pass::Pass;
use assise_lease_table::revoker::{Revoker, Revokes};
use assise_libfs::libfs::LibFs;
use assise_link::link::PerfectLink;
use assise_machine::cluster::ClusterOf;
use assise_names::durability::Durability;
use assise_names::refusal::Refusal;
use assise_workers::gate::OpenGate;
use assise_workers::nodes::{NodeWorkers, workers_up_to};
use assise_workers::worker::{TurnEnd, Worker};
use std::alloc::{AllocError, Global};
use std::sync::Wait;

/// The main thread, whose pass has no client, and alone may open them.
#[derive(Drop)]
pub(crate) struct MainThreadOf<'a, C> {
    keeper: &'a Keeper<ClusterOf<C>>,
    pass: Pass<ClusterOf<C>>,
    ghost ours: { IsPassOf keeper.now pass },
    ghost nobody: { client_of_pass pass ≡ None },
    ghost alone: { opens pass ≡ Alone },
    ghost met: { is_some (last pass) ≡ true },
    ghost known: { seen pass ≡ (machine_seen (last pass)).history },
}

/// The main thread of a cluster whose clients store a [`Revoker`].
pub(crate) type MainThread<'a> = MainThreadOf<'a, Revoker>;

impl<'a, C: Revokes + Drop> MainThreadOf<'a, C> {
    ghost use Rattle.std.specs.Prelude.{◌≡◌, ◌≤◌, IfErr, IfOk, List, None, OnErr, Some, map, string_bytes};
    ghost use Rattle.assise_history.specs.Entries.{EntryValue};
    ghost use Rattle.assise_history.specs.Legal.{IsLegal, calls_made};
    ghost use Rattle.assise_history.specs.Text.{history_text};
    ghost use Rattle.assise_keeper.specs.declared.view.Opens.TheVariants.{Alone};
    ghost use Rattle.assise_keeper.specs.Clients.{Extends};
    ghost use Rattle.assise_keeper.specs.Passes.{IsPassOf, client as client_of_pass, last as last_of, opens, seen};
    ghost use Rattle.assise_machine.specs.Clusters.{machine};
    ghost use Rattle.assise_machine.specs.Following.{IsWorkedTo};
    ghost use Rattle.assise_machine.specs.declared.cluster.ClusterOf.{ClusterOf};
    ghost use Rattle.assise_threads.specs.LastSeen.{machine_seen};
    ghost use Rattle.assise_libfs.specs.Clients.{client_of, keeper_of, limit_of, seen_by};
    ghost use Rattle.assise_libfs.specs.Lives.{EndsWithOpening, OpensNoOther};
    ghost use Rattle.assise_libfs.specs.Opening.{MayRefuseOpen};
    ghost use Rattle.assise_threads.specs.Answered.{CarriesSome, ComesBackInTakes};
    ghost use Rattle.assise_threads.specs.Lacking.{LacksRevoker};
    ghost use Rattle.assise_threads.specs.Hearing.{sights};
    ghost use Rattle.assise_threads.specs.OneHistory.{AreMet};
    ghost use Rattle.assise_threads.specs.Openings.{OpensNone};
    ghost use Rattle.assise_model_events.specs.Events.{open_client, opened, refused};
    ghost use Rattle.assise_threads.specs.Takes.{Happened, InOneTake};
    ghost use Rattle.assise_workers.specs.Working.{node_at, nodes_up_to};
    ghost use Rattle.assise_threads.specs.AtKeeper.{AreAt};
    ghost use Rattle.assise_threads.specs.Threads.{DoesTake, main_keeper, main_seen};

    /// The thread that has the first pass of a keeper.
    pub(crate) fn new(
        keeper: &'a Keeper<ClusterOf<C>>,
        pass: Pass<ClusterOf<C>>,
    ) -> MainThreadOf<'a, C>
        requires pass { IsPassOf keeper.now pass × (client_of_pass pass ≡ None) }
        requires alone { opens pass ≡ Alone }
        requires known { (cluster : ClusterOf C) × (last_of pass ≡ Some cluster) ×
            (seen pass ≡ (machine cluster).history) }
        ensures seen { main_seen result ≡ machine_seen (last_of pass) }
        ensures keeper { main_keeper result ≡ keeper.now }
    {
        MainThreadOf { keeper, pass }
    }

    /// The workers of nodes 1 to this.
    pub(crate) fn workers(
        &mut self,
        alloc: Global,
        last: u32,
    ) -> Result<Vec<NodeWorkers<'a, ClusterOf<C>>>, Refusal>
        ensures seen { main_seen self.new ≡ main_seen self.old }
        ensures keeper { main_keeper self.new ≡ main_keeper self.old }
        ensures nodes { IfOk result (λ nodes. map node_at nodes.items ≡ nodes_up_to last) }
    {
        workers_up_to(alloc, self.keeper, &mut self.pass, last)
    }

    /// Opens a client on a node, with this durability, and no other was opened meanwhile. Refused, the revoker comes back.
    pub(crate) fn open<R: Wait>(
        &mut self,
        rt: &R,
        alloc: Global,
        node: u32,
        revoker: C,
        durability: Durability,
        turns: u32,
    ) -> Result<LibFs<'a, ClusterOf<C>>, (Refusal, C)>
        requires some_turns { 1 ≤ turns }
        requires few_turns { turns ≤ 1000000 }
        ensures keeper { main_keeper self.new ≡ main_keeper self.old }
        ensures at_keeper { IfOk result (λ it. keeper_of it ≡ main_keeper self.old) }
        ensures limit { IfOk result (λ it. limit_of it ≡ turns) }
        ensures opens { IfOk result (λ it. InOneTake
            (Happened (open_client node durability) (opened (client_of it)))
            (main_seen self.old) (main_seen self.new)) }
        ensures refuses { IfErr result (λ back. InOneTake
            (Happened (open_client node durability) (refused back.0))
            (main_seen self.old) (main_seen self.new)) }
        ensures seen { IfOk result (λ it. seen_by it ≡ (main_seen self.new).history) }
        ensures last { IfOk result (λ it. EndsWithOpening (client_of it) node durability
            (main_seen self.old).history (main_seen self.new).history) }
        ensures opened { IfOk result (λ it. OpensNoOther (client_of it) node durability
            (main_seen self.old).history (main_seen self.new).history) }
        ensures none_opened { OnErr result (OpensNone
            (main_seen self.old).history (main_seen self.new).history) }
        ensures no_calls { IfOk result (λ it. calls_made (client_of it) (seen_by it) ≡ 0) }
        ensures refused { IfErr result (λ back.
            MayRefuseOpen node (main_seen self.new).history back.0) }
        ensures given_back { IfErr result (λ back. back.1 ≡ revoker) }
        ensures extends { Extends (main_seen self.new).history (main_seen self.old).history }
    {
        let pass = self.keeper.split_opener(&mut self.pass);
        match LibFs::open(
            rt,
            alloc,
            self.keeper,
            pass,
            node,
            revoker,
            durability,
            turns,
        ) {
            Ok(mut libfs) => {
                self.pass = libfs.split_opener();
                Ok(libfs)
            }
            Err((refusal, pass, revoker)) => {
                self.pass = pass;
                Err((refusal, revoker))
            }
        }
    }

    /// Why no client can be opened on a node where there is no revoker for one.
    #[tactic(auto, using(crate::proofs::Nobodys::given_as_taken))]
    pub(crate) fn refuse_open<R: Wait>(&mut self, rt: &R, node: u32) -> Refusal
        ensures keeper { main_keeper self.new ≡ main_keeper self.old }
        ensures lacks { InOneTake (LacksRevoker node result)
            (main_seen self.old) (main_seen self.new) }
        ensures none_opened { OpensNone
            (main_seen self.old).history (main_seen self.new).history }
    {
        let mut held = self.keeper.take(rt, &mut self.pass);
        let refusal = refusal_without_revoker(held.state(), node);
        self.keeper.give(&mut self.pass, held);
        refusal
    }

    /// One replicate turn of a node, over a perfect link: how many frames were taken in.
    pub(crate) fn carry<R: Wait>(&mut self, rt: &R, alloc: Global, node: u64) -> Response
        ensures carries { CarriesSome node result (main_seen self.old) (main_seen self.new) }
        ensures seen { main_seen self.new ≡ main_seen self.old }
        ensures keeper { main_keeper self.new ≡ main_keeper self.old }
    {
        let Ok(node) = u32::try_from(node) else {
            return Response::Refused(Refusal::BadNode);
        };
        let mut worker = Worker::new(self.keeper, &mut self.pass);
        let mut link = PerfectLink::new();
        match worker.replicate_turn(rt, alloc, node, &mut link, &OpenGate) {
            TurnEnd::Did(count) => Response::Carried(count),
            TurnEnd::Refused(refusal) => Response::Refused(refusal),
            TurnEnd::Stopped => unreachable!(),
        }
    }

    /// Does something in one take.
    pub(crate) fn in_one_take<R: Wait>(&mut self, rt: &R, alloc: Global, take: Take) -> Response
        ensures does { InOneTake (DoesTake take result) (main_seen self.old) (main_seen self.new) }
        ensures none_opened { OpensNone
            (main_seen self.old).history (main_seen self.new).history }
        ensures keeper { main_keeper self.new ≡ main_keeper self.old }
    {
        let mut held = self.keeper.take(rt, &mut self.pass);
        let answer = apply(alloc, held.state(), take);
        self.keeper.give(&mut self.pass, held);
        answer
    }

    /// A node comes back: it begins to, and then gets an inode and tries to join until it is full, `turns` times at most. Behind the last of
    /// these it is refused with [`Refusal::Busy`].
    pub(crate) fn bring_back<R: Wait>(
        &mut self,
        rt: &R,
        alloc: Global,
        node: u64,
        turns: u32,
    ) -> Response
        ensures comes { ComesBackInTakes turns node result
            (main_seen self.old) (main_seen self.new) }
        ensures none_opened { OpensNone
            (main_seen self.old).history (main_seen self.new).history }
        ensures keeper { main_keeper self.new ≡ main_keeper self.old }
    {
        let begun = self.in_one_take(rt, alloc, Take::BeginReturn(node));
        if let Response::Refused(..) = begun {
            return begun;
        }
        for _ in 0..turns {
            let filled = self.in_one_take(rt, alloc, Take::Refill(node));
            if let Response::Refused(..) = filled {
                return filled;
            }
            let joined = self.in_one_take(rt, alloc, Take::Join(node));
            if !is_busy(&joined) {
                return joined;
            }
        }
        Response::Refused(Refusal::Busy)
    }

    /// All clients are told apart no more: there is one history with the calls of all.
    pub(crate) fn end<R: Wait>(self, rt: &R, clients: Vec<LibFs<'a, ClusterOf<C>>>)
        requires at { AreAt (main_keeper self) clients.items }
        ensures { (seen_last : List EntryValue) × AreMet (main_seen self.entry)
            (sights clients.entry.items) seen_last }
    {
        let MainThreadOf { keeper, pass } = self;
        let _ = meet_all(rt, keeper, pass, clients.into_iter());
    }

    /// The text of the history so far.
    #[tactic(auto, using(crate::proofs::Nobodys::given_as_taken))]
    pub(crate) fn history<R: Wait>(&mut self, rt: &R, alloc: Global) -> Result<String, AllocError>
        ensures extends { Extends (main_seen self.new).history (main_seen self.old).history }
        ensures keeper { main_keeper self.new ≡ main_keeper self.old }
        ensures worked { IsWorkedTo (main_seen self.old) (main_seen self.new) }
        ensures legal { ∥ IsLegal (main_seen self.new).history ∥₁ }
        ensures none_opened { OpensNone
            (main_seen self.old).history (main_seen self.new).history }
        ensures text { IfOk result (λ text.
            string_bytes text ≡ history_text (main_seen self.new).history) }
    {
        let mut held = self.keeper.take(rt, &mut self.pass);
        let text = written(alloc, held.state().history());
        self.keeper.give(&mut self.pass, held);
        text
    }
}

/// Whether something is to be tried again.
fn is_busy(answer: &Response) -> bool
    ensures { IsTrue result ↔ (answer.now ≡ Refused Busy) }
{
    matches!(answer, Response::Refused(Refusal::Busy))
}

/// Why no client is opened on a node where all revokers are taken.
fn refusal_without_revoker<C: Revokes + Drop>(cluster: &ClusterOf<C>, node: u32) -> Refusal
    ensures { result ≡ without_revoker (node_fault (machine cluster.now) node) }
{
    match cluster.region(node) {
        Ok(_) => Refusal::BadClient,
        Err(Refusal::WrongPhase) => Refusal::NodeDown,
        Err(refusal) => refusal,
    }
}

/// The text of a history.
fn written(alloc: Global, history: &History) -> Result<String, AllocError>
    ensures { IfOk result (λ text. string_bytes text ≡ history_text history.now.events) }
{
    format!(in alloc; "{history}")
}
