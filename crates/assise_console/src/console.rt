//! A cluster on which a script's commands are run.
ghost use Rattle.std.specs.Prelude.{◌≡◌, ◌<◌, ◌≤◌, IfOk, IsOkUnless, Some, false, map, true};
ghost use Rattle.assise_names.specs.declared.refusal.Refusal.TheVariants.{OutOfMemory};
ghost use Rattle.assise_model_events.specs.Events.{crash, digest, fail, join, raise, refill};
ghost use Rattle.assise_machine_calls.specs.Answers.{turn_answer};
ghost use Rattle.assise_machine.specs.Running.{opened_answer};
ghost use Rattle.assise_console.specs.Consoles.{console_seen, stocks};
ghost use Rattle.assise_rounds.specs.Traces.{Told};
ghost use Rattle.assise_console.specs.State.{begun_console, perfect_links};
ghost use Rattle.assise_console.specs.Stored.{Stores, StoresLast};
ghost use Rattle.assise_console.specs.Steps.{Calls, CarriesFrames, Changes, IsVerdict, Does, OpensClient, Returns, SetsHot, SetsLink, Shows, call_answer, link_kind, return_answer};
ghost use Rattle.assise_console.specs.OneEvent.{IsOne, IsOneAt, Tells};
ghost use Rattle.assise_link.specs.TestLinks.{IsUnusedLink, kind_of_link};
ghost use Rattle.assise_model_events.specs.Faults.{node_fault};
ghost use Rattle.assise_names.specs.declared.refusal.Refusal.TheVariants.{BadNode};
ghost use Rattle.assise_names.specs.declared.limits.TheConstants.{MOST_NODES};
ghost use Rattle.assise_rounds.specs.NodeLinks.{FaithfulAt};

use crate::commands;
use crate::numbered::number_of;
use crate::response::Response;
use crate::stock::Stock;
use assise_fault_script::command::{Command, LinkKind, RevokerKind};
use assise_history::history::History;
use assise_lease_table::revoker::Revokes;
use assise_link::test_link::TestLink;
use assise_machine::cluster::ClusterOf;
use assise_machine::run::open_next;
use assise_machine_calls::turn::Turn;
use assise_names::call::Op;
use assise_names::durability::Durability;
use assise_names::limits::MOST_NODES;
use assise_names::refusal::Refusal;
use assise_names::reply::Reply;
use assise_rounds::returning::return_node;
use assise_rounds::rounds::replicate;
use assise_rounds::trying::try_often;
use std::alloc::Global;
use std::array;

/// A cluster that is run on one thread: a call that is awaited is tried again, with a round of all nodes behind each try.
pub struct ConsoleOf<C> {
    cluster: ClusterOf<C>,
    stock: Stock<C>,
    turns: u32,
    manual: bool,
    links: [TestLink; MOST_NODES as usize],
}

// One call lets go of it, wherever it is owned.
impl<C: Drop> Drop for ConsoleOf<C> {
    fn drop(self) {
        let ConsoleOf {
            cluster: _,
            stock: _,
            turns: _,
            manual: _,
            links: _,
        } = self;
    }
}

impl<C: Revokes + Drop> ConsoleOf<C> {
    /// A cluster in which nothing happened: 1 to `MOST_NODES` nodes, logs of 8 to 4,096 records, and 1 to 4,096 inodes that a node keeps hot.
    /// Clients are opened with revokers of the stock, and a call is tried at most `turns` times. The one refusal is
    /// [`Refusal::OutOfMemory`].
    pub fn new(
        alloc: Global,
        nodes: u32,
        log: usize,
        hot: usize,
        stock: Stock<C>,
        turns: u32,
    ) -> Result<ConsoleOf<C>, Refusal>
        requires some_nodes { 0 < nodes }
        requires few_nodes { nodes ≤ MOST_NODES }
        requires least_log { 8 ≤ log }
        requires most_log { log ≤ 4096 }
        requires least_hot { 1 ≤ hot }
        requires most_hot { hot ≤ 4096 }
        ensures begun { IfOk result (λ console. console_seen console ≡
            begun_console nodes log hot (stocks stock) turns) }
        ensures only_memory { IsOkUnless result OutOfMemory }
    {
        Ok(ConsoleOf {
            cluster: ClusterOf::new(alloc, nodes, log, hot)?,
            stock,
            turns,
            manual: false,
            links: perfect_links(),
        })
    }

    /// What happened so far.
    pub fn history(&self) -> &History
        ensures { result.now.events ≡ (console_seen self.now).machine.history }
    {
        self.cluster.history()
    }

    /// Runs a command, by events on the cluster.
    pub fn step(&mut self, alloc: Global, command: &Command) -> Response
        ensures does { Does (console_seen self.old) command.now result (console_seen self.new) }
        ensures stores { Stores command.now result self.old self.new }
    {
        match command {
            Command::Cluster { .. } => Response::Quiet,
            Command::Manual => {
                self.manual = true;
                Response::Quiet
            }
            Command::Open {
                node,
                kind,
                durability,
            } => self.open(alloc, *node, *kind, *durability),
            Command::Call { client, op } => self.call(alloc, *client, op),
            Command::Carry { node } => self.carry(alloc, *node),
            Command::Link { node, kind } => self.link(*node, *kind),
            Command::Hot { node, capacity } => self.set_hot(*node, *capacity),
            Command::Digest { node } => self.digest(alloc, *node),
            Command::Release => commands::release(&mut self.cluster),
            Command::Crash { client } => self.crash(*client),
            Command::Fail { node } => self.fail(alloc, *node),
            Command::Back { node } => self.back(alloc, *node),
            Command::Refill { node } => self.refill(alloc, *node),
            Command::Join { node } => self.join(alloc, *node),
            Command::Raise { node } => self.raise(*node),
            Command::Tree { node } => self.tree(alloc, *node),
            Command::History => Response::History,
            Command::Check => self.check(alloc),
        }
    }

    /// Opens a client on a node, with a revoker of a kind and this durability.
    fn open(
        &mut self,
        alloc: Global,
        node: u64,
        kind: RevokerKind,
        durability: Durability,
    ) -> Response
        ensures opens { (es : Told) × OpensClient
            (console_seen self.old) node kind durability es result (console_seen self.new) }
        ensures stores { StoresLast kind result self.old self.new }
    {
        let Some(node) = number_of(node) else {
            return Response::Refused(Refusal::BadNode);
        };
        let cluster = &mut self.cluster;
        let stock = &mut self.stock;
        match kind {
            RevokerKind::Least => {
                opened(open_next(alloc, cluster, node, &mut stock.least, durability))
            }
            RevokerKind::Whole => {
                opened(open_next(alloc, cluster, node, &mut stock.whole, durability))
            }
            RevokerKind::Eights => {
                opened(open_next(alloc, cluster, node, &mut stock.eights, durability))
            }
        }
    }

    /// A call of a client: it is tried until it isn't awaited any more, with a round behind each try, or until there is nothing to do
    /// in a round. After `manual` it is tried once.
    fn call(&mut self, alloc: Global, client: u64, op: &Op) -> Response
        ensures { (es : Told) × Changes (Calls (console_seen self.old).manual
            (console_seen self.old).links (console_seen self.old).turns client op.now result)
            (console_seen self.old) es (console_seen self.new) }
    {
        let Some(client) = number_of(client) else {
            return Response::Refused(Refusal::BadClient);
        };
        if self.manual {
            turned(self.cluster.try_call(alloc, client, op))
        } else {
            let links = &mut self.links;
            answered(try_often(alloc, &mut self.cluster, links, client, op, self.turns))
        }
    }

    /// One replicate turn of a node.
    fn carry(&mut self, alloc: Global, node: u64) -> Response
        ensures { (es : Told) ×
            Changes (CarriesFrames (FaithfulAt (console_seen self.old).links node) node result)
            (console_seen self.old) es (console_seen self.new) }
    {
        let Some(node) = number_of(node) else {
            return Response::Refused(Refusal::BadNode);
        };
        if !self.has_node(node) {
            return Response::Refused(Refusal::BadNode);
        }
        let link = &mut self.links[node as usize - 1];
        match replicate(alloc, &mut self.cluster, link, node) {
            Ok(taken) => Response::Carried(taken),
            Err(refusal) => Response::Refused(refusal),
        }
    }

    /// Sets the link of a node anew: its carries are counted from 1.
    fn link(&mut self, node: u64, kind: LinkKind) -> Response
        ensures { SetsLink (console_seen self.old) node kind result (console_seen self.new) }
    {
        let Some(node) = number_of(node) else {
            return Response::Refused(Refusal::BadNode);
        };
        if !self.has_node(node) {
            return Response::Refused(Refusal::BadNode);
        }
        self.links[node as usize - 1] = link_of(kind);
        Response::Linked(node)
    }

    /// Whether there is such a node, full or not.
    fn has_node(&self, node: u32) -> bool
        ensures no { result ≡ false → node_fault (console_seen self.now).machine node ≡
            Some BadNode }
        ensures yes { result ≡ true →
            node_fault (console_seen self.now).machine node ≡ Some BadNode → ⊥ }
    {
        !matches!(self.cluster.region(node), Err(Refusal::BadNode))
    }

    /// `capacity` inodes may be hot at a node.
    fn set_hot(&mut self, node: u64, capacity: u64) -> Response
        ensures { (es : Told) × Changes (SetsHot node capacity result) (console_seen self.old) es
            (console_seen self.new) }
    {
        commands::set_hot(&mut self.cluster, node, capacity)
    }

    /// One digest of a node.
    fn digest(&mut self, alloc: Global, node: u64) -> Response
        ensures { (es : Told) × Changes (IsOne (digest node) result) (console_seen self.old) es
            (console_seen self.new) }
    {
        commands::digest(alloc, &mut self.cluster, node)
    }

    /// A client crashes.
    fn crash(&mut self, client: u64) -> Response
        ensures { (es : Told) × Changes (IsOneAt crash client result) (console_seen self.old) es
            (console_seen self.new) }
    {
        commands::crash(&mut self.cluster, client)
    }

    /// A node fails.
    fn fail(&mut self, alloc: Global, node: u64) -> Response
        ensures { (es : Told) × Changes (IsOneAt fail node result) (console_seen self.old) es
            (console_seen self.new) }
    {
        commands::fail(alloc, &mut self.cluster, node)
    }

    /// A node comes back: it begins to, is filled and joins. After `manual` it begins to.
    fn back(&mut self, alloc: Global, node: u64) -> Response
        ensures { (es : Told) × Changes (Returns (console_seen self.old).manual node result)
            (console_seen self.old) es (console_seen self.new) }
    {
        if self.manual {
            return commands::begin_return(&mut self.cluster, node);
        }
        let Some(node) = number_of(node) else {
            return Response::Refused(Refusal::BadNode);
        };
        returned(node, return_node(alloc, &mut self.cluster, node))
    }

    /// A node that comes back gets one inode that it may lack.
    fn refill(&mut self, alloc: Global, node: u64) -> Response
        ensures { (es : Told) × Changes (IsOneAt refill node result) (console_seen self.old) es
            (console_seen self.new) }
    {
        commands::refill(alloc, &mut self.cluster, node)
    }

    /// A node that comes back and lacks no inode is full again.
    fn join(&mut self, alloc: Global, node: u64) -> Response
        ensures { (es : Told) × Changes (IsOneAt join node result) (console_seen self.old) es
            (console_seen self.new) }
    {
        commands::join(alloc, &mut self.cluster, node)
    }

    /// A full node reads and sends version 2 of frames from here on.
    fn raise(&mut self, node: u64) -> Response
        ensures { (es : Told) ×
            Changes (IsOneAt raise node result) (console_seen self.old) es (console_seen self.new) }
    {
        commands::raise(&mut self.cluster, node)
    }

    /// Whether the history so far is legal.
    fn check(&self, alloc: Global) -> Response
        ensures { IsVerdict result (console_seen self.now).machine }
    {
        commands::check(alloc, &self.cluster)
    }

    /// The tree that a node's region alone gives.
    fn tree(&self, alloc: Global, node: u64) -> Response
        ensures { Shows node result (console_seen self.now).machine }
    {
        commands::tree(alloc, &self.cluster, node)
    }
}

/// A link for each node that there may be, all perfect.
fn perfect_links() -> [TestLink; MOST_NODES as usize]
    ensures { map kind_of_link result ≡ perfect_links }
{
    array::from_fn(|_| TestLink::perfect())
}

/// A new link of a kind.
fn link_of(kind: LinkKind) -> TestLink
    ensures { IsUnusedLink (link_kind kind) result }
{
    match kind {
        LinkKind::Perfect => TestLink::perfect(),
        LinkKind::Lose => TestLink::lose(),
        LinkKind::Repeat => TestLink::repeat(),
        LinkKind::Delay => TestLink::delay(),
        LinkKind::Cut(most) => TestLink::cut(most as usize),
        LinkKind::Fault => TestLink::fault(),
    }
}

/// What an open is answered with.
fn opened(client: Result<u32, Refusal>) -> Response
    ensures { Tells result (opened_answer client) }
{
    match client {
        Ok(client) => Response::Client(client),
        Err(refusal) => Response::Refused(refusal),
    }
}

/// What a try is answered with.
fn turned(turn: Result<Turn, Refusal>) -> Response
    ensures { Tells result (turn_answer turn) }
{
    match turn {
        Ok(Turn::Answered(reply)) => Response::Replied(reply),
        Ok(Turn::NotYet) => Response::Waits,
        Err(refusal) => Response::Refused(refusal),
    }
}

/// What a call is answered with that isn't awaited any more.
fn answered(reply: Result<Reply, Refusal>) -> Response
    ensures { result ≡ call_answer reply }
{
    match reply {
        Ok(reply) => Response::Replied(reply),
        Err(refusal) => Response::Refused(refusal),
    }
}

/// What the return of a node is answered with.
fn returned(node: u32, joined: Result<(), Refusal>) -> Response
    ensures { result ≡ return_answer node joined }
{
    match joined {
        Ok(()) => Response::Returned(node),
        Err(refusal) => Response::Refused(refusal),
    }
}
