//! The whole state of a cluster.
ghost use Rattle.std.specs.Prelude.{◌≡◌, ◌<◌, ◌≤◌, IfOk};

use crate::client_view::ClientView;
use crate::clients::Clients;
use crate::nodes::Nodes;
use assise_history::history::History;
use assise_lease_table::lease::Asked;
use assise_lease_table::revoker::{Revoker, Revokes};
use assise_lease_tree::lease_tree::LeaseTreeOf;
use assise_manager::members::Members;
use assise_private_log::log::Log;
use std::alloc::{AllocError, Global};

/// The whole state of a cluster, level by level (Assise, OSDI 2020, section 3). Nodes and clients are numbered from 1.
pub struct StateOf<C> {
    /// What each node has.
    pub nodes: Nodes,
    /// Which nodes are full, and what the others may have missed.
    pub members: Members,
    /// What is known of each client.
    pub clients: Clients,
    /// Who holds which inode.
    pub leases: LeaseTreeOf<C>,
    /// What clients answered that were asked for their leases, until these go.
    pub cuts: Vec<Asked>,
    /// What was answered and what happened.
    pub history: History,
    /// The most records of a client's log.
    pub limit: usize,
}

// One call lets go of it, wherever it is owned.
impl<C: Drop> Drop for StateOf<C> {
    fn drop(self) {
        let StateOf {
            nodes: _,
            members: _,
            clients: _,
            leases: _,
            cuts: _,
            history: _,
            limit: _,
        } = self;
    }
}

/// A state whose clients store a [`Revoker`].
pub type State = StateOf<Revoker>;

impl<C: Revokes + Drop> StateOf<C> {
    ghost use Rattle.std.specs.Prelude.{◌≡◌, ◌<◌, ◌≤◌, IfOk, false};
    ghost use Rattle.assise_names.specs.declared.limits.TheConstants.{MOST_NODES};
    ghost use Rattle.assise_digest.specs.Region.{AreWhole};
    ghost use Rattle.assise_private_log.specs.NumberedLog.{end};
    ghost use Rattle.assise_manager.specs.Standings.{full_nodes};
    ghost use Rattle.assise_manager.specs.Whole.{membership};
    ghost use Rattle.assise_model_world.specs.World.{digested_by_all, first_unreplicated, received_by_all};
    ghost use Rattle.assise_model_events.specs.Dsyncs.{besides, coalesced_from, most_of};
    ghost use Rattle.assise_model_events.specs.Machine.{begun_as};
    ghost use Rattle.assise_machine_state.specs.ClientValues.{client_in};
    ghost use Rattle.assise_machine_state.specs.NodeValues.{HasLog, log_in, new_regions};
    ghost use Rattle.assise_machine_state.specs.Observed.{inodes_read, own_node, world_of};
    ghost use Rattle.assise_machine_state.specs.Places.{IsNumber};
    ghost use Rattle.assise_machine_state.specs.Invariant.{CutsInvariant, ShapeInvariant};
    ghost use Rattle.assise_machine_state.specs.Whole.{machine_of, value_of};

    /// A cluster in which nothing happened: 1 to `MOST_NODES` full nodes, whose clients' logs have 8 to 4,096 records at
    /// most, and 1 to 4,096 inodes that may be hot.
    pub fn new(
        alloc: Global,
        nodes: u32,
        limit: usize,
        hot_capacity: usize,
    ) -> Result<StateOf<C>, AllocError>
        requires some_nodes { 0 < nodes }
        requires few_nodes { nodes ≤ MOST_NODES }
        requires least_limit { 8 ≤ limit }
        requires most_limit { limit ≤ 4096 }
        requires least_hot { 1 ≤ hot_capacity }
        requires most_hot { hot_capacity ≤ 4096 }
        ensures begun { IfOk result (λ s. machine_of s ≡ begun_as nodes limit hot_capacity) }
        ensures shape { IfOk result (λ s. ShapeInvariant (value_of s)) }
        ensures noted { IfOk result (λ s. CutsInvariant (value_of s)) }
        ensures regions { IfOk result (λ s. s.nodes ≡ new_regions nodes hot_capacity) }
    {
        Ok(StateOf {
            nodes: Nodes::new(alloc, nodes, hot_capacity)?,
            members: Members::new(alloc, nodes)?,
            clients: Clients::new(alloc)?,
            leases: LeaseTreeOf::new(alloc),
            cuts: Vec::new(alloc),
            history: History::new(alloc),
            limit,
        })
    }

    /// The place up to which all full nodes have a client's log: its records below are replicated. It costs the nodes.
    pub fn acked(&self, client: u32) -> u64
        requires client { IsNumber self.now.clients client }
        requires shape { ShapeInvariant (value_of self.now) }
        ensures { result ≡ received_by_all (world_of (value_of self.now)) client }
    {
        let mut least = self.own_log(client).end();
        for node in self.members.full_nodes() {
            let received = self.nodes.log(*node, client).end();
            least = least.min(received);
        }
        least
    }

    /// How many of a client's calls are replicated: those before the first of which some full node may lack a record. It costs the
    /// nodes.
    pub fn replicated_to(&self, client: u32) -> u64
        requires client { IsNumber self.now.clients client }
        requires shape { ShapeInvariant (value_of self.now) }
        ensures { result ≡ first_unreplicated (world_of (value_of self.now)) client }
    {
        let log = self.own_log(client);
        match log.since(self.acked(client)).next() {
            Some(record) => record.call(),
            None => self.clients.get(client).next(),
        }
    }

    /// The place up to which all full nodes have digested a client's log. It costs the nodes.
    pub fn digested(&self, client: u32) -> u64
        requires client { IsNumber self.now.clients client }
        requires shape { ShapeInvariant (value_of self.now) }
        ensures { result ≡ digested_by_all (world_of (value_of self.now)) client }
    {
        let mut least = self.own_log(client).end();
        for node in self.members.full_nodes() {
            let digested = self.nodes.digested(*node, client);
            least = least.min(digested);
        }
        least
    }

    /// Where a client's dsync begins to coalesce: what is to be replicated already stays, and so does what a full node besides
    /// its home has. It costs the nodes.
    pub fn coalesced_from(&self, client: u32) -> u64
        requires client { IsNumber self.now.clients client }
        requires shape { ShapeInvariant (value_of self.now) }
        ensures { result ≡ coalesced_from (world_of (value_of self.now)) client }
    {
        let known = self.clients.get(client);
        let most = known.goal().max(self.acked(client));
        most.max(self.received_besides(client, known.home()))
    }

    /// The greatest place up to which a full node besides this one has a client's log, or 0.
    fn received_besides(&self, client: u32, home: u32) -> u64
        requires client { IsNumber self.now.clients client }
        requires shape { ShapeInvariant (value_of self.now) }
        ensures { result ≡ most_of
            (besides home (full_nodes (membership self.now.members).nodes))
            (λ n. end (log_in self.now.nodes n client).log) }
    {
        let mut most = 0u64;
        for node in self.members.full_nodes() {
            if *node != home {
                let received = self.nodes.log(*node, client).end();
                most = most.max(received);
            }
        }
        most
    }

    /// The node whose log of a client is the client's own: its home, and once that failed the lowest full node, since all full
    /// nodes have the same then.
    pub fn own_node(&self, client: u32) -> u32
        requires client { IsNumber self.now.clients client }
        requires shape { ShapeInvariant (value_of self.now) }
        ensures node { result ≡
            own_node (membership self.now.members).nodes (client_in self.now.clients client) }
        ensures log { HasLog self.now.nodes result client }
    {
        let known = self.clients.get(client);
        if known.has_failed() {
            self.members.full_nodes()[0]
        } else {
            known.home()
        }
    }

    /// That log.
    pub fn own_log(&self, client: u32) -> &Log
        requires client { IsNumber self.now.clients client }
        requires shape { ShapeInvariant (value_of self.now) }
        ensures log { result.now ≡ (log_in self.now.nodes (own_node
            (membership self.now.members).nodes (client_in self.now.clients client)) client).log }
        ensures whole { AreWhole result.now.records }
    {
        self.nodes.log(self.own_node(client), client)
    }

    /// What a client reads whose node hasn't failed since it was opened, with its leases.
    pub fn view(&self, client: u32) -> ClientView<'_, C>
        requires client { IsNumber self.now.clients client }
        requires lives { (client_in self.now.clients client).failed ≡ false }
        requires shape { ShapeInvariant (value_of self.now) }
        ensures client { result.client ≡ client }
        ensures inodes { result.inodes ≡ inodes_read (value_of self.now) client }
        ensures leases { result.leases.now ≡ self.now.leases }
    {
        let home = self.clients.get(client).home();
        ClientView {
            client,
            inodes: self.nodes.region(home).inodes_of(client as usize),
            leases: &self.leases,
        }
    }
}
