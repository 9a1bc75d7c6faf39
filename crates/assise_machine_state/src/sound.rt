//! The state as it is between events.
ghost use Rattle.assise_machine_state.specs.Whole.{StateInvariant, machine_of};

use crate::client::Client;
use crate::state::StateOf;
use assise_digest::region::Region;
use assise_history::history::History;
use assise_lease_table::revoker::{Revoker, Revokes};
use assise_manager::phase::Phase;
use assise_names::refusal::Refusal;
use std::alloc::{AllocError, Global};

/// A state that keeps the invariant between events. An event that changes it gives it back so.
#[derive(Drop)]
pub struct SoundOf<C> {
    /// The state.
    pub state: StateOf<C>,
    ghost invariant: { StateInvariant state },
}

/// A state whose clients store a [`Revoker`].
pub type Sound = SoundOf<Revoker>;

impl<C: Revokes + Drop> SoundOf<C> {
    ghost use Rattle.std.specs.Prelude.{◌≡◌, ◌↔◌, ◌<◌, ◌≤◌, Err, IfOk, IsOk, IsOkUnless, None, OnOk, Some};
    ghost use Rattle.assise_names.specs.declared.refusal.Refusal.{Refusal as Refused};
    ghost use Rattle.assise_names.specs.declared.refusal.Refusal.TheVariants.{BadClient};
    ghost use Rattle.assise_names.specs.declared.limits.TheConstants.{MOST_NODES};
    ghost use Rattle.assise_model_world.specs.World.{IsClient, first_unreplicated, received_by_all};
    ghost use Rattle.assise_model_events.specs.Faults.{node_fault};
    ghost use Rattle.assise_model_events.specs.Machine.{begun_as};
    ghost use Rattle.assise_machine_state.specs.ClientValues.{client_in};
    ghost use Rattle.assise_machine_state.specs.NodeValues.{new_regions, region_in};
    ghost use Rattle.assise_machine_state.specs.Places.{IsNumber};

    /// A cluster in which nothing happened: 1 to `MOST_NODES` full nodes, whose clients' logs have 8 to 4,096 records at
    /// most, and 1 to 4,096 inodes that may be hot.
    pub fn new(
        alloc: Global,
        nodes: u32,
        limit: usize,
        hot_capacity: usize,
    ) -> Result<SoundOf<C>, AllocError>
        requires some_nodes { 0 < nodes }
        requires few_nodes { nodes ≤ MOST_NODES }
        requires least_limit { 8 ≤ limit }
        requires most_limit { limit ≤ 4096 }
        requires least_hot { 1 ≤ hot_capacity }
        requires most_hot { hot_capacity ≤ 4096 }
        ensures begun { IfOk result
            (λ s. machine_of s.state ≡ begun_as nodes limit hot_capacity) }
        ensures regions { IfOk result (λ s. s.state.nodes ≡ new_regions nodes hot_capacity) }
    {
        Ok(SoundOf {
            state: StateOf::new(alloc, nodes, limit, hot_capacity)?,
        })
    }

    /// What was answered and what happened, in order.
    pub fn history(&self) -> &History
        ensures { result.now.events ≡ (machine_of self.now.state).history }
    {
        &self.state.history
    }

    /// What a full node has. Refused with [`Refusal::BadNode`] where there is no such node, and [`Refusal::WrongPhase`] where
    /// it isn't full.
    pub fn region(&self, node: u32) -> Result<&Region, Refusal>
        ensures fault { (e : Refused) → node_fault (machine_of self.now.state) node ≡ Some e →
            result ≡ Err e }
        ensures ok { IsOk result ↔ (node_fault (machine_of self.now.state) node ≡ None) }
        ensures region { IfOk result (λ r. r.now ≡ region_in self.now.state.nodes node) }
    {
        match self.state.members.phase(node)? {
            Phase::Full => Ok(self.state.nodes.region(node)),
            Phase::Down | Phase::Returning => Err(Refusal::WrongPhase),
        }
    }

    /// Refused with [`Refusal::BadClient`] where there is no such client.
    fn check_client(&self, client: u32) -> Result<(), Refusal>
        ensures there { OnOk result (IsNumber self.now.state.clients client) }
        ensures ok { IsOk result ↔ IsClient (machine_of self.now.state).world client }
        ensures only_bad { IsOkUnless result BadClient }
    {
        if client == 0 || client as usize > self.state.clients.len() {
            return Err(Refusal::BadClient);
        }
        Ok(())
    }

    /// The place up to which all full nodes have a client's log: its records below are replicated. The one refusal is
    /// [`Refusal::BadClient`]. It costs the nodes.
    pub fn acked(&self, client: u32) -> Result<u64, Refusal>
        ensures acked { IfOk result (λ place. place ≡ received_by_all
            (machine_of self.now.state).world client) }
        ensures ok { IsOk result ↔ IsClient (machine_of self.now.state).world client }
        ensures only_bad { IsOkUnless result BadClient }
    {
        self.check_client(client)?;
        Ok(self.state.acked(client))
    }

    /// How many of a client's calls are replicated: those before the first of which some full node may lack a record. The one refusal is
    /// [`Refusal::BadClient`]. It costs the nodes.
    pub fn replicated_to(&self, client: u32) -> Result<u64, Refusal>
        ensures replicated { IfOk result (λ count. count ≡ first_unreplicated
            (machine_of self.now.state).world client) }
        ensures ok { IsOk result ↔ IsClient (machine_of self.now.state).world client }
        ensures only_bad { IsOkUnless result BadClient }
    {
        self.check_client(client)?;
        Ok(self.state.replicated_to(client))
    }

    /// What is known of a client. The one refusal is [`Refusal::BadClient`].
    pub fn client(&self, client: u32) -> Result<&Client, Refusal>
        ensures known { IfOk result (λ x. x.now ≡ client_in self.now.state.clients client) }
        ensures ok { IsOk result ↔ IsClient (machine_of self.now.state).world client }
        ensures only_bad { IsOkUnless result BadClient }
    {
        self.check_client(client)?;
        Ok(self.state.clients.get(client))
    }
}
