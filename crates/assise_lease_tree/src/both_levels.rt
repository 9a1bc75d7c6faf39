//! The leases of one inode on both levels.
ghost use Rattle.std.specs.Prelude.{◌≡◌, ℕ, nat_eq, [], true, false, is_some, OnOk, OnErr, IsOk};
ghost use Rattle.indexmap.specs.IndexMap.{get};
ghost use Rattle.assise_lease_table.specs.Leases.{new_lease, without_holder, revoke, lease_of};
ghost use Rattle.assise_lease_table.specs.Lists.{HasPlaceIn, is_any};
ghost use Rattle.assise_lease_tree.specs.BothLevels.{is_in_use};
ghost use Rattle.assise_lease_tree.specs.Levels.{is_free, in_way, raised_mode, clients_granted, nodes_granted, nodes_asked, nodes_released};

use crate::levels::{GivenUp, InTheWay, is_busy, is_revoked, raised};
use crate::request::Request;
use assise_lease_table::holders::{
    Leases, lease_of_holder, put_over, put_own, raise_unopposed, reserve_own, revoke_all, take_out,
    take_own_out,
};
use assise_lease_table::lease::{Chooses, Lease, Rivals, is_any_chosen};
use assise_names::mode::Mode;
use indexmap::IndexMap;
use std::alloc::{AllocError, Global};

/// The leases that clients have of an inode, and those that nodes have: each a short list, with room for two in itself.
#[derive(Drop)]
pub(crate) struct BothLevels {
    pub(crate) clients: Leases,
    pub(crate) nodes: Leases,
}

/// The lease that a holder of one of these has once it is given one.
fn granted(leases: &[Lease], holder: u32, mode: Mode) -> Lease
    ensures { result ≡ new_lease holder (raised_mode mode (lease_of leases.now holder)) }
{
    Lease {
        holder,
        mode: raised(mode, lease_of_holder(leases, holder)),
        revoked: false,
    }
}

impl BothLevels {
    /// No leases. They take no memory, and there is room for one on each level.
    pub(crate) fn new(alloc: Global) -> BothLevels
        ensures clients { result.clients.items ≡ [] }
        ensures nodes { result.nodes.items ≡ [] }
        ensures client_room { (c : ℕ) → HasPlaceIn c result.clients }
        ensures node_room { (n : ℕ) → HasPlaceIn n result.nodes }
    {
        BothLevels {
            clients: Leases::new(alloc),
            nodes: Leases::new(alloc),
        }
    }

    /// Whether some client or node has a lease.
    pub(crate) fn is_in_use(&self) -> bool
        ensures exact { result ≡ is_in_use self.now }
        ensures clients { result ≡ false → self.now.clients.items ≡ [] }
        ensures nodes { result ≡ false → self.now.nodes.items ≡ [] }
    {
        !self.clients.is_empty() || !self.nodes.is_empty()
    }

    /// Whether a request is granted at once: nobody stands in its way.
    pub(crate) fn is_free(&self, homes: &IndexMap<u32, u32>, request: Request) -> bool
        ensures { result ≡ is_free (get nat_eq homes.now) self.now.clients.items
            self.now.nodes.items request.client request.node request.mode }
    {
        let way = InTheWay {
            request,
            homes,
            nodes: self.nodes.as_slice(),
        };
        !is_any_chosen(&way, self.clients.as_slice())
            && !is_revoked(lease_of_holder(self.clients.as_slice(), request.client))
            && !is_revoked(lease_of_holder(self.nodes.as_slice(), request.node))
    }

    /// Makes room for a client's lease and its node's. None is asked for where both have one.
    fn reserve(&mut self, client: u32, node: u32) -> Result<(), AllocError>
        ensures clients { self.new.clients.items ≡ self.old.clients.items }
        ensures nodes { self.new.nodes.items ≡ self.old.nodes.items }
        ensures client_room { OnOk result (HasPlaceIn client self.new.clients) }
        ensures node_room { OnOk result (HasPlaceIn node self.new.nodes) }
        ensures held { is_some (lease_of self.old.clients.items client) ≡ true →
            is_some (lease_of self.old.nodes.items node) ≡ true → IsOk result }
    {
        reserve_own(&mut self.clients, client)?;
        reserve_own(&mut self.nodes, node)
    }

    /// Grants a request for which there is room.
    #[tactic(auto, unfolding(crate::specs::Levels::clients_granted, crate::specs::Levels::nodes_granted))]
    pub(crate) fn grant_reserved(&mut self, homes: &IndexMap<u32, u32>, request: Request)
        requires client_room { HasPlaceIn request.client self.old.clients }
        requires node_room { HasPlaceIn request.node self.old.nodes }
        ensures clients { self.new.clients.items ≡ clients_granted request.client request.mode
            self.old.clients.items }
        ensures nodes { self.new.nodes.items ≡ nodes_granted (get nat_eq homes.now)
            self.old.clients.items request.node request.mode self.old.nodes.items }
        ensures in_use { is_in_use self.new ≡ true }
    {
        let Request {
            client,
            node,
            mode,
            ..
        } = request;
        let client_lease = granted(self.clients.as_slice(), client, mode);
        let node_lease = granted(self.nodes.as_slice(), node, mode);
        let given_up = GivenUp {
            request,
            homes,
            clients: self.clients.as_slice(),
        };
        put_over(&mut self.nodes, node_lease, &given_up);
        put_own(&mut self.clients, client_lease);
    }

    /// Grants a request. Where memory runs out, all stays as it was; that never comes where client and node have a lease.
    pub(crate) fn grant(
        &mut self,
        homes: &IndexMap<u32, u32>,
        request: Request,
    ) -> Result<(), AllocError>
        ensures clients { OnOk result (self.new.clients.items ≡ clients_granted request.client
            request.mode self.old.clients.items) }
        ensures nodes { OnOk result (self.new.nodes.items ≡ nodes_granted (get nat_eq homes.now)
            self.old.clients.items request.node request.mode self.old.nodes.items) }
        ensures in_use { OnOk result (is_in_use self.new ≡ true) }
        ensures err_clients { OnErr result (self.new.clients.items ≡ self.old.clients.items) }
        ensures err_nodes { OnErr result (self.new.nodes.items ≡ self.old.nodes.items) }
        ensures held { is_some (lease_of self.old.clients.items request.client) ≡ true →
            is_some (lease_of self.old.nodes.items request.node) ≡ true → IsOk result }
    {
        self.reserve(request.client, request.node)?;
        self.grant_reserved(homes, request);
        Ok(())
    }

    /// Revokes the clients' leases in the way of a request, takes away what nodes give up for it, and asks the nodes that stand
    /// against it. Where none does then, the lease of the client's node is raised.
    pub(crate) fn ask(&mut self, homes: &IndexMap<u32, u32>, request: Request)
        ensures clients { self.new.clients.items ≡ revoke (in_way (get nat_eq homes.now)
            self.old.nodes.items request.client request.node request.mode) self.old.clients.items }
        ensures nodes { self.new.nodes.items ≡ nodes_asked (get nat_eq homes.now)
            self.old.clients.items request.node request.mode self.old.nodes.items }
    {
        let Request { node, mode, .. } = request;
        let way = InTheWay {
            request,
            homes,
            nodes: self.nodes.as_slice(),
        };
        revoke_all(&mut self.clients, &way);
        let given_up = GivenUp {
            request,
            homes,
            clients: self.clients.as_slice(),
        };
        take_out(&mut self.nodes, &given_up);
        revoke_all(&mut self.nodes, &Rivals { holder: node, mode });
        raise_unopposed(&mut self.nodes, node, mode);
    }

    /// Takes a client's lease away, and the asked lease of its node with the last client below.
    pub(crate) fn release(&mut self, homes: &IndexMap<u32, u32>, client: u32, node: u32)
        ensures clients { self.new.clients.items ≡ without_holder client self.old.clients.items }
        ensures nodes { self.new.nodes.items ≡ nodes_released (get nat_eq homes.now)
            (without_holder client self.old.clients.items) node self.old.nodes.items }
    {
        take_own_out(&mut self.clients, client);
        if is_revoked(lease_of_holder(self.nodes.as_slice(), node))
            && !is_busy(homes, self.clients.as_slice(), node)
        {
            take_own_out(&mut self.nodes, node);
        }
    }

    /// Revokes the chosen leases of clients.
    pub(crate) fn revoke<T: Chooses>(&mut self, test: &T)
        ensures clients { self.new.clients.items ≡ revoke (T.choice test.now)
            self.old.clients.items }
        ensures nodes { self.new.nodes ≡ self.old.nodes }
    {
        revoke_all(&mut self.clients, test);
    }

    /// Takes a node's lease out, and says whether some lease is left.
    pub(crate) fn leaves_others(&mut self, node: u32) -> bool
        ensures clients { self.new.clients ≡ self.old.clients }
        ensures nodes { self.new.nodes.items ≡ without_holder node self.old.nodes.items }
        ensures left { result ≡ is_in_use self.new }
    {
        take_own_out(&mut self.nodes, node);
        self.is_in_use()
    }
}
