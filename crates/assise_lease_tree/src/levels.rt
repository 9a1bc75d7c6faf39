//! The leases of one inode on two levels.
ghost use Rattle.std.specs.Prelude.{◌≡◌, ◌&&◌, ℕ, nat_eq};
ghost use Rattle.std.specs.List.{list_any};
ghost use Rattle.indexmap.specs.IndexMap.{get};
ghost use Rattle.assise_lease_table.specs.Leases.{is_rival};
ghost use Rattle.assise_lease_table.specs.Modes.{against};
ghost use Rattle.assise_lease_tree.specs.Levels.{lives, is_busy, is_revoked, raised_mode};

use crate::request::Request;
use assise_lease_table::lease::{Chooses, Lease, Rivals, is_against, stronger_of};
use assise_names::mode::Mode;
use indexmap::IndexMap;

/// Whether a client is one of a node.
pub(crate) fn is_home(homes: &IndexMap<u32, u32>, client: u32, node: u32) -> bool
    ensures { result ≡ lives (get nat_eq homes.now) client node }
{
    match homes.get(&client) {
        Some(home) => *home == node,
        None => false,
    }
}

/// Whether a lease is there and was asked for.
pub(crate) fn is_revoked(lease: Option<Lease>) -> bool
    ensures { result ≡ is_revoked lease }
{
    lease.is_some_and(|lease| lease.revoked)
}

/// The mode that a holder has once it is given one.
pub(crate) fn raised(mode: Mode, lease: Option<Lease>) -> Mode
    ensures { result ≡ raised_mode mode lease }
{
    match lease {
        Some(lease) => stronger_of(lease.mode, mode),
        None => mode,
    }
}

/// Whether the lease of the client's node stands against another node's mode.
fn is_under_rival(homes: &IndexMap<u32, u32>, nodes: &[Lease], client: u32, rivals: &Rivals) -> bool
    ensures { result ≡ list_any (λ k. lives (get nat_eq homes.now) client k.holder &&
        is_rival rivals.now.holder rivals.now.mode k) nodes.now }
{
    for lease in nodes {
        if is_home(homes, client, lease.holder) && rivals.chooses(lease) {
            return true;
        }
    }
    false
}

/// Whether some client of a node holds the inode.
pub(crate) fn is_busy(homes: &IndexMap<u32, u32>, clients: &[Lease], node: u32) -> bool
    ensures { result ≡ is_busy (get nat_eq homes.now) clients.now node }
{
    for lease in clients {
        if is_home(homes, lease.holder, node) {
            return true;
        }
    }
    false
}

/// Whether the lease is of a client of the node and stands against the mode.
fn is_local_against(homes: &IndexMap<u32, u32>, lease: &Lease, node: u32, mode: Mode) -> bool
    ensures { result ≡ (lives (get nat_eq homes.now) lease.now.holder node &&
        against mode lease.now.mode) }
{
    is_home(homes, lease.holder, node) && is_against(mode, lease.mode)
}

/// The clients' leases that stand in the way of a request.
#[derive(Drop)]
pub(crate) struct InTheWay<'a> {
    pub(crate) request: Request,
    pub(crate) homes: &'a IndexMap<u32, u32>,
    pub(crate) nodes: &'a [Lease],
}

impl Chooses for InTheWay<'_> {
    ghost use Rattle.std.specs.Prelude.{nat_eq};
    ghost use Rattle.indexmap.specs.IndexMap.{get};
    ghost use Rattle.assise_lease_tree.specs.Levels.{in_way};

    ghost choice = { λ t l. in_way (get nat_eq t.homes.now) t.nodes.now t.request.client t.request.node t.request.mode l };

    #[tactic(auto, unfolding(crate::specs::Levels::in_way))]
    fn chooses(&self, lease: &Lease) -> bool {
        let Request {
            client,
            node,
            mode,
            ..
        } = self.request;
        let rivals = Rivals { holder: node, mode };
        lease.holder != client
            && (is_local_against(self.homes, lease, node, mode)
                || is_under_rival(self.homes, self.nodes, lease.holder, &rivals))
    }
}

/// The nodes' leases that are given up for a request: they stand against its mode, and no client below holds the inode.
#[derive(Drop)]
pub(crate) struct GivenUp<'a> {
    pub(crate) request: Request,
    pub(crate) homes: &'a IndexMap<u32, u32>,
    pub(crate) clients: &'a [Lease],
}

impl Chooses for GivenUp<'_> {
    ghost use Rattle.std.specs.Prelude.{nat_eq};
    ghost use Rattle.indexmap.specs.IndexMap.{get};
    ghost use Rattle.assise_lease_tree.specs.Levels.{gives_up};

    ghost choice = { λ t k. gives_up (get nat_eq t.homes.now) t.clients.now t.request.node t.request.mode k };

    fn chooses(&self, lease: &Lease) -> bool {
        let Request { node, mode, .. } = self.request;
        let rivals = Rivals { holder: node, mode };
        rivals.chooses(lease) && !is_busy(self.homes, self.clients, lease.holder)
    }
}

/// The leases of the clients of a node.
#[derive(Drop)]
pub(crate) struct OfNode<'a> {
    pub(crate) homes: &'a IndexMap<u32, u32>,
    pub(crate) node: u32,
}

impl Chooses for OfNode<'_> {
    ghost use Rattle.std.specs.Prelude.{nat_eq};
    ghost use Rattle.indexmap.specs.IndexMap.{get};
    ghost use Rattle.assise_lease_tree.specs.Levels.{lives};

    ghost choice = { λ t l. lives (get nat_eq t.homes.now) l.holder t.node };

    fn chooses(&self, lease: &Lease) -> bool {
        is_home(self.homes, lease.holder, self.node)
    }
}
