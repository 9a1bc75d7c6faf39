//! The leases of all inodes on both levels.
ghost use Rattle.std.proofs.Props.{props};
ghost use Rattle.std.specs.Prelude.{◌≡◌, ℕ, nat_eq, true};
ghost use Rattle.indexmap.specs.IndexMap.{IsUnique, get};
ghost use Rattle.assise_lease_table.specs.Lists.{is_none_or};
ghost use Rattle.assise_lease_tree.specs.BothLevels.{is_in_use};

use crate::both_levels::BothLevels;
use crate::request::Request;
use assise_lease_table::holders::push_unasked;
use assise_lease_table::lease::{Asked, Chooses, Lease, is_any_chosen};
use indexmap::IndexMap;
use std::alloc::{AllocError, Global};

/// The leases that clients and nodes have of each inode. Both levels of an inode stand in one entry, so a call looks it up
/// once; no entry is empty, so nothing stays for an inode that nobody holds.
pub(crate) struct LeaseLevels {
    alloc: Global,
    inodes: IndexMap<u64, BothLevels>,
    ghost held: { (i : ℕ) → is_none_or is_in_use (get nat_eq inodes i) ≡ true },
    ghost unique: { IsUnique nat_eq inodes } by { Prim.hlevel props },
}

// One call lets go of it, wherever it is owned.
impl Drop for LeaseLevels {
    fn drop(self) {
        let LeaseLevels {
            alloc: _,
            inodes: _,
        } = self;
    }
}

impl LeaseLevels {
    ghost use Rattle.std.specs.Prelude.{◌≡◌, ◌&&◌, ℕ, nat_eq, OnOk, OnErr, IfOk, [], true, false, is_some, IsOk};
    ghost use Rattle.std.specs.List.{list_any};
    ghost use Rattle.indexmap.specs.IndexMap.{get, values};
    ghost use Rattle.assise_lease_table.specs.Cuts.{is_asked, are_once, are_uncut};
    ghost use Rattle.assise_lease_table.specs.LeaseMaps.{Becomes, SameLeases};
    ghost use Rattle.assise_lease_table.specs.Leases.{compatible, is_own, is_to_ask, lease_of, revoke, without_holder};
    ghost use Rattle.assise_lease_tree.specs.LeaseLevels.{clients_at, nodes_at};
    ghost use Rattle.assise_lease_tree.specs.Levels.{is_free, in_way, clients_granted, nodes_granted, nodes_asked, nodes_released};

    /// No leases. It takes no memory.
    pub(crate) fn new(alloc: Global) -> LeaseLevels
        ensures clients { (i : ℕ) → clients_at result i ≡ [] }
        ensures nodes { (i : ℕ) → nodes_at result i ≡ [] }
    {
        LeaseLevels {
            alloc,
            inodes: IndexMap::new(alloc),
        }
    }

    /// The leases that clients have of an inode.
    pub(crate) fn clients(&self, inode: u64) -> &[Lease]
        ensures { result.now ≡ clients_at self.now inode }
    {
        match self.inodes.get(&inode) {
            Some(both) => both.clients.as_slice(),
            None => &[],
        }
    }

    /// The leases that nodes have of an inode.
    pub(crate) fn nodes(&self, inode: u64) -> &[Lease]
        ensures { result.now ≡ nodes_at self.now inode }
    {
        match self.inodes.get(&inode) {
            Some(both) => both.nodes.as_slice(),
            None => &[],
        }
    }

    /// Whether a request is granted at once: nobody stands in its way.
    pub(crate) fn is_free(&self, homes: &IndexMap<u32, u32>, request: Request) -> bool
        ensures { result ≡ is_free (get nat_eq homes.now) (clients_at self.now request.inode)
            (nodes_at self.now request.inode) request.client request.node request.mode }
    {
        match self.inodes.get(&request.inode) {
            Some(both) => both.is_free(homes, request),
            None => true,
        }
    }

    /// Grants a request. Where memory runs out, all stays as it was; that never comes where client and node have a lease.
    pub(crate) fn grant(
        &mut self,
        homes: &IndexMap<u32, u32>,
        request: Request,
    ) -> Result<(), AllocError>
        ensures clients { OnOk result (Becomes (clients_at self.old) (clients_at self.new)
            request.inode (clients_granted request.client request.mode
            (clients_at self.old request.inode))) }
        ensures nodes { OnOk result (Becomes (nodes_at self.old) (nodes_at self.new)
            request.inode (nodes_granted (get nat_eq homes.now) (clients_at self.old request.inode)
            request.node request.mode (nodes_at self.old request.inode))) }
        ensures err_clients { OnErr result (SameLeases (clients_at self.old)
            (clients_at self.new)) }
        ensures err_nodes { OnErr result (SameLeases (nodes_at self.old) (nodes_at self.new)) }
        ensures held { is_some (lease_of (clients_at self.old request.inode) request.client) ≡
            true → is_some (lease_of (nodes_at self.old request.inode) request.node) ≡ true →
            IsOk result }
    {
        if let Some(both) = self.inodes.get_mut(&request.inode) {
            return both.grant(homes, request);
        }
        let mut both = BothLevels::new(self.alloc);
        both.grant_reserved(homes, request);
        self.inodes.insert(request.inode, both)?;
        Ok(())
    }

    /// Revokes the clients' leases in the way of a request, takes away what nodes give up for it, and asks the nodes that stand
    /// against it. Where none does then, the lease of the client's node is raised. It takes no memory.
    #[tactic(auto, unfolding(crate::specs::Levels::nodes_asked))]
    pub(crate) fn ask(&mut self, homes: &IndexMap<u32, u32>, request: Request)
        ensures clients { Becomes (clients_at self.old) (clients_at self.new) request.inode
            (revoke (in_way (get nat_eq homes.now) (nodes_at self.old request.inode)
            request.client request.node request.mode) (clients_at self.old request.inode)) }
        ensures nodes { Becomes (nodes_at self.old) (nodes_at self.new) request.inode
            (nodes_asked (get nat_eq homes.now) (clients_at self.old request.inode)
            request.node request.mode (nodes_at self.old request.inode)) }
    {
        let Some(both) = self.inodes.get_mut(&request.inode) else {
            return;
        };
        both.ask(homes, request);
        if !both.is_in_use() {
            self.inodes.swap_remove(&request.inode);
        }
    }

    /// Takes a client's lease of an inode away, and the asked lease of its node with the last client below. It takes no memory.
    pub(crate) fn release(&mut self, homes: &IndexMap<u32, u32>, client: u32, node: u32, inode: u64)
        ensures clients { Becomes (clients_at self.old) (clients_at self.new) inode
            (without_holder client (clients_at self.old inode)) }
        ensures nodes { Becomes (nodes_at self.old) (nodes_at self.new) inode
            (nodes_released (get nat_eq homes.now)
            (without_holder client (clients_at self.old inode)) node (nodes_at self.old inode)) }
    {
        let Some(both) = self.inodes.get_mut(&inode) else {
            return;
        };
        both.release(homes, client, node);
        if !both.is_in_use() {
            self.inodes.swap_remove(&inode);
        }
    }

    /// Revokes the chosen leases of clients. It walks over all, and takes no memory.
    pub(crate) fn revoke<T: Chooses>(&mut self, test: &T)
        ensures clients { (i : ℕ) → clients_at self.new i ≡ revoke (T.choice test.now)
            (clients_at self.old i) }
        ensures nodes { SameLeases (nodes_at self.old) (nodes_at self.new) }
    {
        self.inodes.retain(|_, both| {
            both.revoke(test);
            true
        });
    }

    /// Takes all leases of a node away. It walks over all, and takes no memory.
    pub(crate) fn free(&mut self, node: u32)
        ensures clients { SameLeases (clients_at self.old) (clients_at self.new) }
        ensures nodes { (i : ℕ) → nodes_at self.new i ≡ without_holder node
            (nodes_at self.old i) }
    {
        self.inodes.retain(|_, both| both.leaves_others(node));
    }

    /// Whether some lease of a client is chosen. It walks over all.
    pub(crate) fn is_any_chosen<T: Chooses>(&self, test: &T) -> bool
        ensures none { result ≡ false → (i : ℕ) →
            list_any (T.choice test.now) (clients_at self.now i) ≡ false }
        ensures some { result ≡ true → (i : ℕ) ×
            (list_any (T.choice test.now) (clients_at self.now i) ≡ true) }
    {
        self.is_any_entry_chosen(test)
    }

    /// Whether some entry has a client's lease that is chosen.
    fn is_any_entry_chosen<T: Chooses>(&self, test: &T) -> bool
        ensures { result ≡ list_any (λ b. list_any (T.choice test.now) b.clients.items)
            (values self.now.inodes) }
    {
        self.inodes
            .values()
            .any(|both| is_any_chosen(test, both.clients.as_slice()))
    }

    /// Each chosen lease of a client that is not revoked, once, with 0 as its cut: nobody is asked. It walks over all.
    pub(crate) fn unasked<T: Chooses>(&self, test: &T) -> Result<Vec<Asked>, AllocError>
        requires compatible { (i : ℕ) → compatible (clients_at self.now i) ≡ true }
        ensures once { IfOk result (λ asked. are_once asked.items ≡ true) }
        ensures uncut { IfOk result (λ asked. are_uncut asked.items ≡ true) }
        ensures which { IfOk result (λ asked. (c i : ℕ) →
            is_asked asked.items c i ≡ list_any (λ l. is_own c l && is_to_ask (T.choice test.now) l)
            (clients_at self.now i)) }
    {
        let mut asked = Vec::new(self.alloc);
        for (inode, both) in self.inodes.iter() {
            push_unasked(&mut asked, *inode, test, both.clients.as_slice())?;
        }
        Ok(asked)
    }
}
