//! The leases of nodes.
ghost use Rattle.std.specs.Prelude.{◌≡◌, ℕ, true};
ghost use Rattle.assise_lease_table.specs.LeaseMaps.{leases_at};
ghost use Rattle.assise_lease_table.specs.Leases.{compatible};

use crate::holders::{lease_of_holder, may_be_held, serves};
use crate::lease::{Chooses, Lease, Own, Rivals, is_any_chosen};
use crate::lease_map::LeaseMap;
use assise_names::mode::Mode;
use std::alloc::{AllocError, Global};

/// Which node holds which inode from the cluster manager (Assise, OSDI 2020, section 3). Two nodes hold one inode only if
/// both read, and a node has at most one lease of it.
#[derive(Drop)]
pub struct NodeTable {
    leases: LeaseMap,
    ghost compatible_leases: { (i : ℕ) → compatible (leases_at leases i) ≡ true },
}

impl NodeTable {
    ghost use Rattle.std.specs.Prelude.{◌≡◌, ℕ, [], true, is_some, OnOk, OnErr, IsOk};
    ghost use Rattle.assise_lease_table.specs.LeaseMaps.{LeaseHasRoom, Becomes, SameLeases};
    ghost use Rattle.assise_lease_table.specs.Leases.{with_lease, new_lease, without_holder, leave_out, revoke, is_own, is_rival, IsFree, compatible, lease_of, may_be_held, may_raise, raise_unopposed, serves};
    ghost use Rattle.assise_lease_table.specs.Tables.{node_leases, HasNodeRoom};

    /// No leases. It takes no memory.
    pub fn new(alloc: Global) -> NodeTable
        ensures { (i : ℕ) → node_leases result i ≡ [] }
    {
        NodeTable {
            leases: LeaseMap::new(alloc),
        }
    }

    /// The leases of an inode.
    pub fn leases(&self, inode: u64) -> &[Lease]
        ensures leases { result.now ≡ node_leases self.now inode }
        ensures compatible { compatible (node_leases self.now inode) ≡ true }
    {
        self.leases.leases(inode)
    }

    /// A node's lease of an inode.
    pub fn lease(&self, node: u32, inode: u64) -> Option<Lease>
        ensures { result ≡ lease_of (node_leases self.now inode) node }
    {
        lease_of_holder(self.leases.leases(inode), node)
    }

    /// Whether a node's lease serves where the mode is wanted: it is strong enough and not revoked.
    pub fn holds(&self, node: u32, inode: u64, mode: Mode) -> bool
        ensures { result ≡ serves (lease_of (node_leases self.now inode) node) mode }
    {
        serves(self.leases.leases(inode), node, mode)
    }

    /// Whether [`NodeTable::hold`] may be called: the node's own lease of the inode, if any, is neither revoked nor
    /// stronger, and no other node's stands against the mode.
    pub fn may_hold(&self, node: u32, inode: u64, mode: Mode) -> bool
        ensures exact { result ≡ may_be_held (node_leases self.now inode) node mode }
        ensures own { result ≡ true → may_raise (lease_of (node_leases self.now inode) node) mode ≡
            true }
        ensures free { result ≡ true → IsFree (node_leases self.now inode) node mode }
    {
        may_be_held(self.leases.leases(inode), node, mode)
    }

    /// Makes room for a node's lease of an inode. It takes none where the node has a lease of it.
    pub fn reserve(&mut self, node: u32, inode: u64) -> Result<(), AllocError>
        ensures same { SameLeases (node_leases self.old) (node_leases self.new) }
        ensures room { OnOk result (HasNodeRoom self.new node inode) }
        ensures held { is_some (lease_of (node_leases self.old inode) node) ≡ true → IsOk result }
    {
        self.leases.reserve(node, inode)?;
        Ok(())
    }

    /// Gives a node a lease for which there is room, in place of its old one. It takes no memory.
    pub fn hold_reserved(&mut self, node: u32, inode: u64, mode: Mode)
        requires room { HasNodeRoom self.old node inode }
        requires free { IsFree (node_leases self.old inode) node mode }
        ensures { Becomes (node_leases self.old) (node_leases self.new) inode
            (with_lease (new_lease node mode) (node_leases self.old inode)) }
    {
        let lease = Lease {
            holder: node,
            mode,
            revoked: false,
        };
        self.leases.put(inode, lease);
    }

    /// Gives a node a lease that no other node's stands against. Without memory all leases stay as they were; it takes none
    /// where the node has a lease of the inode.
    pub fn hold(&mut self, node: u32, inode: u64, mode: Mode) -> Result<(), AllocError>
        requires own { may_raise (lease_of (node_leases self.old inode) node) mode ≡ true }
        requires free { IsFree (node_leases self.old inode) node mode }
        ensures ok { OnOk result (Becomes (node_leases self.old) (node_leases self.new) inode
            (with_lease (new_lease node mode) (node_leases self.old inode))) }
        ensures err { OnErr result (SameLeases (node_leases self.old) (node_leases self.new)) }
        ensures held { is_some (lease_of (node_leases self.old inode) node) ≡ true → IsOk result }
    {
        self.reserve(node, inode)?;
        self.hold_reserved(node, inode, mode);
        Ok(())
    }

    /// Gives a node a lease for which there is room, in place of its old one and of the chosen ones. It takes no memory.
    pub fn hold_over<T: Chooses>(&mut self, node: u32, inode: u64, mode: Mode, over: &T)
        requires room { HasNodeRoom self.old node inode }
        requires free { IsFree (leave_out (T.choice over.now) (node_leases self.old inode)) node
            mode }
        ensures { Becomes (node_leases self.old) (node_leases self.new) inode
            (with_lease (new_lease node mode)
            (leave_out (T.choice over.now) (node_leases self.old inode))) }
    {
        let lease = Lease {
            holder: node,
            mode,
            revoked: false,
        };
        self.leases.put_over(inode, lease, over);
    }

    /// Takes a node's lease of an inode away. It takes no memory.
    pub fn release(&mut self, node: u32, inode: u64)
        ensures { Becomes (node_leases self.old) (node_leases self.new) inode
            (without_holder node (node_leases self.old inode)) }
    {
        self.leases.take(inode, &Own { holder: node });
    }

    /// Takes the chosen leases of an inode away. It takes no memory.
    pub fn take<T: Chooses>(&mut self, inode: u64, test: &T)
        ensures { Becomes (node_leases self.old) (node_leases self.new) inode
            (leave_out (T.choice test.now) (node_leases self.old inode)) }
    {
        self.leases.take(inode, test);
    }

    /// Asks each other node for its lease that stands against a mode: these leases are revoked. It takes no memory.
    pub fn ask(&mut self, inode: u64, mode: Mode, node: u32)
        ensures { Becomes (node_leases self.old) (node_leases self.new) inode
            (revoke (is_rival node mode) (node_leases self.old inode)) }
    {
        self.leases.revoke(inode, &Rivals { holder: node, mode });
    }

    /// Raises a node's lease of an inode to a mode where it is weaker, unless it was asked for or another node's stands against
    /// the mode. It takes no memory.
    pub fn raise(&mut self, inode: u64, node: u32, mode: Mode)
        ensures { Becomes (node_leases self.old) (node_leases self.new) inode
            (raise_unopposed node mode (node_leases self.old inode)) }
    {
        let rivals = Rivals { holder: node, mode };
        if !is_any_chosen(&rivals, self.leases.leases(inode)) {
            self.leases.raise(inode, node, mode);
        }
    }

    /// Freezes a node: all its leases are revoked. It takes no memory.
    pub fn freeze(&mut self, node: u32)
        ensures { (i : ℕ) → node_leases self.new i ≡ revoke (is_own node) (node_leases self.old i) }
    {
        self.leases.revoke_all(node);
    }

    /// Takes all leases of a node away. It takes no memory.
    pub fn free(&mut self, node: u32)
        ensures { (i : ℕ) → node_leases self.new i ≡ without_holder node (node_leases self.old i) }
    {
        self.leases.take_all(node);
    }
}
