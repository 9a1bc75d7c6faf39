//! Leases by inodes.
ghost use Rattle.std.proofs.Props.{props};
ghost use Rattle.std.specs.Prelude.{◌≡◌, ℕ, nat_eq, true};
ghost use Rattle.indexmap.specs.IndexMap.{IsUnique, get};
ghost use Rattle.assise_lease_table.specs.Lists.{holds_lease};

use crate::holders::{
    Leases, lease_of_holder, leaves_others, push_unasked, put_over, raise_own, revoke_all,
    revoke_chosen, take_out, take_own_out,
};
use crate::lease::{Asked, Chooses, Lease, Own, is_any_chosen};
use assise_names::mode::Mode;
use indexmap::IndexMap;
use std::alloc::{AllocError, Global};

/// The leases of each inode. Few hold one inode, so they stand in a short list; no list is empty, so nothing stays
/// for an inode that nobody holds. Room for an inode's first leases stands in its list itself, which takes memory of
/// its own only where more hold the inode at once.
pub struct LeaseMap {
    alloc: Global,
    inodes: IndexMap<u64, Leases>,
    ghost held: { (i : ℕ) → holds_lease (get nat_eq inodes i) ≡ true },
    ghost unique: { IsUnique nat_eq inodes } by { Prim.hlevel props },
}

// One call lets go of it, wherever it is owned.
impl Drop for LeaseMap {
    fn drop(self) {
        let LeaseMap {
            alloc: _,
            inodes: _,
        } = self;
    }
}

impl LeaseMap {
    ghost use Rattle.std.specs.Prelude.{◌≡◌, ◌&&◌, ℕ, OnOk, IfOk, [], ◌∷◌, true, false, is_some, IsOk};
    ghost use Rattle.std.specs.List.{list_any};
    ghost use Rattle.indexmap.specs.IndexMap.{values};
    ghost use Rattle.assise_lease_table.specs.Cuts.{is_asked, are_once, are_uncut};
    ghost use Rattle.assise_lease_table.specs.LeaseMaps.{leases_at, LeaseHasRoom, Becomes, SameLeases};
    ghost use Rattle.assise_lease_table.specs.Leases.{with_lease, without_holder, leave_out, revoke, is_own, is_to_ask, lease_of, compatible, raise};

    /// No leases. It takes no memory.
    pub fn new(alloc: Global) -> LeaseMap
        ensures { (i : ℕ) → leases_at result i ≡ [] }
    {
        LeaseMap {
            alloc,
            inodes: IndexMap::new(alloc),
        }
    }

    /// The leases of an inode.
    pub fn leases(&self, inode: u64) -> &[Lease]
        ensures { result.now ≡ leases_at self.now inode }
    {
        match self.inodes.get(&inode) {
            Some(leases) => leases.as_slice(),
            None => &[],
        }
    }

    /// Whether some lease of some inode is chosen.
    pub fn is_any_chosen<T: Chooses>(&self, test: &T) -> bool
        ensures none { result ≡ false → (i : ℕ) →
            list_any (T.choice test.now) (leases_at self.now i) ≡ false }
        ensures some { result ≡ true → (i : ℕ) ×
            (list_any (T.choice test.now) (leases_at self.now i) ≡ true) }
    {
        self.is_any_list_chosen(test)
    }

    /// Whether some list has a lease that is chosen.
    fn is_any_list_chosen<T: Chooses>(&self, test: &T) -> bool
        ensures { result ≡ list_any (λ v. list_any (T.choice test.now) v.items)
            (values self.now.inodes) }
    {
        self.inodes
            .values()
            .any(|leases| is_any_chosen(test, leases))
    }

    /// Each chosen lease that is not revoked, once, with 0 as its cut: nobody is asked. It walks over all leases.
    pub fn unasked<T: Chooses>(&self, test: &T) -> Result<Vec<Asked>, AllocError>
        requires compatible { (i : ℕ) → compatible (leases_at self.now i) ≡ true }
        ensures once { IfOk result (λ asked. are_once asked.items ≡ true) }
        ensures uncut { IfOk result (λ asked. are_uncut asked.items ≡ true) }
        ensures which { IfOk result (λ asked. (c i : ℕ) →
            is_asked asked.items c i ≡ list_any (λ l. is_own c l && is_to_ask (T.choice test.now) l)
            (leases_at self.now i)) }
    {
        let mut asked = Vec::new(self.alloc);
        for (inode, leases) in self.inodes.iter() {
            push_unasked(&mut asked, *inode, test, leases)?;
        }
        Ok(asked)
    }

    /// Makes room for a holder's lease of an inode. None is asked for where the holder has a lease of it.
    pub fn reserve(&mut self, holder: u32, inode: u64) -> Result<(), AllocError>
        ensures same { SameLeases (leases_at self.old) (leases_at self.new) }
        ensures room { OnOk result (LeaseHasRoom self.new holder inode) }
        ensures held { is_some (lease_of (leases_at self.old inode) holder) ≡ true → IsOk result }
    {
        if let Some(leases) = self.inodes.get_mut(&inode) {
            if lease_of_holder(leases, holder).is_some() {
                return Ok(());
            }
            return leases.reserve(1);
        }
        self.inodes.reserve(1)
    }

    /// Gives a holder a lease of an inode in place of its old one.
    pub fn put(&mut self, inode: u64, lease: Lease)
        requires { LeaseHasRoom self.old lease.holder inode }
        ensures { Becomes (leases_at self.old) (leases_at self.new) inode
            (with_lease lease (leases_at self.old inode)) }
    {
        if let Some(leases) = self.inodes.get_mut(&inode) {
            take_own_out(leases, lease.holder);
            leases.push_reserved(lease);
            return;
        }
        self.put_first(inode, lease);
    }

    /// Gives a holder a lease of an inode in place of its old one and of the chosen ones.
    pub fn put_over<T: Chooses>(&mut self, inode: u64, lease: Lease, over: &T)
        requires { LeaseHasRoom self.old lease.holder inode }
        ensures { Becomes (leases_at self.old) (leases_at self.new) inode
            (with_lease lease (leave_out (T.choice over.now) (leases_at self.old inode))) }
    {
        if let Some(leases) = self.inodes.get_mut(&inode) {
            put_over(leases, lease, over);
            return;
        }
        self.put_first(inode, lease);
    }

    /// Gives a holder the first lease of an inode.
    fn put_first(&mut self, inode: u64, lease: Lease)
        requires room { LeaseHasRoom self.old lease.holder inode }
        requires first { leases_at self.old inode ≡ [] }
        ensures { Becomes (leases_at self.old) (leases_at self.new) inode (lease ∷ []) }
    {
        let mut leases = Leases::new(self.alloc);
        leases.push_reserved(lease);
        let Ok(_) = self.inodes.insert(inode, leases) else {
            unreachable!()
        };
    }

    /// Takes the chosen leases of an inode away.
    pub fn take<T: Chooses>(&mut self, inode: u64, test: &T)
        ensures { Becomes (leases_at self.old) (leases_at self.new) inode
            (leave_out (T.choice test.now) (leases_at self.old inode)) }
    {
        let Some(leases) = self.inodes.get_mut(&inode) else {
            return;
        };
        take_out(leases, test);
        if leases.is_empty() {
            self.inodes.swap_remove(&inode);
        }
    }

    /// Revokes the chosen leases of an inode.
    pub fn revoke<T: Chooses>(&mut self, inode: u64, test: &T)
        ensures { Becomes (leases_at self.old) (leases_at self.new) inode
            (revoke (T.choice test.now) (leases_at self.old inode)) }
    {
        let Some(leases) = self.inodes.get_mut(&inode) else {
            return;
        };
        revoke_chosen(leases, test);
    }

    /// Raises a holder's lease of an inode to a mode where it is weaker, unless it is revoked.
    pub fn raise(&mut self, inode: u64, holder: u32, mode: Mode)
        ensures { Becomes (leases_at self.old) (leases_at self.new) inode
            (raise holder mode (leases_at self.old inode)) }
    {
        let Some(leases) = self.inodes.get_mut(&inode) else {
            return;
        };
        raise_own(leases, holder, mode);
    }

    /// Revokes the chosen leases of all inodes.
    pub fn revoke_everywhere<T: Chooses>(&mut self, test: &T)
        ensures { (i : ℕ) → leases_at self.new i ≡ revoke (T.choice test.now)
            (leases_at self.old i) }
    {
        self.inodes.retain(|_, leases| {
            revoke_all(leases, test);
            true
        });
    }

    /// Revokes all leases of a holder.
    pub fn revoke_all(&mut self, holder: u32)
        ensures { (i : ℕ) → leases_at self.new i ≡ revoke (is_own holder) (leases_at self.old i) }
    {
        self.revoke_everywhere(&Own { holder });
    }

    /// Takes all leases of a holder away.
    pub fn take_all(&mut self, holder: u32)
        ensures { (i : ℕ) → leases_at self.new i ≡ without_holder holder (leases_at self.old i) }
    {
        self.inodes
            .retain(|_, leases| leaves_others(leases, holder));
    }
}
