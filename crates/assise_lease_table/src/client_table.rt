//! The leases of clients, and their revokers.
ghost use Rattle.std.specs.Prelude.{◌≡◌, ℕ, true, nat_eq, is_some};
ghost use Rattle.indexmap.specs.IndexMap.{get};
ghost use Rattle.assise_lease_table.specs.LeaseMaps.{leases_at};
ghost use Rattle.assise_lease_table.specs.Leases.{compatible, Among};

use crate::asking::{answers, store};
use crate::holders::{lease_of_holder, may_be_held, serves};
use crate::lease::{Asked, Chooses, Lease, Own, Rivals};
use crate::lease_map::LeaseMap;
use crate::revoker::{Revoker, Revokes};
use crate::views::Views;
use assise_names::mode::Mode;
use assise_names::refusal::Refusal;
use indexmap::IndexMap;
use std::alloc::{AllocError, Global};

/// Which client holds which inode, and what each client stored to be asked (Assise, OSDI 2020, section 3). Two clients
/// hold one inode only if both read, a client has at most one lease of it, and whoever holds one has a revoker.
pub struct ClientTableOf<C> {
    alloc: Global,
    revokers: IndexMap<u32, C>,
    leases: LeaseMap,
    ghost compatible_leases: { (i : ℕ) → compatible (leases_at leases i) ≡ true },
    ghost enrolled: { (i : ℕ) (l : _) → Among (leases_at leases i) l → is_some (get nat_eq revokers l.holder) ≡ true },
}

// One call lets go of it, wherever it is owned.
impl<C: Drop> Drop for ClientTableOf<C> {
    fn drop(self) {
        let ClientTableOf {
            alloc: _,
            revokers: _,
            leases: _,
        } = self;
    }
}

/// A table whose clients store a [`Revoker`].
pub type ClientTable = ClientTableOf<Revoker>;

impl<C: Revokes + Drop> ClientTableOf<C> {
    ghost use Rattle.std.specs.Prelude.{◌≡◌, ◌≢◌, ◌&&◌, ℕ, [], true, false, Some, None, is_some, IsOk, IsOkUnless, OnOk, OnErr, IfErr, IfOk};
    ghost use Rattle.assise_names.specs.declared.refusal.Refusal.TheVariants.{OutOfMemory};
    ghost use Rattle.std.specs.List.{list_any};
    ghost use Rattle.assise_lease_table.specs.Cuts.{is_asked, are_once, are_uncut};
    ghost use Rattle.assise_lease_table.specs.LeaseMaps.{Becomes, SameLeases};
    ghost use Rattle.assise_lease_table.specs.Leases.{Among, with_lease, new_lease, without_holder, revoke, is_own, is_rival, is_to_ask, lease_of, may_be_held, may_raise, serves, IsFree, compatible};
    ghost use Rattle.assise_lease_table.specs.Answers.{AnswerAll};
    ghost use Rattle.assise_lease_table.specs.Tables.{client_leases, revoker_of, HasClientRoom, Enrols, SameRevokers};

    /// No clients. It takes no memory.
    pub fn new(alloc: Global) -> ClientTableOf<C>
        ensures leases { (i : ℕ) → client_leases result i ≡ [] }
        ensures revokers { (c : ℕ) → revoker_of result c ≡ None }
    {
        ClientTableOf {
            alloc,
            revokers: IndexMap::new(alloc),
            leases: LeaseMap::new(alloc),
        }
    }

    /// Whether a client was taken in.
    pub fn is_enrolled(&self, client: u32) -> bool
        ensures { result ≡ is_some (revoker_of self.now client) }
    {
        self.revokers.contains_key(&client)
    }

    /// Takes a client in. The one refusal is [`Refusal::OutOfMemory`], which hands the revoker back.
    pub fn enrol(&mut self, client: u32, revoker: C) -> Result<(), (Refusal, C)>
        requires new { revoker_of self.old client ≡ None }
        ensures ok { OnOk result (Enrols (revoker_of self.old)
            (revoker_of self.new) client revoker) }
        ensures err { OnErr result (SameRevokers (revoker_of self.old) (revoker_of self.new)) }
        ensures given_back { IfErr result (λ back. back ≡ (OutOfMemory, revoker)) }
        ensures leases { SameLeases (client_leases self.old) (client_leases self.new) }
    {
        store(&mut self.revokers, client, revoker)
    }

    /// The leases of an inode.
    pub fn leases(&self, inode: u64) -> &[Lease]
        ensures leases { result.now ≡ client_leases self.now inode }
        ensures compatible { compatible (client_leases self.now inode) ≡ true }
        ensures enrolled { (l : _) → Among (client_leases self.now inode) l →
            is_some (revoker_of self.now l.holder) ≡ true }
    {
        self.leases.leases(inode)
    }

    /// Whether some lease of some inode is chosen. It walks over all leases.
    pub fn is_any_chosen<T: Chooses>(&self, test: &T) -> bool
        ensures none { result ≡ false → (i : ℕ) →
            list_any (T.choice test.now) (client_leases self.now i) ≡ false }
        ensures some { result ≡ true → (i : ℕ) ×
            (list_any (T.choice test.now) (client_leases self.now i) ≡ true) }
    {
        self.leases.is_any_chosen(test)
    }

    /// Each chosen lease that is not revoked, once, with 0 as its cut: no revoker is called. It walks over all leases.
    pub fn unasked<T: Chooses>(&self, test: &T) -> Result<Vec<Asked>, AllocError>
        ensures once { IfOk result (λ asked. are_once asked.items ≡ true) }
        ensures uncut { IfOk result (λ asked. are_uncut asked.items ≡ true) }
        ensures which { IfOk result (λ asked. (c i : ℕ) →
            is_asked asked.items c i ≡ list_any (λ l. is_own c l && is_to_ask (T.choice test.now) l)
            (client_leases self.now i)) }
    {
        let asked = self.leases.unasked(test)?;
        Ok(asked)
    }

    /// A client's lease of an inode.
    pub fn lease(&self, client: u32, inode: u64) -> Option<Lease>
        ensures { result ≡ lease_of (client_leases self.now inode) client }
    {
        lease_of_holder(self.leases.leases(inode), client)
    }

    /// Whether a client's lease serves where the mode is wanted: it is strong enough and not revoked.
    pub fn holds(&self, client: u32, inode: u64, mode: Mode) -> bool
        ensures { result ≡ serves (lease_of (client_leases self.now inode) client) mode }
    {
        serves(self.leases.leases(inode), client, mode)
    }

    /// Whether [`ClientTableOf::hold`] may be called: the client was taken in, its own lease of the inode, if any, is
    /// neither revoked nor stronger, and no other client's stands against the mode.
    pub fn may_hold(&self, client: u32, inode: u64, mode: Mode) -> bool
        ensures exact { result ≡ (is_some (revoker_of self.now client) && may_be_held
            (client_leases self.now inode) client mode) }
        ensures enrolled { result ≡ true → is_some (revoker_of self.now client) ≡ true }
        ensures own { result ≡ true → may_raise
            (lease_of (client_leases self.now inode) client) mode ≡ true }
        ensures free { result ≡ true → IsFree (client_leases self.now inode) client mode }
    {
        self.is_enrolled(client) && may_be_held(self.leases.leases(inode), client, mode)
    }

    /// Makes room for a client's lease of an inode. It takes none where the client has a lease of it.
    pub fn reserve(&mut self, client: u32, inode: u64) -> Result<(), AllocError>
        ensures same { SameLeases (client_leases self.old) (client_leases self.new) }
        ensures room { OnOk result (HasClientRoom self.new client inode) }
        ensures held { is_some (lease_of (client_leases self.old inode) client) ≡ true →
            IsOk result }
        ensures revokers { SameRevokers (revoker_of self.old) (revoker_of self.new) }
    {
        self.leases.reserve(client, inode)?;
        Ok(())
    }

    /// Gives a client a lease for which there is room, in place of its old one. It takes no memory.
    pub fn hold_reserved(&mut self, client: u32, inode: u64, mode: Mode)
        requires enrolled { is_some (revoker_of self.old client) ≡ true }
        requires room { HasClientRoom self.old client inode }
        requires free { IsFree (client_leases self.old inode) client mode }
        ensures becomes { Becomes (client_leases self.old) (client_leases self.new) inode
            (with_lease (new_lease client mode) (client_leases self.old inode)) }
        ensures revokers { SameRevokers (revoker_of self.old) (revoker_of self.new) }
    {
        let lease = Lease {
            holder: client,
            mode,
            revoked: false,
        };
        self.leases.put(inode, lease);
    }

    /// Gives a client a lease that no other client's stands against, in place of its old one, which is neither revoked nor
    /// stronger. Without memory all leases stay as they were; it takes none where the client has a lease of the inode.
    pub fn hold(&mut self, client: u32, inode: u64, mode: Mode) -> Result<(), AllocError>
        requires enrolled { is_some (revoker_of self.old client) ≡ true }
        requires own { may_raise (lease_of (client_leases self.old inode) client) mode ≡ true }
        requires free { IsFree (client_leases self.old inode) client mode }
        ensures ok { OnOk result (Becomes (client_leases self.old) (client_leases self.new) inode
            (with_lease (new_lease client mode) (client_leases self.old inode))) }
        ensures err { OnErr result (SameLeases (client_leases self.old) (client_leases self.new)) }
        ensures held { is_some (lease_of (client_leases self.old inode) client) ≡ true →
            IsOk result }
        ensures revokers { SameRevokers (revoker_of self.old) (revoker_of self.new) }
    {
        self.reserve(client, inode)?;
        self.hold_reserved(client, inode, mode);
        Ok(())
    }

    /// Takes a client's lease of an inode away. It takes no memory.
    pub fn release(&mut self, client: u32, inode: u64)
        ensures becomes { Becomes (client_leases self.old) (client_leases self.new) inode
            (without_holder client (client_leases self.old inode)) }
        ensures revokers { SameRevokers (revoker_of self.old) (revoker_of self.new) }
    {
        self.leases.take(inode, &Own { holder: client });
    }

    /// Freezes a client: all its leases are revoked. No revoker is called, and it takes no memory.
    pub fn freeze(&mut self, client: u32)
        ensures leases { (i : ℕ) → client_leases self.new i ≡ revoke (is_own client)
            (client_leases self.old i) }
        ensures revokers { SameRevokers (revoker_of self.old) (revoker_of self.new) }
    {
        self.leases.revoke_all(client);
    }

    /// Revokes the chosen leases of all inodes. No revoker is called, and it takes no memory.
    pub fn revoke_everywhere<T: Chooses>(&mut self, test: &T)
        ensures leases { (i : ℕ) → client_leases self.new i ≡ revoke (T.choice test.now)
            (client_leases self.old i) }
        ensures revokers { SameRevokers (revoker_of self.old) (revoker_of self.new) }
    {
        self.leases.revoke_everywhere(test);
    }

    /// Revokes the chosen leases of an inode. No revoker is called, and it takes no memory.
    pub fn revoke_chosen<T: Chooses>(&mut self, inode: u64, test: &T)
        ensures becomes { Becomes (client_leases self.old) (client_leases self.new) inode
            (revoke (T.choice test.now) (client_leases self.old inode)) }
        ensures revokers { SameRevokers (revoker_of self.old) (revoker_of self.new) }
    {
        self.leases.revoke(inode, test);
    }

    /// The answers of those whose leases are chosen and not revoked yet. Nothing is revoked. It takes no memory where
    /// nobody is asked.
    pub fn answers<T: Chooses, V: Views>(
        &self,
        inode: u64,
        test: &T,
        views: &V,
    ) -> Result<Vec<Asked>, AllocError>
        requires viewed { (l : _) → Among (client_leases self.now inode) l →
            is_to_ask (T.choice test.now) l ≡ true → is_some (V.view_of views.now l.holder) ≡ true }
        ensures answers { IfOk result (λ asked. AnswerAll C.answers (revoker_of self.now)
            (V.view_of views.now) inode (T.choice test.now)
            (client_leases self.now inode) asked.items) }
        ensures nobody { list_any (is_to_ask (T.choice test.now)) (client_leases self.now inode) ≡
            false → IsOk result }
    {
        let leases = self.leases.leases(inode);
        let asked = answers(self.alloc, &self.revokers, leases, inode, test, views)?;
        Ok(asked)
    }

    /// Asks each other client for its lease that stands against a mode: its revoker is called once, with the client's log,
    /// and the lease is revoked. Who was asked before isn't asked again. The one refusal is [`Refusal::OutOfMemory`], which
    /// leaves all leases as they were and never comes where nobody is asked.
    pub fn ask<V: Views>(
        &mut self,
        inode: u64,
        mode: Mode,
        client: u32,
        views: &V,
    ) -> Result<Vec<Asked>, Refusal>
        requires viewed { (l : _) → Among (client_leases self.old inode) l →
            is_to_ask (is_rival client mode) l ≡ true →
            is_some (V.view_of views.now l.holder) ≡ true }
        ensures asked { IfOk result (λ asked. AnswerAll C.answers (revoker_of self.old)
            (V.view_of views.now) inode (is_rival client mode)
            (client_leases self.old inode) asked.items) }
        ensures revoked { OnOk result (Becomes (client_leases self.old)
            (client_leases self.new) inode (revoke (is_rival client mode)
            (client_leases self.old inode))) }
        ensures err { OnErr result (SameLeases (client_leases self.old) (client_leases self.new)) }
        ensures nobody { list_any (is_to_ask (is_rival client mode))
            (client_leases self.old inode) ≡ false → IsOk result }
        ensures only_memory { IsOkUnless result OutOfMemory }
        ensures revokers { SameRevokers (revoker_of self.old) (revoker_of self.new) }
    {
        let rivals = Rivals {
            holder: client,
            mode,
        };
        let asked = self.answers(inode, &rivals, views)?;
        self.revoke_chosen(inode, &rivals);
        Ok(asked)
    }
}
