//! The leases of clients below their nodes, and of nodes from the manager.
ghost use Rattle.std.specs.Prelude.{◌≡◌, ℕ, nat_eq, true, is_some};
ghost use Rattle.indexmap.specs.IndexMap.{get};
ghost use Rattle.assise_lease_table.specs.Leases.{compatible};
ghost use Rattle.assise_lease_tree.specs.LeaseLevels.{clients_at, nodes_at};
ghost use Rattle.assise_lease_tree.specs.Levels.{Under, AskedBelow};

use crate::acquired::Acquired;
use crate::lease_levels::LeaseLevels;
use crate::levels::{InTheWay, OfNode};
use crate::request::Request;
use assise_lease_table::asking::{answers, store};
use assise_lease_table::holders::serves;
use assise_lease_table::lease::{Asked, Lease, Own};
use assise_lease_table::revoker::{Revoker, Revokes};
use assise_lease_table::views::Views;
use assise_names::mode::Mode;
use assise_names::refusal::Refusal;
use indexmap::IndexMap;
use std::alloc::{AllocError, Global};

/// Who holds which inode on two levels (Assise, OSDI 2020, section 3): the manager delegates leases to nodes, and a node to
/// its clients. On each level two hold one inode only if both read. A client's lease lies under one of its node that is as
/// strong. Below a node's lease that was asked for some client holds the inode, and each that does was asked: such a lease
/// grants nothing.
pub struct LeaseTreeOf<C> {
    alloc: Global,
    homes: IndexMap<u32, u32>,
    revokers: IndexMap<u32, C>,
    leases: LeaseLevels,
    ghost compatible_clients: { (i : ℕ) → compatible (clients_at leases i) ≡ true },
    ghost compatible_nodes: { (i : ℕ) → compatible (nodes_at leases i) ≡ true },
    ghost under: { (i : ℕ) → Under (get nat_eq homes) (clients_at leases i) (nodes_at leases i) },
    ghost asked_below: { (i : ℕ) → AskedBelow (get nat_eq homes) (clients_at leases i) (nodes_at leases i) },
    ghost known: { (c : ℕ) → is_some (get nat_eq homes c) ≡ is_some (get nat_eq revokers c) },
}

// One call lets go of it, wherever it is owned.
impl<C: Drop> Drop for LeaseTreeOf<C> {
    fn drop(self) {
        let LeaseTreeOf {
            alloc: _,
            homes: _,
            revokers: _,
            leases: _,
        } = self;
    }
}

/// A tree whose clients store a [`Revoker`].
pub type LeaseTree = LeaseTreeOf<Revoker>;

impl<C: Revokes + Drop> LeaseTreeOf<C> {
    ghost use Rattle.std.specs.Prelude.{◌≡◌, ◌==◌, ◌&&◌, ℕ, ⊤, true, false, Some, None, is_some, OnOk, OnErr, IfOk, IfErr, IsOk, IsOkUnless};
    ghost use Rattle.assise_names.specs.declared.refusal.Refusal.TheVariants.{OutOfMemory};
    ghost use Rattle.std.specs.List.{list_any};
    ghost use Rattle.assise_lease_table.specs.Answers.{AnswerAll};
    ghost use Rattle.assise_lease_table.specs.Cuts.{is_asked, is_unasked, are_once, are_uncut};
    ghost use Rattle.assise_lease_table.specs.LeaseMaps.{SameLeases};
    ghost use Rattle.assise_lease_table.specs.Leases.{Among, lease_of, serves, is_to_ask, revoke};
    ghost use Rattle.assise_lease_table.specs.Tables.{Enrols};
    ghost use Rattle.assise_lease_tree.specs.Levels.{in_way, is_busy, lives};
    ghost use Rattle.assise_lease_tree.specs.Trees.{KeepsRevokers, levels_of, stored_by};
    ghost use Rattle.assise_lease_tree.specs.Turns.{is_granted, MatchAcquired};
    ghost use Rattle.assise_lease_tree.specs.TwoLevels.{nobody, LevelsInvariant, SameLevels, EnrolsAt, is_free_for, IsGranted, IsAskedFor, ReleasesLease, IsRevoked, IsIdle, IsFreed};

    /// No clients and no leases. It takes no memory.
    pub fn new(alloc: Global) -> LeaseTreeOf<C>
        ensures levels { SameLevels nobody (levels_of result) }
        ensures revokers { (c : ℕ) → stored_by result c ≡ None }
    {
        LeaseTreeOf {
            alloc,
            homes: IndexMap::new(alloc),
            revokers: IndexMap::new(alloc),
            leases: LeaseLevels::new(alloc),
        }
    }

    /// The node of a client, if it was taken in.
    pub fn node_of(&self, client: u32) -> Option<u32>
        ensures { result ≡ (levels_of self.now).home client }
    {
        self.homes.get(&client).copied()
    }

    /// Takes a client of a node in. The one refusal is [`Refusal::OutOfMemory`], which hands the revoker back and leaves
    /// all as it was.
    pub fn enrol(&mut self, client: u32, node: u32, revoker: C) -> Result<(), (Refusal, C)>
        requires new { (levels_of self.old).home client ≡ None }
        ensures ok { OnOk result (EnrolsAt (levels_of self.old) (levels_of self.new) client node) }
        ensures revokers { OnOk result (Enrols (stored_by self.old)
            (stored_by self.new) client revoker) }
        ensures err { OnErr result (SameLevels (levels_of self.old) (levels_of self.new)) }
        ensures err_revokers { OnErr result (KeepsRevokers self.old self.new) }
        ensures given_back { IfErr result (λ back. back ≡ (OutOfMemory, revoker)) }
    {
        let Ok(()) = self.homes.reserve(1) else {
            return Err((Refusal::OutOfMemory, revoker));
        };
        store(&mut self.revokers, client, revoker)?;
        let Ok(_) = self.homes.insert(client, node) else {
            unreachable!()
        };
        Ok(())
    }

    /// The leases that clients have of an inode.
    pub fn leases(&self, inode: u64) -> &[Lease]
        ensures { result.now ≡ (levels_of self.now).clients inode }
    {
        self.leases.clients(inode)
    }

    /// Whether a client's lease serves where the mode is wanted: it is strong enough and not revoked.
    pub fn holds(&self, client: u32, inode: u64, mode: Mode) -> bool
        ensures holds { result ≡ serves (lease_of ((levels_of self.now).clients inode) client)
            mode }
        ensures lawful { LevelsInvariant (levels_of self.now) }
    {
        serves(self.leases.clients(inode), client, mode)
    }

    /// Whether a request is granted at once: nobody stands in its way.
    pub fn is_free(&self, request: Request) -> bool
        ensures { result ≡ is_free_for (levels_of self.now) request.client request.node
            request.inode request.mode }
    {
        self.leases.is_free(&self.homes, request)
    }

    /// Grants a request that nobody stands in the way of. Without memory all leases stay as they were; a lease that is
    /// raised in its place takes none.
    // All room is made before the first change.
    pub fn grant(&mut self, request: Request) -> Result<(), AllocError>
        requires at_home { (levels_of self.old).home request.client ≡ Some request.node }
        requires free { is_free_for (levels_of self.old) request.client request.node request.inode
            request.mode ≡ true }
        ensures granted { OnOk result (IsGranted (levels_of self.old)
            (levels_of self.new) request.client request.node request.inode request.mode) }
        ensures err { OnErr result (SameLevels (levels_of self.old) (levels_of self.new)) }
        ensures raised { is_some (lease_of ((levels_of self.old).clients request.inode)
            request.client) ≡ true → IsOk result }
        ensures revokers { KeepsRevokers self.old self.new }
    {
        self.leases.grant(&self.homes, request)?;
        Ok(())
    }

    /// The answers of those who stand in the way of a request and weren't asked yet. Nothing is revoked. It fails only where memory
    /// runs out, and never where nobody is asked.
    fn answers<V: Views>(&self, request: Request, views: &V) -> Result<Vec<Asked>, AllocError>
        requires viewed { (l : _) → Among ((levels_of self.now).clients request.inode) l →
            l.revoked ≡ false → is_some (V.view_of views.now l.holder) ≡ true }
        ensures answers { IfOk result (λ asked. AnswerAll C.answers (stored_by self.now)
            (V.view_of views.now) request.inode
            (in_way (levels_of self.now).home
            ((levels_of self.now).nodes request.inode) request.client request.node request.mode)
            ((levels_of self.now).clients request.inode) asked.items) }
        ensures nobody { list_any (is_to_ask (in_way (levels_of self.now).home
            ((levels_of self.now).nodes request.inode) request.client request.node request.mode))
            ((levels_of self.now).clients request.inode) ≡ false → IsOk result }
    {
        let inode = request.inode;
        let way = InTheWay {
            request,
            homes: &self.homes,
            nodes: self.leases.nodes(inode),
        };
        let clients = self.leases.clients(inode);
        answers(self.alloc, &self.revokers, clients, inode, &way, views)
    }

    /// Asks those who stand in the way of a request, and answers their cuts. Who was asked before isn't asked again. Where
    /// no other node stands against the mode then, the manager raises the lease of the client's node at once, which takes
    /// no memory. Without memory all leases stay as they were; it takes none where nobody is asked.
    // All answers are there before the first lease is revoked.
    pub fn ask<V: Views>(&mut self, request: Request, views: &V) -> Result<Vec<Asked>, AllocError>
        requires at_home { (levels_of self.old).home request.client ≡ Some request.node }
        requires blocked { is_free_for (levels_of self.old) request.client request.node
            request.inode request.mode ≡ false }
        requires viewed { (l : _) → Among ((levels_of self.old).clients request.inode) l →
            l.revoked ≡ false → is_some (V.view_of views.now l.holder) ≡ true }
        ensures asked { OnOk result (IsAskedFor (levels_of self.old)
            (levels_of self.new) request.client request.node request.inode request.mode) }
        ensures answers { IfOk result (λ asked. AnswerAll C.answers (stored_by self.old)
            (V.view_of views.now) request.inode
            (in_way (levels_of self.old).home
            ((levels_of self.old).nodes request.inode) request.client request.node request.mode)
            ((levels_of self.old).clients request.inode) asked.items) }
        ensures err { OnErr result (SameLevels (levels_of self.old) (levels_of self.new)) }
        ensures nobody { list_any (is_to_ask (in_way (levels_of self.old).home
            ((levels_of self.old).nodes request.inode) request.client request.node request.mode))
            ((levels_of self.old).clients request.inode) ≡ false → IsOk result }
        ensures revokers { KeepsRevokers self.old self.new }
    {
        let asked = self.answers(request, views)?;
        self.leases.ask(&self.homes, request);
        Ok(asked)
    }

    /// Gets a client a lease. It asks its node first, which grants where its own lease was not asked for and is strong
    /// enough and no other local client stands against the mode. Else in one step each local client that stands against
    /// it is asked, and each client of a node that stands against it; a node with no client that holds the inode gives
    /// its lease up at once, and where no other node stands against the mode then, that of the client's node is raised. Where nobody stands against the mode then, the client gets the lease. Who was asked before
    /// isn't asked again. The one refusal is [`Refusal::OutOfMemory`], which leaves all leases as they were; it never comes
    /// where a lease is raised in its place, nor where nobody is asked.
    pub fn acquire<V: Views>(
        &mut self,
        client: u32,
        inode: u64,
        mode: Mode,
        views: &V,
    ) -> Result<Acquired, Refusal>
        requires enrolled { is_some ((levels_of self.old).home client) ≡ true }
        requires viewed { (l : _) → Among ((levels_of self.old).clients inode) l →
            l.revoked ≡ false → is_some (V.view_of views.now l.holder) ≡ true }
        ensures granted { (node : ℕ) → (levels_of self.old).home client ≡ Some node →
            IfOk result (λ acquired. is_granted acquired ≡ is_free_for
            (levels_of self.old) client node inode mode) }
        ensures levels { (node : ℕ) → (levels_of self.old).home client ≡ Some node →
            IfOk result (λ acquired. MatchAcquired acquired
            (IsGranted (levels_of self.old) (levels_of self.new) client node inode mode)
            (λ asked. IsAskedFor (levels_of self.old)
            (levels_of self.new) client node inode mode)) }
        ensures answers { (node : ℕ) → (levels_of self.old).home client ≡ Some node →
            IfOk result (λ acquired. MatchAcquired acquired ⊤
            (AnswerAll C.answers (stored_by self.old) (V.view_of views.now) inode
            (in_way (levels_of self.old).home ((levels_of self.old).nodes inode) client node mode)
            ((levels_of self.old).clients inode))) }
        ensures err { OnErr result (SameLevels (levels_of self.old) (levels_of self.new)) }
        ensures raised { (node : ℕ) → (levels_of self.old).home client ≡ Some node →
            is_free_for (levels_of self.old) client node inode mode ≡ true →
            is_some (lease_of ((levels_of self.old).clients inode) client) ≡ true → IsOk result }
        ensures nobody { (node : ℕ) → (levels_of self.old).home client ≡ Some node →
            is_free_for (levels_of self.old) client node inode mode ≡ false →
            list_any (is_to_ask (in_way (levels_of self.old).home
            ((levels_of self.old).nodes inode) client node mode))
            ((levels_of self.old).clients inode) ≡ false → IsOk result }
        ensures only_memory { IsOkUnless result OutOfMemory }
        ensures revokers { KeepsRevokers self.old self.new }
    {
        let Some(home) = self.homes.get(&client) else {
            unreachable!()
        };
        let request = Request {
            client,
            node: *home,
            inode,
            mode,
        };
        if self.is_free(request) {
            self.grant(request)?;
            return Ok(Acquired::Granted);
        }
        let asked = self.ask(request, views)?;
        Ok(Acquired::Asked(asked))
    }

    /// Takes a client's lease of an inode away, and the asked lease of its node with the last client below. A client that isn't
    /// enrolled has none, and nothing changes. It takes no memory.
    pub fn release(&mut self, client: u32, inode: u64)
        ensures released { (node : ℕ) → (levels_of self.old).home client ≡ Some node →
            ReleasesLease (levels_of self.old) (levels_of self.new) client node inode }
        ensures unknown { (levels_of self.old).home client ≡ None →
            SameLevels (levels_of self.old) (levels_of self.new) }
        ensures revokers { KeepsRevokers self.old self.new }
    {
        let Some(home) = self.homes.get(&client) else {
            return;
        };
        self.leases.release(&self.homes, client, *home, inode);
    }

    /// Freezes a client: all its leases are revoked. No revoker is called, and it takes no memory.
    pub fn freeze(&mut self, client: u32)
        ensures revoked { IsRevoked (levels_of self.old) (levels_of self.new) client }
        ensures revokers { KeepsRevokers self.old self.new }
    {
        self.leases.revoke(&Own { holder: client });
    }

    /// Revokes all leases of a node's clients. No revoker is called, and it takes no memory.
    pub fn revoke_below(&mut self, node: u32)
        ensures home { (c : ℕ) → (levels_of self.new).home c ≡ (levels_of self.old).home c }
        ensures clients { (i : ℕ) → (levels_of self.new).clients i ≡ revoke
            (λ a. lives (levels_of self.old).home a.holder node) ((levels_of self.old).clients i) }
        ensures nodes { SameLeases (levels_of self.old).nodes (levels_of self.new).nodes }
        ensures revokers { KeepsRevokers self.old self.new }
    {
        let of_node = OfNode {
            homes: &self.homes,
            node,
        };
        self.leases.revoke(&of_node);
    }

    /// Each lease of a client that is not revoked, once, with 0 as its cut: no revoker is called. It walks over all leases
    /// of clients.
    pub fn unasked_of(&self, client: u32) -> Result<Vec<Asked>, AllocError>
        ensures once { IfOk result (λ asked. are_once asked.items ≡ true) }
        ensures uncut { IfOk result (λ asked. are_uncut asked.items ≡ true) }
        ensures all { IfOk result (λ asked. (c i : ℕ) →
            is_asked asked.items c i ≡ ((c == client) && is_unasked
            (lease_of ((levels_of self.now).clients i) c))) }
    {
        let asked = self.leases.unasked(&Own { holder: client })?;
        Ok(asked)
    }

    /// Each lease of a node's clients that is not revoked, as [`LeaseTreeOf::unasked_of`] lists those of one client.
    pub fn unasked_below(&self, node: u32) -> Result<Vec<Asked>, AllocError>
        ensures once { IfOk result (λ asked. are_once asked.items ≡ true) }
        ensures uncut { IfOk result (λ asked. are_uncut asked.items ≡ true) }
        ensures all { IfOk result (λ asked. (c i : ℕ) →
            is_asked asked.items c i ≡ (lives (levels_of self.now).home c node && is_unasked
            (lease_of ((levels_of self.now).clients i) c))) }
    {
        let of_node = OfNode {
            homes: &self.homes,
            node,
        };
        let asked = self.leases.unasked(&of_node)?;
        Ok(asked)
    }

    /// Whether no client of a node holds an inode, revoked or not. It walks over all leases of clients.
    pub fn is_idle(&self, node: u32) -> bool
        ensures idle { result ≡ true → IsIdle (levels_of self.now) node }
        ensures busy { result ≡ false → (i : ℕ) ×
            (is_busy (levels_of self.now).home ((levels_of self.now).clients i) node ≡ true) }
    {
        let of_node = OfNode {
            homes: &self.homes,
            node,
        };
        !self.leases.is_any_chosen(&of_node)
    }

    /// Takes all leases of a node away, none of whose clients holds one. It takes no memory.
    pub fn free_node(&mut self, node: u32)
        requires idle { IsIdle (levels_of self.old) node }
        ensures freed { IsFreed (levels_of self.old) (levels_of self.new) node }
        ensures revokers { KeepsRevokers self.old self.new }
    {
        self.leases.free(node);
    }
}
