//! Who waits for whom.
ghost use Rattle.std.specs.Prelude.{◌≡◌, ◌≢◌, ◌≤◌, true, false, ℕ, Some};
ghost use Rattle.std.specs.List.{list_any};
ghost use Rattle.assise_names.specs.declared.mode.Mode.{Mode};
ghost use Rattle.assise_lease_table.specs.declared.lease.Lease.{Lease};
ghost use Rattle.assise_lease_table.specs.Leases.{serves};
ghost use Rattle.assise_lease_tree.specs.Levels.{in_way};
ghost use Rattle.assise_model_world.specs.Invariant.{WorldInvariant};
ghost use Rattle.assise_model_world.specs.World.{World, digested_by_all, received_by_all};
ghost use Rattle.assise_model_leases.specs.Handing.{Asks, is_newly_revoked};
ghost use Rattle.assise_model_leases.specs.Leases.{AreLeases, IsRevokedLease, Leases, client_lease};

/// What a client still can't have after it asked is awaited: some client holds the inode revoked. Only a lease of another client
/// is revoked by it, which stood against the mode wanted or lay under a lease of its node that did.
pub fn what_is_asked_for_is_awaited()
    ensures awaited { (w u : World) (l k : Leases) (c i : ℕ) (mode : Mode) → Asks w l c i mode u k →
        list_any (λ a. a.revoked) (k.levels.clients i) ≡ true }
    ensures other { (w u : World) (l k : Leases) (c i d : ℕ) (mode : Mode) → Asks w l c i mode u k →
        is_newly_revoked l k d i ≡ true → d ≢ c }
    ensures in_the_way { (w u : World) (l k : Leases) (c i d : ℕ) (mode : Mode) (a : Lease) →
        Asks w l c i mode u k → is_newly_revoked l k d i ≡ true → client_lease l d i ≡ Some a →
        in_way l.levels.home (l.levels.nodes i) c (w.home c) mode a ≡ true }
    ensures elsewhere { (w u : World) (l k : Leases) (c i d j : ℕ) (mode : Mode) →
        Asks w l c i mode u k → j ≢ i → client_lease k d j ≡ client_lease l d j }
{}

/// A revoked lease serves no call, and neither does any lease of a client that crashed or whose node failed.
pub fn a_revoked_lease_serves_no_call()
    ensures revoked { (l : Leases) (c i : ℕ) (mode : Mode) → IsRevokedLease l c i →
        serves (client_lease l c i) mode ≡ false }
    ensures crashed { (w : World) (l : Leases) (c i : ℕ) (mode : Mode) → AreLeases w l →
        w.crashed c ≡ true → serves (client_lease l c i) mode ≡ false }
    ensures failed { (w : World) (l : Leases) (c i : ℕ) (mode : Mode) → AreLeases w l →
        w.lives c ≡ false → serves (client_lease l c i) mode ≡ false }
{}

/// A revoked lease of a client that lives is ready to go once all full nodes have digested what is to be replicated of its log;
/// one of a client whose node failed once they have digested what all of them have.
pub fn no_revoked_lease_is_stuck()
    ensures alive { (w : World) (l : Leases) (c i : ℕ) → AreLeases w l → IsRevokedLease l c i →
        w.lives c ≡ true → w.goal c ≤ digested_by_all w c → l.cut c i ≤ digested_by_all w c }
    ensures left { (w : World) (l : Leases) (c i : ℕ) → WorldInvariant w → AreLeases w l →
        IsRevokedLease l c i → w.lives c ≡ false → received_by_all w c ≤ digested_by_all w c →
        l.cut c i ≤ digested_by_all w c }
{}
