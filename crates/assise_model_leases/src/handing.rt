//! Each step of leases keeps what holds of them, and each other step does too.
ghost use Rattle.std.specs.Prelude.{◌≡◌, ◌≤◌, List, Some, ℕ};
ghost use Rattle.assise_names.specs.declared.mode.Mode.{Mode};
ghost use Rattle.assise_record.specs.LogRecord.{LogRecord};
ghost use Rattle.assise_inode_table.specs.Traces.{NumberedCall};
ghost use Rattle.assise_lease_tree.specs.TwoLevels.{nobody};
ghost use Rattle.assise_model_world.specs.ClientSteps.{Acquires, Releases};
ghost use Rattle.assise_model_world.specs.NodeSteps.{Drops};
ghost use Rattle.assise_model_world.specs.Runs.{begun};
ghost use Rattle.assise_model_world.specs.Invariant.{AreDropped, WorldInvariant};
ghost use Rattle.assise_model_world.specs.Staying.{SameClients, KeepsLeases, SameLogs};
ghost use Rattle.assise_model_world.specs.World.{World};
ghost use Rattle.assise_model_leases.specs.Handing.{Asks, CallsUnder, CoalescesUnder, CrashesWith, FailsWithLeases, FreesNode, Grants, OpensAt, ReleasesReady};
ghost use Rattle.assise_model_leases.specs.Leases.{AreLeases, Leases};

/// At the start nobody holds a lease.
pub fn at_the_start_nobody_holds_a_lease()
    ensures { (nodes : List ℕ) → AreLeases (begun nodes)
        (record { levels = nobody; cut = λ c i. 0 }) }
{}

/// A client more holds nothing.
pub fn an_open_keeps_leases()
    ensures { (w u : World) (l k : Leases) (n : ℕ) → AreLeases w l → OpensAt w l n u k →
        AreLeases u k }
{}

/// A call under leases that serve keeps them: cuts cover its record.
pub fn a_call_keeps_leases()
    ensures { (w u : World) (l : Leases) (x : NumberedCall) → AreLeases w l → CallsUnder w l x u →
        AreLeases u l }
{}

/// A lease is granted against which nobody stands.
pub fn a_grant_keeps_leases()
    ensures acquires { (w u : World) (l k : Leases) (c i : ℕ) (mode : Mode) → AreLeases w l →
        Grants w l c i mode u k → Acquires w c i mode u }
    ensures keeps { (w u : World) (l k : Leases) (c i : ℕ) (mode : Mode) → WorldInvariant w →
        AreLeases w l → Grants w l c i mode u k → AreLeases u k }
{}

/// Those who stand against a client are asked for their leases.
pub fn an_asking_keeps_leases()
    ensures { (w u : World) (l k : Leases) (c i : ℕ) (mode : Mode) → WorldInvariant w →
        AreLeases w l → Asks w l c i mode u k → AreLeases u k }
{}

/// A revoked lease goes once all full nodes have digested what lies before its cut and prefixes of logs are dropped: no record of
/// the client's log touches the inode then. And a node that isn't full gives up its leases with its last client's.
pub fn a_release_keeps_leases()
    ensures releases { (w u : World) (l k : Leases) (c i : ℕ) → AreDropped w → AreLeases w l →
        ReleasesReady w l c i u k → Releases w c i u }
    ensures keeps { (w u : World) (l k : Leases) (c i : ℕ) → AreLeases w l →
        ReleasesReady w l c i u k → AreLeases u k }
    ensures node { (w : World) (l k : Leases) (n : ℕ) → AreLeases w l → FreesNode w l n k →
        AreLeases w k }
{}

/// A client that crashes, or whose node fails, has only revoked leases from then on.
pub fn an_end_keeps_leases()
    ensures crash { (w u : World) (l k : Leases) (c : ℕ) → WorldInvariant w → AreLeases w l →
        CrashesWith w l c u k → AreLeases u k }
    ensures failure { (w u : World) (l k : Leases) (n : ℕ) → WorldInvariant u → AreLeases w l →
        FailsWithLeases w l n u k → AreLeases u k }
{}

/// Dropped prefixes keep leases. So does what leaves logs, clients and leases and lowers no goal: an fsync, deliveries, digests,
/// joins, and what nodes have that aren't full.
pub fn what_leaves_logs_keeps_leases()
    ensures drops { (w u : World) (l : Leases) (f : ℕ → ℕ) → AreLeases w l → Drops w f u →
        AreLeases u l }
    ensures logs { (w u : World) (l : Leases) → SameLogs w u → SameClients w u → KeepsLeases w u →
        ((c : ℕ) → w.goal c ≤ u.goal c) → AreLeases w l → AreLeases u l }
{}

/// Records of which no cut lies among them may give way to others that touch the same inodes.
pub fn an_equal_net_effect_keeps_leases()
    ensures { (w u : World) (l : Leases) (c s : ℕ) (new : List LogRecord) (was : ℕ → ℕ) →
        WorldInvariant w → AreLeases w l → CoalescesUnder w l c s new was u → AreLeases u l }
{}
