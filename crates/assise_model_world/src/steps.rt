//! Each step keeps the invariant.
ghost use Rattle.std.specs.Prelude.{◌≡◌, List, ℕ};
ghost use Rattle.assise_names.specs.declared.mode.Mode.{Mode};
ghost use Rattle.assise_inode_table.specs.Traces.{NumberedCall};
ghost use Rattle.assise_model_world.specs.ClientSteps.{Acquires, Crashes, MakesCall, Opens, RaisesGoals, Releases};
ghost use Rattle.assise_model_world.specs.Coalescing.{Coalesces};
ghost use Rattle.assise_model_world.specs.NodeSteps.{Delivers, Digests, Drops, Fails, Joins, Rests};
ghost use Rattle.assise_model_world.specs.Regrouped.{Regroups};
ghost use Rattle.assise_model_world.specs.Invariant.{AreDropped, WorldInvariant};
ghost use Rattle.assise_model_world.specs.World.{World, digested_by_all, tree};
ghost use Rattle.assise_record.specs.Groups.{all_coalesced};
ghost use Rattle.assise_record.specs.LogRecord.{LogRecord};
ghost use Rattle.assise_seq_tree.specs.Answer.{answer};

/// A client more keeps the invariant.
pub fn an_open_keeps_the_invariant()
    ensures keeps { (w u : World) (n : ℕ) → WorldInvariant w → Opens w n u → WorldInvariant u }
    ensures dropped { (w u : World) (n : ℕ) → AreDropped w → Opens w n u → AreDropped u }
{}

/// A call keeps the invariant, and its reply is that of the tree of all calls before it.
pub fn a_call_keeps_the_invariant()
    ensures keeps { (w u : World) (x : NumberedCall) → WorldInvariant w → MakesCall w x u →
        WorldInvariant u }
    ensures dropped { (w u : World) (x : NumberedCall) → WorldInvariant w → AreDropped w →
        MakesCall w x u → AreDropped u }
    ensures reply { (w u : World) (x : NumberedCall) → WorldInvariant w → MakesCall w x u →
        x.reply ≡ (answer (tree w) x.op).0 }
{}

/// Goals that are raised keep the invariant.
pub fn raised_goals_keep_the_invariant()
    ensures keeps { (w u : World) (k : ℕ → ℕ) → WorldInvariant w → RaisesGoals w k u →
        WorldInvariant u }
    ensures dropped { (w u : World) (k : ℕ → ℕ) → AreDropped w → RaisesGoals w k u → AreDropped u }
{}

/// A crash of a client keeps the invariant.
pub fn a_crash_keeps_the_invariant()
    ensures keeps { (w u : World) (c : ℕ) → WorldInvariant w → Crashes w c u → WorldInvariant u }
    ensures dropped { (w u : World) (c : ℕ) → AreDropped w → Crashes w c u → AreDropped u }
{}

/// A lease that no other client stands against keeps the invariant.
pub fn an_acquisition_keeps_the_invariant()
    ensures keeps { (w u : World) (c i : ℕ) (mode : Mode) → WorldInvariant w →
        Acquires w c i mode u → WorldInvariant u }
    ensures dropped { (w u : World) (c i : ℕ) (mode : Mode) → AreDropped w → Acquires w c i mode u →
        AreDropped u }
{}

/// A lease that is given up keeps the invariant, where none of the client's records touches its inode.
pub fn a_release_keeps_the_invariant()
    ensures keeps { (w u : World) (c i : ℕ) → WorldInvariant w → Releases w c i u →
        WorldInvariant u }
    ensures dropped { (w u : World) (c i : ℕ) → AreDropped w → Releases w c i u → AreDropped u }
{}

/// Records that come to a node keep the invariant.
pub fn a_delivery_keeps_the_invariant()
    ensures keeps { (w u : World) (n c k : ℕ) → WorldInvariant w → Delivers w n c k u →
        WorldInvariant u }
    ensures dropped { (w u : World) (n c k : ℕ) → AreDropped w → Delivers w n c k u → AreDropped u }
{}

/// A digest keeps the invariant: records that all full nodes have go into a full node's area.
pub fn a_digest_keeps_the_invariant()
    ensures { (w u : World) (n c k : ℕ) → WorldInvariant w → Digests w n c k u → WorldInvariant u }
{}

/// Prefixes of logs that all full nodes have digested may be dropped. Once all of them are, each log begins where some full node
/// has not digested it.
pub fn a_drop_keeps_the_invariant()
    ensures keeps { (w u : World) (f : ℕ → ℕ) → WorldInvariant w → Drops w f u → WorldInvariant u }
    ensures dropped { (w u : World) → Drops w (digested_by_all w) u → AreDropped u }
{}

/// A failure of a node keeps the invariant: it takes no record that all full nodes have.
pub fn a_failure_keeps_the_invariant()
    ensures { (w u : World) (n : ℕ) → WorldInvariant w → Fails w n u → WorldInvariant u }
{}

/// A node that gets all that a full one has keeps the invariant.
pub fn a_join_keeps_the_invariant()
    ensures { (w u : World) (n donor : ℕ) → WorldInvariant w → Joins w n donor u →
        WorldInvariant u }
{}

/// What nodes have that aren't full may become anything.
pub fn what_other_nodes_have_is_free()
    ensures keeps { (w u : World) → WorldInvariant w → Rests w u → WorldInvariant u }
    ensures dropped { (w u : World) → AreDropped w → Rests w u → AreDropped u }
{}

/// A client's last records may give way to others with the same net effect on the same inodes between each two borders, where
/// each full node has none of the old ones, or gets all of the new ones.
pub fn an_equal_net_effect_keeps_the_invariant()
    ensures keeps { (w u : World) (c s : ℕ) (new : List LogRecord) (was : ℕ → ℕ) →
        WorldInvariant w → Coalesces w c s new was u → WorldInvariant u }
    ensures dropped { (w u : World) (c s : ℕ) (new : List LogRecord) (was : ℕ → ℕ) →
        WorldInvariant w → AreDropped w → Coalesces w c s new was u → AreDropped u }
{}

/// They may give way so to what is left of them, where they are cut into groups and each group is coalesced.
pub fn regrouped_records_keep_the_invariant()
    ensures coalesces { (w u : World) (c s : ℕ) (gs : List (List LogRecord)) → WorldInvariant w →
        Regroups w c s gs u → (was : ℕ → ℕ) × Coalesces w c s (all_coalesced gs) was u }
    ensures keeps { (w u : World) (c s : ℕ) (gs : List (List LogRecord)) → WorldInvariant w →
        Regroups w c s gs u → WorldInvariant u }
    ensures dropped { (w u : World) (c s : ℕ) (gs : List (List LogRecord)) → WorldInvariant w →
        AreDropped w → Regroups w c s gs u → AreDropped u }
{}
