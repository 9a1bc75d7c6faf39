//! What the laws observe of a node that fails, and of one that comes back.
ghost use Rattle.std.specs.Prelude.{◌≡◌, List, length, None, Option, Some, ℕ};
ghost use Rattle.std.specs.Ordering.{nat_cmp};
ghost use Rattle.std.specs.FinSet as set;
ghost use Rattle.assise_inode_table.specs.Contents.{Content};
ghost use Rattle.assise_lease_table.specs.declared.lease.Asked.{Asked};
ghost use Rattle.assise_lease_table.specs.LeaseMaps.{SameLeases as SameLeasesOf};
ghost use Rattle.assise_lease_table.specs.Leases.{revoke};
ghost use Rattle.assise_lease_tree.specs.Levels.{lives};
ghost use Rattle.assise_lease_tree.specs.TwoLevels.{TwoLevels};
ghost use Rattle.assise_manager.specs.Changes.{failure_fault, join_fault};
ghost use Rattle.assise_manager.specs.Membership.{IsMembership, Membership};
ghost use Rattle.assise_manager.specs.Standings.{full, returning, standing_of};
ghost use Rattle.assise_model_world.specs.NodeSteps.{Rests};
ghost use Rattle.assise_model_world.specs.Invariant.{WorldInvariant};
ghost use Rattle.assise_model_world.specs.World.{Full};
ghost use Rattle.assise_model_leases.specs.Handing.{FailsWithLeases as LeasesFail};
ghost use Rattle.assise_model_leases.specs.Leases.{AreLeases};
ghost use Rattle.assise_model_members.specs.Returns.{Rejoins};
ghost use Rattle.assise_model_history.specs.State.{IsRecorded};
ghost use Rattle.assise_model_events.specs.Machine.{state_of};
ghost use Rattle.assise_machine_state.specs.Changes.{after_failure, after_inode, after_join, after_members};
ghost use Rattle.assise_machine_state.specs.Observed.{is_full_in, observed, world_of};
ghost use Rattle.assise_machine_state.specs.Places.{IsNumber};
ghost use Rattle.assise_machine_state.specs.Invariant.{AreLeft, CutsInvariant, ShapeInvariant};
ghost use Rattle.assise_machine_state.specs.StateValues.{StateValue, leases_of, standings};

/// A full node that fails, where another is left.
pub fn a_failure_is_observed()
    ensures fails { (s : StateValue) (n : ℕ) (inodes : set.FinSet nat_cmp) (levels : TwoLevels)
        (asked : List Asked) → ShapeInvariant s → WorldInvariant (world_of s) →
        IsRecorded (state_of (observed s)) → standing_of (standings s) n ≡ Some full →
        failure_fault s.members n ≡ None → ((c : ℕ) → levels.home c ≡ s.levels.home c) →
        ((i : ℕ) → levels.clients i ≡ revoke (λ a. lives s.levels.home a.holder n)
        (s.levels.clients i)) → SameLeasesOf s.levels.nodes levels.nodes →
        AreLeft s (λ c. lives s.levels.home c n) asked → AreLeases (world_of s) (leases_of s) →
        LeasesFail (world_of s) (leases_of s) n (world_of (after_failure s n inodes levels asked))
        (leases_of (after_failure s n inodes levels asked)) }
    ensures areas { (s : StateValue) (n k i : ℕ) (inodes : set.FinSet nat_cmp) (levels : TwoLevels)
        (asked : List Asked) → (world_of (after_failure s n inodes levels asked)).area k i ≡
        (world_of s).area k i }
    ensures shape { (s : StateValue) (n : ℕ) (inodes : set.FinSet nat_cmp) (levels : TwoLevels)
        (asked : List Asked) → ShapeInvariant s → WorldInvariant (world_of s) →
        standing_of (standings s) n ≡ Some full → failure_fault s.members n ≡ None →
        ShapeInvariant (after_failure s n inodes levels asked) }
    ensures noted { (s : StateValue) (n : ℕ) (inodes : set.FinSet nat_cmp) (levels : TwoLevels)
        (asked : List Asked) → CutsInvariant s → AreLeases (world_of s) (leases_of s) →
        ((i : ℕ) → levels.clients i ≡ revoke (λ a. lives s.levels.home a.holder n)
        (s.levels.clients i)) → AreLeft s (λ c. lives s.levels.home c n) asked →
        CutsInvariant (after_failure s n inodes levels asked) }
{}

/// An inode of a node that isn't full.
pub fn an_inode_away_is_observed()
    ensures rests { (s : StateValue) (n i : ℕ) (v : Option Content) → (Full (world_of s) n → ⊥) →
        IsNumber s.nodes n → Rests (world_of s) (world_of (after_inode s n i v)) }
    ensures here { (s : StateValue) (n i : ℕ) (v : Option Content) → IsNumber s.nodes n →
        (world_of (after_inode s n i v)).area n i ≡ v }
    ensures elsewhere { (s : StateValue) (n i k j : ℕ) (v : Option Content) → IsNumber s.nodes n →
        (k ≡ n → j ≡ i → ⊥) → (world_of (after_inode s n i v)).area k j ≡ (world_of s).area k j }
    ensures shape { (s : StateValue) (n i : ℕ) (v : Option Content) → ShapeInvariant s →
        IsNumber s.nodes n → ShapeInvariant (after_inode s n i v) }
{}

/// Members of which the same are full.
pub fn members_are_observed()
    ensures rests { (s : StateValue) (m : Membership) → length m.nodes ≡ length (standings s) →
        ((n : ℕ) → is_full_in m.nodes n ≡ is_full_in (standings s) n) →
        Rests (world_of s) (world_of (after_members s m)) }
    ensures areas { (s : StateValue) (m : Membership) (n i : ℕ) →
        (world_of (after_members s m)).area n i ≡ (world_of s).area n i }
    ensures shape { (s : StateValue) (m : Membership) → ShapeInvariant s →
        length m.nodes ≡ length (standings s) →
        ((n : ℕ) → is_full_in m.nodes n ≡ is_full_in (standings s) n) →
        ShapeInvariant (after_members s m) }
{}

/// A node that is full again.
pub fn a_return_is_observed()
    ensures rejoins { (s : StateValue) (n since donor : ℕ) (stale : set.FinSet nat_cmp) →
        ShapeInvariant s → WorldInvariant (world_of s) → IsMembership s.members →
        standing_of (standings s) n ≡ Some (returning since donor stale) →
        join_fault s.members n ≡ None → Rejoins (world_of s) s.members n
        (world_of (after_join s n donor)) (after_join s n donor).members }
    ensures shape { (s : StateValue) (n since donor : ℕ) (stale : set.FinSet nat_cmp) →
        ShapeInvariant s → WorldInvariant (world_of s) → IsMembership s.members →
        standing_of (standings s) n ≡ Some (returning since donor stale) →
        ShapeInvariant (after_join s n donor) }
{}
