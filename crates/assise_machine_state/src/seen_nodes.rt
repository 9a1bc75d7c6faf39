//! What the laws observe of a change of nodes, and what is read of them.
ghost use Rattle.std.specs.Prelude.{◌≡◌, ◌<◌, ◌≤◌, true, suc, length, slice_index_or, List, ℕ};
ghost use Rattle.std.specs.Ordering.{nat_cmp};
ghost use Rattle.std.specs.FinMap as map;
ghost use Rattle.std.specs.FinSet as set;
ghost use Rattle.assise_record.specs.Records.{all_effects};
ghost use Rattle.assise_inode_table.specs.Effects.{contains, touched};
ghost use Rattle.assise_digest.specs.Region.{alone};
ghost use Rattle.assise_model_world.specs.Chances.{MayDeliver, MayDigest};
ghost use Rattle.assise_model_world.specs.NodeSteps.{Delivers, Drops};
ghost use Rattle.assise_model_world.specs.Invariant.{WorldInvariant};
ghost use Rattle.assise_model_world.specs.World.{Full, World, undigested_below, alone_at as alone_observed, digested_by_all, received_by_all, view};
ghost use Rattle.assise_model_members.specs.Returns.{DigestsNoted, OtherAreasStay};
ghost use Rattle.assise_model_events.specs.Machine.{with_hot};
ghost use Rattle.assise_machine_state.specs.Changes.{after_delivery, after_digest, after_drop, after_hot, first_but};
ghost use Rattle.assise_machine_state.specs.NodeValues.{region_in};
ghost use Rattle.assise_machine_state.specs.Observed.{inodes_read, observed, world_of};
ghost use Rattle.assise_machine_state.specs.Places.{IsNumber};
ghost use Rattle.assise_machine_state.specs.Invariant.{CutsInvariant, ShapeInvariant};
ghost use Rattle.assise_machine_state.specs.StateValues.{StateValue};

/// Records that come to a node.
pub fn a_delivery_is_observed()
    ensures delivers { (s : StateValue) (n c k : ℕ) → ShapeInvariant s →
        WorldInvariant (world_of s) → IsNumber s.clients c → MayDeliver (world_of s) n c k →
        Delivers (world_of s) n c k (world_of (after_delivery s n c k)) }
    ensures others { (s : StateValue) (n c k : ℕ) →
        OtherAreasStay (world_of s) (world_of (after_delivery s n c k)) }
    ensures shape { (s : StateValue) (n c k : ℕ) → ShapeInvariant s → WorldInvariant (world_of s) →
        IsNumber s.clients c → MayDeliver (world_of s) n c k →
        ShapeInvariant (after_delivery s n c k) }
{}

/// Records that a node digests, with what the manager notes of them.
pub fn a_digest_is_observed()
    ensures digests { (s : StateValue) (n c k : ℕ) (inodes : set.FinSet nat_cmp) →
        ShapeInvariant s → WorldInvariant (world_of s) → IsNumber s.clients c →
        MayDigest (world_of s) n c k → ((i : ℕ) →
        set.contains inodes i ≡ contains (touched
        (all_effects (undigested_below (world_of s) n c k))) i) →
        DigestsNoted (world_of s) s.members n c k inodes (world_of (after_digest s n c k inodes))
        (after_digest s n c k inodes).members }
    ensures shape { (s : StateValue) (n c k : ℕ) (inodes : set.FinSet nat_cmp) → ShapeInvariant s →
        IsNumber s.clients c → Full (world_of s) n → ShapeInvariant (after_digest s n c k inodes) }
{}

/// Prefixes of one client's logs that are dropped at all nodes. Where prefixes are dropped one after another, they are dropped.
pub fn dropped_prefixes_are_observed()
    ensures drops { (s : StateValue) (c to : ℕ) → ShapeInvariant s → WorldInvariant (world_of s) →
        IsNumber s.clients c → (world_of s).first c ≤ to → to ≤ digested_by_all (world_of s) c →
        (world_of s).border c to ≡ true →
        Drops (world_of s) (first_but (world_of s) c to) (world_of (after_drop s c to)) }
    ensures areas { (s : StateValue) (c to n i : ℕ) →
        (world_of (after_drop s c to)).area n i ≡ (world_of s).area n i }
    ensures shape { (s : StateValue) (c to : ℕ) → ShapeInvariant s → WorldInvariant (world_of s) →
        IsNumber s.clients c → (world_of s).first c ≤ to → to ≤ digested_by_all (world_of s) c →
        (world_of s).border c to ≡ true → ShapeInvariant (after_drop s c to) }
    ensures one_after_another { (w v u : World) (f g : ℕ → ℕ) → Drops w f v → Drops v g u →
        Drops w g u }
{}

/// What a client that lives reads at its home, and what the region of a full node alone gives with what is replicated.
pub fn what_is_read_is_observed()
    ensures client { (s : StateValue) (c i : ℕ) → ShapeInvariant s → WorldInvariant (world_of s) →
        (world_of s).lives c ≡ true → map.get (inodes_read s c) i ≡ view (world_of s)
        ((world_of s).home c) c i }
    ensures region { (s : StateValue) (n i : ℕ) (acked : List ℕ) → ShapeInvariant s →
        WorldInvariant (world_of s) → Full (world_of s) n → length acked ≡ length s.clients →
        ((c : ℕ) → c < length s.clients → slice_index_or acked c 0 ≡ received_by_all (world_of s)
        (suc c)) → alone (region_in s.nodes n) acked i ≡ alone_observed (world_of s) n i }
{}

/// How many inodes may be hot at a node is observed, and of what is hot nothing else.
pub fn how_many_may_be_hot_is_observed()
    ensures machine { (s : StateValue) (n capacity : ℕ) →
        observed (after_hot s n capacity) ≡ with_hot (observed s) n capacity }
    ensures shape { (s : StateValue) (n capacity : ℕ) →
        ShapeInvariant s → ShapeInvariant (after_hot s n capacity) }
    ensures noted { (s : StateValue) (n capacity : ℕ) →
        CutsInvariant s → CutsInvariant (after_hot s n capacity) }
{}
