//! What holds of the members is kept by failures, by digests, and by whatever leaves the areas.
ghost use Rattle.std.specs.FinSet as set;
ghost use Rattle.std.specs.Ordering.{nat_cmp};
ghost use Rattle.std.specs.Prelude.{◌≡◌, ◌<◌, ℕ};
ghost use Rattle.assise_model_world.specs.Runs.{begun};
ghost use Rattle.assise_model_world.specs.Invariant.{WorldInvariant};
ghost use Rattle.assise_model_world.specs.World.{Full, World};
ghost use Rattle.assise_model_members.specs.Members.{AreMembers};
ghost use Rattle.assise_model_members.specs.Returns.{DigestsNoted, FailsAgain, FailsWithMembers, KeepsAreas, OtherAreasStay};
ghost use Rattle.assise_manager.specs.Changes.{all_full};
ghost use Rattle.assise_manager.specs.Membership.{Membership};
ghost use Rattle.assise_manager.specs.Standings.{full_nodes};

/// At the start all nodes are full, and nothing is listed.
pub fn all_nodes_begin_full()
    ensures { (count : ℕ) → 0 < count → AreMembers (begun (full_nodes (all_full count).nodes))
        (all_full count) }
{}

/// After a full node's failure its area differs from those of the nodes that stay full only in inodes on the new epoch's list.
/// Nodes that were filled from it start over from another.
pub fn a_failure_keeps_members()
    ensures { (w v u : World) (m o : Membership) (n : ℕ) (inodes : set.FinSet nat_cmp) →
        WorldInvariant w → AreMembers w m → FailsWithMembers w m n inodes v u o → AreMembers u o }
{}

/// A node that comes back may fail again.
pub fn a_second_failure_keeps_members()
    ensures { (w u : World) (m o : Membership) (n : ℕ) → AreMembers w m → FailsAgain w m n u o →
        AreMembers u o }
{}

/// A digest keeps the invariant, where the manager notes what it touches.
pub fn a_digest_keeps_members()
    ensures { (w u : World) (m o : Membership) (n c k : ℕ) (inodes : set.FinSet nat_cmp) →
        AreMembers w m → DigestsNoted w m n c k inodes u o → AreMembers u o }
{}

/// What leaves the full nodes and all areas keeps the invariant: so do calls, openings, leases, deliveries and dropped prefixes, where
/// they leave the areas of nodes that aren't full.
pub fn equal_areas_keep_members()
    ensures keeps { (w u : World) (m : Membership) → AreMembers w m → KeepsAreas w u →
        AreMembers u m }
    ensures areas { (w u : World) → u.full ≡ w.full →
        ((k i : ℕ) → Full w k → u.area k i ≡ w.area k i) → OtherAreasStay w u → KeepsAreas w u }
{}
