//! What is stale: the inodes that a node may lack while it comes back.
ghost use Rattle.std.specs.FinSet as set;
ghost use Rattle.std.specs.Ordering.{nat_cmp};
ghost use Rattle.std.specs.Prelude.{◌≡◌, ◌≢◌, ◌⊎◌, ◌↔◌, Some, true, ℕ};
ghost use Rattle.assise_record.specs.Records.{all_effects};
ghost use Rattle.assise_inode_table.specs.Effects.{contains, touched};
ghost use Rattle.assise_model_world.specs.Invariant.{WorldInvariant};
ghost use Rattle.assise_model_world.specs.World.{World, undigested_below};
ghost use Rattle.assise_model_members.specs.Members.{AreMembers, since_of};
ghost use Rattle.assise_model_members.specs.Returns.{BeginsReturn, DigestsNoted, FailsAgain, FailsWithMembers, Refills};
ghost use Rattle.assise_manager.specs.Membership.{Membership, lowest_full, written_since};
ghost use Rattle.assise_manager.specs.Standings.{down, returning, standing_of};

/// An inode in which a node that comes back differs from its donor is in its stale set.
pub fn what_differs_is_stale()
    ensures { (w : World) (m : Membership) (n since donor i : ℕ) (stale : set.FinSet nat_cmp) →
        AreMembers w m → standing_of m.nodes n ≡ Some (returning since donor stale) →
        w.area n i ≢ w.area donor i → set.contains stale i ≡ true }
{}

/// When it is made, a stale set is exactly what was written since the epoch that the node's first failure began: as the node
/// comes back, and as its donor fails. A node that fails again is down since the same epoch.
pub fn a_stale_set_begins_as_what_was_written()
    ensures back { (w u : World) (m o : Membership) (n since : ℕ) → BeginsReturn w m n u o →
        since_of (standing_of m.nodes n) ≡ Some since →
        standing_of o.nodes n ≡ Some (returning since (lowest_full o.nodes)
        (written_since o since)) }
    ensures over { (w v u : World) (m o : Membership) (n k since : ℕ)
        (inodes stale : set.FinSet nat_cmp) → WorldInvariant w → AreMembers w m →
        FailsWithMembers w m n inodes v u o →
        standing_of m.nodes k ≡ Some (returning since n stale) →
        standing_of o.nodes k ≡ Some (returning since (lowest_full o.nodes)
        (written_since o since)) }
    ensures again { (w u : World) (m o : Membership) (n since : ℕ) → FailsAgain w m n u o →
        since_of (standing_of m.nodes n) ≡ Some since → standing_of o.nodes n ≡ Some (down since) }
{}

/// A refill takes exactly its inode out of the stale set. A digest at the donor puts exactly what it touches back in.
pub fn a_stale_set_changes()
    ensures refilled { (w u : World) (m o : Membership) (n i since donor : ℕ)
        (stale : set.FinSet nat_cmp) → Refills w m n i u o →
        standing_of m.nodes n ≡ Some (returning since donor stale) →
        standing_of o.nodes n ≡ Some (returning since donor (set.remove stale i)) }
    ensures digested { (w u : World) (m o : Membership) (n c k x since : ℕ)
        (inodes stale : set.FinSet nat_cmp) → DigestsNoted w m n c k inodes u o →
        standing_of m.nodes x ≡ Some (returning since n stale) →
        (new : set.FinSet nat_cmp) × ((standing_of o.nodes x ≡ Some (returning since n new)) ×
        ((i : ℕ) → set.contains new i ≡ true ↔ (set.contains stale i ≡ true) ⊎
        (contains (touched (all_effects (undigested_below w n c k))) i ≡ true))) }
    ensures elsewhere { (w u : World) (m o : Membership) (n c k x since donor : ℕ)
        (inodes stale : set.FinSet nat_cmp) → DigestsNoted w m n c k inodes u o →
        standing_of m.nodes x ≡ Some (returning since donor stale) → donor ≢ n →
        standing_of o.nodes x ≡ Some (returning since donor stale) }
{}
