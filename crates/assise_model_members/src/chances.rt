//! Each step can be made: where what it asks for holds, there is a state to which it leads.
ghost use Rattle.std.specs.FinSet as set;
ghost use Rattle.std.specs.Ordering.{nat_cmp};
ghost use Rattle.std.specs.Prelude.{◌≡◌, ◌≢◌, ◌<◌, None, Some, [], true, ℕ};
ghost use Rattle.assise_names.specs.declared.refusal.Refusal.TheVariants.{Busy};
ghost use Rattle.assise_model_world.specs.Chances.{MayDigest};
ghost use Rattle.assise_model_world.specs.World.{Full, World};
ghost use Rattle.assise_model_members.specs.Chances.{MayFailWith, MayRefill};
ghost use Rattle.assise_model_members.specs.Members.{AreMembers};
ghost use Rattle.assise_model_members.specs.Returns.{BeginsReturn, DigestsNoted, FailsAgain, FailsWithMembers, Refills, Rejoins};
ghost use Rattle.assise_manager.specs.Changes.{is_returning, join_fault, return_fault};
ghost use Rattle.assise_manager.specs.Membership.{Membership};
ghost use Rattle.assise_manager.specs.Standings.{standing_of};

/// A full node may fail where another is full, and a node that comes back may at any time. Where clients above some number have no
/// records, there is a set of the inodes that the kept ones touch.
pub fn each_failure_can_be()
    ensures listed { (w : World) (n most : ℕ) → Full w n → (k : ℕ) × ((k ≢ n) × Full w k) →
        ((c : ℕ) → most < c → w.records c ≡ []) →
        (inodes : set.FinSet nat_cmp) × MayFailWith w n inodes }
    ensures failed { (w : World) (m : Membership) (n : ℕ) (inodes : set.FinSet nat_cmp) →
        AreMembers w m → MayFailWith w n inodes →
        (v u : World) × (o : Membership) × FailsWithMembers w m n inodes v u o }
    ensures again { (w : World) (m : Membership) (n : ℕ) →
        is_returning (standing_of m.nodes n) ≡ true →
        (u : World) × (o : Membership) × FailsAgain w m n u o }
{}

/// A digest that can be made can be made so that the manager notes what it touches.
pub fn each_digest_can_be_noted()
    ensures { (w : World) (m : Membership) (n c k : ℕ) → MayDigest w n c k →
        (inodes : set.FinSet nat_cmp) × (u : World) × (o : Membership) ×
        DigestsNoted w m n c k inodes u o }
{}

/// What the manager doesn't refuse can be made. A node that can't join yet, since it may lack inodes, has one to be filled.
pub fn each_step_of_a_return_can_be_made()
    ensures back { (w : World) (m : Membership) (n : ℕ) → AreMembers w m → return_fault m n ≡ None →
        (u : World) × (o : Membership) × BeginsReturn w m n u o }
    ensures refilled { (w : World) (m : Membership) (n i : ℕ) → AreMembers w m → MayRefill m n i →
        (u : World) × (o : Membership) × Refills w m n i u o }
    ensures busy { (m : Membership) (n : ℕ) → join_fault m n ≡ Some Busy →
        (i : ℕ) × MayRefill m n i }
    ensures joined { (w : World) (m : Membership) (n : ℕ) → AreMembers w m → join_fault m n ≡ None →
        (u : World) × (o : Membership) × Rejoins w m n u o }
{}
