//! Each step is one of the machine's own, or two.
ghost use Rattle.std.specs.FinSet as set;
ghost use Rattle.std.specs.Ordering.{nat_cmp};
ghost use Rattle.std.specs.Prelude.{List, [], ◌∷◌, ℕ};
ghost use Rattle.assise_model_world.specs.Runs.{Moves, Runs};
ghost use Rattle.assise_model_world.specs.World.{World};
ghost use Rattle.assise_model_members.specs.Members.{AreMembers};
ghost use Rattle.assise_model_members.specs.Returns.{BeginsReturn, DigestsNoted, FailsAgain, FailsWithMembers, Refills, Rejoins};
ghost use Rattle.assise_manager.specs.Membership.{Membership};

/// Each step is one that the machine makes, whatever the manager has of it: so it keeps what each of those keeps. At a failure the
/// areas of nodes that aren't full change in a step of their own.
pub fn each_step_is_one_of_the_machine()
    ensures failed { (w v u : World) (m o : Membership) (n : ℕ) (inodes : set.FinSet nat_cmp) →
        FailsWithMembers w m n inodes v u o → Runs w (v ∷ u ∷ []) }
    ensures again { (w u : World) (m o : Membership) (n : ℕ) → FailsAgain w m n u o → Moves w u }
    ensures digested { (w u : World) (m o : Membership) (n c k : ℕ) (inodes : set.FinSet nat_cmp) →
        DigestsNoted w m n c k inodes u o → Moves w u }
    ensures back { (w u : World) (m o : Membership) (n : ℕ) → BeginsReturn w m n u o → Moves w u }
    ensures refilled { (w u : World) (m o : Membership) (n i : ℕ) → Refills w m n i u o →
        Moves w u }
    ensures joined { (w u : World) (m o : Membership) (n : ℕ) → AreMembers w m → Rejoins w m n u o →
        Moves w u }
{}
