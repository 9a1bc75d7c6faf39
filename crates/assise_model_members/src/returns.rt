//! What holds of the members is kept by returns.
ghost use Rattle.std.specs.Prelude.{ℕ};
ghost use Rattle.assise_model_world.specs.NodeSteps.{Joins};
ghost use Rattle.assise_model_world.specs.World.{World};
ghost use Rattle.assise_model_members.specs.Members.{AreMembers};
ghost use Rattle.assise_model_members.specs.Returns.{BeginsReturn, Refills, Rejoins};
ghost use Rattle.assise_manager.specs.Membership.{Membership};

/// A node that begins to come back keeps the invariant.
pub fn a_return_keeps_members()
    ensures { (w u : World) (m o : Membership) (n : ℕ) → AreMembers w m → BeginsReturn w m n u o →
        AreMembers u o }
{}

/// An inode that is filled from the donor keeps the invariant.
pub fn a_refill_keeps_members()
    ensures { (w u : World) (m o : Membership) (n i : ℕ) → AreMembers w m → Refills w m n i u o →
        AreMembers u o }
{}

/// A node that lacks no inode has its donor's area. So with its donor's logs it has all that a full node has, and joins.
pub fn a_filled_node_joins()
    ensures joins { (w u : World) (m o : Membership) (n : ℕ) → AreMembers w m →
        (step : Rejoins w m n u o) → Joins w n step.donor u }
    ensures keeps { (w u : World) (m o : Membership) (n : ℕ) → AreMembers w m → Rejoins w m n u o →
        AreMembers u o }
{}
