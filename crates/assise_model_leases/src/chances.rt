//! Each step of leases can be made.
ghost use Rattle.std.specs.Prelude.{◌≡◌, false, true, ℕ};
ghost use Rattle.assise_names.specs.declared.mode.Mode.{Mode};
ghost use Rattle.assise_inode_table.specs.Traces.{NumberedCall};
ghost use Rattle.assise_lease_tree.specs.TwoLevels.{IsIdle};
ghost use Rattle.assise_model_world.specs.Chances.{MayFail};
ghost use Rattle.assise_model_world.specs.Invariant.{WorldInvariant};
ghost use Rattle.assise_model_world.specs.World.{Full, World};
ghost use Rattle.assise_model_leases.specs.Chances.{MayAsk, MayCallUnder, MayGrant, MayRelease};
ghost use Rattle.assise_model_leases.specs.Handing.{Asks, CallsUnder, CrashesWith, FailsWithLeases, FreesNode, Grants, OpensAt, ReleasesReady};
ghost use Rattle.assise_model_leases.specs.Leases.{AreLeases, Leases};

/// Where what a step asks for holds, there is a state to which it leads.
pub fn each_step_of_leases_can_be_made()
    ensures opened { (w : World) (l : Leases) (n : ℕ) → Full w n →
        (u : World) × (k : Leases) × OpensAt w l n u k }
    ensures called { (w : World) (l : Leases) (x : NumberedCall) → WorldInvariant w →
        MayCallUnder w l x → (u : World) × CallsUnder w l x u }
    ensures granted { (w : World) (l : Leases) (c i : ℕ) (mode : Mode) → MayGrant w l c i mode →
        (u : World) × (k : Leases) × Grants w l c i mode u k }
    ensures asked { (w : World) (l : Leases) (c i : ℕ) (mode : Mode) → WorldInvariant w →
        AreLeases w l → MayAsk w l c i mode → (u : World) × (k : Leases) × Asks w l c i mode u k }
    ensures released { (w : World) (l : Leases) (c i : ℕ) → MayRelease w l c i →
        (u : World) × (k : Leases) × ReleasesReady w l c i u k }
    ensures freed { (w : World) (l : Leases) (n : ℕ) → (Full w n → ⊥) → IsIdle l.levels n →
        (k : Leases) × FreesNode w l n k }
    ensures crashed { (w : World) (l : Leases) (c : ℕ) → w.lives c ≡ true → w.crashed c ≡ false →
        (u : World) × (k : Leases) × CrashesWith w l c u k }
    ensures failed { (w : World) (l : Leases) (n : ℕ) → MayFail w n →
        (u : World) × (k : Leases) × FailsWithLeases w l n u k }
{}
