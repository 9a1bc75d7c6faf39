//! Each step can be made.
ghost use Rattle.std.specs.Prelude.{◌≡◌, ◌≤◌, false, true, ℕ};
ghost use Rattle.assise_names.specs.declared.mode.Mode.{Mode};
ghost use Rattle.assise_record.specs.Records.{all_effects};
ghost use Rattle.assise_inode_table.specs.Effects.{contains, touched};
ghost use Rattle.assise_inode_table.specs.Traces.{NumberedCall};
ghost use Rattle.assise_model_world.specs.Chances.{MayMakeCall, MayDeliver, MayDigest, MayDrop, MayFail, MayJoin};
ghost use Rattle.assise_model_world.specs.ClientSteps.{Acquires, Crashes, IsModeFree, MakesCall, Opens, RaisesGoals, Releases};
ghost use Rattle.assise_model_world.specs.NodeSteps.{Delivers, Digests, Drops, Fails, Joins, Rests};
ghost use Rattle.assise_model_world.specs.Invariant.{WorldInvariant};
ghost use Rattle.assise_model_world.specs.World.{Full, World, end_of_log};

/// What clients do can be done: where what a step asks for holds, there is a state to which it leads.
pub fn each_step_of_a_client_can_be_made()
    ensures opened { (w : World) (n : ℕ) → Full w n → (u : World) × Opens w n u }
    ensures called { (w : World) (x : NumberedCall) → WorldInvariant w → MayMakeCall w x →
        (u : World) × MakesCall w x u }
    ensures raised { (w : World) (k : ℕ → ℕ) → ((c : ℕ) → k c ≤ end_of_log w c) →
        (u : World) × RaisesGoals w k u }
    ensures crashed { (w : World) (c : ℕ) → w.lives c ≡ true → w.crashed c ≡ false →
        (u : World) × Crashes w c u }
    ensures acquired { (w : World) (c i : ℕ) (mode : Mode) → IsModeFree w c i mode →
        (u : World) × Acquires w c i mode u }
    ensures released { (w : World) (c i : ℕ) →
        contains (touched (all_effects (w.records c))) i ≡ false → (u : World) × Releases w c i u }
{}

/// What nodes do, and what happens to them, can be.
pub fn each_step_of_a_node_can_be_made()
    ensures delivered { (w : World) (n c k : ℕ) → MayDeliver w n c k →
        (u : World) × Delivers w n c k u }
    ensures digested { (w : World) (n c k : ℕ) → MayDigest w n c k →
        (u : World) × Digests w n c k u }
    ensures dropped { (w : World) (f : ℕ → ℕ) → MayDrop w f → (u : World) × Drops w f u }
    ensures failed { (w : World) (n : ℕ) → MayFail w n → (u : World) × Fails w n u }
    ensures joined { (w : World) (n donor : ℕ) → MayJoin w n donor →
        (u : World) × Joins w n donor u }
    ensures rested { (w : World) → (u : World) × Rests w u }
{}
