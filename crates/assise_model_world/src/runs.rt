//! Steps, one after another.
ghost use Rattle.std.specs.Prelude.{List, ℕ};
ghost use Rattle.assise_model_world.specs.Runs.{Moves, NoneFalls, Runs, StayReplicated, begun, last};
ghost use Rattle.assise_model_world.specs.Invariant.{AreDropped, WorldInvariant};
ghost use Rattle.assise_model_world.specs.World.{World};

/// No step lowers the first call that some full node may lack, nor the first that some full node may lack in its area. The
/// calls that all full nodes have stay.
pub fn no_step_takes_back_what_all_have()
    ensures sound { (w u : World) → WorldInvariant w → Moves w u → WorldInvariant u }
    ensures none_falls { (w u : World) → WorldInvariant w → Moves w u → NoneFalls w u }
    ensures stay { (w u : World) → WorldInvariant w → Moves w u → StayReplicated w u }
{}

/// Whatever happens from the start, what each step keeps holds, and over each stretch of it nothing falls, and what all full
/// nodes had stays.
pub fn whatever_happens_it_holds()
    ensures begun { (nodes : List ℕ) → AreDropped (begun nodes) }
    ensures sound { (nodes : List ℕ) (us : List World) → Runs (begun nodes) us →
        WorldInvariant (last (begun nodes) us) }
    ensures none_falls { (w : World) (us : List World) → WorldInvariant w → Runs w us →
        NoneFalls w (last w us) }
    ensures stay { (w : World) (us : List World) → WorldInvariant w → Runs w us →
        StayReplicated w (last w us) }
{}
