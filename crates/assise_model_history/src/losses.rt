//! What a failure lists.
ghost use Rattle.std.specs.Prelude.{◌≡◌, ◌<◌, ◌↔◌, ◌++◌, ◌∷◌, Contains, List, filter, not, ℕ};
ghost use Rattle.assise_history.specs.declared.call.Loss.{Loss};
ghost use Rattle.assise_history.specs.Kept.{loses};
ghost use Rattle.assise_history.specs.Legal.{IsPastSyncs, ClientsAscend};
ghost use Rattle.assise_model_history.specs.Entered.{IsFailure};
ghost use Rattle.assise_model_history.specs.Lost.{IsFirstLost, losses_of};
ghost use Rattle.assise_model_history.specs.Numbered.{plain_call};
ghost use Rattle.assise_model_history.specs.State.{IsRecorded, State};
ghost use Rattle.assise_model_world.specs.Invariant.{WorldInvariant};
ghost use Rattle.assise_model_world.specs.World.{World};

/// A failure lists, by ascending number and once each, exactly those clients that live on the node and of which some other full
/// node lacks a record, each with the call of the first such record. What it takes are the calls from there on.
pub fn a_failure_lists_the_first_lost_calls()
    ensures exactly { (w : World) (n : ℕ) (l : Loss) → WorldInvariant w →
        Contains (losses_of w n) l ↔ IsFirstLost w n l }
    ensures ascending { (w : World) (n : ℕ) → ClientsAscend (losses_of w n) }
    ensures taken { (s t : State) (n : ℕ) → WorldInvariant s.world → IsFailure s n t →
        t.world.calls ≡ filter (λ x. not (loses (losses_of s.world n) (plain_call x)))
        s.world.calls }
{}

/// What a failure lists begins after the client's last sync, and before its next call: each client that it lists loses a call
/// that was answered.
pub fn a_failure_takes_no_synced_call()
    ensures past { (s : State) (n : ℕ) (lower higher : List Loss) (l : Loss) →
        WorldInvariant s.world → IsRecorded s → losses_of s.world n ≡ lower ++ l ∷ higher →
        IsPastSyncs s.history l }
    ensures answered { (w : World) (n : ℕ) (l : Loss) → WorldInvariant w →
        Contains (losses_of w n) l → l.first < w.next l.client }
{}
