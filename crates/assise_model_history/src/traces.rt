//! Whatever happens.
ghost use Rattle.std.specs.Prelude.{List, ℕ};
ghost use Rattle.assise_model_history.specs.Traces.{EntryHappens, IsTrace, IsSafe, IsLasting, last_of};
ghost use Rattle.assise_model_history.specs.State.{IsRecorded, State, begun_with};
ghost use Rattle.assise_model_world.specs.Runs.{Moves};
ghost use Rattle.assise_model_world.specs.Invariant.{WorldInvariant};

/// Whatever happens is a step of the machine, and is recorded.
pub fn each_thing_that_happens_is_recorded()
    ensures moves { (s t : State) → EntryHappens s t → Moves s.world t.world }
    ensures recorded { (s t : State) → WorldInvariant s.world → IsRecorded s → EntryHappens s t →
        IsRecorded t }
{}

/// Whatever happens, from the start the history is legal, and the machine's state is what it says. Each full node's region
/// alone says the tree of the replicated calls, in which are all that were synced, and a failure lists none of those. From any
/// state on the history grows, and the calls that all full nodes had stay.
pub fn whatever_happens_is_recorded()
    ensures sound { (nodes : ℕ) (ts : List State) → IsTrace (begun_with nodes) ts →
        WorldInvariant (last_of (begun_with nodes) ts).world }
    ensures recorded { (nodes : ℕ) (ts : List State) → IsTrace (begun_with nodes) ts →
        IsRecorded (last_of (begun_with nodes) ts) }
    ensures kept { (nodes : ℕ) (ts : List State) → IsTrace (begun_with nodes) ts →
        IsSafe (last_of (begun_with nodes) ts) }
    ensures lasting { (s : State) (ts : List State) → WorldInvariant s.world → IsRecorded s →
        IsTrace s ts → IsLasting s (last_of s ts) }
{}
