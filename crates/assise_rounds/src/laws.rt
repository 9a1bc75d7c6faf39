//! Laws of rounds, tries and returns. Each function does nothing: its contract is the law.
ghost use Rattle.std.specs.Prelude.{◌≡◌, ◌≤◌, ◌++◌, ⊤, Bool, List, Result, map, ℕ};
ghost use Rattle.assise_names.specs.declared.call.Op.{Op};
ghost use Rattle.assise_names.specs.declared.refusal.Refusal.{Refusal};
ghost use Rattle.assise_names.specs.declared.reply.Reply.{Reply};
ghost use Rattle.assise_history.specs.Legal.{IsLegal};
ghost use Rattle.assise_link.specs.Kinds.{perfect};
ghost use Rattle.assise_model_world.specs.World.{first_unreplicated};
ghost use Rattle.assise_model_events.specs.Events.{all_entries};
ghost use Rattle.assise_model_events.specs.Machine.{MachineInvariant, Machine};
ghost use Rattle.assise_rounds.specs.Traces.{IsEventTrace, Told};
ghost use Rattle.assise_rounds.specs.NodeLinks.{FaithfulAt};
ghost use Rattle.assise_rounds.specs.Returning.{ComesBack};
ghost use Rattle.assise_rounds.specs.Rounds.{IsRound, Replicates, RoundsOnce};
ghost use Rattle.assise_rounds.specs.Trying.{TriesOften};

use assise_link::link::Link;

/// A replicate turn, a round, the tries of a call and the return of a node are traces of events, over links of any kind.
pub fn what_is_done_is_a_trace_of_events<L: Link>()
    ensures turn { (link : L) (n count : ℕ) (m : Machine) (es : Told) (m' : Machine) →
        Replicates (L.kind link ≡ perfect) n count m es m' → IsEventTrace m es m' }
    ensures round { (links : List L) (m : Machine) (es : Told) (m' : Machine) →
        IsRound (FaithfulAt (map L.kind links)) m es m' → IsEventTrace m es m' }
    ensures once { (busy : Bool) (m : Machine) (es : Told) (m' : Machine) →
        RoundsOnce busy m es m' → IsEventTrace m es m' }
    ensures tries { (links : List L) (turns c : ℕ) (op : Op) (r : Result Reply Refusal)
        (m : Machine) (es : Told) (m' : Machine) →
        TriesOften (FaithfulAt (map L.kind links)) turns c op r m es m' → IsEventTrace m es m' }
    ensures comes_back { (n : ℕ) (r : Result ⊤ Refusal) (m : Machine) (es : Told) (m' : Machine) →
        ComesBack n r m es m' → IsEventTrace m es m' }
{}

/// Over a trace of events what holds of a cluster still holds, so its history is legal, and it gets exactly the entries of the events.
pub fn a_trace_keeps_the_history_legal()
    ensures keeps { (m m' : Machine) (es : Told) → MachineInvariant m → IsEventTrace m es m' →
        MachineInvariant m' }
    ensures legal { (m m' : Machine) (es : Told) → MachineInvariant m → IsEventTrace m es m' →
        IsLegal m'.history }
    ensures entries { (m m' : Machine) (es : Told) → IsEventTrace m es m' →
        m'.history ≡ m.history ++ all_entries m.history es }
{}

/// Over a trace of events the number of a client's first call of which some full node may lack a record never falls: what is replicated
/// stays so.
pub fn what_is_replicated_stays_replicated()
    ensures { (m m' : Machine) (es : Told) (c : ℕ) → MachineInvariant m → IsEventTrace m es m' →
        first_unreplicated m.world c ≤ first_unreplicated m'.world c }
{}
