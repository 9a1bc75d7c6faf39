//! Whatever happens: from the start, and from any state on.
ghost use Rattle.std.specs.Prelude.{◌≡◌, ◌<◌, ◌++◌, List, [], ◌∷◌, Contains, false, map, true, ℕ};
ghost use Rattle.assise_seq_tree.specs.Runs.{tree_after_calls};
ghost use Rattle.assise_seq_tree.specs.Tree.{opening};
ghost use Rattle.assise_history.specs.declared.call.Call.{Call};
ghost use Rattle.assise_history.specs.declared.call.Loss.{Loss};
ghost use Rattle.assise_history.specs.Entries.{EntryValue, calls, fails};
ghost use Rattle.assise_history.specs.Kept.{IsRun, kept};
ghost use Rattle.assise_history.specs.Legal.{IsFair, IsLegal};
ghost use Rattle.assise_inode_table.specs.Effects.{contains, touched};
ghost use Rattle.assise_inode_table.specs.Spelled.{Spells};
ghost use Rattle.assise_inode_table.specs.Traces.{Each, ops};
ghost use Rattle.assise_model_world.specs.World.{Full, alone_at, first_unreplicated, steps};
ghost use Rattle.assise_model_leases.specs.Leases.{client_lease, is_written};
ghost use Rattle.assise_model_history.specs.Traces.{WasSynced, IsLasting, numbered_replicated};
ghost use Rattle.assise_model_history.specs.Numbered.{plain_call};
ghost use Rattle.assise_model_events.specs.Events.{Answer, ClusterEvent, all_entries, entries_of};
ghost use Rattle.assise_model_events.specs.Happenings.{AllHappen, Happens, Leads};
ghost use Rattle.assise_model_events.specs.Machine.{MachineInvariant, Machine, begun_as, state_of};

/// Each event keeps the invariant, and the history gets exactly the entries of its answer.
pub fn each_event_keeps_the_invariant()
    ensures told { (m m' : Machine) (e : ClusterEvent) (a : Answer) → Happens m e a m' →
        m'.history ≡ m.history ++ entries_of m.history e a }
    ensures leads { (m m' : Machine) (e : ClusterEvent) (a : Answer) → MachineInvariant m →
        Happens m e a m' → Leads m m' }
    ensures keeps { (m m' : Machine) (e : ClusterEvent) (a : Answer) → MachineInvariant m →
        Happens m e a m' → MachineInvariant m' }
{}

/// The invariant between events holds at the start, and whatever happens.
pub fn whatever_happens_it_holds()
    ensures begun { (nodes limit hot : ℕ) → 0 < nodes →
        MachineInvariant (begun_as nodes limit hot) }
    ensures keeps { (m m' : Machine) (es : List (ClusterEvent × Answer)) → MachineInvariant m →
        AllHappen m es m' → MachineInvariant m' }
{}

/// **The headline.** Whatever calls, deliveries, digests, hand-overs, failures and returns interleave, each answered call stands
/// once in one legal history (`legal`, `entries`) that extends all that was answered before it (`extends`); a node's failure
/// removes, from each of its clients, only a tail after that client's last answered sync (`only_tails`), and the remaining calls
/// stay legal with the replies they gave (`remaining`); and every full node alone holds the tree of all replicated calls
/// (`alone`): among these are all up to a client's last answered sync (`synced`) and all that changed an inode that their client
/// handed over (`handed_over`), and none of them is lost again (`lasting`).
pub fn model_headline()
    ensures legal { (nodes limit hot : ℕ) (es : List (ClusterEvent × Answer)) (m : Machine) →
        0 < nodes → AllHappen (begun_as nodes limit hot) es m → IsLegal m.history }
    ensures entries { (nodes limit hot : ℕ) (es : List (ClusterEvent × Answer)) (m : Machine) →
        AllHappen (begun_as nodes limit hot) es m → m.history ≡ all_entries [] es }
    ensures extends { (m m' : Machine) (es : List (ClusterEvent × Answer)) → AllHappen m es m' →
        m'.history ≡ m.history ++ all_entries m.history es }
    ensures only_tails { (nodes limit hot : ℕ) (es : List (ClusterEvent × Answer)) (m : Machine) →
        0 < nodes → AllHappen (begun_as nodes limit hot) es m →
        (before later : List EntryValue) (n : ℕ) (losses : List Loss) →
        m.history ≡ before ++ fails n losses ∷ later → IsFair before n losses }
    ensures remaining { (nodes limit hot : ℕ) (es : List (ClusterEvent × Answer)) (m : Machine) →
        0 < nodes → AllHappen (begun_as nodes limit hot) es m →
        (before later : List EntryValue) (e : EntryValue) → m.history ≡ before ++ e ∷ later →
        IsRun opening (kept (before ++ e ∷ [])) }
    ensures alone { (nodes limit hot : ℕ) (es : List (ClusterEvent × Answer)) (m : Machine) →
        0 < nodes → AllHappen (begun_as nodes limit hot) es m → (n : ℕ) → Full m.world n →
        Spells (alone_at m.world n) (tree_after_calls opening
        (ops (numbered_replicated (state_of m)))) }
    ensures synced { (nodes limit hot : ℕ) (es : List (ClusterEvent × Answer)) (m : Machine) →
        0 < nodes → AllHappen (begun_as nodes limit hot) es m →
        (before later : List EntryValue) (x : Call) → m.history ≡ before ++ calls x ∷ later →
        WasSynced m.history x → Contains (map plain_call (numbered_replicated (state_of m))) x }
    ensures handed_over { (nodes limit hot : ℕ) (es : List (ClusterEvent × Answer)) (m : Machine) →
        0 < nodes → AllHappen (begun_as nodes limit hot) es m → (c i : ℕ) →
        is_written (client_lease m.leases c i) ≡ false →
        Each (λ x. x.0.client ≡ c → contains (touched x.1.effects) i ≡ true →
        x.0.number < first_unreplicated m.world c) (steps m.world) }
    ensures lasting { (nodes limit hot : ℕ) (es fs : List (ClusterEvent × Answer))
        (m m' : Machine) → 0 < nodes → AllHappen (begun_as nodes limit hot) es m →
        AllHappen m fs m' → IsLasting (state_of m) (state_of m') }
{}
