//! Whatever events are served.
ghost use Rattle.std.specs.Prelude.{◌≡◌, ◌≢◌, ◌++◌, List, Some, ℕ};
ghost use Rattle.assise_history.specs.declared.call.Loss.{Loss};
ghost use Rattle.assise_model_world.specs.NodeSteps.{kept_at_failure};
ghost use Rattle.assise_model_world.specs.World.{Full, undigested_records, undigested_below};
ghost use Rattle.assise_model_events.specs.Events.{Answer, ClusterEvent, all_entries, digest, failed};
ghost use Rattle.assise_model_events.specs.Happenings.{Happens};
ghost use Rattle.assise_model_events.specs.Machine.{MachineInvariant, Machine};
ghost use Rattle.assise_model_events.specs.MemberEvents.{Failing};
ghost use Rattle.assise_machine.specs.EventNodes.{node_of};
ghost use Rattle.assise_machine.specs.Running.{AllServed};

/// Whatever is served, the invariant between events still holds, and the history gets exactly the entries of the answers.
pub fn whatever_is_served_it_holds()
    ensures keeps { (stock : ℕ) (m m' : Machine) (es : List (ClusterEvent × Answer)) →
        MachineInvariant m → AllServed stock m es m' → MachineInvariant m' }
    ensures extends { (stock : ℕ) (m m' : Machine) (es : List (ClusterEvent × Answer)) →
        AllServed stock m es m' → m'.history ≡ m.history ++ all_entries m.history es }
{}

/// Whatever happens, an event at one node leaves what other full nodes have. The area of a full node is changed by a digest at that
/// node alone. What it has and has not digested is changed by events at it, and by failures of others: these leave of each client
/// the prefix that is kept, and all where the client's home is another node than the one that failed.
pub fn node_events_leave_logs()
    ensures area { (m m' : Machine) (e : ClusterEvent) (a : Answer) → Happens m e a m' →
        (j i : ℕ) → Full m.world j → e ≢ digest j →
        m'.world.area j i ≡ m.world.area j i }
    ensures ahead { (m m' : Machine) (e : ClusterEvent) (a : Answer) → Happens m e a m' →
        ((losses : List Loss) → a ≢ failed losses) → (j c : ℕ) → Full m.world j →
        node_of m.world e ≢ Some j → undigested_records m'.world j c ≡
        undigested_records m.world j c }
    ensures failure { (m m' : Machine) (n : ℕ) (losses : List Loss) → MachineInvariant m →
        Failing m n (failed losses) m' → (j c : ℕ) → Full m.world j → j ≢ n →
        undigested_records m'.world j c ≡ undigested_below m.world j c
        (kept_at_failure m.world n c) }
    ensures elsewhere { (m m' : Machine) (n : ℕ) (a : Answer) → MachineInvariant m →
        Failing m n a m' → (j c : ℕ) → Full m.world j → j ≢ n → m.world.home c ≢ n →
        undigested_records m'.world j c ≡ undigested_records m.world j c }
{}
