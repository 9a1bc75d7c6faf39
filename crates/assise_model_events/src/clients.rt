//! What clients do keeps the invariant, and is told by the entries of its answers.
ghost use Rattle.std.specs.Prelude.{◌≡◌, ◌++◌, ℕ, false, true};
ghost use Rattle.assise_history.specs.Legal.{durability_of, is_sync};
ghost use Rattle.assise_model_events.specs.ClientEvents.{Calling, Crashing, Opening, Syncing};
ghost use Rattle.assise_model_events.specs.Events.{Answer, crash, open_client, try_call, try_fsync, entries_of};
ghost use Rattle.assise_model_events.specs.Happenings.{Leads};
ghost use Rattle.assise_model_events.specs.Machine.{MachineInvariant, Machine};
ghost use Rattle.assise_names.specs.declared.call.Op.{Op};
ghost use Rattle.assise_names.specs.declared.durability.Durability.{Durability};

/// A client that is opened, or refused, keeps the invariant.
pub fn an_opening_keeps_the_invariant()
    ensures told { (m m' : Machine) (n : ℕ) (u : Durability) (a : Answer) → Opening m n u a m' →
        m'.history ≡ m.history ++ entries_of m.history (open_client n u) a }
    ensures leads { (m m' : Machine) (n : ℕ) (u : Durability) (a : Answer) → MachineInvariant m →
        Opening m n u a m' → Leads m m' }
    ensures keeps { (m m' : Machine) (n : ℕ) (u : Durability) (a : Answer) → MachineInvariant m →
        Opening m n u a m' → MachineInvariant m' }
{}

/// So does a call that is answered, awaited or refused: what stays of it are the leases that it got, and those that it asked for.
pub fn a_call_keeps_the_invariant()
    ensures told { (m m' : Machine) (c : ℕ) (op : Op) (a : Answer) → Calling m c op a m' →
        m'.history ≡ m.history ++ entries_of m.history (try_call c op) a }
    ensures leads { (m m' : Machine) (c : ℕ) (op : Op) (a : Answer) → MachineInvariant m →
        is_sync op (durability_of c m.history) ≡ false → Calling m c op a m' → Leads m m' }
    ensures keeps { (m m' : Machine) (c : ℕ) (op : Op) (a : Answer) → MachineInvariant m →
        is_sync op (durability_of c m.history) ≡ false → Calling m c op a m' → MachineInvariant m' }
{}

/// So does a sync.
pub fn a_sync_keeps_the_invariant()
    ensures told { (m m' : Machine) (c : ℕ) (op : Op) (a : Answer) → Syncing m c op a m' →
        m'.history ≡ m.history ++ entries_of m.history (try_call c op) a }
    ensures leads { (m m' : Machine) (c : ℕ) (op : Op) (u : Durability) (a : Answer) →
        is_sync op u ≡ true → MachineInvariant m → Syncing m c op a m' → Leads m m' }
    ensures keeps { (m m' : Machine) (c : ℕ) (op : Op) (u : Durability) (a : Answer) →
        is_sync op u ≡ true → MachineInvariant m → Syncing m c op a m' → MachineInvariant m' }
{}

/// So does a crash.
pub fn a_crash_keeps_the_invariant()
    ensures told { (m m' : Machine) (c : ℕ) (a : Answer) → Crashing m c a m' →
        m'.history ≡ m.history ++ entries_of m.history (crash c) a }
    ensures leads { (m m' : Machine) (c : ℕ) (a : Answer) → MachineInvariant m → Crashing m c a m' →
        Leads m m' }
    ensures keeps { (m m' : Machine) (c : ℕ) (a : Answer) → MachineInvariant m → Crashing m c a m' →
        MachineInvariant m' }
{}
