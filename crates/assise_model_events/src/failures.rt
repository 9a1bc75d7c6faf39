//! Failures and returns of nodes keep the invariant, and are told by the entries of their answers.
ghost use Rattle.std.specs.Prelude.{◌≡◌, ◌++◌, ℕ};
ghost use Rattle.assise_model_events.specs.MemberEvents.{Failing, Joining, Refilling, Returning};
ghost use Rattle.assise_model_events.specs.Events.{Answer, back, fail, join, refill, entries_of};
ghost use Rattle.assise_model_events.specs.Happenings.{Leads};
ghost use Rattle.assise_model_events.specs.Machine.{MachineInvariant, Machine};

/// A failure of a node keeps the invariant.
pub fn a_failure_keeps_the_invariant()
    ensures told { (m m' : Machine) (n : ℕ) (a : Answer) → Failing m n a m' →
        m'.history ≡ m.history ++ entries_of m.history (fail n) a }
    ensures leads { (m m' : Machine) (n : ℕ) (a : Answer) → MachineInvariant m → Failing m n a m' →
        Leads m m' }
    ensures keeps { (m m' : Machine) (n : ℕ) (a : Answer) → MachineInvariant m → Failing m n a m' →
        MachineInvariant m' }
{}

/// So does a node that begins to come back.
pub fn a_return_keeps_the_invariant()
    ensures told { (m m' : Machine) (n : ℕ) (a : Answer) → Returning m n a m' →
        m'.history ≡ m.history ++ entries_of m.history (back n) a }
    ensures leads { (m m' : Machine) (n : ℕ) (a : Answer) → MachineInvariant m →
        Returning m n a m' → Leads m m' }
    ensures keeps { (m m' : Machine) (n : ℕ) (a : Answer) → MachineInvariant m →
        Returning m n a m' → MachineInvariant m' }
{}

/// So does an inode that it is filled with.
pub fn a_refill_keeps_the_invariant()
    ensures told { (m m' : Machine) (n : ℕ) (a : Answer) → Refilling m n a m' →
        m'.history ≡ m.history ++ entries_of m.history (refill n) a }
    ensures leads { (m m' : Machine) (n : ℕ) (a : Answer) → MachineInvariant m →
        Refilling m n a m' → Leads m m' }
    ensures keeps { (m m' : Machine) (n : ℕ) (a : Answer) → MachineInvariant m →
        Refilling m n a m' → MachineInvariant m' }
{}

/// So does a node that is full again.
pub fn a_join_keeps_the_invariant()
    ensures told { (m m' : Machine) (n : ℕ) (a : Answer) → Joining m n a m' →
        m'.history ≡ m.history ++ entries_of m.history (join n) a }
    ensures leads { (m m' : Machine) (n : ℕ) (a : Answer) → MachineInvariant m → Joining m n a m' →
        Leads m m' }
    ensures keeps { (m m' : Machine) (n : ℕ) (a : Answer) → MachineInvariant m → Joining m n a m' →
        MachineInvariant m' }
{}
