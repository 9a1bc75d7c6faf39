//! What nodes do keeps the invariant, and no entry tells of it.
ghost use Rattle.std.specs.Prelude.{◌≡◌, ◌++◌, ℕ};
ghost use Rattle.assise_model_events.specs.NodeEvents.{Delivering, Digesting, Releasing, Sending, SettingHot};
ghost use Rattle.assise_model_events.specs.Events.{Answer, deliver, digest, outgoing, release_ready, set_hot, entries_of};
ghost use Rattle.assise_model_events.specs.Happenings.{Leads};
ghost use Rattle.assise_model_events.specs.Machine.{MachineInvariant, Machine};
ghost use Rattle.assise_record.specs.LogFrame.{LogFrame};

/// Frames that go out keep the invariant.
pub fn frames_that_go_out_keep_the_invariant()
    ensures told { (m m' : Machine) (n : ℕ) (a : Answer) → Sending m n a m' →
        m'.history ≡ m.history ++ entries_of m.history (outgoing n) a }
    ensures leads { (m m' : Machine) (n : ℕ) (a : Answer) → MachineInvariant m → Sending m n a m' →
        Leads m m' }
    ensures keeps { (m m' : Machine) (n : ℕ) (a : Answer) → MachineInvariant m → Sending m n a m' →
        MachineInvariant m' }
{}

/// So does a frame that comes to a node.
pub fn a_delivery_keeps_the_invariant()
    ensures told { (m m' : Machine) (f : LogFrame) (n : ℕ) (a : Answer) → Delivering m f n a m' →
        m'.history ≡ m.history ++ entries_of m.history (deliver f n) a }
    ensures leads { (m m' : Machine) (f : LogFrame) (n : ℕ) (a : Answer) → MachineInvariant m →
        Delivering m f n a m' → Leads m m' }
    ensures keeps { (m m' : Machine) (f : LogFrame) (n : ℕ) (a : Answer) → MachineInvariant m →
        Delivering m f n a m' → MachineInvariant m' }
{}

/// So does a digest.
pub fn a_digest_keeps_the_invariant()
    ensures told { (m m' : Machine) (n : ℕ) (a : Answer) → Digesting m n a m' →
        m'.history ≡ m.history ++ entries_of m.history (digest n) a }
    ensures leads { (m m' : Machine) (n : ℕ) (a : Answer) → MachineInvariant m →
        Digesting m n a m' → Leads m m' }
    ensures keeps { (m m' : Machine) (n : ℕ) (a : Answer) → MachineInvariant m →
        Digesting m n a m' → MachineInvariant m' }
{}

/// So does the release of all leases that may go.
pub fn a_release_keeps_the_invariant()
    ensures told { (m m' : Machine) (a : Answer) → Releasing m a m' →
        m'.history ≡ m.history ++ entries_of m.history release_ready a }
    ensures leads { (m m' : Machine) (a : Answer) → MachineInvariant m → Releasing m a m' →
        Leads m m' }
    ensures keeps { (m m' : Machine) (a : Answer) → MachineInvariant m → Releasing m a m' →
        MachineInvariant m' }
{}

/// So does a change of how many inodes may be hot.
pub fn a_hot_change_keeps_the_invariant()
    ensures told { (m m' : Machine) (n capacity : ℕ) (a : Answer) →
        SettingHot m n capacity a m' →
        m'.history ≡ m.history ++ entries_of m.history (set_hot n capacity) a }
    ensures leads { (m m' : Machine) (n capacity : ℕ) (a : Answer) →
        SettingHot m n capacity a m' → Leads m m' }
    ensures keeps { (m m' : Machine) (n capacity : ℕ) (a : Answer) →
        MachineInvariant m → SettingHot m n capacity a m' → MachineInvariant m' }
{}
