//! A dsync of an optimistic client keeps the invariant, tells its answer, and can happen.
ghost use Rattle.std.specs.Prelude.{◌≡◌, ◌++◌, ◌<◌, None, true, ℕ};
ghost use Rattle.assise_names.specs.declared.call.Op.TheVariants.{Dsync};
ghost use Rattle.assise_names.specs.declared.reply.Reply.{Reply};
ghost use Rattle.assise_names.specs.declared.reply.Reply.TheVariants.{Done};
ghost use Rattle.assise_seq_tree.specs.Answer.{answer};
ghost use Rattle.assise_seq_tree.specs.Tree.{opening};
ghost use Rattle.assise_history.specs.Kept.{kept, tree_after};
ghost use Rattle.assise_record.specs.Groups.{AllHaveEffects};
ghost use Rattle.assise_model_world.specs.Regrouped.{Regroups};
ghost use Rattle.assise_model_world.specs.Invariant.{WorldInvariant};
ghost use Rattle.assise_model_world.specs.World.{World, end_of_log, received_by_all, records_between};
ghost use Rattle.assise_model_events.specs.Dsyncs.{Coalescing, IsCoalescing, coalesced_from, new_groups};
ghost use Rattle.assise_model_events.specs.Events.{Answer, entries_of, not_yet, replied, try_call};
ghost use Rattle.assise_model_events.specs.Faults.{client_fault};
ghost use Rattle.assise_model_events.specs.Happenings.{Leads};
ghost use Rattle.assise_model_events.specs.Machine.{MachineInvariant, Machine};

/// An optimistic client's dsync is told by its answer, leads on in the trace of the history, and keeps the invariant.
pub fn an_optimistic_dsync_keeps_the_invariant()
    ensures told { (m m' : Machine) (c : ℕ) (a : Answer) → Coalescing m c a m' →
        m'.history ≡ m.history ++ entries_of m.history (try_call c Dsync) a }
    ensures leads { (m m' : Machine) (c : ℕ) (a : Answer) → MachineInvariant m →
        Coalescing m c a m' → Leads m m' }
    ensures keeps { (m m' : Machine) (c : ℕ) (a : Answer) → MachineInvariant m →
        Coalescing m c a m' → MachineInvariant m' }
{}

/// It is answered exactly where all full nodes have all records of its client, what the tree of the kept calls answers. While it
/// is awaited, the records that only the home has are coalesced in groups.
pub fn a_dsync_coalesces_once()
    ensures reply { (m m' : Machine) (c : ℕ) (reply : Reply) → MachineInvariant m →
        Coalescing m c (replied reply) m' →
        reply ≡ (answer (tree_after opening (kept m.history)) Dsync).0 }
    ensures answered { (m m' : Machine) (c : ℕ) (reply : Reply) →
        Coalescing m c (replied reply) m' → received_by_all m.world c ≡ end_of_log m.world c }
    ensures awaited { (m m' : Machine) (c : ℕ) → Coalescing m c not_yet m' →
        IsCoalescing m c m' }
{}

/// Where a full node lacks records of a living client, a dsync can coalesce; where none does, it can be answered.
pub fn an_optimistic_dsync_can_happen()
    ensures regroups { (w : World) (c : ℕ) → WorldInvariant w → w.lives c ≡ true →
        AllHaveEffects (records_between w c (coalesced_from w c) (end_of_log w c)) →
        (u : World) × Regroups w c (coalesced_from w c) (new_groups w c) u }
    ensures coalesced { (m : Machine) (c : ℕ) → MachineInvariant m → client_fault m c ≡ None →
        received_by_all m.world c < end_of_log m.world c →
        AllHaveEffects (records_between m.world c (coalesced_from m.world c) (end_of_log m.world c))
        → (m' : Machine) × Coalescing m c not_yet m' }
    ensures synced { (m : Machine) (c : ℕ) → MachineInvariant m → client_fault m c ≡ None →
        received_by_all m.world c ≡ end_of_log m.world c →
        (m' : Machine) × Coalescing m c (replied Done) m' }
{}
