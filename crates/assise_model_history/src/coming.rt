//! Each entry can come.
ghost use Rattle.std.specs.Prelude.{◌≡◌, List, false, true, ℕ};
ghost use Rattle.assise_history.specs.Legal.{syncs};
ghost use Rattle.assise_inode_table.specs.Traces.{NumberedCall};
ghost use Rattle.assise_model_history.specs.Traces.{IsTrace, IsEventful, IsLossy, last_of};
ghost use Rattle.assise_model_history.specs.Entered.{IsCall, IsCrash, IsFailure, IsFailureAgain, IsOpening, IsReturn};
ghost use Rattle.assise_model_history.specs.State.{IsNode, State, begun_with};
ghost use Rattle.assise_model_world.specs.Chances.{MayMakeCall, MayFail};
ghost use Rattle.assise_model_world.specs.Invariant.{WorldInvariant};
ghost use Rattle.assise_model_world.specs.World.{Full, end_of_log, received_by_all};
ghost use Rattle.assise_model_history.specs.Numbered.{plain_call};
ghost use Rattle.assise_names.specs.declared.call.Op.TheVariants.{Fsync};
ghost use Rattle.assise_names.specs.declared.durability.Durability.{Durability};

/// Each thing that an entry tells of can happen.
pub fn each_entry_can_come()
    ensures opening { (s : State) (n : ℕ) (u : Durability) → Full s.world n → (t : State) ×
        IsOpening s n u t }
    ensures call { (s : State) (x : NumberedCall) → WorldInvariant s.world → MayMakeCall s.world x →
        (syncs s.history (plain_call x) ≡ true →
        received_by_all s.world x.client ≡ end_of_log s.world x.client) →
        (t : State) × IsCall s x t }
    ensures fsync { (s : State) (c : ℕ) → WorldInvariant s.world → s.world.lives c ≡ true →
        s.world.crashed c ≡ false → received_by_all s.world c ≡ end_of_log s.world c →
        (x : NumberedCall) × ((x.client ≡ c) × (x.op ≡ Fsync) × ((t : State) × IsCall s x t)) }
    ensures crash { (s : State) (c : ℕ) → s.world.lives c ≡ true → s.world.crashed c ≡ false →
        (t : State) × IsCrash s c t }
    ensures failure { (s : State) (n : ℕ) → MayFail s.world n → (t : State) × IsFailure s n t }
    ensures failure_again { (s : State) (n : ℕ) → IsNode s n → (Full s.world n → ⊥) →
        (t : State) × IsFailureAgain s n t }
    ensures comeback { (s : State) (n donor : ℕ) → IsNode s n → (Full s.world n → ⊥) →
        Full s.world donor → (t : State) × IsReturn s n donor t }
{}

/// All of them can in one trace from the start.
pub fn all_entries_can_come_in_one_trace()
    ensures { (ts : List State) × (IsTrace (begun_with 2) ts ×
        IsEventful (last_of (begun_with 2) ts).history) }
{}

/// A failure can take a call, and then it lists it.
pub fn a_failure_can_take_a_call()
    ensures { (ts : List State) × (IsTrace (begun_with 2) ts ×
        IsLossy (last_of (begun_with 2) ts).history) }
{}
