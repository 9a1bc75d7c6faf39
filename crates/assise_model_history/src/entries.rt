//! Each entry is recorded.
ghost use Rattle.std.specs.Prelude.{◌≡◌, List, [], suc, true, ℕ};
ghost use Rattle.assise_history.specs.Kept.{kept, tree_after};
ghost use Rattle.assise_history.specs.Legal.{IsAlive, IsDown, IsFair, IsNextCall, MayOpen, syncs};
ghost use Rattle.assise_inode_table.specs.Traces.{NumberedCall};
ghost use Rattle.assise_model_history.specs.Entered.{IsCall, IsCrash, IsFailure, IsFailureAgain, IsOpening, IsUntold, IsReturn};
ghost use Rattle.assise_model_history.specs.Lost.{losses_of};
ghost use Rattle.assise_model_history.specs.Numbered.{plain_call};
ghost use Rattle.assise_model_history.specs.State.{IsRecorded, State};
ghost use Rattle.assise_model_world.specs.Invariant.{WorldInvariant};
ghost use Rattle.assise_model_world.specs.World.{first_unreplicated};
ghost use Rattle.assise_names.specs.declared.durability.Durability.{Durability};
ghost use Rattle.assise_seq_tree.specs.Answer.{answer};
ghost use Rattle.assise_seq_tree.specs.Tree.{opening};

/// The opening of a client is recorded: it has the next number, and its node is up.
pub fn an_opening_is_recorded()
    ensures fits { (s t : State) (n : ℕ) (u : Durability) → IsRecorded s → IsOpening s n u t →
        MayOpen s.history (suc s.world.clients) n }
    ensures recorded { (s t : State) (n : ℕ) (u : Durability) → WorldInvariant s.world →
        IsRecorded s → IsOpening s n u t → IsRecorded t }
{}

/// A call is recorded: it is the next of its client, which neither crashed nor lost its node, and its reply is that of the tree
/// of the kept calls. Once a sync is answered, all full nodes have all of its client's calls.
pub fn a_call_is_recorded()
    ensures fits { (s t : State) (x : NumberedCall) → WorldInvariant s.world → IsRecorded s →
        IsCall s x t → IsNextCall s.history (plain_call x) }
    ensures reply { (s t : State) (x : NumberedCall) → WorldInvariant s.world → IsRecorded s →
        IsCall s x t → x.reply ≡ (answer (tree_after opening (kept s.history)) x.op).0 }
    ensures recorded { (s t : State) (x : NumberedCall) → WorldInvariant s.world → IsRecorded s →
        IsCall s x t → IsRecorded t }
    ensures calls_replicated { (s t : State) (x : NumberedCall) → IsCall s x t →
        syncs s.history (plain_call x) ≡ true →
        first_unreplicated t.world x.client ≡ t.world.next x.client }
{}

/// A crash is recorded: its client hasn't crashed before.
pub fn a_crash_is_recorded()
    ensures fits { (s t : State) (c : ℕ) → WorldInvariant s.world → IsRecorded s → IsCrash s c t →
        IsAlive s.history c }
    ensures recorded { (s t : State) (c : ℕ) → WorldInvariant s.world → IsRecorded s →
        IsCrash s c t → IsRecorded t }
{}

/// A failure of a full node is recorded: what it lists is fair.
pub fn a_failure_is_recorded()
    ensures fits { (s : State) (n : ℕ) → WorldInvariant s.world → IsRecorded s →
        IsFair s.history n (losses_of s.world n) }
    ensures recorded { (s t : State) (n : ℕ) → WorldInvariant s.world → IsRecorded s →
        IsFailure s n t → IsRecorded t }
{}

/// So is a failure of a node that isn't full.
pub fn a_second_failure_is_recorded()
    ensures fits { (s : State) (n : ℕ) → IsFair s.history n [] }
    ensures recorded { (s t : State) (n : ℕ) → WorldInvariant s.world → IsRecorded s →
        IsFailureAgain s n t → IsRecorded t }
{}

/// A return is recorded: its node was down.
pub fn a_return_is_recorded()
    ensures fits { (s t : State) (n donor : ℕ) → IsRecorded s → IsReturn s n donor t →
        IsDown s.history n }
    ensures recorded { (s t : State) (n donor : ℕ) → WorldInvariant s.world → IsRecorded s →
        IsReturn s n donor t → IsRecorded t }
{}

/// Goals, leases, deliveries, digests, dropped prefixes, coalesced records, and what nodes have that aren't full, need no entry.
pub fn what_is_quiet_needs_no_entry()
    ensures { (s t : State) → WorldInvariant s.world → IsRecorded s → IsUntold s t → IsRecorded t }
{}
