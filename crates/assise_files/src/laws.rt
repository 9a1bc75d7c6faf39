//! Laws of what one caller does. Each function does nothing: its contract is the law.
ghost use Rattle.std.specs.Prelude.{◌≡◌, ◌++◌, ◌∷◌, [], List, Result, ⊤, ℕ};
ghost use Rattle.assise_names.specs.declared.call.Op.{Op};
ghost use Rattle.assise_names.specs.declared.durability.Durability.{Durability};
ghost use Rattle.assise_names.specs.declared.refusal.Refusal.{Refusal};
ghost use Rattle.assise_names.specs.declared.reply.Reply.{Reply};
ghost use Rattle.assise_seq_tree.specs.Tree.{opening};
ghost use Rattle.assise_history.specs.declared.call.Call.{Call};
ghost use Rattle.assise_history.specs.Entries.{EntryValue, fails};
ghost use Rattle.assise_history.specs.Kept.{kept, tree_after};
ghost use Rattle.assise_history.specs.Legal.{IsLegal};
ghost use Rattle.assise_link.specs.Kinds.{Kind};
ghost use Rattle.assise_model_events.specs.Machine.{Machine};
ghost use Rattle.assise_rounds.specs.NodeLinks.{FaithfulAt};
ghost use Rattle.assise_rounds.specs.Traces.{IsEventTrace, Told};
ghost use Rattle.assise_rounds.specs.CallTries.{IsTriedOut};
ghost use Rattle.assise_files.specs.LostChanges.{TakesLastKept, failed_over, lost_changes, tree_with};
ghost use Rattle.assise_files.specs.Redo.{MakesAgain};
ghost use Rattle.assise_files.specs.declared.redo.LostChange.{LostChange};
ghost use Rattle.assise_files.specs.declared.redo.Unmade.{Unmade};

/// A call, with the rounds behind its tries, is a trace of events: so over it the history stays legal, and gets exactly their entries
/// (`a_trace_keeps_the_history_legal` of `assise_rounds`). So are changes that are made again. Of a round and of a return the laws
/// there say the same.
pub fn a_call_is_a_trace_of_events()
    ensures call { (links : List Kind) (turns c : ℕ) (op : Op) (r : Result Reply Refusal)
        (m : Machine) (es : Told) (m' : Machine) →
        IsTriedOut (FaithfulAt links) turns c op r m es m' → IsEventTrace m es m' }
    ensures redo { (links : List Kind) (turns first c : ℕ) (xs : List LostChange)
        (r : Result ⊤ Unmade) (m : Machine) (es : Told) (m' : Machine) →
        MakesAgain (FaithfulAt links) turns first c xs r m es m' → IsEventTrace m es m' }
{}

/// A failure took a client's last calls, and no other's, and another client was then opened. With the changes among these calls the tree
/// is what it was: so behind a redo that is Ok the new client finds what the old one had.
pub fn what_is_made_again_gives_the_tree_that_was()
    ensures { (h : List EntryValue) (c n first : ℕ) (d m : ℕ) (u : Durability)
        (left lost : List Call) →
        IsLegal (h ++ fails n (record { client = c; first = first } ∷ []) ∷ []) →
        TakesLastKept h (record { client = c; first = first } ∷ []) left lost →
        tree_with (tree_after opening (kept (failed_over h c n first d m u)))
        (lost_changes c first (failed_over h c n first d m u)) ≡ tree_after opening (kept h) }
{}
