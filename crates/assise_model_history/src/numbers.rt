//! The calls of a history, with the numbers of the inodes that they make.
ghost use Rattle.std.specs.List.{list_any};
ghost use Rattle.std.specs.Prelude.{◌≡◌, ◌↔◌, ◌≤◌, ◌++◌, Contains, List, filter, length, map, not, ℕ};
ghost use Rattle.assise_history.specs.Entries.{EntryValue};
ghost use Rattle.assise_history.specs.Kept.{is_lost, kept};
ghost use Rattle.assise_inode_table.specs.Calls.{step};
ghost use Rattle.assise_inode_table.specs.Contents.{Values};
ghost use Rattle.assise_inode_table.specs.Effects.{makes};
ghost use Rattle.assise_inode_table.specs.Numbers.{makes_inode};
ghost use Rattle.assise_inode_table.specs.Traces.{NumberedCall};
ghost use Rattle.assise_model_history.specs.Numbered.{IsKeptAs, all_after, all_numbered, kept_after, kept_numbered, plain_call};
ghost use Rattle.assise_model_history.specs.State.{IsRecorded, State};
ghost use Rattle.assise_model_world.specs.Invariant.{WorldInvariant};
ghost use Rattle.assise_model_world.specs.World.{end_of_log};
ghost use Rattle.assise_names.specs.declared.call.Op.{Op};

/// The kept calls have the numbers that they have among all calls of the history, so that losing calls changes no
/// number. Without their numbers they are the history's kept calls.
pub fn the_kept_calls_have_their_numbers()
    ensures numbered { (h more : List EntryValue) →
        all_numbered (h ++ more) ≡ all_numbered h ++ all_after h more }
    ensures parts { (h more : List EntryValue) →
        kept_numbered (h ++ more) ≡ filter (λ x. not (is_lost more (plain_call x)))
        (kept_numbered h) ++ kept_after h more }
    ensures exactly { (h : List EntryValue) (x : NumberedCall) →
        Contains (kept_numbered h) x ↔ IsKeptAs h x }
    ensures plain { (h : List EntryValue) → map plain_call (kept_numbered h) ≡ kept h }
{}

/// A call makes an inode exactly where it is a create or a mkdir that is answered as done.
pub fn an_inode_is_made_where_the_reply_says_so()
    ensures { (v : Values) (op : Op) (fresh : ℕ) →
        list_any (makes fresh) (step v op fresh).effects ≡ makes_inode op (step v op fresh).reply }
{}

/// A client made at most as many calls as the history has entries, and its records have no higher numbers: so these fit
/// wherever the history's length does.
pub fn few_calls_are_made()
    ensures calls { (s : State) (c : ℕ) → IsRecorded s → s.world.next c ≤ length s.history }
    ensures records { (s : State) (c : ℕ) → WorldInvariant s.world → IsRecorded s →
        end_of_log s.world c ≤ length s.history }
{}
