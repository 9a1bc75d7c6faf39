//! Laws of legal histories and of what is kept. Each function does nothing: its contract is the law.
ghost use Rattle.std.specs.Prelude.{◌≡◌, ◌↔◌, ◌+◌, ◌++◌, ◌∷◌, Contains, IsTrue, List, [], filter, not, ℕ};
ghost use Rattle.assise_history.specs.declared.call.Call.{Call};
ghost use Rattle.assise_history.specs.declared.call.Loss.{Loss};
ghost use Rattle.assise_history.specs.Entries.{EntryValue, calls, crashes, fails, opens, returns};
ghost use Rattle.assise_history.specs.Kept.{IsRun, IsTaken, Stays, is_lost, kept, kept_more, tree_after};
ghost use Rattle.assise_history.specs.Legal.{Fits, IsAlive, IsDown, IsFair, IsLegal, IsNextCall, IsOn, IsPastSyncs, MayCall, MayFollow, MayOpen, ClientsAscend, calls_made, clients_opened};
ghost use Rattle.assise_history.specs.Opened.{OpensOnce};
ghost use Rattle.assise_names.specs.declared.durability.Durability.{Durability};
ghost use Rattle.assise_seq_tree.specs.Tree.{opening};
ghost use Rattle.assise_seq_tree.specs.Answer.{answer};

/// A prefix of a legal history is legal, and so is a history in which nothing happened.
pub fn a_prefix_of_a_legal_history_is_legal()
    ensures prefix { (prefix more : List EntryValue) → IsLegal (prefix ++ more) → IsLegal prefix }
    ensures none { IsLegal [] }
{}

/// A history is legal exactly where the kept calls of each of its prefixes are a run, and each of its entries may follow
/// those before it.
pub fn each_entry_may_follow_those_before_it()
    ensures { (h : List EntryValue) → IsLegal h ↔
        (((prefix later : List EntryValue) → h ≡ prefix ++ later → IsRun opening (kept prefix)) ×
        ((before later : List EntryValue) (e : EntryValue) → h ≡ before ++ e ∷ later →
        MayFollow before e)) }
{}

/// With an entry more a history is legal exactly where it was, and the entry may follow it: a client is opened
/// under the next number, on a node that isn't down; a call is the next of its client, which neither crashed nor
/// lost its node since its open, and its reply is the answer on the tree of the kept calls; a client crashes that
/// was opened and hasn't crashed; a failure is fair, and what it leaves is a run; and a node returns that is down.
pub fn one_entry_more()
    ensures any { (h : List EntryValue) (e : EntryValue) →
        IsLegal (h ++ e ∷ []) ↔ (IsLegal h × Fits h e) }
    ensures opened { (h : List EntryValue) (c n : ℕ) (u : Durability) →
        IsLegal (h ++ opens c n u ∷ []) ↔ (IsLegal h × MayOpen h c n) }
    ensures called { (h : List EntryValue) (x : Call) →
        IsLegal (h ++ calls x ∷ []) ↔ (IsLegal h ×
        (IsNextCall h x × (x.reply ≡ (answer (tree_after opening (kept h)) x.op).0))) }
    ensures crashed { (h : List EntryValue) (c : ℕ) →
        IsLegal (h ++ crashes c ∷ []) ↔ (IsLegal h × IsAlive h c) }
    ensures failed { (h : List EntryValue) (n : ℕ) (losses : List Loss) →
        IsLegal (h ++ fails n losses ∷ []) ↔ (IsLegal h ×
        (IsFair h n losses × IsRun opening (kept (h ++ fails n losses ∷ [])))) }
    ensures returned { (h : List EntryValue) (n : ℕ) →
        IsLegal (h ++ returns n ∷ []) ↔ (IsLegal h × IsDown h n) }
{}

/// A call's number is the count of its client's earlier calls. Its client was opened before it, and neither did it
/// crash nor did its node fail between. Its reply is the answer on the tree of the calls that were kept until then.
pub fn a_call_is_the_next_of_an_open_client()
    ensures number { (h before later : List EntryValue) (x : Call) → IsLegal h →
        h ≡ before ++ calls x ∷ later → x.number ≡ calls_made x.client before }
    ensures ready { (h before later : List EntryValue) (x : Call) → IsLegal h →
        h ≡ before ++ calls x ∷ later → MayCall before x.client }
    ensures reply { (h before later : List EntryValue) (x : Call) → IsLegal h →
        h ≡ before ++ calls x ∷ later → x.reply ≡
        (answer (tree_after opening (kept before)) x.op).0 }
{}

/// Clients are numbered from 1 in the order of their opening, so that none is opened twice. An open names a node
/// that isn't down, and a return one that is.
pub fn clients_are_opened_in_order()
    ensures next { (h before later : List EntryValue) (c n : ℕ) (u : Durability) → IsLegal h →
        h ≡ before ++ opens c n u ∷ later → c ≡ clients_opened before + 1 }
    ensures once { (h : List EntryValue) → IsLegal h → OpensOnce h }
    ensures up { (h before later : List EntryValue) (c n : ℕ) (u : Durability) → IsLegal h →
        h ≡ before ++ opens c n u ∷ later → IsDown before n → ⊥ }
    ensures down { (h before later : List EntryValue) (n : ℕ) → IsLegal h →
        h ≡ before ++ returns n ∷ later → IsDown before n }
{}

/// A client crashes once, after its open. Its node may have failed before.
pub fn only_an_open_client_crashes()
    ensures { (h before later : List EntryValue) (c : ℕ) → IsLegal h →
        h ≡ before ++ crashes c ∷ later → IsAlive before c }
{}

/// A failure lists clients that were opened on its node, with no failure of the node between, once each, and it
/// takes none of a client's calls up to its last sync.
pub fn a_failure_is_fair()
    ensures ascending { (h before later : List EntryValue) (n : ℕ) (losses : List Loss) →
        IsLegal h → h ≡ before ++ fails n losses ∷ later → ClientsAscend losses }
    ensures on { (h before later : List EntryValue) (n : ℕ) (lower higher : List Loss) (l : Loss) →
        IsLegal h → h ≡ before ++ fails n (lower ++ l ∷ higher) ∷ later → IsOn before l.client n }
    ensures past { (h before later : List EntryValue) (n : ℕ) (lower higher : List Loss)
        (l : Loss) → IsLegal h → h ≡ before ++ fails n (lower ++ l ∷ higher) ∷ later →
        IsPastSyncs before l }
{}

/// A call is lost exactly where a later failure lists its client from it or from an earlier call on.
pub fn what_a_later_failure_lists_is_lost()
    ensures { (later : List EntryValue) (x : Call) → IsTrue (is_lost later x) ↔ IsTaken later x }
{}

/// A call is kept exactly where it was answered and no later failure takes it. What is kept of a history and more
/// entries is what was kept and isn't lost by them, and then what is kept of them.
pub fn the_rest_is_kept()
    ensures exactly { (h : List EntryValue) (x : Call) → Contains (kept h) x ↔ Stays h x }
    ensures parts { (h more : List EntryValue) →
        kept (h ++ more) ≡ filter (λ x. not (is_lost more x)) (kept h) ++ kept more }
    ensures one_more { (h : List EntryValue) (e : EntryValue) →
        kept (h ++ e ∷ []) ≡ kept_more (kept h) e }
{}

/// The kept calls of a legal history are a run from the opening tree. Only calls and failures change what is kept, so
/// it is enough for a legal history that each entry may follow those before it, that each reply is the answer on the
/// tree of the calls that were kept until then, and that what each failure leaves is a run.
pub fn the_kept_calls_are_a_run()
    ensures run { (h : List EntryValue) → IsLegal h → IsRun opening (kept h) }
    ensures enough { (h : List EntryValue) → ((before later : List EntryValue) (e : EntryValue) →
        h ≡ before ++ e ∷ later → MayFollow before e) →
        ((before later : List EntryValue) (x : Call) → h ≡ before ++ calls x ∷ later →
        x.reply ≡ (answer (tree_after opening (kept before)) x.op).0) →
        ((before later : List EntryValue) (n : ℕ) (losses : List Loss) →
        h ≡ before ++ fails n losses ∷ later → IsRun opening (kept (before ++ fails n losses ∷ [])))
        → IsLegal h }
{}
