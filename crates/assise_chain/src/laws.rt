//! Laws of chains. Each function does nothing: its contract is the law.
ghost use Rattle.std.specs.Prelude.{Bool, ◌≡◌, ◌≢◌, ◌+◌, ◌<◌, ◌≤◌, true, length, ◌↔◌, ℕ, List, [], ◌∷◌, ◌++◌, Some, None};
ghost use Rattle.assise_record.specs.LogFrame.{LogFrame};
ghost use Rattle.assise_private_log.specs.NumberedLog.{IsNumberedLog, NumberedLog, end, is_border};
ghost use Rattle.assise_chain.specs.Acceptance.{IsTimely, records_past};
ghost use Rattle.assise_chain.specs.Chains.{IsAscending, behind, chain, first_of_all};
ghost use Rattle.assise_chain.specs.Lists.{AllDiffer, IsOneOf};
ghost use Rattle.assise_chain.specs.Messages.{first_sent, message_of, sent};
ghost use Rattle.assise_chain.specs.Passing.{AllSteps, ChainIsBegun, IsPrefixOf, Nodes, ChainStep};

/// The full nodes stand in the chain, and nobody else does: whoever isn't full has nobody behind.
pub fn the_full_nodes_stand_in_the_chain()
    ensures full { (full : List ℕ) (head node : ℕ) →
        IsOneOf (chain full head) node ↔ IsOneOf full node }
    ensures others { (full : List ℕ) (head node : ℕ) → (IsOneOf full node → ⊥) →
        behind node (chain full head) ≡ None }
{}

/// Where the full nodes are given in ascending order, each stands in the chain once, and the head first, if it is full.
pub fn each_full_node_stands_once()
    ensures once { (full : List ℕ) (head : ℕ) → IsAscending full → AllDiffer (chain full head) }
    ensures first { (full : List ℕ) (head : ℕ) → IsAscending full → IsOneOf full head →
        first_of_all (chain full head) ≡ Some head }
{}

/// Where the full nodes are given in ascending order, each node but the last passes to the next, the last to nobody, and nobody
/// to itself.
pub fn each_node_passes_to_the_next()
    ensures next { (full prefix rest : List ℕ) (head node next : ℕ) → IsAscending full →
        chain full head ≡ prefix ++ node ∷ next ∷ rest → behind node (chain full head) ≡ Some next }
    ensures last { (full prefix : List ℕ) (head node : ℕ) → IsAscending full →
        chain full head ≡ prefix ++ node ∷ [] → behind node (chain full head) ≡ None }
    ensures other { (full : List ℕ) (head node : ℕ) → IsAscending full →
        behind node (chain full head) ≢ Some node }
{}

/// Records that are sent from a log's end on, by a node that hasn't let them go, are taken in, all of them.
pub fn what_is_sent_from_the_end_is_taken_in()
    ensures timely { (from l : NumberedLog) (f : LogFrame) (marked : Bool) (epoch client to : ℕ) →
        from.first ≤ end l → message_of from marked epoch client (end l) to ≡ Some f →
        IsTimely (end l) f epoch }
    ensures taken { (from l : NumberedLog) (f : LogFrame) (marked : Bool) (epoch client to : ℕ) →
        from.first ≤ end l → message_of from marked epoch client (end l) to ≡ Some f →
        records_past l f ≡ sent from (end l) to }
{}

/// What is sent ends with a group of the log; and up to a border some is sent, unless nothing is there.
pub fn what_is_sent_is_whole_groups()
    ensures border { (l : NumberedLog) (from to : ℕ) → 0 < length (sent l from to) →
        is_border l (first_sent l from + length (sent l from to)) ≡ true }
    ensures some { (l : NumberedLog) (from to : ℕ) → IsNumberedLog l → first_sent l from < to →
        to ≤ end l →
        is_border l to ≡ true → 0 < length (sent l from to) }
{}

/// Whatever of the messages of an epoch is lost, repeated or brought in another order, and whoever sends them, what a full
/// node has is a prefix of the head's log, also while all full nodes let go what each of them has had.
pub fn each_log_is_a_prefix_of_the_heads()
    ensures { (full : List ℕ) (head epoch client : ℕ) (steps : List ChainStep) (old new : Nodes) →
        ChainIsBegun full head epoch old → AllSteps full head epoch client old steps new →
        (node : ℕ) → IsOneOf full node → IsPrefixOf (new.logs node) (new.logs head) }
{}
