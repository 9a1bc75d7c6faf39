//! What all full nodes have, and what others have seen.
ghost use Rattle.std.specs.Prelude.{◌≡◌, ◌≢◌, ◌<◌, ◌≤◌, ◌==◌, List, false, filter, true, ℕ};
ghost use Rattle.assise_record.specs.Records.{all_effects};
ghost use Rattle.assise_inode_table.specs.Effects.{contains, touched};
ghost use Rattle.assise_inode_table.specs.Traces.{Each};
ghost use Rattle.assise_inode_table.specs.Unseen.{Unseen};
ghost use Rattle.assise_model_world.specs.Invariant.{WorldInvariant};
ghost use Rattle.assise_model_world.specs.World.{Full, World, digested_by_all, end_of_log, calls_replicated, first_undigested, first_unreplicated, received_by_all, records_between, steps};

/// A client's own log is the log at its home, and where its node has failed, that of each full node.
pub fn a_clients_log_is_its_homes()
    ensures home { (w : World) (c : ℕ) → WorldInvariant w → w.lives c ≡ true →
        w.records c ≡ w.log (w.home c) c }
    ensures left { (w : World) (n c : ℕ) → WorldInvariant w → w.lives c ≡ false → Full w n →
        w.records c ≡ w.log n c }
{}

/// A client whose records all full nodes have, loses none of its calls that are kept: all of them are replicated. So it is
/// once an fsync has waited for them.
pub fn what_all_full_nodes_have_is_replicated()
    ensures next { (w : World) (c : ℕ) → received_by_all w c ≡ end_of_log w c →
        first_unreplicated w c ≡ w.next c }
    ensures calls { (w : World) (c : ℕ) → WorldInvariant w → received_by_all w c ≡ end_of_log w c →
        filter (λ x. x.client == c) (calls_replicated w) ≡ filter (λ x. x.client == c) w.calls }
{}

/// Of an inode that a client doesn't hold for writing, all full nodes have digested all of its changes, and have its calls up
/// to these: so it is with an inode that it handed over.
pub fn what_was_handed_over_is_replicated()
    ensures digested { (w : World) (c i : ℕ) → WorldInvariant w → w.writes c i ≡ false →
        Each (λ x. x.0.client ≡ c → contains (touched x.1.effects) i ≡ true →
        x.0.number < first_undigested w c) (steps w) }
    ensures calls_replicated { (w : World) (c : ℕ) → WorldInvariant w →
        first_undigested w c ≤ first_unreplicated w c }
{}

/// What a record touches that some full node has not digested, its client holds for writing. So what two clients' logs touch
/// is disjoint, and what a call changed that some full node may lack, no later call of another client visits or changes.
pub fn nobody_has_seen_what_some_node_may_lack()
    ensures guarded { (w : World) (c i : ℕ) → WorldInvariant w →
        contains (touched (all_effects (records_between w c (digested_by_all w c)
        (end_of_log w c)))) i ≡ true → w.writes c i ≡ true }
    ensures disjoint { (w : World) (c d i : ℕ) → WorldInvariant w → c ≢ d →
        contains (touched (all_effects (w.records c))) i ≡ true →
        contains (touched (all_effects (w.records d))) i ≡ false }
    ensures unseen { (w : World) → WorldInvariant w → Unseen (first_unreplicated w) (steps w) }
{}
