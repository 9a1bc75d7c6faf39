//! What is read: by a client at its home, and of a node alone.
ghost use Rattle.std.specs.Prelude.{◌≡◌, List, false, true, ℕ};
ghost use Rattle.assise_record.specs.Records.{all_effects};
ghost use Rattle.assise_inode_table.specs.Effects.{contains, touched};
ghost use Rattle.assise_inode_table.specs.Spelled.{Spells};
ghost use Rattle.assise_inode_table.specs.Traces.{NumberedCall, exchanges, ops, step_of, values_after_calls};
ghost use Rattle.assise_model_world.specs.Invariant.{WorldInvariant};
ghost use Rattle.assise_model_world.specs.World.{Full, World, alone_at, calls_replicated, now, opening_values, received_by_all, records_between, step_at_home, tree, view};
ghost use Rattle.assise_seq_tree.specs.Answer.{answer};
ghost use Rattle.assise_seq_tree.specs.Runs.{AreAnswered, tree_after_calls};
ghost use Rattle.assise_seq_tree.specs.Tree.{opening as opening_tree};

/// A client whose node hasn't failed reads there of an inode that it holds what all calls made of it. So a call is, over what
/// its client reads, the step that it is over all calls, and it answers what the tree of all calls answers.
pub fn a_client_reads_what_the_calls_made()
    ensures value { (w : World) (c i : ℕ) → WorldInvariant w → w.lives c ≡ true →
        w.holds c i ≡ true → view w (w.home c) c i ≡ now w i }
    ensures step { (w : World) (x : NumberedCall) → WorldInvariant w → w.lives x.client ≡ true →
        ((i : ℕ) → contains (step_at_home w x).visits i ≡ true → w.holds x.client i ≡ true) →
        step_at_home w x ≡ step_of (now w) x }
    ensures reply { (w : World) (x : NumberedCall) → WorldInvariant w → w.lives x.client ≡ true →
        ((i : ℕ) → contains (step_at_home w x).visits i ≡ true → w.holds x.client i ≡ true) →
        (step_at_home w x).reply ≡ (answer (tree w) x.op).0 }
{}

/// What a full node's area and logs say alone are the inodes of the calls that all full nodes have. These are a run, and the
/// inodes spell its tree.
pub fn a_region_alone_says_the_replicated_calls()
    ensures values { (w : World) (n i : ℕ) → WorldInvariant w → Full w n →
        alone_at w n i ≡ values_after_calls opening_values (calls_replicated w) i }
    ensures spelled { (w : World) (n : ℕ) → WorldInvariant w → Full w n →
        Spells (alone_at w n) (tree_after_calls opening_tree (ops (calls_replicated w))) }
    ensures run { (w : World) (n : ℕ) → WorldInvariant w → Full w n →
        AreAnswered opening_tree (exchanges (calls_replicated w)) }
{}

/// What no record touches that stands in a log and that all full nodes have is the same in all areas of full nodes.
pub fn areas_agree_where_no_record_stands()
    ensures { (w : World) (n m i : ℕ) → WorldInvariant w → Full w n → Full w m →
        ((c : ℕ) → contains (touched (all_effects
        (records_between w c (w.first c) (received_by_all w c)))) i ≡ false) →
        w.area n i ≡ w.area m i }
{}
