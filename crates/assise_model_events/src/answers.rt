//! What each answer says.
ghost use Rattle.std.specs.Prelude.{◌≡◌, ◌≢◌, ◌+◌, ◌<◌, ◌≤◌, ◌↔◌, Contains, List, None, Some, false, [], length, max, true, ℕ};
ghost use Rattle.assise_names.specs.declared.call.Op.{Op};
ghost use Rattle.assise_names.specs.declared.refusal.Refusal.{Refusal};
ghost use Rattle.assise_names.specs.declared.refusal.Refusal.TheVariants.{Busy};
ghost use Rattle.assise_names.specs.declared.reply.Reply.{Reply};
ghost use Rattle.assise_seq_tree.specs.Answer.{answer};
ghost use Rattle.assise_seq_tree.specs.Tree.{opening};
ghost use Rattle.assise_history.specs.declared.call.Loss.{Loss};
ghost use Rattle.assise_history.specs.Kept.{kept, tree_after};
ghost use Rattle.assise_record.specs.LogFrame.{LogFrame};
ghost use Rattle.assise_manager.specs.Changes.{join_fault};
ghost use Rattle.assise_manager.specs.Standings.{full, standing_of};
ghost use Rattle.assise_model_world.specs.World.{Full, end_of_log, received_by_all};
ghost use Rattle.assise_model_leases.specs.Leases.{client_lease};
ghost use Rattle.assise_model_history.specs.Lost.{IsFirstLost};
ghost use Rattle.assise_model_events.specs.ClientEvents.{Calling, Syncing};
ghost use Rattle.assise_model_events.specs.Events.{Answer, ClusterEvent, is_call, digested, failed, joined, not_yet, received, refused, released, replied};
ghost use Rattle.assise_model_events.specs.Happenings.{Happens};
ghost use Rattle.assise_model_events.specs.Machine.{MachineInvariant, Machine};
ghost use Rattle.assise_model_events.specs.MemberEvents.{Failing, Joining};
ghost use Rattle.assise_model_events.specs.NodeEvents.{Delivering, Digesting, Releasing, is_ready, most_digested, undigested_to};
ghost use Rattle.assise_model_events.specs.Outcomes.{AwaitsLease};

/// A call is awaited only where some client then holds a revoked lease of the first inode that the call lacks, of those that it
/// visits and then of those that it changes. Its asking revoked no lease of its own client, nor one of another inode, nor one that
/// didn't stand in the way.
pub fn a_call_is_awaited_only_for_a_lease()
    ensures { (m m' : Machine) (c : ℕ) (op : Op) → Calling m c op not_yet m' →
        AwaitsLease m c op m' }
{}

/// A call is answered what the tree of the kept calls answers, and so is a sync.
pub fn replies_of_kept_calls()
    ensures call { (m m' : Machine) (c : ℕ) (op : Op) (reply : Reply) → MachineInvariant m →
        Calling m c op (replied reply) m' → reply ≡
        (answer (tree_after opening (kept m.history)) op).0 }
    ensures sync { (m m' : Machine) (c : ℕ) (op : Op) (reply : Reply) → MachineInvariant m →
        Syncing m c op (replied reply) m' →
        reply ≡ (answer (tree_after opening (kept m.history)) op).0 }
{}

/// A sync is answered exactly where all full nodes have all records of its client.
pub fn a_sync_is_answered_once_replicated()
    ensures answered { (m m' : Machine) (c : ℕ) (op : Op) (reply : Reply) →
        Syncing m c op (replied reply) m' → received_by_all m.world c ≡ end_of_log m.world c }
    ensures awaited { (m m' : Machine) (c : ℕ) (op : Op) → Syncing m c op not_yet m' →
        received_by_all m.world c < end_of_log m.world c }
{}

/// A delivery answers the greater of what the node had received and the end of the frame, and so much it has then.
pub fn a_delivery_answers_what_the_node_has()
    ensures answered { (m m' : Machine) (f : LogFrame) (n k : ℕ) →
        Delivering m f n (received k) m' → k ≡ max (m.world.received n f.client)
        (f.first + length f.records) }
    ensures stands { (m m' : Machine) (f : LogFrame) (n k : ℕ) → Delivering m f n (received k) m' →
        m'.world.received n f.client ≡ k }
{}

/// A digest answers 0 only where nothing is to be digested, and never more than 64.
pub fn a_digest_of_none()
    ensures none { (m m' : Machine) (n : ℕ) → Digesting m n (digested 0) m' →
        undigested_to m.world n m.world.clients ≡ 0 }
    ensures most { (m m' : Machine) (n count : ℕ) → Digesting m n (digested count) m' →
        count ≤ most_digested }
{}

/// All leases go that are ready, and no others.
pub fn all_leases_go_that_are_ready()
    ensures ready { (m m' : Machine) (a : Answer) (c i : ℕ) → Releasing m a m' →
        is_ready m.world m.leases c i ≡ true → client_lease m'.leases c i ≡ None }
    ensures others { (m m' : Machine) (a : Answer) (c i : ℕ) → MachineInvariant m →
        Releasing m a m' → is_ready m.world m.leases c i ≡ false →
        client_lease m'.leases c i ≡ client_lease m.leases c i }
{}

/// A failure of a full node lists exactly those clients that live there and of which some other full node lacks a record, each with
/// the call of the first such record. A failure of a node that isn't full lists none.
pub fn a_failure_lists_its_losses()
    ensures exactly { (m m' : Machine) (n : ℕ) (losses : List Loss) (l : Loss) →
        MachineInvariant m → standing_of m.members.nodes n ≡ Some full →
        Failing m n (failed losses) m' → Contains losses l ↔ IsFirstLost m.world n l }
    ensures again { (m m' : Machine) (n : ℕ) (losses : List Loss) →
        standing_of m.members.nodes n ≢ Some full → Failing m n (failed losses) m' → losses ≡ [] }
{}

/// A node that may lack inodes can't join, and one that lacks none isn't refused so.
pub fn a_join_waits_for_stale_inodes()
    ensures busy { (m m' : Machine) (n : ℕ) → Joining m n (refused Busy) m' →
        join_fault m.members n ≡ Some Busy }
    ensures same { (m m' : Machine) (n : ℕ) → Joining m n (refused Busy) m' → m' ≡ m }
    ensures joined { (m m' : Machine) (n : ℕ) → Joining m n joined m' →
        join_fault m.members n ≡ None }
{}

/// What happens at one node leaves the areas of all others: a frame that comes in leaves all areas, and a digest leaves each but its
/// own node's, as a call leaves all of them.
pub fn node_events_leave_areas()
    ensures delivery { (m m' : Machine) (f : LogFrame) (n k : ℕ) →
        Delivering m f n (received k) m' → (j i : ℕ) → Full m.world j →
        m'.world.area j i ≡ m.world.area j i }
    ensures digest { (m m' : Machine) (n count : ℕ) → Digesting m n (digested count) m' →
        (j i : ℕ) → Full m.world j → j ≢ n → m'.world.area j i ≡ m.world.area j i }
    ensures call { (m m' : Machine) (c : ℕ) (op : Op) (reply : Reply) → MachineInvariant m →
        Calling m c op (replied reply) m' → (j i : ℕ) → Full m.world j →
        m'.world.area j i ≡ m.world.area j i }
{}

/// A refused event leaves the machine as it was. A call that is refused may have got leases, and leaves the history and the members.
pub fn a_refusal_changes_nothing()
    ensures same { (m m' : Machine) (e : ClusterEvent) (r : Refusal) → is_call e ≡ false →
        Happens m e (refused r) m' → m' ≡ m }
    ensures history { (m m' : Machine) (c : ℕ) (op : Op) (r : Refusal) →
        Calling m c op (refused r) m' → m'.history ≡ m.history }
    ensures members { (m m' : Machine) (c : ℕ) (op : Op) (r : Refusal) →
        Calling m c op (refused r) m' → m'.members ≡ m.members }
{}
