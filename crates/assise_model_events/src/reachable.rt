//! Each outcome of each event comes in a state that the cluster can come to.
ghost use Rattle.std.specs.Prelude.{◌≡◌, ◌≢◌, List, Some, [], ◌∷◌, suc, ℕ};
ghost use Rattle.assise_names.specs.declared.call.Op.{Op};
ghost use Rattle.assise_names.specs.declared.call.Op.TheVariants.{Create, Fsync};
ghost use Rattle.assise_names.specs.declared.durability.Durability.TheVariants.{Optimistic, Pessimistic};
ghost use Rattle.assise_names.specs.declared.refusal.Refusal.TheVariants.{Busy, ClientGone, InodesSpent, LastNode, LogFull, NodeDown, OutOfMemory, StaleMessage, WrongPhase};
ghost use Rattle.assise_names.specs.declared.reply.Reply.TheVariants.{Done};
ghost use Rattle.assise_history.specs.declared.call.Loss.{Loss};
ghost use Rattle.assise_history.specs.Legal.{durability_of};
ghost use Rattle.assise_manager.specs.Standings.{full, standing_of};
ghost use Rattle.assise_record.specs.LogFrame.{LogFrame};
ghost use Rattle.assise_model_events.specs.ClientEvents.{Calling, Crashing, Opening, Syncing};
ghost use Rattle.assise_model_events.specs.Dsyncs.{Coalescing};
ghost use Rattle.assise_model_events.specs.Events.{began, crashed, digested, failed, hot_set, joined, left, not_yet, opened, raised, received, refused, released, replied, sent};
ghost use Rattle.assise_model_events.specs.MemberEvents.{Failing, Joining, Raising, Refilling, Returning, stale_at};
ghost use Rattle.assise_model_events.specs.NodeEvents.{Delivering, Digesting, Releasing, Sending, SettingHot};
ghost use Rattle.assise_model_events.specs.Reached.{Comes};

/// What clients do is answered, is awaited and is refused in some state that two nodes can come to.
pub fn each_outcome_of_what_clients_do_comes()
    ensures opened { Comes (λ m m'. Opening m 1 Pessimistic (opened 1) m') }
    ensures not_opened { Comes (λ m m'. Opening m 2 Pessimistic (refused NodeDown) m') }
    ensures not_opened_for_memory { Comes
        (λ m m'. Opening m 1 Pessimistic (refused OutOfMemory) m') }
    ensures called { (p : List (List ℕ)) × Comes
        (λ m m'. Calling m 1 (Create p) (replied Done) m') }
    ensures call_awaited { (op : Op) × Comes (λ m m'. Calling m 2 op not_yet m') }
    ensures log_full { (op : Op) × Comes (λ m m'. Calling m 1 op (refused LogFull) m') }
    ensures not_called { (op : Op) × Comes (λ m m'. Calling m 1 op (refused ClientGone) m') }
    ensures not_called_for_memory { (op : Op) ×
        Comes (λ m m'. Calling m 1 op (refused OutOfMemory) m') }
    ensures synced { Comes (λ m m'. Syncing m 1 Fsync (replied Done) m') }
    ensures sync_awaited { Comes (λ m m'. Syncing m 1 Fsync not_yet m') }
    ensures not_synced { Comes (λ m m'. Syncing m 1 Fsync (refused ClientGone) m') }
    ensures not_synced_for_memory { Comes (λ m m'. Syncing m 1 Fsync (refused OutOfMemory) m') }
    ensures coalesced { Comes (λ m m'. (durability_of 1 m.history ≡ Optimistic) ×
        Coalescing m 1 not_yet m') }
    ensures coalescing_synced { Comes (λ m m'. (durability_of 1 m.history ≡ Optimistic) ×
        Coalescing m 1 (replied Done) m') }
    ensures not_coalesced { Comes (λ m m'. (durability_of 1 m.history ≡ Optimistic) ×
        Coalescing m 1 (refused ClientGone) m') }
    ensures not_coalesced_for_memory { Comes (λ m m'. (durability_of 1 m.history ≡ Optimistic) ×
        Coalescing m 1 (refused OutOfMemory) m') }
    ensures crashed { Comes (λ m m'. Crashing m 1 crashed m') }
    ensures not_crashed { Comes (λ m m'. Crashing m 1 (refused ClientGone) m') }
    ensures not_crashed_for_memory { Comes (λ m m'. Crashing m 1 (refused OutOfMemory) m') }
{}

/// A client that makes inodes again and again comes to have made as many as it may.
pub fn a_client_can_spend_its_inodes()
    ensures { (op : Op) × Comes (λ m m'. Calling m 1 op (refused InodesSpent) m') }
{}

/// What nodes do is done and is refused in some state that two nodes can come to: a frame is sent, a record received and digested,
/// a lease handed over.
pub fn each_outcome_of_what_nodes_do_comes()
    ensures sent { (f : LogFrame) × Comes (λ m m'. Sending m 1 (sent ((f, 2) ∷ [])) m') }
    ensures not_sent { Comes (λ m m'. Sending m 2 (refused WrongPhase) m') }
    ensures not_sent_for_memory { Comes (λ m m'. Sending m 1 (refused OutOfMemory) m') }
    ensures delivered { (f : LogFrame) × Comes (λ m m'. Delivering m f 2 (received 1) m') }
    ensures stale { (f : LogFrame) × Comes (λ m m'. Delivering m f 2 (refused StaleMessage) m') }
    ensures not_delivered { (f : LogFrame) × Comes
        (λ m m'. Delivering m f 2 (refused WrongPhase) m') }
    ensures not_delivered_for_memory { (f : LogFrame) ×
        Comes (λ m m'. Delivering m f 2 (refused OutOfMemory) m') }
    ensures digested { Comes (λ m m'. Digesting m 1 (digested 1) m') }
    ensures not_digested { Comes (λ m m'. Digesting m 2 (refused WrongPhase) m') }
    ensures not_digested_for_memory { Comes (λ m m'. Digesting m 1 (refused OutOfMemory) m') }
    ensures released { (count : ℕ) × Comes (λ m m'. Releasing m (released (suc count)) m') }
    ensures hot { Comes (λ m m'. SettingHot m 1 64 hot_set m') }
    ensures not_hot { Comes (λ m m'. SettingHot m 2 64 (refused WrongPhase) m') }
    ensures not_hot_for_memory { Comes (λ m m'. SettingHot m 1 64 (refused OutOfMemory) m') }
{}

/// What happens to nodes happens and is refused in some state that two nodes can come to: a failure takes a call, and a node comes
/// back that lacks inodes.
pub fn each_outcome_of_members_comes()
    ensures failed { (l : Loss) × Comes (λ m m'. Failing m 1 (failed (l ∷ [])) m') }
    ensures failed_again { Comes (λ m m'. (standing_of m.members.nodes 2 ≢ Some full) ×
        Failing m 2 (failed []) m') }
    ensures not_failed { Comes (λ m m'. Failing m 1 (refused LastNode) m') }
    ensures not_failed_for_memory { Comes (λ m m'. Failing m 1 (refused OutOfMemory) m') }
    ensures back { (stale : ℕ) × Comes (λ m m'. Returning m 2 (began (suc stale)) m') }
    ensures not_back { Comes (λ m m'. Returning m 2 (refused WrongPhase) m') }
    ensures not_back_for_memory { Comes (λ m m'. Returning m 2 (refused OutOfMemory) m') }
    ensures refilled { (stale : ℕ) × Comes (λ m m'. (stale_at m.members 2 ≡ suc stale) ×
        Refilling m 2 (left stale) m') }
    ensures whole { Comes (λ m m'. (stale_at m.members 2 ≡ 0) × Refilling m 2 (left 0) m') }
    ensures not_refilled { Comes (λ m m'. Refilling m 2 (refused WrongPhase) m') }
    ensures not_refilled_for_memory { Comes (λ m m'. Refilling m 2 (refused OutOfMemory) m') }
    ensures joined { Comes (λ m m'. Joining m 2 joined m') }
    ensures busy { Comes (λ m m'. Joining m 2 (refused Busy) m') }
    ensures not_joined_for_memory { Comes (λ m m'. Joining m 2 (refused OutOfMemory) m') }
    ensures raised { Comes (λ m m'. Raising m 1 raised m') }
    ensures not_raised { Comes (λ m m'. Raising m 1 (refused WrongPhase) m') }
{}
