//! Each outcome of an event can come, where what it asks for holds.
ghost use Rattle.std.specs.Prelude.{◌≡◌, ◌+◌, ◌<◌, ◌≤◌, List, [], None, false, length, min, suc, true, ℕ};
ghost use Rattle.assise_names.specs.declared.call.Op.{Op};
ghost use Rattle.assise_names.specs.declared.durability.Durability.{Durability};
ghost use Rattle.assise_names.specs.declared.refusal.Refusal.TheVariants.{InodesSpent, LogFull, OutOfMemory};
ghost use Rattle.assise_names.specs.declared.mode.Mode.{Mode};
ghost use Rattle.assise_names.specs.declared.reply.Reply.{Reply};
ghost use Rattle.assise_names.specs.declared.reply.Reply.TheVariants.{Done};
ghost use Rattle.assise_history.specs.declared.call.Loss.{Loss};
ghost use Rattle.assise_history.specs.Legal.{is_sync};
ghost use Rattle.assise_record.specs.LogFrame.{LogFrame};
ghost use Rattle.assise_record.specs.Records.{has_some};
ghost use Rattle.assise_lease_tree.specs.TwoLevels.{is_free_for};
ghost use Rattle.assise_manager.specs.Changes.{failure_fault, filling_fault, join_fault, return_fault};
ghost use Rattle.assise_model_world.specs.World.{call_makes_inode, end_of_log, received_by_all, step_at_home};
ghost use Rattle.assise_model_leases.specs.Chances.{MayCallUnder};
ghost use Rattle.assise_model_events.specs.ClientEvents.{Calling, Crashing, IsMissing, HasServingLeases, Opening, Syncing, call_of_client};
ghost use Rattle.assise_model_events.specs.Events.{Answer, began, crashed, digested, failed, hot_set, joined, left, not_yet, opened, received, refused, replied};
ghost use Rattle.assise_model_events.specs.Faults.{IsTimelyDelivery, call_fault, client_fault, delivery_fault, node_fault, open_fault, place_after};
ghost use Rattle.assise_model_events.specs.Machine.{MachineInvariant, Machine};
ghost use Rattle.assise_model_events.specs.MemberEvents.{Failing, Joining, Refilling, Returning, stale_at};
ghost use Rattle.assise_model_events.specs.NodeEvents.{Delivering, Digesting, Releasing, SettingHot, most_digested, part_of, undigested_to};

/// What clients do can be answered where no fault stands.
pub fn what_clients_do_can_be_answered()
    ensures opened { (m : Machine) (n : ℕ) (u : Durability) → MachineInvariant m →
        open_fault m n ≡ None → (m' : Machine) × Opening m n u (opened (suc m.world.clients)) m' }
    ensures called { (m : Machine) (c : ℕ) (op : Op) (reply : Reply) → MachineInvariant m →
        call_fault m c op ≡ None → MayCallUnder m.world m.leases
        (call_of_client m.world c op reply) →
        (has_some (step_at_home m.world (call_of_client m.world c op reply)).effects ≡ true →
        length (m.world.records c) < m.limit) → (m' : Machine) × Calling m c op (replied reply) m' }
    ensures awaited { (m : Machine) (c i : ℕ) (op : Op) (reply : Reply) (mode : Mode) →
        MachineInvariant m → call_fault m c op ≡ None →
        IsMissing m.world m.leases (call_of_client m.world c op reply) i mode →
        is_free_for m.leases.levels c (m.world.home c) i mode ≡ false →
        (m' : Machine) × Calling m c op not_yet m' }
    ensures synced { (m : Machine) (c : ℕ) (op : Op) (u : Durability) → is_sync op u ≡ true →
        MachineInvariant m → client_fault m c ≡ None →
        received_by_all m.world c ≡ end_of_log m.world c →
        (m' : Machine) × Syncing m c op (replied Done) m' }
    ensures replicating { (m : Machine) (c : ℕ) (op : Op) → MachineInvariant m →
        client_fault m c ≡ None → received_by_all m.world c < end_of_log m.world c →
        (m' : Machine) × Syncing m c op not_yet m' }
    ensures crashed { (m : Machine) (c : ℕ) → MachineInvariant m → client_fault m c ≡ None →
        (m' : Machine) × Crashing m c crashed m' }
{}

/// A call whose leases serve, and that lacks numbers of inodes, room in its client's log, or memory, can be refused for it.
pub fn what_a_call_lacks_can_be_answered()
    ensures inodes { (m : Machine) (c : ℕ) (op : Op) (reply : Reply) → call_fault m c op ≡ None →
        HasServingLeases m.world m.leases (call_of_client m.world c op reply) →
        call_makes_inode m.world (call_of_client m.world c op reply) ≡ true →
        m.world.made c ≡ 1048576 → Calling m c op (refused InodesSpent) m }
    ensures room { (m : Machine) (c : ℕ) (op : Op) (reply : Reply) → call_fault m c op ≡ None →
        HasServingLeases m.world m.leases (call_of_client m.world c op reply) →
        (call_makes_inode m.world (call_of_client m.world c op reply) ≡ true →
        m.world.made c < 1048576) → has_some (step_at_home m.world
        (call_of_client m.world c op reply)).effects ≡ true → length (m.world.records c) ≡ m.limit →
        Calling m c op (refused LogFull) m }
    ensures memory { (m : Machine) (c : ℕ) (op : Op) (reply : Reply) → call_fault m c op ≡ None →
        Calling m c op (refused OutOfMemory) m }
{}

/// What nodes do can be done where no fault stands. Leases go where clients hold inodes up to a number alone.
pub fn what_nodes_do_can_be_done()
    ensures delivered { (m : Machine) (f : LogFrame) (n : ℕ) → MachineInvariant m →
        delivery_fault m f n ≡ None → IsTimelyDelivery m f n →
        (m' : Machine) × Delivering m f n (received (place_after m f n)) m' }
    ensures digested { (m : Machine) (n count : ℕ) → MachineInvariant m → node_fault m n ≡ None →
        count ≤ min most_digested (undigested_to m.world n m.world.clients) →
        (0 < undigested_to m.world n m.world.clients → 0 < count) →
        ((c : ℕ) → m.world.border c (m.world.digested n c + part_of m.world n count c) ≡ true) →
        (m' : Machine) × Digesting m n (digested count) m' }
    ensures hot { (m : Machine) (n capacity : ℕ) → node_fault m n ≡ None →
        (m' : Machine) × SettingHot m n capacity hot_set m' }
    ensures released { (m : Machine) (most : ℕ) → MachineInvariant m →
        ((i : ℕ) → most < i → m.leases.levels.clients i ≡ []) →
        (m' : Machine) × ((a : Answer) × Releasing m a m') }
{}

/// What happens to nodes can happen where no fault stands.
pub fn what_happens_to_nodes_can_happen()
    ensures failed { (m : Machine) (n : ℕ) → MachineInvariant m → failure_fault m.members n ≡ None →
        (m' : Machine) × ((losses : List Loss) × Failing m n (failed losses) m') }
    ensures back { (m : Machine) (n : ℕ) → MachineInvariant m → return_fault m.members n ≡ None →
        (m' : Machine) × Returning m n (began (stale_at m'.members n)) m' }
    ensures refilled { (m : Machine) (n : ℕ) → MachineInvariant m →
        filling_fault m.members n ≡ None → 0 < stale_at m.members n →
        (m' : Machine) × Refilling m n (left (stale_at m'.members n)) m' }
    ensures joined { (m : Machine) (n : ℕ) → MachineInvariant m → join_fault m.members n ≡ None →
        (m' : Machine) × Joining m n joined m' }
{}
