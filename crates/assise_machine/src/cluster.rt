//! A cluster.
use crate::delivery::{deliver, deliver_copy};
use crate::digesting::digest;
use crate::hot::set_hot;
use crate::raising::raise;
use crate::sending::outgoing;
use assise_digest::region::Region;
use assise_history::growing::Growing;
use assise_history::history::History;
use assise_lease_table::revoker::{Revoker, Revokes};
use assise_machine_calls::calling::try_call;
use assise_machine_calls::crash::crash;
use assise_machine_calls::faults::open_refusal;
use assise_machine_calls::opening::open;
use assise_machine_calls::release::release_ready;
use assise_machine_calls::sync::try_fsync;
use assise_machine_calls::turn::Turn;
use assise_machine_failures::back::back;
use assise_machine_failures::fail::fail;
use assise_machine_failures::join::join;
use assise_machine_failures::refill::refill;
use assise_machine_state::client::Client;
use assise_machine_state::sound::SoundOf;
use assise_manager::phase::Phase;
use assise_names::call::Op;
use assise_names::durability::Durability;
use assise_names::refusal::Refusal;
use assise_record::frame::Frame;
use std::alloc::Global;

/// Nodes with their clients: each call of it is one event, and the history tells of each client that was opened and each call that
/// was answered (Assise, OSDI 2020, section 3). Nodes and clients are numbered from 1.
#[derive(Drop)]
pub struct ClusterOf<C> {
    sound: SoundOf<C>,
}

/// A cluster whose clients store a [`Revoker`].
pub type Cluster = ClusterOf<Revoker>;

impl<C: Revokes + Drop> ClusterOf<C> {
    ghost use Rattle.std.specs.Prelude.{◌≡◌, ◌↔◌, ◌+◌, ◌<◌, ◌≤◌, ℕ, [], Err, IfErr, IfOk, IsOk, IsOkUnless, IsSome, List, None, Ok, OnErr, OnOk, length};
    ghost use Rattle.assise_names.specs.declared.refusal.Refusal.{Refusal as Refused};
    ghost use Rattle.assise_names.specs.declared.refusal.Refusal.TheVariants.{BadClient, BadNode, OutOfMemory};
    ghost use Rattle.assise_seq_tree.specs.Runs.{tree_after_calls};
    ghost use Rattle.assise_seq_tree.specs.Tree.{opening};
    ghost use Rattle.assise_history.specs.Legal.{IsLegal, durability_of};
    ghost use Rattle.assise_inode_table.specs.Spelled.{Spells};
    ghost use Rattle.assise_digest.specs.Region.{alone};
    ghost use Rattle.assise_inode_table.specs.Traces.{ops};
    ghost use Rattle.assise_lease_table.specs.Tables.{Enrols, SameRevokers};
    ghost use Rattle.assise_names.specs.declared.limits.TheConstants.{MOST_NODES};
    ghost use Rattle.assise_manager.specs.NodeLevels.{level_of, newest};
    ghost use Rattle.assise_manager.specs.declared.phase.Phase.TheVariants.{Full};
    ghost use Rattle.assise_manager.specs.Standings.{phase_of, standing_of};
    ghost use Rattle.assise_model_world.specs.World.{IsClient, alone_at as alone_observed, received_by_all};
    ghost use Rattle.assise_model_history.specs.Traces.{numbered_replicated};
    ghost use Rattle.assise_model_events.specs.ClientEvents.{Crashing, Opening};
    ghost use Rattle.assise_model_events.specs.Events.{released};
    ghost use Rattle.assise_model_events.specs.Faults.{node_fault, open_fault};
    ghost use Rattle.assise_model_events.specs.Happenings.{Fsyncing, Trying};
    ghost use Rattle.assise_model_events.specs.Machine.{begun_as, state_of};
    ghost use Rattle.assise_model_events.specs.MemberEvents.{Failing, Joining, Raising, Refilling, Returning};
    ghost use Rattle.assise_model_events.specs.NodeEvents.{Delivering, Digesting, Releasing, Sending, SettingHot};
    ghost use Rattle.assise_machine_calls.specs.Answers.{crashing_answer, opening_answer, turn_answer};
    ghost use Rattle.assise_machine_calls.specs.Asked.{CutsAreAnswers};
    ghost use Rattle.assise_machine_failures.specs.Answers.{failing_answer, joining_answer, refilling_answer, returning_answer};
    ghost use Rattle.assise_machine_state.specs.NodeValues.{with_hot_in};
    ghost use Rattle.assise_machine.specs.Answers.{delivery_answer, digesting_answer, raising_answer, sending_answer, setting_answer};
    ghost use Rattle.assise_machine.specs.Clusters.{AreAcked, machine, region_of, revokers};
    ghost use Rattle.assise_machine.specs.Headline.{IsUp, acked_to, history_of, regions_of, replicated_to};
    ghost use Rattle.assise_machine.specs.KnownClients.{IsKnownClient};

    /// A cluster in which nothing happened: 1 to `MOST_NODES` full nodes, whose clients' logs have 8 to 4,096 records at most, and 1 to
    /// 4,096 inodes that may be hot. The one refusal is [`Refusal::OutOfMemory`].
    pub fn new(alloc: Global, nodes: u32, log: usize, hot: usize) -> Result<ClusterOf<C>, Refusal>
        requires some_nodes { 0 < nodes }
        requires few_nodes { nodes ≤ MOST_NODES }
        requires least_log { 8 ≤ log }
        requires most_log { log ≤ 4096 }
        requires least_hot { 1 ≤ hot }
        requires most_hot { hot ≤ 4096 }
        ensures history { IfOk result (λ cluster. history_of cluster ≡ []) }
        ensures nodes { IfOk result (λ cluster. length (regions_of cluster) ≡ nodes) }
        ensures begun { IfOk result (λ cluster. machine cluster ≡ begun_as nodes log hot) }
        ensures only_memory { IsOkUnless result OutOfMemory }
    {
        Ok(ClusterOf {
            sound: SoundOf::new(alloc, nodes, log, hot)?,
        })
    }

    /// Opens a client on a node, with this durability, and answers its number. The client is asked for its leases by the
    /// revoker. Refused with [`Refusal::BadNode`] where there is no such node, [`Refusal::NodeDown`] where it isn't full,
    /// [`Refusal::BadClient`] where all clients were opened that may be, and [`Refusal::OutOfMemory`]: what is refused leaves all as it
    /// was, and gives the revoker back.
    pub fn open(
        &mut self,
        alloc: Global,
        node: u32,
        revoker: C,
        durability: Durability,
    ) -> Result<u32, (Refusal, C)>
        ensures happens { Opening (machine self.old) node durability (opening_answer result)
            (machine self.new) }
        ensures given_back { IfErr result (λ back. back.1 ≡ revoker) }
        ensures revokers { OnErr result (SameRevokers (revokers self.old) (revokers self.new)) }
        ensures stored { OnOk result (Enrols (revokers self.old) (revokers self.new)
            ((machine self.old).world.clients + 1) revoker) }
    {
        open(alloc, &mut self.sound, node, revoker, durability)
    }

    /// Tries a client's call, as [`try_call`](fn@try_call) says.
    pub fn try_call(&mut self, alloc: Global, client: u32, op: &Op) -> Result<Turn, Refusal>
        ensures happens { Trying (machine self.old) client op.now (turn_answer result)
            (machine self.new) }
        ensures cuts { CutsAreAnswers C.answers (revokers self.old)
            (machine self.old) (machine self.new) }
        ensures revokers { SameRevokers (revokers self.old) (revokers self.new) }
    {
        try_call(alloc, &mut self.sound, client, op)
    }

    /// Tries a client's fsync, as [`try_fsync`](fn@try_fsync) says: a pessimistic client's waits until all full nodes have all of
    /// its log, and an optimistic client's for nothing.
    pub fn try_fsync(&mut self, client: u32) -> Result<Turn, Refusal>
        ensures happens { Fsyncing (durability_of client (machine self.old).history)
            (machine self.old) client (turn_answer result) (machine self.new) }
        ensures revokers { SameRevokers (revokers self.old) (revokers self.new) }
    {
        try_fsync(&mut self.sound, client)
    }

    /// What a node sends: for each client by ascending number at most one frame, for the node behind it in the client's chain. Refused
    /// with [`Refusal::BadNode`], [`Refusal::WrongPhase`] where the node isn't full, and [`Refusal::OutOfMemory`].
    pub fn outgoing(&self, alloc: Global, node: u32) -> Result<Vec<(Frame, u32)>, Refusal>
        ensures { Sending (machine self.now) node (sending_answer result) (machine self.now) }
    {
        outgoing(alloc, &self.sound, node)
    }

    /// A node takes in what it lacks of a frame's records, and answers the number behind the last record of the client that it has
    /// then. Refused with [`Refusal::BadNode`], [`Refusal::WrongPhase`] where the node isn't full, [`Refusal::BadClient`], and
    /// [`Refusal::StaleMessage`] where the frame is of another epoch, leaves a gap, or has a record that isn't the client's own.
    /// What is refused leaves all as it was. It takes no memory.
    pub fn deliver(&mut self, frame: Frame, node: u32) -> Result<u64, Refusal>
        ensures happens { Delivering (machine self.old) frame node (delivery_answer result)
            (machine self.new) }
        ensures revokers { SameRevokers (revokers self.old) (revokers self.new) }
    {
        deliver(&mut self.sound, frame, node)
    }

    /// As [`ClusterOf::deliver`], with a copy of a frame, for which [`Refusal::OutOfMemory`] may come where nothing else stands
    /// against it.
    pub(crate) fn deliver_copy(
        &mut self,
        alloc: Global,
        frame: &Frame,
        node: u32,
    ) -> Result<u64, Refusal>
        ensures happens { Delivering (machine self.old) frame.now node (delivery_answer result)
            (machine self.new) }
        ensures revokers { SameRevokers (revokers self.old) (revokers self.new) }
    {
        deliver_copy(alloc, &mut self.sound, frame, node)
    }

    /// Why a client can't be opened on a node, whatever memory there is.
    pub(crate) fn open_refusal(&self, node: u32) -> Option<Refusal>
        ensures { result ≡ open_fault (machine self.now) node }
    {
        open_refusal(&self.sound.state, node)
    }

    /// A node digests records that all full nodes have, and answers how many: 64 at most, of clients by ascending number. Then all
    /// nodes let go what all full nodes have digested. Refused with [`Refusal::BadNode`], [`Refusal::WrongPhase`] where the node
    /// isn't full, and with [`Refusal::OutOfMemory`] where memory runs out before the first record: then all stays as it was.
    pub fn digest(&mut self, alloc: Global, node: u32) -> Result<usize, Refusal>
        ensures happens { Digesting (machine self.old) node (digesting_answer result)
            (machine self.new) }
        ensures revokers { SameRevokers (revokers self.old) (revokers self.new) }
    {
        digest(alloc, &mut self.sound, node)
    }

    /// Leases that were asked for go, where all full nodes have digested what their clients wrote under them, and answers how many.
    /// It takes no memory.
    pub fn release_ready(&mut self) -> usize
        ensures happens { Releasing (machine self.old) (released result) (machine self.new) }
        ensures revokers { SameRevokers (revokers self.old) (revokers self.new) }
    {
        release_ready(&mut self.sound)
    }

    /// Sets how many inodes may be hot at a node, 1 to 4,096: of more than that the longest unused ones are cold then. Refused with
    /// [`Refusal::BadNode`], [`Refusal::WrongPhase`] where the node isn't full, and [`Refusal::OutOfMemory`] where fewer may be hot than
    /// before and some have to cool; what is refused leaves all as it was, and as many hot.
    pub fn set_hot(&mut self, node: u32, capacity: usize) -> Result<(), Refusal>
        requires least { 1 ≤ capacity }
        requires most { capacity ≤ 4096 }
        ensures happens { SettingHot (machine self.old) node capacity (setting_answer result)
            (machine self.new) }
        ensures set { OnOk result
            (regions_of self.new ≡ with_hot_in (regions_of self.old) node capacity) }
        ensures kept { OnErr result (regions_of self.new ≡ regions_of self.old) }
        ensures asked { result ≡ Err OutOfMemory →
            capacity < (region_of self.old node).capacity }
        ensures revokers { SameRevokers (revokers self.old) (revokers self.new) }
    {
        set_hot(&mut self.sound, node, capacity)
    }

    /// A client crashes: nothing of its log is lost, all of it is to be replicated, and its leases go once all of it is digested.
    /// Refused with [`Refusal::BadClient`] where there is no such client, [`Refusal::ClientGone`] where it has crashed,
    /// [`Refusal::NodeDown`] where its node has failed since it was opened, and [`Refusal::OutOfMemory`]; what is refused leaves all as
    /// it was.
    pub fn crash(&mut self, client: u32) -> Result<(), Refusal>
        ensures happens { Crashing (machine self.old) client (crashing_answer result)
            (machine self.new) }
        ensures revokers { SameRevokers (revokers self.old) (revokers self.new) }
    {
        crash(&mut self.sound, client)
    }

    /// A node fails. Of a full one the logs are gone, and its inodes stay; of each of its clients that lives the records are kept that
    /// all other full nodes have, and the others cut the rest; an epoch begins. It answers each client that lost a record, by ascending
    /// number, with its first lost call: after the client's last answered sync. A node that comes back is down again, and nothing
    /// is lost. Refused with [`Refusal::BadNode`] where there is no such node, [`Refusal::WrongPhase`] where it is down,
    /// [`Refusal::LastNode`] where it is the only full one, and [`Refusal::OutOfMemory`]; what is refused leaves all as it was.
    pub fn fail(&mut self, alloc: Global, node: u32) -> Result<Vec<(u32, u64)>, Refusal>
        ensures happens { Failing (machine self.old) node (failing_answer result)
            (machine self.new) }
        ensures revokers { SameRevokers (revokers self.old) (revokers self.new) }
    {
        fail(alloc, &mut self.sound, node)
    }

    /// A node that was down begins to come back: its copies go of all inodes that were written since its first failure, and it is to
    /// be filled with the lowest full node's. It answers how many inodes it may lack. Refused with [`Refusal::BadNode`] where there is no
    /// such node, [`Refusal::WrongPhase`] where it isn't down, and [`Refusal::OutOfMemory`]; what is refused leaves all as it was.
    pub fn back(&mut self, node: u32) -> Result<usize, Refusal>
        ensures happens { Returning (machine self.old) node (returning_answer result)
            (machine self.new) }
        ensures revokers { SameRevokers (revokers self.old) (revokers self.new) }
    {
        back(&mut self.sound, node)
    }

    /// A node that comes back gets the lowest inode that it may lack from the full node that it is filled from, or loses it where that
    /// one has none. It answers how many inodes it may lack then. Refused with [`Refusal::BadNode`] where there is no such node,
    /// [`Refusal::WrongPhase`] where it doesn't come back, and [`Refusal::OutOfMemory`]; what is refused leaves all as it was.
    pub fn refill(&mut self, alloc: Global, node: u32) -> Result<usize, Refusal>
        ensures happens { Refilling (machine self.old) node (refilling_answer result)
            (machine self.new) }
        ensures revokers { SameRevokers (revokers self.old) (revokers self.new) }
    {
        refill(alloc, &mut self.sound, node)
    }

    /// A node that comes back and lacks no inode is full: it gets the logs of the full node that it was filled from, and an epoch
    /// begins. Refused with [`Refusal::BadNode`] where there is no such node, [`Refusal::WrongPhase`] where it doesn't come back,
    /// [`Refusal::Busy`] where it may lack an inode, and [`Refusal::OutOfMemory`]; what is refused leaves all as it was.
    pub fn join(&mut self, alloc: Global, node: u32) -> Result<(), Refusal>
        ensures happens { Joining (machine self.old) node (joining_answer result)
            (machine self.new) }
        ensures revokers { SameRevokers (revokers self.old) (revokers self.new) }
    {
        join(alloc, &mut self.sound, node)
    }

    /// A full node at level 1 is at level 2 then: it reads frames of version 2, too, and sends them. Refused with
    /// [`Refusal::BadNode`] where there is no such node, and [`Refusal::WrongPhase`] where it isn't full or was raised; what is
    /// refused leaves all as it was. It takes no memory.
    pub fn raise(&mut self, node: u32) -> Result<(), Refusal>
        ensures happens { Raising (machine self.old) node (raising_answer result)
            (machine self.new) }
        ensures revokers { SameRevokers (revokers self.old) (revokers self.new) }
    {
        raise(&mut self.sound, node)
    }

    /// The newest version of frames that a node reads, 1 or 2, which it sends. The one refusal is [`Refusal::BadNode`].
    pub fn level(&self, node: u32) -> Result<u8, Refusal>
        ensures level { IfOk result
            (λ level. level ≡ newest (level_of (machine self.now).members.levels node)) }
        ensures ok { IsOk result ↔ IsSome (standing_of (machine self.now).members.nodes node) }
        ensures known { IfOk result (λ level. (1 ≤ level) × (level ≤ 2)) }
        ensures only_bad { IsOkUnless result BadNode }
    {
        let members = &self.sound.state.members;
        match members.phase(node) {
            Ok(_) => Ok(members.level(node).newest()),
            Err(refusal) => Err(refusal),
        }
    }

    /// What was answered and what happened, in order. It is legal.
    pub fn history(&self) -> &History
        ensures seen { result.now.events ≡ history_of self.now }
        ensures history { result.now.events ≡ (machine self.now).history }
        ensures legal { ∥ IsLegal result.now.events ∥₁ }
    {
        self.sound.history()
    }

    /// What a full node has: it alone gives the tree of all calls that are replicated. Refused with [`Refusal::BadNode`] where there is
    /// no such node, and [`Refusal::WrongPhase`] where it isn't full.
    pub fn region(&self, node: u32) -> Result<&Region, Refusal>
        ensures fault { (e : Refused) → node_fault (machine self.now) node ≡ Some e →
            result ≡ Err e }
        ensures ok { IsOk result ↔ (node_fault (machine self.now) node ≡ None) }
        ensures up { IsOk result ↔ IsUp self.now node }
        ensures region { IfOk result (λ r. r.now ≡ region_of self.now node) }
        ensures observed { IfOk result (λ r. (acked : List ℕ) →
            AreAcked (machine self.now).world acked → (i : ℕ) →
            alone r.now acked i ≡ alone_observed (machine self.now).world node i) }
        ensures alone { IfOk result (λ r. (acked : List ℕ) →
            AreAcked (machine self.now).world acked →
            Spells (alone r.now acked) (tree_after_calls opening
            (ops (numbered_replicated (state_of (machine self.now)))))) }
    {
        self.sound.region(node)
    }

    /// The place up to which all full nodes have a client's log: its records below are replicated. The one refusal is
    /// [`Refusal::BadClient`]. It costs the nodes.
    pub fn acked(&self, client: u32) -> Result<u64, Refusal>
        ensures seen { IfOk result (λ place. place ≡ acked_to self.now client) }
        ensures acked { IfOk result (λ place. place ≡ received_by_all
            (machine self.now).world client) }
        ensures ok { IsOk result ↔ IsClient (machine self.now).world client }
        ensures only_bad { IsOkUnless result BadClient }
    {
        self.sound.acked(client)
    }

    /// How many of a client's calls are replicated: those before the first of which some full node may lack a record. No failure takes
    /// one of these, and their count never falls. The one refusal is [`Refusal::BadClient`]. It costs the nodes.
    pub fn replicated_to(&self, client: u32) -> Result<u64, Refusal>
        ensures replicated { IfOk result (λ count. count ≡ replicated_to self.now client) }
        ensures ok { IsOk result ↔ IsClient (machine self.now).world client }
        ensures only_bad { IsOkUnless result BadClient }
    {
        self.sound.replicated_to(client)
    }

    /// What is known of a client: its node, how many of its calls were answered, whether it crashed, and whether its node has failed
    /// since. The one refusal is [`Refusal::BadClient`].
    pub fn client(&self, client: u32) -> Result<&Client, Refusal>
        ensures known { IfOk result
            (λ known. ∥ IsKnownClient (machine self.now).history client known.now ∥₁) }
        ensures ok { IsOk result ↔ IsClient (machine self.now).world client }
        ensures only_bad { IsOkUnless result BadClient }
    {
        self.sound.client(client)
    }

    /// How a node stands. The one refusal is [`Refusal::BadNode`].
    pub fn phase(&self, node: u32) -> Result<Phase, Refusal>
        ensures phase { result ≡ phase_of (standing_of (machine self.now).members.nodes node) }
        ensures up { (result ≡ Ok Full) ↔ IsUp self.now node }
    {
        self.sound.state.members.phase(node)
    }
}

impl<C> Growing for ClusterOf<C> {
    ghost use Rattle.assise_machine.specs.Clusters.{machine, opened_once};
    ghost use Rattle.assise_machine.specs.Following.{IsLedTo, IsWorkedTo, led_on, led_to_itself, worked_on, worked_to_itself};

    ghost history = { λ cluster. (machine cluster).history };

    ghost leads = { λ old new. IsLedTo (machine old) (machine new) };

    ghost works = { λ old new. IsWorkedTo (machine old) (machine new) };

    ghost opens_once = { λ cluster. opened_once cluster };

    ghost stays = { λ cluster. led_to_itself (machine cluster) };

    ghost goes_on = { λ s t u first more. led_on (machine s) (machine t) (machine u) first more };

    ghost rests = { λ cluster. worked_to_itself (machine cluster) };

    ghost works_on = { λ s t u first more.
        worked_on (machine s) (machine t) (machine u) first more };
}
