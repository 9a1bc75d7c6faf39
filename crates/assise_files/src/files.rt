//! A cluster that one caller uses.
use crate::cut_kind::CutKind;
use crate::redo::{Unmade, is_done, lost_changes};
use assise_history::check::check;
use assise_history::history::History;
use assise_link::test_link::TestLink;
use assise_machine::cluster::ClusterOf;
use assise_machine_state::client::Client;
use assise_manager::phase::Phase;
use assise_names::call::Op;
use assise_names::durability::Durability;
use assise_names::limits::MOST_NODES;
use assise_names::refusal::Refusal;
use assise_names::reply::Reply;
use assise_renewal::renewal::{Sizes, renewed};
use assise_renewal::renewal_fault::RenewalFault;
use assise_rounds::attempts::settle_call;
use assise_rounds::returning::return_node;
use assise_rounds::rounds::round_over;
use assise_rounds::trees::tree_at;
use assise_seq_tree::tree::Tree;
use std::alloc::Global;
use std::array;

/// A cluster that one caller uses, with how often a call is tried. Nodes and clients are numbered from 1.
#[derive(Drop)]
pub struct Files {
    cluster: ClusterOf<CutKind>,
    turns: u32,
    links: [TestLink; MOST_NODES as usize],
}

impl Files {
    ghost use Rattle.std.specs.Prelude.{◌≡◌, ◌↔◌, ◌+◌, ◌-◌, ◌<◌, ◌≤◌, Err, IfOk, IsOk, IsOkUnless, IsSome, IsTrue, None, OnErr, OnOk, Some, replicate, slice_set};
    ghost use Rattle.assise_names.specs.declared.refusal.Refusal.TheVariants.{BadClient, BadNode, OutOfMemory};
    ghost use Rattle.assise_history.specs.Legal.{IsLegal};
    ghost use Rattle.assise_lease_table.specs.Tables.{Enrols};
    ghost use Rattle.assise_model_events.specs.ClientEvents.{Crashing, Opening};
    ghost use Rattle.assise_model_events.specs.Machine.{begun_as};
    ghost use Rattle.assise_model_events.specs.MemberEvents.{Failing, Raising};
    ghost use Rattle.assise_model_events.specs.NodeEvents.{SettingHot};
    ghost use Rattle.assise_model_world.specs.World.{IsClient};
    ghost use Rattle.assise_manager.specs.Standings.{phase_of, standing_of};
    ghost use Rattle.assise_machine_calls.specs.Answers.{crashing_answer};
    ghost use Rattle.assise_machine_failures.specs.Answers.{failing_answer};
    ghost use Rattle.assise_machine.specs.Answers.{raising_answer, setting_answer};
    ghost use Rattle.assise_machine.specs.KnownClients.{IsKnownClient};
    ghost use Rattle.assise_machine.specs.Running.{opened_answer};
    ghost use Rattle.assise_rounds.specs.Traces.{Told};
    ghost use Rattle.assise_rounds.specs.Returning.{ComesBack};
    ghost use Rattle.assise_rounds.specs.Rounds.{RoundsOver};
    ghost use Rattle.assise_rounds.specs.NodeLinks.{FaithfulAt};
    ghost use Rattle.assise_link.specs.Kinds.{perfect};
    ghost use Rattle.assise_link.specs.TestLinks.{kind_of_link};
    ghost use Rattle.assise_names.specs.declared.limits.TheConstants.{MOST_NODES};
    ghost use Rattle.assise_files.specs.FilesSeen.{cluster_seen, kinds_seen, links_seen, most_tries, own_cluster, replicated_seen, safe_tree_seen, tree_seen};
    ghost use Rattle.assise_names.specs.declared.refusal.Refusal.{Refusal as Refused};
    ghost use Rattle.assise_model_events.specs.Faults.{node_fault};
    ghost use Rattle.assise_renewal.specs.Led.{IsDsync, IsLedBy};
    ghost use Rattle.assise_renewal.specs.Renewal.{IsRenewed};
    ghost use Rattle.assise_rounds.specs.CallTries.{IsTriedOut};
    ghost use Rattle.assise_files.specs.LostChanges.{lost_changes, tree_with};
    ghost use Rattle.assise_files.specs.Redo.{MakesAgain};

    /// A cluster in which nothing happened: 1 to `MOST_NODES` nodes, logs of 8 to 4,096 records, and 1 to 4,096 inodes that a node keeps hot. A
    /// call is tried at most `turns` times. The one refusal is [`Refusal::OutOfMemory`].
    pub fn new(
        alloc: Global,
        nodes: u32,
        log: usize,
        hot: usize,
        turns: u32,
    ) -> Result<Files, Refusal>
        requires some_nodes { 0 < nodes }
        requires few_nodes { nodes ≤ MOST_NODES }
        requires least_log { 8 ≤ log }
        requires most_log { log ≤ 4096 }
        requires least_hot { 1 ≤ hot }
        requires most_hot { hot ≤ 4096 }
        ensures begun { IfOk result (λ files. cluster_seen files ≡ begun_as nodes log hot) }
        ensures turns { IfOk result (λ files. most_tries files ≡ turns) }
        ensures links { IfOk result (λ files. links_seen files ≡ replicate MOST_NODES perfect) }
        ensures only_memory { IsOkUnless result OutOfMemory }
    {
        Ok(Files {
            cluster: ClusterOf::new(alloc, nodes, log, hot)?,
            turns,
            links: array::from_fn(|_| TestLink::perfect()),
        })
    }

    /// Opens a client on a node, with a revoker of a kind and fsyncs of a durability, and answers its number. Refused as
    /// [`ClusterOf::open`](ClusterOf::open).
    pub fn open(
        &mut self,
        alloc: Global,
        node: u32,
        kind: CutKind,
        durability: Durability,
    ) -> Result<u32, Refusal>
        ensures happens { Opening (cluster_seen self.old) node durability
            (opened_answer result) (cluster_seen self.new) }
        ensures stored { OnOk result (Enrols (kinds_seen self.old) (kinds_seen self.new)
            ((cluster_seen self.old).world.clients + 1) kind) }
        ensures turns { most_tries self.new ≡ most_tries self.old }
        ensures links { links_seen self.new ≡ links_seen self.old }
    {
        match self.cluster.open(alloc, node, kind, durability) {
            Ok(client) => Ok(client),
            Err(refused) => Err(refused.0),
        }
    }

    /// A call of a client: it is tried until it is answered or refused, with a round over the nodes' links behind each try that waits or
    /// finds the client's log full. Where such a round has nothing to do, or no try settles it, it is [`Refusal::Busy`], or
    /// [`Refusal::LogFull`] where the log stays full. It may be called again then. Else it is refused as
    /// [`ClusterOf::try_call`](ClusterOf::try_call).
    pub fn call(&mut self, alloc: Global, client: u32, op: &Op) -> Result<Reply, Refusal>
        ensures tried { (es : Told) × IsTriedOut (FaithfulAt (links_seen self.old))
            (most_tries self.old) client op.now result
            (cluster_seen self.old) es (cluster_seen self.new) }
        ensures turns { most_tries self.new ≡ most_tries self.old }
        ensures links { links_seen self.new ≡ links_seen self.old }
    {
        let turns = self.turns;
        let links = &mut self.links;
        settle_call(alloc, &mut self.cluster, links, client, op, turns)
    }

    /// One round of all nodes over their links, as [`round_over`](fn@round_over) says. Whether there was anything to do.
    pub fn round(&mut self, alloc: Global) -> bool
        ensures round { (es : Told) × RoundsOver (FaithfulAt (links_seen self.old)) result
            (cluster_seen self.old) es (cluster_seen self.new) }
        ensures turns { most_tries self.new ≡ most_tries self.old }
        ensures links { links_seen self.new ≡ links_seen self.old }
    {
        round_over(alloc, &mut self.cluster, &mut self.links)
    }

    /// A client crashes. Refused as [`ClusterOf::crash`](ClusterOf::crash).
    pub fn crash(&mut self, client: u32) -> Result<(), Refusal>
        ensures happens { Crashing (cluster_seen self.old) client
            (crashing_answer result) (cluster_seen self.new) }
        ensures turns { most_tries self.new ≡ most_tries self.old }
        ensures links { links_seen self.new ≡ links_seen self.old }
    {
        self.cluster.crash(client)
    }

    /// A node fails. It answers each client that lost a call, by ascending number, with the number of its first lost call. Refused as
    /// [`ClusterOf::fail`](ClusterOf::fail).
    pub fn fail(&mut self, alloc: Global, node: u32) -> Result<Vec<(u32, u64)>, Refusal>
        ensures happens { Failing (cluster_seen self.old) node
            (failing_answer result) (cluster_seen self.new) }
        ensures turns { most_tries self.new ≡ most_tries self.old }
        ensures links { links_seen self.new ≡ links_seen self.old }
    {
        self.cluster.fail(alloc, node)
    }

    /// A node that was down comes back, is filled and joins. Refused as [`return_node`](fn@return_node): where it began to come back it
    /// stays as it is then, and has to fail before it may come back again.
    pub fn back(&mut self, alloc: Global, node: u32) -> Result<(), Refusal>
        ensures comes_back { (es : Told) × ComesBack node result
            (cluster_seen self.old) es (cluster_seen self.new) }
        ensures turns { most_tries self.new ≡ most_tries self.old }
        ensures links { links_seen self.new ≡ links_seen self.old }
    {
        return_node(alloc, &mut self.cluster, node)
    }

    /// A new cluster with the same tree comes in place of this one, which goes with its history and its clients: client 1 of the new
    /// one is open, on node 1 and pessimistic, with a revoker of this kind. How often a call is tried stays, and so do the nodes' links,
    /// which aren't used for it. Refused as [`renewed`](fn@renewed), and the old cluster stays then: where its calls weren't all
    /// replicated, its clients made a dsync.
    pub fn renew(&mut self, alloc: Global, sizes: Sizes, kind: CutKind) -> Result<(), RenewalFault>
        requires some_nodes { 0 < sizes.nodes }
        requires few_nodes { sizes.nodes ≤ MOST_NODES }
        requires least_log { 8 ≤ sizes.log }
        requires most_log { sizes.log ≤ 4096 }
        requires least_hot { 1 ≤ sizes.hot }
        requires most_hot { sizes.hot ≤ 4096 }
        ensures renewed { OnOk result (IsRenewed (tree_seen self.old) sizes
            (own_cluster self.new)) }
        ensures settles { OnErr result (IsLedBy IsDsync
            (cluster_seen self.old) (cluster_seen self.new)) }
        ensures stays { OnErr result (tree_seen self.new ≡ tree_seen self.old) }
        ensures turns { most_tries self.new ≡ most_tries self.old }
        ensures links { links_seen self.new ≡ links_seen self.old }
    {
        let turns = self.turns;
        let new = renewed(alloc, &mut self.cluster, sizes, kind, turns)?;
        self.cluster = new;
        Ok(())
    }

    /// Sets how many inodes may be hot at a node, 1 to 4,096. Refused as [`ClusterOf::set_hot`](ClusterOf::set_hot).
    pub fn set_hot(&mut self, node: u32, capacity: usize) -> Result<(), Refusal>
        requires least { 1 ≤ capacity }
        requires most { capacity ≤ 4096 }
        ensures happens { SettingHot (cluster_seen self.old) node capacity
            (setting_answer result) (cluster_seen self.new) }
        ensures turns { most_tries self.new ≡ most_tries self.old }
        ensures links { links_seen self.new ≡ links_seen self.old }
    {
        self.cluster.set_hot(node, capacity)
    }

    /// A full node reads and sends version 2 of frames from here on. Refused as [`ClusterOf::raise`](ClusterOf::raise).
    pub fn raise(&mut self, node: u32) -> Result<(), Refusal>
        ensures happens { Raising (cluster_seen self.old) node
            (raising_answer result) (cluster_seen self.new) }
        ensures turns { most_tries self.new ≡ most_tries self.old }
        ensures links { links_seen self.new ≡ links_seen self.old }
    {
        self.cluster.raise(node)
    }

    /// What a node sends goes over this link from here on. The one refusal is [`Refusal::BadNode`].
    pub fn set_link(&mut self, node: u32, link: TestLink) -> Result<(), Refusal>
        ensures set { OnOk result (links_seen self.new ≡
            slice_set (links_seen self.old) (node - 1) (kind_of_link link)) }
        ensures kept { OnErr result (links_seen self.new ≡ links_seen self.old) }
        ensures ok { IsOk result ↔
            IsSome (standing_of (cluster_seen self.old).members.nodes node) }
        ensures only_bad { IsOkUnless result BadNode }
        ensures cluster { cluster_seen self.new ≡ cluster_seen self.old }
        ensures turns { most_tries self.new ≡ most_tries self.old }
    {
        self.cluster.phase(node)?;
        self.links[node as usize - 1] = link;
        Ok(())
    }

    /// How a node stands. The one refusal is [`Refusal::BadNode`].
    pub fn phase(&self, node: u32) -> Result<Phase, Refusal>
        ensures { result ≡ phase_of
            (standing_of (cluster_seen self.now).members.nodes node) }
    {
        self.cluster.phase(node)
    }

    /// What is known of a client: its node, how many of its calls were answered, whether it crashed, and whether its node has failed
    /// since. The one refusal is [`Refusal::BadClient`].
    pub fn client(&self, client: u32) -> Result<&Client, Refusal>
        ensures known { IfOk result (λ known.
            ∥ IsKnownClient (cluster_seen self.now).history client known.now ∥₁) }
        ensures ok { IsOk result ↔ IsClient (cluster_seen self.now).world client }
        ensures only_bad { IsOkUnless result BadClient }
    {
        self.cluster.client(client)
    }

    /// How many of a client's calls are replicated: no failure takes one of these. The one refusal is [`Refusal::BadClient`]. It costs
    /// the nodes.
    pub fn replicated_to(&self, client: u32) -> Result<u64, Refusal>
        ensures replicated { IfOk result (λ count. count ≡ replicated_seen self.now client) }
        ensures ok { IsOk result ↔ IsClient (cluster_seen self.now).world client }
        ensures only_bad { IsOkUnless result BadClient }
    {
        self.cluster.replicated_to(client)
    }

    /// Makes a client's changes again that a failure took, by another client: those from call `first` on, which [`Files::fail`] told, in
    /// their order. It ends with the first that isn't answered [`Reply::Done`]: [`Unmade`] says which that is, and what came. Who goes on
    /// calls again from its number on, or from the next. Where there is no memory to find them it is `first`, and none is made. Nothing
    /// is made again that wasn't lost, that only read, or that was answered an error. It costs the entries behind that call besides the
    /// calls.
    pub fn redo(&mut self, alloc: Global, lost: u32, first: u64, client: u32) -> Result<(), Unmade>
        ensures made { (es : Told) × MakesAgain (FaithfulAt (links_seen self.old))
            (most_tries self.old) first client
            (lost_changes lost first (cluster_seen self.old).history) result
            (cluster_seen self.old) es (cluster_seen self.new) }
        ensures tree { OnOk result (tree_seen self.new ≡ tree_with (tree_seen self.old)
            (lost_changes lost first (cluster_seen self.old).history)) }
        ensures turns { most_tries self.new ≡ most_tries self.old }
        ensures links { links_seen self.new ≡ links_seen self.old }
    {
        let entries = self.cluster.history().entries();
        let mut left = match lost_changes(alloc, entries, lost, first) {
            Ok(left) => left,
            Err(refusal) => {
                return Err(Unmade {
                    call: first,
                    came: Err(refusal),
                });
            }
        };
        while let Some(change) = left.pop() {
            let came = self.call(alloc, client, &change.op);
            if !is_done(&came) {
                let call = change.number;
                return Err(Unmade { call, came });
            }
        }
        Ok(())
    }

    /// The tree that a node alone gives: that of all replicated calls. Refused as [`tree_at`](fn@tree_at).
    pub fn tree(&self, alloc: Global, node: u32) -> Result<Tree, Refusal>
        ensures tree { IfOk result (λ tree. tree ≡ safe_tree_seen self.now) }
        ensures fault { (e : Refused) → node_fault (cluster_seen self.now) node ≡ Some e →
            result ≡ Err e }
        ensures only_memory { node_fault (cluster_seen self.now) node ≡ None →
            IsOkUnless result OutOfMemory }
    {
        tree_at(alloc, &self.cluster, node)
    }

    /// What was answered and what happened, in order.
    pub fn history(&self) -> &History
        ensures { result.now.events ≡ (cluster_seen self.now).history }
    {
        self.cluster.history()
    }

    /// Whether the history is legal, checked anew: it always is. The one refusal is [`Refusal::OutOfMemory`]. It costs as
    /// [`check`](fn@check).
    pub fn is_legal(&self, alloc: Global) -> Result<bool, Refusal>
        ensures decided { IfOk result (λ yes.
            IsTrue yes ↔ IsLegal (cluster_seen self.now).history) }
        ensures legal { IfOk result (λ yes. IsTrue yes) }
        ensures only_memory { IsOkUnless result OutOfMemory }
    {
        check(alloc, self.cluster.history())
    }
}
