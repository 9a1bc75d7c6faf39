//! What all nodes have.
ghost use Rattle.std.specs.Prelude.{◌≡◌, ◌≢◌, ◌⊎◌, ◌+◌, ◌^◌, ◌<◌, ◌≤◌, [], IfErr, IfOk, IsOk, IsOkUnless, None, OnErr, OnOk, drop, false, length, map as mapped, true};
ghost use Rattle.std.specs.Borrow.{Lends, sem};
ghost use Rattle.std.specs.FinMap as map;
ghost use Rattle.assise_names.specs.declared.refusal.Refusal.TheVariants.{LogFull, OutOfMemory};
ghost use Rattle.assise_inode_table.specs.Whole.{CanBeMadeWhole};
ghost use Rattle.assise_record.specs.Groups.{AllHaveEffects};
ghost use Rattle.assise_private_log.specs.NumberedLog.{IsNumberedLog, end, is_border, records_from};
ghost use Rattle.assise_digest.specs.Region.{AreWhole, HasClient, LogHasRoom, IsLogFull, IsQuiet, ReceivedLog, TouchDisjoint, ahead_below, from_number, log_of, regrouped_from, up_to_number, whole_ahead, region_with_client, with_inode, with_log, with_more, without_clients};
ghost use Rattle.assise_digest.specs.contracts.region.Region.{the_row as region_row};
ghost use Rattle.assise_manager.specs.Whole.{membership};
ghost use Rattle.assise_machine_state.specs.NodeValues.{AreDigested, AreTaken, AreUndigested, HasGroupsOf, HasLog, IsDigestedTo, IsUndigestedFrom, away, begun_log, changed_in, copied, log_in, new_regions, region_in, with_copies, with_digested_in, with_prefixes_dropped, with_hot_in, with_log_in, with_logs_begun, with_logs_ended, with_logs_of, with_next, with_records, with_region, with_tails_cut, without_log_of, without_logs};
ghost use Rattle.assise_machine_state.specs.contracts.nodes.Nodes.{the_row};
ghost use Rattle.assise_machine_state.specs.Observed.{is_full_in};
ghost use Rattle.assise_machine_state.specs.Places.{IsNumber};

use assise_digest::region::Region;
use assise_inode_table::inode::Inode;
use assise_manager::members::Members;
use assise_names::refusal::Refusal;
use assise_private_log::log::Log;
use assise_record::record::Record;
use std::alloc::{AllocError, Global};
use std::marker::Model;
use std::vec::IntoIter;

/// The regions of the nodes, by their numbers, from 1 on. A contract sees their list. A node that isn't full has its inodes
/// still, and no logs.
#[derive(Drop)]
pub struct Nodes {
    regions: Vec<Region>,
}

impl Model for Nodes {
    ghost use Rattle.std.specs.Prelude.{List};
    ghost use Rattle.std.specs.Coded.{codes};
    ghost use Rattle.assise_inode_table.specs.Contents.{coded_inodes};
    ghost use Rattle.assise_digest.specs.Region.{RegionValue};

    ghost Value = { List RegionValue };

    ghost coded = { Prim.hlevel (codes, coded_inodes) };

    ghost view = { λ s. s.regions.items };
}

impl Nodes {
    /// `count` nodes, each with an empty root and `hot_capacity` inodes that may be hot.
    pub fn new(alloc: Global, count: u32, hot_capacity: usize) -> Result<Nodes, AllocError>
        requires least { 1 ≤ hot_capacity }
        requires most { hot_capacity ≤ 4096 }
        ensures new { IfOk result (λ nodes. nodes ≡ new_regions count hot_capacity) }
    {
        let mut regions = Vec::with_capacity(alloc, count as usize)?;
        for _ in 0..count {
            regions.push(Region::new(alloc, hot_capacity)?)?;
        }
        Ok(Nodes { regions })
    }

    /// How many there are.
    pub fn len(&self) -> usize
        ensures { result ≡ length self.now }
    {
        self.regions.len()
    }

    /// What a node has.
    pub fn region(&self, node: u32) -> &Region
        requires node { IsNumber self.now node }
        ensures { result.now ≡ region_in self.now node }
    {
        &self.regions[node as usize - 1]
    }

    /// The same, to be changed.
    fn region_mut(&mut self, node: u32) -> &mut Region
        requires node { IsNumber self.old node }
        ensures* writes_back { sem 𝓛 (Lends the_row region_row self.entry result
            (with_region self.old node)) }
        ensures value { result.now ≡ region_in self.old node }
    {
        &mut self.regions[node as usize - 1]
    }

    /// A node's log of a client.
    pub fn log(&self, node: u32, client: u32) -> &Log
        requires there { HasLog self.now node client }
        ensures log { result.now ≡ (log_in self.now node client).log }
        ensures whole { AreWhole result.now.records }
    {
        self.region(node).log(client as usize)
    }

    /// The place up to which a node has digested a client's log.
    pub fn digested(&self, node: u32, client: u32) -> u64
        requires there { HasLog self.now node client }
        ensures { result ≡ (log_in self.now node client).digested }
    {
        self.region(node).digested(client as usize)
    }

    /// All full nodes begin a log of the next client, which lives on one of them, of 8 to 4,096 records at most. The one
    /// refusal is [`Refusal::OutOfMemory`], and it leaves all nodes as they were.
    pub fn begin_logs(
        &mut self,
        alloc: Global,
        members: &Members,
        home: u32,
        limit: usize,
    ) -> Result<(), Refusal>
        requires numbers_fit { length self.old + 1 < 2 ^ 32 }
        requires least { 8 ≤ limit }
        requires most { limit ≤ 4096 }
        ensures ok { OnOk result (self.new ≡ with_logs_begun
            (is_full_in (membership members.now).nodes) limit home 1 self.old) }
        ensures err { OnErr result (self.new ≡ self.old) }
        ensures only_memory { IsOkUnless result OutOfMemory }
    {
        begin_all(alloc, &mut self.regions, 1, members, home, limit)
    }

    /// The log of the client of the greatest number goes from all nodes that have it. It takes no memory.
    pub fn end_logs(&mut self, client: u32)
        ensures { self.new ≡ with_logs_ended self.old client }
    {
        end_all(&mut self.regions, client);
    }

    /// Takes records of a client that lives elsewhere in at a node, behind the last, but for the first `skipped`. They have
    /// room there, and get the groups that the client's own log has, which another node has. It takes no memory.
    pub fn extend(&mut self, node: u32, client: u32, own: u32, records: Vec<Record>, skipped: usize)
        requires there { HasLog self.old node client }
        requires own { HasLog self.old own client }
        requires other { own ≢ node }
        requires groups { HasGroupsOf (log_in self.old own client).log
            (log_in self.old node client).log }
        requires elsewhere { (log_in self.old node client).at_home ≡ false }
        requires room { length (log_in self.old node client).log.records + length
            (drop skipped records.items) ≤ (log_in self.old node client).log.limit }
        requires numbers_fit { end (log_in self.old node client).log + length
            (drop skipped records.items) < 2 ^ 64 }
        requires whole { AreWhole (drop skipped records.items) }
        ensures { self.new ≡ with_log_in self.old node client
            (with_records (is_border (log_in self.old own client).log) (log_in self.old node client)
            (drop skipped records.items)) }
    {
        self.take_in(node, client, own, records.into_iter(), skipped);
    }

    /// Takes records in, but for the first `skipped`.
    fn take_in(
        &mut self,
        node: u32,
        client: u32,
        own: u32,
        mut records: IntoIter<Record>,
        skipped: usize,
    )
        requires there { HasLog self.old node client }
        requires own { HasLog self.old own client }
        requires other { own ≢ node }
        requires groups { HasGroupsOf (log_in self.old own client).log
            (log_in self.old node client).log }
        requires elsewhere { (log_in self.old node client).at_home ≡ false }
        requires room { length (log_in self.old node client).log.records + length
            (drop skipped records.rest.items) ≤ (log_in self.old node client).log.limit }
        requires numbers_fit { end (log_in self.old node client).log + length
            (drop skipped records.rest.items) < 2 ^ 64 }
        requires whole { AreWhole (drop skipped records.rest.items) }
        ensures { self.new ≡ with_log_in self.old node client
            (with_records (is_border (log_in self.old own client).log) (log_in self.old node client)
            (drop skipped records.rest.items)) }
    {
        let Some(added) = records.next() else {
            return;
        };
        if 0 < skipped {
            return self.take_in(node, client, own, records, skipped - 1);
        }
        self.take_one(node, client, own, added);
        self.take_in(node, client, own, records, 0);
    }

    /// Takes a record in.
    fn take_one(&mut self, node: u32, client: u32, own: u32, added: Record)
        requires there { HasLog self.old node client }
        requires own { HasLog self.old own client }
        requires other { own ≢ node }
        requires groups { HasGroupsOf (log_in self.old own client).log
            (log_in self.old node client).log }
        requires elsewhere { (log_in self.old node client).at_home ≡ false }
        requires room { length (log_in self.old node client).log.records <
            (log_in self.old node client).log.limit }
        requires number_fits { end (log_in self.old node client).log + 1 < 2 ^ 64 }
        requires whole { CanBeMadeWhole added.effects }
        ensures next { self.new ≡
            with_next (is_border (log_in self.old own client).log) self.old node client added }
        ensures there { HasLog self.new node client }
        ensures own { HasLog self.new own client }
        ensures own_log { log_in self.new own client ≡ log_in self.old own client }
        ensures groups { HasGroupsOf (log_in self.new own client).log
            (log_in self.new node client).log }
        ensures elsewhere { (log_in self.new node client).at_home ≡ false }
        ensures limit { (log_in self.new node client).log.limit ≡
            (log_in self.old node client).log.limit }
        ensures longer { length (log_in self.new node client).log.records ≡
            length (log_in self.old node client).log.records + 1 }
        ensures end { end (log_in self.new node client).log ≡
            end (log_in self.old node client).log + 1 }
    {
        let number = self.log(node, client).end();
        let begins = self.log(own, client).is_border(number);
        let region = self.region_mut(node);
        let Ok(()) = region.append_grouped(client as usize, added, begins) else {
            unreachable!()
        };
    }

    /// A node that has no logs gets copies of another's, whose clients live elsewhere. Payloads are shared. The one refusal is
    /// [`Refusal::OutOfMemory`], and it leaves all as it was.
    pub fn copy_logs(&mut self, alloc: Global, node: u32, donor: u32) -> Result<(), Refusal>
        requires node { IsNumber self.old node }
        requires donor { IsNumber self.old donor }
        requires none { (region_in self.old node).logs ≡ [] }
        ensures ok { OnOk result (self.new ≡ with_logs_of self.old node donor) }
        ensures err { OnErr result (self.new ≡ self.old) }
        ensures only_memory { IsOkUnless result OutOfMemory }
    {
        let copies = copies_of(alloc, self.region(donor))?;
        let region = self.region_mut(node);
        let added = add_copies(region, copies.into_iter());
        if added.is_err() {
            region.remove_clients();
        }
        added
    }

    /// A node uses an inode, which is hot there then, unless there is no memory for that.
    pub fn touch(&mut self, node: u32, inode: u64)
        requires node { IsNumber self.old node }
        ensures { self.new ≡ self.old }
    {
        self.region_mut(node).touch(inode);
    }

    /// Sets how many inodes may be hot at a node, 1 to 4,096. It asks for memory where fewer may be hot than before, and it
    /// leaves all as it was, and as many hot.
    pub fn set_hot_capacity(&mut self, node: u32, capacity: usize) -> Result<(), AllocError>
        requires node { IsNumber self.old node }
        requires least { 1 ≤ capacity }
        requires most { capacity ≤ 4096 }
        ensures ok { OnOk result (self.new ≡ with_hot_in self.old node capacity) }
        ensures err { OnErr result (self.new ≡ self.old) }
        ensures asked { OnErr result (capacity < (region_in self.old node).capacity) }
    {
        self.region_mut(node).set_hot_capacity(capacity)
    }

    /// Takes a record of a client in at a node, behind the last, with effects that can be made all or none. It is refused
    /// with [`Refusal::LogFull`] exactly where the log has no room, and with [`Refusal::OutOfMemory`] at the client's home
    /// alone. What is refused changes nothing, and comes back.
    pub fn append(&mut self, node: u32, client: u32, added: Record) -> Result<(), (Refusal, Record)>
        requires there { HasLog self.old node client }
        requires number_fits { end (log_in self.old node client).log + 1 < 2 ^ 64 }
        requires whole { CanBeMadeWhole added.effects }
        ensures ok { OnOk result (self.new ≡ with_log_in self.old node client
            (with_more (log_in self.old node client) added)) }
        ensures err { OnErr result (self.new ≡ self.old) }
        ensures given_back { IfErr result (λ back. back.1 ≡ added) }
        ensures room { IsOk result → LogHasRoom (log_in self.old node client) }
        ensures refused { IfErr result (λ back.
            ((back.0 ≡ LogFull) × IsLogFull (log_in self.old node client)) ⊎
            ((back.0 ≡ OutOfMemory) × LogHasRoom (log_in self.old node client) ×
            ((log_in self.old node client).at_home ≡ true))) }
    {
        self.region_mut(node).append(client as usize, added)
    }

    /// Cuts the records of a client at a node from a number on, none of which are digested there, into groups, and lets what is
    /// overridden in them go (see [`Region::coalesce`]). The one refusal is [`Refusal::OutOfMemory`], and it changes nothing.
    pub fn coalesce(&mut self, node: u32, client: u32, from: u64) -> Result<(), Refusal>
        requires there { HasLog self.old node client }
        requires digested { (log_in self.old node client).digested ≤ from }
        requires to_end { from ≤ end (log_in self.old node client).log }
        ensures ok { OnOk result (self.new ≡ with_log_in self.old node client
            (regrouped_from (log_in self.old node client) from)) }
        ensures effects { OnOk result
            (AllHaveEffects (records_from (log_in self.old node client).log from)) }
        ensures lawful { IsNumberedLog (log_in self.old node client).log }
        ensures err { OnErr result (self.new ≡ self.old) }
        ensures only_memory { IsOkUnless result OutOfMemory }
    {
        self.region_mut(node).coalesce(client as usize, from)
    }

    /// A node digests at most `at_most` records of a client that are numbered below what is replicated, each group whole or
    /// not at all, and answers how many. The one refusal is [`Refusal::OutOfMemory`], where there was one to digest, and it
    /// changes nothing.
    pub fn digest_some(
        &mut self,
        node: u32,
        client: u32,
        acked: u64,
        at_most: usize,
    ) -> Result<usize, Refusal>
        requires there { HasLog self.old node client }
        requires disjoint { TouchDisjoint (region_in self.old node) }
        ensures ok { IfOk result (λ n. self.new ≡ with_digested_in self.old node client n) }
        ensures at_most { IfOk result (λ n. n ≤ at_most) }
        ensures acked { IfOk result (λ n. n ≤ length
            (ahead_below (log_in self.old node client) acked)) }
        ensures groups { IfOk result (λ n. 0 < n →
            is_border (log_in self.old node client).log
            ((log_in self.old node client).digested + n) ≡ true) }
        ensures none { IfOk result (λ n. n ≡ 0 →
            whole_ahead (log_in self.old node client) acked at_most ≡ 0) }
        ensures err { OnErr result (self.new ≡ self.old) }
        ensures asked { OnErr result ((0 < at_most) ×
            (0 < length (ahead_below (log_in self.old node client) acked))) }
        ensures only_memory { IsOkUnless result OutOfMemory }
    {
        self.region_mut(node)
            .digest_some(client as usize, acked, at_most)
    }

    /// A node loses its copy of an inode. It takes no memory.
    pub fn stale(&mut self, node: u32, inode: u64)
        requires node { IsNumber self.old node }
        requires quiet { IsQuiet (region_in self.old node) inode }
        ensures { self.new ≡ with_region self.old node
            (with_inode (region_in self.old node) inode None) }
    {
        self.region_mut(node).stale(inode);
    }

    /// Gives a node an inode, or none. It asks for memory where it has none of that number, and it changes nothing.
    pub fn refill_one(
        &mut self,
        node: u32,
        inode: u64,
        value: Option<Inode>,
    ) -> Result<(), AllocError>
        requires node { IsNumber self.old node }
        requires quiet { IsQuiet (region_in self.old node) inode }
        ensures ok { OnOk result (self.new ≡ with_region self.old node
            (with_inode (region_in self.old node) inode value)) }
        ensures err { OnErr result (self.new ≡ self.old) }
        ensures asked { OnErr result (map.get (region_in self.old node).inodes inode ≡ None) }
    {
        self.region_mut(node).refill_one(inode, value)
    }

    /// A node that fails loses its logs, and keeps its inodes. It takes no memory.
    pub fn remove_logs(&mut self, node: u32)
        requires node { IsNumber self.old node }
        ensures { self.new ≡ without_logs self.old node }
    {
        self.region_mut(node).remove_clients();
    }

    /// All nodes that have a log of a client let its records below a place go, which each of them has digested. It takes no
    /// memory.
    pub fn drop_fronts(&mut self, client: u32, to: u64)
        requires client { 0 < client }
        requires digested { AreDigested self.old client to }
        ensures { self.new ≡ with_prefixes_dropped self.old client to }
    {
        drop_all(&mut self.regions, client, to);
    }

    /// All nodes that have a log of a client let its records from a place on go, which none of them has digested. The client
    /// lives on none of them. It takes no memory.
    pub fn cut_tails(&mut self, client: u32, from: u64)
        requires client { 0 < client }
        requires elsewhere { AreUndigested self.old client from }
        ensures { self.new ≡ with_tails_cut self.old client from }
    {
        cut_all(&mut self.regions, client, from);
    }
}

/// A node begins a log of the next client.
fn begin_log(alloc: Global, region: &mut Region, here: bool, limit: usize) -> Result<(), Refusal>
    requires least { 8 ≤ limit }
    requires most { limit ≤ 4096 }
    ensures ok { OnOk result (region.new ≡ region_with_client region.old (begun_log limit here)) }
    ensures err { OnErr result (region.new ≡ region.old) }
    ensures only_memory { IsOkUnless result OutOfMemory }
{
    let log = Log::new(alloc, limit)?;
    let added = if here {
        region.add_own_client(log)
    } else {
        region.add_client(log, 0)
    };
    added.map_err(|refused| refused.0)
}

/// Those of the nodes, which are numbered from one on, that are full begin a log of the next client, or none does.
fn begin_all(
    alloc: Global,
    regions: &mut [Region],
    node: u32,
    members: &Members,
    home: u32,
    limit: usize,
) -> Result<(), Refusal>
    requires numbers_fit { length regions.old + node < 2 ^ 32 }
    requires least { 8 ≤ limit }
    requires most { limit ≤ 4096 }
    ensures ok { OnOk result (regions.new ≡ with_logs_begun
        (is_full_in (membership members.now).nodes) limit home node regions.old) }
    ensures err { OnErr result (regions.new ≡ regions.old) }
    ensures only_memory { IsOkUnless result OutOfMemory }
{
    let Some((first, rest)) = regions.split_first_mut() else {
        return Ok(());
    };
    if !members.full_nodes().contains(&node) {
        return begin_all(alloc, rest, node + 1, members, home, limit);
    }
    begin_log(alloc, first, node == home, limit)?;
    let others = begin_all(alloc, rest, node + 1, members, home, limit);
    if others.is_err() {
        first.remove_last_client();
    }
    others
}

/// A node that has a log of the client of the greatest number lets it go.
fn end_log(region: &mut Region, client: u32)
    ensures { region.new ≡ without_log_of client region.old }
{
    if region.clients() == client as usize {
        region.remove_last_client();
    }
}

/// Each node that has a log of the client of the greatest number lets it go.
fn end_all(regions: &mut [Region], client: u32)
    ensures { regions.new ≡ with_logs_ended regions.old client }
{
    for region in regions.iter_mut() {
        end_log(region, client);
    }
}

/// Copies of all logs of a node, each with the number up to which it is digested.
fn copies_of(alloc: Global, region: &Region) -> Result<Vec<(Log, u64)>, Refusal>
    ensures copies { IfOk result (λ copies. mapped copied copies.items ≡
        mapped away region.now.logs) }
    ensures sound { IfOk result (λ copies. AreTaken copies.items) }
    ensures only_memory { IsOkUnless result OutOfMemory }
{
    let mut copies = Vec::with_capacity(alloc, region.clients())?;
    for place in 0..region.clients() {
        let log = region.log(place + 1).copy(alloc)?;
        let digested = region.digested(place + 1);
        copies.push((log, digested))?;
    }
    Ok(copies)
}

/// A node gets these logs behind its own, of clients that live elsewhere, up to the first for which there is no memory.
fn add_copies(region: &mut Region, copies: IntoIter<(Log, u64)>) -> Result<(), Refusal>
    requires sound { AreTaken copies.rest.items }
    ensures ok { OnOk result (region.new ≡ with_copies region.old copies.rest.items) }
    ensures err { OnErr result (without_clients region.new ≡ without_clients region.old) }
    ensures only_memory { IsOkUnless result OutOfMemory }
{
    for (log, digested) in copies {
        if region.add_client(log, digested).is_err() {
            return Err(Refusal::OutOfMemory);
        }
    }
    Ok(())
}

/// A node that has a log of a client lets its records below a place go.
fn drop_front(region: &mut Region, client: u32, to: u64)
    requires client { 0 < client }
    requires digested { HasClient region.old client → IsDigestedTo (log_of region.old client) to }
    ensures { region.new ≡ changed_in client (λ l. from_number l to) region.old }
{
    if client as usize <= region.clients() {
        region.drop_front(client as usize, to);
    }
}

/// Each node that has a log of a client lets its records below a place go.
fn drop_all(regions: &mut [Region], client: u32, to: u64)
    requires client { 0 < client }
    requires digested { AreDigested regions.old client to }
    ensures { regions.new ≡ with_prefixes_dropped regions.old client to }
{
    for region in regions.iter_mut() {
        drop_front(region, client, to);
    }
}

/// A node that has a log of a client lets its records from a place on go.
fn cut_tail(region: &mut Region, client: u32, from: u64)
    requires client { 0 < client }
    requires elsewhere { HasClient region.old client →
        IsUndigestedFrom (log_of region.old client) from }
    ensures { region.new ≡ changed_in client (λ l. up_to_number l from) region.old }
{
    if client as usize <= region.clients() {
        region.cut_tail(client as usize, from);
    }
}

/// Each node that has a log of a client lets its records from a place on go.
fn cut_all(regions: &mut [Region], client: u32, from: u64)
    requires client { 0 < client }
    requires elsewhere { AreUndigested regions.old client from }
    ensures { regions.new ≡ with_tails_cut regions.old client from }
{
    for region in regions.iter_mut() {
        cut_tail(region, client, from);
    }
}
