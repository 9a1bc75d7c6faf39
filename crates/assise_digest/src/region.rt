//! A node's region.
ghost use Rattle.std.specs.Prelude.{◌≡◌, ◌↔◌, ◌⊎◌, ◌+◌, ◌^◌, ◌<◌, ◌≤◌, [], ◌∷◌, ◌++◌, IfErr, IfOk, IsOk, IsOkUnless, List, None, Some, OnErr, OnOk, false, true, length, option_copied, ℕ};
ghost use Rattle.std.specs.FinMap as map;
ghost use Rattle.assise_record.specs.Records.{all_effects};
ghost use Rattle.assise_inode_table.specs.Effects.{all_applied};
ghost use Rattle.assise_inode_table.specs.Opening.{opening_inodes};
ghost use Rattle.assise_inode_table.specs.Spelled.{Spells};
ghost use Rattle.assise_inode_table.specs.Whole.{CanBeMadeWhole};
ghost use Rattle.assise_names.specs.declared.refusal.Refusal.TheVariants.{LogFull, OutOfMemory};
ghost use Rattle.assise_record.specs.Groups.{AllHaveEffects};
ghost use Rattle.assise_private_log.specs.NumberedLog.{HasOpenGroup, IsNumberedLog, end, is_border, records_from};
ghost use Rattle.assise_seq_tree.specs.Tree.{Tree as PlainTree};
ghost use Rattle.assise_digest.specs.Pending.{Lays};
ghost use Rattle.assise_digest.specs.Region.{AreNotBelow, AreWhole, HasClient, LogHasRoom, IsBegun, IsLogFull, IsNextGroup, IsQuiet, TouchDisjoint, ahead, ahead_below, all_ahead, alone, digested_by, from_number, log_of, read_by, regrouped_from, up_to_number, whole_ahead, region_with_client, with_hot_capacity, with_inode, with_log, with_more, with_one, without_clients, without_last_client};
ghost use Rattle.assise_digest.specs.Invariant.{LogInvariant, seen_log};

use crate::overlay::Overlay;
use crate::pending::Pending;
use crate::received::Received;
use assise_area::area::Area;
use assise_inode_table::changes::apply_all_on_copies;
use assise_inode_table::inode::Inode;
use assise_inode_table::store::InodeStore;
use assise_inode_table::table::ROOT;
use assise_names::refusal::Refusal;
use assise_private_log::log::Log;
use assise_record::record::Record;
use assise_seq_tree::tree::Tree;
use std::alloc::{AllocError, Global};
use std::marker::Model;

/// What one node has of the file system: its inodes, and for each client, from number 1 on, the log that it received. A
/// contract sees the inodes as one finite map, whichever are hot, how many may be hot, and each log with the number up to
/// which it is digested into the inodes, and whether the client lives on this node.
pub struct Region {
    area: Area,
    logs: Vec<Received>,
}

// One call lets go of it, wherever it is owned.
impl Drop for Region {
    fn drop(self) {
        let Region { area: _, logs: _ } = self;
    }
}

impl Model for Region {
    ghost use Rattle.std.specs.Coded.{codes};
    ghost use Rattle.assise_inode_table.specs.Contents.{coded_inodes};
    ghost use Rattle.assise_digest.specs.Region.{RegionValue};
    ghost use Rattle.assise_digest.specs.Invariant.{LogsInvariant, seen_logs};

    ghost Value = { RegionValue };

    ghost coded = { Prim.hlevel (codes, coded_inodes) };

    ghost view = { λ r. record {
      inodes = r.area.inodes;
      logs = seen_logs r.logs.items;
      capacity = r.area.capacity;
    } };

    ghost invariant = { λ r. LogsInvariant r.area.inodes r.logs.items };
}

impl Region {
    /// The region of a new node: the root as a directory without entries, no clients, and 1 to 4,096 inodes that may be
    /// hot.
    pub fn new(alloc: Global, hot_capacity: usize) -> Result<Region, AllocError>
        requires least { 1 ≤ hot_capacity }
        requires most { hot_capacity ≤ 4096 }
        ensures opening { IfOk result (λ region.
            region ≡ record { inodes = opening_inodes; logs = []; capacity = hot_capacity }) }
    {
        let mut area = Area::new(alloc, hot_capacity)?;
        area.put(ROOT, Inode::new_directory(alloc))?;
        Ok(Region {
            area,
            logs: Vec::new(alloc),
        })
    }

    /// How many clients there are.
    pub fn clients(&self) -> usize
        ensures { result ≡ length self.now.logs }
    {
        self.logs.len()
    }

    /// The log of a client, as far as this node received it.
    pub fn log(&self, client: usize) -> &Log
        requires client { HasClient self.now client }
        ensures log { result.now ≡ (log_of self.now client).log }
        ensures whole { AreWhole (log_of self.now client).log.records }
    {
        &self.logs[client - 1].log
    }

    /// The number of the first record of a client that isn't digested.
    pub fn digested(&self, client: usize) -> u64
        requires client { HasClient self.now client }
        ensures value { result ≡ (log_of self.now client).digested }
        ensures begun { IsBegun (log_of self.now client) }
    {
        self.logs[client - 1].digested
    }

    /// Whether a client lives on this node.
    pub fn is_at_home(&self, client: usize) -> bool
        requires client { HasClient self.now client }
        ensures { result ≡ (log_of self.now client).at_home }
    {
        self.logs[client - 1].pending.is_some()
    }

    /// The inode of a number, if there is one, without records that aren't digested. Nothing becomes hot.
    pub fn peek(&self, inode: u64) -> Option<&Inode>
        ensures { option_copied result ≡ map.get self.now.inodes inode }
    {
        self.area.peek(inode)
    }

    /// Uses an inode, which is hot then, unless there is no memory for that (see [`Region::is_hot`]).
    pub fn touch(&mut self, inode: u64)
        ensures { self.new ≡ self.old }
    {
        self.area.touch(inode);
    }

    /// Whether an inode is hot. No contract of a region sees that: its value doesn't say which inodes are hot, so that a use,
    /// for which there may be no memory, leaves it as it was. [`Area`] says which are hot, and that a region's uses reach its
    /// area is seen by a test.
    pub fn is_hot(&self, inode: u64) -> bool {
        self.area.is_hot(inode)
    }

    /// How many inodes may be hot.
    pub fn hot_capacity(&self) -> usize
        ensures value { result ≡ self.now.capacity }
        ensures least { 1 ≤ result }
        ensures most { result ≤ 4096 }
    {
        self.area.hot_capacity()
    }

    /// Sets how many inodes may be hot, 1 to 4,096: of more than that the longest unused ones are cold then. It asks for
    /// memory where fewer may be hot than before and some have to cool, and it leaves the region as it was, and as many
    /// hot.
    pub fn set_hot_capacity(&mut self, capacity: usize) -> Result<(), AllocError>
        requires least { 1 ≤ capacity }
        requires most { capacity ≤ 4096 }
        ensures ok { OnOk result (self.new ≡ with_hot_capacity self.old capacity) }
        ensures err { OnErr result (self.new ≡ self.old) }
        ensures asked { OnErr result (capacity < self.old.capacity) }
    {
        self.area.set_hot_capacity(capacity)
    }

    /// An inode as a client that lives here reads it: after all its records. It costs one look-up in what they make, and
    /// one in the inodes.
    pub fn read(&self, client: usize, inode: u64) -> Option<&Inode>
        requires client { HasClient self.now client }
        requires at_home { (log_of self.now client).at_home ≡ true }
        ensures { option_copied result ≡ read_by self.now client inode }
    {
        let base = self.area.peek(inode);
        match &self.logs[client - 1].pending {
            Some(pending) => pending.value(inode, base),
            None => base,
        }
    }

    /// The inodes as a client that lives here reads them: after all its records.
    pub fn inodes_of(&self, client: usize) -> Overlay<'_>
        requires client { HasClient self.now client }
        requires at_home { (log_of self.now client).at_home ≡ true }
        ensures { result ≡ all_applied self.now.inodes
            (all_effects (ahead (log_of self.now client))) }
    {
        let Some(pending) = &self.logs[client - 1].pending else {
            unreachable!()
        };
        Overlay::new(&self.area, pending)
    }

    /// The tree that this region alone gives: that of its inodes after the records that aren't digested and are
    /// replicated. There is a number for each client, from client 1 on, below which its records are replicated. It costs
    /// the tree and those records. The one refusal is [`Refusal::OutOfMemory`].
    pub fn rebuild(&self, alloc: Global, acked: &[u64]) -> Result<Tree, Refusal>
        ghost t: { PlainTree }
        requires spelled { Spells (alone self.now acked.now) t }
        ensures tree { IfOk result (λ tree. tree ≡ t) }
        ensures only_memory { IsOkUnless result OutOfMemory }
    {
        let ahead = self.all_ahead(alloc, acked)?;
        Ok(Overlay::new(&self.area, &ahead).tree(alloc)?)
    }

    /// What the records make that aren't digested and are replicated, client by client.
    fn all_ahead(&self, alloc: Global, acked: &[u64]) -> Result<Pending, Refusal>
        ensures lays { IfOk result (λ ahead. Lays ahead self.now.inodes
            (all_ahead self.now.logs acked.now)) }
        ensures only_memory { IsOkUnless result OutOfMemory }
    {
        let mut ahead = Pending::new(alloc);
        for place in 0..self.logs.len().min(acked.len()) {
            self.logs[place].lay(alloc, &self.area, acked[place], &mut ahead)?;
        }
        Ok(ahead)
    }

    /// Adds a client that lives on another node, with what is received of its log, digested up to a number. The one
    /// refusal is [`Refusal::OutOfMemory`]: it leaves the region as it was, and gives the log back.
    pub fn add_client(&mut self, log: Log, digested: u64) -> Result<(), (Refusal, Log)>
        requires from_first { log.first ≤ digested }
        requires to_end { digested ≤ end log }
        requires whole { AreWhole log.records }
        ensures ok { OnOk result (self.new ≡ region_with_client self.old
            (record { log = log; digested = digested; at_home = false })) }
        ensures err { OnErr result (self.new ≡ self.old) }
        ensures given_back { IfErr result (λ back. back ≡ (OutOfMemory, log)) }
    {
        self.add(Received {
            log,
            digested,
            pending: None,
        })
    }

    /// Adds a client that lives on this node, with a log without records. The one refusal is
    /// [`Refusal::OutOfMemory`]: it leaves the region as it was, and gives the log back.
    pub fn add_own_client(&mut self, log: Log) -> Result<(), (Refusal, Log)>
        requires empty { log.records ≡ [] }
        ensures ok { OnOk result (self.new ≡ region_with_client self.old
            (record { log = log; digested = log.first; at_home = true })) }
        ensures err { OnErr result (self.new ≡ self.old) }
        ensures given_back { IfErr result (λ back. back ≡ (OutOfMemory, log)) }
    {
        let digested = log.first();
        let pending = Some(Pending::new(self.area.allocator()));
        self.add(Received {
            log,
            digested,
            pending,
        })
    }

    /// Adds what is received of a log.
    fn add(&mut self, received: Received) -> Result<(), (Refusal, Log)>
        requires sound { LogInvariant self.old.inodes received }
        ensures ok { OnOk result (self.new ≡ region_with_client self.old (seen_log received)) }
        ensures err { OnErr result (self.new ≡ self.old) }
        ensures given_back { IfErr result (λ back. back ≡ (OutOfMemory, received.log)) }
    {
        match self.logs.push(received) {
            Ok(()) => Ok(()),
            Err(failed) => Err((Refusal::OutOfMemory, failed.value.log)),
        }
    }

    /// Takes the client of the greatest number out, with its log. It takes no memory.
    pub fn remove_last_client(&mut self)
        ensures { self.new ≡ without_last_client self.old }
    {
        let kept = self.logs.len().saturating_sub(1);
        self.logs.truncate(kept);
    }

    /// Takes all clients out, with their logs, as a failure does: the inodes stay. It takes no memory.
    pub fn remove_clients(&mut self)
        ensures { self.new ≡ without_clients self.old }
    {
        self.logs.clear();
    }

    /// Takes the inode of a number out: it isn't what it is on other nodes. No client that lives here has a record that
    /// touches it and isn't digested. It takes no memory.
    pub fn stale(&mut self, inode: u64)
        requires quiet { IsQuiet self.old inode }
        ensures { self.new ≡ with_inode self.old inode None }
    {
        self.area.remove(inode);
    }

    /// Gives a number the inode that it has on another node, or none. No client that lives here has a record that touches
    /// it and isn't digested. It asks for memory where a number that has none gets an inode; without it, it leaves the
    /// region as it was.
    pub fn refill_one(&mut self, inode: u64, value: Option<Inode>) -> Result<(), AllocError>
        requires quiet { IsQuiet self.old inode }
        ensures ok { OnOk result (self.new ≡ with_inode self.old inode value) }
        ensures err { OnErr result (self.new ≡ self.old) }
        ensures asked { OnErr result (map.get self.old.inodes inode ≡ None) }
    {
        match value {
            Some(content) => self.put(inode, content),
            None => {
                self.stale(inode);
                Ok(())
            }
        }
    }

    /// Gives a number an inode.
    fn put(&mut self, inode: u64, content: Inode) -> Result<(), AllocError>
        requires quiet { IsQuiet self.old inode }
        ensures ok { OnOk result (self.new ≡ with_inode self.old inode (Some content)) }
        ensures err { OnErr result (self.new ≡ self.old) }
        ensures asked { OnErr result (map.get self.old.inodes inode ≡ None) }
    {
        self.area.put(inode, content)?;
        Ok(())
    }

    /// Takes a record of a client in, behind the last, with effects that can be made all or none. It is refused with
    /// [`Refusal::LogFull`] exactly where the log has no room; for a client that lives here, what the record makes is kept
    /// for its reads, and where there is no memory for that it is refused with [`Refusal::OutOfMemory`]. What is refused
    /// leaves the region as it was, and comes back.
    pub fn append(&mut self, client: usize, added: Record) -> Result<(), (Refusal, Record)>
        requires client { HasClient self.old client }
        requires number_fits { end (log_of self.old client).log + 1 < 2 ^ 64 }
        requires whole { CanBeMadeWhole added.effects }
        ensures ok { OnOk result (self.new ≡ with_log self.old client
            (with_more (log_of self.old client) added)) }
        ensures err { OnErr result (self.new ≡ self.old) }
        ensures given_back { IfErr result (λ back. back.1 ≡ added) }
        ensures room { IsOk result → LogHasRoom (log_of self.old client) }
        ensures refused { IfErr result (λ back.
            ((back.0 ≡ LogFull) × IsLogFull (log_of self.old client)) ⊎
            ((back.0 ≡ OutOfMemory) × LogHasRoom (log_of self.old client) ×
            ((log_of self.old client).at_home ≡ true))) }
    {
        self.append_grouped(client, added, true)
    }

    /// As [`Region::append`], but that the record is one more of the last group where it doesn't begin one: that has fewer than
    /// 64 records then.
    pub fn append_grouped(
        &mut self,
        client: usize,
        added: Record,
        begins: bool,
    ) -> Result<(), (Refusal, Record)>
        requires client { HasClient self.old client }
        requires number_fits { end (log_of self.old client).log + 1 < 2 ^ 64 }
        requires whole { CanBeMadeWhole added.effects }
        requires open_group { begins ≡ false → HasOpenGroup (log_of self.old client).log }
        ensures ok { OnOk result (self.new ≡
            with_log self.old client (with_one (log_of self.old client) added begins)) }
        ensures err { OnErr result (self.new ≡ self.old) }
        ensures given_back { IfErr result (λ back. back.1 ≡ added) }
        ensures room { IsOk result → LogHasRoom (log_of self.old client) }
        ensures refused { IfErr result (λ back. ((back.0 ≡ LogFull)
            × IsLogFull (log_of self.old client))
            ⊎ ((back.0 ≡ OutOfMemory) × LogHasRoom (log_of self.old client)
            × ((log_of self.old client).at_home ≡ true))) }
    {
        let alloc = self.area.allocator();
        self.logs[client - 1].append(alloc, &self.area, added, begins)
    }

    /// Lets the records of a client below a number go, all of which are digested here. It takes no memory.
    pub fn drop_front(&mut self, client: usize, to: u64)
        requires client { HasClient self.old client }
        requires from_first { (log_of self.old client).log.first ≤ to }
        requires digested { to ≤ (log_of self.old client).digested }
        ensures { self.new ≡ with_log self.old client (from_number (log_of self.old client) to) }
    {
        self.logs[client - 1].drop_front(to);
    }

    /// Lets the record of a number and all behind it go, none of which are digested here, of a client that lives on
    /// another node. It takes no memory.
    pub fn cut_tail(&mut self, client: usize, from: u64)
        requires client { HasClient self.old client }
        requires elsewhere { (log_of self.old client).at_home ≡ false }
        requires digested { (log_of self.old client).digested ≤ from }
        ensures { self.new ≡ with_log self.old client (up_to_number (log_of self.old client) from) }
    {
        self.logs[client - 1].cut_tail(from);
    }

    /// Cuts the records of a client from a number on, none of which are digested here, into groups of 64, the last with the
    /// rest, and lets the effects go that later ones of the same group override: the client reads what it read. The one
    /// refusal is [`Refusal::OutOfMemory`], and it leaves the region as it was.
    pub fn coalesce(&mut self, client: usize, from: u64) -> Result<(), Refusal>
        requires client { HasClient self.old client }
        requires digested { (log_of self.old client).digested ≤ from }
        requires to_end { from ≤ end (log_of self.old client).log }
        ensures ok { OnOk result (self.new ≡
            with_log self.old client (regrouped_from (log_of self.old client) from)) }
        ensures read { OnOk result ((i : ℕ) →
            read_by self.new client i ≡ read_by self.old client i) }
        ensures effects { OnOk result
            (AllHaveEffects (records_from (log_of self.old client).log from)) }
        ensures lawful { IsNumberedLog (log_of self.old client).log }
        ensures err { OnErr result (self.new ≡ self.old) }
        ensures only_memory { IsOkUnless result OutOfMemory }
    {
        let alloc = self.area.allocator();
        self.logs[client - 1].coalesce(alloc, from)
    }

    /// Puts at most `at_most` records of a client into the inodes, in their order, and of those alone that are numbered
    /// below what is replicated (Strata, SOSP 2017, section 3: digest). Each group is put in whole or not at all. It
    /// answers how many records there were, and only where no whole group is among those that may be digested is that 0.
    /// Where memory runs out it answers those before, and the one refusal, [`Refusal::OutOfMemory`], comes where there were
    /// none: it leaves the region as it was. Nobody can see a digest: the client reads what it read before, and the inodes
    /// that the region alone gives stay, whatever else is replicated.
    pub fn digest_some(
        &mut self,
        client: usize,
        acked: u64,
        at_most: usize,
    ) -> Result<usize, Refusal>
        requires client { HasClient self.old client }
        requires disjoint { TouchDisjoint self.old }
        ensures ok { IfOk result (λ n. self.new ≡ digested_by self.old client n) }
        ensures at_most { IfOk result (λ n. n ≤ at_most) }
        ensures acked { IfOk result (λ n. n ≤ length (ahead_below (log_of self.old client) acked)) }
        ensures groups { IfOk result (λ n. 0 < n →
            is_border (log_of self.old client).log ((log_of self.old client).digested + n) ≡ true) }
        ensures none { IfOk result (λ n. n ≡ 0 →
            whole_ahead (log_of self.old client) acked at_most ≡ 0) }
        ensures err { OnErr result (self.new ≡ self.old) }
        ensures asked { OnErr result ((0 < at_most) ×
            (0 < length (ahead_below (log_of self.old client) acked))) }
        ensures read { (i : ℕ) → read_by self.new client i ≡ read_by self.old client i }
        ensures alone { (numbers : List ℕ) → AreNotBelow self.new.logs numbers → (i : ℕ) →
            alone self.new numbers i ≡ alone self.old numbers i }
        ensures only_memory { IsOkUnless result OutOfMemory }
    {
        let most = self.count_ahead(client, acked).min(at_most);
        if self.logs[client - 1].are_all_ahead(most) {
            self.settle(client)?;
            return Ok(most);
        }
        let mut count = 0;
        while count < most {
            let group = self.next_group(client);
            if most - count < group {
                return Ok(count);
            }
            if let Err(refusal) = self.digest_group(client, group) {
                return if count == 0 { Err(refusal) } else { Ok(count) };
            }
            count += group;
        }
        Ok(count)
    }

    /// Puts all records that aren't digested of a client that lives here into the inodes: what they make is kept beside its
    /// log, and moves.
    fn settle(&mut self, client: usize) -> Result<(), AllocError>
        requires client { HasClient self.old client }
        requires at_home { (log_of self.old client).at_home ≡ true }
        requires disjoint { TouchDisjoint self.old }
        ensures ok { OnOk result (self.new ≡
            digested_by self.old client (length (ahead (log_of self.old client)))) }
        ensures err { OnErr result (self.new ≡ self.old) }
    {
        let alloc = self.area.allocator();
        self.logs[client - 1].settle(alloc, &mut self.area)
    }

    /// How many records the next group of a client has that isn't digested, or what is left of it.
    fn next_group(&self, client: usize) -> usize
        requires client { HasClient self.now client }
        requires more { (log_of self.now client).digested < end (log_of self.now client).log }
        ensures { IsNextGroup (log_of self.now client) result }
    {
        self.logs[client - 1].next_group()
    }

    /// Puts the next `count` records of a client into the inodes: all of them, or none.
    fn digest_group(&mut self, client: usize, count: usize) -> Result<(), Refusal>
        requires client { HasClient self.old client }
        requires disjoint { TouchDisjoint self.old }
        requires some { 0 < count }
        requires there { count ≤ length (ahead (log_of self.old client)) }
        ensures ok { OnOk result (self.new ≡ digested_by self.old client count) }
        ensures err { OnErr result (self.new ≡ self.old) }
        ensures only_memory { IsOkUnless result OutOfMemory }
    {
        if count == 1 {
            return Ok(self.digest_next(client)?);
        }
        self.digest_on_copies(client, count)
    }

    /// The same, at the cost of a copy of each inode that the records touch.
    fn digest_on_copies(&mut self, client: usize, count: usize) -> Result<(), Refusal>
        requires client { HasClient self.old client }
        requires disjoint { TouchDisjoint self.old }
        requires there { count ≤ length (ahead (log_of self.old client)) }
        ensures ok { OnOk result (self.new ≡ digested_by self.old client count) }
        ensures err { OnErr result (self.new ≡ self.old) }
        ensures only_memory { IsOkUnless result OutOfMemory }
    {
        let alloc = self.area.allocator();
        let effects = self.logs[client - 1].effects_ahead(alloc, count)?;
        apply_all_on_copies(&mut self.area, &effects)?;
        self.logs[client - 1].count_all_digested(count);
        Ok(())
    }

    /// How many records of a client aren't digested, of those numbered below what is replicated.
    fn count_ahead(&self, client: usize, acked: u64) -> usize
        requires client { HasClient self.now client }
        ensures count { result ≡ length (ahead_below (log_of self.now client) acked) }
        ensures begun { IsBegun (log_of self.now client) }
    {
        let received = &self.logs[client - 1];
        let to = acked.min(received.log.end());
        to.saturating_sub(received.digested) as usize
    }

    /// Puts the next record of a client into the inodes: whole, or not at all.
    fn digest_next(&mut self, client: usize) -> Result<(), AllocError>
        requires client { HasClient self.old client }
        requires disjoint { TouchDisjoint self.old }
        requires more { (log_of self.old client).digested < end (log_of self.old client).log }
        ensures ok { OnOk result (self.new ≡ digested_by self.old client 1) }
        ensures err { OnErr result (self.new ≡ self.old) }
    {
        let received = &self.logs[client - 1];
        let Some(next) = received.log.get(received.digested) else {
            unreachable!()
        };
        self.area.apply_all(next.effects())?;
        self.logs[client - 1].count_digested();
        Ok(())
    }
}
