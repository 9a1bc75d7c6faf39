//! The members of a cluster.
ghost use Rattle.std.specs.Prelude.{◌≡◌, ◌-◌, ◌<◌, ◌≤◌, ◌^◌, map, vec_len, vec_capacity};
ghost use Rattle.assise_manager.specs.Membership.{IsMembership};
ghost use Rattle.assise_manager.specs.Seen.{listed_inodes, standing};
ghost use Rattle.assise_manager.specs.Standings.{full_nodes};

use crate::level::{Level, join_levels, level_at, put_level};
use crate::node::{
    Node, Refill, Return, drop_lowest, list_full, lowest_besides, node_at, note_all, put,
    refill_all, reserve_all, written_since,
};
use crate::phase::Phase;
use crate::stale_set::StaleSet;
use crate::written_list::{WrittenList, insert_last, reserve_last};
use assise_names::refusal::Refusal;
use std::alloc::{AllocError, Global};
use std::collections::VecDeque;

/// The nodes of a cluster: which are full, which are down or come back, in which epoch, and which inodes were written while
/// some node wasn't full (Assise, OSDI 2020, section 3, on recovery). Nodes are numbered from 1.
pub struct Members {
    alloc: Global,
    epoch: u64,
    nodes: Vec<Node>,
    full: Vec<u32>,
    written: Vec<WrittenList>,
    levels: Vec<Level>,
    ghost lawful: { IsMembership (record { epoch = epoch; nodes = map standing nodes.items; written = map listed_inodes written.items; levels = levels.items }) },
    ghost listed: { full.items ≡ full_nodes (map standing nodes.items) },
    ghost room: { vec_len nodes ≤ vec_capacity full },
    ghost few: { vec_len nodes < 2 ^ 32 },
}

// One call lets go of it, wherever it is owned.
impl Drop for Members {
    fn drop(self) {
        let Members {
            alloc: _,
            epoch: _,
            nodes: _,
            full: _,
            written: _,
            levels: _,
        } = self;
    }
}

impl Members {
    ghost use Rattle.std.specs.Prelude.{◌≡◌, ◌↔◌, ◌+◌, ◌-◌, ◌^◌, ◌<◌, ◌≤◌, ℕ, IsSome, option_map, None, Some, IfErr, IfNone, IfOk, IfSome, IsOk, IsOkUnless, OnErr, OnOk, Err, length, nat_eq, true};
    ghost use Rattle.std.specs.FinSet as set;
    ghost use Rattle.std.specs.List.{IsDistinct};
    ghost use Rattle.std.specs.List.Sorted.{IsStrictlySortedBy};
    ghost use Rattle.std.specs.Ordering.{nat_cmp};
    ghost use Rattle.assise_names.specs.declared.refusal.Refusal.{Refusal as Refused};
    ghost use Rattle.assise_names.specs.declared.refusal.Refusal.TheVariants.{BadNode, OutOfMemory};
    ghost use Rattle.assise_manager.specs.Changes.{is_away, is_returning, with_node, donor_of, IsLowestOf, all_full, failed, failure_fault, back, return_fault, stale_of, filling_fault, IsLowest, with_copied, joined, join_fault, noted, raised, raise_fault};
    ghost use Rattle.assise_manager.specs.Membership.{IsMembership, first_listed, is_known, written_in};
    ghost use Rattle.assise_manager.specs.NodeLevels.{level_of};
    ghost use Rattle.assise_manager.specs.Seen.{standing, stale_inodes};
    ghost use Rattle.assise_manager.specs.Standings.{full, returning, full_nodes, standing_of, phase_of};
    ghost use Rattle.assise_manager.specs.Whole.{membership, has_room_for};

    /// `count` full nodes at the first level, in epoch 1.
    pub fn new(alloc: Global, count: u32) -> Result<Members, AllocError>
        requires some { 0 < count }
        ensures full { IfOk result (λ m. membership m ≡ all_full count) }
    {
        let mut nodes = Vec::with_capacity(alloc, count as usize)?;
        let mut full = Vec::with_capacity(alloc, count as usize)?;
        let mut levels = Vec::with_capacity(alloc, count as usize)?;
        for _ in 0..count {
            nodes.push(Node::Full)?;
            levels.push(Level::Plain)?;
        }
        list_full(&mut full, &nodes);
        let written = Vec::new(alloc);
        Ok(Members {
            alloc,
            epoch: 1,
            nodes,
            full,
            written,
            levels,
        })
    }

    /// The current epoch. The first is 1, and another begins whenever a full node fails and whenever a node joins.
    pub fn epoch(&self) -> u64
        ensures epoch { result ≡ (membership self.now).epoch }
        ensures lawful { IsMembership (membership self.now) }
    {
        self.epoch
    }

    /// How a node stands. The one refusal is [`Refusal::BadNode`].
    pub fn phase(&self, node: u32) -> Result<Phase, Refusal>
        ensures { result ≡ phase_of (standing_of (membership self.now).nodes node) }
    {
        match self.node(node)? {
            Node::Full => Ok(Phase::Full),
            Node::Down(_) => Ok(Phase::Down),
            Node::Returning(_) => Ok(Phase::Returning),
        }
    }

    /// The numbers of the full nodes, ascending. There is one at least.
    pub fn full_nodes(&self) -> &[u32]
        ensures { result.now ≡ full_nodes (membership self.now).nodes }
    {
        self.full.as_slice()
    }

    /// The full node that a node which comes back is filled from. Refused with [`Refusal::BadNode`] where there is no such
    /// node, and [`Refusal::WrongPhase`] where it doesn't come back.
    pub fn donor(&self, node: u32) -> Result<u32, Refusal>
        ensures fault { (e : Refused) → filling_fault (membership self.now) node ≡ Some e →
            result ≡ Err e }
        ensures ok { IsOk result ↔ (filling_fault (membership self.now) node ≡ None) }
        ensures donor { IfOk result (λ d. donor_of (standing_of (membership self.now).nodes node) ≡
            Some d) }
    {
        Ok(self.returning(node)?.donor)
    }

    /// The inodes that a node which comes back may lack, ascending. Refused as [`Members::donor`] is.
    pub fn stale(&self, node: u32) -> Result<&VecDeque<u64>, Refusal>
        ensures fault { (e : Refused) → filling_fault (membership self.now) node ≡ Some e →
            result ≡ Err e }
        ensures ok { IsOk result ↔ (filling_fault (membership self.now) node ≡ None) }
        ensures stale { IfOk result (λ s. stale_of (standing_of (membership self.now).nodes node) ≡
            Some (set.from_list s.now.items)) }
        ensures ascending { IfOk result (λ s. IsStrictlySortedBy nat_cmp s.now.items) }
    {
        Ok(self.returning(node)?.stale.inodes())
    }

    /// The lowest inode that a node which comes back may lack, if there is one. Refused as [`Members::donor`] is.
    pub fn lowest_stale(&self, node: u32) -> Result<Option<u64>, Refusal>
        ensures fault { (e : Refused) → filling_fault (membership self.now) node ≡ Some e →
            result ≡ Err e }
        ensures ok { IsOk result ↔ (filling_fault (membership self.now) node ≡ None) }
        ensures lowest { IfOk result (λ o. IsLowestOf
            (stale_of (standing_of (membership self.now).nodes node)) o) }
    {
        Ok(self.returning(node)?.stale.lowest())
    }

    /// The inodes on an epoch's list, each once, in any order: those that were written in it while some node wasn't full, and
    /// those that may not have been everywhere when it began. None, where the epoch has no list: each since the first failure
    /// of a node that isn't full has one.
    pub fn written_in(&self, epoch: u64) -> Option<&[u64]>
        ensures listed { IfSome result (λ inodes. written_in (membership self.now) epoch ≡ Some
            (set.from_list inodes.now)) }
        ensures once { IfSome result (λ inodes. IsDistinct nat_eq inodes.now) }
        ensures none { IfNone result (written_in (membership self.now) epoch ≡ None) }
    {
        if self.written.is_empty() {
            return None;
        }
        let place = epoch.checked_sub(self.first_listed())?;
        let list = self.written.get(place as usize)?;
        Some(list.as_slice())
    }

    /// A node fails. A full one is down from an epoch on that begins now; the inodes are those that may not be everywhere,
    /// and stand first on the epoch's list; nodes that were filled from it start over from the lowest full node. One that
    /// comes back is down again. Refused with [`Refusal::BadNode`] where there is no such node, [`Refusal::WrongPhase`]
    /// where it is down, [`Refusal::LastNode`] where it is the only full one, and [`Refusal::OutOfMemory`]; then all is as it
    /// was. The failure of a node that comes back takes no memory.
    pub fn fail(&mut self, node: u32, inodes: &[u64]) -> Result<(), Refusal>
        requires epoch_fits { (membership self.old).epoch + 1 < 2 ^ 64 }
        ensures fault { (e : Refused) → failure_fault (membership self.old) node ≡ Some e →
            result ≡ Err e }
        ensures only_memory { failure_fault (membership self.old) node ≡ None →
            IsOkUnless result OutOfMemory }
        ensures faultless { OnOk result (failure_fault (membership self.old) node ≡ None) }
        ensures ok { OnOk result (membership self.new ≡ failed (membership self.old) node
            (set.from_list inodes.now)) }
        ensures err { OnErr result (membership self.new ≡ membership self.old) }
        ensures again { is_returning (standing_of (membership self.old).nodes node) ≡ true →
            IsOk result }
    {
        match self.node(node)? {
            Node::Full if self.full.len() == 1 => Err(Refusal::LastNode),
            Node::Full => Ok(self.fail_full(node, inodes)?),
            Node::Down(_) => Err(Refusal::WrongPhase),
            Node::Returning(returning) => {
                let since = returning.since;
                self.put(node, Node::Down(since));
                Ok(())
            }
        }
    }

    /// A node that was down comes back: it is filled from the lowest full node. Answers how many inodes it may lack: all
    /// that were written since its first failure. Refused with [`Refusal::BadNode`] where there is no such node,
    /// [`Refusal::WrongPhase`] where it isn't down, and [`Refusal::OutOfMemory`]; then all is as it was.
    pub fn back(&mut self, node: u32) -> Result<usize, Refusal>
        ensures fault { (e : Refused) → return_fault (membership self.old) node ≡ Some e →
            result ≡ Err e }
        ensures only_memory { return_fault (membership self.old) node ≡ None →
            IsOkUnless result OutOfMemory }
        ensures faultless { OnOk result (return_fault (membership self.old) node ≡ None) }
        ensures ok { OnOk result (membership self.new ≡ back (membership self.old) node) }
        ensures count { IfOk result (λ n. option_map set.len
            (stale_of (standing_of (membership self.new).nodes node)) ≡ Some n) }
        ensures err { OnErr result (membership self.new ≡ membership self.old) }
    {
        let Node::Down(since) = self.node(node)? else {
            return Err(Refusal::WrongPhase);
        };
        let since = *since;
        let lists = written_since(&self.written, self.first_listed(), since);
        let stale = StaleSet::of(self.alloc, lists)?;
        let donor = self.full[0];
        let count = stale.len();
        let returning = Return {
            since,
            donor,
            stale,
        };
        self.put(node, Node::Returning(returning));
        Ok(count)
    }

    /// A node that comes back has got the lowest inode that it may have lacked, if there was one. Answers how many are left.
    /// Refused as [`Members::donor`] is. It takes no memory.
    pub fn note_copied(&mut self, node: u32) -> Result<usize, Refusal>
        ensures fault { (e : Refused) → filling_fault (membership self.old) node ≡ Some e →
            result ≡ Err e }
        ensures ok { IsOk result ↔ (filling_fault (membership self.old) node ≡ None) }
        ensures copied { (inode : ℕ) → IsLowestOf
            (stale_of (standing_of (membership self.old).nodes node)) (Some inode) →
            membership self.new ≡ with_copied (membership self.old) node inode }
        ensures none { IsLowestOf (stale_of (standing_of (membership self.old).nodes node)) None →
            membership self.new ≡ membership self.old }
        ensures count { IfOk result (λ n. option_map set.len
            (stale_of (standing_of (membership self.new).nodes node)) ≡ Some n) }
        ensures err { OnErr result (membership self.new ≡ membership self.old) }
    {
        self.returning(node)?;
        Ok(drop_lowest(&mut self.nodes, node))
    }

    /// A node that comes back and lacks no inode is full, from an epoch on that begins now, and its level is that of the node that
    /// it was filled from at least. Where all nodes are full then, the lists go. Refused with [`Refusal::BadNode`] where there is no such node, [`Refusal::WrongPhase`] where it doesn't come
    /// back, [`Refusal::Busy`] where it may lack an inode, and [`Refusal::OutOfMemory`]; then all is as it was.
    pub fn join(&mut self, node: u32) -> Result<(), Refusal>
        requires epoch_fits { (membership self.old).epoch + 1 < 2 ^ 64 }
        ensures fault { (e : Refused) → join_fault (membership self.old) node ≡ Some e →
            result ≡ Err e }
        ensures only_memory { join_fault (membership self.old) node ≡ None →
            IsOkUnless result OutOfMemory }
        ensures faultless { OnOk result (join_fault (membership self.old) node ≡ None) }
        ensures ok { OnOk result (membership self.new ≡ joined (membership self.old) node) }
        ensures err { OnErr result (membership self.new ≡ membership self.old) }
    {
        let donor = self.may_join(node)?;
        self.written.reserve(1)?;
        join_levels(&mut self.levels, node, donor);
        put(&mut self.nodes, node, Node::Full);
        list_full(&mut self.full, &self.nodes);
        self.epoch += 1;
        if self.full.len() == self.nodes.len() {
            self.written.clear();
        } else {
            self.written.push_reserved(WrittenList::new(self.alloc));
        }
        Ok(())
    }

    /// The level of a node, which is the first where there is no such node.
    pub fn level(&self, node: u32) -> Level
        ensures { result ≡ level_of (membership self.now).levels node }
    {
        level_at(&self.levels, node)
    }

    /// A full node at the first level is raised: it reads marked frames, and sends them. Refused with [`Refusal::BadNode`] where
    /// there is no such node, and [`Refusal::WrongPhase`] where it isn't full or was raised; then all is as it was. It takes no
    /// memory.
    pub fn raise(&mut self, node: u32) -> Result<(), Refusal>
        ensures fault { (e : Refused) →
            raise_fault (membership self.old) node ≡ Some e → result ≡ Err e }
        ensures ok { IsOk result ↔ (raise_fault (membership self.old) node ≡ None) }
        ensures raised { OnOk result (membership self.new ≡ raised (membership self.old) node) }
        ensures err { OnErr result (membership self.new ≡ membership self.old) }
    {
        if !self.node(node)?.is_full() || self.level(node) == Level::Marked {
            return Err(Refusal::WrongPhase);
        }
        put_level(&mut self.levels, node, Level::Marked);
        Ok(())
    }

    /// Makes room for `count` inodes that are written at a node.
    pub fn reserve_written(&mut self, node: u32, count: usize) -> Result<(), AllocError>
        ensures same { membership self.new ≡ membership self.old }
        ensures room { OnOk result (has_room_for self.new node count ≡ true) }
    {
        reserve_last(&mut self.written, count)?;
        reserve_all(&mut self.nodes, node, count)?;
        Ok(())
    }

    /// Inodes are written at a full node: while some node isn't full they are on the current epoch's list, and nodes that are
    /// filled from it may lack them. It takes no memory, as room was made before.
    pub fn note_reserved(&mut self, node: u32, inodes: &[u64])
        requires room { has_room_for self.old node (length inodes.now) ≡ true }
        ensures { membership self.new ≡ noted (membership self.old) node
            (set.from_list inodes.now) }
    {
        insert_last(&mut self.written, inodes);
        note_all(&mut self.nodes, node, inodes);
    }

    /// Inodes are written at a full node, as [`Members::note_reserved`] says. Without memory all is as it was.
    pub fn note_written(&mut self, node: u32, inodes: &[u64]) -> Result<(), AllocError>
        ensures ok { OnOk result (membership self.new ≡ noted (membership self.old) node
            (set.from_list inodes.now)) }
        ensures err { OnErr result (membership self.new ≡ membership self.old) }
    {
        self.reserve_written(node, inodes.len())?;
        self.note_reserved(node, inodes);
        Ok(())
    }

    /// How a node stands.
    fn node(&self, node: u32) -> Result<&Node, Refusal>
        ensures ok { IfOk result (λ n. standing_of (membership self.now).nodes node ≡ Some
            (standing n.now)) }
        ensures none { OnErr result (standing_of (membership self.now).nodes node ≡ None) }
        ensures only_bad { IsOkUnless result BadNode }
    {
        node_at(&self.nodes, node).ok_or(Refusal::BadNode)
    }

    /// What is known of a node that comes back.
    fn returning(&self, node: u32) -> Result<&Return, Refusal>
        ensures ok { IfOk result (λ r. standing_of (membership self.now).nodes node ≡ Some
            (returning r.now.since r.now.donor (stale_inodes r.now.stale))) }
        ensures fault { (e : Refused) → filling_fault (membership self.now) node ≡ Some e →
            result ≡ Err e }
        ensures faultless { OnErr result (IsSome (filling_fault (membership self.now) node)) }
    {
        match self.node(node)? {
            Node::Returning(returning) => Ok(returning),
            _ => Err(Refusal::WrongPhase),
        }
    }

    /// Lets a node that isn't full stand otherwise, not full.
    fn put(&mut self, node: u32, now: Node)
        requires there { is_away (standing_of (membership self.old).nodes node) ≡ true }
        requires away { is_away (Some (standing now)) ≡ true }
        requires known { is_known (membership self.old) (standing now) ≡ true }
        ensures { membership self.new ≡ with_node (membership self.old) node (standing now) }
    {
        put(&mut self.nodes, node, now);
    }

    /// Of a node that comes back and lacks no inode the node that it was filled from.
    fn may_join(&self, node: u32) -> Result<u32, Refusal>
        ensures fault { (e : Refused) → join_fault (membership self.now) node ≡ Some e →
            result ≡ Err e }
        ensures faultless { IsOk result ↔ (join_fault (membership self.now) node ≡ None) }
        ensures returning { OnOk result (is_returning
            (standing_of (membership self.now).nodes node) ≡ true) }
        ensures donor { IfOk result
            (λ d. donor_of (standing_of (membership self.now).nodes node) ≡ Some d) }
    {
        match self.node(node)? {
            Node::Returning(returning) if returning.stale.len() == 0 => Ok(returning.donor),
            Node::Returning(_) => Err(Refusal::Busy),
            _ => Err(Refusal::WrongPhase),
        }
    }

    /// The first epoch that has a list, where there is one.
    fn first_listed(&self) -> u64
        requires some { 0 < length (membership self.now).written }
        ensures { result ≡ first_listed (membership self.now) }
    {
        self.epoch - (self.written.len() as u64 - 1)
    }

    /// A full node that isn't the only one fails.
    fn fail_full(&mut self, node: u32, inodes: &[u64]) -> Result<(), AllocError>
        requires epoch_fits { (membership self.old).epoch + 1 < 2 ^ 64 }
        requires full { standing_of (membership self.old).nodes node ≡ Some full }
        requires others { 1 < length (full_nodes (membership self.old).nodes) }
        ensures ok { OnOk result (membership self.new ≡ failed (membership self.old) node
            (set.from_list inodes.now)) }
        ensures err { OnErr result (membership self.new ≡ membership self.old) }
    {
        let list = WrittenList::of(self.alloc, inodes)?;
        let first = self.epoch + 1 - self.written.len() as u64;
        self.written.push(list)?;
        let donor = lowest_besides(&self.full, node);
        let refill = Refill {
            alloc: self.alloc,
            failed: node,
            donor,
            lists: &self.written,
            first,
        };
        if let Err(refusal) = refill_all(&mut self.nodes, &refill) {
            let _ = self.written.pop();
            return Err(refusal);
        }
        self.epoch += 1;
        put(&mut self.nodes, node, Node::Down(self.epoch));
        list_full(&mut self.full, &self.nodes);
        Ok(())
    }
}
