//! Inodes that a node may lack.
ghost use Rattle.std.specs.List.Sorted.{IsStrictlySortedBy};
ghost use Rattle.std.specs.Ordering.{nat_cmp};
ghost use Rattle.std.proofs.Props.{props};

use crate::written_list::WrittenList;
use std::alloc::{AllocError, Global};
use std::collections::VecDeque;

/// The inodes that a node may lack, ascending. They go from the front, and others come in where room was made before.
#[derive(Drop)]
pub(crate) struct StaleSet {
    inodes: VecDeque<u64>,
    ghost ascending: { IsStrictlySortedBy nat_cmp inodes.items } by { Prim.hlevel props },
}

impl StaleSet {
    ghost use Rattle.std.specs.Prelude.{◌≡◌, ◌+◌, ◌≤◌, IfOk, IfSome, None, OnOk, length, map, true, ℕ};
    ghost use Rattle.std.specs.VecDeque.{deque_len, deque_capacity};
    ghost use Rattle.std.specs.FinSet as set;
    ghost use Rattle.assise_manager.specs.Changes.{IsLowest};
    ghost use Rattle.assise_manager.specs.Membership.{all_inodes};
    ghost use Rattle.assise_manager.specs.Seen.{listed_inodes, stale_inodes, has_stale_room};

    /// All inodes of some lists.
    pub(crate) fn of(alloc: Global, lists: &[WrittenList]) -> Result<StaleSet, AllocError>
        ensures inodes { IfOk result (λ s. stale_inodes s ≡ all_inodes
            (map listed_inodes lists.now)) }
    {
        let mut inodes = Vec::new(alloc);
        for list in lists {
            inodes.extend_from_slice(list.as_slice())?;
        }
        inodes.sort_unstable();
        inodes.dedup();
        let inodes = VecDeque::from_vec(inodes);
        Ok(StaleSet { inodes })
    }

    /// The inodes, ascending.
    pub(crate) fn inodes(&self) -> &VecDeque<u64>
        ensures inodes { set.from_list result.now.items ≡ stale_inodes self.now }
        ensures ascending { IsStrictlySortedBy nat_cmp result.now.items }
    {
        &self.inodes
    }

    /// How many inodes there are.
    pub(crate) fn len(&self) -> usize
        ensures { result ≡ set.len (stale_inodes self.now) }
    {
        self.inodes.len()
    }

    /// Makes room for `count` inodes more.
    pub(crate) fn reserve(&mut self, count: usize) -> Result<(), AllocError>
        ensures same { stale_inodes self.new ≡ stale_inodes self.old }
        ensures room { OnOk result (has_stale_room count self.new ≡ true) }
    {
        self.inodes.reserve(count)
    }

    /// Takes an inode in, at its place. It takes no memory.
    fn insert(&mut self, inode: u64)
        requires room { has_stale_room 1 self.old ≡ true }
        ensures inodes { stale_inodes self.new ≡ set.insert (stale_inodes self.old) inode }
        ensures len { deque_len self.new.inodes ≤ deque_len self.old.inodes + 1 }
        ensures capacity { deque_capacity self.old.inodes ≤ deque_capacity self.new.inodes }
    {
        let Err(place) = self.inodes.binary_search(&inode) else {
            return;
        };
        let Ok(()) = self.inodes.insert(place, inode) else {
            unreachable!()
        };
    }

    /// Takes inodes in. It takes no memory.
    pub(crate) fn insert_reserved(&mut self, inodes: &[u64])
        requires room { has_stale_room (length inodes.now) self.old ≡ true }
        ensures { stale_inodes self.new ≡ set.union (stale_inodes self.old)
            (set.from_list inodes.now) }
    {
        for &inode in inodes {
            self.insert(inode);
        }
    }

    /// The lowest inode, if there is one.
    pub(crate) fn lowest(&self) -> Option<u64>
        ensures lowest { IfSome result (IsLowest (stale_inodes self.now)) }
        ensures none { result ≡ None → stale_inodes self.now ≡ set.empty }
    {
        self.inodes.front().copied()
    }

    /// Lets the lowest inode go, if there is one.
    pub(crate) fn drop_lowest(&mut self)
        ensures taken { (inode : ℕ) → IsLowest (stale_inodes self.old) inode →
            stale_inodes self.new ≡ set.remove (stale_inodes self.old) inode }
        ensures none { stale_inodes self.old ≡ set.empty →
            stale_inodes self.new ≡ stale_inodes self.old }
    {
        let _ = self.inodes.pop_front();
    }
}
