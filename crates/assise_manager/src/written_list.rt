//! Inodes that were written in an epoch.
ghost use Rattle.std.specs.Prelude.{◌≡◌, ◌≤◌, IfOk, IsOk, OnOk, length, map, nat_eq, true};
ghost use Rattle.std.specs.FinSet as set;
ghost use Rattle.std.specs.List.{IsDistinct};
ghost use Rattle.assise_manager.specs.Changes.{with_written};
ghost use Rattle.assise_manager.specs.Seen.{listed_inodes, has_last_room, has_list_room};

use indexmap::IndexSet;
use std::alloc::{AllocError, Global};

/// The inodes that were written in one epoch, each once.
#[derive(Drop)]
pub(crate) struct WrittenList {
    inodes: IndexSet<u64>,
}

impl WrittenList {
    /// No inodes. It takes no memory.
    pub(crate) fn new(alloc: Global) -> WrittenList
        ensures { listed_inodes result ≡ set.empty }
    {
        WrittenList {
            inodes: IndexSet::new(alloc),
        }
    }

    /// The inodes of a list, which may have one many times.
    pub(crate) fn of(alloc: Global, inodes: &[u64]) -> Result<WrittenList, AllocError>
        ensures inodes { IfOk result (λ l. listed_inodes l ≡ set.from_list inodes.now) }
    {
        let mut list = WrittenList::new(alloc);
        list.reserve(inodes.len())?;
        list.insert_reserved(inodes);
        Ok(list)
    }

    /// Makes room for `count` inodes more.
    pub(crate) fn reserve(&mut self, count: usize) -> Result<(), AllocError>
        ensures same { listed_inodes self.new ≡ listed_inodes self.old }
        ensures room { OnOk result (has_list_room count self.new ≡ true) }
    {
        self.inodes.reserve(count)
    }

    /// Takes inodes in. It takes no memory.
    pub(crate) fn insert_reserved(&mut self, inodes: &[u64])
        requires room { has_list_room (length inodes.now) self.old ≡ true }
        ensures { listed_inodes self.new ≡ set.union (listed_inodes self.old)
            (set.from_list inodes.now) }
    {
        for &inode in inodes {
            let Ok(_) = self.inodes.insert(inode) else {
                unreachable!()
            };
        }
    }

    /// The inodes, each once.
    pub(crate) fn as_slice(&self) -> &[u64]
        ensures inodes { set.from_list result.now ≡ listed_inodes self.now }
        ensures once { IsDistinct nat_eq result.now }
    {
        self.inodes.as_slice()
    }
}

/// Makes room for `count` inodes more on the last list, if there is one.
pub(crate) fn reserve_last(lists: &mut [WrittenList], count: usize) -> Result<(), AllocError>
    ensures len { length lists.new ≡ length lists.old }
    ensures same { map listed_inodes lists.new ≡ map listed_inodes lists.old }
    ensures room { OnOk result (has_last_room count lists.new ≡ true) }
{
    match lists.len().checked_sub(1) {
        Some(last) => lists[last].reserve(count),
        None => Ok(()),
    }
}

/// Takes inodes in on the last list, if there is one. It takes no memory.
pub(crate) fn insert_last(lists: &mut [WrittenList], inodes: &[u64])
    requires room { has_last_room (length inodes.now) lists.old ≡ true }
    ensures len { length lists.new ≡ length lists.old }
    ensures lists { map listed_inodes lists.new ≡ with_written (map listed_inodes lists.old)
        (set.from_list inodes.now) }
{
    if let Some(last) = lists.len().checked_sub(1) {
        lists[last].insert_reserved(inodes);
    }
}
