//! Numbers of records by inodes.
ghost use Rattle.std.specs.Prelude.{◌≡◌, ◌&&◌, ℕ, IfOk, IsSome, None, OnErr, OnOk, is_some, nat_eq, not};
ghost use Rattle.std.specs.List.{list_any};
ghost use Rattle.std.specs.FinMap as map;

use assise_inode_table::table::InodeTable;
use indexmap::IndexMap;
use std::alloc::{AllocError, Global};
use std::marker::Model;

/// The number of a record for each of some inodes. A contract sees the finite map.
#[derive(Debug)]
pub struct Numbers {
    numbers: IndexMap<u64, u64>,
}

// One call lets go of it, wherever it is owned.
impl Drop for Numbers {
    fn drop(self) {
        let Numbers { numbers: _ } = self;
    }
}

impl Model for Numbers {
    ghost use Rattle.std.specs.FinMap as map;
    ghost use Rattle.std.specs.Prelude.{ℕ};
    ghost use Rattle.std.specs.Ordering.{nat_cmp};
    ghost use Rattle.std.specs.Coded.{coded_ℕ};

    ghost Value = { map.FinMap nat_cmp ℕ };

    ghost coded = { map.code coded_ℕ coded_ℕ };

    ghost view = { λ n. map.from_entries n.numbers.entries };
}

impl Numbers {
    /// No numbers. It takes no memory.
    pub fn new(alloc: Global) -> Numbers
        ensures { result ≡ map.empty }
    {
        Numbers {
            numbers: IndexMap::new(alloc),
        }
    }

    /// The number that an inode has, if it has one.
    pub fn get(&self, inode: u64) -> Option<u64>
        ensures { result ≡ map.get self.now inode }
    {
        self.numbers.get(&inode).copied()
    }

    /// Gives an inode a number. It asks for memory where it had none; without it, it leaves the numbers as they were.
    pub fn insert(&mut self, inode: u64, number: u64) -> Result<(), AllocError>
        ensures ok { OnOk result (self.new ≡ map.insert self.old inode number) }
        ensures err { OnErr result (self.new ≡ self.old) }
        ensures asked { OnErr result (map.get self.old inode ≡ None) }
    {
        self.numbers.insert(inode, number)?;
        Ok(())
    }

    /// Gives an inode that has a number another one. It takes no memory.
    pub fn set(&mut self, inode: u64, number: u64)
        requires there { IsSome (map.get self.old inode) }
        ensures { self.new ≡ map.insert self.old inode number }
    {
        let Some(known) = self.numbers.get_mut(&inode) else {
            unreachable!();
        };
        *known = number;
    }

    /// The inodes that have a number, but none of these.
    pub fn beyond(&self, alloc: Global, inodes: &InodeTable) -> Result<Vec<u64>, AllocError>
        ensures which { IfOk result (λ beyond. (i : ℕ) → list_any (nat_eq i) beyond.items ≡
            (is_some (map.get self.now i) && not (is_some (map.get inodes.now i)))) }
    {
        let mut beyond = Vec::new(alloc);
        for inode in self.numbers.keys() {
            if inodes.get(*inode).is_none() {
                beyond.push(*inode)?;
            }
        }
        Ok(beyond)
    }

    /// Takes all numbers out. The memory stays.
    pub fn clear(&mut self)
        ensures { self.new ≡ map.empty }
    {
        self.numbers.clear();
    }

    /// Takes the number of an inode out, if it has one.
    pub fn remove(&mut self, inode: u64)
        ensures { self.new ≡ map.remove self.old inode }
    {
        self.numbers.swap_remove(&inode);
    }
}
