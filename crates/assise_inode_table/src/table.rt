//! A table of inodes.
ghost use Rattle.std.specs.Prelude.{◌≡◌, IfNone, IfOk, IfSome, IsOk, None, OnErr, OnOk, Some, option_copied, option_map};
ghost use Rattle.std.specs.FinMap as map;
ghost use Rattle.assise_inode_table.specs.Effects.{AsksForMemory, TakesAway, all_applied, applied, changed, with_value};
ghost use Rattle.assise_inode_table.specs.Opening.{opening_inodes};
ghost use Rattle.assise_inode_table.specs.Whole.{CanBeMadeWhole, OnlyTakeAway};
ghost use Rattle.assise_record.specs.Touched.{touched_by};

use crate::inode::Inode;
use crate::inodes::Inodes;
use crate::store::InodeStore;
use crate::whole::apply_all;
use assise_record::effect::Effect;
use indexmap::IndexMap;
use std::alloc::{AllocError, Global};
use std::marker::Model;

/// The number of the root (POSIX.1-2017, base definitions, chapter 3: Root Directory).
pub const ROOT: u64 = 0;

/// Inodes by their numbers, found by a hash. A contract sees the finite map.
#[derive(Debug)]
pub struct InodeTable {
    alloc: Global,
    inodes: IndexMap<u64, Inode>,
}

// One call lets go of it, wherever it is owned.
impl Drop for InodeTable {
    fn drop(self) {
        let InodeTable {
            alloc: _,
            inodes: _,
        } = self;
    }
}

impl Model for InodeTable {
    ghost use Rattle.std.specs.FinMap as map;
    ghost use Rattle.assise_inode_table.specs.Contents.{InodeMap, coded_inodes};

    ghost Value = { InodeMap };

    ghost coded = { coded_inodes };

    ghost view = { λ t. map.from_entries t.inodes.entries };
}

impl InodeTable {
    /// A table without inodes. It takes no memory.
    pub fn new(alloc: Global) -> InodeTable
        ensures { result ≡ map.empty }
    {
        InodeTable {
            alloc,
            inodes: IndexMap::new(alloc),
        }
    }

    /// What stands at the opening of a file system: the root as a directory without entries, and nothing else.
    pub fn opening(alloc: Global) -> Result<InodeTable, AllocError>
        ensures root { IfOk result (λ table. table ≡ opening_inodes) }
    {
        let mut table = InodeTable::new(alloc);
        table.insert(ROOT, Inode::new_directory(alloc))?;
        Ok(table)
    }

    /// The inode of a number, if there is one.
    pub fn get(&self, inode: u64) -> Option<&Inode>
        ensures { option_copied result ≡ map.get self.now inode }
    {
        self.inodes.get(&inode)
    }

    /// Gives a number an inode, and gives back the one that it had. It asks for memory where it had none; without it, it
    /// leaves the table as it was.
    pub fn insert(&mut self, inode: u64, content: Inode) -> Result<Option<Inode>, AllocError>
        ensures ok { OnOk result (self.new ≡ map.insert self.old inode content) }
        ensures replaced { IfOk result (λ had. had ≡ map.get self.old inode) }
        ensures err { OnErr result (self.new ≡ self.old) }
        ensures asked { OnErr result (map.get self.old inode ≡ None) }
    {
        Ok(self.inodes.insert(inode, content)?)
    }

    /// How many inodes there are.
    pub fn len(&self) -> usize
        ensures { result ≡ map.len self.now }
    {
        self.inodes.len()
    }

    /// Takes some inode out, and answers its number too. None, where there is no inode.
    pub fn pop(&mut self) -> Option<(u64, Inode)>
        ensures there { IfSome result (λ taken. map.get self.old taken.0 ≡ Some taken.1) }
        ensures others { IfSome result (λ taken. self.new ≡ map.remove self.old taken.0) }
        ensures empty { IfNone result (self.new ≡ map.empty) }
        ensures same { IfNone result (self.new ≡ self.old) }
    {
        self.inodes.pop()
    }

    /// Takes the inode of a number out, if it is there.
    pub fn remove(&mut self, inode: u64) -> Option<Inode>
        ensures removed { result ≡ map.get self.old inode }
        ensures others { self.new ≡ map.remove self.old inode }
    {
        self.inodes.swap_remove(&inode)
    }

    /// Makes an effect: a new file or directory stands in place of what its number had, a freed inode is gone, and each
    /// other effect changes the inode that it touches, where there is one of its kind. No other inode changes. It asks for
    /// memory where a number that has none gets an inode, a file gets bytes or an entry gets a new name; without it, it
    /// leaves the table as it was. What only takes away takes no memory, and neither does an effect for the other kind or
    /// on an inode that isn't there.
    pub fn apply(&mut self, effect: &Effect) -> Result<(), AllocError>
        ensures ok { OnOk result (self.new ≡ applied self.old effect.now) }
        ensures taken_away { TakesAway effect.now → IsOk result }
        ensures err { OnErr result (self.new ≡ self.old) }
        ensures asked { OnErr result (AsksForMemory effect.now
            (map.get self.old (touched_by effect.now))) }
    {
        match effect {
            Effect::NewFile { inode } => {
                self.insert(*inode, Inode::new_file(self.alloc))?;
            }
            Effect::NewDir { inode } => {
                self.insert(*inode, Inode::new_directory(self.alloc))?;
            }
            Effect::Free { inode } => {
                self.remove(*inode);
            }
            change => self.change(change)?,
        }
        Ok(())
    }

    /// Makes the effects of a call, all of them in their order or none, without a copy of what they change (see
    /// [`apply_all`]). Without memory it leaves the table as it was.
    pub fn apply_all(&mut self, effects: &[Effect]) -> Result<(), AllocError>
        requires whole { CanBeMadeWhole effects.now }
        ensures ok { OnOk result (self.new ≡ all_applied self.old effects.now) }
        ensures taken_away { OnlyTakeAway effects.now → IsOk result }
        ensures err { OnErr result (self.new ≡ self.old) }
    {
        apply_all(self, effects)
    }

    /// Changes the inode that an effect touches, where there is one.
    fn change(&mut self, effect: &Effect) -> Result<(), AllocError>
        ensures taken_away { TakesAway effect.now → IsOk result }
        ensures ok { let inode = touched_by effect.now in OnOk result
            (self.new ≡ with_value self.old inode
            (option_map (λ content. changed content effect.now) (map.get self.old inode))) }
        ensures err { OnErr result (self.new ≡ self.old) }
        ensures asked { OnErr result (AsksForMemory effect.now
            (map.get self.old (touched_by effect.now))) }
    {
        let Some(inode) = self.inodes.get_mut(&effect.touches()) else {
            return Ok(());
        };
        inode.change(effect)?;
        Ok(())
    }
}

impl Inodes for InodeTable {
    ghost contents = { λ table. table };

    fn get(&self, inode: u64) -> Option<&Inode> {
        InodeTable::get(self, inode)
    }
}

impl InodeStore for InodeTable {
    ghost setting = { λ _. 0 };

    fn allocator(&self) -> Global {
        self.alloc
    }

    fn insert(&mut self, inode: u64, content: Inode) -> Result<Option<Inode>, AllocError> {
        InodeTable::insert(self, inode, content)
    }

    fn remove(&mut self, inode: u64) -> Option<Inode> {
        InodeTable::remove(self, inode)
    }

    fn apply(&mut self, effect: &Effect) -> Result<(), AllocError> {
        InodeTable::apply(self, effect)
    }
}
