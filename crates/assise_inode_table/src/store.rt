//! A map of inodes that can be changed, however it is held.
ghost use Rattle.std.specs.Prelude.{◌≡◌, IfOk, IsOk, None, OnErr, OnOk, ℕ};
ghost use Rattle.std.specs.FinMap as map;
ghost use Rattle.assise_inode_table.specs.Effects.{AsksForMemory, TakesAway, applied};
ghost use Rattle.assise_record.specs.Touched.{touched_by};

use crate::inode::Inode;
use crate::inodes::Inodes;
use assise_record::effect::Effect;
use std::alloc::{AllocError, Global};

/// Inodes by their numbers that can be changed, however they are held. A contract sees the finite map, and a setting:
/// what no change of the inodes changes, as how many of them may be hot.
pub trait InodeStore: Inodes {
    ghost setting: { Self → ℕ };

    /// Where the inodes take their memory from.
    fn allocator(&self) -> Global;

    /// Gives a number an inode, and gives back the one that it had. It asks for memory where it had none; without it, it
    /// leaves all inodes as they were.
    fn insert(&mut self, inode: u64, content: Inode) -> Result<Option<Inode>, AllocError>
        ensures ok { OnOk result (Self.contents self.new ≡ map.insert
            (Self.contents self.old) inode content) }
        ensures replaced { IfOk result (λ had. had ≡ map.get (Self.contents self.old) inode) }
        ensures err { OnErr result (Self.contents self.new ≡ Self.contents self.old) }
        ensures asked { OnErr result (map.get (Self.contents self.old) inode ≡ None) }
        ensures setting { setting self.new ≡ setting self.old };

    /// Takes the inode of a number out, if it is there.
    fn remove(&mut self, inode: u64) -> Option<Inode>
        ensures removed { result ≡ map.get (Self.contents self.old) inode }
        ensures others { Self.contents self.new ≡ map.remove (Self.contents self.old) inode }
        ensures setting { setting self.new ≡ setting self.old };

    /// Makes an effect: a new file or directory stands in place of what its number had, a freed inode is gone, and each
    /// other effect changes the inode that it touches, where there is one of its kind. No other inode changes. It asks for
    /// memory where a number that has none gets an inode, a file gets bytes or an entry gets a new name; without it, it
    /// leaves all inodes as they were. What only takes away takes no memory, and neither does an effect for the other kind
    /// or on an inode that isn't there.
    fn apply(&mut self, effect: &Effect) -> Result<(), AllocError>
        ensures ok { OnOk result (Self.contents self.new ≡ applied
            (Self.contents self.old) effect.now) }
        ensures taken_away { TakesAway effect.now → IsOk result }
        ensures err { OnErr result (Self.contents self.new ≡ Self.contents self.old) }
        ensures asked { OnErr result (AsksForMemory effect.now
            (map.get (Self.contents self.old) (touched_by effect.now))) }
        ensures setting { setting self.new ≡ setting self.old };
}
