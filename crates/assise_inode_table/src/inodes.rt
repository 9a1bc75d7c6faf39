//! A map of inodes, however it is held.
ghost use Rattle.std.specs.Prelude.{◌≡◌, option_copied};
ghost use Rattle.std.specs.FinMap as map;
ghost use Rattle.assise_inode_table.specs.Contents.{InodeMap};

use crate::inode::Inode;

/// Inodes by their numbers, however they are held. A contract sees the finite map.
pub trait Inodes {
    ghost contents: { Self → InodeMap };

    /// The inode of a number, if there is one.
    fn get(&self, inode: u64) -> Option<&Inode>
        ensures { option_copied result ≡ map.get (contents self.now) inode };
}
