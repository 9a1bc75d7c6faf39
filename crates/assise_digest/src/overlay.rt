//! Inodes with what records make of them.
ghost use Rattle.std.specs.Prelude.{◌≡◌, IfOk};
ghost use Rattle.assise_inode_table.specs.Contents.{values};
ghost use Rattle.assise_inode_table.specs.Spelled.{SpellsFrom};
ghost use Rattle.assise_seq_tree.specs.Tree.{Tree as PlainTree};
ghost use Rattle.assise_digest.specs.Pending.{overlaid};

use crate::pending::Pending;
use crate::spelled::tree_of;
use assise_area::area::Area;
use assise_inode_table::inode::Inode;
use assise_inode_table::inodes::Inodes;
use assise_inode_table::table::ROOT;
use assise_seq_tree::tree::Tree;
use std::alloc::{AllocError, Global};
use std::marker::Model;

/// The inodes of a region after some records that aren't digested: what the records make of an inode stands in place of
/// what it is without them. A look-up costs one in what they make, and one in the area. A contract sees the finite map.
#[derive(Drop)]
pub struct Overlay<'a> {
    area: &'a Area,
    pending: &'a Pending,
}

impl<'a> Model for Overlay<'a> {
    ghost use Rattle.assise_inode_table.specs.Contents.{InodeMap, coded_inodes};
    ghost use Rattle.assise_digest.specs.Pending.{overlaid};

    ghost Value = { InodeMap };

    ghost coded = { coded_inodes };

    ghost view = { λ o. overlaid o.area.now.inodes o.pending.now };
}

impl<'a> Overlay<'a> {
    /// What is kept over an area.
    pub(crate) fn new(area: &'a Area, pending: &'a Pending) -> Overlay<'a>
        ensures { result ≡ overlaid area.now.inodes pending.now }
    {
        Overlay { area, pending }
    }

    /// The tree that the inodes spell from the root on. Each byte of a file is copied once.
    pub(crate) fn tree(&self, alloc: Global) -> Result<Tree, AllocError>
        ghost t: { PlainTree }
        requires spelled { SpellsFrom (values self.now) 0 t }
        ensures tree { IfOk result (λ tree. tree ≡ t) }
    {
        tree_of(alloc, self, ROOT)
    }
}

impl Inodes for Overlay<'_> {
    ghost contents = { λ overlay. overlay };

    fn get(&self, inode: u64) -> Option<&Inode> {
        if self.pending.has(inode) {
            return self.pending.inodes.get(inode);
        }
        self.area.peek(inode)
    }
}
