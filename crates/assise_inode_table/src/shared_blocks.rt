//! Bytes in blocks that several files may share.
ghost use Rattle.std.specs.Prelude.{◌≡◌, ◌+◌, ◌-◌, ◌^◌, ◌<◌, ◌≤◌, IfOk, OnErr, OnOk, [], length, take};
ghost use Rattle.std.specs.Arc.{arc_value};
ghost use Rattle.std.specs.List.{concat};
ghost use Rattle.assise_seq_tree.specs.Contents.{bytes_from, overwritten};
ghost use Rattle.assise_inode_table.specs.Blocks.{IsCut};

use crate::blocks;
use crate::blocks::BLOCK;
use bytes::Bytes;
use std::alloc::{AllocError, Global};
use std::marker::Model;
use std::sync::Arc;

/// Bytes in blocks of 4,096. Copies share the list of the blocks, and a copy that writes makes a list of its own first,
/// which shares each block. A contract sees the list of the bytes.
#[derive(Debug)]
pub struct SharedBlocks {
    list: Option<Arc<Vec<Bytes>>>,
}

// One call lets go of it, wherever it is owned.
impl Drop for SharedBlocks {
    fn drop(self) {
        let SharedBlocks { list: _ } = self;
    }
}

impl Model for SharedBlocks {
    ghost use Rattle.std.specs.Prelude.{List, ℕ};
    ghost use Rattle.std.specs.List.{concat};
    ghost use Rattle.assise_inode_table.specs.Blocks.{IsCut, blocks_in};

    ghost Value = { List ℕ };

    ghost view = { λ b. concat (blocks_in b.list) };

    ghost invariant = { λ b. IsCut (blocks_in b.list) };
}

impl SharedBlocks {
    /// No bytes. It takes no memory.
    #[tactic(auto, using(crate::proofs::BlockBytes::cut_none))]
    pub fn new() -> SharedBlocks
        ensures { result ≡ [] }
    {
        SharedBlocks { list: None }
    }

    /// Another owner of the same blocks. It takes no memory: the one error is that the count of the owners is full.
    pub fn share(&self) -> Result<SharedBlocks, AllocError>
        ensures { IfOk result (λ shared. shared ≡ self.now) }
    {
        match &self.list {
            Some(list) => Ok(SharedBlocks {
                list: Some(Arc::try_clone(list)?),
            }),
            None => Ok(SharedBlocks::new()),
        }
    }

    /// The blocks that the bytes lie in.
    fn blocks(&self) -> &[Bytes]
        ensures cut { IsCut result.now }
        ensures bytes { concat result.now ≡ self.now }
    {
        match &self.list {
            Some(list) => list.as_slice(),
            None => &[],
        }
    }

    /// The bytes from a start to an end, in one piece: shared with the block where one has them all.
    #[tactic(auto, using(crate::proofs::BlockWrites::end_held, crate::proofs::BlockWrites::part_of))]
    pub fn piece(&self, alloc: Global, start: usize, end: usize) -> Result<Bytes, AllocError>
        requires some { start < end }
        requires within { end ≤ length self.now }
        ensures { IfOk result (λ piece. piece ≡ bytes_from start (end - start) self.now) }
    {
        let first = start / BLOCK;
        let until = (end - 1) / BLOCK + 1;
        let reached = &self.blocks()[first..until];
        blocks::piece(alloc, reached, start - first * BLOCK, end - start)
    }

    /// Gives up what lies behind a size, where it can: all of it where the size is 0 or the list has no other owner. It
    /// takes no memory.
    pub fn cut(&mut self, size: usize)
        requires { size ≤ length self.old }
        ensures { take size self.new ≡ take size self.old }
    {
        if size == 0 {
            *self = SharedBlocks::new();
        } else if let Some(list) = &mut self.list
            && let Some(blocks) = Arc::get_mut(list)
        {
            blocks::shorten(blocks, size);
        }
    }

    /// Cuts the bytes to a size and writes new ones at an offset, and zeros before those where there was nothing. Where
    /// there is no memory the bytes up to the size stay, and others may go.
    pub fn overwrite(
        &mut self,
        alloc: Global,
        size: usize,
        offset: usize,
        new: &Bytes,
    ) -> Result<(), AllocError>
        requires within { size ≤ length self.old }
        requires some { 0 < length new.now + (offset - size) }
        requires fits { offset + length new.now < 2 ^ 64 }
        ensures ok { OnOk result (self.new ≡ overwritten (take size self.old) offset new.now) }
        ensures err { OnErr result (take size self.new ≡ take size self.old) }
    {
        match &mut self.list {
            Some(list) => overwrite(alloc, list, size, offset, new),
            None => {
                let made = blocks::overwritten(alloc, &[], offset, new)?;
                self.list = Some(Arc::new(alloc, made)?);
                Ok(())
            }
        }
    }
}

/// Cuts the blocks to a size and writes bytes at an offset, into a list of its own: where it has other owners it is copied
/// first.
fn overwrite(
    alloc: Global,
    list: &mut Arc<Vec<Bytes>>,
    size: usize,
    offset: usize,
    new: &Bytes,
) -> Result<(), AllocError>
    requires cut { IsCut (arc_value list.old).items }
    requires within { size ≤ length (concat (arc_value list.old).items) }
    requires some { 0 < length new.now + (offset - size) }
    requires fits { offset + length new.now < 2 ^ 64 }
    ensures cut { IsCut (arc_value list.new).items }
    ensures ok { OnOk result (concat (arc_value list.new).items ≡ overwritten
        (take size (concat (arc_value list.old).items)) offset new.now) }
    ensures err { OnErr result (take size (concat (arc_value list.new).items) ≡ take size
        (concat (arc_value list.old).items)) }
{
    let own = Arc::make_mut(list)?;
    blocks::shorten(own, size);
    blocks::overwrite(alloc, own, size, offset, new)
}
