//! The bytes of a file.
ghost use Rattle.std.specs.Prelude.{◌≡◌, ◌+◌, ◌-◌, ◌^◌, ◌<◌, ◌≤◌, ◌==◌, IfOk, IsOk, OnErr, OnOk, [], length, take};
ghost use Rattle.assise_seq_tree.specs.Contents.{bytes_from, overwritten, resized};

use crate::shared_blocks::SharedBlocks;
use assise_names::byte_string::ByteString;
use bytes::Bytes;
use std::alloc::{AllocError, Global};
use std::marker::Model;

/// The bytes of a regular file. Offsets and lengths are counts of bytes. They are held in blocks of 4,096 bytes, and copies
/// of the file share the list of the blocks. A contract sees the list of the bytes, and nothing of how they are held.
#[derive(Debug, Drop)]
pub struct FileBytes {
    alloc: Global,
    blocks: SharedBlocks,
    size: usize,
}

impl Model for FileBytes {
    ghost use Rattle.std.specs.Prelude.{List, ℕ, ◌≤◌, length, take};

    ghost Value = { List ℕ };

    ghost view = { λ f. take f.size f.blocks };

    ghost invariant = { λ f. f.size ≤ length f.blocks };
}

impl FileBytes {
    /// A file without bytes. It takes no memory.
    pub fn new(alloc: Global) -> FileBytes
        ensures { result ≡ [] }
    {
        FileBytes {
            alloc,
            blocks: SharedBlocks::new(),
            size: 0,
        }
    }

    /// How many bytes the file has.
    pub fn len(&self) -> usize
        ensures { result ≡ length self.now }
    {
        self.size
    }

    /// Whether the file has no bytes.
    pub fn is_empty(&self) -> bool
        ensures { result ≡ (length self.now == 0) }
    {
        self.size == 0
    }

    /// The bytes from an offset on, up to a count: none at or past the end (POSIX.1-2017, read()). It asks for memory where
    /// there is a byte to read.
    #[tactic(auto, using(crate::proofs::BlockWrites::read_within))]
    pub fn read(&self, alloc: Global, offset: u64, most: u64) -> Result<ByteString, AllocError>
        ensures bytes { IfOk result (λ read. read ≡ bytes_from offset most self.now) }
        ensures asked { OnErr result ((0 < most) × (offset < length self.now)) }
    {
        let start = self.size.min(offset as usize);
        let end = start + (self.size - start).min(most as usize);
        if start == end {
            return Ok(ByteString::new());
        }
        let piece = self.blocks.piece(alloc, start, end)?;
        Ok(ByteString::from_bytes(alloc, piece)?)
    }

    /// Writes bytes at an offset, and zeros before them where the file was shorter (POSIX.1-2017, write() and lseek()). It
    /// asks for memory where there is a byte or a zero to write; without it, it leaves the file as it was. The blocks that
    /// the write doesn't reach stay those that they were, those that it covers share the new bytes, and copies keep theirs.
    pub fn write(&mut self, offset: usize, new: &Bytes) -> Result<(), AllocError>
        requires { offset + length new.now < 2 ^ 64 }
        ensures ok { OnOk result (self.new ≡ overwritten self.old offset new.now) }
        ensures err { OnErr result (self.new ≡ self.old) }
        ensures asked { OnErr result (0 < length new.now + (offset - length self.old)) }
    {
        let start = self.size.min(offset);
        let end = offset + new.len();
        if start == end {
            return Ok(());
        }
        self.blocks.overwrite(self.alloc, self.size, offset, new)?;
        self.size = self.size.max(end);
        Ok(())
    }

    /// Cuts the file to a size, or fills it up to the size with zeros (POSIX.1-2017, ftruncate()). It asks for memory where
    /// the file gets longer; without it, it leaves it as it was.
    pub fn resize(&mut self, size: usize) -> Result<(), AllocError>
        ensures ok { OnOk result (self.new ≡ resized self.old size) }
        ensures err { OnErr result (self.new ≡ self.old) }
        ensures asked { OnErr result (length self.old < size) }
    {
        if size <= self.size {
            self.blocks.cut(size);
            self.size = size;
            return Ok(());
        }
        self.write(size, &Bytes::new())
    }

    /// An equal value, which shares the list of the blocks. It asks for memory where there are bytes.
    pub fn copy(&self, alloc: Global) -> Result<FileBytes, AllocError>
        ensures equal { IfOk result (λ copied. copied ≡ self.now) }
        ensures asked { OnErr result (0 < length self.now) }
    {
        if self.size == 0 {
            return Ok(FileBytes::new(alloc));
        }
        let blocks = self.blocks.share()?;
        Ok(FileBytes {
            alloc,
            blocks,
            size: self.size,
        })
    }
}
