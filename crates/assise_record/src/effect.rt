//! What a call does to one inode.
ghost use Rattle.std.specs.Prelude.{◌≡◌, ◌==◌, ◌+◌, ◌<◌, ◌≤◌, IfOk, OnErr, length};
ghost use Rattle.std.proofs.Common.{rules};
ghost use Rattle.std.specs.Cmp.Rules.{comparing};
ghost use Rattle.std.specs.Cmp.Lexicographic.{pointwise};
ghost use Rattle.std.specs.Ordering.{eq_of_both, on};
ghost use Rattle.assise_record.specs.Coalesced.{covers, overrides};
ghost use Rattle.assise_record.specs.Copied.{HoldsNameOrBytes};
ghost use Rattle.assise_record.specs.Patch.{IsPatch};
ghost use Rattle.assise_record.specs.Touched.{touched_by};

use assise_names::name::Name;
use bytes::Bytes;
use std::alloc::AllocError;
use std::marker::Model;

/// The most bytes of one write.
pub const MOST_EXTENT_BYTES: usize = 65_536;

/// Bytes to be written at an offset of a file: 1 to 65,536 of them, ending by byte 1,048,576 of the file. They lie
/// in a block that copies share. A contract sees the offset and the list of bytes.
#[derive(Debug)]
pub struct Extent {
    offset: u32,
    bytes: Bytes,
}

// One call lets go of it, wherever it is owned.
impl Drop for Extent {
    fn drop(self) {
        let Extent {
            offset: _,
            bytes: _,
        } = self;
    }
}

impl Model for Extent {
    ghost use Rattle.assise_record.specs.Patch.{Patch, IsPatch};

    ghost Value = { Patch };

    ghost view = { λ e. record { offset = e.offset; bytes = e.bytes } };

    ghost invariant = { λ e. IsPatch (record { offset = e.offset; bytes = e.bytes }) };
}

impl Extent {
    /// The bytes at the offset, without a copy.
    pub fn new(offset: u32, bytes: Bytes) -> Extent
        requires some_bytes { 0 < length bytes }
        requires few_bytes { length bytes ≤ 65536 }
        requires ends_in_the_file { offset + length bytes ≤ 1048576 }
        ensures offset { result.offset ≡ offset }
        ensures bytes { result.bytes ≡ bytes }
    {
        Extent { offset, bytes }
    }

    /// How many bytes of the file stand before the first.
    pub fn offset(&self) -> u32
        ensures offset { result ≡ self.now.offset }
        ensures lawful { IsPatch self.now }
    {
        self.offset
    }

    /// The bytes.
    pub fn bytes(&self) -> &[u8]
        ensures bytes { result.now ≡ self.now.bytes }
        ensures lawful { IsPatch self.now }
    {
        self.bytes.as_slice()
    }

    /// The bytes, for who shares them.
    pub fn payload(&self) -> &Bytes
        ensures bytes { result.now ≡ self.now.bytes }
        ensures lawful { IsPatch self.now }
    {
        &self.bytes
    }

    /// Lets the bytes lie where those of an equal extent lie. Where these can't be shared they stay where they are.
    fn share_payload(&mut self, equal: &Extent)
        requires { self.old ≡ equal.now }
        ensures { self.new ≡ self.old }
    {
        if let Ok(bytes) = equal.bytes.clone() {
            self.bytes = bytes;
        }
    }

    /// Whether all bytes of the other are written by this one too.
    fn covers(&self, other: &Extent) -> bool
        ensures { result ≡ covers self.now other.now }
    {
        let end = self.offset as usize + self.bytes().len();
        self.offset <= other.offset && other.offset as usize + other.bytes().len() <= end
    }

    /// An equal value that shares the bytes.
    pub fn copy(&self) -> Result<Extent, AllocError>
        ensures equal { IfOk result (λ copied. copied ≡ self.now) }
    {
        let bytes = self.bytes.clone()?;
        Ok(Extent {
            offset: self.offset,
            bytes,
        })
    }
}

impl PartialEq for Extent {
    ghost eq = { eq_of_both (on (λ e. e.offset) ◌==◌) (on (λ e. e.bytes) (pointwise ◌==◌)) };

    ghost laws = { Prim.search (comparing, rules) };

    fn eq(&self, other: &Extent) -> bool {
        self.offset == other.offset && self.bytes() == other.bytes()
    }
}

impl Eq for Extent {
    ghost laws = { Prim.search (comparing, rules) };
}

/// The length of a file in bytes, at most 1,048,576. A contract sees the number.
#[derive(Clone, Copy, Debug, PartialEq, Eq)]
pub struct FileSize {
    length: u32,
}

impl Model for FileSize {
    ghost use Rattle.std.specs.Prelude.{ℕ, ◌≤◌};

    ghost Value = { ℕ };

    ghost view = { λ s. s.length };

    ghost invariant = { λ s. s.length ≤ 1048576 };

    ghost inverse = { λ length. record { length = length } };
}

impl FileSize {
    /// A length in bytes.
    pub fn new(length: u32) -> FileSize
        requires fits { length ≤ 1048576 }
        ensures { result ≡ length }
    {
        FileSize { length }
    }

    /// How many bytes.
    pub fn get(&self) -> u32
        ensures length { result ≡ self.now }
        ensures fits { self.now ≤ 1048576 }
    {
        self.length
    }
}

/// What a call does to one inode, which it names by its number.
#[derive(Debug, PartialEq, Eq)]
pub enum Effect {
    /// The inode is a file without bytes.
    NewFile {
        /// The new file.
        inode: u64,
    },
    /// The inode is a directory without entries.
    NewDir {
        /// The new directory.
        inode: u64,
    },
    /// Bytes are written into a file.
    Write {
        /// The file.
        inode: u64,
        /// The bytes, and where.
        extent: Extent,
    },
    /// A file is cut, or filled with zeros, to a length.
    SetLen {
        /// The file.
        inode: u64,
        /// The length.
        size: FileSize,
    },
    /// An entry of a directory is an inode.
    Link {
        /// The directory.
        directory: u64,
        /// The entry.
        name: Name,
        /// What it is.
        inode: u64,
    },
    /// An entry of a directory is gone.
    Unlink {
        /// The directory.
        directory: u64,
        /// The entry.
        name: Name,
    },
    /// The inode is gone.
    Free {
        /// The inode.
        inode: u64,
    },
}

// One call lets go of it, wherever it is owned.
impl Drop for Effect {
    fn drop(self) {
        match self {
            Effect::NewFile { inode: _ }
            | Effect::NewDir { inode: _ }
            | Effect::Write {
                inode: _,
                extent: _,
            }
            | Effect::SetLen { inode: _, size: _ }
            | Effect::Link {
                directory: _,
                name: _,
                inode: _,
            }
            | Effect::Unlink {
                directory: _,
                name: _,
            }
            | Effect::Free { inode: _ } => (),
        }
    }
}

impl Effect {
    /// The inode that is changed: of an entry it is the directory.
    pub fn touches(&self) -> u64
        ensures { result ≡ touched_by self.now }
    {
        match self {
            Effect::NewFile { inode } => *inode,
            Effect::NewDir { inode } => *inode,
            Effect::Write { inode, .. } => *inode,
            Effect::SetLen { inode, .. } => *inode,
            Effect::Link { directory, .. } => *directory,
            Effect::Unlink { directory, .. } => *directory,
            Effect::Free { inode } => *inode,
        }
    }

    /// Whether this effect, which comes later, makes an earlier one of no account. An inode that is new or gone does so for each
    /// effect on it, a write for writes of bytes among its own, and a link or an unlink for those of the same entry. A new
    /// length does so for none.
    #[tactic(auto, using(crate::proofs::Overrides::same_entry))]
    pub fn overrides(&self, earlier: &Effect) -> bool
        ensures { result ≡ overrides self.now earlier.now }
    {
        match (self, earlier) {
            (Effect::NewFile { inode } | Effect::NewDir { inode } | Effect::Free { inode }, _) => {
                earlier.touches() == *inode
            }
            (
                Effect::Write { inode, extent },
                Effect::Write {
                    inode: written,
                    extent: bytes,
                },
            ) => written == inode && extent.covers(bytes),
            (
                Effect::Link {
                    directory,
                    name,
                    ..
                }
                | Effect::Unlink { directory, name },
                Effect::Link {
                    directory: parent,
                    name: entry,
                    ..
                }
                | Effect::Unlink {
                    directory: parent,
                    name: entry,
                },
            ) => parent == directory && name == entry,
            _ => false,
        }
    }

    /// Lets the bytes of a write lie where those of an equal one lie.
    pub(crate) fn share_payload(&mut self, equal: &Effect)
        requires { self.old ≡ equal.now }
        ensures { self.new ≡ self.old }
    {
        if let (Effect::Write { extent, .. }, Effect::Write { extent: shared, .. }) = (
            self, equal,
        ) {
            extent.share_payload(shared);
        }
    }

    /// An equal value, which shares a name or the bytes of a write. It takes no memory, and fails only where these are
    /// shared.
    pub fn copy(&self) -> Result<Effect, AllocError>
        ensures equal { IfOk result (λ copied. copied ≡ self.now) }
        ensures only_name_or_bytes { OnErr result (HoldsNameOrBytes self.now) }
    {
        match self {
            Effect::NewFile { inode } => Ok(Effect::NewFile { inode: *inode }),
            Effect::NewDir { inode } => Ok(Effect::NewDir { inode: *inode }),
            Effect::Write { inode, extent } => {
                let extent = extent.copy()?;
                Ok(Effect::Write {
                    inode: *inode,
                    extent,
                })
            }
            Effect::SetLen { inode, size } => Ok(Effect::SetLen {
                inode: *inode,
                size: *size,
            }),
            Effect::Link {
                directory,
                name,
                inode,
            } => {
                let name = name.copy()?;
                Ok(Effect::Link {
                    directory: *directory,
                    name,
                    inode: *inode,
                })
            }
            Effect::Unlink { directory, name } => {
                let name = name.copy()?;
                Ok(Effect::Unlink {
                    directory: *directory,
                    name,
                })
            }
            Effect::Free { inode } => Ok(Effect::Free { inode: *inode }),
        }
    }
}
