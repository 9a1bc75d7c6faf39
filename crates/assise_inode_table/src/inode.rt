//! What an inode holds.
ghost use Rattle.std.specs.Prelude.{◌≡◌, IfOk, IsOk, IsOkUnless, MatchResult, OnErr, OnOk, []};
ghost use Rattle.std.specs.FinMap as map;
ghost use Rattle.assise_names.specs.declared.refusal.Refusal.TheVariants.{OutOfMemory};
ghost use Rattle.assise_inode_table.specs.Calls.{as_links, as_regular, stat_reply};
ghost use Rattle.assise_inode_table.specs.Contents.{directory, regular};
ghost use Rattle.assise_inode_table.specs.Effects.{AddsContent, TakesAway, changed};
ghost use Rattle.assise_inode_table.specs.Reach.{link_of};

use crate::directory::Directory;
use crate::file_bytes::FileBytes;
use assise_names::name::Name;
use assise_names::refusal::Refusal;
use assise_names::reply::{Reply, TreeError};
use assise_record::effect::Effect;
use std::alloc::{AllocError, Global};
use std::marker::Model;

/// The two kinds of inodes.
#[derive(Debug)]
enum Kind {
    File(FileBytes),
    Directory(Directory),
}

// One call lets go of it, wherever it is owned.
impl Drop for Kind {
    fn drop(self) {
        match self {
            Kind::File(_) | Kind::Directory(_) => (),
        }
    }
}

/// An inode: the bytes of a file, or the links of a directory (POSIX.1-2017, base definitions, chapter 3: Regular
/// File and Directory). A contract sees which it is, with what it holds.
#[derive(Debug, Drop)]
pub struct Inode {
    kind: Kind,
}

impl Model for Inode {
    ghost use Rattle.assise_inode_table.specs.Contents.{Content, coded_content};

    ghost Value = { Content };

    ghost coded = { coded_content };

    ghost use Rattle.assise_inode_table.specs.Kind.{content_of};

    ghost view = { λ inode. content_of inode.kind };
}

impl Inode {
    /// A file without bytes. It takes no memory.
    pub fn new_file(alloc: Global) -> Inode
        ensures { result ≡ regular [] }
    {
        Inode {
            kind: Kind::File(FileBytes::new(alloc)),
        }
    }

    /// A directory without entries. It takes no memory.
    pub fn new_directory(alloc: Global) -> Inode
        ensures { result ≡ directory map.empty }
    {
        Inode {
            kind: Kind::Directory(Directory::new(alloc)),
        }
    }

    /// The bytes of a file. A directory is [`TreeError::IsDir`].
    pub fn file(&self) -> Result<&FileBytes, TreeError>
        ensures { MatchResult result (λ bytes. as_regular self.now ≡ Ok bytes.now)
            (λ e. as_regular self.now ≡ Err e) }
    {
        match &self.kind {
            Kind::File(bytes) => Ok(bytes),
            Kind::Directory(_) => Err(TreeError::IsDir),
        }
    }

    /// The links of a directory. A file is [`TreeError::NotDir`].
    pub fn directory(&self) -> Result<&Directory, TreeError>
        ensures { MatchResult result (λ links. as_links self.now ≡ Ok links.now)
            (λ e. as_links self.now ≡ Err e) }
    {
        match &self.kind {
            Kind::File(_) => Err(TreeError::NotDir),
            Kind::Directory(links) => Ok(links),
        }
    }

    /// The number of the inode that a name links to. A file is [`TreeError::NotDir`], and a directory without the
    /// name [`TreeError::NoEnt`].
    pub fn link(&self, name: &Name) -> Result<u64, TreeError>
        ensures { result ≡ link_of (Some self.now) name.now }
    {
        match &self.kind {
            Kind::File(_) => Err(TreeError::NotDir),
            Kind::Directory(links) => links.get(name).ok_or(TreeError::NoEnt),
        }
    }

    /// What a stat says of it: a file with its size in bytes, or a directory with its count of entries.
    pub fn describe(&self) -> Reply
        ensures { result ≡ stat_reply self.now }
    {
        match &self.kind {
            Kind::File(bytes) => Reply::File(bytes.len() as u64),
            Kind::Directory(links) => Reply::Dir(links.len() as u64),
        }
    }

    /// Makes of the inode what an effect makes of its content. An effect for the other kind leaves it, and so do those that
    /// make or free an inode. It asks for memory where a file gets bytes or an entry gets a new name; without it, it leaves
    /// the inode as it was. What only takes away takes no memory.
    pub fn change(&mut self, effect: &Effect) -> Result<(), AllocError>
        ensures taken_away { TakesAway effect.now → IsOk result }
        ensures ok { OnOk result (self.new ≡ changed self.old effect.now) }
        ensures err { OnErr result (self.new ≡ self.old) }
        ensures asked { OnErr result (AddsContent effect.now self.old) }
    {
        match &mut self.kind {
            Kind::File(bytes) => change_file(bytes, effect),
            Kind::Directory(links) => change_directory(links, effect),
        }
    }

    /// An equal value, or [`Refusal::OutOfMemory`].
    pub fn copy(&self, alloc: Global) -> Result<Inode, Refusal>
        ensures equal { IfOk result (λ copied. copied ≡ self.now) }
        ensures only_memory { IsOkUnless result OutOfMemory }
    {
        let kind = match &self.kind {
            Kind::File(bytes) => Kind::File(bytes.copy(alloc)?),
            Kind::Directory(links) => Kind::Directory(links.copy()?),
        };
        Ok(Inode { kind })
    }
}

/// Makes of a file what an effect makes of it.
fn change_file(bytes: &mut FileBytes, effect: &Effect) -> Result<(), AllocError>
    ensures taken_away { TakesAway effect.now → IsOk result }
    ensures ok { OnOk result (regular bytes.new ≡ changed (regular bytes.old) effect.now) }
    ensures err { OnErr result (bytes.new ≡ bytes.old) }
    ensures asked { OnErr result (AddsContent effect.now (regular bytes.old)) }
{
    match effect {
        Effect::Write { extent, .. } => bytes.write(extent.offset() as usize, extent.payload()),
        Effect::SetLen { size, .. } => bytes.resize(size.get() as usize),
        _ => Ok(()),
    }
}

/// Makes of a directory what an effect makes of it.
fn change_directory(links: &mut Directory, effect: &Effect) -> Result<(), AllocError>
    ensures taken_away { TakesAway effect.now → IsOk result }
    ensures ok { OnOk result (directory links.new ≡ changed (directory links.old) effect.now) }
    ensures err { OnErr result (links.new ≡ links.old) }
    ensures asked { OnErr result (AddsContent effect.now (directory links.old)) }
{
    match effect {
        Effect::Link { name, inode, .. } => links.link(name, *inode),
        Effect::Unlink { name, .. } => {
            links.remove(name);
            Ok(())
        }
        _ => Ok(()),
    }
}
