//! Client 1 makes a tree. No clause says which tree its calls leave: who asks for it compares.
ghost use Rattle.assise_machine.specs.Clusters.{machine};
ghost use Rattle.assise_renewal.specs.Led.{IsLedBy, IsOfFirst};

use crate::calls::make_call;
use crate::renewal_fault::RenewalFault;
use assise_lease_table::revoker::Revokes;
use assise_machine::cluster::ClusterOf;
use assise_names::byte_string::ByteString;
use assise_names::call::Op;
use assise_names::name::Name;
use assise_names::path::{Path, PathFault};
use assise_names::refusal::Refusal;
use assise_seq_tree::contents::copied;
use assise_seq_tree::traversal::Traversal;
use assise_seq_tree::tree::Tree;
use std::alloc::Global;
use std::collections::BTreeMap;

/// The client that makes the tree.
const FIRST: u32 = 1;

/// The most bytes of a write.
const MOST_WRITTEN: usize = 65_536;

/// Client 1 makes what a tree has, each directory before its entries, and waits until all of it is replicated.
pub(crate) fn fill<C: Revokes + Drop>(
    alloc: Global,
    cluster: &mut ClusterOf<C>,
    tree: &Tree,
    turns: u32,
) -> Result<(), RenewalFault>
    ensures { IsLedBy IsOfFirst (machine cluster.old) (machine cluster.new) }
{
    if let Ok(entries) = tree.entries() {
        fill_directory(alloc, cluster, entries, turns)?;
    }
    make(alloc, cluster, &Op::Dsync, turns)
}

/// Client 1 makes what a directory has, at every depth.
fn fill_directory<C: Revokes + Drop>(
    alloc: Global,
    cluster: &mut ClusterOf<C>,
    entries: &BTreeMap<Name, Tree>,
    turns: u32,
) -> Result<(), RenewalFault>
    ensures { IsLedBy IsOfFirst (machine cluster.old) (machine cluster.new) }
{
    let mut traversal = Traversal::new(alloc, entries);
    while let Some((name, tree)) = traversal.next() {
        let path = spelled(alloc, traversal.path(), name)?;
        make_one(alloc, cluster, path.as_str(), tree, turns)?;
        traversal.enter(name, tree)?;
    }
    Ok(())
}

/// How the path of an entry is spelled, of the directory at a path.
fn spelled(alloc: Global, path: &[&Name], name: &Name) -> Result<String, Refusal> {
    let mut text = String::new(alloc);
    for above in path {
        push(&mut text, above)?;
    }
    push(&mut text, name)?;
    Ok(text)
}

/// A slash, and then a name.
fn push(text: &mut String, name: &Name) -> Result<(), Refusal> {
    text.push_str("/")?;
    text.push_str(name.as_str())?;
    Ok(())
}

/// Client 1 makes a file with its bytes, or a directory.
fn make_one<C: Revokes + Drop>(
    alloc: Global,
    cluster: &mut ClusterOf<C>,
    path: &str,
    tree: &Tree,
    turns: u32,
) -> Result<(), RenewalFault>
    ensures { IsLedBy IsOfFirst (machine cluster.old) (machine cluster.new) }
{
    match tree.bytes() {
        Ok(bytes) => {
            let op = Op::Create(path_of(alloc, path)?);
            make(alloc, cluster, &op, turns)?;
            write_all(alloc, cluster, path, bytes, turns)
        }
        Err(_) => {
            let op = Op::Mkdir(path_of(alloc, path)?);
            make(alloc, cluster, &op, turns)
        }
    }
}

/// Client 1 writes a file's bytes, in pieces.
fn write_all<C: Revokes + Drop>(
    alloc: Global,
    cluster: &mut ClusterOf<C>,
    path: &str,
    bytes: &[u8],
    turns: u32,
) -> Result<(), RenewalFault>
    ensures { IsLedBy IsOfFirst (machine cluster.old) (machine cluster.new) }
{
    let mut offset: u64 = 0;
    for piece in bytes.chunks(MOST_WRITTEN) {
        let new = bytes_of(alloc, piece)?;
        let op = Op::Write(path_of(alloc, path)?, offset, new);
        make(alloc, cluster, &op, turns)?;
        offset = offset.saturating_add(piece.len() as u64);
    }
    Ok(())
}

/// These bytes, copied.
fn bytes_of(alloc: Global, piece: &[u8]) -> Result<ByteString, Refusal> {
    Ok(ByteString::from_vec(copied(alloc, piece)?)?)
}

/// The path that a text spells. What has more than 32 names is [`RenewalFault::TooDeep`].
fn path_of(alloc: Global, text: &str) -> Result<Path, RenewalFault> {
    match Path::parse(alloc, text) {
        Ok(path) => Ok(path),
        Err(PathFault::Memory) => Err(RenewalFault::Refused(Refusal::OutOfMemory)),
        Err(_) => Err(RenewalFault::TooDeep),
    }
}

/// Client 1 makes a call. Refused as [`make_call`].
fn make<C: Revokes + Drop>(
    alloc: Global,
    cluster: &mut ClusterOf<C>,
    op: &Op,
    turns: u32,
) -> Result<(), RenewalFault>
    ensures { IsLedBy IsOfFirst (machine cluster.old) (machine cluster.new) }
{
    make_call(alloc, cluster, FIRST, op, turns)?;
    Ok(())
}
