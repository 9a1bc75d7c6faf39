//! What each call answers.
ghost use Rattle.std.specs.Prelude.{◌≡◌, ◌+◌, ◌<◌, IfOk, IsOk, IsOkUnless, MatchResult, OnErr, length};
ghost use Rattle.assise_names.specs.Reply.{HoldsWhatWasRead};
ghost use Rattle.assise_names.specs.declared.refusal.Refusal.TheVariants.{OutOfMemory};
ghost use Rattle.assise_names.specs.declared.reply.Reply.TheVariants.{Error};
ghost use Rattle.assise_names.specs.declared.reply.TreeError.{TreeError};
ghost use Rattle.assise_seq_tree.specs.Answer.{answer, create_answer, entries_at, file_at, list_answer, may_rmdir, may_unlink, mkdir_answer, read_answer, rmdir_answer, room_at, room_for, stat_answer, truncate_answer, unlink_answer, vacant, write_answer};
ghost use Rattle.assise_seq_tree.specs.Memory.{CallAsksForMemory, size_at};
ghost use Rattle.assise_seq_tree.specs.View.{map_entries};

use crate::contents::{bytes_from, copied, is_within};
use crate::renaming::rename;
use crate::tree::Tree;
use assise_names::byte_string::ByteString;
use assise_names::call::Op;
use assise_names::limits::MOST_FILE_BYTES;
use assise_names::name::Name;
use assise_names::name_list::NameList;
use assise_names::refusal::Refusal;
use assise_names::reply::{Reply, TreeError};
use std::alloc::{AllocError, Global};
use std::collections::BTreeMap;

/// The most entries of a directory.
pub const MOST_ENTRIES: usize = 4096;

/// Answers a call, and changes the tree as the call says.
///
/// A path is walked from the root, name by name. Before each name a file is [`TreeError::NotDir`], and a
/// directory without the name [`TreeError::NoEnt`]. The checks of each call are made in this order, and none
/// after the first that fails; an error leaves the tree as it was.
///
/// - [`Op::Create`]: the root is [`TreeError::Exists`]; the walk to the parent, which has to be a directory
///   ([`TreeError::NotDir`]); a name that is there is [`TreeError::Exists`]; a parent of 4,096 entries is
///   [`TreeError::DirFull`].
/// - [`Op::Mkdir`]: as [`Op::Create`].
/// - [`Op::Read`]: the walk; a directory is [`TreeError::IsDir`]. At or past the end there are no bytes.
/// - [`Op::Write`]: the walk; a directory is [`TreeError::IsDir`]; where the offset plus the count of the bytes is over
///   1,048,576, without bytes too, it is [`TreeError::TooBig`]. A gap before the bytes is filled with zeros. Without
///   bytes nothing is written.
/// - [`Op::Truncate`]: the walk; a directory is [`TreeError::IsDir`]; a size over 1,048,576 is
///   [`TreeError::TooBig`]. A file that grows is filled with zeros.
/// - [`Op::Rename`]: the root, as either path, is [`TreeError::Invalid`], and so is a move of a path to one below it,
///   whatever stands there; the walk of the path; the walk to the other's parent, which has to be a directory
///   ([`TreeError::NotDir`]). Where both paths are the same, it is done. What stands at the other path is replaced: a
///   directory in the way of a file is [`TreeError::IsDir`], a file in the way of a directory [`TreeError::NotDir`], a
///   directory with entries in the way of another [`TreeError::NotEmpty`]. Where nothing stands there, another directory
///   of 4,096 entries is [`TreeError::DirFull`].
/// - [`Op::Unlink`]: the root is [`TreeError::IsDir`]; the walk; a directory is [`TreeError::IsDir`].
/// - [`Op::Rmdir`]: the root is [`TreeError::Invalid`]; the walk; a file is [`TreeError::NotDir`]; a directory with
///   entries is [`TreeError::NotEmpty`].
/// - [`Op::List`]: the walk; a file is [`TreeError::NotDir`]. The names ascend by their bytes.
/// - [`Op::Stat`]: the walk.
/// - [`Op::Fsync`], [`Op::Dsync`]: no check.
///
/// The one refusal is [`Refusal::OutOfMemory`], and it leaves the tree as it was. An error is answered without memory.
/// Of the calls that are done, those alone ask for memory that make an entry where there was none, make a file longer,
/// or read names or at least a byte.
pub fn answer(alloc: Global, tree: &mut Tree, op: &Op) -> Result<Reply, Refusal>
    ensures ok { IfOk result (λ reply. (reply, tree.new) ≡ answer tree.old op.now) }
    ensures reads_change_nothing { IfOk result
        (λ reply. HoldsWhatWasRead reply → tree.new ≡ tree.old) }
    ensures err { OnErr result (tree.new ≡ tree.old) }
    ensures errors { (error : TreeError) → (answer tree.old op.now).0 ≡ Error error → IsOk result }
    ensures asked { OnErr result (CallAsksForMemory tree.old op.now) }
    ensures only_memory { IsOkUnless result OutOfMemory }
{
    match op {
        Op::Create(path) => Ok(create(alloc, tree, path.names())?),
        Op::Mkdir(path) => Ok(mkdir(alloc, tree, path.names())?),
        Op::Read(path, offset, length) => { Ok(read(alloc, tree, path.names(), *offset, *length)?) }
        Op::Write(path, offset, bytes) => Ok(write(
            alloc,
            tree,
            path.names(),
            *offset,
            bytes.as_slice(),
        )?),
        Op::Truncate(path, size) => Ok(truncate(alloc, tree, path.names(), *size)?),
        Op::Rename(from, to) => Ok(rename(alloc, tree, from, to)?),
        Op::Unlink(path) => Ok(unlink(tree, path.names())),
        Op::Rmdir(path) => Ok(rmdir(tree, path.names())),
        Op::List(path) => Ok(list(alloc, tree, path.names())?),
        Op::Stat(path) => Ok(stat(tree, path.names())),
        Op::Fsync => Ok(Reply::Done),
        Op::Dsync => Ok(Reply::Done),
    }
}

/// Makes a file without bytes.
fn create(alloc: Global, tree: &mut Tree, names: &[Name]) -> Result<Reply, AllocError>
    ensures ok { IfOk result (λ reply. (reply, tree.new) ≡ create_answer tree.old names.now) }
    ensures err { OnErr result (tree.new ≡ tree.old) }
    ensures errors { (error : TreeError) → (create_answer tree.old names.now).0 ≡ Error error →
        IsOk result }
{
    if let Err(error) = room_at(tree, names) {
        return Ok(Reply::Error(error));
    }
    tree.put(alloc, names, Tree::empty_file(alloc))?;
    Ok(Reply::Done)
}

/// Makes a directory without entries.
fn mkdir(alloc: Global, tree: &mut Tree, names: &[Name]) -> Result<Reply, AllocError>
    ensures ok { IfOk result (λ reply. (reply, tree.new) ≡ mkdir_answer tree.old names.now) }
    ensures err { OnErr result (tree.new ≡ tree.old) }
    ensures errors { (error : TreeError) → (mkdir_answer tree.old names.now).0 ≡ Error error →
        IsOk result }
{
    if let Err(error) = room_at(tree, names) {
        return Ok(Reply::Error(error));
    }
    tree.put(alloc, names, Tree::new(alloc))?;
    Ok(Reply::Done)
}

/// Reads from an offset on, up to a count of bytes.
fn read(
    alloc: Global,
    tree: &Tree,
    names: &[Name],
    offset: u64,
    length: u64,
) -> Result<Reply, AllocError>
    ensures ok { IfOk result (λ reply. (reply, tree.now) ≡
        read_answer tree.now names.now offset length) }
    ensures errors { (error : TreeError) → (read_answer tree.now names.now offset length).0 ≡
        Error error → IsOk result }
    ensures asked { OnErr result ((0 < length) × (offset < size_at tree.now names.now)) }
{
    match file_at(tree, names) {
        Ok(bytes) => {
            let read = copied(alloc, bytes_from(bytes, offset, length))?;
            Ok(Reply::Bytes(ByteString::from_vec(read)?))
        }
        Err(error) => Ok(Reply::Error(error)),
    }
}

/// Writes bytes at an offset.
fn write(
    alloc: Global,
    tree: &mut Tree,
    names: &[Name],
    offset: u64,
    new: &[u8],
) -> Result<Reply, AllocError>
    ensures ok { IfOk result (λ reply. (reply, tree.new) ≡
        write_answer tree.old names.now offset new.now) }
    ensures err { OnErr result (tree.new ≡ tree.old) }
    ensures errors { (error : TreeError) → (write_answer tree.old names.now offset new.now).0 ≡
        Error error → IsOk result }
    ensures asked { OnErr result ((0 < length new.now) ×
        (size_at tree.old names.now < offset + length new.now)) }
{
    if let Err(error) = file_at(tree, names) {
        return Ok(Reply::Error(error));
    }
    if !is_within(offset, new) {
        return Ok(Reply::Error(TreeError::TooBig));
    }
    if new.is_empty() {
        return Ok(Reply::Done);
    }
    tree.overwrite_at(alloc, names, offset as usize, new)?;
    Ok(Reply::Done)
}

/// Gives a file another size.
fn truncate(alloc: Global, tree: &mut Tree, names: &[Name], size: u64) -> Result<Reply, AllocError>
    ensures ok { IfOk result (λ reply. (reply, tree.new) ≡
        truncate_answer tree.old names.now size) }
    ensures err { OnErr result (tree.new ≡ tree.old) }
    ensures errors { (error : TreeError) → (truncate_answer tree.old names.now size).0 ≡
        Error error → IsOk result }
    ensures asked { OnErr result (size_at tree.old names.now < size) }
{
    if let Err(error) = file_at(tree, names) {
        return Ok(Reply::Error(error));
    }
    if size > MOST_FILE_BYTES {
        return Ok(Reply::Error(TreeError::TooBig));
    }
    tree.resize_at(alloc, names, size as usize)?;
    Ok(Reply::Done)
}

/// Removes a file.
fn unlink(tree: &mut Tree, names: &[Name]) -> Reply
    ensures { (result, tree.new) ≡ unlink_answer tree.old names.now }
{
    match may_unlink(tree, names) {
        Ok(()) => {
            let _file = tree.take(names);
            Reply::Done
        }
        Err(error) => Reply::Error(error),
    }
}

/// Removes a directory without entries.
fn rmdir(tree: &mut Tree, names: &[Name]) -> Reply
    ensures { (result, tree.new) ≡ rmdir_answer tree.old names.now }
{
    match may_rmdir(tree, names) {
        Ok(()) => {
            let _directory = tree.take(names);
            Reply::Done
        }
        Err(error) => Reply::Error(error),
    }
}

/// Lists the names of a directory's entries.
fn list(alloc: Global, tree: &Tree, names: &[Name]) -> Result<Reply, AllocError>
    ensures ok { IfOk result (λ reply. (reply, tree.now) ≡ list_answer tree.now names.now) }
    ensures errors { (error : TreeError) → (list_answer tree.now names.now).0 ≡ Error error →
        IsOk result }
{
    match entries_at(tree, names) {
        Ok(entries) => Ok(Reply::Names(NameList::of_keys(alloc, entries)?)),
        Err(error) => Ok(Reply::Error(error)),
    }
}

/// Says what stands at a path.
fn stat(tree: &Tree, names: &[Name]) -> Reply
    ensures { (result, tree.now) ≡ stat_answer tree.now names.now }
{
    match tree.at(names) {
        Ok(found) => found.describe(),
        Err(error) => Reply::Error(error),
    }
}

/// The bytes of the file at a path.
fn file_at<'a>(tree: &'a Tree, names: &[Name]) -> Result<&'a [u8], TreeError>
    ensures { MatchResult result (λ bytes. file_at tree.now names.now ≡ Ok bytes.now)
        (λ e. file_at tree.now names.now ≡ Err e) }
{
    tree.at(names)?.bytes()
}

/// The entries of the directory at a path.
pub(crate) fn entries_at<'a>(
    tree: &'a Tree,
    names: &[Name],
) -> Result<&'a BTreeMap<Name, Tree>, TreeError>
    ensures { MatchResult result (λ m. entries_at tree.now names.now ≡ Ok
        (map_entries m.now.entries)) (λ e. entries_at tree.now names.now ≡ Err e) }
{
    tree.at(names)?.entries()
}

/// Whether the file at a path may be unlinked.
fn may_unlink(tree: &Tree, names: &[Name]) -> Result<(), TreeError>
    ensures { result ≡ may_unlink tree.now names.now }
{
    if names.is_empty() {
        return Err(TreeError::IsDir);
    }
    file_at(tree, names)?;
    Ok(())
}

/// Whether the directory at a path may be removed.
fn may_rmdir(tree: &Tree, names: &[Name]) -> Result<(), TreeError>
    ensures { result ≡ may_rmdir tree.now names.now }
{
    if names.is_empty() {
        return Err(TreeError::Invalid);
    }
    vacant(entries_at(tree, names)?)
}

/// Whether there are no entries.
#[tactic(auto, using(crate::proofs::Entries::entry_facts))]
pub(crate) fn vacant(entries: &BTreeMap<Name, Tree>) -> Result<(), TreeError>
    ensures { result ≡ vacant (map_entries entries.now.entries) }
{
    if entries.is_empty() {
        Ok(())
    } else {
        Err(TreeError::NotEmpty)
    }
}

/// Whether an entry may be made at a path.
fn room_at(tree: &Tree, names: &[Name]) -> Result<(), TreeError>
    ensures { result ≡ room_at tree.now names.now }
{
    match names {
        [] => Err(TreeError::Exists),
        [parent @ .., name] => room_for(tree.at(parent)?.entries()?, name),
    }
}

/// Whether a new entry of this name may join the entries of a directory.
#[tactic(auto, using(crate::proofs::Entries::entry_facts))]
fn room_for(entries: &BTreeMap<Name, Tree>, name: &Name) -> Result<(), TreeError>
    ensures { result ≡ room_for name.now (map_entries entries.now.entries) }
{
    if entries.contains_key(name) {
        return Err(TreeError::Exists);
    }
    if entries.len() >= MOST_ENTRIES {
        return Err(TreeError::DirFull);
    }
    Ok(())
}
