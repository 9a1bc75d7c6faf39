//! Moves of what stands at a path to another.
ghost use Rattle.std.specs.Prelude.{◌≡◌, IfOk, IsErr, IsOk, OnErr};
ghost use Rattle.assise_names.specs.declared.reply.Reply.TheVariants.{Error};
ghost use Rattle.assise_names.specs.declared.reply.TreeError.{TreeError};
ghost use Rattle.assise_seq_tree.specs.Answer.{may_receive, may_rename, rename_answer};
ghost use Rattle.assise_seq_tree.specs.Tree.{at, find};
ghost use Rattle.assise_seq_tree.specs.View.{map_entries};

use crate::answer::{MOST_ENTRIES, entries_at};
use crate::tree::Tree;
use assise_names::name::Name;
use assise_names::path::Path;
use assise_names::reply::{Reply, TreeError};
use std::alloc::{AllocError, Global};
use std::collections::BTreeMap;

/// Moves what stands at a path to another.
pub(crate) fn rename(
    alloc: Global,
    tree: &mut Tree,
    from: &Path,
    to: &Path,
) -> Result<Reply, AllocError>
    ensures ok { IfOk result (λ reply. (reply, tree.new) ≡ rename_answer tree.old from.now to.now) }
    ensures err { OnErr result (tree.new ≡ tree.old) }
    ensures errors { (error : TreeError) → (rename_answer tree.old from.now to.now).0 ≡
        Error error → IsOk result }
    ensures asked { OnErr result (IsErr (at tree.old to.now)) }
{
    if let Err(error) = may_rename(tree, from, to) {
        return Ok(Reply::Error(error));
    }
    if from != to {
        tree.move_entry(alloc, from.names(), to.names())?;
    }
    Ok(Reply::Done)
}

/// Whether what stands at a path may be moved to another.
fn may_rename(tree: &Tree, from: &Path, to: &Path) -> Result<(), TreeError>
    ensures { result ≡ may_rename tree.now from.now to.now }
{
    let ([from_parent @ .., _], [to_parent @ .., name]) = (from.names(), to.names()) else {
        return Err(TreeError::Invalid);
    };
    if from.is_front_of(to) {
        return Err(TreeError::Invalid);
    }
    let moved = tree.at(from.names())?;
    let entries = entries_at(tree, to_parent)?;
    if from == to {
        return Ok(());
    }
    may_receive(moved, from_parent == to_parent, entries, name)
}

/// Whether entries may take a tree under a name. Where it stays in its directory, it needs no room.
#[tactic(auto, using(crate::proofs::Entries::entry_facts))]
fn may_receive(
    moved: &Tree,
    stays: bool,
    entries: &BTreeMap<Name, Tree>,
    name: &Name,
) -> Result<(), TreeError>
    ensures { result ≡ may_receive moved.now stays (map_entries entries.now.entries)
        (find name.now (map_entries entries.now.entries)) }
{
    match entries.get(name) {
        Some(target) => target.may_be_replaced(moved),
        None => {
            if !stays && entries.len() >= MOST_ENTRIES {
                return Err(TreeError::DirFull);
            }
            Ok(())
        }
    }
}
