//! Whether two trees are the same.
ghost use Rattle.std.specs.Prelude.{◌≡◌, ◌↔◌, ◌≤◌, ◌+◌, IfOk, IsTrue, OnOk};
ghost use Rattle.assise_seq_tree.specs.Sameness.{ArePairsSame, size_of_pairs};
ghost use Rattle.assise_seq_tree.specs.Tree.{size_of, sizes_of};
ghost use Rattle.assise_seq_tree.specs.View.{map_entries};

use crate::tree::Tree;
use assise_names::name::Name;
use std::alloc::{AllocError, Global};
use std::collections::BTreeMap;

/// Whether two trees have the same files with the same bytes, and the same directories, however deep they are.
pub fn is_same(alloc: Global, tree: &Tree, other: &Tree) -> Result<bool, AllocError>
    ensures same { IfOk result (λ same. IsTrue same ↔ (tree.now ≡ other.now)) }
{
    let mut pending = Vec::new(alloc);
    pending.push((tree, other))?;
    while let Some((first, second)) = pending.pop() {
        if !is_same_but(first, second, &mut pending)? {
            return Ok(false);
        }
    }
    Ok(true)
}

/// Whether two trees are the same, but for trees in them, which are pending then.
fn is_same_but<'a>(
    tree: &'a Tree,
    other: &'a Tree,
    pending: &mut Vec<(&'a Tree, &'a Tree)>,
) -> Result<bool, AllocError>
    ensures same { IfOk result (λ same. (IsTrue same × ArePairsSame pending.new.items) ↔
        ((tree.now ≡ other.now) × ArePairsSame pending.old.items)) }
    ensures smaller { OnOk result (size_of_pairs pending.new.items ≤
        size_of tree.now + size_of_pairs pending.old.items) }
{
    match (tree.entries(), other.entries()) {
        (Ok(entries), Ok(others)) => have_same_names(entries, others, pending),
        (Err(_), Err(_)) => match (tree.bytes(), other.bytes()) {
            (Ok(bytes), Ok(other_bytes)) => Ok(bytes == other_bytes),
            _ => Ok(false),
        },
        _ => Ok(false),
    }
}

/// Whether entries have the names of others, in their order. What each leads to is pending then, beside that of the other.
fn have_same_names<'a>(
    entries: &'a BTreeMap<Name, Tree>,
    others: &'a BTreeMap<Name, Tree>,
    pending: &mut Vec<(&'a Tree, &'a Tree)>,
) -> Result<bool, AllocError>
    ensures same { IfOk result (λ same. (IsTrue same × ArePairsSame pending.new.items) ↔
        ((entries.now.entries ≡ others.now.entries) × ArePairsSame pending.old.items)) }
    ensures size { OnOk result (size_of_pairs pending.new.items ≤
        sizes_of (map_entries entries.now.entries) + size_of_pairs pending.old.items) }
{
    let mut left = others.iter();
    for (name, tree) in entries {
        let Some((other_name, other)) = left.next() else {
            return Ok(false);
        };
        if *name != *other_name {
            return Ok(false);
        }
        pending.push((tree, other))?;
    }
    Ok(left.next().is_none())
}
