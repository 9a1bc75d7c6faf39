//! The lines of a tree: each entry by its full path.
ghost use Rattle.std.specs.Prelude.{◌≡◌, ◌∷◌, ◌++◌, [], IfOk, List, Some, codes, map};
ghost use Rattle.std.specs.Fmt.{WritesOnOk, decimal};
ghost use Rattle.std.specs.List.{flat_map};
ghost use Rattle.assise_names.specs.Path.{path_spelling};
ghost use Rattle.assise_seq_tree.specs.Lines.{counted, place_line, places_of, tree_text};
ghost use Rattle.assise_seq_tree.specs.View.{map_entries};

use crate::traversal::Traversal;
use crate::tree::Tree;
use assise_names::name::Name;
use assise_names::refusal::Refusal;
use assise_names::reply::Reply;
use std::alloc::Global;
use std::collections::BTreeMap;
use std::fmt;
use std::fmt::{Display, Formatter};

/// The count of the entries at every depth, and then each in a line of its own: those of a directory by ascending names, and
/// a directory before what it holds. The root has no line. The last line has no end. Where there is no memory for the way down, it is
/// [`fmt::Error`].
impl Display for Tree {
    ghost output = { λ tree. Some (tree_text tree) };

    fn fmt<W: fmt::Write>(&self, f: &mut Formatter<W>) -> fmt::Result {
        match self.entries() {
            Ok(entries) => write_directory(self.alloc, entries, f),
            Err(_) => write!(f, "tree {}", 0),
        }
    }
}

/// The count of what a directory has at every depth, and a line for each.
fn write_directory<W: fmt::Write>(
    alloc: Global,
    entries: &BTreeMap<Name, Tree>,
    f: &mut Formatter<W>,
) -> fmt::Result
    ensures { WritesOnOk W.write_str_gives f.old result
        (codes "tree " ++ decimal (counted (places_of [] (map_entries entries.now.entries))) ++
        flat_map place_line (places_of [] (map_entries entries.now.entries))) f.new }
{
    let count = count_entries(alloc, entries).map_err(|_| fmt::Error)?;
    write!(f, "tree {count}")?;
    write_lines(alloc, entries, f)
}

/// How many entries a directory has at every depth. Of more than 2^64 - 1 it is this many. The one refusal is
/// [`Refusal::OutOfMemory`].
fn count_entries(alloc: Global, entries: &BTreeMap<Name, Tree>) -> Result<u64, Refusal>
    ensures { IfOk result (λ count.
        count ≡ counted (places_of [] (map_entries entries.now.entries))) }
{
    let mut traversal = Traversal::new(alloc, entries);
    let mut count: u64 = 0;
    while let Some((name, tree)) = traversal.next() {
        count = count.saturating_add(1);
        traversal.enter(name, tree)?;
    }
    Ok(count)
}

/// A line for each entry of a directory, at every depth.
fn write_lines<W: fmt::Write>(
    alloc: Global,
    entries: &BTreeMap<Name, Tree>,
    f: &mut Formatter<W>,
) -> fmt::Result
    ensures { WritesOnOk W.write_str_gives f.old result
        (flat_map place_line (places_of [] (map_entries entries.now.entries))) f.new }
{
    let mut traversal = Traversal::new(alloc, entries);
    while let Some((name, tree)) = traversal.next() {
        write_line(traversal.path(), name, tree, f)?;
        traversal.enter(name, tree).map_err(|_| fmt::Error)?;
    }
    Ok(())
}

/// The line of an entry of the directory at a path.
fn write_line<W: fmt::Write>(
    path: &[&Name],
    name: &Name,
    tree: &Tree,
    f: &mut Formatter<W>,
) -> fmt::Result
    ensures { WritesOnOk W.write_str_gives f.old result
        (place_line (map (λ n. n.now) path.now ++ name.now ∷ [], tree.now)) f.new }
{
    f.write_str("\n")?;
    write_place(path, name, f)?;
    match tree.describe() {
        Reply::File(size) => write!(f, " file {size}"),
        _ => write!(f, " dir"),
    }
}

/// The path of an entry of the directory at a path.
fn write_place<W: fmt::Write>(path: &[&Name], name: &Name, f: &mut Formatter<W>) -> fmt::Result
    ensures { WritesOnOk W.write_str_gives f.old result
        (path_spelling (map (λ n. n.now) path.now ++ name.now ∷ [])) f.new }
{
    write_path(path, f)?;
    write!(f, "/{name}")
}

/// A slash before each name of a path.
fn write_path<W: fmt::Write>(path: &[&Name], f: &mut Formatter<W>) -> fmt::Result
    ensures { WritesOnOk W.write_str_gives f.old result
        (flat_map (λ name. 47 ∷ name.now) path.now) f.new }
{
    for name in path {
        write!(f, "/{name}")?;
    }
    Ok(())
}
