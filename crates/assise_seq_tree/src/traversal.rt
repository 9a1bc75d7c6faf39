//! A traversal of a tree in preorder: each entry before what it holds.
ghost use Rattle.std.specs.Prelude.{◌≡◌, ◌∷◌, ◌++◌, [], IfOk, MatchOption, OnErr, OnOk, map};
ghost use Rattle.assise_seq_tree.specs.Lines.{places_below, places_of};
ghost use Rattle.assise_seq_tree.specs.View.{map_entries};
ghost use Rattle.assise_seq_tree.specs.Traversals.{Traversed};

use crate::tree::Tree;
use assise_names::name::Name;
use std::alloc::{AllocError, Global};
use std::collections::BTreeMap;
use std::collections::btree_map::Iter;
use std::marker::Model;
use std::mem;

/// A traversal of a directory in preorder, however deep that is: each entry before what it holds, by ascending names in each directory. A
/// contract sees the path of the directory whose entries come next, and all places that are left.
#[derive(Drop)]
pub struct Traversal<'a> {
    names: Vec<&'a Name>,
    // What is left of the directory that it is in, and of each above that, the outermost first.
    entries: Iter<'a, Name, Tree>,
    above: Vec<Iter<'a, Name, Tree>>,
}

impl<'a> Model for Traversal<'a> {
    ghost use Rattle.std.specs.Prelude.{[], ◌≡◌, ◌∷◌, ◌++◌, length, map};
    ghost use Rattle.assise_seq_tree.specs.Traversals.{Traversed, places_left};

    ghost Value = { Traversed };

    ghost use Rattle.std.specs.Coded.{codes};
    ghost use Rattle.assise_seq_tree.specs.Code.{coded_tree};

    ghost coded = { Prim.hlevel (codes, coded_tree) };

    ghost view = { λ traversal. record {
      path = map (λ name. name.now) traversal.names.items;
      left = places_left [] (map (λ name. name.now) traversal.names.items)
          (traversal.above.items ++ traversal.entries ∷ []);
    } };

    ghost invariant = { λ traversal. length traversal.above.items ≡ length traversal.names.items };
}

impl<'a> Traversal<'a> {
    /// At the begin of a directory with these entries.
    pub fn new(alloc: Global, entries: &'a BTreeMap<Name, Tree>) -> Traversal<'a>
        ensures path { result.path ≡ [] }
        ensures left { result.left ≡ places_of [] (map_entries entries.now.entries) }
    {
        Traversal {
            names: Vec::new(alloc),
            entries: entries.iter(),
            above: Vec::new(alloc),
        }
    }

    /// The names of the path of the directory whose entries come next.
    pub fn path(&self) -> &[&'a Name]
        ensures { map (λ name. name.now) result.now ≡ self.now.path }
    {
        self.names.as_slice()
    }

    /// The next entry of the directory, or of one above it where none is left, if there is one. What it holds is left out, unless the traversal
    /// [enters](fn@Traversal::enter) it.
    pub fn next(&mut self) -> Option<(&'a Name, &'a Tree)>
        ensures { MatchOption result (self.old.left ≡ []) (λ e. self.old.left ≡
            (self.new.path ++ e.0.now ∷ [], e.1.now) ∷
            places_below (self.new.path ++ e.0.now ∷ []) e.1.now ++ self.new.left) }
    {
        loop {
            if let Some(entry) = self.entries.next() {
                return Some(entry);
            }
            self.names.pop()?;
            self.entries = self.above.pop()?;
        }
    }

    /// Goes down to what an entry that came last holds: that comes next. Without memory nothing of it is.
    pub fn enter(&mut self, name: &'a Name, tree: &'a Tree) -> Result<(), AllocError>
        ensures ok { OnOk result (self.new.left ≡
            places_below (self.old.path ++ name.now ∷ []) tree.now ++ self.old.left) }
        ensures err { OnErr result (self.new.left ≡ self.old.left) }
    {
        let Ok(entries) = tree.entries() else {
            return Ok(());
        };
        self.names.reserve(1)?;
        self.above.reserve(1)?;
        self.names.push_reserved(name);
        self.above
            .push_reserved(mem::replace(&mut self.entries, entries.iter()));
        Ok(())
    }
}
