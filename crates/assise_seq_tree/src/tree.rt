//! A tree of files and directories, and the walks along a path.
ghost use Rattle.std.specs.Prelude.{◌≡◌, ◌∷◌, ◌+◌, ◌^◌, ◌<◌, ◌≤◌, IfNone, IfSome, IsErr, IsFalse, IsTrue, List, MatchResult, OnErr, OnOk, [], length, ℕ};
ghost use Rattle.assise_seq_tree.specs.Answer.{as_directory, as_file, description_of, may_replace, parent_of};
ghost use Rattle.assise_seq_tree.specs.Contents.{overwritten, resized};
ghost use Rattle.assise_seq_tree.specs.Tree.{AreDisjointPaths, AreOrdered, IsOrdered, at, dir, file, opening, put, size_of, sizes_of, without};
ghost use Rattle.assise_seq_tree.specs.View.{map_entries, tree_of};

use crate::answer::vacant;
use crate::contents;
use assise_names::name::Name;
use assise_names::reply::{Reply, TreeError};
use std::alloc::{AllocError, Global};
use std::collections::BTreeMap;
use std::marker::Model;
use std::mem;

/// A file with its bytes, or a directory with a tree under each of its names. A contract sees the plain tree,
/// and nothing of how it is held.
#[cycle(tree)]
pub struct Tree {
    node: Node,
    // For the walks over it.
    pub(crate) alloc: Global,
}

/// What stands at the top of a tree.
#[cycle(tree)]
#[derive(Drop)]
enum Node {
    File(Vec<u8>),
    Directory(BTreeMap<Name, Tree>),
}

// A tree goes by a loop, however deep it is, and takes no memory for it: what is left of a directory waits in the next one.
impl Drop for Tree {
    #[cycle(tree)]
    fn drop(mut self) {
        let alloc = self.alloc;
        loop {
            match self.into_node() {
                Node::File(_) => return,
                Node::Directory(mut entries) => match pop_tree(&mut entries) {
                    None => return,
                    Some(last) => {
                        if entries.is_empty() {
                            drop(entries);
                            self = last;
                        } else {
                            self = left_of(Tree::of_entries(alloc, entries), last);
                        }
                    }
                },
            }
        }
    }
}

/// What is left of two trees without a file or a directory that has no entries: the way goes down the second by first entries, and the first
/// waits there.
#[cycle(tree)]
fn left_of(waiting: Tree, tree: Tree) -> Tree
    ensures { size_of result ≤ size_of waiting + size_of tree }
{
    let alloc = tree.alloc;
    let (mut waiting, mut tree) = (waiting, tree);
    loop {
        match tree.into_node() {
            Node::File(_) => return waiting,
            Node::Directory(mut entries) => {
                tree = waiting;
                if !swap_first(&mut entries, &mut tree) {
                    return tree;
                }
                waiting = Tree::of_entries(alloc, entries);
            }
        }
    }
}

/// Takes the last entry out, and answers its tree.
fn pop_tree(entries: &mut BTreeMap<Name, Tree>) -> Option<Tree>
    requires { AreOrdered (map_entries entries.old.entries) }
    ensures ordered { AreOrdered (map_entries entries.new.entries) }
    ensures sum { IfSome result (λ tree. sizes_of (map_entries entries.old.entries) ≡
        sizes_of (map_entries entries.new.entries) + size_of tree + 1) }
    ensures none { IfNone result (entries.new.entries ≡ []) }
{
    let (_, tree) = entries.pop_last()?;
    Some(tree)
}

/// Exchanges the tree of the first entry with another. Without an entry it answers false.
fn swap_first(entries: &mut BTreeMap<Name, Tree>, tree: &mut Tree) -> bool
    requires { AreOrdered (map_entries entries.old.entries) }
    ensures ordered { AreOrdered (map_entries entries.new.entries) }
    ensures sum { sizes_of (map_entries entries.new.entries) + size_of tree.new ≡
        sizes_of (map_entries entries.old.entries) + size_of tree.old }
    ensures falls { IsTrue result → size_of tree.new < sizes_of (map_entries entries.old.entries) }
    ensures none { IsFalse result → (entries.new.entries ≡ []) × (tree.new ≡ tree.old) }
{
    // A look at the field tells the proof that the tree is ordered.
    let _ = &tree.node;
    let Some(first) = entries.first_entry() else {
        return false;
    };
    mem::swap(first.into_mut(), tree);
    true
}

impl Model for Tree {
    ghost use Rattle.assise_seq_tree.specs.Tree.{Tree as PlainTree};
    ghost use Rattle.assise_seq_tree.specs.Code.{coded_tree};

    ghost Value = { PlainTree };

    ghost coded = { coded_tree };

    ghost use Rattle.assise_seq_tree.specs.View.{tree_of};

    ghost view = { λ t. tree_of t.node };

    ghost use Rattle.assise_seq_tree.specs.Tree.{IsOrdered};

    ghost invariant = { λ t. IsOrdered (tree_of t.node) };

    ghost use Rattle.assise_seq_tree.specs.Tree.{size_of};

    ghost size = { size_of };

    ghost use Rattle.assise_seq_tree.specs.Size.{size_falls};

    ghost size_decreases = { λ t h. size_falls t.node };
}

impl Tree {
    /// What stands at its top.
    fn into_node(self) -> Node
        ensures node { tree_of result ≡ self }
        ensures ordered { IsOrdered (tree_of result) }
    {
        let Tree { node, alloc: _ } = self;
        node
    }

    /// A directory with these entries.
    fn of_entries(alloc: Global, entries: BTreeMap<Name, Tree>) -> Tree
        requires { AreOrdered (map_entries entries.entries) }
        ensures { result ≡ dir (map_entries entries.entries) }
    {
        Tree {
            node: Node::Directory(entries),
            alloc,
        }
    }

    /// The opening tree: a directory without entries.
    pub fn new(alloc: Global) -> Tree
        ensures { result ≡ opening }
    {
        Tree {
            node: Node::Directory(BTreeMap::new(alloc)),
            alloc,
        }
    }

    /// A file of these bytes, without a copy.
    pub fn of_bytes(bytes: Vec<u8>) -> Tree
        ensures { result ≡ file bytes.items }
    {
        let alloc = *bytes.allocator();
        Tree {
            node: Node::File(bytes),
            alloc,
        }
    }

    /// A file without bytes.
    pub(crate) fn empty_file(alloc: Global) -> Tree
        ensures { result ≡ file [] }
    {
        Tree {
            node: Node::File(Vec::new(alloc)),
            alloc,
        }
    }

    /// The subtree at a path. Where a file stands on the way it is [`TreeError::NotDir`], where a name is
    /// missing [`TreeError::NoEnt`].
    pub(crate) fn at(&self, names: &[Name]) -> Result<&Tree, TreeError>
        ensures { MatchResult result (λ t. at self.now names.now ≡ Ok t.now)
            (λ e. at self.now names.now ≡ Err e) }
    {
        let [name, rest @ ..] = names else {
            return Ok(self);
        };
        match &self.node {
            Node::File(_) => Err(TreeError::NotDir),
            Node::Directory(entries) => match entries.get(name) {
                Some(tree) => tree.at(rest),
                None => Err(TreeError::NoEnt),
            },
        }
    }

    /// The entries of a directory. A file is [`TreeError::NotDir`].
    pub fn entries(&self) -> Result<&BTreeMap<Name, Tree>, TreeError>
        ensures { MatchResult result (λ m. as_directory self.now ≡ Ok (map_entries m.now.entries))
            (λ e. as_directory self.now ≡ Err e) }
    {
        match &self.node {
            Node::File(_) => Err(TreeError::NotDir),
            Node::Directory(entries) => Ok(entries),
        }
    }

    /// The bytes of a file. A directory is [`TreeError::IsDir`].
    pub fn bytes(&self) -> Result<&[u8], TreeError>
        ensures { MatchResult result (λ bytes. as_file self.now ≡ Ok bytes.now)
            (λ e. as_file self.now ≡ Err e) }
    {
        match &self.node {
            Node::File(bytes) => Ok(bytes.as_slice()),
            Node::Directory(_) => Err(TreeError::IsDir),
        }
    }

    /// What stands here: a file with its size in bytes, or a directory with its count of entries.
    #[tactic(auto, using(crate::proofs::Entries::entry_facts))]
    pub(crate) fn describe(&self) -> Reply
        ensures { result ≡ description_of self.now }
    {
        match &self.node {
            Node::File(bytes) => Reply::File(bytes.len() as u64),
            Node::Directory(entries) => Reply::Dir(entries.len() as u64),
        }
    }

    /// Whether a tree may take the place of this one: a file that of a file, and a directory that of a directory without
    /// entries. A directory in the way of a file is [`TreeError::IsDir`], a file in the way of a directory
    /// [`TreeError::NotDir`], and a directory with entries in the way of another [`TreeError::NotEmpty`].
    pub(crate) fn may_be_replaced(&self, moved: &Tree) -> Result<(), TreeError>
        ensures { result ≡ may_replace moved.now self.now }
    {
        match &moved.node {
            Node::File(_) => {
                self.bytes()?;
                Ok(())
            }
            Node::Directory(_) => vacant(self.entries()?),
        }
    }

    /// Puts a tree at a path. A directory that is missing on the way is made. Where something stands at the path, it
    /// takes no memory.
    pub(crate) fn put(
        &mut self,
        alloc: Global,
        names: &[Name],
        tree: Tree,
    ) -> Result<(), AllocError>
        ensures ok { OnOk result (self.new ≡ put self.old names.now tree) }
        ensures err { OnErr result (self.new ≡ self.old) }
        ensures asked { OnErr result (IsErr (at self.old names.now)) }
    {
        // A look at the field tells the proof that the new tree is ordered.
        let _ = &tree.node;
        let [name, rest @ ..] = names else {
            *self = tree;
            return Ok(());
        };
        match &mut self.node {
            Node::File(_) => Ok(()),
            Node::Directory(entries) => match entries.get_mut(name) {
                Some(child) => child.put(alloc, rest, tree),
                None => {
                    let mut child = Tree::new(alloc);
                    child.put(alloc, rest, tree)?;
                    let key = name.copy()?;
                    entries.insert(key, child)?;
                    Ok(())
                }
            },
        }
    }

    /// Gives a directory an entry, in place of one of the same name. A file stays as it is. It asks for memory where the
    /// name is new; without it, it leaves the tree as it was.
    pub fn insert(&mut self, name: Name, tree: Tree) -> Result<(), AllocError>
        ensures ok { OnOk result (self.new ≡ put self.old (name ∷ []) tree) }
        ensures err { OnErr result (self.new ≡ self.old) }
        ensures asked { OnErr result (IsErr (at self.old (name ∷ []))) }
    {
        // A look at the field tells the proof that the new tree is ordered.
        let _ = &tree.node;
        match &mut self.node {
            // A file has no entries: neither is kept.
            Node::File(_) => {
                drop((name, tree));
                Ok(())
            }
            Node::Directory(entries) => {
                entries.insert(name, tree)?;
                Ok(())
            }
        }
    }

    /// Exchanges the tree at a path with another, where there is one.
    pub(crate) fn swap(&mut self, names: &[Name], other: &mut Tree)
        ensures there { (found : _) → at self.old names.now ≡ Ok found →
            (other.new ≡ found) × (self.new ≡ put self.old names.now other.old) }
        ensures absent { (e : _) → at self.old names.now ≡ Err e →
            (other.new ≡ other.old) × (self.new ≡ self.old) }
    {
        let [name, rest @ ..] = names else {
            mem::swap(self, other);
            return;
        };
        // A look at the field tells the proof that the other tree is ordered.
        let _ = &other.node;
        match &mut self.node {
            Node::File(_) => {}
            Node::Directory(entries) => {
                match entries.get_mut(name) {
                    Some(child) => child.swap(rest, other),
                    None => {}
                }
            }
        }
    }

    /// Takes the entry at a path below the root out, with the tree that it led to.
    pub(crate) fn take(&mut self, names: &[Name]) -> Option<Tree>
        requires below_the_root { 0 < length names.now }
        ensures taken { (found : _) → at self.old names.now ≡ Ok found → result ≡ Some found }
        ensures rest { self.new ≡ without self.old names.now }
    {
        let [name, rest @ ..] = names else {
            return None;
        };
        match &mut self.node {
            Node::File(_) => None,
            Node::Directory(entries) => {
                if rest.is_empty() {
                    entries.remove(name)
                } else {
                    match entries.get_mut(name) {
                        Some(child) => child.take(rest),
                        None => None,
                    }
                }
            }
        }
    }

    /// Moves the tree at a path to another, where the parent of that is a directory and neither path begins with the other.
    /// What stood there is gone. It asks for memory where nothing stood there; without it, it leaves the tree as it was.
    pub(crate) fn move_entry(
        &mut self,
        alloc: Global,
        from: &[Name],
        to: &[Name],
    ) -> Result<(), AllocError>
        requires disjoint { AreDisjointPaths from.now to.now }
        requires parent { (es : _) × (at self.old (parent_of to.now) ≡ Ok (dir es)) }
        ensures ok { (moved : _) → at self.old from.now ≡ Ok moved →
            OnOk result (self.new ≡ put (without self.old from.now) to.now moved) }
        ensures err { OnErr result (self.new ≡ self.old) }
        ensures asked { OnErr result (IsErr (at self.old to.now)) }
    {
        let _ = &self.node;
        // Only this step takes memory. What stands there from then on is exchanged in its place.
        self.put(alloc, to, Tree::new(alloc))?;
        if let Some(mut moved) = self.take(from) {
            self.swap(to, &mut moved);
        }
        Ok(())
    }

    /// Writes into the file of which this tree consists, if it is one.
    fn overwrite(&mut self, offset: usize, new: &[u8]) -> Result<(), AllocError>
        requires { offset + length new.now < 2 ^ 64 }
        ensures ok { (bytes : List ℕ) → self.old ≡ file bytes →
            OnOk result (self.new ≡ file (overwritten bytes offset new.now)) }
        ensures err { OnErr result (self.new ≡ self.old) }
        ensures asked { (bytes : List ℕ) → self.old ≡ file bytes →
            OnErr result (length bytes < offset + length new.now) }
    {
        match &mut self.node {
            Node::File(bytes) => contents::overwrite(bytes, offset, new),
            Node::Directory(_) => Ok(()),
        }
    }

    /// Writes into the file at a path, in its place.
    pub(crate) fn overwrite_at(
        &mut self,
        alloc: Global,
        names: &[Name],
        offset: usize,
        new: &[u8],
    ) -> Result<(), AllocError>
        requires { offset + length new.now < 2 ^ 64 }
        ensures ok { (bytes : List ℕ) → at self.old names.now ≡ Ok (file bytes) →
            OnOk result (self.new ≡ put self.old names.now
            (file (overwritten bytes offset new.now))) }
        ensures err { (bytes : List ℕ) → at self.old names.now ≡ Ok (file bytes) →
            OnErr result (self.new ≡ self.old) }
        ensures asked { (bytes : List ℕ) → at self.old names.now ≡ Ok (file bytes) →
            OnErr result (length bytes < offset + length new.now) }
    {
        let mut tree = Tree::empty_file(alloc);
        self.swap(names, &mut tree);
        let outcome = tree.overwrite(offset, new);
        self.swap(names, &mut tree);
        outcome
    }

    /// Gives the file of which this tree consists another size, if it is one.
    fn resize(&mut self, size: usize) -> Result<(), AllocError>
        ensures ok { (bytes : List ℕ) → self.old ≡ file bytes →
            OnOk result (self.new ≡ file (resized bytes size)) }
        ensures err { OnErr result (self.new ≡ self.old) }
        ensures asked { (bytes : List ℕ) → self.old ≡ file bytes →
            OnErr result (length bytes < size) }
    {
        match &mut self.node {
            Node::File(bytes) => contents::resize(bytes, size),
            Node::Directory(_) => Ok(()),
        }
    }

    /// Gives the file at a path another size, in its place.
    pub(crate) fn resize_at(
        &mut self,
        alloc: Global,
        names: &[Name],
        size: usize,
    ) -> Result<(), AllocError>
        ensures ok { (bytes : List ℕ) → at self.old names.now ≡ Ok (file bytes) →
            OnOk result (self.new ≡ put self.old names.now (file (resized bytes size))) }
        ensures err { (bytes : List ℕ) → at self.old names.now ≡ Ok (file bytes) →
            OnErr result (self.new ≡ self.old) }
        ensures asked { (bytes : List ℕ) → at self.old names.now ≡ Ok (file bytes) →
            OnErr result (length bytes < size) }
    {
        let mut tree = Tree::empty_file(alloc);
        self.swap(names, &mut tree);
        let outcome = tree.resize(size);
        self.swap(names, &mut tree);
        outcome
    }
}
