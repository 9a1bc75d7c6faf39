//! From the inodes that spell a tree, the tree.
ghost use Rattle.std.specs.Prelude.{◌≡◌, ◌≤◌, ◌++◌, IfOk, Ok, OnOk, Some, length, map, reverse};
ghost use Rattle.assise_seq_tree.specs.Tree.{Tree as PlainTree};
ghost use Rattle.assise_inode_table.specs.Contents.{values};
ghost use Rattle.assise_inode_table.specs.Reach.{folder, shape_of};
ghost use Rattle.assise_inode_table.specs.Spelled.{SpellsFrom};
ghost use Rattle.assise_digest.specs.Postorder.{TakesLast, degree, postorder, shape};
ghost use Rattle.assise_digest.specs.Targets.{linked, targets};

use assise_inode_table::directory::Directory;
use assise_inode_table::file_bytes::FileBytes;
use assise_inode_table::inode::Inode;
use assise_inode_table::inodes::Inodes;
use assise_names::name_list::NameList;
use assise_seq_tree::tree::Tree;
use std::alloc::{AllocError, Global};

/// How many bytes of a file are read at a time: as many as the blocks have that inodes hold, so that a read shares one.
const PIECE: u64 = 4096;

/// What stands at a place of a tree, without what lies below it.
#[derive(Drop)]
enum Place {
    File(Vec<u8>),
    Directory(NameList),
}

/// The tree that the inodes spell from one of them on. Each byte of a file is copied once.
pub(crate) fn tree_of<I: Inodes>(alloc: Global, inodes: &I, inode: u64) -> Result<Tree, AllocError>
    ghost t: { PlainTree }
    requires spelled { SpellsFrom (values (I.contents inodes.now)) inode t }
    ensures tree { IfOk result (λ tree. tree ≡ t) }
{
    let places = places_of(alloc, inodes, inode)?;
    assembled(alloc, places)
}

/// What stands at the places of the tree that the inodes spell from one of them on, the last of the postorder first.
fn places_of<I: Inodes>(alloc: Global, inodes: &I, inode: u64) -> Result<Vec<Place>, AllocError>
    ghost t: { PlainTree }
    requires spelled { SpellsFrom (values (I.contents inodes.now)) inode t }
    ensures places { IfOk result (λ places. reverse (map shape places.items) ≡ postorder t) }
{
    let mut places = Vec::new(alloc);
    let mut pending = Vec::new(alloc);
    pending.push(inode)?;
    while let Some(next) = pending.pop() {
        let Some(found) = inodes.get(next) else {
            unreachable!()
        };
        let place = place_of(alloc, found, &mut pending)?;
        places.push(place)?;
    }
    Ok(places)
}

/// What stands at an inode. The inodes that it links to are pending after the others.
fn place_of(alloc: Global, inode: &Inode, pending: &mut Vec<u64>) -> Result<Place, AllocError>
    ensures place { IfOk result (λ place. shape_of (Some inode.now) ≡ Ok (shape place)) }
    ensures pending { OnOk result (pending.new.items ≡ pending.old.items ++ targets inode.now) }
{
    if let Ok(bytes) = inode.file() {
        return Ok(Place::File(bytes_of(alloc, bytes)?));
    }
    let Ok(directory) = inode.directory() else {
        unreachable!()
    };
    let names = directory.names(alloc)?;
    push_linked(directory, &names, pending)?;
    Ok(Place::Directory(names))
}

/// The bytes of a file, each copied once.
fn bytes_of(alloc: Global, file: &FileBytes) -> Result<Vec<u8>, AllocError>
    ensures bytes { IfOk result (λ bytes. bytes.items ≡ file.now) }
{
    let mut bytes = Vec::with_capacity(alloc, file.len())?;
    while bytes.len() < file.len() {
        let piece = file.read(alloc, bytes.len() as u64, PIECE)?;
        bytes.extend_from_slice(piece.as_slice())?;
    }
    Ok(bytes)
}

/// Adds the inodes that names link to in a directory.
fn push_linked(
    directory: &Directory,
    names: &NameList,
    pending: &mut Vec<u64>,
) -> Result<(), AllocError>
    ensures ok { OnOk result (pending.new.items ≡ pending.old.items ++
        linked directory.now names.now) }
{
    for name in names.as_slice() {
        if let Some(inode) = directory.get(name) {
            pending.push(inode)?;
        }
    }
    Ok(())
}

/// The tree of which these are the places, the last of the postorder first.
fn assembled(alloc: Global, mut places: Vec<Place>) -> Result<Tree, AllocError>
    ghost t: { PlainTree }
    requires { reverse (map shape places.items) ≡ postorder t }
    ensures tree { IfOk result (λ tree. tree ≡ t) }
{
    let mut trees = Vec::new(alloc);
    while let Some(place) = places.pop() {
        let tree = grown(alloc, place, &mut trees)?;
        trees.push(tree)?;
    }
    let Some(tree) = trees.pop() else {
        unreachable!()
    };
    Ok(tree)
}

/// The tree of a place. The subtrees of a directory are the last of the trees, which it takes.
fn grown(alloc: Global, place: Place, trees: &mut Vec<Tree>) -> Result<Tree, AllocError>
    requires { degree (shape place) ≤ length trees.old.items }
    ensures tree { IfOk result (λ tree. TakesLast
        (shape place) tree trees.old.items trees.new.items) }
{
    match place {
        Place::File(bytes) => Ok(Tree::of_bytes(bytes)),
        Place::Directory(names) => directory_of(alloc, &names, trees),
    }
}

/// A directory of the last trees, one under each name.
fn directory_of(alloc: Global, names: &NameList, trees: &mut Vec<Tree>) -> Result<Tree, AllocError>
    requires { length names.now ≤ length trees.old.items }
    ensures tree { IfOk result (λ tree. TakesLast
        (folder names.now) tree trees.old.items trees.new.items) }
{
    let mut tree = Tree::new(alloc);
    let mut rest = names.as_slice();
    while let Some((name, before)) = rest.split_last() {
        let Some(subtree) = trees.pop() else {
            unreachable!()
        };
        tree.insert(name.copy()?, subtree)?;
        rest = before;
    }
    Ok(tree)
}
