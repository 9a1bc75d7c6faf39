//! A part of a directory.
ghost use Rattle.std.specs.Prelude.{◌≡◌, ◌+◌, ◌-◌, ◌<◌, ◌≤◌, ◌++◌, ◌∷◌, ◌==◌, [], IfErr, IfOk, OnErr, OnOk, Some, drop, false, length, set, take, true};
ghost use Rattle.std.specs.Arc.{arc_value};
ghost use Rattle.std.specs.List.{insert};
ghost use Rattle.std.specs.Map.{keys_of};
ghost use Rattle.assise_inode_table.specs.Pieces.{Ascend, IsGapFor, IsSlotOf, slot_link, links_or_none, live, slot_name};

use assise_names::name::Name;
use std::alloc::{AllocError, Global};
use std::marker::Model;
use std::sync::Arc;

/// The most names of a piece.
pub const MOST_NAMES: usize = 32;

/// Names that ascend, which copies share, and beside each the inode that it links to, or none where its entry is gone: so
/// neither a removal nor a link under a name that stands here takes memory. A contract sees the list of both.
#[derive(Debug, Drop)]
pub(crate) struct Piece {
    // With the names between the other two a copy's links go straight into their place.
    /// What each name links to, if its entry isn't gone.
    links: [u64; MOST_NAMES],
    names: Arc<Vec<Name>>,
    /// Whether the entry of each name is gone.
    gone: [bool; MOST_NAMES],
}

impl Model for Piece {
    ghost use Rattle.std.specs.Prelude.{List, Option, ℕ};
    ghost use Rattle.std.specs.List.{zip};
    ghost use Rattle.std.specs.Arc.{arc_value};
    ghost use Rattle.assise_inode_table.specs.Pieces.{IsPiece, links_or_none};

    ghost Value = { List (List ℕ × Option ℕ) };

    ghost view = { λ p. zip (arc_value p.names).items (links_or_none p.links p.gone) };

    ghost invariant = { λ p. IsPiece (arc_value p.names).items p.links p.gone };
}

impl Piece {
    /// A piece of one entry.
    #[tactic(auto, unfolding(crate::specs::Pieces::links_or_none))]
    pub fn of_one(alloc: Global, name: Name, inode: u64) -> Result<Piece, AllocError>
        ensures { IfOk result (λ piece. piece ≡ (name, Some inode) ∷ []) }
    {
        let mut names = Vec::with_capacity(alloc, 1)?;
        names.push(name)?;
        let mut links = [0; MOST_NAMES];
        links[0] = inode;
        Ok(Piece {
            names: Arc::new(alloc, names)?,
            links,
            gone: [false; MOST_NAMES],
        })
    }

    /// The first name.
    pub fn first(&self) -> &Name
        requires { 0 < length self.now }
        ensures { result.now ≡ slot_name self.now 0 }
    {
        &self.names.as_slice()[0]
    }

    /// Where a name stands, or where it would.
    pub fn find(&self, name: &Name) -> Result<usize, usize>
        requires { Ascend self.now }
        ensures found { IfOk result (IsSlotOf name.now self.now) }
        ensures absent { IfErr result (IsGapFor name.now self.now) }
    {
        self.names.as_slice().binary_search(name)
    }

    /// The inode that a name links to, if its entry isn't gone.
    pub fn link(&self, at: usize) -> Option<u64>
        requires { at < length self.now }
        ensures { result ≡ slot_link self.now at }
    {
        if self.gone[at] {
            None
        } else {
            Some(self.links[at])
        }
    }

    /// Links a name to an inode, or lets its entry go.
    pub fn set(&mut self, at: usize, link: Option<u64>)
        requires { at < length self.old }
        ensures { self.new ≡ set self.old at (slot_name self.old at, link) }
    {
        set_link(&mut self.links, &mut self.gone, at, link);
    }

    /// Whether there is room for one name more.
    pub fn has_room(&self) -> bool
        ensures room { result ≡ true → length self.now < 32 }
        ensures full { result ≡ false → length self.now ≡ 32 }
    {
        self.names.len() < MOST_NAMES
    }

    /// Links a new name to an inode, at its place. Names that others share are copied first.
    pub fn insert(
        &mut self,
        alloc: Global,
        at: usize,
        name: Name,
        inode: u64,
    ) -> Result<(), AllocError>
        requires within { at ≤ length self.old }
        requires room { length self.old < 32 }
        ensures ok { OnOk result (self.new ≡ insert self.old at (name, Some inode)) }
        ensures err { OnErr result (self.new ≡ self.old) }
    {
        let len = self.names.len();
        insert_name(alloc, &mut self.names, at, name)?;
        shift_in(&mut self.links[at..=len], inode);
        shift_in(&mut self.gone[at..=len], false);
        Ok(())
    }

    /// A piece of the slots from a start to an end.
    pub fn part(&self, alloc: Global, start: usize, end: usize) -> Result<Piece, AllocError>
        requires { (start ≤ end) × (end ≤ length self.now) }
        ensures { IfOk result (λ part. part ≡ take (end - start) (drop start self.now)) }
    {
        let names = copied(alloc, &self.names.as_slice()[start..end], 0)?;
        let mut links = [0; MOST_NAMES];
        let mut gone = [false; MOST_NAMES];
        copy_in_front(&mut links, &self.links[start..end]);
        copy_in_front(&mut gone, &self.gone[start..end]);
        Ok(Piece {
            names: Arc::new(alloc, names)?,
            links,
            gone,
        })
    }

    /// Whether there is room for the slots of another piece.
    pub fn has_room_for(&self, other: &Piece) -> bool
        ensures { result ≡ true → length self.now + length other.now ≤ 32 }
    {
        self.names.len() + other.names.len() <= MOST_NAMES
    }

    /// Puts the slots of another piece behind these.
    pub fn append(&mut self, alloc: Global, other: &Piece) -> Result<(), AllocError>
        requires { length self.old + length other.now ≤ 32 }
        ensures ok { OnOk result (self.new ≡ self.old ++ other.now) }
        ensures err { OnErr result (self.new ≡ self.old) }
    {
        let len = self.names.len();
        let count = other.names.len();
        let names = joined(alloc, self.names.as_slice(), other.names.as_slice())?;
        self.names = Arc::new(alloc, names)?;
        self.links[len..len + count].copy_from_slice(&other.links[..count]);
        self.gone[len..len + count].copy_from_slice(&other.gone[..count]);
        Ok(())
    }

    /// Whether all entries are gone.
    pub fn is_gone(&self) -> bool
        ensures { result ≡ true → live self.now ≡ [] }
    {
        self.gone[..self.names.len()].iter().all(|gone| *gone)
    }

    /// Adds the names whose entries aren't gone to a list.
    pub fn list(&self, names: &mut Vec<Name>) -> Result<(), AllocError>
        ensures ok { OnOk result (names.new.items ≡ names.old.items ++ keys_of (live self.now)) }
    {
        for at in 0..self.names.len() {
            if !self.gone[at] {
                names.push(self.names[at].copy()?)?;
            }
        }
        Ok(())
    }
}

/// Pieces that share the names of others.
pub(crate) fn shared(alloc: Global, pieces: &[Piece]) -> Result<Vec<Piece>, AllocError>
    ensures { IfOk result (λ shared. shared.items ≡ pieces.now) }
{
    let mut shared = Vec::with_capacity(alloc, pieces.len())?;
    for piece in pieces {
        let names = Arc::try_clone(&piece.names)?;
        shared.push_reserved(Piece {
            links: piece.links,
            names,
            gone: piece.gone,
        });
    }
    Ok(shared)
}

/// Equal names, with room for some more.
fn copied(alloc: Global, names: &[Name], more: usize) -> Result<Vec<Name>, AllocError>
    ensures { IfOk result (λ copied. copied.items ≡ names.now) }
{
    let mut copied = Vec::with_capacity(alloc, names.len().saturating_add(more))?;
    for name in names {
        copied.push_reserved(name.clone()?);
    }
    Ok(copied)
}

/// The names of two lists, one behind the other.
fn joined(alloc: Global, front: &[Name], back: &[Name]) -> Result<Vec<Name>, AllocError>
    ensures { IfOk result (λ joined. joined.items ≡ front.now ++ back.now) }
{
    let mut joined = copied(alloc, front, back.len())?;
    for name in back {
        joined.push(name.clone()?)?;
    }
    Ok(joined)
}

/// Puts a name in at its place, into names of its own.
fn insert_name(
    alloc: Global,
    names: &mut Arc<Vec<Name>>,
    at: usize,
    name: Name,
) -> Result<(), AllocError>
    requires { at ≤ length (arc_value names.old).items }
    ensures ok { OnOk result ((arc_value names.new).items ≡ insert (arc_value names.old).items at
        name) }
    ensures err { OnErr result ((arc_value names.new).items ≡ (arc_value names.old).items) }
{
    if let Some(own) = Arc::get_mut(names) {
        own.insert(at, name)?;
        return Ok(());
    }
    // Room for as many again, as a vector's growth makes.
    let mut own = copied(alloc, names.as_slice(), names.len())?;
    own.insert(at, name)?;
    *names = Arc::new(alloc, own)?;
    Ok(())
}

/// Sets the link at a place, or lets the entry there go.
fn set_link(links: &mut [u64], gone: &mut [bool], at: usize, link: Option<u64>)
    requires within { at < length links.old }
    requires as_many { length gone.old ≡ length links.old }
    ensures linked { links_or_none links.new gone.new ≡ set (links_or_none links.old gone.old) at
        link }
    ensures links_len { length links.new ≡ length links.old }
    ensures gone_len { length gone.new ≡ length gone.old }
{
    match link {
        Some(inode) => {
            links[at] = inode;
            gone[at] = false;
        }
        None => gone[at] = true,
    }
}

/// Puts an element in front, and lets the last go.
fn shift_in<T: Copy>(row: &mut [T], first: T)
    requires { 0 < length row.old }
    ensures { row.new ≡ first ∷ take (length row.old - 1) row.old }
{
    row.copy_within(0..row.len() - 1, 1);
    row[0] = first;
}

/// Copies elements over the first of a row.
fn copy_in_front<T: Copy>(row: &mut [T], front: &[T])
    requires { length front.now ≤ length row.old }
    ensures { row.new ≡ front.now ++ drop (length front.now) row.old }
{
    row[..front.len()].copy_from_slice(front);
}
