//! The links of a directory.
ghost use Rattle.std.specs.Prelude.{◌≡◌, ◌+◌, ◌<◌, ◌≤◌, ◌==◌, ◌++◌, IfErr, IfNone, IfOk, IfSome, None, OnErr, OnOk, Some, length, suc};
ghost use Rattle.std.specs.FinMap as map;
ghost use Rattle.assise_inode_table.specs.Calls.{room_among};
ghost use Rattle.assise_inode_table.specs.Pieces.{AddsSlot, AreFilled, Ascend, IsGapFor, IsPieceFor, Puts, StandsAt, slot_link, links_in, live, piece_at, slots_in};

use crate::piece::{MOST_NAMES, Piece, shared};
use assise_names::name::Name;
use assise_names::name_list::NameList;
use assise_names::reply::TreeError;
use assise_seq_tree::answer::MOST_ENTRIES;
use std::alloc::{AllocError, Global};
use std::marker::Model;

/// The links of a directory: from each name the number of an inode (POSIX.1-2017, base definitions, chapter 3:
/// Directory Entry (or Link)). A contract sees the finite map, and nothing of how it is held.
#[derive(Debug, Drop)]
pub struct Directory {
    alloc: Global,
    pieces: Vec<Piece>,
    len: usize,
}

/// Where a name stands: in which piece, and where in that.
#[derive(Clone, Copy, Debug)]
struct Place {
    piece: usize,
    at: usize,
}

impl Model for Directory {
    ghost use Rattle.assise_inode_table.specs.Contents.{Links, coded_links};
    ghost use Rattle.assise_inode_table.specs.Pieces.{IsDirectory, links_in};

    ghost Value = { Links };

    ghost coded = { coded_links };

    ghost view = { λ d. links_in d.pieces.items };

    ghost invariant = { λ d. IsDirectory d.pieces.items d.len };
}

impl Directory {
    /// A directory without entries. It takes no memory.
    #[tactic(auto, using(crate::proofs::PieceSlots::no_pieces))]
    pub fn new(alloc: Global) -> Directory
        ensures { result ≡ map.empty }
    {
        Directory {
            alloc,
            pieces: Vec::new(alloc),
            len: 0,
        }
    }

    /// The number of the inode that a name links to, if there is such an entry.
    pub fn get(&self, name: &Name) -> Option<u64>
        ensures { result ≡ map.get self.now name.now }
    {
        match place_of(&self.pieces, name) {
            Some(place) => self.pieces[place.piece].link(place.at),
            None => None,
        }
    }

    /// How many entries there are.
    pub fn len(&self) -> usize
        ensures { result ≡ length (map.keys self.now) }
    {
        self.len
    }

    /// Whether there are no entries.
    pub fn is_empty(&self) -> bool
        ensures { result ≡ (length (map.keys self.now) == 0) }
    {
        self.len() == 0
    }

    /// The names of the entries, which ascend by their bytes.
    pub fn names(&self, alloc: Global) -> Result<NameList, AllocError>
        ensures names { IfOk result (λ names. names ≡ map.keys self.now) }
    {
        let mut names = Vec::with_capacity(alloc, self.len)?;
        for piece in &self.pieces {
            piece.list(&mut names)?;
        }
        NameList::from_vec(alloc, names)
    }

    /// Whether an entry of a new name may be made: a name that is there is [`TreeError::Exists`], and a directory of
    /// 4,096 entries is [`TreeError::DirFull`]. The name is asked for first.
    pub fn room_for(&self, name: &Name) -> Result<(), TreeError>
        ensures { result ≡ room_among name.now self.now }
    {
        if self.get(name).is_some() {
            return Err(TreeError::Exists);
        }
        if self.len() >= MOST_ENTRIES {
            return Err(TreeError::DirFull);
        }
        Ok(())
    }

    /// Links a name to an inode, in place of what it linked to before. It asks for memory where the name is new; without
    /// it, it leaves the directory as it was.
    pub fn insert(&mut self, name: Name, inode: u64) -> Result<(), AllocError>
        ensures ok { OnOk result (self.new ≡ map.insert self.old name inode) }
        ensures err { OnErr result (self.new ≡ self.old) }
        ensures asked { OnErr result (map.get self.old name ≡ None) }
    {
        let Some(name) = self.put(name, inode)? else {
            return Ok(());
        };
        self.split(&name)?;
        match self.put(name, inode)? {
            None => Ok(()),
            // It isn't reached: the half that the name belongs in has room.
            Some(_) => Err(AllocError),
        }
    }

    /// As [`Directory::insert`], but a new name that belongs into a full piece comes back.
    fn put(&mut self, name: Name, inode: u64) -> Result<Option<Name>, AllocError>
        ensures ok { IfOk result (Puts self.old name inode self.new) }
        ensures err { OnErr result (self.new ≡ self.old) }
        ensures asked { OnErr result (map.get self.old name ≡ None) }
    {
        if self.pieces.is_empty() {
            // Most directories stay small: a vector's first growth would make room for four pieces.
            self.pieces.reserve_exact(1)?;
            self.pieces.push(Piece::of_one(self.alloc, name, inode)?)?;
            self.len = 1;
            return Ok(None);
        }
        let piece = piece_of(&self.pieces, &name);
        match self.pieces[piece].find(&name) {
            Ok(at) => {
                let gone = self.pieces[piece].link(at).is_none();
                let Some(len) = self.len.checked_add(usize::from(gone)) else {
                    return Err(AllocError);
                };
                self.pieces[piece].set(at, Some(inode));
                self.len = len;
                Ok(None)
            }
            Err(at) => {
                let Some(len) = self.len.checked_add(1) else {
                    return Err(AllocError);
                };
                match add(self.alloc, &mut self.pieces, piece, at, name, inode)? {
                    None => {
                        self.len = len;
                        Ok(None)
                    }
                    Some(name) => Ok(Some(name)),
                }
            }
        }
    }

    /// Splits the piece that a name belongs in.
    fn split(&mut self, name: &Name) -> Result<(), AllocError>
        ensures same { self.new ≡ self.old }
    {
        if self.pieces.is_empty() {
            return Ok(());
        }
        let piece = piece_of(&self.pieces, name);
        halve(self.alloc, &mut self.pieces, piece, name)?;
        Ok(())
    }

    /// As [`Directory::insert`], by a copy of the name. Where there can be no copy, a name that has an entry is linked in its
    /// place.
    pub fn link(&mut self, name: &Name, inode: u64) -> Result<(), AllocError>
        ensures ok { OnOk result (self.new ≡ map.insert self.old name.now inode) }
        ensures err { OnErr result (self.new ≡ self.old) }
        ensures asked { OnErr result (map.get self.old name.now ≡ None) }
    {
        match name.copy() {
            Ok(copied) => self.insert(copied, inode),
            Err(AllocError) => self.relink(name, inode),
        }
    }

    /// Links a name that has an entry to an inode, in place of what it linked to.
    fn relink(&mut self, name: &Name, inode: u64) -> Result<(), AllocError>
        ensures ok { OnOk result (self.new ≡ map.insert self.old name.now inode) }
        ensures err { OnErr result (self.new ≡ self.old) }
        ensures asked { OnErr result (map.get self.old name.now ≡ None) }
    {
        let Some(place) = place_of(&self.pieces, name) else {
            return Err(AllocError);
        };
        if self.pieces[place.piece].link(place.at).is_none() {
            return Err(AllocError);
        }
        self.pieces[place.piece].set(place.at, Some(inode));
        Ok(())
    }

    /// Takes the entry of a name out, if it is there.
    pub fn remove(&mut self, name: &Name)
        ensures { self.new ≡ map.remove self.old name.now }
    {
        let Some(place) = place_of(&self.pieces, name) else {
            return;
        };
        if self.pieces[place.piece].link(place.at).is_none() {
            return;
        }
        self.pieces[place.piece].set(place.at, None);
        self.len -= 1;
        let_go(&mut self.pieces, place.piece);
    }

    /// An equal value.
    pub fn copy(&self) -> Result<Directory, AllocError>
        ensures equal { IfOk result (λ copied. copied ≡ self.now) }
    {
        Ok(Directory {
            alloc: self.alloc,
            pieces: shared(self.alloc, &self.pieces)?,
            len: self.len,
        })
    }
}

/// The piece that a name belongs in: the last whose first name isn't behind it, or the first.
fn piece_of(pieces: &[Piece], name: &Name) -> usize
    requires some { 0 < length pieces.now }
    requires filled { AreFilled pieces.now }
    ensures { IsPieceFor name.now pieces.now result }
{
    let mut low = 0;
    let mut high = pieces.len();
    while high - low > 1 {
        let mid = low + (high - low) / 2;
        if pieces[mid].first().cmp(name).is_gt() {
            high = mid;
        } else {
            low = mid;
        }
    }
    low
}

/// Where a name stands among pieces, if it does.
fn place_of(pieces: &[Piece], name: &Name) -> Option<Place>
    requires ascend { Ascend (slots_in pieces.now) }
    requires filled { AreFilled pieces.now }
    ensures there { IfSome result (λ place. StandsAt name.now pieces.now place.piece place.at) }
    ensures absent { IfNone result (map.get (links_in pieces.now) name.now ≡ None) }
{
    if pieces.is_empty() {
        return None;
    }
    let piece = piece_of(pieces, name);
    match pieces[piece].find(name) {
        Ok(at) => Some(Place { piece, at }),
        Err(_) => None,
    }
}

/// Adds a new name at its place. In a full piece it comes back, but where it is the last of all there it begins a piece.
fn add(
    alloc: Global,
    pieces: &mut Vec<Piece>,
    piece: usize,
    at: usize,
    name: Name,
    inode: u64,
) -> Result<Option<Name>, AllocError>
    requires piece { piece < length pieces.old.items }
    requires at { at ≤ length (piece_at pieces.old.items piece) }
    requires filled { AreFilled pieces.old.items }
    ensures ok { IfOk result (λ left. AddsSlot pieces.old.items piece at (name, Some inode) left
        pieces.new.items) }
    ensures err { OnErr result (slots_in pieces.new.items ≡ slots_in pieces.old.items) }
    ensures filled { AreFilled pieces.new.items }
{
    if pieces[piece].has_room() {
        pieces[piece].insert(alloc, at, name, inode)?;
        return Ok(None);
    }
    if at < MOST_NAMES {
        return Ok(Some(name));
    }
    pieces.insert(piece + 1, Piece::of_one(alloc, name, inode)?)?;
    Ok(None)
}

/// Splits the full piece that a name belongs in, and lets each half go whose entries are all gone.
fn halve(
    alloc: Global,
    pieces: &mut Vec<Piece>,
    piece: usize,
    name: &Name,
) -> Result<(), AllocError>
    requires piece { piece < length pieces.old.items }
    requires ascend { Ascend (slots_in pieces.old.items) }
    requires filled { AreFilled pieces.old.items }
    ensures live { live (slots_in pieces.new.items) ≡ live (slots_in pieces.old.items) }
    ensures ascend { Ascend (slots_in pieces.new.items) }
    ensures filled { AreFilled pieces.new.items }
{
    if pieces[piece].has_room() {
        return Ok(());
    }
    let upper = pieces[piece].part(alloc, MOST_NAMES / 2, MOST_NAMES)?;
    let lower = pieces[piece].part(alloc, 0, MOST_NAMES / 2)?;
    let place = put_halves(alloc, pieces, piece, lower, upper, name)?;
    let_go(pieces, place);
    let_go(pieces, place - 1);
    Ok(())
}

/// Puts two halves of a piece in its place, but where a name belongs in the upper half and the piece in front has room, the lower
/// goes behind its names. The place of the upper is returned.
fn put_halves(
    alloc: Global,
    pieces: &mut Vec<Piece>,
    piece: usize,
    lower: Piece,
    upper: Piece,
    name: &Name,
) -> Result<usize, AllocError>
    requires piece { piece < length pieces.old.items }
    requires halves { piece_at pieces.old.items piece ≡ lower ++ upper }
    requires some { (0 < length lower) × (0 < length upper) }
    requires filled { AreFilled pieces.old.items }
    ensures same { slots_in pieces.new.items ≡ slots_in pieces.old.items }
    ensures filled { AreFilled pieces.new.items }
    ensures place { IfOk result (λ place. (0 < place) × (place < length pieces.new.items)) }
{
    if piece == 0 || upper.first().cmp(name).is_gt() || !pieces[piece - 1].has_room_for(&lower) {
        pieces.insert(piece + 1, upper)?;
        pieces[piece] = lower;
        return Ok(piece + 1);
    }
    pieces[piece - 1].append(alloc, &lower)?;
    pieces[piece] = upper;
    Ok(piece)
}

/// Lets a piece go whose entries are all gone.
fn let_go(pieces: &mut Vec<Piece>, piece: usize)
    requires piece { piece < length pieces.old.items }
    ensures live { live (slots_in pieces.new.items) ≡ live (slots_in pieces.old.items) }
    ensures ascend { Ascend (slots_in pieces.old.items) → Ascend (slots_in pieces.new.items) }
    ensures filled { AreFilled pieces.old.items → AreFilled pieces.new.items }
    ensures others { length pieces.old.items ≤ length pieces.new.items + 1 }
{
    if pieces[piece].is_gone() {
        let _ = pieces.remove(piece);
    }
}
