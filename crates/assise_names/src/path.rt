//! A path from the root.
ghost use Rattle.std.specs.Prelude.{All, ◌≡◌, ◌==◌, ◌+◌, ◌<◌, ◌≤◌, ◌↔◌, [], ◌∷◌, IfErr, IfOk, IsOk, IsOkUnless, IsTrue, List, MatchResult, Some, count_by, length, min, ℕ};
ghost use Rattle.std.proofs.Common.{rules};
ghost use Rattle.std.specs.Cmp.Rules.{comparing};
ghost use Rattle.std.specs.List.{slice_split};
ghost use Rattle.std.specs.Cmp.Lexicographic.{pointwise};
ghost use Rattle.std.specs.Ordering.{on};
ghost use Rattle.assise_names.specs.Name.{is_name};
ghost use Rattle.assise_names.specs.Path.{GivesPath, GivesNames, IsProperPrefix, SpellsPath, name_count, is_proper_prefix, no_deeper, path_behind, path_of, path_of_pieces, names_behind, path_spelling, pieces_as_names, with_prefix};
ghost use Rattle.assise_names.specs.Text.{path_fault_text};
ghost use Rattle.assise_names.specs.declared.path.PathFault.{PathFault};

use crate::name::{Name, check};
use std::alloc::{AllocError, AllocFailed, Global};
use std::error::Error;
use std::fmt;
use std::fmt::{Display, Formatter};
use std::marker::Model;
use std::sync::{Arc, ArcSlice};

/// The most names of a path.
pub const MOST_NAMES: usize = 32;

/// Why a text is no path: the first fault that is found.
#[derive(Clone, Copy, PartialEq, Eq, Debug)]
pub enum PathFault {
    /// It doesn't begin with a slash.
    NotAbsolute,
    /// Two slashes stand together, or one at the end of a text that is more than a slash.
    EmptyName,
    /// A name has a NUL or, given alone, a slash; or it is `.` or `..`.
    BadName,
    /// A name has more than 255 bytes.
    NameTooLong,
    /// It has more than 32 names.
    TooDeep,
    /// No memory was to be had.
    Memory,
}

impl Display for PathFault {
    ghost output = { λ fault. Some (path_fault_text fault) };

    fn fmt<W: fmt::Write>(&self, f: &mut Formatter<W>) -> fmt::Result {
        f.write_str(match self {
            PathFault::NotAbsolute => "not absolute",
            PathFault::EmptyName => "empty name",
            PathFault::BadName => "bad name",
            PathFault::NameTooLong => "name too long",
            PathFault::TooDeep => "too deep",
            PathFault::Memory => "out of memory",
        })
    }
}

impl Error for PathFault {}

impl From<AllocError> for PathFault {
    ghost use Rattle.std.specs.Prelude.{◌≡◌};
    ghost use Rattle.assise_names.specs.declared.path.PathFault.TheVariants.{Memory};

    ghost from_gives = { λ _ fault. fault ≡ Memory };

    fn from(_error: AllocError) -> PathFault {
        PathFault::Memory
    }
}

impl<T: Drop> From<AllocFailed<T>> for PathFault {
    ghost use Rattle.std.specs.Prelude.{◌≡◌};
    ghost use Rattle.assise_names.specs.declared.path.PathFault.TheVariants.{Memory};

    ghost from_gives = { λ _ fault. fault ≡ Memory };

    fn from(_error: AllocFailed<T>) -> PathFault {
        PathFault::Memory
    }
}

/// Up to 32 names from the root, the outermost first. The root has none. Copies of a path share its names.
#[derive(Debug)]
pub struct Path {
    names: PathNames,
}

/// The names of a path, shared by its copies. Up to three lie beside the count of those that share them.
#[derive(Debug)]
pub(crate) enum PathNames {
    /// No names.
    Root,
    /// One name.
    One(Arc<[Name; 1]>),
    /// Two names.
    Two(Arc<[Name; 2]>),
    /// Three names.
    Three(Arc<[Name; 3]>),
    /// More names.
    More(ArcSlice<Name>),
}

// One call lets go of them, wherever they are owned.
impl Drop for PathNames {
    fn drop(self) {
        match self {
            PathNames::Root
            | PathNames::One(_)
            | PathNames::Two(_)
            | PathNames::Three(_)
            | PathNames::More(_) => (),
        }
    }
}

// One call lets go of it, wherever it is owned.
impl Drop for Path {
    fn drop(self) {
        let Path { names: _ } = self;
    }
}

impl Model for Path {
    ghost use Rattle.std.specs.Prelude.{List, ℕ, ◌≤◌, length};
    ghost use Rattle.assise_names.specs.Path.{IsShared, names_in};

    ghost Value = { List (List ℕ) };

    ghost view = { λ p. names_in p.names };

    ghost invariant = { λ p. (length (names_in p.names) ≤ 32) × IsShared p.names };
}

impl Path {
    /// The path that a text spells: a slash before each name, or one slash alone for the root. The faults are
    /// looked for in this order: [`PathFault::NotAbsolute`]; then the names from the left, each for
    /// [`PathFault::EmptyName`], [`PathFault::NameTooLong`] and [`PathFault::BadName`]; then
    /// [`PathFault::TooDeep`]. A text with a fault is answered by it where memory is wanting too, and the root takes
    /// no memory.
    pub fn parse(alloc: Global, text: &str) -> Result<Path, PathFault>
        ensures first_fault { GivesPath result (path_of text.now) }
        ensures faults { (fault : PathFault) → path_of text.now ≡ Err fault → result ≡ Err fault }
        ensures memory { result ≡ Err PathFault.Memory → IsOk (path_of text.now) }
        ensures root { text.now ≡ path_spelling [] → IsOk result }
        ensures spelled { IfOk result (SpellsPath text.now) }
        ensures complete { (path : List (List ℕ)) → SpellsPath text.now path →
            IsOkUnless result PathFault.Memory }
    {
        path_of(alloc, text)
    }

    /// Whether a text spells a path, or its first fault. It takes no memory.
    pub fn check(text: &str) -> Result<(), PathFault>
        ensures spells { IsOk result ↔ IsOk (path_of text.now) }
        ensures first_fault { IfErr result (λ fault. path_of text.now ≡ Err fault) }
    {
        let Some(rest) = text.strip_prefix('/') else {
            return Err(PathFault::NotAbsolute);
        };
        if count_names(rest)? > MOST_NAMES {
            return Err(PathFault::TooDeep);
        }
        Ok(())
    }

    /// The names, the outermost first.
    pub fn names(&self) -> &[Name]
        ensures names { result.now ≡ self.now }
        ensures depth { length self.now ≤ 32 }
    {
        match &self.names {
            PathNames::Root => &[],
            PathNames::One(names) => names.as_slice(),
            PathNames::Two(names) => names.as_slice(),
            PathNames::Three(names) => names.as_slice(),
            PathNames::More(names) => names.as_slice(),
        }
    }

    /// Whether the other path goes on from this one by at least a name.
    pub fn is_front_of(&self, other: &Path) -> bool
        ensures exact { result ≡ is_proper_prefix self.now other.now }
        ensures prefix { IsTrue result ↔ IsProperPrefix self.now other.now }
    {
        let names = self.names();
        let others = other.names();
        names.len() < others.len() && others.starts_with(names)
    }

    /// An equal value. It takes no memory, and fails only where the count of those that share the names is full. The root's
    /// copy is never refused.
    pub fn copy(&self) -> Result<Path, AllocError>
        ensures equal { IfOk result (λ copied. copied ≡ self.now) }
        ensures root { length self.now ≡ 0 → IsOk result }
    {
        match &self.names {
            PathNames::Root => Ok(Path {
                names: PathNames::Root,
            }),
            PathNames::One(names) => Ok(Path {
                names: PathNames::One(Arc::try_clone(names)?),
            }),
            PathNames::Two(names) => Ok(Path {
                names: PathNames::Two(Arc::try_clone(names)?),
            }),
            PathNames::Three(names) => Ok(Path {
                names: PathNames::Three(Arc::try_clone(names)?),
            }),
            PathNames::More(names) => Ok(Path {
                names: PathNames::More(names.clone()?),
            }),
        }
    }
}

impl PartialEq for Path {
    ghost eq = { on (λ p. p) (pointwise (pointwise ◌==◌)) };

    ghost laws = { Prim.search (comparing, rules) };

    fn eq(&self, other: &Path) -> bool {
        self.names() == other.names()
    }
}

impl Eq for Path {
    ghost laws = { Prim.search (comparing, rules) };
}

/// The path that a text spells, or its first fault. Where memory is refused, the text is looked through for a fault first.
fn path_of(alloc: Global, text: &str) -> Result<Path, PathFault>
    ensures first_fault { GivesPath result (path_of text.now) }
    ensures faults { (fault : PathFault) → path_of text.now ≡ Err fault → result ≡ Err fault }
    ensures memory { result ≡ Err PathFault.Memory → IsOk (path_of text.now) }
    ensures root { text.now ≡ path_spelling [] → IsOk result }
    ensures spelled { IfOk result (SpellsPath text.now) }
{
    let Some(rest) = text.strip_prefix('/') else {
        return Err(PathFault::NotAbsolute);
    };
    match path_behind(alloc, rest) {
        Ok(path) => Ok(path),
        Err(PathFault::Memory) => {
            Path::check(text)?;
            Err(PathFault::Memory)
        }
        Err(fault) => Err(fault),
    }
}

/// The path of the names that stand between slashes, or the root where there is no text.
fn path_behind(alloc: Global, text: &str) -> Result<Path, PathFault>
    ensures first_fault { GivesPath result (path_behind text.now) }
    ensures none { length text.now ≡ 0 → IsOk result }
    ensures lawful { IfOk result (λ path. All (λ name. IsTrue (is_name name)) path) }
{
    if text.is_empty() {
        return Ok(Path {
            names: PathNames::Root,
        });
    }
    let Some((first, rest)) = text.split_once('/') else {
        return path_of_one(alloc, text);
    };
    let Some((second, last)) = rest.split_once('/') else {
        return path_of_two(alloc, first, rest);
    };
    let Some((third, more)) = last.split_once('/') else {
        return path_of_three(alloc, first, second, last);
    };
    path_of_many(alloc, first, second, third, more)
}

/// The path of one name.
fn path_of_one(alloc: Global, text: &str) -> Result<Path, PathFault>
    ensures first_fault { GivesPath result (path_of_pieces (text.now ∷ [])) }
    ensures lawful { IfOk result (λ path. All (λ name. IsTrue (is_name name)) path) }
{
    let name = Name::parse(alloc, text)?;
    Ok(Path {
        names: PathNames::One(Arc::new(alloc, [name])?),
    })
}

/// The path of two names.
fn path_of_two(alloc: Global, text: &str, next: &str) -> Result<Path, PathFault>
    ensures first_fault { GivesPath result (path_of_pieces (text.now ∷ next.now ∷ [])) }
    ensures lawful { IfOk result (λ path. All (λ name. IsTrue (is_name name)) path) }
{
    let first = Name::parse(alloc, text)?;
    let second = Name::parse(alloc, next)?;
    Ok(Path {
        names: PathNames::Two(Arc::new(alloc, [first, second])?),
    })
}

/// The path of three names.
fn path_of_three(alloc: Global, text: &str, next: &str, last: &str) -> Result<Path, PathFault>
    ensures first_fault { GivesPath result
        (path_of_pieces (text.now ∷ next.now ∷ last.now ∷ [])) }
    ensures lawful { IfOk result (λ path. All (λ name. IsTrue (is_name name)) path) }
{
    let first = Name::parse(alloc, text)?;
    let second = Name::parse(alloc, next)?;
    let third = Name::parse(alloc, last)?;
    Ok(Path {
        names: PathNames::Three(Arc::new(alloc, [first, second, third])?),
    })
}

/// The path of three names and those that stand between the slashes of a text.
fn path_of_many(
    alloc: Global,
    first: &str,
    second: &str,
    third: &str,
    rest: &str,
) -> Result<Path, PathFault>
    ensures first_fault { GivesPath result (path_of_pieces
        (first.now ∷ second.now ∷ third.now ∷ slice_split (λ b. b == 47) rest.now)) }
    ensures lawful { IfOk result (λ path. All (λ name. IsTrue (is_name name)) path) }
{
    let mut names = Vec::with_capacity(alloc, room_for_path(rest))?;
    for piece in [first, second, third] {
        names.push(Name::parse(alloc, piece)?)?;
    }
    push_names(alloc, &mut names, rest)?;
    path_of_names(names)
}

/// The path of these names, unless they are too many.
fn path_of_names(names: Vec<Name>) -> Result<Path, PathFault>
    requires { 0 < length names.items }
    ensures first_fault { GivesPath result (no_deeper names.items) }
{
    if names.len() > MOST_NAMES {
        return Err(PathFault::TooDeep);
    }
    Ok(Path {
        names: PathNames::More(ArcSlice::from_vec(names)?),
    })
}

/// How many names stand between slashes, or the first fault of one. There is none where there is no text.
fn count_names(text: &str) -> Result<usize, PathFault>
    ensures { result ≡ name_count (names_behind text.now) }
{
    if text.is_empty() {
        return Ok(0);
    }
    let mut count = 0;
    let mut rest = text;
    while let Some((piece, more)) = rest.split_once('/') {
        check(piece)?;
        count += 1;
        rest = more;
    }
    check(rest)?;
    Ok(count + 1)
}

/// How many names a path gets room for whose fourth name begins this text: four more than the text has slashes, and 32 at most.
fn room_for_path(text: &str) -> usize
    ensures { result ≡ min (count_by (λ b. b == 47) text.now) 28 + 4 }
{
    let slashes = text.as_bytes().iter().filter(|byte| **byte == b'/').count();
    slashes.min(MOST_NAMES - 4) + 4
}

/// Pushes the names that stand between the slashes of a text, from the left.
fn push_names(alloc: Global, names: &mut Vec<Name>, text: &str) -> Result<(), PathFault>
    ensures first_fault { GivesNames (λ _. names.new.items) result
        (with_prefix names.old.items (pieces_as_names (slice_split (λ b. b == 47) text.now))) }
    ensures some { IfOk result (λ _. 0 < length names.new.items) }
    ensures lawful { All (λ name. IsTrue (is_name name)) names.old.items →
        IfOk result (λ _. All (λ name. IsTrue (is_name name)) names.new.items) }
{
    let mut rest = text;
    while let Some((piece, more)) = rest.split_once('/') {
        names.push(Name::parse(alloc, piece)?)?;
        rest = more;
    }
    names.push(Name::parse(alloc, rest)?)?;
    Ok(())
}

impl Display for Path {
    ghost output = { λ path. Some (path_spelling path) };

    fn fmt<W: fmt::Write>(&self, f: &mut Formatter<W>) -> fmt::Result {
        let names = self.names();
        if names.is_empty() {
            return write!(f, "/");
        }
        for name in names {
            write!(f, "/{name}")?;
        }
        Ok(())
    }
}
