//! The words that spelled paths last: one that stands again and again shares its path.
ghost use Rattle.std.specs.Prelude.{◌≡◌, Ok, Some};
ghost use Rattle.std.specs.Option.{ForSome};
ghost use Rattle.assise_fault_script.specs.Calls.{path_word};
ghost use Rattle.assise_fault_script.specs.Fault.{Makes};

use crate::fault::ScriptFault;
use arrayvec::ArrayVec;
use assise_names::path::{Path, PathFault};
use std::alloc::Global;

/// How many words are remembered.
const PLACES: usize = 16;

/// A word that was read, and its path where it was read twice.
#[derive(Drop)]
struct RecentPath<'a> {
    word: &'a str,
    path: Option<Path>,
    ghost spelled: { ForSome path (λ path. path_word word.now ≡ Ok path) },
}

impl Default for RecentPath<'_> {
    fn default() -> Self {
        RecentPath {
            word: "",
            path: None,
        }
    }
}

impl<'a> RecentPath<'a> {
    ghost use Rattle.assise_fault_script.specs.Calls.{path_word};
    ghost use Rattle.assise_fault_script.specs.Fault.{Makes};

    /// The path that a word spells, or none where memory ran out. The word is remembered in place of another.
    fn path(&mut self, alloc: Global, word: &'a str) -> Result<Option<Path>, ScriptFault>
        ensures { Makes result (path_word word.now) }
    {
        if self.word != word {
            let path = parsed(alloc, word)?;
            *self = RecentPath { word, path: None };
            return Ok(path);
        }
        if let Some(path) = shared(&self.path) {
            return Ok(Some(path));
        }
        let path = parsed(alloc, word)?;
        *self = RecentPath {
            word,
            path: shared(&path),
        };
        Ok(path)
    }
}

/// The words that were read last, each at the place that its last byte names.
#[derive(Drop)]
pub struct RecentPaths<'a> {
    places: ArrayVec<RecentPath<'a>, PLACES>,
}

impl<'a> RecentPaths<'a> {
    ghost use Rattle.assise_fault_script.specs.Calls.{path_word};
    ghost use Rattle.assise_fault_script.specs.Fault.{Makes};

    /// No word was read yet.
    pub fn new() -> RecentPaths<'a> {
        let mut places = ArrayVec::new();
        while !places.is_full() {
            places.push(RecentPath::default());
        }
        RecentPaths { places }
    }

    /// The path that a word spells, or none where memory ran out. Where the word stands for the third time or later, its path is shared.
    pub fn path(&mut self, alloc: Global, word: &'a str) -> Result<Option<Path>, ScriptFault>
        ensures { Makes result (path_word word.now) }
    {
        match self.places.get_mut(place_of(word)) {
            Some(place) => place.path(alloc, word),
            None => parsed(alloc, word),
        }
    }
}

/// The place of a word.
fn place_of(word: &str) -> usize {
    match word.as_bytes() {
        [.., last] => *last as usize % PLACES,
        [] => 0,
    }
}

/// The path, shared, or none.
fn shared(path: &Option<Path>) -> Option<Path>
    ensures { ForSome result (λ shared. path.now ≡ Some shared) }
{
    path.as_ref()?.copy().ok()
}

/// The path that a word spells, or none where memory ran out.
fn parsed(alloc: Global, word: &str) -> Result<Option<Path>, ScriptFault>
    ensures { Makes result (path_word word.now) }
{
    match Path::parse(alloc, word) {
        Ok(path) => Ok(Some(path)),
        Err(PathFault::Memory) => Ok(None),
        Err(fault) => Err(ScriptFault::BadPath(fault)),
    }
}
