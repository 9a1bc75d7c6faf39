//! The inodes of a node: the recently used ones in a hot part, the others in a cold one.
ghost use Rattle.std.specs.Prelude.{◌≡◌, ◌≤◌, ◌<◌, ℕ, IfOk, IsOk, None, OnErr, OnOk, length, nat_eq, option_copied, option_map};
ghost use Rattle.std.specs.FinMap as map;
ghost use Rattle.std.specs.List.{IsDistinct};
ghost use Rattle.std.specs.Option.{option_or};
ghost use Rattle.assise_area.specs.Hot.{IsTouched, after_effect, is_hot, removed, with_capacity, with_inodes, without_inodes};
ghost use Rattle.assise_inode_table.specs.Effects.{AsksForMemory, TakesAway, all_applied, changed, with_value};
ghost use Rattle.assise_inode_table.specs.Whole.{CanBeMadeWhole, OnlyTakeAway};
ghost use Rattle.assise_record.specs.Touched.{touched_by};

use crate::cooling::cool;
use crate::moves::warm;
use crate::parts::{change_cold, hot_places, see_order};
use crate::settled::put_all_reserved;
use assise_inode_table::inode::Inode;
use assise_inode_table::inodes::Inodes;
use assise_inode_table::store::InodeStore;
use assise_inode_table::table::InodeTable;
use assise_inode_table::whole::apply_all;
use assise_record::effect::Effect;
use indexmap::IndexMap;
use lru::LruCache;
use std::alloc::{AllocError, Global};
use std::marker::Model;
use std::mem;

/// The most inodes that may be hot.
pub const MOST_HOT: usize = 4096;

/// The inodes of a node, each of them in the hot part or in the cold one. What was used last is hot (Assise, OSDI 2020,
/// section 3). A contract sees all inodes as one finite map, the numbers of the hot ones by their last use, the most
/// recent first, and how many may be hot. A look-up costs the same on average, however many inodes there are.
pub struct Area {
    alloc: Global,
    hot: LruCache<u64, Inode>,
    cold: IndexMap<u64, Inode>,
}

// One call lets go of it, wherever it is owned.
impl Drop for Area {
    fn drop(self) {
        let Area {
            alloc: _,
            hot: _,
            cold: _,
        } = self;
    }
}

impl Model for Area {
    ghost use Rattle.assise_area.specs.Hot.{AreaValue, coded_area};
    ghost use Rattle.assise_area.specs.Parts.{AreaInvariant, area_seen};

    ghost Value = { AreaValue };

    ghost coded = { coded_area };

    ghost view = { λ a. area_seen a.hot a.cold.entries };

    ghost invariant = { λ a. AreaInvariant a.hot a.cold.entries };
}

impl Area {
    ghost use Rattle.std.specs.Prelude.{⊤};
    ghost use Rattle.std.specs.Borrow.{sem, follows_so};
    ghost use mathlib.Core.Option.{none};
    ghost use Rattle.assise_area.specs.contracts.area.Area.{the_row};

    /// An area without inodes, of which 1 to 4,096 may be hot.
    pub fn new(alloc: Global, capacity: usize) -> Result<Area, AllocError>
        requires least { 1 ≤ capacity }
        requires most { capacity ≤ 4096 }
        ensures empty { IfOk result (λ area. area ≡ without_inodes capacity) }
    {
        let hot = LruCache::sparse(alloc, hot_places(capacity))?;
        Ok(Area {
            alloc,
            hot,
            cold: IndexMap::new(alloc),
        })
    }

    /// How many inodes may be hot.
    pub fn hot_capacity(&self) -> usize
        ensures value { result ≡ self.now.capacity }
        ensures least { 1 ≤ result }
        ensures most { result ≤ 4096 }
    {
        self.hot.cap().get()
    }

    /// Sets how many inodes may be hot, from 1 to 4,096. Of more hot inodes the longest unused ones are cold then, and the
    /// others are hot as before. No inode changes. It asks for memory where more were hot than may be; without it, it
    /// leaves the area as it was.
    pub fn set_hot_capacity(&mut self, capacity: usize) -> Result<(), AllocError>
        requires least { 1 ≤ capacity }
        requires most { capacity ≤ 4096 }
        ensures ok { OnOk result (self.new ≡ with_capacity self.old capacity) }
        ensures err { OnErr result (self.new ≡ self.old) }
        ensures asked { OnErr result (capacity < length self.old.hot) }
        ensures smaller { OnErr result (capacity < self.old.capacity) }
    {
        cool(self.alloc, &mut self.hot, &mut self.cold, capacity)?;
        self.hot.resize(hot_places(capacity));
        Ok(())
    }

    /// How many inodes are hot: each once, and no more than may be.
    pub fn hot_count(&self) -> usize
        ensures value { result ≡ length self.now.hot }
        ensures within { length self.now.hot ≤ self.now.capacity }
        ensures once { IsDistinct nat_eq self.now.hot }
    {
        self.hot.len()
    }

    /// Whether an inode is hot.
    pub fn is_hot(&self, inode: u64) -> bool
        ensures { result ≡ is_hot self.now inode }
    {
        self.hot.contains(&inode)
    }

    /// The inode of a number, if there is one. Nothing moves.
    pub fn peek(&self, inode: u64) -> Option<&Inode>
        ensures { option_copied result ≡ map.get self.now.inodes inode }
    {
        match self.hot.peek(&inode) {
            Some(held) => Some(held),
            None => self.cold.get(&inode),
        }
    }

    /// Uses an inode: it comes first among the hot ones, and of more than may be hot the longest unused one is cold then.
    /// An inode that is hot already needs no memory for that; where it runs out for a cold one nothing moves. Nor does
    /// anything where the number has no inode. No inode changes.
    pub fn touch(&mut self, inode: u64)
        ensures { IsTouched self.old inode self.new }
    {
        see_order(&self.hot);
        if self.hot.promote(&inode) {
            return;
        }
        if !self.cold.contains_key(&inode) {
            return;
        }
        let _ = warm(self.alloc, &mut self.hot, &mut self.cold, inode);
    }

    /// The inode of a number, if there is one, which is used by that (see [`Area::touch`]). It is there whether it becomes
    /// hot or not.
    pub fn get(&mut self, inode: u64) -> Option<&Inode>
        ensures* used { sem 𝓛 (follows_so the_row the_row self.entry.ghost_name none (λ _ _. ⊤)
            (λ n. IsTouched self.old inode n)) }
        ensures value { option_copied result ≡ map.get self.old.inodes inode }
    {
        self.touch(inode);
        self.peek(inode)
    }

    /// Gives a number an inode, and gives back the one that it had. What was hot is hot as before, and a new inode is cold.
    /// It asks for memory where the number had none; without it, it leaves the area as it was.
    pub fn put(&mut self, inode: u64, content: Inode) -> Result<Option<Inode>, AllocError>
        ensures ok { OnOk result (self.new ≡ with_inodes self.old
            (map.insert self.old.inodes inode content)) }
        ensures replaced { IfOk result (λ had. had ≡ map.get self.old.inodes inode) }
        ensures err { OnErr result (self.new ≡ self.old) }
        ensures asked { OnErr result (map.get self.old.inodes inode ≡ None) }
    {
        let Some(held) = self.hot.peek_mut(&inode) else {
            return Ok(self.cold.insert(inode, content)?);
        };
        Ok(Some(mem::replace(held, content)))
    }

    /// Moves all inodes of a table in, or none: each stands in place of what its number had. What was hot is hot as before,
    /// and a new inode is cold. It asks for memory where there is an inode to move: it leaves the area and the table as
    /// they were.
    pub fn put_all(&mut self, inodes: &mut InodeTable) -> Result<(), AllocError>
        ensures values { OnOk result ((i : ℕ) → map.get self.new.inodes i ≡ option_or
            (map.get inodes.old i) (map.get self.old.inodes i)) }
        ensures moved { OnOk result (inodes.new ≡ map.empty) }
        ensures hot { self.new.hot ≡ self.old.hot }
        ensures capacity { self.new.capacity ≡ self.old.capacity }
        ensures err { OnErr result (self.new ≡ self.old) }
        ensures kept { OnErr result (inodes.new ≡ inodes.old) }
        ensures asked { OnErr result (0 < map.len inodes.old) }
    {
        self.cold.reserve(inodes.len())?;
        put_all_reserved(&mut self.hot, &mut self.cold, inodes);
        Ok(())
    }

    /// Takes the inode of a number out, if it is there.
    pub fn remove(&mut self, inode: u64) -> Option<Inode>
        ensures removed { result ≡ map.get self.old.inodes inode }
        ensures others { self.new ≡ removed self.old inode }
    {
        see_order(&self.hot);
        match self.hot.pop(&inode) {
            Some(content) => Some(content),
            None => self.cold.swap_remove(&inode),
        }
    }

    /// Makes an effect: a new file or directory stands in place of what its number had, a freed inode is gone, and each
    /// other effect changes the inode that it touches, where there is one of its kind. No other inode changes, and none
    /// becomes hot. It asks for memory where a number that has none gets an inode, a file gets bytes or an entry gets a new
    /// name; without it, it leaves the area as it was. What only takes away takes no memory, and neither does an effect for
    /// the other kind or on an inode that isn't there.
    pub fn apply(&mut self, effect: &Effect) -> Result<(), AllocError>
        ensures ok { OnOk result (self.new ≡ after_effect self.old effect.now) }
        ensures taken_away { TakesAway effect.now → IsOk result }
        ensures err { OnErr result (self.new ≡ self.old) }
        ensures asked { OnErr result (AsksForMemory effect.now
            (map.get self.old.inodes (touched_by effect.now))) }
    {
        match effect {
            Effect::NewFile { inode } => {
                self.put(*inode, Inode::new_file(self.alloc))?;
            }
            Effect::NewDir { inode } => {
                self.put(*inode, Inode::new_directory(self.alloc))?;
            }
            Effect::Free { inode } => {
                self.remove(*inode);
            }
            change => self.change(change)?,
        }
        Ok(())
    }

    /// Makes the effects of a call, all of them in their order or none, without a copy of what they change (see
    /// [`apply_all`]). Without memory it leaves the inodes as they were.
    pub fn apply_all(&mut self, effects: &[Effect]) -> Result<(), AllocError>
        requires whole { CanBeMadeWhole effects.now }
        ensures ok { OnOk result (self.new.inodes ≡ all_applied self.old.inodes effects.now) }
        ensures taken_away { OnlyTakeAway effects.now → IsOk result }
        ensures err { OnErr result (self.new.inodes ≡ self.old.inodes) }
        ensures capacity { self.new.capacity ≡ self.old.capacity }
    {
        apply_all(self, effects)
    }

    /// Changes the inode that an effect touches, where there is one.
    fn change(&mut self, effect: &Effect) -> Result<(), AllocError>
        ensures taken_away { TakesAway effect.now → IsOk result }
        ensures ok { let inode = touched_by effect.now in let had = map.get self.old.inodes inode in
            OnOk result (self.new ≡ with_inodes self.old
            (with_value self.old.inodes inode
            (option_map (λ content. changed content effect.now) had))) }
        ensures err { OnErr result (self.new ≡ self.old) }
        ensures asked { OnErr result (AsksForMemory effect.now
            (map.get self.old.inodes (touched_by effect.now))) }
    {
        let Some(held) = self.hot.peek_mut(&effect.touches()) else {
            return change_cold(&mut self.cold, effect);
        };
        held.change(effect)?;
        Ok(())
    }
}

impl Inodes for Area {
    ghost contents = { λ area. area.inodes };

    fn get(&self, inode: u64) -> Option<&Inode> {
        self.peek(inode)
    }
}

impl InodeStore for Area {
    ghost setting = { λ area. area.capacity };

    fn allocator(&self) -> Global {
        self.alloc
    }

    fn insert(&mut self, inode: u64, content: Inode) -> Result<Option<Inode>, AllocError> {
        Area::put(self, inode, content)
    }

    fn remove(&mut self, inode: u64) -> Option<Inode> {
        Area::remove(self, inode)
    }

    fn apply(&mut self, effect: &Effect) -> Result<(), AllocError> {
        Area::apply(self, effect)
    }
}
