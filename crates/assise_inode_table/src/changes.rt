//! What a few inodes become by effects, made on copies of them and put in all or none.
ghost use Rattle.std.specs.Prelude.{◌≡◌, ◌||◌, ◌<◌, ◌==◌, [], ◌∷◌, IfOk, IsOkUnless, MatchOption, None, OnErr, OnOk, Option, false, if◌then◌else◌, is_some, length, option_copied, slice_index, ℕ};
ghost use Rattle.std.specs.FinMap as map;
ghost use Rattle.assise_inode_table.specs.Changes.{AreDistinctChanges, IsPlace, Lacks, found, is_among, placed, placed_one, map_without};
ghost use Rattle.assise_inode_table.specs.Contents.{Content};
ghost use Rattle.assise_inode_table.specs.Effects.{all_applied, contains, effect_on, touched, value_after};
ghost use Rattle.assise_names.specs.declared.refusal.Refusal.TheVariants.{OutOfMemory};
ghost use Rattle.assise_record.specs.Touched.{touched_by};

use crate::inode::Inode;
use crate::inodes::Inodes;
use crate::store::InodeStore;
use crate::whole::{discard, put_value};
use assise_names::refusal::Refusal;
use assise_record::effect::Effect;
use std::alloc::{AllocError, Global};

/// What an inode becomes.
#[derive(Debug, Drop)]
pub struct Change {
    /// The inode.
    pub inode: u64,
    /// What it holds, or that it is gone.
    pub value: Option<Inode>,
}

/// The place of the change of an inode.
pub(crate) fn place_of(changes: &[Change], inode: u64) -> Option<usize>
    ensures { MatchOption result (Lacks changes.now inode) (λ p. IsPlace changes.now p inode) }
{
    for (place, change) in changes.iter().enumerate() {
        if change.inode == inode {
            return Some(place);
        }
    }
    None
}

/// Makes of a value what an effect makes of it.
fn change_value(alloc: Global, value: &mut Option<Inode>, effect: &Effect) -> Result<(), AllocError>
    ensures ok { OnOk result (value.new ≡ effect_on value.old effect.now) }
{
    match effect {
        Effect::NewFile { .. } => *value = Some(Inode::new_file(alloc)),
        Effect::NewDir { .. } => *value = Some(Inode::new_directory(alloc)),
        Effect::Free { .. } => *value = None,
        change => {
            if let Some(inode) = value {
                inode.change(change)?;
            }
        }
    }
    Ok(())
}

/// An equal value.
fn copy_of(alloc: Global, value: Option<&Inode>) -> Result<Option<Inode>, Refusal>
    ensures equal { IfOk result (λ copied. copied ≡ option_copied value.entry) }
    ensures only_memory { IsOkUnless result OutOfMemory }
{
    match value {
        Some(inode) => Ok(Some(inode.copy(alloc)?)),
        None => Ok(None),
    }
}

/// The place of an inode's change. Where there is none, the inode is put behind the others as it is.
fn put_in<I: Inodes>(
    alloc: Global,
    base: &I,
    changes: &mut Vec<Change>,
    inode: u64,
) -> Result<usize, Refusal>
    requires distinct { AreDistinctChanges changes.old.items }
    ensures distinct { OnOk result (AreDistinctChanges changes.new.items) }
    ensures place { IfOk result (λ p. IsPlace changes.new.items p inode) }
    ensures among { OnOk result ((i : ℕ) → is_among changes.new.items i ≡
        ((inode == i) || is_among changes.old.items i)) }
    ensures values { OnOk result ((i : ℕ) → found changes.new.items i
        (map.get (I.contents base.now) i) ≡ found changes.old.items i
        (map.get (I.contents base.now) i)) }
    ensures only_memory { IsOkUnless result OutOfMemory }
{
    if let Some(place) = place_of(changes, inode) {
        return Ok(place);
    }
    let value = copy_of(alloc, base.get(inode))?;
    let place = changes.len();
    changes.push(Change { inode, value })?;
    Ok(place)
}

/// Makes an effect.
fn make<I: Inodes>(
    alloc: Global,
    base: &I,
    changes: &mut Vec<Change>,
    effect: &Effect,
) -> Result<(), Refusal>
    requires distinct { AreDistinctChanges changes.old.items }
    ensures distinct { OnOk result (AreDistinctChanges changes.new.items) }
    ensures values { OnOk result ((i : ℕ) → found changes.new.items i
        (map.get (I.contents base.now) i) ≡ value_after i
        (found changes.old.items i (map.get (I.contents base.now) i)) (effect.now ∷ [])) }
    ensures among { OnOk result ((i : ℕ) → is_among changes.new.items i ≡
        ((touched_by effect.now == i) || is_among changes.old.items i)) }
    ensures only_memory { IsOkUnless result OutOfMemory }
{
    let place = put_in(alloc, base, changes, effect.touches())?;
    let change = &mut changes[place];
    Ok(change_value(alloc, &mut change.value, effect)?)
}

/// What the inodes that effects touch become by them, each once. The inodes themselves stay as they are; each that is
/// touched is copied. The one refusal is [`Refusal::OutOfMemory`].
pub fn changes_over<I: Inodes>(
    alloc: Global,
    base: &I,
    effects: &[Effect],
) -> Result<Vec<Change>, Refusal>
    ensures distinct { IfOk result (λ cs. AreDistinctChanges cs.items) }
    ensures values { IfOk result (λ cs. (i : ℕ) →
        found cs.items i (map.get (I.contents base.now) i) ≡ value_after i
        (map.get (I.contents base.now) i) effects.now) }
    ensures among { IfOk result (λ cs. (i : ℕ) →
        is_among cs.items i ≡ contains (touched effects.now) i) }
    ensures only_memory { IsOkUnless result OutOfMemory }
{
    let mut changes = Vec::new(alloc);
    for effect in effects {
        make(alloc, base, &mut changes, effect)?;
    }
    Ok(changes)
}

/// Sees that an inode is there: one that isn't is an empty file for now, and is noted. Without those that are noted, all
/// inodes are as they were.
fn make_place<S: InodeStore>(
    store: &mut S,
    made: &mut Vec<u64>,
    inode: u64,
) -> Result<(), AllocError>
    ensures ok { OnOk result (S.contents store.new ≡ placed_one (S.contents store.old) inode) }
    ensures noted { map_without (S.contents store.new) made.new.items ≡ map_without
        (S.contents store.old) made.old.items }
    ensures setting { S.setting store.new ≡ S.setting store.old }
{
    if store.get(inode).is_some() {
        return Ok(());
    }
    made.push(inode)?;
    store.insert(inode, Inode::new_file(store.allocator()))?;
    Ok(())
}

/// Takes inodes out.
fn take_out<S: InodeStore>(store: &mut S, mut inodes: Vec<u64>)
    ensures gone { S.contents store.new ≡ map_without (S.contents store.old) inodes.items }
    ensures setting { S.setting store.new ≡ S.setting store.old }
{
    while let Some(inode) = inodes.pop() {
        discard(store, inode);
    }
}

/// Sees that the inode of each change is there, so that none of the changes asks for memory.
fn make_places<S: InodeStore>(store: &mut S, changes: &[Change]) -> Result<(), AllocError>
    ensures ok { OnOk result (S.contents store.new ≡ placed (S.contents store.old) changes.now) }
    ensures err { OnErr result (S.contents store.new ≡ S.contents store.old) }
    ensures setting { S.setting store.new ≡ S.setting store.old }
{
    let mut made = Vec::new(store.allocator());
    for change in changes {
        if let Err(refusal) = make_place(store, &mut made, change.inode) {
            take_out(store, made);
            return Err(refusal);
        }
    }
    Ok(())
}

/// Puts changes in, all of them or none: each of the inodes becomes what its change says, and no other changes. Without
/// memory it leaves all inodes as they were.
pub fn put_all<S: InodeStore>(store: &mut S, mut changes: Vec<Change>) -> Result<(), AllocError>
    requires distinct { AreDistinctChanges changes.items }
    ensures ok { OnOk result ((i : ℕ) → map.get (S.contents store.new) i ≡ found changes.items i
        (map.get (S.contents store.old) i)) }
    ensures err { OnErr result (S.contents store.new ≡ S.contents store.old) }
    ensures setting { S.setting store.new ≡ S.setting store.old }
{
    make_places(store, changes.as_slice())?;
    while let Some(change) = changes.pop() {
        put_value(store, change.inode, change.value);
    }
    Ok(())
}

/// Makes any effects, all of them in their order or none, at the cost of a copy of each inode that they touch. The one
/// refusal is [`Refusal::OutOfMemory`], and it leaves all inodes as they were.
pub fn apply_all_on_copies<S: InodeStore>(store: &mut S, effects: &[Effect]) -> Result<(), Refusal>
    ensures ok { OnOk result (S.contents store.new ≡ all_applied
        (S.contents store.old) effects.now) }
    ensures err { OnErr result (S.contents store.new ≡ S.contents store.old) }
    ensures setting { S.setting store.new ≡ S.setting store.old }
    ensures only_memory { IsOkUnless result OutOfMemory }
{
    let changes = changes_over(store.allocator(), store, effects)?;
    Ok(put_all(store, changes)?)
}
