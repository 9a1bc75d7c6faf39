//! Effects of a call that are made all or none.
ghost use Rattle.std.specs.Prelude.{◌≡◌, ◌++◌, ◌∷◌, [], IsOk, IsSome, OnErr, OnOk, true};
ghost use Rattle.std.specs.FinMap as map;
ghost use Rattle.std.specs.List.{list_all};
ghost use Rattle.assise_inode_table.specs.Contents.{Content};
ghost use Rattle.assise_inode_table.specs.Effects.{TakesAway, all_applied, applied, made_by, with_value};
ghost use Rattle.assise_inode_table.specs.Whole.{CanBeChangedWhole, CanBeMadeWhole, OnlyFirstAsks, OnlyTakeAway, is_link, leaves_entry, takes_away};

use crate::inode::Inode;
use crate::store::InodeStore;
use assise_names::name::Name;
use assise_record::effect::Effect;
use std::alloc::{AllocError, Global};

/// Makes the effects of a call, all of them in their order or none, without a copy of what they change. Without memory it
/// leaves all inodes as they were. Effects that only take away aren't refused.
///
/// Of the effects only the first may ask for memory; or the first makes an inode, and of the others only the first may;
/// or the last one is a link, and the others only take away: what a call plans is of these forms.
pub fn apply_all<S: InodeStore>(store: &mut S, effects: &[Effect]) -> Result<(), AllocError>
    requires whole { CanBeMadeWhole effects.now }
    ensures ok { OnOk result (S.contents store.new ≡ all_applied
        (S.contents store.old) effects.now) }
    ensures taken_away { OnlyTakeAway effects.now → IsOk result }
    ensures err { OnErr result (S.contents store.new ≡ S.contents store.old) }
    ensures setting { S.setting store.new ≡ S.setting store.old }
{
    let [first, rest @ ..] = effects else {
        return Ok(());
    };
    match made_by(store.allocator(), first) {
        Some(made) => apply_making(store, first.touches(), made, rest),
        None => apply_changes(store, effects),
    }
}

/// Gives a number the inode that was made for it, and makes the effects behind it. Where one is refused, the number
/// has again what it had.
fn apply_making<S: InodeStore>(
    store: &mut S,
    inode: u64,
    made: Inode,
    rest: &[Effect],
) -> Result<(), AllocError>
    requires asks { OnlyFirstAsks rest.now }
    ensures ok { OnOk result (S.contents store.new ≡ all_applied
        (map.insert (S.contents store.old) inode made) rest.now) }
    ensures err { OnErr result (S.contents store.new ≡ S.contents store.old) }
    ensures setting { S.setting store.new ≡ S.setting store.old }
{
    let had = store.insert(inode, made)?;
    if let Err(refusal) = apply_in_order(store, rest) {
        put_value(store, inode, had);
        return Err(refusal);
    }
    Ok(())
}

/// Makes effects of which the first makes no inode: with their last one first where that is a link, and else in order.
fn apply_changes<S: InodeStore>(store: &mut S, effects: &[Effect]) -> Result<(), AllocError>
    requires whole { CanBeChangedWhole effects.now }
    ensures ok { OnOk result (S.contents store.new ≡ all_applied
        (S.contents store.old) effects.now) }
    ensures taken_away { OnlyTakeAway effects.now → IsOk result }
    ensures err { OnErr result (S.contents store.new ≡ S.contents store.old) }
    ensures setting { S.setting store.new ≡ S.setting store.old }
{
    let [before @ .., last] = effects else {
        return Ok(());
    };
    if is_link(last) && only_take_away(before) {
        apply_link_first(store, before, last)
    } else {
        apply_in_order(store, effects)
    }
}

/// Makes effects in order, of which only the first may be refused.
fn apply_in_order<S: InodeStore>(store: &mut S, effects: &[Effect]) -> Result<(), AllocError>
    requires asks { OnlyFirstAsks effects.now }
    ensures ok { OnOk result (S.contents store.new ≡ all_applied
        (S.contents store.old) effects.now) }
    ensures taken_away { OnlyTakeAway effects.now → IsOk result }
    ensures err { OnErr result (S.contents store.new ≡ S.contents store.old) }
    ensures setting { S.setting store.new ≡ S.setting store.old }
{
    let [first, rest @ ..] = effects else {
        return Ok(());
    };
    store.apply(first)?;
    for effect in rest {
        take_away(store, effect);
    }
    Ok(())
}

/// Makes a link, and then the effects that stand before it, which take no memory. One that takes out the very entry
/// of the link is passed over, since the link stands in its place by then.
fn apply_link_first<S: InodeStore>(
    store: &mut S,
    before: &[Effect],
    link: &Effect,
) -> Result<(), AllocError>
    requires links { is_link link.now ≡ true }
    requires take_away { OnlyTakeAway before.now }
    ensures ok { OnOk result (S.contents store.new ≡ all_applied (S.contents store.old)
        (before.now ++ link.now ∷ [])) }
    ensures err { OnErr result (S.contents store.new ≡ S.contents store.old) }
    ensures setting { S.setting store.new ≡ S.setting store.old }
{
    let Effect::Link {
        directory,
        name,
        ..
    } = link
    else {
        unreachable!()
    };
    store.apply(link)?;
    for effect in before {
        if leaves_entry(*directory, name, effect) {
            take_away(store, effect);
        }
    }
    Ok(())
}

/// Makes an effect that only takes away, for which no memory is needed.
fn take_away<S: InodeStore>(store: &mut S, effect: &Effect)
    requires takes_away { TakesAway effect.now }
    ensures applied { S.contents store.new ≡ applied (S.contents store.old) effect.now }
    ensures setting { S.setting store.new ≡ S.setting store.old }
{
    if store.apply(effect).is_err() {
        unreachable!();
    }
}

/// Gives a number that has an inode another one, or takes it out. It takes no memory.
pub(crate) fn put_value<S: InodeStore>(store: &mut S, inode: u64, value: Option<Inode>)
    requires there { IsSome (map.get (S.contents store.old) inode) }
    ensures value { S.contents store.new ≡ with_value (S.contents store.old) inode value }
    ensures setting { S.setting store.new ≡ S.setting store.old }
{
    match value {
        Some(content) => {
            if store.insert(inode, content).is_err() {
                unreachable!();
            }
        }
        None => discard(store, inode),
    }
}

/// Takes the inode of a number out, if it is there, and lets it go.
pub(crate) fn discard<S: InodeStore>(store: &mut S, inode: u64)
    ensures gone { S.contents store.new ≡ map.remove (S.contents store.old) inode }
    ensures setting { S.setting store.new ≡ S.setting store.old }
{
    store.remove(inode);
}

/// The inode that an effect makes, if it makes one.
fn made_by(alloc: Global, effect: &Effect) -> Option<Inode>
    ensures { result ≡ made_by effect.now }
{
    match effect {
        Effect::NewFile { .. } => Some(Inode::new_file(alloc)),
        Effect::NewDir { .. } => Some(Inode::new_directory(alloc)),
        _ => None,
    }
}

/// Whether an effect makes an entry of a directory.
fn is_link(effect: &Effect) -> bool
    ensures { result ≡ is_link effect.now }
{
    matches!(effect, Effect::Link { .. })
}

/// Whether an effect takes away what is there.
fn takes_away(effect: &Effect) -> bool
    ensures { result ≡ takes_away effect.now }
{
    matches!(effect, Effect::Unlink { .. } | Effect::Free { .. })
}

/// Whether each effect takes away what is there.
fn only_take_away(effects: &[Effect]) -> bool
    ensures { result ≡ list_all takes_away effects.now }
{
    effects.iter().all(|effect| takes_away(effect))
}

/// Whether an effect doesn't take this very entry out.
fn leaves_entry(directory: u64, name: &Name, effect: &Effect) -> bool
    ensures { result ≡ leaves_entry directory name.now effect.now }
{
    match effect {
        Effect::Unlink {
            directory: changed,
            name: gone,
        } => *changed != directory || gone != name,
        _ => true,
    }
}
