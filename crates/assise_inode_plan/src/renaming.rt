//! Plans of renames.
ghost use Rattle.std.specs.Prelude.{◌≡◌, ◌==◌, ◌&&◌, ◌<◌, ◌≤◌, ◌+◌, ◌++◌, IfOk, MatchResult, OnErr, OnOk, [], length, take, true, ℕ};
ghost use Rattle.std.specs.Cmp.Lexicographic.{pointwise};
ghost use Rattle.std.specs.FinMap as map;
ghost use Rattle.assise_inode_plan.specs.Moving.{effects_of_move};
ghost use Rattle.assise_inode_plan.specs.Leased.{NotesAVisit};
ghost use Rattle.assise_inode_plan.specs.Planning.{shown};
ghost use Rattle.assise_inode_plan.specs.Walking.{EndsAt, plan_from, plan_stopped};
ghost use Rattle.assise_inode_table.specs.Calls.{content_may_replace, move_to, receive, rename_call, replace_target, walk};
ghost use Rattle.assise_inode_table.specs.Contents.{Content, values};
ghost use Rattle.assise_inode_table.specs.Interaction.{Interaction, visits_of};
ghost use Rattle.assise_names.specs.declared.mode.Mode.TheVariants.{Read};
ghost use Rattle.assise_seq_tree.specs.Answer.{parent_of};
ghost use Rattle.smallvec.specs.SmallVec.{HasRoomFor};

use crate::ending::{answered, finished, stopped};
use crate::plan::{Planned, Visits};
use crate::removal::removal_effects;
use crate::view::View;
use crate::walk::{Entry, Stop, reach, walk, walk_to_entry};
use assise_inode_table::directory::Directory;
use assise_inode_table::inode::Inode;
use assise_inode_table::table::ROOT;
use assise_names::mode::Mode;
use assise_names::name::Name;
use assise_names::path::Path;
use assise_names::reply::{Reply, TreeError};
use assise_record::effect::Effect;
use assise_seq_tree::answer::MOST_ENTRIES;
use std::alloc::{AllocError, Global};

/// An entry, and the place that it is moved to.
#[derive(Clone, Copy, Debug)]
struct Move<'a> {
    /// The entry, where it is.
    from: Entry<'a>,
    /// Its name.
    name: &'a Name,
    /// The number of the directory that takes it.
    directory: u64,
    /// The name that it gets there.
    new_name: &'a Name,
}

/// Moves what stands at a path to another.
pub(crate) fn plan_rename<V: View>(
    alloc: Global,
    view: &V,
    from: &Path,
    to: &Path,
) -> Result<Planned, AllocError>
    ensures exact { IfOk result (λ p. shown p ≡ plan_from (V.leased view.now)
        (values (V.contents view.now)) [] (rename_call from.now to.now)) }
    ensures asked { OnErr result (NotesAVisit (V.leased view.now)
        (visits_of (values (V.contents view.now)) (rename_call from.now to.now))) }
{
    let mut reads = Visits::new(alloc);
    let (names, new_names) = (from.names(), to.names());
    let ([parent @ .., name], [_, ..]) = (names, new_names) else {
        return Ok(answered(alloc, Reply::Error(TreeError::Invalid), reads));
    };
    if from.is_front_of(to) {
        return Ok(answered(alloc, Reply::Error(TreeError::Invalid), reads));
    }
    make_room_for_walks(view, from, to, &mut reads)?;
    match walk_to_entry(view, parent, name, &mut reads)? {
        Ok(entry) => plan_move(alloc, view, names, new_names, &entry, reads),
        Err(stop) => Ok(stopped(alloc, stop, reads)),
    }
}

/// Makes room for the visits of both walks of a rename at once: the root and each name of the first path, then the root
/// and each name but the last of the other. Where the root isn't leased, nothing is visited.
fn make_room_for_walks<V: View>(
    view: &V,
    from: &Path,
    to: &Path,
    reads: &mut Visits,
) -> Result<(), AllocError>
    ensures same { reads.new.items ≡ reads.old.items }
    ensures room { OnOk result (V.leased view.now 0 Read ≡ true →
        HasRoomFor reads.new (length from.now + length to.now + 1)) }
    ensures asked { OnErr result (V.leased view.now 0 Read ≡ true) }
{
    if view.leases(ROOT, Mode::Read) {
        reads.reserve(from.names().len() + to.names().len() + 1)?;
    }
    Ok(())
}

/// Moves an entry that is found, the one of the first path, to the second path. Neither is the root.
fn plan_move<V: View>(
    alloc: Global,
    view: &V,
    from: &[Name],
    to: &[Name],
    entry: &Entry,
    mut reads: Visits,
) -> Result<Planned, AllocError>
    requires from { 0 < length from.now }
    requires to { 0 < length to.now }
    requires walked { EndsAt (V.leased view.now) (values (V.contents view.now)) []
        (parent_of from.now) (take entry.now.visits reads.items)
        entry.now.directory entry.now.parent.now }
    requires visits { entry.now.visits ≤ length reads.items }
    ensures exact { IfOk result (λ p. shown p ≡ plan_from (V.leased view.now)
        (values (V.contents view.now)) reads.items
        (move_to from.now to.now entry.now.directory entry.now.inode entry.now.content.now)) }
{
    let ([from_parent @ .., name], [to_parent @ .., new_name]) = (from, to) else {
        unreachable!();
    };
    let stays = from_parent == to_parent;
    let (directory, inode) = match walk_to_taker(view, stays, to_parent, entry, &mut reads)? {
        Ok(reached) => reached,
        Err(stop) => return Ok(stopped(alloc, stop, reads)),
    };
    let links = match inode.directory() {
        Ok(links) => links,
        Err(error) => return Ok(answered(alloc, Reply::Error(error), reads)),
    };
    if is_same_place(stays, name, new_name) {
        return Ok(answered(alloc, Reply::Done, reads));
    }
    let moving = Move {
        from: *entry,
        name,
        directory,
        new_name,
    };
    plan_receiving(alloc, view, &moving, stays, links, reads)
}

/// Walks to the directory that takes an entry. Where the entry stays in its directory, the visits of the walk to it are repeated.
fn walk_to_taker<'a, V: View>(
    view: &'a V,
    stays: bool,
    taker: &[Name],
    entry: &Entry<'a>,
    reads: &mut Visits,
) -> Result<Result<(u64, &'a Inode), Stop>, AllocError>
    requires walked { stays ≡ true → EndsAt (V.leased view.now) (values (V.contents view.now)) []
        taker.now (take entry.now.visits reads.old.items)
        entry.now.directory entry.now.parent.now }
    requires visits { entry.now.visits ≤ length reads.old.items }
    ensures left { IfOk result (λ end. (next : ℕ → Content → Interaction) →
        MatchResult end (λ r. plan_from (V.leased view.now)
        (values (V.contents view.now)) reads.old.items (walk taker.now next) ≡ plan_from
        (V.leased view.now) (values (V.contents view.now)) reads.new.items (next r.0 r.1.now))
        (λ stop. plan_from (V.leased view.now) (values (V.contents view.now)) reads.old.items
        (walk taker.now next) ≡ plan_stopped reads.new.items stop)) }
{
    if stays {
        repeat(reads, entry.visits)?;
        return Ok(Ok((entry.directory, entry.parent)));
    }
    walk(view, taker, reads)
}

/// Repeats the first `count` visits behind the others.
fn repeat(visits: &mut Visits, count: usize) -> Result<(), AllocError>
    requires { count ≤ length visits.old.items }
    ensures ok { OnOk result (visits.new.items ≡
        visits.old.items ++ take count visits.old.items) }
{
    visits.reserve(count)?;
    for place in 0..count {
        let inode = visits.as_slice()[place];
        visits.push_reserved(inode);
    }
    Ok(())
}

/// Whether an entry is moved to where it is: it stays in its directory, and keeps its name.
fn is_same_place(stays: bool, name: &Name, new_name: &Name) -> bool
    ensures { result ≡ (stays && pointwise ◌==◌ name.now new_name.now) }
{
    stays && name == new_name
}

/// Moves an entry into a directory with these links. Where it stays in its directory, it needs no room.
fn plan_receiving<V: View>(
    alloc: Global,
    view: &V,
    moving: &Move,
    stays: bool,
    links: &Directory,
    reads: Visits,
) -> Result<Planned, AllocError>
    ensures exact { IfOk result (λ p. shown p ≡ plan_from (V.leased view.now)
        (values (V.contents view.now)) reads.items
        (receive moving.now.from.content.now stays moving.now.directory links.now
        moving.now.new_name.now (effects_of_move moving.now)
        (map.get links.now moving.now.new_name.now))) }
{
    if let Some(target) = links.get(moving.new_name) {
        return plan_replacing(alloc, view, moving, target, reads);
    }
    if !stays && links.len() >= MOST_ENTRIES {
        return Ok(answered(alloc, Reply::Error(TreeError::DirFull), reads));
    }
    let mut effects = Vec::with_capacity(alloc, 2)?;
    push_move(&mut effects, moving)?;
    Ok(finished(Reply::Done, reads, effects))
}

/// Moves an entry to a place where another inode stands: that one is visited, and goes.
fn plan_replacing<V: View>(
    alloc: Global,
    view: &V,
    moving: &Move,
    target: u64,
    mut reads: Visits,
) -> Result<Planned, AllocError>
    ensures exact { IfOk result (λ p. shown p ≡ plan_from (V.leased view.now)
        (values (V.contents view.now)) reads.items
        (replace_target moving.now.from.content.now moving.now.directory moving.now.new_name.now
        (effects_of_move moving.now) target)) }
{
    let replaced = match reach(view, target, &mut reads)? {
        Ok(replaced) => replaced,
        Err(stop) => return Ok(stopped(alloc, stop, reads)),
    };
    if let Err(error) = may_replace(moving.from.content, replaced) {
        return Ok(answered(alloc, Reply::Error(error), reads));
    }
    let mut effects = removal_effects(alloc, moving.directory, moving.new_name, target)?;
    push_move(&mut effects, moving)?;
    Ok(finished(Reply::Done, reads, effects))
}

/// Whether an inode may take the place of another: a file that of a file, and a directory that of a directory without
/// entries.
fn may_replace(moved: &Inode, target: &Inode) -> Result<(), TreeError>
    ensures { result ≡ content_may_replace moved.now target.now }
{
    if moved.file().is_ok() {
        target.file()?;
        return Ok(());
    }
    let links = target.directory()?;
    if !links.is_empty() {
        return Err(TreeError::NotEmpty);
    }
    Ok(())
}

/// Appends what moves an entry: it is taken out of its directory, and then it is an entry of the other.
fn push_move(effects: &mut Vec<Effect>, moving: &Move) -> Result<(), AllocError>
    ensures moved { OnOk result (effects.new.items ≡ effects.old.items ++
        effects_of_move moving.now) }
{
    effects.push(Effect::Unlink {
        directory: moving.from.directory,
        name: moving.name.copy()?,
    })?;
    effects.push(Effect::Link {
        directory: moving.directory,
        name: moving.new_name.copy()?,
        inode: moving.from.inode,
    })?;
    Ok(())
}
