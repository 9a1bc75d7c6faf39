//! Plans of the calls that make an inode.
ghost use Rattle.std.specs.Prelude.{◌≡◌, ◌∷◌, IfOk, OnErr, []};
ghost use Rattle.assise_inode_plan.specs.Leased.{NotesAVisit};
ghost use Rattle.assise_inode_plan.specs.Planning.{shown};
ghost use Rattle.assise_inode_plan.specs.Walking.{plan_from};
ghost use Rattle.assise_inode_table.specs.Calls.{create_call, make_call, mkdir_call};
ghost use Rattle.assise_inode_table.specs.Contents.{values};
ghost use Rattle.assise_inode_table.specs.Interaction.{visits_of};
ghost use Rattle.assise_record.specs.declared.effect.Effect.TheVariants.{Link};

use crate::ending::{answered, finished, stopped};
use crate::plan::{Planned, Visits};
use crate::view::View;
use crate::walk::walk;
use assise_names::name::Name;
use assise_names::reply::{Reply, TreeError};
use assise_record::effect::Effect;
use std::alloc::{AllocError, Global};

/// Makes a file without bytes, the inode `fresh`.
pub(crate) fn plan_create<V: View>(
    alloc: Global,
    view: &V,
    names: &[Name],
    fresh: u64,
) -> Result<Planned, AllocError>
    ensures exact { IfOk result (λ p. shown p ≡ plan_from (V.leased view.now)
        (values (V.contents view.now)) [] (create_call names.now fresh)) }
    ensures asked { OnErr result (NotesAVisit (V.leased view.now)
        (visits_of (values (V.contents view.now)) (create_call names.now fresh))) }
{
    let new = Effect::NewFile { inode: fresh };
    plan_new(alloc, view, names, &new, fresh)
}

/// Makes a directory without entries, the inode `fresh`.
pub(crate) fn plan_mkdir<V: View>(
    alloc: Global,
    view: &V,
    names: &[Name],
    fresh: u64,
) -> Result<Planned, AllocError>
    ensures exact { IfOk result (λ p. shown p ≡ plan_from (V.leased view.now)
        (values (V.contents view.now)) [] (mkdir_call names.now fresh)) }
    ensures asked { OnErr result (NotesAVisit (V.leased view.now)
        (visits_of (values (V.contents view.now)) (mkdir_call names.now fresh))) }
{
    let new = Effect::NewDir { inode: fresh };
    plan_new(alloc, view, names, &new, fresh)
}

/// Makes an inode, `fresh`, by the effect that makes it new, and its entry.
fn plan_new<V: View>(
    alloc: Global,
    view: &V,
    names: &[Name],
    new: &Effect,
    fresh: u64,
) -> Result<Planned, AllocError>
    ensures exact { IfOk result (λ p. shown p ≡ plan_from (V.leased view.now)
        (values (V.contents view.now)) [] (make_call new.now names.now fresh)) }
    ensures asked { OnErr result (NotesAVisit (V.leased view.now)
        (visits_of (values (V.contents view.now)) (make_call new.now names.now fresh))) }
{
    let mut reads = Visits::new(alloc);
    let [parent @ .., name] = names else {
        return Ok(answered(alloc, Reply::Error(TreeError::Exists), reads));
    };
    let (directory, inode) = match walk(view, parent, &mut reads)? {
        Ok(reached) => reached,
        Err(stop) => return Ok(stopped(alloc, stop, reads)),
    };
    let links = match inode.directory() {
        Ok(links) => links,
        Err(error) => return Ok(answered(alloc, Reply::Error(error), reads)),
    };
    if let Err(error) = links.room_for(name) {
        return Ok(answered(alloc, Reply::Error(error), reads));
    }
    let effects = new_inode_effects(alloc, new, directory, name, fresh)?;
    Ok(finished(Reply::Done, reads, effects))
}

/// A new inode, and its entry in a directory.
fn new_inode_effects(
    alloc: Global,
    new: &Effect,
    directory: u64,
    name: &Name,
    fresh: u64,
) -> Result<Vec<Effect>, AllocError>
    ensures effects { IfOk result (λ effects. effects.items ≡
        new.now ∷ Link directory name.now fresh ∷ []) }
{
    let mut effects = Vec::with_capacity(alloc, 2)?;
    effects.push(new.copy()?)?;
    effects.push(Effect::Link {
        directory,
        name: name.copy()?,
        inode: fresh,
    })?;
    Ok(effects)
}
