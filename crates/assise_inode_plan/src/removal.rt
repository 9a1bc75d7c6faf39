//! Plans of the calls that remove an entry.
ghost use Rattle.std.specs.Prelude.{◌≡◌, ◌∷◌, IfOk, OnErr, []};
ghost use Rattle.assise_inode_plan.specs.Leased.{NotesAVisit};
ghost use Rattle.assise_inode_plan.specs.Planning.{shown};
ghost use Rattle.assise_inode_plan.specs.Walking.{plan_from};
ghost use Rattle.assise_inode_table.specs.Calls.{rmdir_call, unlink_call};
ghost use Rattle.assise_inode_table.specs.Contents.{values};
ghost use Rattle.assise_inode_table.specs.Interaction.{visits_of};
ghost use Rattle.assise_record.specs.declared.effect.Effect.TheVariants.{Free, Unlink};

use crate::ending::{answered, finished, stopped};
use crate::plan::{Planned, Visits};
use crate::view::View;
use crate::walk::walk_to_entry;
use assise_names::name::Name;
use assise_names::reply::{Reply, TreeError};
use assise_record::effect::Effect;
use std::alloc::{AllocError, Global};

/// Removes a file.
pub(crate) fn plan_unlink<V: View>(
    alloc: Global,
    view: &V,
    names: &[Name],
) -> Result<Planned, AllocError>
    ensures exact { IfOk result (λ p. shown p ≡ plan_from (V.leased view.now)
        (values (V.contents view.now)) [] (unlink_call names.now)) }
    ensures asked { OnErr result (NotesAVisit (V.leased view.now)
        (visits_of (values (V.contents view.now)) (unlink_call names.now))) }
{
    let mut reads = Visits::new(alloc);
    let [parent @ .., name] = names else {
        return Ok(answered(alloc, Reply::Error(TreeError::IsDir), reads));
    };
    let entry = match walk_to_entry(view, parent, name, &mut reads)? {
        Ok(reached) => reached,
        Err(stop) => return Ok(stopped(alloc, stop, reads)),
    };
    if let Err(error) = entry.content.file() {
        return Ok(answered(alloc, Reply::Error(error), reads));
    }
    let effects = removal_effects(alloc, entry.directory, name, entry.inode)?;
    Ok(finished(Reply::Done, reads, effects))
}

/// Removes a directory without entries.
pub(crate) fn plan_rmdir<V: View>(
    alloc: Global,
    view: &V,
    names: &[Name],
) -> Result<Planned, AllocError>
    ensures exact { IfOk result (λ p. shown p ≡ plan_from (V.leased view.now)
        (values (V.contents view.now)) [] (rmdir_call names.now)) }
    ensures asked { OnErr result (NotesAVisit (V.leased view.now)
        (visits_of (values (V.contents view.now)) (rmdir_call names.now))) }
{
    let mut reads = Visits::new(alloc);
    let [parent @ .., name] = names else {
        return Ok(answered(alloc, Reply::Error(TreeError::Invalid), reads));
    };
    let entry = match walk_to_entry(view, parent, name, &mut reads)? {
        Ok(reached) => reached,
        Err(stop) => return Ok(stopped(alloc, stop, reads)),
    };
    let links = match entry.content.directory() {
        Ok(links) => links,
        Err(error) => return Ok(answered(alloc, Reply::Error(error), reads)),
    };
    if !links.is_empty() {
        return Ok(answered(alloc, Reply::Error(TreeError::NotEmpty), reads));
    }
    let effects = removal_effects(alloc, entry.directory, name, entry.inode)?;
    Ok(finished(Reply::Done, reads, effects))
}

/// An entry is taken out of its directory, and then its inode is freed.
pub(crate) fn removal_effects(
    alloc: Global,
    directory: u64,
    name: &Name,
    inode: u64,
) -> Result<Vec<Effect>, AllocError>
    ensures effects { IfOk result (λ effects. effects.items ≡
        Unlink directory name.now ∷ Free inode ∷ []) }
{
    let mut effects = Vec::with_capacity(alloc, 2)?;
    effects.push(Effect::Unlink {
        directory,
        name: name.copy()?,
    })?;
    effects.push(Effect::Free { inode })?;
    Ok(effects)
}
