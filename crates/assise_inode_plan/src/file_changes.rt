//! Plans of the calls that change a file's bytes.
ghost use Rattle.std.specs.Prelude.{◌≡◌, ◌∷◌, ◌+◌, ◌≤◌, IfOk, OnErr, [], length};
ghost use Rattle.assise_inode_plan.specs.Leased.{NotesAVisit};
ghost use Rattle.assise_inode_plan.specs.Planning.{shown};
ghost use Rattle.assise_inode_plan.specs.Walking.{plan_from};
ghost use Rattle.assise_inode_table.specs.Calls.{truncate_call, write_call, write_effects};
ghost use Rattle.assise_inode_table.specs.Contents.{values};
ghost use Rattle.assise_inode_table.specs.Interaction.{visits_of};
ghost use Rattle.assise_record.specs.declared.effect.Effect.TheVariants.{SetLen};

use crate::ending::{answered, finished, stopped};
use crate::plan::{Planned, Visits};
use crate::view::View;
use crate::walk::walk;
use assise_names::byte_string::ByteString;
use assise_names::limits::MOST_FILE_BYTES;
use assise_names::name::Name;
use assise_names::reply::{Reply, TreeError};
use assise_record::effect::{Effect, Extent, FileSize};
use assise_seq_tree::contents::is_within;
use std::alloc::{AllocError, Global};

/// Writes bytes at an offset.
pub(crate) fn plan_write<V: View>(
    alloc: Global,
    view: &V,
    names: &[Name],
    offset: u64,
    new: &ByteString,
) -> Result<Planned, AllocError>
    requires one_write { length new.now ≤ 65536 }
    ensures exact { IfOk result (λ p. shown p ≡ plan_from (V.leased view.now)
        (values (V.contents view.now)) [] (write_call names.now offset new.now)) }
    ensures asked { OnErr result (NotesAVisit (V.leased view.now)
        (visits_of (values (V.contents view.now)) (write_call names.now offset new.now))) }
{
    let mut reads = Visits::new(alloc);
    let (file, inode) = match walk(view, names, &mut reads)? {
        Ok(reached) => reached,
        Err(stop) => return Ok(stopped(alloc, stop, reads)),
    };
    if let Err(error) = inode.file() {
        return Ok(answered(alloc, Reply::Error(error), reads));
    }
    if !is_within(offset, new.as_slice()) {
        return Ok(answered(alloc, Reply::Error(TreeError::TooBig), reads));
    }
    let effects = write_effects(alloc, file, offset, new)?;
    Ok(finished(Reply::Done, reads, effects))
}

/// Gives a file another size.
pub(crate) fn plan_truncate<V: View>(
    alloc: Global,
    view: &V,
    names: &[Name],
    size: u64,
) -> Result<Planned, AllocError>
    ensures exact { IfOk result (λ p. shown p ≡ plan_from (V.leased view.now)
        (values (V.contents view.now)) [] (truncate_call names.now size)) }
    ensures asked { OnErr result (NotesAVisit (V.leased view.now)
        (visits_of (values (V.contents view.now)) (truncate_call names.now size))) }
{
    let mut reads = Visits::new(alloc);
    let (file, inode) = match walk(view, names, &mut reads)? {
        Ok(reached) => reached,
        Err(stop) => return Ok(stopped(alloc, stop, reads)),
    };
    if let Err(error) = inode.file() {
        return Ok(answered(alloc, Reply::Error(error), reads));
    }
    if size > MOST_FILE_BYTES {
        return Ok(answered(alloc, Reply::Error(TreeError::TooBig), reads));
    }
    let effects = size_effects(alloc, file, size)?;
    Ok(finished(Reply::Done, reads, effects))
}

/// The written bytes, shared; nothing where there are none.
fn write_effects(
    alloc: Global,
    inode: u64,
    offset: u64,
    new: &ByteString,
) -> Result<Vec<Effect>, AllocError>
    requires few_bytes { length new.now ≤ 65536 }
    requires ends_in_the_file { offset + length new.now ≤ 1048576 }
    ensures effects { IfOk result (λ effects. effects.items ≡ write_effects inode offset new.now) }
{
    let mut effects = Vec::new(alloc);
    if !new.is_empty() {
        let extent = Extent::new(offset as u32, new.share()?);
        effects.push(Effect::Write { inode, extent })?;
    }
    Ok(effects)
}

/// The new size of a file.
fn size_effects(alloc: Global, inode: u64, size: u64) -> Result<Vec<Effect>, AllocError>
    requires fits { size ≤ 1048576 }
    ensures effects { IfOk result (λ effects. effects.items ≡ SetLen inode size ∷ []) }
{
    let size = FileSize::new(size as u32);
    let mut effects = Vec::new(alloc);
    effects.push(Effect::SetLen { inode, size })?;
    Ok(effects)
}
