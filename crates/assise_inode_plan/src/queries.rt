//! Plans of the calls that change nothing.
ghost use Rattle.std.specs.Prelude.{◌≡◌, IfOk, OnErr, []};
ghost use Rattle.assise_inode_plan.specs.Leased.{NotesAVisit};
ghost use Rattle.assise_inode_plan.specs.Planning.{shown};
ghost use Rattle.assise_inode_plan.specs.Walking.{plan_from};
ghost use Rattle.assise_inode_table.specs.Calls.{list_call, read_call, stat_call};
ghost use Rattle.assise_inode_table.specs.Contents.{values};
ghost use Rattle.assise_inode_table.specs.Interaction.{visits_of};

use crate::ending::{answered, stopped};
use crate::plan::{Planned, Visits};
use crate::view::View;
use crate::walk::walk;
use assise_names::name::Name;
use assise_names::reply::Reply;
use std::alloc::{AllocError, Global};

/// Reads at most `length` bytes, from an offset on.
pub(crate) fn plan_read<V: View>(
    alloc: Global,
    view: &V,
    names: &[Name],
    offset: u64,
    length: u64,
) -> Result<Planned, AllocError>
    ensures exact { IfOk result (λ p. shown p ≡ plan_from (V.leased view.now)
        (values (V.contents view.now)) [] (read_call names.now offset length)) }
    ensures asked { OnErr result (NotesAVisit (V.leased view.now)
        (visits_of (values (V.contents view.now)) (read_call names.now offset length))) }
{
    let mut reads = Visits::new(alloc);
    let (_, inode) = match walk(view, names, &mut reads)? {
        Ok(reached) => reached,
        Err(stop) => return Ok(stopped(alloc, stop, reads)),
    };
    match inode.file() {
        Ok(file) => {
            let bytes = file.read(alloc, offset, length)?;
            Ok(answered(alloc, Reply::Bytes(bytes), reads))
        }
        Err(error) => Ok(answered(alloc, Reply::Error(error), reads)),
    }
}

/// Lists the names of a directory's entries.
pub(crate) fn plan_list<V: View>(
    alloc: Global,
    view: &V,
    names: &[Name],
) -> Result<Planned, AllocError>
    ensures exact { IfOk result (λ p. shown p ≡ plan_from (V.leased view.now)
        (values (V.contents view.now)) [] (list_call names.now)) }
    ensures asked { OnErr result (NotesAVisit (V.leased view.now)
        (visits_of (values (V.contents view.now)) (list_call names.now))) }
{
    let mut reads = Visits::new(alloc);
    let (_, inode) = match walk(view, names, &mut reads)? {
        Ok(reached) => reached,
        Err(stop) => return Ok(stopped(alloc, stop, reads)),
    };
    match inode.directory() {
        Ok(links) => {
            let listed = links.names(alloc)?;
            Ok(answered(alloc, Reply::Names(listed), reads))
        }
        Err(error) => Ok(answered(alloc, Reply::Error(error), reads)),
    }
}

/// Says what stands at a path.
pub(crate) fn plan_stat<V: View>(
    alloc: Global,
    view: &V,
    names: &[Name],
) -> Result<Planned, AllocError>
    ensures exact { IfOk result (λ p. shown p ≡ plan_from (V.leased view.now)
        (values (V.contents view.now)) [] (stat_call names.now)) }
    ensures asked { OnErr result (NotesAVisit (V.leased view.now)
        (visits_of (values (V.contents view.now)) (stat_call names.now))) }
{
    let mut reads = Visits::new(alloc);
    match walk(view, names, &mut reads)? {
        Ok((_, inode)) => Ok(answered(alloc, inode.describe(), reads)),
        Err(stop) => Ok(stopped(alloc, stop, reads)),
    }
}
