//! The calls of clients among commands that stand together.
ghost use Rattle.std.specs.Prelude.{◌≡◌, IfOk, map};
ghost use Rattle.std.specs.List.{AllZip};
ghost use Rattle.assise_threads.specs.Said.{calls_in};
ghost use Rattle.assise_threads.specs.Stretches.{HasCalls};

use assise_fault_script::command::Command;
use assise_fault_script::parse::NumberedCommand;
use assise_libfs::libfs::LibFs;
use assise_machine::cluster::Cluster;
use assise_names::call::Op;
use assise_workers::serving::ClientList;
use std::alloc::{AllocError, Global};

/// The calls of a client among commands, in order, which are lent.
fn calls_of<'a>(
    alloc: Global,
    stretch: &'a [NumberedCommand],
    client: u32,
) -> Result<Vec<&'a Op>, AllocError>
    ensures calls { IfOk result (λ calls. map (λ op. op.now) calls.items ≡
        calls_in client stretch.now) }
{
    let mut calls = Vec::new(alloc);
    for line in stretch {
        if let Command::Call { client: caller, op } = &line.command {
            if *caller == u64::from(client) {
                calls.push(op)?;
            }
        }
    }
    Ok(calls)
}

/// A client with its calls.
fn list_of<'a>(
    alloc: Global,
    libfs: LibFs<'a, Cluster>,
    stretch: &'a [NumberedCommand],
) -> Result<ClientList<'a, Cluster>, AllocError>
    ensures list { IfOk result (λ list. HasCalls stretch.now libfs.entry list) }
{
    let calls = calls_of(alloc, stretch, libfs.client())?;
    match ClientList::new(alloc, libfs, calls) {
        Ok(list) => Ok(list),
        Err(_) => Err(AllocError),
    }
}

/// All clients, each with its calls.
pub(crate) fn lists_of<'a>(
    alloc: Global,
    clients: Vec<LibFs<'a, Cluster>>,
    stretch: &'a [NumberedCommand],
) -> Result<Vec<ClientList<'a, Cluster>>, AllocError>
    ensures lists { IfOk result (λ lists.
        AllZip (HasCalls stretch.now) clients.entry.items lists.items) }
{
    let mut lists = Vec::with_capacity(alloc, clients.len())?;
    for libfs in clients {
        lists.push_reserved(list_of(alloc, libfs, stretch)?);
    }
    Ok(lists)
}
