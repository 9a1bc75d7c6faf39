//! Workers and clients in the threads of a scope.
ghost use Rattle.std.specs.Prelude.{◌≡◌, ◌≤◌, [], IfOk, IfSome, vec_capacity, vec_len};
ghost use Rattle.std.specs.List.{AllZip};
ghost use Rattle.assise_workers.specs.ClusterTurns.{cluster_acts, cluster_history};
ghost use Rattle.assise_workers.specs.Serving.{HasServed};

use crate::gate::{Gate, UntilDone};
use crate::nodes::NodeWorkers;
use crate::replicated::Replicated;
use crate::serving::{ClientEnd, ClientList};
use assise_history::growing::Growing;
use assise_keeper::keeper::Keeper;
use assise_libfs::served::Served;
use assise_machine::cluster::Cluster;
use std::alloc::Global;
use std::snapshot::Snapshot;
use std::sync::atomic::{AtomicBool, Ordering};
use std::sync::{Arc, Wait};
use std::thread;
use std::thread::{Promise, PromisedHandle, Scope, Threads};

/// Why a run isn't whole.
#[derive(Clone, Copy, PartialEq, Eq, Debug)]
pub enum RunFault {
    /// A growth was refused, before the first call.
    Memory,
    /// A thread couldn't be made. What the others were answered stands.
    NoThread,
}

/// What a client's thread promises: it makes all calls of its list.
#[derive(Drop)]
struct ServesAll<'a, S: Growing>(Snapshot<ClientList<'a, S>>);

impl<'a, S: Served + Replicated> Promise<ClientEnd<'a, S>> for ServesAll<'a, S> {
    ghost use Rattle.assise_workers.specs.Serving.{HasServed};

    ghost kept_by = { λ p end. HasServed S.Growing.history S.Served.acts p.0.value end };
}

/// Makes a client's calls in a thread of its own, which helps the nodes up to the last.
fn start_client<'s, 'e: 's, S: Served + Replicated + Send, G: Gate, R: Threads + Wait + Sync>(
    scope: &Scope<'s, &'e ()>,
    rt: &'e R,
    alloc: Global,
    list: ClientList<'e, S>,
    last: u32,
    gate: &'e G,
) -> Option<PromisedHandle<ClientEnd<'e, S>, ServesAll<'e, S>>>
    ensures { IfSome result (λ h. h.promise.0.value ≡ list.entry) }
{
    let promise = ServesAll(Snapshot::of(&list));
    scope
        .spawn_with(
            promise,
            move || -> ClientEnd<S>
                ensures { HasServed S.Growing.history S.Served.acts list.entry result }
            { list.serve(rt, alloc, last, gate) },
        )
        .ok()
}

/// Makes the calls of clients, each in a thread of its own, and waits for them. Where a thread can't be made, those that were made are
/// waited for.
fn run_clients<'s, 'e: 's, S: Served + Replicated + Send, G: Gate, R: Threads + Wait + Sync>(
    scope: &Scope<'s, &'e ()>,
    rt: &'e R,
    alloc: Global,
    lists: Vec<ClientList<'e, S>>,
    last: u32,
    gate: &'e G,
) -> Result<Vec<ClientEnd<'e, S>>, RunFault>
    ensures { IfOk result (λ ends. AllZip (HasServed S.Growing.history S.Served.acts)
        lists.entry.items ends.items) }
{
    let Ok(mut handles) = Vec::with_capacity(alloc, lists.len()) else {
        return Err(RunFault::Memory);
    };
    let Ok(ends) = Vec::with_capacity(alloc, lists.len()) else {
        return Err(RunFault::Memory);
    };
    for list in lists {
        let Some(handle) = start_client(scope, rt, alloc, list, last, gate) else {
            let _ = join_clients(rt, handles, ends);
            return Err(RunFault::NoThread);
        };
        handles.push_reserved(handle);
    }
    Ok(join_clients(rt, handles, ends))
}

/// Waits for clients, one after another. There is room for what comes of them.
fn join_clients<'e, S: Served + Replicated, R: Threads>(
    rt: &R,
    handles: Vec<PromisedHandle<ClientEnd<'e, S>, ServesAll<'e, S>>>,
    mut ends: Vec<ClientEnd<'e, S>>,
) -> Vec<ClientEnd<'e, S>>
    requires empty { ends.items ≡ [] }
    requires room { vec_len handles ≤ vec_capacity ends }
    ensures { AllZip (λ h end. HasServed S.Growing.history S.Served.acts
        h.promise.0.value end) handles.entry.items result.items }
{
    for handle in handles {
        ends.push_reserved(handle.join(rt));
    }
    ends
}

/// Starts the two workers of a node.
fn start_workers<'s, 'e: 's, S: Replicated + Send, G: Gate, R: Threads + Wait + Sync>(
    scope: &Scope<'s, &'e ()>,
    rt: &'e R,
    alloc: Global,
    workers: NodeWorkers<'e, S>,
    gate: &'e G,
    done: &Arc<AtomicBool, Global>,
) -> Result<(), RunFault> {
    let NodeWorkers {
        node,
        mut replicator,
        mut digester,
        mut link,
    } = workers;
    let Ok(one) = Arc::try_clone(done) else {
        return Err(RunFault::Memory);
    };
    let Ok(other) = Arc::try_clone(done) else {
        return Err(RunFault::Memory);
    };
    let one = UntilDone { gate, done: one };
    let other = UntilDone { gate, done: other };
    if scope
        .spawn(move || replicator.replicate_loop(rt, alloc, node, &mut link, &one))
        .is_err()
    {
        return Err(RunFault::NoThread);
    }
    if scope
        .spawn(move || digester.digest_loop(rt, alloc, node, &other))
        .is_err()
    {
        return Err(RunFault::NoThread);
    }
    Ok(())
}

/// The last of these nodes, 0 where there is none.
fn last_node<S: Growing>(nodes: &[NodeWorkers<'_, S>]) -> u32 {
    nodes.last().map_or(0, |workers| workers.node)
}

/// The keeper of these nodes' workers, if there are some.
fn keeper_of<'e, S: Growing>(nodes: &[NodeWorkers<'e, S>]) -> Option<&'e Keeper<S>> {
    match nodes.first() {
        Some(workers) => Some(workers.digester.keeper),
        None => None,
    }
}

/// Ends the workers: those that sleep are woken, and find the flag.
fn end_workers<S: Growing>(keeper: Option<&Keeper<S>>, done: &Arc<AtomicBool, Global>) {
    done.store(true, Ordering::SeqCst);
    if let Some(keeper) = keeper {
        keeper.progress().advance();
    }
}

/// Starts the workers of all nodes.
fn start_all_workers<'s, 'e: 's, S: Replicated + Send, G: Gate, R: Threads + Wait + Sync>(
    scope: &Scope<'s, &'e ()>,
    rt: &'e R,
    alloc: Global,
    nodes: Vec<NodeWorkers<'e, S>>,
    gate: &'e G,
    done: &Arc<AtomicBool, Global>,
) -> Result<(), RunFault> {
    for workers in nodes {
        start_workers(scope, rt, alloc, workers, gate, done)?;
    }
    Ok(())
}

/// Makes the calls of clients' lists to their end, beside the workers of nodes: each client and each worker is a thread. The workers end
/// once all lists are done. Where a call waits, its client's thread makes the turns of these nodes' workers, too ([`Helper`]).
///
/// [`Helper`]: crate::helping::Helper
///
/// [`RunFault::Memory`] comes before the first call; on [`RunFault::NoThread`] the threads that were made are ended and waited for, and
/// what was answered stands in the history.
pub fn run_cluster<'a, G: Gate, R: Threads + Wait + Sync>(
    rt: &'a R,
    alloc: Global,
    nodes: Vec<NodeWorkers<'a, Cluster>>,
    gate: &'a G,
    lists: Vec<ClientList<'a, Cluster>>,
) -> Result<Vec<ClientEnd<'a, Cluster>>, RunFault>
    ensures served { IfOk result (λ ends. AllZip (HasServed cluster_history cluster_acts)
        lists.entry.items ends.items) }
{
    match Arc::new(alloc, AtomicBool::new(false)) {
        Ok(done) => run_until(rt, alloc, nodes, gate, lists, done),
        Err(_) => Err(RunFault::Memory),
    }
}

/// The same, with the flag by which the workers end.
fn run_until<'a, G: Gate, R: Threads + Wait + Sync>(
    rt: &'a R,
    alloc: Global,
    nodes: Vec<NodeWorkers<'a, Cluster>>,
    gate: &'a G,
    lists: Vec<ClientList<'a, Cluster>>,
    done: Arc<AtomicBool, Global>,
) -> Result<Vec<ClientEnd<'a, Cluster>>, RunFault>
    ensures { IfOk result (λ ends. AllZip (HasServed cluster_history cluster_acts)
        lists.entry.items ends.items) }
{
    thread::scope(
        thread::scope_env(),
        rt,
        move |scope| -> Result<Vec<ClientEnd<Cluster>>, RunFault>
            ensures { IfOk result (λ ends. AllZip (HasServed cluster_history cluster_acts)
                lists.entry.items ends.items) }
        {
            let last = last_node(nodes.as_slice());
            let keeper = keeper_of(nodes.as_slice());
            let ended = match start_all_workers(scope, rt, alloc, nodes, gate, &done) {
                Ok(()) => run_clients(scope, rt, alloc, lists, last, gate),
                Err(fault) => Err(fault),
            };
            end_workers(keeper, &done);
            ended
        },
    )
}
