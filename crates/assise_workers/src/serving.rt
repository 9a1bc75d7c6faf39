//! A client's list of calls.
ghost use Rattle.std.specs.Prelude.{◌≡◌, ◌≤◌, [], length, map, vec_capacity, vec_len};
ghost use Rattle.assise_libfs.specs.Clients.{IsSameClient, client_of, limit_of, seen_by};
ghost use Rattle.assise_workers.specs.Told.{SeesAll, Turned};

use crate::gate::Gate;
use crate::helping::Helper;
use crate::replicated::Replicated;
use assise_history::growing::Growing;
use assise_libfs::libfs::LibFs;
use assise_libfs::served::Served;
use assise_names::call::Op;
use assise_names::refusal::Refusal;
use assise_names::reply::Reply;
use std::alloc::Global;
use std::sync::Wait;

/// A client with the calls that it is to make, and room for what comes of them.
#[derive(Drop)]
pub struct ClientList<'a, S: Growing> {
    /// The client.
    pub libfs: LibFs<'a, S>,
    /// Its calls, in order. They are lent, so no thread touches the counts of who else shares their names and bytes.
    pub calls: Vec<&'a Op>,
    room: Vec<Result<Reply, Refusal>>,
    ghost empty: { room.items ≡ [] },
    ghost enough: { vec_len calls ≤ vec_capacity room },
}

/// A client that made its calls, with what came of each.
#[derive(Drop)]
pub struct ClientEnd<'a, S: Growing> {
    /// The client.
    pub libfs: LibFs<'a, S>,
    /// What came of each call of its list, in order.
    pub replies: Vec<Result<Reply, Refusal>>,
}

impl<'a, S: Served> ClientList<'a, S> {
    ghost use Rattle.std.specs.Prelude.{◌≡◌, IfErr, IfOk};
    ghost use Rattle.assise_names.specs.declared.refusal.Refusal.TheVariants.{OutOfMemory};
    ghost use Rattle.assise_workers.specs.Serving.{HasServed};

    /// A client's calls, with room for what comes of them. Where there is none, both come back with [`Refusal::OutOfMemory`].
    pub fn new(
        alloc: Global,
        libfs: LibFs<'a, S>,
        calls: Vec<&'a Op>,
    ) -> Result<ClientList<'a, S>, (Refusal, LibFs<'a, S>, Vec<&'a Op>)>
        ensures libfs { IfOk result (λ list. list.libfs ≡ libfs.entry) }
        ensures calls { IfOk result (λ list. list.calls ≡ calls.entry) }
        ensures refused { IfErr result (λ back. back ≡ (OutOfMemory, libfs.entry, calls.entry)) }
    {
        match Vec::with_capacity(alloc, calls.len()) {
            Ok(room) => Ok(ClientList { libfs, calls, room }),
            Err(_) => Err((Refusal::OutOfMemory, libfs, calls)),
        }
    }
}

impl<'a, S: Served + Replicated> ClientList<'a, S> {
    ghost use Rattle.assise_workers.specs.Serving.{HasServed};

    /// Makes all calls of the list, one after another; a call that is refused ends nothing. It takes no memory but that of its calls.
    /// While a call waits, the thread makes the turns of the workers of nodes 1 to the last, and passes their gate; with 0 it helps none.
    pub fn serve<G: Gate, R: Wait>(
        self,
        rt: &R,
        alloc: Global,
        last: u32,
        gate: &G,
    ) -> ClientEnd<'a, S>
        ensures { HasServed S.Growing.history S.Served.acts self.entry result }
    {
        let ClientList {
            mut libfs,
            calls,
            room,
        } = self;
        let mut helper = Helper::new(&mut libfs, last, gate);
        let replies = make_calls(rt, alloc, &mut libfs, calls.as_slice(), room, &mut helper);
        helper.end(rt, alloc);
        ClientEnd { libfs, replies }
    }
}

/// Makes a client's calls one after another, and answers what came of each. There is room for that.
fn make_calls<S: Served + Replicated, G: Gate, R: Wait>(
    rt: &R,
    alloc: Global,
    libfs: &mut LibFs<'_, S>,
    calls: &[&Op],
    mut replies: Vec<Result<Reply, Refusal>>,
    helper: &mut Helper<'_, '_, S, G>,
) -> Vec<Result<Reply, Refusal>>
    requires empty { replies.items ≡ [] }
    requires room { length calls.now ≤ vec_capacity replies }
    ensures same { IsSameClient libfs.old libfs.new }
    ensures sees { SeesAll (Turned S.Growing.history S.Served.acts (limit_of libfs.old))
        (client_of libfs.old) (map (λ op. op.now) calls.now) (seen_by libfs.old) result.items
        (seen_by libfs.new) }
{
    for op in calls {
        let syncs = is_sync(op);
        let reply = libfs.call_meanwhile(rt, alloc, op, |waited| {
            helper.behind_try(rt, alloc, syncs, waited);
        });
        replies.push_reserved(reply);
        helper.behind_call(rt, alloc);
    }
    replies
}

/// Whether a call waits for its client's records to be replicated.
fn is_sync(op: &Op) -> bool {
    matches!(op, Op::Fsync | Op::Dsync)
}
