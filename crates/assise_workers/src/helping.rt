//! What a client's own thread does for the nodes.

use crate::gate::Gate;
use crate::replicated::Replicated;
use crate::worker::Worker;
use assise_history::growing::Growing;
use assise_libfs::libfs::LibFs;
use assise_libfs::served::Served;
use assise_libfs::waited::Waited;
use assise_link::link::PerfectLink;
use std::alloc::Global;
use std::sync::Wait;
use std::thread;
use std::time::Duration;

/// After how many tries of a call with nothing left to do for the nodes its client only lets others run.
const BRIEF_TURNS: u32 = 16;

/// How long it waits for others after each later one, in microseconds.
const NAP_MICROS: u64 = 100;

/// After so many calls of a client all nodes digest.
const CALLS_A_DIGEST: u32 = 32;

/// How often they do then, as long as there is something to do: a turn of a node digests 64 records at most.
const MOST_DIGESTS: u32 = 32;

/// A worker on a client's thread: where a call of the client waits, it makes the turns of the workers of nodes 1 to the last, so that
/// neither an fsync nor a lease waits for another thread (Assise, OSDI 2020, section 3: LibFS replicates its own log). It passes the
/// gate of these workers, and what nodes send goes over a link that loses nothing.
#[derive(Drop)]
pub struct Helper<'a, 'g, S: Growing, G> {
    worker: Worker<'a, S>,
    link: PerfectLink,
    client: u32,
    home: u32,
    last: u32,
    gate: &'g G,
    // How many calls were made since the nodes digested.
    calls: u32,
    // How many records more its log has room for at least.
    spare: usize,
    // Whether what a sync sent isn't digested yet.
    sent: bool,
}

impl<'a, 'g, S: Served + Replicated, G: Gate> Helper<'a, 'g, S, G> {
    ghost use Rattle.std.specs.Prelude.{◌≡◌};
    ghost use Rattle.assise_libfs.specs.Clients.{IsSameClient, seen_by};

    /// On the thread of a client, with a pass that is split from the client's.
    pub fn new(libfs: &mut LibFs<'a, S>, last: u32, gate: &'g G) -> Helper<'a, 'g, S, G>
        ensures same { IsSameClient libfs.old libfs.new }
        ensures seen { seen_by libfs.new ≡ seen_by libfs.old }
    {
        let pass = libfs.split();
        Helper {
            worker: Worker::of(libfs.keeper(), pass),
            link: PerfectLink::new(),
            client: libfs.client(),
            home: libfs.node(),
            last,
            gate,
            calls: 0,
            spare: 0,
            sent: false,
        }
    }
}

impl<'a, 'g, S: Replicated, G: Gate> Helper<'a, 'g, S, G> {
    /// Comes behind a try that waits, of a sync or of another call: a round of the nodes; where there was nothing to do, others go on.
    /// Workers that sleep are woken where there still is nothing to do.
    pub fn behind_try<R: Wait>(&mut self, rt: &R, alloc: Global, syncs: bool, waited: Waited) {
        if self.round(rt, alloc, syncs) {
            return;
        }
        if waited.turn < BRIEF_TURNS {
            thread::yield_now();
            return;
        }
        let keeper = self.worker.keeper;
        if waited.turn == BRIEF_TURNS {
            keeper.progress().advance();
        }
        keeper.wake_one();
        let nap = Duration::from_micros(NAP_MICROS);
        keeper.progress().wait(rt, waited.read, nap);
    }

    /// Comes behind a call. All nodes digest behind each 32nd, and where else the client's log, of which a sync sent records, may have no
    /// room for the next call's.
    pub fn behind_call<R: Wait>(&mut self, rt: &R, alloc: Global) {
        self.calls = self.calls.saturating_add(1);
        self.spare = self.spare.saturating_sub(1);
        if self.calls >= CALLS_A_DIGEST || (self.sent && self.spare == 0) {
            self.make_room(rt, alloc);
        }
    }

    /// The client has made all its calls: what its syncs sent is digested, and another thread goes on in its place.
    pub fn end<R: Wait>(mut self, rt: &R, alloc: Global) {
        if self.sent {
            self.make_room(rt, alloc);
        }
        self.worker.keeper.wake_one();
    }

    // A turn of each node's replicator, and then one of each node's digester, but where a sync goes on by the first: whether something was
    // done.
    fn round<R: Wait>(&mut self, rt: &R, alloc: Global, syncs: bool) -> bool {
        let sent = self.replicate_all(rt, alloc);
        if syncs && sent {
            self.sent = true;
            return true;
        }
        let digested = self.digest_all(rt, alloc);
        sent || digested
    }

    // A turn of each node's replicator, as they stand in the client's chain: whether something was done.
    fn replicate_all<R: Wait>(&mut self, rt: &R, alloc: Global) -> bool {
        let mut did_work = false;
        for node in self.home..=self.last {
            did_work |= self.replicate(rt, alloc, node);
        }
        for node in 1..self.home {
            if node <= self.last {
                did_work |= self.replicate(rt, alloc, node);
            }
        }
        did_work
    }

    fn replicate<R: Wait>(&mut self, rt: &R, alloc: Global, node: u32) -> bool {
        self.worker
            .replicate_turn(rt, alloc, node, &mut self.link, self.gate)
            .did_work()
    }

    // A turn of each node's digester: whether something was done.
    fn digest_all<R: Wait>(&mut self, rt: &R, alloc: Global) -> bool {
        let mut did_work = false;
        for node in 1..=self.last {
            let end = self.worker.digest_turn(rt, alloc, node, self.gate);
            did_work |= end.did_work();
        }
        did_work
    }

    // All nodes digest what they can.
    fn make_room<R: Wait>(&mut self, rt: &R, alloc: Global) {
        self.calls = 0;
        self.sent = false;
        for _ in 0..MOST_DIGESTS {
            if !self.digest_all(rt, alloc) {
                break;
            }
        }
        self.spare = self.worker.spare(rt, self.home, self.client);
    }
}
