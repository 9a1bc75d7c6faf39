//! What a node's digester does.

use crate::gate::{Gate, Point};
use crate::idle::Idle;
use crate::replicated::Replicated;
use crate::worker::{TurnEnd, Worker};
use std::alloc::Global;
use std::sync::Wait;

impl<'a, S: Replicated> Worker<'a, S> {
    ghost use Rattle.std.specs.Prelude.{◌≡◌, List};
    ghost use Rattle.assise_workers.specs.Acting.{DigestsSome, TurnAfterTurn};
    ghost use Rattle.assise_workers.specs.Working.{GoesOn, seen_at};
    ghost use Rattle.assise_workers.specs.declared.worker.TurnEnd.{TurnEnd};
    ghost use Rattle.assise_workers.specs.declared.worker.TurnEnd.TheVariants.{Stopped};

    /// One turn: the node digests, and leases go that may. It answers how many records were digested and leases let go of. A digest
    /// that is refused ends nothing.
    pub fn digest_turn<G: Gate, R: Wait>(
        &mut self,
        rt: &R,
        alloc: Global,
        node: u32,
        gate: &G,
    ) -> TurnEnd
        ensures goes_on { GoesOn self.old self.new }
        ensures turn { DigestsSome S.Growing.history S.acts node result (seen_at self.old)
            (seen_at self.new) }
        ensures whole { G.is_open gate.now → result ≡ Stopped → ⊥ }
    {
        if !gate.pass(Point::BeforeDigest) {
            return TurnEnd::Stopped;
        }
        let mut held = self.pass.take(rt, self.keeper);
        let digested = held.state().digest(alloc, node).unwrap_or(0);
        let released = held.state().release_ready();
        self.pass.give(self.keeper, held);
        TurnEnd::Did(digested.saturating_add(released) as u64)
    }

    /// Digests for a node, turn after turn, until the gate ends it.
    pub fn digest_loop<G: Gate, R: Wait>(&mut self, rt: &R, alloc: Global, node: u32, gate: &G)
        ensures goes_on { GoesOn self.old self.new }
        ensures turns { (ends : List TurnEnd) × TurnAfterTurn (DigestsSome
            S.Growing.history S.acts node) ends (seen_at self.old) (seen_at self.new) }
    {
        let mut idle = Idle::of_one();
        idle.begin(rt, self.keeper.progress(), self.begun);
        for _ in rt.forever() {
            // The end of a run sets the gate and then counts on, so that no worker sleeps through it.
            let read = self.keeper.progress().read();
            if !gate.pass(Point::Turn) {
                return;
            }
            let end = self.digest_turn(rt, alloc, node, gate);
            self.keeper.wake_one();
            if !idle.rest(rt, self.keeper.progress(), read, end) {
                return;
            }
        }
    }
}
