//! What a node's replicator does.
ghost use Rattle.std.specs.Prelude.{◌≡◌, ◌≤◌, IfErr, IfOk};
ghost use Rattle.assise_model_events.specs.Events.{Answer, outgoing, sent};
ghost use Rattle.assise_workers.specs.Letters.{AreReadBy, letters_seen};

use crate::gate::{Gate, Point};
use crate::idle::Idle;
use crate::letter::Letter;
use crate::replicated::Replicated;
use crate::worker::{TurnEnd, Worker};
use assise_link::carrying::carry_frame;
use assise_link::link::Link;
use assise_names::refusal::Refusal;
use assise_record::frame::Frame;
use std::alloc::Global;
use std::sync::Wait;

/// What a node has for others, and what they read.
fn letters_of<S: Replicated>(alloc: Global, state: &S, node: u32) -> Result<Vec<Letter>, Refusal>
    ensures sent { IfOk result (λ letters. S.acts state.now (outgoing node)
        (sent (letters_seen letters.items)) state.now) }
    ensures read { IfOk result (λ letters. AreReadBy (S.reads state.now) letters.items) }
    ensures refused { IfErr result (λ refusal. (a : Answer) ×
        S.acts state.now (outgoing node) a state.now) }
{
    let frames = state.outgoing(alloc, node)?;
    addressed(alloc, state, frames)
}

/// Frames, each with the newest version that its node reads. Refused with [`Refusal::OutOfMemory`], and where there is no such node.
fn addressed<S: Replicated>(
    alloc: Global,
    state: &S,
    frames: Vec<(Frame, u32)>,
) -> Result<Vec<Letter>, Refusal>
    ensures all { IfOk result (λ letters. letters_seen letters.items ≡ frames.items) }
    ensures read { IfOk result (λ letters. AreReadBy (S.reads state.now) letters.items) }
{
    let mut letters = Vec::with_capacity(alloc, frames.len())?;
    for (frame, next) in frames {
        let newest = state.level(next)?;
        letters.push(Letter {
            frame,
            next,
            newest,
        })?;
    }
    Ok(letters)
}

impl<'a, S: Replicated> Worker<'a, S> {
    ghost use Rattle.std.specs.Prelude.{◌≡◌, ℕ, IfErr, IfOk, List, None};
    ghost use Rattle.assise_libfs.specs.InTurns.{InOneTurn};
    ghost use Rattle.assise_link.specs.Kinds.{perfect};
    ghost use Rattle.assise_model_events.specs.Events.{Answer, deliver, outgoing, sent};
    ghost use Rattle.assise_workers.specs.Acting.{Replicates, Sends, SendsAll, TurnAfterTurn};
    ghost use Rattle.assise_workers.specs.Taking.{TakesOut, taken_for};
    ghost use Rattle.assise_workers.specs.Letters.{AreReadBy, letter_of, letters_seen};
    ghost use Rattle.assise_workers.specs.Working.{GoesOn, seen_at};
    ghost use Rattle.assise_workers.specs.declared.worker.TurnEnd.{TurnEnd};
    ghost use Rattle.assise_workers.specs.declared.worker.TurnEnd.TheVariants.{Stopped};

    /// One turn: what the node has for others is taken out of the state, carried while the state is free, and brought in. It answers
    /// how many frames were taken in, or why nothing is sent. What a link loses or spoils, and what is refused where it comes, ends
    /// nothing.
    pub fn replicate_turn<L: Link, G: Gate, R: Wait>(
        &mut self,
        rt: &R,
        alloc: Global,
        node: u32,
        link: &mut L,
        gate: &G,
    ) -> TurnEnd
        ensures goes_on { GoesOn self.old self.new }
        ensures turn { Replicates S.Growing.history S.acts (L.kind link.old ≡ perfect) S.reads node
            result (seen_at self.old) (seen_at self.new) }
        ensures stays { L.kind link.new ≡ L.kind link.old }
        ensures whole { G.is_open gate.now → result ≡ Stopped → ⊥ }
    {
        match self.take_outgoing(rt, alloc, node) {
            Ok(letters) => self.send_all(rt, alloc, letters, link, gate),
            Err(refusal) => TurnEnd::Refused(refusal),
        }
    }

    /// Replicates for a node, turn after turn, until the gate ends it.
    pub fn replicate_loop<L: Link, G: Gate, R: Wait>(
        &mut self,
        rt: &R,
        alloc: Global,
        node: u32,
        link: &mut L,
        gate: &G,
    )
        ensures goes_on { GoesOn self.old self.new }
        ensures turns { (ends : List TurnEnd) × TurnAfterTurn (λ end a b. Replicates
            S.Growing.history S.acts (L.kind link.old ≡ perfect) S.reads node end a b) ends
            (seen_at self.old) (seen_at self.new) }
    {
        let mut idle = Idle::of_one();
        idle.begin(rt, self.keeper.progress(), self.begun);
        for _ in rt.forever() {
            // The end of a run sets the gate and then counts on, so that no worker sleeps through it.
            let read = self.keeper.progress().read();
            if !gate.pass(Point::Turn) {
                return;
            }
            let end = self.replicate_turn(rt, alloc, node, link, gate);
            self.keeper.wake_one();
            if !idle.rest(rt, self.keeper.progress(), read, end) {
                return;
            }
        }
    }

    // What the node has for others, and what they read.
    fn take_outgoing<R: Wait>(
        &mut self,
        rt: &R,
        alloc: Global,
        node: u32,
    ) -> Result<Vec<Letter>, Refusal>
        ensures goes_on { GoesOn self.old self.new }
        ensures sent { IfOk result (λ letters. TakesOut S.Growing.history S.acts S.reads node
            letters.items (seen_at self.old) (seen_at self.new)) }
        ensures refused { IfErr result (λ refusal. (a : Answer) × InOneTurn S.Growing.history
            S.acts (outgoing node) a (seen_at self.old) (seen_at self.new)) }
    {
        let mut held = self.pass.take(rt, self.keeper);
        let letters = letters_of(alloc, held.state(), node);
        self.pass.give(self.keeper, held);
        letters
    }

    fn send_all<L: Link, G: Gate, R: Wait>(
        &mut self,
        rt: &R,
        alloc: Global,
        letters: Vec<Letter>,
        link: &mut L,
        gate: &G,
    ) -> TurnEnd
        ensures goes_on { GoesOn self.old self.new }
        ensures turn { (reads : ℕ → ℕ) → AreReadBy reads letters.items → SendsAll
            S.Growing.history S.acts (L.kind link.old ≡ perfect) reads
            (letters_seen letters.items) result (seen_at self.old) (seen_at self.new) }
        ensures stays { L.kind link.new ≡ L.kind link.old }
        ensures whole { G.is_open gate.now → result ≡ Stopped → ⊥ }
    {
        let mut taken = 0u64;
        for letter in letters {
            match self.send(rt, alloc, letter, link, gate) {
                Some(one) => taken = taken.saturating_add(one),
                None => return TurnEnd::Stopped,
            }
        }
        TurnEnd::Did(taken)
    }

    // Carries a frame to a node, and answers how many were taken in there; `None` where the gate ends the loop.
    fn send<L: Link, G: Gate, R: Wait>(
        &mut self,
        rt: &R,
        alloc: Global,
        letter: Letter,
        link: &mut L,
        gate: &G,
    ) -> Option<u64>
        ensures goes_on { GoesOn self.old self.new }
        ensures turn { (reads : ℕ → ℕ) → letter.newest ≡ reads letter.next → Sends
            S.Growing.history S.acts (L.kind link.old ≡ perfect) reads (letter_of letter) result
            (seen_at self.old) (seen_at self.new) }
        ensures stays { L.kind link.new ≡ L.kind link.old }
        ensures whole { G.is_open gate.now → result ≡ None → ⊥ }
    {
        if !gate.pass(Point::BeforeCarry) {
            return None;
        }
        let next = letter.next;
        let Some(came) = carry_frame(alloc, link, letter.newest, &letter.frame) else {
            return Some(0);
        };
        if !gate.pass(Point::BeforeDeliver) {
            return None;
        }
        Some(self.bring_in(rt, came, next))
    }

    // A frame comes to a node; how many were taken in.
    fn bring_in<R: Wait>(&mut self, rt: &R, frame: Frame, node: u32) -> u64
        ensures goes_on { GoesOn self.old self.new }
        ensures turn { (a : Answer) × (InOneTurn S.Growing.history S.acts (deliver frame node) a
            (seen_at self.old) (seen_at self.new) × (result ≡ taken_for a)) }
    {
        let mut held = self.pass.take(rt, self.keeper);
        let delivered = held.state().deliver(frame, node);
        self.pass.give(self.keeper, held);
        u64::from(delivered.is_ok())
    }
}
