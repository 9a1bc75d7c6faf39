//! The keeper of a state.
ghost use Rattle.std.specs.Prelude.{◌≡◌};

use crate::event_count::EventCount;
use crate::held::Held;
use crate::pass::Pass;
use crate::steps::{Cut, Meet, OneHistory, Part, PassOn, Release, SetUp, Share, Take};
use crate::view::View;
use assise_history::growing::Growing;
use assise_names::refusal::Refusal;
use atomic_table::Table;
use std::alloc::Global;
use std::hint;
use std::sync::Wait;
use std::sync::atomic::{AtomicU64, Ordering};
use std::time::Duration;

/// How often a thread that waits tries at once again, before it sleeps between its tries: who has the state in its cache goes on with it.
const BRIEF_TRIES: u32 = 3;

/// How long it sleeps then, in microseconds, for each thread that sleeps so, unless it is woken: who has the state is looked for as often,
/// however many wait. It is the same for every try, so that who waits longer tries no less often.
const NAP_MICROS: u64 = 200;

/// Keeps a state that threads take in turn. It has one word, which is 0 where the state is there, 1 where it is out
/// and 2 until it was put in, and one slot for the state, which lies in a
/// box, so that who takes it moves a pointer.
pub struct Keeper<S: Growing> {
    table: Table<Option<Box<S>>, View<S>, (), OneHistory, Global>,
    sleepers: AtomicU64,
    progress: EventCount,
    ghost one_word: { (table.shared.table_id.words ≡ 1) × (table.shared.table_id.slots ≡ 1) },
}

impl<S: Growing> Keeper<S> {
    ghost use Rattle.std.specs.Prelude.{◌≡◌, ℕ, Some, None, IsNone, IfSome, IfNone, IfOk, IfErr};
    ghost use Rattle.assise_names.specs.declared.refusal.Refusal.TheVariants.{OutOfMemory};
    ghost use Rattle.assise_keeper.specs.declared.view.Opens.TheVariants.{Never, Alone, AmongOthers};
    ghost use Rattle.assise_keeper.specs.Clients.{Extends, calls_of, openings_of, MayGive, MayOpenClients, client_after, added};
    ghost use Rattle.assise_keeper.specs.Views.{holding, given};
    ghost use Rattle.assise_keeper.specs.Rule.{AreLed, CoversHalf, IsLed};
    ghost use Rattle.assise_keeper.specs.Passes.{seen, last, client, mine, opens, view, taken, state_taken, IsPassOf, IsHolding, IsHoldingThis, IsFirst};

    /// Keeps the state, and gives the first pass, which has seen the state's whole history, has no client, and alone may open clients.
    /// Where there is no memory the state comes back with [`Refusal::OutOfMemory`].
    pub fn new(alloc: Global, state: S) -> Result<(Keeper<S>, Pass<S>), (Refusal, S)>
        ensures pass { IfOk result (λ made. IsPassOf made.0 made.1) }
        ensures seen { IfOk result (λ made. (seen made.1 ≡ S.history state) ×
            (client made.1 ≡ None)) }
        ensures last { IfOk result (λ made. last made.1 ≡ Some state) }
        ensures alone { IfOk result (λ made. opens made.1 ≡ Alone) }
        ensures refused { IfErr result (λ refused. refused ≡ (OutOfMemory, state)) }
    {
        let state = match Box::new(alloc, state) {
            Ok(state) => state,
            Err(failed) => return Err((Refusal::OutOfMemory, failed.value)),
        };
        let Ok((table, seat)) = Table::vacant(alloc, &[2], 1, &()) else {
            return Err((Refusal::OutOfMemory, Box::into_inner(state)));
        };
        let mut pass = Pass { seat };
        let keeper = Keeper {
            table,
            sleepers: AtomicU64::new(0),
            progress: EventCount::new(),
        };
        keeper.set_up(&mut pass, state);
        Ok((keeper, pass))
    }

    // The state goes in for the first time.
    fn set_up(&self, pass: &mut Pass<S>, state: Box<S>)
        requires { IsFirst self.now pass.old }
        ensures { IsPassOf self.now pass.new × (seen pass.new ≡ S.history state.value) ×
            (client pass.new ≡ None) × (opens pass.new ≡ Alone) ×
            (last pass.new ≡ Some state.value) }
    {
        let full = Some(state);
        self.table
            .shared
            .compare_exchange_with::<SetUp>(&mut pass.seat, 0, 2, 1, &full);
        let Some(state) = full else { unreachable!() };
        self.put(pass, state);
    }

    // The state goes back.
    fn put(&self, pass: &mut Pass<S>, state: Box<S>)
        requires holding { IsHolding self.now pass.old }
        requires grows { MayGive (client pass.old) (opens pass.old)
            (taken pass.old) (S.history state.value) }
        requires leads { IsLed S.leads (state_taken pass.old) (Some state.value) }
        requires works { opens pass.old ≡ Never →
            IsLed S.works (state_taken pass.old) (Some state.value) }
        ensures free { IsPassOf self.now pass.new }
        ensures view { view pass.new ≡ given (view pass.old) (taken pass.old)
            (S.history state.value) state.value }
    {
        let shared = &self.table.shared;
        let before = shared.exchange(&mut pass.seat, 0, Some(state));
        let None = before else { unreachable!() };
        shared.store::<Release>(&mut pass.seat, 0, 0);
    }

    fn try_take(&self, pass: &mut Pass<S>) -> Option<Box<S>>
        requires { IsPassOf self.now pass.old }
        ensures took { IfSome result (λ t.
            IsHoldingThis self.now pass.new (S.history t.value) t.value ×
            (view pass.new ≡ holding (view pass.old) (S.history t.value) t.value) ×
            CoversHalf (S.history t.value) (view pass.old).own ×
            CoversHalf (S.history t.value) (view pass.old).guest ×
            AreLed S.leads S.works (view pass.old) (Some t.value)) }
        ensures none { IfNone result (IsPassOf self.now pass.new ×
            (view pass.new ≡ view pass.old)) }
    {
        let shared = &self.table.shared;
        if shared.compare_exchange::<Take>(&mut pass.seat, 0, 0, 1) != 0 {
            return None;
        }
        let Some(state) = shared.exchange(&mut pass.seat, 0, None) else {
            unreachable!()
        };
        Some(state)
    }

    // Waits until the state is there, and takes it.
    fn get<R: Wait>(&self, rt: &R, pass: &mut Pass<S>) -> Box<S>
        requires { IsPassOf self.now pass.old }
        ensures took { IsHoldingThis self.now pass.new (S.history result.value) result.value }
        ensures view { view pass.new ≡ holding (view pass.old)
            (S.history result.value) result.value }
        ensures own { CoversHalf (S.history result.value) (view pass.old).own }
        ensures guest { CoversHalf (S.history result.value) (view pass.old).guest }
        ensures led { AreLed S.leads S.works (view pass.old) (Some result.value) }
    {
        let mut tries = 0;
        for _ in rt.forever() {
            if let Some(state) = self.try_take(pass) {
                return state;
            }
            if tries < BRIEF_TRIES {
                tries += 1;
                hint::spin_loop();
            } else {
                let others = self.sleepers.fetch_add(1, Ordering::SeqCst);
                let nap = NAP_MICROS.saturating_mul(others.saturating_add(1));
                self.table
                    .shared
                    .park_timeout(rt, 0, 1, Duration::from_micros(nap));
                self.sleepers.fetch_sub(1, Ordering::SeqCst);
            }
        }
        unreachable!()
    }

    /// Waits until the state is there, and takes it. What the pass has seen last leads to it, and its history extends what the pass has
    /// seen. It has no call of the pass's client that the pass hadn't seen. Where the pass alone may open clients, no other opened one, and
    /// all that was done since is work.
    pub fn take<R: Wait>(&self, rt: &R, pass: &mut Pass<S>) -> Held<S>
        requires { IsPassOf self.now pass.old }
        ensures holds { IsHolding self.now pass.new }
        ensures taken { taken pass.new ≡ S.history result }
        ensures state { state_taken pass.new ≡ Some result }
        ensures same { (seen pass.new ≡ seen pass.old) × (client pass.new ≡ client pass.old) }
        ensures last { last pass.new ≡ last pass.old }
        ensures right { opens pass.new ≡ opens pass.old }
        ensures led { IsLed S.leads (last pass.old) (Some result) }
        ensures worked { opens pass.old ≡ Alone → IsLed S.works (last pass.old) (Some result) }
        ensures extends { Extends (S.history result) (seen pass.old) }
        ensures mine { calls_of (client pass.old) (S.history result) ≡ mine pass.old }
        ensures alone { opens pass.old ≡ Alone →
            openings_of (S.history result) ≡ openings_of (seen pass.old) }
    {
        Held::of(self.get(rt, pass))
    }

    /// Gives the state back, and the pass has seen it. It waits for nobody and takes no memory. The state that was taken leads to it, by
    /// work alone where the pass may open no clients, and what was added to the history is what the pass may add: calls of its own client,
    /// and, with the right to, the opening of one client where it has none.
    pub fn give(&self, pass: &mut Pass<S>, held: Held<S>)
        requires holding { IsHolding self.now pass.old }
        requires grows { MayGive (client pass.old) (opens pass.old)
            (taken pass.old) (S.history held) }
        requires leads { IsLed S.leads (state_taken pass.old) (Some held) }
        requires works { opens pass.old ≡ Never →
            IsLed S.works (state_taken pass.old) (Some held) }
        ensures free { IsPassOf self.now pass.new }
        ensures seen { seen pass.new ≡ S.history held }
        ensures last { last pass.new ≡ Some held }
        ensures client { client pass.new ≡ client_after (client pass.old)
            (added (taken pass.old) (S.history held)) }
        ensures right { opens pass.new ≡ opens pass.old }
    {
        self.put(pass, held.into_box());
    }

    /// Wakes one of the threads that sleep until the state is there, if some do. A give wakes nobody, so that a thread that goes on at
    /// once finds the state in its cache; who waits for others, or is done, wakes one first.
    pub fn wake_one(&self) {
        if self.sleepers.load(Ordering::SeqCst) != 0 {
            self.table.shared.wake_one(0);
        }
    }

    /// A pass that has seen the same, has no client and may not open any.
    pub fn split(&self, pass: &mut Pass<S>) -> Pass<S>
        requires { IsPassOf self.now pass.old }
        ensures pass { IsPassOf self.now pass.new }
        ensures same { (seen pass.new ≡ seen pass.old) × (client pass.new ≡ client pass.old) }
        ensures right { opens pass.new ≡ opens pass.old }
        ensures last { (last pass.new ≡ last pass.old) × (last result ≡ last pass.old) }
        ensures new { IsPassOf self.now result }
        ensures as_seen { (seen result ≡ seen pass.old) × (client result ≡ None) }
        ensures opens_none { opens result ≡ Never }
    {
        Pass {
            seat: self.table.shared.split_seat::<Cut>(&mut pass.seat),
        }
    }

    /// A pass that has seen the same, has no client and has the right that this one had, which may open no clients from then on.
    pub fn split_opener(&self, pass: &mut Pass<S>) -> Pass<S>
        requires { IsPassOf self.now pass.old }
        ensures pass { IsPassOf self.now pass.new }
        ensures same { (seen pass.new ≡ seen pass.old) × (client pass.new ≡ client pass.old) }
        ensures opens_none { opens pass.new ≡ Never }
        ensures last { (last pass.new ≡ last pass.old) × (last result ≡ last pass.old) }
        ensures new { IsPassOf self.now result }
        ensures as_seen { (seen result ≡ seen pass.old) × (client result ≡ None) }
        ensures right { opens result ≡ opens pass.old }
    {
        Pass {
            seat: self.table.shared.split_seat::<PassOn>(&mut pass.seat),
        }
    }

    /// A pass that has seen the same, has no client and may open clients, as this one may, and others. It is for threads that open
    /// clients themselves: none of them knows that nobody else opened one.
    pub fn split_sharing(&self, pass: &mut Pass<S>) -> Pass<S>
        requires pass { IsPassOf self.now pass.old }
        requires right { MayOpenClients (opens pass.old) }
        ensures pass { IsPassOf self.now pass.new }
        ensures same { (seen pass.new ≡ seen pass.old) × (client pass.new ≡ client pass.old) }
        ensures last { (last pass.new ≡ last pass.old) × (last result ≡ last pass.old) }
        ensures new { IsPassOf self.now result }
        ensures as_seen { (seen result ≡ seen pass.old) × (client result ≡ None) }
        ensures shared { (opens pass.new ≡ AmongOthers) × (opens result ≡ AmongOthers) }
    {
        Pass {
            seat: self.table.shared.split_seat::<Share>(&mut pass.seat),
        }
    }

    /// Lets two passes see the same: one history, which extends what each had seen. It waits until the state is there. Each keeps its
    /// client and its right.
    pub fn meet<R: Wait>(&self, rt: &R, first: Pass<S>, second: Pass<S>) -> (Pass<S>, Pass<S>)
        requires { IsPassOf self.now first × IsPassOf self.now second }
        ensures free { IsPassOf self.now result.0 × IsPassOf self.now result.1 }
        ensures one { seen result.0 ≡ seen result.1 }
        ensures one_state { last result.0 ≡ last result.1 }
        ensures known { (state : S) × (seen result.0 ≡ S.history state) ×
            (last result.0 ≡ Some state) }
        ensures led { IsLed S.leads (last first) (last result.0) ×
            IsLed S.leads (last second) (last result.1) }
        ensures first { Extends (seen result.0) (seen first) × (client result.0 ≡ client first) }
        ensures second { Extends (seen result.1) (seen second) × (client result.1 ≡ client second) }
        ensures calls_of_first { mine result.0 ≡ mine first }
        ensures calls_of_second { mine result.1 ≡ mine second }
        ensures rights { (opens result.0 ≡ opens first) × (opens result.1 ≡ opens second) }
        ensures first_worked { opens first ≡ Alone →
            IsLed S.works (last first) (last result.0) }
        ensures second_worked { opens second ≡ Alone →
            IsLed S.works (last second) (last result.1) }
        ensures first_alone { opens first ≡ Alone →
            openings_of (seen result.0) ≡ openings_of (seen first) }
        ensures second_alone { opens second ≡ Alone →
            openings_of (seen result.1) ≡ openings_of (seen second) }
    {
        let mut both = first;
        let Pass { seat } = second;
        self.table.shared.join_seat::<Meet>(&mut both.seat, seat);
        self.look(rt, &mut both);
        let other = Pass {
            seat: self.table.shared.split_seat::<Part>(&mut both.seat),
        };
        (both, other)
    }

    // Takes the state and gives it back as it is.
    fn look<R: Wait>(&self, rt: &R, pass: &mut Pass<S>)
        requires { IsPassOf self.now pass.old }
        ensures free { IsPassOf self.now pass.new }
        ensures own { ((view pass.new).own.client ≡ (view pass.old).own.client) ×
            CoversHalf (view pass.new).own.seen (view pass.old).own }
        ensures guest { ((view pass.new).guest.client ≡ (view pass.old).guest.client) ×
            CoversHalf (view pass.new).guest.seen (view pass.old).guest }
        ensures rights { ((view pass.new).own.opens ≡ (view pass.old).own.opens) ×
            ((view pass.new).guest.opens ≡ (view pass.old).guest.opens) }
        ensures one { (view pass.new).own.seen ≡ (view pass.new).guest.seen }
        ensures one_state { (view pass.new).own.last ≡ (view pass.new).guest.last }
        ensures known { (state : S) × ((view pass.new).own.seen ≡ S.history state) ×
            ((view pass.new).own.last ≡ Some state) }
        ensures led { AreLed S.leads S.works (view pass.old) (view pass.new).own.last }
    {
        let state = self.get(rt, pass);
        self.put(pass, state);
    }

    /// How often something was done to the state for which threads may wait: a call that waits, or a turn of a node that did something.
    pub fn progress(&self) -> &EventCount {
        &self.progress
    }

    /// Waits until the state is there, and ends the keeper with it. Of the state the pass knows what [`take`](Keeper::take) says.
    pub fn into_state<R: Wait>(self, rt: &R, pass: Pass<S>) -> S
    where
        S: Drop,
        requires { IsPassOf self pass }
        ensures led { IsLed S.leads (last pass) (Some result) }
        ensures worked { opens pass ≡ Alone → IsLed S.works (last pass) (Some result) }
        ensures extends { Extends (S.history result) (seen pass) }
        ensures mine { calls_of (client pass) (S.history result) ≡ mine pass }
        ensures alone { opens pass ≡ Alone →
            openings_of (S.history result) ≡ openings_of (seen pass) }
    {
        let mut pass = pass;
        let state = self.get(rt, &mut pass);
        // The state is out, so that nothing is closed with the rest.
        drop(self.close());
        Box::into_inner(state)
    }

    /// Ends the keeper and answers its state; `None` where the state was taken and isn't back.
    pub fn close(self) -> Option<S> {
        let Keeper {
            table,
            sleepers: _,
            progress: _,
        } = self;
        let mut closed = table.close();
        let state = closed.take(0);
        closed.free();
        state.map(|state| Box::into_inner(state))
    }
}
