//! What a client does behind a try that waits.

use assise_keeper::event_count::EventCount;
use std::sync::Wait;
use std::thread;
use std::time::Duration;

/// After how many tries of a call its client only lets others run.
const BRIEF_TURNS: u32 = 16;

/// How long it waits for a worker after each later try, in microseconds. It is the same for every try, so that who waits longer tries
/// no less often.
const NAP_MICROS: u64 = 100;

/// A try of a call that waits for a lease or a replication.
#[derive(Clone, Copy)]
pub struct Waited {
    /// Its number among the tries of the call, from 0 on.
    pub turn: u32,
    /// How often something had happened before it that calls wait for (`Keeper::progress`).
    pub read: u64,
}

/// Lets others go on behind a try: what is awaited comes from them. Workers that sleep are woken by the first; a later one waits until
/// some worker did something since the count was read.
pub(crate) fn pause<R: Wait>(rt: &R, progress: &EventCount, waited: Waited) {
    if waited.turn == 0 {
        progress.advance();
    }
    if waited.turn < BRIEF_TURNS {
        thread::yield_now();
    } else {
        progress.wait(rt, waited.read, Duration::from_micros(NAP_MICROS));
    }
}
