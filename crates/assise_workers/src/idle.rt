//! What a worker does between two turns.

use crate::worker::TurnEnd;
use assise_keeper::event_count::EventCount;
use std::sync::Wait;
use std::thread;
use std::time::Duration;

/// After how many turns in a row without anything to do a thread that tends all nodes only lets others run: a client that syncs soon
/// after the last time finds it awake.
const BRIEF_TURNS: u32 = 64;

/// How long it waits after each later one, in microseconds, until a call waits or another worker did something. Calls that wait for
/// nothing wake nobody, so their records come together in a frame.
const NAP_MICROS: u64 = 500;

/// How long a worker of one node waits at first, in microseconds. Clients that help make its turns while it sleeps, so each time it waits
/// twice as long.
const FIRST_NAP_MICROS: u64 = 10_000;

/// The longest that it waits, in microseconds.
const LONGEST_NAP_MICROS: u64 = 40_000;

/// How many turns in a row a worker found nothing to do, after how many it sleeps, how long next and at most, and what the count was
/// when it slept last.
#[derive(Drop)]
pub(crate) struct Idle {
    turns: u32,
    brief: u32,
    next_nap: u64,
    longest_nap: u64,
    slept_at: Option<u64>,
}

impl Idle {
    /// None so far, of a thread that tends all nodes.
    pub(crate) fn of_all() -> Idle {
        Idle {
            turns: 0,
            brief: BRIEF_TURNS,
            next_nap: NAP_MICROS,
            longest_nap: NAP_MICROS,
            slept_at: None,
        }
    }

    /// None so far, of one worker of a node.
    pub(crate) fn of_one() -> Idle {
        Idle {
            turns: 0,
            brief: 0,
            next_nap: FIRST_NAP_MICROS,
            longest_nap: LONGEST_NAP_MICROS,
            slept_at: None,
        }
    }

    /// Comes before the first turn: a worker of one node waits until something happened since the count was read, or for its first nap.
    pub(crate) fn begin<R: Wait>(&mut self, rt: &R, progress: &EventCount, read: u64) {
        self.sleep(rt, progress, read);
    }

    /// Leaves the state to others behind a turn, before which the count was read. It answers whether the worker goes on. Where the turn
    /// did something, those that wait are woken, if something happened since the worker slept: else no call waits that asked for it.
    pub(crate) fn rest<R: Wait>(
        &mut self,
        rt: &R,
        progress: &EventCount,
        read: u64,
        end: TurnEnd,
    ) -> bool {
        match end {
            TurnEnd::Stopped => return false,
            TurnEnd::Did(0) | TurnEnd::Refused(_) => self.pause(rt, progress, read),
            TurnEnd::Did(_) => {
                self.turns = 0;
                if self.slept_at != Some(progress.read()) {
                    progress.advance();
                }
                thread::yield_now();
            }
        }
        true
    }

    // Behind a turn without anything to do.
    fn pause<R: Wait>(&mut self, rt: &R, progress: &EventCount, read: u64) {
        if self.turns < self.brief {
            self.turns += 1;
            thread::yield_now();
        } else {
            self.sleep(rt, progress, read);
            self.next_nap = self.next_nap.saturating_mul(2).min(self.longest_nap);
        }
    }

    fn sleep<R: Wait>(&mut self, rt: &R, progress: &EventCount, read: u64) {
        self.slept_at = Some(read);
        progress.wait(rt, read, Duration::from_micros(self.next_nap));
    }
}
