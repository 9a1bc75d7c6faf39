//! What threads tell each other.

use crate::messages::{MESSAGES, WRITERS};
use assise_workers::gate::{Gate, Point};
use std::sync::Wait;
use std::sync::atomic::{AtomicBool, AtomicU32, Ordering};
use std::thread;

/// How many threads deliver and read.
const CLIENTS: u32 = WRITERS + 2;

/// How many messages were answered, whether the node has failed, and how many threads have still to deliver or read.
#[derive(Drop)]
pub struct Tally {
    answered: AtomicU32,
    failed: AtomicBool,
    left: AtomicU32,
}

impl Tally {
    /// None was answered, and all have begun.
    pub fn new() -> Tally {
        Tally {
            answered: AtomicU32::new(0),
            failed: AtomicBool::new(false),
            left: AtomicU32::new(CLIENTS),
        }
    }

    /// One message more was answered.
    pub fn count_answered(&self) {
        self.answered.fetch_add(1, Ordering::SeqCst);
    }

    /// The node has failed, or won't any more.
    pub fn note_failure(&self) {
        self.failed.store(true, Ordering::SeqCst);
    }

    /// One thread more has to read.
    pub fn enter(&self) {
        self.left.fetch_add(1, Ordering::SeqCst);
    }

    /// A thread has delivered or read all that it has to, or can't go on.
    pub fn leave(&self) {
        self.left.fetch_sub(1, Ordering::SeqCst);
    }

    /// Waits until `count` messages were answered, or a thread has left.
    pub fn wait_until_answered<R: Wait>(&self, rt: &R, count: u32) {
        for _ in rt.forever() {
            let answered = self.answered.load(Ordering::SeqCst);
            if answered >= count || self.left.load(Ordering::SeqCst) < CLIENTS {
                return;
            }
            thread::yield_now();
        }
    }

    /// Waits until the node has failed.
    pub fn wait_for_failure<R: Wait>(&self, rt: &R) {
        for _ in rt.forever() {
            if self.failed.load(Ordering::SeqCst) {
                return;
            }
            thread::yield_now();
        }
    }
}

/// What nodes do goes on until all threads have left.
impl Gate for Tally {
    ghost is_open = { λ gate. ⊥ };

    fn pass(&self, _point: Point) -> bool {
        self.left.load(Ordering::SeqCst) > 0
    }
}

/// How many messages are delivered in all.
pub const ALL: usize = (WRITERS * MESSAGES) as usize;
