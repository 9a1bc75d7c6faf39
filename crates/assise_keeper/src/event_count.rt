//! How often something happened that threads wait for.

use std::sync::Wait;
use std::sync::atomic::{AtomicU64, Ordering};
use std::time::Duration;

/// A thread that waits is woken by a change of the low 32 bits of the count.
const LOW_WORD: u64 = 1 << 32;

/// How often something happened, for threads that wait until it happens again (Reed and Kanodia, Synchronization with Eventcounts and
/// Sequencers, CACM 1979, section 2). Who waits is woken, so nothing is looked at over and over; what it waits for it looks at again.
#[derive(Drop)]
pub struct EventCount {
    count: AtomicU64,
    sleepers: AtomicU64,
}

impl EventCount {
    /// It never happened.
    pub(crate) fn new() -> EventCount {
        EventCount {
            count: AtomicU64::new(0),
            sleepers: AtomicU64::new(0),
        }
    }

    /// How often it happened.
    pub fn read(&self) -> u64 {
        self.count.load(Ordering::SeqCst)
    }

    /// It happens once more: all who wait go on.
    pub fn advance(&self) {
        self.count.fetch_add(1, Ordering::SeqCst);
        if self.sleepers.load(Ordering::SeqCst) != 0 {
            self.count.wake_all();
        }
    }

    /// Waits while it hasn't happened since it was read, for so long at most. It may return early.
    pub fn wait<R: Wait>(&self, rt: &R, read: u64, most: Duration) {
        self.sleepers.fetch_add(1, Ordering::SeqCst);
        self.count.park_timeout(rt, (read % LOW_WORD) as u32, most);
        self.sleepers.fetch_sub(1, Ordering::SeqCst);
    }
}
