//! Gates that hold workers while others go on.
use assise_workers::gate::{Gate, Point};
use std::sync::atomic::{AtomicBool, AtomicU64, Ordering};
use std::thread;

/// How often a gate looks at most.
const LOOKS: u32 = 100_000;

/// Looks until the flag is set, but not for ever. Whether it was.
fn wait_for(flag: &AtomicBool) -> bool {
    for _ in 0..LOOKS {
        if flag.load(Ordering::SeqCst) {
            return true;
        }
        thread::yield_now();
    }
    false
}

/// Holds the first frame until another client is answered, and ends workers once the first one has synced.
#[derive(Drop)]
pub(crate) struct UntilAnswered {
    /// A frame is held, or was.
    pub(crate) held: AtomicBool,
    /// The other client was answered.
    pub(crate) answered: AtomicBool,
    /// It was while the frame was held.
    pub(crate) came: AtomicBool,
    /// The first client has synced.
    pub(crate) synced: AtomicBool,
}

impl Gate for UntilAnswered {
    ghost is_open = { λ gate. ⊥ };

    fn pass(&self, point: Point) -> bool {
        if point == Point::BeforeCarry && !self.held.swap(true, Ordering::SeqCst) {
            self.came.store(wait_for(&self.answered), Ordering::SeqCst);
        }
        !self.synced.load(Ordering::SeqCst)
    }
}

/// Holds the first two frames until both have come, and a digest after them.
#[derive(Drop)]
pub(crate) struct AllAtOnce {
    /// How many frames have come.
    pub(crate) frames: AtomicU64,
    /// A digest came behind two frames.
    pub(crate) digest: AtomicBool,
    /// How many frames were let go of by that.
    pub(crate) freed: AtomicU64,
}

impl Gate for AllAtOnce {
    ghost is_open = { λ gate. Unit {0} };

    fn pass(&self, point: Point) -> bool {
        match point {
            Point::BeforeCarry => {
                let before = self.frames.fetch_add(1, Ordering::SeqCst);
                if before < 2 && wait_for(&self.digest) {
                    self.freed.fetch_add(1, Ordering::SeqCst);
                }
            }
            Point::BeforeDigest => {
                if self.frames.load(Ordering::SeqCst) >= 2 {
                    self.digest.store(true, Ordering::SeqCst);
                }
            }
            Point::BeforeDeliver | Point::Turn => (),
        }
        true
    }
}
