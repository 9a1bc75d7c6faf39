//! Where workers may be held.
ghost use Rattle.std.specs.Prelude.{◌≡◌, true};

use std::alloc::Global;
use std::sync::Arc;
use std::sync::atomic::{AtomicBool, Ordering};

/// Where a worker is.
#[derive(Clone, Copy, PartialEq, Eq, Debug)]
pub enum Point {
    /// A frame is about to be carried.
    BeforeCarry,
    /// A frame is about to be delivered.
    BeforeDeliver,
    /// A node is about to digest.
    BeforeDigest,
    /// A turn is about to begin.
    Turn,
}

/// What holds workers, and ends their loops: a worker passes its gate at each [`Point`], always while the state is free for others.
pub trait Gate: Sync {
    /// That it ends no loop: of a gate that may end one, nothing.
    ghost is_open: { Self → Type 0 };

    /// Returns once the worker may go on, and answers whether it does: on false its loop ends.
    fn pass(&self, point: Point) -> bool
        ensures { is_open self.now → result ≡ true };
}

/// The gate through which all pass.
#[derive(Drop)]
pub struct OpenGate;

impl Gate for OpenGate {
    ghost is_open = { λ gate. Unit {0} };

    fn pass(&self, _point: Point) -> bool {
        true
    }
}

/// A gate of clients' workers, through which they pass as through another, until all clients are done.
#[derive(Drop)]
pub(crate) struct UntilDone<'a, G> {
    pub(crate) gate: &'a G,
    pub(crate) done: Arc<AtomicBool, Global>,
}

impl<'a, G: Gate> Gate for UntilDone<'a, G> {
    ghost is_open = { λ gate. ⊥ };

    fn pass(&self, point: Point) -> bool {
        !self.done.load(Ordering::SeqCst) && self.gate.pass(point)
    }
}
