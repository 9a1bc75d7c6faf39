//! What a thread has seen.
use crate::view::View;
use atomic_table::Seat;

/// What a thread has seen of the history, and its client. It has no bytes. A contract sees what it has `seen`, the state that
/// it has seen `last`, its `client`, and `mine`, the client's answered calls in what was seen.
#[derive(Drop)]
pub struct Pass<S> {
    pub(crate) seat: Seat<Option<Box<S>>, View<S>>,
}
