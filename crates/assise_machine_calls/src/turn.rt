//! What a call that was tried came to.
use assise_names::reply::Reply;

/// What a call that was tried came to.
#[derive(Debug, Drop)]
pub enum Turn {
    /// It was answered.
    Answered(Reply),
    /// A lease or a replication is awaited: the call may be tried again.
    NotYet,
}
