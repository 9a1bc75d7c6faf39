//! Answered calls, and what a failure loses.

use assise_names::call::Op;
use assise_names::reply::Reply;

/// An answered call.
#[derive(Debug)]
pub struct Call {
    /// The client that called.
    pub client: u32,
    /// How many calls of the client were answered before.
    pub number: u64,
    /// What was asked.
    pub op: Op,
    /// What was answered.
    pub reply: Reply,
}

// One call lets go of it, wherever it is owned.
impl Drop for Call {
    fn drop(self) {
        let Call {
            client: _,
            number: _,
            op: _,
            reply: _,
        } = self;
    }
}

/// What a failure loses of a client: its calls from a number on.
#[derive(Clone, Copy, PartialEq, Eq, Debug)]
pub struct Loss {
    /// The client.
    pub client: u32,
    /// The number of its first lost call.
    pub first: u64,
}
