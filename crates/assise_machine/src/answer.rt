//! What an event is answered with.
use assise_machine_calls::turn::Turn;
use assise_names::refusal::Refusal;
use assise_record::frame::Frame;

/// What the call of the cluster answers that an event is.
#[derive(Debug, Drop)]
pub enum Answer {
    /// The number of the client that was opened.
    Opened(Result<u32, Refusal>),
    /// What came of a call or an fsync.
    Called(Result<Turn, Refusal>),
    /// Frames, each with the node that it is for.
    Sent(Result<Vec<(Frame, u32)>, Refusal>),
    /// The place behind the last record of the frame's client that the node has.
    Received(Result<u64, Refusal>),
    /// How many records were digested.
    Digested(Result<usize, Refusal>),
    /// How many leases of clients went.
    Released(usize),
    /// Whether the node's hot capacity was set.
    HotSet(Result<(), Refusal>),
    /// Whether a client crashed.
    Crashed(Result<(), Refusal>),
    /// Each client that lost a record, with its first lost call.
    Failed(Result<Vec<(u32, u64)>, Refusal>),
    /// How many inodes a node may lack that begins to come back.
    Began(Result<usize, Refusal>),
    /// How many inodes it may lack then.
    Left(Result<usize, Refusal>),
    /// Whether a node is full again.
    Joined(Result<(), Refusal>),
    /// Whether a node was raised.
    Raised(Result<(), Refusal>),
}
