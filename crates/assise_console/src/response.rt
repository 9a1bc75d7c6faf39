//! What commands answer.
use assise_names::refusal::Refusal;
use assise_names::reply::Reply;
use assise_seq_tree::tree::Tree;

/// What a command answers.
pub enum Response {
    /// Nothing is printed.
    Quiet,
    /// The client that was opened.
    Client(u32),
    /// The reply of a call.
    Replied(Reply),
    /// A lease or a replication is awaited, and the call isn't tried again.
    Waits,
    /// What was asked for isn't done.
    Refused(Refusal),
    /// How many frames were taken in.
    Carried(u64),
    /// How many records were digested.
    Digested(usize),
    /// How many leases of clients went.
    Released(usize),
    /// The node whose link is another now.
    Linked(u32),
    /// The node whose hot capacity was set.
    HotSet(u32),
    /// The client that crashed.
    Crashed(u32),
    /// The node that failed, and each client that lost a record, with its first lost call.
    Failed(u32, Vec<(u32, u64)>),
    /// The node that begins to come back, and how many inodes it may lack.
    Began(u32, usize),
    /// How many inodes a node may lack then.
    Left(usize),
    /// The node that is full again.
    Returned(u32),
    /// The node that reads and sends version 2 of frames now.
    Raised(u32),
    /// The tree of a node is printed.
    Tree(Tree),
    /// The history so far is printed.
    History,
    /// Whether the history so far is legal.
    Checked(bool),
}

// One call lets go of it, wherever it is owned.
impl Drop for Response {
    fn drop(self) {
        match self {
            Response::Quiet
            | Response::Client(_)
            | Response::Replied(_)
            | Response::Waits
            | Response::Refused(_)
            | Response::Carried(_)
            | Response::Digested(_)
            | Response::Released(_)
            | Response::Linked(_)
            | Response::HotSet(_)
            | Response::Crashed(_)
            | Response::Failed(_, _)
            | Response::Began(_, _)
            | Response::Left(_)
            | Response::Returned(_)
            | Response::Raised(_)
            | Response::Tree(_)
            | Response::History
            | Response::Checked(_) => (),
        }
    }
}
