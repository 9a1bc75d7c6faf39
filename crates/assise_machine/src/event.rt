//! What may happen to a cluster.
use crate::hot::HotCapacity;
use assise_names::call::Op;
use assise_names::durability::Durability;
use assise_record::frame::Frame;

/// One call of a [`ClusterOf`](crate::cluster::ClusterOf).
#[derive(Debug)]
pub enum Event {
    /// A client is opened on a node, with a revoker of the stock; this is how its fsyncs are served.
    Open(u32, Durability),
    /// A client tries a call.
    Call(u32, Op),
    /// A client tries an fsync.
    Fsync(u32),
    /// A node sends what it has for others.
    Outgoing(u32),
    /// A frame comes to a node.
    Deliver(Frame, u32),
    /// A node digests what all full nodes have.
    Digest(u32),
    /// Leases that were asked for go, where they may.
    ReleaseReady,
    /// How many inodes may be hot at a node is set.
    SetHot(u32, HotCapacity),
    /// A client crashes.
    Crash(u32),
    /// A node fails.
    Fail(u32),
    /// A node that was down begins to come back.
    Back(u32),
    /// A node that comes back gets an inode that it may lack.
    Refill(u32),
    /// A node that came back is full again.
    Join(u32),
    /// A node reads and sends marked frames from now on.
    Raise(u32),
}

// One call lets go of it, wherever it is owned.
impl Drop for Event {
    fn drop(self) {
        match self {
            Event::Open(_, _)
            | Event::Call(_, _)
            | Event::Fsync(_)
            | Event::Outgoing(_)
            | Event::Deliver(_, _)
            | Event::Digest(_)
            | Event::ReleaseReady
            | Event::SetHot(_, _)
            | Event::Crash(_)
            | Event::Fail(_)
            | Event::Back(_)
            | Event::Refill(_)
            | Event::Join(_)
            | Event::Raise(_) => (),
        }
    }
}
