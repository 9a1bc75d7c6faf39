//! Phases of nodes.

/// How a node stands in the cluster (Assise, OSDI 2020, section 3, on recovery).
#[derive(Clone, Copy, PartialEq, Eq, Debug)]
pub enum Phase {
    /// It takes part in replication, and has all that is replicated.
    Full,
    /// It failed.
    Down,
    /// It comes back: what it may lack is copied to it.
    Returning,
}
