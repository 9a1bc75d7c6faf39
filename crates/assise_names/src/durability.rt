//! How a client's fsyncs are served.

/// How a client is opened: what its fsyncs wait for (Assise, OSDI 2020, section 3).
#[derive(Clone, Copy, PartialEq, Eq, Debug)]
pub enum Durability {
    /// An fsync is answered once all calls before it are replicated.
    Pessimistic,
    /// An fsync is answered at once, and promises nothing; a dsync waits.
    Optimistic,
}
