//! What a client wants.

use assise_names::mode::Mode;

/// A client of a node wants an inode in a mode.
#[derive(Clone, Copy, PartialEq, Eq, Debug)]
pub struct Request {
    /// The client.
    pub client: u32,
    /// Its node.
    pub node: u32,
    /// The inode.
    pub inode: u64,
    /// What the lease is to serve for.
    pub mode: Mode,
}
