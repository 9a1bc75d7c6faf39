//! How an inode is leased.

/// How an inode is leased to a client: what a call visits is leased for reading, and what it changes for writing
/// (Assise, OSDI 2020, section 3).
#[derive(Clone, Copy, PartialEq, Eq, Debug)]
pub enum Mode {
    /// For reading: others may hold it for reading too.
    Read,
    /// For writing: nobody else holds it.
    Write,
}
