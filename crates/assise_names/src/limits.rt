//! How large a cluster and a file may be.

/// The most nodes of a cluster. They are numbered from 1.
pub const MOST_NODES: u32 = 16;

/// The most clients that are opened over one run of a cluster. They are numbered from 1, and no number is given twice.
pub const MOST_CLIENTS: u32 = 32;

/// The most bytes of a file.
pub const MOST_FILE_BYTES: u64 = 1_048_576;
