//! The commands of a script.

use assise_names::call::Op;
use assise_names::durability::Durability;

/// Which part of its log a client hands over when a lease is asked back.
#[derive(Clone, Copy, Debug, PartialEq, Eq)]
pub enum RevokerKind {
    /// `least`.
    Least,
    /// `whole`.
    Whole,
    /// `eights`.
    Eights,
}

/// What the link of a node's replicator does to what it carries. A link counts its carries from 1.
#[derive(Clone, Copy, Debug, PartialEq, Eq)]
pub enum LinkKind {
    /// `perfect`: a carry brings what it was handed.
    Perfect,
    /// `lose`: a carry brings nothing.
    Lose,
    /// `repeat`: an odd carry brings what it was handed, an even one what the carry before it was handed.
    Repeat,
    /// `delay`: a carry brings what the carry before it was handed, and the first one nothing.
    Delay,
    /// `cut K`: a carry brings the first K bytes of what it was handed, or all where there are fewer.
    Cut(u64),
    /// `fault`: a carry fails.
    Fault,
}

/// A command of a script. A client's or a node's number is any `u64`: whether it names one is seen when the
/// command is run.
#[derive(Debug, Drop)]
pub enum Command {
    /// Makes the cluster. It comes once, before every other command.
    Cluster {
        /// How many nodes: 1 to `MOST_NODES`.
        nodes: u64,
        /// The most records of a client's log: 8 to 4,096.
        log: u64,
        /// The most inodes that a node keeps hot: 1 to 4,096.
        hot: u64,
    },
    /// From here on a call gets one try, and no round of the workers comes before or after it.
    Manual,
    /// Opens a client.
    Open {
        /// The node that it is opened on.
        node: u64,
        /// Its revoker.
        kind: RevokerKind,
        /// How its fsyncs are served.
        durability: Durability,
    },
    /// A call of a client.
    Call {
        /// The client.
        client: u64,
        /// Its call.
        op: Op,
    },
    /// One replicate turn of a node: what it sends is brought to the nodes that it is for.
    Carry {
        /// The node.
        node: u64,
    },
    /// One digest of a node.
    Digest {
        /// The node.
        node: u64,
    },
    /// The leases go that may.
    Release,
    /// A client crashes.
    Crash {
        /// The client.
        client: u64,
    },
    /// A node fails, with the clients on it.
    Fail {
        /// The node.
        node: u64,
    },
    /// A node that is down comes back: it is filled and joins. After `manual` it only begins to.
    Back {
        /// The node.
        node: u64,
    },
    /// A node that comes back gets one inode that it may lack.
    Refill {
        /// The node.
        node: u64,
    },
    /// A node that comes back and lacks no inode is full again.
    Join {
        /// The node.
        node: u64,
    },
    /// A full node reads and sends version 2 of frames from here on.
    Raise {
        /// The node.
        node: u64,
    },
    /// Sets the link of a node's replicator anew: its carries are counted from 1 again.
    Link {
        /// The node.
        node: u64,
        /// What the link does from here on.
        kind: LinkKind,
    },
    /// Sets how many inodes a node keeps hot at most.
    Hot {
        /// The node.
        node: u64,
        /// The most inodes that it keeps hot: 1 to 4,096.
        capacity: u64,
    },
    /// The tree, rebuilt from a node's region alone.
    Tree {
        /// The node.
        node: u64,
    },
    /// The history so far.
    History,
    /// Whether the history so far is legal.
    Check,
}

/// The first word of a command that isn't a client's call.
#[derive(Clone, Copy, Debug, PartialEq, Eq)]
pub(crate) enum Keyword {
    /// `cluster NODES LOG HOT`.
    Cluster,
    /// `manual`.
    Manual,
    /// `open NODE KIND [optimistic]`.
    Open,
    /// `carry NODE`.
    Carry,
    /// `digest NODE`.
    Digest,
    /// `release`.
    Release,
    /// `crash CLIENT`.
    Crash,
    /// `fail NODE`.
    Fail,
    /// `back NODE`.
    Back,
    /// `refill NODE`.
    Refill,
    /// `join NODE`.
    Join,
    /// `raise NODE`.
    Raise,
    /// `link NODE KIND`, or `link NODE cut K`.
    Link,
    /// `hot NODE CAPACITY`.
    Hot,
    /// `tree NODE`.
    Tree,
    /// `history`.
    History,
    /// `check`.
    Check,
}

/// The word that names a client's call.
#[derive(Clone, Copy, Debug, PartialEq, Eq)]
pub(crate) enum CallWord {
    /// `create P`.
    Create,
    /// `mkdir P`.
    Mkdir,
    /// `read P OFFSET LENGTH`.
    Read,
    /// `write P OFFSET DATA`.
    Write,
    /// `truncate P SIZE`.
    Truncate,
    /// `rename P Q`.
    Rename,
    /// `unlink P`.
    Unlink,
    /// `rmdir P`.
    Rmdir,
    /// `list P`.
    List,
    /// `stat P`.
    Stat,
    /// `fsync`.
    Fsync,
    /// `dsync`.
    Dsync,
}
