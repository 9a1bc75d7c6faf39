//! Why a call is not made.
ghost use Rattle.std.specs.Prelude.{Some};
ghost use Rattle.assise_names.specs.Text.{refusal_text};

use std::alloc::{AllocError, AllocFailed};
use std::error::Error;
use std::fmt;
use std::fmt::{Display, Formatter};

/// Why a call is not made. A refused call makes no entry in the history and changes no file.
#[derive(Clone, Copy, PartialEq, Eq, Debug)]
pub enum Refusal {
    /// No memory was to be had.
    OutOfMemory,
    /// The turn limit is spent, or a node that joins still has stale inodes.
    Busy,
    /// The client's node has failed since the client was opened, or the node isn't full.
    NodeDown,
    /// The client has crashed.
    ClientGone,
    /// The client has made as many inodes as one client may.
    InodesSpent,
    /// The data of a write has more than 65,536 bytes.
    TooLarge,
    /// The only full node can't fail.
    LastNode,
    /// There is no such node.
    BadNode,
    /// There is no such client, or no client can be opened any more.
    BadClient,
    /// The node isn't in the phase that the call needs.
    WrongPhase,
    /// A frame of another epoch, with a gap, or of records that aren't the client's.
    StaleMessage,
    /// The client's log has no room for a record.
    LogFull,
}

impl Display for Refusal {
    ghost output = { λ r. Some (refusal_text r) };

    fn fmt<W: fmt::Write>(&self, f: &mut Formatter<W>) -> fmt::Result {
        f.write_str(match self {
            Refusal::OutOfMemory => "F1 OutOfMemory",
            Refusal::Busy => "F2 Busy",
            Refusal::NodeDown => "F3 NodeDown",
            Refusal::ClientGone => "F4 ClientGone",
            Refusal::InodesSpent => "F5 InodesSpent",
            Refusal::TooLarge => "F6 TooLarge",
            Refusal::LastNode => "F7 LastNode",
            Refusal::BadNode => "F8 BadNode",
            Refusal::BadClient => "F9 BadClient",
            Refusal::WrongPhase => "F10 WrongPhase",
            Refusal::StaleMessage => "F11 StaleMessage",
            Refusal::LogFull => "F12 LogFull",
        })
    }
}

impl Error for Refusal {}

impl From<AllocError> for Refusal {
    ghost use Rattle.std.specs.Prelude.{◌≡◌};
    ghost use Rattle.assise_names.specs.declared.refusal.Refusal.TheVariants.{OutOfMemory};

    ghost from_gives = { λ _ refusal. refusal ≡ OutOfMemory };

    fn from(_error: AllocError) -> Refusal {
        Refusal::OutOfMemory
    }
}

impl<T: Drop> From<AllocFailed<T>> for Refusal {
    ghost use Rattle.std.specs.Prelude.{◌≡◌};
    ghost use Rattle.assise_names.specs.declared.refusal.Refusal.TheVariants.{OutOfMemory};

    ghost from_gives = { λ _ refusal. refusal ≡ OutOfMemory };

    fn from(_error: AllocFailed<T>) -> Refusal {
        Refusal::OutOfMemory
    }
}
