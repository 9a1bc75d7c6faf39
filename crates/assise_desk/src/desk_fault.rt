//! Why a request has no answer, as a number.
ghost use Rattle.std.specs.Prelude.{◌≡◌};
ghost use Rattle.assise_desk.specs.FaultCodes.{fault_code, path_code, refusal_code, tree_error_code};

use assise_names::path::PathFault;
use assise_names::refusal::Refusal;
use assise_names::reply::TreeError;
use assise_renewal::renewal_fault::RenewalFault;
use std::alloc::{AllocError, AllocFailed};

/// Why a request has no answer of its own.
#[derive(Clone, Copy, PartialEq, Eq, Debug)]
pub enum DeskFault {
    /// The tree doesn't do what a call asks. It is an answer: the call stands in the history.
    Tree(TreeError),
    /// The call was refused, and stands in no history.
    Refused(Refusal),
    /// The bytes of a path spell none.
    Path(PathFault),
    /// The desk has no cluster.
    NoCluster,
    /// It isn't a request: its number names none, its numbers are out of range, or its bytes are more than the desk has.
    BadRequest,
    /// The answer has more bytes than the desk.
    NoRoom,
}

impl From<Refusal> for DeskFault {
    ghost use Rattle.std.specs.Prelude.{◌≡◌};
    ghost use Rattle.assise_desk.specs.declared.desk_fault.DeskFault.TheVariants.{Refused};

    ghost from_gives = { λ refusal fault. fault ≡ Refused refusal };

    fn from(refusal: Refusal) -> DeskFault {
        DeskFault::Refused(refusal)
    }
}

impl From<PathFault> for DeskFault {
    ghost use Rattle.std.specs.Prelude.{◌≡◌};
    ghost use Rattle.assise_desk.specs.FaultCodes.{of_path_fault};

    ghost from_gives = { λ found fault. fault ≡ of_path_fault found };

    fn from(fault: PathFault) -> DeskFault {
        match fault {
            PathFault::Memory => DeskFault::Refused(Refusal::OutOfMemory),
            fault => DeskFault::Path(fault),
        }
    }
}

impl From<RenewalFault> for DeskFault {
    ghost use Rattle.std.specs.Prelude.{◌≡◌};
    ghost use Rattle.assise_desk.specs.FaultCodes.{of_renewal_fault};

    ghost from_gives = { λ found fault. fault ≡ of_renewal_fault found };

    fn from(fault: RenewalFault) -> DeskFault {
        match fault {
            RenewalFault::Refused(refusal) => DeskFault::Refused(refusal),
            RenewalFault::TooDeep => DeskFault::Path(PathFault::TooDeep),
        }
    }
}

impl From<AllocError> for DeskFault {
    ghost use Rattle.std.specs.Prelude.{◌≡◌};
    ghost use Rattle.assise_desk.specs.FaultCodes.{no_memory};

    ghost from_gives = { λ _ fault. fault ≡ no_memory };

    fn from(_error: AllocError) -> DeskFault {
        DeskFault::Refused(Refusal::OutOfMemory)
    }
}

impl<T: Drop> From<AllocFailed<T>> for DeskFault {
    ghost use Rattle.std.specs.Prelude.{◌≡◌};
    ghost use Rattle.assise_desk.specs.FaultCodes.{no_memory};

    ghost from_gives = { λ _ fault. fault ≡ no_memory };

    fn from(_error: AllocFailed<T>) -> DeskFault {
        DeskFault::Refused(Refusal::OutOfMemory)
    }
}

impl DeskFault {
    /// Its number, which is below 0.
    pub fn code(self) -> i64
        ensures { result ≡ fault_code self }
    {
        match self {
            DeskFault::Tree(error) => tree_error_code(error),
            DeskFault::Refused(refusal) => refusal_code(refusal),
            DeskFault::Path(fault) => path_code(fault),
            DeskFault::NoCluster => -301,
            DeskFault::BadRequest => -302,
            DeskFault::NoRoom => -303,
        }
    }
}

/// The number of what the tree doesn't do.
fn tree_error_code(error: TreeError) -> i64
    ensures { result ≡ tree_error_code error }
{
    match error {
        TreeError::NoEnt => -1,
        TreeError::Exists => -2,
        TreeError::NotDir => -3,
        TreeError::IsDir => -4,
        TreeError::NotEmpty => -5,
        TreeError::Invalid => -6,
        TreeError::TooBig => -7,
        TreeError::DirFull => -8,
    }
}

/// The number of a refusal.
fn refusal_code(refusal: Refusal) -> i64
    ensures { result ≡ refusal_code refusal }
{
    match refusal {
        Refusal::OutOfMemory => -101,
        Refusal::Busy => -102,
        Refusal::NodeDown => -103,
        Refusal::ClientGone => -104,
        Refusal::InodesSpent => -105,
        Refusal::TooLarge => -106,
        Refusal::LastNode => -107,
        Refusal::BadNode => -108,
        Refusal::BadClient => -109,
        Refusal::WrongPhase => -110,
        Refusal::StaleMessage => -111,
        Refusal::LogFull => -112,
    }
}

/// The number of a path's fault.
fn path_code(fault: PathFault) -> i64
    ensures { result ≡ path_code fault }
{
    match fault {
        PathFault::NotAbsolute => -201,
        PathFault::EmptyName => -202,
        PathFault::BadName => -203,
        PathFault::NameTooLong => -204,
        PathFault::TooDeep => -205,
        PathFault::Memory => -206,
    }
}
