//! What is wrong with a script.
ghost use Rattle.std.specs.Prelude.{Some};
ghost use Rattle.assise_fault_script.specs.Fault.{fault_text};

use assise_names::path::PathFault;
use std::alloc::AllocError;
use std::error::Error;
use std::fmt;
use std::fmt::{Display, Formatter};

/// What is wrong with a line of a script.
#[derive(Clone, Copy, PartialEq, Eq, Debug)]
pub enum ScriptFault {
    /// The line is no comment and isn't UTF-8.
    NotUtf8,
    /// The first word is no command, or what stands behind a client's number is no call.
    UnknownCommand,
    /// The command has too few words or too many.
    WrongCount,
    /// A word isn't a decimal number below 2^64.
    BadNumber,
    /// A word spells no path.
    BadPath(PathFault),
    /// A word is no data.
    BadData,
    /// A word names no revoker.
    BadKind,
    /// A command stands before `cluster`.
    NoCluster,
    /// `cluster` stands there once more.
    SecondCluster,
    /// A number of `cluster`, or the capacity of `hot`, is too small or too large.
    BadLimit,
    /// No memory was to be had, at a line without another fault.
    Memory,
    /// A word names no kind of link.
    BadLink,
    /// A word names no way to open a client.
    BadMode,
}

impl Display for ScriptFault {
    ghost output = { λ fault. Some (fault_text fault) };

    fn fmt<W: fmt::Write>(&self, f: &mut Formatter<W>) -> fmt::Result {
        let text = match self {
            ScriptFault::NotUtf8 => "not UTF-8",
            ScriptFault::UnknownCommand => "unknown command",
            ScriptFault::WrongCount => "wrong number of words",
            ScriptFault::BadNumber => "bad number",
            ScriptFault::BadPath(fault) => return write!(f, "bad path: {fault}"),
            ScriptFault::BadData => "bad data",
            ScriptFault::BadKind => "unknown revoker",
            ScriptFault::NoCluster => "no cluster yet",
            ScriptFault::SecondCluster => "second cluster",
            ScriptFault::BadLimit => "out of limits",
            ScriptFault::Memory => "out of memory",
            ScriptFault::BadLink => "unknown link",
            ScriptFault::BadMode => "unknown mode",
        };
        f.write_str(text)
    }
}

impl Error for ScriptFault {}

impl From<AllocError> for ScriptFault {
    ghost use Rattle.std.specs.Prelude.{◌≡◌};
    ghost use Rattle.assise_fault_script.specs.declared.fault.ScriptFault.TheVariants.{Memory};

    ghost from_gives = { λ _ fault. fault ≡ Memory };

    fn from(_error: AllocError) -> ScriptFault {
        ScriptFault::Memory
    }
}

/// A faulty line and its first fault.
#[derive(Clone, Copy, PartialEq, Eq, Debug)]
pub struct LineFault {
    /// The line's number. The first line has 1.
    pub line: u64,
    /// What is wrong with it.
    pub fault: ScriptFault,
}
