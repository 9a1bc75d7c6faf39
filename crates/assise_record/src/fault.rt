//! Why bytes are no frame.
ghost use Rattle.std.specs.Prelude.{Some};
ghost use Rattle.assise_record.specs.FaultText.{frame_fault_text};

use std::alloc::{AllocError, AllocFailed};
use std::error::Error;
use std::fmt;
use std::fmt::{Display, Formatter};

/// Why bytes begin with no frame: the first thing that is found from left to right.
#[derive(Clone, Copy, PartialEq, Eq, Debug)]
pub enum FrameFault {
    /// The bytes end inside the header, or before the end of the body. More bytes may make a frame of them.
    Short,
    /// The first two bytes are not those of every frame.
    BadMagic,
    /// A version that is not known.
    BadVersion,
    /// No effect has the tag.
    BadTag,
    /// A field runs past the body's end, or bytes are left in the body behind the last record.
    BadLength,
    /// A number out of its range, or bytes that are no name.
    BadValue,
    /// No memory was to be had.
    Memory,
}

/// The fault in words.
impl Display for FrameFault {
    ghost output = { λ fault. Some (frame_fault_text fault) };

    fn fmt<W: fmt::Write>(&self, f: &mut Formatter<W>) -> fmt::Result {
        match self {
            FrameFault::Short => write!(f, "short frame"),
            FrameFault::BadMagic => write!(f, "bad magic"),
            FrameFault::BadVersion => write!(f, "bad version"),
            FrameFault::BadTag => write!(f, "bad tag"),
            FrameFault::BadLength => write!(f, "bad length"),
            FrameFault::BadValue => write!(f, "bad value"),
            FrameFault::Memory => write!(f, "out of memory"),
        }
    }
}

impl Error for FrameFault {}

impl From<AllocError> for FrameFault {
    ghost use Rattle.std.specs.Prelude.{◌≡◌};
    ghost use Rattle.assise_record.specs.declared.fault.FrameFault.TheVariants.{Memory};

    ghost from_gives = { λ _ fault. fault ≡ Memory };

    fn from(_error: AllocError) -> FrameFault {
        FrameFault::Memory
    }
}

impl<T: Drop> From<AllocFailed<T>> for FrameFault {
    ghost use Rattle.std.specs.Prelude.{◌≡◌};
    ghost use Rattle.assise_record.specs.declared.fault.FrameFault.TheVariants.{Memory};

    ghost from_gives = { λ _ fault. fault ≡ Memory };

    fn from(_error: AllocFailed<T>) -> FrameFault {
        FrameFault::Memory
    }
}
