//! Why a cluster isn't renewed.
use assise_names::refusal::Refusal;
use std::alloc::AllocError;

/// Why a cluster isn't renewed.
#[derive(Clone, Copy, PartialEq, Eq, Debug)]
pub enum RenewalFault {
    /// A call of the old one or of the new one was refused.
    Refused(Refusal),
    /// Something lies deeper than a path goes, as in a directory that was moved below another.
    TooDeep,
}

impl From<AllocError> for RenewalFault {
    ghost use Rattle.std.specs.Prelude.{◌≡◌};
    ghost use Rattle.assise_names.specs.declared.refusal.Refusal.TheVariants.{OutOfMemory};
    ghost use Rattle.assise_renewal.specs.declared.renewal_fault.RenewalFault.TheVariants.{Refused};

    ghost from_gives = { λ _ fault. fault ≡ Refused OutOfMemory };

    fn from(_error: AllocError) -> RenewalFault {
        RenewalFault::Refused(Refusal::OutOfMemory)
    }
}

impl From<Refusal> for RenewalFault {
    ghost use Rattle.std.specs.Prelude.{◌≡◌};
    ghost use Rattle.assise_renewal.specs.declared.renewal_fault.RenewalFault.TheVariants.{Refused};

    ghost from_gives = { λ refusal fault. fault ≡ Refused refusal };

    fn from(refusal: Refusal) -> RenewalFault {
        RenewalFault::Refused(refusal)
    }
}
