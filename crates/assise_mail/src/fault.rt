//! Why a call of the mail store came to nothing.
ghost use Rattle.std.specs.Prelude.{Some};
ghost use Rattle.assise_mail.specs.Faults.{mail_fault_text};

use assise_names::refusal::Refusal;
use assise_names::reply::Reply;
use std::alloc::{AllocError, AllocFailed};
use std::error::Error;
use std::fmt;
use std::fmt::{Display, Formatter};

/// Why a call of the mail store came to nothing.
#[derive(Debug, Drop)]
pub enum MailFault {
    /// The file system refused a call.
    Refused(Refusal),
    /// The file system answered a call this, and not what it had to.
    Answered(Reply),
}

impl Display for MailFault {
    ghost output = { λ fault. Some (mail_fault_text fault) };

    fn fmt<W: fmt::Write>(&self, f: &mut Formatter<W>) -> fmt::Result {
        match self {
            MailFault::Refused(refusal) => write!(f, "refused: {refusal}"),
            MailFault::Answered(reply) => write!(f, "answered: {reply}"),
        }
    }
}

impl Error for MailFault {}

impl From<Refusal> for MailFault {
    ghost use Rattle.std.specs.Prelude.{◌≡◌};
    ghost use Rattle.assise_mail.specs.declared.fault.MailFault.TheVariants.{Refused};

    ghost from_gives = { λ refusal fault. fault ≡ Refused refusal };

    fn from(refusal: Refusal) -> MailFault {
        MailFault::Refused(refusal)
    }
}

impl From<AllocError> for MailFault {
    ghost use Rattle.std.specs.Prelude.{◌≡◌};
    ghost use Rattle.assise_names.specs.declared.refusal.Refusal.TheVariants.{OutOfMemory};
    ghost use Rattle.assise_mail.specs.declared.fault.MailFault.TheVariants.{Refused};

    ghost from_gives = { λ _ fault. fault ≡ Refused OutOfMemory };

    fn from(_error: AllocError) -> MailFault {
        MailFault::Refused(Refusal::OutOfMemory)
    }
}

impl<T: Drop> From<AllocFailed<T>> for MailFault {
    fn from(_error: AllocFailed<T>) -> MailFault {
        MailFault::Refused(Refusal::OutOfMemory)
    }
}
