//! Why a session ended early.
ghost use Rattle.std.specs.Prelude.{◌≡◌};
ghost use Rattle.eu_session.specs.declared.faults.SessionFault.TheVariants as session_faults;
ghost use Rattle.eu_session.specs.Fault.{fault_of};

use eu_base::Fault;
use eu_stream::WriteFault;
use std::alloc::AllocError;
use thiserror::Error;

/// Why a session ended early.
#[derive(Clone, Copy, Debug, PartialEq, Eq, Error)]
pub enum SessionFault {
    /// A read failed.
    #[error("a request could not be read")]
    Read,
    /// A write or a flush failed.
    #[error("a response could not be written")]
    Write,
    /// There was no memory for a request, or for its response.
    #[error("out of memory")]
    OutOfMemory,
}

impl SessionFault {
    /// The fault by which it is told: `Read` (40), `Write` (41) or `OutOfMemory` (3).
    pub fn fault(self) -> Fault
        ensures { result ≡ fault_of self }
    {
        match self {
            SessionFault::Read => Fault::Read,
            SessionFault::Write => Fault::Write,
            SessionFault::OutOfMemory => Fault::OutOfMemory,
        }
    }
}

impl From<AllocError> for SessionFault {
    ghost from_gives = { λ _ e. e ≡ session_faults.OutOfMemory };

    fn from(_error: AllocError) -> SessionFault {
        SessionFault::OutOfMemory
    }
}

impl From<WriteFault> for SessionFault {
    ghost from_gives = { λ _ e. e ≡ session_faults.Write };

    fn from(_error: WriteFault) -> SessionFault {
        SessionFault::Write
    }
}
