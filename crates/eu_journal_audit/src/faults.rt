//! Why a journal isn't audited.
use eu_journal_read::JournalFault;
use eu_script::ScriptFault;
use std::alloc::AllocError;
use thiserror::Error;

/// Why a journal isn't audited.
#[derive(Clone, Copy, Debug, Error, PartialEq, Eq)]
pub enum AuditFault {
    /// The line of this number, the first having 1, is the first that isn't one of a journal (`eu_journal_read::JournalFault`).
    #[error("line {0}: no line of a journal")]
    BadLine(u64),
    /// The text ended before the line of the digest.
    #[error("the journal isn't whole")]
    EndsEarly,
    /// A read failed, or the text is longer than a journal may be.
    #[error("a read failed")]
    Read,
    /// A write or a flush failed.
    #[error("a write failed")]
    Write,
    /// No memory was left.
    #[error("out of memory")]
    OutOfMemory,
}

impl From<JournalFault> for AuditFault {
    ghost use Rattle.std.specs.Prelude.{◌≡◌};
    ghost use Rattle.eu_journal_audit.specs.Faults.{fault_of};

    ghost from_gives = { λ error fault. fault ≡ fault_of error };

    fn from(error: JournalFault) -> AuditFault {
        match error {
            JournalFault::BadLine(line) => AuditFault::BadLine(line),
            JournalFault::EndsEarly => AuditFault::EndsEarly,
            JournalFault::Read => AuditFault::Read,
            JournalFault::OutOfMemory => AuditFault::OutOfMemory,
        }
    }
}

impl From<ScriptFault> for AuditFault {
    ghost use Rattle.std.specs.Prelude.{◌≡◌};
    ghost use Rattle.eu_journal_audit.specs.Faults.{script_fault_of};

    ghost from_gives = { λ error fault. fault ≡ script_fault_of error };

    fn from(error: ScriptFault) -> AuditFault {
        match error {
            ScriptFault::BadLine(line) => AuditFault::BadLine(line),
            ScriptFault::Read => AuditFault::Read,
            ScriptFault::Write => AuditFault::Write,
            ScriptFault::OutOfMemory => AuditFault::OutOfMemory,
        }
    }
}

impl From<AllocError> for AuditFault {
    ghost use Rattle.std.specs.Prelude.{◌≡◌};
    ghost use Rattle.eu_journal_audit.specs.declared.faults.AuditFault.TheVariants.{OutOfMemory};

    ghost from_gives = { λ _ fault. fault ≡ OutOfMemory };

    fn from(_error: AllocError) -> AuditFault {
        AuditFault::OutOfMemory
    }
}
