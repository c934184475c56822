//! Why a journal isn't read.
use eu_lines::ScriptFault;
use std::alloc::{AllocError, AllocFailed};
use thiserror::Error;

/// Why a journal isn't read.
#[derive(Clone, Copy, Debug, Error, PartialEq, Eq)]
pub enum JournalFault {
    /// The line of this number, the first having 1, is too long, isn't a line of a journal, can't follow the lines before it, or is the digest of
    /// something else.
    #[error("line {0}: no line of a journal")]
    BadLine(u64),
    /// The text ended before the line of the digest.
    #[error("the journal isn't whole")]
    EndsEarly,
    /// A read failed, or the text is longer than a journal may be.
    #[error("a read failed")]
    Read,
    /// No memory was left.
    #[error("out of memory")]
    OutOfMemory,
}

impl From<AllocError> for JournalFault {
    ghost use Rattle.std.specs.Prelude.{◌≡◌};
    ghost use Rattle.eu_journal_read.specs.declared.faults.JournalFault.TheVariants.{OutOfMemory};

    ghost from_gives = { λ _ fault. fault ≡ OutOfMemory };

    fn from(_error: AllocError) -> JournalFault {
        JournalFault::OutOfMemory
    }
}

impl<T: Drop> From<AllocFailed<T>> for JournalFault {
    ghost use Rattle.std.specs.Prelude.{◌≡◌};
    ghost use Rattle.eu_journal_read.specs.declared.faults.JournalFault.TheVariants.{OutOfMemory};

    ghost from_gives = { λ _ fault. fault ≡ OutOfMemory };

    fn from(_error: AllocFailed<T>) -> JournalFault {
        JournalFault::OutOfMemory
    }
}

impl From<ScriptFault> for JournalFault {
    ghost use Rattle.std.specs.Prelude.{◌≡◌};
    ghost use Rattle.eu_journal_read.specs.Faults.{fault_of};

    ghost from_gives = { λ fault found. found ≡ fault_of fault };

    fn from(fault: ScriptFault) -> JournalFault {
        match fault {
            ScriptFault::BadLine(line) => JournalFault::BadLine(line),
            ScriptFault::Read | ScriptFault::Write => JournalFault::Read,
            ScriptFault::OutOfMemory => JournalFault::OutOfMemory,
        }
    }
}
