//! Why a journal isn't written, or isn't read.
use eu_stream::WriteFault;
use std::alloc::AllocError;
use thiserror::Error;

/// Why a journal isn't written.
#[derive(Clone, Copy, Debug, Error, PartialEq, Eq)]
pub enum WriteError {
    /// A write failed.
    #[error("a write failed")]
    Write,
    /// No memory was left.
    #[error("out of memory")]
    OutOfMemory,
}

impl From<AllocError> for WriteError {
    ghost use Rattle.std.specs.Prelude.{◌≡◌};
    ghost use Rattle.eu_journal_text.specs.declared.faults.WriteError.TheVariants.{OutOfMemory};

    ghost from_gives = { λ _ fault. fault ≡ OutOfMemory };

    fn from(_error: AllocError) -> WriteError {
        WriteError::OutOfMemory
    }
}

impl From<WriteFault> for WriteError {
    ghost use Rattle.std.specs.Prelude.{◌≡◌};
    ghost use Rattle.eu_journal_text.specs.declared.faults.WriteError.TheVariants.{Write};

    ghost from_gives = { λ _ fault. fault ≡ Write };

    fn from(_error: WriteFault) -> WriteError {
        WriteError::Write
    }
}
