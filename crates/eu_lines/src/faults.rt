//! Why a line is not answered, and why a script ended early.
ghost use Rattle.std.specs.Prelude.{◌≡◌, ◌+◌};
ghost use Rattle.eu_lines.specs.declared.faults.LineError.TheVariants as line_errors;
ghost use Rattle.eu_lines.specs.declared.faults.ScriptFault.TheVariants as script_faults;
ghost use Rattle.eu_lines.specs.Faults.{fault_at};

use eu_stream::{ReadFault, WriteFault};
use std::alloc::{AllocError, AllocFailed};
use thiserror::Error;

/// Why a line is not answered.
#[derive(Clone, Copy, Debug, PartialEq, Eq, Error)]
pub enum LineError {
    /// The line says nothing that can be answered here.
    #[error("bad line")]
    Bad,
    /// There was no memory for the answer.
    #[error("out of memory")]
    OutOfMemory,
}

impl From<AllocError> for LineError {
    ghost from_gives = { λ _ e. e ≡ line_errors.OutOfMemory };

    fn from(_error: AllocError) -> LineError {
        LineError::OutOfMemory
    }
}

impl<T: Drop> From<AllocFailed<T>> for LineError {
    ghost from_gives = { λ _ e. e ≡ line_errors.OutOfMemory };

    fn from(_error: AllocFailed<T>) -> LineError {
        LineError::OutOfMemory
    }
}

/// Why a script ended early.
#[derive(Clone, Copy, Debug, PartialEq, Eq, Error)]
pub enum ScriptFault {
    /// The line of this number is bad. Lines are numbered from 1, and empty ones are counted.
    #[error("line {0}: bad line")]
    BadLine(u64),
    /// A read failed, or the script has more bytes than a script may have.
    #[error("the script could not be read to its end")]
    Read,
    /// A write or a flush failed.
    #[error("the answers could not be written")]
    Write,
    /// There was no memory for the next line, or for its answer.
    #[error("out of memory")]
    OutOfMemory,
}

impl From<AllocError> for ScriptFault {
    ghost from_gives = { λ _ e. e ≡ script_faults.OutOfMemory };

    fn from(_error: AllocError) -> ScriptFault {
        ScriptFault::OutOfMemory
    }
}

impl From<ReadFault> for ScriptFault {
    ghost from_gives = { λ _ e. e ≡ script_faults.Read };

    fn from(_error: ReadFault) -> ScriptFault {
        ScriptFault::Read
    }
}

impl From<WriteFault> for ScriptFault {
    ghost from_gives = { λ _ e. e ≡ script_faults.Write };

    fn from(_error: WriteFault) -> ScriptFault {
        ScriptFault::Write
    }
}

/// The fault of a script whose line of this number was not answered.
pub fn fault_at(error: LineError, number: u64) -> ScriptFault
    ensures { result ≡ fault_at error number }
{
    match error {
        LineError::Bad => ScriptFault::BadLine(number),
        LineError::OutOfMemory => ScriptFault::OutOfMemory,
    }
}
