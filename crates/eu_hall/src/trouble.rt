//! What an error of a reader or a writer means.
ghost use Rattle.std.specs.Prelude.{◌≡◌};
ghost use Rattle.std.specs.IoError.{error_kind};
ghost use Rattle.eu_hall.specs.Troubles.{trouble_of};

use std::io;
use std::io::ErrorKind;

/// What an error of a reader or a writer means that never waits.
#[derive(Clone, Copy, Debug, PartialEq, Eq)]
pub(crate) enum Trouble {
    /// A signal came before the call was over: it is made again.
    Again,
    /// The call would have waited.
    Waits,
    /// The call has failed.
    Failed,
}

/// What that error means.
pub(crate) fn meaning(error: &io::Error) -> Trouble
    ensures { result ≡ trouble_of (error_kind error.now) }
{
    match error.kind() {
        ErrorKind::Interrupted => Trouble::Again,
        ErrorKind::WouldBlock => Trouble::Waits,
        _ => Trouble::Failed,
    }
}
