//! Calls that a signal interrupts.
ghost use Rattle.std.specs.Prelude.{◌≡◌, if◌then◌else◌, Some, None};
ghost use Rattle.eu_stream.specs.Tries.{was_interrupted};

use std::io;
use std::io::ErrorKind;

/// What a call gave, or None where a signal interrupted it, so that it is to be made again.
pub(crate) fn unless_interrupted<T>(given: io::Result<T>) -> Option<io::Result<T>>
    ensures { result ≡ (if was_interrupted given then None else Some given) }
{
    match given {
        Err(error) if error.kind() == ErrorKind::Interrupted => None,
        given => Some(given),
    }
}
