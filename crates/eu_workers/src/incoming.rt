//! Where workers get their connections from.
ghost use Rattle.std.specs.Prelude.{◌≡◌, None};

use eu_hall::{Left, Visit};
use eu_session::Talk;
use std::io::{Read, Write};

/// Where the connections come from that a worker visits.
pub trait Incoming {
    // What holds where no more will come. Nothing is to be told of it but where a caller wants that.
    ghost ended: { Self → Type 0 } = { λ _. Unit {0} };

    /// The socket of a connection.
    type Socket: Read + Write + Send;

    /// The next connection for which there is something to do, or none where no more will come. It may take as long as it wants.
    fn next(&mut self) -> Option<Visit<Self::Socket, Talk>>
        ensures { result ≡ None → ended self.new };

    /// Takes a connection back after a visit, which left it so.
    fn take_back(&mut self, visit: Visit<Self::Socket, Talk>, left: Left);
}
