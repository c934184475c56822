//! Whether standard error takes a line at once.
ghost use Rattle.std.specs.Prelude.{◌≡◌};
ghost use Rattle.eu_accept.specs.Outlets as spec;

use libc::net::{POLLOUT, poll};
use libc::types::pollfd;
use std::os::fd::RawFd;

/// The descriptor of standard error.
const STANDARD_ERROR: RawFd = 2;

/// Whether a descriptor takes a line at once, where a poll of it alone gave that result and told that of it: that it can be written, and nothing else. Where the poll
/// failed, it might not; and where an error or an end is told, too, the line would be lost in any case.
fn takes_line(polled: i32, told: i16) -> bool
    ensures { result ≡ spec.takes_line polled told }
{
    polled == 1 && told == POLLOUT
}

/// Whether standard error takes a line now, so that nobody waits who writes one. A pipe that can be written has a page of 4,096 bytes free (pipe_poll of Linux), in
/// which some lines of other threads fit, too.
pub(crate) fn takes_line_now() -> bool {
    let mut asked = [pollfd {
        fd: STANDARD_ERROR,
        events: POLLOUT,
        revents: 0,
    }];
    let polled = poll(&mut asked, 0);
    takes_line(polled, asked[0].revents)
}
