//! A loop whose poll fails.
use eu_accept::{Admission, Hub, Limits, Loop, Station};
use eu_gate::Periods;
use eu_workers::Incoming;
use libc::close;
use mio::Poll;
use std::alloc::Global;
use std::io;
use std::net::Net;
use std::os::fd::AsRawFd;
use std::sync::Wait;
use std::test::Fail;
use std::time::Clock;

/// Whether a loop that polls so has a connection, before it ends.
fn has_connection<R: Wait + Clock + Eprint>(
    hub: &Hub<'_, R>,
    number: usize,
    poll: Poll,
) -> io::Result<bool> {
    let mut station = Station::Loop(Loop::new(hub, number, poll)?);
    Ok(station.next().is_some())
}

/// Whether two loops have a connection, of which the second polls by a descriptor that is closed; and whether their server stops then as one that has failed.
fn left_by_a_failed_poll<R: Wait + Clock + Net + Eprint>(
    rt: &R,
    alloc: Global,
) -> io::Result<(bool, bool, bool)> {
    let limits = Limits::of_server();
    let periods = Periods::of_server(60_000);
    let admission = Admission::new(9, 2);
    let (hub, mut polls) = Hub::open(rt, alloc, limits, periods, admission, 2, None)?;
    let mut has_one = (true, true);
    if let Some(poll) = polls.pop() {
        close(poll.as_raw_fd());
        has_one.1 = has_connection(&hub, 1, poll)?;
    }
    if let Some(poll) = polls.pop() {
        has_one.0 = has_connection(&hub, 0, poll)?;
    }
    let counts = hub.counts();
    let has_failed = counts.has_failed && counts.is_stopping && counts.is_closed;
    Ok((has_one.0, has_one.1, has_failed))
}

/// Neither waits for the other.
#[test]
fn a_loop_whose_poll_fails_ends_the_server(rt: HostRuntime) -> Result<(), Fail> {
    let left = left_by_a_failed_poll(&rt, rt.alloc())?;
    assert_eq!(rt; left, (false, false, true));
    Ok(())
}
