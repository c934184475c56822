//! The journals that servers leave, and writers that can't be flushed.
use crate::tests::client::Step;
use crate::tests::servers::{REGISTERED, REGISTRATION, USUAL, Way, plan, plays};
use eu_base::Fault;
use eu_clock::FirstChooser;
use eu_fixtures::settings;
use eu_hash::HashKey;
use eu_server::{Plan, serve_by, serve_with_journal};
use eu_stream::{Discarding, Sink, Writing};
use std::alloc::Global;
use std::io::{ErrorKind, Write};
use std::net::{Net, TcpListener};
use std::sync::Wait;
use std::test::Fail;
use std::thread::Threads;
use std::time::Clock;
use std::{io, str};

/// The first line of the journal of a server with these settings that expects seven clients.
const HEAD: &str =
    "{\"config\":{\"evict_ms\":60000,\"interval\":30,\"percent\":85,\"preservation\":true},\"expected\":7,\"journal\":1,\"last\":0,\"line\":\"head\",\"previous\":null,\"since\":0}\n";

/// The line of the registration's answer, up to where the next one begins.
const ANSWERED: &str =
    "{\"line\":\"answered\",\"reply\":{\"fresh\":true,\"name\":\"Registered\"},\"rest\":null}\n{";

/// Whether that is the journal of such a server, to which a client registered. The digest's line is 94 bytes long with its end.
pub fn is_journal(journal: &[u8]) -> bool {
    let text = str::from_utf8(journal).unwrap_or("");
    let last = &journal[journal.len().saturating_sub(94)..];
    text.starts_with(HEAD)
        && text.split(ANSWERED).count() == 2
        && last.starts_with(b"{\"line\":\"digest\",\"sha256\":\"")
        && last.ends_with(b"\"}\n")
}

#[test]
fn a_server_leaves_its_journal(rt: HostRuntime) -> Result<(), Fail> {
    let plan = Plan::of_server(settings()?, 7, 2, 1, HashKey::new(0, 0));
    let steps = [Step::Ask(1, REGISTRATION, REGISTERED)];
    assert!(rt; plays(&rt, rt.alloc(), &plan, Way::Journal, steps.as_slice())?);
    Ok(())
}

/// A writer that takes all that it is given, and can't be flushed.
#[derive(Drop)]
struct Unflushed;

impl Write for Unflushed {
    fn write(&mut self, bytes: &[u8]) -> io::Result<usize> {
        Ok(bytes.len())
    }

    fn flush(&mut self) -> io::Result<()> {
        Err(io::Error::from(ErrorKind::BrokenPipe))
    }
}

#[test]
fn served_that_is_not_flushed_is_a_failed_write(rt: HostRuntime) -> Result<(), Fail> {
    let listener = TcpListener::bind(&rt, "127.0.0.1:0")?;
    let plan = plan(0, 2, USUAL)?;
    let ended = serve_by(
        &rt,
        rt.alloc(),
        &listener,
        &plan,
        FirstChooser,
        &mut Unflushed,
    );
    assert!(rt; ended == Err(Fault::Write));
    Ok(())
}

/// How the run of an ordinary server of no session ends, which leaves its journal there, and writes there what it served.
fn ended<R: Threads + Wait + Clock + Net + Eprint + Sync, J: Sink, W: Write>(
    rt: &R,
    alloc: Global,
    listener: &TcpListener,
    journal: &mut J,
    writer: &mut W,
) -> Result<(), Fault> {
    let plan = Plan::of_server(settings()?, 7, 2, 0, HashKey::new(0, 0));
    let outcome = serve_with_journal(rt, alloc, listener, &plan, FirstChooser, journal, writer)?;
    drop(outcome);
    Ok(())
}

/// Where a journal isn't flushed, nothing else is written.
#[test]
fn a_journal_that_is_not_flushed_is_a_failed_write(rt: HostRuntime) -> Result<(), Fail> {
    let (alloc, listener) = (rt.alloc(), TcpListener::bind(&rt, "127.0.0.1:0")?);
    let mut out = Vec::new(alloc);
    let first = ended(
        &rt,
        alloc,
        &listener,
        &mut Writing::new(&mut Unflushed),
        &mut out,
    );
    let second = ended(&rt, alloc, &listener, &mut Discarding, &mut Unflushed);
    assert!(rt; (first, second) == (Err(Fault::Write), Err(Fault::Write)) && out.is_empty());
    Ok(())
}
