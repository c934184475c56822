//! The journals that scripts leave, line by line. The digest was computed by another program.
use eu_clock::FirstChooser;
use eu_fixtures::settings;
use eu_lines::ScriptFault;
use eu_script::run_script_with_journal;
use std::alloc::{AllocError, Global};
use std::io::{self, Error, ErrorKind, Write};

/// Takes so many bytes, and then none; and is flushed, or not.
#[derive(Drop)]
struct Paper {
    written: Vec<u8>,
    room: usize,
    is_flushed: bool,
}

impl Write for Paper {
    fn write(&mut self, bytes: &[u8]) -> io::Result<usize> {
        let count = bytes.len().min(self.room);
        self.written.extend_from_slice(&bytes[..count])?;
        self.room -= count;
        Ok(count)
    }

    fn flush(&mut self) -> io::Result<()> {
        if self.is_flushed {
            Ok(())
        } else {
            Err(Error::from(ErrorKind::BrokenPipe))
        }
    }
}

/// How a script ended that has left a journal: by this, having printed and written that.
#[derive(Drop)]
struct Left {
    ended: Result<(), ScriptFault>,
    printed: Vec<u8>,
    written: Vec<u8>,
}

impl Left {
    fn is(&self, ended: Result<(), ScriptFault>, printed: &[u8], written: &[u8]) -> bool {
        self.ended == ended
            && self.printed.as_slice() == printed
            && self.written.as_slice() == written
    }
}

/// Runs a script whose journal has so much room.
fn run(alloc: Global, script: &[u8], room: usize, is_flushed: bool) -> Option<Left> {
    let config = settings().ok()?;
    let mut reader = script;
    let mut printed = Vec::new(alloc);
    let mut journal = Paper {
        written: Vec::new(alloc),
        room,
        is_flushed,
    };
    let ended = run_script_with_journal(
        alloc,
        &mut reader,
        &mut printed,
        &mut journal,
        config,
        &mut FirstChooser,
    );
    let Paper { written, .. } = journal;
    Some(Left {
        ended,
        printed,
        written,
    })
}

/// A client registers, of which a peer is to be told, and a peer renews its lease; two lines tell no command.
const SCRIPT: &[u8] =
    b"open 1 1\nregister 1000 orders a-1 90 UP UNKNOWN 5 c\n\nrenew 2000 orders a-1 - - r\ncounts 2000\n";

const PRINTED: &[u8] = b"opened\n204\n200\nheld 1 expected 2 threshold 3 last 0 permitted no\n";

const LINES: [&str; 11] = [
    "{\"config\":{\"evict_ms\":60000,\"interval\":30,\"percent\":85,\"preservation\":true},\"expected\":1,\"journal\":1,\"last\":0,\"line\":\"head\",\"previous\":null,\"since\":0}",
    "{\"line\":\"peer\"}",
    "{\"command\":{\"instance\":{\"dirty\":5,\"interval\":30,\"key\":{\"app\":\"ORDERS\",\"id\":\"a-1\"},\"overridden\":\"UNKNOWN\",\"secs\":90,\"status\":\"UP\"},\"name\":\"Register\",\"replicated\":false},\"line\":\"asked\",\"moment\":1000,\"number\":0,\"pass\":0,\"rest\":{\"dataCenterInfo\":{\"name\":\"MyOwn\"},\"hostName\":\"a-1\",\"ipAddr\":\"0.0.0.0\"}}",
    "{\"line\":\"answered\",\"reply\":{\"fresh\":true,\"name\":\"Registered\"},\"rest\":null}",
    "{\"command\":{\"dirty\":null,\"key\":{\"app\":\"ORDERS\",\"id\":\"a-1\"},\"name\":\"Renew\",\"overridden\":null,\"replicated\":true},\"line\":\"asked\",\"moment\":2000,\"number\":1,\"pass\":0,\"rest\":null}",
    "{\"line\":\"answered\",\"reply\":{\"name\":\"Done\"},\"rest\":null}",
    "{\"config\":{\"evict_ms\":60000,\"interval\":30,\"percent\":85,\"preservation\":true},\"expected\":2,\"journal\":1,\"last\":0,\"line\":\"head\",\"previous\":null,\"since\":1}",
    "{\"instance\":{\"dirty\":5,\"interval\":30,\"key\":{\"app\":\"ORDERS\",\"id\":\"a-1\"},\"overridden\":\"UNKNOWN\",\"secs\":90,\"status\":\"UP\"},\"line\":\"lease\",\"rest\":{\"dataCenterInfo\":{\"name\":\"MyOwn\"},\"hostName\":\"a-1\",\"ipAddr\":\"0.0.0.0\"},\"times\":{\"registered\":1000,\"up\":1000,\"updated\":92000}}",
    "{\"line\":\"peer\"}",
    "{\"line\":\"waiting\",\"rest\":{\"dataCenterInfo\":{\"name\":\"MyOwn\"},\"hostName\":\"a-1\",\"ipAddr\":\"0.0.0.0\"},\"task\":{\"action\":\"Register\",\"instance\":{\"dirty\":5,\"interval\":30,\"key\":{\"app\":\"ORDERS\",\"id\":\"a-1\"},\"overridden\":\"UNKNOWN\",\"secs\":90,\"status\":\"UP\"},\"key\":{\"app\":\"ORDERS\",\"id\":\"a-1\"},\"queued\":1000,\"status\":null}}",
    "{\"line\":\"digest\",\"sha256\":\"cc3bcfc92fa422f7a431050b7d782e69f12db882fdfd98d10737c614a2a85c56\"}",
];

/// The text of these lines.
fn text(alloc: Global) -> Result<String, AllocError> {
    let mut text = String::new(alloc);
    for line in LINES {
        text.push_str(line)?;
        text.push_str("\n")?;
    }
    Ok(text)
}

/// Whether a script whose journal has so much room ends so, prints this, and leaves so many bytes of the text.
fn leaves(
    alloc: Global,
    room: usize,
    is_flushed: bool,
    ended: Result<(), ScriptFault>,
    count: usize,
) -> Result<bool, AllocError> {
    let text = text(alloc)?;
    let Some(front) = text.as_bytes().get(..count.min(text.len())) else {
        return Ok(false);
    };
    Ok(match run(alloc, SCRIPT, room, is_flushed) {
        Some(left) => left.is(ended, PRINTED, front),
        None => false,
    })
}

#[test]
fn a_script_leaves_its_journal(rt: HostRuntime) {
    assert!(rt; leaves(rt.alloc(), usize::MAX, true, Ok(()), usize::MAX) == Ok(true));
}

#[test]
fn a_journal_that_is_not_written_is_a_failed_write(rt: HostRuntime) {
    let failed = Err(ScriptFault::Write);
    assert!(rt; leaves(rt.alloc(), 100, true, failed, 100) == Ok(true));
    assert!(rt; leaves(rt.alloc(), usize::MAX, false, failed, usize::MAX) == Ok(true));
}

#[test]
fn a_script_that_opens_nothing_leaves_no_journal(rt: HostRuntime) {
    let left = run(rt.alloc(), b"\n", usize::MAX, true);
    assert!(rt; matches!(&left, Some(left) if left.is(Ok(()), b"", b"")));
}

#[test]
fn a_bad_line_leaves_no_journal(rt: HostRuntime) {
    let left = run(rt.alloc(), b"open 1\nroll 5\nroll\n", usize::MAX, true);
    let bad = Err(ScriptFault::BadLine(3));
    assert!(rt; matches!(&left, Some(left) if left.is(bad, b"opened\nlast 0\n", b"")));
}
