//! A session of three requests with one read, or one write, that fails.
use crate::tests::fakes::{CHUNKED, Came, SIZED, came_of, told};
use eu_base::Fault;
use eu_fixtures::{Brittle, Torn};
use std::alloc::Global;
use std::io::ErrorKind;

/// A session: its requests, and how many bytes the first of them has, the first two, and all.
type Play = (&'static str, [usize; 3]);

const SIZED_PLAY: Play = (SIZED, [215, 258, 302]);

const CHUNKED_PLAY: Play = (CHUNKED, [233, 276, 320]);

/// What is told where a read fails before the first request is whole, the second and the third, and behind all.
const FAILED: [&str; 4] = [
    "fault 40 next 1000 ",
    "fault 40 next 1001 HTTP/1.1 204 No Content\r\n\r\nregister 5 at 1000;",
    "fault 40 next 1002 HTTP/1.1 204 No Content\r\n\r\nHTTP/1.1 200 OK\r\nContent-Type: application/json\r\nContent-Length: 345\r\n\r\n{\"instance\":{\"app\":\"A\",\"dataCenterInfo\":{\"name\":\"MyOwn\"},\"hostName\":\"h\",\"instanceId\":\"i1\",\"ipAddr\":\"10.0.0.1\",\"lastDirtyTimestamp\":\"5\",\"leaseInfo\":{\"durationInSecs\":90,\"evictionTimestamp\":0,\"lastRenewalTimestamp\":1000,\"registrationTimestamp\":1000,\"renewalIntervalInSecs\":30,\"serviceUpTimestamp\":1000},\"overriddenStatus\":\"UNKNOWN\",\"status\":\"UP\"}}register 5 at 1000;look i1 at 1001;",
    "fault 40 next 1003 HTTP/1.1 204 No Content\r\n\r\nHTTP/1.1 200 OK\r\nContent-Type: application/json\r\nContent-Length: 345\r\n\r\n{\"instance\":{\"app\":\"A\",\"dataCenterInfo\":{\"name\":\"MyOwn\"},\"hostName\":\"h\",\"instanceId\":\"i1\",\"ipAddr\":\"10.0.0.1\",\"lastDirtyTimestamp\":\"5\",\"leaseInfo\":{\"durationInSecs\":90,\"evictionTimestamp\":0,\"lastRenewalTimestamp\":1000,\"registrationTimestamp\":1000,\"renewalIntervalInSecs\":30,\"serviceUpTimestamp\":1000},\"overriddenStatus\":\"UNKNOWN\",\"status\":\"UP\"}}HTTP/1.1 403 Forbidden\r\nContent-Length: 0\r\n\r\nregister 5 at 1000;look i1 at 1001;",
];

/// What is told where a read fails that has so many bytes before it.
fn told_behind(play: &Play, bytes: usize) -> &'static str {
    let [first, second, third] = play.1;
    if bytes < first {
        FAILED[0]
    } else if bytes < second {
        FAILED[1]
    } else if bytes < third {
        FAILED[2]
    } else {
        FAILED[3]
    }
}

/// The first read that fails otherwise, where pieces have a size; the last one is that behind all bytes.
fn wrong_read(
    alloc: Global,
    play: &Play,
    size: usize,
    reads: usize,
) -> Result<Option<usize>, Fault> {
    for fails_at in 0..reads {
        let mut reader = Torn::new(play.0.as_bytes(), size, fails_at, ErrorKind::Other);
        let told = told(alloc, &mut reader)?;
        if told.as_str() != told_behind(play, size.saturating_mul(fails_at)) {
            return Ok(Some(fails_at));
        }
    }
    Ok(None)
}

/// How many bytes are read at once, with the number of the reads that a session with a length then makes.
const SIZED_READS: [(usize, usize); 3] = [(1, 303), (100, 5), (1000, 2)];

#[test]
fn what_stands_before_a_failed_read_is_answered(rt: HostRuntime) {
    for (size, reads) in SIZED_READS {
        let wrong = wrong_read(rt.alloc(), &SIZED_PLAY, size, reads);
        assert_eq!(rt; wrong, Ok(None), "by {size}");
    }
}

/// The same of one in chunks.
const CHUNKED_READS: [(usize, usize); 3] = [(5, 65), (100, 5), (1000, 2)];

#[test]
fn what_stands_in_chunks_before_a_failed_read_is_answered(rt: HostRuntime) {
    for (size, reads) in CHUNKED_READS {
        let wrong = wrong_read(rt.alloc(), &CHUNKED_PLAY, size, reads);
        assert_eq!(rt; wrong, Ok(None), "by {size}");
    }
}

/// All that the desk is asked in it.
const ASKS: &str = "register 5 at 1000;look i1 at 1001;";

/// All that is written.
const WRITTEN: &str =
    "HTTP/1.1 204 No Content\r\n\r\nHTTP/1.1 200 OK\r\nContent-Type: application/json\r\nContent-Length: 345\r\n\r\n{\"instance\":{\"app\":\"A\",\"dataCenterInfo\":{\"name\":\"MyOwn\"},\"hostName\":\"h\",\"instanceId\":\"i1\",\"ipAddr\":\"10.0.0.1\",\"lastDirtyTimestamp\":\"5\",\"leaseInfo\":{\"durationInSecs\":90,\"evictionTimestamp\":0,\"lastRenewalTimestamp\":1000,\"registrationTimestamp\":1000,\"renewalIntervalInSecs\":30,\"serviceUpTimestamp\":1000},\"overriddenStatus\":\"UNKNOWN\",\"status\":\"UP\"}}HTTP/1.1 403 Forbidden\r\nContent-Length: 0\r\n\r\n";

/// Whether a session ended at a failed write: nothing was written behind it, and nothing was asked twice.
fn is_cut(came: &Came, fails_at: usize) -> bool {
    came.end == Err(41)
        && came.writer.calls == fails_at.saturating_add(1)
        && WRITTEN.starts_with(came.writer.text())
        && ASKS.starts_with(came.desk.asked.as_str())
        && !came.desk.asked.is_empty()
}

/// Whether a session with all its writes was answered whole, by so many of them.
fn is_whole(came: &Came, calls: usize) -> bool {
    came.end == Ok(3)
        && came.writer.is(calls, WRITTEN.as_bytes())
        && came.desk.asked.as_str() == ASKS
}

/// The first write or flush whose failure ends a session otherwise, where its writer takes so many bytes at once; none fails where there are
/// only so many.
fn wrong_write(
    alloc: Global,
    text: &str,
    size: usize,
    calls: usize,
) -> Result<Option<usize>, Fault> {
    for fails_at in 0..=calls {
        let writer = Brittle::new(alloc, size, fails_at, None);
        let came = came_of(alloc, &mut text.as_bytes(), writer)?;
        let is_right = if fails_at < calls {
            is_cut(&came, fails_at)
        } else {
            is_whole(&came, calls)
        };
        if !is_right {
            return Ok(Some(fails_at));
        }
    }
    Ok(None)
}

/// How many bytes the writer takes at once, with the number of writes and flushes of a session: the responses have 27, 417 and 45 bytes,
/// and each is flushed.
const WRITES: [(&str, usize, usize); 4] = [
    (SIZED, 1, 492),
    (SIZED, 100, 10),
    (SIZED, 1000, 6),
    (CHUNKED, 100, 10),
];

#[test]
fn a_failed_write_ends_the_session(rt: HostRuntime) {
    for (text, size, calls) in WRITES {
        let wrong = wrong_write(rt.alloc(), text, size, calls);
        assert_eq!(rt; wrong, Ok(None), "by {size}");
    }
}
