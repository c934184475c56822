use eu_stream::{Discarding, ReadFault, Reading, Sink, Source, WriteFault, Writing, write_whole};
use std::alloc::Global;
use std::io::{self, Error, ErrorKind, Read, Write};

/// Is interrupted some times at first, then gives its bytes one at a time, and fails where they end.
#[derive(Drop)]
struct Shaky<'a> {
    interruptions: usize,
    bytes: &'a [u8],
}

impl Read for Shaky<'_> {
    fn read(&mut self, buffer: &mut [u8]) -> io::Result<usize> {
        if self.interruptions > 0 {
            self.interruptions -= 1;
            return Err(Error::from(ErrorKind::Interrupted));
        }
        let Some((first, rest)) = self.bytes.split_first() else {
            return Err(Error::from(ErrorKind::BrokenPipe));
        };
        if buffer.is_empty() {
            return Ok(0);
        }
        buffer[0] = *first;
        self.bytes = rest;
        Ok(1)
    }
}

/// Is interrupted some times at first, then takes a byte at a time, and nothing once it's full.
#[derive(Drop)]
struct Narrow {
    interruptions: usize,
    held: Vec<u8>,
    most: usize,
}

impl Write for Narrow {
    fn write(&mut self, bytes: &[u8]) -> io::Result<usize> {
        if self.interruptions > 0 {
            self.interruptions -= 1;
            return Err(Error::from(ErrorKind::Interrupted));
        }
        if self.held.len() >= self.most || bytes.is_empty() {
            return Ok(0);
        }
        self.held.extend_from_slice(&bytes[..1])?;
        Ok(1)
    }

    fn flush(&mut self) -> io::Result<()> {
        if self.held.len() >= self.most {
            return Err(Error::from(ErrorKind::BrokenPipe));
        }
        Ok(())
    }
}

#[test]
fn a_slice_gives_its_bytes(rt: HostRuntime) {
    let mut source = b"abc".as_slice();
    let mut buffer = [0u8; 2];
    assert!(rt; source.read_some(&mut buffer) == Ok(2));
    assert!(rt; buffer == [b'a', b'b']);
    assert!(rt; source.read_some(&mut buffer) == Ok(1));
    assert!(rt; buffer[0] == b'c');
    assert!(rt; source.read_some(&mut buffer) == Ok(0));
}

/// How many bytes come where there is room for four, and the first of these.
fn come<S: Source>(source: &mut S) -> Result<(usize, u8), ReadFault> {
    let mut buffer = [0u8; 4];
    let count = source.read_some(&mut buffer)?;
    Ok((count, buffer[0]))
}

#[test]
fn a_reader_is_tried_again_and_then_fails(rt: HostRuntime) {
    let mut reader = Shaky {
        interruptions: 15,
        bytes: b"ab".as_slice(),
    };
    let mut reading = Reading::new(&mut reader);
    assert!(rt; come(&mut reading) == Ok((1, b'a')));
    assert!(rt; come(&mut reading) == Ok((1, b'b')));
    assert!(rt; !reading.has_failed());
    assert!(rt; come(&mut reading) == Err(ReadFault));
    assert!(rt; reading.has_failed());
}

/// What is written by a writer that is interrupted so often, and how many bytes it keeps.
fn interrupted(alloc: Global, interruptions: usize) -> (Result<usize, WriteFault>, usize) {
    let mut writer = Narrow {
        interruptions,
        held: Vec::new(alloc),
        most: 9,
    };
    let written = Writing::new(&mut writer).write_some(b"ab");
    (written, writer.held.len())
}

#[test]
fn too_many_interruptions_are_a_failure(rt: HostRuntime) {
    let mut reader = Shaky {
        interruptions: 16,
        bytes: b"ab".as_slice(),
    };
    assert!(rt; come(&mut Reading::new(&mut reader)) == Err(ReadFault));
    assert!(rt; interrupted(rt.alloc(), 16) == (Err(WriteFault), 0));
    assert!(rt; interrupted(rt.alloc(), 15) == (Ok(1), 1));
}

/// Fails at its first call with such an error, and does well after that.
#[derive(Drop)]
struct Stumbling {
    first: Option<ErrorKind>,
}

impl Read for Stumbling {
    fn read(&mut self, _buffer: &mut [u8]) -> io::Result<usize> {
        match self.first.take() {
            Some(kind) => Err(Error::from(kind)),
            None => Ok(0),
        }
    }
}

impl Write for Stumbling {
    fn write(&mut self, bytes: &[u8]) -> io::Result<usize> {
        match self.first.take() {
            Some(kind) => Err(Error::from(kind)),
            None => Ok(bytes.len()),
        }
    }

    fn flush(&mut self) -> io::Result<()> {
        match self.first.take() {
            Some(kind) => Err(Error::from(kind)),
            None => Ok(()),
        }
    }
}

/// Whether a read, a write and a flush go well where the first call fails with such an error.
fn goes_well(kind: ErrorKind) -> (bool, bool, bool) {
    let mut reader = Stumbling { first: Some(kind) };
    let mut writer = Stumbling { first: Some(kind) };
    let mut flushed = Stumbling { first: Some(kind) };
    (
        come(&mut Reading::new(&mut reader)) == Ok((0, 0)),
        Writing::new(&mut writer).write_some(b"ab") == Ok(2),
        Writing::new(&mut flushed).flush() == Ok(()),
    )
}

/// Each kind of error but an interruption.
const FAILURES: [ErrorKind; 41] = [
    ErrorKind::NotFound,
    ErrorKind::PermissionDenied,
    ErrorKind::ConnectionRefused,
    ErrorKind::ConnectionReset,
    ErrorKind::HostUnreachable,
    ErrorKind::NetworkUnreachable,
    ErrorKind::ConnectionAborted,
    ErrorKind::NotConnected,
    ErrorKind::AddrInUse,
    ErrorKind::AddrNotAvailable,
    ErrorKind::NetworkDown,
    ErrorKind::BrokenPipe,
    ErrorKind::AlreadyExists,
    ErrorKind::WouldBlock,
    ErrorKind::NotADirectory,
    ErrorKind::IsADirectory,
    ErrorKind::DirectoryNotEmpty,
    ErrorKind::ReadOnlyFilesystem,
    ErrorKind::FilesystemLoop,
    ErrorKind::StaleNetworkFileHandle,
    ErrorKind::InvalidInput,
    ErrorKind::InvalidData,
    ErrorKind::TimedOut,
    ErrorKind::WriteZero,
    ErrorKind::StorageFull,
    ErrorKind::NotSeekable,
    ErrorKind::QuotaExceeded,
    ErrorKind::FileTooLarge,
    ErrorKind::ResourceBusy,
    ErrorKind::ExecutableFileBusy,
    ErrorKind::Deadlock,
    ErrorKind::CrossesDevices,
    ErrorKind::TooManyLinks,
    ErrorKind::InvalidFilename,
    ErrorKind::ArgumentListTooLong,
    ErrorKind::Unsupported,
    ErrorKind::UnexpectedEof,
    ErrorKind::OutOfMemory,
    ErrorKind::InProgress,
    ErrorKind::Other,
    ErrorKind::Uncategorized,
];

#[test]
fn an_interruption_alone_is_tried_again(rt: HostRuntime) {
    assert!(rt; goes_well(ErrorKind::Interrupted) == (true, true, true));
    for kind in FAILURES {
        assert!(rt; goes_well(kind) == (false, false, false));
    }
}

/// Is interrupted some times at first, takes nothing at the next write, and does well after that.
#[derive(Drop)]
struct Hesitating {
    interruptions: usize,
    takes_nothing: bool,
}

impl Write for Hesitating {
    fn write(&mut self, bytes: &[u8]) -> io::Result<usize> {
        self.flush()?;
        if self.takes_nothing {
            self.takes_nothing = false;
            return Ok(0);
        }
        Ok(bytes.len())
    }

    fn flush(&mut self) -> io::Result<()> {
        if self.interruptions > 0 {
            self.interruptions -= 1;
            return Err(Error::from(ErrorKind::Interrupted));
        }
        Ok(())
    }
}

#[test]
fn a_write_that_takes_nothing_is_a_failure_at_once(rt: HostRuntime) {
    let mut writer = Hesitating {
        interruptions: 1,
        takes_nothing: true,
    };
    let mut writing = Writing::new(&mut writer);
    assert!(rt; writing.write_some(b"ab") == Err(WriteFault));
    assert!(rt; writing.has_failed());
}

/// What comes of a flush that is interrupted so often.
fn flushed(interruptions: usize) -> Result<(), WriteFault> {
    let mut writer = Hesitating {
        interruptions,
        takes_nothing: false,
    };
    Writing::new(&mut writer).flush()
}

#[test]
fn a_flush_is_tried_as_often_as_a_write(rt: HostRuntime) {
    assert!(rt; flushed(15) == Ok(()));
    assert!(rt; flushed(16) == Err(WriteFault));
}

/// Whether a writer with room for so many bytes takes the whole of six, or takes a front and fails, and is flushed only with room left.
fn writes(alloc: Global, most: usize, whole: bool) -> bool {
    let mut writer = Narrow {
        interruptions: 3,
        held: Vec::new(alloc),
        most,
    };
    let mut writing = Writing::new(&mut writer);
    let is_whole = write_whole(&mut writing, b"abcdef").is_ok();
    let has_failed = writing.has_failed();
    let is_flushed = writing.flush().is_ok();
    is_whole == whole
        && has_failed != whole
        && is_flushed == (most == 9)
        && writer.held.as_slice() == &b"abcdef"[..most.min(6)]
}

#[test]
fn writes_all_or_a_front(rt: HostRuntime) {
    for (most, whole) in [(9usize, true), (6, true), (5, false), (0, false)] {
        assert!(rt; writes(rt.alloc(), most, whole), "at {most}");
    }
}

#[test]
fn discards(rt: HostRuntime) {
    let mut sink = Discarding;
    assert!(rt; write_whole(&mut sink, b"abc") == Ok(()));
    assert!(rt; sink.flush() == Ok(()));
}
