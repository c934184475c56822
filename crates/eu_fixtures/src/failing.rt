//! Readers and writers that fail at one place, of std and of `eu_stream`.
ghost use Rattle.std.specs.Prelude.{None, ◌≡◌, ◌≤◌, length, true, false};

use eu_stream::{ReadFault, Sink, Source, WriteFault};
use std::alloc::Global;
use std::io::{self, Error, ErrorKind, Read, Write};

/// Gives a text in pieces of a size. The read of one number, counted from 0, fails so often by an error of that kind, and no other does.
#[derive(Drop)]
pub struct Torn<'a> {
    text: &'a [u8],
    size: usize,
    reads: usize,
    fails_at: usize,
    /// How often that read fails.
    pub failures: usize,
    kind: ErrorKind,
    /// Whether a read has failed.
    pub has_failed: bool,
}

impl<'a> Torn<'a> {
    /// It fails once.
    pub fn new(text: &'a [u8], size: usize, fails_at: usize, kind: ErrorKind) -> Torn<'a> {
        Torn {
            text,
            size,
            reads: 0,
            fails_at,
            failures: 1,
            kind,
            has_failed: false,
        }
    }

    /// It never fails.
    pub fn steady(text: &'a [u8], size: usize) -> Torn<'a> {
        Torn::new(text, size, usize::MAX, ErrorKind::Other)
    }

    /// Whether the next read fails.
    fn fails(&mut self) -> bool
        ensures told { result ≡ true → self.new.has_failed ≡ true }
        ensures kept { result ≡ false → self.new.has_failed ≡ self.old.has_failed }
    {
        if self.reads != self.fails_at || self.failures == 0 {
            return false;
        }
        self.failures -= 1;
        self.has_failed = true;
        true
    }

    /// Gives the next piece.
    fn give(&mut self, buffer: &mut [u8]) -> usize
        ensures bound { result ≤ length buffer.new }
        ensures kept { self.new.has_failed ≡ self.old.has_failed }
    {
        let count = self.text.len().min(self.size).min(buffer.len());
        buffer[..count].copy_from_slice(&self.text[..count]);
        self.text = &self.text[count..];
        self.reads = self.reads.saturating_add(1);
        count
    }
}

impl Read for Torn<'_> {
    ghost remaining = { λ _. None };

    fn read(&mut self, buffer: &mut [u8]) -> io::Result<usize> {
        if self.fails() {
            return Err(Error::from(self.kind));
        }
        Ok(self.give(buffer))
    }
}

impl Source for Torn<'_> {
    ghost stream = { λ _. 0 };

    ghost remaining = { λ _. None };

    ghost failed = { λ s. s.has_failed };

    fn read_some(&mut self, buffer: &mut [u8]) -> Result<usize, ReadFault> {
        if self.fails() {
            return Err(ReadFault);
        }
        Ok(self.give(buffer))
    }
}

/// Takes so many bytes at a time. The write or flush of one number, counted from 0, fails, and no other does: by an error of that kind, or, where
/// there is none, as the write takes nothing.
#[derive(Drop)]
pub struct Brittle {
    /// What it has taken.
    pub held: Vec<u8>,
    size: usize,
    /// How many writes and flushes it was asked for.
    pub calls: usize,
    fails_at: usize,
    kind: Option<ErrorKind>,
    /// Whether one of them has failed.
    pub has_failed: bool,
}

impl Brittle {
    /// It fails at that call.
    pub fn new(alloc: Global, size: usize, fails_at: usize, kind: Option<ErrorKind>) -> Brittle {
        Brittle {
            held: Vec::new(alloc),
            size,
            calls: 0,
            fails_at,
            kind,
            has_failed: false,
        }
    }

    /// It never fails.
    pub fn steady(alloc: Global) -> Brittle {
        Brittle::new(alloc, usize::MAX, usize::MAX, None)
    }

    /// Whether this call fails.
    fn fails(&mut self) -> bool
        ensures { self.new.has_failed ≡ self.old.has_failed }
    {
        let number = self.calls;
        self.calls = number.saturating_add(1);
        number == self.fails_at
    }

    /// The text that it has taken. `?` where that is none.
    pub fn text(&self) -> &str {
        str::from_utf8(&self.held).unwrap_or("?")
    }

    /// Whether it was asked for so many writes and flushes, and holds this.
    pub fn is(&self, calls: usize, held: &[u8]) -> bool {
        self.calls == calls && self.held.as_slice() == held
    }
}

impl Write for Brittle {
    fn write(&mut self, bytes: &[u8]) -> io::Result<usize> {
        if self.fails() {
            self.has_failed = true;
            return match self.kind {
                Some(kind) => Err(Error::from(kind)),
                None => Ok(0),
            };
        }
        let count = bytes.len().min(self.size);
        self.held.extend_from_slice(&bytes[..count])?;
        Ok(count)
    }

    fn flush(&mut self) -> io::Result<()> {
        let fails = self.fails();
        match self.kind {
            Some(kind) if fails => {
                self.has_failed = true;
                Err(Error::from(kind))
            }
            _ => Ok(()),
        }
    }
}

impl Sink for Brittle {
    ghost stream = { λ _. 0 };

    ghost contents = { λ _. None };

    ghost failed = { λ s. s.has_failed };

    fn write_some(&mut self, bytes: &[u8]) -> Result<usize, WriteFault> {
        let most = if self.fails() { 0 } else { self.size };
        let count = bytes.len().min(most);
        let is_taken = self.held.extend_from_slice(&bytes[..count]).is_ok();
        if !is_taken || (count == 0 && !bytes.is_empty()) {
            self.has_failed = true;
            return Err(WriteFault);
        }
        Ok(count)
    }

    fn flush(&mut self) -> Result<(), WriteFault> {
        if self.fails() {
            self.has_failed = true;
            return Err(WriteFault);
        }
        Ok(())
    }
}

/// Kinds of errors of a read or a write, those among them that sound as if they were something else.
pub const KINDS: [ErrorKind; 9] = [
    ErrorKind::OutOfMemory,
    ErrorKind::UnexpectedEof,
    ErrorKind::InvalidData,
    ErrorKind::WriteZero,
    ErrorKind::WouldBlock,
    ErrorKind::TimedOut,
    ErrorKind::BrokenPipe,
    ErrorKind::ConnectionReset,
    ErrorKind::Other,
];

/// How many reads a text of so many bytes takes by pieces of a size, with the one that finds its end.
pub fn reads_of(len: usize, size: usize) -> usize {
    len.div_ceil(size.max(1)).saturating_add(1)
}
