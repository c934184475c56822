//! Writes to a writer that never waits.
ghost use Rattle.std.specs.Prelude.{◌≡◌, ◌≢◌, ◌≤◌, ◌||◌, ◌↔◌, Ok, true, false, length, take, OnErr, OnOk};
ghost use Rattle.std.specs.Io.KnownBytes.{Appends};
ghost use Rattle.eu_hall.specs.Sending.{Writes, is_fault, is_later, written_of};

use crate::trouble::{Trouble, meaning};
use eu_stream::{MOST_TRIES, WriteFault};
use std::io;
use std::io::Write;

/// What a write of some bytes came to.
#[derive(Clone, Copy, Debug, PartialEq, Eq)]
pub(crate) enum Written {
    /// The writer took so many of them, from their front.
    Took(usize),
    /// It would have waited.
    Later,
    /// It has failed, or took none.
    Fault,
}

/// How far a sending came.
#[derive(Clone, Copy, Debug, PartialEq, Eq)]
pub enum Sent {
    /// All is sent.
    All,
    /// The writer would have waited: the rest is to be sent once it takes more.
    Waits,
}

/// What a write of some bytes came to, or None where a signal interrupted it, so that it is to be made again.
fn outcome(given: io::Result<usize>) -> Option<Written>
    ensures { result ≡ written_of given }
{
    match given {
        Ok(0) => Some(Written::Fault),
        Ok(count) => Some(Written::Took(count)),
        Err(error) => match meaning(&error) {
            Trouble::Again => None,
            Trouble::Waits => Some(Written::Later),
            Trouble::Failed => Some(Written::Fault),
        },
    }
}

/// Any writer that never waits, lent for as long as this lives. It remembers whether a write would have waited (`ErrorKind::WouldBlock`), apart from
/// whether one has failed.
#[derive(Drop)]
pub struct Leaving<'a, W: Write> {
    writer: &'a mut W,
    waits: bool,
    has_failed: bool,
}

impl<'a, W: Write> Leaving<'a, W> {
    /// Writes to `writer`. So far no write would have waited, and none has failed.
    pub fn new(writer: &'a mut W) -> Leaving<'a, W>
        ensures stream { result.writer.ghost_name ≡ writer.entry.ghost_name }
        ensures contents { W.contents result.writer.now ≡ W.contents writer.old }
        ensures waits { result.waits ≡ false }
        ensures has_failed { result.has_failed ≡ false }
    {
        Leaving {
            writer,
            waits: false,
            has_failed: false,
        }
    }

    /// Whether a write would have waited so far.
    pub fn waits(&self) -> bool
        ensures { result ≡ self.now.waits }
    {
        self.waits
    }

    /// Whether a write has failed so far otherwise than by what would have waited.
    pub fn has_failed(&self) -> bool
        ensures { result ≡ self.now.has_failed }
    {
        self.has_failed
    }

    /// Notes what a write came to.
    fn note(&mut self, written: Written)
        ensures { self.new ≡ record self.old { waits = is_later written || self.old.waits; has_failed = is_fault written || self.old.has_failed } }
    {
        match written {
            Written::Took(_) => {}
            Written::Later => self.waits = true,
            Written::Fault => self.has_failed = true,
        }
    }

    /// Writes some bytes. A write that a signal interrupts is made again, until it was made `MOST_TRIES` times; then it has failed. What it came to is
    /// noted.
    fn write_some(&mut self, bytes: &[u8]) -> Written
        ensures writes { Writes (W.contents self.old.writer.now) (W.contents self.new.writer.now) bytes.now result }
        ensures waits { self.new.waits ≡ (is_later result || self.old.waits) }
        ensures has_failed { self.new.has_failed ≡ (is_fault result || self.old.has_failed) }
        ensures same_stream { self.new.writer.ghost_name ≡ self.old.writer.ghost_name }
    {
        'tries: for _try in 0..MOST_TRIES {
            if let Some(written) = outcome(self.writer.write(bytes)) {
                self.note(written);
                return written;
            }
        }
        self.note(Written::Fault);
        Written::Fault
    }
}

/// Writes bytes until none is left, or the writer would wait, or has failed. Tells how many it took, from their front, and which of these it was.
pub(crate) fn write_front<W: Write>(
    leaving: &mut Leaving<'_, W>,
    bytes: &[u8],
) -> (usize, Result<Sent, WriteFault>)
    ensures bound { result.0 ≤ length bytes.now }
    ensures bytes { Appends (W.contents leaving.old.writer.now) (W.contents leaving.new.writer.now) (take result.0 bytes.now) }
    ensures all { (result.1 ≡ Ok Sent.All) ↔ (result.0 ≡ length bytes.now) }
    ensures waits { result.1 ≡ Ok Sent.Waits → leaving.new.waits ≡ true }
    ensures no_wait { result.1 ≢ Ok Sent.Waits → leaving.new.waits ≡ leaving.old.waits }
    ensures sound { OnOk result.1 (leaving.new.has_failed ≡ leaving.old.has_failed) }
    ensures failed { OnErr result.1 (leaving.new.has_failed ≡ true) }
    ensures same_stream { leaving.new.writer.ghost_name ≡ leaving.old.writer.ghost_name }
{
    let mut sent = 0;
    'sends: while sent < bytes.len() {
        match leaving.write_some(&bytes[sent..]) {
            Written::Took(count) => sent += count,
            Written::Later => return (sent, Ok(Sent::Waits)),
            Written::Fault => return (sent, Err(WriteFault)),
        }
    }
    (sent, Ok(Sent::All))
}
