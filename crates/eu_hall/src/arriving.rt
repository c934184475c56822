//! What has arrived from a peer.
ghost use Rattle.std.specs.Prelude.{◌≡◌, ◌≤◌, ◌<◌, ◌||◌, Some, Ok, Err, true, false, length, nat_lt, take, IfErr, IfOk, OnErr, OnOk, IsNone, IsSomeAnd, IsErr, ◌↔◌};
ghost use Rattle.std.specs.IoError.{error_kind};
ghost use Rattle.std.specs.Io.KnownBytes.{Consumes, IsAtEnd, Keeps};
ghost use Rattle.eu_hall.specs.Troubles.{is_again, is_failure, trouble_of, would_wait};

use crate::trouble::{Trouble, meaning};
use eu_stream::{MOST_TRIES, ReadFault, Source};
use std::io;
use std::io::Read;

/// Any reader that never waits as a `Source`, lent for as long as this lives. It remembers whether a read would have waited
/// (`ErrorKind::WouldBlock`) apart from whether one has failed; as a `Source` it has failed where either was. And it tells whether the last read was
/// short: a short read of a socket says that the next would wait.
#[derive(Drop)]
pub struct Arriving<'a, R: Read> {
    reader: &'a mut R,
    waits: bool,
    has_failed: bool,
    was_short: bool,
}

impl<'a, R: Read> Arriving<'a, R> {
    /// Reads from `reader`. So far no read would have waited, none has failed, and none was short.
    pub fn new(reader: &'a mut R) -> Arriving<'a, R>
        ensures stream { ⟦<Arriving<'a, R> as Source>⟧.stream result ≡ reader.entry.ghost_name }
        ensures remaining { ⟦<Arriving<'a, R> as Source>⟧.remaining result ≡ R.remaining reader.old }
        ensures waits { result.waits ≡ false }
        ensures has_failed { result.has_failed ≡ false }
        ensures was_short { result.was_short ≡ false }
    {
        Arriving {
            reader,
            waits: false,
            has_failed: false,
            was_short: false,
        }
    }

    /// Whether a read would have waited so far.
    pub fn waits(&self) -> bool
        ensures { result ≡ self.now.waits }
    {
        self.waits
    }

    /// Whether a read has failed so far otherwise than by what would have waited.
    pub fn has_failed(&self) -> bool
        ensures { result ≡ self.now.has_failed }
    {
        self.has_failed
    }

    /// Whether the last read gave fewer bytes than there was room for. Not where it would have waited, or has failed.
    pub fn was_short(&self) -> bool
        ensures { result ≡ self.now.was_short }
    {
        self.was_short
    }

    /// Tells what a read into so much room gave, or None where a signal interrupted it, so that it is to be made again. What it means is noted.
    fn tell(&mut self, read: io::Result<usize>, room: usize) -> Option<Result<usize, ReadFault>>
        ensures count { IfOk read (λ n. result ≡ Some (Ok n)) }
        ensures short { IfOk read (λ n. self.new ≡ record self.old { was_short = nat_lt n room }) }
        ensures again { IfErr read (λ e. IsNone result ↔ (is_again (trouble_of (error_kind e)) ≡ true)) }
        ensures fault { IfErr read (λ e. is_again (trouble_of (error_kind e)) ≡ false → IsSomeAnd result IsErr) }
        ensures noted { IfErr read (λ e. self.new ≡ record self.old { waits = self.old.waits || would_wait (trouble_of (error_kind e)); has_failed = self.old.has_failed || is_failure (trouble_of (error_kind e)); was_short = false }) }
    {
        let error = match read {
            Ok(count) => {
                self.was_short = count < room;
                return Some(Ok(count));
            }
            Err(error) => error,
        };
        self.was_short = false;
        match meaning(&error) {
            Trouble::Again => return None,
            Trouble::Waits => self.waits = true,
            Trouble::Failed => self.has_failed = true,
        }
        Some(Err(ReadFault))
    }
}

/// A read that a signal interrupts is tried again, until `MOST_TRIES` were; then it has failed. Where the reader would wait, that is remembered, and any
/// other error is a failure at once.
impl<'a, R: Read> Source for Arriving<'a, R> {
    ghost stream = { λ a. a.reader.ghost_name };

    ghost remaining = { λ a. R.remaining a.reader.now };

    ghost failed = { λ a. a.waits || a.has_failed };

    fn read_some(&mut self, buffer: &mut [u8]) -> Result<usize, ReadFault>
        ensures bound { IfOk result (λ n. n ≤ length buffer.new) }
        ensures bytes { IfOk result (λ n. Consumes (R.remaining self.old.reader.now) (R.remaining self.new.reader.now) (take n buffer.new)) }
        ensures end { IfOk result (λ n. n ≡ 0 → 0 < length buffer.new → IsAtEnd (R.remaining self.new.reader.now)) }
        ensures sound { OnOk result ((self.new.waits || self.new.has_failed) ≡ (self.old.waits || self.old.has_failed)) }
        ensures kept { OnErr result (Keeps (R.remaining self.old.reader.now) (R.remaining self.new.reader.now)) }
        ensures failed { OnErr result ((self.new.waits || self.new.has_failed) ≡ true) }
        ensures same_stream { self.new.reader.ghost_name ≡ self.old.reader.ghost_name }
        ensures waits { OnOk result (self.new.waits ≡ self.old.waits) }
        ensures short { IfOk result (λ n. self.new.was_short ≡ nat_lt n (length buffer.new)) }
        ensures none { OnErr result (self.new.was_short ≡ false) }
    {
        let room = buffer.len();
        'tries: for _try in 0..MOST_TRIES {
            let read = self.reader.read(buffer);
            if let Some(told) = self.tell(read, room) {
                return told;
            }
        }
        self.was_short = false;
        self.has_failed = true;
        Err(ReadFault)
    }
}
