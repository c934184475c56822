//! Where bytes come from.
ghost use Rattle.std.specs.Prelude.{◌≡◌, ◌≤◌, ◌<◌, ℕ, List, Option, Bool, Some, Ok, true, false, length, take, OnOk, OnErr, IfOk, IsErr};
ghost use Rattle.std.specs.Io.KnownBytes.{Consumes, Keeps, IsAtEnd};

use crate::MOST_TRIES;
use crate::tries::unless_interrupted;
use std::io;
use std::io::Read;
use thiserror::Error;

/// A read failed.
#[derive(Clone, Copy, Debug, PartialEq, Eq, Error)]
#[error("a read failed")]
pub struct ReadFault;

/// A reader that remembers whether a read of it failed.
pub trait Source {
    // Which stream it reads: two sources of one name have the same reader behind them.
    ghost stream: { Self → ℕ };

    // The bytes that reads will give from here on, where they are known.
    ghost remaining: { Self → Option (List ℕ) };

    // Whether a read of it has failed so far.
    ghost failed: { Self → Bool };

    /// Reads some bytes to the front of `buffer`, and tells how many. None come only at the end, or where
    /// `buffer` is empty. What is behind them in `buffer` is left open.
    ///
    /// A `ReadFault` comes only where a read failed, now or before. It took no bytes, and `buffer` is left open.
    fn read_some(&mut self, buffer: &mut [u8]) -> Result<usize, ReadFault>
        ensures bound { IfOk result (λ n. n ≤ length buffer.new) }
        ensures bytes { IfOk result (λ n. Consumes (remaining self.old) (remaining self.new) (take n buffer.new)) }
        ensures end { IfOk result (λ n. n ≡ 0 → 0 < length buffer.new → IsAtEnd (remaining self.new)) }
        ensures sound { OnOk result (failed self.new ≡ failed self.old) }
        ensures kept { OnErr result (Keeps (remaining self.old) (remaining self.new)) }
        ensures failed { OnErr result (failed self.new ≡ true) }
        ensures same_stream { stream self.new ≡ stream self.old };
}

/// A slice gives its bytes and never fails.
impl Source for &[u8] {
    ghost stream = { λ _. 0 };

    ghost remaining = { λ bytes. Some bytes.now };

    ghost failed = { λ _. false };

    fn read_some(&mut self, buffer: &mut [u8]) -> Result<usize, ReadFault> {
        self.read(buffer).map_err(|_| ReadFault)
    }
}

/// Any reader as a `Source`, lent for as long as this lives.
#[derive(Drop)]
pub struct Reading<'a, R: Read> {
    reader: &'a mut R,
    has_failed: bool,
}

impl<'a, R: Read> Reading<'a, R> {
    /// Reads from `reader`. It hasn't failed so far.
    pub fn new(reader: &'a mut R) -> Reading<'a, R>
        ensures stream { ⟦<Reading<'a, R> as Source>⟧.stream result ≡ reader.entry.ghost_name }
        ensures remaining { ⟦<Reading<'a, R> as Source>⟧.remaining result ≡ R.remaining reader.old }
        ensures sound { ⟦<Reading<'a, R> as Source>⟧.failed result ≡ false }
    {
        Reading {
            reader,
            has_failed: false,
        }
    }

    /// Whether a read has failed so far.
    pub fn has_failed(&self) -> bool
        ensures { result ≡ ⟦<Reading<'a, R> as Source>⟧.failed self.now }
    {
        self.has_failed
    }

    /// Tells what a read gave that isn't made again: as many bytes as it gave, none too, or that it failed, which is remembered.
    fn tell(&mut self, read: io::Result<usize>) -> Result<usize, ReadFault>
        ensures count { IfOk read (λ n. result ≡ Ok n) }
        ensures fault { OnErr read (IsErr result) }
        ensures sound { OnOk result (self.new ≡ self.old) }
        ensures failed { OnErr result (self.new ≡ record self.old { has_failed = true }) }
    {
        match read {
            Ok(count) => Ok(count),
            Err(_) => {
                self.has_failed = true;
                Err(ReadFault)
            }
        }
    }
}

/// A read that a signal interrupts is tried again, until `MOST_TRIES` were; then it has failed. Any other
/// error of the reader is a failure at once.
impl<'a, R: Read> Source for Reading<'a, R> {
    ghost stream = { λ r. r.reader.ghost_name };

    ghost remaining = { λ r. R.remaining r.reader.now };

    ghost failed = { λ r. r.has_failed };

    fn read_some(&mut self, buffer: &mut [u8]) -> Result<usize, ReadFault> {
        'tries: for _try in 0..MOST_TRIES {
            if let Some(read) = unless_interrupted(self.reader.read(buffer)) {
                return self.tell(read);
            }
        }
        self.has_failed = true;
        Err(ReadFault)
    }
}
