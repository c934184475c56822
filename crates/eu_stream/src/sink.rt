//! Where bytes go.
ghost use Rattle.std.specs.Prelude.{◌≡◌, ◌≤◌, ◌<◌, ℕ, List, Option, Bool, None, Ok, true, false, drop, length, take, OnOk, OnErr, IfOk, IsErr, IsOk};
ghost use Rattle.std.specs.Io.KnownBytes.{Appends, Keeps};

use crate::MOST_TRIES;
use crate::tries::unless_interrupted;
use std::io;
use std::io::Write;
use thiserror::Error;

/// A write failed, or a flush.
#[derive(Clone, Copy, Debug, PartialEq, Eq, Error)]
#[error("a write failed")]
pub struct WriteFault;

/// A writer that remembers whether a write or a flush of it failed.
pub trait Sink {
    // Which stream it writes: two sinks of one name have the same writer behind them.
    ghost stream: { Self → ℕ };

    // The bytes that it holds, where they are known.
    ghost contents: { Self → Option (List ℕ) };

    // Whether a write or a flush of it has failed so far.
    ghost failed: { Self → Bool };

    /// Writes some bytes from the front of `bytes`, at least one where there is one, and tells how many.
    ///
    /// A `WriteFault` comes only where a write or a flush failed, now or before. It wrote nothing.
    fn write_some(&mut self, bytes: &[u8]) -> Result<usize, WriteFault>
        ensures bound { IfOk result (λ n. n ≤ length bytes.now) }
        ensures some { IfOk result (λ n. 0 < length bytes.now → 0 < n) }
        ensures bytes { IfOk result (λ n. Appends (contents self.old) (contents self.new) (take n bytes.now)) }
        ensures sound { OnOk result (failed self.new ≡ failed self.old) }
        ensures kept { OnErr result (Keeps (contents self.old) (contents self.new)) }
        ensures failed { OnErr result (failed self.new ≡ true) }
        ensures same_stream { stream self.new ≡ stream self.old };

    /// Writes all of the bytes but the first `start`, which nobody else needs any more: who keeps what is written may keep them as they are, where another
    /// copies them.
    ///
    /// A `WriteFault` comes only where a write or a flush failed, now or before. Some front of those bytes is written then.
    fn write_owned(&mut self, bytes: Vec<u8>, start: usize) -> Result<(), WriteFault>
        requires { start ≤ length bytes.items }
        ensures ok { OnOk result (Appends (contents self.old) (contents self.new) (drop start bytes.items)) }
        ensures err { OnErr result ((k : ℕ) × Appends (contents self.old) (contents self.new) (take k (drop start bytes.items))) }
        ensures sound { OnOk result (failed self.new ≡ failed self.old) }
        ensures failed { OnErr result (failed self.new ≡ true) }
        ensures same_stream { stream self.new ≡ stream self.old }
    {
        let rest = &bytes[start..];
        let mut written = 0;
        'writes: while written < rest.len() {
            written += self.write_some(&rest[written..])?;
        }
        Ok(())
    }

    /// Has what was written passed on to where it goes. That adds nothing to it.
    ///
    /// A `WriteFault` comes only where a write or a flush failed, now or before.
    fn flush(&mut self) -> Result<(), WriteFault>
        ensures kept { Keeps (contents self.old) (contents self.new) }
        ensures sound { OnOk result (failed self.new ≡ failed self.old) }
        ensures failed { OnErr result (failed self.new ≡ true) }
        ensures same_stream { stream self.new ≡ stream self.old };
}

/// Takes whatever is written, keeps nothing of it, and never fails.
#[derive(Clone, Copy, Debug, Default, PartialEq, Eq)]
pub struct Discarding;

impl Sink for Discarding {
    ghost stream = { λ _. 0 };

    ghost contents = { λ _. None };

    ghost failed = { λ _. false };

    fn write_some(&mut self, bytes: &[u8]) -> Result<usize, WriteFault> {
        Ok(bytes.len())
    }

    fn flush(&mut self) -> Result<(), WriteFault> {
        Ok(())
    }
}

/// Any writer as a `Sink`, lent for as long as this lives.
#[derive(Drop)]
pub struct Writing<'a, W: Write> {
    writer: &'a mut W,
    has_failed: bool,
}

impl<'a, W: Write> Writing<'a, W> {
    /// Writes to `writer`. It hasn't failed so far.
    pub fn new(writer: &'a mut W) -> Writing<'a, W>
        ensures stream { ⟦<Writing<'a, W> as Sink>⟧.stream result ≡ writer.entry.ghost_name }
        ensures contents { ⟦<Writing<'a, W> as Sink>⟧.contents result ≡ W.contents writer.old }
        ensures sound { ⟦<Writing<'a, W> as Sink>⟧.failed result ≡ false }
    {
        Writing {
            writer,
            has_failed: false,
        }
    }

    /// Whether a write or a flush has failed so far.
    pub fn has_failed(&self) -> bool
        ensures { result ≡ ⟦<Writing<'a, W> as Sink>⟧.failed self.now }
    {
        self.has_failed
    }

    /// Tells what a write of some bytes gave that isn't made again: how many it took, or that it failed, which is remembered. One that
    /// took none has failed.
    fn tell_write(&mut self, written: io::Result<usize>) -> Result<usize, WriteFault>
        ensures count { IfOk written (λ n. 0 < n → result ≡ Ok n) }
        ensures none { IfOk written (λ n. n ≡ 0 → IsErr result) }
        ensures fault { OnErr written (IsErr result) }
        ensures sound { OnOk result (self.new ≡ self.old) }
        ensures failed { OnErr result (self.new ≡ record self.old { has_failed = true }) }
    {
        match written {
            Ok(count) if count > 0 => Ok(count),
            _ => {
                self.has_failed = true;
                Err(WriteFault)
            }
        }
    }

    /// Tells what a flush gave that isn't made again; a failure is remembered.
    fn tell_flush(&mut self, flushed: io::Result<()>) -> Result<(), WriteFault>
        ensures done { OnOk flushed (IsOk result) }
        ensures fault { OnErr flushed (IsErr result) }
        ensures sound { OnOk result (self.new ≡ self.old) }
        ensures failed { OnErr result (self.new ≡ record self.old { has_failed = true }) }
    {
        match flushed {
            Ok(()) => Ok(()),
            Err(_) => {
                self.has_failed = true;
                Err(WriteFault)
            }
        }
    }
}

/// A call that a signal interrupts is made again, until it was made `MOST_TRIES` times; then it has failed.
/// Any other error of the writer is a failure at once, and so is a write that takes nothing of some bytes.
impl<'a, W: Write> Sink for Writing<'a, W> {
    ghost stream = { λ w. w.writer.ghost_name };

    ghost contents = { λ w. W.contents w.writer.now };

    ghost failed = { λ w. w.has_failed };

    fn write_some(&mut self, bytes: &[u8]) -> Result<usize, WriteFault> {
        if bytes.is_empty() {
            return Ok(0);
        }
        'tries: for _try in 0..MOST_TRIES {
            if let Some(written) = unless_interrupted(self.writer.write(bytes)) {
                return self.tell_write(written);
            }
        }
        self.has_failed = true;
        Err(WriteFault)
    }

    fn flush(&mut self) -> Result<(), WriteFault> {
        'tries: for _try in 0..MOST_TRIES {
            if let Some(flushed) = unless_interrupted(self.writer.flush()) {
                return self.tell_flush(flushed);
            }
        }
        self.has_failed = true;
        Err(WriteFault)
    }
}

/// Writes all of the bytes.
///
/// A `WriteFault` comes only where a write or a flush failed, now or before. Some front of the bytes is written then, and
/// not all of them.
pub fn write_whole<W: Sink>(writer: &mut W, bytes: &[u8]) -> Result<(), WriteFault>
    ensures ok { OnOk result (Appends (W.contents writer.old) (W.contents writer.new) bytes.now) }
    ensures sound { OnOk result (W.failed writer.new ≡ W.failed writer.old) }
    ensures err { OnErr result ((k : ℕ) × (k < length bytes.now) × Appends (W.contents writer.old) (W.contents writer.new) (take k bytes.now)) }
    ensures failed { OnErr result (W.failed writer.new ≡ true) }
    ensures same_stream { W.stream writer.new ≡ W.stream writer.old }
{
    let mut written = 0;
    'writes: while written < bytes.len() {
        written += writer.write_some(&bytes[written..])?;
    }
    Ok(())
}
