//! Connections behind a gate.
ghost use Rattle.std.specs.Prelude.{◌≡◌, ◌≤◌, ◌<◌, ◌||◌, ◌&&◌, not, true, false, length, nat_lt, take, IfOk, OnErr, OnOk};
ghost use Rattle.std.specs.Io.KnownBytes.{Consumes, IsAtEnd, Keeps};
ghost use Rattle.eu_workers.specs.Visits as spec;

use eu_gate::{Gate, Go, Point};
use eu_hall::Arriving;
use eu_stream::{ReadFault, Sink, Source, WriteFault};
use std::io::Read;

/// What a read that has failed tells.
#[derive(Clone, Copy, Debug, PartialEq, Eq)]
pub(crate) enum Halt {
    /// It would have waited.
    Waits,
    /// So much came that others are to read on.
    Long,
    /// The connection has failed, or the gate has stopped the read.
    Failed,
}

/// What has arrived of a connection; it passes a gate before each read. Where the gate says `Stop` the read fails, as one does that would wait. Where
/// the connection is drained it would, and nothing is read. Nor is anything where long requests are left to others and the last read gave all that there was room for.
#[derive(Drop)]
pub(crate) struct GatedSource<'a, R: Read, G: Gate> {
    arriving: Arriving<'a, R>,
    gate: &'a G,
    who: u32,
    reads_on: bool,
    leaves_long: bool,
    is_drained: bool,
    is_full: bool,
    was_stopped: bool,
    was_drained: bool,
    was_cut: bool,
}

impl<'a, R: Read, G: Gate> GatedSource<'a, R, G> {
    /// A reader for the worker of that number. No read of it has failed so far. It reads on, leaves long requests to others, or may be drained, as `Visit` says.
    pub(crate) fn new(
        reader: &'a mut R,
        gate: &'a G,
        who: u32,
        reads_on: bool,
        leaves_long: bool,
        is_drained: bool,
    ) -> GatedSource<'a, R, G>
        ensures stream { ⟦<GatedSource<'a, R, G> as Source>⟧.stream result ≡ reader.entry.ghost_name }
        ensures remaining { ⟦<GatedSource<'a, R, G> as Source>⟧.remaining result ≡ R.remaining reader.old }
        ensures sound { ⟦<GatedSource<'a, R, G> as Source>⟧.failed result ≡ false }
        ensures reads { (result.reads_on ≡ reads_on) × (result.leaves_long ≡ leaves_long) }
        ensures drained { result.is_drained ≡ is_drained }
        ensures full { result.is_full ≡ false }
    {
        GatedSource {
            arriving: Arriving::new(reader),
            gate,
            who,
            reads_on,
            leaves_long,
            is_drained,
            is_full: false,
            was_stopped: false,
            was_drained: false,
            was_cut: false,
        }
    }

    /// What its last read tells, where that has failed.
    pub(crate) fn halt(&self) -> Halt
        ensures { result ≡ spec.halt_of self.now.was_stopped self.now.was_cut (self.now.was_drained || self.now.arriving.waits) }
    {
        if self.was_stopped {
            Halt::Failed
        } else if self.was_cut {
            Halt::Long
        } else if self.was_drained || self.arriving.waits() {
            Halt::Waits
        } else {
            Halt::Failed
        }
    }

    /// Whether more than was read hasn't come.
    pub(crate) fn is_drained(&self) -> bool
        ensures { result ≡ self.now.is_drained }
    {
        self.is_drained
    }
}

impl<'a, R: Read, G: Gate> Source for GatedSource<'a, R, G> {
    ghost stream = { λ s. s.arriving.reader.ghost_name };

    ghost remaining = { λ s. R.remaining s.arriving.reader.now };

    ghost failed = { λ s. s.was_stopped || (s.was_drained || (s.was_cut || (s.arriving.waits || s.arriving.has_failed))) };

    fn read_some(&mut self, buffer: &mut [u8]) -> Result<usize, ReadFault>
        ensures bound { IfOk result (λ n. n ≤ length buffer.new) }
        ensures bytes { IfOk result (λ n. Consumes (R.remaining self.old.arriving.reader.now) (R.remaining self.new.arriving.reader.now) (take n buffer.new)) }
        ensures end { IfOk result (λ n. n ≡ 0 → 0 < length buffer.new → IsAtEnd (R.remaining self.new.arriving.reader.now)) }
        ensures sound { OnOk result (⟦<GatedSource<'a, R, G> as Source>⟧.failed self.new ≡ ⟦<GatedSource<'a, R, G> as Source>⟧.failed self.old) }
        ensures kept { OnErr result (Keeps (R.remaining self.old.arriving.reader.now) (R.remaining self.new.arriving.reader.now)) }
        ensures failed { OnErr result (⟦<GatedSource<'a, R, G> as Source>⟧.failed self.new ≡ true) }
        ensures same_stream { self.new.arriving.reader.ghost_name ≡ self.old.arriving.reader.ghost_name }
        ensures drained { self.old.is_drained ≡ true → self.new ≡ record self.old { was_drained = true } }
        ensures long { self.old.is_drained ≡ false → self.old.is_full ≡ true → self.new ≡ record self.old { was_cut = true } }
        ensures short { IfOk result (λ n. self.new.is_drained ≡ (not self.old.reads_on && nat_lt 0 n && nat_lt n (length buffer.new))) }
        ensures full { IfOk result (λ n. self.new.is_full ≡ (self.old.leaves_long && not (nat_lt n (length buffer.new)))) }
    {
        if self.is_drained {
            self.was_drained = true;
            return Err(ReadFault);
        }
        if self.is_full {
            self.was_cut = true;
            return Err(ReadFault);
        }
        if self.gate.pass(self.who, Point::Read) == Go::Stop {
            self.was_stopped = true;
            return Err(ReadFault);
        }
        let count = self.arriving.read_some(buffer)?;
        let was_short = self.arriving.was_short();
        self.is_drained = !self.reads_on && count > 0 && was_short;
        self.is_full = self.leaves_long && !was_short;
        Ok(count)
    }
}

/// A writer that passes a gate before each flush, whatever the gate says.
#[derive(Drop)]
pub(crate) struct GatedSink<'a, W: Sink, G: Gate> {
    sink: &'a mut W,
    gate: &'a G,
    who: u32,
}

impl<'a, W: Sink, G: Gate> GatedSink<'a, W, G> {
    /// A writer for the worker of that number.
    pub(crate) fn new(sink: &'a mut W, gate: &'a G, who: u32) -> GatedSink<'a, W, G>
        ensures stream { ⟦<GatedSink<'a, W, G> as Sink>⟧.stream result ≡ sink.entry.ghost_name }
        ensures contents { ⟦<GatedSink<'a, W, G> as Sink>⟧.contents result ≡ W.contents sink.old }
        ensures failed { ⟦<GatedSink<'a, W, G> as Sink>⟧.failed result ≡ W.failed sink.old }
    {
        GatedSink { sink, gate, who }
    }
}

impl<'a, W: Sink, G: Gate> Sink for GatedSink<'a, W, G> {
    ghost stream = { λ s. s.sink.ghost_name };

    ghost contents = { λ s. W.contents s.sink.now };

    ghost failed = { λ s. W.failed s.sink.now };

    fn write_some(&mut self, bytes: &[u8]) -> Result<usize, WriteFault> {
        self.sink.write_some(bytes)
    }

    fn write_owned(&mut self, bytes: Vec<u8>, start: usize) -> Result<(), WriteFault> {
        self.sink.write_owned(bytes, start)
    }

    fn flush(&mut self) -> Result<(), WriteFault> {
        let _go = self.gate.pass(self.who, Point::Replied);
        self.sink.flush()
    }
}
