//! What is to be sent to a peer.
ghost use Rattle.std.specs.Prelude.{◌≡◌, ◌≢◌, ◌≤◌, ◌<◌, ◌↔◌, ◌+◌, ◌-◌, ◌++◌, ◌==◌, [], Some, Ok, true, false, drop, length, take, vec_len, vec_capacity, IfOk, OnErr, OnOk};
ghost use Rattle.std.specs.Io.KnownBytes.{Appends, Keeps};
ghost use Rattle.eu_hall.specs.Sending.{Goes};
ghost use Rattle.eu_hall.specs.Waiting.{IsLean, stream_of};

use crate::leaving::{Leaving, Sent, write_front};
use eu_stream::{Sink, WriteFault};
use std::alloc::Global;
use std::io::Write;
use std::marker::Model;

/// The most bytes of memory that are held where nothing is to be sent: a response without content has room there.
pub const MOST_KEPT: usize = 256;

/// The most bytes that `send_piece` sends: at some gigabytes a second, others wait for it some tens of microseconds.
pub const MOST_AT_ONCE: usize = 65_536;

/// Bytes that are to be sent to a peer, first to last. As a `Sink` it takes whatever is written into it, and `send` passes it on to the peer, as far
/// as that takes it. Contracts see the bytes that are still to be sent, and whether a write into it has failed.
///
/// Bytes that were sent keep their memory until all are. Then at most `MOST_KEPT` bytes of it are held, for the next response.
#[derive(Debug, Drop)]
pub struct Unsent {
    bytes: Vec<u8>,
    sent: usize,
    has_failed: bool,
}

impl Model for Unsent {
    ghost use Rattle.std.specs.Prelude.{drop, length, vec_capacity};
    ghost use Rattle.eu_hall.specs.Waiting.{IsLean, Waiting};

    ghost Value = { Waiting };

    ghost view = { λ u. record { rest = drop u.sent u.bytes.items; has_failed = u.has_failed } };

    ghost invariant = { λ u. IsLean (length u.bytes.items) u.sent (vec_capacity u.bytes) };
}

impl Unsent {
    /// Nothing to be sent. Takes no memory.
    pub fn new(alloc: Global) -> Unsent
        ensures { result ≡ record { rest = []; has_failed = false } }
    {
        Unsent {
            bytes: Vec::new(alloc),
            sent: 0,
            has_failed: false,
        }
    }

    /// How many bytes are still to be sent.
    pub fn len(&self) -> usize
        ensures { result ≡ length self.now.rest }
    {
        self.bytes.len() - self.sent
    }

    /// The bytes that are still to be sent, first to last.
    pub fn as_slice(&self) -> &[u8]
        ensures { result.now ≡ self.now.rest }
    {
        &self.bytes[self.sent..]
    }

    /// Whether nothing is to be sent.
    pub fn is_empty(&self) -> bool
        ensures { result ≡ (length self.now.rest == 0) }
    {
        self.len() == 0
    }

    /// Whether a write into it has failed so far, for want of memory.
    pub fn has_failed(&self) -> bool
        ensures { result ≡ self.now.has_failed }
    {
        self.has_failed
    }

    /// How many bytes of memory it holds: at most `MOST_KEPT` where nothing is to be sent.
    pub fn memory(&self) -> usize
        ensures least { length self.now.rest ≤ result }
        ensures none { self.now.rest ≡ [] → result ≤ MOST_KEPT }
    {
        let _sent = self.sent;
        self.bytes.capacity()
    }

    /// Lets go of the room behind the bytes, where it is more than `MOST_KEPT`: for bytes that wait for their peer.
    pub fn release(&mut self)
        ensures { self.new ≡ self.old }
    {
        if self.bytes.capacity() - self.bytes.len() > MOST_KEPT {
            self.bytes.shrink_to_fit();
        }
    }

    /// Sends until nothing is left, or the writer would wait, and tells which of the two it was. What the writer took is unsent no more, and everything
    /// else stays, in every case.
    ///
    /// A write that a signal interrupts is made again, until it was made `MOST_TRIES` times. A `WriteFault` comes where a write fails otherwise, or takes
    /// none of some bytes, or was made that often.
    pub fn send_to<W: Write>(&mut self, leaving: &mut Leaving<'_, W>) -> Result<Sent, WriteFault>
        ensures bytes { Goes (W.contents leaving.old.writer.now) (W.contents leaving.new.writer.now) self.old.rest self.new.rest }
        ensures all { (result ≡ Ok Sent.All) ↔ (self.new.rest ≡ []) }
        ensures waits { result ≡ Ok Sent.Waits → leaving.new.waits ≡ true }
        ensures no_wait { result ≢ Ok Sent.Waits → leaving.new.waits ≡ leaving.old.waits }
        ensures sound { OnOk result (leaving.new.has_failed ≡ leaving.old.has_failed) }
        ensures failed { OnErr result (leaving.new.has_failed ≡ true) }
        ensures same_stream { leaving.new.writer.ghost_name ≡ leaving.old.writer.ghost_name }
        ensures has_failed { self.new.has_failed ≡ self.old.has_failed }
    {
        let most = self.len();
        self.send_front(leaving, most)
    }

    /// Sends as `send_to` does, to any writer of std that never waits (`ErrorKind::WouldBlock` where it would).
    ///
    /// The contracts of std's traits don't tell when a write fails or would wait, so this one leaves open whether one did: `send_to` tells it exactly.
    pub fn send<W: Write>(&mut self, writer: &mut W) -> Result<Sent, WriteFault>
        ensures bytes { Goes (W.contents writer.old) (W.contents writer.new) self.old.rest self.new.rest }
        ensures all { (result ≡ Ok Sent.All) ↔ (self.new.rest ≡ []) }
        ensures has_failed { self.new.has_failed ≡ self.old.has_failed }
    {
        let mut leaving = Leaving::new(writer);
        self.send_to(&mut leaving)
    }

    /// Sends the first `MOST_AT_ONCE` bytes, or all where fewer are there, as `send` sends all: so others needn't wait until a peer that takes whatever
    /// comes has all of a long response. Tells `All` where these are sent; then there may be more.
    pub fn send_piece<W: Write>(&mut self, writer: &mut W) -> Result<Sent, WriteFault>
        ensures bytes { Goes (W.contents writer.old) (W.contents writer.new) self.old.rest self.new.rest }
        ensures all { (result ≡ Ok Sent.All) ↔ (length self.new.rest ≡ length self.old.rest - 65536) }
        ensures most { length self.old.rest ≤ length self.new.rest + 65536 }
        ensures has_failed { self.new.has_failed ≡ self.old.has_failed }
    {
        let mut leaving = Leaving::new(writer);
        self.send_front(&mut leaving, MOST_AT_ONCE)
    }

    /// Sends the first `most` bytes, or all where fewer are there, as `send_to` sends all.
    fn send_front<W: Write>(
        &mut self,
        leaving: &mut Leaving<'_, W>,
        most: usize,
    ) -> Result<Sent, WriteFault>
        ensures bytes { Goes (W.contents leaving.old.writer.now) (W.contents leaving.new.writer.now) self.old.rest self.new.rest }
        ensures all { (result ≡ Ok Sent.All) ↔ (length self.new.rest ≡ length self.old.rest - most) }
        ensures most { length self.old.rest ≤ length self.new.rest + most }
        ensures waits { result ≡ Ok Sent.Waits → leaving.new.waits ≡ true }
        ensures no_wait { result ≢ Ok Sent.Waits → leaving.new.waits ≡ leaving.old.waits }
        ensures sound { OnOk result (leaving.new.has_failed ≡ leaving.old.has_failed) }
        ensures failed { OnErr result (leaving.new.has_failed ≡ true) }
        ensures same_stream { leaving.new.writer.ghost_name ≡ leaving.old.writer.ghost_name }
        ensures has_failed { self.new.has_failed ≡ self.old.has_failed }
    {
        let end = self.sent + self.len().min(most);
        let (count, sent) = write_front(leaving, &self.bytes[self.sent..end]);
        self.sent += count;
        let_go(&mut self.bytes, &mut self.sent);
        sent
    }

    /// Appends all of the bytes. A `WriteFault` comes where no memory is left for them; that is remembered, and nothing else changes.
    fn append(&mut self, bytes: &[u8]) -> Result<(), WriteFault>
        ensures ok { OnOk result (self.new ≡ record self.old { rest = self.old.rest ++ bytes.now }) }
        ensures err { OnErr result (self.new ≡ record self.old { has_failed = true }) }
    {
        let appended = self.bytes.extend_from_slice(bytes);
        let_go(&mut self.bytes, &mut self.sent);
        if appended.is_err() {
            self.has_failed = true;
            return Err(WriteFault);
        }
        Ok(())
    }
}

/// A write appends all of the bytes. It fails only where no memory is left for them.
impl Sink for Unsent {
    ghost stream = { stream_of };

    ghost contents = { λ u. Some u.rest };

    ghost failed = { λ u. u.has_failed };

    fn write_some(&mut self, bytes: &[u8]) -> Result<usize, WriteFault>
        ensures bound { IfOk result (λ n. n ≤ length bytes.now) }
        ensures some { IfOk result (λ n. 0 < length bytes.now → 0 < n) }
        ensures bytes { IfOk result (λ n. Appends (Some self.old.rest) (Some self.new.rest) (take n bytes.now)) }
        ensures sound { OnOk result (self.new.has_failed ≡ self.old.has_failed) }
        ensures kept { OnErr result (Keeps (Some self.old.rest) (Some self.new.rest)) }
        ensures failed { OnErr result (self.new.has_failed ≡ true) }
        ensures same_stream { stream_of self.new ≡ stream_of self.old }
        ensures all { IfOk result (λ n. n ≡ length bytes.now) }
    {
        self.append(bytes)?;
        Ok(bytes.len())
    }

    /// Keeps the bytes as they are, where none are unsent; else appends them.
    fn write_owned(&mut self, bytes: Vec<u8>, start: usize) -> Result<(), WriteFault> {
        if self.len() > 0 || start == bytes.len() {
            return self.append(&bytes[start..]);
        }
        self.bytes = bytes;
        self.sent = start;
        Ok(())
    }

    fn flush(&mut self) -> Result<(), WriteFault> {
        Ok(())
    }
}

/// Lets go of the memory where all bytes are sent, but for a little.
fn let_go(bytes: &mut Vec<u8>, sent: &mut usize)
    requires { sent.old ≤ length bytes.old.items }
    ensures rest { drop sent.new bytes.new.items ≡ drop sent.old bytes.old.items }
    ensures lean { IsLean (length bytes.new.items) sent.new (vec_capacity bytes.new) }
{
    if *sent == bytes.len() {
        bytes.clear();
        *sent = 0;
        if bytes.capacity() > MOST_KEPT {
            bytes.shrink_to_fit();
        }
    }
}
