//! The bytes of a connection that were read and not yet used.
ghost use Rattle.std.specs.Prelude.{◌≡◌, ◌≢◌, ◌⊎◌, ◌≤◌, ◌+◌, ◌-◌, ◌^◌, [], List, ℕ, true, IfErr, IfSome, OnOk, length, min, option_map, vec_capacity};
ghost use Rattle.std.specs.Io.KnownBytes.{Keeps};
ghost use Rattle.eu_framing.specs.Message.{pending};
ghost use Rattle.eu_framing.specs.Walking.{IsBegun, waiting_memory};

use crate::buffer::{Room, fill};
use crate::request::Begun;
use eu_base::Fault;
use eu_stream::Source;
use std::alloc::Global;
use std::marker::Model;

/// The most bytes of memory that an inbox keeps when it begins anew.
const MOST_KEPT: usize = 65_536;

/// Drops the bytes, and keeps their memory where it is at most so much.
fn empty(bytes: &mut Vec<u8>, alloc: Global)
    ensures items { bytes.new.items ≡ [] }
    ensures kept { vec_capacity bytes.old ≤ MOST_KEPT → vec_capacity bytes.new ≡ vec_capacity bytes.old }
    ensures most { vec_capacity bytes.new ≤ MOST_KEPT }
{
    if bytes.capacity() > MOST_KEPT {
        *bytes = Vec::new(alloc);
    }
    bytes.clear();
}

/// How many bytes of memory the bytes have, and what was taken of a request.
fn memory_of(bytes: &Vec<u8>, begun: &Option<Box<Begun>>) -> usize
    ensures { result ≡ min (vec_capacity bytes.now + waiting_memory (option_map (λ b. b.value) begun.now)) (2 ^ 64 - 1) }
{
    match begun {
        Some(begun) => bytes.capacity().saturating_add(begun.memory()),
        None => bytes.capacity(),
    }
}

/// The bytes that were read of a connection and not yet used. Contracts see the bytes.
///
/// Beside them it keeps how far it went through a request that isn't whole yet, so that the next call of `read_request` goes on there: so a request
/// that comes in tiny pieces costs time in proportion to its bytes.
#[derive(Debug, Drop)]
pub struct Inbox {
    pub(crate) bytes: Vec<u8>,
    pub(crate) begun: Option<Box<Begun>>,
}

impl Model for Inbox {
    ghost Value = { List ℕ };

    ghost view = { λ inbox. inbox.bytes.items };

    ghost invariant = { λ inbox. IfSome inbox.begun (λ begun. IsBegun inbox.bytes.items begun.value) };
}

impl Inbox {
    /// One that holds nothing. Takes no memory.
    pub fn new(alloc: Global) -> Inbox
        ensures { result ≡ [] }
    {
        Inbox {
            bytes: Vec::new(alloc),
            begun: None,
        }
    }

    /// Its bytes.
    pub fn as_slice(&self) -> &[u8]
        ensures { result.now ≡ self.now }
    {
        self.bytes.as_slice()
    }

    /// Reads once, where it holds no byte, so that the first bytes of a request can be looked at before it is read. None come only at the end.
    ///
    /// `Read` comes where the read failed, and `OutOfMemory` where there was no memory for what might come. After a fault no byte is lost.
    pub fn read_ahead<R: Source>(&mut self, reader: &mut R, room: &mut Room) -> Result<(), Fault>
        ensures kept { Keeps (pending self.old (R.remaining reader.old)) (pending self.new (R.remaining reader.new)) }
        ensures sound { OnOk result (R.failed reader.new ≡ R.failed reader.old) }
        ensures fault { IfErr result (λ fault. (fault ≡ Fault.OutOfMemory) ⊎ ((fault ≡ Fault.Read) × (R.failed reader.new ≡ true))) }
        ensures told { IfErr result (λ fault. fault ≢ Fault.Read → R.failed reader.new ≡ R.failed reader.old) }
        ensures same_stream { R.stream reader.new ≡ R.stream reader.old }
    {
        if !self.bytes.is_empty() {
            return Ok(());
        }
        self.begun = None;
        fill(reader, &mut self.bytes, &mut room.piece)?;
        Ok(())
    }

    /// How many bytes of memory it holds: for its bytes, and for what was taken of a request that isn't whole yet (`memory_of`).
    pub fn capacity(&self) -> usize
        ensures { length self.now ≤ result }
    {
        memory_of(&self.bytes, &self.begun)
    }

    /// Drops its bytes, and keeps their memory, up to 64 KiB. Takes none.
    pub fn begin_anew(&mut self, alloc: Global)
        ensures { self.new ≡ [] }
    {
        self.begun = None;
        empty(&mut self.bytes, alloc);
    }

    /// Gives its memory back where it holds no bytes, as before a connection waits for long.
    pub fn release(&mut self, alloc: Global)
        ensures { self.new ≡ self.old }
    {
        if self.bytes.is_empty() {
            *self = Inbox::new(alloc);
        }
    }
}
