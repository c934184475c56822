//! Requests that come in pieces.
ghost use Rattle.std.specs.Prelude.{◌≡◌, ◌<◌, Some, false, OnOk};

use eu_base::Fault;
use eu_framing::{EMPTY_ROOM, Inbox, read_request};
use eu_stream::{ReadFault, Source};
use std::alloc::Global;

/// Gives its bytes, so many at a time at most, and never fails.
#[derive(Drop)]
pub struct Pieces<'a> {
    rest: &'a [u8],
    most: usize,
    ghost most_bound: { 0 < most },
}

impl<'a> Pieces<'a> {
    /// Gives these bytes, at most so many at a time.
    pub fn new(bytes: &'a [u8], most: usize) -> Pieces<'a>
        requires { 0 < most }
        ensures bytes { ⟦<Pieces<'a> as Source>⟧.remaining result ≡ Some bytes.entry.now }
    {
        Pieces { rest: bytes, most }
    }
}

impl Source for Pieces<'_> {
    ghost stream = { λ _. 0 };

    ghost remaining = { λ s. Some s.rest.now };

    ghost failed = { λ _. false };

    fn read_some(&mut self, buffer: &mut [u8]) -> Result<usize, ReadFault> {
        let count = self.rest.len().min(self.most).min(buffer.len());
        buffer[..count].copy_from_slice(&self.rest[..count]);
        self.rest = &self.rest[count..];
        Ok(count)
    }
}

/// How many requests there are, and how many bytes their bodies have.
#[derive(Clone, Copy, Debug, PartialEq, Eq)]
pub struct Totals {
    /// The requests.
    pub requests: u64,
    /// The bytes of their bodies, or the greatest number where there are more.
    pub bytes: u64,
}

/// Reads requests to the end, and counts them. The faults are those of `read_request`.
pub fn count_requests<R: Source>(alloc: Global, reader: &mut R) -> Result<Totals, Fault>
    ensures sound { OnOk result (R.failed reader.new ≡ R.failed reader.old) }
    ensures same_stream { R.stream reader.new ≡ R.stream reader.old }
{
    let mut inbox = Inbox::new(alloc);
    let mut room = EMPTY_ROOM;
    let mut bytes = 0u64;
    'requests: for requests in 0..u64::MAX {
        match read_request(alloc, reader, &mut inbox, &mut room)? {
            None => return Ok(Totals { requests, bytes }),
            Some(request) => bytes = bytes.saturating_add(request.body.len() as u64),
        }
    }
    Ok(Totals {
        requests: u64::MAX,
        bytes,
    })
}
