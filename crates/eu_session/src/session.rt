//! A session: one request after the other.
ghost use Rattle.std.specs.Prelude.{◌≡◌, ◌≢◌, IfErr, OnOk};
ghost use Rattle.eu_session.specs.Session.{Session};

use crate::SessionFault;
use crate::room::SessionRoom;
use crate::talk::{Turned, take_turn};
use eu_clock::Clock;
use eu_http::Policy;
use eu_model::Desk;
use eu_routes::Routes;
use eu_stream::{Sink, Source};
use std::alloc::Global;

/// Serves a session of HTTP/1.1 (RFC 9112, section 9), and tells how many requests there were.
///
/// Requests are read one after another, as `eu_framing::read_request` reads them. Once one is whole, the clock is asked for the
/// moment, once, and what the request asks then, by the policy (`eu_http::asks`), is put to the desk, each ask once, in order. The response
/// (`eu_http::answer`) is written in one piece and flushed before the next request is read. A fault of the desk, its
/// `OutOfMemory` too, is told in the response, and the session goes on. Of a request that is refused or forbidden the desk is
/// asked nothing.
///
/// The session ends
///
/// - with a request that asks for that: one of HTTP/1.0, or with a field `Connection: close`;
/// - with the 100th request;
/// - where the bytes begin with no request, by a fault of `read_request` other than the two below. That is answered, without
///   the clock or the desk being asked, and counts as a request;
/// - where the bytes end before a request.
///
/// In the first three cases the last response says `Connection: close`. Faults end it early:
///
/// - `Read`: a read failed. The responses to the requests that had come whole before it are written, to each of them, and nothing else,
///   and nothing else was asked.
/// - `Write`: a write or a flush failed. The responses before are written, and some front of the last text: a response, the answer to bytes
///   that begin with no request, or the refusal by `OutOfMemory`. Where it was a response, what its request asks was asked, once. Where it
///   was the refusal by `OutOfMemory`, no command was done.
/// - `OutOfMemory`: the session itself found no memory. The responses to the requests before are written. Of the last request all that it
///   asks was asked, once, or nothing. Where a command was done nothing more is written, since a refusal would be false; else what is
///   written is the refusal by `OutOfMemory` (503), which says `Connection: close`.
///
/// Bytes that were read behind the last request are lost. What `room` holds doesn't matter.
pub fn serve_session<D: Desk, C: Clock, R: Source, W: Sink>(
    alloc: Global,
    routes: &Routes,
    policy: &Policy,
    room: &mut SessionRoom,
    desk: &mut D,
    clock: &mut C,
    reader: &mut R,
    writer: &mut W,
) -> Result<u32, SessionFault>
    ensures session { Session policy.now D.asked C.tells
        (record { left = R.remaining reader.old; desk = desk.old; clock = clock.old })
        (record { left = R.remaining reader.new; desk = desk.new; clock = clock.new })
        (record { before = W.contents writer.old; after = W.contents writer.new; reader_failed = R.failed reader.new; writer_failed = W.failed writer.new }) result }
    ensures sound_reader { OnOk result (R.failed reader.new ≡ R.failed reader.old) }
    ensures sound_writer { OnOk result (W.failed writer.new ≡ W.failed writer.old) }
    ensures told_reader { IfErr result (λ fault. fault ≢ SessionFault.Read → R.failed reader.new ≡ R.failed reader.old) }
    ensures told_writer { IfErr result (λ fault. fault ≢ SessionFault.Write → W.failed writer.new ≡ W.failed writer.old) }
    ensures same_reader { R.stream reader.new ≡ R.stream reader.old }
    ensures same_writer { W.stream writer.new ≡ W.stream writer.old }
{
    room.talk.begin_anew(alloc);
    'turns: loop {
        match take_turn(
            alloc,
            routes,
            policy,
            &mut room.room,
            &mut room.talk,
            desk,
            clock,
            reader,
            writer,
        )? {
            Turned::GoesOn => {}
            Turned::Ended(requests) => return Ok(requests),
        }
    }
}
