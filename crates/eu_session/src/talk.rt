//! A session that is taken up again and again: one turn at a time.
ghost use Rattle.std.specs.Prelude.{◌≡◌, ◌≢◌, ◌<◌, [], IfErr, OnOk};
ghost use Rattle.eu_framing.specs.Message.{pending};
ghost use Rattle.eu_http.specs.declared.policy.Policy.{Policy};
ghost use Rattle.eu_session.specs.Session as spec;
ghost use Rattle.eu_session.specs.Talk.{PartsCarry, PartsEnd, PartsEndOver, PartsJoin, PartsJoinOver, Takes};

use crate::turn::{answer_request, refuse};
use crate::{MAX_REQUESTS, SessionFault};
use eu_clock::Clock;
use eu_framing::{Inbox, Request, Room, read_request};
use eu_http::Policy;
use eu_model::Desk;
use eu_routes::Routes;
use eu_stream::{Sink, Source};
use std::alloc::Global;

/// A session between two turns. It is a value: whoever has it can take the next turn.
#[derive(Debug, Drop)]
pub struct Talk {
    /// The bytes that were read and not yet used.
    pub inbox: Inbox,
    /// How many requests were answered.
    pub served: u32,
    ghost few: { served < 100 },
}

/// What comes after a turn.
#[derive(Clone, Copy, Debug, PartialEq, Eq)]
pub enum Turned {
    /// The session goes on.
    GoesOn,
    /// It has ended, with so many requests.
    Ended(u32),
}

impl Talk {
    /// A session that begins: nothing was read of it, and nothing answered.
    pub fn new(alloc: Global) -> Talk
        ensures inbox { result.inbox ≡ [] }
        ensures served { result.served ≡ 0 }
    {
        Talk {
            inbox: Inbox::new(alloc),
            served: 0,
        }
    }

    /// Begins another session in its place, and keeps the memory of the inbox, up to 64 KiB. Takes none.
    pub fn begin_anew(&mut self, alloc: Global)
        ensures inbox { self.new.inbox ≡ [] }
        ensures served { self.new.served ≡ 0 }
    {
        self.inbox.begin_anew(alloc);
        self.served = 0;
    }
}

/// Whether a session ends with the request, which comes after `n` others.
fn is_last(request: &Request, n: u32) -> bool
    ensures { result ≡ spec.is_last n request.now }
{
    request.closes || n == MAX_REQUESTS - 1
}

/// Takes one turn of a session of HTTP/1.1 (RFC 9112, section 9): reads the next request, answers it, and tells whether the session goes on.
/// What a turn does, and when the session ends, `serve_session` says.
///
/// Bytes that were read behind the request stay in `talk`, for the next turn. What `room` holds doesn't matter.
///
/// `Read` comes where the reader failed before the request was whole, which may mean that no more has come so far. Then `talk` has what was read,
/// and as many requests as before, nothing was asked or written, and the turn can be taken again. After `Write` and `OutOfMemory`, which come as in
/// `serve_session`, the session is over, as it is after `Ended`.
pub fn take_turn<D: Desk, C: Clock, R: Source, W: Sink>(
    alloc: Global,
    routes: &Routes,
    policy: &Policy,
    room: &mut Room,
    talk: &mut Talk,
    desk: &mut D,
    clock: &mut C,
    reader: &mut R,
    writer: &mut W,
) -> Result<Turned, SessionFault>
    ensures turn { Takes policy.now D.asked C.tells talk.old.served talk.new.served
        (record { left = pending talk.old.inbox (R.remaining reader.old); desk = desk.old; clock = clock.old })
        (record { left = pending talk.new.inbox (R.remaining reader.new); desk = desk.new; clock = clock.new })
        (record { before = W.contents writer.old; after = W.contents writer.new; reader_failed = R.failed reader.new; writer_failed = W.failed writer.new })
        talk.new.inbox result }
    ensures sound_reader { OnOk result (R.failed reader.new ≡ R.failed reader.old) }
    ensures sound_writer { OnOk result (W.failed writer.new ≡ W.failed writer.old) }
    ensures told_reader { IfErr result (λ fault. fault ≢ SessionFault.Read → R.failed reader.new ≡ R.failed reader.old) }
    ensures told_writer { IfErr result (λ fault. fault ≢ SessionFault.Write → W.failed writer.new ≡ W.failed writer.old) }
    ensures same_reader { R.stream reader.new ≡ R.stream reader.old }
    ensures same_writer { W.stream writer.new ≡ W.stream writer.old }
{
    let served = talk.served;
    let request = match read_request(alloc, reader, &mut talk.inbox, room) {
        Ok(Some(request)) => request,
        Ok(None) => return Ok(Turned::Ended(served)),
        Err(fault) => {
            refuse(alloc, writer, fault)?;
            return Ok(Turned::Ended(served + 1));
        }
    };
    let close = is_last(&request, served);
    answer_request(alloc, routes, policy, desk, clock, writer, &request, close)?;
    if close {
        return Ok(Turned::Ended(served + 1));
    }
    talk.served = served + 1;
    Ok(Turned::GoesOn)
}

/// A law without code: turns at one desk that stand apart are one session, as `serve_session` has it.
pub fn turns_are_sessions<D: Desk, C: Clock>()
    ensures join { (policy : Policy) → PartsJoin policy D.asked C.tells }
    ensures end { (policy : Policy) → PartsEnd policy D.asked C.tells }
{}

/// A law without code: the turns of a connection are one session from bytes to bytes, also where each is taken at another desk, and others ask there
/// between them. It has the requests of the bytes, one after another, each answered by what was asked at its desk and moment; the responses stand
/// behind one another, and it ends as a session at one desk does, with the 100th request at the latest.
pub fn turns_are_connections<D: Desk, C: Clock>()
    ensures carry { (policy : Policy) → PartsCarry policy D.asked C.tells }
    ensures join { (policy : Policy) → PartsJoinOver policy D.asked C.tells }
    ensures end { (policy : Policy) → PartsEndOver policy D.asked C.tells }
{}
