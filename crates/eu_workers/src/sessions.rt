//! Workers that serve sessions, visit by visit.
ghost use Rattle.std.specs.Prelude.{◌≡◌, ◌<◌, ◌≤◌, ◌+◌, ◌⊎◌, ◌↔◌, ◌||◌, [], if◌then◌else◌, None, Some, true, false, length};
ghost use Rattle.eu_workers.specs.Returned.{HasTurn, IsAsked, TakesTurns};
ghost use Rattle.eu_workers.specs.Visits.{has_ended, judged};
ghost use Rattle.eu_workers.specs.Visits as spec;
ghost use Rattle.eu_workers.specs.Long.{is_long as is_long_request};

use crate::ended::Ended;
use crate::gated::{GatedSink, GatedSource, Halt};
use crate::incoming::Incoming;
use crate::long::{is_long, listed};
use crate::operator::take_operator_turn;
use crate::responded::responded;
use crate::site::Site;
use eu_base::{App, Fault};
use eu_clock::Clock;
use eu_framing::{EMPTY_ROOM, Inbox, Room};
use eu_gate::{Gate, Go, Point};
use eu_hall::{Guest, Happened, Left, Phase, Sent, ServerFacts, Unsent, Visit};
use eu_http::Policy;
use eu_session::{SessionFault, Talk, Turned, take_turn};
use eu_shared::{Label, Pass, Seat};
use eu_stream::{Sink, Source};
use std::alloc::Global;
use std::io::{Read, Write};
use std::mem;
use std::sync::Wait;

/// How many instances a listing has at most that a loop writes itself: to call another thread would take longer.
const FEW: usize = 8;

/// How many bytes of each of them are kept at most as its client gave them: with what the registry adds, a loop writes no more than it sends at once, 64 KiB.
const SHORT: usize = 7_168;

/// What a worker keeps from visit to visit, so that a connection that waits holds no memory for what is read of it.
#[derive(Drop)]
struct Workplace {
    room: Room,
    inbox: Inbox,
}

/// Trades the memory of two inboxes, if neither holds a byte.
fn lend(talk: &mut Talk, inbox: &mut Inbox)
    ensures { talk.new.inbox ≡ talk.old.inbox }
{
    if talk.inbox.as_slice().is_empty() && inbox.as_slice().is_empty() {
        mem::swap(&mut talk.inbox, inbox);
    }
}

/// What comes of one step of a visit.
enum Progress {
    /// A request was answered, or the session has ended.
    Answered,
    /// The visit is over, and left the connection so.
    Over(Left),
}

/// What is awaited of a peer, of whose session no more can be read now.
fn phase_of(talk: &Talk) -> Phase
    ensures { result ≡ spec.phase_of talk.now.inbox }
{
    if talk.inbox.as_slice().is_empty() {
        Phase::Idle
    } else {
        Phase::Asking
    }
}

/// How a read that failed leaves a connection, where it tells that.
fn left_by(halt: Halt, talk: &Talk) -> Left
    ensures { result ≡ spec.left_by halt talk.now.inbox }
{
    match halt {
        Halt::Waits => Left::Waits(phase_of(talk), Happened::Nothing),
        Halt::Long => Left::Long,
        Halt::Failed => Left::Gone,
    }
}

/// What came of a turn, where a read that failed tells that. A session that has ended is noted, also where there was no memory for an answer,
/// since that may have been told; one that has failed leaves its connection to be closed.
fn judge<S>(
    turned: Result<Turned, SessionFault>,
    halt: Halt,
    guest: &mut Guest<S, Talk>,
) -> Progress
    ensures value { result ≡ judged turned halt guest.old.talk.inbox }
    ensures ended { guest.new ≡ record guest.old { has_ended = guest.old.has_ended || has_ended turned } }
{
    match turned {
        Ok(Turned::GoesOn) => Progress::Answered,
        Ok(Turned::Ended(_)) | Err(SessionFault::OutOfMemory) => {
            guest.has_ended = true;
            Progress::Answered
        }
        Err(SessionFault::Read) => Progress::Over(left_by(halt, &guest.talk)),
        Err(SessionFault::Write) => Progress::Over(Left::Gone),
    }
}

/// Which requests are taken at a visit.
fn policy_of<'a, K: Label, R: Wait, G: Gate>(
    site: &Site<'a, K, R, G>,
    is_warming: bool,
) -> &'a Policy
    ensures { result ≡ (if is_warming then site.now.warm_policy else site.now.policy) }
{
    if is_warming {
        site.warm_policy
    } else {
        site.policy
    }
}

/// Who asks at a visit, and when.
#[derive(Clone, Copy)]
struct Asks {
    /// Whether the server warms up.
    is_warming: bool,
    /// What an operator is told of the server. None where a client asks.
    operator: Option<ServerFacts>,
}

/// Takes one turn of a client's session, or the one of an operator's.
#[tactic(auto, using(crate::proofs::TurnLemmas::asked_by_looking))]
fn take_turn_of<K: Label, R: Wait, G: Gate, C: Clock, S: Source, W: Sink>(
    site: &Site<'_, K, R, G>,
    asks: Asks,
    room: &mut Room,
    talk: &mut Talk,
    seat: &mut Seat<'_, K, R>,
    clock: &mut C,
    reader: &mut S,
    writer: &mut W,
) -> Result<Turned, SessionFault>
    ensures asked { IsAsked seat.old.pass seat.new.pass }
    ensures same_reader { S.stream reader.new ≡ S.stream reader.old }
    ensures same_writer { W.stream writer.new ≡ W.stream writer.old }
{
    if let Some(server) = asks.operator {
        return take_operator_turn(site, server, room, talk, seat, clock, reader, writer);
    }
    let policy = policy_of(site, asks.is_warming);
    take_turn(
        site.alloc,
        site.routes,
        policy,
        room,
        talk,
        seat,
        clock,
        reader,
        writer,
    )
}

/// Tells the gate what a client is told by a response, where there is one, which is all that is unsent of its connection.
fn tell_gate<G: Gate>(gate: &G, who: u32, unsent: &Unsent) {
    if let Some(told) = responded(unsent.as_slice()) {
        gate.responded(who, told);
    }
}

/// Takes one turn of the session of a connection, of which all is sent: a response never comes into the middle of another.
fn turn<K: Label, R: Wait, G: Gate, C: Clock, S: Read>(
    site: &Site<'_, K, R, G>,
    who: u32,
    room: &mut Room,
    seat: &mut Seat<'_, K, R>,
    clock: &mut C,
    visit: &mut Visit<S, Talk>,
) -> Progress
    requires { visit.old.guest.value.unsent.rest ≡ [] }
    ensures { IsAsked seat.old.pass seat.new.pass }
{
    let guest = visit.guest.as_mut();
    let mut source = GatedSource::new(
        &mut guest.socket,
        site.gate,
        who,
        visit.reads_on,
        visit.leaves_long,
        visit.is_drained,
    );
    let mut sink = GatedSink::new(&mut guest.unsent, site.gate, who);
    let asks = Asks {
        is_warming: visit.is_warming,
        operator: visit.operator,
    };
    let talk = &mut guest.talk;
    let turned = take_turn_of(site, asks, room, talk, seat, clock, &mut source, &mut sink);
    let halt = source.halt();
    visit.is_drained = source.is_drained();
    if asks.operator.is_none() {
        tell_gate(site.gate, who, &guest.unsent);
    }
    let progress = judge(turned, halt, guest);
    if guest.has_ended {
        site.gate.ended(who);
    }
    progress
}

/// How a visit left a connection, at which a request was answered before. Where the next one is left to others, it begins anew.
fn after_answers(left: Left) -> Left
    ensures { result ≡ spec.after_answers left }
{
    match left {
        Left::Waits(phase, _) => Left::Waits(phase, Happened::Answered),
        Left::SendsOn(_) => Left::SendsOn(Happened::Answered),
        Left::Long => Left::GoesOn,
        left => left,
    }
}

/// Sends what is to be sent, or a piece of it where the visit doesn't send on. Tells how that leaves the connection where not all is sent.
fn send<S: Write>(visit: &mut Visit<S, Talk>) -> Option<Left>
    ensures all { (result ≡ None) ↔ (visit.new.guest.value.unsent.rest ≡ []) }
    ensures piece { visit.old.sends_on ≡ false → length visit.old.guest.value.unsent.rest ≤ length visit.new.guest.value.unsent.rest + 65536 }
    ensures moved { result ≡ Some (Left.Waits Phase.Answering Happened.Moved) → length visit.new.guest.value.unsent.rest < length visit.old.guest.value.unsent.rest }
    ensures still { result ≡ Some (Left.Waits Phase.Answering Happened.Nothing) → length visit.old.guest.value.unsent.rest ≤ length visit.new.guest.value.unsent.rest }
    ensures sends_on { result ≡ Some (Left.SendsOn Happened.Moved) → visit.old.sends_on ≡ false }
    ensures rest { visit.new ≡ record visit.old { guest = visit.new.guest } }
    ensures guest { visit.new.guest.value ≡ record visit.old.guest.value { socket = visit.new.guest.value.socket; unsent = visit.new.guest.value.unsent } }
{
    let guest = visit.guest.as_mut();
    let before = guest.unsent.len();
    let sent = if visit.sends_on {
        guest.unsent.send(&mut guest.socket)
    } else {
        guest.unsent.send_piece(&mut guest.socket)
    };
    match sent {
        Ok(Sent::All) if guest.unsent.is_empty() => None,
        Ok(Sent::All) => Some(Left::SendsOn(Happened::Moved)),
        Ok(Sent::Waits) if guest.unsent.len() < before => {
            Some(Left::Waits(Phase::Answering, Happened::Moved))
        }
        Ok(Sent::Waits) => Some(Left::Waits(Phase::Answering, Happened::Nothing)),
        Err(_) => Some(Left::Gone),
    }
}

/// Whether a request that begins so lists few instances now, each of them short. No where it lists nothing, or where that isn't known without more work, as of
/// a name that is percent-encoded.
fn is_brief<K: Label, R: Wait>(alloc: Global, seat: &Seat<'_, K, R>, bytes: &[u8]) -> bool {
    let Some(Ok(name)) = listed(bytes).map(str::from_utf8) else {
        return false;
    };
    if name.is_empty() {
        return seat.shared.is_brief(seat.rt, None, FEW, SHORT);
    }
    if name.contains('%') {
        return false;
    }
    match App::read(alloc, name) {
        Ok(app) => seat.shared.is_brief(seat.rt, Some(&app), FEW, SHORT),
        Err(_) => false,
    }
}

/// Whether a request that begins so is to be left to others: it takes long, and isn't a listing of few and short instances. It only tells who takes the turn:
/// a wrong answer costs time alone.
fn is_left<K: Label, R: Wait>(alloc: Global, seat: &Seat<'_, K, R>, bytes: &[u8]) -> bool
    ensures { result ≡ true → is_long_request bytes.now ≡ true }
{
    is_long(bytes) && !is_brief(alloc, seat, bytes)
}

/// Looks at the first bytes of the next request, where one that takes long is left to others: reads them, where none are there. Tells how that leaves the
/// connection, where the turn is not to be taken.
fn look_ahead<K: Label, R: Wait, G: Gate, S: Read>(
    site: &Site<'_, K, R, G>,
    who: u32,
    room: &mut Room,
    seat: &Seat<'_, K, R>,
    visit: &mut Visit<S, Talk>,
) -> Option<Left>
    ensures kept { visit.new.guest.value ≡ record visit.old.guest.value { socket = visit.new.guest.value.socket; talk = visit.new.guest.value.talk } }
    ensures long { result ≡ Some Left.Long → visit.old.leaves_long ≡ true }
{
    if !visit.leaves_long {
        return None;
    }
    let guest = visit.guest.as_mut();
    let mut source = GatedSource::new(
        &mut guest.socket,
        site.gate,
        who,
        visit.reads_on,
        visit.leaves_long,
        visit.is_drained,
    );
    let read = guest.talk.inbox.read_ahead(&mut source, room);
    let halt = source.halt();
    visit.is_drained = source.is_drained();
    match read {
        Ok(()) if is_left(site.alloc, seat, guest.talk.inbox.as_slice()) => Some(Left::Long),
        Err(Fault::Read) => Some(left_by(halt, &guest.talk)),
        _ => None,
    }
}

/// Takes one turn of the session of a connection, of which all is sent, if the session goes on and its next request isn't left to others; and sends the response.
fn step<K: Label, R: Wait, G: Gate, C: Clock, S: Read + Write>(
    site: &Site<'_, K, R, G>,
    who: u32,
    room: &mut Room,
    seat: &mut Seat<'_, K, R>,
    clock: &mut C,
    visit: &mut Visit<S, Talk>,
) -> Progress
    requires sent { visit.old.guest.value.unsent.rest ≡ [] }
    ensures asked { IsAsked seat.old.pass seat.new.pass }
    ensures sent { result ≡ Progress.Answered → visit.new.guest.value.unsent.rest ≡ [] }
    ensures ended { visit.old.guest.value.has_ended ≡ true → result ≡ Progress.Over (Left.Waits Phase.Lingering Happened.Nothing) }
{
    if visit.guest.has_ended {
        return Progress::Over(Left::Waits(Phase::Lingering, Happened::Nothing));
    }
    if let Some(left) = look_ahead(site, who, room, seat, visit) {
        return Progress::Over(left);
    }
    match turn(site, who, room, seat, clock, visit) {
        Progress::Answered => match send(visit) {
            Some(left) => Progress::Over(after_answers(left)),
            None => Progress::Answered,
        },
        over => over,
    }
}

/// How a visit leaves a connection of which a request was just answered, where nothing more has come, so that a further turn would find nothing to read.
fn rests<S>(visit: &Visit<S, Talk>) -> Option<Left>
    ensures { result ≡ spec.rests visit.now.is_drained visit.now.guest.value.talk.inbox visit.now.guest.value.has_ended }
{
    let guest = visit.guest.as_ref();
    if visit.is_drained && guest.talk.inbox.as_slice().is_empty() && !guest.has_ended {
        Some(Left::Waits(Phase::Idle, Happened::Answered))
    } else {
        None
    }
}

/// Sends what is to be sent of a connection, and then takes one turn of its session after another, each once the response before is sent, until a
/// read or a write would wait, all that came is answered, the session has ended, or it had its turns. Tells how that left the connection.
fn serve<K: Label, R: Wait, G: Gate, C: Clock, S: Read + Write>(
    site: &Site<'_, K, R, G>,
    who: u32,
    room: &mut Room,
    seat: &mut Seat<'_, K, R>,
    clock: &mut C,
    visit: &mut Visit<S, Talk>,
) -> Left
    ensures { IsAsked seat.old.pass seat.new.pass }
{
    if let Some(left) = send(visit) {
        return left;
    }
    let mut has_answered = false;
    for _turn in 0..visit.most_turns {
        match step(site, who, room, seat, clock, visit) {
            Progress::Answered => {
                if let Some(left) = rests(visit) {
                    return left;
                }
                has_answered = true;
            }
            Progress::Over(left) if has_answered => return after_answers(left),
            Progress::Over(left) => return left,
        }
    }
    Left::GoesOn
}

/// A turn of a worker: visits a connection, gives it back, and trims the log of the pass. Tells whether the connection goes on.
fn visit<K: Label, R: Wait, G: Gate, S: Incoming, C: Clock>(
    site: &Site<'_, K, R, G>,
    who: u32,
    workplace: &mut Workplace,
    seat: &mut Seat<'_, K, R>,
    clock: &mut C,
    source: &mut S,
    visit: Visit<S::Socket, Talk>,
) -> Result<(), ()>
    ensures { HasTurn seat.old.pass seat.new.pass }
{
    let mut visit = visit;
    lend(&mut visit.guest.talk, &mut workplace.inbox);
    let left = serve(site, who, &mut workplace.room, seat, clock, &mut visit);
    lend(&mut visit.guest.talk, &mut workplace.inbox);
    workplace.inbox.begin_anew(site.alloc);
    source.take_back(visit, left);
    seat.pass.trim();
    if left == Left::Gone { Err(()) } else { Ok(()) }
}

/// Visits one connection after the other, until there is none, the gate stops it or it had so many turns, and gives its pass back.
/// `who` is the worker's number at the gate, 1 to 20.
///
/// A turn passes the gate, takes the next connection for which there is something to do, sends what is to be sent of it, takes turns of
/// its session (`eu_session::take_turn`), gives it back, and trims the log of the pass (`Pass::trim`). Each read of the connection passes
/// the gate first, and fails where that says `Stop`; and each response passes it before it is flushed, and is told it once it is made. A connection that
/// has failed is counted as refused, and the next one follows. Where an operator asks (`Visit::operator`), the connection has one turn, which only looks.
pub fn run_sessions<K: Label, R: Wait, G: Gate, S: Incoming, C: Clock>(
    site: &Site<'_, K, R, G>,
    who: u32,
    pass: Pass<K>,
    source: &mut S,
    clock: &mut C,
    limit: u64,
) -> (Pass<K>, Ended)
    ensures takes { TakesTurns limit pass result.0 result.1 }
    ensures stops { result.1.turns < limit → G.stops site.now.gate.now ⊎ S.ended source.new }
{
    let mut seat = Seat {
        pass,
        shared: site.shared,
        rt: site.rt,
    };
    let mut workplace = Workplace {
        room: EMPTY_ROOM,
        inbox: Inbox::new(site.alloc),
    };
    let mut ended = Ended::default();
    for _turn in 0..limit {
        if site.gate.pass(who, Point::Turn) == Go::Stop {
            break;
        }
        let Some(connection) = source.next() else {
            break;
        };
        let goes_on = visit(
            site,
            who,
            &mut workplace,
            &mut seat,
            clock,
            source,
            connection,
        );
        ended.count(&goes_on);
    }
    let Seat {
        pass,
        shared: _,
        rt: _,
    } = seat;
    (pass, ended)
}
