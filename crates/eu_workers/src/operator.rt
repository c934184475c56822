//! What an operator asks, and is told: it only looks.
ghost use Rattle.std.specs.Prelude.{◌≡◌};
ghost use Rattle.eu_workers.specs.Returned.{OnlyLooks};

use crate::site::Site;
use eu_admin::{
    Connections, Done, Facts, Media, Refusal, VERSION, Wanted, app_page, front_page, health_text,
    lines_of, metrics_text, refusal_text, response_text, wanted_by,
};
use eu_base::{App, Fault, Moment};
use eu_clock::Clock;
use eu_framing::{Request, Room, read_request};
use eu_gate::{Gate, Tally};
use eu_hall::ServerFacts;
use eu_model::{Listing, Query, View};
use eu_session::{SessionFault, Talk, Turned};
use eu_shared::{Label, Seat};
use eu_stream::{Sink, Source, write_whole};
use std::alloc::{AllocError, Global};
use std::sync::Wait;

/// How a server fares.
#[derive(Clone, Copy)]
struct Server {
    /// What is told of it at a visit.
    facts: ServerFacts,
    /// How many responses its clients were given.
    responses: Tally,
}

/// What is asked of a registry for an operator.
type Asked = Result<Option<String>, AllocError>;

/// The registry and its server, as they are at a moment. `AllocError` where no memory is left.
fn facts_of<K: Label, R: Wait>(
    alloc: Global,
    seat: &mut Seat<'_, K, R>,
    server: &Server,
    moment: Moment,
) -> Result<Facts, AllocError>
    ensures { OnlyLooks seat.old.pass seat.new.pass }
{
    let gauges = seat.shared.gauges(seat.rt, alloc, moment)?;
    let totals = seat.shared.totals(seat.rt);
    let view = seat
        .pass
        .read(seat.rt, seat.shared, alloc, &Query::Page, moment)?;
    let View::Page(_, statuses) = view else {
        return Err(AllocError);
    };
    Ok(Facts {
        gauges,
        statuses,
        done: Done {
            steps: totals.steps,
            renewed: totals.counted,
            added: totals.added,
            removed: totals.removed,
            evicted: server.facts.evicted,
        },
        connections: Connections {
            open: server.facts.open,
            accepted: server.facts.accepted,
            refused: server.facts.refused,
        },
        responses: server.responses,
        uptime_secs: server.facts.uptime_ms / 1_000,
    })
}

/// What is held by a listing's query. `AllocError` where no memory is left.
fn listing_of<K: Label, R: Wait>(
    alloc: Global,
    seat: &mut Seat<'_, K, R>,
    query: &Query,
    moment: Moment,
) -> Result<Listing, AllocError>
    ensures { OnlyLooks seat.old.pass seat.new.pass }
{
    match seat.pass.read(seat.rt, seat.shared, alloc, query, moment)? {
        View::All(listing) | View::OfApp(listing) => Ok(listing),
        View::One(_) | View::Counts(_) | View::Page(_, _) => Err(AllocError),
    }
}

/// The metrics, as a response.
fn metrics<K: Label, R: Wait>(
    alloc: Global,
    seat: &mut Seat<'_, K, R>,
    server: &Server,
    moment: Moment,
    is_head: bool,
) -> Asked
    ensures { OnlyLooks seat.old.pass seat.new.pass }
{
    let facts = facts_of(alloc, seat, server, moment)?;
    let text = metrics_text(alloc, &facts, VERSION)?;
    Ok(Some(response_text(alloc, Media::Metrics, &text, is_head)?))
}

/// The page of the server, as a response.
#[tactic(auto, using(crate::proofs::TurnLemmas::looks_more))]
fn front<K: Label, R: Wait>(
    alloc: Global,
    seat: &mut Seat<'_, K, R>,
    server: &Server,
    moment: Moment,
    is_head: bool,
) -> Asked
    ensures { OnlyLooks seat.old.pass seat.new.pass }
{
    let facts = facts_of(alloc, seat, server, moment)?;
    let listing = listing_of(alloc, seat, &Query::All, moment)?;
    let lines = lines_of(alloc, listing.as_slice())?;
    let text = front_page(alloc, &facts, lines.as_slice(), VERSION)?;
    Ok(Some(response_text(alloc, Media::Page, &text, is_head)?))
}

/// The page of an application, as a response; none where it holds nothing.
fn application<K: Label, R: Wait>(
    alloc: Global,
    seat: &mut Seat<'_, K, R>,
    app: App,
    moment: Moment,
    is_head: bool,
) -> Asked
    ensures { OnlyLooks seat.old.pass seat.new.pass }
{
    let query = Query::OfApp(app.copy(alloc)?);
    let listing = listing_of(alloc, seat, &query, moment)?;
    if listing.as_slice().is_empty() {
        return Ok(None);
    }
    let text = app_page(alloc, app.as_str(), listing.as_slice(), moment.ms())?;
    Ok(Some(response_text(alloc, Media::Page, &text, is_head)?))
}

/// The response with what an operator wants; none where that isn't there.
fn shown<K: Label, R: Wait>(
    alloc: Global,
    seat: &mut Seat<'_, K, R>,
    server: &Server,
    wanted: Wanted,
    moment: Moment,
    is_head: bool,
) -> Asked
    ensures { OnlyLooks seat.old.pass seat.new.pass }
{
    match wanted {
        Wanted::Front => front(alloc, seat, server, moment, is_head),
        Wanted::Metrics => metrics(alloc, seat, server, moment, is_head),
        Wanted::Application(app) => application(alloc, seat, app, moment, is_head),
        Wanted::Health => {
            let text = health_text(server.facts.is_warming);
            Ok(Some(response_text(alloc, Media::Plain, text, is_head)?))
        }
    }
}

/// Writes a text and flushes it: the last of its connection.
fn put<W: Sink>(writer: &mut W, text: &str) -> Result<Turned, SessionFault>
    ensures { W.stream writer.new ≡ W.stream writer.old }
{
    write_whole(writer, text.as_bytes())?;
    writer.flush()?;
    Ok(Turned::Ended(1))
}

/// Answers a request of an operator at a moment.
fn answer<K: Label, R: Wait, W: Sink>(
    alloc: Global,
    server: &Server,
    request: &Request,
    seat: &mut Seat<'_, K, R>,
    moment: Moment,
    writer: &mut W,
) -> Result<Turned, SessionFault>
    ensures looks { OnlyLooks seat.old.pass seat.new.pass }
    ensures same_writer { W.stream writer.new ≡ W.stream writer.old }
{
    let is_head = request.method.as_str() == "HEAD";
    if !is_head && request.method.as_str() != "GET" {
        return put(writer, refusal_text(Refusal::OtherMethod));
    }
    let (path, _) = request.parts();
    let shown = match wanted_by(alloc, path) {
        Ok(wanted) => shown(alloc, seat, server, wanted, moment, is_head),
        Err(Fault::OutOfMemory) => Err(AllocError),
        Err(_) => Ok(None),
    };
    match shown {
        Ok(Some(response)) => put(writer, &response),
        Ok(None) => put(writer, refusal_text(Refusal::NotFound)),
        Err(AllocError) => put(writer, refusal_text(Refusal::OutOfMemory)),
    }
}

/// Takes the one turn of an operator's connection: reads its request, and answers it. The connection ends after it, whatever came. `Read` where the reader failed
/// before the request was whole: then the turn can be taken again. `Write` where the writer failed.
pub(crate) fn take_operator_turn<K: Label, R: Wait, G: Gate, C: Clock, S: Source, W: Sink>(
    site: &Site<'_, K, R, G>,
    facts: ServerFacts,
    room: &mut Room,
    talk: &mut Talk,
    seat: &mut Seat<'_, K, R>,
    clock: &mut C,
    reader: &mut S,
    writer: &mut W,
) -> Result<Turned, SessionFault>
    ensures looks { OnlyLooks seat.old.pass seat.new.pass }
    ensures same_reader { S.stream reader.new ≡ S.stream reader.old }
    ensures same_writer { W.stream writer.new ≡ W.stream writer.old }
{
    let alloc = site.alloc;
    match read_request(alloc, reader, &mut talk.inbox, room) {
        Ok(Some(request)) => {
            let moment = clock.now();
            let responses = site.gate.responses();
            let server = Server { facts, responses };
            answer(alloc, &server, &request, seat, moment, writer)
        }
        Ok(None) => Ok(Turned::Ended(0)),
        Err(Fault::Read) => Err(SessionFault::Read),
        Err(Fault::OutOfMemory) => put(writer, refusal_text(Refusal::OutOfMemory)),
        Err(_) => put(writer, refusal_text(Refusal::BadRequest)),
    }
}
