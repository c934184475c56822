//! Want of memory in a session over a pass. In a usual run no allocation is refused; `tools/sweep_memory.sh` refuses one after another.
ghost use Rattle.std.specs.Prelude.{◌≡◌};
ghost use Rattle.eu_shared.specs.Shares.{HasNames, HasParts};

use crate::tests::shared::{USUAL, open as open_shared};
use eu_base::Fault;
use eu_book::Book;
use eu_clock::ListClock;
use eu_fixtures::{pause_or_go_on, settings};
use eu_hash::HashKey;
use eu_http::Policy;
use eu_model::Desk;
use eu_routes::Routes;
use eu_session::{SessionRoom, serve_session};
use eu_shared::{Blanks, Label, PARTS, Seat};
use eu_stream::Writing;
use std::alloc::Global;
use std::marker::Brand;
use std::sync::Wait;

/// A registration; renewals, of which a peer tells an older stamp; a status that is set and taken back; what is held, in three ways; and a cancel.
const REQUESTS: [&str; 9] = [
    "POST /eureka/apps/a HTTP/1.1\r\nHost: x\r\nContent-Length: 150\r\n\r\n{\"instance\":{\"instanceId\":\"i1\",\"hostName\":\"h\",\"app\":\"a\",\"ipAddr\":\"10.0.0.1\",\"status\":\"UP\",\"lastDirtyTimestamp\":\"5\",\"dataCenterInfo\":{\"name\":\"MyOwn\"}}}",
    "PUT /eureka/apps/A/i1 HTTP/1.1\r\nHost: x\r\n\r\n",
    "PUT /eureka/apps/A/i1?lastDirtyTimestamp=4 HTTP/1.1\r\nHost: x\r\nx-netflix-discovery-replication: true\r\n\r\n",
    "PUT /eureka/apps/A/i1/status?value=OUT_OF_SERVICE HTTP/1.1\r\nHost: x\r\n\r\n",
    "DELETE /eureka/apps/A/i1/status?value=UP HTTP/1.1\r\nHost: x\r\n\r\n",
    "GET /eureka/apps/A HTTP/1.1\r\nHost: x\r\n\r\n",
    "GET /eureka/apps HTTP/1.1\r\nHost: x\r\n\r\n",
    "GET /eureka/status HTTP/1.1\r\nHost: x\r\n\r\n",
    "DELETE /eureka/apps/A/i1 HTTP/1.1\r\nHost: x\r\n\r\n",
];

/// What a session of a request writes. With `is_refused`, refusals that had paused go on while it lasts, and then pause again.
fn say<D: Desk>(
    alloc: Global,
    routes: &Routes,
    desk: &mut D,
    request: &str,
    is_refused: bool,
) -> Result<Vec<u8>, Fault> {
    let mut room = SessionRoom::new(alloc);
    let mut clock = ListClock::new(Vec::new(alloc));
    let mut out = Vec::with_capacity(alloc, 4096)?;
    let mut reader = request.as_bytes();
    let mut writer = Writing::new(&mut out);
    if is_refused {
        pause_or_go_on(alloc);
    }
    let ended = serve_session(
        alloc,
        routes,
        &Policy::open(),
        &mut room,
        desk,
        &mut clock,
        &mut reader,
        &mut writer,
    );
    if is_refused {
        pause_or_go_on(alloc);
    }
    drop(clock);
    if ended.is_err() && !is_wanting(&out) {
        return Err(Fault::Mismatch);
    }
    Ok(out)
}

/// Whether a session found no memory: then it tells so, or nothing.
fn is_wanting(out: &[u8]) -> bool {
    out.is_empty() || out.starts_with(b"HTTP/1.1 503 Service Unavailable\r\n")
}

/// Whether a pass made as many steps as a book.
fn is_even<K: Label, R: Wait>(seat: &Seat<'_, K, R>, book: &Book) -> bool {
    seat.pass.log().len() as u64 == book.totals().steps
}

/// Whether a pass answers a request as a book does, at the second try where the first found no memory; and took the step that the book took, also
/// where there was no memory to tell so.
fn is_answered<K: Label, R: Wait>(
    alloc: Global,
    routes: &Routes,
    seat: &mut Seat<'_, K, R>,
    book: &mut Book,
    request: &str,
) -> Result<bool, Fault> {
    let told = say(alloc, routes, book, request, false)?;
    let said = say(alloc, routes, seat, request, true)?;
    if said.is_empty() {
        return Ok(is_even(seat, book));
    }
    if !is_wanting(&said) {
        return Ok(said.as_slice() == told.as_slice() && is_even(seat, book));
    }
    drop(said);
    let again = say(alloc, routes, seat, request, false)?;
    Ok(again.as_slice() == told.as_slice() && is_even(seat, book))
}

/// Whether each request is answered so.
fn are_answered<K: Label, R: Wait>(
    alloc: Global,
    seat: &mut Seat<'_, K, R>,
) -> Result<bool, Fault> {
    let routes = Routes::new(alloc)?;
    let mut book = Book::open(alloc, settings()?, 0, 0, HashKey::new(0, 0))?;
    for request in REQUESTS {
        if !is_answered(alloc, &routes, seat, &mut book, request)? {
            return Ok(false);
        }
    }
    Ok(true)
}

fn serve<K: Label, R: Wait>(rt: &R, alloc: Global, blanks: Blanks) -> Result<bool, Fault>
    requires names { HasNames blanks K.steps K.counted K.added K.removed }
    requires parts { HasParts blanks K.parts × (K.parts ≡ PARTS) }
{
    pause_or_go_on(alloc);
    let shared = open_shared::<K>(alloc, USUAL, blanks)?;
    let pass = shared.pass(rt, alloc)?;
    let mut seat = Seat {
        pass,
        shared: &shared,
        rt,
    };
    are_answered(alloc, &mut seat)
}

fn is_served<R: Wait>(rt: &R, alloc: Global) -> Result<bool, Fault> {
    serve::<Brand, R>(rt, alloc, Blanks::new())
}

#[test]
fn memory_seat(rt: HostRuntime) {
    assert!(rt; is_served(&rt, rt.alloc()) == Ok(true));
}
