//! Sessions over a pass.
ghost use Rattle.std.specs.Prelude.{◌≡◌};
ghost use Rattle.eu_shared.specs.Shares.{HasNames, HasParts};

use crate::tests::closed::first_wrong_end;
use crate::tests::shared::{USUAL, open};
use eu_base::Fault;
use eu_clock::ListClock;
use eu_http::Policy;
use eu_routes::Routes;
use eu_session::{SessionRoom, serve_session};
use eu_shared::{Blanks, Label, PARTS, Seat};
use eu_stream::Writing;
use std::alloc::Global;
use std::marker::Brand;
use std::sync::Wait;

/// A registration of i1; renewals without a stamp, with a newer one, and with an older one by a peer; a status that is set and taken back; the
/// listing of the application; and cancels of the lease and of one that isn't there.
const REQUESTS: &str =
    "POST /eureka/apps/a HTTP/1.1\r\nHost: x\r\nContent-Length: 150\r\n\r\n{\"instance\":{\"instanceId\":\"i1\",\"hostName\":\"h\",\"app\":\"a\",\"ipAddr\":\"10.0.0.1\",\"status\":\"UP\",\"lastDirtyTimestamp\":\"5\",\"dataCenterInfo\":{\"name\":\"MyOwn\"}}}PUT /eureka/apps/A/i1 HTTP/1.1\r\nHost: x\r\n\r\nPUT /eureka/apps/A/i1?lastDirtyTimestamp=6 HTTP/1.1\r\nHost: x\r\n\r\nPUT /eureka/apps/A/i1?lastDirtyTimestamp=4 HTTP/1.1\r\nHost: x\r\nx-netflix-discovery-replication: true\r\n\r\nPUT /eureka/apps/A/i1/status?value=OUT_OF_SERVICE HTTP/1.1\r\nHost: x\r\n\r\nDELETE /eureka/apps/A/i1/status?value=UP HTTP/1.1\r\nHost: x\r\n\r\nGET /eureka/apps/A HTTP/1.1\r\nHost: x\r\n\r\nDELETE /eureka/apps/A/i1 HTTP/1.1\r\nHost: x\r\n\r\nDELETE /eureka/apps/B/i1 HTTP/1.1\r\nHost: x\r\nConnection: close\r\n\r\n";

const RESPONSES: &str =
    "HTTP/1.1 204 No Content\r\n\r\nHTTP/1.1 200 OK\r\nContent-Length: 0\r\n\r\nHTTP/1.1 404 Not Found\r\nContent-Length: 0\r\n\r\nHTTP/1.1 409 Conflict\r\nContent-Type: application/json\r\nContent-Length: 240\r\n\r\n{\"instance\":{\"app\":\"A\",\"dataCenterInfo\":{\"name\":\"MyOwn\"},\"hostName\":\"h\",\"instanceId\":\"i1\",\"ipAddr\":\"10.0.0.1\",\"lastDirtyTimestamp\":\"5\",\"leaseInfo\":{\"durationInSecs\":90,\"renewalIntervalInSecs\":30},\"overriddenStatus\":\"UNKNOWN\",\"status\":\"UP\"}}HTTP/1.1 200 OK\r\nContent-Length: 0\r\n\r\nHTTP/1.1 200 OK\r\nContent-Length: 0\r\n\r\nHTTP/1.1 200 OK\r\nContent-Type: application/json\r\nContent-Length: 369\r\n\r\n{\"application\":{\"instance\":[{\"app\":\"A\",\"dataCenterInfo\":{\"name\":\"MyOwn\"},\"hostName\":\"h\",\"instanceId\":\"i1\",\"ipAddr\":\"10.0.0.1\",\"lastDirtyTimestamp\":\"5\",\"leaseInfo\":{\"durationInSecs\":90,\"evictionTimestamp\":0,\"lastRenewalTimestamp\":90000,\"registrationTimestamp\":0,\"renewalIntervalInSecs\":30,\"serviceUpTimestamp\":0},\"overriddenStatus\":\"UNKNOWN\",\"status\":\"UP\"}],\"name\":\"A\"}}HTTP/1.1 200 OK\r\nContent-Length: 0\r\n\r\nHTTP/1.1 404 Not Found\r\nContent-Length: 0\r\nConnection: close\r\n\r\n";

/// Whether a session over a pass writes what it is to.
fn serve<K: Label, R: Wait>(alloc: Global, seat: &mut Seat<'_, K, R>) -> Result<bool, Fault> {
    let routes = Routes::new(alloc)?;
    let mut room = SessionRoom::new(alloc);
    let mut clock = ListClock::new(Vec::new(alloc));
    let mut reader = REQUESTS.as_bytes();
    let mut out = Vec::new(alloc);
    let mut writer = Writing::new(&mut out);
    let served = serve_session(
        alloc,
        &routes,
        &Policy::open(),
        &mut room,
        seat,
        &mut clock,
        &mut reader,
        &mut writer,
    );
    drop((routes, clock));
    Ok(served.is_ok() && out.as_slice() == RESPONSES.as_bytes())
}

/// Whether a session over the only pass of a book writes what it is to, and the first wrong line of the book that is closed then.
fn serve_alone<K: Label, R: Wait>(
    rt: &R,
    alloc: Global,
    blanks: Blanks,
) -> Result<(bool, Option<usize>), Fault>
    requires names { HasNames blanks K.steps K.counted K.added K.removed }
    requires parts { HasParts blanks K.parts × (K.parts ≡ PARTS) }
{
    let shared = open::<K>(alloc, USUAL, blanks)?;
    let pass = shared.pass(rt, alloc)?;
    let mut seat = Seat {
        pass,
        shared: &shared,
        rt,
    };
    let served = serve(alloc, &mut seat);
    let Seat {
        pass,
        shared: _,
        rt: _,
    } = seat;
    let mut passes = Vec::new(alloc);
    passes.push(pass)?;
    Ok((served?, first_wrong_end(alloc, shared, passes, SETTLED)))
}

fn served<R: Wait>(rt: &R, alloc: Global) -> Result<(bool, Option<usize>), Fault> {
    serve_alone::<Brand, R>(rt, alloc, Blanks::new())
}

const SETTLED: &str = "account = 0 8 Tally { steps: 8, counted: 3, added: 1, removed: 1 } 1 0:8 0:8
settle = Ok(())";

#[test]
fn a_session_asks_through_a_pass(rt: HostRuntime) {
    assert_eq!(rt; served(&rt, rt.alloc()), Ok((true, None)));
}
