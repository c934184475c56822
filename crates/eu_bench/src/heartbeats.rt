//! Requests that are read and routed.
ghost use Rattle.std.specs.Prelude.{◌≡◌, true, IsOk, string_bytes};
ghost use Rattle.eu_framing.specs.Message.{path_of, query_of};
ghost use Rattle.eu_routes.specs.Table.{route_of};

use eu_base::Fault;
use eu_framing::{EMPTY_ROOM, Inbox, Request, read_request};
use eu_routes::Routes;
use std::alloc::Global;

/// Whether a request has a route. False also where there is no memory for its names.
fn has_route(alloc: Global, routes: &Routes, request: &Request) -> bool
    ensures { result ≡ true → IsOk (route_of (string_bytes request.now.method) (path_of (string_bytes request.now.target)) (query_of (string_bytes request.now.target)) request.now.replicated) }
{
    let (path, query) = request.parts();
    routes
        .find(
            alloc,
            request.method.as_str(),
            path,
            query,
            request.replicated,
        )
        .is_ok()
}

/// How many requests of the bytes have a route. The faults are those of `read_request`.
fn count_once(alloc: Global, routes: &Routes, bytes: &[u8]) -> Result<u64, Fault> {
    let mut reader = bytes;
    let mut inbox = Inbox::new(alloc);
    let mut room = EMPTY_ROOM;
    let mut routed = 0u64;
    'requests: for _request in 0..u64::MAX {
        match read_request(alloc, &mut reader, &mut inbox, &mut room)? {
            None => break,
            Some(request) if has_route(alloc, routes, &request) => routed = routed.saturating_add(
                1,
            ),
            Some(_) => {}
        }
    }
    Ok(routed)
}

/// How many requests of the bytes have a route, where they are read so many times. The faults are those of `read_request`.
pub fn count_routed(alloc: Global, bytes: &[u8], rounds: u32) -> Result<u64, Fault> {
    let routes = Routes::new(alloc)?;
    let mut routed = 0u64;
    for _round in 0..rounds {
        routed = routed.saturating_add(count_once(alloc, &routes, bytes)?);
    }
    Ok(routed)
}
