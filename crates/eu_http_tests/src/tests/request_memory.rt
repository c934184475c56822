//! Want of memory. In a usual run no allocation is refused; `tools/sweep_memory.sh` refuses one after another.
use crate::tests::framing::{FAULTS, THREE, is_request, with_chunks, with_length};
use crate::tests::routes::{ROWS, words};
use eu_base::Fault;
use eu_fixtures::are_so;
use eu_framing::{EMPTY_ROOM, Inbox, Request, read_request};
use eu_routes::Routes;
use std::alloc::{AllocError, Global};

/// Whether it is a request with that method, target and body.
fn is_that(request: Option<Request>, method: &str, target: &str, body: &[u8]) -> bool {
    match request {
        Some(request) => is_request(&request, method, target, body),
        None => false,
    }
}

/// Whether a reader of its own gives the three requests, and then the end.
fn are_read(alloc: Global, text: &[u8]) -> Result<bool, Fault> {
    let mut reader = text;
    let mut inbox = Inbox::new(alloc);
    let mut room = EMPTY_ROOM;
    for (method, target, body) in &THREE {
        let request = read_request(alloc, &mut reader, &mut inbox, &mut room)?;
        if !is_that(request, method, target, body) {
            return Ok(false);
        }
    }
    let end = read_request(alloc, &mut reader, &mut inbox, &mut room)?;
    Ok(end.is_none())
}

/// Whether the three are read, the first with a length.
fn are_read_by_length(alloc: Global) -> Result<bool, Fault> {
    let text = with_length(alloc)?;
    are_read(alloc, text.as_slice())
}

/// The same, the first with a chunk.
fn are_read_by_chunks(alloc: Global) -> Result<bool, Fault> {
    let text = with_chunks(alloc)?;
    are_read(alloc, text.as_slice())
}

#[test]
fn memory_request(rt: HostRuntime) {
    let alloc = rt.alloc();
    assert!(rt; are_so(are_read_by_length(alloc), are_read_by_length(alloc)));
    assert!(rt; are_so(are_read_by_chunks(alloc), are_read_by_chunks(alloc)));
}

/// Whether a text has that fault.
fn is_refused(alloc: Global, text: &[u8], wanted: Fault) -> Result<bool, Fault> {
    let mut reader = text;
    let mut inbox = Inbox::new(alloc);
    let mut room = EMPTY_ROOM;
    match read_request(alloc, &mut reader, &mut inbox, &mut room) {
        Err(Fault::OutOfMemory) => Err(Fault::OutOfMemory),
        Err(fault) => Ok(fault == wanted),
        Ok(request) => {
            drop(request);
            Ok(false)
        }
    }
}

#[test]
fn memory_faults(rt: HostRuntime) {
    let alloc = rt.alloc();
    for (text, fault) in &FAULTS {
        assert!(rt;
            are_so(
                is_refused(alloc, text, *fault),
                is_refused(alloc, text, *fault)
            )
        );
    }
}

/// Whether a request asks for that.
fn asks(alloc: Global, routes: &Routes, row: &(&str, &str, &str, &str)) -> Result<bool, Fault> {
    let (method, page, query, wanted) = row;
    let mut path = String::from_str(alloc, "/eureka/")?;
    path.push_str(page)?;
    let route = routes.find(alloc, method, path.as_str(), query, true)?;
    Ok(words(alloc, route)?.as_str() == *wanted)
}

fn each_asks(alloc: Global, routes: &Routes) -> bool {
    for row in &ROWS {
        if !are_so(asks(alloc, routes, row), asks(alloc, routes, row)) {
            return false;
        }
    }
    true
}

/// Whether each request asks for what stands beside it, by routes that are made at the second try where the first finds no memory.
fn are_found(alloc: Global) -> Result<bool, AllocError> {
    let routes = match Routes::new(alloc) {
        Ok(routes) => routes,
        Err(_) => Routes::new(alloc)?,
    };
    let asks = each_asks(alloc, &routes);
    drop(routes);
    Ok(asks)
}

#[test]
fn memory_routes(rt: HostRuntime) {
    assert!(rt; are_found(rt.alloc()) == Ok(true));
}
