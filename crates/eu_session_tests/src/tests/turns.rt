//! Sessions that are taken turn by turn, and sessions that follow one another in the same room. Nobody has registered, so a renewal is answered 404.
use crate::tests::books::{USUAL, opened};
use eu_base::Fault;
use eu_book::Book;
use eu_clock::ListClock;
use eu_fixtures::{Parts, joined};
use eu_framing::{EMPTY_ROOM, Room};
use eu_http::Policy;
use eu_routes::Routes;
use eu_session::{SessionFault, SessionRoom, Talk, Turned, serve_session, take_turn};
use eu_stream::{Source, Writing};
use std::alloc::Global;
use std::test::Fail;

/// A renewal.
const RENEWAL: &str = "PUT /eureka/apps/A/i1 HTTP/1.1\r\nHost: x\r\n\r\n";

/// The same in two pieces.
const BEGUN: &str = "PUT /eureka/apps/A/i1 HTTP/1.1";

const REST: &str = "\r\nHost: x\r\n\r\n";

/// What it is answered.
const ANSWER: &str = "HTTP/1.1 404 Not Found\r\nContent-Length: 0\r\n\r\n";

/// A renewal with which a session ends.
const LAST_RENEWAL: &str = "PUT /eureka/apps/A/i1 HTTP/1.1\r\nHost: x\r\nConnection: close\r\n\r\n";

/// What it is answered.
const LAST_ANSWER: &str =
    "HTTP/1.1 404 Not Found\r\nContent-Length: 0\r\nConnection: close\r\n\r\n";

/// A session with an empty registry, and what was written in it.
#[derive(Drop)]
struct Talking {
    alloc: Global,
    routes: Routes,
    policy: Policy,
    book: Book,
    talk: Talk,
    room: Room,
    out: Vec<u8>,
}

impl Talking {
    fn new(alloc: Global) -> Result<Talking, Fault> {
        Ok(Talking {
            alloc,
            routes: Routes::new(alloc)?,
            policy: Policy::open(),
            book: opened(alloc, USUAL)?,
            talk: Talk::new(alloc),
            room: EMPTY_ROOM,
            out: Vec::new(alloc),
        })
    }

    fn turn<R: Source>(&mut self, reader: &mut R) -> Result<Turned, SessionFault> {
        let mut clock = ListClock::new(Vec::new(self.alloc));
        let turned = take_turn(
            self.alloc,
            &self.routes,
            &self.policy,
            &mut self.room,
            &mut self.talk,
            &mut self.book,
            &mut clock,
            reader,
            &mut Writing::new(&mut self.out),
        );
        drop(clock);
        turned
    }
}

#[test]
fn turns_follow_one_another(rt: HostRuntime) -> Result<(), Fail> {
    let alloc = rt.alloc();
    let text = joined(alloc, &[RENEWAL, LAST_RENEWAL, "rest"])?;
    let mut reader = text.as_bytes();
    let mut talking = Talking::new(alloc)?;
    assert!(rt; talking.turn(&mut reader) == Ok(Turned::GoesOn));
    assert!(rt; talking.out.as_slice() == ANSWER.as_bytes());
    assert!(rt; talking.turn(&mut reader) == Ok(Turned::Ended(2)));
    let both = joined(alloc, &[ANSWER, LAST_ANSWER])?;
    assert!(rt; talking.out.as_slice() == both.as_bytes());
    assert!(rt; talking.talk.inbox.as_slice() == b"rest".as_slice());
    Ok(())
}

#[test]
fn a_turn_that_waits_is_taken_again(rt: HostRuntime) -> Result<(), Fail> {
    let mut talking = Talking::new(rt.alloc())?;
    let (begun, rest) = (BEGUN.as_bytes(), REST.as_bytes());
    let mut reader = Parts::failing(begun, b"");
    assert!(rt; talking.turn(&mut reader) == Err(SessionFault::Read));
    assert!(rt; talking.out.is_empty() && talking.talk.inbox.as_slice() == begun);
    let mut reader = Parts::failing(rest, b"");
    assert!(rt; talking.turn(&mut reader) == Ok(Turned::GoesOn));
    assert!(rt; talking.talk.served == 1 && talking.talk.inbox.as_slice().is_empty());
    assert!(rt; talking.out.as_slice() == ANSWER.as_bytes());
    Ok(())
}

/// Serves a session of these texts in a room, and tells how many requests it had and what was written.
fn serve(alloc: Global, room: &mut SessionRoom, texts: &[&str]) -> Result<(u32, Vec<u8>), Fault> {
    let mut book = opened(alloc, USUAL)?;
    let routes = Routes::new(alloc)?;
    let text = joined(alloc, texts)?;
    let mut reader = text.as_bytes();
    let mut clock = ListClock::new(Vec::new(alloc));
    let mut out = Vec::new(alloc);
    let mut writer = Writing::new(&mut out);
    let served = serve_session(
        alloc,
        &routes,
        &Policy::open(),
        room,
        &mut book,
        &mut clock,
        &mut reader,
        &mut writer,
    );
    drop((text, book, routes, clock));
    match served {
        Ok(count) => Ok((count, out)),
        Err(fault) => Err(fault.fault()),
    }
}

#[test]
fn a_session_begins_anew_in_the_same_room(rt: HostRuntime) -> Result<(), Fail> {
    let alloc = rt.alloc();
    let mut room = SessionRoom::new(alloc);
    let (count, out) = serve(alloc, &mut room, &[LAST_RENEWAL, "rest"])?;
    assert!(rt; count == 1 && out.as_slice() == LAST_ANSWER.as_bytes());
    let (count, out) = serve(alloc, &mut room, &[RENEWAL])?;
    assert!(rt; count == 1 && out.as_slice() == ANSWER.as_bytes());
    Ok(())
}
