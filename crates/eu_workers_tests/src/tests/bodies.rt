//! Bodies that come after their heads, and listings: a worker of a loop leaves the long ones to others.
ghost use Rattle.std.specs.Prelude.{◌≡◌, ◌≤◌, length};
ghost use Rattle.eu_shared.specs.Shares.{HasNames, HasParts};

use crate::tests::servers::clock;
use crate::tests::visits::{Sides, visit};
use eu_base::Fault;
use eu_fixtures::settings;
use eu_hash::HashKey;
use eu_http::Policy;
use eu_routes::Routes;
use eu_session::Talk;
use eu_shared::{Blanks, Label, PARTS, Shared};
use eu_workers::{Gate, Go, Incoming, Left, Point, Site, Visit, run_sessions};
use std::alloc::Global;
use std::io::{self, ErrorKind, Read};
use std::marker::Brand;
use std::sync::Wait;
use std::test::Fail;

/// A gate that stops nobody.
#[derive(Drop)]
struct Open;

impl Gate for Open {
    fn pass(&self, _who: u32, _point: Point) -> Go {
        Go::On
    }
}

/// What a peer sends: a head, the letter `a` so many times, and a tail.
#[derive(Drop, Clone, Copy)]
struct Parts<'t> {
    head: &'t [u8],
    body: usize,
    tail: &'t [u8],
}

/// Takes as many bytes of the front as there is room for.
fn take(from: &mut &[u8], buffer: &mut [u8]) -> usize
    ensures { result ≤ length buffer.new }
{
    let count = from.len().min(buffer.len());
    buffer[..count].copy_from_slice(&from[..count]);
    *from = &from[count..];
    count
}

/// What is read of it, each part for itself. Then it waits.
impl<'t> Read for Parts<'t> {
    fn read(&mut self, buffer: &mut [u8]) -> io::Result<usize> {
        if !self.head.is_empty() {
            return Ok(take(&mut self.head, buffer));
        }
        let count = self.body.min(buffer.len());
        if count > 0 {
            buffer[..count].fill(b'a');
            self.body = self.body.saturating_sub(count);
            return Ok(count);
        }
        if self.tail.is_empty() {
            return Err(io::Error::from(ErrorKind::WouldBlock));
        }
        Ok(take(&mut self.tail, buffer))
    }
}

/// A connection that is visited again as long as it is left to others, or goes on: by those then.
#[derive(Drop)]
struct Line<'t> {
    connection: Option<Visit<Sides<Parts<'t>, Vec<u8>>, Talk>>,
    left_to_others: u32,
    answer: &'static [u8],
    is_answered: bool,
}

impl<'t> Incoming for Line<'t> {
    type Socket = Sides<Parts<'t>, Vec<u8>>;

    fn next(&mut self) -> Option<Visit<Sides<Parts<'t>, Vec<u8>>, Talk>> {
        self.connection.take()
    }

    fn take_back(&mut self, visit: Visit<Sides<Parts<'t>, Vec<u8>>, Talk>, left: Left) {
        let mut visit = visit;
        match left {
            Left::Long => {
                visit.leaves_long = false;
                self.left_to_others = self.left_to_others.saturating_add(1);
                self.connection = Some(visit);
            }
            Left::GoesOn | Left::SendsOn(_) => self.connection = Some(visit),
            Left::Waits(_, _) | Left::Gone => {
                let sent = visit.guest.socket.writer.as_slice();
                self.is_answered = sent.starts_with(self.answer);
                drop(visit);
            }
        }
    }
}

/// What is answered where a body is no JSON.
const REFUSED: &[u8] = b"HTTP/1.1 400 Bad Request\r\n";

/// How often a connection is left to others that sends this. None where its answer doesn't begin so.
fn times_left<K: Label, R: Wait>(
    site: &Site<'_, K, R, Open>,
    sent: Parts<'_>,
    answer: &'static [u8],
) -> Result<Option<u32>, Fault> {
    let sides = Sides {
        reader: sent,
        writer: Vec::new(site.alloc),
    };
    let mut visit = visit(site.alloc, sides, 8, true)?;
    visit.leaves_long = true;
    let mut line = Line {
        connection: Some(visit),
        left_to_others: 0,
        answer,
        is_answered: false,
    };
    let pass = site.shared.pass(site.rt, site.alloc)?;
    let mut clock = clock(site.alloc);
    let (pass, _) = run_sessions(site, 1, pass, &mut line, &mut clock, 9);
    drop(pass);
    drop(clock);
    let left = line.is_answered.then_some(line.left_to_others);
    drop(line);
    Ok(left)
}

/// A body that fills a read is read to its end where that is all of it. One that has a byte more is left to others, once.
fn leaves<K: Label, R: Wait>(site: &Site<'_, K, R, Open>) -> Result<[Option<u32>; 3], Fault> {
    let full = Parts {
        head: b"POST /eureka/apps/A HTTP/1.1\r\nHost: x\r\nContent-Length: 4096\r\n\r\n",
        body: 4_096,
        tail: b"",
    };
    let longer = Parts {
        head: b"POST /eureka/apps/A HTTP/1.1\r\nHost: x\r\nContent-Length: 4097\r\n\r\n",
        body: 4_097,
        tail: b"",
    };
    let long = Parts {
        head: b"POST /eureka/apps/A HTTP/1.1\r\nHost: x\r\nContent-Length: 40960\r\n\r\n",
        body: 40_960,
        tail: b"",
    };
    Ok([
        times_left(site, full, REFUSED)?,
        times_left(site, longer, REFUSED)?,
        times_left(site, long, REFUSED)?,
    ])
}

/// What a registration is answered, and a listing.
const REGISTERED: &[u8] = b"HTTP/1.1 204 No Content\r\n";

const LISTED: &[u8] = b"HTTP/1.1 200 OK\r\nContent-Type: application/json\r\n";

const MISSING: &[u8] = b"HTTP/1.1 404 Not Found\r\n";

/// What stands around the id of a registration at application A.
const BEFORE_ID: &str =
    "POST /eureka/apps/A HTTP/1.1\r\nHost: x\r\nContent-Length: 149\r\n\r\n{\"instance\":{\"instanceId\":\"";

const BEHIND_ID: &str =
    "\",\"hostName\":\"h\",\"app\":\"A\",\"ipAddr\":\"10.0.0.1\",\"status\":\"UP\",\"lastDirtyTimestamp\":\"5\",\"dataCenterInfo\":{\"name\":\"MyOwn\"}}}";

/// Registrations of which 7,169 bytes are kept, at application C, and 7,168, at application D: what else than the registry's own members was given, as compact JSON, a comma before each member and no bracket around them.
const LONG_ONES: [Parts<'static>; 2] = [
    Parts {
        head: b"POST /eureka/apps/C HTTP/1.1\r\nHost: x\r\nContent-Length: 7249\r\n\r\n{\"instance\":{\"instanceId\":\"z\",\"hostName\":\"h\",\"app\":\"C\",\"ipAddr\":\"10.0.0.1\",\"status\":\"UP\",\"lastDirtyTimestamp\":\"5\",\"dataCenterInfo\":{\"name\":\"MyOwn\"},\"x\":\"",
        body: 7_093,
        tail: b"\"}}",
    },
    Parts {
        head: b"POST /eureka/apps/D HTTP/1.1\r\nHost: x\r\nContent-Length: 7248\r\n\r\n{\"instance\":{\"instanceId\":\"z\",\"hostName\":\"h\",\"app\":\"D\",\"ipAddr\":\"10.0.0.1\",\"status\":\"UP\",\"lastDirtyTimestamp\":\"5\",\"dataCenterInfo\":{\"name\":\"MyOwn\"},\"x\":\"",
        body: 7_092,
        tail: b"\"}}",
    },
];

/// Whether a client registers that many more instances of application A, which have an id of one letter.
fn register<K: Label, R: Wait>(site: &Site<'_, K, R, Open>, ids: &str) -> Result<bool, Fault> {
    let mut rest = ids;
    for _id in 0..ids.len() {
        let Some((id, others)) = rest.split_at_checked(1) else {
            return Ok(false);
        };
        let mut text = String::from_str(site.alloc, BEFORE_ID)?;
        text.push_str(id)?;
        text.push_str(BEHIND_ID)?;
        let answer = times_left(site, whole(text.as_bytes()), REGISTERED);
        drop(text);
        if answer? != Some(0) {
            return Ok(false);
        }
        rest = others;
    }
    Ok(true)
}

/// A request for a listing of application A, and of all.
const OF_A: &[u8] = b"GET /eureka/apps/a?x HTTP/1.1\r\nHost: x\r\n\r\n";

const OF_ALL: &[u8] = b"GET /eureka/v2/apps HTTP/1.1\r\nHost: x\r\n\r\n";

/// A request that has no more than this.
fn whole(request: &[u8]) -> Parts<'_> {
    Parts {
        head: request,
        body: 0,
        tail: b"",
    }
}

/// A request, in the two pieces that are read, what its answer begins by, and how often it is left to others.
type Case = (&'static str, &'static str, &'static [u8], u32);

/// Where nine instances of A are held, one of C that is long, and one of D that is the longest of those that are short.
const CASES: [Case; 9] = [
    (
        "PUT /eureka/apps/A/a HTTP/1.1\r\n",
        "Host: x\r\n\r\n",
        b"HTTP/1.1 200 OK\r\n",
        0,
    ),
    // An application whose name is encoded, one whose name isn't, one whose only instance is long, and one whose only instance is short.
    (
        "GET /eureka/apps/%62/ HTTP/1.1\r\n",
        "Host: x\r\n\r\n",
        MISSING,
        1,
    ),
    (
        "GET /eureka/apps/b/ HTTP/1.1\r\n",
        "Host: x\r\n\r\n",
        MISSING,
        0,
    ),
    (
        "GET /eureka/apps/c HTTP/1.1\r\n",
        "Host: x\r\n\r\n",
        LISTED,
        1,
    ),
    (
        "GET /eureka/apps/d HTTP/1.1\r\n",
        "Host: x\r\n\r\n",
        LISTED,
        0,
    ),
    // All, behind an empty line, by a whole address, and where no more than a front of the path is read at first.
    (
        "\r\nGET /eureka/apps HTTP/1.1\r\n",
        "Host: x\r\n\r\n",
        LISTED,
        1,
    ),
    (
        "GET http://x/eureka/apps HTTP/1.1\r\n",
        "Host: x\r\n\r\n",
        LISTED,
        1,
    ),
    (
        "GET /eureka/a",
        "pps HTTP/1.1\r\nHost: x\r\n\r\n",
        LISTED,
        1,
    ),
    // A batch that is no JSON.
    (
        "POST /eureka/v2/peerreplication/batch HTTP/1.1\r\n",
        "Host: x\r\nContent-Length: 1\r\n\r\na",
        REFUSED,
        1,
    ),
];

/// The number of the first case that goes otherwise, once an instance of C and one of D are registered.
fn first_otherwise<K: Label, R: Wait>(site: &Site<'_, K, R, Open>) -> Result<Option<usize>, Fault> {
    let [long, longest_short] = LONG_ONES;
    if times_left(site, long, REGISTERED)? != Some(1)
        || times_left(site, longest_short, REGISTERED)? != Some(1)
    {
        return Err(Fault::BadValue);
    }
    for (number, (head, tail, answer, times)) in CASES.iter().enumerate() {
        let sent = Parts {
            head: head.as_bytes(),
            body: 0,
            tail: tail.as_bytes(),
        };
        if times_left(site, sent, answer)? != Some(*times) {
            return Ok(Some(number));
        }
    }
    Ok(None)
}

/// The same of listings of the application and of all: where eight short instances are held, and where there are nine.
fn leaves_listings<K: Label, R: Wait>(
    site: &Site<'_, K, R, Open>,
) -> Result<[Option<u32>; 4], Fault> {
    if !register(site, "abcdefgh")? {
        return Err(Fault::BadValue);
    }
    let few = [
        times_left(site, whole(OF_A), LISTED)?,
        times_left(site, whole(OF_ALL), LISTED)?,
    ];
    if !register(site, "i")? {
        return Err(Fault::BadValue);
    }
    let [of_a, of_all] = few;
    Ok([
        of_a,
        of_all,
        times_left(site, whole(OF_A), LISTED)?,
        times_left(site, whole(OF_ALL), LISTED)?,
    ])
}

/// What is left to others: of bodies, and of listings.
#[derive(Clone, Copy, Debug, PartialEq, Eq)]
struct LeftToOthers {
    bodies: [Option<u32>; 3],
    listings: [Option<u32>; 4],
    first_otherwise: Option<usize>,
}

fn all_left<K: Label, R: Wait>(site: &Site<'_, K, R, Open>) -> Result<LeftToOthers, Fault> {
    Ok(LeftToOthers {
        bodies: leaves(site)?,
        listings: leaves_listings(site)?,
        first_otherwise: first_otherwise(site)?,
    })
}

/// The same at a book that is shared.
fn leaves_at<K: Label, R: Wait>(
    rt: &R,
    alloc: Global,
    shared: &Shared<K>,
) -> Result<LeftToOthers, Fault> {
    let routes = Routes::new(alloc)?;
    let policy = Policy::open();
    let site = Site {
        rt,
        alloc,
        shared,
        routes: &routes,
        policy: &policy,
        warm_policy: &policy,
        gate: &Open,
    };
    let left = all_left(&site);
    drop(routes);
    left
}

fn left<K: Label, R: Wait>(rt: &R, alloc: Global, blanks: Blanks) -> Result<LeftToOthers, Fault>
    requires names { HasNames blanks K.steps K.counted K.added K.removed }
    requires parts { HasParts blanks K.parts × (K.parts ≡ PARTS) }
{
    let shared: Shared<K> = Shared::open(alloc, settings()?, 0, 0, HashKey::new(0, 0), blanks)?;
    let left = leaves_at(rt, alloc, &shared);
    drop(shared);
    left
}

fn left_to_others<R: Wait>(rt: &R, alloc: Global) -> Result<LeftToOthers, Fault> {
    left::<Brand, R>(rt, alloc, Blanks::new())
}

#[test]
fn long_bodies_and_listings_are_left_to_others(rt: HostRuntime) -> Result<(), Fail> {
    let left = left_to_others(&rt, rt.alloc())?;
    assert!(rt; left.bodies == [Some(0), Some(1), Some(1)]);
    assert!(rt; left.listings == [Some(0), Some(0), Some(1), Some(1)]);
    assert_eq!(rt; left.first_otherwise, None);
    Ok(())
}
