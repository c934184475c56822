//! Requests and a desk for sessions, and what a session over them tells.
use eu_base::{App, Fault, Moment};
use eu_clock::Clock;
use eu_fixtures::{Brittle, REGISTRATION, clock, done};
use eu_http::Policy;
use eu_json::read_instance;
use eu_model::{Answer, Ask, Command, Desk, Listed, Query, Times, View};
use eu_routes::Routes;
use eu_session::{SessionRoom, serve_session};
use eu_stream::{Sink, Source};
use std::alloc::{AllocError, Global};

/// A registration whose body has a length, with 215 bytes; a look at its lease; and what is never given.
pub const SIZED: &str =
    "POST /eureka/v2/apps/a HTTP/1.1\r\nHost: x\r\nContent-Length: 150\r\n\r\n{\"instance\":{\"instanceId\":\"i1\",\"hostName\":\"h\",\"app\":\"a\",\"ipAddr\":\"10.0.0.1\",\"status\":\"UP\",\"lastDirtyTimestamp\":\"5\",\"dataCenterInfo\":{\"name\":\"MyOwn\"}}}GET /eureka/apps/A/i1 HTTP/1.1\r\nHost: x\r\n\r\nGET /eureka/apps/delta HTTP/1.1\r\nHost: x\r\n\r\n";

/// The same with chunks, with 233 bytes.
pub const CHUNKED: &str =
    "POST /eureka/v2/apps/a HTTP/1.1\r\nHost: x\r\nTransfer-Encoding: chunked\r\n\r\n96\r\n{\"instance\":{\"instanceId\":\"i1\",\"hostName\":\"h\",\"app\":\"a\",\"ipAddr\":\"10.0.0.1\",\"status\":\"UP\",\"lastDirtyTimestamp\":\"5\",\"dataCenterInfo\":{\"name\":\"MyOwn\"}}}\r\n0\r\n\r\nGET /eureka/apps/A/i1 HTTP/1.1\r\nHost: x\r\n\r\nGET /eureka/apps/delta HTTP/1.1\r\nHost: x\r\n\r\n";

/// Has the lease of the client and finds all done, and writes what it is asked.
#[derive(Drop)]
pub struct Noting {
    pub asked: String,
}

impl Desk for Noting {
    ghost asked = { λ _ _ _ _ _. Unit {0} };

    fn ask(&mut self, alloc: Global, ask: Ask, moment: Moment) -> Result<Answer, Fault> {
        let reply = done(&ask);
        let noted = note(&mut self.asked, &ask, moment);
        drop(ask);
        noted?;
        match reply {
            Some(reply) => Ok(Answer::Did(reply)),
            None => Ok(Answer::Saw(View::One(Some(listed(alloc)?)))),
        }
    }
}

fn listed(alloc: Global) -> Result<Listed, Fault> {
    let moment = Moment::new(1000).ok_or(Fault::BadValue)?;
    let app = App::read(alloc, "A")?;
    let times = Times {
        registered: 1000,
        updated: 1000,
        up: 1000,
    };
    let instance = read_instance(alloc, REGISTRATION, &app, moment)?;
    Ok(Listed { instance, times })
}

/// Writes an ask with its moment: a registration, a look at a lease, or another.
fn note(out: &mut String, ask: &Ask, moment: Moment) -> Result<(), AllocError> {
    let ms = moment.ms();
    match ask {
        Ask::Do(Command::Register { instance, .. }) => {
            let last_dirty = instance.last_dirty().value();
            write!(out, "register {last_dirty} at {ms};")
        }
        Ask::See(Query::One(key)) => {
            out.push_str("look ")?;
            out.push_str(key.id.as_str())?;
            write!(out, " at {ms};")
        }
        _ => write!(out, "other at {ms};"),
    }
}

/// How a session ended, at which requests or by which fault, and the moment that the clock tells then; and what was asked and written.
#[derive(Drop)]
pub struct Came {
    pub end: Result<u32, u8>,
    pub next: u64,
    pub desk: Noting,
    pub writer: Brittle,
}

/// Serves a session at the moments 1000, 1001, 1002 and 1003.
fn serve<R: Source, W: Sink>(
    alloc: Global,
    desk: &mut Noting,
    reader: &mut R,
    writer: &mut W,
) -> Result<(Result<u32, u8>, u64), Fault> {
    let mut room = SessionRoom::new(alloc);
    let mut clock = clock(alloc, &[1000, 1001, 1002, 1003])?;
    let routes = Routes::new(alloc)?;
    let policy = Policy::open();
    let served = serve_session(
        alloc, &routes, &policy, &mut room, desk, &mut clock, reader, writer,
    );
    let next = clock.now().ms();
    drop((clock, routes));
    match served {
        Ok(count) => Ok((Ok(count), next)),
        Err(fault) => Ok((Err(fault.fault().number()), next)),
    }
}

/// What comes of a session of a reader that answers to a writer.
pub fn came_of<R: Source>(
    alloc: Global,
    reader: &mut R,
    mut writer: Brittle,
) -> Result<Came, Fault> {
    let mut desk = Noting {
        asked: String::new(alloc),
    };
    let (end, next) = serve(alloc, &mut desk, reader, &mut writer)?;
    Ok(Came {
        end,
        next,
        desk,
        writer,
    })
}

/// What a session of a reader tells: its requests or its fault, the moment that the clock tells next, what was written, and what was asked.
pub fn told<R: Source>(alloc: Global, reader: &mut R) -> Result<String, Fault> {
    let came = came_of(alloc, reader, Brittle::steady(alloc))?;
    let (word, number) = match came.end {
        Ok(count) => ("requests", count),
        Err(fault) => ("fault", u32::from(fault)),
    };
    let (next, written, asked) = (came.next, came.writer.text(), came.desk.asked.as_str());
    let told = format!(in alloc; "{word} {number} next {next} {written}{asked}");
    drop(came);
    Ok(told?)
}
