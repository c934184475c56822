//! Sessions told as text.
ghost use Rattle.std.specs.Prelude.{None};

use eu_base::Fault;
use eu_clock::{Clock, ListClock};
use eu_fixtures::{clock, written_out};
use eu_http::Policy;
use eu_model::Desk;
use eu_routes::Routes;
use eu_session::{SessionFault, SessionRoom, serve_session};
use eu_stream::{Sink, Source, WriteFault};
use std::alloc::Global;

/// Holds what is written, and fails where it is full.
#[derive(Drop)]
struct Narrow {
    held: Vec<u8>,
    most: usize,
    has_failed: bool,
}

impl Sink for Narrow {
    ghost stream = { λ _. 0 };

    ghost contents = { λ _. None };

    ghost failed = { λ s. s.has_failed };

    fn write_some(&mut self, bytes: &[u8]) -> Result<usize, WriteFault> {
        let count = bytes.len().min(self.most.saturating_sub(self.held.len()));
        let is_taken = self.held.extend_from_slice(&bytes[..count]).is_ok();
        if !is_taken || (count == 0 && !bytes.is_empty()) {
            self.has_failed = true;
            return Err(WriteFault);
        }
        Ok(count)
    }

    fn flush(&mut self) -> Result<(), WriteFault> {
        if self.held.len() >= self.most {
            self.has_failed = true;
            return Err(WriteFault);
        }
        Ok(())
    }
}

fn serve<D: Desk, R: Source>(
    alloc: Global,
    policy: &Policy,
    desk: &mut D,
    clock: &mut ListClock,
    reader: &mut R,
    writer: &mut Narrow,
) -> Result<u32, SessionFault> {
    match Routes::new(alloc) {
        Ok(routes) => {
            let mut room = SessionRoom::new(alloc);
            let served = serve_session(
                alloc, &routes, policy, &mut room, desk, clock, reader, writer,
            );
            drop(routes);
            served
        }
        Err(_error) => Err(SessionFault::OutOfMemory),
    }
}

/// Serves a session by a policy, at the moments 1000, 1001 and 1002, to a writer that holds so much. Tells how many requests it had, or the number of its
/// fault; the moment that the clock tells next; and what was written.
pub fn told_by<D: Desk, R: Source>(
    alloc: Global,
    policy: &Policy,
    desk: &mut D,
    reader: &mut R,
    most: usize,
) -> Result<String, Fault> {
    let mut clock = clock(alloc, &[1000, 1001, 1002])?;
    let mut writer = Narrow {
        held: Vec::new(alloc),
        most,
        has_failed: false,
    };
    let (word, number) = match serve(alloc, policy, desk, &mut clock, reader, &mut writer) {
        Ok(count) => ("requests", count),
        Err(fault) => ("fault", u32::from(fault.fault().number())),
    };
    let next = clock.now().ms();
    let written = str::from_utf8(&writer.held).unwrap_or("?");
    let told = format!(in alloc; "{word} {number} next {next} {written}");
    drop((clock, writer));
    Ok(told?)
}

/// The same by the policy of a server that wasn't told otherwise.
pub fn told<D: Desk, R: Source>(
    alloc: Global,
    desk: &mut D,
    reader: &mut R,
    most: usize,
) -> Result<String, Fault> {
    told_by(alloc, &Policy::open(), desk, reader, most)
}

/// A text with its marks written out: `¶` is CR LF, `␤` is LF, and `‹3 ab›` is `ababab`.
pub fn spelled(alloc: Global, text: &str) -> Result<String, Fault> {
    let text = text.replace(alloc, "¶", "\r\n")?.replace(alloc, "␤", "\n")?;
    written_out(alloc, text.as_str(), '‹', '›')
}
