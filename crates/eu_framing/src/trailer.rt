//! The trailer of a chunked body.
ghost use Rattle.std.specs.Prelude.{◌≡◌, ◌≢◌, ◌≤◌, ◌<◌, ◌+◌, ◌++◌, List, ℕ, true, IfOk, IfErr, IfSome, OnOk, OnErr, drop, length, take, vec_len};
ghost use Rattle.std.specs.Option.{MatchOption};
ghost use Rattle.httparse.specs.Grammar.{HasNoSection, MayBecomeSection};
ghost use Rattle.std.specs.Io.KnownBytes.{Keeps};
ghost use Rattle.eu_framing.specs.Chunks.{IsTrailerFault, trailer_room};
ghost use Rattle.eu_framing.specs.Message.{max_fields, pending};
ghost use Rattle.eu_framing.specs.Reading.{Grows, Blames, Longer};
ghost use Rattle.eu_framing.specs.Scanning.{IsAt, TrailerEndsAfter};
ghost use Rattle.eu_framing.specs.ChunkSteps.{FindsTrailer, lines_in, long_trailer_fault};

use crate::buffer::{Piece, fill, window};
use crate::scan::Scan;
use crate::{MAX_FIELDS, MAX_RAW, MAX_TRAILER};
use eu_base::Fault;
use eu_stream::Source;
use httparse::Status;
use httparse::spans::{EMPTY_HEADER_SPAN, HeaderSpan, parse_headers};

/// The length of the trailer at `start`, if it is whole within its limit and the room. The fault is that of the bytes,
/// whatever follows.
fn look(
    buffer: &[u8],
    start: usize,
    room: usize,
    spans: &mut [HeaderSpan],
) -> Result<Option<usize>, Fault>
    requires within { start ≤ length buffer.now }
    requires spans { length spans.old ≡ max_fields }
    ensures trailer { IfOk result (λ found. IfSome found (FindsTrailer room (drop start buffer.now))) }
    ensures none { IfOk result (λ found. MatchOption found (HasNoSection (take (trailer_room room) (drop start buffer.now))) (λ _. Unit {0})) }
    ensures may { IfOk result (λ found. MatchOption found (MayBecomeSection (take (trailer_room room) (drop start buffer.now))) (λ _. Unit {0})) }
    ensures fault { IfErr result (λ fault. (more : List ℕ) → IsTrailerFault room (drop start (buffer.now ++ more)) fault) }
{
    match parse_headers(window(buffer, start, MAX_TRAILER.min(room)), spans) {
        Ok(Status::Complete((len, _count))) => Ok(Some(len)),
        Ok(Status::Partial) => Ok(None),
        Err(_) => Err(Fault::BadChunk),
    }
}

/// The trailer at `start`, where an empty line has come that may end it.
fn try_trailer(
    buffer: &[u8],
    start: usize,
    room: usize,
    spans: &mut [HeaderSpan],
    scan: &mut Scan,
) -> Result<Option<usize>, Fault>
    requires within { start ≤ length buffer.now }
    requires spans { length spans.old ≡ max_fields }
    ensures trailer { IfOk result (λ found. IfSome found (FindsTrailer room (drop start buffer.now))) }
    ensures none { IsAt true (drop start buffer.now) scan.old → TrailerEndsAfter scan.old.seen (drop start buffer.now)
        → IfOk result (λ found. MatchOption found (HasNoSection (take (trailer_room room) (drop start buffer.now))) (λ _. Unit {0})) }
    ensures at { IsAt true (drop start buffer.now) scan.old → IsAt true (drop start buffer.now) scan.new }
    ensures fault { IfErr result (λ fault. (more : List ℕ) → IsTrailerFault room (drop start (buffer.now ++ more)) fault) }
{
    if scan.finds_empty_line(&buffer[start..]) {
        look(buffer, start, room, spans)
    } else {
        Ok(None)
    }
}

/// The trailer at `start`, where no byte comes behind these, and it might be longer.
fn last_trailer(
    buffer: &[u8],
    start: usize,
    room: usize,
    spans: &mut [HeaderSpan],
) -> Result<usize, Fault>
    requires within { start ≤ length buffer.now }
    requires short { length buffer.now < start + trailer_room room }
    requires spans { length spans.old ≡ max_fields }
    ensures trailer { IfOk result (FindsTrailer room (drop start buffer.now)) }
    ensures fault { IfErr result (IsTrailerFault room (drop start buffer.now)) }
{
    match look(buffer, start, room, spans)? {
        Some(len) => Ok(len),
        None => Err(Fault::BadChunk),
    }
}

/// How many lines end in the bytes.
fn count_lines(bytes: &[u8]) -> usize
    ensures { result ≡ lines_in bytes.now }
{
    bytes.iter().filter(|byte| **byte == b'\n').count()
}

/// The fault of a trailer that doesn't end within these bytes, which are as many as it may have. Each line is a field.
pub fn long_fault(bytes: &[u8], room: usize) -> Fault
    ensures { result ≡ long_trailer_fault room bytes.now }
{
    if count_lines(bytes) <= MAX_FIELDS && room <= MAX_TRAILER {
        Fault::BodyTooLong
    } else {
        Fault::BadChunk
    }
}

/// The trailer at `start`, where the buffer holds as many bytes as it may have.
fn full_trailer(
    buffer: &[u8],
    start: usize,
    room: usize,
    spans: &mut [HeaderSpan],
) -> Result<usize, Fault>
    requires within { start ≤ length buffer.now }
    requires full { start + trailer_room room ≤ length buffer.now }
    requires spans { length spans.old ≡ max_fields }
    ensures trailer { IfOk result (FindsTrailer room (drop start buffer.now)) }
    ensures fault { IfErr result (λ fault. (more : List ℕ) → IsTrailerFault room (drop start (buffer.now ++ more)) fault) }
{
    match look(buffer, start, room, spans)? {
        Some(len) => Ok(len),
        None => Err(long_fault(window(buffer, start, MAX_TRAILER.min(room)), room)),
    }
}

/// Reads until a whole trailer stands at `start`: its length. The room is what the chunked body may still have.
///
/// `BadChunk` and `BodyTooLong` come as the definition says, and the faults of `fill`.
pub fn find_trailer<R: Source>(
    reader: &mut R,
    buffer: &mut Vec<u8>,
    piece: &mut Piece,
    start: usize,
    room: usize,
) -> Result<usize, Fault>
    requires within { start ≤ vec_len buffer.old }
    requires near { start + room ≤ MAX_RAW + MAX_TRAILER }
    ensures grows { OnOk result (Grows (R.remaining reader.old) (R.failed reader.old) buffer.old.items (R.remaining reader.new) (R.failed reader.new) buffer.new.items) }
    ensures trailer { IfOk result (FindsTrailer room (drop start buffer.new.items)) }
    ensures inside { IfOk result (λ len. start + len ≤ vec_len buffer.new) }
    ensures fault { IfErr result (λ fault. Blames (R.failed reader.new) (R.remaining reader.old) buffer.old.items (R.remaining reader.new) buffer.new.items fault (λ bytes f. IsTrailerFault room (drop start bytes) f)) }
    ensures kept { OnErr result (Keeps (pending buffer.old.items (R.remaining reader.old)) (pending buffer.new.items (R.remaining reader.new))) }
    ensures longer { Longer buffer.old.items buffer.new.items }
    ensures told { IfErr result (λ fault. fault ≢ Fault.Read → R.failed reader.new ≡ R.failed reader.old) }
    ensures same_stream { R.stream reader.new ≡ R.stream reader.old }
{
    let mut spans = [EMPTY_HEADER_SPAN; MAX_FIELDS];
    let mut scan = Scan::of_trailer();
    'reads: while buffer.len() < start + MAX_TRAILER.min(room) {
        match try_trailer(buffer, start, room, &mut spans, &mut scan)? {
            Some(len) => return Ok(len),
            None => {}
        }
        if fill(reader, buffer, piece)? == 0 {
            return last_trailer(buffer, start, room, &mut spans);
        }
    }
    full_trailer(buffer, start, room, &mut spans)
}
