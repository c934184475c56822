//! The head of a request.
ghost use Rattle.std.specs.Prelude.{◌≡◌, ◌≢◌, ◌⊎◌, ◌≤◌, ◌<◌, ◌++◌, false, List, ℕ, length, take, IfOk, IfErr, IfSome, OnOk, OnErr, vec_len};
ghost use Rattle.std.specs.Option.{MatchOption};
ghost use Rattle.std.specs.Io.KnownBytes.{IsAtEnd, Keeps};
ghost use Rattle.httparse.specs.Grammar.{HasNoRequest};
ghost use Rattle.eu_framing.specs.Message.{max_head, max_fields, IsEnd, IsHeadFault, pending};
ghost use Rattle.eu_framing.specs.Reading.{Grows, Blames};
ghost use Rattle.eu_framing.specs.Scanning.{IsAt, HeadEndsAfter};
ghost use Rattle.eu_framing.specs.Steps.{HasHeadAt, blank_lines};

use crate::MAX_HEAD;
use crate::buffer::{Piece, fill, window};
use crate::scan::Scan;
use eu_base::Fault;
use eu_stream::Source;
use httparse::spans::{HeaderSpan, RequestSpans, parse_request};
use httparse::{Error, Status};

/// Whether the bytes are empty lines alone.
fn only_blank(bytes: &[u8]) -> bool
    ensures { result ≡ blank_lines false bytes.now }
{
    let mut after_cr = false;
    for byte in bytes {
        if *byte == b'\n' {
            after_cr = false;
        } else if *byte == b'\r' && !after_cr {
            after_cr = true;
        } else {
            return false;
        }
    }
    !after_cr
}

/// The head at the front, if it is whole within its limit. The fault is that of the bytes, whatever follows.
fn look(buffer: &[u8], spans: &mut [HeaderSpan]) -> Result<Option<RequestSpans>, Fault>
    requires { length spans.old ≡ max_fields }
    ensures head { IfOk result (λ found. IfSome found (HasHeadAt buffer.now spans.new)) }
    ensures none { IfOk result (λ found. MatchOption found (HasNoRequest (take max_head buffer.now)) (λ _. Unit {0})) }
    ensures fault { IfErr result (λ fault. (more : List ℕ) → IsHeadFault (buffer.now ++ more) fault) }
{
    match parse_request(window(buffer, 0, MAX_HEAD), spans) {
        Ok(Status::Complete(head)) => Ok(Some(head)),
        Ok(Status::Partial) => Ok(None),
        Err(error) => match error {
            Error::TooManyHeaders => Err(Fault::HeadTooLong),
            _ => Err(Fault::BadHead),
        },
    }
}

/// The head at the front, where an empty line has come that may end it. Most heads come whole, with one read: so where nothing was looked
/// through before, this is parsed at once. Where it isn't whole then, a fault comes only where an empty line has come.
fn try_head(
    buffer: &[u8],
    spans: &mut [HeaderSpan],
    scan: &mut Scan,
) -> Result<Option<RequestSpans>, Fault>
    requires { length spans.old ≡ max_fields }
    ensures head { IfOk result (λ found. IfSome found (HasHeadAt buffer.now spans.new)) }
    ensures none { IsAt false buffer.now scan.old → HeadEndsAfter scan.old.seen buffer.now → IfOk result (λ found. MatchOption found (HasNoRequest (take max_head buffer.now)) (λ _. Unit {0})) }
    ensures at { IsAt false buffer.now scan.old → IsAt false buffer.now scan.new }
    ensures fault { IfErr result (λ fault. (more : List ℕ) → IsHeadFault (buffer.now ++ more) fault) }
{
    if scan.is_new() {
        let found = look(buffer, spans);
        if matches!(found, Ok(Some(_))) {
            return found;
        }
        if scan.finds_empty_line(buffer) {
            found
        } else {
            Ok(None)
        }
    } else if scan.finds_empty_line(buffer) {
        look(buffer, spans)
    } else {
        Ok(None)
    }
}

/// The head at the front, where no byte comes behind these; none where they are empty lines alone.
fn last_head(buffer: &[u8], spans: &mut [HeaderSpan]) -> Result<Option<RequestSpans>, Fault>
    requires room { length spans.old ≡ max_fields }
    requires short { length buffer.now < max_head }
    ensures head { IfOk result (λ found. IfSome found (HasHeadAt buffer.now spans.new)) }
    ensures end { IfOk result (λ found. MatchOption found (IsEnd buffer.now) (λ _. Unit {0})) }
    ensures fault { IfErr result (IsHeadFault buffer.now) }
{
    match look(buffer, spans)? {
        Some(head) => Ok(Some(head)),
        None if only_blank(buffer) => Ok(None),
        None => Err(Fault::BadHead),
    }
}

/// The head at the front of as many bytes as a head may have.
fn full_head(buffer: &[u8], spans: &mut [HeaderSpan]) -> Result<Option<RequestSpans>, Fault>
    requires room { length spans.old ≡ max_fields }
    requires full { max_head ≤ length buffer.now }
    ensures head { IfOk result (λ found. IfSome found (HasHeadAt buffer.now spans.new)) }
    ensures end { IfOk result (λ found. MatchOption found ⊥ (λ _. Unit {0})) }
    ensures fault { IfErr result (λ fault. (more : List ℕ) → IsHeadFault (buffer.now ++ more) fault) }
{
    match look(buffer, spans)? {
        Some(head) => Ok(Some(head)),
        None => Err(Fault::HeadTooLong),
    }
}

/// Reads until a whole head stands in the buffer, or the bytes end before one. No byte of the buffer is used up.
///
/// `HeadTooLong` and `BadHead` come as the definition says, and the faults of `fill`.
pub fn find_head<R: Source>(
    reader: &mut R,
    buffer: &mut Vec<u8>,
    piece: &mut Piece,
    spans: &mut [HeaderSpan],
) -> Result<Option<RequestSpans>, Fault>
    requires { length spans.old ≡ max_fields }
    ensures room { length spans.new ≡ max_fields }
    ensures grows { OnOk result (Grows (R.remaining reader.old) (R.failed reader.old) buffer.old.items (R.remaining reader.new) (R.failed reader.new) buffer.new.items) }
    ensures head { IfOk result (λ found. IfSome found (HasHeadAt buffer.new.items spans.new)) }
    ensures end { IfOk result (λ found. MatchOption found (IsEnd buffer.new.items × IsAtEnd (R.remaining reader.new)) (λ _. Unit {0})) }
    ensures fault { IfErr result (λ fault. Blames (R.failed reader.new) (R.remaining reader.old) buffer.old.items (R.remaining reader.new) buffer.new.items fault IsHeadFault) }
    ensures kept { OnErr result (Keeps (pending buffer.old.items (R.remaining reader.old)) (pending buffer.new.items (R.remaining reader.new))) }
    ensures told { IfErr result (λ fault. fault ≢ Fault.Read → R.failed reader.new ≡ R.failed reader.old) }
    ensures same_stream { R.stream reader.new ≡ R.stream reader.old }
{
    let mut scan = Scan::of_head();
    'reads: while buffer.len() < MAX_HEAD {
        match try_head(buffer, spans, &mut scan)? {
            Some(head) => return Ok(Some(head)),
            None => {}
        }
        if fill(reader, buffer, piece)? == 0 {
            return last_head(buffer, spans);
        }
    }
    full_head(buffer, spans)
}
