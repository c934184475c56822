//! The next request of a stream.
ghost use Rattle.std.specs.Prelude.{◌≡◌, ◌≢◌, ◌⊎◌, ◌≤◌, ◌-◌, ◌^◌, ◌++◌, List, ℕ, IsUtf8, IfOk, IfErr, IfSome, OnOk, OnErr, drop, min, string_bytes, take, vec_len};
ghost use Rattle.std.specs.Option.{MatchOption};
ghost use Rattle.std.specs.Io.KnownBytes.{IsAtEnd, Keeps};
ghost use Rattle.httparse.specs.Spans.{IsRequestWithin, IsRequestOf};
ghost use Rattle.eu_framing.specs.Fields.{IsWithin};
ghost use Rattle.eu_framing.specs.Message.{IsEnd, IsFault, max_head, FindsNext, Interrupts, path_of, query_of, pending, Between, OfBytes};
ghost use Rattle.eu_framing.specs.Reading.{Grows, Blames};
ghost use Rattle.eu_framing.specs.Steps.{HasHeadAt};
ghost use Rattle.eu_framing.specs.HeadSteps.{GivesHead, FindsHead, Makes};
ghost use Rattle.eu_framing.specs.Walking as spec;
ghost use Rattle.eu_framing.specs.Walking.{IsBegun, begun_memory};

use crate::MAX_HEAD;
use crate::body::read_body;
use crate::buffer::{Room, drop_front, window};
use crate::fields::{Framing, find_closes, find_framing, find_origins, find_replicated};
use crate::head::find_head;
use crate::inbox::Inbox;
use crate::walk::Walk;
use eu_base::Fault;
use eu_stream::Source;
use httparse::spans::{HeaderSpan, RequestSpans};
use std::alloc::{AllocError, Global};

/// So many bytes a list has for each of its values, beside the value's own.
const PLACE: usize = 24;

/// A request, whole.
#[derive(Debug, Drop)]
pub struct Request {
    /// The method, as written.
    pub method: String,
    /// The target, as written: mostly a path and a query.
    pub target: String,
    /// The version is HTTP/1.0 or HTTP/1.1 by this number.
    pub minor: u8,
    /// The connection is to end after the request: a `Connection` field has the option `close`, or it is of HTTP/1.0.
    pub closes: bool,
    /// Another server sent the request on: a field `x-netflix-discovery-replication` says `true`.
    pub replicated: bool,
    /// The values of its `Origin` fields, in order (RFC 6454, section 7): a browser sends one for a page that asks. Mostly there is none, which
    /// takes no memory.
    pub origins: Vec<Vec<u8>>,
    /// The body, without its framing.
    pub body: Vec<u8>,
}

impl Request {
    /// The target's path and its query, as written: what stands before its first `?` (RFC 9112, section 3.2), and behind it (RFC
    /// 3986, section 3.4). The query is empty where there is none.
    pub fn parts(&self) -> (&str, &str)
        ensures path { result.0.now ≡ path_of (string_bytes self.now.target) }
        ensures query { result.1.now ≡ query_of (string_bytes self.now.target) }
    {
        match self.target.split_once('?') {
            Some((path, query)) => (path, query),
            None => (self.target.as_str(), ""),
        }
    }
}

/// What a head says.
#[derive(Debug, Drop)]
pub struct Head {
    method: String,
    target: String,
    minor: u8,
    closes: bool,
    replicated: bool,
    origins: Vec<Vec<u8>>,
    framing: Framing,
    /// So many bytes it has.
    len: usize,
}

impl Head {
    /// The request of that head and body.
    fn with_body(self, body: Vec<u8>) -> Request
        ensures head { Makes result self }
        ensures body { result.body ≡ body }
    {
        Request {
            method: self.method,
            target: self.target,
            minor: self.minor,
            closes: self.closes,
            replicated: self.replicated,
            origins: self.origins,
            body,
        }
    }
}

/// How many bytes of memory these values have.
fn values_memory(values: &[Vec<u8>]) -> usize
    ensures { result ≡ min (spec.values_memory values.now) (2 ^ 64 - 1) }
{
    let mut memory = 0usize;
    for value in values {
        memory = memory.saturating_add(value.capacity());
    }
    memory
}

/// How many bytes of memory they have with their list.
fn memory_of(values: &Vec<Vec<u8>>) -> usize
    ensures { result ≡ min (spec.list_memory values.now) (2 ^ 64 - 1) }
{
    let places = values.capacity().saturating_mul(PLACE);
    values_memory(values).saturating_add(places)
}

/// A request whose head is whole, and how far its body was gone through.
#[derive(Debug, Drop)]
pub struct Begun {
    head: Head,
    walk: Walk,
}

impl Begun {
    /// How many bytes of memory its texts, its values and its body have.
    pub fn memory(&self) -> usize
        ensures { result ≡ min (begun_memory self.now) (2 ^ 64 - 1) }
    {
        let method = self.head.method.capacity();
        let target = self.head.target.capacity();
        let texts = method.saturating_add(target);
        let said = texts.saturating_add(memory_of(&self.head.origins));
        said.saturating_add(self.walk.body.capacity())
    }
}

/// A text of these bytes, which aren't looked at once more.
fn text_of(alloc: Global, bytes: &[u8]) -> Result<String, AllocError>
    requires { IsUtf8 bytes.now }
    ensures { IfOk result (λ text. string_bytes text ≡ bytes.now) }
{
    String::from_str(alloc, unsafe { str::from_utf8_unchecked(bytes) })
}

/// What the head says that the spans cover, or the first fault of its fields.
fn copy_head(
    alloc: Global,
    text: &[u8],
    spans: &[HeaderSpan],
    found: &RequestSpans,
) -> Result<Head, Fault>
    requires within { IsRequestWithin text.now spans.now found.now }
    requires head { IsRequestOf text.now spans.now found.now }
    ensures head { GivesHead text.now spans.now found.now result }
    ensures within { IfOk result (λ head. IsWithin head.framing) }
    ensures len { IfOk result (λ head. head.len ≡ found.now.len) }
{
    let headers = &spans[..found.headers];
    let framing = find_framing(found.version, text, headers)?;
    Ok(Head {
        method: text_of(alloc, found.method.of(text))?,
        target: text_of(alloc, found.path.of(text))?,
        minor: found.version,
        closes: find_closes(found.version, text, headers),
        replicated: find_replicated(text, headers),
        origins: find_origins(alloc, text, headers)?,
        framing,
        len: found.len,
    })
}

/// The head of the next request, which then stands at the front of the buffer; none at the end.
fn next_head<R: Source>(
    alloc: Global,
    reader: &mut R,
    buffer: &mut Vec<u8>,
    room: &mut Room,
) -> Result<Option<Head>, Fault>
    ensures grows { OnOk result (Grows (R.remaining reader.old) (R.failed reader.old) buffer.old.items (R.remaining reader.new) (R.failed reader.new) buffer.new.items) }
    ensures found { IfOk result (λ found. FindsHead found buffer.new.items) }
    ensures end { IfOk result (λ found. MatchOption found (IsAtEnd (R.remaining reader.new)) (λ _. Unit {0})) }
    ensures within { IfOk result (λ found. IfSome found (λ head. IsWithin head.framing)) }
    ensures fault { IfErr result (λ fault. Blames (R.failed reader.new) (R.remaining reader.old) buffer.old.items (R.remaining reader.new) buffer.new.items fault IsFault) }
    ensures kept { OnErr result (Keeps (pending buffer.old.items (R.remaining reader.old)) (pending buffer.new.items (R.remaining reader.new))) }
    ensures told { IfErr result (λ fault. fault ≢ Fault.Read → R.failed reader.new ≡ R.failed reader.old) }
    ensures same_stream { R.stream reader.new ≡ R.stream reader.old }
{
    match find_head(reader, buffer, &mut room.piece, &mut room.spans)? {
        None => Ok(None),
        Some(found) => Ok(Some(copy_head(
            alloc,
            window(buffer, 0, MAX_HEAD),
            &room.spans,
            &found,
        )?)),
    }
}

/// The request that was begun, or the next one once its head is whole; none at the end.
///
/// The faults are those of the head and its fields, and those of `fill`.
fn begin<R: Source>(
    alloc: Global,
    reader: &mut R,
    buffer: &mut Vec<u8>,
    waiting: Option<Box<Begun>>,
    room: &mut Room,
) -> Result<Option<Begun>, Fault>
    requires { IfSome waiting (λ begun. IsBegun buffer.old.items begun.value) }
    ensures grows { OnOk result (Grows (R.remaining reader.old) (R.failed reader.old) buffer.old.items (R.remaining reader.new) (R.failed reader.new) buffer.new.items) }
    ensures found { IfOk result (λ found. IfSome found (IsBegun buffer.new.items)) }
    ensures end { IfOk result (λ found. MatchOption found (IsEnd buffer.new.items × IsAtEnd (R.remaining reader.new)) (λ _. Unit {0})) }
    ensures fault { IfErr result (λ fault. Blames (R.failed reader.new) (R.remaining reader.old) buffer.old.items (R.remaining reader.new) buffer.new.items fault IsFault) }
    ensures kept { OnErr result (Keeps (pending buffer.old.items (R.remaining reader.old)) (pending buffer.new.items (R.remaining reader.new))) }
    ensures told { IfErr result (λ fault. fault ≢ Fault.Read → R.failed reader.new ≡ R.failed reader.old) }
    ensures same_stream { R.stream reader.new ≡ R.stream reader.old }
{
    match waiting {
        Some(begun) => Ok(Some(Box::into_inner(begun))),
        None => match next_head(alloc, reader, buffer, room)? {
            Some(head) => {
                let walk = Walk::new(alloc, head.len);
                Ok(Some(Begun { head, walk }))
            }
            None => Ok(None),
        },
    }
}

/// What was begun, on the heap, where there is memory for it.
fn kept(alloc: Global, begun: Begun) -> Option<Box<Begun>>
    ensures { IfSome result (λ kept. kept.value ≡ begun) }
{
    Box::new(alloc, begun).ok()
}

/// What `read_request` takes, from the bytes of an inbox and how far it went through them. Where there is no memory to keep that, the next call
/// begins with them anew.
fn take_request<R: Source>(
    alloc: Global,
    reader: &mut R,
    buffer: &mut Vec<u8>,
    waiting: &mut Option<Box<Begun>>,
    room: &mut Room,
) -> Result<Option<Request>, Fault>
    requires { IfSome waiting.old (λ begun. IsBegun buffer.old.items begun.value) }
    ensures waiting { IfSome waiting.new (λ begun. IsBegun buffer.new.items begun.value) }
    ensures found { IfOk result (λ next. Between (pending buffer.old.items (R.remaining reader.old)) (pending buffer.new.items (R.remaining reader.new)) (FindsNext next)) }
    ensures fault { IfErr result (λ fault. Interrupts (R.failed reader.new) (pending buffer.old.items (R.remaining reader.old)) (pending buffer.new.items (R.remaining reader.new)) buffer.new.items fault ⊎ OfBytes (pending buffer.old.items (R.remaining reader.old)) (λ bytes. IsFault bytes fault)) }
    ensures kept { OnErr result (Keeps (pending buffer.old.items (R.remaining reader.old)) (pending buffer.new.items (R.remaining reader.new))) }
    ensures sound { OnOk result (R.failed reader.new ≡ R.failed reader.old) }
    ensures told { IfErr result (λ fault. fault ≢ Fault.Read → R.failed reader.new ≡ R.failed reader.old) }
    ensures same_stream { R.stream reader.new ≡ R.stream reader.old }
{
    let Some(mut begun) = begin(alloc, reader, buffer, waiting.take(), room)? else {
        return Ok(None);
    };
    let (piece, len, framing) = (&mut room.piece, begun.head.len, begun.head.framing);
    match read_body(alloc, reader, buffer, piece, &mut begun.walk, len, framing) {
        Ok((body, used)) => {
            drop_front(buffer, used);
            Ok(Some(begun.head.with_body(body)))
        }
        Err(fault) => {
            *waiting = kept(alloc, begun);
            Err(fault)
        }
    }
}

/// Takes the next request from what was read before and the reader: none at the end.
///
/// `inbox` holds bytes that were read and not yet used; they come first. Those that the request doesn't use are left in it, so
/// the next call goes on with them. Where there is no request, it is as it was, with what was read behind it. No byte behind
/// the request is waited for. What `room` holds doesn't matter.
///
/// A head is what `httparse` reads, with empty lines before it (RFC 9112, sections 2 to 5). The end is that of the bytes,
/// before a head or after empty lines alone. Of the faults, the first that is met comes:
///
/// - `HeadTooLong`: the head isn't whole within `MAX_HEAD` bytes, or has more than `MAX_FIELDS` fields.
/// - `BadHead`: it can't become one, or the bytes end inside it, or it is of HTTP/1.1 and hasn't exactly one `Host`.
/// - `BadLength`: the body isn't framed by one `Content-Length` of 1 to 19 digits, or by one `Transfer-Encoding` that is
///   `chunked`, in HTTP/1.1, or by none of the two (section 6); or the bytes end inside a body with a length.
/// - `BadEncoding`: a `Content-Encoding` isn't `identity`.
/// - `BodyTooLong`: the body has more than `MAX_BODY` bytes, which a stated length or a chunk line tells before the body is
///   read; or a chunked body isn't whole within `MAX_RAW` bytes.
/// - `BadChunk`: a chunk line, the end of a chunk or the trailer isn't one (section 7.1), the trailer isn't whole within
///   `MAX_TRAILER` bytes or has more than `MAX_FIELDS` fields, or the bytes end inside a chunked body.
/// - `OutOfMemory`: there was no memory. `Read`: a read failed.
///
/// After a fault no byte is lost: the inbox has what it had, with what was read behind it. After `Read` that begins with no whole
/// request, and the next call goes on where this one stopped, in time in proportion to the bytes that came.
pub fn read_request<R: Source>(
    alloc: Global,
    reader: &mut R,
    inbox: &mut Inbox,
    room: &mut Room,
) -> Result<Option<Request>, Fault>
    ensures found { IfOk result (λ next. Between (pending inbox.old (R.remaining reader.old)) (pending inbox.new (R.remaining reader.new)) (FindsNext next)) }
    ensures fault { IfErr result (λ fault. Interrupts (R.failed reader.new) (pending inbox.old (R.remaining reader.old)) (pending inbox.new (R.remaining reader.new)) inbox.new fault ⊎ OfBytes (pending inbox.old (R.remaining reader.old)) (λ bytes. IsFault bytes fault)) }
    ensures kept { OnErr result (Keeps (pending inbox.old (R.remaining reader.old)) (pending inbox.new (R.remaining reader.new))) }
    ensures sound { OnOk result (R.failed reader.new ≡ R.failed reader.old) }
    ensures told { IfErr result (λ fault. fault ≢ Fault.Read → R.failed reader.new ≡ R.failed reader.old) }
    ensures same_stream { R.stream reader.new ≡ R.stream reader.old }
{
    take_request(alloc, reader, &mut inbox.bytes, &mut inbox.begun, room)
}
