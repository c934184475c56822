//! A chunked body.
ghost use Rattle.std.specs.Prelude.{◌≡◌, ◌≢◌, ◌≤◌, ◌<◌, ◌+◌, ◌-◌, ◌++◌, [], List, ℕ, IfOk, IfErr, IfSome, OnOk, OnErr, drop, length, take, vec_len, bytes_eq};
ghost use Rattle.std.specs.Option.{MatchOption};
ghost use Rattle.httparse.specs.Ascii.{crlf_bytes};
ghost use Rattle.httparse.specs.Grammar.{HasNoChunkLine, MayBecomeChunkLine};
ghost use Rattle.std.specs.Io.KnownBytes.{Keeps};
ghost use Rattle.eu_framing.specs.Chunks.{IsLineFault, IsDataFault, BreaksChunks, ReadsChunked, BreaksChunked};
ghost use Rattle.eu_framing.specs.Message.{max_head, pending};
ghost use Rattle.eu_framing.specs.Reading.{Grows, Blames, Longer};
ghost use Rattle.eu_framing.specs.Scanning.{LineEndsAfter};
ghost use Rattle.eu_framing.specs.Walking.{IsHere, IsSeen, Stands};
ghost use Rattle.eu_framing.specs.Steps.{FindsLine};
ghost use Rattle.eu_framing.specs.ChunkSteps.{TakesStep, TakesChunks};

use crate::buffer::{Piece, fill, fill_to, window};
use crate::trailer::find_trailer;
use crate::walk::Walk;
use crate::{MAX_BODY, MAX_RAW, MAX_TRAILER};
use eu_base::Fault;
use eu_stream::Source;
use httparse::{Status, parse_chunk_size};
use std::alloc::Global;
use std::mem;

/// What a chunk line led to, with the number of bytes that it took.
#[derive(Clone, Copy, Debug, PartialEq, Eq)]
pub enum Step {
    /// A chunk: the line, its data and their end.
    Chunk(usize),
    /// The last line, alone.
    Last(usize),
}

/// The chunk line at `start`, if it is whole within the room: its length, and the size of its data. The fault is that of
/// the bytes, whatever follows.
fn look(buffer: &[u8], start: usize, room: usize) -> Result<Option<(usize, u64)>, Fault>
    requires { start ≤ length buffer.now }
    ensures line { IfOk result (λ found. IfSome found (FindsLine room (drop start buffer.now))) }
    ensures none { IfOk result (λ found. MatchOption found (HasNoChunkLine (take room (drop start buffer.now))) (λ _. Unit {0})) }
    ensures may { IfOk result (λ found. MatchOption found (MayBecomeChunkLine (take room (drop start buffer.now))) (λ _. Unit {0})) }
    ensures fault { IfErr result (λ fault. (more : List ℕ) → IsLineFault room (drop start (buffer.now ++ more)) fault) }
{
    match parse_chunk_size(window(buffer, start, room)) {
        Ok(Status::Complete(found)) => Ok(Some(found)),
        Ok(Status::Partial) => Ok(None),
        Err(_) => Err(Fault::BadChunk),
    }
}

/// The chunk line at `start`, where a line end stands behind the bytes that were looked through before.
fn try_line(
    buffer: &[u8],
    seen: usize,
    start: usize,
    room: usize,
) -> Result<Option<(usize, u64)>, Fault>
    requires within { start ≤ length buffer.now }
    requires seen { seen ≤ length buffer.now }
    ensures line { IfOk result (λ found. IfSome found (FindsLine room (drop start buffer.now))) }
    ensures none { start ≤ seen → LineEndsAfter (seen - start) (drop start buffer.now) → IfOk result (λ found. MatchOption found (HasNoChunkLine (take room (drop start buffer.now))) (λ _. Unit {0})) }
    ensures fault { IfErr result (λ fault. (more : List ℕ) → IsLineFault room (drop start (buffer.now ++ more)) fault) }
{
    if buffer[seen..].contains(&b'\n') {
        look(buffer, start, room)
    } else {
        Ok(None)
    }
}

/// The chunk line at `start`, where no byte comes behind these, and the room is larger.
fn last_line(buffer: &[u8], start: usize, room: usize) -> Result<(usize, u64), Fault>
    requires within { start ≤ length buffer.now }
    requires short { length buffer.now < start + room }
    ensures line { IfOk result (FindsLine room (drop start buffer.now)) }
    ensures fault { IfErr result (IsLineFault room (drop start buffer.now)) }
{
    match look(buffer, start, room)? {
        Some(found) => Ok(found),
        None => Err(Fault::BadChunk),
    }
}

/// The chunk line at `start`, where the buffer holds as many bytes as there is room for.
fn full_line(buffer: &[u8], start: usize, room: usize) -> Result<(usize, u64), Fault>
    requires within { start ≤ length buffer.now }
    requires full { start + room ≤ length buffer.now }
    ensures line { IfOk result (FindsLine room (drop start buffer.now)) }
    ensures fault { IfErr result (λ fault. (more : List ℕ) → IsLineFault room (drop start (buffer.now ++ more)) fault) }
{
    match look(buffer, start, room)? {
        Some(found) => Ok(found),
        None => Err(Fault::BodyTooLong),
    }
}

/// Reads until a whole chunk line stands at `start`: its length, and the size of its data. It doesn't end before `seen`, which goes on as far
/// as was looked.
///
/// `BadChunk` and `BodyTooLong` come as the definition says, and the faults of `fill`.
fn find_line<R: Source>(
    reader: &mut R,
    buffer: &mut Vec<u8>,
    piece: &mut Piece,
    seen: &mut usize,
    start: usize,
    room: usize,
) -> Result<(usize, u64), Fault>
    requires seen { IsSeen start seen.old buffer.old.items }
    requires near { start + room ≤ MAX_RAW + MAX_TRAILER }
    ensures seen { IsSeen start seen.new buffer.new.items }
    ensures grows { OnOk result (Grows (R.remaining reader.old) (R.failed reader.old) buffer.old.items (R.remaining reader.new) (R.failed reader.new) buffer.new.items) }
    ensures line { IfOk result (FindsLine room (drop start buffer.new.items)) }
    ensures inside { IfOk result (λ found. start + found.0 ≤ vec_len buffer.new) }
    ensures fits { IfOk result (λ found. found.0 ≤ room) }
    ensures fault { IfErr result (λ fault. Blames (R.failed reader.new) (R.remaining reader.old) buffer.old.items (R.remaining reader.new) buffer.new.items fault (λ bytes f. IsLineFault room (drop start bytes) f)) }
    ensures kept { OnErr result (Keeps (pending buffer.old.items (R.remaining reader.old)) (pending buffer.new.items (R.remaining reader.new))) }
    ensures longer { Longer buffer.old.items buffer.new.items }
    ensures told { IfErr result (λ fault. fault ≢ Fault.Read → R.failed reader.new ≡ R.failed reader.old) }
    ensures same_stream { R.stream reader.new ≡ R.stream reader.old }
{
    'reads: while buffer.len() < start + room {
        match try_line(buffer, *seen, start, room)? {
            Some(found) => return Ok(found),
            None => {}
        }
        *seen = buffer.len();
        if fill(reader, buffer, piece)? == 0 {
            return last_line(buffer, start, room);
        }
    }
    full_line(buffer, start, room)
}

/// The chunk line that the walk stands at, once it is whole: its length, and the size of its data. It is looked for once.
///
/// The faults are those of `find_line`.
fn next_line<R: Source>(
    reader: &mut R,
    buffer: &mut Vec<u8>,
    piece: &mut Piece,
    walk: &mut Walk,
    room: usize,
) -> Result<(usize, u64), Fault>
    requires here { IsHere room buffer.old.items walk.old }
    requires near { walk.old.at + room ≤ MAX_RAW + MAX_TRAILER }
    ensures here { IsHere room buffer.new.items walk.new }
    ensures at { walk.new.at ≡ walk.old.at }
    ensures body { walk.new.body ≡ walk.old.body }
    ensures grows { OnOk result (Grows (R.remaining reader.old) (R.failed reader.old) buffer.old.items (R.remaining reader.new) (R.failed reader.new) buffer.new.items) }
    ensures line { IfOk result (FindsLine room (drop walk.old.at buffer.new.items)) }
    ensures inside { IfOk result (λ found. walk.old.at + found.0 ≤ vec_len buffer.new) }
    ensures fits { IfOk result (λ found. found.0 ≤ room) }
    ensures fault { IfErr result (λ fault. Blames (R.failed reader.new) (R.remaining reader.old) buffer.old.items (R.remaining reader.new) buffer.new.items fault (λ bytes f. IsLineFault room (drop walk.old.at bytes) f)) }
    ensures kept { OnErr result (Keeps (pending buffer.old.items (R.remaining reader.old)) (pending buffer.new.items (R.remaining reader.new))) }
    ensures longer { Longer buffer.old.items buffer.new.items }
    ensures told { IfErr result (λ fault. fault ≢ Fault.Read → R.failed reader.new ≡ R.failed reader.old) }
    ensures same_stream { R.stream reader.new ≡ R.stream reader.old }
{
    match walk.line {
        Some(line) => Ok(line),
        None => {
            let line = find_line(reader, buffer, piece, &mut walk.seen, walk.at, room)?;
            walk.line = Some(line);
            Ok(line)
        }
    }
}

/// Whether CR LF stands at a place.
fn has_line_end(buffer: &[u8], at: usize) -> bool
    requires { at + 2 ≤ length buffer.now }
    ensures { result ≡ bytes_eq (take 2 (drop at buffer.now)) crlf_bytes }
{
    &buffer[at..at + 2] == b"\r\n".as_slice()
}

/// Reads the data that a chunk line before `start` announces, and the byte behind it, which the data's end begins with; else `BadChunk` comes at
/// once.
///
/// `BadChunk` comes as the definition says, and the faults of `fill`.
fn await_end<R: Source>(
    reader: &mut R,
    buffer: &mut Vec<u8>,
    piece: &mut Piece,
    start: usize,
    room: usize,
    size: usize,
) -> Result<(), Fault>
    requires within { start ≤ vec_len buffer.old }
    requires near { start + room ≤ MAX_RAW + MAX_TRAILER }
    requires short { size ≤ MAX_BODY }
    ensures grows { OnOk result (Grows (R.remaining reader.old) (R.failed reader.old) buffer.old.items (R.remaining reader.new) (R.failed reader.new) buffer.new.items) }
    ensures fault { IfErr result (λ fault. Blames (R.failed reader.new) (R.remaining reader.old) buffer.old.items (R.remaining reader.new) buffer.new.items fault (λ bytes f. IsDataFault room size (drop start bytes) f)) }
    ensures kept { OnErr result (Keeps (pending buffer.old.items (R.remaining reader.old)) (pending buffer.new.items (R.remaining reader.new))) }
    ensures longer { Longer buffer.old.items buffer.new.items }
    ensures told { IfErr result (λ fault. fault ≢ Fault.Read → R.failed reader.new ≡ R.failed reader.old) }
    ensures same_stream { R.stream reader.new ≡ R.stream reader.old }
{
    if !fill_to(reader, buffer, piece, start + room.min(size + 1))? {
        return Err(Fault::BadChunk);
    }
    if size + 2 <= room && buffer[start + size] != b'\r' {
        return Err(Fault::BadChunk);
    }
    Ok(())
}

/// Reads the data that a chunk line before `start` announces, and its CR LF, and puts the data to the end of `body`.
///
/// `BadChunk` and `BodyTooLong` come as the definition says, and the faults of `fill`.
fn take_data<R: Source>(
    reader: &mut R,
    buffer: &mut Vec<u8>,
    piece: &mut Piece,
    body: &mut Vec<u8>,
    start: usize,
    room: usize,
    size: usize,
) -> Result<(), Fault>
    requires within { start ≤ vec_len buffer.old }
    requires near { start + room ≤ MAX_RAW + MAX_TRAILER }
    requires short { size ≤ MAX_BODY }
    ensures held { OnErr result (body.new.items ≡ body.old.items) }
    ensures grows { OnOk result (Grows (R.remaining reader.old) (R.failed reader.old) buffer.old.items (R.remaining reader.new) (R.failed reader.new) buffer.new.items) }
    ensures data_ { OnOk result ((chunk : List ℕ) × (length chunk ≡ size) × (body.new.items ≡ body.old.items ++ chunk) × (drop start buffer.new.items ≡ chunk ++ (crlf_bytes ++ drop (start + size + 2) buffer.new.items))) }
    ensures inside { OnOk result (start + size + 2 ≤ vec_len buffer.new) }
    ensures fits { OnOk result (size + 2 ≤ room) }
    ensures fault { IfErr result (λ fault. Blames (R.failed reader.new) (R.remaining reader.old) buffer.old.items (R.remaining reader.new) buffer.new.items fault (λ bytes f. IsDataFault room size (drop start bytes) f)) }
    ensures kept { OnErr result (Keeps (pending buffer.old.items (R.remaining reader.old)) (pending buffer.new.items (R.remaining reader.new))) }
    ensures longer { Longer buffer.old.items buffer.new.items }
    ensures told { IfErr result (λ fault. fault ≢ Fault.Read → R.failed reader.new ≡ R.failed reader.old) }
    ensures same_stream { R.stream reader.new ≡ R.stream reader.old }
{
    await_end(reader, buffer, piece, start, room, size)?;
    if !fill_to(reader, buffer, piece, start + room.min(size + 2))? {
        return Err(Fault::BadChunk);
    }
    if size + 2 > room {
        return Err(Fault::BodyTooLong);
    }
    let end = start + size;
    if !has_line_end(buffer, end) {
        return Err(Fault::BadChunk);
    }
    body.extend_from_slice(&buffer[start..end])?;
    Ok(())
}

/// Takes the chunk that the walk stands at, and puts its data to the end of the walk's body; or finds the last line.
///
/// `BadChunk` and `BodyTooLong` come as the definition says, and the faults of `fill`.
fn take_chunk<R: Source>(
    reader: &mut R,
    buffer: &mut Vec<u8>,
    piece: &mut Piece,
    walk: &mut Walk,
    room: usize,
) -> Result<Step, Fault>
    requires here { IsHere room buffer.old.items walk.old }
    requires near { walk.old.at + room ≤ MAX_RAW + MAX_TRAILER }
    requires held { vec_len walk.old.body ≤ MAX_BODY }
    ensures here { IsHere room buffer.new.items walk.new }
    ensures at { walk.new.at ≡ walk.old.at }
    ensures held { OnErr result (walk.new.body.items ≡ walk.old.body.items) }
    ensures grows { OnOk result (Grows (R.remaining reader.old) (R.failed reader.old) buffer.old.items (R.remaining reader.new) (R.failed reader.new) buffer.new.items) }
    ensures step { IfOk result (TakesStep walk.old.at room buffer.new.items walk.old.body.items walk.new.body.items) }
    ensures fault { IfErr result (λ fault. Blames (R.failed reader.new) (R.remaining reader.old) buffer.old.items (R.remaining reader.new) buffer.new.items fault (λ bytes f. BreaksChunks room (length walk.old.body.items) (drop walk.old.at bytes) f)) }
    ensures kept { OnErr result (Keeps (pending buffer.old.items (R.remaining reader.old)) (pending buffer.new.items (R.remaining reader.new))) }
    ensures longer { Longer buffer.old.items buffer.new.items }
    ensures told { IfErr result (λ fault. fault ≢ Fault.Read → R.failed reader.new ≡ R.failed reader.old) }
    ensures same_stream { R.stream reader.new ≡ R.stream reader.old }
{
    let start = walk.at;
    let (len, size) = next_line(reader, buffer, piece, walk, room)?;
    if size == 0 {
        return Ok(Step::Last(len));
    }
    if size > (MAX_BODY - walk.body.len()) as u64 {
        return Err(Fault::BodyTooLong);
    }
    let size = size as usize;
    let body = &mut walk.body;
    take_data(reader, buffer, piece, body, start + len, room - len, size)?;
    Ok(Step::Chunk(len + size + 2))
}

/// Takes the chunks that are left of a body that begins at `start`: then the walk stands at the last line, whose length this is.
///
/// `BadChunk` and `BodyTooLong` come as the definition says, and the faults of `fill`.
fn take_chunks<R: Source>(
    reader: &mut R,
    buffer: &mut Vec<u8>,
    piece: &mut Piece,
    walk: &mut Walk,
    start: usize,
) -> Result<usize, Fault>
    requires near { start ≤ max_head }
    requires stands { Stands start buffer.old.items walk.old }
    ensures stands { Stands start buffer.new.items walk.new }
    ensures grows { OnOk result (Grows (R.remaining reader.old) (R.failed reader.old) buffer.old.items (R.remaining reader.new) (R.failed reader.new) buffer.new.items) }
    ensures chunks { IfOk result (λ len. TakesChunks start walk.new.at len buffer.new.items walk.new.body.items) }
    ensures fault { IfErr result (λ fault. Blames (R.failed reader.new) (R.remaining reader.old) buffer.old.items (R.remaining reader.new) buffer.new.items fault (λ bytes f. BreaksChunked (drop start bytes) f)) }
    ensures kept { OnErr result (Keeps (pending buffer.old.items (R.remaining reader.old)) (pending buffer.new.items (R.remaining reader.new))) }
    ensures longer { Longer buffer.old.items buffer.new.items }
    ensures told { IfErr result (λ fault. fault ≢ Fault.Read → R.failed reader.new ≡ R.failed reader.old) }
    ensures same_stream { R.stream reader.new ≡ R.stream reader.old }
{
    'chunks: loop {
        match take_chunk(reader, buffer, piece, walk, MAX_RAW - (walk.at - start))? {
            Step::Chunk(len) => walk.pass(len),
            Step::Last(len) => return Ok(len),
        }
    }
}

/// The chunked body that begins at `start`, and where it ends. Its trailer is dropped. After a fault the walk is as far as it came.
///
/// `BadChunk` and `BodyTooLong` come as the definition says, and the faults of `fill`.
pub fn read_chunked<R: Source>(
    alloc: Global,
    reader: &mut R,
    buffer: &mut Vec<u8>,
    piece: &mut Piece,
    walk: &mut Walk,
    start: usize,
) -> Result<(Vec<u8>, usize), Fault>
    requires near { start ≤ max_head }
    requires stands { Stands start buffer.old.items walk.old }
    ensures stands { OnErr result (Stands start buffer.new.items walk.new) }
    ensures grows { OnOk result (Grows (R.remaining reader.old) (R.failed reader.old) buffer.old.items (R.remaining reader.new) (R.failed reader.new) buffer.new.items) }
    ensures body { IfOk result (λ r. (more : List ℕ) → ReadsChunked (drop start (buffer.new.items ++ more)) r.0.items (drop r.1 buffer.new.items ++ more)) }
    ensures inside { IfOk result (λ r. r.1 ≤ vec_len buffer.new) }
    ensures fault { IfErr result (λ fault. Blames (R.failed reader.new) (R.remaining reader.old) buffer.old.items (R.remaining reader.new) buffer.new.items fault (λ bytes f. BreaksChunked (drop start bytes) f)) }
    ensures kept { OnErr result (Keeps (pending buffer.old.items (R.remaining reader.old)) (pending buffer.new.items (R.remaining reader.new))) }
    ensures longer { Longer buffer.old.items buffer.new.items }
    ensures told { IfErr result (λ fault. fault ≢ Fault.Read → R.failed reader.new ≡ R.failed reader.old) }
    ensures same_stream { R.stream reader.new ≡ R.stream reader.old }
{
    let len = take_chunks(reader, buffer, piece, walk, start)?;
    let behind = walk.at + len;
    let trailer = find_trailer(reader, buffer, piece, behind, MAX_RAW - (behind - start))?;
    Ok((
        mem::replace(&mut walk.body, Vec::new(alloc)),
        behind + trailer,
    ))
}
