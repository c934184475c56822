//! The body of a request.
ghost use Rattle.std.specs.Prelude.{◌≡◌, ◌≢◌, ◌≤◌, ◌++◌, List, ℕ, IfOk, IfErr, OnOk, OnErr, drop, vec_len};
ghost use Rattle.std.specs.Io.KnownBytes.{Keeps};
ghost use Rattle.eu_framing.specs.Fields.{IsWithin};
ghost use Rattle.eu_framing.specs.Message.{ReadsSized, BreaksSized, ReadsBody, BreaksBody, max_head, pending};
ghost use Rattle.eu_framing.specs.Walking.{Stands};
ghost use Rattle.eu_framing.specs.Reading.{Grows, Blames, Longer};

use crate::MAX_BODY;
use crate::buffer::{Piece, fill_to};
use crate::chunks::read_chunked;
use crate::fields::Framing;
use crate::walk::Walk;
use eu_base::Fault;
use eu_stream::Source;
use std::alloc::Global;

/// The body of so many bytes that begins at `start`, and where it ends.
///
/// `BadLength` comes where the bytes end inside it, and the faults of `fill`.
fn read_sized<R: Source>(
    alloc: Global,
    reader: &mut R,
    buffer: &mut Vec<u8>,
    piece: &mut Piece,
    start: usize,
    len: usize,
) -> Result<(Vec<u8>, usize), Fault>
    requires within { start ≤ vec_len buffer.old }
    requires near { start ≤ max_head }
    requires short { len ≤ MAX_BODY }
    ensures grows { OnOk result (Grows (R.remaining reader.old) (R.failed reader.old) buffer.old.items (R.remaining reader.new) (R.failed reader.new) buffer.new.items) }
    ensures body { IfOk result (λ r. (more : List ℕ) → ReadsSized len (drop start (buffer.new.items ++ more)) r.0.items (drop r.1 buffer.new.items ++ more)) }
    ensures inside { IfOk result (λ r. r.1 ≤ vec_len buffer.new) }
    ensures fault { IfErr result (λ fault. Blames (R.failed reader.new) (R.remaining reader.old) buffer.old.items (R.remaining reader.new) buffer.new.items fault (λ bytes f. BreaksSized len (drop start bytes) f)) }
    ensures kept { OnErr result (Keeps (pending buffer.old.items (R.remaining reader.old)) (pending buffer.new.items (R.remaining reader.new))) }
    ensures longer { Longer buffer.old.items buffer.new.items }
    ensures told { IfErr result (λ fault. fault ≢ Fault.Read → R.failed reader.new ≡ R.failed reader.old) }
    ensures same_stream { R.stream reader.new ≡ R.stream reader.old }
{
    let end = start + len;
    if !fill_to(reader, buffer, piece, end)? {
        return Err(Fault::BadLength);
    }
    Ok((Vec::from_slice(alloc, &buffer[start..end])?, end))
}

/// The body of that framing that begins at `start`, and where it ends. After a fault the walk is as far as it came.
///
/// The faults are those of the framing, and those of `fill`.
pub fn read_body<R: Source>(
    alloc: Global,
    reader: &mut R,
    buffer: &mut Vec<u8>,
    piece: &mut Piece,
    walk: &mut Walk,
    start: usize,
    framing: Framing,
) -> Result<(Vec<u8>, usize), Fault>
    requires within { start ≤ vec_len buffer.old }
    requires near { start ≤ max_head }
    requires short { IsWithin framing }
    requires stands { Stands start buffer.old.items walk.old }
    ensures stands { OnErr result (Stands start buffer.new.items walk.new) }
    ensures grows { OnOk result (Grows (R.remaining reader.old) (R.failed reader.old) buffer.old.items (R.remaining reader.new) (R.failed reader.new) buffer.new.items) }
    ensures body { IfOk result (λ r. (more : List ℕ) → ReadsBody framing (drop start (buffer.new.items ++ more)) r.0.items (drop r.1 buffer.new.items ++ more)) }
    ensures inside { IfOk result (λ r. r.1 ≤ vec_len buffer.new) }
    ensures fault { IfErr result (λ fault. Blames (R.failed reader.new) (R.remaining reader.old) buffer.old.items (R.remaining reader.new) buffer.new.items fault (λ bytes f. BreaksBody framing (drop start bytes) f)) }
    ensures kept { OnErr result (Keeps (pending buffer.old.items (R.remaining reader.old)) (pending buffer.new.items (R.remaining reader.new))) }
    ensures longer { Longer buffer.old.items buffer.new.items }
    ensures told { IfErr result (λ fault. fault ≢ Fault.Read → R.failed reader.new ≡ R.failed reader.old) }
    ensures same_stream { R.stream reader.new ≡ R.stream reader.old }
{
    match framing {
        Framing::NoBody => Ok((Vec::new(alloc), start)),
        Framing::Sized(len) => read_sized(alloc, reader, buffer, piece, start, len as usize),
        Framing::Chunked => read_chunked(alloc, reader, buffer, piece, walk, start),
    }
}
