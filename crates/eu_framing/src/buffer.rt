//! The buffer between a reader and what is made of its bytes.
ghost use Rattle.std.specs.Prelude.{◌≡◌, ◌≢◌, ◌≤◌, ◌<◌, ◌+◌, ℕ, List, Ok, true, false, length, drop, take, IfOk, IfErr, OnOk, OnErr, vec_len};
ghost use Rattle.std.specs.Io.KnownBytes.{IsAtEnd, Keeps};
ghost use Rattle.eu_framing.specs.Message.{pending};
ghost use Rattle.eu_framing.specs.Reading.{Grows, Fails, Longer};

use crate::MAX_FIELDS;
use eu_base::Fault;
use eu_stream::Source;
use httparse::spans::{EMPTY_HEADER_SPAN, HeaderSpan};

/// Room for the bytes that come with one read. What it holds before and after doesn't matter: it is only kept from read to read,
/// so that it needn't be made for each.
pub type Piece = [u8; 4096];

/// Room for what is read, and for where the fields of a head are. What it holds before and after doesn't matter: it is only kept
/// from request to request, so that it needn't be made for each.
#[derive(Drop)]
pub struct Room {
    pub(crate) piece: Piece,
    pub(crate) spans: [HeaderSpan; MAX_FIELDS],
}

/// A room that holds nothing yet.
pub const EMPTY_ROOM: Room = Room {
    piece: [0u8; 4096],
    spans: [EMPTY_HEADER_SPAN; MAX_FIELDS],
};

/// Reads once, to the end of the buffer, and tells how many bytes came: none only at the end.
///
/// `Read` comes where a read failed, and `OutOfMemory` where there was no memory for what might come: then nothing was read. After a
/// fault no byte is lost.
pub fn fill<R: Source>(
    reader: &mut R,
    buffer: &mut Vec<u8>,
    piece: &mut Piece,
) -> Result<usize, Fault>
    ensures grows { OnOk result (Grows (R.remaining reader.old) (R.failed reader.old) buffer.old.items (R.remaining reader.new) (R.failed reader.new) buffer.new.items) }
    ensures count { IfOk result (λ n. vec_len buffer.new ≡ vec_len buffer.old + n) }
    ensures end { IfOk result (λ n. n ≡ 0 → IsAtEnd (R.remaining reader.new)) }
    ensures fault { IfErr result (λ fault. Fails (R.failed reader.new) (R.remaining reader.old) buffer.old.items (R.remaining reader.new) buffer.new.items fault (λ bytes. bytes ≡ buffer.old.items)) }
    ensures kept { OnErr result (Keeps (pending buffer.old.items (R.remaining reader.old)) (pending buffer.new.items (R.remaining reader.new))) }
    ensures longer { Longer buffer.old.items buffer.new.items }
    ensures told { IfErr result (λ fault. fault ≢ Fault.Read → R.failed reader.new ≡ R.failed reader.old) }
    ensures same_stream { R.stream reader.new ≡ R.stream reader.old }
{
    buffer.reserve(piece.len())?;
    match reader.read_some(piece) {
        Ok(count) => {
            buffer.extend_from_slice(&piece[..count]).unwrap();
            Ok(count)
        }
        Err(_) => Err(Fault::Read),
    }
}

/// Reads until the buffer holds so many bytes, and tells whether they came before the end.
///
/// The faults are those of `fill`. After a fault no byte is lost.
pub fn fill_to<R: Source>(
    reader: &mut R,
    buffer: &mut Vec<u8>,
    piece: &mut Piece,
    wanted: usize,
) -> Result<bool, Fault>
    ensures grows { OnOk result (Grows (R.remaining reader.old) (R.failed reader.old) buffer.old.items (R.remaining reader.new) (R.failed reader.new) buffer.new.items) }
    ensures whole { result ≡ Ok true → wanted ≤ vec_len buffer.new }
    ensures cut { result ≡ Ok false → vec_len buffer.new < wanted }
    ensures end { result ≡ Ok false → IsAtEnd (R.remaining reader.new) }
    ensures fault { IfErr result (λ fault. Fails (R.failed reader.new) (R.remaining reader.old) buffer.old.items (R.remaining reader.new) buffer.new.items fault (λ bytes. length bytes < wanted)) }
    ensures kept { OnErr result (Keeps (pending buffer.old.items (R.remaining reader.old)) (pending buffer.new.items (R.remaining reader.new))) }
    ensures longer { Longer buffer.old.items buffer.new.items }
    ensures told { IfErr result (λ fault. fault ≢ Fault.Read → R.failed reader.new ≡ R.failed reader.old) }
    ensures same_stream { R.stream reader.new ≡ R.stream reader.old }
{
    'reads: while buffer.len() < wanted {
        if fill(reader, buffer, piece)? == 0 {
            return Ok(false);
        }
    }
    Ok(true)
}

/// The bytes behind a place, at most so many.
pub fn window(buffer: &[u8], start: usize, room: usize) -> &[u8]
    requires { start ≤ length buffer.now }
    ensures { result.now ≡ take room (drop start buffer.now) }
{
    let behind = &buffer[start..];
    &behind[..behind.len().min(room)]
}

/// Drops the first bytes of the buffer, once they are used.
pub fn drop_front(buffer: &mut Vec<u8>, used: usize)
    requires { used ≤ vec_len buffer.old }
    ensures { buffer.new.items ≡ drop used buffer.old.items }
{
    let left = buffer.len() - used;
    buffer.copy_within(used.., 0);
    buffer.truncate(left);
}
