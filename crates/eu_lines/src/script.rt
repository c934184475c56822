//! A script from its first byte to its end.
ghost use Rattle.std.specs.Prelude.{◌≡◌, ◌≢◌, ◌≤◌, ◌<◌, ◌^◌, ℕ, List, Option, IfErr, IfOk, OnOk, vec_len};
ghost use Rattle.std.specs.Io.KnownBytes.{Consumes};
ghost use Rattle.eu_lines.specs.Script.{Wrote, Outcome, place};

use crate::run::{Cutter, take_chunk, take_end};
use crate::{Answerer, Limits, ScriptFault};
use eu_stream::{Sink, Source};
use std::alloc::{AllocError, Global};

/// So many bytes are read at once.
const CHUNK: usize = 65_536;

/// Room for so many bytes.
fn room_for(alloc: Global, len: usize) -> Result<Vec<u8>, AllocError>
    ensures { IfOk result (λ room. vec_len room ≡ len) }
{
    vec![in alloc; 0u8; len]
}

/// Answers a text of lines: reads it to its end, has its lines answered one after the other, and writes what they print.
///
/// Lines end with LF, and the last one may end with the text. An empty line prints nothing. Each read's whole lines are
/// answered, and what they print is written and flushed, before the next read. A text that is longer than `limits` allow has
/// the lines answered whose LF is within them, and then the fault is `Read`.
///
/// `BadLine` comes where a line is longer than `limits` allow, or the answerer finds it bad, once its end is
/// known; `Read` where a read failed, or the text is too long; `Write` where a write or a flush failed; and
/// `OutOfMemory` where there was no memory, for which the line prints nothing. Before `BadLine`, `Read` and
/// `OutOfMemory` what the lines before it print is written and flushed. After any of them more may have been
/// read than was answered. After `BadLine` and `Read` `context` is as the answered lines left it; after `Write`
/// and `OutOfMemory` it's left open, since a line that found no memory may have used it.
pub fn answer_lines<R: Source, W: Sink, X, D: Answerer<X>>(
    alloc: Global,
    limits: Limits,
    reader: &mut R,
    writer: &mut W,
    desk: &mut D,
    context: &mut X,
) -> Result<(), ScriptFault>
    requires { (limits.line < 2 ^ 62) × (limits.text < 2 ^ 62) }
    ensures answered { (read : List ℕ) × Consumes (R.remaining reader.old) (R.remaining reader.new) read
        × Wrote (W.contents writer.old) (W.contents writer.new)
        (Outcome limits D.answers D.refuses (place desk.old context.old) (place desk.new context.new)
        (record { read = read; left = R.remaining reader.new; reader_failed = R.failed reader.new; writer_failed = W.failed writer.new }) result) }
    ensures sound_reader { OnOk result (R.failed reader.new ≡ R.failed reader.old) }
    ensures sound_writer { OnOk result (W.failed writer.new ≡ W.failed writer.old) }
    ensures told_reader { IfErr result (λ fault. fault ≢ ScriptFault.Read → R.failed reader.new ≡ R.failed reader.old) }
    ensures told_writer { IfErr result (λ fault. fault ≢ ScriptFault.Write → W.failed writer.new ≡ W.failed writer.old) }
    ensures same_reader { R.stream reader.new ≡ R.stream reader.old }
    ensures same_writer { W.stream writer.new ≡ W.stream writer.old }
{
    let mut run = Cutter::new(alloc);
    let mut chunk = room_for(alloc, CHUNK)?;
    let mut taken = 0;
    'reads: while taken <= limits.text {
        let count = reader.read_some(chunk.as_mut_slice())?;
        if count == 0 {
            return take_end(alloc, limits, &mut run, desk, context, writer);
        }
        let fresh = count.min(limits.text - taken);
        take_chunk(
            alloc,
            limits,
            &mut run,
            desk,
            context,
            writer,
            &chunk[..fresh],
        )?;
        taken += count;
    }
    Err(ScriptFault::Read)
}
