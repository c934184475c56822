//! A script under way: one line after the other.
ghost use Rattle.std.specs.Prelude.{◌≡◌, ◌≢◌, ◌≤◌, ◌<◌, ◌^◌, ◌+◌, ◌++◌, ℕ, List, [], length, take, true, OnOk, OnErr, IfErr, Err};
ghost use Rattle.std.specs.Io.KnownBytes.{Appends};
ghost use Rattle.eu_lines.specs.Lines.{HasNoEnd, IsKept};
ghost use Rattle.eu_lines.specs.Script.{Prints, IsBad, place};
ghost use Rattle.eu_lines.specs.Steps.{Adds, Takes, StopsAdding, StopsTaking, standing};

use crate::faults::fault_at;
use crate::lines::{cut, keep};
use crate::{Answerer, Limits, LineError, ScriptFault};
use eu_stream::{Sink, WriteFault, write_whole};
use std::alloc::Global;

/// So many bytes of text wait before they are written.
const BLOCK: usize = 65_536;

/// What cuts a text into lines: what it keeps between one line and the next.
#[derive(Drop)]
pub struct Cutter {
    /// The line that hasn't ended: all of it, or of one that is too long more than a line may have.
    partial: Vec<u8>,
    /// How many lines were answered.
    number: u64,
    /// Room for what one line prints.
    one: String,
    /// What the lines printed and isn't written yet.
    waiting: Vec<u8>,
}

impl Cutter {
    /// At the start of a script.
    pub fn new(alloc: Global) -> Cutter
        ensures kept { result.partial.items ≡ [] }
        ensures number { result.number ≡ 0 }
        ensures waiting { result.waiting.items ≡ [] }
    {
        Cutter {
            partial: Vec::new(alloc),
            number: 0,
            one: String::new(alloc),
            waiting: Vec::new(alloc),
        }
    }
}

/// Answers one line of any length, and puts what it prints to the end of `waiting`. `one` is room for it.
fn answer_line<X, D: Answerer<X>>(
    alloc: Global,
    limits: Limits,
    desk: &mut D,
    context: &mut X,
    line: &[u8],
    one: &mut String,
    waiting: &mut Vec<u8>,
) -> Result<(), LineError>
    ensures ok { OnOk result ((out : List ℕ) × Prints limits D.answers (place desk.old context.old) line.now out (place desk.new context.new) × (waiting.new.items ≡ waiting.old.items ++ out)) }
    ensures bad { result ≡ Err LineError.Bad → IsBad limits D.refuses (place desk.old context.old) line.now }
    ensures same_context { result ≡ Err LineError.Bad → context.new ≡ context.old }
    ensures err { OnErr result (waiting.new.items ≡ waiting.old.items) }
{
    if line.is_empty() {
        return Ok(());
    }
    if line.len() > limits.line {
        return Err(LineError::Bad);
    }
    one.clear();
    desk.answer(alloc, context, line, one)?;
    waiting.extend_from_slice(one.as_bytes())?;
    Ok(())
}

/// Answers the line that ends with this part.
fn answer_part<X, D: Answerer<X>>(
    alloc: Global,
    limits: Limits,
    run: &mut Cutter,
    desk: &mut D,
    context: &mut X,
    part: &[u8],
) -> Result<(), LineError>
    requires room { run.old.number < 2 ^ 63 }
    requires bounded { limits.line < 2 ^ 62 }
    ensures ok { OnOk result ((line : List ℕ) → IsKept limits.line run.old.partial.items line
        → ((out : List ℕ) × Prints limits D.answers (place desk.old context.old) (line ++ part.now) out (place desk.new context.new) × (run.new.waiting.items ≡ run.old.waiting.items ++ out))) }
    ensures kept { OnOk result (run.new.partial.items ≡ []) }
    ensures number { OnOk result (run.new.number ≡ run.old.number + 1) }
    ensures bad { result ≡ Err LineError.Bad → (line : List ℕ) → IsKept limits.line run.old.partial.items line → IsBad limits D.refuses (place desk.old context.old) (line ++ part.now) }
    ensures same_context { result ≡ Err LineError.Bad → context.new ≡ context.old }
    ensures err { OnErr result ((run.new.waiting.items ≡ run.old.waiting.items) × (run.new.number ≡ run.old.number)) }
{
    if run.partial.is_empty() {
        answer_line(
            alloc,
            limits,
            desk,
            context,
            part,
            &mut run.one,
            &mut run.waiting,
        )?;
    } else {
        keep(&mut run.partial, limits.line, part)?;
        let line = run.partial.as_slice();
        answer_line(
            alloc,
            limits,
            desk,
            context,
            line,
            &mut run.one,
            &mut run.waiting,
        )?;
        run.partial.clear();
    }
    run.number += 1;
    Ok(())
}

/// Writes what waits.
fn write_waiting<W: Sink>(writer: &mut W, waiting: &mut Vec<u8>) -> Result<(), WriteFault>
    ensures ok { OnOk result (Appends (W.contents writer.old) (W.contents writer.new) waiting.old.items) }
    ensures none { OnOk result (waiting.new.items ≡ []) }
    ensures err { OnErr result ((k : ℕ) × Appends (W.contents writer.old) (W.contents writer.new) (take k waiting.old.items)) }
    ensures sound { OnOk result (W.failed writer.new ≡ W.failed writer.old) }
    ensures failed { OnErr result (W.failed writer.new ≡ true) }
    ensures same_stream { W.stream writer.new ≡ W.stream writer.old }
{
    write_whole(writer, waiting.as_slice())?;
    waiting.clear();
    Ok(())
}

/// Writes what waits, and flushes it.
fn write_out<W: Sink>(writer: &mut W, waiting: &mut Vec<u8>) -> Result<(), WriteFault>
    ensures ok { OnOk result (Appends (W.contents writer.old) (W.contents writer.new) waiting.old.items) }
    ensures none { OnOk result (waiting.new.items ≡ []) }
    ensures err { OnErr result ((k : ℕ) × Appends (W.contents writer.old) (W.contents writer.new) (take k waiting.old.items)) }
    ensures sound { OnOk result (W.failed writer.new ≡ W.failed writer.old) }
    ensures failed { OnErr result (W.failed writer.new ≡ true) }
    ensures same_stream { W.stream writer.new ≡ W.stream writer.old }
{
    write_waiting(writer, waiting)?;
    writer.flush()
}

/// Answers the line that ends with this part. Where it isn't answered, the lines before it are written.
pub fn take_line<W: Sink, X, D: Answerer<X>>(
    alloc: Global,
    limits: Limits,
    run: &mut Cutter,
    desk: &mut D,
    context: &mut X,
    writer: &mut W,
    part: &[u8],
) -> Result<(), ScriptFault>
    requires room { run.old.number < 2 ^ 63 }
    requires bounded { limits.line < 2 ^ 62 }
    ensures ok { OnOk result (Adds limits D.answers (standing run.old desk.old context.old (W.contents writer.old)) part.now (standing run.new desk.new context.new (W.contents writer.new))) }
    ensures kept { OnOk result (run.new.partial.items ≡ []) }
    ensures number { OnOk result (run.new.number ≡ run.old.number + 1) }
    ensures err { IfErr result (StopsAdding limits D.answers D.refuses (standing run.old desk.old context.old (W.contents writer.old)) part.now (record { context = context.new; holds = W.contents writer.new; failed = W.failed writer.new })) }
    ensures sound { OnOk result (W.failed writer.new ≡ W.failed writer.old) }
    ensures told { IfErr result (λ fault. fault ≢ ScriptFault.Write → W.failed writer.new ≡ W.failed writer.old) }
    ensures same_stream { W.stream writer.new ≡ W.stream writer.old }
{
    if let Err(error) = answer_part(alloc, limits, run, desk, context, part) {
        write_out(writer, &mut run.waiting)?;
        return Err(fault_at(error, run.number + 1));
    }
    if run.waiting.len() >= BLOCK {
        write_waiting(writer, &mut run.waiting)?;
    }
    Ok(())
}

/// Answers the lines that end in this part of the text, writes and flushes what they print, and keeps the rest.
pub fn take_chunk<W: Sink, X, D: Answerer<X>>(
    alloc: Global,
    limits: Limits,
    run: &mut Cutter,
    desk: &mut D,
    context: &mut X,
    writer: &mut W,
    chunk: &[u8],
) -> Result<(), ScriptFault>
    requires room { run.old.number + length chunk.now < 2 ^ 63 }
    requires bounded { limits.line < 2 ^ 62 }
    ensures ok { OnOk result (Takes limits D.answers (standing run.old desk.old context.old (W.contents writer.old)) chunk.now (standing run.new desk.new context.new (W.contents writer.new))) }
    ensures written { OnOk result (run.new.waiting.items ≡ []) }
    ensures number { OnOk result (run.new.number ≤ run.old.number + length chunk.now) }
    ensures err { IfErr result (StopsTaking limits D.answers D.refuses (standing run.old desk.old context.old (W.contents writer.old)) chunk.now (record { context = context.new; holds = W.contents writer.new; failed = W.failed writer.new })) }
    ensures sound { OnOk result (W.failed writer.new ≡ W.failed writer.old) }
    ensures told { IfErr result (λ fault. fault ≢ ScriptFault.Write → W.failed writer.new ≡ W.failed writer.old) }
    ensures same_stream { W.stream writer.new ≡ W.stream writer.old }
{
    let mut rest = chunk;
    'lines: while let Some((part, after)) = cut(rest) {
        take_line(alloc, limits, run, desk, context, writer, part)?;
        rest = after;
    }
    let partial = keep(&mut run.partial, limits.line, rest);
    write_out(writer, &mut run.waiting)?;
    Ok(partial?)
}

/// Answers the last line, at the end of the text, and writes and flushes what it prints.
pub fn take_end<W: Sink, X, D: Answerer<X>>(
    alloc: Global,
    limits: Limits,
    run: &mut Cutter,
    desk: &mut D,
    context: &mut X,
    writer: &mut W,
) -> Result<(), ScriptFault>
    requires room { run.old.number < 2 ^ 63 }
    requires bounded { limits.line < 2 ^ 62 }
    ensures ok { OnOk result (Adds limits D.answers (standing run.old desk.old context.old (W.contents writer.old)) [] (standing run.new desk.new context.new (W.contents writer.new))) }
    ensures written { OnOk result (run.new.waiting.items ≡ []) }
    ensures err { IfErr result (StopsAdding limits D.answers D.refuses (standing run.old desk.old context.old (W.contents writer.old)) [] (record { context = context.new; holds = W.contents writer.new; failed = W.failed writer.new })) }
    ensures sound { OnOk result (W.failed writer.new ≡ W.failed writer.old) }
    ensures told { IfErr result (λ fault. fault ≢ ScriptFault.Write → W.failed writer.new ≡ W.failed writer.old) }
    ensures same_stream { W.stream writer.new ≡ W.stream writer.old }
{
    take_line(alloc, limits, run, desk, context, writer, &[])?;
    write_out(writer, &mut run.waiting)?;
    Ok(())
}
