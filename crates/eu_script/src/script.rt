//! Scripts, from bytes to bytes.
ghost use Rattle.std.specs.Prelude.{ℕ, Bool, List, ◌≡◌, ◌≢◌, IfErr, OnOk};
ghost use Rattle.std.specs.Io.KnownBytes.{Consumes};
ghost use Rattle.eu_lines.specs.Script.{Wrote};
ghost use Rattle.eu_script.specs.ScriptDesk.{Leaves};
ghost use Rattle.eu_script.specs.Script.{ScriptRuns};

use crate::desk::ScriptDesk;
use eu_base::Config;
use eu_clock::Chooser;
use eu_lines::{Limits, ScriptFault, answer_lines};
use eu_stream::{Reading, Sink, Source, Writing};
use std::alloc::Global;
use std::io::{Read, Write};
use std::mem;

/// Has a desk answer a script to its end, as `answer_script` does and with its faults, and hands the desk out.
pub fn answer_whole<R: Source, W: Sink, C: Chooser>(
    alloc: Global,
    reader: &mut R,
    writer: &mut W,
    config: Config,
    chooser: &mut C,
) -> Result<ScriptDesk, ScriptFault>
    ensures leaves { (read : List ℕ) × Consumes (R.remaining reader.old) (R.remaining reader.new) read
        × Wrote (W.contents writer.old) (W.contents writer.new)
        (Leaves config C.asks chooser.old chooser.new
        (record { read = read; left = R.remaining reader.new; reader_failed = R.failed reader.new; writer_failed = W.failed writer.new }) result) }
    ensures sound_reader { OnOk result (R.failed reader.new ≡ R.failed reader.old) }
    ensures sound_writer { OnOk result (W.failed writer.new ≡ W.failed writer.old) }
    ensures told_reader { IfErr result (λ fault. fault ≢ ScriptFault.Read → R.failed reader.new ≡ R.failed reader.old) }
    ensures told_writer { IfErr result (λ fault. fault ≢ ScriptFault.Write → W.failed writer.new ≡ W.failed writer.old) }
    ensures same_reader { R.stream reader.new ≡ R.stream reader.old }
    ensures same_writer { W.stream writer.new ≡ W.stream writer.old }
{
    let mut desk = ScriptDesk::new(config);
    let limits = Limits::of_scripts();
    answer_lines(alloc, limits, reader, writer, &mut desk, chooser)?;
    Ok(desk)
}

/// Runs a script: reads lines to its end, has a registry with these settings answer them, and writes what they print.
///
/// Lines end with LF, and the last one may end with the text. An empty line prints nothing. In any other, words stand
/// between single spaces:
///
/// - `open N` or `open N P` opens the registry, which expects N clients and has P peers (none where P isn't told), and prints
///   `opened`. It stands once, before the others.
/// - `register T APP ID SECS STATUS OVR DIRTY SRC` registers an instance of this status and overridden status with a lease
///   of SECS seconds (0 stands for 90) and the stamp DIRTY (`-` stands for T), and prints `204`.
/// - `renew T APP ID DIRTY OVR SRC` renews a lease, and prints `200`, or `404` where none is held, or its status would be
///   UNKNOWN. Where DIRTY is greater than the held stamp, the lease is renewed but `404` is printed, and a peer's OVR other
///   than UNKNOWN and the override that there is becomes the overridden status. Where it is smaller and a peer sends it, the lease is renewed and
///   `409 STATUS OVERRIDDEN D` printed: the statuses and the stamp that are held. DIRTY and OVR may be `-`, for none.
/// - `cancel T APP ID SRC` ends a lease, and prints `200`, or `404` where none is held.
/// - `set T APP ID STATUS DIRTY SRC` renews a lease and has STATUS override the instance's own, and prints `200`, or `404`
///   where no lease is visible. Where STATUS is another than the instance's, a greater DIRTY replaces the held stamp; it
///   may be `-`, for none.
/// - `unset T APP ID STATUS DIRTY SRC` renews a lease and takes back the status that overrides the instance's own, which is
///   STATUS from now on (`-` stands for UNKNOWN), and then a greater DIRTY replaces the held stamp; where nothing overrides,
///   the lease is only renewed. What it prints is as for `set`.
/// - `adopt T APP ID SECS STATUS OVR DIRTY` takes over an instance that a peer holds: an OVR other than UNKNOWN becomes the
///   overridden status here, and then the instance is registered as by a peer. It prints `204`.
/// - `roll T` ends a minute, and prints `last N`: the renewals that were counted in it.
/// - `update T` counts the clients anew, and prints `expected N`: how many are expected from now on.
/// - `config T on P I M` or `config T off P I M` changes the settings: self-preservation on or off, the percentage P, the seconds I
///   between two renewals and the milliseconds M between two evictions. It prints `200`.
/// - `evict T` makes an eviction, and prints `evicted K` and the application and the id of each of the K victims, in the order in
///   which the chooser drew them.
/// - `drain T P` drops the tasks for the peer P that were queued more than 30 s before, has the first 250 of the others go in
///   flight to it, and prints `batch K` and the action, the application and the id of each of these K, in their order. An action
///   is `Register`, `Heartbeat`, `Cancel`, `StatusUpdate` or `DeleteStatusOverride`.
/// - `landed T P CODE ..` ends that flight, and prints `landed`: the peer answered the tasks by these HTTP statuses, one for each,
///   in their order. Where it answered a heartbeat by 404, the registration of that instance is queued, unless one of its key
///   waits.
/// - `lost T P` ends that flight, and prints `lost`: of its tasks, those that were queued no more than 30 s before and of whose
///   action and key none waits now wait again, before the others.
/// - `look T APP ID` prints `found STATUS OVERRIDDEN dirty D secs S registered R up U updated P`, or `404` where no lease
///   is visible: none is held, or it has expired and eviction is permitted.
/// - `counts T` prints `held H expected E threshold V last L permitted yes`, or `no`.
/// - `page T` prints the seven lines of the status page (`eu_page::status_page`), of what is held, expired or not.
///
/// T is a moment in milliseconds, up to 2^62. APP and ID have 1 to 255 bytes of UTF-8; APP's ASCII letters are put in
/// capitals. SECS is at most 2,147,483, and DIRTY at most 2^63 - 1. STATUS and OVR are `UP`, `DOWN`, `STARTING`,
/// `OUT_OF_SERVICE` or `UNKNOWN`. SRC is `c` for a client, and `r` for a peer that replicates. A number has 1 to 20
/// digits. There are 8 peers at most, which are numbered from 0; P in the other lines is below 2^32, and a CODE is 100 to 999.
/// Where a command is refused, the line prints `refused` and the fault's number, nothing changes, and the script goes on:
/// `refused 6` comes before every other where 2^62 commands were answered.
///
/// `BadLine` comes where a line is none of these, or has more than 4,096 bytes; `Read` where a read failed, or the script
/// has more than 16,777,216 bytes; `Write` where a write or a flush failed; and `OutOfMemory` where there was no memory
/// for a line's answer, which isn't printed. Before `BadLine`, `Read` and `OutOfMemory` the lines before are answered
/// and what they print is written. What the registry then holds is lost with it; at the end of a script its memory isn't given
/// back, since a program ends with its script. Only evictions ask `chooser`
/// for words: it is then as the lines that were answered left it, but after `Write` and `OutOfMemory` that is left open.
pub fn answer_script<R: Source, W: Sink, C: Chooser>(
    alloc: Global,
    reader: &mut R,
    writer: &mut W,
    config: Config,
    chooser: &mut C,
) -> Result<(), ScriptFault>
    ensures runs { (read : List ℕ) × Consumes (R.remaining reader.old) (R.remaining reader.new) read
        × Wrote (W.contents writer.old) (W.contents writer.new)
        (ScriptRuns config C.asks chooser.old chooser.new
        (record { read = read; left = R.remaining reader.new; reader_failed = R.failed reader.new; writer_failed = W.failed writer.new }) result) }
    ensures sound_reader { OnOk result (R.failed reader.new ≡ R.failed reader.old) }
    ensures sound_writer { OnOk result (W.failed writer.new ≡ W.failed writer.old) }
    ensures told_reader { IfErr result (λ fault. fault ≢ ScriptFault.Read → R.failed reader.new ≡ R.failed reader.old) }
    ensures told_writer { IfErr result (λ fault. fault ≢ ScriptFault.Write → W.failed writer.new ≡ W.failed writer.old) }
    ensures same_reader { R.stream reader.new ≡ R.stream reader.old }
    ensures same_writer { W.stream writer.new ≡ W.stream writer.old }
{
    let desk = answer_whole(alloc, reader, writer, config, chooser)?;
    mem::forget(desk);
    Ok(())
}

/// Runs a script as `answer_script` does, over any reader and writer of std.
///
/// A read, a write or a flush that a signal interrupts is tried up to 16 times. The contracts of std's traits don't tell
/// when a read or a write fails, so this one leaves open whether one did: `answer_script` tells it exactly.
pub fn run_script<R: Read, W: Write, C: Chooser>(
    alloc: Global,
    reader: &mut R,
    writer: &mut W,
    config: Config,
    chooser: &mut C,
) -> Result<(), ScriptFault>
    ensures { (read : List ℕ) × Consumes (R.remaining reader.old) (R.remaining reader.new) read
        × (reader_failed : Bool) × (writer_failed : Bool)
        × Wrote (W.contents writer.old) (W.contents writer.new)
        (ScriptRuns config C.asks chooser.old chooser.new
        (record { read = read; left = R.remaining reader.new; reader_failed = reader_failed; writer_failed = writer_failed }) result) }
{
    let mut reading = Reading::new(reader);
    let mut writing = Writing::new(writer);
    answer_script(alloc, &mut reading, &mut writing, config, chooser)
}
