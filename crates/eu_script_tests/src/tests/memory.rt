//! Want of memory. In a usual run no allocation is refused; `tools/sweep_memory.sh` refuses one after another. Each run has a reader and writers of its own.
use eu_base::Fault;
use eu_clock::FirstChooser;
use eu_fixtures::{are_so, settings};
use eu_lines::{LONGEST_LINE, ScriptFault};
use eu_script::{run_audit, run_script, run_script_with_journal};
use std::alloc::{AllocError, Global};

/// A script, with what each line prints: one peer is told of a client, and loses what it is told then; an instance is adopted; the settings are changed,
/// and an eviction comes. Between them are lines that are refused, for each fault but those of a limit.
pub const LINES: [(&str, &str); 25] = [
    ("open 0 1", "opened"),
    ("register 0 A i1 90 UP UNKNOWN 5 c", "204"),
    ("renew 1 A i1 - - c", "200"),
    ("renew 1 A i1 3 - r", "409 UP UNKNOWN 5"),
    ("drain 2 1", "refused 15"),
    ("drain 2 0", "batch 2 Register A i1 Heartbeat A i1"),
    ("drain 2 0", "refused 8"),
    ("landed 3 0 200", "refused 10"),
    ("landed 3 0 200 404", "landed"),
    ("drain 4 0", "batch 1 Register A i1"),
    ("lost 4 0", "lost"),
    ("lost 4 0", "refused 11"),
    ("set 5 A i1 OUT_OF_SERVICE - c", "200"),
    ("unset 6 A i1 UP - c", "200"),
    (
        "look 6 A i1",
        "found UP UNKNOWN dirty 5 secs 90 registered 0 up 0 updated 90006",
    ),
    ("adopt 7 A i2 90 UP UNKNOWN 7", "204"),
    (
        "page 7",
        "held 2\nexpected 0\nthreshold 0\nlast 0\npreservation on\npermitted no\nstatuses UP_2_",
    ),
    ("cancel 8 A i1 c", "200"),
    ("cancel 8 A i1 c", "404"),
    ("roll 9", "last 2"),
    ("update 9", "expected 1"),
    ("config 9 off 50 15 7", "200"),
    ("evict 1000000", "evicted 1 A i2"),
    (
        "counts 1000000",
        "held 0 expected 0 threshold 0 last 2 permitted yes",
    ),
    ("drain 1000000 0", "refused 9"),
];

/// What is told of the 16 lines that are steps.
pub const VERDICT: &[u8] = b"audit yes 16\n";

pub fn script(alloc: Global) -> Result<String, AllocError> {
    let mut text = String::new(alloc);
    for (line, _) in LINES {
        text.push_str(line)?;
        text.push_str("\n")?;
    }
    Ok(text)
}

/// How many lines printed a text in whole; none where something else stands there.
fn lines(text: &str) -> Option<usize> {
    let mut rest = text;
    let mut count = 0usize;
    for (_, printed) in LINES {
        if rest.is_empty() {
            break;
        }
        rest = rest.strip_prefix(printed)?.strip_prefix("\n")?;
        count = count.saturating_add(1);
    }
    if rest.is_empty() { Some(count) } else { None }
}

/// How many lines printed what a writer holds.
fn printed(out: &[u8]) -> Option<usize> {
    lines(str::from_utf8(out).unwrap_or("?"))
}

/// Whether a script prints all its lines. `OutOfMemory` where want of memory ends it, behind whole lines. Its output has room before.
fn is_run(alloc: Global) -> Result<bool, Fault> {
    let config = settings()?;
    let script = script(alloc)?;
    let mut out = Vec::with_capacity(alloc, 4096)?;
    let mut reader = script.as_bytes();
    let result = run_script(alloc, &mut reader, &mut out, config, &mut FirstChooser);
    match (result, printed(&out)) {
        (Ok(()), Some(count)) => Ok(count == LINES.len()),
        (Err(ScriptFault::OutOfMemory), Some(count)) if count < LINES.len() => {
            Err(Fault::OutOfMemory)
        }
        _ => Ok(false),
    }
}

#[test]
fn memory_script(rt: HostRuntime) {
    let alloc = rt.alloc();
    assert!(rt; are_so(is_run(alloc), is_run(alloc)));
}

/// The good lines that come before a bad one: as many of `LINES`.
const GOOD: &[u8] = b"open 0 1\nregister 0 A i1 90 UP UNKNOWN 5 c\n";

/// Bad lines, of each kind: one that says nothing or comes at a wrong time, words too few, too many or empty, and each field with a value that it hasn't.
const BAD: [&[u8]; 21] = [
    b"close",
    b"open 0 1",
    b"counts 1\r",
    b"renew 1 A i1 - c",
    b"cancel 1 A i1 c c",
    b"look 1  A i1",
    b"look 1  i1",
    b"look 1 A \xff",
    b"roll +1",
    b"roll 000000000000000000001",
    b"roll 4611686018427387905",
    b"register 1 A i2 2147484 UP UNKNOWN 5 c",
    b"register 1 A i2 90 up UNKNOWN 5 c",
    b"register 1 A i2 90 UP - 5 c",
    b"adopt 1 A i2 90 UP UNKNOWN 9223372036854775808",
    b"renew 1 A i1 - UNKNOWN p",
    b"config 1 no 50 15 7",
    b"config 1 off 101 15 7",
    b"config 1 off 50 0 7",
    b"drain 1 4294967296",
    b"landed 1 0 200 1000",
];

/// A script with a bad line behind these good ones, and another good one behind it.
fn bad_script(alloc: Global, bad: &[u8]) -> Result<Vec<u8>, AllocError> {
    let mut script = Vec::from_slice(alloc, GOOD)?;
    script.extend_from_slice(bad)?;
    script.extend_from_slice(b"\nrenew 1 A i1 - - c\n")?;
    Ok(script)
}

/// Whether the bad line ends that script, once the good ones before it are printed. `OutOfMemory` where want of memory ends it, behind whole lines.
fn is_told(alloc: Global, bad: &[u8]) -> Result<bool, Fault> {
    let config = settings()?;
    let script = bad_script(alloc, bad)?;
    let mut out = Vec::with_capacity(alloc, 64)?;
    let mut reader = script.as_slice();
    let result = run_script(alloc, &mut reader, &mut out, config, &mut FirstChooser);
    match (result, printed(&out)) {
        (Err(ScriptFault::BadLine(3)), Some(2)) => Ok(true),
        (Err(ScriptFault::OutOfMemory), Some(count)) if count <= 2 => Err(Fault::OutOfMemory),
        _ => Ok(false),
    }
}

/// The same of a line that is too long.
fn is_long_told(alloc: Global) -> Result<bool, Fault> {
    let long = vec![in alloc; b'x'; LONGEST_LINE + 1]?;
    is_told(alloc, long.as_slice())
}

#[test]
fn memory_bad_lines(rt: HostRuntime) {
    let alloc = rt.alloc();
    for bad in BAD {
        assert!(rt; are_so(is_told(alloc, bad), is_told(alloc, bad)));
    }
    assert!(rt; are_so(is_long_told(alloc), is_long_told(alloc)));
}

/// Whether a script's journal is found to be a run. `OutOfMemory` where want of memory is told, and nothing written.
fn is_judged(alloc: Global) -> Result<bool, Fault> {
    let config = settings()?;
    let script = script(alloc)?;
    let mut out = Vec::with_capacity(alloc, 64)?;
    let mut reader = script.as_bytes();
    let result = run_audit(alloc, &mut reader, &mut out, config, &mut FirstChooser);
    match result {
        Ok(is_run) => Ok(is_run && out.as_slice() == VERDICT),
        Err(ScriptFault::OutOfMemory) if out.is_empty() => Err(Fault::OutOfMemory),
        Err(_) => Ok(false),
    }
}

/// Whether a script with a bad line isn't judged, and nothing is written.
fn is_not_judged(alloc: Global) -> Result<bool, Fault> {
    let config = settings()?;
    let script = bad_script(alloc, b"close")?;
    let mut out = Vec::with_capacity(alloc, 64)?;
    let mut reader = script.as_slice();
    let result = run_audit(alloc, &mut reader, &mut out, config, &mut FirstChooser);
    match result {
        Err(ScriptFault::BadLine(3)) => Ok(out.is_empty()),
        Err(ScriptFault::OutOfMemory) if out.is_empty() => Err(Fault::OutOfMemory),
        _ => Ok(false),
    }
}

#[test]
fn memory_run_audit(rt: HostRuntime) {
    let alloc = rt.alloc();
    assert!(rt; are_so(is_judged(alloc), is_judged(alloc)));
    assert!(rt; are_so(is_not_judged(alloc), is_not_judged(alloc)));
}

/// Whether the script leaves a journal. `OutOfMemory` where there was no memory for it, or for the script, and none was written.
fn leaves_journal(alloc: Global) -> Result<bool, Fault> {
    let config = settings()?;
    let script = script(alloc)?;
    let mut out = Vec::with_capacity(alloc, 4096)?;
    let mut journal = Vec::with_capacity(alloc, 65_536)?;
    let mut reader = script.as_bytes();
    let result = run_script_with_journal(
        alloc,
        &mut reader,
        &mut out,
        &mut journal,
        config,
        &mut FirstChooser,
    );
    match (result, printed(&out)) {
        (Ok(()), Some(count)) => Ok(count == LINES.len() && !journal.is_empty()),
        (Err(ScriptFault::OutOfMemory), Some(_)) if journal.is_empty() => Err(Fault::OutOfMemory),
        _ => Ok(false),
    }
}

/// Whether a script with a bad line leaves no journal.
fn leaves_none(alloc: Global) -> Result<bool, Fault> {
    let config = settings()?;
    let script = bad_script(alloc, b"close")?;
    let mut out = Vec::with_capacity(alloc, 64)?;
    let mut journal = Vec::with_capacity(alloc, 64)?;
    let mut reader = script.as_slice();
    let result = run_script_with_journal(
        alloc,
        &mut reader,
        &mut out,
        &mut journal,
        config,
        &mut FirstChooser,
    );
    match (result, printed(&out)) {
        (Err(ScriptFault::BadLine(3)), Some(2)) => Ok(journal.is_empty()),
        (Err(ScriptFault::OutOfMemory), Some(_)) if journal.is_empty() => Err(Fault::OutOfMemory),
        _ => Ok(false),
    }
}

#[test]
fn memory_journal(rt: HostRuntime) {
    let alloc = rt.alloc();
    assert!(rt; are_so(leaves_journal(alloc), leaves_journal(alloc)));
    assert!(rt; are_so(leaves_none(alloc), leaves_none(alloc)));
}
