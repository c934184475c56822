//! Journals whose reader fails at each place in turn, and audits whose writer does.
use crate::tests::reading::LINES;
use eu_fixtures::{Brittle, KINDS, Torn, reads_of, text_of};
use eu_journal_audit::{AuditFault, answer_journal_audit, run_journal_audit};
use std::alloc::{AllocError, Global};
use std::io::ErrorKind;
use std::test::Fail;

/// The audit of the journal: a run of three entries.
pub const VERDICT: &[u8] = b"audit yes 3\n";

/// Whether an audit over std's readers ends so, and nothing is asked of its writer.
fn stays_silent(alloc: Global, mut reader: Torn<'_>, wanted: AuditFault) -> bool {
    let mut writer = Brittle::steady(alloc);
    let ended = run_journal_audit(alloc, &mut reader, &mut writer);
    ended == Err(wanted) && writer.is(0, b"")
}

/// Whether an audit over std's readers tells the verdict.
fn is_told(alloc: Global, mut reader: Torn<'_>) -> bool {
    let mut writer = Brittle::steady(alloc);
    let ended = run_journal_audit(alloc, &mut reader, &mut writer);
    ended == Ok(true) && writer.is(2, VERDICT)
}

/// The first read whose failure, by an error of that kind, isn't told as one before anything is written; none also where the audit goes on
/// whole once no read fails.
fn wrong_read(alloc: Global, text: &[u8], size: usize, kind: ErrorKind) -> Option<usize> {
    let reads = reads_of(text.len(), size);
    for fails_at in 0..reads {
        let reader = Torn::new(text, size, fails_at, kind);
        if !stays_silent(alloc, reader, AuditFault::Read) {
            return Some(fails_at);
        }
    }
    if is_told(alloc, Torn::new(text, size, reads, kind)) {
        None
    } else {
        Some(reads)
    }
}

#[test]
fn a_failed_read_of_a_journal_is_told(rt: HostRuntime) -> Result<(), Fail> {
    let text = text_of(rt.alloc(), LINES.as_slice())?;
    for size in [16, 300, 4_096] {
        let wrong = wrong_read(rt.alloc(), text.as_bytes(), size, ErrorKind::BrokenPipe);
        assert!(rt; wrong.is_none(), "by {size}");
    }
    Ok(())
}

#[test]
fn each_failed_read_of_a_journal_is_told_alike(rt: HostRuntime) -> Result<(), Fail> {
    let text = text_of(rt.alloc(), LINES.as_slice())?;
    for kind in KINDS {
        assert!(rt; wrong_read(rt.alloc(), text.as_bytes(), 300, kind).is_none());
    }
    Ok(())
}

/// Whether a read that is interrupted so often is tried again, whichever it is.
fn goes_on(alloc: Global, text: &[u8], failures: usize) -> bool {
    for fails_at in 0..reads_of(text.len(), 300) {
        let mut reader = Torn::new(text, 300, fails_at, ErrorKind::Interrupted);
        reader.failures = failures;
        if !is_told(alloc, reader) {
            return false;
        }
    }
    true
}

/// Whether a read that is interrupted sixteen times is told as one that failed, whichever it is.
fn gives_up(alloc: Global, text: &[u8]) -> bool {
    for fails_at in 0..reads_of(text.len(), 300) {
        let mut reader = Torn::new(text, 300, fails_at, ErrorKind::Interrupted);
        reader.failures = 16;
        if !stays_silent(alloc, reader, AuditFault::Read) {
            return false;
        }
    }
    true
}

#[test]
fn an_interrupted_read_of_a_journal_is_tried_again(rt: HostRuntime) -> Result<(), Fail> {
    let text = text_of(rt.alloc(), LINES.as_slice())?;
    assert!(rt; goes_on(rt.alloc(), text.as_bytes(), 1));
    assert!(rt; goes_on(rt.alloc(), text.as_bytes(), 15));
    assert!(rt; gives_up(rt.alloc(), text.as_bytes()));
    Ok(())
}

/// The text whose line of this number, from 0, says nothing, and where that line ends.
fn spoiled(alloc: Global, number: usize) -> Result<(String, usize), AllocError> {
    let lines = LINES.as_slice();
    let number = number.min(lines.len());
    let mut text = text_of(alloc, &lines[..number])?;
    text.push_str("{}\n")?;
    let end = text.len();
    let behind = text_of(alloc, &lines[number.saturating_add(1).min(lines.len())..])?;
    text.push_str(behind.as_str())?;
    Ok((text, end))
}

/// What an audit is to tell that fails at a read, where so many bytes come before, and the line of this number, from 0, is bad and ends there.
fn fault_behind(bytes: usize, end: usize, number: usize) -> AuditFault {
    if bytes < end {
        AuditFault::Read
    } else {
        AuditFault::BadLine((number as u64).saturating_add(1))
    }
}

/// The first read whose failure is told otherwise, by pieces of a size, of a text whose line of this number is bad.
fn wrong_fault(alloc: Global, number: usize, size: usize) -> Result<Option<usize>, AllocError> {
    let (text, end) = spoiled(alloc, number)?;
    for fails_at in 0..=reads_of(text.len(), size) {
        let wanted = fault_behind(size.saturating_mul(fails_at), end, number);
        let reader = Torn::new(text.as_bytes(), size, fails_at, ErrorKind::InvalidData);
        if !stays_silent(alloc, reader, wanted) {
            return Ok(Some(fails_at));
        }
    }
    Ok(None)
}

#[test]
fn a_bad_line_of_a_journal_comes_before_a_later_read(rt: HostRuntime) -> Result<(), Fail> {
    for number in 0..LINES.len() {
        assert!(rt; wrong_fault(rt.alloc(), number, 100)?.is_none(), "{number}");
    }
    assert!(rt; wrong_fault(rt.alloc(), 3, 16)?.is_none());
    Ok(())
}

/// The first read whose failure is told otherwise than as one, of a journal that isn't whole; none also where that it isn't is told once no
/// read fails.
fn wrong_end(alloc: Global, text: &[u8], size: usize) -> Option<usize> {
    let reads = reads_of(text.len(), size);
    for fails_at in 0..=reads {
        let wanted = if fails_at < reads {
            AuditFault::Read
        } else {
            AuditFault::EndsEarly
        };
        let reader = Torn::new(text, size, fails_at, ErrorKind::UnexpectedEof);
        if !stays_silent(alloc, reader, wanted) {
            return Some(fails_at);
        }
    }
    None
}

#[test]
fn a_failed_read_is_no_end_of_a_journal(rt: HostRuntime) -> Result<(), Fail> {
    let lines = LINES.as_slice();
    for count in 0..lines.len() {
        let text = text_of(rt.alloc(), &lines[..count])?;
        assert!(rt;
            wrong_end(rt.alloc(), text.as_bytes(), 300).is_none(),
            "{count}"
        );
    }
    Ok(())
}

/// Whether an audit over a source and a sink ends so, and its sink was asked for so many writes and flushes, and holds this.
fn answers(
    alloc: Global,
    mut reader: Torn<'_>,
    mut writer: Brittle,
    wanted: Result<bool, AuditFault>,
    calls: usize,
    held: &[u8],
) -> bool {
    let ended = answer_journal_audit(alloc, &mut reader, &mut writer);
    ended == wanted && writer.is(calls, held)
}

/// The first read of a source whose failure isn't told as one before anything is written, also where the first write would fail.
fn wrong_source(alloc: Global, text: &[u8], size: usize) -> Option<usize> {
    for fails_at in 0..reads_of(text.len(), size) {
        let reader = Torn::new(text, size, fails_at, ErrorKind::Other);
        let writer = Brittle::new(alloc, 1, 0, None);
        if !answers(alloc, reader, writer, Err(AuditFault::Read), 0, b"") {
            return Some(fails_at);
        }
    }
    None
}

#[test]
fn a_failed_source_of_a_journal_is_told(rt: HostRuntime) -> Result<(), Fail> {
    let text = text_of(rt.alloc(), LINES.as_slice())?;
    for size in [16, 300, 4_096] {
        let wrong = wrong_source(rt.alloc(), text.as_bytes(), size);
        assert!(rt; wrong.is_none(), "by {size}");
    }
    Ok(())
}

/// How many bytes a writer takes at once, with the number of writes and flushes of an audit: the line has twelve bytes, and is flushed once.
const WRITES: [(usize, usize); 3] = [(1, 13), (5, 4), (100, 2)];

/// How many bytes of the line are written before the write of this number, from 0, by so many at once.
fn written_before(size: usize, number: usize) -> &'static [u8] {
    &VERDICT[..size.saturating_mul(number).min(VERDICT.len())]
}

/// The first write or flush of a sink whose failure is told otherwise, of so many.
fn wrong_sink(alloc: Global, text: &[u8], size: usize, calls: usize) -> Option<usize> {
    for fails_at in 0..calls {
        let reader = Torn::new(text, 1_000, usize::MAX, ErrorKind::Other);
        let writer = Brittle::new(alloc, size, fails_at, None);
        let (calls, held) = (fails_at.saturating_add(1), written_before(size, fails_at));
        if !answers(alloc, reader, writer, Err(AuditFault::Write), calls, held) {
            return Some(fails_at);
        }
    }
    let reader = Torn::new(text, 1_000, usize::MAX, ErrorKind::Other);
    let writer = Brittle::new(alloc, size, calls, None);
    if answers(alloc, reader, writer, Ok(true), calls, VERDICT) {
        None
    } else {
        Some(calls)
    }
}

#[test]
fn a_failed_sink_of_an_audit_is_told(rt: HostRuntime) -> Result<(), Fail> {
    let text = text_of(rt.alloc(), LINES.as_slice())?;
    for (size, calls) in WRITES {
        let wrong = wrong_sink(rt.alloc(), text.as_bytes(), size, calls);
        assert!(rt; wrong.is_none(), "by {size}");
    }
    Ok(())
}

/// Whether an audit over std's readers and writers ends at the write or flush of that number, with a front of the line written.
fn ends_at(alloc: Global, text: &[u8], mut writer: Brittle, size: usize, fails_at: usize) -> bool {
    let mut reader = text;
    let ended = run_journal_audit(alloc, &mut reader, &mut writer);
    ended == Err(AuditFault::Write)
        && writer.is(fails_at.saturating_add(1), written_before(size, fails_at))
}

/// The first write or flush of std's writers, of so many, that doesn't end an audit where it fails so.
fn wrong_write(
    alloc: Global,
    text: &[u8],
    size: usize,
    calls: usize,
    kind: Option<ErrorKind>,
) -> Option<usize> {
    for fails_at in 0..calls {
        let writer = Brittle::new(alloc, size, fails_at, kind);
        if !ends_at(alloc, text, writer, size, fails_at) {
            return Some(fails_at);
        }
    }
    None
}

#[test]
fn a_failed_write_of_an_audit_is_told(rt: HostRuntime) -> Result<(), Fail> {
    let text = text_of(rt.alloc(), LINES.as_slice())?;
    for (size, calls) in WRITES {
        let wrong = wrong_write(
            rt.alloc(),
            text.as_bytes(),
            size,
            calls,
            Some(ErrorKind::Other),
        );
        assert!(rt; wrong.is_none(), "by {size}");
    }
    for kind in KINDS {
        let wrong = wrong_write(rt.alloc(), text.as_bytes(), 5, 4, Some(kind));
        assert!(rt; wrong.is_none());
    }
    Ok(())
}

/// A flush takes nothing, so the writes alone can do that.
#[test]
fn a_write_of_an_audit_that_takes_nothing_is_told(rt: HostRuntime) -> Result<(), Fail> {
    let text = text_of(rt.alloc(), LINES.as_slice())?;
    for (size, calls) in WRITES {
        let wrong = wrong_write(
            rt.alloc(),
            text.as_bytes(),
            size,
            calls.saturating_sub(1),
            None,
        );
        assert!(rt; wrong.is_none(), "by {size}");
    }
    Ok(())
}
