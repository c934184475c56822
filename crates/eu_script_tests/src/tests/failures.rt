//! Scripts whose reader fails at each place in turn, and whose writer does.
use crate::tests::memory::{LINES, VERDICT, script};
use eu_base::Fault;
use eu_clock::FirstChooser;
use eu_fixtures::{Brittle, KINDS, Torn, reads_of, settings};
use eu_lines::ScriptFault;
use eu_script::{
    answer_audit, answer_script, answer_script_with_journal, run_audit, run_script,
    run_script_with_journal,
};
use std::alloc::{AllocError, Global};
use std::io::ErrorKind;
use std::test::Fail;

/// Which call runs the script, or audits it.
#[derive(Clone, Copy, PartialEq, Eq)]
enum Call {
    Run,
    RunWithJournal,
    Answer,
    AnswerWithJournal,
    RunAudit,
    AnswerAudit,
}

/// All of them.
const CALLS: [Call; 6] = [
    Call::Run,
    Call::RunWithJournal,
    Call::Answer,
    Call::AnswerWithJournal,
    Call::RunAudit,
    Call::AnswerAudit,
];

/// How a script or its audit ended, and what its writers hold. An audit ends with its answer, a script with yes.
#[derive(Drop)]
struct Came {
    ended: Result<bool, ScriptFault>,
    writer: Brittle,
    journal: Brittle,
}

impl Came {
    /// Whether it ended by a fault, with this printed and nothing asked of the journal.
    fn has_ended_by(&self, fault: ScriptFault, printed: &[u8]) -> bool {
        self.ended == Err(fault)
            && self.writer.held.as_slice() == printed
            && self.journal.is(0, b"")
    }
}

/// What comes of a script by that call.
fn came_of(
    alloc: Global,
    call: Call,
    mut reader: Torn<'_>,
    mut writer: Brittle,
    mut journal: Brittle,
) -> Result<Came, Fault> {
    let config = settings()?;
    let (r, w, j) = (&mut reader, &mut writer, &mut journal);
    let mut first = FirstChooser;
    let c = &mut first;
    let ended = match call {
        Call::Run => run_script(alloc, r, w, config, c).map(|()| true),
        Call::RunWithJournal => run_script_with_journal(alloc, r, w, j, config, c).map(|()| true),
        Call::Answer => answer_script(alloc, r, w, config, c).map(|()| true),
        Call::AnswerWithJournal => {
            answer_script_with_journal(alloc, r, w, j, config, c).map(|()| true)
        }
        Call::RunAudit => run_audit(alloc, r, w, config, c),
        Call::AnswerAudit => answer_audit(alloc, r, w, config, c),
    };
    Ok(Came {
        ended,
        writer,
        journal,
    })
}

/// What the lines print that end in these bytes of the script.
fn printed_by(alloc: Global, bytes: &[u8]) -> Result<String, AllocError> {
    let count = bytes.iter().filter(|byte| **byte == b'\n').count();
    let mut text = String::new(alloc);
    for (_, printed) in &LINES[..count.min(LINES.len())] {
        text.push_str(printed)?;
        text.push_str("\n")?;
    }
    Ok(text)
}

/// What a call has written once all of these bytes of the script have come, but not its end.
fn written_by(alloc: Global, call: Call, bytes: &[u8]) -> Result<String, AllocError> {
    match call {
        Call::RunAudit | Call::AnswerAudit => Ok(String::new(alloc)),
        _ => printed_by(alloc, bytes),
    }
}

/// Whether a call tells that a read failed, and has answered just the lines that had come.
fn is_told(
    alloc: Global,
    call: Call,
    text: &str,
    size: usize,
    fails_at: usize,
    kind: ErrorKind,
) -> Result<bool, Fault> {
    let bytes = text.as_bytes();
    let come = &bytes[..size.saturating_mul(fails_at).min(bytes.len())];
    let written = written_by(alloc, call, come)?;
    let reader = Torn::new(bytes, size, fails_at, kind);
    let came = came_of(
        alloc,
        call,
        reader,
        Brittle::steady(alloc),
        Brittle::steady(alloc),
    )?;
    let is_told = came.has_ended_by(ScriptFault::Read, written.as_bytes());
    drop(came);
    Ok(is_told)
}

/// The first read whose failure is told otherwise, or as anything but a failed read.
fn wrong_read(
    alloc: Global,
    call: Call,
    size: usize,
    kind: ErrorKind,
) -> Result<Option<usize>, Fault> {
    let text = script(alloc)?;
    for fails_at in 0..reads_of(text.len(), size) {
        if !is_told(alloc, call, &text, size, fails_at, kind)? {
            return Ok(Some(fails_at));
        }
    }
    Ok(None)
}

#[test]
fn a_failed_read_of_a_script_is_told(rt: HostRuntime) -> Result<(), Fail> {
    for call in CALLS {
        for size in [7, 4_096] {
            let wrong = wrong_read(rt.alloc(), call, size, ErrorKind::BrokenPipe)?;
            assert!(rt; wrong.is_none(), "by {size}");
        }
    }
    Ok(())
}

#[test]
fn each_failed_read_of_a_script_is_told_alike(rt: HostRuntime) -> Result<(), Fail> {
    for kind in KINDS {
        for call in CALLS {
            assert!(rt; wrong_read(rt.alloc(), call, 100, kind)?.is_none());
        }
    }
    Ok(())
}

/// All that a call writes that ends well.
fn all_written(alloc: Global, call: Call, text: &str) -> Result<String, AllocError> {
    match call {
        Call::RunAudit | Call::AnswerAudit => {
            String::from_str(alloc, str::from_utf8(VERDICT).unwrap_or("?"))
        }
        _ => printed_by(alloc, text.as_bytes()),
    }
}

/// What comes of a script that is read by a hundred bytes, and written by so many, where the write or flush of a number fails.
fn came_of_writes(
    alloc: Global,
    call: Call,
    text: &str,
    size: usize,
    fails_at: usize,
    kind: Option<ErrorKind>,
) -> Result<Came, Fault> {
    let reader = Torn::new(text.as_bytes(), 100, usize::MAX, ErrorKind::Other);
    let writer = Brittle::new(alloc, size, fails_at, kind);
    came_of(alloc, call, reader, writer, Brittle::steady(alloc))
}

/// Whether a call has told that its writer failed at its last call, where it did, and has written a front of that; else whether it has
/// written all of it.
fn is_written(came: &Came, all: &str, fails_at: usize) -> bool {
    let held = came.writer.held.as_slice();
    if came.writer.has_failed {
        came.ended == Err(ScriptFault::Write)
            && came.writer.calls == fails_at.saturating_add(1)
            && all.as_bytes().starts_with(held)
            && came.journal.is(0, b"")
    } else {
        came.ended == Ok(true) && held == all.as_bytes()
    }
}

/// The first write or flush whose failure is told otherwise, up to the first number that none has.
fn wrong_write(
    alloc: Global,
    call: Call,
    size: usize,
    kind: Option<ErrorKind>,
) -> Result<Option<usize>, Fault> {
    let text = script(alloc)?;
    let all = all_written(alloc, call, &text)?;
    for fails_at in 0..=all.len().saturating_add(text.len()) {
        let came = came_of_writes(alloc, call, &text, size, fails_at, kind)?;
        let (is_so, calls) = (is_written(&came, &all, fails_at), came.writer.calls);
        drop(came);
        if !is_so {
            return Ok(Some(fails_at));
        }
        if calls <= fails_at {
            return Ok(None);
        }
    }
    Ok(Some(usize::MAX))
}

#[test]
fn a_failed_write_of_a_script_is_told(rt: HostRuntime) -> Result<(), Fail> {
    for call in CALLS {
        for size in [5, 1_000] {
            let wrong = wrong_write(rt.alloc(), call, size, Some(ErrorKind::BrokenPipe))?;
            assert!(rt; wrong.is_none(), "by {size}");
        }
    }
    Ok(())
}

#[test]
fn a_write_of_a_script_that_takes_nothing_is_told(rt: HostRuntime) -> Result<(), Fail> {
    for call in [Call::Run, Call::RunWithJournal, Call::RunAudit] {
        assert!(rt; wrong_write(rt.alloc(), call, 20, None)?.is_none());
    }
    Ok(())
}

#[test]
fn each_failed_write_of_a_script_is_told_alike(rt: HostRuntime) -> Result<(), Fail> {
    for kind in KINDS {
        for call in [Call::Run, Call::RunWithJournal, Call::RunAudit] {
            assert!(rt; wrong_write(rt.alloc(), call, 100, Some(kind))?.is_none());
        }
    }
    Ok(())
}

/// What comes of a script that is read and printed at once, and whose journal is written by so many bytes, where the write or flush of a number
/// fails.
fn came_of_journal(
    alloc: Global,
    call: Call,
    text: &str,
    size: usize,
    fails_at: usize,
    kind: Option<ErrorKind>,
) -> Result<Came, Fault> {
    let reader = Torn::new(text.as_bytes(), 4_096, usize::MAX, ErrorKind::Other);
    let journal = Brittle::new(alloc, size, fails_at, kind);
    came_of(alloc, call, reader, Brittle::steady(alloc), journal)
}

/// Whether a call has told that its journal's writer failed at its last call, where it did, all lines being printed and a front of the journal
/// written; else whether all of this is written.
fn is_kept(came: &Came, whole: &Came, fails_at: usize) -> bool {
    let held = came.journal.held.as_slice();
    let is_front = if came.journal.has_failed {
        came.ended == Err(ScriptFault::Write)
            && came.journal.calls == fails_at.saturating_add(1)
            && whole.journal.held.starts_with(held)
    } else {
        came.ended == Ok(true) && held == whole.journal.held.as_slice()
    };
    is_front && came.writer.held.as_slice() == whole.writer.held.as_slice()
}

/// The first write or flush of a journal whose failure is told otherwise, of those that a whole one takes.
fn wrong_journal(
    alloc: Global,
    call: Call,
    size: usize,
    kind: Option<ErrorKind>,
) -> Result<Option<usize>, Fault> {
    let text = script(alloc)?;
    let whole = came_of_journal(alloc, call, &text, size, usize::MAX, None)?;
    for fails_at in 0..=whole.journal.calls {
        let came = came_of_journal(alloc, call, &text, size, fails_at, kind)?;
        let is_so = is_kept(&came, &whole, fails_at);
        drop(came);
        if !is_so {
            return Ok(Some(fails_at));
        }
    }
    if whole.journal.calls > 2 && whole.ended == Ok(true) {
        Ok(None)
    } else {
        Ok(Some(usize::MAX))
    }
}

#[test]
fn a_failed_write_of_a_journal_is_told(rt: HostRuntime) -> Result<(), Fail> {
    let kind = Some(ErrorKind::StorageFull);
    assert!(rt; wrong_journal(rt.alloc(), Call::RunWithJournal, 300, kind)?.is_none());
    assert!(rt; wrong_journal(rt.alloc(), Call::AnswerWithJournal, 300, kind)?.is_none());
    assert!(rt; wrong_journal(rt.alloc(), Call::RunWithJournal, 300, None)?.is_none());
    Ok(())
}
