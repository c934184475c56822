//! Journals that were changed by hand and sealed anew: only the auditor, or the form of a line, can tell.
ghost use Rattle.std.specs.Prelude.{None, false};

use crate::tests::reading::{LINES, begins_value};
use eu_fixtures::text_of;
use eu_journal_audit::{AuditFault, answer_journal_audit, run_journal_audit};
use eu_stream::{Sink, WriteFault};
use sha2::{Digest, Sha256};
use std::alloc::{AllocError, Global};

/// Lines, with their digest behind them.
fn sealed(alloc: Global, lines: &[u8]) -> Result<Vec<u8>, AllocError> {
    let mut hasher = Sha256::new();
    hasher.update(lines);
    let digest = hex::encode(alloc, hasher.finalize())?;
    let mut text = Vec::from_slice(alloc, lines)?;
    text.extend_from_slice(b"{\"line\":\"digest\",\"sha256\":\"")?;
    text.extend_from_slice(digest.as_bytes())?;
    text.extend_from_slice(b"\"}\n")?;
    Ok(text)
}

/// What an audit says of a text.
#[derive(Clone, Copy, Debug, PartialEq, Eq)]
enum Said {
    Yes,
    No,
    BadLine,
    Other,
}

/// What an audit says of the text, and whether it wrote just the line that says so.
fn audit_of(alloc: Global, text: &[u8]) -> Result<Said, AllocError> {
    let mut out = Vec::with_capacity(alloc, 64)?;
    let mut reader = text;
    let answer = run_journal_audit(alloc, &mut reader, &mut out);
    Ok(match (answer, out.as_slice()) {
        (Ok(true), b"audit yes 3\n") => Said::Yes,
        (Ok(false), b"audit no 3\n") => Said::No,
        (Err(AuditFault::BadLine(_)), b"") => Said::BadLine,
        _ => Said::Other,
    })
}

/// What is said of the lines where the byte at this place is another.
fn audit_of_changed(alloc: Global, lines: &str, place: usize) -> Result<Said, AllocError> {
    let mut bytes = Vec::from_slice(alloc, lines.as_bytes())?;
    if let Some(byte) = bytes.get_mut(place) {
        *byte ^= 1;
    }
    let text = sealed(alloc, bytes.as_slice())?;
    audit_of(alloc, text.as_slice())
}

/// Whether a value that begins here plays no part: the number of who asked, or that of the entry.
fn plays_no_part(text: &[u8], place: usize) -> bool {
    matches!(
        text.get(..place),
        Some(
            [.., b'"', b'p', b'a', b's', b's', b'"', b':']
                | [.., b'"', b'n', b'u', b'm', b'b', b'e', b'r', b'"', b':']
        )
    )
}

/// How many values were tried, and of how many of them what is said.
#[derive(Clone, Copy, Debug, PartialEq, Eq)]
struct Tried {
    yes: u32,
    no: u32,
    bad: u32,
    /// A value was taken that plays a part, or none was that plays none.
    wrong: u32,
}

impl Tried {
    fn count(&mut self, said: Said, plays_no_part: bool) {
        if (said == Said::Yes) != plays_no_part || said == Said::Other {
            self.wrong = self.wrong.saturating_add(1);
        }
        match said {
            Said::Yes => self.yes = self.yes.saturating_add(1),
            Said::No => self.no = self.no.saturating_add(1),
            Said::BadLine => self.bad = self.bad.saturating_add(1),
            Said::Other => {}
        }
    }
}

/// What is said of all the journal's values, each changed by itself in its first byte.
fn try_all(alloc: Global) -> Result<Tried, AllocError> {
    let lines = text_of(alloc, &LINES[..13])?;
    let mut tried = Tried {
        yes: 0,
        no: 0,
        bad: 0,
        wrong: 0,
    };
    for place in 0..lines.len() {
        if begins_value(lines.as_bytes(), place) {
            let said = audit_of_changed(alloc, lines.as_str(), place)?;
            tried.count(said, plays_no_part(lines.as_bytes(), place));
        }
    }
    Ok(tried)
}

/// What is said of the lines as they are.
fn as_they_are(alloc: Global) -> Result<Said, AllocError> {
    let lines = text_of(alloc, &LINES[..13])?;
    let text = sealed(alloc, lines.as_bytes())?;
    audit_of(alloc, text.as_slice())
}

#[test]
fn a_journal_that_is_sealed_anew_is_a_run(rt: HostRuntime) {
    assert!(rt; as_they_are(rt.alloc()) == Ok(Said::Yes));
}

/// The first line with spaces, a CR at its end, its members in another order, and one member more.
const FIRST: &str =
    "{ \"line\": \"head\", \"x\": 1, \"config\": {\"evict_ms\":60000,\"interval\":30,\"percent\":85,\"preservation\":true}, \"expected\":1,\"journal\":1,\"last\":0,\"previous\":null,\"since\":0}\r\n";

/// What is said of the lines with that first one, and with empty lines, which no digest counts, before the first and behind the last.
fn in_other_words(alloc: Global) -> Result<Said, AllocError> {
    let mut lines = Vec::from_slice(alloc, FIRST.as_bytes())?;
    let others = text_of(alloc, &LINES[1..13])?;
    lines.extend_from_slice(others.as_bytes())?;
    let whole = sealed(alloc, lines.as_slice())?;
    let mut text = Vec::from_slice(alloc, b"\n\n")?;
    text.extend_from_slice(whole.as_slice())?;
    text.extend_from_slice(b"\n")?;
    audit_of(alloc, text.as_slice())
}

#[test]
fn a_journal_in_other_words_is_a_run(rt: HostRuntime) {
    assert!(rt; in_other_words(rt.alloc()) == Ok(Said::Yes));
}

/// Three entries have a number and who asked, which play no part.
#[test]
fn a_change_that_is_sealed_is_told(rt: HostRuntime) {
    let tried = try_all(rt.alloc());
    assert!(rt; matches!(tried, Ok(tried) if tried.wrong == 0));
    assert!(rt; matches!(tried, Ok(tried) if tried.yes == 6));
    assert!(rt; matches!(tried, Ok(tried) if tried.no > 30 && tried.bad > 50));
}

/// A change of one line: its place, what stands there, and what stands there afterwards.
type Change = (usize, &'static str, &'static str);

/// What is said of the lines after this change, and `Other` where the line hasn't what is to be changed.
fn audit_after(alloc: Global, change: Change) -> Result<Said, AllocError> {
    let (place, old, new) = change;
    let mut lines = String::new(alloc);
    for (index, line) in LINES[..13].iter().enumerate() {
        match line.split_once(old) {
            Some((front, behind)) if index == place => {
                lines.push_str(front)?;
                lines.push_str(new)?;
                lines.push_str(behind)?;
            }
            None if index == place => return Ok(Said::Other),
            _ => lines.push_str(line)?,
        }
        lines.push_str("\n")?;
    }
    let text = sealed(alloc, lines.as_bytes())?;
    audit_of(alloc, text.as_slice())
}

/// A `rest` that no instance needs, an application in small letters, and a drain's moment, at which its task is young enough up to
/// 30,000 ms: the text still says a run.
#[test]
fn a_change_that_says_a_run_is_none(rt: HostRuntime) {
    let changes: [Change; 4] = [
        (3, "\"rest\":null", "\"rest\":{\"x\":[1]}"),
        (4, "\"app\":\"A\"", "\"app\":\"a\""),
        (6, "\"moment\":25000", "\"moment\":0"),
        (6, "\"moment\":25000", "\"moment\":30000"),
    ];
    for change in changes {
        assert!(rt; audit_after(rt.alloc(), change) == Ok(Said::Yes));
    }
}

/// The task is too old then; the heartbeat has another end; a `rest` is wanted where an instance stands.
#[test]
fn a_change_that_says_none_is_told(rt: HostRuntime) {
    let changes: [(Change, Said); 3] = [
        ((6, "\"moment\":25000", "\"moment\":30001"), Said::No),
        ((4, "\"moment\":30000", "\"moment\":30001"), Said::No),
        (
            (
                2,
                "\"rest\":{\"hostName\":\"h\",\"port\":8080}",
                "\"rest\":null",
            ),
            Said::BadLine,
        ),
    ];
    for (change, said) in changes {
        assert!(rt; audit_after(rt.alloc(), change) == Ok(said));
    }
}

/// Counts the bytes that were written, and of these the ones that were flushed.
#[derive(Drop)]
struct Flushed {
    written: usize,
    flushed: usize,
}

impl Sink for Flushed {
    ghost stream = { λ _. 0 };

    ghost contents = { λ _. None };

    ghost failed = { λ _. false };

    fn write_some(&mut self, bytes: &[u8]) -> Result<usize, WriteFault> {
        self.written = self.written.wrapping_add(bytes.len());
        Ok(bytes.len())
    }

    fn flush(&mut self) -> Result<(), WriteFault> {
        self.flushed = self.written;
        Ok(())
    }
}

/// How many bytes of the line are flushed once the journal is judged.
fn flushed_of(alloc: Global) -> Result<usize, AuditFault> {
    let text = text_of(alloc, LINES.as_slice())?;
    let mut reader = text.as_bytes();
    let mut writer = Flushed {
        written: 0,
        flushed: 0,
    };
    answer_journal_audit(alloc, &mut reader, &mut writer)?;
    Ok(writer.flushed)
}

#[test]
fn the_line_is_flushed(rt: HostRuntime) {
    assert!(rt; flushed_of(rt.alloc()) == Ok(b"audit yes 3\n".len()));
}
