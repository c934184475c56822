//! Journals that are read, and texts that say none. The lines and their digest were written by another program.
use eu_audit::audit;
use eu_fixtures::text_of;
use eu_journal_read::{JournalFault, Recorded, read_journal};
use eu_journal_text::journal_text;
use eu_model::Reply;
use std::alloc::{AllocError, Global};

/// A server with one peer: an instance is registered, renews by a peer's heartbeat, and its registration is in flight.
pub static LINES: [&str; 14] = [
    "{\"config\":{\"evict_ms\":60000,\"interval\":30,\"percent\":85,\"preservation\":true},\"expected\":1,\"journal\":1,\"last\":0,\"line\":\"head\",\"previous\":null,\"since\":0}",
    "{\"line\":\"peer\"}",
    "{\"command\":{\"instance\":{\"dirty\":7,\"interval\":30,\"key\":{\"app\":\"A\",\"id\":\"i1\"},\"overridden\":\"UNKNOWN\",\"secs\":90,\"status\":\"UP\"},\"name\":\"Register\",\"replicated\":false},\"line\":\"asked\",\"moment\":0,\"number\":0,\"pass\":0,\"rest\":{\"hostName\":\"h\",\"port\":8080}}",
    "{\"line\":\"answered\",\"reply\":{\"fresh\":true,\"name\":\"Registered\"},\"rest\":null}",
    "{\"command\":{\"dirty\":null,\"key\":{\"app\":\"A\",\"id\":\"i1\"},\"name\":\"Renew\",\"overridden\":null,\"replicated\":true},\"line\":\"asked\",\"moment\":30000,\"number\":1,\"pass\":0,\"rest\":null}",
    "{\"line\":\"answered\",\"reply\":{\"name\":\"Done\"},\"rest\":null}",
    "{\"command\":{\"name\":\"Drain\",\"peer\":0},\"line\":\"asked\",\"moment\":25000,\"number\":2,\"pass\":0,\"rest\":null}",
    "{\"line\":\"answered\",\"reply\":{\"name\":\"Batch\"},\"rest\":null}",
    "{\"line\":\"sent\",\"rest\":{\"hostName\":\"h\",\"port\":8080},\"task\":{\"action\":\"Register\",\"instance\":{\"dirty\":7,\"interval\":30,\"key\":{\"app\":\"A\",\"id\":\"i1\"},\"overridden\":\"UNKNOWN\",\"secs\":90,\"status\":\"UP\"},\"key\":{\"app\":\"A\",\"id\":\"i1\"},\"queued\":0,\"status\":null}}",
    "{\"config\":{\"evict_ms\":60000,\"interval\":30,\"percent\":85,\"preservation\":true},\"expected\":2,\"journal\":1,\"last\":0,\"line\":\"head\",\"previous\":null,\"since\":1}",
    "{\"instance\":{\"dirty\":7,\"interval\":30,\"key\":{\"app\":\"A\",\"id\":\"i1\"},\"overridden\":\"UNKNOWN\",\"secs\":90,\"status\":\"UP\"},\"line\":\"lease\",\"rest\":{\"hostName\":\"h\",\"port\":8080},\"times\":{\"registered\":0,\"up\":0,\"updated\":120000}}",
    "{\"line\":\"peer\"}",
    "{\"line\":\"flight\",\"rest\":{\"hostName\":\"h\",\"port\":8080},\"task\":{\"action\":\"Register\",\"instance\":{\"dirty\":7,\"interval\":30,\"key\":{\"app\":\"A\",\"id\":\"i1\"},\"overridden\":\"UNKNOWN\",\"secs\":90,\"status\":\"UP\"},\"key\":{\"app\":\"A\",\"id\":\"i1\"},\"queued\":0,\"status\":null}}",
    "{\"line\":\"digest\",\"sha256\":\"c972a2b4269190bd8d2b1c351603c48151ef846646f89b67d52c115e95d3310b\"}",
];

fn read(alloc: Global, text: &[u8]) -> Result<Recorded, JournalFault> {
    let mut reader = text;
    read_journal(alloc, &mut reader)
}

/// Whether the text is read, as a run of three entries, and is written as it was.
fn comes_back(alloc: Global) -> Result<bool, JournalFault> {
    let text = text_of(alloc, LINES.as_slice())?;
    let journal = read(alloc, text.as_bytes())?;
    let entries = journal.entries.as_slice();
    let is_run = audit(alloc, &journal.base, entries, &journal.end)?;
    let again = journal_text(alloc, &journal.base, entries, &journal.end)?;
    let has_batch = matches!(
        entries.last(), Some(entry) if matches!(&entry.reply, Reply::Batch(tasks) if tasks.as_slice().len() == 1)
    );
    Ok(is_run && has_batch && entries.len() == 3 && again.as_str() == text.as_str())
}

#[test]
fn a_journal_is_read(rt: HostRuntime) {
    assert!(rt; comes_back(rt.alloc()) == Ok(true));
}

/// Whether the text is refused once the byte at this place is another.
fn is_told(alloc: Global, text: &str, place: usize) -> Result<bool, AllocError> {
    let mut bytes = Vec::from_slice(alloc, text.as_bytes())?;
    if let Some(byte) = bytes.get_mut(place) {
        *byte ^= 1;
    }
    Ok(read(alloc, bytes.as_slice()).is_err())
}

/// Whether a value begins at this place of a line, or the text within its quotes.
pub fn begins_value(text: &[u8], place: usize) -> bool {
    match &text[..place.min(text.len())] {
        [.., b':'] | [.., b':', b'"'] => true,
        _ => false,
    }
}

/// Whether each value of the text, changed by itself in its first byte, has it refused. Also how many values there were.
fn each_change_is_told(alloc: Global) -> Result<(bool, u32), AllocError> {
    let text = text_of(alloc, LINES.as_slice())?;
    let mut told = true;
    let mut values = 0u32;
    for place in 0..text.len() {
        if begins_value(text.as_bytes(), place) {
            told &= is_told(alloc, text.as_str(), place)?;
            values = values.saturating_add(1);
        }
    }
    Ok((told, values))
}

#[test]
fn a_journal_that_was_changed_is_told(rt: HostRuntime) {
    assert!(rt; matches!(each_change_is_told(rt.alloc()), Ok((true, values)) if values > 150));
}

/// Why the first of these lines, read as a journal, are refused.
fn fault_of(alloc: Global, count: usize) -> Option<JournalFault> {
    let lines = LINES.as_slice();
    let text = text_of(alloc, &lines[..count.min(lines.len())]).ok()?;
    read(alloc, text.as_bytes()).err()
}

#[test]
fn a_journal_that_ends_early_is_told(rt: HostRuntime) {
    for count in 0..LINES.len() {
        assert!(rt; fault_of(rt.alloc(), count) == Some(JournalFault::EndsEarly));
    }
}

/// Why the lines are refused where the line of this number, from 0, is left out.
fn fault_without(alloc: Global, left: usize) -> Option<JournalFault> {
    let mut text = String::new(alloc);
    for (number, line) in LINES.iter().enumerate() {
        if number != left {
            text.push_str(line).ok()?;
            text.push_str("\n").ok()?;
        }
    }
    read(alloc, text.as_bytes()).err()
}

/// A line that is left out is missed where it would be followed, else by the digest.
#[test]
fn a_line_that_is_left_out_is_told(rt: HostRuntime) {
    let alloc = rt.alloc();
    assert!(rt; fault_without(alloc, 0) == Some(JournalFault::BadLine(1)));
    assert!(rt; fault_without(alloc, 2) == Some(JournalFault::BadLine(3)));
    assert!(rt; fault_without(alloc, 8) == Some(JournalFault::BadLine(13)));
}

/// Why the lines are refused where the first byte of the line of this number, from 0, is one that no text of UTF-8 has.
fn fault_of_no_text(alloc: Global, changed: usize) -> Option<JournalFault> {
    let mut bytes = Vec::new(alloc);
    for (number, line) in LINES.iter().enumerate() {
        let first = if number == changed { 0xff } else { b'{' };
        bytes.push(first).ok()?;
        bytes.extend_from_slice(line.as_bytes().get(1..)?).ok()?;
        bytes.push(b'\n').ok()?;
    }
    read(alloc, bytes.as_slice()).err()
}

#[test]
fn a_line_that_is_no_text_is_told(rt: HostRuntime) {
    let alloc = rt.alloc();
    assert!(rt; fault_of_no_text(alloc, 0) == Some(JournalFault::BadLine(1)));
    assert!(rt; fault_of_no_text(alloc, 6) == Some(JournalFault::BadLine(7)));
    assert!(rt; fault_of_no_text(alloc, 13) == Some(JournalFault::BadLine(14)));
}
