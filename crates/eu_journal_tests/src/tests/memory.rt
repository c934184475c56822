//! Want of memory. In a usual run no allocation is refused; `tools/sweep_memory.sh` refuses one after another.
use crate::tests::failures::VERDICT;
use crate::tests::reading::LINES;
use eu_base::Fault;
use eu_fixtures::{are_so, text_of};
use eu_journal_audit::{AuditFault, run_journal_audit};
use std::alloc::{AllocError, Global};

/// Whether an audit ends so, and writes its line where that is a verdict, and else nothing. `OutOfMemory` where want of memory is told, and nothing
/// written.
fn ends(alloc: Global, text: &[u8], wanted: Result<bool, AuditFault>) -> Result<bool, Fault> {
    let mut out = Vec::with_capacity(alloc, 64)?;
    let mut reader = text;
    let ended = run_journal_audit(alloc, &mut reader, &mut out);
    if ended == Err(AuditFault::OutOfMemory) && out.is_empty() {
        return Err(Fault::OutOfMemory);
    }
    let written: &[u8] = if ended.is_ok() { VERDICT } else { b"" };
    Ok(ended == wanted && out.as_slice() == written)
}

/// Whether the journal is found to be a run.
fn is_judged(alloc: Global) -> Result<bool, Fault> {
    let text = text_of(alloc, LINES.as_slice())?;
    ends(alloc, text.as_bytes(), Ok(true))
}

#[test]
fn memory_journal_audit(rt: HostRuntime) {
    let alloc = rt.alloc();
    assert!(rt; are_so(is_judged(alloc), is_judged(alloc)));
}

/// Lines that are bad behind so many of the journal's: one that is no text or no JSON, whose kind there isn't, that can't follow, without a member of its
/// kind, and with values that a member hasn't.
const BAD: [(usize, &[u8]); 14] = [
    (1, b"\xff"),
    (1, b"peer"),
    (1, b"{}"),
    (1, br#"{"line":"pass"}"#),
    (0, br#"{"line":"peer"}"#),
    (3, br#"{"line":"peer"}"#),
    (
        0,
        br#"{"config":{"evict_ms":60000,"interval":30,"percent":85,"preservation":true},"expected":1,"journal":1,"last":0,"line":"head","previous":null}"#,
    ),
    (
        0,
        br#"{"config":{"evict_ms":60000,"interval":30,"percent":85,"preservation":true},"expected":1,"journal":2,"last":0,"line":"head","previous":null,"since":0}"#,
    ),
    (
        0,
        br#"{"config":{"evict_ms":60000,"interval":30,"percent":101,"preservation":true},"expected":1,"journal":1,"last":0,"line":"head","previous":null,"since":0}"#,
    ),
    (
        1,
        br#"{"instance":{"dirty":7,"interval":30,"key":{"app":"A","id":""},"overridden":"UNKNOWN","secs":90,"status":"UP"},"line":"lease","rest":{"hostName":"h","port":8080},"times":{"registered":0,"up":0,"updated":120000}}"#,
    ),
    (
        1,
        br#"{"instance":{"dirty":7,"interval":30,"key":{"app":"A","id":"i1"},"overridden":"UNKNOWN","secs":90,"status":"up"},"line":"lease","rest":{"hostName":"h","port":8080},"times":{"registered":0,"up":0,"updated":120000}}"#,
    ),
    (
        2,
        br#"{"command":{"name":"Drain","peer":-1},"line":"asked","moment":25000,"number":0,"pass":0,"rest":null}"#,
    ),
    (
        2,
        br#"{"command":{"name":"Open"},"line":"asked","moment":25000,"number":0,"pass":0,"rest":null}"#,
    ),
    (
        3,
        br#"{"line":"answered","reply":{"name":"Registered"},"rest":null}"#,
    ),
];

/// So many of the journal's lines.
fn front(alloc: Global, count: usize) -> Result<Vec<u8>, AllocError> {
    let mut text = Vec::new(alloc);
    for line in LINES.iter().take(count) {
        text.extend_from_slice(line.as_bytes())?;
        text.push(b'\n')?;
    }
    Ok(text)
}

/// Whether that line is told to be bad.
fn is_told(alloc: Global, good: usize, bad: &[u8]) -> Result<bool, Fault> {
    let mut text = front(alloc, good)?;
    text.extend_from_slice(bad)?;
    let number = (good as u64).saturating_add(1);
    ends(alloc, text.as_slice(), Err(AuditFault::BadLine(number)))
}

/// The same of one that nests too deep.
fn is_depth_told(alloc: Global) -> Result<bool, Fault> {
    let deep = vec![in alloc; b'['; 128]?;
    is_told(alloc, 1, deep.as_slice())
}

/// Whether the digest of other lines is told to be bad.
fn is_digest_told(alloc: Global) -> Result<bool, Fault> {
    let (head, peer) = (LINES[0], LINES[1]);
    let text = text_of(alloc, &[head, peer, head, peer, LINES[13]])?;
    ends(alloc, text.as_bytes(), Err(AuditFault::BadLine(5)))
}

/// Whether a journal that ends before its digest is told.
fn is_end_told(alloc: Global) -> Result<bool, Fault> {
    let text = front(alloc, 3)?;
    ends(alloc, text.as_slice(), Err(AuditFault::EndsEarly))
}

#[test]
fn memory_bad_lines(rt: HostRuntime) {
    let alloc = rt.alloc();
    for (good, bad) in BAD {
        assert!(rt; are_so(is_told(alloc, good, bad), is_told(alloc, good, bad)));
    }
    assert!(rt; are_so(is_depth_told(alloc), is_depth_told(alloc)));
    assert!(rt; are_so(is_digest_told(alloc), is_digest_told(alloc)));
    assert!(rt; are_so(is_end_told(alloc), is_end_told(alloc)));
}
