//! What a book writes: its journal is a run from its base to what it is.
use crate::tests::forms::{each, entries, state, verdict};
use crate::tests::replies::{BASE, END, LINES};
use eu_audit::audit;
use eu_base::{Config, Fault};
use eu_book::Book;
use eu_clock::{Chooser, FirstChooser, ListChooser};
use eu_fixtures::{read_command, settings};
use eu_hash::HashKey;
use eu_model::Reply;
use std::alloc::Global;

/// The auditor's verdict on a book.
pub fn audited(alloc: Global, book: &Book) -> Result<bool, Fault> {
    let (base, end) = (book.base(alloc)?, book.state(alloc)?);
    let verdict = audit(alloc, &base, book.entries(), &end);
    drop((base, end));
    Ok(verdict?)
}

/// Has a pass tell a book a command, and tells how many leases it evicts.
pub fn tell<C: Chooser>(
    alloc: Global,
    book: &mut Book,
    pass: u64,
    line: &str,
    chooser: &mut C,
) -> Result<usize, Fault> {
    let (moment, command) = read_command(alloc, line)?;
    let receipt = book.apply(alloc, pass, command, moment, chooser)?;
    let evicted = match &receipt.reply {
        Reply::Evicted(victims) => victims.as_slice().len(),
        _ => 0,
    };
    drop(receipt);
    Ok(evicted)
}

/// Tells a book the commands of a line, of which what stands behind ` = ` isn't read. Writes how many leases each eviction takes.
fn tell_line<C: Chooser>(
    alloc: Global,
    book: &mut Book,
    line: &str,
    chooser: &mut C,
    evicted: &mut String,
) -> Result<(), Fault> {
    let (line, _) = line.split_once(" = ").unwrap_or((line, ""));
    for line in each(alloc, line)? {
        let count = tell(alloc, book, 0, line.as_str(), chooser)?;
        if line.starts_with("evict") {
            write!(evicted, " {count}")?;
        }
    }
    Ok(())
}

/// Tells a book the commands of these lines. Has how many leases each eviction takes, as ` 2 1`.
pub fn tell_lines<C: Chooser>(
    alloc: Global,
    book: &mut Book,
    lines: &str,
    chooser: &mut C,
) -> Result<String, Fault> {
    let mut evicted = String::new(alloc);
    for line in lines.lines() {
        tell_line(alloc, book, line, chooser, &mut evicted)?;
    }
    Ok(evicted)
}

/// Ten clients come at 1000 for 90 s, and two evictions follow once they have expired.
const TEN: &str = "\
register 1000 A i{0..10} 90 UP UNKNOWN 5 c
evict 100000
evict 160000";

/// Whether a book that is opened with that percentage, where victims are drawn by a list, evicts so many, and the verdict on it.
fn evicts(alloc: Global, percent: u32, wanted: &str) -> Result<(bool, bool), Fault> {
    let config = Config::new(false, percent, 30, 60_000)?;
    let mut book = Book::open(alloc, config, 1, 0, HashKey::new(0, 0))?;
    let words = Vec::from_slice(alloc, [7u64, 3, 0, 5].as_slice())?;
    let mut chooser = ListChooser::new(words);
    let evicted = tell_lines(alloc, &mut book, TEN, &mut chooser);
    let verdict = audited(alloc, &book);
    drop(chooser);
    drop(book);
    Ok((evicted?.as_str() == wanted, verdict?))
}

#[test]
fn evictions_of_a_book_are_a_run(rt: HostRuntime) {
    assert!(rt; evicts(rt.alloc(), 85, " 2 2") == Ok((true, true)));
    assert!(rt; evicts(rt.alloc(), 50, " 5 3") == Ok((true, true)));
    assert!(rt; evicts(rt.alloc(), 0, " 10 0") == Ok((true, true)));
}

/// The verdict on what a book wrote between the servers that were worked out, and on what was worked out up to what the book is.
fn compared(alloc: Global, book: &Book) -> Result<(bool, bool), Fault> {
    let base = state(alloc, BASE)?;
    let end = state(alloc, END)?;
    let written = audit(alloc, &base, book.entries(), &end);
    drop(end);
    let lines = entries(alloc, LINES)?;
    let worked_out = verdict(alloc, base, lines, book.state(alloc)?)?;
    Ok((written?, worked_out))
}

/// The same of a book with one peer that is told the commands of the journal that was worked out by hand, and the verdict on it.
fn with_peer(alloc: Global) -> Result<((bool, bool), bool), Fault> {
    let config = settings()?;
    let mut book = Book::open(alloc, config, 0, 1, HashKey::new(0, 0))?;
    let told = tell_lines(alloc, &mut book, LINES, &mut FirstChooser);
    let compared = compared(alloc, &book);
    let verdict = audited(alloc, &book);
    drop(book);
    drop(told?);
    Ok((compared?, verdict?))
}

#[test]
fn a_book_writes_what_was_worked_out(rt: HostRuntime) {
    assert!(rt; with_peer(rt.alloc()) == Ok(((true, true), true)));
}
