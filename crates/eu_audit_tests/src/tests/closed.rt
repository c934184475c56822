//! A closed book of two passes. Pass 0 registers two clients and renews one three times; pass 1 renews the other twice. All is told at
//! 7 ms, and one client was expected before.
use crate::tests::cases::judge;
use crate::tests::forms::{entries, state, verdict};
use eu_base::Fault;
use eu_book::Logged;
use eu_model::{Entry, Tally};
use eu_settle::{Closed, PassLog, settle};
use std::alloc::Global;

/// What the passes tell, and what it is answered.
const LINES: &str = "\
register 7 A i{1,2} 90 UP UNKNOWN 5 c = fresh
renew 7 A i{1,1,1,2,2} - - c = done";

/// The last two of the seven entries are of pass 1.
const FIRST_OF_PASS_1: u64 = 5;

const BASE: &str = "expected 1";

/// A renewal puts the last update one duration after its moment, so at 90,007 ms.
const END: &str = "\
expected 3
lease 7 90007 7 A i{1,2} 90 UP UNKNOWN 5
since 5";

/// The entries, by their numbers.
fn numbered(alloc: Global) -> Result<Vec<Entry>, Fault> {
    let mut entries = entries(alloc, LINES)?;
    let mut number = 0u64;
    for entry in entries.iter_mut() {
        entry.pass = if number < FIRST_OF_PASS_1 { 0 } else { 1 };
        entry.number = number;
        number = number.saturating_add(1);
    }
    Ok(entries)
}

/// What a pass logs.
fn log(alloc: Global, pass: u64) -> Result<PassLog, Fault> {
    let mut log = Vec::new(alloc);
    for entry in numbered(alloc)? {
        if entry.pass == pass {
            log.push(Logged {
                command: entry.command,
                moment: entry.moment,
                reply: entry.reply,
                number: entry.number,
            })?;
        }
    }
    Ok(PassLog { pass, log })
}

/// The book, without the entry of that number, if it is one of theirs.
fn closed(alloc: Global, left_out: usize) -> Result<Closed, Fault> {
    let mut logs = Vec::new(alloc);
    logs.push(log(alloc, 0)?)?;
    logs.push(log(alloc, 1)?)?;
    let mut entries = numbered(alloc)?;
    if left_out < entries.len() {
        drop(entries.remove(left_out));
    }
    let base = state(alloc, BASE)?;
    let end = state(alloc, END)?;
    Ok(Closed {
        base,
        first: 0,
        entries,
        end,
        totals: Tally {
            steps: 7,
            counted: 5,
            added: 2,
            removed: 0,
        },
        logs,
    })
}

/// The auditor's verdict on a closed book.
fn audited(alloc: Global, closed: Closed) -> Result<bool, Fault> {
    let Closed {
        base,
        first: _,
        entries,
        end,
        totals: _,
        logs,
    } = closed;
    drop(logs);
    verdict(alloc, base, entries, end)
}

/// Whether the logs of a book that lacks that entry are its parts, and the auditor's verdict on it.
fn settled_and_audited(alloc: Global, left_out: usize) -> Result<(bool, bool), Fault> {
    let closed = closed(alloc, left_out)?;
    let settled = settle(&closed).is_ok();
    Ok((settled, audited(alloc, closed)?))
}

#[test]
fn a_closed_book_is_a_run_where_it_lacks_no_entry(rt: HostRuntime) {
    assert!(rt; settled_and_audited(rt.alloc(), 7) == Ok((true, true)));
    for left_out in 0..7 {
        let verdict = settled_and_audited(rt.alloc(), left_out);
        assert!(rt; verdict == Ok((false, false)), "without {left_out}");
    }
}

/// Other journals of that server.
const CHANGED: &str = "
    # Another number is expected at the end.
    from
        expected 1
    by
        register 7 A i{1,2} 90 UP UNKNOWN 5 c = fresh
        renew 7 A i{1,1,1,2,2} - - c = done
    to
        expected 3
        lease 7 90007 7 A i{1,2} 90 UP UNKNOWN 5
        since 5
    yes
    to
        expected 4
        lease 7 90007 7 A i{1,2} 90 UP UNKNOWN 5
        since 5
    no

    # A command follows that has no peer to speak of.
    to
        expected 3
        lease 7 90007 7 A i{1,2} 90 UP UNKNOWN 5
        since 5
    by
        register 7 A i{1,2} 90 UP UNKNOWN 5 c = fresh
        renew 7 A i{1,1,1,2,2} - - c = done
        drain 7 0 = batch
    no
    by
        register 7 A i{1,2} 90 UP UNKNOWN 5 c = fresh
        renew 7 A i{1,1,1,2,2} - - c = done
        drain 7 0 = settled
    no
    by
        register 7 A i{1,2} 90 UP UNKNOWN 5 c = fresh
        renew 7 A i{1,1,1,2,2} - - c = done
        landed 7 0 = settled
    no
    by
        register 7 A i{1,2} 90 UP UNKNOWN 5 c = fresh
        renew 7 A i{1,1,1,2,2} - - c = done
        lost 7 0 = settled
    no

    # Without entries nothing changes.
    from
        expected 3
        lease 7 90007 7 A i{1,2} 90 UP UNKNOWN 5
        since 5
    by
    to
        expected 3
        lease 7 90007 7 A i{1,2} 90 UP UNKNOWN 5
        since 5
    yes
    from
        expected 1
    no
    from
        expected 3
        lease 7 90007 7 A i{1,2} 90 UP UNKNOWN 5
        since 5
    to
        expected 1
    no

    # An end with its leases the other way round is none.
    from
        expected 3
        lease 7 90007 7 A i{2,1} 90 UP UNKNOWN 5
        since 5
    not plain
";

#[test]
fn what_a_closed_book_does_not_write_is_no_run(rt: HostRuntime) {
    assert!(rt; judge(rt.alloc(), CHANGED) == Ok(10));
}
