//! A journal of a server with one peer, with each kind of command and of reply.
use crate::tests::forms::judged;
use eu_base::Fault;
use std::alloc::Global;

/// A server with one peer, for whom nothing waits.
pub const BASE: &str = "peer";

/// What a client, an operator, a peer and the timers tell it, one after the other.
pub const LINES: &str = "\
register 1000 A i1 90 UP UNKNOWN 5 c = fresh
renew 2000 A i1 - - c = done
renew 2500 A i2 - - c = missing
drain 3000 0 = batch Register 1000 - A i1 of A i1 90 UP UNKNOWN 5, Heartbeat 2000 - A i1 of A i1 90 UP UNKNOWN 5
landed 4000 0 200 404 = settled
renew 4500 A i1 4 - r = conflict A i1 90 UP UNKNOWN 5
renew 4600 A i1 6 - c = stale
register 5000 A i2 90 UP UNKNOWN 5 c = fresh
drain 6000 0 = batch Register 4000 - A i1 of A i1 90 UP UNKNOWN 5, Heartbeat 4600 - A i1 of A i1 90 UP UNKNOWN 5, Register 5000 - A i2 of A i2 90 UP UNKNOWN 5
set 6500 A i1 OUT_OF_SERVICE - c = done
lost 7000 0 = settled
roll 7500 = last 3
update 8000 = expected 2
evict 9000 = evicted
cancel 9500 A i2 c = done
unset 9600 A i1 - - c = done
renew 9700 A i1 - - c = missing
adopt 9800 A i3 90 UP OUT_OF_SERVICE 7 = fresh
config 9900 off 50 15 7 = done";

/// What it is then. i1 was last renewed when its status was taken back, at 9600; two clients were expected, one left, and one came. The
/// heartbeat that found no lease at the peer was followed by a registration, at 4000.
pub const END: &str = "\
config off 50 15 7
expected 2
lease 1000 99600 1000 A i1 90 UNKNOWN UNKNOWN 5
lease 9800 9800 0 A i3 90 OUT_OF_SERVICE OUT_OF_SERVICE 7
row i3 OUT_OF_SERVICE
last 3
previous 9000
peer
waits Register 4000 - A i1 of A i1 90 UP UNKNOWN 5
waits Heartbeat 4600 - A i1 of A i1 90 UP UNKNOWN 5
waits Register 5000 - A i2 of A i2 90 UP UNKNOWN 5
waits StatusUpdate 6500 OUT_OF_SERVICE A i1 of A i1 90 OUT_OF_SERVICE OUT_OF_SERVICE 5
waits Cancel 9500 - A i2
waits DeleteStatusOverride 9600 UNKNOWN A i1 of A i1 90 UNKNOWN UNKNOWN 5";

/// The auditor's verdict on this journal.
pub fn verdict(alloc: Global) -> Result<bool, Fault> {
    judged(alloc, BASE, LINES, END)
}

#[test]
fn a_journal_with_each_reply_is_a_run(rt: HostRuntime) {
    assert!(rt; verdict(rt.alloc()) == Ok(true));
}

/// For each line another reply: of its kind, or of another where its kind has but one.
const WRONG: &str = "\
again
missing
done
batch Register 1000 - A i1 of A i1 90 UP UNKNOWN 5
done
conflict A i1 90 UP UNKNOWN 4
done
again
batch Register 4000 - A i1 of A i1 90 UP UNKNOWN 5, Register 5000 - A i2 of A i2 90 UP UNKNOWN 5, Heartbeat 4600 - A i1 of A i1 90 UP UNKNOWN 5
missing
batch Register 4000 - A i1 of A i1 90 UP UNKNOWN 5, Heartbeat 4600 - A i1 of A i1 90 UP UNKNOWN 5, Register 5000 - A i2 of A i2 90 UP UNKNOWN 5
last 2
expected 3
evicted i1
missing
stale
done
again
settled";

/// A text in which this part, which it has, is another.
fn changed(alloc: Global, text: &str, part: &str, other: &str) -> Result<String, Fault> {
    let (front, back) = text.split_once(part).ok_or(Fault::BadValue)?;
    Ok(format!(in alloc; "{front}{other}{back}")?)
}

/// The verdict where a line of the journal is another, or none.
fn judged_other(alloc: Global, line: &str, other: &str) -> Result<bool, Fault> {
    let lines = changed(alloc, LINES, line, other)?;
    judged(alloc, BASE, lines.as_str(), END)
}

/// The verdict where a line has another reply.
pub fn judged_reply(alloc: Global, line: &str, reply: &str) -> Result<bool, Fault> {
    let (command, _) = line.split_once(" = ").ok_or(Fault::BadValue)?;
    let other = format!(in alloc; "{command} = {reply}")?;
    judged_other(alloc, line, other.as_str())
}

#[test]
fn another_reply_is_no_run(rt: HostRuntime) {
    let mut count = 0usize;
    for (line, reply) in LINES.lines().zip(WRONG.lines()) {
        assert!(rt;
            judged_reply(rt.alloc(), line, reply) == Ok(false),
            "{line}"
        );
        count = count.saturating_add(1);
    }
    assert!(rt; count == 19);
}

/// The two renewals that found nothing changed nothing, so without one of them it is a run too.
#[test]
fn an_entry_that_changes_something_is_needed(rt: HostRuntime) {
    let mut count = 0usize;
    for line in LINES.lines() {
        let wanted = line.starts_with("renew") && line.ends_with(" = missing");
        assert!(rt; judged_other(rt.alloc(), line, "") == Ok(wanted), "{line}");
        count = count.saturating_add(1);
    }
    assert!(rt; count == 19);
}

/// What is another in an end to which the journal doesn't lead: what waits for the peer, or the previous eviction.
const CHANGES: [(&str, &str); 8] = [
    ("6500 OUT_OF_SERVICE", "6500 UP"),
    ("9500", "9501"),
    (
        "Register 4000 - A i1 of A i1 90 UP UNKNOWN 5\nwaits Heartbeat 4600",
        "Heartbeat 4600 - A i1 of A i1 90 UP UNKNOWN 5\nwaits Register 4000",
    ),
    (
        "waits DeleteStatusOverride 9600 UNKNOWN A i1 of A i1 90 UNKNOWN UNKNOWN 5",
        "",
    ),
    (
        "9600 UNKNOWN A i1 of A i1 90 UNKNOWN UNKNOWN 5",
        "9600 UNKNOWN A i1 of A i1 90 UNKNOWN UNKNOWN 5\npeer",
    ),
    ("waits Register 4000", "flies Register 4000"),
    ("previous 9000", "previous 9001"),
    ("previous 9000", ""),
];

/// The verdict where a part of the end is another.
pub fn judged_end(alloc: Global, part: &str, other: &str) -> Result<bool, Fault> {
    let end = changed(alloc, END, part, other)?;
    judged(alloc, BASE, LINES, end.as_str())
}

#[test]
fn another_end_is_no_run(rt: HostRuntime) {
    for (part, other) in CHANGES {
        assert!(rt; judged_end(rt.alloc(), part, other) == Ok(false), "{other}");
    }
    let (without_peer, _) = END.split_once("peer").unwrap_or((END, ""));
    assert!(rt; judged(rt.alloc(), BASE, LINES, without_peer) == Ok(false));
}
