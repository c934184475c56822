//! A book that is asked by two passes in turn, at 0 to 6 ms. Pass 0 registers two clients and renews one three times; pass 1 renews the
//! other twice. Nobody is expected when it is opened, so nobody is at the end.
use crate::tests::books::tell;
use crate::tests::cases::judge;
use crate::tests::forms::{entries, state, verdict};
use eu_audit::audit;
use eu_base::Fault;
use eu_book::Book;
use eu_clock::FirstChooser;
use eu_fixtures::settings;
use eu_hash::HashKey;
use eu_model::{Entry, State};
use std::alloc::Global;

/// What each pass tells.
const STEPS: [(u64, &str); 7] = [
    (0, "register 0 A i1 90 UP UNKNOWN 5 c"),
    (0, "register 1 A i2 90 UP UNKNOWN 5 c"),
    (0, "renew 2 A i1 - - c"),
    (0, "renew 3 A i1 - - c"),
    (0, "renew 4 A i1 - - c"),
    (1, "renew 5 A i2 - - c"),
    (1, "renew 6 A i2 - - c"),
];

/// The server at the end, without peers. i1 renewed last at 4 ms, and i2 at 6 ms. i1 has been UP since 0, which is how a time is written
/// that isn't set.
const END: &str = "\
lease 0 90004 0 A i1 90 UP UNKNOWN 5
lease 1 90006 1 A i2 90 UP UNKNOWN 5
since 5";

fn tell_steps(alloc: Global, book: &mut Book) -> Result<(), Fault> {
    for (pass, line) in STEPS {
        tell(alloc, book, pass, line, &mut FirstChooser)?;
    }
    Ok(())
}

/// The base and the entries of a book with one peer or with none, and what the book is at the end.
fn kept(alloc: Global, has_peer: bool) -> Result<(State, Vec<Entry>, State), Fault> {
    let config = settings()?;
    let peers = if has_peer { 1 } else { 0 };
    let mut book = Book::open(alloc, config, 0, peers, HashKey::new(0, 0))?;
    let told = tell_steps(alloc, &mut book);
    let (base, end) = (book.base(alloc), book.state(alloc));
    let entries = book.into_entries();
    told?;
    Ok((base?, entries, end?))
}

/// The verdict on the book, and on its journal up to the server that was worked out, which has no peers.
fn whole(alloc: Global, has_peer: bool) -> Result<(bool, bool), Fault> {
    let (base, entered, end) = kept(alloc, has_peer)?;
    let own = verdict(alloc, base, entered, end)?;
    let (base, entered, end) = kept(alloc, has_peer)?;
    drop(end);
    let worked_out = verdict(alloc, base, entered, state(alloc, END)?)?;
    Ok((own, worked_out))
}

#[test]
fn a_book_of_two_passes_is_a_run(rt: HostRuntime) {
    assert!(rt; whole(rt.alloc(), false) == Ok((true, true)));
    assert!(rt; whole(rt.alloc(), true) == Ok((true, false)));
}

/// The verdict where the entry of that place is left out, if it is one, where this one follows, if it is one, and where so many more
/// are expected at the end.
fn changed(
    alloc: Global,
    has_peer: bool,
    place: usize,
    line: &str,
    expected: u64,
) -> Result<bool, Fault> {
    let (base, mut entered, mut end) = kept(alloc, has_peer)?;
    if place < entered.len() {
        drop(entered.remove(place));
    }
    for entry in entries(alloc, line)? {
        entered.push(entry)?;
    }
    end.expected = end.expected.saturating_add(expected);
    verdict(alloc, base, entered, end)
}

#[test]
fn a_book_of_two_passes_that_is_changed_is_no_run(rt: HostRuntime) {
    for place in 0..STEPS.len() {
        assert!(rt;
            changed(rt.alloc(), false, place, "", 0) == Ok(false),
            "at {place}"
        );
        assert!(rt;
            changed(rt.alloc(), true, place, "", 0) == Ok(false),
            "at {place}"
        );
    }
    assert!(rt; changed(rt.alloc(), false, STEPS.len(), "", 1) == Ok(false));
}

/// What needs a batch in flight to a peer is refused where none is, and so is what names a peer that isn't there.
#[test]
fn an_entry_that_is_refused_is_no_run(rt: HostRuntime) {
    let end = STEPS.len();
    for line in [
        "landed 6 0 = settled",
        "lost 6 0 = settled",
        "drain 6 1 = batch",
    ] {
        assert!(rt;
            changed(rt.alloc(), false, end, line, 0) == Ok(false),
            "{line}"
        );
        assert!(rt;
            changed(rt.alloc(), true, end, line, 0) == Ok(false),
            "{line}"
        );
    }
}

/// The auditor's verdict on no entries from the end of a book to itself.
fn stays(alloc: Global, has_peer: bool) -> Result<bool, Fault> {
    let (base, entered, end) = kept(alloc, has_peer)?;
    drop((base, entered));
    let verdict = audit(alloc, &end, &[], &end);
    drop(end);
    Ok(verdict?)
}

/// That end, and the same with its leases the other way round.
const ENDS: &str = "
    from
        lease 0 90004 0 A i1 90 UP UNKNOWN 5
        lease 1 90006 1 A i2 90 UP UNKNOWN 5
        since 5
    plain
    from
        lease 1 90006 1 A i2 90 UP UNKNOWN 5
        lease 0 90004 0 A i1 90 UP UNKNOWN 5
        since 5
    not plain
";

#[test]
fn an_end_of_two_passes_stays(rt: HostRuntime) {
    assert!(rt; stays(rt.alloc(), false) == Ok(true));
    assert!(rt; stays(rt.alloc(), true) == Ok(true));
    assert!(rt; judge(rt.alloc(), ENDS) == Ok(2));
}
