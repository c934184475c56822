//! Ten clients i0 to i9 come at 0, for 10 s each, and i0 renews eighteen times. A minute ends then, and evictions follow at
//! 100,000 ms.
//!
//! Self-preservation is on. Ten clients owe seventeen renewals a minute at 85%, so eighteen permit an eviction. By 100,000 all have
//! expired. An eviction takes two of ten, two of eight, one of six and one of five. Each victim is one client fewer that is expected,
//! so that fewer renewals are owed, and the next eviction is permitted too.
use crate::tests::books::{audited, tell_lines};
use crate::tests::cases::judge;
use crate::tests::forms::state;
use eu_audit::audit;
use eu_base::Fault;
use eu_book::Book;
use eu_clock::FirstChooser;
use eu_fixtures::settings;
use eu_hash::HashKey;
use std::alloc::Global;

/// What a book is told.
const LINES: &str = "\
register 0 A i{0..10} 10 UP UNKNOWN 5 c
update 0
renew 0 A {i0,i0,i0,i0,i0,i0,i0,i0,i0,i0,i0,i0,i0,i0,i0,i0,i0,i0} - - c
roll 0
evict 100000
evict 100000
evict 100000
evict 100000";

/// The server after them: as many are expected as are left. They have been UP since 0, which is how a time is written that isn't set.
const END: &str = "\
expected 4
lease 0 0 0 A i{6..10} 10 UP UNKNOWN 5
last 18
previous 100000";

/// The auditor's verdict on the entries of a book, up to the server that was worked out.
fn ends_so(alloc: Global, book: &Book) -> Result<bool, Fault> {
    let (base, end) = (book.base(alloc)?, state(alloc, END)?);
    let verdict = audit(alloc, &base, book.entries(), &end);
    drop((base, end));
    Ok(verdict?)
}

/// Whether the evictions of a book, which take the first of those that have expired, take two, two, one and one; the verdict on the book,
/// and on its entries up to the server that was worked out.
fn four_evictions(alloc: Global) -> Result<(bool, bool, bool), Fault> {
    let config = settings()?;
    let mut book = Book::open(alloc, config, 0, 0, HashKey::new(0, 0))?;
    let evicted = tell_lines(alloc, &mut book, LINES, &mut FirstChooser);
    let verdict = audited(alloc, &book);
    let worked_out = ends_so(alloc, &book);
    drop(book);
    Ok((evicted?.as_str() == " 2 2 1 1", verdict?, worked_out?))
}

#[test]
fn four_evictions_of_a_book_are_a_run(rt: HostRuntime) {
    assert!(rt; four_evictions(rt.alloc()) == Ok((true, true, true)));
}

/// The same up to the second eviction.
const SECOND: &str = "
    # It may take others.
    from
    by
        register 0 A i{0..10} 10 UP UNKNOWN 5 c = fresh
        update 0 = expected 10
        renew 0 A {i0,i0,i0,i0,i0,i0,i0,i0,i0,i0,i0,i0,i0,i0,i0,i0,i0,i0} - - c = done
        roll 0 = last 18
        evict 100000 = evicted i0 i1
        evict 100000 = evicted i2 i3
    to
        expected 6
        lease 0 0 0 A i{4..10} 10 UP UNKNOWN 5
        last 18
        previous 100000
    yes
    by
        register 0 A i{0..10} 10 UP UNKNOWN 5 c = fresh
        update 0 = expected 10
        renew 0 A {i0,i0,i0,i0,i0,i0,i0,i0,i0,i0,i0,i0,i0,i0,i0,i0,i0,i0} - - c = done
        roll 0 = last 18
        evict 100000 = evicted i0 i1
        evict 100000 = evicted i6 i7
    to
        expected 6
        lease 0 0 0 A i{2,3,4,5,8,9} 10 UP UNKNOWN 5
        last 18
        previous 100000
    yes

    # It may not take one alone.
    by
        register 0 A i{0..10} 10 UP UNKNOWN 5 c = fresh
        update 0 = expected 10
        renew 0 A {i0,i0,i0,i0,i0,i0,i0,i0,i0,i0,i0,i0,i0,i0,i0,i0,i0,i0} - - c = done
        roll 0 = last 18
        evict 100000 = evicted i0 i1
        evict 100000 = evicted i6
    to
        expected 7
        lease 0 0 0 A i{2,3,4,5,7,8,9} 10 UP UNKNOWN 5
        last 18
        previous 100000
    no
";

#[test]
fn the_second_eviction_takes_any_two(rt: HostRuntime) {
    assert!(rt; judge(rt.alloc(), SECOND) == Ok(3));
}
