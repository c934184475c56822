//! Want of memory. In a usual run no allocation is refused; `tools/sweep_memory.sh` refuses one after another.
use eu_base::{Fault, MOST_ENTRIES, Moment};
use eu_book::Book;
use eu_clock::FirstChooser;
use eu_fixtures::{at, pause_or_go_on, read_ask, settings, with_long_ids};
use eu_hash::HashKey;
use eu_model::{Ask, Command, Query, Reply, View};
use std::alloc::{AllocError, Global};

/// A book, and another that was told the same.
#[derive(Drop)]
struct Twins {
    tried: Book,
    other: Book,
}

/// What a call answers: the number of the entry, and the reply in a word; or the number of the leases that are seen.
type Told = Result<(u64, &'static str), Fault>;

fn word(reply: &Reply) -> &'static str {
    match reply {
        Reply::Registered { fresh: true } => "new",
        Reply::Done => "done",
        Reply::Conflict(_) => "conflict",
        Reply::Batch(tasks) => match tasks.as_slice() {
            [task] => task.action.name(),
            _ => "tasks",
        },
        Reply::Settled => "settled",
        _ => "other",
    }
}

fn apply(alloc: Global, book: &mut Book, command: Command, now: Moment) -> Told {
    let receipt = book.apply(alloc, 0, command, now, &mut FirstChooser)?;
    let told = (receipt.number, word(&receipt.reply));
    drop(receipt);
    Ok(told)
}

fn read(alloc: Global, book: &Book, query: &Query, now: Moment) -> Told {
    let view = book.read(alloc, query, now)?;
    let number = match &view {
        View::One(None) => 0,
        View::One(Some(_)) => 1,
        View::OfApp(all) | View::All(all) => all.as_slice().len() as u64,
        View::Counts(_) | View::Page(_, _) => 100,
    };
    drop(view);
    Ok((number, "seen"))
}

/// A minute ends, and a log is kept.
fn log(alloc: Global, book: &mut Book) -> Told {
    let (command, mine) = (Command::EndMinute, Command::EndMinute);
    let logged = book.apply_logged(alloc, 0, command, mine, at(0), &mut FirstChooser)?;
    let told = (logged.logged.number, word(&logged.receipt.reply));
    drop(logged);
    Ok(told)
}

/// There is room for all leases.
fn reserve(book: &mut Book) -> Told {
    book.reserve_all()?;
    Ok((0, "reserved"))
}

/// The journal begins anew.
fn checkpoint(alloc: Global, book: &mut Book) -> Told {
    let journal = book.checkpoint(alloc)?;
    drop(journal);
    Ok((0, "begun"))
}

fn ask(alloc: Global, book: &mut Book, words: &str) -> Told {
    let (moment, ask) = read_ask(alloc, words)?;
    match ask {
        Ask::Do(command) => apply(alloc, book, command, moment),
        Ask::See(query) => {
            let told = read(alloc, book, &query, moment);
            drop(query);
            told
        }
    }
}

/// Tells a book these words, as a script has them.
fn tell(alloc: Global, book: &mut Book, words: &str) -> Told {
    match words {
        "checkpoint" => checkpoint(alloc, book),
        "log" => log(alloc, book),
        "reserve" => reserve(book),
        words => ask(alloc, book, words),
    }
}

/// Everything that a book holds, as a text.
fn shown(alloc: Global, book: &Book) -> Result<String, AllocError> {
    let state = book.state(alloc)?;
    let base = book.base(alloc)?;
    let (first, entries, totals) = (book.first(), book.entries(), book.totals());
    let text = format!(in alloc; "{state:?} {base:?} {first} {entries:?} {totals:?}");
    drop((base, state));
    text
}

/// Whether both books have the same state, journal and totals.
fn are_same(alloc: Global, twins: &Twins) -> Result<bool, AllocError> {
    let one = shown(alloc, &twins.tried)?;
    let other = shown(alloc, &twins.other)?;
    Ok(one.as_str() == other.as_str())
}

/// The same, at the second try where the first finds no memory.
fn stay_same(alloc: Global, twins: &Twins) -> bool {
    match are_same(alloc, twins) {
        Ok(same) => same,
        Err(_) => are_same(alloc, twins) == Ok(true),
    }
}

/// Tells a book once more what found no memory.
fn tell_twice(alloc: Global, book: &mut Book, words: &str) -> Told {
    match tell(alloc, book, words) {
        Err(Fault::OutOfMemory) => tell(alloc, book, words),
        told => told,
    }
}

/// Tells both, the first once more where it found no memory, if that changed nothing. `Mismatch` where it did, or where they answer otherwise.
fn both(alloc: Global, twins: &mut Twins, words: &str) -> Told {
    let mut answer = tell(alloc, &mut twins.tried, words);
    if answer == Err(Fault::OutOfMemory) {
        if !are_same(alloc, twins)? {
            return Err(Fault::Mismatch);
        }
        answer = tell(alloc, &mut twins.tried, words);
    }
    if tell_twice(alloc, &mut twins.other, words) != answer {
        return Err(Fault::Mismatch);
    }
    answer
}

/// Tells both these words, or the same of ids of more than forty bytes.
fn both_of(alloc: Global, twins: &mut Twins, words: &str, long: bool) -> Told {
    if !long {
        return both(alloc, twins, words);
    }
    let words = with_long_ids(alloc, words)?;
    let told = both(alloc, twins, words.as_str());
    drop(words);
    told
}

/// Whether both are told so, and stay the same.
fn are_told(alloc: Global, twins: &mut Twins, lines: &[(&str, Told)], long: bool) -> bool {
    for (words, told) in lines {
        if both_of(alloc, twins, words, long) != *told {
            return false;
        }
    }
    stay_same(alloc, twins)
}

/// Minutes end until the journal is full. Whether each is an entry.
fn fill(alloc: Global, twins: &mut Twins) -> bool {
    for number in 2..MOST_ENTRIES as u64 {
        if both(alloc, twins, "roll 0") != Ok((number, "other")) {
            return false;
        }
    }
    true
}

/// A client registers and is set OUT_OF_SERVICE.
const BEGUN: [(&str, Told); 2] = [
    ("register 0 A i1 10 UP UNKNOWN 5 c", Ok((0, "new"))),
    ("set 0 A i1 OUT_OF_SERVICE - c", Ok((1, "done"))),
];

/// With a minute more the journal begins anew, and then once more.
const ANEW: [(&str, Told); 2] = [
    ("roll 0", Ok((65_536, "other"))),
    ("checkpoint", Ok((0, "begun"))),
];

/// Where a journal begins, how many entries it has, how many leases its base has, and how many steps were made in all.
fn extent(alloc: Global, book: &Book) -> Result<(u64, usize, usize, u64), AllocError> {
    let base = book.base(alloc)?;
    let leases = base.leases.as_slice().len();
    drop(base);
    Ok((
        book.first(),
        book.entries().len(),
        leases,
        book.totals().steps,
    ))
}

/// Whether a book has these extents, at the second try where the first finds no memory.
fn extends(alloc: Global, book: &Book, wanted: (u64, usize, usize, u64)) -> bool {
    match extent(alloc, book) {
        Err(_error) => extent(alloc, book) == Ok(wanted),
        found => found == Ok(wanted),
    }
}

/// Minutes end until the journal is full, of which none is refused memory.
fn begin_anew(alloc: Global, twins: &mut Twins) -> bool {
    pause_or_go_on(alloc);
    let begun = are_told(alloc, twins, BEGUN.as_slice(), false) && fill(alloc, twins);
    pause_or_go_on(alloc);
    begun
        && are_told(alloc, twins, &ANEW[..1], false)
        && extends(alloc, &twins.tried, (65_536, 1, 1, 65_537))
        && are_told(alloc, twins, &ANEW[1..], false)
        && extends(alloc, &twins.tried, (65_537, 0, 1, 65_537))
}

/// A client registers, and the peer is told; the client is set OUT_OF_SERVICE, which is lost; another client registers. A peer's renewal meets a
/// greater stamp; two minutes end, with a log and without; the settings are changed, and an eviction finds nobody.
const PLAYED: [(&str, Told); 19] = [
    ("register 0 A i1 10 UP UNKNOWN 5 c", Ok((0, "new"))),
    ("drain 0 0", Ok((1, "Register"))),
    ("drain 0 0", Err(Fault::Busy)),
    ("set 0 A i1 OUT_OF_SERVICE - c", Ok((2, "done"))),
    ("landed 0 0 200", Ok((3, "settled"))),
    ("drain 0 0", Ok((4, "StatusUpdate"))),
    ("lost 0 0", Ok((5, "settled"))),
    ("register 0 A i2 10 UP UNKNOWN 5 c", Ok((6, "new"))),
    ("look 0 A i1", Ok((1, "seen"))),
    ("of 0 A", Ok((2, "seen"))),
    ("all 0", Ok((2, "seen"))),
    ("counts 0", Ok((100, "seen"))),
    ("reserve", Ok((0, "reserved"))),
    ("renew 0 A i1 4 - r", Ok((7, "conflict"))),
    ("log", Ok((8, "other"))),
    ("roll 0", Ok((9, "other"))),
    ("config 0 off 50 15 7", Ok((10, "done"))),
    ("evict 0", Ok((11, "other"))),
    ("checkpoint", Ok((0, "begun"))),
];

/// Then an override is taken back, one client comes, a peer tells of one, and one leaves; the peer is told of all, which is lost.
const LATER: [(&str, Told); 9] = [
    ("unset 0 A i1 UP - c", Ok((12, "done"))),
    ("register 0 A i3 10 UP UNKNOWN 5 c", Ok((13, "new"))),
    ("adopt 0 A i4 10 UP UNKNOWN 5", Ok((14, "new"))),
    ("cancel 0 A i2 c", Ok((15, "done"))),
    ("drain 0 0", Ok((16, "tasks"))),
    ("of 0 B", Ok((0, "seen"))),
    ("page 0", Ok((100, "seen"))),
    ("lost 0 0", Ok((17, "settled"))),
    ("checkpoint", Ok((0, "begun"))),
];

/// A book with one peer.
fn open(alloc: Global) -> Result<Book, Fault> {
    Ok(Book::open(alloc, settings()?, 0, 1, HashKey::new(0, 0))?)
}

/// The same, at the second try where the first finds no memory.
fn open_twice(alloc: Global) -> Result<Book, Fault> {
    match open(alloc) {
        Err(Fault::OutOfMemory) => open(alloc),
        opened => opened,
    }
}

fn make_twins(alloc: Global) -> Result<Twins, Fault> {
    let tried = open_twice(alloc)?;
    let other = open_twice(alloc)?;
    Ok(Twins { tried, other })
}

fn begins_anew(alloc: Global) -> Result<bool, Fault> {
    let mut twins = make_twins(alloc)?;
    let begins_anew = begin_anew(alloc, &mut twins);
    drop(twins);
    Ok(begins_anew)
}

/// Whether both are told all of it, of ids as they stand, or of long ones.
fn is_played(alloc: Global, long: bool) -> Result<bool, Fault> {
    let mut twins = make_twins(alloc)?;
    let played = are_told(alloc, &mut twins, PLAYED.as_slice(), long)
        && are_told(alloc, &mut twins, LATER.as_slice(), long);
    drop(twins);
    Ok(played)
}

#[test]
fn memory_checkpoint(rt: HostRuntime) {
    assert!(rt; begins_anew(rt.alloc()) == Ok(true));
}

#[test]
fn memory_book(rt: HostRuntime) {
    assert!(rt; is_played(rt.alloc(), false) == Ok(true));
    assert!(rt; is_played(rt.alloc(), true) == Ok(true));
}
