//! Books that are told drawn commands at drawn moments.
use crate::tests::books::{audited, tell};
use eu_base::{Config, Fault};
use eu_book::{Book, Receipt};
use eu_clock::{FirstChooser, RngChooser};
use eu_fixtures::moment;
use eu_hash::HashKey;
use eu_model::{Command, Reply};
use rand::RngExt;
use rand_core::SeedableRng;
use rand_pcg::Pcg32;
use std::alloc::Global;

/// Commands of each kind that doesn't speak of a peer; registrations and renewals come more often. For a word in capitals another is
/// drawn.
const KINDS: [&str; 20] = [
    "cancel MOMENT A ID SRC",
    "set MOMENT A ID STATUS DIRTY_OR_NONE SRC",
    "set MOMENT A ID STATUS DIRTY_OR_NONE SRC",
    "unset MOMENT A ID STATUS_OR_NONE DIRTY_OR_NONE SRC",
    "adopt MOMENT A ID SECS STATUS STATUS DIRTY",
    "adopt MOMENT A ID SECS STATUS STATUS DIRTY",
    "roll MOMENT",
    "update MOMENT",
    "config MOMENT SWITCH PERCENT INTERVAL EVICT_MS",
    "evict MOMENT",
    "evict MOMENT",
    "renew MOMENT A ID DIRTY_OR_NONE STATUS_OR_NONE SRC",
    "renew MOMENT A ID DIRTY_OR_NONE STATUS_OR_NONE SRC",
    "renew MOMENT A ID DIRTY_OR_NONE STATUS_OR_NONE SRC",
    "renew MOMENT A ID DIRTY_OR_NONE STATUS_OR_NONE SRC",
    "register MOMENT A ID SECS STATUS STATUS DIRTY SRC",
    "register MOMENT A ID SECS STATUS STATUS DIRTY SRC",
    "register MOMENT A ID SECS STATUS STATUS DIRTY SRC",
    "register MOMENT A ID SECS STATUS STATUS DIRTY SRC",
    "register MOMENT A ID SECS STATUS STATUS DIRTY SRC",
];

const IDS: [&str; 10] = ["i0", "i1", "i2", "i3", "i4", "i5", "i6", "i7", "i8", "i9"];

const STATUSES: [&str; 5] = ["UP", "DOWN", "STARTING", "OUT_OF_SERVICE", "UNKNOWN"];

fn either<'a>(rng: &mut Pcg32, one: &'a str, other: &'a str) -> &'a str {
    if rng.random_range(0u32..2) == 0 {
        one
    } else {
        other
    }
}

/// The word that is drawn for one in capitals, if one is. For one that may be none it may be another in capitals.
fn drawn_word<'a>(rng: &mut Pcg32, word: &'a str) -> &'a str {
    match word {
        "ID" => IDS[rng.random_range(0usize..10)],
        "STATUS" => STATUSES[rng.random_range(0usize..5)],
        "STATUS_OR_NONE" => either(rng, "-", "STATUS"),
        "DIRTY_OR_NONE" => either(rng, "-", "DIRTY"),
        "SRC" => either(rng, "c", "r"),
        "SWITCH" => either(rng, "on", "off"),
        _ => word,
    }
}

/// The number that is drawn for a word in capitals: stamps are below 8, and durations 1 to 20 s.
fn drawn_number(rng: &mut Pcg32, word: &str) -> Option<u32> {
    match word {
        "DIRTY" => Some(rng.random_range(0u32..8)),
        "SECS" => Some(rng.random_range(1u32..21)),
        "PERCENT" => Some(rng.random_range(0u32..101)),
        "INTERVAL" => Some(rng.random_range(1u32..61)),
        "EVICT_MS" => Some(rng.random_range(0u32..10_000)),
        _ => None,
    }
}

/// Writes a word, or what is drawn for it.
fn push_drawn(rng: &mut Pcg32, line: &mut String, ms: u64, word: &str) -> Result<(), Fault> {
    let word = drawn_word(rng, word);
    let word = drawn_word(rng, word);
    if word == "MOMENT" {
        write!(line, " {ms}")?;
        return Ok(());
    }
    match drawn_number(rng, word) {
        Some(number) => write!(line, " {number}")?,
        None => write!(line, " {word}")?,
    }
    Ok(())
}

/// A drawn command at that moment.
fn drawn_line(alloc: Global, rng: &mut Pcg32, ms: u64) -> Result<String, Fault> {
    let kind = KINDS[rng.random_range(0usize..20)];
    let mut line = String::new(alloc);
    for word in kind.split(' ') {
        push_drawn(rng, &mut line, ms, word)?;
    }
    Ok(line)
}

/// How many tasks go in flight to a peer; none where it is refused.
fn drained(alloc: Global, book: &mut Book, peer: u32, ms: u64) -> Result<usize, Fault> {
    let drain = Command::Drain { peer };
    match book.apply(alloc, 0, drain, moment(ms)?, &mut FirstChooser) {
        Ok(receipt) => Ok(batch_of(receipt)),
        Err(Fault::OutOfMemory) => Err(Fault::OutOfMemory),
        Err(_) => Ok(0),
    }
}

/// How many tasks a batch has.
fn batch_of(receipt: Receipt) -> usize {
    match &receipt.reply {
        Reply::Batch(tasks) => tasks.as_slice().len(),
        _ => 0,
    }
}

/// That a batch of so many tasks has landed, each of which was answered 200 or 404.
fn landing(
    alloc: Global,
    rng: &mut Pcg32,
    ms: u64,
    peer: u32,
    count: usize,
) -> Result<String, Fault> {
    let mut line = format!(in alloc; "landed {ms} {peer}")?;
    for _ in 0..count {
        line.push_str(either(rng, " 200", " 404"))?;
    }
    Ok(line)
}

/// Drains what waits for one of two peers, if something does; then the batch has landed or is lost. Tells how many tasks it had.
fn serve_peer(alloc: Global, book: &mut Book, rng: &mut Pcg32, ms: u64) -> Result<usize, Fault> {
    let peer = rng.random_range(0u32..2);
    let count = drained(alloc, book, peer, ms)?;
    if count > 0 {
        let line = if rng.random_range(0u32..2) == 0 {
            landing(alloc, rng, ms, peer, count)?
        } else {
            format!(in alloc; "lost {ms} {peer}")?
        };
        tell(alloc, book, 0, line.as_str(), &mut FirstChooser)?;
    }
    Ok(count)
}

/// Tells a book 1,000 drawn commands. The moments go up and down: each is up to 60 s after a time that goes on by 100 ms. Where it has
/// peers, every fourth or so is followed by a turn of one of them. Has how many leases evictions take, and how many tasks go in flight.
fn tell_drawn(
    alloc: Global,
    book: &mut Book,
    rng: &mut Pcg32,
    chooser: &mut RngChooser,
    has_peers: bool,
) -> Result<(usize, usize), Fault> {
    let mut evicted = 0usize;
    let mut sent = 0usize;
    for number in 0u64..1_000 {
        let ms = number * 100 + u64::from(rng.random_range(0u32..60_000));
        let line = drawn_line(alloc, rng, ms)?;
        evicted = evicted.saturating_add(tell(alloc, book, 0, line.as_str().trim(), chooser)?);
        if has_peers && rng.random_range(0u32..4) == 0 {
            sent = sent.saturating_add(serve_peer(alloc, book, rng, ms)?);
        }
    }
    Ok((evicted, sent))
}

/// What a run was: how many steps it had; whether evictions took somebody, renewals were counted, and tasks went in flight; and the
/// verdict on it.
type Run = (u64, (bool, bool, bool), bool);

/// The run of that seed, in a book with two peers or with none.
fn drawn_run(alloc: Global, seed: u64, has_peers: bool) -> Result<Run, Fault> {
    let config = Config::new(false, 50, 30, 1_000)?;
    let peers = if has_peers { 2 } else { 0 };
    let mut book = Book::open(alloc, config, 3, peers, HashKey::new(0, 0))?;
    let mut rng = Pcg32::seed_from_u64(seed);
    let mut chooser = RngChooser::seeded(seed);
    let told = tell_drawn(alloc, &mut book, &mut rng, &mut chooser, has_peers);
    let totals = book.totals();
    let verdict = audited(alloc, &book);
    drop(book);
    let (evicted, sent) = told?;
    let does = (evicted > 0, totals.counted > 0, sent > 0);
    Ok((totals.steps, does, verdict?))
}

#[test]
fn drawn_commands_are_a_run(rt: HostRuntime) {
    for seed in 0..5 {
        let alone = drawn_run(rt.alloc(), seed, false);
        assert!(rt;
            alone == Ok((1_000, (true, true, false), true)),
            "seed {seed}"
        );
        let with_peers = drawn_run(rt.alloc(), seed, true);
        assert!(rt;
            matches!(with_peers, Ok((_, (_, _, true), true))),
            "seed {seed}"
        );
    }
}
