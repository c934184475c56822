//! Two servers that tell each other what their clients did, and peers that fail.
use eu_base::{Action, Fault, Moment, Task};
use eu_book::{Book, Receipt};
use eu_clock::{FirstChooser, ListClock};
use eu_fixtures::{
    Told, at, cut, first_wrong, key, moment, number_of, read_ask, read_command, settings,
    tell_fault, tell_read, tell_reply,
};
use eu_hash::HashKey;
use eu_in_process::InProcess;
use eu_model::{Ask, Query, View};
use eu_peer::{ItemAnswer, Lost, Peer, Turn, replicate_turn};
use std::alloc::{AllocError, Global};

/// Two servers, of which the one is the other's peer. The clock of the peer stands at 0.
///
/// `here WORDS` and `there WORDS` tell the one and the other what words of a script say. `held` asks such a server for how many leases it holds, and `seen` for stamp, status and override
/// of i1. `turn MS` is a turn of the one for the other; `losing MS` one for a peer that loses each batch, `short MS` one for a peer that gives two answers, and `back MS` one of the other server
/// for a peer that loses each batch. `beat` and `cancel` send the other server such a task of i1, without an instance. `sizes N` sends batches of each size up to N.
#[derive(Drop)]
pub struct Pair {
    pub here: Book,
    pub there: InProcess<Book, ListClock>,
}

/// A book with one peer, at which nothing is held.
fn opened(alloc: Global) -> Result<Book, Fault> {
    let config = settings()?;
    Ok(Book::open(alloc, config, 0, 1, HashKey::new(0, 0))?)
}

/// A clock that stands at this moment.
pub fn clock(alloc: Global, moment: Moment) -> Result<ListClock, Fault> {
    let moments = Vec::from_slice(alloc, [moment].as_slice())?;
    Ok(ListClock::new(moments))
}

/// Two servers at which nothing is held.
pub fn opened_pair(alloc: Global) -> Result<Pair, Fault> {
    let clock = clock(alloc, at(0))?;
    let desk = opened(alloc)?;
    let here = opened(alloc)?;
    Ok(Pair {
        here,
        there: InProcess { desk, clock },
    })
}

/// Whether a command was accepted.
pub fn is_accepted(answer: Result<Receipt, Fault>) -> bool {
    let is_accepted = answer.is_ok();
    drop(answer);
    is_accepted
}

/// How many leases a book holds.
pub fn held(alloc: Global, book: &Book) -> Result<u64, Fault> {
    match book.read(alloc, &Query::Counts, at(0))? {
        View::Counts(counts) => Ok(counts.held),
        other => {
            drop(other);
            Err(Fault::BadValue)
        }
    }
}

/// Writes the stamp, the status and the overridden status of the lease that a view shows.
pub fn tell_seen(view: &View, out: &mut String) -> Result<(), AllocError> {
    match view {
        View::One(Some(listed)) => {
            let instance = &listed.instance;
            let (status, over) = (instance.status().name(), instance.overridden().name());
            write!(out, "{} {status} {over}", instance.last_dirty().value())
        }
        _ => out.push_str("none"),
    }
}

/// Writes the same of i1 where a book holds it.
fn tell_first(alloc: Global, book: &Book, out: &mut String) -> Result<(), Fault> {
    let query = Query::One(key(alloc, "i1")?);
    let view = book.read(alloc, &query, at(0))?;
    Ok(tell_seen(&view, out)?)
}

/// Writes what a command is answered: the number of its entry and the reply.
fn tell_answer(answer: Result<Receipt, Fault>, out: &mut String) -> Result<(), AllocError> {
    match answer {
        Ok(receipt) => {
            write!(out, "{} ", receipt.number)?;
            tell_reply(out, &receipt.reply)
        }
        Err(fault) => tell_fault(out, fault),
    }
}

fn tell_book(alloc: Global, book: &mut Book, words: &str, out: &mut String) -> Result<(), Fault> {
    match words {
        "held" => return Ok(write!(out, "{}", held(alloc, book)?)?),
        "seen" => return tell_first(alloc, book, out),
        _ => {}
    }
    let (moment, ask) = read_ask(alloc, words)?;
    match ask {
        Ask::Do(command) => {
            let answer = book.apply(alloc, 0, command, moment, &mut FirstChooser);
            Ok(tell_answer(answer, out)?)
        }
        Ask::See(query) => {
            let view = book.read(alloc, &query, moment);
            drop(query);
            Ok(tell_read(out, view)?)
        }
    }
}

/// Writes what a turn does for the one peer.
fn tell_turn<P: Peer>(
    alloc: Global,
    book: &mut Book,
    peer: &mut P,
    ms: &str,
    out: &mut String,
) -> Result<(), Fault> {
    let mut clock = clock(alloc, moment(number_of(ms)?)?)?;
    let turn = replicate_turn(alloc, book, 0, peer, &mut clock);
    drop(clock);
    Ok(write!(out, "{:?}", turn?)?)
}

/// A peer that loses each batch.
#[derive(Drop)]
struct Losing;

impl Peer for Losing {
    ghost submits = { λ before batch answers after. Unit {0} };

    fn submit(&mut self, _alloc: Global, _batch: &[Task]) -> Result<Vec<ItemAnswer>, Lost> {
        Err(Lost)
    }
}

/// Answers that so many tasks were done.
pub fn done(alloc: Global, count: usize) -> Result<Vec<ItemAnswer>, AllocError> {
    let mut answers = Vec::with_capacity(alloc, count)?;
    for _ in 0..count {
        answers.push(ItemAnswer {
            code: 200,
            instance: None,
        })?;
    }
    Ok(answers)
}

/// A peer that gives two answers, to however many tasks.
#[derive(Drop)]
struct Short;

impl Peer for Short {
    ghost submits = { λ before batch answers after. Unit {0} };

    fn submit(&mut self, alloc: Global, _batch: &[Task]) -> Result<Vec<ItemAnswer>, Lost> {
        done(alloc, 2).map_err(|_| Lost)
    }
}

/// Sends a server a task of i1 without its instance, and writes by which codes that is answered.
fn tell_code(
    alloc: Global,
    server: &mut InProcess<Book, ListClock>,
    action: Action,
    out: &mut String,
) -> Result<(), Fault> {
    let mut batch = Vec::new(alloc);
    batch.push(Task {
        action,
        key: key(alloc, "i1")?,
        status: None,
        instance: None,
        queued: at(0),
    })?;
    let answers = server.submit(alloc, batch.as_slice());
    drop(batch);
    for answer in &answers.map_err(|_| Fault::NoFlight)? {
        write!(out, "{}", answer.code)?;
    }
    Ok(())
}

/// Whether that many clients register, and a turn sends them all.
fn sends_batch(alloc: Global, pair: &mut Pair, size: usize) -> Result<bool, Fault> {
    for number in 0..size {
        let words = format!(in alloc; "register 0 A j{number} 90 UP UNKNOWN 5 c")?;
        let (_, command) = read_command(alloc, words.as_str())?;
        drop(words);
        let receipt = pair
            .here
            .apply(alloc, 0, command, at(0), &mut FirstChooser)?;
        drop(receipt);
    }
    let mut clock = clock(alloc, at(0))?;
    let turn = replicate_turn(alloc, &mut pair.here, 0, &mut pair.there, &mut clock);
    drop(clock);
    let adopted = 0;
    Ok(
        turn?
            == Turn::Sent {
                tasks: size,
                adopted,
            },
    )
}

/// Writes how many sizes of batches, from 1 on, are sent.
fn tell_sizes(alloc: Global, pair: &mut Pair, most: &str, out: &mut String) -> Result<(), Fault> {
    let mut sent = 0u64;
    for size in 1..number_of(most)?.saturating_add(1) {
        if sends_batch(alloc, pair, size as usize)? {
            sent = sent.saturating_add(1);
        }
    }
    Ok(write!(out, "{sent}")?)
}

impl Told for Pair {
    fn tell(&mut self, alloc: Global, said: &str, out: &mut String) -> Result<(), Fault> {
        let (word, rest) = cut(said);
        let (here, there) = (&mut self.here, &mut self.there);
        match word {
            "here" => tell_book(alloc, here, rest, out),
            "there" => tell_book(alloc, &mut there.desk, rest, out),
            "turn" => tell_turn(alloc, here, there, rest, out),
            "losing" => tell_turn(alloc, here, &mut Losing, rest, out),
            "short" => tell_turn(alloc, here, &mut Short, rest, out),
            "back" => tell_turn(alloc, &mut there.desk, &mut Losing, rest, out),
            "beat" => tell_code(alloc, there, Action::Heartbeat, out),
            "cancel" => tell_code(alloc, there, Action::Cancel, out),
            "sizes" => tell_sizes(alloc, self, rest, out),
            _ => Err(Fault::BadValue),
        }
    }
}

/// What two servers are told at which nothing is held, and what comes of it.
const PLAYS: [(&str, &str); 11] = [
    (
        "a registration is told, and not told back",
        "here register 0 A i1 90 UP UNKNOWN 5 c = 0 Registered { fresh: true }
turn 0 = Sent { tasks: 1, adopted: 0 }
there held = 1
back 0 = Idle",
    ),
    (
        "what a peer lost is registered again",
        "here register 0 A i1 90 UP UNKNOWN 5 c = 0 Registered { fresh: true }
turn 0 = Sent { tasks: 1, adopted: 0 }
there cancel 1 A i1 r = 1 Done
here renew 2 A i1 - - c = 3 Done
turn 3 = Sent { tasks: 1, adopted: 0 }
there held = 0
turn 3 = Sent { tasks: 1, adopted: 0 }
there held = 1
turn 3 = Idle",
    ),
    (
        "a newer instance is adopted",
        "here register 0 A i1 90 UP UNKNOWN 5 r = 0 Registered { fresh: true }
there register 0 A i1 90 UP UNKNOWN 9 r = 0 Registered { fresh: true }
here renew 1 A i1 - - c = 1 Done
turn 2 = Sent { tasks: 1, adopted: 1 }
here seen = 9 UP UNKNOWN",
    ),
    (
        "two newer instances are adopted",
        "here register 0 A i1 90 UP UNKNOWN 5 r = 0 Registered { fresh: true }
there register 0 A i1 90 UP UNKNOWN 9 r = 0 Registered { fresh: true }
here renew 1 A i1 - - c = 1 Done
here register 0 A i2 90 UP UNKNOWN 5 r = 2 Registered { fresh: true }
there register 0 A i2 90 UP UNKNOWN 9 r = 1 Registered { fresh: true }
here renew 1 A i2 - - c = 3 Done
turn 2 = Sent { tasks: 2, adopted: 2 }
turn 3 = Idle",
    ),
    (
        "a heartbeat brings the override",
        "here register 0 A i1 90 UP UNKNOWN 5 r = 0 Registered { fresh: true }
there register 0 A i1 90 UP UNKNOWN 5 r = 0 Registered { fresh: true }
here set 1 A i1 OUT_OF_SERVICE 7 r = 1 Done
here renew 2 A i1 - - c = 2 Done
turn 3 = Sent { tasks: 1, adopted: 0 }
there seen = 5 UP OUT_OF_SERVICE",
    ),
    (
        "an override is told and taken back",
        "here register 0 A i1 90 UP UNKNOWN 5 c = 0 Registered { fresh: true }
turn 0 = Sent { tasks: 1, adopted: 0 }
here set 1 A i1 OUT_OF_SERVICE 7 c = 3 Done
turn 2 = Sent { tasks: 1, adopted: 0 }
there seen = 7 OUT_OF_SERVICE OUT_OF_SERVICE
here unset 1 A i1 UP 9 c = 6 Done
turn 2 = Sent { tasks: 1, adopted: 0 }
there seen = 9 UP UNKNOWN",
    ),
    (
        "a lost batch waits until it is too old",
        "here register 0 A i1 90 UP UNKNOWN 5 c = 0 Registered { fresh: true }
here register 0 A i2 90 UP UNKNOWN 5 c = 1 Registered { fresh: true }
here register 0 A i3 90 UP UNKNOWN 5 c = 2 Registered { fresh: true }
losing 0 = Lost { tasks: 3 }
losing 30000 = Lost { tasks: 3 }
losing 30001 = Idle",
    ),
    (
        "too few answers lose the batch",
        "here register 0 A i1 90 UP UNKNOWN 5 c = 0 Registered { fresh: true }
here register 0 A i2 90 UP UNKNOWN 5 c = 1 Registered { fresh: true }
here register 0 A i3 90 UP UNKNOWN 5 c = 2 Registered { fresh: true }
short 0 = Lost { tasks: 3 }
turn 1 = Sent { tasks: 3, adopted: 0 }",
    ),
    (
        "a batch that never ended is sent again",
        "here register 0 A i1 90 UP UNKNOWN 5 c = 0 Registered { fresh: true }
here register 0 A i2 90 UP UNKNOWN 5 c = 1 Registered { fresh: true }
here register 0 A i3 90 UP UNKNOWN 5 c = 2 Registered { fresh: true }
here drain 0 0 = 3 Batch Register i1 Register i2 Register i3
turn 1 = Waiting
there held = 0
turn 2 = Sent { tasks: 3, adopted: 0 }
there held = 3",
    ),
    (
        "a heartbeat without its instance is answered 400, where a cancel needs none",
        "here register 0 A i1 90 UP UNKNOWN 5 c = 0 Registered { fresh: true }
turn 0 = Sent { tasks: 1, adopted: 0 }
beat = 400
cancel = 200
there held = 0",
    ),
    ("batches of each size are sent", "sizes 250 = 250"),
];

/// The number of the first line of a text of which something else comes.
fn plays(alloc: Global, text: &str) -> Result<Option<usize>, Fault> {
    let mut pair = opened_pair(alloc)?;
    let wrong = first_wrong(alloc, &mut pair, text);
    drop(pair);
    Ok(wrong)
}

#[test]
fn servers_tell_each_other(rt: HostRuntime) {
    for (name, text) in PLAYS {
        assert_eq!(rt; plays(rt.alloc(), text), Ok(None), "{name}");
    }
}
