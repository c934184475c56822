//! A book alone: what its lines say, and what comes of each, worked out by hand.
use crate::tests::texts::{tell_answer, tell_receipt};
use eu_base::{Config, Fault};
use eu_book::{Book, Dropped, Journal, LoggedReceipt};
use eu_clock::{FirstChooser, ListChooser};
use eu_fixtures::{
    Told, at, first_wrong, number_of, numbered, read_ask, settings, tell_fault, tell_queues,
    tell_read, tell_reply, tell_state,
};
use eu_hash::HashKey;
use eu_model::{Ask, Command, Entry};
use std::alloc::{AllocError, Global};

/// A book, and by which words an eviction draws from it.
///
/// It is told `PASS WORDS`, as words are in a script, or `log PASS WORDS`, where who asks keeps a log; `minutes N`, of which no answer is
/// told; and `checkpoint`. It is asked for its `state`, its `queues`, its `journal`, the `base` of that, and its `entries`.
#[derive(Drop)]
struct Desk {
    book: Book,
    chooser: ListChooser,
}

fn tell_command(out: &mut String, command: &Command) -> Result<(), AllocError> {
    match command {
        Command::Register { .. } => out.push_str("Register"),
        Command::Renew { .. } => out.push_str("Renew"),
        other => write!(out, "{other:?}"),
    }
}

fn tell_entry(out: &mut String, entry: &Entry) -> Result<(), AllocError> {
    write!(
        out,
        "{} {} {} ",
        entry.pass,
        entry.number,
        entry.moment.ms()
    )?;
    tell_command(out, &entry.command)?;
    out.push_str(" ")?;
    tell_reply(out, &entry.reply)?;
    out.push_str(";")
}

fn tell_entries(out: &mut String, entries: &[Entry]) -> Result<(), AllocError> {
    for entry in entries {
        tell_entry(out, entry)?;
    }
    Ok(())
}

/// Writes where the journal begins, how many entries it has, how many leases its base has, and what was done in all.
fn tell_journal(alloc: Global, out: &mut String, book: &Book) -> Result<(), AllocError> {
    let base = book.base(alloc)?;
    let (entries, leases) = (book.entries().len(), base.leases.as_slice().len());
    drop(base);
    write!(
        out,
        "{} {entries} {leases} {:?}",
        book.first(),
        book.totals()
    )
}

/// Writes how many entries a journal had that has begun anew.
fn tell_retired(
    out: &mut String,
    retired: Result<Box<Journal>, AllocError>,
) -> Result<(), AllocError> {
    let journal = retired?;
    let entries = journal.entries.len();
    drop(journal);
    write!(out, "{entries}")
}

fn tell_base_of(alloc: Global, out: &mut String, book: &Book) -> Result<(), AllocError> {
    let base = book.base(alloc)?;
    let told = tell_state(out, &base);
    drop(base);
    told
}

fn tell_state_of(alloc: Global, out: &mut String, book: &Book) -> Result<(), AllocError> {
    let state = book.state(alloc)?;
    let told = tell_state(out, &state);
    drop(state);
    told
}

fn tell_queues_of(alloc: Global, out: &mut String, book: &Book) -> Result<(), AllocError> {
    let state = book.state(alloc)?;
    let told = tell_queues(out, state.queues.as_slice());
    drop(state);
    told
}

/// Writes what is given to who keeps a log; and what the log keeps, and the number of the entry that is let go of, if one is.
fn tell_logged(
    out: &mut String,
    told: &LoggedReceipt,
    dropped: &Dropped,
) -> Result<(), AllocError> {
    tell_receipt(out, &told.receipt)?;
    write!(out, ", {} {} ", told.logged.number, told.logged.moment.ms())?;
    tell_command(out, &told.logged.command)?;
    out.push_str(" ")?;
    tell_reply(out, &told.logged.reply)?;
    match &dropped.entry {
        Some(entry) => write!(out, ", {}", entry.number),
        None => Ok(()),
    }
}

/// Ends so many minutes.
fn end_minutes(alloc: Global, book: &mut Book, count: u64) -> Result<(), Fault> {
    for _ in 0..count {
        drop(book.apply(alloc, 0, Command::EndMinute, at(0), &mut FirstChooser)?);
    }
    Ok(())
}

impl Desk {
    fn ask(&mut self, alloc: Global, said: &str, out: &mut String) -> Result<(), Fault> {
        let (pass, words) = numbered(said)?;
        let (moment, ask) = read_ask(alloc, words)?;
        match ask {
            Ask::Do(command) => {
                let answer = self
                    .book
                    .apply(alloc, pass, command, moment, &mut self.chooser);
                Ok(tell_answer(out, answer)?)
            }
            Ask::See(query) => {
                let view = self.book.read(alloc, &query, moment);
                drop(query);
                Ok(tell_read(out, view)?)
            }
        }
    }

    fn log(&mut self, alloc: Global, said: &str, out: &mut String) -> Result<(), Fault> {
        let (pass, words) = numbered(said)?;
        let (moment, Ask::Do(command)) = read_ask(alloc, words)? else {
            return Err(Fault::BadValue);
        };
        let mine = command.copy(alloc)?;
        match self
            .book
            .apply_logged(alloc, pass, command, mine, moment, &mut self.chooser)
        {
            Ok(logged) => {
                let dropped = self.book.let_go(alloc);
                let told = tell_logged(out, &logged, &dropped);
                drop((logged, dropped));
                Ok(told?)
            }
            Err(fault) => Ok(tell_fault(out, fault)?),
        }
    }

    fn end_minutes(&mut self, alloc: Global, count: &str, out: &mut String) -> Result<(), Fault> {
        end_minutes(alloc, &mut self.book, number_of(count)?)?;
        Ok(tell_journal(alloc, out, &self.book)?)
    }
}

impl Told for Desk {
    fn tell(&mut self, alloc: Global, said: &str, out: &mut String) -> Result<(), Fault> {
        match said {
            "state" => return Ok(tell_state_of(alloc, out, &self.book)?),
            "queues" => return Ok(tell_queues_of(alloc, out, &self.book)?),
            "journal" => return Ok(tell_journal(alloc, out, &self.book)?),
            "base" => return Ok(tell_base_of(alloc, out, &self.book)?),
            "entries" => return Ok(tell_entries(out, self.book.entries())?),
            "checkpoint" => return Ok(tell_retired(out, self.book.checkpoint(alloc))?),
            _ => {}
        }
        if let Some(count) = said.strip_prefix("minutes ") {
            return self.end_minutes(alloc, count, out);
        }
        match said.strip_prefix("log ") {
            Some(said) => self.log(alloc, said, out),
            None => self.ask(alloc, said, out),
        }
    }
}

/// The first wrong line of a text, as a book is told it that is opened with these settings, and how many entries its journal has then. It has no
/// peer or one.
fn plays(
    alloc: Global,
    config: Result<Config, Fault>,
    has_peer: bool,
    text: &str,
) -> Result<(Option<usize>, usize), Fault> {
    let words = Vec::from_slice(alloc, [3u64, 0].as_slice())?;
    let peers = if has_peer { 1 } else { 0 };
    let book = Book::open(alloc, config?, 0, peers, HashKey::new(0, 0))?;
    let mut desk = Desk {
        book,
        chooser: ListChooser::new(words),
    };
    let wrong = first_wrong(alloc, &mut desk, text);
    let Desk { book, chooser: _ } = desk;
    let entries = book.into_entries();
    let count = entries.len();
    drop(entries);
    Ok((wrong, count))
}

/// Without self-preservation, half of the leases may go in an eviction.
fn half() -> Result<Config, Fault> {
    Config::new(false, 50, 30, 60_000)
}

const ENTRIES: &str = r#"3 register 7 A i1 10 UP UNKNOWN 5 c = 0 Registered { fresh: true }
4 renew 8 A i1 4 - r = 1 Conflict 5
entries = 3 0 7 Register Registered { fresh: true };4 1 8 Renew Conflict 5;"#;

#[test]
fn each_command_is_an_entry(rt: HostRuntime) {
    assert_eq!(rt; plays(rt.alloc(), half(), false, ENTRIES), Ok((None, 2)));
}

/// Of four leases one is renewed, and two go.
const PLAYED: &str = r#"0 register 0 A i1 10 UP UNKNOWN 5 c = 0 Registered { fresh: true }
0 register 0 A i2 10 UP UNKNOWN 5 c = 1 Registered { fresh: true }
0 register 0 A i3 10 UP UNKNOWN 5 c = 2 Registered { fresh: true }
0 register 0 A i4 10 UP UNKNOWN 5 c = 3 Registered { fresh: true }
0 renew 0 A i1 5 - r = 4 Done
0 roll 0 = 5 Last(1)
1 evict 90000 = 6 Evicted i4 i2
entries = 0 0 0 Register Registered { fresh: true };0 1 0 Register Registered { fresh: true };0 2 0 Register Registered { fresh: true };0 3 0 Register Registered { fresh: true };0 4 0 Renew Done;0 5 0 EndMinute Last(1);1 6 90000 Evict Evicted i4 i2;
journal = 0 7 0 Tally { steps: 7, counted: 1, added: 4, removed: 2 }
0 counts 0 = Counts { held: 2, expected: 0, threshold: 0, last: 1, permitted: true, preservation: false }
0 look 10000 A i1 = A/i1 UP UNKNOWN 5 10 30 Rest { members: OfHost("i1") } 0 10000 0;
0 look 10001 A i3 = none
0 all 90000 = A/i1 UP UNKNOWN 5 10 30 Rest { members: OfHost("i1") } 0 10000 0;A/i3 UP UNKNOWN 5 10 30 Rest { members: OfHost("i3") } 0 0 0;
state = false 50 30 60000 expected 0 last 1 since 0 previous Some(90000);A/i1 UP UNKNOWN 5 10 30 Rest { members: OfHost("i1") } 0 10000 0;A/i3 UP UNKNOWN 5 10 30 Rest { members: OfHost("i3") } 0 0 0;
base = false 50 30 60000 expected 0 last 0 since 0 previous None;
checkpoint = 7
base = false 50 30 60000 expected 0 last 1 since 0 previous Some(90000);A/i1 UP UNKNOWN 5 10 30 Rest { members: OfHost("i1") } 0 10000 0;A/i3 UP UNKNOWN 5 10 30 Rest { members: OfHost("i3") } 0 0 0;
0 register 0 A i1 10 UP UNKNOWN 5 c = 7 Registered { fresh: false }
journal = 7 1 2 Tally { steps: 8, counted: 1, added: 4, removed: 2 }
0 page 0 = Counts { held: 2, expected: 0, threshold: 0, last: 1, permitted: true, preservation: false } StatusCounts { up: 2, down: 0, starting: 0, out_of_service: 0, unknown: 0 }
0 set 0 A i1 OUT_OF_SERVICE - c = 8 Done
0 page 0 = Counts { held: 2, expected: 0, threshold: 0, last: 1, permitted: true, preservation: false } StatusCounts { up: 1, down: 0, starting: 0, out_of_service: 1, unknown: 0 }"#;

#[test]
fn a_checkpoint_keeps_what_an_eviction_left(rt: HostRuntime) {
    assert_eq!(rt; plays(rt.alloc(), half(), false, PLAYED), Ok((None, 2)));
}

const OVERRIDDEN: &str = r#"0 register 0 A i1 10 UP UNKNOWN 5 c = 0 Registered { fresh: true }
0 set 0 A i1 OUT_OF_SERVICE - c = 1 Done
checkpoint = 2
base = false 50 30 60000 expected 0 last 0 since 0 previous None;A/i1 OUT_OF_SERVICE OUT_OF_SERVICE 5 10 30 Rest { members: OfHost("i1") } 0 10000 0;i1=OUT_OF_SERVICE;
state = false 50 30 60000 expected 0 last 0 since 0 previous None;A/i1 OUT_OF_SERVICE OUT_OF_SERVICE 5 10 30 Rest { members: OfHost("i1") } 0 10000 0;i1=OUT_OF_SERVICE;"#;

#[test]
fn a_checkpoint_keeps_overrides(rt: HostRuntime) {
    assert_eq!(rt; plays(rt.alloc(), half(), false, OVERRIDDEN), Ok((None, 0)));
}

const FULL: &str =
    r#"minutes 65536 = 0 65536 0 Tally { steps: 65536, counted: 0, added: 0, removed: 0 }
checkpoint = 65536
journal = 65536 0 0 Tally { steps: 65536, counted: 0, added: 0, removed: 0 }
minutes 65537 = 131072 1 0 Tally { steps: 131073, counted: 0, added: 0, removed: 0 }
checkpoint = 1
journal = 131073 0 0 Tally { steps: 131073, counted: 0, added: 0, removed: 0 }"#;

#[test]
fn a_full_journal_begins_anew(rt: HostRuntime) {
    assert_eq!(rt; plays(rt.alloc(), half(), false, FULL), Ok((None, 0)));
}

const REFUSED: &str =
    r#"minutes 65536 = 0 65536 0 Tally { steps: 65536, counted: 0, added: 0, removed: 0 }
0 drain 0 0 = refused 15
journal = 0 65536 0 Tally { steps: 65536, counted: 0, added: 0, removed: 0 }
log 0 roll 0 = 65536 Last(0), 65536 0 EndMinute Last(0), 65535
journal = 65536 1 0 Tally { steps: 65537, counted: 0, added: 0, removed: 0 }
minutes 65534 = 65536 65535 0 Tally { steps: 131071, counted: 0, added: 0, removed: 0 }
log 0 roll 0 = 131071 Last(0), 131071 0 EndMinute Last(0), 0
log 0 roll 0 = 131072 Last(0), 131072 0 EndMinute Last(0), 131071
journal = 131072 1 0 Tally { steps: 131073, counted: 0, added: 0, removed: 0 }
checkpoint = 1
log 0 roll 0 = 131073 Last(0), 131073 0 EndMinute Last(0), 131070"#;

#[test]
fn a_refused_command_leaves_a_full_journal(rt: HostRuntime) {
    assert_eq!(rt; plays(rt.alloc(), half(), false, REFUSED), Ok((None, 1)));
}

const LOGGED: &str = r#"log 5 drain 1 0 = refused 9
0 register 0 A i1 10 UP UNKNOWN 5 c = 0 Registered { fresh: true }
log 5 drain 2 0 = 1 Batch Register i1, 1 2 Drain { peer: 0 } Batch Register i1
log 5 drain 3 0 = refused 8
journal = 0 2 0 Tally { steps: 2, counted: 0, added: 1, removed: 0 }"#;

#[test]
fn a_log_keeps_what_is_told(rt: HostRuntime) {
    assert_eq!(rt; plays(rt.alloc(), settings(), true, LOGGED), Ok((None, 2)));
}

const LANDED: &str = r#"0 register 0 A i1 10 UP UNKNOWN 5 c = 0 Registered { fresh: true }
queues = 1+0;
0 renew 0 A i1 4 - r = 1 Conflict 5
queues = 1+0;
0 drain 0 0 = 2 Batch Register i1
queues = 0+1;
0 landed 0 0 200 = 3 Settled
queues = 0+0;
journal = 0 4 0 Tally { steps: 4, counted: 1, added: 1, removed: 0 }"#;

#[test]
fn peers_are_told_what_clients_do(rt: HostRuntime) {
    assert_eq!(rt; plays(rt.alloc(), settings(), true, LANDED), Ok((None, 4)));
}

const LOST: &str = r#"0 register 0 A i1 10 UP UNKNOWN 5 c = 0 Registered { fresh: true }
queues = 1+0;
0 drain 0 0 = 1 Batch Register i1
queues = 0+1;
0 drain 0 0 = refused 8
queues = 0+1;
0 lost 0 0 = 2 Settled
queues = 1+0;
journal = 0 3 0 Tally { steps: 3, counted: 0, added: 1, removed: 0 }"#;

#[test]
fn lost_batches_wait_again(rt: HostRuntime) {
    assert_eq!(rt; plays(rt.alloc(), settings(), true, LOST), Ok((None, 3)));
}

const ALONE: &str = r#"0 drain 0 0 = refused 15
journal = 0 0 0 Tally { steps: 0, counted: 0, added: 0, removed: 0 }"#;

#[test]
fn there_is_no_such_peer(rt: HostRuntime) {
    assert_eq!(rt; plays(rt.alloc(), half(), false, ALONE), Ok((None, 0)));
}

const CHANGED: &str = r#"0 config 0 off 50 15 7 = 0 Done
queues = 0+0;
base = true 85 30 60000 expected 0 last 0 since 0 previous None;0+0;
checkpoint = 1
base = false 50 15 7 expected 0 last 0 since 0 previous None;0+0;
journal = 1 0 0 Tally { steps: 1, counted: 0, added: 0, removed: 0 }
0 register 0 A i1 10 UP UNKNOWN 5 c = 1 Registered { fresh: true }
queues = 1+0;
0 config 0 off 50 15 7 = 2 Done
queues = 1+0;
0 drain 0 0 = 3 Batch Register i1
queues = 0+1;"#;

#[test]
fn a_checkpoint_keeps_new_settings_and_peers_are_told_of_none(rt: HostRuntime) {
    assert_eq!(rt; plays(rt.alloc(), settings(), true, CHANGED), Ok((None, 3)));
}
