//! Want of memory. In a usual run no allocation is refused; `tools/sweep_memory.sh` refuses one after another, of the calls of the book alone.
ghost use Rattle.std.specs.Prelude.{◌≡◌};
ghost use Rattle.eu_shared.specs.Shares.{HasNames, HasParts};

use crate::tests::closed::first_wrong_closed;
use crate::tests::shared::{USUAL, open as open_shared};
use eu_base::{Fault, Moment};
use eu_book::Receipt;
use eu_clock::FirstChooser;
use eu_fixtures::{moment, pause_or_go_on, read_ask, settings};
use eu_hash::HashKey;
use eu_model::{Ask, Command, Listed, Query, Reply, View};
use eu_settle::Closed;
use eu_shared::{Blanks, Held, Label, PARTS, Pass, Shared, Unclosed, close};
use std::alloc::{AllocError, Global};
use std::marker::Brand;
use std::sync::Wait;

/// A book that is asked by its passes: one that is held, or one behind a lock.
trait Asked<K: Label> {
    fn add(&mut self, alloc: Global) -> Result<Pass<K>, Fault>;

    fn ask(
        &mut self,
        alloc: Global,
        pass: &mut Pass<K>,
        command: Command,
        now: Moment,
    ) -> Result<Receipt, Fault>;

    fn read(
        &mut self,
        alloc: Global,
        pass: &mut Pass<K>,
        query: &Query,
        now: Moment,
    ) -> Result<View, AllocError>;

    fn checkpoint(&mut self, alloc: Global, pass: &mut Pass<K>) -> Result<(), AllocError>;

    /// Everything that can be seen of it and of a pass, as a text.
    fn shown(&self, alloc: Global, pass: &Pass<K>) -> Result<String, AllocError>;
}

impl<K: Label> Asked<K> for Held<K> {
    fn add(&mut self, alloc: Global) -> Result<Pass<K>, Fault> {
        self.pass(alloc)
    }

    fn ask(
        &mut self,
        alloc: Global,
        pass: &mut Pass<K>,
        command: Command,
        now: Moment,
    ) -> Result<Receipt, Fault> {
        Held::ask(self, alloc, pass, command, now, &mut FirstChooser)
    }

    fn read(
        &mut self,
        alloc: Global,
        pass: &mut Pass<K>,
        query: &Query,
        now: Moment,
    ) -> Result<View, AllocError> {
        Held::read(self, alloc, pass, query, now)
    }

    fn checkpoint(&mut self, alloc: Global, pass: &mut Pass<K>) -> Result<(), AllocError> {
        drop(Held::checkpoint(self, alloc, pass)?);
        Ok(())
    }

    fn shown(&self, alloc: Global, pass: &Pass<K>) -> Result<String, AllocError> {
        let (state, base) = (self.book().state(alloc)?, self.book().base(alloc)?);
        let (first, entries) = (self.book().first(), self.book().entries());
        let (made, totals) = (self.pass_count(), self.book().totals());
        let (log, tallies) = (pass.log(), pass.tallies());
        let text = format!(in alloc;
            "{state:?} {base:?} {first} {entries:?} {totals:?} {made} {log:?} {tallies:?}"
        );
        drop((base, state));
        text
    }
}

/// A book behind its lock.
#[derive(Drop)]
struct Locked<'a, K: Label, R: Wait> {
    rt: &'a R,
    shared: &'a Shared<K>,
}

impl<K: Label, R: Wait> Asked<K> for Locked<'_, K, R> {
    fn add(&mut self, alloc: Global) -> Result<Pass<K>, Fault> {
        self.shared.pass(self.rt, alloc)
    }

    fn ask(
        &mut self,
        alloc: Global,
        pass: &mut Pass<K>,
        command: Command,
        now: Moment,
    ) -> Result<Receipt, Fault> {
        pass.ask(self.rt, self.shared, alloc, command, now, &mut FirstChooser)
    }

    fn read(
        &mut self,
        alloc: Global,
        pass: &mut Pass<K>,
        query: &Query,
        now: Moment,
    ) -> Result<View, AllocError> {
        pass.read(self.rt, self.shared, alloc, query, now)
    }

    fn checkpoint(&mut self, alloc: Global, pass: &mut Pass<K>) -> Result<(), AllocError> {
        pass.checkpoint(self.rt, self.shared, alloc)
    }

    fn shown(&self, alloc: Global, pass: &Pass<K>) -> Result<String, AllocError> {
        let (log, tallies) = (pass.log(), pass.tallies());
        format!(in alloc; "{log:?} {tallies:?}")
    }
}

/// What is asked for, by which pass, and the number that it is answered by: that of the entry, or the sum of the last updates that are seen. A copy
/// of the second id takes memory, and one of the first none.
const ASKS: [(usize, &str, u64); 21] = [
    (0, "register 0 A i1 90 UP UNKNOWN 5 c", 0),
    (
        0,
        "register 1 A an-id-of-an-instance-of-more-than-40-bytes-i2 90 UP UNKNOWN 5 c",
        1,
    ),
    (0, "renew 2 A i1 - - c", 2),
    (0, "renew 3 A i1 - - c", 3),
    (0, "renew 4 A i1 - - c", 4),
    (
        1,
        "renew 5 A an-id-of-an-instance-of-more-than-40-bytes-i2 - - c",
        5,
    ),
    (
        1,
        "renew 6 A an-id-of-an-instance-of-more-than-40-bytes-i2 - - c",
        6,
    ),
    (1, "look 6 A i1", 90_004),
    (
        0,
        "look 6 A an-id-of-an-instance-of-more-than-40-bytes-i2",
        90_006,
    ),
    (1, "all 6", 180_010),
    (0, "of 6 A", 180_010),
    (0, "checkpoint", 0),
    (0, "reserve", 0),
    (0, "set 6 A i1 OUT_OF_SERVICE - c", 7),
    (1, "unset 6 A i1 UP - c", 8),
    (0, "adopt 6 A i3 90 UP UNKNOWN 5", 9),
    (1, "cancel 6 A i3 c", 10),
    (0, "roll 6", 11),
    (0, "update 6", 12),
    (1, "config 6 on 50 15 60000", 13),
    (0, "evict 6", 14),
];

/// What a book with those leases is, once it is closed.
const CLOSED: &str =
    r#"account = 7 8 Tally { steps: 15, counted: 5, added: 3, removed: 1 } 2 0:10 1:5
base = true 85 30 60000 expected 0 last 0 since 5 previous None;A/an-id-of-an-instance-of-more-than-40-bytes-i2 UP UNKNOWN 5 90 30 Rest { members: OfHost("an-id-of-an-instance-of-more-than-40-bytes-i2") } 1 90006 1;A/i1 UP UNKNOWN 5 90 30 Rest { members: OfHost("i1") } 0 90004 0;
end = true 50 15 60000 expected 2 last 5 since 0 previous Some(6);A/an-id-of-an-instance-of-more-than-40-bytes-i2 UP UNKNOWN 5 90 30 Rest { members: OfHost("an-id-of-an-instance-of-more-than-40-bytes-i2") } 1 90006 1;A/i1 UP UNKNOWN 5 90 30 Rest { members: OfHost("i1") } 0 90006 0;
settle = Ok(())"#;

/// The number of the entry of what was done.
fn accepted(answer: Result<Receipt, Fault>) -> Result<u64, Fault> {
    let receipt = answer?;
    let number = receipt.number;
    let is_accepted = matches!(
        receipt.reply,
        Reply::Registered { fresh: true }
            | Reply::Done
            | Reply::Last(_)
            | Reply::Expected(_)
            | Reply::Evicted(_)
    );
    drop(receipt);
    if is_accepted {
        Ok(number)
    } else {
        Err(Fault::Mismatch)
    }
}

fn updates(leases: &[Listed]) -> u64 {
    let mut sum = 0u64;
    for listed in leases {
        sum = sum.saturating_add(listed.times.updated);
    }
    sum
}

/// The sum of the last updates that are seen.
fn seen(view: Result<View, AllocError>) -> Result<u64, Fault> {
    let view = view?;
    let sum = match &view {
        View::One(Some(listed)) => listed.times.updated,
        View::OfApp(leases) | View::All(leases) => updates(leases.as_slice()),
        _ => 0,
    };
    drop(view);
    Ok(sum)
}

fn tell<K: Label, A: Asked<K>>(
    alloc: Global,
    asked: &mut A,
    pass: &mut Pass<K>,
    words: &str,
) -> Result<u64, Fault> {
    match words {
        "checkpoint" => {
            asked.checkpoint(alloc, pass)?;
            return Ok(0);
        }
        "reserve" => {
            pass.reserve_log()?;
            return Ok(0);
        }
        _ => {}
    }
    let (moment, ask) = read_ask(alloc, words)?;
    match ask {
        Ask::Do(command) => accepted(asked.ask(alloc, pass, command, moment)),
        Ask::See(query) => {
            let view = asked.read(alloc, pass, &query, moment);
            drop(query);
            seen(view)
        }
    }
}

/// Whether that is answered so, at the second try where the first finds no memory, if that left the book and the pass as they were.
fn is_told<K: Label, A: Asked<K>>(
    alloc: Global,
    asked: &mut A,
    pass: &mut Pass<K>,
    words: &str,
    wanted: u64,
) -> Result<bool, AllocError> {
    let before = asked.shown(alloc, pass)?;
    pause_or_go_on(alloc);
    let mut answer = tell(alloc, asked, pass, words);
    pause_or_go_on(alloc);
    if answer == Err(Fault::OutOfMemory) {
        let after = asked.shown(alloc, pass)?;
        if before.as_str() != after.as_str() {
            return Ok(false);
        }
        answer = tell(alloc, asked, pass, words);
    }
    Ok(answer == Ok(wanted))
}

/// A pass more, at the second try where the first finds no memory.
fn add<K: Label, A: Asked<K>>(alloc: Global, asked: &mut A) -> Result<Pass<K>, Fault> {
    pause_or_go_on(alloc);
    let first = asked.add(alloc);
    pause_or_go_on(alloc);
    match first {
        Err(Fault::OutOfMemory) => asked.add(alloc),
        answer => answer,
    }
}

/// Whether a batch for a peer that isn't there is refused as that, whatever memory is left.
fn misses_a_peer<K: Label, A: Asked<K>>(
    alloc: Global,
    asked: &mut A,
    pass: &mut Pass<K>,
    now: Moment,
) -> bool {
    pause_or_go_on(alloc);
    let answer = asked.ask(alloc, pass, Command::Drain { peer: 0 }, now);
    pause_or_go_on(alloc);
    matches!(answer, Err(Fault::NoPeer))
}

/// Two passes, once all was answered so. `Mismatch` where it wasn't.
fn ask_all<K: Label, A: Asked<K>>(alloc: Global, asked: &mut A) -> Result<Vec<Pass<K>>, Fault> {
    let mut passes = Vec::with_capacity(alloc, 2)?;
    passes.push(add(alloc, asked)?)?;
    passes.push(add(alloc, asked)?)?;
    for (place, words, wanted) in ASKS {
        let Some(pass) = passes.get_mut(place) else {
            return Err(Fault::Mismatch);
        };
        if !is_told(alloc, asked, pass, words, wanted)?
            || !misses_a_peer(alloc, asked, pass, moment(6)?)
        {
            return Err(Fault::Mismatch);
        }
    }
    Ok(passes)
}

/// Whether a close leaves what it is to, at the second try where the first finds no memory, by what it hands back.
fn is_closed<K: Label>(alloc: Global, first: Result<Closed, Unclosed<K>>) -> bool {
    pause_or_go_on(alloc);
    let outcome = match first {
        Err(
            Unclosed {
                fault: Fault::OutOfMemory,
                passes,
                held,
                ..
            },
        ) => held.close(alloc, passes),
        outcome => outcome,
    };
    first_wrong_closed(alloc, outcome, CLOSED).is_none()
}

/// Whether a book that is held is told so, and closed. That it is opened is refused memory, too; it is to be opened anew then.
fn play_held<K: Label>(alloc: Global, blanks: Blanks) -> Result<bool, Fault>
    requires names { HasNames blanks K.steps K.counted K.added K.removed }
    requires parts { HasParts blanks K.parts × (K.parts ≡ PARTS) }
{
    let opened = Held::<K>::open(alloc, settings()?, 0, 0, HashKey::new(0, 0), blanks);
    pause_or_go_on(alloc);
    let mut held = opened?;
    let passes = ask_all(alloc, &mut held)?;
    pause_or_go_on(alloc);
    Ok(is_closed(alloc, held.close(alloc, passes)))
}

fn is_held(alloc: Global) -> Result<bool, Fault> {
    play_held::<Brand>(alloc, Blanks::new())
}

#[test]
fn memory_shared(rt: HostRuntime) {
    let first = is_held(rt.alloc());
    assert!(rt; first == Ok(true) || first == Err(Fault::OutOfMemory));
    assert!(rt; first == Ok(true) || is_held(rt.alloc()) == Ok(true));
}

/// The same of a book behind its lock.
fn play_locked<K: Label, R: Wait>(rt: &R, alloc: Global, blanks: Blanks) -> Result<bool, Fault>
    requires names { HasNames blanks K.steps K.counted K.added K.removed }
    requires parts { HasParts blanks K.parts × (K.parts ≡ PARTS) }
{
    let opened = open_shared::<K>(alloc, USUAL, blanks);
    pause_or_go_on(alloc);
    let shared = opened?;
    let mut locked = Locked {
        rt,
        shared: &shared,
    };
    let passes = ask_all(alloc, &mut locked)?;
    pause_or_go_on(alloc);
    Ok(is_closed(alloc, close(shared, alloc, passes)))
}

fn is_locked<R: Wait>(rt: &R, alloc: Global) -> Result<bool, Fault> {
    play_locked::<Brand, R>(rt, alloc, Blanks::new())
}

#[test]
fn memory_lock(rt: HostRuntime) {
    let first = is_locked(&rt, rt.alloc());
    assert!(rt; first == Ok(true) || first == Err(Fault::OutOfMemory));
    assert!(rt; first == Ok(true) || is_locked(&rt, rt.alloc()) == Ok(true));
}
