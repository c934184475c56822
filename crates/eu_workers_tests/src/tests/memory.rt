//! Want of memory. In a usual run no allocation is refused; `tools/sweep_memory.sh` refuses one after another.
ghost use Rattle.std.specs.Prelude.{◌≡◌};
ghost use Rattle.eu_shared.specs.Shares.{HasNames, HasParts};

use crate::tests::turns::{Pair, clock, held, opened_pair, tell_seen};
use eu_base::Fault;
use eu_book::Book;
use eu_clock::ListClock;
use eu_fixtures::{are_so, at, key, pause_or_go_on, read_command, settings};
use eu_hash::HashKey;
use eu_in_process::InProcess;
use eu_model::{Answer, Ask, Desk, Query};
use eu_peer::{Turn, replicate_turn};
use eu_shared::{Blanks, Label, PARTS, Seat, Shared};
use std::alloc::{AllocError, Global};
use std::marker::Brand;
use std::sync::Wait;

/// The peer.
type There = InProcess<Book, ListClock>;

/// A server that can be looked at.
trait Shown {
    /// Everything that can be seen of it, as a text.
    fn shown(&self, alloc: Global) -> Result<String, AllocError>;
}

impl Shown for Book {
    fn shown(&self, alloc: Global) -> Result<String, AllocError> {
        let state = self.state(alloc)?;
        let (first, entries, totals) = (self.first(), self.entries(), self.totals());
        let text = format!(in alloc; "{state:?} {first} {entries:?} {totals:?}");
        drop(state);
        text
    }
}

/// Of a book behind its lock a pass is seen, which notes all that it does.
impl<K: Label, R: Wait> Shown for Seat<'_, K, R> {
    fn shown(&self, alloc: Global) -> Result<String, AllocError> {
        let (log, tallies) = (self.pass.log(), self.pass.tallies());
        format!(in alloc; "{log:?} {tallies:?}")
    }
}

/// The same. None of it is refused memory.
fn text_of<D: Shown>(alloc: Global, desk: &D) -> Result<String, AllocError> {
    pause_or_go_on(alloc);
    let shown = desk.shown(alloc);
    pause_or_go_on(alloc);
    shown
}

/// Tells a server at 0 what a script's words say.
fn tell<D: Desk>(alloc: Global, desk: &mut D, words: &str) -> Result<(), Fault> {
    let (_, command) = read_command(alloc, words)?;
    let answer = desk.ask(alloc, Ask::Do(command), at(0))?;
    drop(answer);
    Ok(())
}

/// The same once more, where the first finds no memory.
fn tell_twice<D: Desk>(alloc: Global, desk: &mut D, words: &str) -> Result<(), Fault> {
    match tell(alloc, desk, words) {
        Err(Fault::OutOfMemory) => tell(alloc, desk, words),
        answer => answer,
    }
}

/// A turn at 0.
fn turn<D: Desk>(alloc: Global, here: &mut D, there: &mut There) -> Result<Turn, Fault> {
    let mut clock = clock(alloc, at(0))?;
    let turn = replicate_turn(alloc, here, 0, there, &mut clock);
    drop(clock);
    turn
}

/// A turn, and one more where it found no memory. `Mismatch` where the first changed something, and yet left no batch in flight that the next takes for
/// lost, or where it left one and nothing is seen of it.
fn is_followed<D: Desk + Shown>(
    alloc: Global,
    here: &mut D,
    there: &mut There,
) -> Result<Turn, Fault> {
    let before = text_of(alloc, here)?;
    let first = turn(alloc, here, there);
    if first != Err(Fault::OutOfMemory) {
        return first;
    }
    let after = text_of(alloc, here)?;
    let is_changed = before.as_str() != after.as_str();
    let next = turn(alloc, here, there)?;
    if is_changed != (next == Turn::Waiting) {
        return Err(Fault::Mismatch);
    }
    Ok(next)
}

/// Turns until nothing waits, four at most.
fn send_all<D: Desk + Shown>(
    alloc: Global,
    here: &mut D,
    there: &mut There,
) -> Result<bool, Fault> {
    for _ in 0..4 {
        if is_followed(alloc, here, there)? == Turn::Idle {
            return Ok(true);
        }
    }
    Ok(false)
}

/// A heartbeat, and what it brings. What a peer answers for want of memory isn't sent again: the next heartbeat brings it.
fn beat<D: Desk + Shown>(alloc: Global, here: &mut D, there: &mut There) -> Result<bool, Fault> {
    tell_twice(alloc, here, "renew 0 A i1 - - c")?;
    send_all(alloc, here, there)
}

/// Whether the peer holds so many leases, at the second try where the first finds no memory.
fn holds(alloc: Global, there: &There, count: u64) -> bool {
    match held(alloc, &there.desk) {
        Err(Fault::OutOfMemory) => held(alloc, &there.desk) == Ok(count),
        answer => answer == Ok(count),
    }
}

/// A client registers, and the peer is told; the peer loses the lease, and is told again by a heartbeat.
fn play<D: Desk + Shown>(alloc: Global, here: &mut D, there: &mut There) -> Result<bool, Fault> {
    tell_twice(alloc, here, "register 0 A i1 90 UP UNKNOWN 5 c")?;
    let told = send_all(alloc, here, there)? && beat(alloc, here, there)? && holds(alloc, there, 1);
    tell_twice(alloc, &mut there.desk, "cancel 0 A i1 r")?;
    let lost = holds(alloc, there, 0);
    let again = beat(alloc, here, there)? && beat(alloc, here, there)?;
    Ok(told && lost && again && holds(alloc, there, 1))
}

fn opened(alloc: Global) -> Result<Pair, Fault> {
    match opened_pair(alloc) {
        Err(Fault::OutOfMemory) => opened_pair(alloc),
        answer => answer,
    }
}

/// Whether a server shows i1 so.
fn shows<D: Desk>(alloc: Global, desk: &mut D, wanted: &str) -> Result<bool, Fault> {
    let mut out = String::new(alloc);
    let query = Query::One(key(alloc, "i1")?);
    match desk.ask(alloc, Ask::See(query), at(0))? {
        Answer::Saw(view) => tell_seen(&view, &mut out)?,
        other => drop(other),
    }
    Ok(out.as_str() == wanted)
}

/// The peer holds a newer instance, of which a heartbeat is told, and which is adopted; where there is no memory for that, after another heartbeat.
fn adopt<D: Desk + Shown>(alloc: Global, here: &mut D, there: &mut There) -> Result<bool, Fault> {
    let newer = "register 0 A i1 90 UP UNKNOWN 9 r";
    tell_twice(alloc, here, "register 0 A i1 90 UP UNKNOWN 5 r")?;
    tell_twice(alloc, &mut there.desk, newer)?;
    let told = beat(alloc, here, there)? && beat(alloc, here, there)?;
    let is_shown = match shows(alloc, here, "9 UP UNKNOWN") {
        Err(Fault::OutOfMemory) => shows(alloc, here, "9 UP UNKNOWN"),
        answer => answer,
    };
    Ok(told && is_shown?)
}

fn is_played(alloc: Global) -> Result<bool, Fault> {
    let mut pair = opened(alloc)?;
    let played = play(alloc, &mut pair.here, &mut pair.there);
    drop(pair);
    played
}

fn is_adopted(alloc: Global) -> Result<bool, Fault> {
    let mut pair = opened(alloc)?;
    let adopted = adopt(alloc, &mut pair.here, &mut pair.there);
    drop(pair);
    adopted
}

#[test]
fn memory_turn(rt: HostRuntime) {
    assert!(rt; is_played(rt.alloc()) == Ok(true));
    assert!(rt; is_adopted(rt.alloc()) == Ok(true));
}

/// The same by a pass of a book behind its lock: the adoption, or the other play.
fn play_seated<K: Label, R: Wait>(
    rt: &R,
    alloc: Global,
    shared: &Shared<K>,
    adopts: bool,
) -> Result<bool, Fault> {
    let mut pair = opened(alloc)?;
    let pass = shared.pass(rt, alloc)?;
    let mut seat = Seat { pass, shared, rt };
    let played = if adopts {
        adopt(alloc, &mut seat, &mut pair.there)
    } else {
        play(alloc, &mut seat, &mut pair.there)
    };
    drop((seat, pair));
    played
}

/// The same of a server that was just opened, with one peer.
fn seated<K: Label, R: Wait>(
    rt: &R,
    alloc: Global,
    blanks: Blanks,
    adopts: bool,
) -> Result<bool, Fault>
    requires names { HasNames blanks K.steps K.counted K.added K.removed }
    requires parts { HasParts blanks K.parts × (K.parts ≡ PARTS) }
{
    let shared: Shared<K> = Shared::open(alloc, settings()?, 0, 1, HashKey::new(0, 0), blanks)?;
    let played = play_seated(rt, alloc, &shared, adopts);
    drop(shared);
    played
}

fn is_seated<R: Wait>(rt: &R, alloc: Global, adopts: bool) -> Result<bool, Fault> {
    seated::<Brand, R>(rt, alloc, Blanks::new(), adopts)
}

#[test]
fn memory_seat_turn(rt: HostRuntime) {
    let alloc = rt.alloc();
    for adopts in [false, true] {
        let first = is_seated(&rt, alloc, adopts);
        assert!(rt; are_so(first, is_seated(&rt, alloc, adopts)));
    }
}
