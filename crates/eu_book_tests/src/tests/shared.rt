//! A book behind its lock and its passes: what their lines say, and what comes of each, worked out by hand.
ghost use Rattle.std.specs.Prelude.{◌≡◌};
ghost use Rattle.eu_shared.specs.Shares.{HasNames, HasParts};

use crate::tests::closed::first_wrong_end;
use crate::tests::texts::tell_answer;
use eu_base::{Config, Fault};
use eu_clock::FirstChooser;
use eu_fixtures::{Told, at, first_wrong, number_of, numbered, read_ask, tell_fault, tell_read};
use eu_hash::HashKey;
use eu_model::{Ask, Command};
use eu_shared::{Blanks, Label, PARTS, Pass, Shared};
use std::alloc::Global;
use std::marker::Brand;
use std::sync::Wait;

/// How a book is opened.
#[derive(Clone, Copy)]
pub struct Opening {
    /// Whether self-preservation is on, the percentage, the seconds between renewals, the milliseconds between evictions.
    pub settings: (bool, u32, u32, u32),
    pub expected: u32,
    pub peers: u32,
}

/// With the usual settings, for nobody.
pub const USUAL: Opening = Opening {
    settings: (true, 85, 30, 60_000),
    expected: 0,
    peers: 0,
};

/// A shared book that is opened so.
pub fn open<K: Label>(alloc: Global, opening: Opening, blanks: Blanks) -> Result<Shared<K>, Fault>
    requires names { HasNames blanks K.steps K.counted K.added K.removed }
    requires parts { HasParts blanks K.parts × (K.parts ≡ PARTS) }
{
    let (preservation, percent, interval, evict_ms) = opening.settings;
    let config = Config::new(preservation, percent, interval, evict_ms)?;
    if opening.peers > 8 {
        return Err(Fault::NoPeer);
    }
    Ok(Shared::open(
        alloc,
        config,
        opening.expected,
        opening.peers,
        HashKey::new(0, 0),
        blanks,
    )?)
}

/// The passes of a shared book.
///
/// Of the passes `pass` makes one more, `passes N` makes more that each end a minute, `lose` loses the last, and `swap` turns them round. A pass is
/// told `PASS WORDS`, as words are in a script; `PASS minutes N`, of which the last answer is told; `PASS checkpoint` and `PASS trim`. It is asked for
/// its log by `PASS log`.
#[derive(Drop)]
struct Seats<'a, K: Label, R: Wait> {
    rt: &'a R,
    shared: &'a Shared<K>,
    passes: Vec<Pass<K>>,
}

/// Has a pass ask for that.
fn ask<K: Label, R: Wait>(
    rt: &R,
    shared: &Shared<K>,
    alloc: Global,
    pass: &mut Pass<K>,
    words: &str,
    out: &mut String,
) -> Result<(), Fault> {
    let (moment, ask) = read_ask(alloc, words)?;
    match ask {
        Ask::Do(command) => {
            let answer = pass.ask(rt, shared, alloc, command, moment, &mut FirstChooser);
            Ok(tell_answer(out, answer)?)
        }
        Ask::See(query) => {
            let view = pass.read(rt, shared, alloc, &query, moment);
            drop(query);
            Ok(tell_read(out, view)?)
        }
    }
}

/// Has a pass end so many minutes. The number of the last entry.
fn end_minutes<K: Label, R: Wait>(
    rt: &R,
    shared: &Shared<K>,
    alloc: Global,
    pass: &mut Pass<K>,
    count: u64,
) -> Result<u64, Fault> {
    let mut number = 0;
    for _ in 0..count {
        let receipt = pass.ask(
            rt,
            shared,
            alloc,
            Command::EndMinute,
            at(0),
            &mut FirstChooser,
        )?;
        number = receipt.number;
        drop(receipt);
    }
    Ok(number)
}

/// Says that to a pass.
fn say<K: Label, R: Wait>(
    rt: &R,
    shared: &Shared<K>,
    alloc: Global,
    pass: &mut Pass<K>,
    words: &str,
    out: &mut String,
) -> Result<(), Fault> {
    match words {
        "checkpoint" => {
            pass.checkpoint(rt, shared, alloc)?;
            return Ok(out.push_str("done")?);
        }
        "trim" => {
            pass.trim();
            return Ok(out.push_str("done")?);
        }
        "log" => return Ok(write!(out, "{} {:?}", pass.log().len(), pass.tallies())?),
        _ => {}
    }
    match words.strip_prefix("minutes ") {
        Some(count) => {
            let last = end_minutes(rt, shared, alloc, pass, number_of(count)?)?;
            Ok(write!(out, "{last}")?)
        }
        None => ask(rt, shared, alloc, pass, words, out),
    }
}

impl<K: Label, R: Wait> Seats<'_, K, R> {
    fn add(&mut self, alloc: Global, out: &mut String) -> Result<(), Fault> {
        match self.shared.pass(self.rt, alloc) {
            Ok(pass) => {
                write!(out, "{}", pass.number())?;
                Ok(self.passes.push(pass)?)
            }
            Err(fault) => Ok(tell_fault(out, fault)?),
        }
    }

    fn add_each(&mut self, alloc: Global, count: u64) -> Result<(), Fault> {
        for _ in 0..count {
            let mut pass = self.shared.pass(self.rt, alloc)?;
            let is_next = pass.number() == self.passes.len() as u64;
            let ended = end_minutes(self.rt, self.shared, alloc, &mut pass, 1);
            self.passes.push(pass)?;
            if ended.is_err() || !is_next {
                return Err(Fault::Mismatch);
            }
        }
        Ok(())
    }

    fn say_to(&mut self, alloc: Global, said: &str, out: &mut String) -> Result<(), Fault> {
        let (number, words) = numbered(said)?;
        match self.passes.get_mut(number as usize) {
            Some(pass) => say(self.rt, self.shared, alloc, pass, words, out),
            None => Err(Fault::BadValue),
        }
    }
}

impl<K: Label, R: Wait> Told for Seats<'_, K, R> {
    fn tell(&mut self, alloc: Global, said: &str, out: &mut String) -> Result<(), Fault> {
        match said {
            "pass" => return self.add(alloc, out),
            "lose" => drop(self.passes.pop()),
            "swap" => self.passes.reverse(),
            _ => match said.strip_prefix("passes ") {
                Some(count) => self.add_each(alloc, number_of(count)?)?,
                None => return self.say_to(alloc, said, out),
            },
        }
        Ok(out.push_str("done")?)
    }
}

fn play<K: Label, R: Wait>(
    rt: &R,
    alloc: Global,
    opening: Opening,
    texts: [&str; 3],
    blanks: Blanks,
) -> Result<[Option<usize>; 3], Fault>
    requires names { HasNames blanks K.steps K.counted K.added K.removed }
    requires parts { HasParts blanks K.parts × (K.parts ≡ PARTS) }
{
    let [begun, more, ended] = texts;
    let shared = open::<K>(alloc, opening, blanks)?;
    let mut seats = Seats {
        rt,
        shared: &shared,
        passes: Vec::new(alloc),
    };
    let first = first_wrong(alloc, &mut seats, begun);
    let second = first_wrong(alloc, &mut seats, more);
    let Seats {
        rt: _,
        shared: _,
        passes,
    } = seats;
    Ok([first, second, first_wrong_end(alloc, shared, passes, ended)])
}

/// The first wrong lines of three texts: two that the passes of a book are told that is opened so, and one of the book that is closed with its passes.
fn plays<R: Wait>(
    rt: &R,
    alloc: Global,
    opening: Opening,
    texts: [&str; 3],
) -> Result<[Option<usize>; 3], Fault> {
    play::<Brand, R>(rt, alloc, opening, texts, Blanks::new())
}

const RIGHT: Result<[Option<usize>; 3], Fault> = Ok([None, None, None]);

/// Pass 0 registers i1 and i2, renews i1 three times and sees all, and then pass 1 renews i2 twice.
const ASKED: &str = r#"pass = 0
pass = 1
0 register 0 A i1 90 UP UNKNOWN 5 c = 0 Registered { fresh: true }
0 register 1 A i2 90 UP UNKNOWN 5 c = 1 Registered { fresh: true }
0 renew 2 A i1 - - c = 2 Done
0 renew 3 A i1 - - c = 3 Done
0 renew 4 A i1 - - c = 4 Done
0 all 4 = A/i1 UP UNKNOWN 5 90 30 Rest { members: OfHost("i1") } 0 90004 0;A/i2 UP UNKNOWN 5 90 30 Rest { members: OfHost("i2") } 1 1 1;
1 renew 5 A i2 - - c = 5 Done
1 renew 6 A i2 - - c = 6 Done"#;

const SEEN: &str = r#"0 drain 6 0 = refused 15
0 log = 5 Tally { steps: 5, counted: 3, added: 2, removed: 0 }
1 log = 2 Tally { steps: 2, counted: 2, added: 0, removed: 0 }
0 look 6 A i1 = A/i1 UP UNKNOWN 5 90 30 Rest { members: OfHost("i1") } 0 90004 0;
0 look 6 A i2 = A/i2 UP UNKNOWN 5 90 30 Rest { members: OfHost("i2") } 1 90006 1;
0 look 6 A i3 = none
0 all 6 = A/i1 UP UNKNOWN 5 90 30 Rest { members: OfHost("i1") } 0 90004 0;A/i2 UP UNKNOWN 5 90 30 Rest { members: OfHost("i2") } 1 90006 1;
0 counts 6 = Counts { held: 2, expected: 0, threshold: 0, last: 0, permitted: false, preservation: true }
1 look 6 A i1 = A/i1 UP UNKNOWN 5 90 30 Rest { members: OfHost("i1") } 0 90004 0;
1 look 6 A i2 = A/i2 UP UNKNOWN 5 90 30 Rest { members: OfHost("i2") } 1 90006 1;
1 look 6 A i3 = none
1 all 6 = A/i1 UP UNKNOWN 5 90 30 Rest { members: OfHost("i1") } 0 90004 0;A/i2 UP UNKNOWN 5 90 30 Rest { members: OfHost("i2") } 1 90006 1;
1 counts 6 = Counts { held: 2, expected: 0, threshold: 0, last: 0, permitted: false, preservation: true }
swap = done"#;

const WHOLE: &str = r#"account = 0 7 Tally { steps: 7, counted: 5, added: 2, removed: 0 } 2 0:5 1:2
base = true 85 30 60000 expected 0 last 0 since 0 previous None;
end = true 85 30 60000 expected 0 last 0 since 5 previous None;A/i1 UP UNKNOWN 5 90 30 Rest { members: OfHost("i1") } 0 90004 0;A/i2 UP UNKNOWN 5 90 30 Rest { members: OfHost("i2") } 1 90006 1;
settle = Ok(())"#;

#[test]
fn two_passes_are_accounted_for(rt: HostRuntime) {
    assert_eq!(rt; plays(&rt, rt.alloc(), USUAL, [ASKED, SEEN, WHOLE]), RIGHT);
}

const CHECKPOINT: &str = r#"0 checkpoint = done
0 trim = done
1 trim = done
0 log = 0 Tally { steps: 5, counted: 3, added: 2, removed: 0 }
1 log = 2 Tally { steps: 2, counted: 2, added: 0, removed: 0 }
0 checkpoint = done"#;

const CHECKPOINT_END: &str =
    r#"account = 7 0 Tally { steps: 7, counted: 5, added: 2, removed: 0 } 2 0:0 1:2
base = true 85 30 60000 expected 0 last 0 since 5 previous None;A/i1 UP UNKNOWN 5 90 30 Rest { members: OfHost("i1") } 0 90004 0;A/i2 UP UNKNOWN 5 90 30 Rest { members: OfHost("i2") } 1 90006 1;
end = true 85 30 60000 expected 0 last 0 since 5 previous None;A/i1 UP UNKNOWN 5 90 30 Rest { members: OfHost("i1") } 0 90004 0;A/i2 UP UNKNOWN 5 90 30 Rest { members: OfHost("i2") } 1 90006 1;
settle = Ok(())"#;

#[test]
fn a_checkpoint_is_accounted_for(rt: HostRuntime) {
    assert_eq!(rt;
        plays(&rt, rt.alloc(), USUAL, [ASKED, CHECKPOINT, CHECKPOINT_END]),
        RIGHT
    );
}

const FOLLOWED: &str = r#"0 checkpoint = done
0 trim = done
1 trim = done
0 log = 0 Tally { steps: 5, counted: 3, added: 2, removed: 0 }
1 log = 2 Tally { steps: 2, counted: 2, added: 0, removed: 0 }
0 checkpoint = done
0 renew 4 A i1 - - c = 7 Done"#;

const FOLLOWED_END: &str =
    r#"account = 7 1 Tally { steps: 8, counted: 6, added: 2, removed: 0 } 2 0:1 1:2
base = true 85 30 60000 expected 0 last 0 since 5 previous None;A/i1 UP UNKNOWN 5 90 30 Rest { members: OfHost("i1") } 0 90004 0;A/i2 UP UNKNOWN 5 90 30 Rest { members: OfHost("i2") } 1 90006 1;
end = true 85 30 60000 expected 0 last 0 since 6 previous None;A/i1 UP UNKNOWN 5 90 30 Rest { members: OfHost("i1") } 0 90004 0;A/i2 UP UNKNOWN 5 90 30 Rest { members: OfHost("i2") } 1 90006 1;
settle = Ok(())"#;

#[test]
fn what_follows_a_checkpoint_is_settled(rt: HostRuntime) {
    assert_eq!(rt;
        plays(&rt, rt.alloc(), USUAL, [ASKED, FOLLOWED, FOLLOWED_END]),
        RIGHT
    );
}

const MISSING_END: &str = r#"fault = refused 13
sums = Tally { steps: 5, counted: 3, added: 2, removed: 0 }
totals = Tally { steps: 7, counted: 5, added: 2, removed: 0 }
passes = 1 of 2"#;

#[test]
fn a_missing_pass_is_missed(rt: HostRuntime) {
    assert_eq!(rt;
        plays(&rt, rt.alloc(), USUAL, [ASKED, "lose = done", MISSING_END]),
        RIGHT
    );
}

/// Half of 7 × 60 ÷ 20 renewals, rounded down, is the threshold, and without preservation eviction is permitted.
const OPENED: &str = r#"pass = 0
0 counts 6 = Counts { held: 0, expected: 7, threshold: 10, last: 0, permitted: true, preservation: false }
pass = 1
0 drain 6 7 = refused 9
0 drain 6 8 = refused 15
lose = done"#;

const OPENED_END: &str =
    r#"account = 0 0 Tally { steps: 0, counted: 0, added: 0, removed: 0 } 1 0:0 0:0
base = false 50 20 1000 expected 7 last 0 since 0 previous None;0+0;0+0;0+0;0+0;0+0;0+0;0+0;0+0;
end = false 50 20 1000 expected 7 last 0 since 0 previous None;0+0;0+0;0+0;0+0;0+0;0+0;0+0;0+0;"#;

#[test]
fn a_book_is_opened_as_it_is_told(rt: HostRuntime) {
    let opening = Opening {
        settings: (false, 50, 20, 1_000),
        expected: 7,
        peers: 8,
    };
    assert_eq!(rt;
        plays(&rt, rt.alloc(), opening, ["", OPENED, OPENED_END]),
        RIGHT
    );
}

const EXPIRES: &str = r#"pass = 0
pass = 1
0 checkpoint = done
0 register 0 A i1 90 UP UNKNOWN 5 c = 0 Registered { fresh: true }
1 look 90000 A i1 = A/i1 UP UNKNOWN 5 90 30 Rest { members: OfHost("i1") } 0 0 0;
1 look 90001 A i1 = none"#;

const EXPIRED: &str = "account = 0 1 Tally { steps: 1, counted: 0, added: 1, removed: 0 } 2 0:1 1:0
settle = Ok(())";

#[test]
fn a_lease_is_seen_until_it_has_expired(rt: HostRuntime) {
    let opening = Opening {
        settings: (false, 85, 30, 60_000),
        ..USUAL
    };
    assert_eq!(rt;
        plays(&rt, rt.alloc(), opening, ["", EXPIRES, EXPIRED]),
        RIGHT
    );
}

const MANY: &str = r#"passes 1024 = done
pass = refused 12"#;

const MANY_END: &str =
    r#"account = 0 1024 Tally { steps: 1024, counted: 0, added: 0, removed: 0 } 1024 0:1 1023:1
settle = Ok(())"#;

#[test]
fn passes_are_1024(rt: HostRuntime) {
    assert_eq!(rt; plays(&rt, rt.alloc(), USUAL, ["", MANY, MANY_END]), RIGHT);
}

/// The batch that has landed is a registration that was done and a heartbeat that found no lease; so a registration waits then.
const FULL: &str = r#"pass = 0
0 adopt 0 A i1 90 UP UNKNOWN 5 = 0 Registered { fresh: true }
0 register 0 A i1 90 UP UNKNOWN 5 c = 1 Registered { fresh: false }
0 renew 0 A i1 - - c = 2 Done
0 drain 0 0 = 3 Batch Register i1 Heartbeat i1
0 lost 0 0 = 4 Settled
0 drain 0 0 = 5 Batch Register i1 Heartbeat i1
0 landed 0 0 200 404 = 6 Settled
0 drain 0 0 = 7 Batch Register i1
0 minutes 65528 = 65535
0 roll 0 = 65536 Last(0)
0 renew 0 A i1 - - c = 65537 Done
0 lost 0 0 = 65538 Settled
0 minutes 65533 = 131071"#;

const FULL_AGAIN: &str = r#"0 roll 0 = 131072 Last(0)
0 renew 0 A i1 - - c = 131073 Done
0 trim = done"#;

const FULL_END: &str =
    r#"account = 131072 2 Tally { steps: 131074, counted: 3, added: 1, removed: 0 } 1 0:2 0:2
settle = Ok(())"#;

#[test]
fn a_full_journal_begins_anew_with_leases_and_queues(rt: HostRuntime) {
    let opening = Opening { peers: 1, ..USUAL };
    assert_eq!(rt;
        plays(&rt, rt.alloc(), opening, [FULL, FULL_AGAIN, FULL_END]),
        RIGHT
    );
}

/// What was logged before the first entry is left out.
const SETTLED: &str = r#"settle = Ok(())
forget = done
forget = done
forget = done
settle = Ok(())
forget = done
forget = done
forget = done
settle = Ok(())"#;

#[test]
fn logs_are_the_parts_of_entries(rt: HostRuntime) {
    assert_eq!(rt;
        plays(&rt, rt.alloc(), USUAL, [ASKED, "pass = 2", SETTLED]),
        RIGHT
    );
}

const MISMATCHED: &str = r#"cut = done
settle = Err(Mismatch { pass: 1, place: 1 })
lose = done
settle = Err(Mismatch { pass: 1, place: 0 })
turn = done
settle = Err(Mismatch { pass: 0, place: 2 })"#;

#[test]
fn what_differs_is_a_mismatch(rt: HostRuntime) {
    assert_eq!(rt;
        plays(&rt, rt.alloc(), USUAL, [ASKED, "", MISMATCHED]),
        RIGHT
    );
}
