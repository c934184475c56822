//! Commands, replies and lists: how they are copied, compared and counted.
use eu_base::{Action, Config, Fault, Id, Key, Keys, Status, Task, Tasks};
use eu_fixtures::{
    Told, cut, first_wrong, instance, key, key_of, moment, number_of, read_command, settings,
};
use eu_model::{Command, Listed, Listing, OverrideRows, Reply, Tally, Times};
use std::alloc::{AllocError, Global};

fn times() -> Times {
    Times {
        registered: 1,
        updated: 1,
        up: 1,
    }
}

/// The keys that are told as `APP/ID APP/ID`.
fn keys(alloc: Global, words: &str) -> Result<Keys, Fault> {
    let mut list = Vec::new(alloc);
    for word in words.split(' ') {
        let (app, id) = word.split_once('/').ok_or(Fault::BadValue)?;
        list.push(key_of(alloc, app, id)?)?;
    }
    Ok(Keys::new(list))
}

/// A task of i1 that is queued at 5, with that status.
fn task(alloc: Global, status: &str) -> Result<Task, Fault> {
    let status = Status::read(status.as_bytes()).ok_or(Fault::BadValue)?;
    let queued = moment(5)?;
    Ok(Task {
        action: Action::StatusUpdate,
        key: key(alloc, "i1")?,
        status: Some(status),
        instance: None,
        queued,
    })
}

fn tasks(alloc: Global, status: &str) -> Result<Tasks, Fault> {
    let mut list = Vec::new(alloc);
    list.push(task(alloc, status)?)?;
    Ok(Tasks::new(list))
}

/// A conflict with an instance of that stamp.
fn conflict(alloc: Global, stamp: &str) -> Result<Reply, Fault> {
    let held = instance(alloc, "i1", number_of(stamp)?, 90)?;
    Ok(Reply::Conflict(held))
}

/// A reply, told as a word and what it has: `conflict STAMP`, `evicted APP/ID ..`, `batch STATUS` of one task.
fn reply(alloc: Global, words: &str) -> Result<Reply, Fault> {
    let (word, rest) = cut(words);
    match word {
        "fresh" => Ok(Reply::Registered { fresh: true }),
        "done" => Ok(Reply::Done),
        "missing" => Ok(Reply::NotFound),
        "stale" => Ok(Reply::Stale),
        "last" => Ok(Reply::Last(number_of(rest)?)),
        "expected" => Ok(Reply::Expected(number_of(rest)?)),
        "conflict" => conflict(alloc, rest),
        "evicted" => Ok(Reply::Evicted(keys(alloc, rest)?)),
        "batch" => Ok(Reply::Batch(tasks(alloc, rest)?)),
        _ => Err(Fault::BadValue),
    }
}

fn tell_keys(keys: &[Key], out: &mut String) -> Result<(), AllocError> {
    for key in keys {
        write!(out, " {}/{}", key.app.as_str(), key.id.as_str())?;
    }
    Ok(())
}

fn tell_tasks(tasks: &[Task], out: &mut String) -> Result<(), AllocError> {
    for task in tasks {
        let status = task.status.map(|status| status.name()).unwrap_or("-");
        let ms = task.queued.ms();
        write!(out, " {} {status} {ms}", task.key.id.as_str())?;
    }
    Ok(())
}

/// Tells a reply by the words that it is read from.
fn tell_reply(reply: &Reply, out: &mut String) -> Result<(), AllocError> {
    match reply {
        Reply::Registered { fresh: true } => out.push_str("fresh"),
        Reply::Last(renewals) => write!(out, "last {renewals}"),
        Reply::Conflict(held) => write!(out, "conflict {}", held.last_dirty().value()),
        Reply::Evicted(victims) => {
            out.push_str("evicted")?;
            tell_keys(victims.as_slice(), out)
        }
        Reply::Batch(tasks) => {
            out.push_str("batch")?;
            tell_tasks(tasks.as_slice(), out)
        }
        _ => out.push_str("another"),
    }
}

/// Tells a renewal and a registration by what they bring.
fn tell_command(command: &Command, out: &mut String) -> Result<(), AllocError> {
    match command {
        Command::Renew {
            key,
            last_dirty: Some(stamp),
            overridden: Some(status),
            replicated,
        } => {
            let (id, stamp) = (key.id.as_str(), stamp.value());
            write!(out, "renew {id} {stamp} {} {replicated}", status.name())
        }
        Command::Register {
            instance,
            replicated,
        } => {
            let (id, secs) = (instance.key().id.as_str(), instance.secs().secs());
            write!(out, "register {id} {secs} {replicated}")
        }
        Command::Reconfigure { config } => {
            let (percent, secs) = (config.percent.value(), config.interval.secs());
            let (preservation, ms) = (config.preservation, config.evict_ms);
            write!(out, "config {preservation} {percent} {secs} {ms}")
        }
        _ => out.push_str("another"),
    }
}

/// Values of the machine. The copy is told of `copy-reply REPLY` and of `copy LINE`, and whether it is the same. Of `replies REPLY, REPLY` and `commands LINE, LINE` it is told
/// whether they are the same; of `tally LINE, REPLY` the steps, the counted renewals, and the leases added and removed.
#[derive(Drop)]
pub struct Machine;

/// The two parts of a text.
fn parts(text: &str) -> Result<(&str, &str), Fault> {
    text.split_once(", ").ok_or(Fault::BadValue)
}

fn tell_reply_copy(alloc: Global, words: &str, out: &mut String) -> Result<(), Fault> {
    let reply = reply(alloc, words)?;
    let copy = reply.copy(alloc)?;
    tell_reply(&copy, out)?;
    Ok(write!(out, " {}", copy.same(&reply))?)
}

fn tell_copy(alloc: Global, words: &str, out: &mut String) -> Result<(), Fault> {
    let (_, command) = read_command(alloc, words)?;
    let copy = command.copy(alloc)?;
    tell_command(&copy, out)?;
    Ok(write!(out, " {}", copy.same(&command))?)
}

fn tell_replies(alloc: Global, text: &str, out: &mut String) -> Result<(), Fault> {
    let (one, other) = parts(text)?;
    let one = reply(alloc, one)?;
    let other = reply(alloc, other)?;
    Ok(write!(out, "{}", one.same(&other))?)
}

fn tell_commands(alloc: Global, text: &str, out: &mut String) -> Result<(), Fault> {
    let (one, other) = parts(text)?;
    let (_, one) = read_command(alloc, one)?;
    let (_, other) = read_command(alloc, other)?;
    Ok(write!(out, "{}", one.same(&other))?)
}

fn tell_tally(alloc: Global, text: &str, out: &mut String) -> Result<(), Fault> {
    let (line, words) = parts(text)?;
    let (_, command) = read_command(alloc, line)?;
    let reply = reply(alloc, words)?;
    let Tally {
        steps,
        counted,
        added,
        removed,
    } = Tally::of(&command, &reply);
    Ok(write!(out, "{steps} {counted} {added} {removed}")?)
}

impl Told for Machine {
    fn tell(&mut self, alloc: Global, said: &str, out: &mut String) -> Result<(), Fault> {
        let (word, text) = cut(said);
        match word {
            "copy-reply" => tell_reply_copy(alloc, text, out),
            "copy" => tell_copy(alloc, text, out),
            "replies" => tell_replies(alloc, text, out),
            "commands" => tell_commands(alloc, text, out),
            "tally" => tell_tally(alloc, text, out),
            _ => Err(Fault::BadValue),
        }
    }
}

const REPLIES: &str = "copy-reply conflict 7 = conflict 7 true
copy-reply evicted A/i1 B/i2 = evicted A/i1 B/i2 true
copy-reply batch UP = batch i1 UP 5 true
copy-reply fresh = fresh true
copy-reply last 4 = last 4 true
replies evicted A/i1, evicted A/i1 = true
replies evicted A/i1, evicted A/i2 = false
replies last 4, expected 4 = false";

const TASKS: &str = "replies batch UP, batch UP = true
replies batch UP, batch DOWN = false";

const COMMANDS: &str = "copy renew 0 A i1 9 DOWN r = renew i1 9 DOWN true true
copy register 0 A i1 90 UP UNKNOWN 7 c = register i1 90 false true
copy config 0 on 85 30 60000 = config true 85 30 60000 true
commands renew 0 A i1 9 DOWN r, renew 0 A i1 9 DOWN r = true
commands renew 0 A i1 9 DOWN r, renew 0 A i1 9 DOWN c = false
commands drain 0 1, lost 0 1 = false";

const CHANGES: &str = "commands config 0 on 85 30 60000, config 0 on 85 30 60000 = true
commands config 0 on 85 30 60000, config 0 off 85 30 60000 = false
commands config 0 on 85 30 60000, config 0 on 84 30 60000 = false
commands config 0 on 85 30 60000, config 0 on 85 31 60000 = false
commands config 0 on 85 30 60000, config 0 on 85 30 60001 = false";

const TALLIES: &str = "tally evict 0, evicted A/i1 = 1 0 0 1
tally renew 0 A i1 - - c, stale = 1 1 0 0
tally renew 0 A i1 - - c, missing = 1 0 0 0
tally config 0 on 85 30 60000, done = 1 0 0 0";

#[test]
fn replies_are_copied_and_compared(rt: HostRuntime) {
    assert_eq!(rt; first_wrong(rt.alloc(), &mut Machine, REPLIES), None);
}

#[test]
fn tasks_are_compared(rt: HostRuntime) {
    assert_eq!(rt; first_wrong(rt.alloc(), &mut Machine, TASKS), None);
}

#[test]
fn commands_are_copied_and_compared(rt: HostRuntime) {
    assert_eq!(rt; first_wrong(rt.alloc(), &mut Machine, COMMANDS), None);
}

#[test]
fn changes_of_settings_are_compared(rt: HostRuntime) {
    assert_eq!(rt; first_wrong(rt.alloc(), &mut Machine, CHANGES), None);
    for (percent, same) in [(85, true), (84, false)] {
        let other = Config::new(true, percent, 30, 60_000);
        assert!(rt;
            settings().and_then(|config| other.map(|other| config.same(&other))) == Ok(same)
        );
    }
}

#[test]
fn what_is_done_is_counted(rt: HostRuntime) {
    assert_eq!(rt; first_wrong(rt.alloc(), &mut Machine, TALLIES), None);
    assert!(rt; Tally::nothing().steps == 0);
    let before = Tally {
        steps: 7,
        counted: 3,
        added: 2,
        removed: 1,
    };
    let both = Tally {
        steps: 12,
        counted: 7,
        added: 5,
        removed: 3,
    };
    let more = Tally {
        steps: 5,
        counted: 4,
        added: 3,
        removed: 2,
    };
    assert!(rt; before.plus(more) == both);
}

/// The list of one lease.
fn listing(alloc: Global) -> Result<Listing, Fault> {
    let instance = instance(alloc, "i1", 7, 90)?;
    let mut leases = Vec::new(alloc);
    leases.push(Listed {
        instance,
        times: times(),
    })?;
    Ok(Listing::new(leases))
}

/// Whether a list of a lease shows it.
fn shows_a_lease(alloc: Global) -> Result<bool, Fault> {
    let listing = listing(alloc)?;
    Ok(match listing.as_slice() {
        [listed] => listed.instance.key().id.as_str() == "i1",
        _ => false,
    })
}

/// Whether a list of an override shows it.
fn shows_a_row(alloc: Global) -> Result<bool, Fault> {
    let mut list = Vec::new(alloc);
    list.push((Id::read(alloc, "i1")?, Status::Down))?;
    Ok(match OverrideRows::new(list).as_slice() {
        [(id, status)] => id.as_str() == "i1" && status.name() == "DOWN",
        _ => false,
    })
}

#[test]
fn lists_show_what_they_hold(rt: HostRuntime) {
    assert!(rt; shows_a_lease(rt.alloc()) == Ok(true));
    assert!(rt; shows_a_row(rt.alloc()) == Ok(true));
}
