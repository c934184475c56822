//! Values from the rules of Eureka's batches, worked out by hand.
use eu_base::{Action, Fault, Moment, Status, Task, Tasks};
use eu_fixtures::{cut, key, moment, number_of, numbered};
use eu_hash::HashKey;
use eu_outbox::Outbox;
use std::alloc::{AllocError, Global};

/// A task with the status UP. Each application is A.
fn task(alloc: Global, action: Action, id: &str, queued: Moment) -> Result<Task, Fault> {
    let key = key(alloc, id)?;
    Ok(Task {
        action,
        key,
        status: Some(Status::Up),
        instance: None,
        queued,
    })
}

fn put(
    alloc: Global,
    outbox: &mut Outbox,
    action: Action,
    id: &str,
    now: Moment,
) -> Result<(), Fault> {
    let task = task(alloc, action, id, moment(0)?)?;
    outbox.put(task, now)?;
    Ok(())
}

/// Puts heartbeats of so many ids, that are numbers.
fn fill(
    alloc: Global,
    outbox: &mut Outbox,
    first: u64,
    end: u64,
    now: Moment,
) -> Result<(), Fault> {
    for number in first..end {
        let id = format!(in alloc; "{number}")?;
        put(alloc, outbox, Action::Heartbeat, id.as_str(), now)?;
    }
    Ok(())
}

/// Writes an answer: `done`, or the fault.
fn tell(out: &mut String, answer: Result<(), Fault>) -> Result<(), AllocError> {
    match answer {
        Ok(()) => out.push_str("done "),
        Err(fault) => write!(out, "{fault:?} "),
    }
}

/// Writes a task as its action, its id, whether it has a status, and when it was queued.
fn tell_task(out: &mut String, task: &Task) -> Result<(), AllocError> {
    let sign = if task.status.is_some() { "+" } else { "" };
    let (action, id, ms) = (task.action.name(), task.key.id.as_str(), task.queued.ms());
    write!(out, "{action}-{id}{sign}@{ms} ")
}

fn tell_tasks(out: &mut String, tasks: &[Task]) -> Result<(), AllocError> {
    for task in tasks {
        tell_task(out, task)?;
    }
    Ok(())
}

/// The tasks of the first of some batches.
fn first_of(batches: &[Tasks]) -> &[Task] {
    match batches.first() {
        Some(batch) => batch.as_slice(),
        None => &[],
    }
}

fn drain(
    alloc: Global,
    outbox: &mut Outbox,
    out: &mut String,
    now: Moment,
) -> Result<(), AllocError> {
    match outbox.drain(alloc, now, 1) {
        Ok(batches) => tell_tasks(out, first_of(batches.as_slice())),
        Err(fault) => tell(out, Err(fault)),
    }
}

/// Writes how many tasks the next batch has, and the ids of the first and of the last.
fn drain_ends(
    alloc: Global,
    outbox: &mut Outbox,
    out: &mut String,
    now: Moment,
) -> Result<(), Fault> {
    let batches = outbox.drain(alloc, now, 1)?;
    let tasks = first_of(batches.as_slice());
    if let (Some(first), Some(last)) = (tasks.first(), tasks.last()) {
        let (count, first, last) = (tasks.len(), first.key.id.as_str(), last.key.id.as_str());
        write!(out, "{count}: {first} to {last} ")?;
    }
    Ok(())
}

/// The batch has landed, with these codes, or with as many of 200 as a batch has.
fn land(
    alloc: Global,
    outbox: &mut Outbox,
    out: &mut String,
    codes: &str,
    now: Moment,
) -> Result<(), Fault> {
    if codes == "all" {
        return Ok(tell(out, outbox.landed([200; 250].as_slice(), now))?);
    }
    let mut list = Vec::new(alloc);
    for code in codes.split_whitespace() {
        list.push(u16::try_from(number_of(code)?).map_err(|_| Fault::BadValue)?)?;
    }
    let answer = outbox.landed(list.as_slice(), now);
    Ok(tell(out, answer)?)
}

/// Writes what would refuse a drain, a landing of one task and a loss.
fn tell_refusals(outbox: &Outbox, out: &mut String, now: Moment) -> Result<(), AllocError> {
    let drain = outbox.drain_refusal(now);
    let landed = outbox.landed_refusal([200].as_slice());
    write!(out, "{drain:?} {landed:?} {:?}; ", outbox.lost_refusal())
}

/// Writes how many batches come of what waits, where so many are asked for.
fn tell_batches(
    alloc: Global,
    outbox: &mut Outbox,
    out: &mut String,
    copies: &str,
    now: Moment,
) -> Result<(), Fault> {
    outbox.reserve()?;
    let copies = u32::try_from(number_of(copies)?).map_err(|_| Fault::BadValue)?;
    let batches = outbox.drain(alloc, now, copies)?;
    Ok(write!(out, "{}", batches.len())?)
}

fn fill_between(
    alloc: Global,
    outbox: &mut Outbox,
    numbers: &str,
    now: Moment,
) -> Result<(), Fault> {
    let (first, end) = numbered(numbers)?;
    fill(alloc, outbox, first, number_of(end)?, now)
}

/// The action of a word.
fn action_of(word: &str) -> Result<Action, Fault> {
    match word {
        "beat" => Ok(Action::Heartbeat),
        "cancel" => Ok(Action::Cancel),
        "register" => Ok(Action::Register),
        _ => Err(Fault::BadValue),
    }
}

/// Makes a call, which is told as `MS WORD ..`. `ACTION ID` puts a task, and `fill FROM TO` heartbeats of as many ids. `drain`, `lost` and `landed CODE ..` are what they say; `ends` is
/// a drain of which less is told, and `batches N` one for so many. `refusals` tells what would be refused.
fn step(alloc: Global, outbox: &mut Outbox, out: &mut String, call: &str) -> Result<(), Fault> {
    let (ms, said) = numbered(call)?;
    let now = moment(ms)?;
    let (word, rest) = cut(said);
    match word {
        "drain" => Ok(drain(alloc, outbox, out, now)?),
        "ends" => drain_ends(alloc, outbox, out, now),
        "batches" => tell_batches(alloc, outbox, out, rest, now),
        "lost" => Ok(tell(out, outbox.lost(now))?),
        "landed" => land(alloc, outbox, out, rest, now),
        "refusals" => Ok(tell_refusals(outbox, out, now)?),
        "fill" => fill_between(alloc, outbox, rest, now),
        _ => put(alloc, outbox, action_of(word)?, rest, now),
    }
}

/// What a new outbox tells, to which these calls are made.
fn told(alloc: Global, calls: &str) -> Result<String, Fault> {
    let mut outbox = Outbox::new(alloc, HashKey::new(0, 0));
    let mut out = String::new(alloc);
    for call in calls.split(", ") {
        step(alloc, &mut outbox, &mut out, call)?;
    }
    Ok(out)
}

/// Whether a new outbox tells that.
fn tells(alloc: Global, calls: &str, text: &str) -> Result<bool, Fault> {
    Ok(told(alloc, calls)?.as_str().trim_end() == text)
}

/// Calls to an outbox, and what it tells: of a batch the tasks, each with its action, its id, a sign where it has a status, and when it was queued.
const ROWS: [(&str, &str, &str); 11] = [
    (
        "one of a name waits",
        "0 beat a, 1 beat b, 2 beat a, 3 cancel a, 4 drain",
        "Heartbeat-a+@2 Heartbeat-b+@1 Cancel-a+@3",
    ),
    (
        "a task expires after half a minute",
        "0 beat a, 1 beat b, 30001 drain",
        "Heartbeat-b+@1",
    ),
    (
        "and not before",
        "0 beat a, 1 beat b, 30000 drain",
        "Heartbeat-a+@0 Heartbeat-b+@1",
    ),
    (
        "where all have expired there is no batch",
        "0 beat a, 30001 drain",
        "EmptyBatch",
    ),
    (
        "refusals change nothing",
        "0 drain, 0 landed, 0 lost, 0 beat a, 0 drain, 0 beat b, 0 drain, 0 landed 404 404, 0 landed 200, 0 drain",
        "EmptyBatch NoFlight NoFlight Heartbeat-a+@0 Busy CountDiffers done Heartbeat-b+@0",
    ),
    (
        "heartbeats of no lease become registrations, unless one waits",
        "0 beat a, 0 beat b, 0 beat c, 0 cancel d, 1 drain, 2 register b, 2 beat a, 3 landed 404 404 200 404, 4 drain",
        "Heartbeat-a+@0 Heartbeat-b+@0 Heartbeat-c+@0 Cancel-d+@0 done Register-b+@2 Heartbeat-a+@2 Register-a@3",
    ),
    (
        "lost tasks wait again in front",
        "0 beat a, 1 beat b, 1 beat c, 2 cancel c, 3 drain, 4 cancel b, 5 beat b, 30001 lost, 30001 drain",
        "Heartbeat-a+@0 Heartbeat-b+@1 Heartbeat-c+@1 Cancel-c+@2 done Heartbeat-c+@1 Cancel-c+@2 Cancel-b+@4 Heartbeat-b+@5",
    ),
    (
        "refusals are told before",
        "0 refusals, 0 beat a, 0 refusals, 0 drain, 0 refusals",
        "Some(EmptyBatch) Some(NoFlight) Some(NoFlight); None Some(NoFlight) Some(NoFlight); Heartbeat-a+@0 Some(Busy) None None;",
    ),
    (
        "the first of too many are dropped, whether put or lost",
        "0 fill 0 10001, 1 ends, 0 fill 20000 20250, 1 lost, 1 ends",
        "250: 1 to 250 done 250: 251 to 500",
    ),
    (
        "order is kept, and what is in flight waits once more",
        "0 fill 0 300, 1 ends, 2 fill 250 252, 2 fill 0 1, 3 landed all, 30001 ends",
        "250: 0 to 249 done 3: 250 to 0",
    ),
    (
        "there are as many batches as are asked for",
        "0 fill 0 1, 0 batches 3",
        "3",
    ),
];

#[test]
fn batches_are_eurekas(rt: HostRuntime) {
    for (name, calls, text) in ROWS {
        assert!(rt; tells(rt.alloc(), calls, text) == Ok(true), "{name}");
    }
}
