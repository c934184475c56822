//! Want of memory. In a usual run no allocation is refused; `tools/sweep_memory.sh` refuses one after another.
use eu_base::{Action, Fault, Status, Task, Tasks};
use eu_fixtures::{instance, key, moment};
use eu_hash::HashKey;
use eu_model::Queue;
use eu_outbox::Outbox;
use std::alloc::{AllocError, Global};

/// A call of an outbox.
#[derive(Clone, Copy)]
enum Call {
    /// The task of the registration of that number is put.
    Put(u32),
    /// Room is made for a task.
    Reserve,
    Drain,
    /// So many statuses come back.
    Land(usize),
    Lose,
}

/// An outbox, and another that was told the same.
#[derive(Drop)]
struct Twins {
    tried: Outbox,
    other: Outbox,
}

/// A registration, whose id has more than 40 bytes, so that each copy of it takes memory.
fn task(alloc: Global, number: u32) -> Result<Task, Fault> {
    let id = format!(in alloc; "an-id-of-an-instance-of-more-than-40-bytes-{number}")?;
    let instance = instance(alloc, id.as_str(), 5, 90)?;
    Ok(Task {
        action: Action::Register,
        key: key(alloc, id.as_str())?,
        status: Some(Status::Up),
        instance: Some(instance),
        queued: moment(0)?,
    })
}

fn put(alloc: Global, outbox: &mut Outbox, number: u32) -> Result<usize, Fault> {
    let task = task(alloc, number)?;
    outbox.put(task, moment(0)?)?;
    Ok(0)
}

fn reserve(outbox: &mut Outbox) -> Result<usize, Fault> {
    outbox.reserve()?;
    Ok(0)
}

/// How many tasks the one batch has.
fn drained(batches: &[Tasks]) -> usize {
    match batches {
        [batch] => batch.as_slice().len(),
        _ => 0,
    }
}

fn drain(alloc: Global, outbox: &mut Outbox) -> Result<usize, Fault> {
    let batches = outbox.drain(alloc, moment(0)?, 1)?;
    let count = drained(batches.as_slice());
    drop(batches);
    Ok(count)
}

fn land(outbox: &mut Outbox, count: usize) -> Result<usize, Fault> {
    let codes = [200u16; 250];
    let some = codes.get(..count).unwrap_or(&[]);
    outbox.landed(some, moment(0)?)?;
    Ok(0)
}

fn lose(outbox: &mut Outbox) -> Result<usize, Fault> {
    outbox.lost(moment(0)?)?;
    Ok(0)
}

/// Makes a call: how many tasks a drain gave, and 0 of any other.
fn make(alloc: Global, outbox: &mut Outbox, call: Call) -> Result<usize, Fault> {
    match call {
        Call::Put(number) => put(alloc, outbox, number),
        Call::Reserve => reserve(outbox),
        Call::Drain => drain(alloc, outbox),
        Call::Land(count) => land(outbox, count),
        Call::Lose => lose(outbox),
    }
}

fn same(one: &Queue, other: &Queue) -> bool {
    one.waiting.same(&other.waiting) && one.flight.same(&other.flight)
}

/// Whether both outboxes have the same tasks.
fn are_same(alloc: Global, twins: &Twins) -> Result<bool, AllocError> {
    let one = twins.tried.queue(alloc)?;
    let other = twins.other.queue(alloc)?;
    Ok(same(&one, &other))
}

/// Makes a call once more where it found no memory, if that changed nothing. `Mismatch` where it did.
fn made(alloc: Global, twins: &mut Twins, call: Call) -> Result<usize, Fault> {
    let answer = make(alloc, &mut twins.tried, call);
    if answer != Err(Fault::OutOfMemory) {
        return answer;
    }
    if !are_same(alloc, twins)? {
        return Err(Fault::Mismatch);
    }
    make(alloc, &mut twins.tried, call)
}

/// The same of both. `Mismatch` where they answer otherwise.
fn both(alloc: Global, twins: &mut Twins, call: Call) -> Result<usize, Fault> {
    let answer = made(alloc, twins, call);
    let mut again = make(alloc, &mut twins.other, call);
    if again == Err(Fault::OutOfMemory) {
        again = make(alloc, &mut twins.other, call);
    }
    if answer != again {
        return Err(Fault::Mismatch);
    }
    answer
}

/// A client registers so often. Whether each call put a task.
fn put_all(alloc: Global, twins: &mut Twins, count: u32) -> bool {
    for number in 0..count {
        if both(alloc, twins, Call::Put(number)) != Ok(0) {
            return false;
        }
    }
    true
}

/// The same, at the second try where the first finds no memory.
fn stay_same(alloc: Global, twins: &Twins) -> bool {
    match are_same(alloc, twins) {
        Ok(same) => same,
        Err(_) => are_same(alloc, twins) == Ok(true),
    }
}

/// What follows 251 registrations.
fn end(alloc: Global, twins: &mut Twins) -> bool {
    both(alloc, twins, Call::Reserve) == Ok(0)
        && both(alloc, twins, Call::Drain) == Ok(250)
        && stay_same(alloc, twins)
        && both(alloc, twins, Call::Drain) == Err(Fault::Busy)
        && both(alloc, twins, Call::Lose) == Ok(0)
        && both(alloc, twins, Call::Drain) == Ok(250)
        && both(alloc, twins, Call::Land(249)) == Err(Fault::CountDiffers)
        && both(alloc, twins, Call::Land(250)) == Ok(0)
        && both(alloc, twins, Call::Lose) == Err(Fault::NoFlight)
        && both(alloc, twins, Call::Drain) == Ok(1)
}

fn is_played(alloc: Global) -> bool {
    let mut twins = Twins {
        tried: Outbox::new(alloc, HashKey::new(0, 0)),
        other: Outbox::new(alloc, HashKey::new(0, 0)),
    };
    let played = put_all(alloc, &mut twins, 251) && end(alloc, &mut twins);
    drop(twins);
    played
}

#[test]
fn memory_outbox(rt: HostRuntime) {
    assert!(rt; is_played(rt.alloc()));
}
