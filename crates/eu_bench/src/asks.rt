//! Threads that ask a shared book.
ghost use Rattle.std.specs.Prelude.{◌≡◌};
ghost use Rattle.eu_shared.specs.Shares.{HasNames, HasParts};

use eu_base::{
    App, Config, Fault, Id, Instance, Key, LeaseSecs, Moment, RenewalSecs, Rest, SharedInstance,
    Stamp, Status,
};
use eu_clock::FirstChooser;
use eu_hash::HashKey;
use eu_model::Command;
use eu_settle::{Closed, settle};
use eu_shared::{Blanks, Label, PARTS, Pass, Shared, close};
use std::alloc::Global;
use std::marker::Brand;
use std::sync::Wait;
use std::thread::{Threads, for_each_mut};

/// How many books are opened, one after the other.
pub const BOOKS: u32 = 20;

/// The steps of a book: as many as its journal keeps.
pub const STEPS: u32 = 65_536;

/// The key of the instance that a pass keeps.
fn key(alloc: Global, pass: u64) -> Result<Key, Fault> {
    let app = App::read(alloc, "A")?;
    let id = Id::read(alloc, pass.to_string(alloc)?.as_str())?;
    Ok(Key { app, id })
}

/// It registers.
fn registration(alloc: Global, pass: u64) -> Result<Command, Fault> {
    let last_dirty = Stamp::new(0).ok_or(Fault::BadStamp)?;
    let key = key(alloc, pass)?;
    let rest = Rest::of_host(alloc, "h")?;
    let instance = Instance {
        key,
        status: Status::Up,
        overridden: Status::Unknown,
        last_dirty,
        secs: LeaseSecs::DEFAULT,
        interval: RenewalSecs::DEFAULT,
        rest,
    };
    Ok(Command::Register {
        instance: SharedInstance::new(alloc, instance)?,
        replicated: false,
    })
}

/// It renews its lease.
fn renewal(alloc: Global, pass: u64) -> Result<Command, Fault> {
    let key = key(alloc, pass)?;
    Ok(Command::Renew {
        key,
        last_dirty: None,
        overridden: None,
        replicated: false,
    })
}

/// What a pass asks at its turn of that number.
fn command(alloc: Global, pass: u64, turn: u32) -> Result<Command, Fault> {
    if turn == 0 {
        registration(alloc, pass)
    } else {
        renewal(alloc, pass)
    }
}

/// What threads that ask one book have in common: the book, and how many steps each is to take.
#[derive(Drop)]
struct Load<'a, K: Label, R: Wait> {
    rt: &'a R,
    alloc: Global,
    shared: &'a Shared<K>,
    steps: u32,
}

/// Asks once.
fn ask<K: Label, R: Wait>(load: &Load<'_, K, R>, pass: &mut Pass<K>, turn: u32) {
    let Some(moment) = Moment::new(u64::from(turn)) else {
        return;
    };
    if let Ok(command) = command(load.alloc, pass.number(), turn) {
        let (shared, chooser) = (load.shared, &mut FirstChooser);
        let _ = pass.ask(load.rt, shared, load.alloc, command, moment, chooser);
    }
}

/// Registers an instance of the pass's own, and renews it.
fn work<K: Label, R: Wait>(load: &Load<'_, K, R>, pass: &mut Pass<K>) {
    for turn in 0..load.steps {
        ask(load, pass, turn);
    }
}

/// So many new passes.
fn make_passes<K: Label, R: Wait>(
    load: &Load<'_, K, R>,
    count: usize,
) -> Result<Vec<Pass<K>>, Fault> {
    let mut passes = Vec::with_capacity(load.alloc, count)?;
    for _ in 0..count {
        passes.push(load.shared.pass(load.rt, load.alloc)?)?;
    }
    Ok(passes)
}

/// Each pass takes its steps, in a thread of its own.
fn work_all<K: Label + Send + Sync, R: Threads + Wait + Sync>(
    load: &Load<'_, K, R>,
    passes: &mut [Pass<K>],
) {
    let threads = passes.len().max(1);
    for_each_mut(load.rt, passes, threads, &|_place, pass| work(load, pass));
}

/// Opens a book, has it asked, and closes it.
fn ask_book<K: Label + Send + Sync, R: Threads + Wait + Sync>(
    rt: &R,
    alloc: Global,
    threads: u32,
    steps: u32,
    blanks: Blanks,
) -> Result<Closed, Fault>
    requires names { HasNames blanks K.steps K.counted K.added K.removed }
    requires parts { HasParts blanks K.parts × (K.parts ≡ PARTS) }
{
    let config = Config::new(true, 85, 30, 60_000)?;
    let shared: Shared<K> = Shared::open(alloc, config, 0, 0, HashKey::new(0, 0), blanks)?;
    let load = Load {
        rt,
        alloc,
        shared: &shared,
        steps: steps / threads.max(1),
    };
    let mut passes = make_passes(&load, threads as usize)?;
    work_all(&load, passes.as_mut_slice());
    match close(shared, alloc, passes) {
        Ok(closed) => Ok(closed),
        Err(unclosed) => Err(unclosed.fault),
    }
}

/// How many steps were accepted of a new book by so many threads that share so many steps. `Mismatch` where a thread's log isn't
/// its part of the journal.
pub fn accepted<R: Threads + Wait + Sync>(
    rt: &R,
    alloc: Global,
    threads: u32,
    steps: u32,
) -> Result<u64, Fault> {
    let closed = ask_book::<Brand, R>(rt, alloc, threads, steps, Blanks::new())?;
    match settle(&closed) {
        Ok(()) => Ok(closed.totals.steps),
        Err(_) => Err(Fault::Mismatch),
    }
}

/// The same of `BOOKS` new books, one after the other, each asked `STEPS` times.
pub fn count_accepted<R: Threads + Wait + Sync>(
    rt: &R,
    alloc: Global,
    threads: u32,
) -> Result<u64, Fault> {
    let mut steps = 0u64;
    for _book in 0..BOOKS {
        steps = steps.saturating_add(accepted(rt, alloc, threads, STEPS)?);
    }
    Ok(steps)
}
