//! All workers of a server, each in a thread of its own.
ghost use Rattle.std.specs.Prelude.{◌≡◌, ℕ, ◌<◌, length, max, slice_index_or};
ghost use Rattle.eu_workers.specs.All.{HasRun, IsEnded, IsNumbered, IsWorked};

use crate::ended::Ended;
use crate::incoming::Incoming;
use crate::replicator::run_replicator;
use crate::sessions::run_sessions;
use crate::site::Site;
use crate::timers::{run_bucket, run_evictor, run_threshold};
use eu_clock::{Chooser, Clock};
use eu_gate::Gate;
use eu_peer::Peer;
use eu_shared::{Label, Pass};
use std::mem;
use std::sync::Wait;
use std::thread::{Threads, for_each_mut};

/// What a worker is to do, turn after turn.
#[derive(Drop)]
pub enum Work<S, H, P> {
    /// Serve the sessions of these connections (`run_sessions`).
    Sessions {
        /// Where they come from.
        source: S,
    },
    /// Evict (`run_evictor`).
    Evictor {
        /// What draws the victims.
        chooser: H,
    },
    /// Let a minute end (`run_bucket`).
    Bucket,
    /// Set the threshold (`run_threshold`).
    Threshold,
    /// Send what waits for a peer (`run_replicator`). No two jobs may have one peer's number.
    Replicator {
        /// The peer's number, from 0.
        number: u32,
        /// The way to it.
        peer: P,
    },
}

/// A worker's job.
#[derive(Drop)]
pub struct Job<K: Label, S, C, H, P> {
    /// By what it asks.
    pub pass: Pass<K>,
    /// Its clock.
    pub clock: C,
    /// The most turns that it has.
    pub limit: u64,
    /// What it does in each.
    pub work: Work<S, H, P>,
}

/// A worker.
#[derive(Drop)]
pub enum Worker<K: Label, S, C, H, P> {
    /// It has a job, and didn't begin.
    Ready(Job<K, S, C, H, P>),
    /// It has a job and a number among the session workers, and didn't begin.
    Numbered(u32, Job<K, S, C, H, P>),
    /// It works.
    Working,
    /// It ended, and gave its pass back, and with it what it worked with: where its connections came from, what drew the victims, or
    /// the way to its peer.
    Done(Pass<K>, Ended, Work<S, H, P>),
}

/// Counts a worker that serves sessions, and gives its number; 0 of any other, which passes the gate by the number of its kind.
fn number_of<S, H, P>(work: &Work<S, H, P>, sessions: &mut u32) -> u32 {
    match work {
        Work::Sessions { .. } => {
            *sessions = sessions.saturating_add(1);
            *sessions
        }
        _ => 0,
    }
}

/// Numbers a worker that is ready.
fn number<K: Label, S: Drop, C: Drop, H: Drop, P: Drop>(
    worker: &mut Worker<K, S, C, H, P>,
    sessions: &mut u32,
)
    ensures { IsNumbered worker.old worker.new }
{
    match mem::replace(worker, Worker::Working) {
        Worker::Ready(job) => {
            let who = number_of(&job.work, sessions);
            *worker = Worker::Numbered(who, job);
        }
        other => *worker = other,
    }
}

/// Numbers all workers that are ready, session workers from 1 in their order.
fn number_all<K: Label, S: Drop, C: Drop, H: Drop, P: Drop>(workers: &mut [Worker<K, S, C, H, P>])
    ensures len { length workers.new ≡ length workers.old }
    ensures each { (i : ℕ) (d : _) → i < length workers.old → IsNumbered (slice_index_or workers.old i d) (slice_index_or workers.new i d) }
{
    let mut sessions = 0;
    for i in 0..workers.len() {
        number(&mut workers[i], &mut sessions);
    }
}

/// Does a work, turn after turn, to its end.
fn take_turns<K: Label, R: Wait, G: Gate, S: Incoming, C: Clock, H: Chooser, P: Peer>(
    site: &Site<'_, K, R, G>,
    who: u32,
    work: &mut Work<S, H, P>,
    pass: Pass<K>,
    clock: &mut C,
    limit: u64,
) -> (Pass<K>, Ended)
    ensures { IsWorked H.asks work.old work.new limit pass result.0 result.1 }
{
    match work {
        Work::Sessions { source } => run_sessions(site, who, pass, source, clock, limit),
        Work::Evictor { chooser } => run_evictor(site, pass, clock, chooser, limit),
        Work::Bucket => run_bucket(site, pass, clock, limit),
        Work::Threshold => run_threshold(site, pass, clock, limit),
        Work::Replicator { number, peer } => {
            run_replicator(site, *number, pass, peer, clock, limit)
        }
    }
}

/// Has a worker do its job, if it has one and its number.
fn run_worker<
    K: Label,
    R: Wait,
    G: Gate,
    S: Incoming + Drop,
    C: Clock + Drop,
    H: Chooser + Drop,
    P: Peer + Drop,
>(site: &Site<'_, K, R, G>, worker: &mut Worker<K, S, C, H, P>)
    ensures { HasRun H.asks worker.old worker.new }
{
    match mem::replace(worker, Worker::Working) {
        Worker::Numbered(who, job) => {
            let Job {
                pass,
                mut clock,
                limit,
                mut work,
            } = job;
            let (pass, ended) = take_turns(site, who, &mut work, pass, &mut clock, limit);
            *worker = Worker::Done(pass, ended, work);
        }
        other => *worker = other,
    }
}

/// How many threads so many workers want: one each.
fn threads_for(workers: usize) -> usize
    ensures { result ≡ max workers 1 }
{
    workers.max(1)
}

/// Has each worker that has its number do its job, in a thread of its own where one can be made, else after those behind it.
fn run_backwards<
    K: Label + Send + Sync,
    R: Threads + Wait + Sync,
    G: Gate + Sync,
    S: Incoming + Send + Drop,
    C: Clock + Send + Drop,
    H: Chooser + Send + Drop,
    P: Peer + Send + Drop,
>(site: &Site<'_, K, R, G>, workers: &mut [Worker<K, S, C, H, P>])
    ensures { (i : ℕ) (d : _) → i < length workers.old → HasRun H.asks (slice_index_or workers.old i d) (slice_index_or workers.new i d) }
{
    let threads = threads_for(workers.len());
    for_each_mut(
        site.rt,
        workers,
        threads,
        &|_place, worker| run_worker(site, worker),
    );
}

/// The same, but where no thread can be made after those before it that share one with it.
fn run_each<
    K: Label + Send + Sync,
    R: Threads + Wait + Sync,
    G: Gate + Sync,
    S: Incoming + Send + Drop,
    C: Clock + Send + Drop,
    H: Chooser + Send + Drop,
    P: Peer + Send + Drop,
>(site: &Site<'_, K, R, G>, workers: &mut [Worker<K, S, C, H, P>])
    ensures { (i : ℕ) (d : _) → i < length workers.old → HasRun H.asks (slice_index_or workers.old i d) (slice_index_or workers.new i d) }
{
    workers.reverse();
    run_backwards(site, workers);
    workers.reverse();
}

/// Has each worker that is ready, or has its number already, do its job, in a thread of its own, and returns when all have ended. Where
/// fewer threads can be made, those that share one do their jobs one after another, in their order. Takes no memory.
///
/// Session workers that are ready are numbered from 1, in their order. Workers that are at work, or done, stay as they are.
///
/// The caller hands in at most 20 jobs of sessions, one of each timer, no two replicators of one peer, and no session worker that has
/// its number beside one that is ready: else two would share a number at the gate.
pub fn run_all<
    K: Label + Send + Sync,
    R: Threads + Wait + Sync,
    G: Gate + Sync,
    S: Incoming + Send + Drop,
    C: Clock + Send + Drop,
    H: Chooser + Send + Drop,
    P: Peer + Send + Drop,
>(site: &Site<'_, K, R, G>, workers: &mut [Worker<K, S, C, H, P>])
    ensures { (i : ℕ) (d : _) → i < length workers.old → IsEnded H.asks (slice_index_or workers.old i d) (slice_index_or workers.new i d) }
{
    number_all(workers);
    run_each(site, workers);
}
