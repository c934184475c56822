//! Workers in a list, each with a pass of its own, and what they work at.
use eu_base::Fault;
use eu_clock::{FirstChooser, ListClock};
use eu_http::Policy;
use eu_peer::Peer;
use eu_routes::Routes;
use eu_shared::{Label, Pass, Shared};
use eu_workers::{Gate, Incoming, Job, Site, Work, Worker, run_all};
use std::alloc::Global;
use std::sync::Wait;
use std::thread::Threads;

/// A worker whose clock tells 0 again and again, and whose draws take the first.
type Hand<K, S, P> = Worker<K, S, ListClock, FirstChooser, P>;

/// A worker for so many turns, with this pass.
fn ready<K: Label, S, P>(
    alloc: Global,
    pass: Pass<K>,
    limit: u64,
    work: Work<S, FirstChooser, P>,
) -> Hand<K, S, P> {
    Worker::Ready(Job {
        pass,
        clock: ListClock::new(Vec::new(alloc)),
        limit,
        work,
    })
}

/// Adds a worker for so many turns, with a pass of its own.
pub fn push<K: Label, S: Drop, P: Drop, R: Wait>(
    rt: &R,
    alloc: Global,
    shared: &Shared<K>,
    hands: &mut Vec<Hand<K, S, P>>,
    limit: u64,
    work: Work<S, FirstChooser, P>,
) -> Result<(), Fault> {
    match shared.pass(rt, alloc) {
        Ok(pass) => Ok(hands.push(ready(alloc, pass, limit, work))?),
        Err(fault) => {
            drop(work);
            Err(fault)
        }
    }
}

/// Adds each timer's worker, for one turn.
pub fn push_timers<K: Label, S: Drop, P: Drop, R: Wait>(
    rt: &R,
    alloc: Global,
    shared: &Shared<K>,
    hands: &mut Vec<Hand<K, S, P>>,
) -> Result<(), Fault> {
    let chooser = FirstChooser;
    push(rt, alloc, shared, hands, 1, Work::Evictor { chooser })?;
    push(rt, alloc, shared, hands, 1, Work::Bucket)?;
    push(rt, alloc, shared, hands, 1, Work::Threshold)
}

/// Has these workers work at a book that is shared, through a gate.
pub fn work_through<
    K: Label + Send + Sync,
    R: Threads + Wait + Sync,
    G: Gate + Sync,
    S: Incoming + Send + Drop,
    P: Peer + Send + Drop,
>(
    rt: &R,
    alloc: Global,
    shared: &Shared<K>,
    gate: &G,
    workers: &mut [Hand<K, S, P>],
) -> Result<(), Fault> {
    let routes = Routes::new(alloc)?;
    let policy = Policy::open();
    let site = Site {
        rt,
        alloc,
        shared,
        routes: &routes,
        policy: &policy,
        warm_policy: &policy,
        gate,
    };
    run_all(&site, workers);
    drop(routes);
    Ok(())
}
