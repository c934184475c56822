//! Before each turn a worker passes the gate, and after it the log of its pass is trimmed.
ghost use Rattle.std.specs.Prelude.{◌≡◌};
ghost use Rattle.eu_shared.specs.Shares.{HasNames, HasParts};

use crate::tests::replicas::server;
use crate::tests::servers::{clock, registers};
use crate::tests::visits::{Sides, visit};
use eu_base::{Config, Fault};
use eu_book::Book;
use eu_clock::{FirstChooser, ListClock};
use eu_fixtures::{RENEWAL, settings};
use eu_hash::HashKey;
use eu_http::Policy;
use eu_in_process::InProcess;
use eu_routes::Routes;
use eu_session::Talk;
use eu_shared::{Blanks, Label, PARTS, Pass, Shared};
use eu_workers::{
    Ended, Gate, Go, Incoming, Point, Site, Visit, run_bucket, run_evictor, run_replicator,
    run_sessions, run_threshold,
};
use std::alloc::Global;
use std::marker::Brand;
use std::sync::Wait;
use std::sync::atomic::{AtomicU64, Ordering};
use std::test::Fail;

/// A gate that lets each worker have two turns.
#[derive(Drop)]
struct Twice {
    turns: AtomicU64,
}

impl Twice {
    /// Lets the next worker have its two turns.
    fn renew(&self) {
        self.turns.store(0, Ordering::SeqCst);
    }
}

impl Gate for Twice {
    fn pass(&self, _who: u32, point: Point) -> Go {
        if point == Point::Turn && self.turns.fetch_add(1, Ordering::SeqCst) >= 2 {
            Go::Stop
        } else {
            Go::On
        }
    }
}

/// The turns that a worker may have, of which the gate lets it have two.
const LIMIT: u64 = 9;

/// How many turns a worker had, how many entries its log has then, and whether it has those of the turns alone.
#[derive(Clone, Copy, PartialEq, Eq)]
struct Left {
    turns: u64,
    logged: usize,
    is_trimmed: bool,
}

/// The number of the first entry of a log.
pub fn first_number<K: Label>(pass: &Pass<K>) -> Option<u64> {
    match pass.log() {
        [] => None,
        [first, ..] => Some(first.number),
    }
}

/// Registers A/i1 by a pass, by which the journal begins anew then, and gives the number of the registration's entry.
fn make_stale<K: Label, R: Wait>(
    site: &Site<'_, K, R, Twice>,
    pass: &mut Pass<K>,
) -> Result<u64, Fault> {
    if !registers(site.rt, site.shared, site.alloc, pass, "i1") {
        return Err(Fault::OutOfMemory);
    }
    pass.checkpoint(site.rt, site.shared, site.alloc)?;
    first_number(pass).ok_or(Fault::OutOfMemory)
}

/// A pass of which that is so, and the number of that entry. The gate lets its worker have two turns.
fn stale<K: Label, R: Wait>(site: &Site<'_, K, R, Twice>) -> Result<(Pass<K>, u64), Fault> {
    site.gate.renew();
    let mut pass = site.shared.pass(site.rt, site.alloc)?;
    match make_stale(site, &mut pass) {
        Ok(number) => Ok((pass, number)),
        Err(fault) => {
            drop(pass);
            Err(fault)
        }
    }
}

/// What is left in the log of a worker's pass, where the entry of that number was made before its turns.
fn what_is_left<K: Label>(worked: (Pass<K>, Ended), before: u64) -> Left {
    let (pass, ended) = worked;
    let logged = pass.log().len();
    let is_trimmed = match first_number(&pass) {
        Some(number) => number > before,
        None => true,
    };
    drop(pass);
    Left {
        turns: ended.turns,
        logged,
        is_trimmed,
    }
}

/// Connections, by each of which A/i1 is renewed, and before each of which the journal begins anew.
#[derive(Drop)]
struct Renewing<'a, K: Label, R: Wait> {
    rt: &'a R,
    shared: &'a Shared<K>,
    alloc: Global,
    other: Pass<K>,
}

impl<K: Label, R: Wait> Incoming for Renewing<'_, K, R> {
    type Socket = Sides<&'static [u8], Vec<u8>>;

    fn next(&mut self) -> Option<Visit<Sides<&'static [u8], Vec<u8>>, Talk>> {
        self.other
            .checkpoint(self.rt, self.shared, self.alloc)
            .ok()?;
        let sides = Sides {
            reader: RENEWAL.as_bytes(),
            writer: Vec::new(self.alloc),
        };
        visit(self.alloc, sides, 8, true).ok()
    }

    fn take_back(
        &mut self,
        visit: Visit<Sides<&'static [u8], Vec<u8>>, Talk>,
        _left: eu_workers::Left,
    ) {
        drop(visit);
    }
}

/// What sessions over these connections leave.
fn after_renewals<K: Label, R: Wait>(
    site: &Site<'_, K, R, Twice>,
    source: &mut Renewing<'_, K, R>,
) -> Result<Left, Fault> {
    let (pass, before) = stale(site)?;
    let mut clock = clock(site.alloc);
    let worked = run_sessions(site, 1, pass, source, &mut clock, LIMIT);
    drop(clock);
    Ok(what_is_left(worked, before))
}

/// What sessions leave.
fn after_sessions<K: Label, R: Wait>(site: &Site<'_, K, R, Twice>) -> Result<Left, Fault> {
    let mut source = Renewing {
        rt: site.rt,
        shared: site.shared,
        alloc: site.alloc,
        other: site.shared.pass(site.rt, site.alloc)?,
    };
    let left = after_renewals(site, &mut source);
    drop(source);
    left
}

/// What the evictor leaves.
fn after_eviction<K: Label, R: Wait>(site: &Site<'_, K, R, Twice>) -> Result<Left, Fault> {
    let (pass, before) = stale(site)?;
    let mut clock = clock(site.alloc);
    let worked = run_evictor(site, pass, &mut clock, &mut FirstChooser, LIMIT);
    drop(clock);
    Ok(what_is_left(worked, before))
}

/// What the bucket's worker leaves.
fn after_roll<K: Label, R: Wait>(site: &Site<'_, K, R, Twice>) -> Result<Left, Fault> {
    let (pass, before) = stale(site)?;
    let mut clock = clock(site.alloc);
    let worked = run_bucket(site, pass, &mut clock, LIMIT);
    drop(clock);
    Ok(what_is_left(worked, before))
}

/// What the threshold's worker leaves.
fn after_update<K: Label, R: Wait>(site: &Site<'_, K, R, Twice>) -> Result<Left, Fault> {
    let (pass, before) = stale(site)?;
    let mut clock = clock(site.alloc);
    let worked = run_threshold(site, pass, &mut clock, LIMIT);
    drop(clock);
    Ok(what_is_left(worked, before))
}

/// What the replicator leaves that tells this peer.
fn after_batch_for<K: Label, R: Wait>(
    site: &Site<'_, K, R, Twice>,
    peer: &mut InProcess<Book, ListClock>,
) -> Result<Left, Fault> {
    let (pass, before) = stale(site)?;
    let mut clock = clock(site.alloc);
    let worked = run_replicator(site, 0, pass, peer, &mut clock, LIMIT);
    drop(clock);
    Ok(what_is_left(worked, before))
}

/// What the replicator leaves.
fn after_batch<K: Label, R: Wait>(
    site: &Site<'_, K, R, Twice>,
    config: Config,
) -> Result<Left, Fault> {
    let mut peer = server(site.alloc, config)?;
    let left = after_batch_for(site, &mut peer);
    drop(peer);
    left
}

/// What each worker leaves after two turns.
#[derive(Clone, Copy, PartialEq, Eq)]
struct Leaving {
    sessions: Left,
    evictor: Left,
    bucket: Left,
    threshold: Left,
    replicator: Left,
}

fn work_at<K: Label, R: Wait>(
    site: &Site<'_, K, R, Twice>,
    config: Config,
) -> Result<Leaving, Fault> {
    Ok(Leaving {
        sessions: after_sessions(site)?,
        evictor: after_eviction(site)?,
        bucket: after_roll(site)?,
        threshold: after_update(site)?,
        replicator: after_batch(site, config)?,
    })
}

/// The same at a book that is shared.
fn work_on<K: Label, R: Wait>(
    rt: &R,
    alloc: Global,
    shared: &Shared<K>,
    config: &Config,
) -> Result<Leaving, Fault> {
    let routes = Routes::new(alloc)?;
    let policy = Policy::open();
    let site = Site {
        rt,
        alloc,
        shared,
        routes: &routes,
        policy: &policy,
        warm_policy: &policy,
        gate: &Twice {
            turns: AtomicU64::new(0),
        },
    };
    let leaving = work_at(&site, *config);
    drop(routes);
    leaving
}

/// The same at a book with one peer, at which nothing is held.
fn work<K: Label, R: Wait>(
    rt: &R,
    alloc: Global,
    blanks: Blanks,
    config: Config,
) -> Result<Leaving, Fault>
    requires names { HasNames blanks K.steps K.counted K.added K.removed }
    requires parts { HasParts blanks K.parts × (K.parts ≡ PARTS) }
{
    let shared: Shared<K> = Shared::open(alloc, config, 0, 1, HashKey::new(0, 0), blanks)?;
    let leaving = work_on(rt, alloc, &shared, &config);
    drop(shared);
    leaving
}

fn worked<R: Wait>(rt: &R, alloc: Global) -> Result<Leaving, Fault> {
    let config = settings()?;
    work::<Brand, R>(rt, alloc, Blanks::new(), config)
}

/// What is left of two turns, with so many entries of theirs.
fn trimmed(logged: usize) -> Left {
    Left {
        turns: 2,
        logged,
        is_trimmed: true,
    }
}

#[test]
fn each_worker_has_two_turns_and_trims_its_log(rt: HostRuntime) -> Result<(), Fail> {
    let left = worked(&rt, rt.alloc())?;
    let wanted = Leaving {
        sessions: trimmed(1),
        evictor: trimmed(2),
        bucket: trimmed(2),
        threshold: trimmed(2),
        replicator: trimmed(2),
    };
    assert!(rt; left == wanted);
    Ok(())
}
