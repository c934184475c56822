//! Two servers of one process, of which each is the other's peer, and whose replicators work at once.
ghost use Rattle.std.specs.Prelude.{◌≡◌};
ghost use Rattle.eu_shared.specs.Shares.{HasNames, HasParts};

use crate::tests::replicas::Open;
use crate::tests::servers::{clock, leases, open};
use crate::tests::victims::register as register_by;
use eu_base::{Fault, Moment};
use eu_clock::ListClock;
use eu_http::Policy;
use eu_in_process::InProcess;
use eu_model::Query;
use eu_routes::Routes;
use eu_shared::{Blanks, Label, PARTS, Seat, Shared};
use eu_workers::{Ended, Site, run_replicator};
use std::alloc::Global;
use std::marker::Brand;
use std::sync::Wait;
use std::test::Fail;
use std::thread;
use std::thread::Threads;

/// The turns of each replicator.
const TURNS: u64 = 1_000;

/// The way to a server.
type Way<'a, L, R> = InProcess<Seat<'a, L, R>, ListClock>;

fn way<'a, L: Label, R: Wait>(
    rt: &'a R,
    alloc: Global,
    there: &'a Shared<L>,
) -> Result<Way<'a, L, R>, Fault> {
    let desk = Seat {
        pass: there.pass(rt, alloc)?,
        shared: there,
        rt,
    };
    Ok(InProcess {
        desk,
        clock: clock(alloc),
    })
}

/// What a replicator does that tells a peer what waits for it.
fn work<K: Label, L: Label, R: Wait>(
    site: &Site<'_, K, R, Open>,
    peer: &mut Way<'_, L, R>,
) -> Result<Ended, Fault> {
    let pass = site.shared.pass(site.rt, site.alloc)?;
    let mut clock = clock(site.alloc);
    let (pass, ended) = run_replicator(site, 0, pass, peer, &mut clock, TURNS);
    drop(clock);
    drop(pass);
    Ok(ended)
}

/// What the replicator of one server does on its way to the other.
fn replicate_by<K: Label, L: Label, R: Wait>(
    rt: &R,
    alloc: Global,
    here: &Shared<K>,
    peer: &mut Way<'_, L, R>,
) -> Result<Ended, Fault> {
    let routes = Routes::new(alloc)?;
    let policy = Policy::open();
    let site = Site {
        rt,
        alloc,
        shared: here,
        routes: &routes,
        policy: &policy,
        warm_policy: &policy,
        gate: &Open,
    };
    let ended = work(&site, peer);
    drop(routes);
    ended
}

/// What the replicator of one server does that tells the other.
fn replicate<K: Label, L: Label, R: Wait>(
    rt: &R,
    alloc: Global,
    here: &Shared<K>,
    there: &Shared<L>,
) -> Result<Ended, Fault> {
    let mut peer = way(rt, alloc, there)?;
    let ended = replicate_by(rt, alloc, here, &mut peer);
    drop(peer);
    ended
}

/// Both at once.
fn replicate_both<K: Label + Send + Sync, L: Label + Send + Sync, R: Threads + Wait + Sync>(
    rt: &R,
    alloc: Global,
    here: &Shared<K>,
    there: &Shared<L>,
) -> (Result<Ended, Fault>, Result<Ended, Fault>) {
    thread::join(
        rt,
        move || replicate(rt, alloc, here, there),
        move || replicate(rt, alloc, there, here),
    )
}

/// A client of that id registers at a server.
fn register<K: Label, R: Wait>(
    rt: &R,
    alloc: Global,
    shared: &Shared<K>,
    id: &str,
) -> Result<(), Fault> {
    let mut pass = shared.pass(rt, alloc)?;
    let registered = register_by(rt, shared, alloc, &mut pass, id);
    drop(pass);
    registered
}

/// How many leases a server holds.
fn held<K: Label, R: Wait>(rt: &R, alloc: Global, shared: &Shared<K>) -> Result<u64, Fault> {
    let moment = Moment::new(0).ok_or(Fault::BadStamp)?;
    let mut pass = shared.pass(rt, alloc)?;
    let view = pass.read(rt, shared, alloc, &Query::Counts, moment);
    drop(pass);
    let view = view?;
    let held = leases(&view);
    drop(view);
    Ok(held)
}

/// What two replicators did, and how many leases each server holds then.
#[derive(Clone, Copy, PartialEq, Eq)]
struct Meeting {
    here: Ended,
    there: Ended,
    held_here: u64,
    held_there: u64,
}

/// What comes of two servers, at each of which a client has registered.
fn meet<K: Label + Send + Sync, L: Label + Send + Sync, R: Threads + Wait + Sync>(
    rt: &R,
    alloc: Global,
    here: &Shared<K>,
    there: &Shared<L>,
) -> Result<Meeting, Fault> {
    register(rt, alloc, here, "i1")?;
    register(rt, alloc, there, "i2")?;
    let (one, other) = replicate_both(rt, alloc, here, there);
    Ok(Meeting {
        here: one?,
        there: other?,
        held_here: held(rt, alloc, here)?,
        held_there: held(rt, alloc, there)?,
    })
}

/// The same of a server and another one that is opened for it.
fn open_other<K: Label + Send + Sync, L: Label + Send + Sync, R: Threads + Wait + Sync>(
    rt: &R,
    alloc: Global,
    here: &Shared<K>,
    others: Blanks,
) -> Result<Meeting, Fault>
    requires other_names { HasNames others L.steps L.counted L.added L.removed }
    requires other_parts { HasParts others L.parts × (L.parts ≡ PARTS) }
{
    let there = open::<L>(alloc, others)?;
    let meeting = meet(rt, alloc, here, &there);
    drop(there);
    meeting
}

/// The same of two servers that are opened for it.
fn open_both<K: Label + Send + Sync, L: Label + Send + Sync, R: Threads + Wait + Sync>(
    rt: &R,
    alloc: Global,
    blanks: Blanks,
    others: Blanks,
) -> Result<Meeting, Fault>
    requires names { HasNames blanks K.steps K.counted K.added K.removed }
    requires parts { HasParts blanks K.parts × (K.parts ≡ PARTS) }
    requires other_names { HasNames others L.steps L.counted L.added L.removed }
    requires other_parts { HasParts others L.parts × (L.parts ≡ PARTS) }
{
    let here = open::<K>(alloc, blanks)?;
    let meeting = open_other::<K, L, R>(rt, alloc, &here, others);
    drop(here);
    meeting
}

fn met<R: Threads + Wait + Sync>(rt: &R, alloc: Global) -> Result<Meeting, Fault> {
    open_both::<Brand, Brand, R>(rt, alloc, Blanks::new(), Blanks::new())
}

/// Each tells the other what its client did, whichever comes first, and neither sends back what it was told.
#[test]
fn two_servers_replicate_at_once(rt: HostRuntime) -> Result<(), Fail> {
    let all = Ended {
        turns: TURNS,
        refused: 0,
    };
    let wanted = Meeting {
        here: all,
        there: all,
        held_here: 2,
        held_there: 2,
    };
    assert!(rt; met(&rt, rt.alloc())? == wanted);
    Ok(())
}
