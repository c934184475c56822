//! A replicator, over a book of another server.
ghost use Rattle.std.specs.Prelude.{◌≡◌};
ghost use Rattle.eu_shared.specs.Shares.{HasNames, HasParts};

use crate::tests::servers::registers;
use crate::tests::turns::{done, held, is_accepted};
use eu_base::{Config, Fault, Moment, Task};
use eu_book::Book;
use eu_clock::{FirstChooser, ListClock};
use eu_fixtures::{registration, settings};
use eu_hash::HashKey;
use eu_http::Policy;
use eu_in_process::InProcess;
use eu_model::Command;
use eu_peer::{ItemAnswer, Lost, Peer};
use eu_routes::Routes;
use eu_shared::{Blanks, Label, PARTS, Pass, Shared};
use eu_workers::{Ended, Gate, Go, Point, Site, run_replicator};
use std::alloc::Global;
use std::marker::Brand;
use std::sync::Wait;
use std::test::Fail;

/// A gate that is open.
#[derive(Drop)]
pub struct Open;

impl Gate for Open {
    fn pass(&self, _who: u32, _point: Point) -> Go {
        Go::On
    }
}

/// Whether a batch is drained for the first peer at the moment 0, of which nobody tells what came.
fn drains<K: Label, R: Wait>(
    rt: &R,
    shared: &Shared<K>,
    alloc: Global,
    pass: &mut Pass<K>,
) -> bool {
    let Some(moment) = Moment::new(0) else {
        return false;
    };
    let command = Command::Drain { peer: 0 };
    is_accepted(pass.ask(rt, shared, alloc, command, moment, &mut FirstChooser))
}

/// A server at which nothing is held.
pub fn server(alloc: Global, config: Config) -> Result<InProcess<Book, ListClock>, Fault> {
    let desk = Book::open(alloc, config, 0, 0, HashKey::new(0, 0))?;
    Ok(InProcess {
        desk,
        clock: ListClock::new(Vec::new(alloc)),
    })
}

/// The turns that a replicator has.
const TURNS: u64 = 12_000;

/// What a replicator does in them for the peer of that number after a registration, which is in flight already to the first peer: so a
/// first turn for that one takes it for lost.
fn replicate<K: Label, R: Wait>(
    site: &Site<'_, K, R, Open>,
    number: u32,
    peer: &mut InProcess<Book, ListClock>,
) -> Result<Ended, Fault> {
    let mut pass = site.shared.pass(site.rt, site.alloc)?;
    if !registers(site.rt, site.shared, site.alloc, &mut pass, "i1")
        || !drains(site.rt, site.shared, site.alloc, &mut pass)
    {
        drop(pass);
        return Err(Fault::OutOfMemory);
    }
    let mut clock = ListClock::new(Vec::new(site.alloc));
    let (pass, ended) = run_replicator(site, number, pass, peer, &mut clock, TURNS);
    drop(clock);
    drop(pass);
    Ok(ended)
}

/// The same, and how many leases the other server holds then.
fn reach<K: Label, R: Wait>(
    site: &Site<'_, K, R, Open>,
    number: u32,
    config: Config,
) -> Result<(Ended, u64), Fault> {
    let mut peer = server(site.alloc, config)?;
    let ended = replicate(site, number, &mut peer);
    let held = held(site.alloc, &peer.desk);
    drop(peer);
    Ok((ended?, held?))
}

/// The same for a book that is shared.
fn send_from<K: Label, R: Wait>(
    rt: &R,
    alloc: Global,
    shared: &Shared<K>,
    number: u32,
    config: &Config,
) -> Result<(Ended, u64), Fault> {
    let routes = Routes::new(alloc)?;
    let policy = Policy::open();
    let site = Site {
        rt,
        alloc,
        shared,
        routes: &routes,
        policy: &policy,
        warm_policy: &policy,
        gate: &Open,
    };
    let reached = reach(&site, number, *config);
    drop(routes);
    reached
}

/// What a replicator did in these turns for the peer of that number after a registration, and how many leases the other server holds
/// then. The server has one peer, of the number 0.
fn send<K: Label, R: Wait>(
    rt: &R,
    alloc: Global,
    blanks: Blanks,
    number: u32,
    config: Config,
) -> Result<(Ended, u64), Fault>
    requires names { HasNames blanks K.steps K.counted K.added K.removed }
    requires parts { HasParts blanks K.parts × (K.parts ≡ PARTS) }
{
    let shared: Shared<K> = Shared::open(alloc, config, 0, 1, HashKey::new(0, 0), blanks)?;
    let sent = send_from(rt, alloc, &shared, number, &config);
    drop(shared);
    sent
}

fn sent<R: Wait>(rt: &R, alloc: Global, number: u32) -> Result<(Ended, u64), Fault> {
    let config = settings()?;
    send::<Brand, R>(rt, alloc, Blanks::new(), number, config)
}

#[test]
fn a_replicator_sends_what_waits(rt: HostRuntime) -> Result<(), Fail> {
    let (ended, held) = sent(&rt, rt.alloc(), 0)?;
    let all = Ended {
        turns: TURNS,
        refused: 0,
    };
    assert!(rt; ended == all && held == 1);
    Ok(())
}

#[test]
fn a_replicator_goes_on_after_a_refused_turn(rt: HostRuntime) -> Result<(), Fail> {
    let (ended, held) = sent(&rt, rt.alloc(), 1)?;
    let refused = Ended {
        turns: TURNS,
        refused: TURNS,
    };
    assert!(rt; ended == refused && held == 0);
    Ok(())
}

/// A peer that finds all done that it is sent, and counts the batches. When the first one comes, somebody else takes it for lost: so no
/// batch is in flight whose end could be told, and that turn is refused.
#[derive(Drop)]
struct TakenForLost<'a, K: Label, R: Wait> {
    pass: Pass<K>,
    shared: &'a Shared<K>,
    rt: &'a R,
    batches: u64,
}

impl<K: Label, R: Wait> Peer for TakenForLost<'_, K, R> {
    ghost submits = { λ _ _ _ _. Unit {0} };

    fn submit(&mut self, alloc: Global, batch: &[Task]) -> Result<Vec<ItemAnswer>, Lost> {
        self.batches = self.batches.saturating_add(1);
        if self.batches == 1 {
            let command = Command::Lost { peer: 0 };
            let moment = Moment::new(0).unwrap();
            let chooser = &mut FirstChooser;
            let lost = self
                .pass
                .ask(self.rt, self.shared, alloc, command, moment, chooser);
            drop(lost);
        }
        done(alloc, batch.len()).map_err(|_| Lost)
    }
}

/// What three turns do for such a peer once a client has registered, and how many batches it was sent.
fn turns_of<K: Label, R: Wait>(
    site: &Site<'_, K, R, Open>,
    pass: Pass<K>,
    peer: &mut TakenForLost<'_, K, R>,
) -> (Ended, u64) {
    let mut clock = ListClock::new(Vec::new(site.alloc));
    let (pass, ended) = run_replicator(site, 0, pass, peer, &mut clock, 3);
    drop(clock);
    drop(pass);
    (ended, peer.batches)
}

/// The same for a book that is shared.
fn turns_at<K: Label, R: Wait>(site: &Site<'_, K, R, Open>) -> Result<(Ended, u64), Fault> {
    let (rt, shared) = (site.rt, site.shared);
    let mut pass = shared.pass(rt, site.alloc)?;
    if !registers(rt, shared, site.alloc, &mut pass, "i1") {
        drop(pass);
        return Err(Fault::OutOfMemory);
    }
    let mut peer = TakenForLost {
        pass: shared.pass(rt, site.alloc)?,
        shared,
        rt,
        batches: 0,
    };
    let done = turns_of(site, pass, &mut peer);
    drop(peer);
    Ok(done)
}

/// The same by its routes.
fn turns_by<K: Label, R: Wait>(
    rt: &R,
    alloc: Global,
    shared: &Shared<K>,
) -> Result<(Ended, u64), Fault> {
    let routes = Routes::new(alloc)?;
    let policy = Policy::open();
    let site = Site {
        rt,
        alloc,
        shared,
        routes: &routes,
        policy: &policy,
        warm_policy: &policy,
        gate: &Open,
    };
    let done = turns_at(&site);
    drop(routes);
    done
}

/// The same of a server that was just opened, with one peer.
fn turns_from<K: Label, R: Wait>(
    rt: &R,
    alloc: Global,
    blanks: Blanks,
) -> Result<(Ended, u64), Fault>
    requires names { HasNames blanks K.steps K.counted K.added K.removed }
    requires parts { HasParts blanks K.parts × (K.parts ≡ PARTS) }
{
    let shared: Shared<K> = Shared::open(alloc, settings()?, 0, 1, HashKey::new(0, 0), blanks)?;
    let done = turns_by(rt, alloc, &shared);
    drop(shared);
    done
}

fn turns<R: Wait>(rt: &R, alloc: Global) -> Result<(Ended, u64), Fault> {
    turns_from::<Brand, R>(rt, alloc, Blanks::new())
}

/// The second turn sends the batch again, and its end is taken; at the third nothing waits.
#[test]
fn a_replicator_sends_again_after_one_refused_turn(rt: HostRuntime) -> Result<(), Fail> {
    let ended = Ended {
        turns: 3,
        refused: 1,
    };
    assert!(rt; turns(&rt, rt.alloc())? == (ended, 2));
    Ok(())
}
