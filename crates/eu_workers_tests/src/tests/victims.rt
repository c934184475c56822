//! Whom the evictor evicts: at the moment of its clock, by the words of its chooser.
ghost use Rattle.std.specs.Prelude.{◌≡◌};
ghost use Rattle.eu_shared.specs.Shares.{HasNames, HasParts};

use crate::tests::replicas::Open;
use eu_base::{Config, Fault, Moment};
use eu_clock::{FirstChooser, ListChooser, ListClock};
use eu_fixtures::{clock, ids, registration};
use eu_hash::HashKey;
use eu_http::Policy;
use eu_model::Reply;
use eu_routes::Routes;
use eu_shared::{Blanks, Label, PARTS, Pass, Shared};
use eu_workers::{Site, run_evictor};
use std::alloc::{AllocError, Global};
use std::marker::Brand;
use std::sync::Wait;
use std::test::Fail;

/// The clients that are registered, in key order.
const CLIENTS: [&str; 4] = ["i0", "i1", "i2", "i3"];

/// A moment at which leases of 90 seconds that were made at 0 have long expired.
const LATE: u32 = 3_600_000;

/// Registers a client at the moment 0.
pub fn register<K: Label, R: Wait>(
    rt: &R,
    shared: &Shared<K>,
    alloc: Global,
    pass: &mut Pass<K>,
    id: &str,
) -> Result<(), Fault> {
    let moment = Moment::new(0).ok_or(Fault::BadStamp)?;
    let command = registration(alloc, id)?;
    let receipt = pass.ask(rt, shared, alloc, command, moment, &mut FirstChooser)?;
    drop(receipt);
    Ok(())
}

/// Registers each client by a pass.
fn register_each<K: Label, R: Wait>(
    rt: &R,
    shared: &Shared<K>,
    alloc: Global,
    pass: &mut Pass<K>,
) -> Result<(), Fault> {
    for id in CLIENTS {
        register(rt, shared, alloc, pass, id)?;
    }
    Ok(())
}

/// Registers each client.
fn register_all<K: Label, R: Wait>(rt: &R, shared: &Shared<K>, alloc: Global) -> Result<(), Fault> {
    let mut pass = shared.pass(rt, alloc)?;
    let registered = register_each(rt, shared, alloc, &mut pass);
    drop(pass);
    registered
}

/// The victims that a pass was answered last, and when.
fn victims<K: Label>(alloc: Global, pass: &Pass<K>) -> Result<(u64, String), AllocError> {
    match pass.log() {
        [.., last] => match &last.reply {
            Reply::Evicted(keys) => Ok((last.moment.ms(), ids(alloc, keys.as_slice())?)),
            _ => Ok((0, String::new(alloc))),
        },
        [] => Ok((0, String::new(alloc))),
    }
}

/// A clock that stands at the late moment.
fn late(alloc: Global) -> Result<ListClock, Fault> {
    clock(alloc, &[u64::from(LATE)])
}

/// Whom the evictor evicts in one turn at the moment of a clock, where it draws these words, and when.
fn evicts_by<K: Label, R: Wait>(
    site: &Site<'_, K, R, Open>,
    clock: &mut ListClock,
    chooser: &mut ListChooser,
) -> Result<(u64, String), Fault> {
    let pass = site.shared.pass(site.rt, site.alloc)?;
    let (pass, _) = run_evictor(site, pass, clock, chooser, 1);
    let seen = victims(site.alloc, &pass);
    drop(pass);
    Ok(seen?)
}

/// The same, where it draws the words 3 and 0.
fn evicts_at<K: Label, R: Wait>(
    site: &Site<'_, K, R, Open>,
    clock: &mut ListClock,
) -> Result<(u64, String), Fault> {
    let mut chooser = ListChooser::new(Vec::from_slice(site.alloc, &[3, 0])?);
    let seen = evicts_by(site, clock, &mut chooser);
    drop(chooser);
    seen
}

/// The same at the late moment.
fn evicts<K: Label, R: Wait>(site: &Site<'_, K, R, Open>) -> Result<(u64, String), Fault> {
    let mut clock = late(site.alloc)?;
    let seen = evicts_at(site, &mut clock);
    drop(clock);
    seen
}

/// The same over a book with the four clients.
fn evicts_of<K: Label, R: Wait>(
    rt: &R,
    alloc: Global,
    shared: &Shared<K>,
) -> Result<(u64, String), Fault> {
    register_all(rt, shared, alloc)?;
    let routes = Routes::new(alloc)?;
    let policy = Policy::open();
    let site = Site {
        rt,
        alloc,
        shared,
        routes: &routes,
        policy: &policy,
        warm_policy: &policy,
        gate: &Open,
    };
    let evicted = evicts(&site);
    drop(routes);
    evicted
}

/// The same, of a registry without preservation that lets half of them go.
fn evicts_half<K: Label, R: Wait>(
    rt: &R,
    alloc: Global,
    blanks: Blanks,
) -> Result<(u64, String), Fault>
    requires names { HasNames blanks K.steps K.counted K.added K.removed }
    requires parts { HasParts blanks K.parts × (K.parts ≡ PARTS) }
{
    let config = Config::new(false, 50, 30, 60_000)?;
    let shared: Shared<K> = Shared::open(alloc, config, 0, 0, HashKey::new(0, 0), blanks)?;
    let evicted = evicts_of(rt, alloc, &shared);
    drop(shared);
    evicted
}

fn evicted<R: Wait>(rt: &R, alloc: Global) -> Result<(u64, String), Fault> {
    evicts_half::<Brand, R>(rt, alloc, Blanks::new())
}

#[test]
fn the_evictor_draws_half_of_the_expired(rt: HostRuntime) -> Result<(), Fail> {
    let (moment, victims) = evicted(&rt, rt.alloc())?;
    assert!(rt; moment == 3_600_000);
    assert_eq!(rt; victims.as_str(), " i3 i1");
    Ok(())
}
