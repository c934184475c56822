//! Two servers, each with its book behind a lock, of which each is the other's peer.
ghost use Rattle.std.specs.Prelude.{◌≡◌};
ghost use Rattle.eu_shared.specs.Shares.{HasNames, HasParts};

use crate::tests::turns::is_accepted;
use eu_base::{Fault, Moment};
use eu_clock::{FirstChooser, ListClock};
use eu_fixtures::{registration, settings};
use eu_hash::HashKey;
use eu_in_process::InProcess;
use eu_model::{Query, View};
use eu_peer::{Turn, replicate_turn};
use eu_shared::{Blanks, Label, PARTS, Pass, Seat, Shared};
use std::alloc::Global;
use std::marker::Brand;
use std::sync::Wait;
use std::test::Fail;

/// A clock that stands at 0.
pub fn clock(alloc: Global) -> ListClock {
    ListClock::new(Vec::new(alloc))
}

/// A new pass of a server, where it can ask.
fn seat<'a, K: Label, R: Wait>(
    rt: &'a R,
    alloc: Global,
    shared: &'a Shared<K>,
) -> Result<Seat<'a, K, R>, Fault> {
    Ok(Seat {
        pass: shared.pass(rt, alloc)?,
        shared,
        rt,
    })
}

/// A turn of a server for its one peer, by a new pass.
fn turn_for<K: Label, L: Label, R: Wait>(
    rt: &R,
    alloc: Global,
    here: &Shared<K>,
    peer: &mut InProcess<Seat<'_, L, R>, ListClock>,
) -> Result<Option<Turn>, Fault> {
    let mut mine = seat(rt, alloc, here)?;
    let mut clock = clock(alloc);
    let turn = replicate_turn(alloc, &mut mine, 0, peer, &mut clock);
    drop(clock);
    drop(mine);
    Ok(turn.ok())
}

/// A turn of a server for another one, which is its one peer.
fn turn<K: Label, L: Label, R: Wait>(
    rt: &R,
    alloc: Global,
    here: &Shared<K>,
    there: &Shared<L>,
) -> Result<Option<Turn>, Fault> {
    let desk = seat(rt, alloc, there)?;
    let mut peer = InProcess {
        desk,
        clock: clock(alloc),
    };
    let turn = turn_for(rt, alloc, here, &mut peer);
    drop(peer);
    turn
}

/// The leases that a view of counts tells.
pub fn leases(view: &View) -> u64 {
    match view {
        View::Counts(counts) => counts.held,
        _ => 0,
    }
}

/// How many leases a server holds, by that pass.
fn held_by<K: Label, R: Wait>(
    rt: &R,
    shared: &Shared<K>,
    alloc: Global,
    pass: &mut Pass<K>,
) -> u64 {
    let Some(moment) = Moment::new(0) else {
        return 0;
    };
    match pass.read(rt, shared, alloc, &Query::Counts, moment) {
        Ok(view) => {
            let held = leases(&view);
            drop(view);
            held
        }
        Err(_) => 0,
    }
}

/// How many leases a server holds.
fn held<K: Label, R: Wait>(rt: &R, alloc: Global, shared: &Shared<K>) -> Result<u64, Fault> {
    let mut pass = shared.pass(rt, alloc)?;
    let held = held_by(rt, shared, alloc, &mut pass);
    drop(pass);
    Ok(held)
}

/// Whether a client registers the instance of that id of A at the moment 0.
pub fn registers<K: Label, R: Wait>(
    rt: &R,
    shared: &Shared<K>,
    alloc: Global,
    pass: &mut Pass<K>,
    id: &str,
) -> bool {
    let Some(moment) = Moment::new(0) else {
        return false;
    };
    match registration(alloc, id) {
        Ok(command) => {
            is_accepted(pass.ask(rt, shared, alloc, command, moment, &mut FirstChooser))
        }
        Err(_) => false,
    }
}

/// Whether 250 clients register by a pass at the moment 0: as many as a batch has tasks.
fn all_register<K: Label, R: Wait>(
    rt: &R,
    shared: &Shared<K>,
    alloc: Global,
    pass: &mut Pass<K>,
) -> Result<bool, Fault> {
    for number in 0..250 {
        let id = format!(in alloc; "j{number}")?;
        if !registers(rt, shared, alloc, pass, &id) {
            return Ok(false);
        }
    }
    Ok(true)
}

/// Whether they register at a server.
fn register_all<K: Label, R: Wait>(
    rt: &R,
    alloc: Global,
    shared: &Shared<K>,
) -> Result<bool, Fault> {
    let mut pass = shared.pass(rt, alloc)?;
    let registered = all_register(rt, shared, alloc, &mut pass);
    drop(pass);
    registered
}

/// A turn of the first server after 250 registrations, one of the second, another of the first, and how many leases the second holds.
type Findings = (Option<Turn>, Option<Turn>, Option<Turn>, u64);

/// What comes of these turns between two servers.
fn meet<K: Label, L: Label, R: Wait>(
    rt: &R,
    alloc: Global,
    here: &Shared<K>,
    there: &Shared<L>,
) -> Result<Findings, Fault> {
    if !register_all(rt, alloc, here)? {
        return Err(Fault::OutOfMemory);
    }
    let sent = turn(rt, alloc, here, there)?;
    let back = turn(rt, alloc, there, here)?;
    let again = turn(rt, alloc, here, there)?;
    let held = held(rt, alloc, there)?;
    Ok((sent, back, again, held))
}

/// A server with one peer.
pub fn open<K: Label>(alloc: Global, blanks: Blanks) -> Result<Shared<K>, Fault>
    requires names { HasNames blanks K.steps K.counted K.added K.removed }
    requires parts { HasParts blanks K.parts × (K.parts ≡ PARTS) }
{
    let config = settings()?;
    Ok(Shared::open(alloc, config, 0, 1, HashKey::new(0, 0), blanks)?)
}

/// The same between a server and another one that is opened for it.
fn open_other<K: Label, L: Label, R: Wait>(
    rt: &R,
    alloc: Global,
    here: &Shared<K>,
    others: Blanks,
) -> Result<Findings, Fault>
    requires other_names { HasNames others L.steps L.counted L.added L.removed }
    requires other_parts { HasParts others L.parts × (L.parts ≡ PARTS) }
{
    let there = open::<L>(alloc, others)?;
    let findings = meet(rt, alloc, here, &there);
    drop(there);
    findings
}

/// The same between two servers that are opened for it.
fn open_both<K: Label, L: Label, R: Wait>(
    rt: &R,
    alloc: Global,
    blanks: Blanks,
    others: Blanks,
) -> Result<Findings, Fault>
    requires names { HasNames blanks K.steps K.counted K.added K.removed }
    requires parts { HasParts blanks K.parts × (K.parts ≡ PARTS) }
    requires other_names { HasNames others L.steps L.counted L.added L.removed }
    requires other_parts { HasParts others L.parts × (L.parts ≡ PARTS) }
{
    let here = open::<K>(alloc, blanks)?;
    let findings = open_other::<K, L, R>(rt, alloc, &here, others);
    drop(here);
    findings
}

fn met<R: Wait>(rt: &R, alloc: Global) -> Result<Findings, Fault> {
    open_both::<Brand, Brand, R>(rt, alloc, Blanks::new(), Blanks::new())
}

#[test]
fn two_servers_meet(rt: HostRuntime) -> Result<(), Fail> {
    let sent = Turn::Sent {
        tasks: 250,
        adopted: 0,
    };
    let wanted = (Some(sent), Some(Turn::Idle), Some(Turn::Idle), 250);
    assert!(rt; met(&rt, rt.alloc())? == wanted);
    Ok(())
}
