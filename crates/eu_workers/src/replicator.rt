//! Workers that tell a peer what waits for it.
ghost use Rattle.std.specs.Prelude.{◌≡◌, ◌<◌, ◌+◌, ◌-◌, ◌^◌, min};
ghost use Rattle.eu_workers.specs.Returned.{HasTurn, TakesTurns};

use crate::ended::Ended;
use crate::site::Site;
use eu_base::Fault;
use eu_clock::Clock;
use eu_gate::{FIRST_REPLICATOR, Gate, Go, Point};
use eu_peer::{Peer, Turn, replicate_turn};
use eu_shared::{Label, Pass, Seat};
use std::sync::Wait;

/// The number at a gate of the replicator of that peer.
fn number_at_gate(peer: u32) -> u32
    ensures { result ≡ min (24 + peer) (2 ^ 32 - 1) }
{
    FIRST_REPLICATOR.saturating_add(peer)
}

/// A turn for the peer of that number, behind which the log of the pass is trimmed. Tells what came of it.
fn turn<K: Label, R: Wait, G: Gate, P: Peer, C: Clock>(
    site: &Site<'_, K, R, G>,
    number: u32,
    seat: &mut Seat<'_, K, R>,
    peer: &mut P,
    clock: &mut C,
) -> Result<Turn, Fault>
    ensures { HasTurn seat.old.pass seat.new.pass }
{
    let sent = replicate_turn(site.alloc, seat, number, peer, clock);
    seat.pass.trim();
    sent
}

/// The replicator of the peer of that number, from 0 (`ReplicationTaskProcessor` in Eureka): sends what waits for it, turn after turn,
/// until the gate stops it or it had so many turns, and gives its pass back.
///
/// A turn passes the gate, is one `eu_peer::replicate_turn`, and trims the log of the pass (`Pass::trim`). One that ends by a fault is
/// counted as refused, and the next one follows. No two replicators of one peer may work at once.
pub fn run_replicator<K: Label, R: Wait, G: Gate, P: Peer, C: Clock>(
    site: &Site<'_, K, R, G>,
    number: u32,
    pass: Pass<K>,
    peer: &mut P,
    clock: &mut C,
    limit: u64,
) -> (Pass<K>, Ended)
    ensures takes { TakesTurns limit pass result.0 result.1 }
    ensures stops { result.1.turns < limit → G.stops site.now.gate.now }
{
    let mut seat = Seat {
        pass,
        shared: site.shared,
        rt: site.rt,
    };
    let who = number_at_gate(number);
    let mut ended = Ended::default();
    for _turn in 0..limit {
        if site.gate.pass(who, Point::Turn) == Go::Stop {
            break;
        }
        ended.count(&turn(site, number, &mut seat, peer, clock));
    }
    let Seat {
        pass,
        shared: _,
        rt: _,
    } = seat;
    (pass, ended)
}
