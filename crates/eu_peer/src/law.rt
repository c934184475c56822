//! What becomes of a batch that stayed in flight.
ghost use Rattle.eu_peer.specs.Law.{BusyTurnsWait};

use crate::peer::Peer;
use eu_clock::Clock;
use eu_model::Desk;

/// A law without code: a turn for a peer to whom a batch stayed in flight, as the turn that sent it found no memory for its end, asks for `Lost` and
/// nothing else, and gives `Waiting`, or the fault by which that was refused. That is where every drain for the peer is refused by `Busy`.
pub fn busy_turns_wait<D: Desk, P: Peer, C: Clock>()
    ensures { BusyTurnsWait D.asked P.submits C.tells }
{}
