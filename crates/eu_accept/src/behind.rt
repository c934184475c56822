//! What comes behind a session, and is read and dropped.
ghost use Rattle.std.specs.Prelude.{◌≡◌, ◌≤◌, false};
ghost use Rattle.eu_accept.specs.Behind.{Drops, behind_by, count_of};
ghost use Rattle.eu_accept.specs.Behind as spec;

use eu_hall::Guest;
use std::io;
use std::io::{ErrorKind, Read};

/// The bytes that are dropped at once.
const PIECE: usize = 4_096;

/// What a read tells of what comes behind a session.
pub(crate) enum Behind {
    /// So many bytes came.
    Came(usize),
    /// More may come later.
    Later,
    /// The peer has ended, or the read has failed.
    End,
}

/// Whether more may come after an error of that kind.
fn may_come(kind: ErrorKind) -> bool
    ensures { result ≡ spec.may_come kind }
{
    matches!(kind, ErrorKind::WouldBlock)
}

/// What a read tells that gave this.
fn told_by(read: io::Result<usize>) -> Behind
    ensures { result ≡ behind_by read }
{
    match read {
        Ok(0) => Behind::End,
        Ok(count) => Behind::Came(count),
        Err(error) if may_come(error.kind()) => Behind::Later,
        Err(_) => Behind::End,
    }
}

/// Reads at most so many bytes, and drops them.
#[tactic(auto, using(crate::proofs::BehindLemmas::told_drops, crate::proofs::BehindLemmas::told_most))]
fn drop_some<S: Read>(socket: &mut S, most: usize) -> Behind
    ensures most { count_of result ≤ most }
    ensures dropped { Drops (S.remaining socket.old) (S.remaining socket.new) 0 (count_of result) }
{
    let mut piece = [0u8; PIECE];
    let room = PIECE.min(most);
    told_by(socket.read(&mut piece[..room]))
}

/// Reads what has come and drops it, where so many bytes were dropped before, until `most` were. Tells how many were then, and whether more may come.
#[tactic(auto, using(crate::proofs::BehindLemmas::drops_nothing, crate::proofs::BehindLemmas::drops_more, crate::proofs::BehindLemmas::drops_none))]
fn drop_up_to<S: Read>(socket: &mut S, before: usize, most: usize) -> (usize, bool)
    ensures within { before ≤ most → result.0 ≤ most }
    ensures enough { most ≤ result.0 → result.1 ≡ false }
    ensures counted { Drops (S.remaining socket.old) (S.remaining socket.new) before result.0 }
{
    let mut dropped = before;
    for _piece in 0..most {
        if dropped >= most {
            break;
        }
        match drop_some(socket, most - dropped) {
            Behind::Came(count) => dropped += count,
            Behind::Later => return (dropped, true),
            Behind::End => return (dropped, false),
        }
    }
    (dropped, false)
}

/// Reads what has come behind the session of a connection and drops it, until `most` bytes were dropped of it. Tells whether more may come.
pub(crate) fn drop_what_came<S: Read, T>(guest: &mut Guest<S, T>, most: usize) -> bool
    ensures kept { guest.new ≡ record guest.old { socket = guest.new.socket; dropped = guest.new.dropped } }
    ensures within { guest.old.dropped ≤ most → guest.new.dropped ≤ most }
    ensures enough { most ≤ guest.new.dropped → result ≡ false }
    ensures counted { Drops (S.remaining guest.old.socket) (S.remaining guest.new.socket) guest.old.dropped guest.new.dropped }
{
    let (dropped, more) = drop_up_to(&mut guest.socket, guest.dropped, most);
    guest.dropped = dropped;
    more
}
